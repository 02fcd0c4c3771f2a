//! Filters in JSON and in text that are the same.
use filters::{FilterLanguage, FilterOptions};
use fixtures::{Table, TableFault, cells};
use std::alloc::Global;

// A filter in JSON, and in text: each kind of predicate, expression and function.
const SAME: Table = Table(
    r#"
true; TRUE
false; FALSE
{"op":"and","args":[{"op":"=","args":[{"property":"ZIPL"},1]},{"op":"=","args":[{"property":"ZIPR"},2]},{"op":"=","args":[{"property":"TLID"},3]}]};
  ZIPL = 1 AND ZIPR = 2 AND TLID = 3
{"op":"or","args":[{"op":"=","args":[{"property":"ZIPL"},1]},
  {"op":"and","args":[{"op":"=","args":[{"property":"ZIPR"},2]},{"op":"=","args":[{"property":"TLID"},3]}]}]};
  ZIPL = 1 OR ZIPR = 2 AND TLID = 3
{"op":"and","args":[{"op":"or","args":[{"op":"=","args":[{"property":"ZIPL"},1]},
  {"op":"=","args":[{"property":"ZIPR"},2]}]},{"op":"=","args":[{"property":"TLID"},3]}]};
  (ZIPL = 1 OR ZIPR = 2) AND TLID = 3
{"op":"not","args":[{"op":"=","args":[{"property":"ZIPL"},1]}]}; NOT ZIPL = 1
{"op":"<>","args":[{"property":"FRADDL"},-5]}; FRADDL <> -5
{"op":"<","args":[{"property":"FRLONG"},-86.5]}; FRLONG < -86.5
{"op":"<=","args":[{"property":"FRADDL"},{"property":"TOADDL"}]}; FRADDL <= TOADDL
{"op":">","args":[{"property":"FENAME"},"Main"]}; FENAME > 'Main'
{"op":">=","args":[{"property":"FENAME"},{"property":"FETYPE"}]}; FENAME >= FETYPE
{"op":"=","args":[{"property":"FENAME"},"O'Hara"]}; FENAME = 'O''Hara'
{"op":"=","args":[5,{"property":"ZIPL"}]}; 5 = ZIPL
{"op":"like","args":[{"property":"FENAME"},"%Cre_k\\%"]}; FENAME LIKE '%Cre_k\%'
{"op":"not","args":[{"op":"like","args":[{"property":"CFCC"},"A4%"]}]}; CFCC NOT LIKE 'A4%'
{"op":"between","args":[{"property":"FRLAT"},32.4,32.5]}; FRLAT BETWEEN 32.4 AND 32.5
{"op":"not","args":[{"op":"between","args":[{"property":"FRADDL"},1,{"property":"TOADDL"}]}]}; FRADDL NOT BETWEEN 1 AND TOADDL
{"op":"in","args":[{"property":"CFCC"},["A41","A61"]]}; CFCC IN ('A41', 'A61')
{"op":"not","args":[{"op":"in","args":[{"property":"ZIPL"},[1,{"property":"ZIPR"}]]}]}; ZIPL NOT IN (1, ZIPR)
{"op":"isNull","args":[{"property":"FEDIRP"}]}; FEDIRP IS NULL
{"op":"not","args":[{"op":"isNull","args":[{"property":"FRLAT"}]}]}; FRLAT IS NOT NULL
{"op":"=","args":[{"op":"casei","args":[{"property":"FENAME"}]},{"op":"casei","args":["main"]}]}; CASEI(FENAME) = CASEI('main')
{"op":"<>","args":[{"op":"accenti","args":[{"property":"FENAME"}]},{"op":"accenti","args":["Pe\u00f1a"]}]}; ACCENTI(FENAME) <> ACCENTI('Peña')
{"op":"like","args":[{"op":"casei","args":[{"op":"accenti","args":[{"property":"FENAME"}]}]},{"op":"casei","args":[{"op":"accenti","args":["pe%"]}]}]};
  CASEI(ACCENTI(FENAME)) LIKE CASEI(ACCENTI('pe%'))
{"op":"in","args":[{"op":"casei","args":[{"property":"FETYPE"}]},[{"op":"casei","args":["st"]},{"op":"casei","args":["ave"]}]]};
  CASEI(FETYPE) IN (CASEI('st'), CASEI('ave'))
{"op":"=","args":[{"op":"%","args":[{"property":"FRADDL"},2]},1]}; FRADDL % 2 = 1
{"op":"<","args":[{"op":"-","args":[{"property":"TOADDL"},{"op":"*","args":[{"property":"FRADDL"},2]}]},
  {"op":"div","args":[{"op":"+","args":[{"property":"ZIPL"},7]},3]}]};
  TOADDL - FRADDL * 2 < (ZIPL + 7) div 3
{"op":"<","args":[{"op":"-","args":[{"property":"TOLONG"},{"property":"FRLONG"}]},0.01]}; TOLONG - FRLONG < 0.01
{"op":"HAS_NUMBER","args":[1785]}; HAS_NUMBER(1785)
{"op":"HAS_NAME","args":["Main"]}; HAS_NAME('Main')
{"op":"has_name","args":["Main",5]}; HAS_NAME('Main', 5)
{"op":"STARTS_IN","args":[{"bbox":[-86.7,32.4,-86.6,32.5]}]}; STARTS_IN(BBOX(-86.7, 32.4, -86.6, 32.5))
"#,
);

/// Compiles a filter in a language.
fn program(alloc: Global, language: FilterLanguage, text: &str) -> Option<Vec<u8>> {
    let options = FilterOptions {
        language,
        score: None,
        filter_alloc: alloc,
    };
    options.program(alloc, text.as_bytes()).ok()
}

/// Returns whether both filters of a row compile to one program.
fn are_same(alloc: Global, row: &str) -> Result<bool, TableFault> {
    let (json, text) = cells(row)?.two()?;
    let json = program(alloc, FilterLanguage::Json, json);
    let text = program(alloc, FilterLanguage::Text, text);
    match (json, text) {
        (Some(json), Some(text)) => Ok(json.as_slice() == text.as_slice()),
        _ => Ok(false),
    }
}

#[test]
fn same_programs(rt: HostRuntime) {
    for row in SAME.joined(rt.alloc()).expect(&rt, "same").lines() {
        assert_eq!(rt; are_same(rt.alloc(), row), Ok(true), "{row}");
    }
}
