//! What is reported of filters without a program, worked out by hand.
use filters::{FilterFailure, FilterLanguage, FilterOptions};
use fixtures::{Refusing, Table, TableFault, bytes, cells};
use std::alloc::{AllocError, Global};

// The language of a filter, the filter and what is reported. `\x7b` and `\x7d` are braces.
const FAILURES: Table = Table(
    r#"
text; ZIPL =; refused 90 line 1 column 7 Syntax\nexpected a number\n
json; [tru; refused 90 line 1 column 2 Syntax\nexpected JSON\n
json; null; refused 90 Syntax\nexpected true, false, a number, a string or an object\n
json; \x7b"op":"=","args":[\x7b"property":"ZIP"\x7d,1]\x7d;
  refused 91 pointer /args/0/property UnknownColumn\nno column has this name, and the nearest is ZIPL\n
"#,
);

fn language_of(word: &str) -> Result<FilterLanguage, TableFault> {
    match word {
        "text" => Ok(FilterLanguage::Text),
        "json" => Ok(FilterLanguage::Json),
        _ => Err(TableFault::Word),
    }
}

/// Returns whether this is the failure's text, and whether there is none if any of its allocations is refused.
fn has_text(failure: &FilterFailure, heap: &Refusing<Global>, expected: &[u8]) -> bool {
    for nth in 1..=u64::MAX {
        heap.refuse(nth);
        match failure.text(heap) {
            Ok(text) => return !heap.was_refused() && text.as_slice() == expected,
            Err(AllocError) => {
                if !heap.was_refused() {
                    return false;
                }
            }
        }
    }
    false
}

fn is_right(alloc: Global, row: &str) -> Result<bool, TableFault> {
    let (language, filter, text) = cells(row)?.three()?;
    let options = FilterOptions {
        language: language_of(language)?,
        score: None,
        filter_alloc: alloc,
    };
    let (filter, text) = (bytes(alloc, filter)?, bytes(alloc, text)?);
    match options.verified(&filter) {
        Ok(_verified) => Ok(false),
        Err(failure) => Ok(has_text(&failure, &Refusing::new(alloc), &text)),
    }
}

#[test]
fn each_growth(rt: HostRuntime) {
    for row in FAILURES.joined(rt.alloc()).expect(&rt, "failures").lines() {
        assert_eq!(rt; is_right(rt.alloc(), row), Ok(true), "{row}");
    }
}
