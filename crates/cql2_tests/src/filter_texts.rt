//! Filters read from texts, with results worked out by hand.
use crate::function_texts::{push_bytes, push_function};
use cql2::{
    Column, Comparison, Expression, Filter, Folding, Operator, Pattern, PatternPart, column_name,
};
use cql2_text::{Construct, FilterFault, FilterFaultKind, read};
use fixtures::{Table, TableFault, bytes, cells};
use refusals::Fault;
use std::alloc::{AllocError, Global};
use std::test::Fail;

// A text and the filter it is read as, in prefix notation. A coordinate is in millionths, and a text in Latin-1. In a pattern, `?` is any byte,
// `~x` an x in either case, `^x` one with or without an accent, `~^x` both, and `*` any number of bytes.
const READ: Table = Table(
    r#"
ZIPL = 36067; (= ZIPL 36067)
zipl=+36067; (= ZIPL 36067)
"Fename" = 'Main'; (= FENAME Main)
TLID<>-5; (<> TLID -5)
a; 1 1 UnknownColumn
FRADDL < 1 OR FRADDL >= 2 AND FRADDL <= 3; (or (< FRADDL 1) (and (>= FRADDL 2) (<= FRADDL 3)))
(FRADDL < 1 OR FRADDL >= 2) AND FRADDL > 3; (and (or (< FRADDL 1) (>= FRADDL 2)) (> FRADDL 3))
TRUE AND FALSE AND TRUE; (and (and (true) (false)) (true))
TRUE OR FALSE OR TRUE; (or (or (true) (false)) (true))
NOT TRUE AND FALSE; (and (not (true)) (false))
NOT (TRUE AND FALSE); (not (and (true) (false)))
NOT NOT TRUE; 1 5 Syntax
Not(Not(True)); (not (not (true)))
FENAME = 'O''Hara  '; (= FENAME O'Hara)
FENAME >= '  A B'; (>= FENAME   A B)
FENAME = '¡¿À÷ÿ~'; (= FENAME ¡¿À÷ÿ~)
FENAME = 'é€'; 1 12 Syntax
FENAME = '123456789012345678901234567890  '; (= FENAME 123456789012345678901234567890)
FENAME = '1234567890123456789012345678901'; 1 10 LongText
FENAME = '   '; 1 10 LongText
CFCC <> 'A41'; (<> CFCC A41)
CFCC = 'A410'; 1 8 LongText
RT = '1' AND VERSION = '1006' AND SIDE1 = '1' AND SOURCE = 'A';
  (and (and (and (= RT 1) (= VERSION 1006)) (= SIDE1 1)) (= SOURCE A))
COUSUBL = '92000' OR COUSUBR < '9'; (or (= COUSUBL 92000) (< COUSUBR 9))
FRIADDL = '1' OR toiaddl = '0' OR "Friaddr" IS NULL OR TOIADDR <> '1'; (or (or (or (= FRIADDL 1) (= TOIADDL 0)) (null FRIADDR)) (<> TOIADDR 1))
FRIADDL = 1; 1 11 WrongType
FRADDL_TEXT = '164-20' OR toaddl_text <> '9' OR "Fraddr_Text" IS NULL; (or (or (= FRADDL_TEXT 164-20) (<> TOADDL_TEXT 9)) (null FRADDR_TEXT))
TOADDR_TEXT LIKE '%-%'; (like TOADDR_TEXT *-*)
FRADDL_TEXT < TOADDL_TEXT; (< FRADDL_TEXT TOADDL_TEXT)
FRADDL_TEXT = 164; 1 15 WrongType
FRADDL_TEXT = FRADDL; 1 15 Syntax
FRADDL = '164-20'; 1 10 WrongType
TOADDR_TEXT = '12345678-90'; (= TOADDR_TEXT 12345678-90)
TOADDR_TEXT = '123456789-01'; 1 15 LongText
TOIADDR = '10'; 1 11 LongText
CFCC = 5; 1 8 WrongType
ZIPL = '5'; 1 8 WrongType
ZIPL = ZIPR; (= ZIPL ZIPR)
5 = ZIPL; (= ZIPL 5)
5 < ZIPL AND 5 >= ZIPL; (and (> ZIPL 5) (<= ZIPL 5))
1 <= 2; (<= 1 2)
FENAME <> FETYPE; (<> FENAME FETYPE)
'A41' > CFCC; (< CFCC A41)
FENAME = FRADDL; 1 10 Syntax
ZIPL = FENAME; 1 8 WrongType
FRADDL + 1 = TOADDL; (= (+ FRADDL 1) TOADDL)
FRADDL - 1 - -2 > 0; (> (- (- FRADDL 1) -2) 0)
FRADDL-1=0; (= (- FRADDL 1) 0)
ZIPL + 2 * ZIPR % 3 div 4 = 1; (= (+ ZIPL (div (% (* 2 ZIPR) 3) 4)) 1)
(ZIPL + 2) * 3 = 1; (= (* (+ ZIPL 2) 3) 1)
-(ZIPL) < - ZIPR; (< (neg ZIPL) (neg ZIPR))
NOT (ZIPL + 1) > 2 AND (ZIPL > 2); (and (not (> (+ ZIPL 1) 2)) (> ZIPL 2))
((ZIPL)) = 5; (= ZIPL 5)
FRADDL % 2 IN (0, TOADDL); (or (= (% FRADDL 2) 0) (= (% FRADDL 2) TOADDL))
FRADDL + 1 NOT BETWEEN ZIPL AND 9; (not (and (>= (+ FRADDL 1) ZIPL) (<= (+ FRADDL 1) 9)))
TOLONG - FRLONG < 0.01; (< (- TOLONG FRLONG) 10000)
FRLONG + 1 = -86.5; (= (+ FRLONG 1000000) -86500000)
FRLONG * 2 = 1; 1 8 WrongType
FRLAT = ZIPL; 1 9 WrongType
FRADDL + 1.5 = 2; 1 10 WrongType
FRADDL / 2 = 1; 1 8 Syntax
FRADDL * FRADDL = 1; 1 8 NumberRange
FRADDL * 46116861 = 1; 1 8 NumberRange
FRADDL * 46116860 = 1; (= (* FRADDL 46116860) 1)
1 + (2 + (3 + ZIPL)) = 1; 1 1 TooDeep
1 + (2 + ZIPL) = 1; (= (+ 1 (+ 2 ZIPL)) 1)
ZIPL = 5.0; 1 8 WrongType
ZIPL = 123456789012345678; (= ZIPL 123456789012345678)
ZIPL = 1234567890123456789; 1 8 NumberRange
ZIPL = 1e5; 1 9 Syntax
FRLONG < -86.5; (< FRLONG -86500000)
FRLAT >= 32.000001; (>= FRLAT 32000001)
TOLONG = 7 OR TOLAT = 0.25; (or (= TOLONG 7000000) (= TOLAT 250000))
TOLAT = 999.999999; (= TOLAT 999999999)
TOLAT = 1000; 1 9 NumberRange
TOLAT = 1.0000001; 1 9 NumberRange
TOLAT = .5; 1 9 Syntax
TOLAT = 5.; 1 10 Syntax
TOLAT = - 5; (= TOLAT -5000000)
CASEI(FENAME) = CASEI('Main 5é'); (like FENAME ~M~a~i~n~ ~5~é)
casei(fename) <> casei('A '); (not (like FENAME ~A))
ACCENTI(FENAME) = ACCENTI('Peñ'); (like FENAME ^P^e^ñ)
accenti(Accenti(FENAME)) IN (ACCENTI('a'), ACCENTI(ACCENTI('b'))); (or (like FENAME ^a) (like FENAME ^b))
CASEI(ACCENTI(FENAME)) LIKE ACCENTI(CASEI('p_%')); (like FENAME ~^p?*)
CASEI(FENAME) = ACCENTI('a'); 1 17 WrongType
CASEI(ACCENTI(FENAME)) = CASEI('a'); 1 26 WrongType
ACCENTI(ZIPL) = ACCENTI('1'); 1 9 WrongType
ACCENTI(FENAME) < ACCENTI('a'); 1 17 WrongType
CASEI(FENAME) < CASEI('A'); 1 15 WrongType
CASEI(FENAME) = 'A'; 1 17 WrongType
FENAME = CASEI('A'); 1 10 WrongType
CASEI(ZIPL) = CASEI('A'); 1 7 WrongType
CASEI(FOO) = CASEI('A'); 1 7 UnknownColumn
CASEI(FENAME) IS NULL; 1 18 WrongType
CASEI(CFCC) = CASEI('A410'); 1 21 LongText
FENAME LIKE 'Ma_n%'; (like FENAME Ma?n*)
FENAME NOT LIKE 'Main'; (not (like FENAME Main))
FENAME LIKE '%n'; (like FENAME *n)
FENAME LIKE 'ab%%'; (like FENAME ab*)
FENAME LIKE '%a%_b\x5c%%'; (like FENAME *a*?b%*)
CFCC LIKE '%%A%41%'; (like CFCC *A*41*)
CFCC LIKE '%A%410'; 1 11 LongText
FENAME LIKE '10\x5c%\x5c_\x5c\x5c''s%'; (like FENAME 10%_\x5c's*)
FENAME LIKE 'a\x5c'; 1 16 Syntax
FENAME LIKE ''; (like FENAME )
FENAME LIKE '%'; (like FENAME *)
CFCC LIKE 'A4_%'; (like CFCC A4?*)
CFCC LIKE 'A4__'; 1 11 LongText
CASEI(FENAME) LIKE CASEI('mA_5%'); (like FENAME ~m~A?~5*)
CASEI(FENAME) NOT LIKE CASEI('\x5cx%'); (not (like FENAME ~x*))
ZIPL LIKE '3%'; 1 6 WrongType
FRADDL BETWEEN 1 AND 9; (and (>= FRADDL 1) (<= FRADDL 9))
FRADDL NOT BETWEEN 1 AND 9 OR TRUE; (or (not (and (>= FRADDL 1) (<= FRADDL 9))) (true))
FRLAT BETWEEN -1.5 AND 9 AND TRUE; (and (and (>= FRLAT -1500000) (<= FRLAT 9000000)) (true))
FRADDL BETWEEN 1 OR 9; 1 18 Syntax
FENAME BETWEEN 'a' AND 'b'; 1 8 WrongType
ZIPL IN (1); (= ZIPL 1)
ZIPL IN (1, 2,3); (or (or (= ZIPL 1) (= ZIPL 2)) (= ZIPL 3))
CFCC NOT IN ('A41', 'A31'); (not (or (= CFCC A41) (= CFCC A31)))
CASEI(FETYPE) IN (CASEI('st'), CASEI('AVE')); (or (like FETYPE ~s~t) (like FETYPE ~A~V~E))
ZIPL IN (); 1 10 Syntax
ZIPL IN (1 2); 1 12 Syntax
ZIPL IN 1; 1 9 Syntax
FENAME IN (FETYPE, 'Main'); (or (= FENAME FETYPE) (= FENAME Main))
FENAME NOT IN ('Main', FETYPE, FEDIRP); (not (or (or (= FENAME Main) (= FENAME FETYPE)) (= FENAME FEDIRP)))
'Main' IN (FENAME); (= FENAME Main)
'N ' NOT IN (FEDIRP, FEDIRS,FENAME); (not (or (or (= FEDIRP N) (= FEDIRS N)) (= FENAME N)))
NOT 'Main' IN (FENAME, FETYPE) AND TRUE; (and (not (or (= FENAME Main) (= FETYPE Main))) (true))
CASEI('Main é') = casei(FENAME); (like FENAME ~M~a~i~n~ ~é)
CASEI('a') <> CASEI(FENAME); (not (like FENAME ~a))
CASEI(ACCENTI('a')) = ACCENTI(CASEI(FENAME)); (like FENAME ~^a)
CASEI('st') IN (CASEI(FETYPE), CASEI(CASEI(FENAME))); (or (like FETYPE ~s~t) (like FENAME ~s~t))
ACCENTI('a') NOT IN (ACCENTI(FENAME)); (not (like FENAME ^a))
'a' = 'b'; 1 7 Syntax
'Main' = ZIPL; 1 10 WrongType
'Main' = FOO; 1 10 UnknownColumn
'A410' = CFCC; 1 1 LongText
'Main' LIKE FENAME; 1 8 Syntax
'Main' NOT LIKE FENAME; 1 12 Syntax
'Main' IN FENAME; 1 11 Syntax
'Main' IN (); 1 12 Syntax
'Main' IN (FENAME; 1 18 Syntax
'Main' IN ('Main', FENAME); 1 12 Syntax
'Main' IN (FENAME, 'Main'); 1 20 Syntax
'Main' IN (FENAME, ZIPL); 1 20 WrongType
'Main' IN (FENAME, FOO); 1 20 UnknownColumn
'A410' IN (FENAME, CFCC); 1 1 LongText
'Main' IN (FENAME, CASEI(FENAME)); 1 1 WrongType
CASEI('a') < CASEI(FENAME); 1 12 WrongType
CASEI('a') = FENAME; 1 1 WrongType
'a' = CASEI(FENAME); 1 1 WrongType
CASEI('a') = ACCENTI(FENAME); 1 1 WrongType
CASEI('a') = CASEI('b'); 1 20 Syntax
CASEI('a') = CASEI(ZIPL); 1 20 WrongType
CASEI('A410') = CASEI(CFCC); 1 7 LongText
CASEI('a' = CASEI(FENAME); 1 11 Syntax
CASEI('a') IS NULL; 1 12 Syntax
ZIPL IS NULL; (null ZIPL)
FEDIRP is not null; (not (null FEDIRP))
ZIPL IS TRUE; 1 9 Syntax
ZIPL NOT = 5; 1 10 Syntax
HAS_NUMBER(12345678901); (number 12345678901)
has_number ( 0 ); (number 0)
HAS_NUMBER(123456789012); 1 12 NumberRange
HAS_NUMBER(-1); 1 12 NumberRange
HAS_NUMBER(1.5); 1 12 WrongType
HAS_NUMBER('1'); 1 12 WrongType
HAS_NUMBER(); 1 12 Syntax
HAS_NAME('Main'); (name 63 Main)
HAS_NAME('County Road 67 ', 0); (name 0 County Road 67)
HAS_NAME('x', 5000); (name 5000 x)
HAS_NAME('x', 5001); 1 15 NumberRange
HAS_NAME('1234567890123456789012345678901'); 1 10 LongText
HAS_NAME(5); 1 10 WrongType
STARTS_IN(BBOX(-87, 32, -86.25, 33)); (starts box -87000000 32000000,-86250000 33000000)
STARTS_IN(-87, 32, -86, 33); 1 11 Syntax
STARTS_IN(BBOX(-87, 32, -86)); 1 28 Syntax
AND = 5; 1 1 Syntax
"AND" = 5; 1 1 UnknownColumn
"ZIPL = 5; 1 1 Syntax
ZIPL = 5 ZIPR; 1 10 Syntax
ZIPL = 5); 1 9 Syntax
(ZIPL = 5; 1 10 Syntax
ZIPL = 5 \x3b; 1 10 Syntax
FOO = 5 \x3b; 1 1 UnknownColumn
ZIPL == 5; 1 7 Syntax
ZIPL < > 5; 1 8 Syntax
FENAME = 'Main; 1 10 Syntax
FENAME = 'é' AND \n  FENAMES = 'x'; 2 3 UnknownColumn
FENAME = 'é' AND ZIPL = 'x'; 1 25 WrongType
FENAME = 'a\nb'; 1 12 Syntax
\n\n  ZIPL\n= 5\n\x3b; 5 1 Syntax
; 1 1 Syntax
\n; 2 1 Syntax
ZIPL5 = 5; 1 1 UnknownColumn
_ZIPL = 5; 1 1 UnknownColumn
ZIPL=5AND ZIPR=6; (and (= ZIPL 5) (= ZIPR 6))
{text (*64}TRUE{text )*64}; (true)
{text (*65}TRUE{text )*65}; 1 65 TooDeep
{text  *524286}TRUE{text  *524286}; (true)
{text  *524287}TRUE{text  *524287}; 1 1048577 TooLong
"#,
);

/// Appends what a comparison ignores.
fn push_folding(text: &mut String, folding: Folding) -> Result<(), AllocError> {
    if folding.case {
        text.push('~')?;
    }
    if folding.accents {
        text.push('^')?;
    }
    Ok(())
}

/// Appends a pattern.
fn push_pattern(text: &mut String, pattern: &Pattern<Global>) -> Result<(), AllocError> {
    for part in &pattern.parts {
        match *part {
            PatternPart::Exactly(byte) => text.push(byte as char)?,
            PatternPart::Alike(folding, byte) => {
                push_folding(text, folding)?;
                text.push(byte as char)?;
            }
            PatternPart::One => text.push('?')?,
            PatternPart::Many => text.push('*')?,
        }
    }
    Ok(())
}

fn sign(comparison: Comparison) -> &'static str {
    match comparison {
        Comparison::Equal => "=",
        Comparison::NotEqual => "<>",
        Comparison::Less => "<",
        Comparison::LessOrEqual => "<=",
        Comparison::Greater => ">",
        Comparison::GreaterOrEqual => ">=",
    }
}

/// Appends the operator and the column.
fn push_subject(text: &mut String, operator: &str, column: Column) -> Result<(), AllocError> {
    text.push_str(operator)?;
    text.push(' ')?;
    text.push_str(column_name(column))
}

fn operator_name(operator: Operator) -> &'static str {
    match operator {
        Operator::Add => "+",
        Operator::Subtract => "-",
        Operator::Multiply => "*",
        Operator::Divide => "div",
        Operator::Remainder => "%",
    }
}

/// Appends a numeric expression.
fn push_expression(
    alloc: Global,
    text: &mut String,
    expression: &Expression<Global>,
) -> Result<(), AllocError> {
    match expression {
        Expression::Literal(literal) => {
            let number = literal.number;
            text.push_str(format!(in alloc; "{number}")?.as_str())
        }
        Expression::Column(column) => text.push_str(column_name(Column::Numeric(*column))),
        Expression::Negated(inner) => {
            text.push_str("(neg ")?;
            push_expression(alloc, text, inner)?;
            text.push(')')
        }
        Expression::Combined(operator, first, second) => {
            text.push('(')?;
            text.push_str(operator_name(*operator))?;
            text.push(' ')?;
            push_expression(alloc, text, first)?;
            text.push(' ')?;
            push_expression(alloc, text, second)?;
            text.push(')')
        }
    }
}

/// Appends a filter that has no others in it, without parentheses.
fn push_leaf(alloc: Global, text: &mut String, filter: &Filter<Global>) -> Result<(), AllocError> {
    match filter {
        Filter::Constant(value) => text.push_str(if *value { "true" } else { "false" }),
        Filter::IsNull(column) => push_subject(text, "null", *column),
        Filter::CompareNumber(column, comparison, literal) => {
            push_subject(text, sign(*comparison), Column::Numeric(*column))?;
            let number = literal.number;
            text.push_str(format!(in alloc; " {number}")?.as_str())
        }
        Filter::CompareNumbers(first, comparison, second) => {
            text.push_str(sign(*comparison))?;
            text.push(' ')?;
            push_expression(alloc, text, &first.expression)?;
            text.push(' ')?;
            push_expression(alloc, text, &second.expression)
        }
        Filter::CompareTexts(first, comparison, second) => {
            push_subject(text, sign(*comparison), Column::Text(*first))?;
            text.push(' ')?;
            text.push_str(column_name(Column::Text(*second)))
        }
        Filter::CompareText(column, comparison, wanted) => {
            push_subject(text, sign(*comparison), Column::Text(*column))?;
            text.push(' ')?;
            push_bytes(text, &wanted.bytes)
        }
        Filter::Like(column, pattern) => {
            push_subject(text, "like", Column::Text(*column))?;
            text.push(' ')?;
            push_pattern(text, pattern)
        }
        Filter::Function(function) => push_function(alloc, text, function),
        _ => text.push_str("no leaf"),
    }
}

/// Appends a filter in parentheses.
fn push_filter(
    alloc: Global,
    text: &mut String,
    filter: &Filter<Global>,
) -> Result<(), AllocError> {
    text.push('(')?;
    match filter {
        Filter::And(first, second) => {
            text.push_str("and ")?;
            push_filter(alloc, text, first)?;
            text.push(' ')?;
            push_filter(alloc, text, second)?;
        }
        Filter::Or(first, second) => {
            text.push_str("or ")?;
            push_filter(alloc, text, first)?;
            text.push(' ')?;
            push_filter(alloc, text, second)?;
        }
        Filter::Not(inner) => {
            text.push_str("not ")?;
            push_filter(alloc, text, inner)?;
        }
        _ => push_leaf(alloc, text, filter)?,
    }
    text.push(')')
}

/// Returns the flaw's name in a row.
fn flaw_name(flaw: FilterFaultKind) -> &'static str {
    match flaw {
        FilterFaultKind::Syntax(_expected) => "Syntax",
        FilterFaultKind::UnknownColumn => "UnknownColumn",
        FilterFaultKind::WrongType | FilterFaultKind::Folded => "WrongType",
        FilterFaultKind::NumberRange => "NumberRange",
        FilterFaultKind::LongText => "LongText",
        FilterFaultKind::TooDeep => "TooDeep",
        FilterFaultKind::TooLong | FilterFaultKind::ManyVertices => "TooLong",
    }
}

/// Returns what a text is read as, or why it is refused.
fn outcome(alloc: Global, text: &[u8]) -> Result<String, AllocError> {
    match read(alloc, text) {
        Ok(filter) => {
            let mut written = String::new(alloc);
            push_filter(alloc, &mut written, &filter)?;
            Ok(written)
        }
        Err(FilterFault::At { line, column, flaw }) => {
            let name = flaw_name(flaw);
            format!(in alloc; "{line} {column} {name}")
        }
        Err(FilterFault::Memory) => String::from_str(alloc, "memory"),
    }
}

/// Returns whether a text is read as its row says.
pub(crate) fn is_read(alloc: Global, row: &str) -> Result<bool, TableFault> {
    let (text, wanted) = cells(row)?.two()?;
    let (text, wanted) = (bytes(alloc, text)?, bytes(alloc, wanted)?);
    Ok(outcome(alloc, &text)?.as_bytes() == wanted.as_slice())
}

#[test]
fn reads(rt: HostRuntime) {
    for row in READ.joined(rt.alloc()).expect(&rt, "read").lines() {
        assert_eq!(rt; is_read(rt.alloc(), row), Ok(true), "{row}");
    }
}

// A chain of 20,000 operators.
const CHAIN: &str = "{text FALSE AND *10000}TRUE{text  OR TRUE*10000}";

#[test]
fn chains(rt: HostRuntime) -> Result<(), Fail> {
    let chain = bytes(rt.alloc(), CHAIN)?;
    assert!(rt; read(rt.alloc(), &chain).is_ok());
    Ok(())
}

#[test]
fn bad_bytes(rt: HostRuntime) {
    let fault = FilterFault::At {
        line: 2,
        column: 3,
        flaw: FilterFaultKind::Syntax(Construct::Utf8),
    };
    let given = read(rt.alloc(), b"\n'\xc3\xa9\xff'").err();
    assert!(rt; given == Some(fault));
    assert!(rt; fault.line().as_str() == "refused 90 line 2 column 3 Syntax");
}

// A text, and the column name near to the unknown one in it.
const NEAREST: Table = Table(
    r#"
fenam = 1; FENAME
NAME = 1; FENAME
é = 1; none
ZIPL = 1 AND \n FENAME = 'é' OR "zip" = 2; ZIPL
TLIDD=1; TLID
TRUE AND (frlon > 2); FRLONG
CFC; CFCC
FRIADD = '1'; FRIADDL
FRADDL_TXT = '1'; FRADDL_TEXT
toaddrtext = '1'; TOADDR_TEXT
STREET = 'x'; none
FOO = 1; none
ZIPL = 'x'; none
"#,
);

/// Returns the column name near to the unknown one in a text.
fn nearest_in(alloc: Global, text: &[u8]) -> &'static str {
    let fault = read(alloc, text).err();
    fault
        .and_then(|fault| fault.nearest_column(text))
        .unwrap_or("none")
}

/// Returns whether the column name that is near is the one in the row.
fn is_nearest(alloc: Global, row: &str) -> Result<bool, TableFault> {
    let (text, wanted) = cells(row)?.two()?;
    let text = bytes(alloc, text)?;
    Ok(nearest_in(alloc, &text) == wanted)
}

#[test]
fn nearest_names(rt: HostRuntime) {
    for row in NEAREST.joined(rt.alloc()).expect(&rt, "nearest").lines() {
        assert_eq!(rt; is_nearest(rt.alloc(), row), Ok(true), "{row}");
    }
}

// A text as other query languages have it, and what to write.
const HINTS: Table = Table(
    r#"
S_CONTAINS(geometry, POINT(1 2)); write S_INTERSECTS, S_DISJOINT or S_WITHIN
TRUE AND within(5); write S_WITHIN(geometry, BBOX(west, south, east, north))
S_WITHIN(geometry, POLYGON((0 0, 1 0, 1 1, 0 0))); write S_WITHIN(geometry, BBOX(west, south, east, north))
S_INTERSECTS(geometry, MULTIPOINT((1 2))); write S_INTERSECTS once for each shape, with OR between them
UPPER(FENAME) = 'MAIN'; write CASEI on both sides
lower(FENAME) = 'main'; write CASEI on both sides
ZIPL != 5; write <>
ZIPL == 5; write a single sign, such as = or <=
ZIPL => 5; write a single sign, such as = or <=
FENAME = "Main"; write single quotes, since double quotes are for the name of a column
ZIPL = '36067'; write a number, without quotes
FOO = 5; none
FENAME = 5; none
ZIPL = 5 OR; none
"#,
);

/// Returns whether the hint for a text is the one in the row.
fn is_hinted(alloc: Global, row: &str) -> Result<bool, TableFault> {
    let (text, wanted) = cells(row)?.two()?;
    let text = bytes(alloc, text)?;
    let hint = read(alloc, &text).err().and_then(|fault| fault.hint(&text));
    let written = match hint {
        Some(hint) => format!(in alloc; "{hint}")?,
        None => String::from_str(alloc, "none")?,
    };
    Ok(written.as_str() == wanted)
}

#[test]
fn hints(rt: HostRuntime) {
    for row in HINTS.joined(rt.alloc()).expect(&rt, "hints").lines() {
        assert_eq!(rt; is_hinted(rt.alloc(), row), Ok(true), "{row}");
    }
}
