//! Translating JSON to text, and finding the value that a character of the text is from.
//!
//! JSON is translated instead of parsed, so both encodings have one grammar and one compiler. Nobody sees the text, so a refusal of it is
//! reported at the value that wrote the character at fault. No map from characters to values is kept: `pointer_at` translates again, up to that
//! character, and the value that would pass this limit is the one.
//!
//! A text is one line without control characters, so a column alone finds a character.
ghost use Rattle.std.specs.Prelude.{◌≡◌, ◌≤◌, ℕ, List, [], length, take, true, unwrap_or, IfOk, IfErr, MatchResult, Ok, Some};
ghost use Rattle.std.specs.Str.{IsUtf8};
ghost use Rattle.json.specs.Json.{Json, document};
ghost use Rattle.json.specs.Tree.{HasNumbers};
ghost use Rattle.json.specs.Value.{value_view};
ghost use Rattle.cql2_json.specs.Fault.{IsPointed, IsTranslated, Refuses, RefusesValue, json_fault_after};
ghost use Rattle.cql2_json.specs.Pointer.{pointer_text};
ghost use Rattle.cql2_json.specs.Position.{offset_of};
ghost use Rattle.cql2_json.specs.Quoted.{is_printable};
ghost use Rattle.cql2_json.specs.Translation.{Piece, filter_translation, path_at, text_of};
ghost use Rattle.cql2_json.specs.declared.fault.JsonFault.TheVariants as json_fault;

use crate::fault::{Flaw, JsonFault, JsonFlaw, ValueFlaw};
use crate::form::ValueKind;
use crate::pointer::{Step, pointer};
use crate::position::{column_after, line_after, offset_of};
use crate::writer::Writer;
use json::{MAX_DEPTH, Reader, Scratch, Value};
use std::alloc::{AllocError, Allocator};

/// The maximum number of bytes in the JSON, and in the text.
pub const MAX_LENGTH: usize = 1_048_576;

/// Translates a filter in JSON to text.
pub fn translate<A: Allocator + Copy>(alloc: A, json: &[u8]) -> Result<Vec<u8, A>, JsonFault<A>>
    ensures ok { IfOk result (IsTranslated json.now MAX_LENGTH) }
    ensures one_line { IfOk result (λ text. is_printable text.items ≡ true) }
    ensures err { IfErr result (Refuses json.now MAX_LENGTH) }

    // JSON whose value has a text is translated to it, unless either is too long or an allocation fails.
    ensures only { length json.now ≤ MAX_LENGTH → IsUtf8 json.now → (value : Json) (text : List ℕ) → document json.now ≡ Some value
        → text_of value ≡ Some text → length text ≤ MAX_LENGTH
        → MatchResult result (λ made. made.items ≡ text) (λ fault. fault ≡ json_fault.Memory) }
{
    text_up_to(alloc, json, MAX_LENGTH)
}

/// Returns the JSON pointer to the innermost value that writes the character at a column of the text that JSON is translated to.
pub fn pointer_at<A: Allocator + Copy>(
    alloc: A,
    json: &[u8],
    text: &[u8],
    column: u32,
) -> Result<Vec<u8, A>, AllocError>
    // Past the end of the text this is the pointer to the whole value.
    ensures { length json.now ≤ MAX_LENGTH → IsUtf8 json.now → (value : Json) (pieces : List Piece) → document json.now ≡ Some value
        → filter_translation value ≡ Ok pieces
        → IfOk result (λ pointer. pointer.items ≡ pointer_text (unwrap_or (path_at pieces (offset_of column text.now)) [])) }
{
    match text_up_to(alloc, json, offset_of(text, column)) {
        Ok(_) => Ok(Vec::new(alloc)),
        Err(JsonFault::Value { pointer, .. }) => Ok(pointer),
        Err(JsonFault::Json { .. }) => Ok(Vec::new(alloc)),
        Err(JsonFault::Memory) => Err(AllocError),
    }
}

/// Translates JSON to a text of up to `limit` bytes.
fn text_up_to<A: Allocator + Copy>(
    alloc: A,
    json: &[u8],
    limit: usize,
) -> Result<Vec<u8, A>, JsonFault<A>>
    ensures value { MatchResult result (IsTranslated json.now limit) (Refuses json.now limit) }
    ensures one_line { IfOk result (λ text. is_printable text.items ≡ true) }
{
    if json.len() > MAX_LENGTH {
        return Err(fault_after(&json[..MAX_LENGTH], JsonFlaw::TooLong));
    }
    match std::str::from_utf8(json) {
        Ok(text) => text_of_json(alloc, text, limit),
        Err(error) => Err(fault_after(&json[..error.valid_up_to()], JsonFlaw::Utf8)),
    }
}

/// Translates JSON that is UTF-8 to a text of up to `limit` bytes.
fn text_of_json<A: Allocator + Copy>(
    alloc: A,
    json: &str,
    limit: usize,
) -> Result<Vec<u8, A>, JsonFault<A>>
    requires { length json.now ≤ MAX_LENGTH }
    ensures value { MatchResult result (IsTranslated json.now limit) (Refuses json.now limit) }
    ensures one_line { IfOk result (λ text. is_printable text.items ≡ true) }
{
    let mut scratch = Scratch::new(alloc);
    let mut reader = Reader::new(json, &mut scratch)?;
    let value = match Value::read(alloc, &mut reader, MAX_DEPTH) {
        Ok(value) => value,
        Err(json::Error::Invalid) => {
            return Err(syntax_fault(json.as_bytes(), reader.offset()));
        }
        // No other error comes but that an allocation failed.
        Err(_) => return Err(JsonFault::Memory),
    };
    match reader.next() {
        Some(_) => Err(syntax_fault(json.as_bytes(), reader.offset())),
        None => text_of_value(alloc, &value, limit),
    }
}

/// Translates a value to a text of up to `limit` bytes.
fn text_of_value<A: Allocator + Copy>(
    alloc: A,
    value: &Value<'_, A>,
    limit: usize,
) -> Result<Vec<u8, A>, JsonFault<A>>
    requires { HasNumbers (value_view value.now) }
    ensures value { MatchResult result (λ text. (text_of (value_view value.now) ≡ Some text.items) × (length text.items ≤ limit))
        (RefusesValue (value_view value.now) limit) }
    ensures one_line { IfOk result (λ text. is_printable text.items ≡ true) }
{
    let mut writer = Writer {
        text: Vec::new(alloc),
        path: Vec::new(alloc),
        limit,
    };
    match writer.value(alloc, value, ValueKind::Expression) {
        Ok(()) => Ok(writer.text),
        Err(Flaw::Memory) => Err(JsonFault::Memory),
        Err(Flaw::TooLong) => Err(value_fault(alloc, &writer.path, ValueFlaw::TooLong)),
        Err(Flaw::Expected(expected)) => {
            Err(value_fault(alloc, &writer.path, ValueFlaw::Expected(expected)))
        }
    }
}

/// Returns the fault at the value that a path leads to.
fn value_fault<A: Allocator + Copy>(alloc: A, path: &[Step], flaw: ValueFlaw) -> JsonFault<A>
    ensures { IsPointed path.now flaw result }
{
    match pointer(alloc, path) {
        Ok(pointer) => JsonFault::Value { pointer, flaw },
        Err(_) => JsonFault::Memory,
    }
}

/// Returns the fault where the reader of JSON stopped.
fn syntax_fault<A: Allocator>(json: &[u8], offset: usize) -> JsonFault<A>
    requires { length json.now ≤ MAX_LENGTH }
    ensures { result ≡ json_fault_after (take offset json.now) JsonFlaw.Syntax }
{
    if offset < json.len() {
        fault_after(&json[..offset], JsonFlaw::Syntax)
    } else {
        fault_after(json, JsonFlaw::Syntax)
    }
}

/// Returns the fault for a flaw after this prefix of a text.
fn fault_after<A: Allocator>(front: &[u8], flaw: JsonFlaw) -> JsonFault<A>
    requires { length front.now ≤ MAX_LENGTH }
    ensures { result ≡ json_fault_after front.now flaw }
{
    JsonFault::Json {
        line: line_after(front),
        column: column_after(front),
        flaw,
    }
}
