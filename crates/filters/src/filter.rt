//! Filters in a language, and the programs they compile to.
ghost use Rattle.std.specs.Prelude.{◌≡◌, ◌<◌, ◌≤◌, length, IfErr, IfOk, IsErrAnd};
ghost use Rattle.cql2_text.specs.Spelled.{IsFilterText};
ghost use Rattle.cql2_text.specs.declared.reader.TheConstants.{MAX_TEXT_LENGTH};
ghost use Rattle.filters.specs.Failure.{IsOfFilter};
ghost use Rattle.filters.specs.Filter.{IsCodeOfText, IsFilterFailure, IsOfJsonText, IsProgramOf, Spells, length_fault};
ghost use Rattle.filters.specs.declared.filter.FilterLanguage.TheVariants as language;

use crate::failure::{FilterFailure, filter_note, flaw_note};
use arrayvec::ArrayString;
use bpf_insn::{Code, encode};
use bpf_program::accept_code;
use bpf_verify::Verified;
use cql2::{Filter, NumericColumn};
use cql2_code::compile;
use cql2_json::{pointer_at, translate};
use cql2_text::{FilterFault, FilterFaultKind, Hint, MAX_TEXT_LENGTH, read};
use std::alloc::{Allocator, Global};

/// The language of a filter: the text or the JSON encoding of CQL2.
#[derive(Clone, Copy)]
pub enum FilterLanguage {
    Text,
    Json,
}

/// The options for compiling a filter.
#[derive(Clone, Copy)]
pub struct FilterOptions {
    pub language: FilterLanguage,
    /// The column whose number is a selected segment's score. Without one, the score is 0.
    pub score: Option<NumericColumn>,
    /// The filter's allocator, which is part of its type.
    pub filter_alloc: Global,
}

impl FilterOptions {
    /// Compiles the filter in a text and returns the program's bytes.
    pub fn program<A: Allocator + Copy>(
        self,
        alloc: A,
        text: &[u8],
    ) -> Result<Vec<u8, A>, FilterFailure>
        ensures ok { IfOk result (λ program. IsProgramOf text.now self program.items) }
        ensures err { IfErr result (IsFilterFailure text.now self) }
        ensures too_long { MAX_TEXT_LENGTH < length text.now → IsErrAnd result (IsOfFilter (length_fault text.now)) }
    {
        match self.code(text) {
            Ok(code) => Ok(encode(alloc, &code)?),
            Err(failure) => Err(failure),
        }
    }

    /// Compiles the filter in a text for `bpf_machine::run`.
    pub fn verified(self, text: &[u8]) -> Result<Verified<Global>, FilterFailure>
        ensures ok { IfOk result (λ verified. IsCodeOfText text.now self verified.code) }
        ensures err { IfErr result (IsFilterFailure text.now self) }
        ensures too_long { MAX_TEXT_LENGTH < length text.now → IsErrAnd result (IsOfFilter (length_fault text.now)) }
    {
        let code = match self.code(text) {
            Ok(code) => code,
            Err(failure) => return Err(failure),
        };
        match accept_code(self.filter_alloc, code) {
            Ok(verified) => Ok(verified),
            // The verifier accepts the compiler's code, so only an allocation can fail.
            Err(_fault) => Err(FilterFailure::Memory),
        }
    }

    /// Compiles the filter in a text.
    fn code(self, text: &[u8]) -> Result<Code<Global>, FilterFailure>
        ensures ok { IfOk result (IsCodeOfText text.now self) }
        ensures err { IfErr result (IsFilterFailure text.now self) }
        ensures too_long { MAX_TEXT_LENGTH < length text.now → IsErrAnd result (IsOfFilter (length_fault text.now)) }
    {
        let filter = match self.filter(text) {
            Ok(filter) => filter,
            Err(failure) => return Err(failure),
        };
        let fault = match compile(self.filter_alloc, &filter, self.score) {
            Ok(code) => return Ok(code),
            Err(fault) => fault,
        };
        match self.language {
            FilterLanguage::Text => Err(FilterFailure::of_compile(fault)),
            FilterLanguage::Json => Err(FilterFailure::of_json_program(self.filter_alloc, fault)),
        }
    }

    /// Reads the filter in a text.
    fn filter(self, text: &[u8]) -> Result<Filter<Global>, FilterFailure>
        ensures ok { IfOk result (Spells self.language text.now) }
        ensures err { IfErr result (IsFilterFailure text.now self) }
        ensures too_long { MAX_TEXT_LENGTH < length text.now → IsErrAnd result (IsOfFilter (length_fault text.now)) }
    {
        match self.language {
            FilterLanguage::Text => read_text(self, text),
            FilterLanguage::Json => read_json(self, text),
        }
    }
}

/// Reads a filter in the text encoding. JSON that is too long is refused as such a text is.
fn read_text(options: FilterOptions, text: &[u8]) -> Result<Filter<Global>, FilterFailure>
    ensures ok { IfOk result (IsFilterText text.now) }
    ensures err { options.language ≡ language.Text → IfErr result (IsFilterFailure text.now options) }
    ensures too_long { MAX_TEXT_LENGTH < length text.now → IsErrAnd result (IsOfFilter (length_fault text.now)) }
{
    match read(options.filter_alloc, text) {
        Ok(filter) => Ok(filter),
        Err(fault) => Err(FilterFailure::of_filter(text, fault)),
    }
}

/// Reads a filter in JSON.
fn read_json(options: FilterOptions, json: &[u8]) -> Result<Filter<Global>, FilterFailure>
    requires { options.language ≡ language.Json }
    ensures ok { IfOk result (Spells language.Json json.now) }
    ensures err { IfErr result (IsFilterFailure json.now options) }
    ensures too_long { MAX_TEXT_LENGTH < length json.now → IsErrAnd result (IsOfFilter (length_fault json.now)) }
{
    if json.len() > MAX_TEXT_LENGTH {
        return read_text(options, json);
    }
    let alloc = options.filter_alloc;
    let text = match translate(alloc, json) {
        Ok(text) => text,
        Err(fault) => return Err(FilterFailure::of_json(fault)),
    };
    match read(alloc, text.as_slice()) {
        Ok(filter) => Ok(filter),
        Err(fault) => Err(failure_at(alloc, json, text.as_slice(), fault)),
    }
}

/// Returns the failure for JSON whose text isn't a filter.
fn failure_at(alloc: Global, json: &[u8], text: &[u8], fault: FilterFault) -> FilterFailure
    requires { length json.now ≤ MAX_TEXT_LENGTH }
    ensures { IsOfJsonText json.now text.now fault result }
{
    match fault {
        FilterFault::At { column, flaw, .. } => match pointer_at(alloc, json, text, column) {
            Ok(pointer) => FilterFailure::Pointed {
                flaw,
                pointer,
                note: note(text, fault, flaw),
            },
            Err(_) => FilterFailure::Memory,
        },
        FilterFault::Memory => FilterFailure::Memory,
    }
}

/// Says what is wrong with the text of JSON, and what to write instead if that is likely.
fn note(text: &[u8], fault: FilterFault, flaw: FilterFaultKind) -> ArrayString<128> {
    match fault.hint(text) {
        // The user wrote no quotes of the text.
        Some(Hint::SingleQuotes) => flaw_note(flaw),
        _ => filter_note(text, fault),
    }
}
