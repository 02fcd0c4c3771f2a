//! The parameters in the query of a target (URL Standard, section 5.1: application/x-www-form-urlencoded).
ghost use Rattle.std.specs.Prelude.{◌≡◌, IfErr, IfOk, None, Ok, Some, option_map};
ghost use Rattle.std.specs.Cow.{cow_str_bytes};
ghost use Rattle.std.specs.Option.{option_copied};
ghost use Rattle.std.specs.Result.{result_err};
ghost use Rattle.layers.specs.LayerParts.{parts_of};
ghost use Rattle.wire.specs.ParameterFault.{NamesNearest, Unknown, parts_of as fault_parts};
ghost use Rattle.wire.specs.Query.{AreOptionsOf, filter_fault, first_value, is_filter_key, is_select_key, query_fault, requested_layer};
ghost use Rattle.wire.specs.Query.{takes, unknown_key};
ghost use Rattle.wire.specs.Refused.{ReportsUnlessMemory};
ghost use Rattle.wire.specs.Reply.{reply_of};
ghost use Rattle.wire.specs.declared.query.Parameters.TheVariants as Parameters;

use crate::answer::Response;
use crate::parameter_fault::ParameterFault;
use counted_io::Counting;
use filters::FilterOptions;
use form_urlencoded::{decode, raw_pairs};
use layers::{Layer, LayerFault};
use refusals::Refusal;
use std::alloc::{AllocError, Allocator, Global};
use std::borrow::CowStr;

/// The parameters that a request with a filter takes.
#[derive(Clone, Copy)]
pub(crate) enum Parameters {
    /// The options of the filter.
    OfFilter,
    /// The options of the filter, and of the layer of the segments that it selects.
    OfSelect,
}

impl Parameters {
    fn takes(self, key: &str) -> bool
        ensures { result ≡ takes self key.now }
    {
        match self {
            Parameters::OfFilter => is_filter_key(key),
            Parameters::OfSelect => is_select_key(key),
        }
    }
}

fn is_filter_key(key: &str) -> bool
    ensures { result ≡ is_filter_key key.now }
{
    key == "filter-lang" || key == "score"
}

fn is_select_key(key: &str) -> bool
    ensures { result ≡ is_select_key key.now }
{
    is_filter_key(key) || key == "format" || key == "columns" || key == "geometry"
}

/// Returns the requested options for compiling a filter and the requested layer, or the answer to the query's first fault.
pub(crate) fn select_options<A: Allocator + Copy>(
    global: Global,
    alloc: A,
    query: &[u8],
) -> Result<(FilterOptions, Layer), Response<'static, A>>
    ensures valid { IfOk result (λ read. query_fault Parameters.OfSelect query.now ≡ None) }
    ensures options { IfOk result (λ read. AreOptionsOf query.now read.0) }
    ensures layer { IfOk result (λ read. requested_layer query.now ≡ Ok (parts_of read.1)) }
    ensures err { IfErr result (λ answer. ReportsUnlessMemory (query_fault Parameters.OfSelect query.now) (reply_of answer)) }
{
    let options = match filter_options(global, alloc, Parameters::OfSelect, query) {
        Ok(options) => options,
        Err(answer) => return Err(answer),
    };
    match requested_layer(alloc, query) {
        Ok(layer) => Ok((options, layer)),
        Err(answer) => Err(answer),
    }
}

/// Returns the requested options for compiling a filter, or the answer to the first fault of a key or of these options.
pub(crate) fn filter_options<A: Allocator + Copy>(
    global: Global,
    alloc: A,
    parameters: Parameters,
    query: &[u8],
) -> Result<FilterOptions, Response<'static, A>>
    ensures valid { IfOk result (λ options. filter_fault parameters query.now ≡ None) }
    ensures options { IfOk result (AreOptionsOf query.now) }
    ensures err { IfErr result (λ answer. ReportsUnlessMemory (filter_fault parameters query.now) (reply_of answer)) }
{
    if let Some(key) = unknown_key(alloc, parameters, query)? {
        return Err(fault_answer(alloc, ParameterFault::Unknown(key.as_str())));
    }
    let language = first_value(alloc, "filter-lang", query)?;
    let score = first_value(alloc, "score", query)?;
    match filters::filter_options(global, text(&language), text(&score)) {
        Ok(options) => Ok(options),
        Err(fault) => Err(fault_answer(alloc, ParameterFault::Filter(fault))),
    }
}

/// Returns the requested layer, whose segments have no shapes, or the answer to its first fault.
#[tactic(auto, unfolding(crate::specs::Query::requested_layer))]
fn requested_layer<A: Allocator + Copy>(
    alloc: A,
    query: &[u8],
) -> Result<Layer, Response<'static, A>>
    ensures ok { IfOk result (λ layer. requested_layer query.now ≡ Ok (parts_of layer)) }
    ensures err { IfErr result (λ answer. ReportsUnlessMemory (result_err (requested_layer query.now)) (reply_of answer)) }
{
    let format = first_value(alloc, "format", query)?;
    let columns = first_value(alloc, "columns", query)?;
    let geometry = first_value(alloc, "geometry", query)?;
    match layers::layer_named(alloc, text(&format), text(&columns), text(&geometry)) {
        Ok(layer) if layer.has_shapes() => Err(fault_answer(alloc, ParameterFault::NoShapes)),
        Ok(layer) => Ok(layer),
        Err(LayerFault::Memory) => Err(Response::Refused(Refusal::memory())),
        Err(fault) => Err(fault_answer(alloc, ParameterFault::Layer(fault))),
    }
}

/// Returns the answer that reports a fault.
fn fault_answer<A: Allocator>(alloc: A, fault: ParameterFault<'_>) -> Response<'static, A>
    requires { NamesNearest fault }
    ensures { ReportsUnlessMemory (Some (fault_parts fault.entry)) (reply_of result) }
{
    let mut line = Counting::new(Vec::new(alloc));
    match fault.write_line(&mut line) {
        Ok(()) => Response::BadLine(line.into_inner()),
        // A write to memory fails only if an allocation does.
        Err(_fault) => Response::Refused(Refusal::memory()),
    }
}

fn text<'t, A: Allocator>(value: &'t Option<CowStr<'_, A>>) -> Option<&'t str>
    ensures { option_copied result ≡ option_map cow_str_bytes value.now }
{
    value.as_ref().map(|value| value.as_str())
}

/// Returns the first key of a query that isn't one of the parameters.
#[tactic(auto, using(crate::proofs::QueryLemmas::found_unknown, crate::proofs::QueryLemmas::skipped_known))]
fn unknown_key<'q, A: Allocator + Copy>(
    alloc: A,
    parameters: Parameters,
    query: &'q [u8],
) -> Result<Option<CowStr<'q, A>>, AllocError>
    ensures { IfOk result (λ key. option_map (λ key. Unknown (cow_str_bytes key)) key ≡ unknown_key parameters query.now) }
{
    for (key, _value) in raw_pairs(query) {
        let key = decode(alloc, key)?;
        if !parameters.takes(key.as_str()) {
            return Ok(Some(key));
        }
    }
    Ok(None)
}

/// Returns the value of the first pair with this key.
#[tactic(auto, using(crate::proofs::QueryLemmas::found_first, crate::proofs::QueryLemmas::skipped))]
pub(crate) fn first_value<'q, A: Allocator + Copy>(
    alloc: A,
    key: &str,
    query: &'q [u8],
) -> Result<Option<CowStr<'q, A>>, AllocError>
    ensures { IfOk result (λ value. option_map cow_str_bytes value ≡ first_value key.now query.now) }
{
    for (name, value) in raw_pairs(query) {
        let name = decode(alloc, name)?;
        if name.as_bytes() == key.as_bytes() {
            let value = decode(alloc, value)?;
            return Ok(Some(value));
        }
    }
    Ok(None)
}
