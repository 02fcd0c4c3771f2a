//! AND, OR and NOT of filters.
ghost use Rattle.std.specs.Prelude.{◌≡◌, MatchResult};
ghost use Rattle.cql2_text.specs.Connective.{IsBoth, IsEither, IsNot};
ghost use Rattle.cql2_text.specs.declared.syntax_fault.SyntaxFault.TheVariants as syntax_fault;

use crate::syntax_fault::SyntaxFault;
use cql2::Filter;
use std::alloc::Allocator;

/// Returns the conjunction of two filters.
pub(crate) fn both<A: Allocator + Copy>(
    alloc: A,
    first: Filter<A>,
    second: Filter<A>,
) -> Result<Filter<A>, SyntaxFault>
    ensures { MatchResult result (IsBoth first second) (λ fault. fault ≡ syntax_fault.Memory) }
{
    let first = boxed_filter(alloc, first)?;
    let second = boxed_filter(alloc, second)?;
    Ok(Filter::And(first, second))
}

/// Returns the disjunction of two filters.
pub(crate) fn either<A: Allocator + Copy>(
    alloc: A,
    first: Filter<A>,
    second: Filter<A>,
) -> Result<Filter<A>, SyntaxFault>
    ensures { MatchResult result (IsEither first second) (λ fault. fault ≡ syntax_fault.Memory) }
{
    let first = boxed_filter(alloc, first)?;
    let second = boxed_filter(alloc, second)?;
    Ok(Filter::Or(first, second))
}

/// Returns the negation of a filter.
pub(crate) fn negation<A: Allocator + Copy>(
    alloc: A,
    inner: Filter<A>,
) -> Result<Filter<A>, SyntaxFault>
    ensures { MatchResult result (IsNot inner) (λ fault. fault ≡ syntax_fault.Memory) }
{
    let inner = boxed_filter(alloc, inner)?;
    Ok(Filter::Not(inner))
}

fn boxed_filter<A: Allocator + Copy>(
    alloc: A,
    filter: Filter<A>,
) -> Result<Box<Filter<A>, A>, SyntaxFault>
    ensures { MatchResult result (λ made. made.value ≡ filter) (λ fault. fault ≡ syntax_fault.Memory) }
{
    match Box::new(alloc, filter) {
        Ok(made) => Ok(made),
        Err(_) => Err(SyntaxFault::Memory),
    }
}
