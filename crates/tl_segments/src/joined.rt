//! What is joined to the segments of a TLID.
use crate::full_name::FullNameFields;
use crate::range::RangeFields;
use std::alloc::Allocator;

/// The alternate names and further ranges of a TLID.
#[derive(Drop)]
pub(crate) struct JoinedLists<A: Allocator> {
    pub(crate) names: Vec<FullNameFields, A>,
    pub(crate) ranges: Vec<RangeFields, A>,
}
