//! Lists of names and ranges shared by the segments of a TLID.
ghost use Rattle.std.specs.Prelude.{◌≡◌, ℕ, nat_eq, if◌then◌else◌, None, Some, IfOk, OnOk};
ghost use Rattle.std.specs.BTreeMap.{get};
ghost use Rattle.std.specs.Ordering.{nat_cmp};
ghost use Rattle.tl_segments.specs.Indexing.{IsIndexOf};
ghost use Rattle.tl_segments.specs.Joining.{JoinedLines, segment_of};
ghost use Rattle.tl_segments.specs.SharedLists.{HoldsShared, IsJoinedTo};

use crate::index::Index;
use crate::joined::JoinedLists;
use crate::segment::Segment;
use std::alloc::{AllocError, Allocator};
use std::collections::BTreeMap;
use std::rc::Rc;
use tl_records::Rt1;

/// The lists of each TLID whose first segment has been created, if an alternate name or a further range is joined to it.
#[derive(Drop)]
pub(crate) struct SharedLists<A: Allocator> {
    alloc: A,
    lists: BTreeMap<u64, Rc<JoinedLists<A>, A>, A>,
}

impl<A: Allocator + Copy> SharedLists<A> {
    pub(crate) fn new(alloc: A) -> Self
        ensures { (tlid : ℕ) → get nat_cmp result.lists tlid ≡ None }
    {
        SharedLists {
            alloc,
            lists: BTreeMap::new(alloc),
        }
    }

    /// Creates the segment of a type 1 line from the index. The first segment of a TLID creates its lists, and later ones share them.
    pub(crate) fn segment(
        &mut self,
        index: &Index<A>,
        rt1: &Rt1<'_>,
    ) -> Result<Segment<A>, AllocError>
        requires { HoldsShared index.now self.old }
        ensures ok { IfOk result (λ segment. (lines : JoinedLines) → IsIndexOf index.now lines → segment ≡ segment_of lines rt1.now.bytes) }
        ensures bytes { IfOk result (λ segment. segment.bytes ≡ rt1.now.bytes) }
        ensures holds { OnOk result (HoldsShared index.now self.new) }
    {
        let tlid = rt1.number();
        if index.joins_nothing_to(tlid) {
            return Ok(Segment::of(self.alloc, rt1.bytes()));
        }
        // With a copy for each segment, files of 1 MB could take hundreds of megabytes.
        if let Some(joined) = self.lists.get(&tlid) {
            let joined = joined.clone()?;
            return Ok(Segment::sharing(self.alloc, rt1.bytes(), joined));
        }
        let segment = index.segment(rt1)?;
        let (segment, joined) = segment.share(self.alloc)?;
        if let Some(joined) = joined {
            self.store(tlid, joined)?;
        }
        Ok(segment)
    }

    fn store(&mut self, tlid: u64, joined: Rc<JoinedLists<A>, A>) -> Result<(), AllocError>
        ensures { OnOk result ((q : ℕ) →
            get nat_cmp self.new.lists q ≡ (if nat_eq tlid q then Some joined else get nat_cmp self.old.lists q)) }
    {
        self.lists.insert(tlid, joined)?;
        Ok(())
    }
}
