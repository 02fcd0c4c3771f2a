//! An index of the names of a county's segments.
//!
//! A chain of segments for each key, not a map by names: it stays small even if no two names are equal, and no name is stored a second time. What a
//! chain has by chance of other names is found out by comparing names.
ghost use Rattle.std.specs.Prelude.{◌≡◌, ◌≤◌, ◌<◌, ◌+◌, ◌^◌, List, [], ℕ, length, IfOk, OnOk};
ghost use Rattle.tl_segments.specs.Segment.{SegmentParts, names_of};
ghost use Rattle.geocode.specs.NameHash.{hash_of, key_of};

use crate::candidates::{Candidate, Candidates};
use crate::name_hash::{FNV_OFFSET, hash_of};
use crate::span::Span;
use std::alloc::{AllocError, Allocator};
use tl_segments::Segment;

/// The number of segment names per key.
const NAMES_PER_KEY: usize = 8;

const MAX_KEYS: usize = 1 << 31;

/// The most links of a county: a link's number has 32 bits.
const MAX_LINKS: usize = u32::MAX as usize;

/// A segment that has a name with a certain key.
#[derive(Clone, Copy)]
pub(crate) struct Link {
    /// The segment's number in its county, counted from 0.
    pub segment: u32,
    // Kept here, as reading the hundreds of segments that have a popular name took most of the time of a search.
    /// The span of its house numbers.
    pub span: Span,
    /// The number of the link of the next segment that has a name with the key, counted from 1, or 0 if there is none.
    pub next: u32,
}

/// The segments of a county by the keys of their names. A name's key is its hash, reduced to the number of keys.
#[derive(Drop)]
pub(crate) struct NameIndex<A: Allocator> {
    keys: u32,
    links: Vec<Link, A>,
    /// The number of each key's first link, or 0 if it has none.
    firsts: Vec<u32, A>,
    ghost some: { 1 ≤ keys },
    ghost first_of_each: { length firsts.items ≡ keys + 1 },
}

impl<A: Allocator + Copy> NameIndex<A> {
    ghost use Rattle.geocode.specs.NameIndex.{AddsNames, AddsTo, HasChains, IsIndexOf};

    /// Creates the index of the segments.
    pub(crate) fn of(alloc: A, segments: &[Segment<A>]) -> Result<Self, AllocError>
        requires { length segments.now < 2 ^ 32 }
        ensures { IfOk result (λ index. IsIndexOf index segments.now) }
    {
        let mut index = NameIndex::with_room(alloc, segments.len(), names_in(segments))?;
        // Each link is put in front of the others of its key, so the segments are added in reverse order.
        for n in (0..segments.len()).rev() {
            let segment = &segments[n];
            index.add_segment(n as u32, Span::of(segment), segment)?;
        }
        Ok(index)
    }

    /// Creates an empty index with room for a link per name, or per segment if all names have the same key.
    #[tactic(auto, using(crate::proofs::NameIndexLemmas::no_firsts))]
    fn with_room(alloc: A, segments: usize, names: usize) -> Result<Self, AllocError>
        ensures chains { IfOk result (λ index. HasChains index (λ key. [])) }
        ensures links { IfOk result (λ index. index.links.items ≡ []) }
    {
        let keys = keys_for(segments, names);
        let links = if keys == 1 { segments } else { names };
        Ok(NameIndex {
            keys,
            links: Vec::with_capacity(alloc, links)?,
            firsts: vec![in alloc; 0; keys as usize + 1]?,
        })
    }

    /// Puts a segment in front of the others of the keys of its names, once for each key.
    fn add_segment(&mut self, n: u32, span: Span, segment: &Segment<A>) -> Result<(), AllocError>
        ensures { OnOk result (AddsNames self.old self.new n span (names_of segment.now)) }
    {
        if self.keys == 1 {
            self.add(n, span, FNV_OFFSET)?;
            return Ok(());
        }
        self.add_names(n, span, segment)
    }

    fn add_names(&mut self, n: u32, span: Span, segment: &Segment<A>) -> Result<(), AllocError>
        ensures { OnOk result (AddsNames self.old self.new n span (names_of segment.now)) }
    {
        for name in 0..=segment.names() {
            if let Some(name) = segment.name(name) {
                self.add(n, span, hash_of(name))?;
            }
        }
        Ok(())
    }

    /// Puts a segment in front of the others of a hash's key, unless it is already the first.
    fn add(&mut self, segment: u32, span: Span, hash: u64) -> Result<(), AllocError>
        ensures { OnOk result (AddsTo self.old self.new (key_of self.old.keys hash) segment span) }
    {
        let key = self.key(hash);
        let next = self.first_of_key(key);
        // A segment's names are added in a row, so the first link shows whether it has this key already.
        if self.is_link_of(next, segment) {
            return Ok(());
        }
        if self.links.len() >= MAX_LINKS {
            return Err(AllocError);
        }
        self.links.push(Link {
            segment,
            span,
            next,
        })?;
        self.firsts[key as usize] = self.links.len() as u32;
        Ok(())
    }
}

impl<A: Allocator> NameIndex<A> {
    ghost use Rattle.geocode.specs.Candidates.{IsComplete};
    ghost use Rattle.geocode.specs.NameIndex.{AreInChain, IsIndexOf, first_of, is_link_of, link_at};

    /// Returns the segments that may have a name with this hash.
    pub(crate) fn candidates(&self, hash: u64) -> Chain<'_, A>
        ensures { (segments : List SegmentParts) (name : List ℕ) → IsIndexOf self.now segments → hash ≡ hash_of name
            → IsComplete (AreInChain result segments) name segments }
    {
        Chain {
            index: self,
            number: self.first_of_key(self.key(hash)),
        }
    }

    /// Returns the link with a number, counted from 1.
    fn link(&self, number: u32) -> Option<Link>
        ensures { result ≡ link_at self.now.links.items number }
    {
        self.links.get(number.checked_sub(1)? as usize).copied()
    }

    fn is_link_of(&self, number: u32, segment: u32) -> bool
        ensures { result ≡ is_link_of self.now.links.items number segment }
    {
        match self.link(number) {
            Some(link) => link.segment == segment,
            None => false,
        }
    }

    /// Returns the key of a name with this hash. Many segments have no name, so blank names have a key of their own, unless all names have the same.
    #[tactic(auto, unfolding(crate::specs::NameHash::key_of))]
    fn key(&self, hash: u64) -> u32
        ensures value { result ≡ key_of self.now.keys hash }
        ensures small { result ≤ self.now.keys }
    {
        if self.keys == 1 {
            return 0;
        }
        if hash == FNV_OFFSET {
            return self.keys;
        }
        (hash % u64::from(self.keys)) as u32
    }

    fn first_of_key(&self, key: u32) -> u32
        requires { key ≤ self.now.keys }
        ensures { result ≡ first_of self.now key }
    {
        self.firsts[key as usize]
    }
}

/// The segments that have a name with a certain key.
#[derive(Drop)]
pub(crate) struct Chain<'i, A: Allocator> {
    index: &'i NameIndex<A>,
    /// The number of the next link.
    number: u32,
}

impl<'i, A: Allocator> Candidates for Chain<'i, A> {
    ghost use Rattle.std.specs.Prelude.{◌≡◌, ◌<◌, List, ℕ, IfSome};
    ghost use Rattle.geocode.specs.Candidates.{IsNext};
    ghost use Rattle.geocode.specs.NameIndex.{AreInChain};
    ghost use Rattle.tl_segments.specs.Segment.{SegmentParts};

    ghost are_left = { AreInChain };

    ghost steps = { λ chain. chain.number };

    fn next(&mut self) -> Option<Candidate> {
        let Some(link) = self.index.link(self.number) else {
            return None;
        };
        self.number = link.next;
        Some(Candidate {
            segment: link.segment as usize,
            span: link.span,
        })
    }
}

/// Returns the number of keys for these segments with this number of names.
///
/// Segments that share their TLID share its names, so a small file can give thousands of names to each of thousands of segments. Where they have
/// more than eight on average, all names get the same key: a search then looks at all segments, and the index takes one link for each.
fn keys_for(segments: usize, names: usize) -> u32
    ensures { 1 ≤ result }
{
    let keys = names / NAMES_PER_KEY;
    // With a link for each name, files of 1 MB took 300 MB.
    if keys > segments {
        return 1;
    }
    keys.clamp(2, MAX_KEYS) as u32
}

/// Returns the number of names that the segments have.
fn names_in<A: Allocator>(segments: &[Segment<A>]) -> usize {
    let mut names: usize = 0;
    for segment in segments {
        names = names.saturating_add(segment.names() as usize + 1);
    }
    names
}
