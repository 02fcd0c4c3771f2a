//! Full names of features by number.
ghost use Rattle.std.specs.Prelude.{◌≡◌, ℕ, None, option_and_then, option_copied, OnOk};
ghost use Rattle.tl_segments.specs.FullName.{HasNameLengths, full_name_of};
ghost use Rattle.tl_segments.specs.TableContents.{AddsNameAt, following_name, name_at};

use crate::full_name::{FullName, FullNameFields};
use std::alloc::{AllocError, Allocator};
use std::collections::BTreeMap;

/// The full name of each FEAT: the first one that was added.
///
/// A county's FEATs are mostly consecutive, so the names of those that follow the first one are in a list, and the rest are in a map.
#[derive(Drop)]
pub(crate) struct FeatureNames<A: Allocator> {
    first: u64,
    // A look-up here waits for memory once, one in the map several times.
    following: Vec<FullNameFields, A>,
    others: BTreeMap<u64, FullNameFields, A>,
}

impl<A: Allocator + Copy> FeatureNames<A> {
    pub(crate) fn new(alloc: A) -> Self
        ensures { (feat : ℕ) → name_at result feat ≡ None }
    {
        FeatureNames {
            first: 0,
            following: Vec::new(alloc),
            others: BTreeMap::new(alloc),
        }
    }

    /// Sets the name of a FEAT, unless it already has one.
    pub(crate) fn set(&mut self, feat: u64, name: FullName<'_>) -> Result<(), AllocError>
        requires { HasNameLengths (full_name_of name) }
        ensures ok { OnOk result (AddsNameAt self.old self.new feat (full_name_of name.entry)) }
    {
        if self.name_of(feat).is_some() {
            return Ok(());
        }
        if self.following.is_empty() {
            self.first = feat;
        }
        if feat.checked_sub(self.first) == Some(self.following.len() as u64) {
            self.following.push(FullNameFields::of(name))?;
            return Ok(());
        }
        self.others.insert(feat, FullNameFields::of(name))?;
        Ok(())
    }
}

impl<A: Allocator> FeatureNames<A> {
    /// Returns the full name of a FEAT, if it has a number and that number has a name.
    #[inline(always)]
    pub(crate) fn name(&self, feat: Option<u32>) -> Option<&FullNameFields>
        ensures { option_copied result ≡ option_and_then (name_at self.now) feat }
    {
        self.name_of(u64::from(feat?))
    }

    #[inline(always)]
    fn name_of(&self, feat: u64) -> Option<&FullNameFields>
        ensures { option_copied result ≡ name_at self.now feat }
    {
        match self.following_name(feat) {
            Some(name) => Some(name),
            None => self.others.get(&feat),
        }
    }

    #[inline(always)]
    fn following_name(&self, feat: u64) -> Option<&FullNameFields>
        ensures { option_copied result ≡ following_name self.now feat }
    {
        let distance = feat.checked_sub(self.first)?;
        self.following.get(distance as usize)
    }
}
