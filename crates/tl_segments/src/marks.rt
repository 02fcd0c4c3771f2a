//! A quick answer for numbers that a table lacks.
ghost use Rattle.std.specs.Prelude.{◌≡◌, ℕ, IsTrue, OnOk, false};
ghost use Rattle.tl_segments.specs.Marks.{is_marked, mark_place};

use std::alloc::{AllocError, Allocator};

// 64 KiB. The TLIDs of a county are mostly among some 100,000 that follow each other.
const MARKS: usize = 0x1_0000;

/// Marks for numbers, by their lowest 16 bits. Most segments have nothing joined, and a missing mark says so without a search.
#[derive(Drop)]
pub(crate) struct Marks<A: Allocator> {
    marks: Vec<bool, A>,
}

impl<A: Allocator> Marks<A> {
    pub(crate) fn new(alloc: A) -> Self
        ensures { (number : ℕ) → is_marked result number ≡ false }
    {
        Marks {
            marks: Vec::new(alloc),
        }
    }

    /// Marks a number, and with it all that have the same lowest 16 bits. Only the first call allocates.
    pub(crate) fn mark(&mut self, number: u64) -> Result<(), AllocError>
        ensures marked { OnOk result (IsTrue (is_marked self.new number)) }
        ensures kept { (other : ℕ) → IsTrue (is_marked self.old other) → IsTrue (is_marked self.new other) }
    {
        let place = place_of(number);
        if place >= self.marks.len() {
            self.marks.resize(MARKS, false)?;
        }
        self.marks[place] = true;
        Ok(())
    }

    /// Returns whether the number is marked, or another one with the same lowest 16 bits.
    #[inline(always)]
    pub(crate) fn is_marked(&self, number: u64) -> bool
        ensures { result ≡ is_marked self.now number }
    {
        match self.marks.get(place_of(number)) {
            Some(mark) => *mark,
            None => false,
        }
    }
}

#[inline(always)]
fn place_of(number: u64) -> usize
    ensures { result ≡ mark_place number }
{
    number as usize % MARKS
}
