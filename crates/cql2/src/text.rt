//! Texts in a filter.
ghost use Rattle.std.specs.Prelude.{IsTrue};
ghost use Rattle.cql2.specs.Text.{is_text};

use std::alloc::Allocator;

/// A text that a column is compared with: 1 to 30 printable bytes, the last of which is not a blank.
#[derive(Drop)]
pub struct Text<A: Allocator> {
    pub bytes: Vec<u8, A>,
    ghost is_text: { IsTrue (is_text bytes.items) },
}
