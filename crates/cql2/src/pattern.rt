//! Patterns of LIKE.
ghost use Rattle.std.specs.Prelude.{IsTrue};
ghost use Rattle.cql2.specs.Pattern.{are_bytes};

use std::alloc::Allocator;

/// What a comparison of letters ignores.
#[derive(Clone, Copy)]
pub struct Folding {
    /// CASEI: the case of the letters of Latin-1.
    pub case: bool,
    /// ACCENTI: the diacritics of the letters of Latin-1.
    pub accents: bool,
}

/// A part of a pattern.
#[derive(Clone, Copy)]
pub enum PatternPart {
    /// This byte.
    Exactly(u8),
    /// A byte that is this one but for what is ignored.
    Alike(Folding, u8),
    /// Any byte: `_`.
    One,
    /// Any number of bytes, or none: `%`.
    Many,
}

/// A pattern, which matches whole texts.
#[derive(Drop)]
pub struct Pattern<A: Allocator> {
    pub parts: Vec<PatternPart, A>,
    ghost are_bytes: { IsTrue (are_bytes parts.items) },
}
