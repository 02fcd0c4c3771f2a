//! An order of what is known of something, from more to less.
ghost use Rattle.std.specs.Prelude.{◌≡◌, ◌↔◌, IsTrue};
ghost use Rattle.bpf_kinds.specs.Order.{IsOrder};

/// A type of what may be known of something: each value admits some elements. A value that lies within another one says at least as much, and
/// admits no element that the other one doesn't.
///
/// The last member is the laws of the order, which each implementer proves.
pub trait Order {
    /// The elements of which something is known.
    ghost Element: { Type 0 };

    /// The parts of a value are consistent.
    ghost IsProper: { Self → Type 0 };

    /// A value admits an element as possible.
    ghost Admits: { Self → Element → Type 0 };

    /// A value says at least as much as another one.
    ghost IsWithin: { Self → Self → Type 0 };

    /// The least value within which two values lie.
    ghost join: { Self → Self → Self };

    /// Returns whether this value says at least as much as the other one.
    fn leq(&self, other: &Self) -> bool
        ensures { IsTrue result ↔ IsWithin self.now other.now };

    /// Returns the least value within which this one and the other one lie.
    fn join(&self, other: &Self) -> Self
        ensures { result ≡ join self.now other.now };

    ghost laws: { IsOrder IsProper Admits IsWithin join };
}
