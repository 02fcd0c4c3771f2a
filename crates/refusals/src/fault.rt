//! The interface of every fault.
//!
//! A fault contains the fault of the call that it comes from, so each library can be used alone. Each writes its own `From<AllocError>`, five lines:
//! neither a derive nor a macro can state the variant that a `?` returns, and a blanket `impl` of `From` is forbidden for types of other crates.
ghost use Rattle.std.specs.Prelude.{◌≡◌};
ghost use Rattle.refusals.specs.Refusal.{RefusalParts};
ghost use Rattle.refusals.specs.Refusal as refusal;

use crate::refusal::Refusal;
use arrayvec::ArrayString;

/// A fault, with one row of refusal data per variant.
pub trait Fault {
    ghost refusal_of: { Self → RefusalParts };

    /// Returns the fault as a refusal.
    fn refusal(&self) -> Refusal
        ensures { result ≡ refusal_of self.now };

    /// Returns the refusal's line of text, like `refused 13 place 2 UnknownOpcode`, without a line end. It doesn't allocate.
    fn line(&self) -> ArrayString<64>
        ensures { result.bytes ≡ refusal.line (refusal_of self.now) }
    {
        self.refusal().line()
    }
}
