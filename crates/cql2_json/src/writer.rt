//! Writing text up to a limit.
ghost use Rattle.std.specs.Prelude.{◌≡◌, ◌++◌, ◌∷◌, [], List, OnOk};
ghost use Rattle.cql2_json.specs.Translation.{own, refused};
ghost use Rattle.cql2_json.specs.Writer.{Writes, IsWithin};
ghost use Rattle.cql2_json.specs.declared.pointer.Step.{Step as AStep};

use crate::fault::{ExpectedValue, Flaw};
use crate::pointer::Step;
use std::alloc::{AllocError, Allocator};

/// The text so far, and the path to the value that is being written.
#[derive(Drop)]
pub(crate) struct Writer<A: Allocator> {
    pub text: Vec<u8, A>,
    pub path: Vec<Step, A>,
    /// The maximum number of bytes in the text.
    pub limit: usize,
}

impl<A: Allocator> Writer<A> {
    /// Appends a text of the value at the path.
    pub fn put(&mut self, text: &[u8]) -> Result<(), Flaw>
        requires { IsWithin self.old }
        ensures { Writes self.old (own self.old.path.items text.now) self.new result }
    {
        if text.len() > self.limit - self.text.len() {
            return Err(Flaw::TooLong);
        }
        self.text.extend_from_slice(text)?;
        Ok(())
    }

    /// Enters a value in the one at the path.
    pub fn enter(&mut self, step: Step) -> Result<(), AllocError>
        ensures ok { OnOk result (self.new.path.items ≡ self.old.path.items ++ step ∷ []) }
        ensures text { (self.new.text ≡ self.old.text) × (self.new.limit ≡ self.old.limit) }
    {
        self.path.push(step)?;
        Ok(())
    }

    /// Returns to the value around the one at the path.
    pub fn leave(&mut self)
        ensures path { (path : List AStep) (step : AStep) → self.old.path.items ≡ path ++ step ∷ [] → self.new.path.items ≡ path }
        ensures text { (self.new.text ≡ self.old.text) × (self.new.limit ≡ self.old.limit) }
    {
        let _ = self.path.pop();
    }

    /// Refuses the value that a step leads to.
    pub fn refuse(&mut self, step: Step, expected: ExpectedValue) -> Flaw
        requires { IsWithin self.old }
        ensures { Writes self.old (refused (self.old.path.items ++ step ∷ []) expected) self.new (Err result) }
    {
        match self.path.push(step) {
            Ok(()) => Flaw::Expected(expected),
            Err(_) => Flaw::Memory,
        }
    }
}
