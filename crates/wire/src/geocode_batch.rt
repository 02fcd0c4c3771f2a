//! The answer to a file of addresses.
ghost use Rattle.std.specs.Prelude.{IfErr, IfOk};
ghost use Rattle.address_batch.specs.Output.{IsAddressesFault, IsOutputOf};
ghost use Rattle.wire.specs.Answer.{GeocodesAllTo};
ghost use Rattle.wire.specs.Reply.{reply_of};
ghost use Rattle.wire.specs.State.{counties_of};

use crate::answer::Response;
use crate::state::{State, borrow_texts};
use address_batch::Batch;
use addresses::AddressFault;
use http_message::MediaType;
use refusals::Fault;
use std::alloc::Allocator;

impl<A: Allocator + Copy> State<A> {
    /// Returns the lines of the addresses in a CSV file.
    pub(crate) fn geocode_batch(&self, file: &[u8]) -> Response<'static, A>
        ensures { GeocodesAllTo self.now.codes (counties_of self.now) file.now (reply_of result) }
    {
        match self.lines_of_all(file) {
            Ok(body) => Response::Made {
                media: MediaType::Csv,
                body,
            },
            Err(fault) => Response::Refused(fault.refusal()),
        }
    }

    fn lines_of_all(&self, file: &[u8]) -> Result<Vec<u8, A>, AddressFault>
        ensures ok { IfOk result (λ text. IsOutputOf file.now self.now.codes (counties_of self.now) text.items) }
        ensures err { IfErr result (IsAddressesFault file.now) }
    {
        let codes = borrow_texts(self.alloc, self.codes.as_slice())?;
        let counties = self.jobs.counties();
        let batch = Batch::with(&self.gazetteer, counties, codes.as_slice());
        batch.output(self.alloc, self.global, file)
    }
}
