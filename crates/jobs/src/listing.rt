//! The list of open jobs.
ghost use Rattle.std.specs.Prelude.{◌≡◌, IfOk, OnOk, ◌++◌};
ghost use Rattle.jobs.specs.Listing.{job_line, listing};

use crate::table::Jobs;
use itoa::Buffer;
use std::alloc::{AllocError, Allocator};

impl<A: Allocator + Copy> Jobs<A> {
    /// Returns a line for each open job, in the order in which they were opened: its id, the number of segments done, and their total.
    pub fn listing(&self) -> Result<Vec<u8, A>, AllocError>
        ensures { IfOk result (λ text. text.items ≡ listing self.now) }
    {
        let mut text = Vec::new(self.alloc);
        for (id, job) in self.jobs.iter() {
            push_line(&mut text, *id, job.cursor.done, self.total)?;
        }
        Ok(text)
    }
}

/// Appends the line of a job.
fn push_line<A: Allocator>(
    text: &mut Vec<u8, A>,
    id: u64,
    done: u64,
    total: u64,
) -> Result<(), AllocError>
    ensures { OnOk result (text.new.items ≡ text.old.items ++ job_line id done total) }
{
    text.extend_from_slice(Buffer::new().format(id).as_bytes())?;
    text.extend_from_slice(b" ")?;
    text.extend_from_slice(Buffer::new().format(done).as_bytes())?;
    text.extend_from_slice(b" ")?;
    text.extend_from_slice(Buffer::new().format(total).as_bytes())?;
    text.push(b'\n')?;
    Ok(())
}
