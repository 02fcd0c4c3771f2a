//! The progress of the jobs.
ghost use Rattle.std.specs.Prelude.{◌≡◌};
ghost use Rattle.jobs.specs.Progress.{done_of, finished, running};
ghost use Rattle.jobs.specs.Table.{total_of};

use crate::table::Jobs;
use std::alloc::Allocator;

/// The numbers of open jobs by their progress.
#[derive(Clone, Copy)]
pub struct Progress {
    /// The number of jobs that have segments left.
    pub running: u64,
    pub finished: u64,
}

impl<A: Allocator + Copy> Jobs<A> {
    /// Returns the number of segments that each job processes.
    pub fn total(&self) -> u64
        ensures { result ≡ total_of self.now }
    {
        self.total
    }

    /// Returns the number of segments that a job has done, or 0 if there is no such job.
    pub fn done(&self, id: u64) -> u64
        ensures { result ≡ done_of self.now id }
    {
        match self.jobs.get(&id) {
            Some(job) => job.cursor.done,
            None => 0,
        }
    }

    /// Returns the numbers of open jobs by their progress.
    pub fn progress(&self) -> Progress
        ensures running { result.running ≡ running self.now }
        ensures finished { result.finished ≡ finished self.now }
    {
        let open = self.jobs.len() as u64;
        let mut running = 0;
        for (_id, job) in self.jobs.iter() {
            if job.cursor.done < self.total {
                running += 1;
            }
        }
        Progress {
            running,
            finished: open - running,
        }
    }
}
