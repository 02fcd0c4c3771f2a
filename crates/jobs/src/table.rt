//! The table of jobs.
ghost use Rattle.std.specs.Prelude.{◌≡◌, ◌≤◌, length, IfOk, IfErr, OnOk, ⊤};
ghost use Rattle.std.specs.Borrow.{follows_so, sem};
ghost use mathlib.Core.Option.{none};
ghost use Rattle.jobs.specs.Table.{IsNextTurn, Step, empty_table, total_of};
ghost use Rattle.jobs.specs.declared.event.Event.TheVariants.{Drop, Fetch, Submit, Turn};
ghost use Rattle.jobs.specs.declared.event.Reply.TheVariants.{Dropped, Refused, Submitted, Turned};

use crate::cursor::{MAX_COUNTIES, count_segments};
use crate::event::{Event, Reply};
use crate::fault::JobFault;
use crate::job::Job;
use bpf_program::accept;
use std::alloc::Allocator;
use std::collections::BTreeMap;
use std::marker::Model;
use tl_segments::County;

/// The greatest number of open jobs.
pub const MAX_JOBS: usize = 64;

/// A table of jobs, each of which makes a program's extract over all segments of the same counties, in the order of the counties. Contracts see it
/// as a record with the fields `counties`, `jobs` and `last_id`.
#[derive(Drop)]
pub struct Jobs<A: Allocator> {
    pub(crate) alloc: A,
    counties: Vec<County<A>, A>,
    pub(crate) total: u64,
    // Ordered by id, so that ties in progress go to the lowest one.
    pub(crate) jobs: BTreeMap<u64, Job<A>, A>,
    last_id: u64,
}

impl<A: Allocator> Model for Jobs<A> {
    ghost use Rattle.jobs.specs.Inside.{IsTable, jobs_of};
    ghost use Rattle.jobs.specs.Table.{Table};

    ghost Value = { Table };

    ghost view = { λ table. record { counties = table.counties.items; jobs = jobs_of table.jobs.entries; last_id = table.last_id } };

    ghost invariant = { λ table. IsTable table.counties.items table.total table.jobs.entries table.last_id };
}

impl<A: Allocator + Copy> Jobs<A> {
    ghost use Rattle.jobs.specs.contracts.table.Jobs.{the_row};

    /// Returns a table with no jobs, and keeps the counties. It doesn't allocate.
    pub fn new(alloc: A, counties: Vec<County<A>, A>) -> Self
        requires { length counties.items ≤ MAX_COUNTIES }
        ensures { result ≡ empty_table counties.items }
    {
        let total = count_segments(counties.as_slice());
        Jobs {
            alloc,
            counties,
            total,
            jobs: BTreeMap::new(alloc),
            last_id: 0,
        }
    }

    pub fn counties(&self) -> &[County<A>]
        ensures value { result.now ≡ self.now.counties }
        ensures few { length result.now ≤ MAX_COUNTIES }
    {
        self.counties.as_slice()
    }

    /// Processes an event, and returns the reply. A refused event changes nothing.
    pub fn apply(&mut self, event: Event<'_>) -> Reply<'_>
        // The state of the table once the borrowed reply is dropped. For a caller, this clause is like any other.
        ensures* step { sem 𝓛 (follows_so (the_row A.row A.Allocator) (the_row A.row A.Allocator) self.entry.ghost_name none (λ _ _. ⊤)
            (Step self.old event.entry result)) }
    {
        // A state machine over events, without threads, locks or clocks, so that one law about all lists of events says what a client sees.
        match event {
            Event::Submit(program) => match self.submit(program) {
                Ok(id) => Reply::Submitted(id),
                Err(fault) => Reply::Refused(fault),
            },
            Event::Turn(id) => match self.turn(id) {
                Ok(done) => Reply::Turned {
                    done,
                    total: self.total,
                },
                Err(fault) => Reply::Refused(fault),
            },
            Event::Fetch(id) => self.fetch(id),
            Event::Drop(id) => match self.remove(id) {
                Ok(()) => Reply::Dropped,
                Err(fault) => Reply::Refused(fault),
            },
        }
    }

    fn submit(&mut self, program: &[u8]) -> Result<u64, JobFault>
        ensures ok { IfOk result (λ id. Step self.old (Submit program.entry) (Submitted id) self.new) }
        ensures err { IfErr result (λ fault. Step self.old (Submit program.entry) (Refused fault) self.new) }
    {
        // Before the program, so that a full table does no work for one.
        if self.jobs.len() >= MAX_JOBS || self.last_id == u64::MAX {
            return Err(JobFault::Full);
        }
        let verified = accept(self.alloc, program)?;
        let id = self.last_id + 1;
        self.jobs.insert(id, Job::of(self.alloc, verified))?;
        self.last_id = id;
        Ok(id)
    }

    fn turn(&mut self, id: u64) -> Result<u64, JobFault>
        ensures ok { IfOk result (λ done. Step self.old (Turn id) (Turned done (total_of self.old)) self.new) }
        ensures err { IfErr result (λ fault. Step self.old (Turn id) (Refused fault) self.new) }
    {
        let Some(job) = self.jobs.get_mut(&id) else {
            return Err(JobFault::NoJob);
        };
        job.advance(self.counties.as_slice())?;
        Ok(job.cursor.done)
    }

    fn fetch(&self, id: u64) -> Reply<'_>
        ensures { Step self.now (Fetch id) result self.now }
    {
        match self.jobs.get(&id) {
            Some(job) => Reply::Rows {
                done: job.cursor.done,
                total: self.total,
                rows: job.rows.as_slice(),
            },
            None => Reply::Refused(JobFault::NoJob),
        }
    }

    fn remove(&mut self, id: u64) -> Result<(), JobFault>
        ensures ok { OnOk result (Step self.old (Drop id) Dropped self.new) }
        ensures err { IfErr result (λ fault. Step self.old (Drop id) (Refused fault) self.new) }
    {
        let Some(_job) = self.jobs.remove(&id) else {
            return Err(JobFault::NoJob);
        };
        Ok(())
    }

    /// Returns the unfinished job with the fewest segments done, or `None` if all are finished. Ties go to the lowest id.
    pub fn next_turn(&self) -> Option<u64>
        ensures { IsNextTurn self.now result }
    {
        let mut next = None;
        let mut least = self.total;
        for (id, job) in self.jobs.iter() {
            if job.cursor.done < least {
                next = Some(*id);
                least = job.cursor.done;
            }
        }
        next
    }
}
