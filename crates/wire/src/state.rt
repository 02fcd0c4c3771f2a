//! The state of a server.
ghost use Rattle.std.specs.Prelude.{◌≡◌, ◌≤◌, [], length, map, IfOk, None};
ghost use Rattle.std.specs.String.{string_bytes};
ghost use Rattle.jobs.specs.declared.cursor.TheConstants.{MAX_COUNTIES};
ghost use Rattle.wire.specs.State.{new_state};
ghost use Rattle.wire.specs.Turn.{MakesTurn};

use crate::job::next_turn;
use geocode::Gazetteer;
use http_message::Routes;
use jobs::{Jobs, Reply as JobReply};
use metrics::Counters;
use std::alloc::{AllocError, Allocator, Global};
use std::marker::Model;
use tl_segments::County;

/// A server's state between connections: its counties with their codes, an index of their street names, the open jobs, and the counts of its work.
/// Contracts see it as a record with the table, the codes and the counters.
#[derive(Drop)]
pub struct State<A: Allocator> {
    pub(crate) alloc: A,
    /// The allocator for filters and CSV records, which is part of their types.
    pub(crate) global: Global,
    pub(crate) codes: Vec<String<A>, A>,
    pub(crate) routes: Routes,
    pub(crate) gazetteer: Gazetteer<A>,
    pub(crate) jobs: Jobs<A>,
    pub(crate) counters: Counters,
}

impl<A: Allocator> Model for State<A> {
    ghost use Rattle.std.specs.Prelude.{map};
    ghost use Rattle.std.specs.String.{string_bytes};
    ghost use Rattle.geocode.specs.Gazetteer.{IsGazetteerOf};
    ghost use Rattle.wire.specs.State.{StateParts};

    ghost Value = { StateParts };

    ghost view = { λ state. record {
      table = state.jobs;
      codes = map string_bytes state.codes.items;
      counters = state.counters;
    } };

    ghost invariant = { λ state. IsGazetteerOf state.gazetteer state.jobs.counties };
}

impl<A: Allocator + Copy> State<A> {
    /// Returns a state with no jobs, and keeps the counties. Allocates an index of their street names in `alloc`, and the routes in `global`. The
    /// counties have no codes, and the start of the process isn't known.
    pub fn new(
        global: Global,
        alloc: A,
        counties: Vec<County<A>, A>,
    ) -> Result<State<A>, AllocError>
        requires { length counties.items ≤ MAX_COUNTIES }
        ensures { IfOk result (λ state. state ≡ new_state [] counties.items None) }
    {
        State::with_codes(global, alloc, counties, &[], None)
    }

    /// Does what [`new`](Self::new) does, and keeps a copy of the counties' codes, which are in the order of the counties. The
    /// process started at this time, in seconds since 1970.
    pub fn with_codes(
        global: Global,
        alloc: A,
        counties: Vec<County<A>, A>,
        codes: &[&str],
        start: Option<u64>,
    ) -> Result<State<A>, AllocError>
        requires { length counties.items ≤ MAX_COUNTIES }
        ensures { IfOk result (λ state. state ≡ new_state (map (λ code. code.now) codes.now) counties.items start) }
    {
        let routes = Routes::new(global)?;
        let codes = copy_texts(alloc, codes)?;
        let gazetteer = Gazetteer::of(alloc, counties.as_slice())?;
        Ok(State {
            alloc,
            global,
            codes,
            routes,
            gazetteer,
            jobs: Jobs::new(alloc, counties),
            counters: Counters::new(start),
        })
    }

    /// Advances the next job by a turn, and returns the reply; `None` if all jobs are finished.
    pub fn turn(&mut self) -> Option<JobReply<'static>>
        ensures { MakesTurn self.old result self.new }
    {
        match next_turn(&mut self.jobs) {
            Some(turn) => {
                self.counters.judge(turn.judged);
                Some(turn.reply)
            }
            None => None,
        }
    }
}

/// Returns copies of texts.
fn copy_texts<A: Allocator + Copy>(
    alloc: A,
    texts: &[&str],
) -> Result<Vec<String<A>, A>, AllocError>
    ensures { IfOk result (λ copies. map string_bytes copies.items ≡ map (λ text. text.now) texts.now) }
{
    let mut copies = Vec::new(alloc);
    for text in texts {
        copies.push(String::from_str(alloc, text)?)?;
    }
    Ok(copies)
}

/// Borrows texts.
pub(crate) fn borrow_texts<'t, A: Allocator + Copy>(
    alloc: A,
    texts: &'t [String<A>],
) -> Result<Vec<&'t str, A>, AllocError>
    ensures { IfOk result (λ borrowed. map (λ text. text.now) borrowed.items ≡ map string_bytes texts.now) }
{
    let mut borrowed = Vec::new(alloc);
    for text in texts {
        borrowed.push(text.as_str())?;
    }
    Ok(borrowed)
}
