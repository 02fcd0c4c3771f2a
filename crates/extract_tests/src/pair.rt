//! A table of jobs, compared with the plain one.
use crate::plain::{Call, PlainTable, text_of};
use crate::segments::{counties_of, lines_of};
use fixtures::{Refusing, TableFault, number, program};
use jobs::{Event, Jobs, MAX_COUNTIES};
use std::alloc::Global;

/// A table whose heap can refuse an allocation, and the plain table to compare it with.
#[derive(Drop)]
pub struct Pair<'a> {
    alloc: Global,
    heap: &'a Refusing<Global>,
    jobs: Jobs<&'a Refusing<Global>>,
    pub plain: PlainTable,
    /// The last reply of the plain table.
    reply: Vec<u8>,
}

impl<'a> Pair<'a> {
    /// Makes tables over counties of these sizes. Returns `None` if a call allocates once the counties are loaded.
    pub fn new(alloc: Global, heap: &'a Refusing<Global>, sizes: &[usize]) -> Option<Self> {
        let lines = lines_of(alloc, sizes).ok()?;
        let counties = counties_of(heap, &lines, sizes)?;
        let count = counties.len();
        if count > MAX_COUNTIES {
            return None;
        }
        heap.refuse(1);
        let jobs = Jobs::new(heap, counties);
        if jobs.counties().len() != count || jobs.next_turn().is_some() || heap.count() > 0 {
            return None;
        }
        Some(Pair {
            alloc,
            heap,
            jobs,
            plain: PlainTable::new(alloc, lines),
            reply: Vec::new(alloc),
        })
    }

    /// Applies an event to the table alone, and returns the reply as text.
    fn apply(&mut self, call: Call<'_>) -> Option<Vec<u8>> {
        let code = match call {
            Call::Submit(submitted) => program(self.alloc, submitted.text).ok()?,
            _ => Vec::new(self.alloc),
        };
        let event = match call {
            Call::Submit(_) => Event::Submit(&code),
            Call::Turn(id) => Event::Turn(id.or(self.jobs.next_turn()).unwrap_or(0)),
            Call::Fetch(id) => Event::Fetch(id),
            Call::Drop(id) => Event::Drop(id),
        };
        text_of(self.alloc, self.jobs.apply(event)).ok()
    }

    /// Applies an event to both tables, and returns whether allocation number `nth` was refused. Returns `None` if the table's reply is wrong.
    /// After a refused allocation it must be `refused memory`, and the plain table is left alone; otherwise it must be that of the plain table, with
    /// the same next turn.
    pub fn is_refused(&mut self, call: Call<'_>, nth: u64) -> Option<bool> {
        self.heap.refuse(nth);
        let reply = self.apply(call)?;
        let was_refused = self.heap.was_refused();
        self.heap.refuse(0);
        if was_refused {
            return (reply.as_slice() == b"refused memory".as_slice()).then_some(true);
        }
        self.reply = self.plain.reply(call).ok()?;
        let is_same = reply == self.reply && self.jobs.next_turn() == self.plain.next_turn();
        is_same.then_some(false)
    }

    /// Returns whether the table has the same jobs as the plain one, and none with any other id up to the next one.
    pub fn has_same(&mut self) -> bool {
        for id in 0..=self.plain.next_id() {
            if self.is_refused(Call::Fetch(id), 0) != Some(false) {
                return false;
            }
        }
        true
    }

    /// Returns the number of allocations of an event. Each of them is refused once, which must leave the table unchanged, before the event is
    /// applied to both tables.
    fn refusals(&mut self, call: Call<'_>) -> Option<u64> {
        for nth in 1..=u64::MAX {
            if !self.is_refused(call, nth)? {
                return nth.checked_sub(1);
            }
            if !self.has_same() {
                return None;
            }
        }
        None
    }

    /// Applies an event as often as a row says. Returns whether each reply is right, and the allocations are those of the row, each of which is
    /// refused once: `some`, `none`, or `any` number. If they are `unswept`, none is refused.
    fn is_each_right(&mut self, event: &str, refusals: &str) -> Result<bool, TableFault> {
        let (words, times) = repeated(event)?;
        let call = Call::new(words)?;
        for _ in 0..times {
            let is_same = match refusals {
                "unswept" => self.is_refused(call, 0) == Some(false),
                "none" => self.refusals(call) == Some(0),
                "some" => self.refusals(call) > Some(0),
                "any" => self.refusals(call).is_some(),
                _ => return Err(TableFault::Word),
            };
            if !is_same {
                return Ok(false);
            }
        }
        Ok(true)
    }

    /// Returns whether the id of the next turn is the one in a cell, or there is `none`, without allocating.
    fn is_next(&mut self, cell: &str) -> Result<bool, TableFault> {
        let id = match cell {
            "none" => None,
            _ => Some(number(cell)?),
        };
        self.heap.refuse(1);
        Ok(self.jobs.next_turn() == id && self.heap.count() == 0)
    }

    /// Returns whether a row is right. Its cells are the event, or `next`; the last reply, or the id of the next turn; and the allocations.
    pub fn is_right(&mut self, cells: (&str, &str, &str)) -> Result<bool, TableFault> {
        match cells {
            ("next", id, "none" | "unswept") => self.is_next(id),
            (event, reply, refusals) => {
                Ok(self.is_each_right(event, refusals)? && self.plain.in_full(reply)? == self.reply)
            }
        }
    }
}

/// Splits off how many times an event is applied, as in `turn next *58`.
fn repeated(event: &str) -> Result<(&str, u64), TableFault> {
    let Some((words, times)) = event.split_once(" *") else {
        return Ok((event, 1));
    };
    match number(times)? {
        0 => Err(TableFault::Number),
        times => Ok((words, times)),
    }
}
