//! A plain model of tables of jobs. It keeps each job separately, as what its program selects and its number of segments done.
use crate::segments::{LINE_LENGTH, Selection, rows_of};
use fixtures::{TableFault, number, refusal};
use jobs::Reply;
use std::alloc::{AllocError, Global};

/// A program as text or by its name, and what it selects, or its refusal.
#[derive(Clone, Copy)]
pub struct Program<'a> {
    pub text: &'a str,
    verdict: Result<Selection, &'static str>,
}

impl<'a> Program<'a> {
    /// Returns the program with a name. `longest` has the maximum number of words.
    pub fn new(name: &'a str) -> Result<Self, TableFault> {
        let (text, refusal) = match name {
            "longest" => ("mov r0, 1 *65535 | exit", ""),
            _ => (name, refusal(name)?),
        };
        let verdict = match refusal {
            "" => Ok(Selection::of(name)?),
            _ => Err(refusal),
        };
        Ok(Program { text, verdict })
    }
}

/// An event of a table.
#[derive(Clone, Copy)]
pub enum Call<'a> {
    Submit(Program<'a>),
    /// The turn of the job with this id, or of the one whose turn is next.
    Turn(Option<u64>),
    Fetch(u64),
    Drop(u64),
}

impl<'a> Call<'a> {
    /// Reads words like `submit every`, `turn 2` and `turn next`.
    pub fn new(words: &'a str) -> Result<Self, TableFault> {
        match words.split_once(' ') {
            Some(("submit", name)) => Ok(Call::Submit(Program::new(name)?)),
            Some(("turn", "next")) => Ok(Call::Turn(None)),
            Some(("turn", id)) => Ok(Call::Turn(Some(number(id)?))),
            Some(("fetch", id)) => Ok(Call::Fetch(number(id)?)),
            Some(("drop", id)) => Ok(Call::Drop(number(id)?)),
            _ => Err(TableFault::Word),
        }
    }
}

#[derive(Clone, Copy)]
struct PlainJob {
    selection: Selection,
    done: u64,
    is_open: bool,
}

/// A table of all jobs that were ever opened, in the order of their ids, which count from 1.
#[derive(Drop)]
pub struct PlainTable {
    alloc: Global,
    lines: Vec<u8>,
    total: u64,
    jobs: Vec<PlainJob>,
}

impl PlainTable {
    /// Makes a table over the segments of these lines.
    pub fn new(alloc: Global, lines: Vec<u8>) -> Self {
        let total = (lines.len() / LINE_LENGTH) as u64;
        PlainTable {
            alloc,
            lines,
            total,
            jobs: Vec::new(alloc),
        }
    }

    pub fn next_id(&self) -> u64 {
        (self.jobs.len() as u64).wrapping_add(1)
    }

    pub fn is_full(&self) -> bool {
        let mut open: u64 = 0;
        for job in &self.jobs {
            open = open.wrapping_add(u64::from(job.is_open));
        }
        open == 64
    }

    /// Returns the open, unfinished job with the fewest segments done. Ties go to the lowest id.
    pub fn next_turn(&self) -> Option<u64> {
        let mut next = None;
        let mut fewest = self.total;
        for (place, job) in self.jobs.iter().enumerate() {
            if job.is_open && job.done < fewest {
                fewest = job.done;
                next = Some((place as u64).wrapping_add(1));
            }
        }
        next
    }

    /// Applies an event, and returns the full reply.
    pub fn reply(&mut self, call: Call<'_>) -> Result<Vec<u8>, AllocError> {
        match call {
            Call::Submit(program) => self.submit(program),
            Call::Turn(id) => self.turn(id.or(self.next_turn()).unwrap_or(0)),
            Call::Fetch(id) => self.fetch(id),
            Call::Drop(id) => self.close(id),
        }
    }

    fn submit(&mut self, program: Program<'_>) -> Result<Vec<u8>, AllocError> {
        if self.is_full() {
            return b"refused 70 Full".to_vec(self.alloc);
        }
        let selection = match program.verdict {
            Ok(selection) => selection,
            Err(refusal) => return refusal.as_bytes().to_vec(self.alloc),
        };
        self.jobs.push(PlainJob {
            selection,
            done: 0,
            is_open: true,
        })?;
        text_of(self.alloc, Reply::Submitted(self.jobs.len() as u64))
    }

    /// Returns the job with an id, if it is open.
    fn open_job(&mut self, id: u64) -> Option<&mut PlainJob> {
        self.jobs
            .get_mut(id.wrapping_sub(1) as usize)
            .filter(|job| job.is_open)
    }

    fn turn(&mut self, id: u64) -> Result<Vec<u8>, AllocError> {
        let (alloc, total) = (self.alloc, self.total);
        let Some(job) = self.open_job(id) else {
            return no_job(alloc);
        };
        job.done = job.done.saturating_add(256).min(total);
        let done = job.done;
        text_of(alloc, Reply::Turned { done, total })
    }

    fn fetch(&mut self, id: u64) -> Result<Vec<u8>, AllocError> {
        let (alloc, total) = (self.alloc, self.total);
        let Some(job) = self.open_job(id) else {
            return no_job(alloc);
        };
        let PlainJob {
            selection,
            done,
            ..
        } = *job;
        let rows = rows_of(alloc, &self.lines, selection, done)?;
        let rows = rows.as_slice();
        text_of(alloc, Reply::Rows { done, total, rows })
    }

    fn close(&mut self, id: u64) -> Result<Vec<u8>, AllocError> {
        let alloc = self.alloc;
        let Some(job) = self.open_job(id) else {
            return no_job(alloc);
        };
        job.is_open = false;
        text_of(alloc, Reply::Dropped)
    }

    /// Returns the full form of a script's reply. A name of a program, as in `256 600 59136 of every`, is replaced by the rows that the program
    /// selects.
    pub fn in_full(&self, reply: &str) -> Result<Vec<u8>, TableFault> {
        let Some((numbers, program)) = reply.split_once(" of ") else {
            return Ok(reply.as_bytes().to_vec(self.alloc)?);
        };
        let (done, _) = numbers.split_once(' ').ok_or(TableFault::Word)?;
        let (done, selection) = (number(done)?, Selection::of(program)?);
        let mut text = format!(in self.alloc; "{numbers}\n")?.into_bytes();
        text.extend_from_slice(&rows_of(self.alloc, &self.lines, selection, done)?)?;
        Ok(text)
    }
}

fn no_job(alloc: Global) -> Result<Vec<u8>, AllocError> {
    b"refused 71 NoJob".to_vec(alloc)
}

/// Returns the full text of a reply.
pub fn text_of(alloc: Global, reply: Reply<'_>) -> Result<Vec<u8>, AllocError> {
    let text = match reply {
        Reply::Submitted(id) => format!(in alloc; "{id}"),
        Reply::Turned { done, total } => format!(in alloc; "{done} {total}"),
        Reply::Rows { done, total, rows } => format!(in alloc; "{done} {total} {}\n", rows.len()),
        Reply::Dropped => String::from_str(alloc, "dropped"),
        Reply::Refused(fault) => String::from_str(alloc, fault.line().as_str()),
    };
    let mut text = text?.into_bytes();
    if let Reply::Rows { rows, .. } = reply {
        text.extend_from_slice(rows)?;
    }
    Ok(text)
}
