//! A server whose readers, writers and heap can fail.
use crate::notation::counties_of;
use crate::rows::Row;
use counted_io::InjectedFailure;
use fixtures::{FaultPlan, Files, Refusing, TableFault, cells, error_kind, reader, size, writer};
use jobs::{MAX_COUNTIES, Reply};
use std::alloc::{AllocError, Global};
use wire::{State, WireFault, serve_one};

/// How rows are tried at a place.
#[derive(Clone, Copy)]
pub enum Trial {
    /// One read ends there.
    Cut(FaultPlan),
    /// The request ends there.
    End(FaultPlan),
    /// The read with that number, counted from 1, fails.
    Read(FaultPlan),
    /// A write fails after that number of bytes.
    Write(FaultPlan),
    /// Each allocation fails, wherever it is.
    Growths,
}

impl Trial {
    /// Returns the trial in which one read ends at a place, and the others take at most this number of bytes.
    pub fn cut(step: usize) -> Self {
        Trial::Cut(FaultPlan {
            step,
            ..FaultPlan::sound()
        })
    }

    /// Parses a trial: what ends or fails, the maximum number of bytes per call, or `all`, and how a call fails.
    pub fn new(row: &str) -> Result<Self, TableFault> {
        let (what, step, fault) = cells(row)?.three()?;
        let step = if step == "all" {
            usize::MAX
        } else {
            size(step)?
        };
        let sound = FaultPlan {
            step,
            ..FaultPlan::sound()
        };
        match (what, fault) {
            ("end", "none") => Ok(Trial::End(sound)),
            ("write", "nothing") => Ok(Trial::Write(sound)),
            ("read", _) => Ok(Trial::Read(failing(sound, fault)?)),
            ("write", _) => Ok(Trial::Write(failing(sound, fault)?)),
            _ => Err(TableFault::Word),
        }
    }
}

/// Returns a reader or writer that fails by a kind of error.
fn failing(plan: FaultPlan, word: &str) -> Result<FaultPlan, TableFault> {
    let failure = InjectedFailure::Fails(error_kind(word)?);
    Ok(FaultPlan { failure, ..plan })
}

/// A server over counties.
#[derive(Drop)]
pub struct Server<'a> {
    alloc: Global,
    heap: &'a Refusing<Global>,
    state: State<&'a Refusing<Global>>,
}

/// The result of a request.
#[derive(Drop)]
struct Served {
    fault: Option<WireFault>,
    written: Vec<u8>,
    writes: u64,
    flushes: u64,
}

const BAD_REQUEST: &[u8] =
    b"HTTP/1.1 400 Bad Request\r\nContent-Type: text/plain\r\nContent-Length: 12\r\nConnection: close\r\n\r\nbad request\n";

const OUT_OF_MEMORY: &[u8] =
    b"HTTP/1.1 503 Service Unavailable\r\nContent-Type: text/plain\r\nContent-Length: 15\r\nConnection: close\r\n\r\nrefused memory\n";

impl<'a> Server<'a> {
    /// Makes a server over the counties with these files. Before that, a failure is injected into each allocation of its state.
    pub fn new(alloc: Global, heap: &'a Refusing<Global>, files: &[Files]) -> Option<Self> {
        for nth in 1..=u64::MAX {
            let counties = counties_of(heap, files)?;
            if counties.len() > MAX_COUNTIES {
                return None;
            }
            heap.refuse(nth);
            let state = State::with_codes(alloc, heap, counties, &["01001", "01003"], None);
            let growths = heap.count();
            heap.refuse(0);
            match state {
                Ok(state) => return (growths < nth).then_some(Server { alloc, heap, state }),
                Err(_) if growths != nth => return None,
                Err(_) => {}
            }
        }
        None
    }

    /// Makes a turn, and returns `none`, the job's progress, or a refusal.
    fn turn(&mut self) -> Result<Vec<u8>, AllocError> {
        match self.state.turn() {
            Some(Reply::Turned { done, total }) => {
                Ok(format!(in self.alloc; "{done} {total}")?.into_bytes())
            }
            Some(Reply::Refused(fault)) => fault.line().as_bytes().to_vec(self.alloc),
            Some(_) => b"another reply".to_vec(self.alloc),
            None => b"none".to_vec(self.alloc),
        }
    }

    fn serve(&mut self, request: &[u8], input: FaultPlan, output: FaultPlan) -> Served {
        let mut input = reader(request, input);
        let mut out = writer(self.alloc, output);
        let received = serve_one(&mut self.state, &mut input, &mut out);
        let flushes = out.flushes();
        let fuse = out.into_inner();
        Served {
            fault: received.err(),
            writes: fuse.calls,
            flushes,
            written: fuse.inner.into_inner().inner,
        }
    }

    /// Serves a row's request in a trial at a place.
    fn serve_at(&mut self, request: &[u8], trial: Trial, place: usize) -> Served {
        let sound = FaultPlan::sound();
        match trial {
            Trial::Cut(plan) => self.serve(request, plan.cut_at(place), sound),
            Trial::End(plan) => { self.serve(request.get(..place).unwrap_or(request), plan, sound) }
            Trial::Read(plan) => self.serve(request, plan.at_call(place as u64), sound),
            Trial::Write(plan) => self.serve(request, sound, plan.after(place)),
            Trial::Growths => self.serve(request, sound, sound),
        }
    }

    fn is_right_at(&mut self, row: &Row<'_>, trial: Trial, place: usize) -> bool {
        if matches!(trial, Trial::Growths) {
            return self.takes_memory(row) == Some(row.takes_memory);
        }
        if row.is_turn {
            return self.turn().as_ref() == Ok(&row.reply);
        }
        let (fault, reply) = expected(row, trial, place);
        let served = self.serve_at(&row.request, trial, place);
        served.fault == fault
            && served.written.as_slice() == reply
            && served.writes <= most_writes(reply.len(), trial)
            && served.flushes == 0
    }

    /// Returns the text of the first row that is wrong in a trial at the places from `first` to `last`. Places after a row's own last place are
    /// replaced by it.
    pub fn wrong_row<'r>(
        &mut self,
        rows: &[Row<'r>],
        trial: Trial,
        first: usize,
        last: usize,
    ) -> Option<&'r str> {
        for row in rows {
            let end = last_place(row, trial);
            for place in first.min(end)..=last.min(end) {
                let is_tried = place == end || place.checked_rem(stride_of(end)) == Some(0);
                if (is_tried || first == last) && !self.is_right_at(row, trial, place) {
                    return Some(row.text);
                }
            }
        }
        None
    }

    /// Applies a row with a failure injected into each allocation first, and returns whether it allocates. Returns `None` if a reply is wrong:
    /// after a failed allocation it must be `refused memory`, and nothing more may be allocated.
    fn takes_memory(&mut self, row: &Row<'_>) -> Option<bool> {
        for nth in 1..=u64::MAX {
            self.heap.refuse(nth);
            let received = self.received(row)?;
            if !self.heap.was_refused() {
                return (received == row.reply).then_some(nth > 1);
            }
            let expected = if row.is_turn {
                b"refused memory"
            } else {
                OUT_OF_MEMORY
            };
            if received.as_slice() != expected || self.heap.count() != nth {
                return None;
            }
        }
        None
    }

    fn received(&mut self, row: &Row<'_>) -> Option<Vec<u8>> {
        if row.is_turn {
            return self.turn().ok();
        }
        let served = self.serve_at(&row.request, Trial::Growths, 0);
        served.fault.is_none().then_some(served.written)
    }
}

/// Returns the last place of a trial of a row.
fn last_place(row: &Row<'_>, trial: Trial) -> usize {
    match trial {
        _ if row.is_once => 0,
        Trial::Cut(_) | Trial::End(_) => row.request.len(),
        Trial::Read(_) => row.request.len().wrapping_add(1),
        Trial::Write(_) | Trial::Growths => row.reply.len(),
    }
}

/// Returns the distance between the places that are tried: 1, or enough for about sixteen places, or for two if there are very many.
fn stride_of(places: usize) -> usize {
    match places {
        0..=400 => 1,
        401..=100_000 => places / 16,
        _ => places / 2,
    }
}

/// Returns the greatest number of writes of a reply: one for a small reply and two for a large one, plus one if a write fails; or one per byte.
fn most_writes(length: usize, trial: Trial) -> u64 {
    match trial {
        Trial::Write(plan) if plan.step == 1 => (length as u64).wrapping_add(1),
        Trial::Write(_) => 3,
        _ if length < 1000 => 1,
        _ => 2,
    }
}

/// Returns the fault and the reply for a row's request in a trial at a place.
///
/// A request that ends early is a bad request. If a read fails, nothing is written, unless the request was read completely by then.
fn expected<'r>(row: &'r Row<'_>, trial: Trial, place: usize) -> (Option<WireFault>, &'r [u8]) {
    let length = row.request.len();
    let reply = row.reply.as_slice();
    match trial {
        Trial::End(_) if 0 < place && place < length => (None, BAD_REQUEST),
        Trial::End(_) if place < length => (Some(WireFault::Closed), b""),
        Trial::Read(_) if place <= length => (Some(WireFault::Read), b""),
        Trial::Write(plan) if place < reply.len() => {
            (Some(write_fault(plan.failure)), &reply[..place])
        }
        _ => ((length == 0).then_some(WireFault::Closed), reply),
    }
}

fn write_fault(failure: InjectedFailure) -> WireFault {
    match failure {
        InjectedFailure::Fails(_) => WireFault::Write,
        InjectedFailure::TakesNothing => WireFault::WriteZero,
    }
}
