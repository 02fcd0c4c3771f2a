//! Reading the clock for a log, and writing its lines.
ghost use Rattle.std.specs.Prelude.{◌≡◌, Result, ⊤};
ghost use Rattle.std.specs.declared.io.Error.{Error};
ghost use Rattle.std.specs.declared.time.SystemTime.{SystemTime};
ghost use Rattle.http_service.specs.Log.{LogsEvent, ReadsDate, ReadsSecond, WritesEntry, micros_between};

use crate::entry::{Entry, EntrySubject};
use counted_io::{CountedWrite, write_text};
use httpdate::HttpDate;
use std::io;
use std::time::{Clock, Instant, SystemTime};
use tcp_server::Timer;

/// A clock that also shows the date, as contracts see it: a reference to any of std's.
pub trait WallClock: Timer {
    // A reading of the date: the clock before it, its result, and the clock after it. The contracts hold for any such relation.
    ghost dates: { Self → Result SystemTime Error → Self → Type 0 } = { λ _ _ _. ⊤ };

    /// Reads the date once.
    fn read_date(&mut self) -> io::Result<SystemTime>
        ensures { dates self.old result self.new };
}

impl<C: Clock> WallClock for &C {
    fn read_date(&mut self) -> io::Result<SystemTime> {
        SystemTime::now(*self)
    }
}

/// Reads the date, if the clock can be read and the year has four digits.
pub(crate) fn read_date<T: WallClock>(timer: &mut T) -> Option<HttpDate>
    ensures { ReadsDate T.dates result timer.old timer.new }
{
    let time = timer.read_date().ok()?;
    HttpDate::try_from(time).ok()
}

/// Reads the second since 1970 in which the date falls, if the clock can be read and the year has four digits.
pub fn read_second<T: WallClock>(timer: &mut T) -> Option<u64>
    ensures { ReadsSecond T.dates result timer.old timer.new }
{
    match read_date(timer) {
        Some(date) => Some(date.unix_secs()),
        None => None,
    }
}

/// Returns the microseconds between two readings, if both succeeded.
pub(crate) fn micros_between(start: io::Result<Instant>, end: io::Result<Instant>) -> Option<u64>
    ensures { result ≡ micros_between start end }
{
    match (start, end) {
        (Ok(start), Ok(end)) => {
            let micros = end.duration_since(start).as_micros();
            Some(u64::try_from(micros).unwrap_or(u64::MAX))
        }
        _ => None,
    }
}

/// Writes the line of an entry. A failed write isn't reported: a log never changes a reply.
pub(crate) fn write_entry<W: CountedWrite>(log: &mut W, entry: &Entry)
    ensures { WritesEntry entry.now (W.writer log.old) (W.writer log.new) }
{
    let _ = write_text(log, entry.line().as_slice());
}

/// Writes a line about something else than a request.
pub(crate) fn write_event<W: CountedWrite, T: WallClock>(
    log: &mut W,
    timer: &mut T,
    subject: EntrySubject,
)
    ensures { LogsEvent T.dates subject timer.old timer.new (W.writer log.old) (W.writer log.new) }
{
    let date = read_date(timer);
    let entry = Entry {
        peer: None,
        date,
        subject,
        status: None,
        length: None,
        received: None,
        micros: None,
    };
    write_entry(log, &entry);
}
