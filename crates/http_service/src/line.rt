//! Lines of the log.
ghost use Rattle.std.specs.Prelude.{◌≡◌, ◌+◌, ◌++◌, ◌≤◌, length, option_map};
ghost use Rattle.http_message.specs.Status.{number as status_number};
ghost use Rattle.http_service.specs.Line.{date, date_and_time, field, line, method, number, path, subject};

use crate::entry::{Entry, EntrySubject};
use crate::host::host;
use arrayvec::ArrayVec;
use http_message::{Route, Verb};
use httpdate::HttpDate;
use itoa::Buffer;

/// The length of the longest line, in bytes.
pub const MAX_LINE_LENGTH: usize = 192;

type LogLine = ArrayVec<u8, MAX_LINE_LENGTH>;

impl Entry {
    /// Returns the line of the entry, with its line feed.
    pub fn line(&self) -> LogLine
        ensures { result.items ≡ line self.now }
    {
        let mut line = LogLine::new();
        push(host(self.peer).as_slice(), &mut line);
        push(b" - - [", &mut line);
        push(date(self.date).as_slice(), &mut line);
        push(b"] \"", &mut line);
        push(subject(self.subject).as_slice(), &mut line);
        push(b"\"", &mut line);
        push_field(self.code(), &mut line);
        push_field(self.length, &mut line);
        push_field(self.received, &mut line);
        push_field(self.micros, &mut line);
        push(b"\n", &mut line);
        line
    }

    /// Returns the number of the status.
    fn code(&self) -> Option<u64>
        ensures { result ≡ option_map status_number self.now.status }
    {
        match self.status {
            Some(status) => Some(u64::from(status.code().as_u16())),
            None => None,
        }
    }
}

/// Appends a blank and a number.
fn push_field(value: Option<u64>, line: &mut LogLine)
    requires { length line.old.items + 21 ≤ 192 }
    ensures value { line.new.items ≡ line.old.items ++ field value }
    ensures short { length line.new.items ≤ length line.old.items + 21 }
{
    push(b" ", line);
    push(number(value).as_slice(), line);
}

fn push(text: &[u8], line: &mut LogLine)
    requires { length line.old.items + length text.now ≤ 192 }
    ensures value { line.new.items ≡ line.old.items ++ text.now }
    ensures length { length line.new.items ≡ length line.old.items + length text.now }
{
    line.try_extend_from_slice(text).unwrap();
}

/// Returns a number, or a dash if it isn't known.
fn number(value: Option<u64>) -> ArrayVec<u8, 20>
    ensures { result.items ≡ number value }
{
    let mut text = ArrayVec::new();
    match value {
        Some(number) => {
            text.try_extend_from_slice(Buffer::new().format(number).as_bytes())
                .unwrap();
        }
        None => text.push(b'-'),
    }
    text
}

/// Returns a date, or a dash if it isn't known.
fn date(value: Option<HttpDate>) -> ArrayVec<u8, 26>
    ensures { result.items ≡ date value }
{
    let mut text = ArrayVec::new();
    match value {
        Some(date) => text.try_extend_from_slice(&date_and_time(date)).unwrap(),
        None => text.push(b'-'),
    }
    text
}

/// Returns a date in the order of the log: `30/Nov/2026:11:39:00 +0000` is `Mon, 30 Nov 2026 11:39:00 GMT`.
fn date_and_time(date: HttpDate) -> [u8; 26]
    ensures value { result ≡ date_and_time date }
    ensures length { length result ≡ 26 }
{
    let text = date.to_bytes();
    [
        text[5], text[6], b'/', text[8], text[9], text[10], b'/', text[12], text[13], text[14],
        text[15], b':', text[17], text[18], text[19], text[20], text[21], text[22], text[23],
        text[24], b' ', b'+', b'0', b'0', b'0', b'0',
    ]
}

/// Returns what a line is about.
fn subject(value: EntrySubject) -> ArrayVec<u8, 32>
    ensures { result.items ≡ subject value }
{
    let mut text = ArrayVec::new();
    match value {
        EntrySubject::Start => text.try_extend_from_slice(b"start").unwrap(),
        EntrySubject::FailedAccept => text.try_extend_from_slice(b"accept failed").unwrap(),
        EntrySubject::Request {
            verb: None,
            route: None,
        } => text.push(b'-'),
        EntrySubject::Request { verb, route } => {
            text.try_extend_from_slice(method(verb).as_bytes()).unwrap();
            text.push(b' ');
            text.try_extend_from_slice(path(route).as_bytes()).unwrap();
            text.try_extend_from_slice(b" HTTP/1.1").unwrap();
        }
    }
    text
}

fn method(verb: Option<Verb>) -> &'static str
    ensures value { result.now ≡ method verb }
    ensures short { length result.now ≤ 6 }
{
    match verb {
        Some(verb) => verb.name(),
        None => "-",
    }
}

fn path(route: Option<Route>) -> &'static str
    ensures value { result.now ≡ path route }
    ensures short { length result.now ≤ 14 }
{
    match route {
        Some(route) => route.path(),
        None => "-",
    }
}
