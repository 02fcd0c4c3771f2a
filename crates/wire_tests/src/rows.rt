//! Rows of requests, each with its result.
use crate::notation::bytes_of;
use fixtures::{Table, TableFault, cells, number, size};
use std::alloc::Global;

/// A request with its reply, or a turn with its result as text.
#[derive(Drop)]
pub struct Row<'a> {
    pub text: &'a str,
    /// Empty for a turn.
    pub request: Vec<u8>,
    /// Empty if there is no reply, as for a request without a byte.
    pub reply: Vec<u8>,
    pub is_turn: bool,
    /// Whether the request is sent only once, and not cut.
    pub is_once: bool,
    /// Whether it allocates, if the table says so of its rows.
    pub takes_memory: bool,
}

// The short forms of replies, with `@` for what follows, and what they stand for: the status and its phrase, the media type, the body, and the
// methods that are allowed.
const REPLIES: Table = Table(
    r"200 text @; 200 OK; text/plain; @;
200 octets @; 200 OK; application/octet-stream; @;
200 csv @; 200 OK; text/csv; @;
200 features @; 200 OK; application/geo+json-seq; @;
400; 400 Bad Request; text/plain; bad request\n;
400 @; 400 Bad Request; text/plain; @\n;
404; 404 Not Found; text/plain; not found\n;
405 @; 405 Method Not Allowed; text/plain; method not allowed\n; @
411; 411 Length Required; text/plain; length required\n;
413; 413 Payload Too Large; text/plain; too large\n;
422 @; 422 Unprocessable Entity; text/plain; @\n;
503 @; 503 Service Unavailable; text/plain; @\n;",
);

/// Returns the reply for a text in short form, or in full form after `=`. There is none for `80`.
pub fn reply_of(alloc: Global, text: &str) -> Result<Vec<u8>, TableFault> {
    if text == "80" {
        return Ok(Vec::new(alloc));
    }
    match text.strip_prefix("=") {
        Some(text) => full_reply(alloc, text),
        None => short_reply(alloc, text),
    }
}

/// Returns the reply for a text in full form: as in the table of short forms, and with the length before the body. Only a reply with status 405
/// has methods.
fn full_reply(alloc: Global, text: &str) -> Result<Vec<u8>, TableFault> {
    if text.starts_with("405 ") {
        let (status, media, length, body, allow) = cells(text)?.five()?;
        return reply_with(alloc, (status, media, body, allow), size(length)?);
    }
    let (status, media, length, body) = cells(text)?.four()?;
    reply_with(alloc, (status, media, body, ""), size(length)?)
}

fn short_reply(alloc: Global, text: &str) -> Result<Vec<u8>, TableFault> {
    let replies = REPLIES.joined(alloc)?;
    let ((status, media, body, allow), rest) = cells_for(&replies, text)?;
    let body = body.replace(alloc, "@", rest)?;
    let allow = allow.replace(alloc, "@", rest)?;
    let length = bytes_of(alloc, &body)?.len();
    reply_with(alloc, (status, media, &body, &allow), length)
}

/// The status of a reply, its media type, its body and the methods that it allows.
type Cells<'a> = (&'a str, &'a str, &'a str, &'a str);

/// Returns the reply of the short form that a text begins with, and the text that follows it.
fn cells_for<'a>(replies: &'a str, text: &'a str) -> Result<(Cells<'a>, &'a str), TableFault> {
    for row in replies.lines() {
        let (form, status, media, body, allow) = cells(row)?.five()?;
        if let Some(rest) = after_form(text, form) {
            return Ok(((status, media, body, allow), rest));
        }
    }
    Err(TableFault::Word)
}

/// Returns the text that follows a short form, if a text is in that form. Without `@` there is none.
fn after_form<'a>(text: &'a str, form: &str) -> Option<&'a str> {
    let Some(form) = form.strip_suffix(" @") else {
        return (text == form).then_some("");
    };
    let rest = text.strip_prefix(form)?;
    if rest.is_empty() {
        Some(rest)
    } else {
        rest.strip_prefix(" ")
    }
}

/// Returns the reply with this status, media type, body, allowed methods and length.
fn reply_with(alloc: Global, cells: Cells<'_>, length: usize) -> Result<Vec<u8>, TableFault> {
    let (status, media, body, allow) = cells;
    let (name, end) = if allow.is_empty() {
        ("", "")
    } else {
        ("Allow: ", r"\r\n")
    };
    let text = format!(in alloc;
        r"HTTP/1.1 {status}\r\nContent-Type: {media}\r\nContent-Length: {length}\r\nConnection: close\r\n{name}{allow}{end}\r\n{body}"
    )?;
    bytes_of(alloc, &text)
}

/// Splits a text at a separator, which it must contain exactly once.
fn halves<'a>(text: &'a str, separator: &str) -> Result<(&'a str, &'a str), TableFault> {
    let (left, right) = text.split_once(separator).ok_or(TableFault::Cells)?;
    if right.contains(separator) {
        return Err(TableFault::Cells);
    }
    Ok((left, right))
}

/// Returns the bytes of a request. If it contains `>>`, the last line of the head announces the length of the body that follows.
fn request_of(alloc: Global, short: &str) -> Result<Vec<u8>, TableFault> {
    if !short.contains(">>") {
        return bytes_of(alloc, short);
    }
    let (line, body) = halves(short, " >>")?;
    let body = if body.is_empty() {
        body
    } else {
        body.strip_prefix(" ").ok_or(TableFault::Cells)?
    };
    let length = bytes_of(alloc, body)?.len();
    let (line, headers) = match line.strip_suffix("{curl}") {
        Some(line) => (line, "{head of curl}"),
        None => (line, ""),
    };
    let text = format!(in alloc; r"{line}{headers}\r\nContent-Length: {length}\r\n\r\n{body}")?;
    bytes_of(alloc, &text)
}

/// A line of a table: a request or another word, and its result.
#[derive(Clone, Copy)]
struct Line<'a> {
    text: &'a str,
    request_text: &'a str,
    reply_text: &'a str,
    takes_memory: bool,
}

impl<'a> Line<'a> {
    /// Splits a line at `=>`. If its table says which rows allocate, the line begins with `+` or `-`.
    fn new(text: &'a str, is_marked: bool) -> Result<Self, TableFault> {
        let (takes_memory, line) = match text.split_once(' ') {
            Some(("+", line)) if is_marked => (true, line),
            Some(("-", line)) if is_marked => (false, line),
            _ if is_marked => return Err(TableFault::Word),
            _ => (false, text),
        };
        let (request_text, reply_text) = halves(line, " => ")?;
        Ok(Line {
            text,
            request_text,
            reply_text,
            takes_memory,
        })
    }

    fn request(self, alloc: Global) -> Result<Row<'a>, TableFault> {
        Ok(Row {
            text: self.text,
            request: request_of(alloc, self.request_text)?,
            reply: reply_of(alloc, self.reply_text)?,
            is_turn: false,
            is_once: false,
            takes_memory: self.takes_memory,
        })
    }

    fn turn(self, alloc: Global) -> Result<Row<'a>, TableFault> {
        Ok(Row {
            text: self.text,
            request: Vec::new(alloc),
            reply: self.reply_text.as_bytes().to_vec(alloc)?,
            is_turn: true,
            is_once: true,
            takes_memory: self.takes_memory,
        })
    }

    /// Returns the row for the submission of a job that gets this id.
    fn job(self, alloc: Global, id: u64) -> Result<Row<'a>, TableFault> {
        let reply = format!(in alloc; r"200 text {id}\n")?;
        Ok(Row {
            text: self.text,
            request: request_of(alloc, "POST /jobs HTTP/1.1 >> {every}")?,
            reply: reply_of(alloc, &reply)?,
            is_turn: false,
            is_once: true,
            takes_memory: self.takes_memory,
        })
    }
}

/// Appends the rows of a line. `jobs => 64` is the submissions of the first 64 jobs, and `job => 2` that of the second.
pub fn push_rows<'a>(
    alloc: Global,
    rows: &mut Vec<Row<'a>>,
    text: &'a str,
    is_marked: bool,
) -> Result<(), TableFault> {
    let line = Line::new(text, is_marked)?;
    let (first, last) = match line.request_text {
        "turn" => return Ok(rows.push(line.turn(alloc)?)?),
        "jobs" => (1, number(line.reply_text)?),
        "job" => (number(line.reply_text)?, number(line.reply_text)?),
        _ => return Ok(rows.push(line.request(alloc)?)?),
    };
    if last == 0 {
        return Err(TableFault::Number);
    }
    for id in first..=last {
        rows.push(line.job(alloc, id)?)?;
    }
    Ok(())
}

/// Reads the rows of a table, or returns the first that is malformed. In a marked table, each row says whether it allocates.
pub fn rows_of<'a>(
    alloc: Global,
    table: &'a str,
    is_marked: bool,
) -> Result<Vec<Row<'a>>, (&'a str, TableFault)> {
    let mut rows = Vec::new(alloc);
    for text in table.lines() {
        push_rows(alloc, &mut rows, text, is_marked).map_err(|fault| (text, fault))?;
    }
    Ok(rows)
}
