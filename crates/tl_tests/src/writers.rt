//! Writers that fail in the middle of their output: what they take, and what they count.
use counted_io::{CountedWrite, Counting, WriteFault, write_text};
use fixtures::{FaultPlan, Table, TableFault, Writer, cells, number, size, taken, writer};
use std::alloc::Global;
use std::io::Write;

// How a writer fails, and a sequence of calls and checks: a write of a text, with the number of bytes that it takes, or `-` if the call fails; a
// flush; the counts of failed calls, of writes that wrote 0 bytes and of flushes; the number of calls that its fuse counted; and everything that it
// has taken.
const WRITES: Table = Table(
    "\
call 2 pipe; write:abc=3 write:de=- write:=0 write:de=2 flush=0 failed=1 empty=0 flushes=1 calls=5 taken:abcde
call 2 late; write_counted:abc=3 write_counted:de=- write_counted:=0 write_counted:de=2 flush_counted=0
  failed=1 empty=0 flushes=1 calls=5 taken:abcde
call 2 nothing; write:abc=3 write:de=0 write:=0 write:de=2 flush=0 failed=0 empty=1 flushes=1 calls=5 taken:abcde
call 2 nothing; write_counted:abc=3 write_counted:de=0 write_counted:=0 write_counted:de=2 flush_counted=0
  failed=0 empty=1 flushes=1 calls=5 taken:abcde
after 4 full; write:abc=3 write:de=1 write:e=- write:e=1 failed=1 empty=0 calls=4 taken:abcde
after 4 interrupted; write_counted:abc=3 write_counted:de=1 write_counted:e=- write_counted:e=1 failed=1 calls=4
call 2 blocked; flush=0 flush=- write:=0 flush=0 failed=1 empty=0 flushes=3 calls=4
call 2 interrupted; flush_counted=0 flush_counted=- write_counted:=0 flush_counted=0 failed=1 flushes=3 calls=4
call 1 nothing; flush=- flush_counted=0 failed=1 empty=0 flushes=2 calls=2
after 0 pipe; write_whole:abcde=- failed=1 empty=0 calls=1 taken:
after 1 interrupted; write_whole:abcde=- failed=1 empty=0 calls=2 taken:a
after 4 full; write_whole:abcde=- failed=1 empty=0 calls=2 taken:abcd
after 5 pipe; write_whole:abcde=5 failed=0 empty=0 calls=1 taken:abcde
after 0 nothing; write_whole:abcde=0 failed=0 empty=1 calls=1 taken:
after 1 nothing; write_whole:abcde=0 failed=0 empty=1 calls=2 taken:a
after 4 nothing; write_whole:abcde=0 failed=0 empty=1 calls=2 taken:abcd
after 5 nothing; write_whole:abcde=5 failed=0 empty=0 calls=1 taken:abcde
by 1 call 3 blocked; write_whole:abcde=- failed=1 calls=3 taken:ab
by 1; write_whole:abcde=5 write_whole:=0 failed=0 empty=0 flushes=0 calls=5 taken:abcde",
);

/// Returns how many bytes of a text a writer takes in one call, or `None` if it fails.
fn given<W: CountedWrite>(
    writer: &mut W,
    call: &str,
    text: &[u8],
) -> Result<Option<usize>, TableFault> {
    match call {
        "write" => Ok(writer.write(text).ok()),
        "write_counted" => Ok(writer.write_counted(text).ok()),
        "write_whole" => Ok(whole(writer, text)),
        _ => Err(TableFault::Word),
    }
}

/// Returns how many bytes `write_text` takes: all, or 0 if a write takes nothing. Returns `None` if a write fails.
fn whole<W: CountedWrite>(writer: &mut W, text: &[u8]) -> Option<usize> {
    match write_text(writer, text) {
        Ok(()) => Some(text.len()),
        Err(WriteFault::WriteZero) => Some(0),
        Err(WriteFault::Write) => None,
    }
}

/// Returns 0 for a flush that succeeds, or `None`.
fn flushed<W: CountedWrite>(writer: &mut W, call: &str) -> Result<Option<usize>, TableFault> {
    let flushed = match call {
        "flush" => writer.flush(),
        "flush_counted" => writer.flush_counted(),
        _ => return Err(TableFault::Word),
    };
    Ok(flushed.ok().and(Some(0)))
}

/// Returns one of a writer's counts: of failed calls, of writes that wrote 0 bytes, of flushes, or of the calls to its fuse.
fn count(writer: &Writer, name: &str) -> Option<u64> {
    match name {
        "failed" => Some(writer.failed_writes()),
        "empty" => Some(writer.empty_writes()),
        "flushes" => Some(writer.flushes()),
        "calls" => Some(writer.get_ref().calls),
        _ => None,
    }
}

/// Returns the number of bytes that a call takes, or `None` for `-`, a call that fails.
fn expected(word: &str) -> Result<Option<usize>, TableFault> {
    if word == "-" {
        return Ok(None);
    }
    Ok(Some(size(word)?))
}

/// Returns whether a call or a count of a writer gives what a word says.
fn is_given(writer: &mut Writer, word: &str) -> Result<bool, TableFault> {
    if let Some(text) = word.strip_prefix("taken:") {
        return Ok(taken(writer) == text.as_bytes());
    }
    let (call, answer) = word.split_once('=').ok_or(TableFault::Word)?;
    if let Some(count) = count(writer, call) {
        return Ok(count == number(answer)?);
    }
    match call.split_once(':') {
        Some((call, text)) => Ok(given(writer, call, text.as_bytes())? == expected(answer)?),
        None => Ok(flushed(writer, call)? == expected(answer)?),
    }
}

/// Returns whether a writer behaves as a row says.
fn is_written(alloc: Global, row: &str) -> Result<bool, TableFault> {
    let (plan, words) = cells(row)?.two()?;
    let mut writer = writer(alloc, FaultPlan::new(plan)?);
    for word in words.split(' ') {
        if !is_given(&mut writer, word)? {
            return Ok(false);
        }
    }
    Ok(true)
}

#[test]
fn each_write(rt: HostRuntime) {
    for row in WRITES.joined(rt.alloc()).expect(&rt, "writes").lines() {
        assert_eq!(rt; is_written(rt.alloc(), row), Ok(true), "{row}");
    }
}
