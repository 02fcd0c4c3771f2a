//! The times that calls may wait, with the program's limits.
use fixtures::{Table, TableFault, cells, number};
use std::time::Duration;
use tcp_server::{Limits, wait_left};

// The call; the milliseconds that have elapsed; for a write, the number of bytes of the reply including this write; and the milliseconds that it may
// wait.
const WAITS: Table = Table(
    "\
read; 0; 0; 10000
read; 19999; 0; 10000
read; 20000; 0; 10000
read; 20001; 0; 9999
read; 29999; 0; 1
read; 30000; 0; none
read; 30001; 0; none
read; 86400000; 0; none
write; 0; 0; 30000
write; 0; 1048575; 30000
write; 0; 1048576; 31000
write; 0; 2097151; 31000
write; 0; 104857600; 130000
write; 29999; 1048575; 1
write; 30000; 1048575; none
write; 30000; 1048576; 1000
write; 31000; 1048576; none
linger; 0; 0; 5000
linger; 4999; 0; 1
linger; 5000; 0; none",
);

/// Returns the time that a call may wait after this time. A write's reply has this number of bytes, including this write.
fn wait_of(call: &str, elapsed: Duration, bytes: u64) -> Result<Option<Duration>, TableFault> {
    let limits = Limits::standard();
    match call {
        "read" => Ok(wait_left(limits.idle, limits.request, elapsed)),
        "write" => {
            let limit = limits.reply_limit(bytes);
            Ok(wait_left(limit, limit, elapsed))
        }
        "linger" => Ok(wait_left(limits.linger, limits.linger, elapsed)),
        _ => Err(TableFault::Word),
    }
}

fn is_right(row: &str) -> Result<bool, TableFault> {
    let (call, elapsed, bytes, wait) = cells(row)?.four()?;
    let wait = match wait {
        "none" => None,
        _ => Some(Duration::from_millis(number(wait)?)),
    };
    let elapsed = Duration::from_millis(number(elapsed)?);
    Ok(wait_of(call, elapsed, number(bytes)?)? == wait)
}

#[test]
fn waits(rt: HostRuntime) {
    for row in WAITS.joined(rt.alloc()).expect(&rt, "waits").lines() {
        assert_eq!(rt; is_right(row), Ok(true), "{row}");
    }
}
