//! Limits on how long a client may hold the server.
ghost use Rattle.std.specs.Prelude.{◌≡◌, min};
ghost use Rattle.std.specs.Option.{option_map};
ghost use Rattle.std.specs.Duration.{as_nanos, max_nanos};
ghost use Rattle.tcp_server.specs.Limits.{IsStandard, reply_limit, wait};

use std::time::Duration;

/// Limits on how long a client may hold the server.
#[derive(Clone, Copy)]
pub struct Limits {
    /// The longest wait in one read.
    pub idle: Duration,
    /// The longest time for all reads of a request, counted from the first, which comes right after the accept.
    pub request: Duration,
    /// The longest time for all writes of a reply, counted from the first. Each mebibyte of the reply adds a second.
    pub reply: Duration,
    /// The longest time for all reads of bytes that a client sends after its request.
    pub linger: Duration,
}

const MEBIBYTE: u64 = 1_048_576;

impl Limits {
    /// Returns the program's limits.
    pub fn standard() -> Limits
        ensures { IsStandard result }
    {
        Limits {
            idle: Duration::from_secs(10),
            request: Duration::from_secs(30),
            reply: Duration::from_secs(30),
            linger: Duration::from_secs(5),
        }
    }

    /// Returns the time that a client may take for a reply of `bytes` bytes.
    pub fn reply_limit(&self, bytes: u64) -> Duration
        ensures { as_nanos result ≡ min (reply_limit (as_nanos self.now.reply) bytes) max_nanos }
    {
        self.reply
            .saturating_add(Duration::from_secs(bytes / MEBIBYTE))
    }
}

/// Returns the time that the next call may wait after `elapsed` of a limit, or `None` if the limit is over. Public for tests, which have no clock.
pub fn wait_left(idle: Duration, limit: Duration, elapsed: Duration) -> Option<Duration>
    ensures { option_map as_nanos result ≡ wait (as_nanos idle) (as_nanos limit) (as_nanos elapsed) }
{
    // Compares nanoseconds, because comparing durations with `<` proves nothing about their nanoseconds.
    if limit.as_nanos() <= elapsed.as_nanos() {
        return None;
    }
    // The timeout of a socket changes only when less than `idle` is left, which saves system calls.
    let left = limit - elapsed;
    Some(if left.as_nanos() < idle.as_nanos() {
        left
    } else {
        idle
    })
}
