//! Numbers in bytes.
ghost use Rattle.std.specs.Prelude.{◌≡◌, ◌^◌, ◌<◌, ◌≤◌, map, length, Some};
ghost use Rattle.bpf_insn.specs.Frame.{Byte, number_of};

/// Returns the little-endian number in at most eight bytes. The case of one byte, which most loads read, is tested first.
#[inline(always)]
pub(crate) fn little_endian(bytes: &[u8]) -> u64
    requires { length bytes.now ≤ 8 }
    ensures { Some result ≡ number_of (map Byte bytes.now) }
{
    match bytes {
        [byte] => u64::from(*byte),
        _ => lowest_first(bytes),
    }
}

/// Returns the number in bytes, lowest first.
fn lowest_first(bytes: &[u8]) -> u64
    requires { length bytes.now ≤ 8 }
    ensures value { Some result ≡ number_of (map Byte bytes.now) }
    ensures fits { result < 256 ^ length bytes.now }
{
    match bytes {
        [] => 0,
        [first, rest @ ..] => u64::from(*first) + 256 * lowest_first(rest),
    }
}
