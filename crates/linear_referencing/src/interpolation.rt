//! Shares of a distance.
ghost use Rattle.std.specs.Prelude.{◌≡◌, ◌^◌, ◌<◌, ◌≤◌, ◌*ℤ◌, int_div, nat_abs};

/// Returns `length * offset / total`, rounded toward zero.
pub fn interpolate(length: i128, offset: i128, total: i128) -> i64
    requires length { nat_abs length < 2 ^ 33 }
    requires offset { nat_abs offset ≤ nat_abs total }
    requires some { 0 < nat_abs total }
    requires total { nat_abs total < 2 ^ 64 }
    ensures value { result ≡ int_div (length *ℤ offset) total }
    ensures within { nat_abs result ≤ nat_abs length }
    ensures small { nat_abs result < 2 ^ 33 }
{
    (length * offset / total) as i64
}
