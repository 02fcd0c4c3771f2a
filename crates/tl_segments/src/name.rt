//! Names of street segments.
ghost use Rattle.std.specs.Prelude.{◌≡◌, ◌≤◌, length};
ghost use Rattle.tl_segments.specs.Name.{name_equals};

use tl_fields::blank;

/// The length of a name in bytes, including trailing blanks.
pub const NAME_LENGTH: usize = 30;

/// Returns whether a name equals the wanted bytes, ignoring ASCII case. The rest of the name must be blank.
pub fn name_equals(name: &[u8], wanted: &[u8]) -> bool
    requires name { length name.now ≡ NAME_LENGTH }
    requires some { 1 ≤ length wanted.now }
    requires few { length wanted.now ≤ NAME_LENGTH }
    ensures { result ≡ name_equals name.now wanted.now }
{
    let (front, rest) = name.split_at(wanted.len());
    front.eq_ignore_ascii_case(wanted) && blank(rest)
}
