//! Request targets and their parts.
ghost use Rattle.std.specs.Prelude.{◌≡◌};
ghost use Rattle.http_message.specs.Target.{job_id, path_of, query_of};

use numerals::are_digits;

// The number of digits of the greatest number below 2^64.
const ID_LENGTH: usize = 20;

/// A request target, split into its path and its query. Percent-encoding isn't decoded.
#[derive(Clone, Copy)]
pub struct Target<'a> {
    pub path: &'a str,
    pub query: &'a str,
}

impl<'a> Target<'a> {
    pub fn of(target: &'a str) -> Target<'a>
        ensures path { result.path.now ≡ path_of target.now }
        ensures query { result.query.now ≡ query_of target.now }
    {
        match target.split_once('?') {
            Some((path, query)) => Target { path, query },
            None => Target {
                path: target,
                query: "",
            },
        }
    }
}

/// Returns the id of the job that a path names, or `None` if that isn't a number below 2^64 in at most 20 digits.
pub fn job_id(path: &str) -> Option<u64>
    ensures { result ≡ job_id path.now }
{
    let text = path.strip_prefix("/jobs/")?;

    // `parse` would also accept a plus sign.
    if text.len() > ID_LENGTH || !are_digits(text.as_bytes()) {
        return None;
    }
    text.parse().ok()
}
