//! Hits and their lines of text.
ghost use Rattle.std.specs.Prelude.{◌≡◌, ◌≤◌, ◌<◌, ◌+◌, ◌++◌, length, IfOk};
ghost use Rattle.geocode.specs.HitLine.{hit_lines, letter, line, place_text};

use arrayvec::ArrayString;
use itoa::Buffer;
use linear_referencing::Place;
use std::alloc::{AllocError, Allocator};

// 20 digits, a tab, the side, a tab, two coordinates of up to 20 characters with a tab between them, a line feed.
/// The length of the longest line of a hit in bytes, including its terminator.
pub const LINE_LENGTH: usize = 65;

/// A side of a street segment, seen when going from its FR end to its TO end.
#[derive(Clone, Copy, PartialEq, Eq)]
pub enum Side {
    Left,
    Right,
}

/// A house number found on a side of a segment.
#[derive(Clone, Copy, PartialEq, Eq)]
pub struct Hit {
    /// The number of the segment's TLID.
    pub tlid: u64,
    pub side: Side,
    /// The place of the house number along the segment, or `None` if a coordinate of the segment's ends is unknown.
    pub place: Option<Place>,
}

impl Hit {
    /// Returns the hit as a line of text: TLID, `L` or `R`, longitude and latitude, separated by tabs and terminated by LF, as in
    /// `123456789\tL\t-86494898\t32405102\n`. Without a place, longitude and latitude are `-`. It doesn't allocate.
    pub fn line(&self) -> ArrayString<LINE_LENGTH>
        ensures { result.bytes ≡ line self.now }
    {
        let mut text = ArrayString::new();
        text.push_str(Buffer::new().format(self.tlid));
        text.push_str("\t");
        text.push_str(self.side.letter());
        text.push_str("\t");
        push_place(self.place, &mut text);
        text.push_str("\n");
        text
    }
}

/// Returns the lines of the hits, one after the other.
pub fn hit_lines<A: Allocator>(alloc: A, hits: &[Hit]) -> Result<Vec<u8, A>, AllocError>
    ensures { IfOk result (λ text. text.items ≡ hit_lines hits.now) }
{
    let mut text = Vec::new(alloc);
    for hit in hits {
        text.extend_from_slice(hit.line().as_bytes())?;
    }
    Ok(text)
}

impl Side {
    /// Returns the side's letter in a line of text: `L` or `R`.
    pub fn letter(self) -> &'static str
        ensures value { result.now ≡ letter self }
        ensures one { length result.now ≡ 1 }
    {
        match self {
            Side::Left => "L",
            Side::Right => "R",
        }
    }
}

fn push_place(place: Option<Place>, text: &mut ArrayString<LINE_LENGTH>)
    requires { length text.old.bytes + 42 ≤ LINE_LENGTH }
    ensures value { text.new.bytes ≡ text.old.bytes ++ place_text place }
    ensures room { length text.new.bytes < LINE_LENGTH }
{
    let Some(place) = place else {
        text.push_str("-\t-");
        return;
    };
    text.push_str(Buffer::new().format(place.longitude));
    text.push_str("\t");
    text.push_str(Buffer::new().format(place.latitude));
}
