//! JSON pointers (RFC 6901).
ghost use Rattle.std.specs.Prelude.{◌≡◌, IfOk};
ghost use Rattle.cql2_json.specs.Pointer.{member_name, pointer_text};

use itoa::Buffer;
use std::alloc::{AllocError, Allocator};

/// A member of an object that is translated.
#[derive(Clone, Copy)]
pub(crate) enum Member {
    Op,
    Args,
    Property,
    Bbox,
    TypeName,
    Coordinates,
}

/// A step from a value to one in it.
#[derive(Clone, Copy)]
pub(crate) enum Step {
    Member(Member),
    Item(usize),
}

impl Member {
    /// Returns the member's name.
    pub fn name(self) -> &'static str
        ensures { result.now ≡ member_name self }
    {
        match self {
            Member::Op => "op",
            Member::Args => "args",
            Member::Property => "property",
            Member::Bbox => "bbox",
            Member::TypeName => "type",
            Member::Coordinates => "coordinates",
        }
    }
}

/// Returns the pointer that takes these steps.
pub(crate) fn pointer<A: Allocator + Copy>(
    alloc: A,
    steps: &[Step],
) -> Result<Vec<u8, A>, AllocError>
    ensures { IfOk result (λ text. text.items ≡ pointer_text steps.now) }
{
    let mut text = Vec::new(alloc);
    for step in steps {
        text.push(b'/')?;
        match *step {
            // No name of a member has a character that a pointer escapes.
            Step::Member(member) => text.extend_from_slice(member.name().as_bytes())?,
            Step::Item(index) => {
                let mut buffer = Buffer::new();
                text.extend_from_slice(buffer.format(index).as_bytes())?;
            }
        }
    }
    Ok(text)
}
