//! The decision on an input: whether it's a request, and what it requests.
//!
//! The input as a whole decides, so how it was cut into reads can't matter. A path has a route or is 404 before its method is looked at, and the
//! rules of the body come before the action.
ghost use Rattle.std.specs.Prelude.{◌≡◌, IfErr, IfOk, IsTrue};
ghost use Rattle.http_message.specs.Reading.{ReadsHead};
ghost use Rattle.http_message.specs.Target.{path_of, query_of};
ghost use Rattle.counted_io.specs.ReaderWriter.{Reader};
ghost use Rattle.wire.specs.Decision.{length_status, named_by, request_read_of, requested_action, takes_body};
ghost use Rattle.wire.specs.Reading.{Decides, FailsToDecide, decision_of, of_head};

use crate::summary::Named;
use counted_io::CountedRead;
use http_message::{
    Action, BodyFault, HeadBuffer, HeadFault, LengthFault, Request, Route, Routes, Status, Target,
    Verb, read_body,
};
use std::alloc::Allocator;

/// How much of a request was read.
#[derive(Clone, Copy, PartialEq, Eq)]
pub enum RequestRead {
    /// Everything that matters: bytes that come later aren't part of the request, or are the body of a request that takes none.
    Complete,
    /// Only what was needed to refuse the request: the client may still be sending.
    Partial,
}

/// An accepted request, whose path and method have an action.
#[derive(Drop)]
pub(crate) struct RoutedRequest<'a, A: Allocator> {
    pub action: Action,
    pub target: Target<'a>,
    pub body: Vec<u8, A>,
}

/// The decision on an input.
#[derive(Drop)]
pub(crate) enum Decision<'a, A: Allocator> {
    Refuses(Status),
    Disallows(Route),
    Accepts(RoutedRequest<'a, A>),
}

impl<A: Allocator> Decision<'_, A> {
    pub fn request_read(&self) -> RequestRead
        ensures { result ≡ request_read_of (decision_of self.now) }
    {
        match self {
            Decision::Refuses(_) | Decision::Disallows(_) => RequestRead::Partial,
            Decision::Accepts(_) => RequestRead::Complete,
        }
    }
}

/// What the head of an input names, and the decision on the input.
#[derive(Drop)]
pub(crate) struct Decided<'a, A: Allocator> {
    pub named: Named,
    pub decision: Decision<'a, A>,
}

/// Why there is no decision.
#[derive(Clone, Copy)]
pub(crate) enum ReadFault {
    Closed,
    Read,
    /// An allocation failed for the body of a request whose head names this.
    Memory(Named),
}

impl From<HeadFault> for ReadFault {
    ghost from_gives = { λ fault given. given ≡ of_head fault };

    fn from(fault: HeadFault) -> ReadFault {
        match fault {
            HeadFault::Closed => ReadFault::Closed,
            HeadFault::Read => ReadFault::Read,
        }
    }
}

/// Reads an input as far as a decision needs.
pub(crate) fn read_decision<'a, A: Allocator + Copy, R: CountedRead>(
    alloc: A,
    routes: &Routes,
    buffer: &'a mut HeadBuffer,
    input: &mut R,
) -> Result<Decided<'a, A>, ReadFault>
    ensures ok { IfOk result (λ decided. Decides decided.named (decision_of decided.decision) (R.reader input.old) (R.reader input.new)) }
    ensures err { IfErr result (λ fault. FailsToDecide fault (R.reader input.old) (R.reader input.new)) }
{
    let Some(request) = buffer.read_head(input)? else {
        return Ok(Decided {
            named: Named {
                verb: None,
                route: None,
            },
            decision: Decision::Refuses(Status::BadRequest),
        });
    };
    let verb = Verb::named(request.method());
    let target = Target::of(request.target());
    let Some(route) = routes.find(target.path) else {
        return Ok(Decided {
            named: Named { verb, route: None },
            decision: Decision::Refuses(Status::NotFound),
        });
    };
    let named = Named {
        verb,
        route: Some(route),
    };
    let Some(action) = route.action(request.method()) else {
        return Ok(Decided {
            named,
            decision: Decision::Disallows(route),
        });
    };
    if !takes_body(action) {
        return Ok(Decided {
            named,
            decision: Decision::Accepts(RoutedRequest {
                action,
                target,
                body: Vec::new(alloc),
            }),
        });
    }
    read_routed(alloc, &request, named, target, action, input)
}

/// Reads the body of a request whose action takes one.
fn read_routed<'a, A: Allocator + Copy, R: CountedRead>(
    alloc: A,
    request: &Request<'a>,
    named: Named,
    target: Target<'a>,
    action: Action,
    input: &mut R,
) -> Result<Decided<'a, A>, ReadFault>
    requires named { named ≡ named_by request.now.head }
    requires path { target.path.now ≡ path_of request.now.head.target }
    requires query { target.query.now ≡ query_of request.now.head.target }
    requires requests { requested_action request.now.head ≡ Some action }
    requires takes { IsTrue (takes_body action) }
    ensures ok { IfOk result (λ decided. (start : Reader)
        → ReadsHead request.now start (R.reader input.old)
        → Decides decided.named (decision_of decided.decision) start (R.reader input.new)) }
    ensures err { IfErr result (λ fault. (start : Reader)
        → ReadsHead request.now start (R.reader input.old)
        → FailsToDecide fault start (R.reader input.new)) }
{
    let length = match request.body_length() {
        Ok(length) => length,
        Err(fault) => {
            return Ok(Decided {
                named,
                decision: Decision::Refuses(length_status(fault)),
            });
        }
    };
    match read_body(alloc, request.after_head(), length, input) {
        Ok(body) => Ok(Decided {
            named,
            decision: Decision::Accepts(RoutedRequest {
                action,
                target,
                body,
            }),
        }),
        Err(BodyFault::Short) => Ok(Decided {
            named,
            decision: Decision::Refuses(Status::BadRequest),
        }),
        Err(BodyFault::Read) => Err(ReadFault::Read),
        Err(BodyFault::Memory) => Err(ReadFault::Memory(named)),
    }
}

/// The actions requested by POST take a body, the others none.
fn takes_body(action: Action) -> bool
    ensures { result ≡ takes_body action }
{
    !matches!(
        action,
        Action::Index
            | Action::Health
            | Action::Geocode
            | Action::Metrics
            | Action::List
            | Action::Fetch
            | Action::Drop
    )
}

/// Returns the status for a request without a usable body length.
fn length_status(fault: LengthFault) -> Status
    ensures { result ≡ length_status fault }
{
    match fault {
        LengthFault::Missing => Status::LengthRequired,
        LengthFault::Invalid => Status::BadRequest,
        LengthFault::TooLarge => Status::PayloadTooLarge,
    }
}
