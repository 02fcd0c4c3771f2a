//! Laws over the definitions, as contracts of functions that do nothing.
ghost use Rattle.std.specs.Prelude.{◌≡◌, ◌≢◌, ◌⊎◌, ◌<◌, ℕ, List, All, Option};
ghost use Rattle.http_message.specs.Reply.{ReplyParts};
ghost use Rattle.jobs.specs.Run.{Exchange, IsRun};
ghost use Rattle.jobs.specs.Table.{empty_table};
ghost use Rattle.metrics.specs.Counters.{CountersParts};
ghost use Rattle.tl_segments.specs.County.{CountyParts};
ghost use Rattle.http_message.specs.declared.status.Status.TheVariants.{NotFound};
ghost use Rattle.jobs.specs.declared.event.Event.TheVariants.{Fetch};
ghost use Rattle.wire.specs.Answer.{ExtractsTo, IsVerified, Replies, memory_reply, status_reply};
ghost use Rattle.wire.specs.Counting.{with_counters};
ghost use Rattle.wire.specs.Decision.{DecisionParts, IsDecided, RequestsCounts, SendsFilter};
ghost use Rattle.wire.specs.Event.{Act, AreActs, AreExchanges, IsEvent, IsOwnReply, Requests};
ghost use Rattle.wire.specs.State.{StateParts, new_state};
ghost use Rattle.wire.specs.declared.decision.RequestRead.{RequestRead};

/// An input has only one decision. The way it's split into reads therefore doesn't matter: the reply depends on the input alone.
pub fn decisions()
    ensures one { (input : List ℕ) (decision other : DecisionParts) → IsDecided input decision → IsDecided input other → decision ≡ other }
{}

/// A request is at most one event of the table of jobs, and never a turn. Whatever a server replies to any inputs, with any turns in between, its
/// table is therefore that of a run of these events. `laws::runs` of the crate `jobs` says about such runs that no job affects another one's
/// result.
pub fn requests()
    ensures one_event { (input : List ℕ) (request_read : RequestRead) (old new : StateParts) (reply : ReplyParts) → Replies input request_read old reply new
        → (new ≡ old) ⊎ IsEvent old reply new }
    ensures runs { (codes : List (List ℕ)) (counties : List CountyParts) (start : Option ℕ) (acts : List Act) (state : StateParts)
        → AreActs (new_state codes counties start) acts state
        → (exchanges : List Exchange) × AreExchanges acts exchanges × IsRun (empty_table counties) exchanges state.table }
{}

/// Whatever a server did before, a request for a job returns the result of that job's own submission and its own turns, or reports that there is no
/// such job.
pub fn isolation()
    ensures { (codes : List (List ℕ)) (counties : List CountyParts) (start : Option ℕ) (acts : List Act) (state : StateParts)
        → AreActs (new_state codes counties start) acts state
        → (input : List ℕ) (request_read : RequestRead) (reply : ReplyParts) (new : StateParts) → Replies input request_read state reply new
        → (id : ℕ) → Requests input (Fetch id) → (reply ≡ status_reply NotFound) ⊎ IsOwnReply counties acts id reply }
{}

/// Unless an allocation fails, a request to verify a program or to run it over the counties has only one possible reply, which depends on the
/// program and the counties. For a program that is submitted as a job, `laws::submissions` of the crate `jobs` says the same.
pub fn verdicts()
    ensures verify { (program : List ℕ) (reply other : ReplyParts) → IsVerified program reply → IsVerified program other
        → reply ≢ memory_reply → other ≢ memory_reply → reply ≡ other }
    ensures extract { (counties : List CountyParts) (program : List ℕ) (reply other : ReplyParts) → ExtractsTo counties program reply
        → ExtractsTo counties program other → reply ≢ memory_reply → other ≢ memory_reply → reply ≡ other }
{}

/// Unless an allocation fails, the same bytes have only one possible reply on every route that takes no filter, over the same counties and the same
/// table of jobs, and only one state after it.
pub fn one_reply()
    ensures { (input : List ℕ) (request_read other_read : RequestRead) (old new again : StateParts) (reply other : ReplyParts)
        → (SendsFilter input → ⊥) → Replies input request_read old reply new → Replies input other_read old other again
        → All (λ byte. byte < 256) reply.body → All (λ byte. byte < 256) other.body → reply ≢ memory_reply → other ≢ memory_reply
        → (reply ≡ other) × (new ≡ again) }
{}

/// Only the reply to a request for the counts depends on them: with any other counts, every other request may have the same replies, and changes the
/// state in the same way. It leaves the counts as they are.
pub fn counters()
    ensures { (input : List ℕ) (request_read : RequestRead) (old new : StateParts) (reply : ReplyParts) (counters : CountersParts)
        → (RequestsCounts input → ⊥) → Replies input request_read old reply new
        → (new.counters ≡ old.counters)
        × Replies input request_read (with_counters counters old) reply (with_counters counters new) }
{}
