//! Laws over the definitions, as contracts of functions that do nothing.
ghost use Rattle.std.specs.Prelude.{◌≡◌, ◌≢◌, ◌⊎◌, ℕ, Option, length};
ghost use Rattle.counted_io.specs.Counting.{next_count};
ghost use Rattle.http_message.specs.declared.status.Status.{Status};
ghost use Rattle.http_message.specs.declared.route.Route.{Route};
ghost use Rattle.metrics.specs.Counters.{CountersParts, new_counters, replies_of, with_reply};
ghost use Rattle.metrics.specs.declared.counters.TheConstants.{CELLS};

/// At first, all counts are 0. A reply adds one to the count of its route and status, and to no other.
pub fn counts()
    ensures first { (start : Option ℕ) (route : Option Route) (status : Status) → replies_of (new_counters start) route status ≡ 0 }
    ensures one { (counters : CountersParts) (route : Option Route) (status : Status) → length counters.replies ≡ CELLS
        → replies_of (with_reply route status counters) route status ≡ next_count (replies_of counters route status) }
    ensures others { (counters : CountersParts) (route other : Option Route) (status another : Status) → (other ≢ route) ⊎ (another ≢ status)
        → replies_of (with_reply route status counters) other another ≡ replies_of counters other another }
{}
