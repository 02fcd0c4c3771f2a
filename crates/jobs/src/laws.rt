//! Laws over the definitions, as contracts of functions that do nothing.
ghost use Rattle.std.specs.Prelude.{◌≡◌, ◌≢◌, ℕ, List, [], ◌∷◌, ◌++◌, Some, Contains};
ghost use Rattle.std.specs.Borrow.{Bor};
ghost use Rattle.std.specs.List.{range_with_len};
ghost use Rattle.tl_segments.specs.County.{CountyParts};
ghost use Rattle.jobs.specs.Run.{Exchange, IsOwn, IsRun, assigned_ids, programs_of, turns_of};
ghost use Rattle.jobs.specs.Table.{JobParts, Step, Table, empty_table, job_of};
ghost use Rattle.jobs.specs.declared.event.Event.{Event};
ghost use Rattle.jobs.specs.declared.event.Event.TheVariants.{Submit};
ghost use Rattle.jobs.specs.declared.event.Reply.{Reply};
ghost use Rattle.jobs.specs.declared.event.Reply.TheVariants.{Refused};
ghost use Rattle.jobs.specs.declared.fault.JobFault.TheVariants.{Memory};
ghost use Rattle.jobs.specs.declared.cursor.TheConstants.{MAX_COUNTIES};
ghost use Rattle.jobs.specs.declared.table.TheConstants.{MAX_JOBS};
ghost use Rattle.jobs.specs.declared.turn.TheConstants.{SEGMENTS_PER_TURN};

/// The limits of a table and of a turn.
pub fn limits()
    ensures jobs { MAX_JOBS ≡ 64 }
    ensures counties { MAX_COUNTIES ≡ 100000 }
    ensures turn { SEGMENTS_PER_TURN ≡ 256 }
{}

/// Whatever is requested of a table, in whatever order, and whatever it replies, each open job is the result of its own submission and its own
/// turns; no program, refusal, turn or removal of another job affects it. Ids are 1, 2, 3 and so on, each assigned once, and no two open jobs have
/// the same id.
///
/// A job is therefore the same, byte for byte, as a job of another run over the same counties with the same program and the same number of turns,
/// whatever its id there, and whatever else is requested of either table.
pub fn runs()
    ensures own { (counties : List CountyParts) (exchanges : List Exchange) (table : Table) → IsRun (empty_table counties) exchanges table
        → (id : ℕ) (job : JobParts) → job_of table id ≡ Some job → IsOwn counties exchanges id job }
    ensures each { (counties : List CountyParts) (exchanges : List Exchange) (table : Table) → IsRun (empty_table counties) exchanges table
        → (id : ℕ) (job : JobParts) → Contains table.jobs (id, job) → job_of table id ≡ Some job }
    ensures alike { (counties : List CountyParts) (exchanges others : List Exchange) (table other : Table)
        → IsRun (empty_table counties) exchanges table → IsRun (empty_table counties) others other
        → (id other_id : ℕ) (job other_job : JobParts) → job_of table id ≡ Some job → job_of other other_id ≡ Some other_job
        → programs_of id exchanges ≡ programs_of other_id others → turns_of id exchanges ≡ turns_of other_id others → job ≡ other_job }
    ensures ids { (counties : List CountyParts) (exchanges : List Exchange) (table : Table) → IsRun (empty_table counties) exchanges table
        → assigned_ids exchanges ≡ range_with_len 1 table.last_id }
    ensures counties { (counties : List CountyParts) (exchanges : List Exchange) (table : Table) → IsRun (empty_table counties) exchanges table
        → table.counties ≡ counties }
{}

/// A step after a run makes a longer run. The calls of a table and their replies, in order, are therefore a run from the table's first state.
pub fn runs_extend()
    ensures { (old now new : Table) (exchanges : List Exchange) (event : Event) (reply : Reply)
        → IsRun old exchanges now → Step now event reply new → IsRun old (exchanges ++ record { event = event; reply = reply } ∷ []) new }
{}

/// Unless an allocation fails, a submission has only one possible reply, which depends on the table and the program.
pub fn submissions()
    ensures { (old new again : Table) (program : Bor (List ℕ)) (reply other : Reply) → Step old (Submit program) reply new
        → Step old (Submit program) other again → reply ≢ Refused Memory → other ≢ Refused Memory → reply ≡ other }
{}
