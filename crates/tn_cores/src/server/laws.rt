//! Laws of the terminal, only over the definitions.

ghost use Rattle.std.specs.Prelude.{◌≡◌, ℕ, Bool, false, Some, List, map};
ghost use Rattle.tn_discipline.specs.Canon.{Canon};
ghost use Rattle.tn_jobs.specs.{Jobs.{Jobs, state_at}, declared.verdicts.JobState.TheVariants.Foreground};
ghost use Rattle.tn_server.specs.declared.openings.Approach.{Approach};
ghost use Rattle.tn_cores.specs.declared.faults.Ended.TheVariants.{HangUp, Fault};
ghost use Rattle.tn_cores.specs.server.{Ending.IsFaultCause, Requests.{AnswersRequests, requests_among}};
ghost use Rattle.tn_cores.specs.server.{Echoing.{is_echoing, echo_after}, Giving.GivesPrefix};
ghost use Rattle.tn_cores.specs.server.{Marks.{Turns, Runs, run_after_opening}, Reaching.LeadsTo};
ghost use Rattle.tn_cores.specs.server.{Hearing.{Hears, HangsUp, MayAllCome}, Run.{Run, start}};
ghost use Rattle.tn_cores.specs.server.Welcoming.{IsWelcome, too_far_ahead};
ghost use Rattle.tn_cores.specs.declared.{faults.SessionFault.SessionFault, messages.Message.Message};
ghost use Rattle.tn_cores.specs.declared.server.{messages.ServerMark.ServerMark, terminal.Term.Term};

use tn_jobs::laws::one_job_changes;

/// The entries that go to the foreground job are a prefix of the history's entries, in order, each
/// once, whichever call failed.
pub fn entries_go_in_order()
    ensures { (opens : Bool) (canon : Canon) (approach : Approach) (jobs : Jobs)
        (marked : List (Message × ServerMark)) (new : Run) →
        Runs (run_after_opening opens (start canon approach jobs)) marked new →
        GivesPrefix new.puts new.history }
{}

/// The stream of a run is the first bytes of its pieces, and its entries are those of the stream's
/// items.
pub fn pieces_are_heard()
    ensures { (opens : Bool) (canon : Canon) (approach : Approach) (jobs : Jobs)
        (marked : List (Message × ServerMark)) (new : Run) →
        Runs (run_after_opening opens (start canon approach jobs)) marked new →
        Hears canon approach (map (λ m. m.0) marked) new }
{}

/// If a run ends by a hang-up, all pieces were read, and all entries were put before an end was.
pub fn all_goes_before_a_hang_up()
    ensures { (opens : Bool) (canon : Canon) (approach : Approach) (jobs : Jobs) (id : ℕ)
        (marked : List (Message × ServerMark)) (new : Run) →
        Runs (run_after_opening opens (start canon approach jobs)) marked new →
        new.progress.ended ≡ HangUp → state_at jobs id ≡ Some Foreground →
        MayAllCome false (map (λ m. m.0) marked) → HangsUp id (map (λ m. m.0) marked) new }
{
    one_job_changes();
}

/// A run ends by a fault only if the fault's cause was there: a message that reading failed, or that
/// memory ran out; a write that failed; or a call of the end that was refused for its cause, too far
/// behind only if as many entries waited as there may be.
pub fn faults_have_causes()
    ensures { (opens : Bool) (canon : Canon) (approach : Approach) (jobs : Jobs)
        (marked : List (Message × ServerMark)) (new : Run) (fault : SessionFault) →
        Runs (run_after_opening opens (start canon approach jobs)) marked new →
        new.progress.ended ≡ Fault fault →
        IsFaultCause opens (run_after_opening opens (start canon approach jobs)) marked fault }
{}

/// Typed keys are echoed or not as the job in the foreground asked. No other message changes that.
pub fn echo_is_as_asked()
    ensures { (c new : Run) (message : Message) (mark : ServerMark) → Turns c (message, mark) new →
        is_echoing new ≡ echo_after c message }
{}

/// No welcome message ends a session because too many entries wait: a piece of at most 512 bytes completes at
/// most 513 items, each makes at most one entry, and at most 511 entries waited before.
pub fn welcome_messages_find_room()
    ensures { (c new : Run) (term : Term) (message : Message) (mark : ServerMark) → LeadsTo c term →
        IsWelcome c message → Turns c (message, mark) new → new.progress.ended ≡ too_far_ahead →
        c.progress.ended ≡ too_far_ahead }
{}

/// The entries that were put for the foreground job, and its request that waits, are no more than
/// its requests: no put finds an entry that was put before without a request.
pub fn puts_answer_requests()
    ensures { (opens : Bool) (canon : Canon) (approach : Approach) (jobs : Jobs)
        (marked : List (Message × ServerMark)) (new : Run) →
        Runs (run_after_opening opens (start canon approach jobs)) marked new →
        AnswersRequests (requests_among marked) new }
{}
