//! Laws of whole talks and of a job that ticks, only over the definitions.

ghost use Rattle.std.specs.{Prelude.{◌≡◌, ◌≤◌, ◌+◌, ◌++◌, ℕ, List, length, map}, List.FoldsTo};
ghost use Rattle.tn_discipline.specs.declared.reads.Entry.{Entry};
ghost use Rattle.tn_serve.specs.services.Answering.{AreTicks, IsFresh, AreSteps, ticks};
ghost use Rattle.tn_serve.specs.services.{Joining.{Reacts, Steps}, Talks.{SendsTalk, ShowsTalk}};
ghost use Rattle.tn_serve.specs.declared.services.{answering.Answerer.Answerer, joining.Gateway.Gateway};
ghost use Rattle.tn_serve.specs.declared.services.sending.{SendingLines.SendingLines, Way.TheVariants.Open};
ghost use Rattle.tn_serve.specs.declared.services.showing.Showing.{Showing};
ghost use Rattle.tn_serve.specs.declared.services.joining.Gateway.TheVariants as side;
ghost use Rattle.tn_jobs.specs.declared.reactions.Reaction.{Reaction};
ghost use Rattle.tn_session.specs.workers.Talk.{Answers};

use tn_cores::streams::Source;
use tn_session::Finish;

/// The service gets each line of the entries that were answered, once and in order, with the line
/// end that was chosen, and nothing else. If a write failed, it gets the first bytes of that.
pub fn lines_go_in_order<R: Source, W: Finish>()
    ensures { (first : SendingLines W) (turns : List (Entry × Reaction)) (last : Gateway R W) → first.way
        ≡ Open
        → Answers (Reacts W.contents W.told) (side.Sends first) turns last
        → SendsTalk W.contents W.told first (map (λ turn. turn.0) turns) last }
{}

/// The user is shown what the reader gives, in order, with a line feed for each CR LF, and nothing else;
/// all of it once the job has ended by the reader's end.
pub fn all_is_shown<R: Source, W: Finish>()
    ensures { (first : Showing R) (reactions : List Reaction) (last : Gateway R W)
        → FoldsTo (Steps R.remaining R.foretold R.sizes R.words) (side.Shows first) reactions last
        → ShowsTalk R.remaining R.foretold R.sizes R.words first reactions last }
{}

/// A job with N ticks left makes N ticks, one at each step, and then none is left. A fresh job has as many
/// left as it was made for.
pub fn ticks_are_counted()
    ensures number { (left : ℕ) → length (ticks left) ≡ left }
    ensures steps { (left after : ℕ) (reactions : List Reaction) → AreTicks left reactions after →
        length reactions ≤ left → reactions ++ ticks after ≡ ticks left }
    ensures all { (number after : ℕ) (reactions : List Reaction) → AreTicks number reactions after →
        length reactions ≡ number → reactions ≡ ticks number }
    ensures left { (left after : ℕ) (reactions : List Reaction) → AreTicks left reactions after →
        length reactions ≤ left → after + length reactions ≡ left }

    // From a fresh job its steps write the first of the ticks that it was made for, and as many steps all.
    ensures fresh { (job after : Answerer) (reactions : List Reaction) → IsFresh job →
        AreSteps job reactions after → length reactions ≤ job.ticks →
        reactions ++ ticks after.left ≡ ticks job.ticks }
    ensures fresh_all { (job after : Answerer) (reactions : List Reaction) → IsFresh job →
        AreSteps job reactions after → length reactions ≡ job.ticks → reactions ≡ ticks job.ticks }
{}
