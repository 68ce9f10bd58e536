//! Laws of the core, only over the definitions.

ghost use Rattle.std.specs.Prelude.{◌≡◌, ℕ, List, map};
ghost use Rattle.tn_cores.specs.client.{Bringing.TakesInOrder, Ending.IsEndedAt, Marks.Runs};
ghost use Rattle.tn_cores.specs.{client.Run.{Run, start}, declared.client.messages.ClientMark.ClientMark};
ghost use Rattle.tn_cores.specs.declared.{client.messages.Told.Told, faults.Ended.TheVariants.Fault};
ghost use Rattle.tn_cores.specs.declared.faults.SessionFault.{SessionFault};

/// The keys that were typed with the commands between them, and the bytes from the network whose
/// items came, are prefixes of what the messages brought, in order, each once, whichever call
/// failed; and all of it if nothing ended the session.
pub fn bytes_go_in_order()
    ensures { (width height limit : ℕ) (marked : List (Told × ClientMark)) (new : Run) →
        Runs (start width height limit) marked new → TakesInOrder (map (λ m. m.0) marked) new }
{}

/// A run ends by a fault only if the fault's cause was there: a message that reading failed, or
/// that memory ran out; a write to the network or the screen that failed; or a call of the end that
/// was refused for its cause, out of memory within a piece.
pub fn faults_have_causes()
    ensures { (width height limit : ℕ) (marked : List (Told × ClientMark)) (new : Run)
        (fault : SessionFault) →
        Runs (start width height limit) marked new → new.progress.ended ≡ Fault fault →
        IsEndedAt (start width height limit) marked (Fault fault) }
{}
