//! Laws of a table of jobs, only over the definitions.

ghost use Rattle.std.specs.Prelude.{◌≡◌, ◌≢◌, ◌+◌, ℕ, Option, Some, None};
ghost use Rattle.tn_jobs.specs.Jobs.{Jobs, state_at, with_state, held_count};
ghost use Rattle.tn_jobs.specs.declared.verdicts.JobState.{JobState};

/// A change at a held number changes only that job: the others keep their states, and the number
/// stays held unless its job is taken out.
pub fn one_job_changes()
    ensures changed { (jobs : Jobs) (id : ℕ) (old : JobState) (state : Option JobState)
        → state_at jobs id ≡ Some old → state_at (with_state jobs id state) id ≡ state }
    ensures others { (jobs : Jobs) (id other : ℕ) (state : Option JobState) → other ≢ id
        → state_at (with_state jobs id state) other ≡ state_at jobs other }
    ensures kept { (jobs : Jobs) (id : ℕ) (old new : JobState) → state_at jobs id ≡ Some old
        → held_count (with_state jobs id (Some new)) ≡ held_count jobs }
    ensures fewer { (jobs : Jobs) (id : ℕ) (old : JobState) → state_at jobs id ≡ Some old
        → held_count (with_state jobs id None) + 1 ≡ held_count jobs }
{}
