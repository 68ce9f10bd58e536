//! The theorem of two programs (T3), over what their calls promise; and what both ends take as typed.

ghost use Rattle.tn_theorems.specs.programs.Keys.{TypedAreKeys};
ghost use Rattle.tn_theorems.specs.programs.Programs.{ReadsEditedLines, TheoremOfPrograms};
ghost use Rattle.tn_session.specs.{Facts.job_facts, Makers.begins};

use crate::sessions::laws::what_you_type_is_what_the_job_reads;
use tn_editor::laws::whole_lines_give_the_entries;
use tn_session::Maker;

/// The job reads what you type over a connection, by the results of `serve_connection` and
/// `connect`. If a socket carries what each wrote, what the job took is a prefix of the entries of
/// the keys that the client read, and is all of them if both ran to the end.
pub fn what_you_type_over_a_connection_is_read<M: Maker>()
    ensures { (maker : M) →
        TheoremOfPrograms (job_facts (begins M.Job.fresh M.gives maker) M.Job.reacts M.Job.steps
        M.Job.refuses) }
{
    what_you_type_is_what_the_job_reads::<M>();
}

/// If the keys that the client read are those of lines which its user edited before, with keys that a plain terminal lacks,
/// the job reads the lines as they were edited.
pub fn what_is_edited_in_lines_is_read<M: Maker>()
    ensures { (maker : M) →
        ReadsEditedLines
        (job_facts (begins M.Job.fresh M.gives maker) M.Job.reacts M.Job.steps M.Job.refuses) }
{
    what_you_type_over_a_connection_is_read::<M>();
    whole_lines_give_the_entries();
}

/// The commands of a client's stream that count as typed are those that the terminal takes as keys.
pub fn what_counts_as_typed_is_a_key()
    ensures { TypedAreKeys }
{}
