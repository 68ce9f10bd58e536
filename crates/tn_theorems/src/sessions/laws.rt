//! The theorems of two sessions (T2) and of one loop (T4), over the definitions alone.

ghost use Rattle.std.specs.Prelude.{ℕ};
ghost use Rattle.tn_discipline.specs.Canon.{Canon};
ghost use Rattle.tn_theorems.specs.sessions.{Answers.{AnswersOfServer, AnswersOfClient}, OneLoop.TheoremOfOneLoop};
ghost use Rattle.tn_theorems.specs.sessions.Example.{SessionsCarryALine};
ghost use Rattle.tn_theorems.specs.sessions.Returned.{Served, Connected};
ghost use Rattle.tn_theorems.specs.sessions.Theorem.{ReadsWhatIsGiven, TheoremOfSessions};
ghost use Rattle.tn_session.specs.{Facts.job_facts, Makers.begins};
ghost use Rattle.tn_server.specs.declared.{openings.Opening.TheVariants.Keys, wishes.Editing.Editing};

use tn_session::Maker;

/// What you type is what the job reads, by the observations of two sessions. The premises: the
/// server's special characters are the standard ones, both have lines of one limit, each command
/// that was sent stands for a key at the server, and a socket carries what each wrote. Then what
/// the job took is a prefix of the entries of the keys that the client read, with the commands
/// between them, and is all of them if both sessions ran to the end. It is a prefix of the entries
/// of what the user's reader gives, too, if its bytes are known and nothing is asked for between
/// them.
pub fn what_you_type_is_what_the_job_reads<M: Maker>()
    ensures typed { (maker : M) → TheoremOfSessions
        (job_facts (begins M.Job.fresh M.gives maker) M.Job.reacts M.Job.steps M.Job.refuses) }
    ensures given { (maker : M) → ReadsWhatIsGiven
        (job_facts (begins M.Job.fresh M.gives maker) M.Job.reacts M.Job.steps M.Job.refuses) }
{}

/// No answer comes late: before its core takes the next message, each session has written all that
/// its run sent by then, or all that it ever wrote, as a write failed. A client writes into the
/// queue of its connection.
pub fn no_answer_comes_late<M: Maker>()
    ensures server { (maker : M) (canon : Canon)
        (s : Served
        (job_facts (begins M.Job.fresh M.gives maker) M.Job.reacts M.Job.steps M.Job.refuses)
        canon) → AnswersOfServer s }
    ensures client { (limit : ℕ) (c : Connected limit) → AnswersOfClient c }
{}

/// If one loop runs both machines, with nothing between them but two lists of bytes, what you type
/// is what the job reads, for all events and however the bytes are cut: that they are carried is
/// proved, and no premise.
pub fn one_loop_reads_what_is_typed()
    ensures { TheoremOfOneLoop }
{}

/// The premises about two sessions can be met, and both can run to the end: a line is typed at the
/// client, and taken by the job of a server that opens for keys.
pub fn two_sessions_carry_a_line()
    ensures { (editing : Editing) →
        SessionsCarryALine (record { opening = Keys; editing = editing }) }
{}
