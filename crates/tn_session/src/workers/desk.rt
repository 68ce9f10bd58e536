//! The thread of the foreground job.

ghost use Rattle.std.specs.Prelude.{◌≡◌, List, Option, [], ◌++◌, ◌∷◌, IfSome, Some, None, map};
ghost use Rattle.crossbeam_channel.specs.{Claims.{view, IsSeatAt}, Ends.{sends_on, receives_on}};
ghost use Rattle.tn_discipline.specs.declared.reads.Entry.{Entry as EntryT};
ghost use Rattle.tn_session.specs.workers.{Acts.job_acts, Mailbox.sender, Talk.{IsJob, IsTalk}};
ghost use Rattle.tn_session.specs.declared.workers.mail.Sender.TheVariants.{Desk};
ghost use Rattle.tn_cores.specs.queue.Queue.{taker};

use crate::workers::channels::MailSeat;
use crate::workers::entries::EntrySeat;
use crate::workers::mail::Sender;
use crate::workers::post::Post;
use std::alloc::Global;
use tn_cores::{Gate, Message, Place};
use tn_jobs::{After, Job, JobId, Reaction};

// tools/progress: proctype Desk
/// Asks for entries and lets the job answer them, until the end, a Done or out of memory. It
/// returns `None` if the other end of a channel is gone, or after 18,446,744,073,709,551,615
/// entries.
pub fn run_desk<P: Post, J: Job, G: Gate>(
    post: &P,
    alloc: Global,
    seat: &mut MailSeat,
    entries: &mut EntrySeat,
    id: JobId,
    mut job: J,
    gate: &G,
) -> Option<()>
    requires mailbox { IsSeatAt (sends_on seat.old.to) seat.old.pass ×
        (view seat.old.pass ≡ sender Desk []) }
    requires entries { IsSeatAt (receives_on entries.old.from) entries.old.pass ×
        (view entries.old.pass ≡ taker []) }
    requires fresh { J.fresh job }
    ensures mailbox { IfSome result (λ _. IsSeatAt (sends_on seat.old.to) seat.new.pass) }
    ensures entries { IfSome result
        (λ _. IsSeatAt (receives_on entries.old.from) entries.new.pass) }
    ensures talk { IfSome result (λ _. IsTalk id (IsJob job) (job_acts J.reacts J.steps J.refuses)
        (view seat.new.pass) (view entries.new.pass)) }
{
    for _ in 0..u64::MAX {
        post.say(&seat.to, &mut seat.pass, Sender::Desk, Message::Take)?;
        let Some(entry) = post.next_entry(&entries.from, &mut entries.pass)? else {
            return post.say(&seat.to, &mut seat.pass, Sender::Desk, Message::Left);
        };
        gate.at(Place::DeskEntry);
        let Ok(reaction) = job.entry(alloc, entry) else {
            post.say(&seat.to, &mut seat.pass, Sender::Desk, Message::Refused)?;
            return post.say(&seat.to, &mut seat.pass, Sender::Desk, Message::Left);
        };
        let Reaction { text, after } = reaction;
        let said = Message::Said {
            job: id,
            text,
            after,
        };
        post.say(&seat.to, &mut seat.pass, Sender::Desk, said)?;
        match after {
            After::Stay | After::WantsInput | After::Stop | After::Hide | After::Show => {},
            After::Done => {
                return post.say(&seat.to, &mut seat.pass, Sender::Desk, Message::Left);
            },
        }
    }
    None
}
