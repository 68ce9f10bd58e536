//! The thread of the background jobs: each steps in turn.

ghost use Rattle.std.specs.Prelude.{◌≡◌, List, [], ◌++◌, ◌∷◌, IfSome};
ghost use Rattle.crossbeam_channel.specs.{Claims.{view, IsSeatAt}, Ends.{sends_on, receives_on}};
ghost use Rattle.tn_session.specs.workers.{Acts.job_acts, Turning.{Holds, IsQueue, queue_of, TakesTurn}};
ghost use Rattle.tn_session.specs.workers.{Credits.{HaveUsed, steps_among}, Stops.{StopsStay, has_stopped}};
ghost use Rattle.tn_session.specs.{workers.Mailbox.sender, declared.workers.mail.Mail.Mail as MailT};
ghost use Rattle.tn_session.specs.workers.Stepping.{AreSteps, is_background, leaves_in_background};
ghost use Rattle.tn_session.specs.declared.workers.mail.Sender.TheVariants.{Back};
ghost use Rattle.tn_jobs.specs.Judging.{judged};
ghost use Rattle.tn_jobs.specs.declared.verdicts.JobState.TheVariants as state;

use crate::workers::channels::MailSeat;
use crate::workers::credit::StepCredits;
use crate::workers::mail::Sender;
use crate::workers::post::Post;
use crate::workers::stops::{StopSeat, is_stopped};
use std::alloc::Global;
use std::collections::VecDeque;
use tn_cores::{Gate, Message, Place};
use tn_jobs::{After, Job, JobId, JobState, Reaction, judge};

/// A background job that runs.
#[derive(Drop)]
pub struct Runner<J> {
    pub id: JobId,
    pub job: J,
}

// Returns whether the job still runs in the background after this reaction.
fn goes_on(has_text: bool, after: After, tostop: bool) -> bool
    ensures { result ≡ leaves_in_background (judged state.Background has_text after tostop) }
{
    match judge(JobState::Background, has_text, after, tostop) {
        Some(verdict) => is_background(verdict.next),
        None => false,
    }
}

fn is_background(job: JobState) -> bool
    ensures { result ≡ is_background job }
{
    match job {
        JobState::Background => true,
        JobState::Foreground | JobState::Stopped(_) | JobState::Ended => false,
    }
}

// The outcome of a turn of the queue.
#[derive(Drop)]
enum Turn {
    // No job runs.
    Idle,
    // The first job found no memory.
    Refused,
    // The first job made this step.
    Did { id: JobId, reaction: Reaction },
}

fn advance<J: Job>(queue: &mut VecDeque<Runner<J>>, alloc: Global, tostop: bool) -> Turn
    ensures { TakesTurn (job_acts J.reacts J.steps J.refuses) tostop
        queue.old.items result queue.new.items }
{
    let Some(Runner { id, mut job }) = queue.pop_front() else {
        return Turn::Idle;
    };
    let Ok(reaction) = job.step(alloc) else {
        return Turn::Refused;
    };
    let on = goes_on(!reaction.text.as_slice().is_empty(), reaction.after, tostop);
    if !on {
        return Turn::Did { id, reaction };
    }
    // The place that it left is free.
    queue.push_back_reserved(Runner { id, job });
    Turn::Did { id, reaction }
}

// tools/progress: proctype Back
/// Runs the jobs in turn, each step for a credit, until none of them runs or it is asked to stop.
/// It returns `None` if the other end of a channel is gone.
pub fn run_back<P: Post, J: Job, G: Gate>(
    post: &P,
    alloc: Global,
    seat: &mut MailSeat,
    mut queue: VecDeque<Runner<J>>,
    tostop: bool,
    gate: &G,
    stops: &mut Option<StopSeat>,
    credits: &mut StepCredits,
) -> Option<()>
    requires mailbox { IsSeatAt (sends_on seat.old.to) seat.old.pass ×
        (view seat.old.pass ≡ sender Back []) }
    requires jobs { IsQueue J.fresh queue.items }
    requires stops { StopsStay stops.old stops.old }
    requires credits { IsSeatAt (receives_on credits.old.seat.from) credits.old.seat.pass }
    ensures seat { IfSome result (λ _. IsSeatAt (sends_on seat.old.to) seat.new.pass) }
    ensures stepped { IfSome result (λ _. AreSteps (Holds queue.items)
        (job_acts J.reacts J.steps J.refuses) (queue_of tostop queue.items) (has_stopped stops.new)
        (view seat.new.pass)) }
    ensures stays { StopsStay stops.old stops.new }
    ensures credited { IfSome result
        (λ _. (mails : List MailT) → view seat.new.pass ≡ sender Back mails →
        HaveUsed (steps_among mails) credits.old credits.new) }
{
    for _ in 0..u64::MAX {
        credits.take(post)?;
        if is_stopped(post, stops) {
            return post.say(&seat.to, &mut seat.pass, Sender::Back, Message::Left);
        }
        gate.at(Place::BackStep);
        match advance(&mut queue, alloc, tostop) {
            Turn::Idle => return post.say(&seat.to, &mut seat.pass, Sender::Back, Message::Left),
            Turn::Refused => {
                post.say(&seat.to, &mut seat.pass, Sender::Back, Message::Refused)?;
                return post.say(&seat.to, &mut seat.pass, Sender::Back, Message::Left);
            },
            Turn::Did { id, reaction } => {
                let Reaction { text, after } = reaction;
                let said = Message::Said {
                    job: id,
                    text,
                    after,
                };
                post.say(&seat.to, &mut seat.pass, Sender::Back, said)?;
            },
        }
    }
    None
}
