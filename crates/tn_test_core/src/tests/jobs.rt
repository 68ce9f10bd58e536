//! The jobs of a table, and the verdicts on them.

use super::play_all;
use crate::models::page::{Page, Stage, Words};
use std::alloc::Global;
use tn_jobs::{After, JobFault, JobId, JobState, Table, Why, judge};

#[derive(Drop)]
struct Jobs {
    table: Table,
}

impl Stage for Jobs {
    fn open(alloc: Global) -> Option<Jobs> {
        let table = Table::new(alloc);
        Some(Jobs { table })
    }

    fn step(&mut self, words: Words<'_>, page: &mut Page) -> bool {
        let id = JobId(words.number());
        match words.verb {
            "add" => match self.table.add() {
                Err(JobFault::Memory) => return true,
                added => page.say(&added),
            },
            "state" => page.say(&self.table.state(id)),
            "foreground" => page.say(&self.table.foreground(id)),
            "background" => page.say(&self.table.background(id)),
            "done" => page.say(&self.table.done(id)),
            "stops" => page.say(&self.table.stopped(id, Why::Tstp)),
            _ => tell_verdict(words, page),
        }
        false
    }
}

// Prints a verdict. The verb has the state and whether a text was written; the arguments, what
// comes after, and TOSTOP.
fn tell_verdict(words: Words<'_>, page: &mut Page) {
    let (state, wrote) = words.verb.split_once('-').unwrap_or((words.verb, ""));
    let state = match state {
        "fore" => JobState::Foreground,
        "back" => JobState::Background,
        "stopped" => JobState::Stopped(Why::Ttin),
        _ => JobState::Ended,
    };
    let after = match words.first {
        "stays" => After::Stay,
        "reads" => After::WantsInput,
        "ends" => After::Done,
        "hides" => After::Hide,
        "shows" => After::Show,
        _ => After::Stop,
    };
    match judge(state, wrote == "writes", after, words.second == "tostop") {
        None => page.begin("none"),
        Some(verdict) => {
            page.say(&verdict.next);
            page.put(if verdict.write { " written" } else { "" });
        },
    }
}

const SCRIPTS: &[(&str, &str)] = &[
    // One job is in the foreground.
    (
        "add; add; state 0; foreground 0; foreground 1; foreground 0; stops 0; stops 0; state 0; \
         foreground 1; done 16; background 1; background 1; done 1; state 1; stops 1; state 0",
        "Ok(JobId(0)); Ok(JobId(1)); Some(Background); Ok(()); Err(WrongState); Err(WrongState); Ok(()); \
         Err(WrongState); Some(Stopped(Tstp)); Ok(()); Err(NoSuchJob); Ok(()); Err(WrongState); Ok(()); \
         None; Err(NoSuchJob); Some(Stopped(Tstp))",
    ),
    // A table holds sixteen jobs.
    (
        "add; add; add; add; add; add; add; add; add; add; add; add; add; add; add; add; add; done 7; \
         add; add",
        "Ok(JobId(0)); Ok(JobId(1)); Ok(JobId(2)); Ok(JobId(3)); Ok(JobId(4)); Ok(JobId(5)); Ok(JobId(6)); \
         Ok(JobId(7)); Ok(JobId(8)); Ok(JobId(9)); Ok(JobId(10)); Ok(JobId(11)); Ok(JobId(12)); \
         Ok(JobId(13)); Ok(JobId(14)); Ok(JobId(15)); Err(Full); Ok(()); Ok(JobId(7)); Err(Full)",
    ),
    // A verdict goes by the state and the step.
    (
        "back-writes stays tostop; back-writes ends tostop; back stays tostop; back ends tostop; back reads; \
         back-writes reads; back-writes stays; back-writes stops; fore-writes reads tostop; \
         fore stays tostop; fore-writes stops; fore-writes ends tostop; ended-writes stays; \
         stopped-writes ends; fore-writes hides tostop; fore shows; back-writes hides; back shows",
        "Stopped(Ttou); Stopped(Ttou); Background; Ended; Stopped(Ttin); Stopped(Ttin) written; \
         Background written; Stopped(Tstp) written; Foreground written; Foreground; Stopped(Tstp) written; \
         Ended written; none; none; Foreground written; Foreground; Background written; Background",
    ),
];

#[test]
fn jobs_stand_as_their_table_and_verdicts_say(rt: HostRuntime) {
    play_all::<Jobs>(&rt, rt.alloc(), SCRIPTS);
}
