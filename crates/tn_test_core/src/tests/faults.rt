//! The texts of the faults.

use crate::models::page::Page;
use std::alloc::Global;
use std::fmt::Display;
use std::process::Abort;
use tn_codes::PayloadFault;
use tn_discipline::CharFault;
use tn_jobs::JobFault;
use tn_option::AskFault;
use tn_pty::PtyFault;
use tn_server::ServerFault;

fn reads<T: Display>(rt: &impl Abort, alloc: Global, fault: &T, wanted: &str) {
    let mut text = String::new(alloc);
    let _refused = write!(text, "{fault}");
    assert!(rt; text.as_str() == wanted);
}

#[test]
fn faults_of_the_lower_crates_have_their_texts(rt: HostRuntime) {
    let alloc = rt.alloc();
    for (fault, text) in [
        (AskFault::UnknownOption, "option not supported"),
        (
            AskFault::AlreadySo,
            "the option is already in the requested state",
        ),
        (
            AskFault::AlreadyAsked,
            "already requested, awaiting the answer",
        ),
        (
            AskFault::AlreadyQueued,
            "already queued behind an outstanding answer",
        ),
    ] {
        reads(&rt, alloc, &fault, text);
    }
    for (fault, text) in [
        (
            CharFault::NotSettable,
            "the function has no special character",
        ),
        (
            CharFault::Reserved,
            "a line feed, a carriage return and 255 are never special characters",
        ),
        (CharFault::Taken, "another special character has this value"),
    ] {
        reads(&rt, alloc, &fault, text);
    }
    reads(
        &rt,
        alloc,
        &PayloadFault::BadLength,
        "wrong number of parameters",
    );
}

#[test]
fn faults_of_terminals_and_ends_have_their_texts(rt: HostRuntime) {
    let alloc = rt.alloc();
    for (fault, text) in [
        (JobFault::NoSuchJob, "no such job"),
        (JobFault::WrongState, "the job cannot change to this state"),
        (JobFault::Full, "job limit reached"),
        (JobFault::Memory, "out of memory"),
    ] {
        reads(&rt, alloc, &fault, text);
    }
    reads(&rt, alloc, &PtyFault::Memory, "out of memory");
    reads(&rt, alloc, &PtyFault::Closed, "the pair is closed to input");
    let behind = ServerFault::Pty(PtyFault::TooFarAhead);
    reads(
        &rt,
        alloc,
        &behind,
        "pseudoterminal: too many entries are waiting",
    );
    reads(&rt, alloc, &ServerFault::Failed, "the end has failed");
}
