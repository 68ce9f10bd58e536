//! The answers of the job.

use crate::greeter::Greeter;
use std::alloc::{AllocError, Global};
use std::process::Abort;
use std::test::Fail;
use tn_discipline::{Entry, Sig, Text};
use tn_jobs::{After, Job};

// A line with these bytes.
fn line(alloc: Global, bytes: &[u8]) -> Result<Entry, AllocError> {
    let mut text = Vec::new(alloc);
    text.extend_from_slice(bytes)?;
    Ok(Entry::Text(Text::from(text)))
}

#[test]
fn each_name_is_greeted_after_its_password(rt: HostRuntime) -> Result<(), Fail> {
    let alloc = rt.alloc();
    let mut job = Greeter::new(None);
    let asked = job.entry(alloc, line(alloc, b"ada\n")?)?;
    assert!(rt; asked.text.as_slice() == b"password: ".as_slice());
    assert!(rt; asked.after == After::Hide);
    let greeted = job.entry(alloc, line(alloc, b"secret\n")?)?;
    assert!(rt; greeted.text.as_slice() == b"\nhello, ada\n".as_slice());
    assert!(rt; greeted.after == After::Show);
    let again = job.entry(alloc, Entry::Signal(Sig::Int))?;
    assert!(rt; again.text.as_slice() == b"\nname?\n".as_slice());
    let ended = job.entry(alloc, Entry::Eof)?;
    assert!(rt; ended.after == After::Done);
    Ok(())
}
