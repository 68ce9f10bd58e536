//! Both machines of two sessions, run by one loop.

use std::alloc::{AllocError, Global};
use std::process::Abort;
use std::test::Fail;
use tn_discipline::{Entry, Limit, Settings, Text};
use tn_jobs::Table;
use tn_server::{Approach, Editing, Opening};
use tn_theorems::sessions::{Joined, LoopEvent};

fn text_of(alloc: Global, bytes: &[u8]) -> Result<Text, AllocError> {
    let mut text = Vec::new(alloc);
    text.extend_from_slice(bytes)?;
    Ok(Text::from(text))
}

fn start(alloc: Global, approach: Approach) -> Result<Joined, Fail> {
    let mut table = Table::new(alloc);
    table.add()?;
    let settings = Settings::standard();
    let limit = Limit::standard();
    match Joined::start(alloc, settings, limit, approach, table, 80, 24) {
        Ok(joined) => Ok(joined),
        Err(fault) => Err(Fail::from(fault)),
    }
}

// Lets this number of bytes come to the server and to the client, turn and turn about.
fn carry(joined: &mut Joined, alloc: Global, count: usize, times: usize) -> Result<(), Fail> {
    for _ in 0..times {
        joined.happen(alloc, LoopEvent::ToServer(count))?;
        joined.happen(alloc, LoopEvent::ToClient(count))?;
    }
    Ok(())
}

// A line is typed key by key, with an erased key in it, and what is on its way is cut into pieces of this
// length.
fn type_a_line(joined: &mut Joined, alloc: Global, count: usize) -> Result<(), Fail> {
    carry(joined, alloc, count, 200)?;
    joined.happen(alloc, LoopEvent::Take)?;
    for key in b"hx\x7fi\r".as_slice() {
        joined.happen(alloc, LoopEvent::Typed(text_of(alloc, &[*key])?))?;
        carry(joined, alloc, count, 3)?;
    }
    carry(joined, alloc, count, 200)
}

fn has_read_it(joined: &Joined, rt: &impl Abort, alloc: Global) -> Result<(), Fail> {
    let mut wanted = Vec::new(alloc);
    wanted.push(Some(Entry::Text(text_of(alloc, b"hi\n")?)))?;
    assert!(rt; joined.to_server.is_empty());
    assert!(rt; joined.to_client.is_empty());
    assert!(rt; joined.puts.as_slice() == wanted.as_slice());
    Ok(())
}

fn reads_a_line(
    rt: &impl Abort,
    alloc: Global,
    approach: Approach,
    count: usize,
) -> Result<(), Fail> {
    let mut joined = start(alloc, approach)?;
    type_a_line(&mut joined, alloc, count)?;
    has_read_it(&joined, rt, alloc)
}

#[test]
fn one_loop_reads_what_is_typed_wherever_it_is_edited(rt: HostRuntime) -> Result<(), Fail> {
    for opening in [Opening::Keys, Opening::Lines] {
        let remote = Approach {
            opening,
            editing: Editing::Remote,
        };
        let local = Approach {
            opening,
            editing: Editing::Local,
        };
        for count in 1..4 {
            reads_a_line(&rt, rt.alloc(), remote, count)?;
            reads_a_line(&rt, rt.alloc(), local, count)?;
        }
        reads_a_line(&rt, rt.alloc(), local, 512)?;
    }
    Ok(())
}

// Returns whether nothing is read though a line is typed and asked for.
fn reads_nothing(joined: &mut Joined, alloc: Global) -> Result<bool, Fail> {
    joined.happen(alloc, LoopEvent::Take)?;
    joined.happen(alloc, LoopEvent::Typed(text_of(alloc, b"hi\r")?))?;
    Ok(joined.puts.is_empty())
}

#[test]
fn nothing_is_read_before_it_comes(rt: HostRuntime) -> Result<(), Fail> {
    let mut joined = start(rt.alloc(), Approach::for_keys(Editing::Remote))?;
    assert!(&rt; reads_nothing(&mut joined, rt.alloc())?);
    Ok(())
}
