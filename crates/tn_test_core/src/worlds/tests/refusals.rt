//! Ends that stop or fail, and what is left then.

use super::playing::{ALL, agrees, open, play, play_all, rests, rests_with, types, waiting};
use crate::models::page::mask;
use std::alloc::Global;
use std::cmp::Ordering;
use std::process::Abort;
use tn_client::ClientFault;
use tn_discipline::{Entry, Limit, Sig};
use tn_pty::PtyFault;
use tn_server::{Editing, ServerFault};
use tn_world::{Cause, Event, World, WorldFault};

const KEYS: [u8; 7] = [b'a', b',', 127, 127, b'b', 3, 13];

/// The number of events without one that stops an end.
const EVENTS: usize = 23;

// A line is typed in two parts, erased across both, closed and taken: the event at this place.
fn event(place: usize) -> Event {
    match place {
        0 => Event::Mask(Some(mask(&[0, 0, 0, 0, 0, 8]))),
        1 | 18 | 21 => Event::ToClient(ALL),
        2 | 17 | 20 => Event::ToServer(ALL),
        3..=16 => typed_or_read(place),
        _ => Event::Take,
    }
}

// Returns the event at a place: keys at odd places, and after each a byte comes to the server.
fn typed_or_read(place: usize) -> Event {
    match KEYS.get((place / 2).saturating_sub(1)) {
        Some(key) if place % 2 == 1 => Event::Key(*key),
        _ => Event::ToServer(1),
    }
}

// Returns the events with one more by which the server or the client stops at one place.
fn with_a_stop(at: usize, place: usize, server: bool) -> Event {
    match at.cmp(&place) {
        Ordering::Less => event(at),
        Ordering::Equal if server => Event::ServerStops,
        Ordering::Equal => Event::ClientStops,
        Ordering::Greater => event(at.saturating_sub(1)),
    }
}

fn stops(
    rt: &impl Abort,
    alloc: Global,
    world: &mut World,
    place: usize,
    server: bool,
) -> Result<(), WorldFault> {
    assert!(rt; rests_with(world, Editing::Local)?);
    for at in 0..=EVENTS {
        play(world, with_a_stop(at, place, server))?;
        agrees(rt, alloc, world, 254);
    }
    Ok(())
}

fn stops_at(rt: &impl Abort, alloc: Global, place: usize, server: bool) -> Result<(), WorldFault> {
    let mut world = open(alloc, Limit::standard())?;
    stops(rt, alloc, &mut world, place, server)
}

#[test]
fn an_end_that_stops_leaves_the_first_entries(rt: HostRuntime) -> Result<(), WorldFault> {
    for server in [true, false] {
        for place in 0..=EVENTS {
            stops_at(&rt, rt.alloc(), place, server)?;
        }
    }
    Ok(())
}

// Returns whether the server refuses the last of these events for this, and whether this number of
// entries are taken and wait then.
fn refuses(world: &mut World, events: &[Event], fault: ServerFault, made: (usize, usize)) -> bool {
    let at = events.len().saturating_sub(1);
    let cause = Cause::Server(fault);
    let refused = play_all(world, events) == Err(WorldFault { at, cause });
    refused && (world.taken().len(), waiting(world)) == made
}

// A world with as many entries as wait at most, and two more in flight.
fn falls_behind(rt: &impl Abort, world: &mut World) -> Result<(), WorldFault> {
    assert!(rt; rests(world)?);
    types(world, &[13; 1_026])?;
    is_too_far_behind(rt, world);
    has_failed(rt, world);
    Ok(())
}

fn is_too_far_behind(rt: &impl Abort, world: &mut World) {
    let fault = ServerFault::Pty(PtyFault::TooFarAhead);
    assert!(rt; refuses(world, &[Event::ToServer(ALL)], fault, (0, 1_024)));
}

fn has_failed(rt: &impl Abort, world: &mut World) {
    let events = [Event::Take, Event::Key(b'a'), Event::ToServer(ALL)];
    assert!(rt; refuses(world, &events, ServerFault::Failed, (1, 1_023)));
    assert!(rt; world.typed().len() == 1_027);
    assert!(rt; !world.mark());
}

#[test]
fn a_server_that_is_too_far_behind_keeps_what_it_has(rt: HostRuntime) -> Result<(), WorldFault> {
    let mut world = open(rt.alloc(), Limit::standard())?;
    falls_behind(&rt, &mut world)
}

fn is_of_memory(cause: Cause) -> bool {
    matches!(
        cause,
        Cause::Memory
            | Cause::Server(
                ServerFault::Memory | ServerFault::Failed | ServerFault::Pty(PtyFault::Memory)
            )
            | Cause::Client(ClientFault::Memory | ClientFault::Failed)
    )
}

// Returns whether the entries that were made begin those that the keys give: an interrupt, and a
// line of `b`.
fn begins(world: &World) -> bool {
    let count = waiting(world);
    match world.taken() {
        [] => count <= 2,
        [Entry::Signal(Sig::Int)] => count <= 1,
        [Entry::Signal(Sig::Int), Entry::Text(text)] => {
            count == 0 && text.as_slice() == b"b\n".as_slice()
        },
        _ => false,
    }
}

fn fails(rt: &impl Abort, world: &mut World) {
    if rests_with(world, Editing::Local) != Ok(true) {
        return;
    }
    for at in 0..=EVENTS {
        if let Err(fault) = play(world, with_a_stop(at, EVENTS, true)) {
            assert!(rt; fault.at == 0 && is_of_memory(fault.cause), "{fault:?}");
        }
        assert!(rt; begins(world));
    }
}

// If the toolchain refuses an allocation, a piece may fail an end: the entries that are left agree
// all the same.
#[test]
fn an_end_that_fails_leaves_the_first_entries(rt: HostRuntime) {
    if let Ok(mut world) = open(rt.alloc(), Limit::standard()) {
        fails(&rt, &mut world);
    }
}
