//! Worlds that the tests play, and the entries that their keys give at one line. Nothing in this
//! file has a contract, so that those of a world's calls are looked at once.

use crate::models::canonical::{entries, role_of};
use std::alloc::Global;
use std::process::Abort;
use tn_discipline::{Entry, Limit, Settings};
use tn_server::{Editing, Opening};
use tn_world::{Cause, Event, ToWhom, World, WorldFault};

/// The most bytes of a delivery.
pub(super) const ALL: usize = usize::MAX;

pub(super) fn open(alloc: Global, limit: Limit) -> Result<Box<World>, WorldFault> {
    open_with(alloc, Opening::Keys, Settings::standard(), limit)
}

pub(super) fn open_with(
    alloc: Global,
    opening: Opening,
    settings: Settings,
    limit: Limit,
) -> Result<Box<World>, WorldFault> {
    match World::open_with(alloc, opening, settings, 80, 24, limit) {
        Ok(world) => boxed(alloc, world),
        Err(fault) => Err(fault),
    }
}

fn boxed(alloc: Global, world: World) -> Result<Box<World>, WorldFault> {
    let refused = WorldFault {
        at: 0,
        cause: Cause::Memory,
    };
    Box::new(alloc, world).ok().ok_or(refused)
}

pub(super) fn play_all(world: &mut World, events: &[Event]) -> Result<(), WorldFault> {
    world.run(events)
}

pub(super) fn play(world: &mut World, event: Event) -> Result<(), WorldFault> {
    play_all(world, &[event])
}

pub(super) fn types(world: &mut World, keys: &[u8]) -> Result<(), WorldFault> {
    for key in keys {
        play(world, Event::Key(*key))?;
    }
    Ok(())
}

fn is_silent(world: &World) -> bool {
    world.in_flight(ToWhom::Server).is_empty() && world.in_flight(ToWhom::Client).is_empty()
}

// All to the client and then all to the server, while anything is in flight: two rounds are enough.
pub(super) fn settle(world: &mut World) -> Result<(), WorldFault> {
    if is_silent(world) {
        return Ok(());
    }
    world.settle()
}

pub(super) fn settle_with(world: &mut World, event: Event) -> Result<(), WorldFault> {
    play(world, event)?;
    settle(world)
}

// Returns whether a settled world is at rest.
pub(super) fn rests(world: &mut World) -> Result<bool, WorldFault> {
    settle(world)?;
    Ok(world.mark())
}

// Returns whether a settled world is at rest once this side edits.
pub(super) fn rests_with(world: &mut World, editing: Editing) -> Result<bool, WorldFault> {
    settle(world)?;
    play(world, Event::Wish(editing))?;
    rests(world)
}

// Returns the number of entries that wait.
pub(super) fn waiting(world: &World) -> usize {
    for count in 0..2_048 {
        if world.waiting(count).is_none() {
            return count;
        }
    }
    2_048
}

// The entries of these keys at one line of at most this number of bytes.
fn at_a_line(alloc: Global, keys: &[u8], most: usize) -> Vec<Entry> {
    let settings = Settings::standard();
    let mut roles = Vec::new(alloc);
    for key in keys {
        let _refused = roles.push(role_of(&settings, *key));
    }
    entries(alloc, most, &roles)
}

// The entries that were made are the first of those that the keys give, and all of them at rest.
pub(super) fn agrees(rt: &impl Abort, alloc: Global, world: &World, most: usize) {
    begins(rt, world, &at_a_line(alloc, world.typed(), most));
}

fn begins(rt: &impl Abort, world: &World, entries: &[Entry]) {
    let (taken, rest) = entries.split_at(world.taken().len().min(entries.len()));
    assert!(rt; world.taken() == taken);
    assert!(rt; keeps(world, rest));
}

// Returns whether those that wait are the first of these entries, and all of them at rest.
fn keeps(world: &World, entries: &[Entry]) -> bool {
    for (place, entry) in entries.iter().enumerate() {
        if world.waiting(place) != Some(entry) {
            return world.waiting(place).is_none() && !is_silent(world);
        }
    }
    world.waiting(entries.len()).is_none()
}
