//! Random worlds compared with a local terminal.

use super::playing::{
    ALL, agrees, open, open_with, play, play_all, rests, rests_with, settle, settle_with, types,
};
use crate::models::random::Random;
use std::alloc::Global;
use std::process::Abort;
use tn_client::{ClientFault, UserCommand};
use tn_codes::Func;
use tn_discipline::{CharFault, Entry, Limit, Settings, Sig};
use tn_server::{Editing, Opening, ServerFault};
use tn_world::{Cause, Event, World, WorldFault};

const KEYS: [u8; 12] = [b'a', b'b', b'c', 255, 3, 26, 4, 127, 127, 21, 13, 10];

fn height(random: &mut Random) -> u16 {
    if random.flips() { 24 } else { 25 }
}

fn editing(random: &mut Random) -> Editing {
    if random.flips() {
        Editing::Local
    } else {
        Editing::Remote
    }
}

// Anything but a change of the mode or of a character.
fn event(random: &mut Random) -> Event {
    match random.roll(13) {
        0 => Event::Take,
        1 => Event::Pull(random.roll(9)),
        2 => Event::Resize(80, height(random)),
        3 => Event::Echo(random.flips()),
        4..=6 => Event::ToServer(random.roll(7)),
        7 | 8 => Event::ToClient(random.roll(7)),
        9 => Event::NewLine,
        _ => Event::Key(random.pick(&KEYS)),
    }
}

// A line is ended, and the mode may change before the next.
fn change_mode(world: &mut World, editing: Editing) -> Result<(), WorldFault> {
    settle_with(world, Event::Key(13))?;
    play(world, Event::Wish(editing))?;
    play(world, Event::ToClient(ALL))
}

fn happen(world: &mut World, random: &mut Random) -> Result<(), WorldFault> {
    if random.roll(30) == 0 {
        change_mode(world, editing(random))?;
    }
    play(world, event(random))
}

fn lives(
    rt: &impl Abort,
    alloc: Global,
    world: &mut World,
    random: &mut Random,
) -> Result<(), WorldFault> {
    assert!(rt; rests(world)?);
    for _ in 0..240 {
        happen(world, random)?;
        agrees(rt, alloc, world, 254);
    }
    Ok(())
}

fn lives_by(rt: &impl Abort, alloc: Global, seed: u32) -> Result<(), WorldFault> {
    let opening = if seed % 2 == 0 {
        Opening::Keys
    } else {
        Opening::Lines
    };
    let mut world = open_with(alloc, opening, Settings::standard(), Limit::standard())?;
    lives(rt, alloc, &mut world, &mut Random::new(seed))
}

#[test]
fn a_world_is_a_local_terminal_in_every_order(rt: HostRuntime) -> Result<(), WorldFault> {
    for seed in 0..12 {
        lives_by(&rt, rt.alloc(), seed)?;
    }
    Ok(())
}

// 299 ordinary keys, one more, an erased one, and the end of the line, which is taken.
fn type_too_much(world: &mut World) -> Result<(), WorldFault> {
    types(world, &[b'a'; 299])?;
    for key in b"b\x7f\r" {
        settle_with(world, Event::Key(*key))?;
    }
    play(world, Event::Take)
}

// The line that was taken, the first of the world, has this number of bytes.
fn has_taken(world: &World, length: usize) -> bool {
    match world.taken().first() {
        Some(Entry::Text(text)) => text.as_slice().len() == length,
        _ => false,
    }
}

fn fills_a_line(
    rt: &impl Abort,
    alloc: Global,
    world: &mut World,
    editing: Editing,
) -> Result<(), WorldFault> {
    assert!(rt; rests_with(world, editing)?);
    type_too_much(world)?;
    assert!(rt; has_taken(world, 299));
    agrees(rt, alloc, world, 299);
    Ok(())
}

// A line is full at this limit, wherever it is edited.
fn is_full(rt: &impl Abort, alloc: Global, editing: Editing) -> Result<(), WorldFault> {
    let limit = Limit::new(300).unwrap_or(Limit::standard());
    let mut world = open(alloc, limit)?;
    fills_a_line(rt, alloc, &mut world, editing)
}

#[test]
fn a_line_is_full_at_its_limit_at_either_end(rt: HostRuntime) -> Result<(), WorldFault> {
    is_full(&rt, rt.alloc(), Editing::Remote)?;
    is_full(&rt, rt.alloc(), Editing::Local)
}

// Returns whether the event at this place is refused, and why.
fn is_refused(world: &mut World, events: &[Event], at: usize, cause: Cause) -> bool {
    play_all(world, events) == Err(WorldFault { at, cause })
}

fn refuses_a_proposal(rt: &impl Abort, world: &mut World) {
    let proposal = Event::Propose(Func::Ec, Some(8));
    let events = [Event::Take, proposal, Event::Key(b'a')];
    assert!(rt; is_refused(world, &events, 1, Cause::Client(ClientFault::NotOn)));
    assert!(rt; world.typed().is_empty());
}

fn refuses_a_character(rt: &impl Abort, world: &mut World) {
    let fault = ServerFault::Char(CharFault::Taken);
    let event = Event::SetChar(Func::El, Some(127));
    assert!(rt; is_refused(world, &[event], 0, Cause::Server(fault)));
}

#[test]
fn the_event_that_is_refused_is_named(rt: HostRuntime) -> Result<(), WorldFault> {
    let mut world = open(rt.alloc(), Limit::standard())?;
    refuses_a_proposal(&rt, &mut world);
    refuses_a_character(&rt, &mut world);
    Ok(())
}

fn tells_what_was_typed(rt: &impl Abort, world: &World) {
    assert!(rt; world.typed() == b"a\x03\x04".as_slice());
    assert!(rt; world.echoed() == b"a".as_slice());
}

// The keys at a client that edits are listed, and a client that stopped does nothing.
fn types_and_stops(rt: &impl Abort, world: &mut World) -> Result<(), WorldFault> {
    assert!(rt; rests_with(world, Editing::Local)?);
    types(world, b"a\x03\x04")?;
    tells_what_was_typed(rt, world);
    types_once_stopped(world)?;
    tells_what_was_typed(rt, world);
    Ok(())
}

fn types_once_stopped(world: &mut World) -> Result<(), WorldFault> {
    play(world, Event::ClientStops)?;
    play(world, Event::Key(b'c'))?;
    play(world, Event::Propose(Func::Ao, None))
}

#[test]
fn a_world_tells_what_was_typed_and_echoed(rt: HostRuntime) -> Result<(), WorldFault> {
    let mut world = open(rt.alloc(), Limit::standard())?;
    types_and_stops(&rt, &mut world)
}

// The effect of BRK at a terminal that no key interrupts: a signal, and no key was typed.
fn interrupts_by_no_key(world: &mut World) -> Result<bool, WorldFault> {
    let events = [
        Event::Send(UserCommand::Brk),
        Event::ToServer(ALL),
        Event::Take,
    ];
    play_all(world, &events)?;
    let interrupted = matches!(world.taken().first(), Some(Entry::Signal(Sig::Int)));
    Ok(interrupted && world.typed().is_empty())
}

#[test]
fn a_terminal_without_isig_is_interrupted_by_brk(rt: HostRuntime) -> Result<(), WorldFault> {
    let mut settings = Settings::standard();
    settings.flags.isig = false;
    let mut world = open_with(rt.alloc(), Opening::Keys, settings, Limit::standard())?;
    assert!(&rt; interrupts_by_no_key(&mut world)?);
    Ok(())
}

// Two keys are typed, or those before the one that is refused.
fn types_two_keys(rt: &impl Abort, world: &mut World) {
    let typed = world.typed().len();
    let done = match play_all(world, &[Event::Key(b'a'), Event::Key(13)]) {
        Ok(()) => 2,
        Err(fault) => fault.at,
    };
    assert!(rt; world.typed().len() == typed.saturating_add(done));
}

fn types_what_it_can(rt: &impl Abort, world: &mut World) {
    for _ in 0..4 {
        let _settled = settle(world);
        types_two_keys(rt, world);
        let _taken = play_all(world, &[Event::ToServer(ALL), Event::Take]);
    }
}

// A growth may be refused at any place: the keys before it are typed, and no other.
#[test]
fn a_world_types_what_memory_is_found_for(rt: HostRuntime) {
    if let Ok(mut world) = open(rt.alloc(), Limit::standard()) {
        types_what_it_can(&rt, &mut world);
    }
}
