//! Modes that change in the middle of a line, and random worlds compared with one local line.

use super::playing::{agrees, open, play, rests, settle, types};
use super::worlds::print_all;
use crate::models::page::mask;
use crate::models::random::Random;
use std::alloc::Global;
use std::process::Abort;
use tn_client::UserCommand;
use tn_discipline::Limit;
use tn_server::{Editing, ServerFault};
use tn_world::{Cause, Event, World, WorldFault};

const SCRIPTS: &[(&str, &str)] = &[
    (
        "settle\nmark\nkey 6162\nsettle\nwish local\nsettle\nkey 7f630d\nflight\nsettle\ntake\n",
        "mark true\nto-server fff7630d0a\nto-client -\ntext 61630a\n",
    ),
    (
        "settle\nwish local\nsettle\nmark\nkey 6162\nwish remote\nsettle\nkey 7f630d\nflight\nsettle\ntake\n",
        "mark true\nto-server 7f630d00\nto-client -\ntext 61630a\n",
    ),
    (
        "settle\nmark\nkey 6103\nsettle\nwish local\nsettle\nkey 7f0d\nflight\nsettle\ntake\ntake\n",
        "mark true\nto-server fff70d0a\nto-client -\nsignal int\ntext 0a\n",
    ),
    // BRK and IP interrupt wherever the line is, and leave it.
    (
        "settle\nkey 61\nsend brk\nsettle\ntake\nwish local\nsettle\nkey 62\nsend ip\nsend ayt\n\
         flight\nkey 0d\nsettle\ntake\ntake\nshown\n",
        "signal int\nto-server fff4fff6\nto-client -\nsignal int\ntext 61620a\nshown -\n",
    ),
    // A full line changes hands.
    (
        "settle\nmark\nkey |254*61|\nsettle\nwish local\nsettle\nkey 627f0d\nflight\nsettle\ntake\n",
        "mark true\nto-server fff70d0a\nto-client -\ntext |253*61|0a\n",
    ),
];

#[test]
fn a_line_changes_hands(rt: HostRuntime) {
    print_all(&rt, rt.alloc(), SCRIPTS);
}

const KEYS: [u8; 14] = [
    b'a', b'b', b',', b',', 255, 3, 28, 26, 4, 127, 127, 21, 10, 13,
];

// One of the commands that a user may send.
fn command(random: &mut Random) -> UserCommand {
    match random.roll(4) {
        0 => UserCommand::Brk,
        1 => UserCommand::Ip,
        2 => UserCommand::Ayt,
        _ => UserCommand::Nop,
    }
}

// Returns an event that may happen: requests anywhere, forward masks, deliveries cut anywhere.
fn random_event(random: &mut Random) -> Event {
    match random.roll(19) {
        0 => Event::Wish(Editing::Local),
        1 => Event::Wish(Editing::Remote),
        2 => Event::Mask(Some(mask(&[0, 0, 0, 0, 0, 8]))),
        3 => Event::Mask(None),
        4 | 5 => Event::ToServer(random.roll(9)),
        6 | 7 => Event::ToClient(random.roll(9)),
        8 => Event::Take,
        9 => Event::Pull(random.roll(9)),
        10 => Event::Echo(random.flips()),
        11 => Event::Resize(80, 25),
        12 => Event::Send(command(random)),
        _ => Event::Key(random.pick(&KEYS)),
    }
}

// A forward mask is refused until LINEMODE is on, and then nothing changes.
fn play_or_not(world: &mut World, event: Event) -> Result<(), WorldFault> {
    match play(world, event) {
        Err(
            WorldFault {
                cause: Cause::Server(ServerFault::NotOn),
                ..
            },
        ) => Ok(()),
        done => done,
    }
}

// Does an event that happens seldom: a line that may be longer than there is room for, ends that
// stop late, and rest.
fn rarely(world: &mut World, roll: usize, late: bool) -> Result<(), WorldFault> {
    match roll {
        0 => types(world, &[b'a'; 290]),
        1 if late => play(world, Event::ServerStops),
        2 if late => play(world, Event::ClientStops),
        3..=9 => settle(world),
        _ => Ok(()),
    }
}

fn happen(
    rt: &impl Abort,
    alloc: Global,
    world: &mut World,
    random: &mut Random,
    late: bool,
    most: usize,
) -> Result<(), WorldFault> {
    play_or_not(world, random_event(random))?;
    let roll = random.roll(60);
    rarely(world, roll, late)?;
    if (3..=10).contains(&roll) {
        agrees(rt, alloc, world, most);
    }
    Ok(())
}

fn live(
    rt: &impl Abort,
    alloc: Global,
    world: &mut World,
    random: &mut Random,
    most: usize,
) -> Result<(), WorldFault> {
    for step in 0..160 {
        happen(rt, alloc, world, random, step > 120, most)?;
    }
    settle(world)?;
    agrees(rt, alloc, world, most);
    Ok(())
}

// From a settled moment on, or from the opening.
fn live_by(
    rt: &impl Abort,
    alloc: Global,
    seed: u32,
    limit: Limit,
    settled: bool,
) -> Result<(), WorldFault> {
    let most = usize::from(limit.bytes().saturating_sub(1));
    let mut world = open(alloc, limit)?;
    if settled {
        assert!(rt; rests(&mut world)?);
    }
    live(rt, alloc, &mut world, &mut Random::new(seed), most)
}

#[test]
fn random_worlds_agree_with_one_local_line(rt: HostRuntime) -> Result<(), WorldFault> {
    let long = Limit::new(300).unwrap_or(Limit::standard());
    for seed in 0..100 {
        let limit = if seed < 50 { Limit::standard() } else { long };
        live_by(&rt, rt.alloc(), seed, limit, true)?;
    }
    Ok(())
}

const OPENINGS: &[(&str, &str)] = &[
    // A line is begun, and a request made, before a message of the opening has arrived.
    (
        "key 6162\nwish local\nsettle\nkey 7f630d\nflight\nsettle\ntake\n",
        "to-server fff7630d0a\nto-client -\ntext 61630a\n",
    ),
    // The client has LINEMODE on, and the server has not received that.
    (
        "key 61\nto-client 3\nkey 62\nwish local\nflight\nsettle\nkey 7f630d\nsettle\ntake\n",
        "to-server 61fffb2262\nto-client fffd1ffffb03fffd03fffb01\ntext 61630a\n",
    ),
];

#[test]
fn a_line_is_begun_at_the_opening(rt: HostRuntime) {
    print_all(&rt, rt.alloc(), OPENINGS);
}

#[test]
fn random_worlds_agree_from_the_opening_on(rt: HostRuntime) -> Result<(), WorldFault> {
    for seed in 100..200 {
        live_by(&rt, rt.alloc(), seed, Limit::standard(), false)?;
    }
    Ok(())
}
