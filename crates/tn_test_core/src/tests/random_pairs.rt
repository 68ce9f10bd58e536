//! A pair compared with the plain terminal.

use crate::models::random::Random;
use crate::models::terminal::Terminal;
use std::alloc::Global;
use std::process::Abort;
use tn_codes::Command;
use tn_discipline::{Limit, Role, Settings};
use tn_pty::{Pair, PtyFault};

const KEYS: [u8; 8] = [b'a', b'b', 127, 21, 4, 3, 13, 10];

const OUTPUT: [u8; 700] = [b'x'; 700];

/// A piece has most of its keys from these; many take back, even if nothing is left.
const EDITS: [u8; 12] = [b'a', b'b', b'c', b'd', b'e', 127, 127, 127, 127, 21, 3, 13];

/// The number of bytes of a line before such pieces come: none, a few, and nearly as many as fit.
const BEFORE: [u8; 5] = [0, 3, 17, 240, 253];

// A key, a byte or a command at both.
fn type_at_both(
    pair: &mut Pair,
    plain: &mut Terminal,
    random: &mut Random,
) -> Result<(), PtyFault> {
    let key = random.pick(&KEYS);
    match random.roll(6) {
        4 => {
            for key in [b'c', key, b'd'] {
                plain.raw_key(key, true);
            }
            pair.type_run(&[b'c', key, b'd'], true)
        },
        5 => {
            for byte in [b'c', key, b'd'] {
                plain.edited_byte(byte);
            }
            pair.edited_run(&[b'c', key, b'd'])
        },
        0 => {
            plain.raw_key(key, true);
            pair.raw_key(key, true)
        },
        1 => {
            plain.raw_key(key, false);
            pair.raw_key(key, false)
        },
        2 => {
            plain.edited_byte(key);
            pair.edited_byte(key)
        },
        _ => {
            plain.add(Role::Eof);
            pair.command(Command::Eof)
        },
    }
}

fn pull_at_both(
    rt: &impl Abort,
    alloc: Global,
    pair: &mut Pair,
    plain: &mut Terminal,
    most: usize,
) {
    let mut symbols = Vec::new(alloc);
    let _refused = pair.pull(most, &mut symbols);
    assert!(rt; symbols == plain.pull(most));
}

fn write_at_both(rt: &impl Abort, pair: &mut Pair, plain: &mut Terminal, count: usize) {
    let output = OUTPUT.get(..count).unwrap_or(&[]);
    assert!(rt; pair.write(output) == plain.write(output));
}

fn take_at_both(rt: &impl Abort, pair: &mut Pair, plain: &mut Terminal) {
    let is_found = pair.take().is_some();
    assert!(rt; is_found == plain.take());
}

// Some call at both.
fn step(
    rt: &impl Abort,
    alloc: Global,
    pair: &mut Pair,
    plain: &mut Terminal,
    random: &mut Random,
) {
    match random.roll(8) {
        0 => take_at_both(rt, pair, plain),
        1 => write_at_both(rt, pair, plain, random.roll(700)),
        2 => pull_at_both(rt, alloc, pair, plain, random.roll(900)),
        _ => {
            let typed = type_at_both(pair, plain, random);
            assert!(rt; typed.is_ok());
        },
    }
}

fn are_alike(rt: &impl Abort, pair: &Pair, plain: &Terminal) {
    assert!(rt; pair.half() == plain.half().as_slice());
    assert!(rt; pair.waiting(0) == plain.entries().get(plain.taken()));
}

#[test]
fn a_pair_does_what_its_definition_says(rt: HostRuntime) {
    let mut random = Random::new(1);
    let settings = Settings::standard();
    let Ok(mut pair) = Pair::new(rt.alloc(), settings, Limit::standard()) else {
        return;
    };
    let mut plain = Terminal::new(rt.alloc(), &settings);
    for _ in 0..800 {
        step(&rt, rt.alloc(), &mut pair, &mut plain, &mut random);
        are_alike(&rt, &pair, &plain);
    }
}

// A piece of keys at both, shown or not.
fn type_piece_at_both(
    alloc: Global,
    pair: &mut Pair,
    plain: &mut Terminal,
    random: &mut Random,
) -> Result<(), PtyFault> {
    let echo = random.flips();
    let mut piece = Vec::new(alloc);
    for _ in 0..random.roll(41) {
        let key = random.pick(&EDITS);
        plain.raw_key(key, echo);
        let _refused = piece.push(key);
    }
    pair.type_run(piece.as_slice(), echo)
}

// Types pieces of keys at both, after a line of this number of bytes.
fn are_pieces_alike(rt: &impl Abort, alloc: Global, random: &mut Random, before: usize) {
    let settings = Settings::standard();
    let Ok(mut pair) = Pair::new(alloc, settings, Limit::standard()) else {
        return;
    };
    let mut plain = Terminal::new(alloc, &settings);
    let line = OUTPUT.get(..before).unwrap_or(&[]);
    for key in line {
        plain.raw_key(*key, false);
    }
    assert!(rt; pair.type_run(line, false).is_ok());
    for _ in 0..4 {
        let typed = type_piece_at_both(alloc, &mut pair, &mut plain, random);
        assert!(rt; typed.is_ok());
        are_alike(rt, &pair, &plain);
        pull_at_both(rt, alloc, &mut pair, &mut plain, 900);
    }
}

#[test]
fn pieces_of_keys_are_typed_as_their_definition_says(rt: HostRuntime) {
    let mut random = Random::new(2);
    for _ in 0..40 {
        let before = usize::from(random.pick(&BEFORE));
        are_pieces_alike(&rt, rt.alloc(), &mut random, before);
    }
}
