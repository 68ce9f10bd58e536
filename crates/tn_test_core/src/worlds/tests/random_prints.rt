//! The output of `tn local` and `tn replay`, compared with the definition of canonical input.

use crate::models::canonical::{entries, role_of};
use crate::models::random::Random;
use std::alloc::Global;
use std::process::Abort;
use tn_cli::{run_local, run_replay};
use tn_discipline::{Entry, Settings, Sig};

const KEYS: [u8; 6] = [b'a', 127, 21, 4, 3, 13];

const KEYS_OF_CHANCE: [u8; 12] = [b'a', b'b', b'c', 0, 255, 127, 127, 21, 4, 3, 13, 10];

// The number of times that a random key is typed.
const COUNTS: [u8; 10] = [1, 1, 1, 2, 3, 4, 5, 17, 100, 254];

fn put_line(lines: &mut String, entry: &Entry) {
    let _refused = match entry {
        Entry::Eof => lines.push_str("eof\n"),
        Entry::Signal(Sig::Int) => lines.push_str("signal int\n"),
        Entry::Signal(Sig::Quit) => lines.push_str("signal quit\n"),
        Entry::Signal(Sig::Tstp) => lines.push_str("signal tstp\n"),
        Entry::Text(text) => {
            let _refused = lines.push_str("text ");
            for byte in text.as_slice() {
                let _refused = write!(lines, "{byte:02x}");
            }
            lines.push_str("\n")
        },
    };
}

// The lines of the entries that the whole list of keys gives.
fn lines_of(alloc: Global, keys: &[u8]) -> String {
    let settings = Settings::standard();
    let (mut roles, mut lines) = (Vec::new(alloc), String::new(alloc));
    for key in keys {
        let _refused = roles.push(role_of(&settings, *key));
    }
    for entry in entries(alloc, 254, &roles).as_slice() {
        put_line(&mut lines, entry);
    }
    lines
}

// A stream of these keys: a line feed is a new line, and a byte 255 is doubled.
fn stream_of(alloc: Global, keys: &[u8]) -> Vec<u8> {
    let mut stream = Vec::new(alloc);
    for key in keys {
        let _refused = stream.extend_from_slice(match *key {
            10 => b"\r\n",
            13 => b"\r\0",
            255 => b"\xff\xff",
            _ => std::slice::from_ref(key),
        });
    }
    stream
}

fn are_printed(rt: &impl Abort, alloc: Global, keys: &[u8]) {
    let lines = lines_of(alloc, keys);
    let stream = stream_of(alloc, keys);
    let (mut local, mut replayed) = (Vec::new(alloc), Vec::new(alloc));
    let (mut keys, mut stream) = (keys, stream.as_slice());
    assert!(rt; run_local(alloc, &mut keys, &mut local).is_ok());
    assert!(rt; run_replay(alloc, &mut stream, &mut replayed).is_ok());
    assert!(rt; local.as_slice() == lines.as_bytes());
    assert!(rt; replayed.as_slice() == lines.as_bytes());
}

#[test]
fn every_short_list_of_keys_is_printed_as_its_definition_says(rt: HostRuntime) {
    for (length, count) in [(0, 1), (1, 6), (2, 36), (3, 216), (4, 1296), (5, 7776)] {
        for n in 0..count {
            let keys = [
                KEYS[n % 6],
                KEYS[n / 6 % 6],
                KEYS[n / 36 % 6],
                KEYS[n / 216 % 6],
                KEYS[n / 1296 % 6],
            ];
            are_printed(&rt, rt.alloc(), &keys[..length.min(5)]);
        }
    }
}

#[test]
fn random_keys_are_printed_as_their_definition_says(rt: HostRuntime) {
    for seed in 0..500 {
        let mut random = Random::new(seed);
        let mut keys = Vec::new(rt.alloc());
        for _ in 0..random.roll(40) {
            let key = random.pick(&KEYS_OF_CHANCE);
            for _ in 0..random.pick(&COUNTS) {
                let _refused = keys.push(key);
            }
        }
        are_printed(&rt, rt.alloc(), &keys);
    }
}
