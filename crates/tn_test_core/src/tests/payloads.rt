//! Payloads, by the standards' numbers.

ghost use Rattle.std.specs.Prelude.{IsTrue};
ghost use Rattle.tn_codes.specs.Payloads.{IsShort};

use super::play_all;
use crate::models::page::{Page, Stage, Words, byte_of};
use std::alloc::Global;
use tn_codes::{Payload, read_payload, write_payload};

// Returns whether a payload is one that may be written.
fn is_short(payload: &Payload) -> bool
    ensures { IsTrue result → IsShort payload.now }
{
    match payload {
        Payload::Slc(triples) => triples.len() <= 170,
        _ => true,
    }
}

// Reads the parameters of an option, prints their payload, and writes that again.
#[derive(Drop)]
struct Payloads {
    alloc: Global,
}

impl Stage for Payloads {
    fn open(alloc: Global) -> Option<Payloads> {
        Some(Payloads { alloc })
    }

    fn step(&mut self, words: Words<'_>, page: &mut Page) -> bool {
        let bytes = words.bytes(self.alloc);
        match read_payload(self.alloc, byte_of(words.verb), &bytes) {
            Ok(payload) => {
                tell(&payload, page);
                self.write(&payload, page);
            },
            Err(fault) => page.say(&fault),
        }
        false
    }
}

impl Payloads {
    fn write(&self, payload: &Payload, page: &mut Page) {
        let mut out = Vec::new(self.alloc);
        if is_short(payload) {
            let _refused = write_payload(payload, &mut out);
        }
        page.bytes("writes", &out);
    }
}

fn tell(payload: &Payload, page: &mut Page) {
    match payload {
        Payload::Naws { width, height } => page.say(&(*width, *height)),
        Payload::Mode(mask) => page.bytes("mode", &[*mask]),
        Payload::ForwardOn(mask) => {
            let octets = mask.0;
            page.bytes("on", octets.as_slice());
        },
        Payload::ForwardOff => page.begin("off"),
        Payload::ForwardYes => page.begin("yes"),
        Payload::ForwardNo => page.begin("no"),
        Payload::Slc(triples) => page.say(&triples.len()),
    }
}

const SCRIPTS: &[(&str, &str)] = &[
    // Payloads are read and written.
    (
        "31 00500018; 34 0107; 34 03; 34 fd0280; 34 fd028000; 34 fd02000000000008; 34 fd02; \
         34 fd02.32x01; 34 fe02; 34 fb02; 34 fc02",
        "(80, 24); writes 00500018; mode 07; writes 0107; 0; writes 03; on 8031x00.; writes fd0280; \
         on 8031x00.; writes fd0280; on 00000000000826x00.; writes fd02000000000008; on 32x00.; writes fd02; \
         on 32x01.; writes fd0232x01.; off; writes fe02; yes; writes fb02; no; writes fc02",
    ),
    // Other payloads have faults.
    (
        "99 01; 34 09; 34 fd09; 31 005000; 34; 34 01; 34 030a02; 34 fd02.33x01",
        "UnknownOption; UnknownSub; UnknownSub; BadLength; BadLength; BadLength; BadLength; BadLength",
    ),
];

#[test]
fn payloads_are_read_and_written_or_have_faults(rt: HostRuntime) {
    play_all::<Payloads>(&rt, rt.alloc(), SCRIPTS);
}
