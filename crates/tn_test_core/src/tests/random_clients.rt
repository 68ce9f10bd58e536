//! A client end compared with the reference model of its definition.

use crate::model::client::Client;
use crate::models::random::Random;
use std::alloc::Global;
use std::process::Abort;
use tn_client::{ClientEnd, ClientFault};
use tn_discipline::Limit;

const KEYS: [u8; 14] = [b'a', b'b', 255, 3, 28, 26, 4, 127, 127, 21, 10, 13, b';', 8];

/// A forward mask of `a` and `;`.
const FORWARD_A: [u8; 20] = [
    255, 250, 34, 253, 2, 0, 0, 0, 0, 0, 0, 0, 16, 0, 0, 0, 0, 64, 255, 240,
];

fn say(bytes: &[u8], stream: &mut Vec<u8>) {
    let _refused = stream.extend_from_slice(bytes);
}

// Appends something that a server may send.
fn speak(random: &mut Random, stream: &mut Vec<u8>) {
    match random.roll(9) {
        0 => {
            let verb = random.pick(&[251, 252, 253, 254]);
            say(&[255, verb, random.pick(&[1, 3, 31, 34, 34, 99])], stream);
        },
        1 | 2 => say(
            &[255, 250, 34, 1, random.pick(&[0, 1, 2, 3, 3, 7]), 255, 240],
            stream,
        ),
        3 => {
            let func = random.pick(&[0, 3, 5, 8, 10, 11, 17, 18]);
            let modifier = random.pick(&[0, 1, 2, 2, 3, 130]);
            let value = random.pick(&[0, 3, 8, 10, b';', 127]);
            say(&[255, 250, 34, 3, func, modifier, value, 255, 240], stream);
        },
        4 => say(&[255, 253, 34, 255, 250, 34, 1, 3, 255, 240], stream),
        5 => say(b"ok\r\n", stream),
        6 => say(&FORWARD_A, stream),
        _ => say(&[255, 250, 34, 254, 2, 255, 240, 255], stream),
    }
}

// An end, its definition, and the bytes that both got.
#[derive(Drop)]
struct Compared {
    alloc: Global,
    end: ClientEnd,
    plain: Client,
    stream: Vec<u8>,
    sent: Vec<u8>,
    shown: Vec<u8>,
}

impl Compared {
    fn start(alloc: Global) -> Result<Compared, ClientFault> {
        let mut stream = Vec::new(alloc);
        say(
            b"\xff\xfd\x22\xff\xfd\x1f\xff\xfb\x03\xff\xfd\x03\xff\xfb\x01",
            &mut stream,
        );
        Ok(Compared {
            alloc,
            end: ClientEnd::start(alloc, 80, 24, Limit::standard())?,
            plain: Client::new(alloc, (80, 24)),
            stream,
            sent: Vec::new(alloc),
            shown: Vec::new(alloc),
        })
    }

    fn call(&mut self, random: &mut Random) -> Result<(), ClientFault> {
        match random.roll(10) {
            0 => self.resize(u16::from(random.pick(&[0, 80, 255]))),
            1..=4 => self.key(random.pick(&KEYS)),
            _ => self.feed(random),
        }
    }

    fn resize(&mut self, width: u16) -> Result<(), ClientFault> {
        self.plain.resize(width, 24);
        self.end.resize(width, 24, &mut self.sent)
    }

    fn key(&mut self, key: u8) -> Result<(), ClientFault> {
        self.plain.key(key);
        self.end.key(key, &mut self.sent, &mut self.shown)
    }

    // Lets the server send something, of which some bytes come.
    fn feed(&mut self, random: &mut Random) -> Result<(), ClientFault> {
        speak(random, &mut self.stream);
        let count = random.roll(12).min(self.stream.len());
        let (piece, rest) = self.stream.split_at(count);
        self.plain.feed(piece);
        let fed = self.end.feed(piece, &mut self.sent, &mut self.shown);
        self.stream = rest.to_vec(self.alloc).unwrap_or(Vec::new(self.alloc));
        fed
    }

    fn assert_alike(&self, rt: &impl Abort) {
        assert!(rt; self.sent == self.plain.sent);
        assert!(rt; self.shown == self.plain.shown);
        assert!(rt; self.end.mode() == self.plain.mode);
        assert!(rt; self.end.half() == self.plain.held().as_slice());
        assert!(rt; usize::from(self.end.ahead()) == self.plain.ahead());
        let (trapped, plain) = self.end.counts();
        assert!(rt; (usize::from(trapped), usize::from(plain)) == self.plain.counts());
    }
}

// Makes this number of calls, each of which both do alike.
fn live(rt: &impl Abort, compared: &mut Compared, random: &mut Random) -> Result<(), ClientFault> {
    for _ in 0..150 {
        compared.call(random)?;
        compared.assert_alike(rt);
    }
    Ok(())
}

#[test]
fn a_client_does_what_its_definition_says(rt: HostRuntime) -> Result<(), ClientFault> {
    for seed in 0..6u32 {
        let mut random = Random::new(seed);
        let mut compared = Compared::start(rt.alloc())?;
        live(&rt, &mut compared, &mut random)?;
    }
    Ok(())
}
