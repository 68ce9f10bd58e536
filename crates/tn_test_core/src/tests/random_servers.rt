//! A server end compared with the reference model of its definition.

use crate::model::server::Server;
use crate::models::random::Random;
use std::alloc::Global;
use std::process::Abort;
use tn_codes::Func;
use tn_discipline::{Entry, Limit, Settings, Sig};
use tn_pty::PtyFault;
use tn_server::{Editing, Opening, ServerEnd, ServerFault};

const KEYS: [u8; 16] = [
    97, 98, 99, 97, 98, 0, 10, 13, 13, 3, 4, 21, 127, 127, 28, 255,
];

const BYTES: [u8; 14] = [0, 1, 3, 10, 13, 31, 34, 97, 127, 240, 250, 251, 253, 255];

const VERBS: [u8; 4] = [251, 252, 253, 254];

const COMMANDS: [u8; 14] = [
    236, 237, 238, 239, 240, 241, 242, 243, 244, 245, 246, 247, 248, 249,
];

const OPTIONS: [u8; 7] = [1, 1, 3, 31, 34, 34, 99];

const MASKS: [u8; 10] = [0, 1, 3, 3, 4, 5, 7, 7, 7, 255];

const FUNCS: [u8; 12] = [0, 3, 7, 8, 9, 10, 10, 11, 17, 18, 5, 99];

const MODIFIERS: [u8; 10] = [0, 1, 2, 2, 2, 3, 130, 128, 98, 252];

const VALUES: [u8; 12] = [0, 0, 3, 8, 4, 21, 59, 97, 10, 13, 127, 255];

fn say(bytes: &[u8], stream: &mut Vec<u8>) {
    let _refused = stream.extend_from_slice(bytes);
}

// Some bytes that a client could send.
fn speak(random: &mut Random, stream: &mut Vec<u8>) {
    match random.roll(40) {
        0 => say(&[b'a'; 90], stream),
        1..=6 => say(&[255, random.pick(&VERBS), random.pick(&OPTIONS)], stream),
        7..=9 => say(&[255, 250, 34, 1, random.pick(&MASKS), 255, 240], stream),
        10 | 11 => list(random, stream),
        12 => say(
            &[255, 250, 31, 0, random.pick(&BYTES[..8]), 1, 0, 255, 240],
            stream,
        ),
        13..=15 => say(&[255, random.pick(&COMMANDS)], stream),
        16..=18 => say(&[random.pick(&BYTES)], stream),
        _ => say(&[random.pick(&KEYS)], stream),
    }
}

// A list of local characters.
fn list(random: &mut Random, stream: &mut Vec<u8>) {
    say(&[255, 250, 34, 3], stream);
    for _ in 0..random.roll(4) {
        let value = random.pick(&VALUES);
        say(
            &[random.pick(&FUNCS), random.pick(&MODIFIERS), value],
            stream,
        );
        if value == 255 {
            say(&[255], stream);
        }
    }
    say(&[255, 240], stream);
}

fn settings(random: &mut Random) -> Settings {
    let mut settings = Settings::standard();
    if random.flips() {
        let flags = &mut settings.flags;
        flags.icrnl = random.roll(4) > 0;
        flags.inlcr = random.roll(4) == 0;
        flags.igncr = random.roll(4) == 0;
        flags.isig = random.flips();
        flags.echo = random.flips();
        flags.echoe = random.flips();
        flags.echok = random.flips();
        flags.echonl = random.flips();
        flags.opost = random.flips();
        flags.onlcr = random.roll(4) > 0;
    }
    settings
}

fn editing(random: &mut Random) -> Editing {
    if random.flips() {
        Editing::Local
    } else {
        Editing::Remote
    }
}

fn opening(random: &mut Random) -> Opening {
    if random.flips() {
        Opening::Lines
    } else {
        Opening::Keys
    }
}

// The messages of a client that has all the options.
const JOINING: [u8; 15] = [
    255, 251, 34, 255, 251, 31, 255, 253, 3, 255, 251, 3, 255, 253, 1,
];

// Output that fills most of the screen's queue.
const LONG: [u8; 700] = [b'y'; 700];

// An end, the reference model next to it, and the bytes that their client sends.
#[derive(Drop)]
struct Compared {
    alloc: Global,
    end: ServerEnd,
    stream: Vec<u8>,
    sent: Vec<u8>,
    taken: Vec<Entry>,
    plain: Server,
}

impl Compared {
    fn start(alloc: Global, settings: Settings, opening: Opening) -> Result<Compared, ServerFault> {
        let mut sent = Vec::new(alloc);
        Ok(Compared {
            alloc,
            end: ServerEnd::open(opening, alloc, settings, Limit::standard(), &mut sent)?,
            stream: Vec::new(alloc),
            sent,
            taken: Vec::new(alloc),
            plain: Server::new(alloc, &settings, opening),
        })
    }

    // Lets the client send something, of which some bytes come.
    fn feed(&mut self, random: &mut Random) -> Result<(), ServerFault> {
        for _ in 0..random.roll(5) {
            speak(random, &mut self.stream);
        }
        let count = random.roll(self.stream.len().saturating_add(1));
        let (piece, rest) = self.stream.split_at(count.min(self.stream.len()));
        self.plain.feed(piece);
        let fed = self.end.feed(piece, &mut self.sent);
        self.stream = rest.to_vec(self.alloc).unwrap_or(Vec::new(self.alloc));
        fed
    }

    fn take(&mut self, rt: &impl Abort) -> Result<(), ServerFault> {
        let entry = self.end.take(&mut self.sent)?;
        assert!(rt; entry.is_some() == self.plain.take());
        let _refused = self.taken.extend(entry);
        Ok(())
    }

    fn write(&mut self, rt: &impl Abort, bytes: &[u8]) {
        let count = self.plain.terminal.write(bytes);
        assert!(rt; self.end.write(bytes) == count);
    }

    fn pull(&mut self, rt: &impl Abort, most: usize) -> Result<(), ServerFault> {
        let count = self.end.pull(most, &mut self.sent)?;
        assert!(rt; count == self.plain.pull(most));
        Ok(())
    }

    fn wish(&mut self, rt: &impl Abort, editing: Editing) -> Result<(), ServerFault> {
        let is_sent = self.end.wish(editing, &mut self.sent)?;
        assert!(rt; is_sent == self.plain.wish(editing));
        Ok(())
    }

    fn set_char(&mut self, rt: &impl Abort, func: u8, value: Option<u8>) {
        let func = Func::from_code(func).unwrap_or(Func::Ec);
        let set = self.end.set_char(func, value, &mut self.sent);
        let refusal = self.plain.set_char(func, value);
        assert!(rt; set.err() == refusal.map(ServerFault::Char));
    }

    fn set_echo(&mut self, on: bool) -> Result<(), ServerFault> {
        self.plain.set_echo(on);
        self.end.set_echo(on, &mut self.sent)
    }

    // Some call or none.
    fn call(&mut self, rt: &impl Abort, random: &mut Random) -> Result<(), ServerFault> {
        match random.roll(16) {
            3..=5 => self.take(rt),
            6 | 7 => self.pull(rt, random.roll(900)),
            8 => self.wish(rt, editing(random)),
            10 => self.set_echo(random.flips()),
            roll => {
                self.change(rt, roll, random);
                Ok(())
            },
        }
    }

    // Makes a change to which memory is not refused.
    fn change(&mut self, rt: &impl Abort, roll: usize, random: &mut Random) {
        match roll {
            0..=2 => self.write_some(rt, random),
            9 => self.set_char(
                rt,
                random.pick(&FUNCS),
                random.flips().then_some(random.pick(&VALUES)),
            ),
            _ => {},
        }
    }

    fn write_some(&mut self, rt: &impl Abort, random: &mut Random) {
        match random.roll(3) {
            0 => self.write(rt, &LONG),
            1 => self.write(rt, b"x\n\r\xff"),
            _ => self.write(rt, b"one\ntwo\n"),
        }
    }

    fn assert_alike(&self, rt: &impl Abort) {
        assert!(rt; self.sent == self.plain.sent);
        assert!(rt; self.end.mode() == self.plain.mode && self.end.size() == self.plain.size);
        assert!(rt; self.end.half() == self.plain.terminal.half().as_slice());
        assert!(rt; self.taken.len() == self.plain.terminal.taken());
        self.assert_entries(rt, &self.plain.terminal.entries());
    }

    // The entries are those taken, and then those that wait.
    fn assert_entries(&self, rt: &impl Abort, entries: &[Entry]) {
        let count = entries.len().min(self.taken.len());
        let (taken, waiting) = entries.split_at(count);
        assert!(rt; self.taken.as_slice() == taken);
        wait(rt, &self.end, waiting);
    }
}

// These entries wait, and no more.
fn wait(rt: &impl Abort, end: &ServerEnd, entries: &[Entry]) {
    for (index, entry) in entries.iter().enumerate() {
        assert!(rt; end.waiting(index) == Some(entry));
    }
    assert!(rt; end.waiting(entries.len()).is_none());
    assert!(rt; end.signal_waiting() == entries.iter().find_map(signal_of));
}

fn signal_of(entry: &Entry) -> Option<Sig> {
    match entry {
        Entry::Signal(sig) => Some(*sig),
        _ => None,
    }
}

// A piece comes, and some call is made. Returns whether the end goes on.
fn go_on(rt: &impl Abort, compared: &mut Compared, random: &mut Random) -> bool {
    if let Err(fault) = compared.feed(random) {
        assert!(rt; fault == ServerFault::Pty(PtyFault::TooFarAhead));
        return false;
    }
    let called = compared.call(rt, random);
    assert!(rt; called.is_ok());
    true
}

// One end.
fn run_beside(rt: &impl Abort, alloc: Global, random: &mut Random) -> Result<(), ServerFault> {
    let mut compared = Compared::start(alloc, settings(random), opening(random))?;
    live(rt, &mut compared, random);
    Ok(())
}

// Feeds this number of pieces, with calls between them, as long as the end is not too far ahead.
fn live(rt: &impl Abort, compared: &mut Compared, random: &mut Random) {
    if random.flips() {
        say(&JOINING, &mut compared.stream);
    }
    for count in 0..100 {
        if !go_on(rt, compared, random) {
            return;
        }
        if count % 33 == 0 {
            compared.assert_alike(rt);
        }
    }
}

#[test]
fn a_server_does_what_its_definition_says(rt: HostRuntime) -> Result<(), ServerFault> {
    let mut random = Random::new(1);
    for _ in 0..100 {
        run_beside(&rt, rt.alloc(), &mut random)?;
    }
    Ok(())
}
