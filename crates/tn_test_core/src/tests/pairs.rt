//! A pair: keys at the master, entries at the slave, and what the screen is given.

use super::play_all;
use crate::models::page::{Page, Stage, Words, number_of};
use std::alloc::Global;
use tn_discipline::{Entry, Limit, Settings, Symbol};
use tn_pty::{Pair, PtyFault};

#[derive(Drop)]
struct Master {
    alloc: Global,
    pair: Pair,
}

impl Stage for Master {
    fn open(alloc: Global) -> Option<Master> {
        let pair = Pair::new(alloc, Settings::standard(), Limit::standard()).ok()?;
        Some(Master { alloc, pair })
    }

    fn step(&mut self, words: Words<'_>, page: &mut Page) -> bool {
        match words.verb {
            "take" => page.entry(self.pair.take().as_ref()),
            "signal" => page.say(&self.pair.signal_waiting()),
            "write" => page.say(&self.pair.write(&words.bytes(self.alloc))),
            "pull" => return self.pull(words.number(), page),
            "take-lines" => page.say(&self.take_lines()),
            "plain-newlines" => self.show_plain_newlines(),
            _ => self.type_all(words, page),
        }
        false
    }
}

impl Master {
    fn pull(&mut self, most: usize, page: &mut Page) -> bool {
        let mut symbols = Vec::new(self.alloc);
        if self.pair.pull(most, &mut symbols).is_err() {
            return true;
        }
        page.say(&symbols.len());
        for symbol in &symbols {
            match symbol {
                Symbol::Newline => page.put(" nl"),
                Symbol::Byte(byte) => page.put(if *byte == 10 { " lf" } else { " -" }),
            }
        }
        false
    }

    // Takes empty lines, as long as there are any, and counts them.
    fn take_lines(&mut self) -> usize {
        let mut count = 0usize;
        for _ in 0..2_000 {
            match self.pair.take() {
                Some(Entry::Text(text)) if text.as_slice() == b"\n".as_slice() => {},
                _ => break,
            }
            count = count.saturating_add(1);
        }
        count
    }

    fn show_plain_newlines(&mut self) {
        let mut flags = self.pair.settings().flags;
        flags.onlcr = false;
        self.pair.set_flags(flags);
    }

    // Types keys, this number of times. The first fault is printed.
    fn type_all(&mut self, words: Words<'_>, page: &mut Page) {
        let mut ended = Ok(());
        for _ in 0..number_of(words.second).max(1) {
            ended = ended.and(self.type_bytes(&words.bytes(self.alloc)));
        }
        if let Err(fault) = ended {
            page.say(&fault);
        }
    }

    fn type_bytes(&mut self, bytes: &[u8]) -> Result<(), PtyFault> {
        let mut ended = Ok(());
        for key in bytes {
            ended = ended.and(self.pair.raw_key(*key, true));
        }
        ended
    }
}

const SCRIPTS: &[(&str, &str)] = &[
    // A pair gives entries once and in order.
    (
        "keys 610a03; signal; take; signal; take; take; signal",
        "Some(Int); text 610a; Some(Int); int; none; None",
    ),
    // A pair closes if its slave is too far behind.
    (
        "keys 0a 1024; keys 61; keys 0a; keys 61; take-lines; take",
        "TooFarAhead; Closed; 1024; none",
    ),
    // The echo of a new line is one, also without ONLCR.
    (
        "plain-newlines; write 0a; pull 9; keys 0a; pull 9",
        "1; 1 lf; 1 nl",
    ),
];

#[test]
fn a_pair_does_what_its_master_and_its_slave_ask(rt: HostRuntime) {
    play_all::<Master>(&rt, rt.alloc(), SCRIPTS);
}
