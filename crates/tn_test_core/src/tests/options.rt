//! The engine of the Q method (RFC 1143).

use super::play_all;
use crate::models::page::{Page, Stage, Words, byte_of};
use std::alloc::Global;
use tn_codes::Verb;
use tn_option::{Agree, Engine, LINEMODE, Side};

const ALL: Agree = Agree {
    us: [true; 4],
    them: [true; 4],
};

#[derive(Drop)]
struct Options {
    engine: Engine,
}

impl Stage for Options {
    fn open(_alloc: Global) -> Option<Options> {
        Some(Options {
            engine: Engine::new(ALL),
        })
    }

    fn step(&mut self, words: Words<'_>, page: &mut Page) -> bool {
        let option = byte_of(words.second);
        match words.verb {
            "wish-on" => page.say(&self.engine.ask(side_of(words), option, true)),
            "wish-off" => page.say(&self.engine.ask(side_of(words), option, false)),
            "state" => page.say(&self.engine.q_state(side_of(words), option)),
            "on" => page.say(&self.engine.is_on(side_of(words), option)),
            "agree" => self.agree_to_some(),
            _ => page.say(&self.engine.got(verb_of(words), option)),
        }
        false
    }
}

impl Options {
    // Our ECHO, and the other end's LINEMODE.
    fn agree_to_some(&mut self) {
        self.engine = Engine::new(Agree {
            us: [true, false, false, false],
            them: [false, false, false, true],
        });
    }
}

fn side_of(words: Words<'_>) -> Side {
    match words.first {
        "us" => Side::Us,
        _ => Side::Them,
    }
}

fn verb_of(words: Words<'_>) -> Verb {
    match words.first {
        "will" => Verb::Will,
        "wont" => Verb::Wont,
        "do" => Verb::DoIt,
        _ => Verb::DontIt,
    }
}

const AT_ONE_END: &[(&str, &str)] = &[
    // A request queues after another.
    (
        "wish-on them 34; wish-on them 34; wish-off them 34; wish-off them 34; got will 34; \
         state them 34; wish-off them 3; wish-on us 99",
        "Ok(Some((DoIt, 34))); Err(AlreadyAsked); Ok(None); Err(AlreadyQueued); Some((DontIt, 34)); \
         WantNoEmpty; Err(AlreadySo); Err(UnknownOption)",
    ),
    // Other options are refused each time.
    (
        "agree; got do 1; on us 1; got will 1; on them 1; got do 34; got will 31; got will 99; got do 99; \
         got wont 99; got dont 99; got will 99; state them 99",
        "Some((Will, 1)); true; Some((DontIt, 1)); false; Some((Wont, 34)); Some((DontIt, 31)); \
         Some((DontIt, 99)); Some((Wont, 99)); None; None; Some((DontIt, 99)); No",
    ),
];

#[test]
fn an_engine_answers_wishes_and_words(rt: HostRuntime) {
    play_all::<Options>(&rt, rt.alloc(), AT_ONE_END);
}

// The end that performs LINEMODE, the other, and the messages on their way to each.
#[derive(Drop)]
struct TwoEnds {
    performer: Engine,
    other: Engine,
    to_performer: Vec<Verb>,
    to_other: Vec<Verb>,
}

impl Stage for TwoEnds {
    fn open(alloc: Global) -> Option<TwoEnds> {
        Some(TwoEnds {
            performer: Engine::new(ALL),
            other: Engine::new(ALL),
            to_performer: Vec::new(alloc),
            to_other: Vec::new(alloc),
        })
    }

    fn step(&mut self, words: Words<'_>, page: &mut Page) -> bool {
        let on = words.first == "on";
        match words.verb {
            "refusing" => self.refuse(),
            "performer" => {
                let asked = self.performer.ask(Side::Us, LINEMODE, on);
                say(asked.unwrap_or(None), &mut self.to_other, page);
            },
            "other" => {
                let asked = self.other.ask(Side::Them, LINEMODE, on);
                say(asked.unwrap_or(None), &mut self.to_performer, page);
            },
            "deliver" => self.deliver(page),
            _ => {
                page.say(&self.performer.q_state(Side::Us, LINEMODE));
                page.say(&self.other.q_state(Side::Them, LINEMODE));
            },
        }
        false
    }
}

fn say(word: Option<(Verb, u8)>, to: &mut Vec<Verb>, page: &mut Page) {
    if let Some((verb, _)) = word {
        page.say(&verb);
        let _refused = to.push(verb);
    }
}

impl TwoEnds {
    // The other end agrees to nothing.
    fn refuse(&mut self) {
        let none = [false; 4];
        self.other = Engine::new(Agree {
            us: none,
            them: none,
        });
    }

    // Delivers the messages that are on their way, at the other end first.
    fn deliver(&mut self, page: &mut Page) {
        for verb in &self.to_other {
            say(
                self.other.got(*verb, LINEMODE),
                &mut self.to_performer,
                page,
            );
        }
        self.to_other.clear();
        for verb in &self.to_performer {
            say(
                self.performer.got(*verb, LINEMODE),
                &mut self.to_other,
                page,
            );
        }
        self.to_performer.clear();
    }
}

const AT_TWO_ENDS: &[(&str, &str)] = &[
    // Requests that cross agree.
    (
        "performer on; other on; deliver; states",
        "Will; DoIt; Yes; Yes",
    ),
    // A far end refuses.
    (
        "refusing; performer on; deliver; states",
        "Will; DontIt; No; No",
    ),
    // A request is taken back before its answer.
    (
        "performer on; performer off; deliver; deliver; states",
        "Will; DoIt; Wont; DontIt; No; No",
    ),
    // A far end makes a request after its refusal.
    (
        "refusing; performer on; deliver; other on; deliver; deliver; states",
        "Will; DontIt; DoIt; Will; Yes; Yes",
    ),
];

#[test]
fn two_ends_agree_once_all_words_came(rt: HostRuntime) {
    play_all::<TwoEnds>(&rt, rt.alloc(), AT_TWO_ENDS);
}
