//! A server end: what it sends, and what its job gets.

use super::play_all;
use crate::models::page::{Page, Stage, Words, byte_of, bytes_of, mask, number_of};
use std::alloc::Global;
use tn_discipline::{Entry, Limit, Settings};
use tn_option::Side;
use tn_server::{Editing, ServerEnd, ServerFault};

/// The answers of a client of 80 by 24 that has all the options to the opening messages.
const JOINING: &str = "fffb22fffb1ffffa1f00500018fff0fffd03fffb03fffd01";

/// A server, to which scripts speak.
#[derive(Drop)]
pub(super) struct Server {
    alloc: Global,
    end: ServerEnd,
    sent: Vec<u8>,
}

// Starts a server whose terminal has standard settings, but for what this word changes.
fn start(alloc: Global, word: &str, sent: &mut Vec<u8>) -> Option<ServerEnd> {
    let mut settings = Settings::standard();
    match word {
        "ignoring-returns" => settings.flags.igncr = true,
        "echoing-newlines" => {
            settings.flags.echo = false;
            settings.flags.echonl = true;
        },
        _ => {},
    }
    match word {
        "for-lines" => ServerEnd::start_lines(alloc, settings, Limit::standard(), sent).ok(),
        _ => ServerEnd::start(alloc, settings, Limit::standard(), sent).ok(),
    }
}

impl Stage for Server {
    fn open(alloc: Global) -> Option<Server> {
        let mut sent = Vec::new(alloc);
        let end = start(alloc, "opening", &mut sent)?;
        Some(Server { alloc, end, sent })
    }

    fn step(&mut self, words: Words<'_>, page: &mut Page) -> bool {
        match words.verb {
            "opening" => page.tell("sent", &mut self.sent),
            "ignoring-returns" | "echoing-newlines" | "for-lines" => return self.start_anew(
                words.verb,
            ),
            "write" => page.say(&self.end.write(&words.bytes(self.alloc))),
            "half" => page.bytes("half", self.end.half()),
            "mode" => page.say(&self.end.mode()),
            "size" => page.say(&self.end.size()),
            "signal" => page.say(&self.end.signal_waiting()),
            "waiting" => page.entry(self.end.waiting(words.number())),
            "option" => self.option(words, page),
            "failed" => page.say(&self.end.failed()),
            "take-lines" => page.say(&self.take_lines()),
            _ => return self.call(words, page),
        }
        false
    }
}

impl Server {
    fn start_anew(&mut self, word: &str) -> bool {
        match start(self.alloc, word, &mut self.sent) {
            Some(end) => {
                self.end = end;
                false
            },
            None => true,
        }
    }

    fn option(&self, words: Words<'_>, page: &mut Page) {
        let side = match words.first {
            "us" => Side::Us,
            _ => Side::Them,
        };
        page.say(&self.end.option(side, byte_of(words.second)));
    }

    // Takes empty lines, as long as there are any, and counts them.
    fn take_lines(&mut self) -> usize {
        let mut count = 0usize;
        for _ in 0..2_000 {
            match self.end.take(&mut self.sent) {
                Ok(Some(Entry::Text(text))) if text.as_slice() == b"\n".as_slice() => {},
                _ => break,
            }
            count = count.saturating_add(1);
        }
        count
    }

    // Makes a call that may be refused. Returns whether it was, for lack of memory.
    fn call(&mut self, words: Words<'_>, page: &mut Page) -> bool {
        self.sent.clear();
        match words.verb {
            "join" => self.join(),
            "feed" => self.feed(words, page),
            "says" => self.says(words, page),
            "take" => self.take(page),
            "pull" => self.pull(words.number(), page),
            "wish" => self.wish(words, page),
            "set" => self.set_char(words, page),
            "mask" => self.set_mask(words, page),
            _ => self.set_echo(words, page),
        }
    }

    // Lets the client join. The replies to it were seen before.
    fn join(&mut self) -> bool {
        let _refused = self
            .end
            .feed(&bytes_of(self.alloc, JOINING), &mut self.sent);
        self.sent.clear();
        false
    }

    // Prints the bytes that were sent, or the fault.
    fn done(&mut self, ended: Result<(), ServerFault>, page: &mut Page) -> bool {
        page.tell("sent", &mut self.sent);
        if let Err(fault) = ended {
            page.say(&fault);
        }
        ended == Err(ServerFault::Memory)
    }

    // A piece comes, or many of the same.
    fn feed(&mut self, words: Words<'_>, page: &mut Page) -> bool {
        let piece = words.bytes(self.alloc);
        let mut ended = Ok(());
        for _ in 0..number_of(words.second).max(1) {
            ended = ended.and(self.end.feed(&piece, &mut self.sent));
        }
        let _memory = self.done(ended, page);
        false
    }

    // Takes a piece. Returns whether these are the replies.
    fn says(&mut self, words: Words<'_>, page: &mut Page) -> bool {
        let ended = self.end.feed(&words.bytes(self.alloc), &mut self.sent);
        page.say(&(ended.is_ok() && self.sent == bytes_of(self.alloc, words.second)));
        self.sent.clear();
        false
    }

    fn take(&mut self, page: &mut Page) -> bool {
        match self.end.take(&mut self.sent) {
            Ok(entry) => page.entry(entry.as_ref()),
            Err(_) => return true,
        }
        self.done(Ok(()), page)
    }

    fn pull(&mut self, most: usize, page: &mut Page) -> bool {
        match self.end.pull(most, &mut self.sent) {
            Ok(count) => page.say(&count),
            Err(_) => return true,
        }
        self.done(Ok(()), page)
    }

    fn wish(&mut self, words: Words<'_>, page: &mut Page) -> bool {
        let editing = match words.first {
            "local" => Editing::Local,
            _ => Editing::Remote,
        };
        match self.end.wish(editing, &mut self.sent) {
            Err(ServerFault::Memory) => return true,
            Err(fault) => page.say(&fault),
            Ok(is_sent) => page.say(&is_sent),
        }
        self.done(Ok(()), page)
    }

    fn set_char(&mut self, words: Words<'_>, page: &mut Page) -> bool {
        let value = words.value(self.alloc);
        let ended = self.end.set_char(words.func(), value, &mut self.sent);
        self.done(ended, page)
    }

    fn set_mask(&mut self, words: Words<'_>, page: &mut Page) -> bool {
        let forward = match words.first {
            "off" => None,
            _ => Some(mask(&words.bytes(self.alloc))),
        };
        let ended = self.end.set_mask(forward, &mut self.sent);
        self.done(ended, page)
    }

    fn set_echo(&mut self, words: Words<'_>, page: &mut Page) -> bool {
        let ended = self.end.set_echo(words.first == "on", &mut self.sent);
        self.done(ended, page)
    }
}

const ANSWERS: &[(&str, &str)] = &[
    // A server opens and answers options.
    (
        "opening; feed fffb63; feed fffb63; feed fffd63; feed fffa1f00090009fff0; size; join; size; \
         feed fffa1fffffffff0007fff0; size; feed fffc1f; feed fffa1f00090009fff0; size",
        "sent fffd22fffd1ffffb03fffd03fffb01; sent fffe63; sent fffe63; sent fffc63; (0, 0); (80, 24); \
         (65535, 7); sent fffe1f; (65535, 7)",
    ),
    // A server exchanges characters.
    (
        "join; feed fffa22030a0203fff0; feed fffa2203050214fff0; feed fffa22030a8208fff0; \
         feed fffa2203000200fff0; feed fffa22030a0208fff0; feed 616208; half; \
         feed fffa2203000300fff0; feed 08097f; half",
        "sent fffa22030a027ffff0; sent fffa2203050000fff0; \
         sent fffa220303020307021c08020409021a0a027f0b0215110000120000fff0; \
         sent fffa22030a8208fff0; half 61; \
         sent fffa220303020307021c08020409021a0a027f0b0215110000120000fff0; half 6108",
    ),
    // A forward mask is sent if LINEMODE is on.
    (
        "mask 08; join; mask 000000000008; mask 0000; mask off; feed fffc22; mask 08; mask off",
        "NotOn; sent fffa22fd02000000000008fff0; sent fffa22fd02fff0; sent fffa22fe02fff0; sent fffe22; \
         NotOn; NotOn",
    ),
    // A job changes characters. If it has its ECHO, it wants it without its flag too.
    (
        "join; set ec 08; set el 08; set el 0d; set ao 0d; set ec 08; echo off",
        "sent fffa22030a0208fff0; Char(Taken); Char(Reserved); Char(NotSettable)",
    ),
    // A changed character is sent once LINEMODE is on.
    (
        "set ec; feed fffb22",
        "sent fffa220303020307021c08020409021a0a00000b0215110000120000fff0",
    ),
    // A subnegotiation that is cut is no mode.
    ("join; feed fffa2201fffb63; mode", "sent fffe63; 0"),
];

#[test]
fn a_server_answers_what_its_client_says(rt: HostRuntime) {
    play_all::<Server>(&rt, rt.alloc(), ANSWERS);
}

const EDITING: &[(&str, &str)] = &[
    // A server edits until its mode is acknowledged.
    (
        "join; wish local; wish local; feed 61627f; mode; half; feed fffa220107fff0; mode; half; \
         feed 7f04; half; feed 0d0affecfff4; take; take; take; take",
        "true; sent fffa220103fff0fffc01; false; 0; half 61; 3; half 61; half 617f04; text 617f040a; \
         eof; int; none",
    ),
    // A signal comes before the line that the client edited.
    (
        "join; wish local; feed fffa220107fff0fffe01fff461ffec; take; take; take",
        "true; sent fffa220103fff0fffc01; int; text 61; none",
    ),
    // A server wants its echo if nothing else shows keys.
    (
        "join; wish local; feed fffa220107fff0fffe01; echo off; feed fffa220100fff0; mode; \
         feed fffc22; mode",
        "true; sent fffa220103fff0fffc01; sent fffb01; sent fffa220100fff0; 3; sent fffe22; 0",
    ),
    // A request waits for LINEMODE.
    (
        "wish local; feed fffb22",
        "false; sent fffa220303020307021c08020409021a0a027f0b0215110000120000fff0fffa220103fff0",
    ),
    // A server that ignores returns edits by itself.
    (
        "ignoring-returns; join; wish local; feed fffa220101fff0; echo off",
        "false",
    ),
    // A terminal with only ECHONL echoes a new line only if the server edits.
    (
        "echoing-newlines; join; feed 610d00; pull 9; wish local; feed fffa220107fff0; feed 610d0a; pull 9",
        "1; sent 0d0a; true; sent fffa220103fff0; 0",
    ),
    // A server for clients that edit lines themselves echoes only for LINEMODE, and hides by WILL ECHO.
    (
        "for-lines; feed 6c730d0a; take; pull 9; echo off; feed fffd01; echo on; feed fffe01; feed fffb22",
        "text 6c730a; 0; sent fffb01; sent fffc01; \
         sent fffa220303020307021c08020409021a0a027f0b0215110000120000fff0fffb01",
    ),
];

#[test]
fn a_server_edits_or_leaves_it_to_its_client(rt: HostRuntime) {
    play_all::<Server>(&rt, rt.alloc(), EDITING);
}

const JOBS: &[(&str, &str)] = &[
    // A server goes ahead once after output.
    (
        "take; write 780a; pull 99; take; take; write 0dff; pull 99; take; take",
        "none; 2; 2; sent 780d0a; none; sent fff9; none; 2; 2; sent 0d00ffff; none; sent fff9; none",
    ),
    // A server answers and echoes.
    (
        "feed fff6; pull 99; feed 61; pull 99; join; pull 99; feed 627f0d00; pull 99",
        "6; sent 5b5965735d0d0a; 0; 0; 5; sent 620820080d0a",
    ),
    // Entries come once and in order.
    (
        "feed 610a03; waiting 1; waiting 2; signal; take; signal; take; signal; take; \
         feed 78797f7a0affff77; take; half",
        "int; none; Some(Int); text 610a; Some(Int); int; None; none; text 787a0a; half ff77",
    ),
    // Commands erase and kill, whichever end edits.
    (
        "feed fff7; half; feed fff8; half; feed 616263fff7; half; feed fff8; half; feed 0afff76465ff; \
         half; feed f7; half; take; take; join; feed fff8616263fff7; half; option them 34; option us 34",
        "half; half; half 6162; half; half 6465; half 64; text 0a; none; half 6162; Yes; No",
    ),
    // A server fails if its job is too far behind. The bytes after the key that is too much are not
    // acted on, and those before it are.
    (
        "feed 0d00 1024; feed 61fffb630d00fffb63; failed; half; feed 62; wish remote; echo on; set ao; \
         waiting 1023; waiting 1024; take-lines; take; write 62; pull 99; take",
        "sent fffe63; Pty(TooFarAhead); true; half 61; Failed; Failed; Failed; Failed; text 0a; none; \
         1024; none; 1; 1; sent 62; none; sent fff9",
    ),
];

#[test]
fn a_job_gets_entries_and_its_output_is_shown(rt: HostRuntime) {
    play_all::<Server>(&rt, rt.alloc(), JOBS);
}
