//! A client end: what it sends, and what its user sees.

use super::play_all;
use crate::models::page::{Page, Stage, Words, byte_of, bytes_of, size_of};
use std::alloc::Global;
use tn_client::{ClientEnd, ClientFault, UserCommand};
use tn_discipline::Limit;
use tn_option::Side;

/// A server's opening messages.
const OPENING: &str = "fffd22fffd1ffffb03fffd03fffb01";

/// The server asks for EDIT and TRAPSIG, and is rid of its ECHO.
const EDITING: &str = "fffa220103fff0fffc01";

/// A client, to which scripts speak.
#[derive(Drop)]
pub(super) struct Client {
    alloc: Global,
    end: ClientEnd,
    sent: Vec<u8>,
    shown: Vec<u8>,
}

impl Stage for Client {
    fn open(alloc: Global) -> Option<Client> {
        let end = ClientEnd::start(alloc, 80, 24, Limit::standard()).ok()?;
        let (sent, shown) = (Vec::new(alloc), Vec::new(alloc));
        Some(Client {
            alloc,
            end,
            sent,
            shown,
        })
    }

    fn step(&mut self, words: Words<'_>, page: &mut Page) -> bool {
        match words.verb {
            "half" => page.bytes("half", self.end.half()),
            "ahead" => page.say(&self.end.ahead()),
            "mode" => page.say(&self.end.mode()),
            "char" => page.say(&self.end.chars().get(words.func())),
            "ours" => page.say(&self.end.option(Side::Us, byte_of(words.first))),
            "failed" => page.say(&self.end.failed()),
            "join" => self.join(OPENING),
            "edit" => self.join(EDITING),
            _ => return self.call(words, page),
        }
        false
    }
}

impl Client {
    // Takes a piece of the server, whose replies were seen before.
    fn join(&mut self, piece: &str) {
        let piece = bytes_of(self.alloc, piece);
        let _refused = self.end.feed(&piece, &mut self.sent, &mut self.shown);
        self.sent.clear();
    }

    // Makes a call that may be refused. Returns whether it was, for lack of memory.
    fn call(&mut self, words: Words<'_>, page: &mut Page) -> bool {
        let ended = match words.verb {
            "keys" => self.keys(words),
            "enter" => self.enter(),
            "feed" => self.feed(words),
            "resize" => self.resize(words),
            "send" => self.send(words),
            _ => self.propose(words),
        };
        page.tell("sent", &mut self.sent);
        page.tell("shown", &mut self.shown);
        if let Err(fault) = ended {
            page.say(&fault);
        }
        false
    }

    // A key that memory is refused for has not been typed, and is typed again.
    fn keys(&mut self, words: Words<'_>) -> Result<(), ClientFault> {
        let mut ended = Ok(());
        for key in &words.bytes(self.alloc) {
            let mut typed = self.end.key(*key, &mut self.sent, &mut self.shown);
            if typed == Err(ClientFault::Memory) {
                typed = self.end.key(*key, &mut self.sent, &mut self.shown);
            }
            ended = ended.and(typed);
        }
        ended
    }

    fn enter(&mut self) -> Result<(), ClientFault> {
        let entered = self.end.new_line(&mut self.sent, &mut self.shown);
        if entered == Err(ClientFault::Memory) {
            return self.end.new_line(&mut self.sent, &mut self.shown);
        }
        entered
    }

    fn feed(&mut self, words: Words<'_>) -> Result<(), ClientFault> {
        let piece = words.bytes(self.alloc);
        self.end.feed(&piece, &mut self.sent, &mut self.shown)
    }

    fn resize(&mut self, words: Words<'_>) -> Result<(), ClientFault> {
        let (width, height) = (size_of(words.first), size_of(words.second));
        let resized = self.end.resize(width, height, &mut self.sent);
        if resized == Err(ClientFault::Memory) {
            return self.end.resize(width, height, &mut self.sent);
        }
        resized
    }

    fn send(&mut self, words: Words<'_>) -> Result<(), ClientFault> {
        let command = match words.first {
            "brk" => UserCommand::Brk,
            "ip" => UserCommand::Ip,
            "ayt" => UserCommand::Ayt,
            _ => UserCommand::Nop,
        };
        let sent = self.end.send(command, &mut self.sent);
        if sent == Err(ClientFault::Memory) {
            return self.end.send(command, &mut self.sent);
        }
        sent
    }

    fn propose(&mut self, words: Words<'_>) -> Result<(), ClientFault> {
        let (func, value) = (words.func(), words.value(self.alloc));
        let proposed = self.end.propose(func, value, &mut self.sent);
        if proposed == Err(ClientFault::Memory) {
            return self.end.propose(func, value, &mut self.sent);
        }
        proposed
    }
}

const ANSWERS: &[(&str, &str)] = &[
    // A client joins and sends its size.
    (
        "resize 255 24; resize 80 24; feed fffd22fffd1ffffb03fffd03fffb01; resize 255 24; \
         resize 255 24; resize 80 24; ours 34; ours 1; failed",
        "sent fffb22fffb1ffffa1f00500018fff0fffd03fffb03fffd01; sent fffa1f00ffff0018fff0; \
         sent fffa1f00500018fff0; Yes; No; false",
    ),
    // A client answers options.
    (
        "join; feed fffb63; feed fffb63; feed fffd01; feed fffb22; feed fffd22; feed fffc01",
        "sent fffe63; sent fffe63; sent fffc01; sent fffe22; sent fffe01",
    ),
    // A new line is CR LF, RETURN is CR NUL, and both end a line that the client edits.
    (
        "enter; keys 0d; join; enter; edit; keys 61; enter; keys 610d; keys 62; half; enter; half",
        "sent 0d0a; shown 0d0a; sent 0d00; shown 0d0a; sent 0d0a; shown 61; sent 610d0a; shown 0d0a; \
         sent 610d0a; shown 610d0a; shown 62; half 62; sent 620d0a; shown 0d0a; half",
    ),
    // A client acknowledges a mode that is new.
    (
        "join; feed fffa220103fff0; feed fffa220103fff0; feed fffa220113fff0; feed fffa220104fff0; \
         feed fffa220101fff0; feed fffa220100fff0; feed fffa220102fff0; mode",
        "sent fffa220107fff0; sent fffa220105fff0; sent fffa220104fff0; sent fffa220106fff0; 2",
    ),
    // A client takes a forward mask and drops it.
    (
        "join; feed fffa22fd0208fff0; feed fffa22fe02fff0",
        "sent fffa22fb02fff0; sent fffa22fc02fff0",
    ),
    // A client takes the characters that the server sends.
    (
        "join; edit; feed fffa22030a0215fff0; feed fffa22030a8208fff0; feed fffa220311023bfff0; \
         feed fffa2203050214fff0; feed fffa22030a020afff0; char el; char ec; keys 6162087f3b",
        "sent fffa22030a8215fff0; sent fffa220311823bfff0; sent fffa2203050000fff0; None; Some(8); \
         sent 617f3b; shown 61620820087f3b",
    ),
    // A proposal changes nothing by itself.
    (
        "propose ao; join; propose ec 08; char ec; propose el 7f; propose el 0d; propose ao 09",
        "NotOn; sent fffa22030a0208fff0; Some(127); Char(Taken); Char(Reserved); Char(NotSettable)",
    ),
];

#[test]
fn a_client_answers_what_its_server_says(rt: HostRuntime) {
    play_all::<Client>(&rt, rt.alloc(), ANSWERS);
}

const TYPING: &[(&str, &str)] = &[
    // Held bytes are sent when editing ends.
    (
        "join; edit; keys 61ff; half; ahead; feed fffa220102fff0; half; feed fffa220103fff0; keys 7879; \
         feed fffe22; mode; half; feed fffa220103fff0",
        "shown 61ff; half 61ff; 0; sent 61fffffffa220106fff0; half; sent fffa220107fff0; shown 7879; \
         sent 7879fffc22; 0; half",
    ),
    // Keys are passed on if the server edits.
    (
        "keys 030d0aff; join; keys 617f0d",
        "sent 030d000affff; shown 030d0a0d0aff; sent 617f0d00",
    ),
    // Only signals become commands under TRAPSIG. A signal is echoed as any other byte then.
    (
        "join; edit; feed fffa220102fff0; keys 031c1a04",
        "sent fffa220106fff0; sent fff4ffeeffed04; shown 031c1a04",
    ),
    // The end of file is a command only with EDIT, when an interrupt is an ordinary byte.
    (
        "join; feed fffa220101fff0; keys 610304; half",
        "sent fffa220105fff0; sent 6103ffec; half",
    ),
    // A client edits lines.
    (
        "join; edit; keys 610304; keys 617f0d; keys 616215630a; keys 1c1a04; keys 254x78; keys 797a; half",
        "sent fff461ffec; shown 61; sent 0d0a; shown 610820080d0a; sent 630d0a; shown 61620d0a630d0a; \
         sent ffeeffedffec; shown 254x78.; shown 0707; half 254x78.",
    ),
    // A command goes at once, in each mode, before what is held, which stays.
    (
        "send brk; join; keys 61; send nop; edit; keys 62; send brk; send ip; send ayt; half; keys 630d",
        "sent fff3; sent 61; sent fff1; shown 62; sent fff3; sent fff4; sent fff6; half 62; \
         sent 62630d0a; shown 630d0a",
    ),
    // A client shows the bytes that the server writes. While the server echoes, a key shows nothing
    // at the client.
    (
        "join; edit; feed fffb0168690d0a0d00; feed 610a62ffff630d64; keys 710d",
        "sent fffd01; shown 68690d0a0d; shown 610a62ff630d64; sent 710d0a",
    ),
];

#[test]
fn a_client_sends_and_shows_what_is_typed(rt: HostRuntime) {
    play_all::<Client>(&rt, rt.alloc(), TYPING);
}
