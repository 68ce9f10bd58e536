//! The tables of local characters, and the modes (RFC 1184).

use super::play_all;
use crate::model::triples_of;
use crate::models::page::{Page, Stage, Words, byte_of};
use std::alloc::Global;
use tn_codes::Triple;
use tn_discipline::Chars;
use tn_linemode::{ClientMode, ClientTable, ServerMode, ServerTable};

#[derive(Drop)]
struct Tables {
    alloc: Global,
    server: ServerTable,
    client: ClientTable,
    server_mode: ServerMode,
    client_mode: ClientMode,
}

fn tell_triples(triples: &[Triple], page: &mut Page) {
    let mut bytes = Vec::new(page.alloc);
    for triple in triples {
        let _refused = bytes.extend_from_slice(&[triple.func, triple.flags, triple.value]);
    }
    page.bytes("answers", &bytes);
}

impl Stage for Tables {
    fn open(alloc: Global) -> Option<Tables> {
        Some(Tables {
            alloc,
            server: ServerTable::new(Chars::standard()),
            client: ClientTable::new(),
            server_mode: ServerMode::new(),
            client_mode: ClientMode::new(),
        })
    }

    fn step(&mut self, words: Words<'_>, page: &mut Page) -> bool {
        match words.verb {
            "server-got" => return self.server_got(words, page),
            "client-got" => return self.client_got(words, page),
            "announce" => return self.announce(page),
            "set" => {
                let value = words.value(self.alloc);
                page.say(&self.server.set(words.func(), value));
            },
            "propose" => self.propose(words, page),
            "server-has" => page.say(&self.server.chars().get(words.func())),
            "client-has" => page.say(&self.client.chars().get(words.func())),
            _ => self.mode(words, page),
        }
        false
    }
}

impl Tables {
    fn server_got(&mut self, words: Words<'_>, page: &mut Page) -> bool {
        let mut answers = Vec::new(self.alloc);
        let triples = triples_of(self.alloc, &words.bytes(self.alloc));
        match self.server.got(&triples, &mut answers) {
            Err(_) => return true,
            Ok(true) => page.begin("asked"),
            Ok(false) => {},
        }
        tell_triples(&answers, page);
        false
    }

    fn client_got(&mut self, words: Words<'_>, page: &mut Page) -> bool {
        let mut answers = Vec::new(self.alloc);
        let triples = triples_of(self.alloc, &words.bytes(self.alloc));
        if self.client.got(&triples, &mut answers).is_err() {
            return true;
        }
        tell_triples(&answers, page);
        false
    }

    fn announce(&mut self, page: &mut Page) -> bool {
        let mut answers = Vec::new(self.alloc);
        if self.server.announce(&mut answers).is_err() {
            return true;
        }
        tell_triples(&answers, page);
        false
    }

    fn propose(&mut self, words: Words<'_>, page: &mut Page) {
        match self.client.propose(words.func(), words.value(self.alloc)) {
            Ok(triple) => tell_triples(&[triple], page),
            Err(fault) => page.say(&fault),
        }
    }

    fn mode(&mut self, words: Words<'_>, page: &mut Page) {
        let mask = byte_of(words.first);
        match words.verb {
            "wish" => page.say(&self.server_mode.wish(mask)),
            "server-hears" => page.say(&self.server_mode.got(mask)),
            "client-hears" => page.say(&self.client_mode.got(mask)),
            _ => self.rest(words, page),
        }
    }

    fn rest(&mut self, words: Words<'_>, page: &mut Page) {
        match words.verb {
            "server-modes" => {
                page.say(&self.server_mode.asked().mask());
                page.say(&self.server_mode.current().mask());
            },
            "client-mode" => page.say(&self.client_mode.current().mask()),
            _ => {
                self.server_mode.reset();
                self.client_mode.reset();
            },
        }
    }
}

const SCRIPTS: &[(&str, &str)] = &[
    // A server takes what it may.
    (
        "server-got 0a0203; server-got 050214; server-got 0a8208; server-got 000200; \
         server-got 008200000301000100; server-got 0a02080b0208; server-has ec; server-got 000300; \
         server-has ec; announce; set el 7f; set el 08; server-has el",
        "answers 0a027f; answers 050000; answers; asked; answers; answers; answers 0a82080b0215; Some(8); \
         asked; answers; Some(127); answers 03020307021c08020409021a0a027f0b0215110000120000; \
         Err(Taken); Ok(()); Some(8)",
    ),
    // A server bears a client's own table.
    // What a client of the world sends when LINEMODE comes on: its whole table, with the flush flags and
    // levels of its own, two terminal characters more, and then an EL that is disabled.
    (
        "server-got 01230003620304020f05021407621c08020409421a0a03000b01180c02170d02120e02160f021110021311\
         03ff120000130207c800000b1aff; server-has el",
        "answers 0100000400000500000b82180c00000d00000e00000f00001000001300000b8000; None",
    ),
    // A client takes the characters that it is sent.
    (
        "client-got 03020307021c080204; propose ec 08; propose ec; propose ec 0a; propose ao 0a; \
         client-got 0a0215; client-has ec; client-has el; client-got 0b820308020a08010d000300; \
         client-has ip; client-has el; client-has eof; client-got 1202091282091200090902ff130209130009",
        "answers; answers 0a0208; answers 0a0000; Reserved; NotSettable; answers 0a8215; Some(21); None; \
         answers; None; Some(3); Some(4); answers 128209128000098000130000",
    ),
    // A mode waits for its acknowledgement.
    (
        "wish 3; wish 3; server-modes; server-hears 7; server-hears 1; server-hears 26; server-modes; \
         wish 8; reset; server-modes",
        "Some(3); None; 3; 0; None; Some(true); Some(false); 3; 3; Some(0); 0; 0",
    ),
    // A client acknowledges what changes.
    (
        "client-hears 3; client-hears 19; client-hears 7; client-mode; client-hears 0; client-hears 1; \
         reset; client-mode",
        "Some(7); None; None; 3; Some(4); Some(5); 0",
    ),
];

#[test]
fn tables_and_modes_stand_as_they_were_told(rt: HostRuntime) {
    play_all::<Tables>(&rt, rt.alloc(), SCRIPTS);
}
