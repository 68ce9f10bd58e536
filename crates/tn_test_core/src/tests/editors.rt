//! Keys that are edited in front of a plain terminal, and the lines that it gives of what they become. A terminal of
//! Linux with IUTF8 gives the same lines, but at the limit it leaves a part of a character.

use super::play_all;
use crate::models::page;
use crate::models::page::{Page, Stage, size_of};
use std::alloc::{AllocError, Global};
use tn_discipline::{Effect, Limit, Line, Settings};
use tn_editor::{Arrows, Drawn, EditKeys, Editor, History, Words};

#[derive(Drop)]
struct Editing {
    alloc: Global,
    editor: Editor,
    line: Line,
    history: History,
    arrows: Arrows,
}

fn editor(alloc: Global, words: Words) -> Option<Editor> {
    let keys = EditKeys {
        werase: Some(0x17),
        rprnt: Some(0x12),
        iutf8: true,
        words,
    };
    Editor::new(alloc, Settings::standard(), keys, Limit::standard()).ok()
}

impl Stage for Editing {
    fn open(alloc: Global) -> Option<Editing> {
        Some(Editing {
            alloc,
            editor: editor(alloc, Words::Symbols)?,
            line: Line::new(alloc, Limit::standard()).ok()?,
            history: History::new(alloc),
            arrows: Arrows::new(),
        })
    }

    fn step(&mut self, words: page::Words<'_>, page: &mut Page) -> bool {
        match words.verb {
            "blanks" => return self.renew(),
            "held" => page.bytes("held", self.line.held()),
            "half" => page.bytes("half", self.editor.half_line()),
            "resume" => self.editor.resume(size_of(words.first)),
            "silent" => self.silence(),
            "keep" => return self.history.keep(self.editor.half_line()).is_err(),
            "up" => return self.up(page),
            "down" => {
                page.say(&self.history.down());
                self.recall(page);
            },
            "bytes" => {
                for byte in &words.bytes(self.alloc) {
                    page.say(&self.arrows.take(*byte));
                }
            },
            "nothing-follows" => page.say(&self.arrows.give_up()),
            _ => {
                for key in &words.bytes(self.alloc) {
                    self.type_one(words.verb, *key, page);
                }
            },
        }
        false
    }
}

impl Editing {
    // Makes an editor with another set of characters that part words.
    fn renew(&mut self) -> bool {
        match editor(self.alloc, Words::Blanks) {
            Some(editor) => {
                self.editor = editor;
                false
            },
            None => true,
        }
    }

    // Nothing is shown any more, and there is no WERASE.
    fn silence(&mut self) {
        let mut settings = Settings::standard();
        settings.flags.echo = false;
        let keys = EditKeys {
            werase: None,
            rprnt: Some(0x12),
            iutf8: true,
            words: Words::Symbols,
        };
        self.editor.set(settings, keys);
    }

    fn up(&mut self, page: &mut Page) -> bool {
        match self.history.up(self.editor.half_line()) {
            Ok(went) => {
                page.say(&went);
                self.recall(page);
                false
            },
            Err(_) => true,
        }
    }

    // Puts the line that the user looks at in place of the half-typed line.
    fn recall(&mut self, page: &mut Page) {
        let Ok(line) = Vec::from_slice(self.alloc, self.history.line()) else {
            return;
        };
        if let Some(kill) = self.editor.recalls(&line) {
            self.type_one("keys", kill, page);
            for key in &line {
                self.type_one("keys", *key, page);
            }
        }
        page.bytes("held", self.line.held());
    }

    fn type_one(&mut self, verb: &str, key: u8, page: &mut Page) {
        let presses = self.editor.key(key);
        if verb == "presses" {
            page.say(&presses.count);
        }
        for _ in 0..presses.count {
            self.press(presses.key, page);
        }
    }

    // A key whose memory is refused is typed again.
    fn press(&mut self, key: u8, page: &mut Page) {
        let mut effect = self.line.key(&Settings::standard(), key);
        if effect.is_err() {
            effect = self.line.key(&Settings::standard(), key);
        }
        match effect {
            Ok(Effect::Gives(entry)) => page.entry(Some(&entry)),
            Ok(_) => {},
            Err(_) => page.begin("memory"),
        }
    }
}

const SCRIPTS: &[(&str, &str)] = &[
    // ERASE takes back a character, also one of which not all came.
    (
        "keys 68c3a97f690a; keys e282617f7f620a; presses 61c3a97f7f7f",
        "text 68690a; text 620a; 1; 1; 1; 2; 1; 1",
    ),
    // WERASE takes back a word of letters, digits and underlines, and the characters that part it
    // from the end of the line.
    (
        "keys 666f6f2f62617217780a; keys 666f6f2062617220201778.0a; keys 666f6f202d2d17780a; \
         keys 636166c3a9206e61c3af76651778.0a",
        "text 666f6f2f780a; text 666f6f20780a; text 780a; text 636166c3a920780a",
    ),
    // Else a word is the bytes between spaces and tabs.
    (
        "blanks; keys 6120666f6f2f6261722009.17780a",
        "text 6120780a",
    ),
    // REPRINT is no data.
    ("keys 6162127f630a; presses 12", "text 61630a; 0"),
    // At the limit no part of a character is left.
    (
        "keys 252x61.c3a90a; keys 253x61.c3a90a; keys 254x61.c3a90a; keys 254x61; presses 62",
        "text 252x61.c3a90a; text 253x61.0a; text 254x61.0a; 1",
    ),
    // Nothing is known of bytes that were typed before.
    (
        "resume 3; presses c3a97f7f17157f17; half; resume 254; presses 61",
        "1; 1; 2; 1; 1; 1; 1; 0; half; 1",
    ),
    // Settings change within a line; REPRINT is data if nothing is shown.
    (
        "keys 61c3a9; silent; presses 17127f7f7f; half",
        "1; 1; 1; 1; 2; half 61",
    ),
    // An earlier line is typed again after KILL.
    (
        "keys 61c3a9; keep; keys 0d; keys 62; keep; keep; keys 0d; keys 63; up; up; up; down; down; down",
        "text 61c3a90a; text 620a; true; held 62; true; held 61c3a9; false; held 61c3a9; true; held 62; \
         true; held 63; false; held 63",
    ),
    // Cursor keys come cut anywhere; other bytes are passed on.
    (
        "bytes 611b5b; bytes 411b4f441b1b5b1b; nothing-follows; bytes 1b4f78",
        "Bytes([Some(97), None, None]); Waits; Waits; Arrow(Up); Waits; Waits; Arrow(Left); Waits; \
         Bytes([Some(27), None, None]); Waits; Bytes([Some(27), Some(91), None]); \
         [Some(27), None, None]; Waits; Waits; Bytes([Some(27), Some(79), Some(120)])",
    ),
];

#[test]
fn keys_are_edited_before_a_plain_terminal(rt: HostRuntime) {
    play_all::<Editing>(&rt, rt.alloc(), SCRIPTS);
}

#[derive(Drop)]
struct Drawing {
    alloc: Global,
    editor: Editor,
    drawn: Drawn,
}

impl Stage for Drawing {
    fn open(alloc: Global) -> Option<Drawing> {
        Some(Drawing {
            alloc,
            editor: editor(alloc, Words::Symbols)?,
            drawn: Drawn::new(alloc, Limit::standard(), true, 10).ok()?,
        })
    }

    fn step(&mut self, words: page::Words<'_>, page: &mut Page) -> bool {
        let mut out = Vec::new(self.alloc);
        let refused = match words.verb {
            "output" => {
                self.drawn.shown(&words.bytes(self.alloc));
                Ok(())
            },
            "away" => self.drawn.away(&mut out),
            "resume" => {
                self.editor.resume(size_of(words.first));
                self.drawn.again(&self.editor, &mut out)
            },
            "again" => self.drawn.again(&self.editor, &mut out),
            _ => self.type_all(&words.bytes(self.alloc), &mut out),
        };
        page.tell(words.verb, &mut out);
        refused.is_err()
    }
}

impl Drawing {
    fn type_all(&mut self, keys: &[u8], out: &mut Vec<u8>) -> Result<(), AllocError> {
        for key in keys {
            let role = self.editor.role(*key);
            let _presses = self.editor.key(*key);
            self.drawn.key(&self.editor, role, out)?;
        }
        Ok(())
    }
}

const DRAWN: &[(&str, &str)] = &[
    // A control character takes two columns, a tab as many as there are to the next stop, and a part of a character
    // none.
    (
        "keys 61017f; keys 09; keys 7f; keys c3; keys a9; keys 7f",
        "keys 615e41082008082008; keys 20202020202020; keys 082008082008082008082008082008082008082008; \
         keys c3a9; keys 082008",
    ),
    // A half-typed line on several rows is taken away, and shown again after the output.
    (
        "output 3e20; keys 8x61.62; away; output 78; again",
        "keys 6161616161616161200d62; away 1b5b410d1b5b431b5b431b5b4a; again 61616161616161200d6162",
    ),
    // REPRINT shows the line again, KILL takes it away, and a new line ends it.
    (
        "keys 6112; keys 15; keys 03; keys 610d",
        "keys 615e520d0a61; keys 082008; keys 5e43; keys 610d0a",
    ),
    // For a byte that was typed before a column is rubbed out.
    (
        "output 3e20616263; resume 3; keys 647f7f; keys 15; keys 65",
        "keys 64082008082008; keys 082008082008; keys 65",
    ),
];

#[test]
fn what_is_typed_is_drawn(rt: HostRuntime) {
    play_all::<Drawing>(&rt, rt.alloc(), DRAWN);
}
