//! A session whose reader has last words.

ghost use Rattle.std.specs.Prelude.{codes, [], ◌∷◌};

use super::runs::serve;
use super::sessions::Jobs;
use std::io;
use std::test::Fail;
use tn_cores::streams::Source;
use tn_discipline::Settings;
use tn_server::Editing;
use tn_session::{Ended, Unwatched};

/// The length of the opening messages that a session writes.
const OPENING: usize = 15;

/// A reader that gives nothing, and has last words.
#[derive(Drop)]
struct Parting;

impl Source for Parting {
    ghost words = { λ _. codes "so long\n" ∷ [] };

    fn last_words(&self) -> &'static [u8] {
        b"so long\n"
    }

    fn read_some(&mut self, _buf: &mut [u8]) -> io::Result<usize> {
        Ok(0)
    }
}

// The text comes before or after the GA of the job that asks for an entry, unless that comes too
// late.
fn is_said_once(out: &[u8]) -> bool {
    let words = b"so long\r\n".as_slice();
    out.len() <= words.len() + 2 && (out.starts_with(words) || out.ends_with(words))
}

#[test]
fn a_session_says_the_last_words_of_its_reader(rt: HostRuntime) -> Result<(), Fail> {
    let alloc = rt.alloc();
    let mut out = Vec::new(alloc);
    let (settings, editing) = (Settings::standard(), Editing::Remote);
    let maker = Jobs { left: 1 };
    let report = serve(
        rt, alloc, Parting, &mut out, settings, editing, maker, Unwatched,
    )?;
    let said = out.get(OPENING..).unwrap_or(b"");
    assert!(rt;
        report.ended != Ended::HangUp || is_said_once(said),
        "{said:?}"
    );
    Ok(())
}
