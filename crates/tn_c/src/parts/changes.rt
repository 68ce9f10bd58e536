//! The facts of a server end that its client changes: its window's size, the mode, options, special
//! characters and the number of BREAKs.

ghost use Rattle.std.specs.Prelude.{◌≡◌, ◌≢◌, ◌⊎◌, ◌↔◌, ◌≤◌, IsTrue};
ghost use Rattle.tn_server.specs.{Calls.LeadsTo, Events.History, Terms.options};
ghost use Rattle.tn_c.specs.parts.Changes.{states_seen, chars_seen, bit, IsSeen, TellsChanges};

use crate::parts::readings::{char_number, state_number};
use tn_codes::Func;
use tn_discipline::Chars;
use tn_option::{ECHO, LINEMODE, NAWS, SUPPRESS_GO_AHEAD, Side};
use tn_server::ServerEnd;

/// The facts of a server end that its client changes, at some moment, in the numbers of `tn.h`: for
/// options, the states of the sides to which a server end agrees.
#[derive(Clone, Copy)]
pub struct Seen {
    pub width: u16,
    pub height: u16,
    pub mode: u8,
    pub options: [u32; 5],
    pub chars: [u16; 8],
    /// The number of BREAKs that were taken, modulo 2^32.
    pub breaks: u32,
}

fn states_of(end: &ServerEnd) -> [u32; 5]
    ensures { (h : History) → LeadsTo h end.now → result ≡ states_seen (options h) }
{
    [
        state_number(end.option(Side::Us, ECHO)),
        state_number(end.option(Side::Us, SUPPRESS_GO_AHEAD)),
        state_number(end.option(Side::Them, SUPPRESS_GO_AHEAD)),
        state_number(end.option(Side::Them, NAWS)),
        state_number(end.option(Side::Them, LINEMODE)),
    ]
}

fn numbers_of(chars: &Chars) -> [u16; 8]
    ensures { result ≡ chars_seen chars.now }
{
    [
        char_number(chars.get(Func::Ip)),
        char_number(chars.get(Func::Abort)),
        char_number(chars.get(Func::Eof)),
        char_number(chars.get(Func::Susp)),
        char_number(chars.get(Func::Ec)),
        char_number(chars.get(Func::El)),
        char_number(chars.get(Func::Forw1)),
        char_number(chars.get(Func::Forw2)),
    ]
}

/// Returns the present facts of an end.
pub(crate) fn seen_of(end: &ServerEnd) -> Seen
    ensures { (h : History) → LeadsTo h end.now → IsSeen h result }
{
    let (width, height) = end.size();
    Seen {
        width,
        height,
        mode: end.mode(),
        options: states_of(end),
        chars: numbers_of(&end.chars()),
        breaks: end.breaks(),
    }
}

fn has_other_size(old: &Seen, new: &Seen) -> bool
    ensures { IsTrue result ↔ ((new.now.width ≢ old.now.width) ⊎ (new.now.height ≢ old.now.height)) }
{
    if new.width != old.width {
        return true;
    }
    new.height != old.height
}

fn has_other_mode(old: &Seen, new: &Seen) -> bool
    ensures { IsTrue result ↔ (new.now.mode ≢ old.now.mode) }
{
    new.mode != old.mode
}

fn has_other_options(old: &Seen, new: &Seen) -> bool
    ensures { IsTrue result ↔ (new.now.options ≢ old.now.options) }
{
    new.options != old.options
}

fn has_other_chars(old: &Seen, new: &Seen) -> bool
    ensures { IsTrue result ↔ (new.now.chars ≢ old.now.chars) }
{
    new.chars != old.chars
}

fn has_other_breaks(old: &Seen, new: &Seen) -> bool
    ensures { IsTrue result ↔ (new.now.breaks ≢ old.now.breaks) }
{
    new.breaks != old.breaks
}

// Returns a bit if it is set, or 0.
fn bit(is_set: bool, value: u32) -> u32
    ensures value { result ≡ bit is_set value }
    ensures within { result ≤ value }
{
    if is_set { value } else { 0 }
}

/// Returns the bits of `tn_change` for all that differs.
pub(crate) fn change_bits(old: &Seen, new: &Seen) -> u32
    ensures { TellsChanges result old.now new.now }
{
    let size = bit(has_other_size(old, new), 1);
    let mode = bit(has_other_mode(old, new), 2);
    let options = bit(has_other_options(old, new), 4);
    let chars = bit(has_other_chars(old, new), 8);
    let breaks = bit(has_other_breaks(old, new), 16);
    size + mode + options + chars + breaks
}
