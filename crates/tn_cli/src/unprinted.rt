//! The parts of a stream that are no item: those that are dropped, and the bytes that are left
//! unread at its end.

ghost use Rattle.std.specs.Prelude.{◌≡◌, [], ◌∷◌, ◌++◌, List, ℕ};
ghost use Rattle.tn_cli.specs.Unprinted.{IsCount, IsLeft, Leads, LeavesUnprinted, StandsAt, Watches};
ghost use Rattle.tn_cli.specs.Unprinted.{WatchesOn, none};
ghost use Rattle.tn_cli.specs.declared.unprinted.Stand.TheVariants as stand;

use tn_codes::{Command, IAC, Verb};

const NUL: u8 = 0;

const LF: u8 = 10;

const CR: u8 = 13;

const SE: u8 = 240;

const SB: u8 = 250;

/// An option byte and 513 parameters: of a subnegotiation no more bytes are counted.
const TOO_MANY: usize = 514;

/// The bytes that are left unread at the end of a stream, which are less than an item.
#[derive(Clone, Copy, PartialEq, Eq)]
pub enum Left {
    Nothing,
    Cr,
    Iac,
    /// IAC and a verb, without their option.
    OptionWord,
    /// A subnegotiation without its end.
    Subnegotiation,
}

/// The amount of a stream that was dropped. A count stops at the greatest `u64`.
#[derive(Clone, Copy, PartialEq, Eq)]
pub struct Dropped {
    /// IAC and a byte that is no command.
    pub escapes: u64,
    /// The number of subnegotiations without an option, with more than 512 parameters, or that
    /// another command cut off.
    pub subnegotiations: u64,
}

/// The parts of a stream that are no item, and so are not printed.
#[derive(Clone, Copy, PartialEq, Eq)]
pub struct Unprinted {
    pub dropped: Dropped,
    pub left: Left,
}

/// The state of a stream between two bytes.
#[derive(Clone, Copy)]
pub(crate) enum Stand {
    Between,
    AfterCr,
    AfterIac,
    AfterVerb,
    /// Within a subnegotiation, after this number of its bytes.
    Inside(usize),
    InsideIac(usize),
}

/// Watches a stream for what is no item.
#[derive(Clone, Copy)]
pub(crate) struct Watch {
    stand: Stand,
    dropped: Dropped,
}

const NONE: Dropped = Dropped {
    escapes: 0,
    subnegotiations: 0,
};

const ONE_ESCAPE: Dropped = Dropped {
    escapes: 1,
    subnegotiations: 0,
};

const ONE_SUBNEGOTIATION: Dropped = Dropped {
    escapes: 0,
    subnegotiations: 1,
};

impl Watch {
    pub(crate) fn new() -> Watch
        ensures { Watches [] result }
    {
        Watch {
            stand: Stand::Between,
            dropped: NONE,
        }
    }

    pub(crate) fn read(&mut self, piece: &[u8])
        ensures { WatchesOn self.old piece.now self.new }
    {
        for byte in piece {
            self.step(*byte);
        }
    }

    fn step(&mut self, byte: u8)
        ensures { WatchesOn self.old (byte ∷ []) self.new }
    {
        let (stand, dropped) = self.stand.step(byte);
        self.stand = stand;
        self.dropped = Dropped {
            escapes: self.dropped.escapes.saturating_add(dropped.escapes),
            subnegotiations: self
                .dropped
                .subnegotiations
                .saturating_add(dropped.subnegotiations),
        };
    }

    /// Returns the parts of the stream that are not printed if it ends at this byte.
    pub(crate) fn unprinted(&self) -> Unprinted
        ensures { (stream : List ℕ) → Watches stream self.now → LeavesUnprinted stream result }
    {
        Unprinted {
            dropped: self.dropped,
            left: self.stand.left(),
        }
    }
}

impl Stand {
    // Returns the state after one more byte, and what is dropped with it.
    fn step(self, byte: u8) -> (Stand, Dropped)
        ensures { Leads self byte result.1 result.0 }
    {
        match self {
            Stand::Between => (between(byte), NONE),
            Stand::AfterCr => (after_cr(byte), NONE),
            Stand::AfterIac => after_iac(byte),
            Stand::AfterVerb => (Stand::Between, NONE),
            Stand::Inside(count) => (inside(count, byte), NONE),
            Stand::InsideIac(count) => inside_iac(count, byte),
        }
    }

    fn left(self) -> Left
        ensures { (rest : List ℕ) → StandsAt self rest → IsLeft result rest }
    {
        match self {
            Stand::Between => Left::Nothing,
            Stand::AfterCr => Left::Cr,
            Stand::AfterIac => Left::Iac,
            Stand::AfterVerb => Left::OptionWord,
            Stand::Inside(_) | Stand::InsideIac(_) => Left::Subnegotiation,
        }
    }
}

fn between(byte: u8) -> Stand
    ensures { Leads stand.Between byte none result }
{
    match byte {
        CR => Stand::AfterCr,
        IAC => Stand::AfterIac,
        _ => Stand::Between,
    }
}

fn after_cr(byte: u8) -> Stand
    ensures { Leads stand.AfterCr byte none result }
{
    match byte {
        LF => Stand::Between,
        NUL => Stand::Between,
        CR => Stand::AfterCr,
        IAC => Stand::AfterIac,
        _ => Stand::Between,
    }
}

fn after_iac(byte: u8) -> (Stand, Dropped)
    ensures leads { Leads stand.AfterIac byte result.1 result.0 }
    ensures escape { result.1.subnegotiations ≡ 0 }
{
    if byte == IAC {
        return (Stand::Between, NONE);
    }
    if byte == SB {
        return (Stand::Inside(0), NONE);
    }
    if let Some(_) = Verb::from_code(byte) {
        return (Stand::AfterVerb, NONE);
    }
    if let Some(_) = Command::from_code(byte) {
        return (Stand::Between, NONE);
    }
    (Stand::Between, ONE_ESCAPE)
}

fn inside(count: usize, byte: u8) -> Stand
    ensures { Leads (stand.Inside count) byte none result }
{
    if byte == IAC {
        return Stand::InsideIac(count);
    }
    Stand::Inside(longer(count))
}

fn inside_iac(count: usize, byte: u8) -> (Stand, Dropped)
    ensures { Leads (stand.InsideIac count) byte result.1 result.0 }
{
    if byte == IAC {
        return (Stand::Inside(longer(count)), NONE);
    }
    if byte == SE {
        return (Stand::Between, ended(count));
    }
    let (next, dropped) = after_iac(byte);
    let both = Dropped {
        escapes: dropped.escapes,
        subnegotiations: 1,
    };
    (next, both)
}

// Returns the count after one more byte of a subnegotiation.
fn longer(count: usize) -> usize
    ensures { (bytes : List ℕ) (byte : ℕ) → IsCount count bytes →
        IsCount result (bytes ++ byte ∷ []) }
{
    if count < TOO_MANY {
        return count + 1;
    }
    count
}

// Returns what is dropped of a subnegotiation of this number of bytes that has its IAC SE.
fn ended(count: usize) -> Dropped
    ensures { Leads (stand.InsideIac count) 240 result stand.Between }
{
    if count == 0 {
        return ONE_SUBNEGOTIATION;
    }
    if count < TOO_MANY {
        return NONE;
    }
    ONE_SUBNEGOTIATION
}
