//! Options of the caller's own: their items wait to be taken, and an end gets its stream without them.

ghost use Rattle.std.specs.Prelude.{◌≡◌, ◌↔◌, ◌++◌, ◌∷◌, [], OnOk, OnErr, IsTrue};
ghost use Rattle.tn_nvt.specs.{Room.LacksRoom, Spelling.spelling};
ghost use Rattle.tn_c.specs.parts.{Bytes.Gives, Items.parameters_of};
ghost use Rattle.tn_c.specs.parts.OwnOptions.{OwnsNone, OwnCall, SiftCall, TakeOwnCall, PutsWord, PutsSub};
ghost use Rattle.tn_c.specs.parts.OwnOptions.{is_ends, is_own, has_option};

use crate::parts::bytes::give;
use crate::parts::codes::Code;
use crate::parts::decoder::{ItemSeen, parameters, seen};
use std::alloc::Global;
use std::collections::VecDeque;
use tn_codes::Verb;
use tn_nvt::{
    Decoder, Item, MAX_PARAMETERS, NvtFault, Refused, Sink, put_byte, put_cmd, put_neg,
    put_newline, put_sub,
};
use tn_option::{ECHO, LINEMODE, NAWS, SUPPRESS_GO_AHEAD};

/// The number of waiting items of owned options from which on no piece is read.
const MOST_ITEMS: usize = 64;

/// The answer of a sink whose call allocates.
macro_rules! or_refused {
    ($call:expr) => {
        match $call {
            Ok(()) => Ok(()),
            Err(_) => Err(Refused),
        }
    };
}

/// The options that are owned, the items of theirs that wait, and the spelling of the other items of the last
/// piece.
#[derive(Drop)]
pub struct Sieve {
    pub options: Vec<u8>,
    pub waiting: VecDeque<Item>,
    pub rest: Vec<u8>,
}

impl Sink for Sieve {
    ghost use Rattle.tn_c.specs.parts.OwnOptions.{Sieves, SievesNone};

    ghost takes = { Sieves };

    ghost gives_up = { SievesNone };

    fn run(&mut self, bytes: &[u8]) -> Result<(), Refused> {
        or_refused!(self.rest.extend_from_slice(bytes))
    }

    fn item(&mut self, item: Item) -> Result<(), Refused> {
        if is_own(self.options.as_slice(), &item) {
            return push(&mut self.waiting, item);
        }
        spell(&item, &mut self.rest)
    }
}

/// The options that are owned, and a decoder of all bytes that come once one is owned.
#[derive(Drop)]
pub struct Owned {
    pub sieve: Sieve,
    pub decoder: Decoder,
    /// The item that was taken last.
    pub item: Option<Item>,
    /// Whether a piece came: no further option can be owned.
    pub fed: bool,
    /// Whether the decoder failed.
    pub failed: bool,
}

impl Owned {
    pub(crate) fn new(alloc: Global) -> Owned
        ensures { OwnsNone result }
    {
        Owned {
            sieve: Sieve {
                options: Vec::new(alloc),
                waiting: VecDeque::new(alloc),
                rest: Vec::new(alloc),
            },
            decoder: Decoder::new(alloc),
            item: None,
            fed: false,
            failed: false,
        }
    }

    /// Owns an option, before anything came: its items wait from then on.
    pub(crate) fn own(&mut self, option: u8) -> Code
        ensures { OwnCall option result self.old self.new }
    {
        if is_ends(option) {
            return Code::Reserved;
        }
        if self.fed {
            return Code::TooLate;
        }
        match self.sieve.options.push(option) {
            Ok(()) => Code::Done,
            Err(_) => Code::Memory,
        }
    }

    /// Returns whether no option is owned.
    pub(crate) fn is_none(&self) -> bool
        ensures { IsTrue result ↔ (self.now.sieve.options.items ≡ []) }
    {
        self.sieve.options.is_empty()
    }

    /// Reads a piece: the items of owned options wait, and the others are spelled as the rest.
    pub(crate) fn sift(&mut self, piece: &[u8]) -> Code
        ensures { SiftCall piece.now result self.old self.new }
    {
        if self.sieve.waiting.len() >= MOST_ITEMS {
            return Code::ItemsWait;
        }
        self.fed = true;
        self.sieve.rest.clear();
        match self.decoder.feed_to(piece, &mut self.sieve) {
            Ok(()) => Code::Done,
            Err(NvtFault::Failed) => {
                self.failed = true;
                Code::Failed
            },
            Err(NvtFault::Memory) => {
                self.failed = true;
                Code::Memory
            },
            Err(NvtFault::Refused) => {
                self.failed = true;
                Code::Memory
            },
        }
    }

    /// Takes the first item that waits, if there is one.
    pub(crate) fn take(&mut self, item: &mut ItemSeen)
        ensures { TakeOwnCall item.new self.old self.new }
    {
        self.item = self.sieve.waiting.pop_front();
        *item = seen(&self.item);
    }

    /// Copies the first parameters of the item that was taken last, as many as fit, and sets `count` to the
    /// number of all of them.
    pub(crate) fn parameters(&self, buf: &mut [u8], count: &mut usize)
        ensures { Gives (parameters_of self.now.item) buf.old buf.new count.new }
    {
        *count = give(parameters(&self.item), buf);
    }

    /// Appends an option message of an owned option, whose verb has this byte.
    pub(crate) fn put_word(&self, option: u8, word: u8, out: &mut Vec<u8>) -> Code
        ensures { PutsWord self.now.sieve.options.items option word result out.old out.new }
    {
        if !has_option(self.sieve.options.as_slice(), option) {
            return Code::NotOwned;
        }
        match Verb::from_code(word) {
            Some(verb) => match put_neg(verb, option, out) {
                Ok(()) => Code::Done,
                Err(_) => Code::Memory,
            },
            None => Code::NoCommand,
        }
    }

    /// Appends a subnegotiation of an owned option, of at most 512 parameters.
    pub(crate) fn put_sub(&self, option: u8, params: &[u8], out: &mut Vec<u8>) -> Code
        ensures { PutsSub self.now.sieve.options.items option params.now result out.old out.new }
    {
        if !has_option(self.sieve.options.as_slice(), option) {
            return Code::NotOwned;
        }
        if params.len() > MAX_PARAMETERS {
            return Code::TooLong;
        }
        match put_sub(option, params, out) {
            Ok(()) => Code::Done,
            Err(_) => Code::Memory,
        }
    }
}

// Returns whether the ends negotiate the option themselves.
fn is_ends(option: u8) -> bool
    ensures { result ≡ is_ends option }
{
    option == ECHO || option == SUPPRESS_GO_AHEAD || option == NAWS || option == LINEMODE
}

fn has_option(options: &[u8], option: u8) -> bool
    ensures { result ≡ has_option options.now option }
{
    options.contains(&option)
}

// Returns whether the item is an option message or a subnegotiation of one of these options.
fn is_own(options: &[u8], item: &Item) -> bool
    ensures { result ≡ is_own options.now item.now }
{
    match item {
        Item::Neg(_, option) => has_option(options, *option),
        Item::Sub(option, _) => has_option(options, *option),
        Item::Byte(_) | Item::Newline | Item::Cmd(_) => false,
    }
}

// Appends an item.
fn push(waiting: &mut VecDeque<Item>, item: Item) -> Result<(), Refused>
    ensures ok { OnOk result (waiting.new.items ≡ waiting.old.items ++ item ∷ []) }
    ensures err { OnErr result (waiting.new.items ≡ waiting.old.items) }
{
    or_refused!(waiting.push_back(item))
}

// Appends the spelling of an item. A subnegotiation of more parameters than a decoder gives is refused.
fn spell(item: &Item, out: &mut Vec<u8>) -> Result<(), Refused>
    ensures ok { OnOk result (out.new.items ≡ out.old.items ++ spelling item.now) }
    ensures err { OnErr result (out.new.items ≡ out.old.items) }
{
    match item {
        Item::Byte(byte) => or_refused!(put_byte(*byte, out)),
        Item::Newline => or_refused!(put_newline(out)),
        Item::Cmd(command) => or_refused!(put_cmd(*command, out)),
        Item::Neg(verb, option) => or_refused!(put_neg(*verb, *option, out)),
        Item::Sub(option, params) => {
            if params.len() > MAX_PARAMETERS {
                return Err(Refused);
            }
            or_refused!(put_sub(*option, params.as_slice(), out))
        },
    }
}
