//! A decoder, and the items that wait to be taken.

ghost use Rattle.std.specs.Prelude.{◌≡◌};
ghost use Rattle.tn_c.specs.parts.{Bytes.Gives, DecoderCalls.{FeedCall, TakeCall, TakeRunCall, IsFresh}};
ghost use Rattle.tn_c.specs.parts.{Faults.nvt_answer, Items.{item_seen, parameters_of}};

use crate::parts::bytes::give;
use crate::parts::codes::Code;
use crate::parts::waiting::Waiting;
use std::alloc::Global;
use std::marker::Model;
use tn_nvt::{Decoder, Item, NvtFault};

/// An item as C sees it: `tn_item`.
#[repr(C)]
#[derive(Clone, Copy, Debug, PartialEq, Eq)]
pub struct ItemSeen {
    /// The kind: 0 for none, 1 for a byte, 2 for a new line, 3 for a command, 4 for an option
    /// message, 5 for a subnegotiation.
    pub kind: u32,
    /// The byte of data, of a command, or of the verb of an option message.
    pub code: u8,
    /// The option of an option message or of a subnegotiation.
    pub option: u8,
    /// The number of parameters of a subnegotiation.
    pub length: usize,
}

// Returns the code of the answer to a feed.
fn code_of(answer: Result<(), NvtFault>) -> Code
    ensures { result ≡ nvt_answer answer }
{
    match answer {
        Ok(()) => Code::Done,
        Err(NvtFault::Failed) => Code::Failed,
        Err(NvtFault::Memory) => Code::Memory,
        Err(NvtFault::Refused) => Code::Memory,
    }
}

/// Returns an item as C sees it.
pub(crate) fn seen(item: &Option<Item>) -> ItemSeen
    ensures { result ≡ item_seen item.now }
{
    let (kind, code, option, length) = match item {
        None => (0, 0, 0, 0),
        Some(Item::Byte(byte)) => (1, *byte, 0, 0),
        Some(Item::Newline) => (2, 0, 0, 0),
        Some(Item::Cmd(command)) => (3, command.code(), 0, 0),
        Some(Item::Neg(verb, option)) => (4, verb.code(), *option, 0),
        Some(Item::Sub(option, params)) => (5, 0, *option, params.len()),
    };
    ItemSeen {
        kind,
        code,
        option,
        length,
    }
}

/// Returns the parameters of an item that is a subnegotiation.
pub(crate) fn parameters(item: &Option<Item>) -> &[u8]
    ensures { result.now ≡ parameters_of item.now }
{
    match item {
        Some(Item::Sub(_, params)) => params.as_slice(),
        _ => &[],
    }
}

/// A decoder, the items that wait to be taken, and the item that was taken last.
#[derive(Drop)]
pub struct HeldDecoder {
    decoder: Decoder,
    waiting: Waiting,
    item: Option<Item>,
}

impl Model for HeldDecoder {
    ghost use Rattle.tn_c.specs.parts.Items.{ReadStream};

    ghost Value = { ReadStream };

    ghost view = { λ held. record {
      decoder = held.decoder;
      waiting = held.waiting;
      item = held.item;
    } };
}

impl HeldDecoder {
    /// Makes a decoder that has read nothing.
    pub fn start(alloc: Global) -> HeldDecoder
        ensures { IsFresh result }
    {
        HeldDecoder {
            decoder: Decoder::new(alloc),
            waiting: Waiting::new(alloc),
            item: None,
        }
    }

    /// Reads a piece, cut anywhere: the items that it completes wait after those that wait already.
    pub fn feed(&mut self, piece: &[u8]) -> Code
        ensures { FeedCall piece.now result self.old self.new }
    {
        code_of(self.decoder.feed_to(piece, &mut self.waiting))
    }

    /// Takes the first item that waits, if there is one.
    pub fn take(&mut self, item: &mut ItemSeen)
        ensures { TakeCall item.new self.old self.new }
    {
        self.item = self.waiting.next();
        *item = seen(&self.item);
    }

    /// Moves the first bytes of data that wait, as many as stand together and fit, and sets `count`
    /// to their number.
    pub fn take_run(&mut self, buf: &mut [u8], count: &mut usize)
        ensures { TakeRunCall buf.old buf.new count.new self.old self.new }
    {
        *count = self.waiting.take_run(buf);
    }

    /// Copies the first parameters of the item that was taken last, as many as fit, and sets
    /// `count` to the number of all of them.
    pub fn parameters(&self, buf: &mut [u8], count: &mut usize)
        ensures { Gives (parameters_of self.now.item) buf.old buf.new count.new }
    {
        *count = give(parameters(&self.item), buf);
    }
}
