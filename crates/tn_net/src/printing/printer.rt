//! Prints items as they come.

ghost use Rattle.std.specs.Prelude.{◌≡◌, ◌≢◌, ◌<◌, ◌≤◌, ◌+◌, [], ◌∷◌, ◌++◌, length, map, take, IfOk, OnOk};
ghost use Rattle.std.specs.Prelude.{OnErr};
ghost use Rattle.tn_nvt.specs.declared.items.Item.TheVariants.{Byte};
ghost use Rattle.tn_net.specs.printing.{Lines.{decoded, whole_line, IsSingle}, Texts.{data_text, item_text}};
ghost use Rattle.tn_net.specs.printing.Printing.{prefix_text, Takes, EndsData};

use crate::printing::data::push_data;
use crate::printing::items::push_item;
use arrayvec::ArrayVec;
use std::alloc::{AllocError, Global};
use std::marker::Model;
use std::mem;
use tn_nvt::{Item, Refused, Sink};

/// The most data of a line, in bytes.
const MAX_DATA: usize = 64;

/// The text before each line.
#[derive(Clone, Copy, PartialEq, Eq)]
pub enum Prefix {
    Empty,
    /// `< `, for what has come.
    Came,
    /// `> `, for what has gone.
    Gone,
}

fn text_of_prefix(prefix: Prefix) -> &'static [u8]
    ensures { result.now ≡ prefix_text prefix }
{
    match prefix {
        Prefix::Empty => b"",
        Prefix::Came => b"< ",
        Prefix::Gone => b"> ",
    }
}

/// The lines of the items that it takes. Data wait for more of them until a line is full or another item
/// comes.
#[derive(Drop)]
pub struct Lines {
    alloc: Global,
    prefix: Prefix,
    text: Vec<u8>,
    held: ArrayVec<u8, MAX_DATA>,
    // The line that is being made; at other times what is left of it.
    line: Vec<u8>,
}

impl Model for Lines {
    ghost use Rattle.std.specs.Prelude.{◌<◌, length};
    ghost use Rattle.tn_net.specs.printing.Printing.{Printing};

    ghost Value = { Printing };

    ghost view = { λ lines.
        record { prefix = lines.prefix; text = lines.text.items; held = lines.held.items } };

    ghost invariant = { λ lines. length lines.held.items < 64 };
}

impl Lines {
    /// Makes a printer with no lines, which takes no memory. Each line will have this prefix.
    pub fn new(alloc: Global, prefix: Prefix) -> Lines
        ensures prefix { result.prefix ≡ prefix }
        ensures text { result.text ≡ [] }
        ensures held { result.held ≡ [] }
    {
        Lines {
            alloc,
            prefix,
            text: Vec::new(alloc),
            held: ArrayVec::new(),
            line: Vec::new(alloc),
        }
    }

    /// Returns the lines that are complete, each with its line feed.
    pub fn text(&self) -> &[u8]
        ensures { result.now ≡ self.now.text }
    {
        self.text.as_slice()
    }

    /// Takes the lines that are complete, with no copy. None of them are left.
    pub fn take_text(&mut self) -> Vec<u8>
        ensures taken { result.items ≡ self.old.text }
        ensures left { self.new ≡ record self.old { text = [] } }
    {
        mem::replace(&mut self.text, Vec::new(self.alloc))
    }

    /// Ends the line of data that waits for more, if there is one.
    ///
    /// # Errors
    ///
    /// - `AllocError`: there is no memory for the line; nothing has changed.
    pub fn end_data(&mut self) -> Result<(), AllocError>
        ensures ok { OnOk result (EndsData self.old self.new) }
        ensures err { OnErr result (self.new ≡ self.old) }
        ensures needed { OnErr result (self.old.held ≢ []) }
    {
        if self.held.is_empty() {
            return Ok(());
        }
        append_data(
            self.prefix,
            self.held.as_slice(),
            &[],
            &mut self.line,
            &mut self.text,
        )?;
        self.held.clear();
        Ok(())
    }

    // Takes the data that fill the line, or all of them, and returns how many.
    fn take_data(&mut self, bytes: &[u8]) -> Result<usize, AllocError>
        requires { 0 < length bytes.now }
        ensures some { IfOk result (λ count. 0 < count) }
        ensures within { IfOk result (λ count. count ≤ length bytes.now) }
        ensures takes { IfOk result (λ count. Takes self.old (map Byte (take count bytes.now)) self.new) }
        ensures err { OnErr result (self.new ≡ self.old) }
        ensures fills { OnErr result (64 ≤ length self.old.held + length bytes.now) }
    {
        let room = MAX_DATA - self.held.len();
        if bytes.len() < room {
            let _kept = self.held.try_extend_from_slice(bytes);
            return Ok(bytes.len());
        }
        let front = &bytes[..room];
        append_data(
            self.prefix,
            self.held.as_slice(),
            front,
            &mut self.line,
            &mut self.text,
        )?;
        self.held.clear();
        Ok(room)
    }

    // Takes one byte of data.
    fn take_byte(&mut self, byte: u8) -> Result<(), AllocError>
        ensures ok { OnOk result (Takes self.old (Byte byte ∷ []) self.new) }
        ensures err { OnErr result (self.new ≡ self.old) }
        ensures fills { OnErr result (64 ≤ length self.old.held + 1) }
    {
        self.take_data(&[byte])?;
        Ok(())
    }

    // Ends the line of data, and takes an item that is none.
    fn say(&mut self, item: &Item) -> Result<(), AllocError>
        requires { IsSingle item.now }
        ensures ok { OnOk result (Takes self.old (item.now ∷ []) self.new) }
        ensures err { OnErr result (self.new ≡ self.old) }
    {
        append_item(
            self.alloc,
            self.prefix,
            self.held.as_slice(),
            item,
            &mut self.line,
            &mut self.text,
        )?;
        self.held.clear();
        Ok(())
    }
}

impl Sink for Lines {
    ghost use Rattle.tn_net.specs.printing.Printing.{Takes, TakesSome};

    ghost takes = { Takes };

    ghost gives_up = { TakesSome };

    fn run(&mut self, bytes: &[u8]) -> Result<(), Refused> {
        let mut taken = 0;
        while taken < bytes.len() {
            match self.take_data(&bytes[taken..]) {
                Ok(count) => taken += count,
                Err(_) => return Err(Refused),
            }
        }
        Ok(())
    }

    fn item(&mut self, item: Item) -> Result<(), Refused> {
        match &item {
            Item::Byte(byte) => match self.take_byte(*byte) {
                Ok(()) => Ok(()),
                Err(_) => Err(Refused),
            },
            _ => match self.say(&item) {
                Ok(()) => Ok(()),
                Err(_) => Err(Refused),
            },
        }
    }
}

// Appends a line of data to the text, which is in two parts.
fn append_data(
    prefix: Prefix,
    first: &[u8],
    second: &[u8],
    line: &mut Vec<u8>,
    text: &mut Vec<u8>,
) -> Result<(), AllocError>
    ensures ok { OnOk result (text.new.items ≡
        text.old.items ++ whole_line (prefix_text prefix) (data_text (first.now ++ second.now))) }
    ensures err { OnErr result (text.new.items ≡ text.old.items) }
{
    line.clear();
    push_data_line(prefix, first, second, line)?;
    text.extend_from_slice(line.as_slice())
}

// Appends the line of held data to the text, if there are some, and the line of an item.
fn append_item(
    alloc: Global,
    prefix: Prefix,
    held: &[u8],
    item: &Item,
    line: &mut Vec<u8>,
    text: &mut Vec<u8>,
) -> Result<(), AllocError>
    requires { length held.now < 64 }
    ensures ok { OnOk result (text.new.items ≡ text.old.items
        ++ (decoded (prefix_text prefix) (map Byte held.now)
        ++ whole_line (prefix_text prefix) (item_text item.now))) }
    ensures err { OnErr result (text.new.items ≡ text.old.items) }
{
    line.clear();
    push_held(prefix, held, line)?;
    push_item_line(alloc, prefix, item, line)?;
    text.extend_from_slice(line.as_slice())
}

fn push_data_line(
    prefix: Prefix,
    first: &[u8],
    second: &[u8],
    line: &mut Vec<u8>,
) -> Result<(), AllocError>
    ensures { OnOk result (line.new.items ≡
        line.old.items ++ whole_line (prefix_text prefix) (data_text (first.now ++ second.now))) }
{
    line.extend_from_slice(text_of_prefix(prefix))?;
    push_data(first, second, line)?;
    line.extend_from_slice(b"\n")
}

fn push_held(prefix: Prefix, held: &[u8], line: &mut Vec<u8>) -> Result<(), AllocError>
    requires { length held.now < 64 }
    ensures { OnOk result
        (line.new.items ≡ line.old.items ++ decoded (prefix_text prefix) (map Byte held.now)) }
{
    if held.is_empty() {
        return Ok(());
    }
    push_data_line(prefix, held, &[], line)
}

fn push_item_line(
    alloc: Global,
    prefix: Prefix,
    item: &Item,
    line: &mut Vec<u8>,
) -> Result<(), AllocError>
    ensures { OnOk result
        (line.new.items ≡ line.old.items ++ whole_line (prefix_text prefix) (item_text item.now)) }
{
    line.extend_from_slice(text_of_prefix(prefix))?;
    push_item(alloc, item, line)?;
    line.extend_from_slice(b"\n")
}
