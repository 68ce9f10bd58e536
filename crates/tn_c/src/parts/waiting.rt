//! Items that wait to be taken, of which bytes of data stand in runs.

ghost use Rattle.std.specs.Prelude.{◌≡◌, ◌↔◌, ◌++◌, ◌+◌, ◌<◌, ◌≤◌, [], ◌∷◌, length, map, take, drop};
ghost use Rattle.std.specs.Prelude.{MatchOption, IsTrue, OnOk, OnErr};
ghost use Rattle.tn_nvt.specs.declared.items.Item.TheVariants.{Byte};
ghost use Rattle.tn_c.specs.parts.{Waiting.{StartsWithRun, StartsWithData, Appends, Stays}, Bytes.Copies};
ghost use Rattle.tn_c.specs.declared.parts.waiting.Part.TheVariants as part;

use crate::parts::bytes::{copy_front, drop_front};
use std::alloc::Global;
use std::collections::VecDeque;
use std::marker::Model;
use tn_nvt::{Item, Refused, Sink};

/// A number of bytes of data, at least one, or an item that is no byte of data.
#[derive(Drop)]
pub(crate) enum Part {
    Run(usize),
    One(Item),
}

/// The items that wait. Their bytes of data stand in `bytes`, from `from` on: first the `left` ones of a run
/// that was begun, then those of the runs among the parts.
#[derive(Drop)]
pub(crate) struct Waiting {
    bytes: Vec<u8>,
    from: usize,
    left: usize,
    parts: VecDeque<Part>,
}

impl Model for Waiting {
    ghost use Rattle.std.specs.Prelude.{List};
    ghost use Rattle.tn_nvt.specs.declared.items.Item.{Item};
    ghost use Rattle.tn_c.specs.parts.Waiting.{items_in, IsWhole};

    ghost Value = { List Item };

    ghost view = { λ w. items_in w.from w.left w.bytes.items w.parts.items };

    ghost invariant = { λ w. IsWhole w.from w.left w.bytes.items w.parts.items };
}

impl Sink for Waiting {
    ghost use Rattle.tn_c.specs.parts.Waiting.{AddsItems, AddsNone};

    ghost takes = { AddsItems };

    ghost gives_up = { AddsNone };

    fn run(&mut self, bytes: &[u8]) -> Result<(), Refused> {
        push_run(&mut self.bytes, &mut self.from, &mut self.parts, bytes)
    }

    fn item(&mut self, item: Item) -> Result<(), Refused> {
        match item {
            Item::Byte(byte) => push_run(&mut self.bytes, &mut self.from, &mut self.parts, &[byte]),
            other => push(&mut self.parts, Part::One(other)),
        }
    }
}

impl Waiting {
    /// Makes an empty list.
    pub(crate) fn new(alloc: Global) -> Waiting
        ensures { result ≡ [] }
    {
        Waiting {
            bytes: Vec::new(alloc),
            from: 0,
            left: 0,
            parts: VecDeque::new(alloc),
        }
    }

    /// Takes the first item, if one waits.
    pub(crate) fn next(&mut self) -> Option<Item>
        ensures item { MatchOption result (self.old ≡ []) (λ first. self.old ≡ first ∷ self.new) }
        ensures none { self.old ≡ [] → self.new ≡ [] }
    {
        if self.left > 0 {
            let byte = self.bytes[self.from];
            self.from += 1;
            self.left -= 1;
            return Some(Item::Byte(byte));
        }
        match self.parts.pop_front() {
            None => None,
            Some(Part::One(item)) => Some(item),
            Some(Part::Run(count)) => {
                let byte = self.bytes[self.from];
                self.from += 1;
                self.left = count - 1;
                Some(Item::Byte(byte))
            },
        }
    }

    /// Moves the first bytes of data, as many as stand together and fit, and returns how many: at least one
    /// if data stands first, and a byte fits.
    pub(crate) fn take_run(&mut self, buf: &mut [u8]) -> usize
        ensures run { self.old ≡ map Byte (take result buf.new) ++ self.new }
        ensures rest { drop result buf.new ≡ drop result buf.old }
        ensures some { 0 < length buf.old → StartsWithData self.old → 0 < result }
    {
        if self.left > 0 {
            return move_run(self.bytes.as_slice(), &mut self.from, &mut self.left, buf);
        }
        match first_run(&mut self.parts) {
            None => 0,
            Some(count) => {
                self.left = count;
                move_run(self.bytes.as_slice(), &mut self.from, &mut self.left, buf)
            },
        }
    }
}

// Appends a part.
fn push(parts: &mut VecDeque<Part>, part: Part) -> Result<(), Refused>
    ensures ok { OnOk result (parts.new.items ≡ parts.old.items ++ part ∷ []) }
    ensures err { OnErr result (parts.new.items ≡ parts.old.items) }
{
    match parts.push_back(part) {
        Ok(()) => Ok(()),
        Err(_) => Err(Refused),
    }
}

// Appends bytes of data as a run, and forgets those that were taken.
fn push_run(
    bytes: &mut Vec<u8>,
    from: &mut usize,
    parts: &mut VecDeque<Part>,
    more: &[u8],
) -> Result<(), Refused>
    ensures from { from.new ≡ 0 }
    ensures ok { OnOk result
        (Appends from.old bytes.old.items more.now bytes.new.items parts.old.items parts.new.items) }
    ensures err { OnErr result
        (Stays from.old bytes.old.items bytes.new.items parts.old.items parts.new.items) }
{
    drop_front(bytes, *from);
    *from = 0;
    match parts.reserve(1) {
        Ok(()) => {},
        Err(_) => return Err(Refused),
    }
    match bytes.extend_from_slice(more) {
        Ok(()) => {
            parts.push_back_reserved(Part::Run(more.len()));
            Ok(())
        },
        Err(_) => Err(Refused),
    }
}

fn begins_with_run(parts: &VecDeque<Part>) -> bool
    ensures { IsTrue result ↔ StartsWithRun parts.now.items }
{
    matches!(parts.front(), Some(Part::Run(_)))
}

// Takes the first part, if that is a run.
fn first_run(parts: &mut VecDeque<Part>) -> Option<usize>
    ensures { MatchOption result ((parts.new.items ≡ parts.old.items) × (StartsWithRun parts.old.items → ⊥))
        (λ count. parts.old.items ≡ part.Run count ∷ parts.new.items) }
{
    if !begins_with_run(parts) {
        return None;
    }
    match parts.pop_front() {
        Some(Part::Run(count)) => Some(count),
        _ => None,
    }
}

// Copies the first of the bytes that are left of a run, as many as fit: they are taken.
fn move_run(bytes: &[u8], from: &mut usize, left: &mut usize, buf: &mut [u8]) -> usize
    requires { from.old + left.old ≤ length bytes.now }
    ensures copies { Copies (take left.old (drop from.old bytes.now)) buf.old buf.new result }
    ensures from { from.new ≡ from.old + result }
    ensures left { left.new + result ≡ left.old }
{
    let count = copy_front(&bytes[*from..*from + *left], buf);
    *from += count;
    *left -= count;
    count
}
