//! The symbols that wait to be pulled. They are kept as bytes, so that runs of them go in and out at once.

ghost use Rattle.std.specs.Prelude.{◌≡◌, ◌+◌, ◌<◌, ◌≤◌, false, [], ◌++◌, ◌∷◌, length, map, take, drop, min};
ghost use Rattle.std.specs.Prelude.{get_or, replicate, slice_get, IfOk, vec_len, vec_capacity};
ghost use Rattle.circular_buffer.specs.Buffer.{buffer};
ghost use Rattle.tn_pty.specs.{Terminal.{queue_with, queue_symbols}, Runs.{marked_symbols, feeds}};
ghost use Rattle.tn_pty.specs.Runs.{shown_byte, ends_run, leading_run, leading_bytes, marks_after};

use circular_buffer::HeapCircularBuffer;
use memchr::{memchr, memchr3};
use std::alloc::{AllocError, Global};
use std::marker::Model;
use tn_discipline::Symbol;

/// The most symbols that the output queue holds.
pub const QUEUE_SYMBOLS: usize = 4096;

/// A queue of symbols: a byte for each, and a mark for each line feed among them, which is set if
/// it is a new line.
#[derive(Drop)]
pub(crate) struct Queue {
    bytes: HeapCircularBuffer<u8>,
    marks: HeapCircularBuffer<bool>,
}

impl Model for Queue {
    ghost use Rattle.std.specs.Prelude.{◌≡◌, List, length};
    ghost use Rattle.tn_discipline.specs.declared.echo.Symbol.{Symbol};
    ghost use Rattle.tn_pty.specs.{Terminal.queue_symbols, Runs.{feeds, marked_symbols}};

    ghost Value = { List Symbol };

    ghost view = { λ q. marked_symbols q.bytes.items q.marks.items };

    ghost invariant = { λ q. (q.bytes.capacity ≡ queue_symbols)
        × (q.marks.capacity ≡ queue_symbols) × (length q.marks.items ≡ feeds q.bytes.items) };
}

impl Queue {
    /// Makes an empty queue, with room for all that it will ever hold.
    pub(crate) fn new(alloc: Global) -> Result<Queue, AllocError>
        ensures { IfOk result (λ queue. queue ≡ []) }
    {
        Ok(Queue {
            bytes: HeapCircularBuffer::with_capacity(alloc, QUEUE_SYMBOLS)?,
            marks: HeapCircularBuffer::with_capacity(alloc, QUEUE_SYMBOLS)?,
        })
    }

    /// Returns the number of symbols that wait.
    pub(crate) fn len(&self) -> usize
        ensures len { result ≡ length self.now }
        ensures within { result ≤ queue_symbols }
    {
        self.bytes.len()
    }

    /// Appends a symbol, if it fits.
    pub(crate) fn push(&mut self, symbol: Symbol)
        ensures { self.new ≡ queue_with self.old (symbol ∷ []) }
    {
        match symbol {
            Symbol::Newline => self.push_byte(b'\n', true),
            Symbol::Byte(byte) => self.push_byte(byte, false),
        }
    }

    // Appends a byte, if it fits. A line feed is a new line if `newline` is set.
    fn push_byte(&mut self, byte: u8, newline: bool)
        ensures { self.new ≡ queue_with self.old (shown_byte newline byte ∷ []) }
    {
        if self.bytes.len() >= QUEUE_SYMBOLS {
            return;
        }
        let _room = self.bytes.try_push_back(byte);
        if byte == b'\n' {
            let _room = self.marks.try_push_back(newline);
        }
    }

    /// Appends bytes, for which there is room. Each line feed is a new line if `newlines` is set.
    pub(crate) fn push_run(&mut self, bytes: &[u8], newlines: bool)
        requires { length self.old + length bytes.now ≤ queue_symbols }
        ensures { self.new ≡ self.old ++ map (shown_byte newlines) bytes.now }
    {
        let _count = self.bytes.fill_from_slice(bytes);
        push_marks(&mut self.marks, bytes, newlines);
    }

    /// Takes the first symbol.
    pub(crate) fn pop(&mut self) -> Option<Symbol>
        ensures first { result ≡ slice_get self.old 0 }
        ensures rest { self.new ≡ drop 1 self.old }
    {
        match self.bytes.pop_front() {
            Some(byte) => Some(take_symbol(byte, &mut self.marks)),
            None => None,
        }
    }

    /// Moves the first symbols into a vector that has room.
    pub(crate) fn pull(&mut self, count: usize, out: &mut Vec<Symbol>)
        requires enough { count ≤ length self.old }
        requires room { vec_len out.old + count ≤ vec_capacity out.old }
        ensures out { out.new.items ≡ out.old.items ++ take count self.old }
        ensures queue { self.new ≡ drop count self.old }
    {
        let (front, back) = self.bytes.as_slices();
        let near = &front[..front.len().min(count)];
        let far = &back[..count - near.len()];
        push_symbols(near, &mut self.marks, out);
        push_symbols(far, &mut self.marks, out);
        let len = self.bytes.len();
        self.bytes.truncate_front(len - count);
    }

    /// Moves the leading symbols that are bytes into a vector that has room, at most `max` of them, up to a
    /// line feed or one of the two bytes `ends`, and returns how many they are.
    pub(crate) fn pull_run(&mut self, max: usize, ends: (u8, u8), out: &mut Vec<u8>) -> usize
        requires { vec_len out.old + min max (length self.old) ≤ vec_capacity out.old }
        ensures count { result ≡ min max (length (leading_run ends.0 ends.1 self.old)) }
        ensures items { out.new.items ≡
            out.old.items ++ take result (leading_run ends.0 ends.1 self.old) }
        ensures len { vec_len out.new ≡ vec_len out.old + result }
        ensures capacity { vec_capacity out.old ≤ vec_capacity out.new }
        ensures queue { self.new ≡ drop result self.old }
    {
        let (front, back) = self.bytes.as_slices();
        let count = copy_run(front, back, max, ends, out);
        if count == 0 {
            return 0;
        }
        let len = self.bytes.len();
        self.bytes.truncate_front(len - count);
        count
    }
}

// Appends a mark for each line feed among the bytes, for which there is room.
fn push_marks(marks: &mut HeapCircularBuffer<bool>, bytes: &[u8], newlines: bool)
    requires { length marks.old.items + feeds bytes.now ≤ marks.old.capacity }
    ensures { let more = replicate (feeds bytes.now) newlines in
        marks.new ≡ buffer (marks.old.items ++ more) marks.old.capacity }
{
    let mut at = 0;
    while at < bytes.len() {
        at += push_mark(marks, &bytes[at..], newlines);
    }
}

// Appends the mark of the first byte if that is a line feed, else passes over the bytes before the
// next one, and returns how many bytes were done.
fn push_mark(marks: &mut HeapCircularBuffer<bool>, bytes: &[u8], newlines: bool) -> usize
    requires some { 0 < length bytes.now }
    requires room { length marks.old.items + feeds bytes.now ≤ marks.old.capacity }
    ensures some { 0 < result }
    ensures within { result ≤ length bytes.now }
    ensures marks { let more = replicate (feeds (take result bytes.now)) newlines in
        marks.new ≡ buffer (marks.old.items ++ more) marks.old.capacity }
{
    if bytes[0] == b'\n' {
        let _room = marks.try_push_back(newlines);
        return 1;
    }
    match memchr(b'\n', bytes) {
        Some(count) => count,
        None => bytes.len(),
    }
}

// Returns the symbol that a byte stands for. A line feed takes the first mark.
#[inline(always)]
fn take_symbol(byte: u8, marks: &mut HeapCircularBuffer<bool>) -> Symbol
    ensures symbol { result ≡ shown_byte (get_or marks.old.items 0 false) byte }
    ensures marks { marks.new ≡ buffer (marks_after byte marks.old.items) marks.old.capacity }
{
    if byte != b'\n' {
        return Symbol::Byte(byte);
    }
    match marks.pop_front() {
        Some(true) => Symbol::Newline,
        _ => Symbol::Byte(byte),
    }
}

// Appends the symbols that bytes stand for to a vector that has room. Each line feed takes the first mark.
fn push_symbols(bytes: &[u8], marks: &mut HeapCircularBuffer<bool>, out: &mut Vec<Symbol>)
    requires { vec_len out.old + length bytes.now ≤ vec_capacity out.old }
    ensures items { out.new.items ≡ out.old.items ++ marked_symbols bytes.now marks.old.items }
    ensures marks { marks.new ≡ buffer (drop (feeds bytes.now) marks.old.items) marks.old.capacity }
    ensures len { vec_len out.new ≡ vec_len out.old + length bytes.now }
    ensures capacity { vec_capacity out.new ≡ vec_capacity out.old }
{
    for byte in bytes {
        out.push_reserved(take_symbol(*byte, marks));
    }
}

// Appends the leading run of two slices that follow one another, and returns its length.
fn copy_run(front: &[u8], back: &[u8], max: usize, ends: (u8, u8), out: &mut Vec<u8>) -> usize
    requires { vec_len out.old + min max (length front.now + length back.now)
        ≤ vec_capacity out.old }
    ensures count { result ≡
        min max (length (leading_bytes ends.0 ends.1 (front.now ++ back.now))) }
    ensures items { out.new.items ≡
        out.old.items ++ take result (leading_bytes ends.0 ends.1 (front.now ++ back.now)) }
    ensures len { vec_len out.new ≡ vec_len out.old + result }
    ensures capacity { vec_capacity out.old ≤ vec_capacity out.new }
{
    let near = &front[..front.len().min(max)];
    let count = copy_front(near, ends, out);
    if count < near.len() {
        return count;
    }
    let far = &back[..back.len().min(max - count)];
    count + copy_front(far, ends, out)
}

// Appends the leading run of the bytes, and returns its length.
fn copy_front(bytes: &[u8], ends: (u8, u8), out: &mut Vec<u8>) -> usize
    requires { vec_len out.old + length bytes.now ≤ vec_capacity out.old }
    ensures count { result ≡ length (leading_bytes ends.0 ends.1 bytes.now) }
    ensures items { out.new.items ≡ out.old.items ++ leading_bytes ends.0 ends.1 bytes.now }
    ensures len { vec_len out.new ≡ vec_len out.old + result }
    ensures capacity { vec_capacity out.old ≤ vec_capacity out.new }
{
    let count = run_len(bytes, ends);
    if count > 0 {
        let _room = out.extend_from_slice(&bytes[..count]);
    }
    count
}

// Returns the length of the leading run of the bytes.
fn run_len(bytes: &[u8], ends: (u8, u8)) -> usize
    ensures within { result ≤ length bytes.now }
    ensures run { leading_bytes ends.0 ends.1 bytes.now ≡ take result bytes.now }
{
    // One byte that ends runs often follows another.
    if bytes.len() > 0 && ends_run(bytes[0], ends) {
        return 0;
    }
    match memchr3(b'\n', ends.0, ends.1, bytes) {
        Some(count) => count,
        None => bytes.len(),
    }
}

fn ends_run(byte: u8, ends: (u8, u8)) -> bool
    ensures { result ≡ ends_run ends.0 ends.1 byte }
{
    byte == b'\n' || byte == ends.0 || byte == ends.1
}
