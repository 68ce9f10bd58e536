//! Scripts: commands separated by `; `, each of words separated by one space, and the page of their results.

use std::alloc::Global;
use std::fmt::Debug;
use tn_codes::{Func, Mask};
use tn_discipline::{Entry, Sig};

/// The results of a script as text. Text that finds no memory is lost.
#[derive(Drop)]
pub struct Page {
    pub alloc: Global,
    text: String,
}

impl Page {
    pub fn new(alloc: Global) -> Page {
        Page {
            alloc,
            text: String::new(alloc),
        }
    }

    /// Begins a result with this word.
    pub fn begin(&mut self, word: &str) {
        if !self.text.is_empty() {
            self.put("; ");
        }
        self.put(word);
    }

    pub fn put(&mut self, text: &str) {
        let _refused = self.text.push_str(text);
    }

    /// A result of its own, as its type prints it.
    pub fn say<T: Debug>(&mut self, value: &T) {
        self.begin("");
        let _refused = write!(self.text, "{value:?}");
    }

    /// Prints the bytes of a list, if there are any, and empties the list.
    pub fn tell(&mut self, word: &str, bytes: &mut Vec<u8>) {
        if !bytes.is_empty() {
            self.bytes(word, bytes);
        }
        bytes.clear();
    }

    /// Prints bytes as pairs of digits, and a run of more than eight equal bytes once, with its length.
    pub fn bytes(&mut self, word: &str, bytes: &[u8]) {
        let mut last = 0u8;
        let mut count = 0usize;
        self.begin(word);
        if !bytes.is_empty() {
            self.put(" ");
        }
        for byte in bytes {
            if *byte != last {
                self.equal_bytes(last, count);
                count = 0;
            }
            last = *byte;
            count = count.saturating_add(1);
        }
        self.equal_bytes(last, count);
    }

    fn equal_bytes(&mut self, byte: u8, count: usize) {
        if count > 8 {
            let _refused = write!(self.text, "{count}x{byte:02x}.");
            return;
        }
        for _ in 0..count {
            let _refused = write!(self.text, "{byte:02x}");
        }
    }

    pub fn entry(&mut self, entry: Option<&Entry>) {
        match entry {
            None => self.begin("none"),
            Some(Entry::Eof) => self.begin("eof"),
            Some(Entry::Signal(sig)) => self.begin(name_of(*sig)),
            Some(Entry::Text(text)) => self.bytes("text", text.as_slice()),
        }
    }

    pub fn text(&self) -> &str {
        self.text.as_str()
    }

    pub fn is(&self, wanted: &str) -> bool {
        self.text.as_str() == wanted
    }
}

fn name_of(sig: Sig) -> &'static str {
    match sig {
        Sig::Int => "int",
        Sig::Quit => "quit",
        Sig::Tstp => "tstp",
    }
}

/// A command: its verb, and the words after it.
#[derive(Clone, Copy)]
pub struct Words<'a> {
    pub verb: &'a str,
    pub first: &'a str,
    pub second: &'a str,
}

impl<'a> Words<'a> {
    fn new(command: &'a str) -> Words<'a> {
        let (verb, rest) = command.split_once(' ').unwrap_or((command, ""));
        let (first, second) = rest.split_once(' ').unwrap_or((rest, ""));
        Words {
            verb,
            first,
            second,
        }
    }

    /// The first word as bytes.
    pub fn bytes(self, alloc: Global) -> Vec<u8> {
        bytes_of(alloc, self.first)
    }

    /// The first word as a number.
    pub fn number(self) -> usize {
        number_of(self.first)
    }

    /// The first word as a function.
    pub fn func(self) -> Func {
        match self.first {
            "ip" => Func::Ip,
            "eof" => Func::Eof,
            "ec" => Func::Ec,
            "el" => Func::El,
            "ao" => Func::Ao,
            "forw1" => Func::Forw1,
            _ => Func::Forw2,
        }
    }

    /// The second word as a character, if it is one.
    pub fn value(self, alloc: Global) -> Option<u8> {
        bytes_of(alloc, self.second).first().copied()
    }
}

pub fn number_of(word: &str) -> usize {
    word.parse::<usize>().unwrap_or(0)
}

pub fn byte_of(word: &str) -> u8 {
    word.parse::<u8>().unwrap_or(0)
}

pub fn size_of(word: &str) -> u16 {
    word.parse::<u16>().unwrap_or(0)
}

/// Bytes as a page writes them: `0a0d`, and `300x61.0d` for 300 bytes 61 and one byte 0d.
pub fn bytes_of(alloc: Global, word: &str) -> Vec<u8> {
    let mut bytes = Vec::new(alloc);
    for part in word.split('.') {
        let (count, digits) = part.split_once('x').unwrap_or(("1", part));
        let some = hex::decode(alloc, digits).unwrap_or(Vec::new(alloc));
        for _ in 0..number_of(count) {
            let _refused = bytes.extend_from_slice(&some);
        }
    }
    bytes
}

/// The mask whose first octets are these.
pub fn mask(octets: &[u8]) -> Mask {
    let mut mask = [0; 32];
    for (slot, octet) in mask.iter_mut().zip(octets) {
        *slot = *octet;
    }
    Mask(mask)
}

/// Something that runs commands.
pub trait Stage: Drop + Sized {
    fn open(alloc: Global) -> Option<Self>;

    /// Runs a command. Returns true if there is no memory for it; it has done nothing then.
    fn step(&mut self, words: Words<'_>, page: &mut Page) -> bool;
}

fn play<S: Stage>(alloc: Global, script: &str, page: &mut Page) {
    let Some(mut stage) = S::open(alloc) else {
        return;
    };
    for command in script.split("; ") {
        let words = Words::new(command);
        if stage.step(words, page) {
            let _refused = stage.step(words, page);
        }
    }
}

/// Returns the page of the script, if it differs from the wanted text. One allocation may fail
/// anywhere: a command that it fails is tried again, and so is the whole script if text or an end
/// is lost.
pub fn unlike<S: Stage>(alloc: Global, script: &str, wanted: &str) -> Option<Page> {
    let mut page = Page::new(alloc);
    play::<S>(alloc, script, &mut page);
    if page.is(wanted) {
        return None;
    }
    let mut page = Page::new(alloc);
    play::<S>(alloc, script, &mut page);
    if page.is(wanted) {
        return None;
    }
    Some(page)
}
