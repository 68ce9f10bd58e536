//! A line editor: reads keys from standard input as they are typed at one terminal, and prints the
//! lines that a program at that terminal would read.
//!
//! `printf 'helo\177lo\r'` piped into it prints `hello`: the user typed `helo`, ERASE, `lo`,
//! return.
#![tactic(auto)]

ghost use Rattle.std.specs.{Prelude.{◌≡◌, IfOk, OnOk}, Io.KnownBytes.Appends};
ghost use Rattle.tn_discipline.specs.Canon.{typed_entries};
ghost use Rattle.tn_example_line.specs.Typed.{standard, shown, TypesKey};

use std::alloc::{AllocError, Global};
use std::io;
use std::io::{Read, Write};
use tn_discipline::{Effect, Entry, Limit, Line, Settings, Sig};

fn main(rt: HostRuntime) -> io::Result<()> {
    let alloc = rt.alloc();
    let mut keys = Vec::new(alloc);
    rt.stdin().read_to_end(&mut keys)?;
    let mut screen = rt.stdout();
    for entry in &entries_of_keys(alloc, &keys)? {
        show(entry, &mut screen)?;
    }
    Ok(())
}

// Returns the entries that a terminal with standard settings gives for these keys.
fn entries_of_keys(alloc: Global, keys: &[u8]) -> Result<Vec<Entry>, AllocError>
    ensures { IfOk result (λ entries. entries.items ≡ typed_entries standard keys.now) }
{
    let mut line = Line::new(alloc, Limit::standard())?;
    let mut entries = Vec::new(alloc);
    for key in keys {
        type_key(&mut line, *key, &mut entries)?;
    }
    Ok(entries)
}

fn type_key(line: &mut Line, key: u8, entries: &mut Vec<Entry>) -> Result<(), AllocError>
    ensures { OnOk result (TypesKey key line.old entries.old.items line.new entries.new.items) }
{
    if let Effect::Gives(entry) = line.key(&Settings::standard(), key)? {
        entries.push(entry)?;
        return Ok(());
    }
    Ok(())
}

fn show<W: Write>(entry: &Entry, screen: &mut W) -> io::Result<()>
    ensures { OnOk result (Appends (W.contents screen.old) (W.contents screen.new) (shown entry.now)) }
{
    screen.write_all(match entry {
        Entry::Text(line) => line.as_slice(),
        Entry::Eof => b"(end of file)\n",
        Entry::Signal(Sig::Int) => b"(interrupt)\n",
        Entry::Signal(Sig::Quit) => b"(quit)\n",
        Entry::Signal(Sig::Tstp) => b"(stop)\n",
    })
}
