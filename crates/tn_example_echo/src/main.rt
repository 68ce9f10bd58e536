//! An echo service without threads: reads what one client sends from standard input, and writes what the
//! server answers to standard output. Each line that the client types comes back.
//!
//! `socat TCP-LISTEN:2323,reuseaddr,fork EXEC:./tn_example_echo` makes it a network service.
#![tactic(auto)]

ghost use Rattle.std.specs.Prelude.{OnOk};
ghost use Rattle.tn_example_echo.specs.Said.{SaysMore, Echoes};

use std::io;
use std::io::{ErrorKind, Read, Write};
use tn_discipline::{Entry, Limit, Settings};
use tn_server::{ServerEnd, ServerFault};

/// The most entries that may wait at one terminal.
const MAX_WAITING: usize = 1_024;

/// More symbols than a terminal's screen holds.
const MAX_SYMBOLS: usize = 65_536;

fn main(rt: HostRuntime) -> io::Result<()> {
    let alloc = rt.alloc();
    let mut out = Vec::new(alloc);
    let started = ServerEnd::start(alloc, Settings::standard(), Limit::standard(), &mut out);
    match started {
        Ok(mut end) => serve(&mut end, &mut out, &mut rt.stdin(), &mut rt.stdout()),
        Err(_) => Err(io::Error::from(ErrorKind::OutOfMemory)),
    }
}

// Writes the opening messages, and then the answers to each piece of the client's stream, to its
// end.
fn serve<R: Read, W: Write>(
    end: &mut ServerEnd,
    out: &mut Vec<u8>,
    reader: &mut R,
    writer: &mut W,
) -> io::Result<()> {
    let mut piece = [0; 512];
    for _ in 0..u64::MAX {
        writer.write_all(out)?;
        writer.flush()?;
        out.clear();
        let count = reader.read(&mut piece)?;
        if count == 0 {
            break;
        }
        if answer(end, &piece[..count], out).is_err() {
            return Err(io::Error::from(ErrorKind::Other));
        }
    }
    Ok(())
}

// Feeds a piece of what the client sends, and answers the entries that wait then.
fn answer(end: &mut ServerEnd, piece: &[u8], out: &mut Vec<u8>) -> Result<(), ServerFault>
    ensures { OnOk result (SaysMore end.old out.old.items out.new.items end.new) }
{
    end.feed(piece, out)?;
    for _ in 0..MAX_WAITING {
        if !answer_next(end, out)? {
            return Ok(());
        }
    }
    Ok(())
}

// Answers the first waiting entry: a line comes back. Returns false if none waits.
fn answer_next(end: &mut ServerEnd, out: &mut Vec<u8>) -> Result<bool, ServerFault>
    ensures says { OnOk result (SaysMore end.old out.old.items out.new.items end.new) }
    ensures echoes { OnOk result (Echoes end.old end.new) }
{
    match end.take(out)? {
        Some(Entry::Text(line)) => {
            end.write(line.as_slice());
            end.pull(MAX_SYMBOLS, out)?;
            Ok(true)
        },
        Some(_) => Ok(true),
        None => Ok(false),
    }
}
