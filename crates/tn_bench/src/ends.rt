//! Streams into the server end and into the client end.

use crate::decoding::MIX;
use crate::measure::{Bench, Done, Stuck, Workload, repeated};
use std::alloc::Global;
use std::io::Write;
use std::time::Clock;
use tn_client::{ClientEnd, ClientFault};
use tn_discipline::{Limit, Settings};
use tn_server::{Editing, ServerEnd, ServerFault};

/// The number of bytes of a piece.
const PIECE: usize = 4_096;

/// A line of 62 characters and its end, as a client that edits sends it.
const EDITED: &[u8; 64] = b"the quick brown fox jumps over the lazy dog, and all is as was\r\n";

/// The lines above as the keys of a client that does not edit.
pub(crate) const KEYS: &[u8; 64] =
    b"the quick brown fox jumps over the lazy dog, and all is as was\r\0";

/// A line of a job's output.
const OUTPUT: &[u8; 64] = b"the quick brown fox jumps over the lazy dog, and all is as was.\n";

/// A client's answers to the opening messages: LINEMODE, its size, both SUPPRESS-GO-AHEAD, ECHO.
const ANSWERS: &[u8; 24] =
    b"\xff\xfb\x22\xff\xfb\x1f\xff\xfa\x1f\0\x50\0\x18\xff\xf0\xff\xfd\x03\xff\xfb\x03\xff\xfd\x01";

/// The acknowledgement of a MODE with EDIT and TRAPSIG, and DONT ECHO.
const EDITS: &[u8; 10] = b"\xff\xfa\x22\x01\x07\xff\xf0\xff\xfe\x01";

impl From<ServerFault> for Stuck {
    fn from(_fault: ServerFault) -> Stuck {
        Stuck
    }
}

impl From<ClientFault> for Stuck {
    fn from(_fault: ClientFault) -> Stuck {
        Stuck
    }
}

/// A client is fed what a server writes.
#[derive(Drop)]
struct Showing {
    end: ClientEnd,
    stream: Vec<u8>,
    out: Vec<u8>,
    screen: Vec<u8>,
}

impl Workload for Showing {
    fn once(&mut self) -> Result<Done, Stuck> {
        let mut done = Done::nothing();
        for piece in self.stream.as_slice().chunks(PIECE) {
            self.end.feed(piece, &mut self.out, &mut self.screen)?;
            done = done.and(Done {
                bytes: piece.len() as u64,
                wholes: self.screen.len() as u64,
            });
            self.screen.clear();
            self.out.clear();
        }
        Ok(done)
    }
}

/// A client is fed what a server writes, and what it has to send and to show is read to a buffer, as a caller
/// of the library for C reads it.
#[derive(Drop)]
struct Reading {
    end: ClientEnd,
    stream: Vec<u8>,
    out: Vec<u8>,
    screen: Vec<u8>,
    buf: Vec<u8>,
}

// Copies the bytes to the front of the buffer, as many as fit, and returns how many.
fn copy_front(bytes: &[u8], buf: &mut [u8]) -> usize {
    let count = bytes.len().min(buf.len());
    buf[..count].copy_from_slice(&bytes[..count]);
    count
}

// Copies the bytes to the front of the buffer, as many as fit, and gives them up.
fn read_out(bytes: &mut Vec<u8>, buf: &mut [u8]) -> u64 {
    let count = copy_front(bytes.as_slice(), buf);
    bytes.clear();
    count as u64
}

impl Workload for Reading {
    fn once(&mut self) -> Result<Done, Stuck> {
        let mut done = Done::nothing();
        for piece in self.stream.as_slice().chunks(PIECE) {
            self.end.feed(piece, &mut self.out, &mut self.screen)?;
            read_out(&mut self.out, self.buf.as_mut_slice());
            let shown = read_out(&mut self.screen, self.buf.as_mut_slice());
            done = done.and(Done {
                bytes: piece.len() as u64,
                wholes: shown,
            });
        }
        Ok(done)
    }
}

/// A server's job writes output, and what is to be sent of it is read to a buffer.
#[derive(Drop)]
struct Sending {
    end: ServerEnd,
    stream: Vec<u8>,
    out: Vec<u8>,
    buf: Vec<u8>,
}

impl Workload for Sending {
    fn once(&mut self) -> Result<Done, Stuck> {
        let mut done = Done::nothing();
        for piece in self.stream.as_slice().chunks(PIECE) {
            let written = self.end.write(piece);
            self.end.pull(PIECE, &mut self.out)?;
            let sent = read_out(&mut self.out, self.buf.as_mut_slice());
            done = done.and(Done {
                bytes: written as u64,
                wholes: sent,
            });
        }
        Ok(done)
    }
}

/// A server is fed what a client sends, and its job takes each line.
#[derive(Drop)]
pub(crate) struct Serving {
    end: ServerEnd,
    stream: Vec<u8>,
    out: Vec<u8>,
}

// Takes and counts all waiting lines.
fn take_all(end: &mut ServerEnd, out: &mut Vec<u8>) -> Result<u64, Stuck> {
    let mut taken: u64 = 0;
    for _ in 0..PIECE {
        if end.take(out)?.is_none() {
            break;
        }
        taken = taken.saturating_add(1);
    }
    Ok(taken)
}

impl Workload for Serving {
    fn once(&mut self) -> Result<Done, Stuck> {
        let mut done = Done::nothing();
        for piece in self.stream.as_slice().chunks(PIECE) {
            self.end.feed(piece, &mut self.out)?;
            let taken = take_all(&mut self.end, &mut self.out)?;
            self.end.pull(usize::MAX, &mut self.out)?;
            self.out.clear();
            done = done.and(Done {
                bytes: piece.len() as u64,
                wholes: taken,
            });
        }
        Ok(done)
    }
}

// Lets the client agree to everything, and edit if that is asked for.
fn agree(end: &mut ServerEnd, editing: Editing, out: &mut Vec<u8>) -> Result<(), Stuck> {
    end.feed(ANSWERS, out)?;
    if let Editing::Local = editing {
        end.wish(editing, out)?;
        end.feed(EDITS, out)?;
    }
    Ok(())
}

/// Makes a server whose client sends these bytes this number of times.
pub(crate) fn make_server(
    alloc: Global,
    bytes: &[u8],
    times: u32,
    editing: Editing,
) -> Result<Serving, Stuck> {
    let stream = repeated(alloc, bytes, times)?;
    let mut out = Vec::new(alloc);
    let mut end = ServerEnd::start(alloc, Settings::standard(), Limit::standard(), &mut out)?;
    agree(&mut end, editing, &mut out)?;
    out.clear();
    Ok(Serving { end, stream, out })
}

// Makes a client whose server writes these bytes this number of times.
fn make_client(alloc: Global, bytes: &[u8], times: u32) -> Result<Showing, Stuck> {
    let end = ClientEnd::start(alloc, 80, 24, Limit::standard())?;
    let stream = repeated(alloc, bytes, times)?;
    let (out, screen) = (Vec::new(alloc), Vec::new(alloc));
    Ok(Showing {
        end,
        stream,
        out,
        screen,
    })
}

fn show<H: Clock, W: Write>(
    alloc: Global,
    bench: &mut Bench<'_, H, W>,
    name: &str,
    bytes: &[u8],
    times: u32,
) -> Result<(), Stuck> {
    let load = make_client(alloc, bytes, times)?;
    bench.tell(name, load)
}

fn show_and_read<H: Clock, W: Write>(
    alloc: Global,
    bench: &mut Bench<'_, H, W>,
    name: &str,
    bytes: &[u8],
    times: u32,
) -> Result<(), Stuck> {
    let buf = Vec::from_elem(alloc, 0u8, 4 * PIECE)?;
    let Showing {
        end,
        stream,
        out,
        screen,
    } = make_client(alloc, bytes, times)?;
    let load = Reading {
        end,
        stream,
        out,
        screen,
        buf,
    };
    bench.tell(name, load)
}

fn send<H: Clock, W: Write>(
    alloc: Global,
    bench: &mut Bench<'_, H, W>,
    name: &str,
    bytes: &[u8],
    times: u32,
) -> Result<(), Stuck> {
    let stream = repeated(alloc, bytes, times)?;
    let buf = Vec::from_elem(alloc, 0u8, 4 * PIECE)?;
    let mut out = Vec::new(alloc);
    let end = ServerEnd::start(alloc, Settings::standard(), Limit::standard(), &mut out)?;
    out.clear();
    let load = Sending {
        end,
        stream,
        out,
        buf,
    };
    bench.tell(name, load)
}

fn serve<H: Clock, W: Write>(
    alloc: Global,
    bench: &mut Bench<'_, H, W>,
    name: &str,
    bytes: &[u8],
    editing: Editing,
) -> Result<(), Stuck> {
    let load = make_server(alloc, bytes, 1_024, editing)?;
    bench.tell(name, load)
}

// Makes the calls of the library for C one after another, with no C between.
fn read_to_buffers<H: Clock, W: Write>(
    alloc: Global,
    bench: &mut Bench<'_, H, W>,
) -> Result<(), Stuck> {
    let shown = "a client shows plain text, read to a buffer";
    show_and_read(alloc, bench, shown, b"x", 65_536)?;
    let shown = "a client shows lines of 64, read to a buffer";
    show_and_read(alloc, bench, shown, EDITED, 1_024)?;
    let shown = "a client shows a mix of escapes, read to a buffer";
    show_and_read(alloc, bench, shown, MIX, 2_048)?;
    let sent = "a server sends plain text, read to a buffer";
    send(alloc, bench, sent, b"x", 65_536)?;
    let sent = "a server sends lines of 64, read to a buffer";
    send(alloc, bench, sent, OUTPUT, 1_024)?;
    let sent = "a server sends blank lines, read to a buffer";
    send(alloc, bench, sent, b"\n", 65_536)?;
    let sent = "a server sends bytes 255, read to a buffer";
    send(alloc, bench, sent, b"\xff", 65_536)
}

pub(crate) fn run<H: Clock, W: Write>(
    alloc: Global,
    bench: &mut Bench<'_, H, W>,
) -> Result<(), Stuck> {
    show(alloc, bench, "a client shows plain text", b"x", 65_536)?;
    show(alloc, bench, "a client shows lines of 64", EDITED, 1_024)?;
    serve(alloc, bench, "a server edits keys", KEYS, Editing::Remote)?;
    let taken = "a server takes edited lines";
    serve(alloc, bench, taken, EDITED, Editing::Local)?;
    read_to_buffers(alloc, bench)
}
