//! A talk in Telnet over the connection to a service. Both jobs of a session take part in it: one job writes at
//! a time, and no job holds the lock while it reads or writes.

ghost use Rattle.std.specs.{Io.ReadsAtMost, Prelude.{◌≤◌, IfOk, IfSome, length}};

use crate::services::joint::WAIT;
use crate::services::outbox::Progress;
use crate::services::telnet_side::TelnetSide;
use std::io::{ErrorKind, Read, Write};
use std::net::TcpStream;
use std::sync::{Mutex, Wait};
use std::time::{Clock, Duration};
use std::{io, thread};
use tn_net::Hook;

/// How many bytes one write sends at most, and how many writes are made one after another.
const PIECE_BYTES: usize = 1_024;

const PIECES: u8 = 32;

/// Sends a line in Telnet, whole. `None` if the other job sends something meanwhile.
pub(crate) fn say<R: Wait>(
    rt: &R,
    telnet: &Mutex<TelnetSide>,
    stream: &TcpStream,
    line: &[u8],
) -> io::Result<Option<usize>>
    ensures { IfOk result (λ sent. IfSome sent (λ count. count ≤ length line.now)) }
{
    let asked = telnet.lock(rt).ask(line);
    if asked.is_err() {
        return Err(io::Error::from(ErrorKind::OutOfMemory));
    }
    send_waiting(rt, telnet, stream, true)?;
    let progress = telnet.lock(rt).outbox.end_line();
    match progress {
        Progress::Sent => Ok(Some(line.len())),
        Progress::Waits => Ok(None),
        Progress::Shut => Err(io::Error::from(ErrorKind::BrokenPipe)),
    }
}

// Sends what waits, as long as the service takes it at once, unless the other job does that.
fn send_waiting<R: Wait>(
    rt: &R,
    telnet: &Mutex<TelnetSide>,
    stream: &TcpStream,
    is_for_line: bool,
) -> io::Result<()> {
    let mut piece = [0; PIECE_BYTES];
    for _ in 0..PIECES {
        let count = telnet.lock(rt).outbox.begin(is_for_line, &mut piece);
        if count == 0 {
            return Ok(());
        }
        let written = write_front(stream, &piece, count);
        telnet.lock(rt).outbox.done(&written);
        written?;
    }
    Ok(())
}

fn write_front(stream: &TcpStream, piece: &[u8], count: usize) -> io::Result<usize> {
    let mut stream = stream;
    stream.write(piece.get(..count).unwrap_or(b""))
}

/// Reads what the service says in Telnet, after it was sent what answers what it said before. A read without
/// text is to be made again.
pub(crate) fn hear<R: Clock + Wait>(
    rt: &R,
    telnet: &Mutex<TelnetSide>,
    stream: &TcpStream,
    hook: &Hook,
    buf: &mut [u8],
) -> io::Result<usize>
    ensures bound { ReadsAtMost result buf.new }
{
    let left = telnet.lock(rt).show(buf);
    if left > 0 {
        return Ok(left.min(buf.len()));
    }
    tell_window(rt, telnet, hook);
    let _ = send_waiting(rt, telnet, stream, false);
    let is_full = telnet.lock(rt).outbox.is_full();
    if is_full {
        thread::sleep(rt, Duration::from_millis(WAIT));
        return Err(io::Error::from(ErrorKind::WouldBlock));
    }
    let mut stream = stream;
    let count = stream.read(buf)?;
    if count == 0 {
        return Ok(0);
    }
    tell_window(rt, telnet, hook);
    take(rt, telnet, count, buf)
}

// Tells the service the size of the user's window, if it asks for that and the size changed.
fn tell_window<R: Wait>(rt: &R, telnet: &Mutex<TelnetSide>, hook: &Hook) {
    let window = hook.window();
    telnet.lock(rt).resize(window);
}

// Takes what was read of the service, and gives what is to be shown of it.
fn take<R: Wait>(
    rt: &R,
    telnet: &Mutex<TelnetSide>,
    count: usize,
    buf: &mut [u8],
) -> io::Result<usize>
    ensures bound { ReadsAtMost result buf.new }
{
    let said = buf.get(..count).unwrap_or(b"");
    let fed = telnet.lock(rt).feed(said);
    if fed.is_err() {
        return Err(io::Error::from(ErrorKind::OutOfMemory));
    }
    let shown = telnet.lock(rt).show(buf);
    if shown == 0 {
        return Err(io::Error::from(ErrorKind::WouldBlock));
    }
    Ok(shown.min(buf.len()))
}
