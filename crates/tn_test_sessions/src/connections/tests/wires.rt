//! The bytes that two sessions over one connection read and wrote, recorded at its calls: at each
//! step the bytes that either has read begin those that the other has written. No contract can
//! state that of a socket.

use std::alloc::{AllocError, Global};
use std::fs::{File, Files};
use std::io::{self, Cursor, Read, Write};
use std::net::{Ipv4Addr, Net, Shutdown, TcpListener, TcpStream};
use std::process::Abort;
use std::sync::{Arc, Mutex, Wait};
use std::test::Fail;
use std::thread;
use std::thread::Threads;
use tn_connect::Host;
use tn_discipline::{Limit, Settings};
use tn_serve::services::Answerers;
use tn_server::{Approach, Editing, Opening};
use tn_session::{Ended, Finish, Unwatched, client_session, serve_session_with};

/// The bytes that went one way, and how much of them was read.
#[derive(Drop)]
struct Way {
    written: Vec<u8>,
    read: usize,
}

impl Way {
    fn new(alloc: Global) -> Way {
        let written = Vec::new(alloc);
        Way { written, read: 0 }
    }

    // Returns whether these bytes are the next of those that were written.
    fn gives(&mut self, bytes: &[u8]) -> bool {
        let rest = self.written.get(self.read..).unwrap_or(&[]);
        self.read = self.read.saturating_add(bytes.len());
        rest.starts_with(bytes)
    }

    fn is_read(&self) -> bool {
        self.read == self.written.len()
    }
}

/// Both ways of a connection, and whether each step so far was carried.
#[derive(Drop)]
struct Wire {
    to_server: Way,
    to_client: Way,
    is_carried: bool,
}

impl Wire {
    // The server, or the client, has read these bytes.
    fn came(&mut self, to_server: bool, bytes: &[u8]) {
        let is_next = if to_server {
            self.to_server.gives(bytes)
        } else {
            self.to_client.gives(bytes)
        };
        self.is_carried = self.is_carried && is_next;
    }

    // The server, or the client, has written these bytes.
    fn went(&mut self, from_server: bool, bytes: &[u8]) -> Result<(), AllocError> {
        if from_server {
            return self.to_client.written.extend_from_slice(bytes);
        }
        self.to_server.written.extend_from_slice(bytes)
    }
}

/// One end of a connection, each of whose calls is recorded.
#[derive(Drop)]
struct End<R> {
    rt: R,
    stream: TcpStream,
    wire: Arc<Mutex<Wire>, Global>,
    serves: bool,
}

impl<R: Wait> Read for End<R> {
    fn read(&mut self, buf: &mut [u8]) -> io::Result<usize> {
        let count = self.stream.read(buf)?;
        let mut wire = self.wire.lock(&self.rt);
        wire.came(self.serves, &buf[..count]);
        Ok(count)
    }
}

impl<R: Wait> Write for End<R> {
    // Bytes that are read meanwhile are recorded after this.
    fn write(&mut self, buf: &[u8]) -> io::Result<usize> {
        let mut wire = self.wire.lock(&self.rt);
        let count = self.stream.write(buf)?;
        wire.went(self.serves, &buf[..count])?;
        Ok(count)
    }

    fn flush(&mut self) -> io::Result<()> {
        Ok(())
    }
}

impl<R: Wait> Finish for End<R> {
    fn finish(&mut self) {
        let _ = self.stream.shutdown(Shutdown::Write);
    }
}

// Both directions of one end.
fn ends<R: Copy>(
    rt: R,
    stream: TcpStream,
    wire: &Arc<Mutex<Wire>, Global>,
    serves: bool,
) -> Option<(End<R>, End<R>)> {
    let reader = End {
        rt,
        stream: stream.try_clone().ok()?,
        wire: Arc::try_clone(wire).ok()?,
        serves,
    };
    let writer = End {
        rt,
        stream,
        wire: Arc::try_clone(wire).ok()?,
        serves,
    };
    Some((reader, writer))
}

// Returns the number of entries that a server's session takes, which ends without a fault.
fn serve<R: Threads + Wait + Copy + Send + 'static>(
    rt: R,
    alloc: Global,
    (reader, mut writer): (End<R>, End<R>),
    approach: Approach,
) -> Option<u64> {
    let gate = Arc::new(alloc, Unwatched).ok()?;
    let (settings, limit) = (Settings::standard(), Limit::standard());
    let jobs = Answerers::new(0);
    let (report, _ports) = serve_session_with(
        rt,
        alloc,
        reader,
        &mut writer,
        settings,
        limit,
        approach,
        jobs,
        gate,
    )
    .ok()?;
    if report.ended == Ended::HangUp {
        Some(report.entries)
    } else {
        None
    }
}

// Types these keys at the other end.
fn join<R: Threads + Wait + Copy + Send + 'static>(
    rt: R,
    alloc: Global,
    (reader, mut writer): (End<R>, End<R>),
    keys: &'static [u8],
) -> Option<Ended> {
    let gate = Arc::new(alloc, Unwatched).ok()?;
    let mut screen = Vec::new(alloc);
    let limit = Limit::standard();
    let (report, _ports) = client_session(
        rt,
        alloc,
        reader,
        Cursor::new(keys),
        &mut writer,
        &mut screen,
        80,
        24,
        limit,
        gate,
    )
    .ok()?;
    Some(report.ended)
}

// Runs both sessions. How many entries were taken, how the client ended, and the wire.
fn converse<H>(
    rt: H,
    alloc: Global,
    approach: Approach,
) -> Result<(Option<u64>, Option<Ended>, Arc<Mutex<Wire>, Global>), Fail>
where
    H: Files<File = File> + Host + Net<Listener = TcpListener, Stream = TcpStream>,
{
    let wire = Wire {
        to_server: Way::new(alloc),
        to_client: Way::new(alloc),
        is_carried: true,
    };
    let wire = Arc::new(alloc, Mutex::new(wire))?;
    let listener = TcpListener::bind(&rt, (Ipv4Addr::LOCALHOST, 0))?;
    let port = listener.local_addr()?.port();
    let theirs = Arc::try_clone(&wire)?;
    let server = thread::spawn(&rt, move || -> Option<u64> {
        let (stream, _) = listener.accept().ok()?;
        serve(rt, alloc, ends(rt, stream, &theirs, true)?, approach)
    })?;
    let stream = TcpStream::connect(&rt, (Ipv4Addr::LOCALHOST, port))?;
    let ended = match ends(rt, stream, &wire, false) {
        Some(ends) => join(rt, alloc, ends, b"one\rtwp\x7fo\rthree\r"),
        None => None,
    };
    Ok((server.join(&rt), ended, wire))
}

#[test]
fn what_either_end_reads_begins_what_the_other_wrote(rt: HostRuntime) -> Result<(), Fail> {
    for (opening, editing) in [
        (Opening::Keys, Editing::Remote),
        (Opening::Keys, Editing::Local),
        (Opening::Lines, Editing::Remote),
        (Opening::Lines, Editing::Local),
    ] {
        let approach = Approach { opening, editing };
        let (taken, ended, wire) = converse(rt, rt.alloc(), approach)?;
        assert!(rt; taken == Some(3));
        assert!(rt; ended == Some(Ended::HangUp));
        let wire = wire.lock(&rt);
        assert!(rt; wire.is_carried);
        assert!(rt; wire.to_server.is_read() && wire.to_client.is_read());
    }
    Ok(())
}
