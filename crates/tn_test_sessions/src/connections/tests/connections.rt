//! Sessions over connections of this machine, the roster, and what is noted.

use super::clients::{connect_here, link};
use log::sink::{Discard, Memory};
use log::{Level, Logged};
use std::alloc::Global;
use std::io::{Read, Write};
use std::net::{Ipv4Addr, Net, TcpListener, TcpStream};
use std::process::Abort;
use std::test::Fail;
use std::thread::JoinHandle;
use std::{io, thread};
use tn_discipline::Limit;
use tn_program::Answering;
use tn_serve::services::Answerers;
use tn_serve::{
    At, Host, Never, ServeFault, Served, Serving, SessionOptions, Until, serve, serve_connection,
    serve_on,
};
use tn_server::{Editing, Opening};
use tn_session::Ended;
use tn_session::roster::{Roster, RosterFault, note};

fn is_no_limit(alloc: Global, limit: usize) -> bool {
    matches!(Roster::new(alloc, limit), Err(RosterFault::BadLimit))
}

// A roster of one session.
fn gives_numbers(rt: &impl Abort, roster: &mut Roster) {
    assert!(rt; roster.enter() == Ok(0));
    assert!(rt; roster.enter() == Err(RosterFault::Full));
    assert!(rt; roster.count() == 1);
    assert!(rt; roster.leave(0));
    assert!(rt; roster.enter().is_ok());
    assert!(rt; !roster.leave(7));
}

#[test]
fn a_roster_gives_each_session_a_number(rt: HostRuntime) -> Result<(), Fail> {
    assert!(rt; is_no_limit(rt.alloc(), 0));
    assert!(rt; is_no_limit(rt.alloc(), 65));
    let mut roster = Roster::new(rt.alloc(), 1)?;
    gives_numbers(&rt, &mut roster);
    Ok(())
}

#[test]
fn what_became_of_a_connection_is_noted(rt: HostRuntime) {
    let alloc = rt.alloc();
    let logged = Logged::new(rt, Level::Info, Memory::new(alloc));
    note(&logged, &Ok(0));
    note(&logged, &Err(RosterFault::Full));
    let (_, memory) = logged.into_parts();
    let lines = memory.into_lines();
    assert!(rt; lines.len() == 2);
    for (line, message) in lines.as_slice().iter().zip(["accepted 0", "full"]) {
        let text = line.as_str();
        assert!(rt; text.contains("INFO") && text.ends_with(message), "{line}");
    }
}

fn options(idle: u32) -> SessionOptions {
    SessionOptions {
        line_limit: Limit::standard(),
        opening: Opening::Keys,
        editing: Editing::Remote,
        idle,
        longest: 0,
    }
}

fn serving(sessions: u16, count: u64) -> Serving {
    Serving {
        sessions,
        per_host: 64,
        count,
        drain: 0,
        is_proxied: false,
        is_handed: false,
        options: options(0),
    }
}

/// Gives its keys one by one.
#[derive(Drop)]
struct OneByOne {
    keys: &'static [u8],
}

impl Read for OneByOne {
    fn read(&mut self, buf: &mut [u8]) -> io::Result<usize> {
        let (Some((key, rest)), Some(slot)) = (self.keys.split_first(), buf.first_mut()) else {
            return Ok(0);
        };
        *slot = *key;
        self.keys = rest;
        Ok(1)
    }
}

// Returns how the session of the next connection ends, and how many entries it has.
fn serve_next<H: Host>(
    rt: H,
    alloc: Global,
    listener: &TcpListener,
    idle: u32,
) -> Option<(Ended, u64)> {
    let (stream, _) = listener.accept().ok()?;
    let jobs = Answerers::new(0);
    let conversed = serve_connection(rt, alloc, stream, options(idle), jobs).ok()?;
    let report = conversed.report;
    Some((report.ended, report.entries))
}

// Serves one connection in a thread of its own. Returns the thread, and the port that it listens on.
fn serve_one<H: Host + Net<Listener = TcpListener, Stream = TcpStream>>(
    rt: H,
    alloc: Global,
    idle: u32,
) -> Result<(JoinHandle<Option<(Ended, u64)>>, u16), Fail> {
    let listener = TcpListener::bind(&rt, (Ipv4Addr::LOCALHOST, 0))?;
    let port = listener.local_addr()?.port();
    let server = thread::spawn(&rt, move || -> Option<(Ended, u64)> {
        serve_next(rt, alloc, &listener, idle)
    })?;
    Ok((server, port))
}

#[test]
fn a_line_comes_back_over_a_connection(rt: HostRuntime) -> Result<(), Fail> {
    let alloc = rt.alloc();
    let (server, port) = serve_one(rt, alloc, 0)?;
    let mut screen = Vec::new(alloc);
    let keys = OneByOne { keys: b"a\rexit\r" };
    let (fault, _) = connect_here(rt, alloc, port, link(alloc)?, keys, &mut screen)?;
    assert!(rt; fault.is_none());
    assert!(rt; screen.as_slice().ends_with(b"bye\r\n"));
    assert!(rt; server.join(&rt) == Some((Ended::Done, 2)));
    Ok(())
}

/// A reader that gives this number of lines at once, and then `exit`.
#[derive(Drop)]
struct Paste {
    lines: u32,
    ended: bool,
}

impl Read for Paste {
    fn read(&mut self, buf: &mut [u8]) -> io::Result<usize> {
        let mut keys = b"abc\r".as_slice();
        if self.lines == 0 {
            keys = if self.ended { b"" } else { b"exit\r" };
            self.ended = true;
        }
        self.lines = self.lines.saturating_sub(1);
        keys.read(buf)
    }
}

#[test]
fn a_paste_arrives_whole_over_a_connection(rt: HostRuntime) -> Result<(), Fail> {
    let alloc = rt.alloc();
    let (server, port) = serve_one(rt, alloc, 0)?;
    let mut screen = Vec::new(alloc);
    let lines = 5_000;
    let keys = Paste {
        lines,
        ended: false,
    };
    let (fault, _) = connect_here(rt, alloc, port, link(alloc)?, keys, &mut screen)?;
    assert!(rt; fault.is_none());
    assert!(rt; screen.as_slice().ends_with(b"bye\r\n"));
    assert!(rt; server.join(&rt) == Some((Ended::Done, 5_001)));
    Ok(())
}

#[test]
fn a_silent_client_is_let_go(rt: HostRuntime) -> Result<(), Fail> {
    let alloc = rt.alloc();
    let (server, port) = serve_one(rt, alloc, 1)?;
    let client = TcpStream::connect(&rt, (Ipv4Addr::LOCALHOST, port))?;
    assert!(rt; server.join(&rt) == Some((Ended::HangUp, 0)));
    drop(client);
    Ok(())
}

// The client reads the end of what the server sends, and does not close.
#[test]
fn a_client_that_stays_is_closed(rt: HostRuntime) -> Result<(), Fail> {
    let alloc = rt.alloc();
    let (server, port) = serve_one(rt, alloc, 0)?;
    let mut client = TcpStream::connect(&rt, (Ipv4Addr::LOCALHOST, port))?;
    client.write_all(b"exit\r\0")?;
    assert!(rt; server.join(&rt) == Some((Ended::Done, 1)));
    drop(client);
    Ok(())
}

#[test]
fn connections_more_than_the_limit_are_told_so(rt: HostRuntime) -> Result<(), Fail> {
    let alloc = rt.alloc();
    let listener = TcpListener::bind(&rt, (Ipv4Addr::LOCALHOST, 0))?;
    let port = listener.local_addr()?.port();
    let server = thread::spawn(&rt, move || -> bool {
        let log = Logged::new(rt, Level::Warn, Memory::new(alloc));
        let service = Answering { ticks: 0 };
        let served = serve_on(rt, alloc, &listener, serving(1, 21), Never, service, &log);
        let (_, memory) = log.into_parts();
        served.is_ok() && memory.into_lines().is_empty()
    })?;
    let mut first = TcpStream::connect(&rt, (Ipv4Addr::LOCALHOST, port))?;
    let mut opening = [0; 15];
    first.read_exact(&mut opening)?;
    let mut held = Vec::new(alloc);
    for _ in 0..20 {
        let mut more = TcpStream::connect(&rt, (Ipv4Addr::LOCALHOST, port))?;
        let mut told = Vec::new(alloc);
        more.read_to_end(&mut told)?;
        assert!(rt; told.as_slice() == b"full\r\n".as_slice());
        held.push(more)?;
    }
    first.write_all(b"exit\r\0")?;
    let mut rest = Vec::new(alloc);
    first.read_to_end(&mut rest)?;
    assert!(rt; rest.as_slice().ends_with(b"bye\r\n"));
    drop(first);
    assert!(rt; server.join(&rt));
    Ok(())
}

/// A condition that is met at once: no more connections are to come.
#[derive(Drop)]
struct Over;

impl Until for Over {
    ghost ends = { λ _. Unit {0} };

    fn is_over(&self) -> bool {
        true
    }
}

// No connection was accepted, unless memory ran out before.
fn is_nobody(served: Result<Served, ServeFault>) -> bool {
    match served {
        Ok(served) => served.accepted() == 0,
        Err(fault) => fault == ServeFault::Memory,
    }
}

#[test]
fn a_server_that_is_told_to_end_accepts_nobody(rt: HostRuntime) -> Result<(), Fail> {
    let alloc = rt.alloc();
    let at = At {
        host: "127.0.0.1",
        port: 0,
        handed: None,
    };
    let mut causes = Vec::new(alloc);
    let service = Answering { ticks: 0 };
    let served = serve(
        rt,
        alloc,
        &[at],
        serving(1, 3),
        Over,
        service,
        &Discard,
        &mut causes,
    );
    assert!(rt; is_nobody(served));
    let listener = TcpListener::bind(&rt, (Ipv4Addr::LOCALHOST, 0))?;
    let served = serve_on(rt, alloc, &listener, serving(1, 3), Over, service, &Discard);
    assert!(rt; is_nobody(served));
    Ok(())
}
