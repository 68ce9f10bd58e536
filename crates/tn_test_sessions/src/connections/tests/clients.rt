//! The lines for a client about a connection that is not made, and about one that is of no use any
//! more.

use std::alloc::{AllocError, Global};
use std::io::{self, Cursor, ErrorKind, Read, Write};
use std::net::{Ipv4Addr, TcpListener};
use std::sync::Arc;
use std::test::Fail;
use std::thread;
use std::thread::JoinHandle;
use tn_connect::{
    ClientContext, ConnectFault, Connecting, Dialing, EditorSettings, Host, KeySource, Link, News,
    Screen, connect,
};
use tn_discipline::Limit;
use tn_program::Network;

/// A screen that takes nothing.
#[derive(Drop)]
struct Dead;

impl Write for Dead {
    fn write(&mut self, _buf: &[u8]) -> io::Result<usize> {
        Err(io::Error::from(ErrorKind::BrokenPipe))
    }

    fn flush(&mut self) -> io::Result<()> {
        Ok(())
    }
}

/// A connection that does not stand yet.
pub(super) fn link(alloc: Global) -> Result<Arc<Link, Global>, AllocError> {
    Ok(Arc::new(alloc, Link::new())?)
}

/// Returns the fault of a client's session over a port of this machine, with no trace, or `None`;
/// and the causes that were noted.
pub(super) fn connect_here<H, K, S>(
    rt: H,
    alloc: Global,
    port: u16,
    link: Arc<Link, Global>,
    keys: K,
    screen: &mut S,
) -> Result<(Option<ConnectFault>, Vec<u8>), AllocError>
where
    H: Network + Host,
    K: Read + Drop + Send + 'static,
    S: Write,
{
    let connecting = Connecting {
        port,
        width: 80,
        height: 24,
        line_limit: Limit::standard(),
        origin: KeySource::Reader,
        escape: None,
        returns: None,
        editing: EditorSettings::usual(),
        line_mode: None,
        text: false,
        wait: 0,
        patience: 0,
        dialing: Dialing::within(0),
    };
    let (mut causes, mut told) = (Vec::new(alloc), Vec::new(alloc));
    let notes = ClientContext {
        trace: None,
        sizes: None,
        stands: None,
        terminal: None,
        news: News {
            writer: &mut told,
            alloc,
            is_told: false,
        },
        causes: &mut causes,
        link,
    };
    let ended = connect(rt, alloc, "127.0.0.1", connecting, keys, screen, notes);
    Ok((ended.err(), causes))
}

// Returns the fault of a client without keys, and the causes that were noted.
fn fault_of<H>(
    rt: H,
    alloc: Global,
    port: u16,
) -> Result<(Option<ConnectFault>, Vec<u8>), AllocError>
where
    H: Network + Host,
{
    let link = link(alloc)?;
    let mut screen = Screen {
        rt,
        alloc,
        writer: Dead,
        link: Arc::try_clone(&link)?,
        is_session: false,
        held: Vec::new(alloc),
    };
    connect_here(rt, alloc, port, link, Cursor::new(*b""), &mut screen)
}

#[test]
fn a_port_where_nobody_listens_is_told(rt: HostRuntime) -> Result<(), Fail> {
    let listener = TcpListener::bind(&rt, (Ipv4Addr::LOCALHOST, 0))?;
    let port = listener.local_addr()?.port();
    drop(listener);
    let (fault, causes) = fault_of(rt, rt.alloc(), port)?;
    assert!(rt; fault == Some(ConnectFault::Network));
    assert!(rt; causes.as_slice().starts_with(b"tn: 127.0.0.1:"));
    Ok(())
}

// Sends a client some text, and closes no direction before the client has.
fn send_text<R>(rt: &R, listener: TcpListener) -> Result<JoinHandle<bool>, Fail>
where
    R: thread::Threads,
{
    let server = thread::spawn(rt, move || -> bool {
        let Ok((mut stream, _)) = listener.accept() else {
            return false;
        };
        if stream.write_all(b"text\r\n").is_err() {
            return false;
        }
        let mut buf = [0; 64];
        for _ in 0..1_000 {
            match stream.read(&mut buf) {
                Ok(1..) => {},
                _ => return true,
            }
        }
        false
    })?;
    Ok(server)
}

#[test]
fn a_dead_screen_ends_a_session(rt: HostRuntime) -> Result<(), Fail> {
    let listener = TcpListener::bind(&rt, (Ipv4Addr::LOCALHOST, 0))?;
    let port = listener.local_addr()?.port();
    let server = send_text(&rt, listener)?;
    let (fault, causes) = fault_of(rt, rt.alloc(), port)?;
    assert!(rt; fault == Some(ConnectFault::Session));
    assert!(rt; causes.as_slice().starts_with(b"tn: the screen"));
    assert!(rt; server.join(&rt));
    Ok(())
}
