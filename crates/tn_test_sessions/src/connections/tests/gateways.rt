//! Sessions that are joined to a line service, over connections of this machine.

use log::sink::Memory;
use log::{Level, Logged};
use std::alloc::Global;
use std::io::{Read, Write};
use std::net::{Ipv4Addr, Net, Shutdown, TcpListener, TcpStream};
use std::process::Abort;
use std::test::Fail;
use std::thread;
use std::thread::JoinHandle;
use tn_discipline::Limit;
use tn_program::{Joining, Network};
use tn_serve::services::{LineEnd, LineFormat};
use tn_serve::{Host, Never, Serving, serve_on};

// Serves one connection, joined to the service at this port. Returns the thread, whose result is
// whether all went well, and a client of it.
fn join<H>(rt: H, alloc: Global, port: u16) -> Result<(JoinHandle<bool>, TcpStream), Fail>
where
    H: Network + Host + Net<Listener = TcpListener, Stream = TcpStream>,
{
    let listener = TcpListener::bind(&rt, (Ipv4Addr::LOCALHOST, 0))?;
    let client = TcpStream::connect(&rt, listener.local_addr()?)?;
    let service = Joining {
        rt,
        host: String::from_str(alloc, "127.0.0.1")?,
        port,
        patience: 10,
        lines: LineFormat {
            line_end: LineEnd::CrLf,
            limit: Limit::standard(),
            ends_cut: false,
            sends_signals: false,
            speaks_telnet: false,
        },
        banner: None,
    };
    let serving = Serving::standard();
    let server = thread::spawn(&rt, move || -> bool {
        let log = Logged::new(rt, Level::Warn, Memory::new(alloc));
        let served = serve_on(rt, alloc, &listener, serving, Never, service, &log);
        let (_, memory) = log.into_parts();
        served.is_ok() && memory.into_lines().is_empty()
    })?;
    Ok((server, client))
}

// Returns the bytes that a line service gets in one connection, to which it sends a farewell once
// nothing more comes. It ends its lines as it gets them, by CR LF, which is one new line at the
// user.
fn listen(alloc: Global, listener: &TcpListener) -> Option<Vec<u8>> {
    let (mut stream, _) = listener.accept().ok()?;
    let mut got = Vec::new(alloc);
    stream.read_to_end(&mut got).ok()?;
    let _ = stream.write_all(b"fare\rwell\r\n");
    let _ = stream.shutdown(Shutdown::Write);
    Some(got)
}

// Returns whether this was shown last, maybe with a GA after it.
fn shows(screen: &[u8], text: &[u8]) -> bool {
    screen
        .strip_suffix(b"\xff\xf9".as_slice())
        .unwrap_or(screen)
        .ends_with(text)
}

// Returns the bytes that a client is sent once it has typed these keys.
fn screen_of(alloc: Global, mut client: TcpStream, keys: &[u8]) -> Result<Vec<u8>, Fail> {
    let mut screen = Vec::new(alloc);
    client.write_all(keys)?;
    client.read_to_end(&mut screen)?;
    Ok(screen)
}

#[test]
fn lines_go_to_a_service_and_its_words_come_back(rt: HostRuntime) -> Result<(), Fail> {
    let alloc = rt.alloc();
    let listener = TcpListener::bind(&rt, (Ipv4Addr::LOCALHOST, 0))?;
    let port = listener.local_addr()?.port();
    let service = thread::spawn(&rt, move || -> Option<Vec<u8>> { listen(alloc, &listener) })?;
    let (server, client) = join(rt, alloc, port)?;
    let screen = screen_of(alloc, client, b"helo\x7flo\r\0a\x1ab\r\0half\x04\x04")?;
    assert!(rt; shows(&screen, b"fare\r\0well\r\n"));
    let got = service.join(&rt).unwrap_or(Vec::new(alloc));
    assert!(rt; got.as_slice() == b"hello\r\nab\r\nhalf".as_slice());
    assert!(rt; server.join(&rt));
    Ok(())
}

#[test]
fn an_interrupt_ends_a_session_with_a_service(rt: HostRuntime) -> Result<(), Fail> {
    let alloc = rt.alloc();
    let listener = TcpListener::bind(&rt, (Ipv4Addr::LOCALHOST, 0))?;
    let port = listener.local_addr()?.port();
    let service = thread::spawn(&rt, move || -> Option<Vec<u8>> { listen(alloc, &listener) })?;
    let (server, client) = join(rt, alloc, port)?;
    let screen = screen_of(alloc, client, b"one\r\0two\x03")?;
    assert!(rt; !screen.is_empty());
    let got = service.join(&rt).unwrap_or(Vec::new(alloc));
    assert!(rt; got.as_slice() == b"one\r\n".as_slice());
    assert!(rt; server.join(&rt));
    Ok(())
}

#[test]
fn a_service_that_is_not_there_is_told(rt: HostRuntime) -> Result<(), Fail> {
    let alloc = rt.alloc();
    let listener = TcpListener::bind(&rt, (Ipv4Addr::LOCALHOST, 0))?;
    let port = listener.local_addr()?.port();
    drop(listener);
    let (server, client) = join(rt, alloc, port)?;
    let screen = screen_of(alloc, client, b"")?;
    let told = b"the service cannot be reached: Connection refused (os error 111)\r\n";
    assert!(rt; shows(&screen, told));
    // The cause is on standard error, too.
    assert!(rt; !server.join(&rt));
    Ok(())
}
