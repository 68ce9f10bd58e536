//! The line by which a proxy names its client: the PROXY protocol, version 1.

use std::io::Read;
use std::net::{IpAddr, SocketAddr, TcpStream};
use std::str;
use std::time::{Clock, Duration, Instant};
use tn_net::network::Peer;

/// The most bytes that the line has, with its CR LF.
const MOST: usize = 107;

/// The number of seconds that the proxy has to send the line.
const TIME: u64 = 1;

/// Reads the line with which the connection begins, by which a proxy at `peer` names its client,
/// and returns the client, or `peer` itself if the proxy does not know. Nothing after the line is
/// read. It returns `None` if no such line comes in time.
pub(crate) fn peer_behind<C: Clock>(clock: &C, stream: &TcpStream, peer: Peer) -> Option<Peer> {
    stream
        .set_read_timeout(Some(Duration::from_secs(TIME)))
        .ok()?;
    let began = Instant::now(clock).ok()?;
    let mut line = [0; MOST];
    for place in 0..MOST {
        if began.elapsed(clock).ok()?.as_secs() >= TIME {
            return None;
        }
        line[place] = read_byte(stream)?;
        if line[place] == b'\n' {
            stream.set_read_timeout(None).ok()?;
            return source_of(&line[..=place], peer);
        }
    }
    None
}

fn read_byte(mut stream: &TcpStream) -> Option<u8> {
    let mut byte = [0];
    match stream.read(&mut byte) {
        Ok(count) if count > 0 => Some(byte[0]),
        _ => None,
    }
}

/// Returns the source that a line names, or `peer` if it names none.
fn source_of(line: &[u8], peer: Peer) -> Option<Peer> {
    let line = line.strip_suffix(b"\r\n")?.strip_prefix(b"PROXY ")?;
    let mut words = line.split(|byte| *byte == b' ');
    match words.next()? {
        b"UNKNOWN" => return Some(peer),
        b"TCP4" | b"TCP6" => {},
        _ => return None,
    }
    let address = IpAddr::parse_ascii(words.next()?).ok()?;
    let _own = words.next()?;
    let port = str::from_utf8(words.next()?).ok()?.parse().ok()?;
    Some(Peer::Address(SocketAddr::new(address, port)))
}
