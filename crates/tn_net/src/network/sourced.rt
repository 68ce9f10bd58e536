//! A connection from an address of this machine that was asked for, which `std::net` has no call for.

ghost use Rattle.std.specs.Prelude.{◌≤◌};

use libc::net as c;
use libc::types::pollfd;
use os::FromRawFd;
use std::io;
use std::io::ErrorKind;
use std::net::{IpAddr, SocketAddr, TcpStream};
use std::os::fd::AsRawFd;

/// The time of `poll` that has no bound (POSIX).
const WITHOUT_END: i32 = -1;

const MILLISECONDS: u32 = 1_000;

/// An address as C has it, and how many of its bytes are used.
#[derive(Clone, Copy)]
pub(crate) struct RawAddress {
    pub(crate) bytes: [u8; c::_SS_SIZE],
    pub(crate) length: u32,
}

/// Asks for a connection from an address of this machine, for at most this many seconds; at 0 as long as the
/// system waits.
pub(crate) fn dial_from(
    source: IpAddr,
    address: SocketAddr,
    seconds: u32,
) -> io::Result<TcpStream> {
    let stream = new_socket(&address)?;
    bind(&stream, &SocketAddr::new(source, 0))?;
    stream.set_nonblocking(true)?;
    connect(&stream, &address, seconds)?;
    stream.set_nonblocking(false)?;
    Ok(stream)
}

fn new_socket(address: &SocketAddr) -> io::Result<TcpStream> {
    let kind = c::SOCK_STREAM | c::SOCK_CLOEXEC;
    let socket = match address {
        SocketAddr::V4(_) => unsafe { c::socket(c::AF_INET, kind, 0) },
        SocketAddr::V6(_) => unsafe { c::socket(c::AF_INET6, kind, 0) },
    };
    if socket < 0 {
        return Err(last_error());
    }
    // The descriptor is new, and no other owner has its number.
    Ok(unsafe { TcpStream::from_raw_fd(socket) })
}

fn bind(stream: &TcpStream, address: &SocketAddr) -> io::Result<()> {
    let RawAddress { bytes, length } = raw_of(address);
    // The descriptor is open as long as `stream` is lent.
    check(unsafe { c::bind(stream.as_raw_fd(), &bytes, length) })
}

fn connect(stream: &TcpStream, address: &SocketAddr, seconds: u32) -> io::Result<()> {
    let RawAddress { bytes, length } = raw_of(address);
    // The descriptor is open as long as `stream` is lent.
    let status = unsafe { c::connect(stream.as_raw_fd(), &bytes, length) };
    match check(status) {
        Err(error) if error.raw_os_error() == Some(libc::EINPROGRESS) => wait(stream, seconds),
        connected => connected,
    }
}

// Waits for a connection that was begun.
fn wait(stream: &TcpStream, seconds: u32) -> io::Result<()> {
    let mut awaited = [pollfd {
        fd: stream.as_raw_fd(),
        events: c::POLLOUT,
        revents: 0,
    }];
    let ready = c::poll(&mut awaited, time_of(seconds));
    check(ready)?;
    if ready == 0 {
        return Err(io::Error::from(ErrorKind::TimedOut));
    }
    match stream.take_error()? {
        Some(error) => Err(error),
        None => Ok(()),
    }
}

fn time_of(seconds: u32) -> i32 {
    if seconds == 0 {
        return WITHOUT_END;
    }
    i32::try_from(seconds.saturating_mul(MILLISECONDS)).unwrap_or(i32::MAX)
}

// The error of a call of C's, if there is one.
pub(crate) fn check(status: i32) -> io::Result<()> {
    if status < 0 {
        return Err(last_error());
    }
    Ok(())
}

pub(crate) fn last_error() -> io::Error {
    io::Error::from_raw_os_error(os::errno())
}

// Returns the bytes of C's `sockaddr_in` or `sockaddr_in6`.
fn raw_of(address: &SocketAddr) -> RawAddress
    ensures { result.length ≤ 128 }
{
    let mut bytes = [0; c::_SS_SIZE];
    bytes[2..4].copy_from_slice(&address.port().to_be_bytes());
    match address {
        SocketAddr::V4(address) => {
            bytes[0..2].copy_from_slice(&(c::AF_INET as u16).to_ne_bytes());
            bytes[4..8].copy_from_slice(&address.ip().octets());
            RawAddress { bytes, length: 16 }
        },
        SocketAddr::V6(address) => {
            bytes[0..2].copy_from_slice(&(c::AF_INET6 as u16).to_ne_bytes());
            bytes[8..24].copy_from_slice(&address.ip().octets());
            bytes[24..28].copy_from_slice(&address.scope_id().to_ne_bytes());
            RawAddress { bytes, length: 28 }
        },
    }
}
