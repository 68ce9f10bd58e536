//! Sockets of the Unix domain, at paths of this machine (unix(7)). `std::os::unix::net` sets no mode for the
//! file of a listener, and its connection attempt waits while others wait for the listener.

ghost use Rattle.std.specs.Prelude.{◌≡◌, ◌≤◌, IfOk};
ghost use Rattle.tn_net.specs.network.Asked.{names_path};

use crate::network::sourced::{RawAddress, check, last_error};
use libc::net as c;
use libc::types::pollfd;
use os::FromRawFd;
use std::fs::{File, Files, Permissions};
use std::io::ErrorKind;
use std::net::{TcpListener, TcpStream};
use std::os::fd::{AsRawFd, RawFd};
use std::os::unix::fs::{FileTypeExt, PermissionsExt};
use std::{fmt, fs, io, str};

/// The place at which the path begins in an address, after its family, and the most bytes that it
/// has (unix(7)).
const PATH_AT: usize = 2;

const MOST_PATH: usize = 107;

/// The mode of a socket's file: only its owner connects to it.
const PRIVATE: u32 = 0o600;

/// The number of connections that may wait for the listener: as many as the system allows.
const BACKLOG: i32 = -1;

/// The number of attempts for a connection while others wait for the listener, and the number of
/// milliseconds between them.
const TRIES: u8 = 10;

const BETWEEN: i32 = 100;

/// Returns whether a host names a socket of the Unix domain: `unix:` and its path.
pub fn names_path(host: &str) -> bool
    ensures { result ≡ names_path host.now }
{
    host.starts_with("unix:")
}

/// Listens at the path of such a name, in a new file with the mode 0600. A socket at that path that
/// no process serves is replaced.
///
/// # Errors
///
/// - `AddrInUse`: the socket at that path is served, or it is no socket.
/// - `InvalidInput`: the name has no path, or one of more than 107 bytes.
/// - Any other error is the system's.
pub(crate) fn listen_at<H: Files<File = File>>(rt: &H, name: &str) -> io::Result<TcpListener> {
    let path = path_in(name)?;
    let address = raw_of(path)?;
    let listener = new_listener()?;
    if let Err(error) = bind(&listener, &address) {
        if error.kind() != ErrorKind::AddrInUse || !is_left(rt, path, &address) {
            return Err(error);
        }
        fs::remove_file(rt, path)?;
        bind(&listener, &address)?;
    }
    if let Err(error) = open(rt, path, &listener) {
        let _ = fs::remove_file(rt, path);
        return Err(error);
    }
    Ok(listener)
}

// Opens a socket at the path. No process connects to it before it listens, and then only its owner.
fn open<H: Files<File = File>>(rt: &H, path: &str, listener: &TcpListener) -> io::Result<()> {
    fs::set_permissions(rt, path, Permissions::from_mode(PRIVATE))?;
    check(c::listen(listener.as_raw_fd(), BACKLOG))
}

/// Connects to the path of such a name. While others wait for the listener it asks again, for at
/// most a second.
pub(crate) fn join(name: &str) -> io::Result<TcpStream> {
    let address = raw_of(path_in(name)?)?;
    for _ in 0..TRIES {
        match connect(&address) {
            Err(error) if error.kind() == ErrorKind::WouldBlock => {},
            ended => return ended,
        }
        c::poll(&mut [], BETWEEN);
    }
    Err(io::Error::from(ErrorKind::TimedOut))
}

/// Returns the connection that waits at a listener of the Unix domain.
pub(crate) fn accept(listener: &TcpListener) -> io::Result<TcpStream> {
    let mut bytes = [0; c::_SS_SIZE];
    let mut length = c::_SS_SIZE as u32;
    // The descriptor is open as long as `listener` is lent.
    let stream = unsafe {
        c::accept4(
            listener.as_raw_fd(),
            &mut bytes,
            &mut length,
            c::SOCK_CLOEXEC,
        )
    };
    if stream < 0 {
        return Err(last_error());
    }
    // The descriptor is new, and no other owner has its number.
    Ok(unsafe { TcpStream::from_raw_fd(stream) })
}

/// Returns whether a socket is of the Unix domain.
pub(crate) fn is_unix<S: AsRawFd>(socket: &S) -> bool {
    match own_address(socket.as_raw_fd()) {
        Ok(address) => family_of(&address) == c::AF_UNIX,
        Err(_) => false,
    }
}

/// Removes the file of a listener of the Unix domain.
pub(crate) fn remove<H: Files<File = File>>(rt: &H, listener: &TcpListener) {
    if let Ok(address) = own_address(listener.as_raw_fd()) {
        if let Some(path) = path_of(&address) {
            let _ = fs::remove_file(rt, path);
        }
    }
}

/// The address of a listener, or `unix:` and its path.
#[derive(Clone, Copy)]
pub struct ListeningOn<'a>(pub &'a TcpListener);

impl fmt::Display for ListeningOn<'_> {
    fn fmt<W: fmt::Write>(&self, f: &mut fmt::Formatter<W>) -> fmt::Result {
        if let Ok(address) = self.0.local_addr() {
            return write!(f, "{address}");
        }
        f.write_str("unix:")?;
        match own_address(self.0.as_raw_fd()) {
            Ok(address) => f.write_str(path_of(&address).unwrap_or("")),
            Err(_) => Ok(()),
        }
    }
}

fn path_in(name: &str) -> io::Result<&str> {
    match name.strip_prefix("unix:") {
        Some(path) if !path.is_empty() => Ok(path),
        _ => Err(io::Error::new(ErrorKind::InvalidInput, "it has no path")),
    }
}

// Returns the bytes of C's `sockaddr_un`: the family, the path and a zero.
fn raw_of(path: &str) -> io::Result<RawAddress>
    ensures { IfOk result (λ address. address.length ≤ 128) }
{
    let path = path.as_bytes();
    if path.len() > MOST_PATH || path.contains(&0) {
        return Err(io::Error::new(ErrorKind::InvalidInput, "its path has more than 107 bytes"));
    }
    let mut bytes = [0; c::_SS_SIZE];
    bytes[0..PATH_AT].copy_from_slice(&(c::AF_UNIX as u16).to_ne_bytes());
    bytes[PATH_AT..PATH_AT + path.len()].copy_from_slice(path);
    let length = (PATH_AT + path.len() + 1) as u32;
    Ok(RawAddress { bytes, length })
}

fn own_address(descriptor: RawFd) -> io::Result<RawAddress> {
    let mut bytes = [0; c::_SS_SIZE];
    let mut length = c::_SS_SIZE as u32;
    // The caller is lent the owner of the descriptor, so that it is open.
    check(unsafe { c::getsockname(descriptor, &mut bytes, &mut length) })?;
    Ok(RawAddress { bytes, length })
}

fn family_of(address: &RawAddress) -> i32 {
    i32::from(u16::from_ne_bytes([address.bytes[0], address.bytes[1]]))
}

// Returns the path of an address of the Unix domain, if it has one that is text.
fn path_of(address: &RawAddress) -> Option<&str> {
    if family_of(address) != c::AF_UNIX {
        return None;
    }
    let name = address.bytes.get(PATH_AT..address.length as usize)?;
    let end = name
        .iter()
        .position(|byte| *byte == 0)
        .unwrap_or(name.len());
    let path = str::from_utf8(name.get(..end)?).ok()?;
    if path.is_empty() { None } else { Some(path) }
}

fn new_listener() -> io::Result<TcpListener> {
    let kind = c::SOCK_STREAM | c::SOCK_CLOEXEC;
    let socket = unsafe { c::socket(c::AF_UNIX, kind, 0) };
    if socket < 0 {
        return Err(last_error());
    }
    // The descriptor is new, and no other owner has its number.
    Ok(unsafe { TcpListener::from_raw_fd(socket) })
}

fn bind(listener: &TcpListener, address: &RawAddress) -> io::Result<()>
    requires { address.now.length ≤ 128 }
{
    let RawAddress { bytes, length } = *address;
    // The descriptor is open as long as `listener` is lent.
    check(unsafe { c::bind(listener.as_raw_fd(), &bytes, length) })
}

// Asks for a connection, and does not wait for it.
fn connect(address: &RawAddress) -> io::Result<TcpStream>
    requires { address.now.length ≤ 128 }
{
    let RawAddress { bytes, length } = *address;
    let kind = c::SOCK_STREAM | c::SOCK_CLOEXEC | c::SOCK_NONBLOCK;
    let socket = unsafe { c::socket(c::AF_UNIX, kind, 0) };
    if socket < 0 {
        return Err(last_error());
    }
    // The descriptor is new, and no other owner has its number.
    let stream = unsafe { TcpStream::from_raw_fd(socket) };
    check(unsafe { c::connect(stream.as_raw_fd(), &bytes, length) })?;
    stream.set_nonblocking(false)?;
    Ok(stream)
}

// Returns whether a socket is at the path that no process serves.
fn is_left<H: Files<File = File>>(rt: &H, path: &str, address: &RawAddress) -> bool
    requires { address.now.length ≤ 128 }
{
    match fs::symlink_metadata(rt, path) {
        Ok(found) if found.file_type().is_socket() => {},
        _ => return false,
    }
    match connect(address) {
        Err(error) => error.kind() == ErrorKind::ConnectionRefused,
        Ok(_) => false,
    }
}
