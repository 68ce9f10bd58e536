//! A socket that this process was started with, which `std::net` has no call for.

use crate::network::paths::is_unix;
use crate::network::peers::Peer;
use os::FromRawFd;
use std::io;
use std::net::{TcpListener, TcpStream};
use std::os::fd::{IntoRawFd, OwnedFd};

/// Returns one more handle of the socket at this descriptor. It listens, or it is a connection,
/// which `connection_of` gives. The descriptor stays open, as the starter of this process left it.
///
/// # Errors
///
/// - There is no socket of IPv4, IPv6 or the Unix domain at the descriptor.
pub(crate) fn listener_at(descriptor: u16) -> io::Result<TcpListener> {
    let lent = at(descriptor);
    let ours = own(&lent);
    // The descriptor was only lent, and closing it could close another that was opened in its place
    // since.
    let _ = lent.into_raw_fd();
    ours
}

fn at(descriptor: u16) -> TcpListener {
    // Its one user makes a handle of its own of it, and then forgets it: at no time is it closed.
    unsafe { TcpListener::from_raw_fd(i32::from(descriptor)) }
}

fn own(lent: &TcpListener) -> io::Result<TcpListener> {
    let ours = lent.try_clone()?;
    if !is_unix(&ours) {
        ours.local_addr()?;
    }
    ours.set_nonblocking(false)?;
    Ok(ours)
}

/// Returns the connection that a socket is, if it listens to none, and its other end.
pub(crate) fn connection_of(listener: &TcpListener) -> io::Result<(TcpStream, Peer)> {
    let stream = TcpStream::from(OwnedFd::from(listener.try_clone()?));
    let peer = peer_of(&stream)?;
    Ok((stream, peer))
}

fn peer_of(stream: &TcpStream) -> io::Result<Peer> {
    if is_unix(stream) {
        return Ok(Peer::Unix);
    }
    Ok(Peer::Address(stream.peer_addr()?))
}
