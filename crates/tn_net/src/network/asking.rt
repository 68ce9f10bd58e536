//! The requests to a network.

use crate::network::handed::{connection_of, listener_at};
use crate::network::paths;
use crate::network::paths::{is_unix, names_path};
use crate::network::peers::Peer;
use crate::network::sourced::dial_from;
use std::fs::{File, Files};
use std::io;
use std::io::{ErrorKind, Write};
use std::net::{
    HostAddrs, IpAddr, Net, Shutdown, SocketAddr, TcpListener, TcpStream, ToSocketAddrs,
};
use std::time::Duration;

/// A network, as it is asked. Each relation holds of what was asked in a call, and of its answer; nothing
/// else gives one. A thread may rest on this trait: it names no types of the network.
pub trait Network {
    ghost use Rattle.std.specs.{Prelude.{ℕ, List, Option, Result}, declared.io.Error.Error};
    ghost use Rattle.std.specs.declared.net.{socket_addr.SocketAddr.SocketAddr, tcp.TcpListener.TcpListener};
    ghost use Rattle.std.specs.{declared.net.tcp.TcpStream.TcpStream, Net.ToAddrs.HostAddrs};
    ghost use Rattle.tn_net.specs.declared.network.peers.Peer.{Peer};

    // a listener at this host and this port, at this path, which is `unix:` and a path for a host, or the one
    // that is handed in at this descriptor
    ghost listens: { Self → List ℕ → ℕ → Option ℕ → Result TcpListener Error → Type 0 };

    // one more handle of the same listener
    ghost shares: { Self → TcpListener → Result TcpListener Error → Type 0 };

    // a connection of this listener, as the one of this number, counted from 0
    ghost accepts: { Self → TcpListener → ℕ → Result (TcpStream × Peer) Error → Type 0 };

    // a connection was sent these words and the end of the stream
    ghost dismisses: { Self → TcpStream → List ℕ → TcpStream → Type 0 };

    // the addresses of this host, with this port
    ghost finds: { Self → List ℕ → ℕ → Result HostAddrs Error → Type 0 };

    // a connection to this address
    ghost dials: { Self → SocketAddr → Result TcpStream Error → Type 0 };

    // a connection to the socket of this name, which is `unix:` and its path
    ghost joins: { Self → List ℕ → Result TcpStream Error → Type 0 };

    /// Listens at a host, an address or a name that has one, or `unix:` and the path of a socket, which has
    /// no port; or at the socket that the process was started with at this descriptor. If that socket is a
    /// connection, it is the first that comes.
    fn listen(&self, host: &str, port: u16, handed: Option<u16>) -> io::Result<TcpListener>
        ensures { listens self.now host.now port handed result };

    fn share(&self, listener: &TcpListener) -> io::Result<TcpListener>
        ensures { shares self.now listener.now result };

    /// Waits for a connection, which is to have this number, and for whom it is from.
    fn accept(&self, listener: &TcpListener, number: u64) -> io::Result<(TcpStream, Peer)>
        ensures { accepts self.now listener.now number result };

    /// Removes the file of a listener at a path.
    fn remove(&self, listener: &TcpListener);

    /// Sends a connection these words, and the end of the stream. It is not closed. If it does not
    /// take them, they are dropped.
    fn dismiss(&self, stream: TcpStream, words: &[u8]) -> TcpStream
        ensures { dismisses self.now stream words.now result };

    fn find(&self, host: &str, port: u16) -> io::Result<HostAddrs>
        ensures { finds self.now host.now port result };

    /// Asks for a connection from this address of the machine, if one is named. It is waited for at most this
    /// many seconds; at 0 as long as the system waits.
    fn dial(
        &self,
        address: SocketAddr,
        source: Option<IpAddr>,
        seconds: u32,
    ) -> io::Result<TcpStream>
        ensures { dials self.now address result };

    /// Asks for a connection to the socket of this name, which is `unix:` and its path. While others wait for
    /// it, it is asked for again, for a second at most.
    fn join(&self, name: &str) -> io::Result<TcpStream>
        ensures { joins self.now name.now result };
}

impl<H: Net<Listener = TcpListener, Stream = TcpStream> + Files<File = File>> Network for H {
    ghost listens = { λ _ _ _ _ _. Unit {0} };

    ghost shares = { λ _ _ _. Unit {0} };

    ghost accepts = { λ _ _ _ _. Unit {0} };

    ghost dismisses = { λ _ _ _ _. Unit {0} };

    ghost finds = { λ _ _ _ _. Unit {0} };

    ghost dials = { λ _ _ _. Unit {0} };

    ghost joins = { λ _ _ _. Unit {0} };

    fn listen(&self, host: &str, port: u16, handed: Option<u16>) -> io::Result<TcpListener> {
        match handed {
            Some(descriptor) => listener_at(descriptor),
            None if names_path(host) => paths::listen_at(self, host),
            None => TcpListener::bind(self, (host, port)),
        }
    }

    fn share(&self, listener: &TcpListener) -> io::Result<TcpListener> {
        listener.try_clone()
    }

    fn accept(&self, listener: &TcpListener, number: u64) -> io::Result<(TcpStream, Peer)> {
        match next_of(listener) {
            Err(error) if number == 0 && error.kind() == ErrorKind::InvalidInput => {
                connection_of(listener)
            },
            accepted => accepted,
        }
    }

    fn remove(&self, listener: &TcpListener) {
        paths::remove(self, listener);
    }

    fn dismiss(&self, mut stream: TcpStream, words: &[u8]) -> TcpStream {
        let _ = stream.write_all(words);
        let _ = stream.shutdown(Shutdown::Write);
        stream
    }

    fn find(&self, host: &str, port: u16) -> io::Result<HostAddrs> {
        (host, port).to_socket_addrs(self)
    }

    fn dial(
        &self,
        address: SocketAddr,
        source: Option<IpAddr>,
        seconds: u32,
    ) -> io::Result<TcpStream> {
        if let Some(source) = source {
            return dial_from(source, address, seconds);
        }
        if seconds == 0 {
            return TcpStream::connect(self, address);
        }
        let time = Duration::from_secs(u64::from(seconds));
        TcpStream::connect_timeout(self, &address, time)
    }

    fn join(&self, name: &str) -> io::Result<TcpStream> {
        paths::join(name)
    }
}

// Returns the next connection of a listener.
fn next_of(listener: &TcpListener) -> io::Result<(TcpStream, Peer)> {
    if is_unix(listener) {
        return Ok((paths::accept(listener)?, Peer::Unix));
    }
    let (stream, address) = listener.accept()?;
    Ok((stream, Peer::Address(address)))
}
