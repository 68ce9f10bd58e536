//! One end of a connection, as a session uses it.

ghost use Rattle.std.specs.Prelude.{◌≡◌, IfOk, Some};
ghost use Rattle.libc.specs.Net.{SockOption};

use crate::attended::Standing;
use libc::net as c;
use std::alloc::Global;
use std::io;
use std::io::Write;
use std::net::{Shutdown, TcpStream};
use std::os::fd::AsRawFd;
use std::sync::Arc;
use tn_cores::streams::Finish;

/// After how many seconds without a byte the first keepalive probe is sent, how many seconds lie between two
/// probes, and after how many unanswered ones the connection is broken.
const KEEPALIVE_IDLE: u8 = 60;

const KEEPALIVE_INTERVAL: u8 = 15;

const KEEPALIVE_COUNT: u8 = 4;

/// A stream of which each direction can be closed.
pub trait Closing {
    fn close(&self, how: Shutdown);
}

impl Closing for TcpStream {
    fn close(&self, how: Shutdown) {
        let _ = self.shutdown(how);
    }
}

/// The writing side of a connection. Finishing it shuts it down, so that the peer reads its end.
#[derive(Drop)]
pub struct Connection<S> {
    stream: S,
    standing: Option<Arc<Standing, Global>>,
}

impl Connection<TcpStream> {
    /// Splits a connection into its two sides, the reading one first. Bytes that are written are
    /// sent at once: a session writes its echo and its job's text separately, and the second would
    /// otherwise wait until the first is acknowledged. TCP keepalive finds a peer whose machine is
    /// gone.
    ///
    /// # Errors
    ///
    /// - The system's error for one more handle of the connection.
    pub fn split(stream: TcpStream) -> io::Result<(TcpStream, Connection<TcpStream>)>
        ensures { IfOk result (λ sides. sides.1.stream ≡ stream) }
    {
        // A socket of the Unix domain has no such options.
        let _ = stream.set_nodelay(true);
        keep_alive(&stream);
        let reader = stream.try_clone()?;
        let standing = None;
        Ok((reader, Connection { stream, standing }))
    }
}

impl<S: Drop> Connection<S> {
    /// Gives the connection a standing, which its reading side shares, so that it sees when the
    /// writing side is finished.
    pub fn with_standing(self, standing: Arc<Standing, Global>) -> Connection<S>
        ensures stream { result.stream ≡ self.stream }
        ensures standing { result.standing ≡ Some standing }
    {
        let standing = Some(standing);
        Connection { standing, ..self }
    }

    /// Returns the connection itself, which is not finished.
    pub fn into_stream(self) -> S
        ensures { result ≡ self.stream }
    {
        let Connection { stream, .. } = self;
        stream
    }
}

// Turns keepalive on. If the system refuses one of its options, the connection goes on without it.
fn keep_alive(stream: &TcpStream) {
    set(stream, c::SOL_SOCKET, c::SO_KEEPALIVE, 1);
    set(stream, c::IPPROTO_TCP, c::TCP_KEEPIDLE, KEEPALIVE_IDLE);
    set(stream, c::IPPROTO_TCP, c::TCP_KEEPINTVL, KEEPALIVE_INTERVAL);
    set(stream, c::IPPROTO_TCP, c::TCP_KEEPCNT, KEEPALIVE_COUNT);
}

// Sets an option of a socket, a C integer in this machine's order.
fn set(stream: &TcpStream, level: i32, name: i32, value: u8)
    requires { SockOption level name }
{
    let mut bytes = [0; 16];
    bytes[0] = value;
    // The descriptor is open as long as `stream` is lent, and the value holds no pointer.
    let _ = unsafe { c::setsockopt(stream.as_raw_fd(), level, name, &bytes, 4) };
}

impl<S: Write> Write for Connection<S> {
    ghost contents = { λ connection. S.Write.contents connection.stream };

    fn write(&mut self, buf: &[u8]) -> io::Result<usize> {
        self.stream.write(buf)
    }

    fn flush(&mut self) -> io::Result<()> {
        self.stream.flush()
    }
}

impl<S: Write + Closing> Finish for Connection<S> {
    fn finish(&mut self) {
        if let Some(standing) = &self.standing {
            standing.finish();
        }
        self.stream.close(Shutdown::Write);
    }
}
