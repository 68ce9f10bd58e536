//! A connection to a host.

ghost use Rattle.std.specs.Prelude.{◌≡◌, [], OnOk};
ghost use Rattle.tn_net.specs.network.{Asked.{Reaches, ReachesBy, ReachesService, names_path}, Dialing.suits};

use crate::network::asking::Network;
use crate::network::dialing::Dialing;
use crate::network::paths::names_path;
use std::io;
use std::io::{ErrorKind, Write};
use std::net::{HostAddrs, IpAddr, SocketAddr, TcpStream};

/// A receiver of each address before a connection to it is asked for.
pub trait Trying {
    fn try_address(&mut self, address: &SocketAddr);
}

/// A receiver that does nothing with the addresses.
#[derive(Drop)]
pub struct Unheard;

impl Trying for Unheard {
    fn try_address(&mut self, _address: &SocketAddr) {}
}

/// Connects to a host by any of its addresses, each of which is waited for at most this number of
/// seconds: it is `reach_by` with `Dialing::within`.
///
/// # Errors
///
/// - The error of the last address, or of the look-up; `causes` gets a line for each address.
pub fn reach<N: Network, T: Trying>(
    net: &N,
    host: &str,
    port: u16,
    seconds: u32,
    trying: &mut T,
    causes: &mut Vec<u8>,
) -> io::Result<TcpStream>
    ensures reaches { Reaches (N.finds net.now host.now port) (N.dials net.now) result }
    ensures uncaused { OnOk result (causes.new.items ≡ []) }
{
    reach_by(net, host, port, Dialing::within(seconds), trying, causes)
}

/// Connects to a service: to the socket that `host` names by `unix:` and a path, or by any of the
/// addresses of `host`, each of which is waited for at most this number of seconds.
///
/// # Errors
///
/// - The error of the socket, of the last address, or of the look-up; `causes` gets a line for
///   each.
pub fn reach_service<N: Network>(
    net: &N,
    host: &str,
    port: u16,
    seconds: u32,
    causes: &mut Vec<u8>,
) -> io::Result<TcpStream>
    ensures { ReachesService (names_path host.now) (N.joins net.now host.now)
        (N.finds net.now host.now port) (N.dials net.now) result }
{
    if !names_path(host) {
        return reach(net, host, port, seconds, &mut Unheard, causes);
    }
    let joined = net.join(host);
    note_unjoined(causes, host, &joined);
    joined
}

// Notes why the socket of this name takes no connection, if that is so.
fn note_unjoined(causes: &mut Vec<u8>, name: &str, joined: &io::Result<TcpStream>) {
    if let Err(error) = joined {
        let _ = writeln!(causes, "tn: {}: {}", name, error);
    }
}

/// Connects to a host, an address or a name: of its addresses that are asked for, to the first that
/// takes a connection. Each is waited for as long as `dialing` says.
///
/// # Errors
///
/// - The error of the last address, or of the look-up; `causes` gets a line for each address.
pub fn reach_by<N: Network, T: Trying>(
    net: &N,
    host: &str,
    port: u16,
    dialing: Dialing,
    trying: &mut T,
    causes: &mut Vec<u8>,
) -> io::Result<TcpStream>
    ensures reaches { ReachesBy (suits dialing) (N.finds net.now host.now port) (N.dials net.now) result }
    ensures uncaused { OnOk result (causes.new.items ≡ []) }
{
    let addresses = match net.find(host, port) {
        Ok(addresses) => addresses,
        Err(error) => {
            let _ = writeln!(causes, "tn: {}: {}", host, error);
            return Err(error);
        },
    };
    let mut left = count_suited(&dialing, &addresses);
    if left == 0 {
        let _ = writeln!(
            causes,
            "tn: {}: it has no address of the family that is asked for",
            host
        );
    }
    let mut last = io::Error::from(ErrorKind::NotFound);
    for address in addresses {
        if !dialing.suits(&address) {
            continue;
        }
        left = left.saturating_sub(1);
        trying.try_address(&address);
        match net.dial(address, dialing.source, dialing.seconds_for(left)) {
            Ok(stream) => {
                causes.clear();
                return Ok(stream);
            },
            Err(error) => {
                note_refused(causes, &address, dialing.source, &error);
                last = error;
            },
        }
    }
    Err(last)
}

// Returns the number of these addresses that are tried.
fn count_suited(dialing: &Dialing, addresses: &HostAddrs) -> usize {
    let Ok(addresses) = addresses.clone() else {
        return 0;
    };
    let mut count = 0usize;
    for address in addresses {
        if dialing.suits(&address) {
            count = count.saturating_add(1);
        }
    }
    count
}

// Notes why an address takes no connection, and which address of this machine asked for one.
fn note_refused(
    causes: &mut Vec<u8>,
    address: &SocketAddr,
    source: Option<IpAddr>,
    error: &io::Error,
) {
    let _ = match source {
        Some(source) => writeln!(causes, "tn: {} from {}: {}", address, source, error),
        None => writeln!(causes, "tn: {}: {}", address, error),
    };
}
