//! By which address a host is counted, and shown.

ghost use Rattle.std.specs.Prelude.{◌≡◌};
ghost use Rattle.tn_serve.specs.Places.{counted_as, host_of, subnet_of};

use std::net::{IpAddr, Ipv6Addr, SocketAddr};
use tn_net::network::Peer;

/// Returns the address as which a peer is counted, if it is. A peer over a Unix-domain socket is
/// not: no bound is its own.
pub(crate) fn counted_as(peer: Peer) -> Option<IpAddr>
    ensures { result ≡ counted_as peer }
{
    match peer {
        Peer::Address(address) => Some(host_of(address.ip())),
        Peer::Unix => None,
    }
}

// Returns an address of IPv4 whole, or the first 64 bits of one of IPv6. A host chooses the others
// (RFC 4291, 2.5.1).
fn host_of(address: IpAddr) -> IpAddr
    ensures { result ≡ host_of address }
{
    match address {
        IpAddr::V4(_) => address,
        IpAddr::V6(address) => IpAddr::V6(subnet_of(address)),
    }
}

fn subnet_of(address: Ipv6Addr) -> Ipv6Addr
    ensures { result ≡ subnet_of address }
{
    let parts = address.segments();
    Ipv6Addr::new(parts[0], parts[1], parts[2], parts[3], 0, 0, 0, 0)
}

/// Returns an address of IPv4 that IPv6 carries (RFC 4291, 2.5.5.2) as that of IPv4, and any other
/// as it is.
pub(crate) fn shown(peer: Peer) -> Peer {
    match peer {
        Peer::Address(address) => Peer::Address(SocketAddr::new(
            address.ip().to_canonical(),
            address.port(),
        )),
        Peer::Unix => peer,
    }
}
