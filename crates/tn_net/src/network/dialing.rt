//! The way in which a connection is asked for.

ghost use Rattle.std.specs.Prelude.{◌≡◌, None, option_map};
ghost use Rattle.tn_net.specs.network.Dialing.{family_of, is_of, suits};

use std::net::{IpAddr, SocketAddr};

/// The most seconds for which an address is waited for if no time is given and another address is
/// left.
const NEXT_AFTER: u32 = 2;

/// A family of addresses.
#[derive(Clone, Copy, Debug, PartialEq, Eq)]
pub enum Family {
    Ipv4,
    Ipv6,
}

impl Family {
    fn of(address: IpAddr) -> Family
        ensures { result ≡ family_of address }
    {
        match address {
            IpAddr::V4(_) => Family::Ipv4,
            IpAddr::V6(_) => Family::Ipv6,
        }
    }
}

/// The options by which a connection is asked for.
#[derive(Clone, Copy, Debug, PartialEq, Eq)]
pub struct Dialing {
    /// The one family whose addresses are tried; if none is named, both are.
    pub family: Option<Family>,
    /// The address of this machine that the connection comes from; if none is named, the system chooses it.
    pub source: Option<IpAddr>,
    /// The most seconds for which each address is waited for. At 0 it is 2 seconds (`NEXT_AFTER`),
    /// and for the last address as long as the system waits.
    pub seconds: u32,
}

impl Dialing {
    /// Tries all addresses, each for this many seconds, from any address of this machine.
    pub fn within(seconds: u32) -> Dialing
        ensures family { result.family ≡ None }
        ensures source { result.source ≡ None }
        ensures seconds { result.seconds ≡ seconds }
    {
        Dialing {
            family: None,
            source: None,
            seconds,
        }
    }

    /// Returns whether this address is tried: its family is the one that was asked for, and that of
    /// the source.
    pub(crate) fn suits(&self, address: &SocketAddr) -> bool
        ensures { result ≡ suits self.now address.now }
    {
        is_of(self.family, address) && self.suits_source(address)
    }

    fn suits_source(&self, address: &SocketAddr) -> bool
        ensures { result ≡ is_of (option_map family_of self.now.source) address.now }
    {
        match self.source {
            Some(source) => is_of(Some(Family::of(source)), address),
            None => true,
        }
    }

    /// Returns the number of seconds for which an address is waited for, if this many addresses are
    /// left after it.
    pub(crate) fn seconds_for(&self, left: usize) -> u32 {
        if self.seconds > 0 {
            return self.seconds;
        }
        if left > 0 { NEXT_AFTER } else { 0 }
    }
}

// Returns whether an address is of a family, if one is named.
fn is_of(family: Option<Family>, address: &SocketAddr) -> bool
    ensures { result ≡ is_of family address.now }
{
    match (family, address) {
        (None, _) => true,
        (Some(Family::Ipv4), SocketAddr::V4(_)) => true,
        (Some(Family::Ipv6), SocketAddr::V6(_)) => true,
        _ => false,
    }
}
