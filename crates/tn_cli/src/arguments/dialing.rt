//! The options by which a connection is asked for.

use crate::arguments::lacks::{Lack, lacking};
use crate::arguments::options::{BIND, IPV4, IPV6};
use crate::arguments::values::is_flagged;
use crate::arguments::words::WordsFault;
use clap::ArgMatches;
use std::alloc::Global;
use std::net::IpAddr;
use tn_net::network::Family;

const TWO_FAMILIES: &str = "'-4' and '-6' exclude each other";

const NO_SOURCE: &str = "'--bind <ADDRESS>': it is no address of IPv4 or IPv6";

// The family of addresses that is asked for, if one is.
pub(crate) fn family<'a>(words: &ArgMatches<'a>) -> Result<Option<Family>, Lack<'a>> {
    match (is_flagged(words, IPV4), is_flagged(words, IPV6)) {
        (false, false) => Ok(None),
        (true, false) => Ok(Some(Family::Ipv4)),
        (false, true) => Ok(Some(Family::Ipv6)),
        (true, true) => Err(Lack::Words(TWO_FAMILIES)),
    }
}

// The address that the connection is to come from, if one is given.
pub(crate) fn source_of(
    alloc: Global,
    words: &ArgMatches<'_>,
) -> Result<Option<IpAddr>, WordsFault> {
    let Some(text) = words.get_str(BIND) else {
        return Ok(None);
    };
    match text.parse::<IpAddr>() {
        Ok(source) => Ok(Some(source)),
        Err(_) => Err(lacking(alloc, &Lack::Value(text, NO_SOURCE))),
    }
}
