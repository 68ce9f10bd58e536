//! The host and the port of a connection, as a command line names them.

ghost use Rattle.std.specs.Prelude.{IfOk, IfSome};
ghost use Rattle.tn_cli.specs.arguments.Ranges.{IsWithin, PortWithin};

use crate::arguments::lacks::{Lack, lacking};
use crate::arguments::options::{AT, AT_PLACE, HOST, PORT};
use crate::arguments::settings::{Port, place_in};
use crate::arguments::values::{given_short, is_given};
use crate::arguments::words::WordsFault;
use clap::ArgMatches;
use std::alloc::Global;

/// The host of a connection if none is named.
const THIS_MACHINE: &str = "127.0.0.1";

/// The port of a connection if only a host is named.
const TELNET_PORT: u16 = 23;

const NO_PORT: &str =
    "the following required arguments were not provided:\n  HOST, or --port <PORT>\n\n\
     Usage: tn connect [OPTIONS] [HOST] [PORT]";

const MORE_PORTS: &str = "more than one port is given\n\nUsage: tn connect [OPTIONS] [HOST] [PORT]";

const BAD_PORT: &str = "'[PORT]': it is no port of 1 to 65535, and no name of a service";

const NO_HOST: &str = "'[HOST]': it is no host, nor one with a port of 1 to 65535 behind a colon";

/// The host and the port of a connection.
#[derive(Drop)]
pub(crate) struct Place {
    pub(crate) host: String,
    pub(crate) port: Port,
}

// Returns the host and the port for which the arguments ask.
pub(crate) fn place_of(alloc: Global, words: &ArgMatches<'_>) -> Result<Place, WordsFault>
    ensures { IfOk result (λ place. PortWithin place.port) }
{
    let Some((host, within)) = named_place(words) else {
        let text = words.get_str(HOST).unwrap_or(THIS_MACHINE);
        return Err(lacking(alloc, &Lack::Value(text, NO_HOST)));
    };
    let port = port_asked(alloc, words, within)?;
    let host = String::from_str(alloc, host)?;
    Ok(Place { host, port })
}

// Returns the host that is named and the port within it, or this machine.
fn named_place<'a>(words: &ArgMatches<'a>) -> Option<(&'a str, Option<u16>)>
    ensures { IfSome result (λ place. IfSome place.1 (IsWithin 1 65535)) }
{
    match words.get_str(HOST) {
        Some(text) => place_in(text),
        None => Some((THIS_MACHINE, None)),
    }
}

// Returns the port that is asked for, by its number or by the name of its service.
fn port_asked(
    alloc: Global,
    words: &ArgMatches<'_>,
    within: Option<u16>,
) -> Result<Port, WordsFault>
    requires { IfSome within (IsWithin 1 65535) }
    ensures { IfOk result PortWithin }
{
    match words.get_str(AT_PLACE) {
        Some(name) if begins_with_letter(name) => service_of(alloc, words, within, name),
        _ => match port_of(words, within) {
            Some(port) => Ok(Port::Number(port)),
            None => Err(lacking(alloc, &port_lack(words))),
        },
    }
}

fn begins_with_letter(text: &str) -> bool {
    match text.as_bytes() {
        [first, ..] => first.is_ascii_alphabetic(),
        [] => false,
    }
}

// Returns the service of this name, unless a port is given too.
fn service_of(
    alloc: Global,
    words: &ArgMatches<'_>,
    within: Option<u16>,
    name: &str,
) -> Result<Port, WordsFault>
    ensures { IfOk result PortWithin }
{
    if is_given(words, PORT.name) || within.is_some() {
        return Err(lacking(alloc, &Lack::Words(MORE_PORTS)));
    }
    Ok(Port::Service(String::from_str(alloc, name)?))
}

// Returns the one number that is given, if no service is named.
fn port_of(words: &ArgMatches<'_>, within: Option<u16>) -> Option<u16>
    requires { IfSome within (IsWithin 1 65535) }
    ensures { IfSome result (IsWithin 1 65535) }
{
    let option = given_short(words, PORT)?;
    let place = given_short(words, AT)?;
    one_port(option, place, within, is_given(words, HOST))
}

// Returns the port that is given, or Telnet's if none is and a host is named; `None` if more are
// given.
fn one_port(
    option: Option<u16>,
    place: Option<u16>,
    within: Option<u16>,
    named: bool,
) -> Option<u16>
    requires option { IfSome option (IsWithin 1 65535) }
    requires place { IfSome place (IsWithin 1 65535) }
    requires within { IfSome within (IsWithin 1 65535) }
    ensures { IfSome result (IsWithin 1 65535) }
{
    match (option, place, within) {
        (Some(port), None, None) => Some(port),
        (None, Some(port), None) => Some(port),
        (None, None, Some(port)) => Some(port),
        (None, None, None) if named => Some(TELNET_PORT),
        _ => None,
    }
}

// Returns why the arguments give no port.
fn port_lack<'a>(words: &ArgMatches<'a>) -> Lack<'a> {
    if let Some(text) = words.get_str(AT_PLACE) {
        if given_short(words, AT).is_none() {
            return Lack::Value(text, BAD_PORT);
        }
    }
    if is_given(words, HOST) || is_given(words, PORT.name) {
        Lack::Words(MORE_PORTS)
    } else {
        Lack::Words(NO_PORT)
    }
}
