//! The addresses and the socket that a server listens on, as a command line names them.

ghost use Rattle.std.specs.{Prelude.{◌≡◌, ◌≢◌, None, IfOk, IfSome, string_bytes}, List.list_all};
ghost use Rattle.tn_net.specs.network.Asked.{names_path};
ghost use Rattle.tn_cli.specs.arguments.Ranges.{HasPort, IsWithin};

use crate::arguments::lacks::{Lack, lacking, no_value};
use crate::arguments::options::{COUNT, FOREVER, HOST, LISTEN_FD, PORT, STDIN};
use crate::arguments::settings::Socket;
use crate::arguments::values::{given_short, is_flagged, is_given};
use crate::arguments::words::WordsFault;
use clap::ArgMatches;
use std::alloc::{AllocError, Global};
use tn_net::network::names_path;

/// The descriptor of standard input (POSIX).
const STANDARD_INPUT: u16 = 0;

const NO_SOCKET: &str =
    "the following required arguments were not provided:\n  --port <PORT>, --listen-fd <FD> or --stdin\n\n\
     Usage: tn serve [OPTIONS]";

const MORE_SOCKETS: &str = "'--port', '--listen-fd' and '--stdin' exclude each other";

const NO_PORT_AT_PATHS: &str = "'--port' needs a '--host' that is no path";

const ONE_CONNECTION: &str = "'--stdin' is one connection, and excludes '--count' and '--forever'";

// The addresses to listen on, or paths.
pub(crate) fn hosts_of(alloc: Global, words: &ArgMatches<'_>) -> Result<Vec<String>, WordsFault> {
    let Some(texts) = words.get_strs(HOST) else {
        return Err(no_value(alloc));
    };
    Ok(strings_of(alloc, texts)?)
}

fn strings_of(alloc: Global, texts: &[&str]) -> Result<Vec<String>, AllocError> {
    let mut strings = Vec::new(alloc);
    for text in texts {
        strings.push(String::from_str(alloc, text)?)?;
    }
    Ok(strings)
}

// The one socket that is asked for with these addresses.
pub(crate) fn socket_of(
    alloc: Global,
    words: &ArgMatches<'_>,
    hosts: &[String],
) -> Result<Socket, WordsFault>
    ensures { IfOk result (HasPort (list_all (λ host. names_path (string_bytes host)) hosts.now)) }
{
    let Some(port) = given_short(words, PORT) else {
        return Err(no_value(alloc));
    };
    let Some(descriptor) = given_short(words, LISTEN_FD) else {
        return Err(no_value(alloc));
    };
    match socket_at(words, are_paths(hosts), port, descriptor) {
        Some(socket) => Ok(socket),
        None => Err(lacking(alloc, &socket_lack(words))),
    }
}

// Whether each of them is a path.
fn are_paths(hosts: &[String]) -> bool
    ensures { result ≡ list_all (λ host. names_path (string_bytes host)) hosts.now }
{
    hosts.iter().all(|host| names_path(host))
}

// At a port, at a descriptor, or at paths without a port; `None` if that is not one of the three.
fn socket_at(
    words: &ArgMatches<'_>,
    on_paths: bool,
    port: Option<u16>,
    descriptor: Option<u16>,
) -> Option<Socket>
    requires { IfSome port (IsWithin 1 65535) }
    ensures { IfSome result (HasPort on_paths) }
{
    match (port, descriptor, is_flagged(words, STDIN)) {
        (Some(port), None, false) if !on_paths => Some(Socket { port, handed: None }),
        (None, Some(descriptor), false) => Some(handed(descriptor)),
        (None, None, true) if !has_count(words) => Some(handed(STANDARD_INPUT)),
        (None, None, false) if on_paths => Some(Socket {
            port: 0,
            handed: None,
        }),
        _ => None,
    }
}

fn handed(descriptor: u16) -> Socket
    ensures { result.handed ≢ None }
{
    Socket {
        port: 0,
        handed: Some(descriptor),
    }
}

fn has_count(words: &ArgMatches<'_>) -> bool {
    is_flagged(words, FOREVER) || is_given(words, COUNT.name)
}

// Why the words give no socket.
fn socket_lack<'a>(words: &ArgMatches<'_>) -> Lack<'a> {
    let port = is_given(words, PORT.name);
    let descriptor = is_given(words, LISTEN_FD.name);
    let stdin = is_flagged(words, STDIN);
    match (port, descriptor, stdin) {
        (false, false, false) => Lack::Words(NO_SOCKET),
        (false, false, true) => Lack::Words(ONE_CONNECTION),
        (true, false, false) => Lack::Words(NO_PORT_AT_PATHS),
        _ => Lack::Words(MORE_SOCKETS),
    }
}
