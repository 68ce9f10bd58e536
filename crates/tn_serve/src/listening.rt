//! A listener at a host.

ghost use Rattle.std.specs.Prelude.{IfErr, IfOk, map, vec_items};
ghost use Rattle.tn_net.specs.network.Asked.{AreRefusedAt, GiveEach, at_place};
ghost use Rattle.tn_serve.specs.Causes.{place_at};

use crate::acceptor::remove_files;
use std::alloc::{AllocError, Global};
use std::io;
use std::net::TcpListener;
use tn_net::network::{Network, names_path};

/// A place to listen: a host, which is an address or a name that has one, and this port of it; a
/// path, if the host is `unix:` and that path; or the socket with which the process was started at
/// this descriptor.
#[derive(Clone, Copy)]
pub struct At<'a> {
    pub host: &'a str,
    pub port: u16,
    pub handed: Option<u16>,
}

/// Listens at each of these places. If that cannot be at one, `causes` gets a line, which says why,
/// and those before it are given up.
pub(crate) fn listen_all<N: Network>(
    net: &N,
    alloc: Global,
    at: &[At<'_>],
    causes: &mut Vec<u8>,
) -> io::Result<Vec<TcpListener>>
    ensures given { IfOk result (λ listeners.
        GiveEach (at_place (N.listens net.now)) (map place_at at.now) (vec_items listeners)) }
    ensures refused { IfErr result (AreRefusedAt (at_place (N.listens net.now)) (map place_at at.now)) }
{
    let mut listeners = Vec::new(alloc);
    for place in at {
        match listen_at(net, alloc, *place, causes) {
            Ok(listener) => listeners.push(listener)?,
            Err(error) => {
                remove_files(net, &listeners);
                return Err(error);
            },
        }
    }
    Ok(listeners)
}

// Listens at this place. If that cannot be, `causes` gets a line, which says why.
fn listen_at<N: Network>(
    net: &N,
    alloc: Global,
    at: At<'_>,
    causes: &mut Vec<u8>,
) -> io::Result<TcpListener>
    ensures { N.listens net.now at.entry.host.now at.entry.port at.entry.handed result }
{
    match net.listen(at.host, at.port, at.handed) {
        Ok(listener) => Ok(listener),
        Err(error) => {
            if let Ok(line) = why_not(alloc, at, &error) {
                let _ = causes.extend_from_slice(line.as_bytes());
            }
            Err(error)
        },
    }
}

// Why nothing listens there.
fn why_not(alloc: Global, at: At<'_>, error: &io::Error) -> Result<String, AllocError> {
    let place = place_text(alloc, at)?;
    format!(in alloc; "tn: cannot listen on {place}: {error}\n")
}

// The host and the port, an address of IPv6 between brackets (RFC 3986, 3.2.2); or the path, or the descriptor.
fn place_text(alloc: Global, at: At<'_>) -> Result<String, AllocError> {
    match at.handed {
        Some(descriptor) => format!(in alloc; "descriptor {descriptor}"),
        None if names_path(at.host) => String::from_str(alloc, at.host),
        None if at.host.contains(':') && !at.host.starts_with('[') => {
            format!(in alloc; "[{}]:{}", at.host, at.port)
        },
        None => format!(in alloc; "{}:{}", at.host, at.port),
    }
}
