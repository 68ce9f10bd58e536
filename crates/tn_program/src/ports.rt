//! The port that is asked for, whose number services(5) may have.

ghost use Rattle.std.specs.Prelude.{◌≡◌, IfSome, None};
ghost use Rattle.tn_program.specs.Ports.{IsPort, IsService};

use std::alloc::Global;
use std::fs::{File, Files};
use std::io::{Read, Write};
use std::{io, str};
use tn_cli::arguments::Port;

/// The services of this machine, one a line: a name, a port with its protocol, and other names (services(5)).
const SERVICES: &str = "/etc/services";

/// Returns the port that is asked for. If it is of a service that this machine does not know, that
/// is noted.
pub(crate) fn port_of<H: Files<File = File>>(
    rt: &H,
    alloc: Global,
    asked: &Port,
    causes: &mut Vec<u8>,
) -> Option<u16>
    ensures port { IfSome result (IsPort asked.now) }
    ensures unknown { result ≡ None → IsService asked.now }
{
    match asked {
        Port::Number(port) => Some(*port),
        Port::Service(name) => port_of_service(rt, alloc, name.as_str(), causes),
    }
}

// Returns the port of the service of this name.
fn port_of_service<H: Files<File = File>>(
    rt: &H,
    alloc: Global,
    name: &str,
    causes: &mut Vec<u8>,
) -> Option<u16> {
    let services = match read_services(rt, alloc) {
        Ok(services) => services,
        Err(error) => {
            let _ = writeln!(causes, "tn: {}: {}: {}", name, SERVICES, error);
            return None;
        },
    };
    let port = port_among(&services, name);
    if port.is_none() {
        let _ = writeln!(
            causes,
            "tn: {}: {} has no TCP service of this name",
            name, SERVICES
        );
    }
    port
}

fn read_services<H: Files<File = File>>(rt: &H, alloc: Global) -> io::Result<Vec<u8>> {
    let mut services = Vec::new(alloc);
    File::open(rt, SERVICES)?.read_to_end(&mut services)?;
    Ok(services)
}

// Returns the port that the first line with this service has.
fn port_among(services: &[u8], name: &str) -> Option<u16> {
    for line in services.split(|byte| *byte == b'\n') {
        if let Some(port) = port_in(line, name) {
            return Some(port);
        }
    }
    None
}

// Returns the port of a line, if the line has this service, for TCP.
fn port_in(line: &[u8], name: &str) -> Option<u16> {
    let line = str::from_utf8(line).ok()?;
    let line = match line.split_once('#') {
        Some((line, _)) => line,
        None => line,
    };
    let mut words = line.split_ascii_whitespace();
    let first = words.next()?;
    let (number, protocol) = words.next()?.split_once('/')?;
    if protocol != "tcp" {
        return None;
    }
    if first == name {
        return number.parse::<u16>().ok();
    }
    for other in words {
        if other == name {
            return number.parse::<u16>().ok();
        }
    }
    None
}
