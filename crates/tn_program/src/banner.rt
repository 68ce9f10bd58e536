//! The file that each client of a server is shown first.

ghost use Rattle.std.specs.Prelude.{◌≡◌, ◌≢◌, None, OnErr, OnOk};

use std::alloc::Global;
use std::fs::{File, Files};
use std::io;
use std::io::{ErrorKind, Read, Write};
use std::sync::Arc;
use tn_cli::arguments::ServeWords;

/// The most bytes of such a file.
const MOST_BYTES: u64 = 65_536;

/// Reads the text that each client is shown first. If the file cannot be read, that is noted.
pub(crate) fn read_banner<H: Files<File = File>>(
    rt: &H,
    alloc: Global,
    asked: &ServeWords,
    causes: &mut Vec<u8>,
) -> io::Result<Option<Arc<Vec<u8>, Global>>>
    ensures { OnErr result (asked.now.banner ≢ None) }
{
    let Some(path) = &asked.banner else {
        return Ok(None);
    };
    match banner_in(rt, alloc, path.as_str()) {
        Ok(banner) => Ok(Some(banner)),
        Err(error) => {
            let _ = writeln!(causes, "tn: {}: {}", path, error);
            Err(error)
        },
    }
}

fn banner_in<H: Files<File = File>>(
    rt: &H,
    alloc: Global,
    path: &str,
) -> io::Result<Arc<Vec<u8>, Global>> {
    let mut bytes = Vec::new(alloc);
    let file = File::open(rt, path)?;
    file.take(MOST_BYTES + 1).read_to_end(&mut bytes)?;
    if bytes.len() as u64 > MOST_BYTES {
        return Err(io::Error::new(ErrorKind::InvalidData, "it has more than 65536 bytes"));
    }
    Ok(Arc::new(alloc, bytes)?)
}
