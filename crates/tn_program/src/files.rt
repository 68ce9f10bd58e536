//! The files of a client: the trace of its connection, and the log of its screen. Only their owner reads
//! them, since they have what is typed and shown.

ghost use Rattle.std.specs.Prelude.{◌≢◌, ◌⊎◌, None, OnErr};

use std::alloc::Global;
use std::fs::{File, Files, OpenOptions};
use std::io::Write;
use std::os::unix::fs::OpenOptionsExt;
use std::sync::Wait;
use std::{fs, io};
use tn_cli::arguments::ConnectWords;
use tn_connect::Link;
use tn_net::{ClientFiles, PRIVATE, is_device, open_device};

/// Opens the file that gets the trace, if one is wanted. If it cannot be made, that is noted.
pub(crate) fn open_trace<H: Files<File = File>>(
    rt: &H,
    alloc: Global,
    asked: &ConnectWords,
    causes: &mut Vec<u8>,
) -> io::Result<Option<File>>
    ensures { OnErr result (asked.now.trace ≢ None) }
{
    let Some(path) = &asked.trace else {
        return Ok(None);
    };
    match create_private(rt, alloc, path.as_str()) {
        Ok(file) => Ok(Some(file)),
        Err(error) => {
            let _ = writeln!(causes, "tn: {}: {}", path, error);
            Err(error)
        },
    }
}

/// Has what the screen gets appended to a file, if that is wanted. If it cannot be opened, that is
/// noted.
pub(crate) fn open_log<H: Files<File = File> + Wait>(
    rt: &H,
    asked: &ConnectWords,
    link: &Link,
    causes: &mut Vec<u8>,
) -> io::Result<()>
    ensures { OnErr result (asked.now.log ≢ None) }
{
    if asked.log_times {
        link.time_log();
    }
    let Some(path) = &asked.log else {
        return Ok(());
    };
    match rt.append_to(path.as_str()) {
        Ok(file) => {
            link.log_to(rt, file);
            Ok(())
        },
        Err(error) => {
            let _ = writeln!(causes, "tn: {}: {}", path, error);
            Err(error)
        },
    }
}

// An empty file. One that was there before is kept under its name and a tilde; a link is renamed itself, and
// not followed. What is no regular file is written to as it is.
fn create_private<H: Files<File = File>>(rt: &H, alloc: Global, path: &str) -> io::Result<File> {
    if is_device(rt, path) {
        return open_device(rt, path);
    }
    if fs::symlink_metadata(rt, path).is_ok() {
        let mut kept = String::from_str(alloc, path)?;
        kept.push('~')?;
        fs::rename(rt, path, kept.as_str())?;
    }
    let mut options = OpenOptions::new();
    options.mode(PRIVATE);
    options.write(true);
    options.create_new(true);
    options.open(rt, path)
}
