//! The files that a client appends to. Only their owner reads them, since they have what is typed and shown.

use std::fs::{File, Files, OpenOptions, Permissions};
use std::io::ErrorKind;
use std::os::unix::fs::{MetadataExt, OpenOptionsExt, PermissionsExt};
use std::{fs, io};

/// The mode of a file that only its owner reads and writes.
pub const PRIVATE: u32 = 0o600;

/// Opens the files that a client appends to.
pub trait ClientFiles {
    /// Opens a file for appending, which only its owner may read and write. A link is not followed.
    fn append_to(&self, path: &str) -> io::Result<File>;
}

impl<H: Files<File = File>> ClientFiles for H {
    fn append_to(&self, path: &str) -> io::Result<File> {
        if is_device(self, path) {
            return open_device(self, path);
        }
        let mut options = OpenOptions::new();
        options.mode(PRIVATE);
        options.append(true);
        options.create(true);
        let file = options.open(self, path)?;
        let named = fs::symlink_metadata(self, path)?;
        let opened = file.metadata()?;
        if named.is_symlink() || named.ino() != opened.ino() {
            return Err(io::Error::new(ErrorKind::PermissionDenied, "it is a link"));
        }
        file.set_permissions(Permissions::from_mode(PRIVATE))?;
        Ok(file)
    }
}

/// Returns whether the path leads to something that is no regular file: a terminal, a pipe, or a
/// descriptor.
pub fn is_device<H: Files<File = File>>(rt: &H, path: &str) -> bool {
    if path.starts_with("/dev/") || path.starts_with("/proc/") {
        return true;
    }
    match fs::metadata(rt, path) {
        Ok(found) => !found.is_file(),
        Err(_) => false,
    }
}

/// Opens what is there and no regular file. It has to be the user's own, or the system's.
pub fn open_device<H: Files<File = File>>(rt: &H, path: &str) -> io::Result<File> {
    let file = OpenOptions::new().write(true).open(rt, path)?;
    let owner = file.metadata()?.uid();
    if owner != 0 && owner != libc::geteuid() {
        return Err(io::Error::new(ErrorKind::PermissionDenied, "it is somebody else's"));
    }
    Ok(file)
}
