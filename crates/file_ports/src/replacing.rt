//! New bytes in the place of a file: what it held stays whole until they are on the disk.

use std::alloc::{AllocGlobal, Global};
use std::fs;
use std::fs::{File, OpenFile, OpenOptions, Permissions};
use std::io::{Error, ErrorKind, Result, Write};
use std::path::PathBuf;
use std::rt::Files;

// How many names are tried for the new file.
const NAMES: u32 = 100;

// Where a new file goes: the path behind all links, and the permissions of the file that is there.
#[derive(Drop)]
struct Place {
    path: PathBuf,
    permissions: Option<Permissions>,
}

// The place of a regular file that may be written, or of none yet. Anything else is no place for a new file: a device, a pipe, a link
// that leads nowhere.
fn place_of<R: Files + AllocGlobal>(rt: &R, name: &str) -> Result<Option<Place>> {
    let found = match fs::metadata(rt, name) {
        Ok(found) => found,
        Err(error) if error.kind() == ErrorKind::NotFound => return new_place(rt, name),
        Err(error) => return Err(error),
    };
    if !found.is_file() {
        return Ok(None);
    }
    OpenOptions::new().write(true).open(rt, name)?;
    Ok(Some(Place {
        path: fs::canonicalize(rt, name)?,
        permissions: Some(found.permissions()),
    }))
}

fn new_place<R: Files + AllocGlobal>(rt: &R, name: &str) -> Result<Option<Place>> {
    if fs::symlink_metadata(rt, name).is_ok() {
        return Ok(None);
    }
    Ok(Some(Place {
        path: PathBuf::from_str(rt.alloc(), name)?,
        permissions: None,
    }))
}

// A new file in the folder of a path, with its name. Names that are taken are passed over.
fn create_beside<R: Files>(rt: &R, alloc: Global, path: &str) -> Result<(String, R::File)> {
    for number in 0..NAMES {
        let name = format!(in alloc; "{path}.new{number}")?;
        match File::create_new(rt, &name) {
            Ok(file) => return Ok((name, file)),
            Err(error) if error.kind() == ErrorKind::AlreadyExists => {}
            Err(error) => return Err(error),
        }
    }
    Err(Error::from(ErrorKind::AlreadyExists))
}

// All bytes. Where a file was there, they get its permissions, and are on the disk before they take its place.
fn fill<F: Write + OpenFile + Drop>(
    mut file: F,
    bytes: &[u8],
    permissions: Option<Permissions>,
) -> Result<()> {
    file.write_all(bytes)?;
    let Some(permissions) = permissions else {
        return Ok(());
    };
    file.set_permissions(permissions)?;
    file.sync_all()
}

// Whether there is no room left, so that writing in place could lose what is there.
fn is_full(kind: ErrorKind) -> bool {
    matches!(kind, ErrorKind::StorageFull | ErrorKind::QuotaExceeded)
}

// Fills a new file and puts it in its place. Answers false where its folder takes no new file, and nothing has changed.
fn put_over<R: Files>(rt: &R, alloc: Global, place: Place, bytes: &[u8]) -> Result<bool> {
    let (name, file) = match create_beside(rt, alloc, place.path.as_path().as_str()) {
        Ok(made) => made,
        Err(error) if is_full(error.kind()) => return Err(error),
        Err(_) => return Ok(false),
    };
    if let Err(error) = fill(file, bytes, place.permissions) {
        fs::remove_file(rt, &name)?;
        return Err(error);
    }
    if fs::rename(rt, &name, &place.path).is_err() {
        fs::remove_file(rt, &name)?;
        return Ok(false);
    }
    Ok(true)
}

/// Puts these bytes in the place of what a name holds.
///
/// A regular file is replaced whole: the bytes go to a new file in its folder, which gets the old one's permissions, is synced and is
/// renamed over it. Where there was none, the new file is not synced: nothing could be lost. A link is followed. What is no regular file, or
/// has a folder that takes no new file, is written in place.
///
/// # Errors
/// Where the system refuses a step. A regular file that was not written in place then holds what it held.
pub fn replace<R: Files + AllocGlobal>(rt: &R, name: &str, bytes: &[u8]) -> Result<()> {
    let is_put = match place_of(rt, name) {
        Ok(Some(place)) => put_over(rt, rt.alloc(), place, bytes)?,
        Ok(None) => false,
        Err(_) => false,
    };
    if is_put {
        return Ok(());
    }
    fs::write(rt, name, bytes)
}
