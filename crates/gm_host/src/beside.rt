//! The new file that a save writes beside a name, and what saves that were ended left there.
ghost use Rattle.std.specs.Prelude.{◌≡◌, ◌++◌, ◌∷◌, IfOk, decimal};

use arrayvec::ArrayString;
use std::fmt::Write as _;
use std::fs::{File, Files, Metadata, OpenOptions, TryLockError};
use std::io::ErrorKind;
use std::os::unix::fs::{MetadataExt, OpenOptionsExt};
use std::{fmt, fs, io};

/// No path of the system is longer.
const LONGEST_PATH: usize = 4_096;

/// How many names beside a file are tried.
const MOST_NAMES: u32 = 1_000;

/// The bit of a mode that a new file has until it has the name that it is for. It says nothing to the
/// system where a file is no folder, so hardly another file has it.
pub(crate) const UNDONE: u32 = 0o1000;

/// Makes a file with this access under the first of the names beside this one that nothing has yet.
/// It is marked as undone, and locked as long as it is open.
pub(crate) fn make_beside<R: Files<File = File>>(
    rt: &R,
    name: &str,
    access: u32,
) -> Option<(ArrayString<LONGEST_PATH>, File)> {
    for number in 0..MOST_NAMES {
        let beside = name_beside(name, number).ok()?;
        take_away(rt, beside.as_str());
        match make_new(rt, beside.as_str(), access | UNDONE) {
            Ok(file) => {
                if is_held(&file) {
                    return Some((beside, file));
                }
            }
            Err(error) if error.kind() == ErrorKind::AlreadyExists => {}
            Err(_) => return None,
        }
    }
    None
}

/// The name, a dot and the number.
fn name_beside(name: &str, number: u32) -> Result<ArrayString<LONGEST_PATH>, fmt::Error>
    ensures { IfOk result (λ beside. beside.bytes ≡ name.now ++ 46 ∷ decimal number) }
{
    let mut beside = ArrayString::new();
    write!(beside, "{name}.{number}")?;
    Ok(beside)
}

/// Removes a file that was marked as undone and that no save holds: one that was ended left it.
fn take_away<R: Files<File = File>>(rt: &R, name: &str) {
    let Ok(found) = fs::symlink_metadata(rt, name) else {
        return;
    };
    if !is_undone(&found) {
        return;
    }
    let Ok(file) = OpenOptions::new().write(true).open(rt, name) else {
        return;
    };
    if file.try_lock().is_ok() && is_left(rt, name, &file) {
        // Where that fails, the name is taken.
        let _ = fs::remove_file(rt, name);
    }
}

/// Whether the file is a regular one with the mark.
fn is_undone(found: &Metadata) -> bool {
    found.is_file() && found.mode() & UNDONE != 0
}

/// Whether the file still has the mark and this name. A save that held it may have ended meanwhile.
fn is_left<R: Files>(rt: &R, name: &str, file: &File) -> bool {
    match (fs::symlink_metadata(rt, name), file.metadata()) {
        (Ok(named), Ok(found)) => is_undone(&found) && is_same(&named, &found),
        _ => false,
    }
}

/// Whether the system knows both as one file.
pub(crate) fn is_same(one: &Metadata, other: &Metadata) -> bool {
    one.ino() == other.ino() && one.dev() == other.dev()
}

/// Locks the file that was just made, and says whether it can be used: whoever takes away what was left
/// may have locked it first. Where files can't be locked, nobody takes it away.
fn is_held(file: &File) -> bool {
    !matches!(file.try_lock(), Err(TryLockError::WouldBlock))
}

/// A file that this call made. What stands under the name is never opened, nor is a link followed.
fn make_new<R: Files>(rt: &R, name: &str, access: u32) -> io::Result<R::File> {
    OpenOptions::new()
        .write(true)
        .create_new(true)
        .mode(access)
        .open(rt, name)
}
