//! A save to a file of the system: written beside the file that stands there, and put in its place.
ghost use Rattle.std.specs.Prelude.{◌≡◌, OnOk, bit_and, if◌then◌else◌};
ghost use Rattle.std.specs.Io.KnownBytes.{Appends};
ghost use Rattle.gm_host.specs.Saves.{IsOutOfMemory};

use crate::beside::{UNDONE, is_same, make_beside};
use crate::fault::SaveFault;
use crate::limit::{OUTPUT, may_be_so_long};
use crate::opened::write_made;
use crate::whole::write_whole;
use std::fs::{File, Files, Metadata, OpenFile, OpenOptions, Permissions};
use std::io::{ErrorKind, Write};
use std::os::fd::AsFd;
use std::os::unix::fs::{MetadataExt, PermissionsExt, fchown};
use std::path::Path;
use std::{fs, io};

/// The bits of a mode that say who may read, write and run a file.
const ACCESS_BITS: u32 = 0o777;

/// The same without the group's.
const ACCESS_BUT_GROUP: u32 = 0o707;

/// The same of the owner alone.
const OWNER_BITS: u32 = 0o700;

/// The access that a new file asks for, of which the process's mask takes away.
const NEW_FILE_ACCESS: u32 = 0o666;

/// Makes the bytes those of the file under the name.
///
/// Where the name is a regular file's, a link's to one, or nothing's, the bytes are written beside it
/// first. What is no regular file is written through. A file that the standard output goes to is left.
pub(crate) fn write_file<R: Files<File = File> + AllocGlobal>(
    rt: &R,
    name: &str,
    bytes: &[u8],
) -> Result<(), SaveFault>
    ensures { ¬ IsOutOfMemory result }
{
    if is_output(rt, name) {
        return Err(SaveFault::Failed);
    }
    match fs::symlink_metadata(rt, name) {
        Ok(found) if found.is_file() => replace_old(rt, name, bytes),
        Ok(found) if found.is_symlink() => write_at_target(rt, name, bytes),
        Ok(_) => write_through(rt, name, bytes),
        Err(error) if error.kind() == ErrorKind::NotFound => replace(rt, name, bytes, None),
        Err(_) => Err(SaveFault::Failed),
    }
}

/// Whether the standard output goes to the regular file of this name: what is printed would be written
/// over what is saved.
fn is_output<R: Files>(rt: &R, name: &str) -> bool {
    match (fs::metadata(rt, name), fs::metadata(rt, OUTPUT)) {
        (Ok(found), Ok(output)) => found.is_file() && is_same(&found, &output),
        _ => false,
    }
}

/// A link to a regular file stays, and the file is replaced where it lies. Else the bytes are written
/// through the link.
fn write_at_target<R: Files<File = File> + AllocGlobal>(
    rt: &R,
    name: &str,
    bytes: &[u8],
) -> Result<(), SaveFault>
    ensures { ¬ IsOutOfMemory result }
{
    match fs::metadata(rt, name) {
        Ok(found) if found.is_file() => match fs::canonicalize(rt, name) {
            Ok(target) => replace_old(rt, target.as_path().as_str(), bytes),
            Err(_) => Err(SaveFault::Failed),
        },
        _ => write_through(rt, name, bytes),
    }
}

/// Writes the bytes to what stands under the name, or where its link leads.
fn write_through<R: Files>(rt: &R, name: &str, bytes: &[u8]) -> Result<(), SaveFault>
    ensures { ¬ IsOutOfMemory result }
{
    write_made(fs::create(rt, name), bytes)?;
    Ok(())
}

/// Puts a new file in the place of a regular one. One that must not be written is an error, though its
/// name could be taken from it.
fn replace_old<R: Files<File = File>>(rt: &R, name: &str, bytes: &[u8]) -> Result<(), SaveFault>
    ensures { ¬ IsOutOfMemory result }
{
    match look_at_writable(rt, name) {
        Ok(old) => replace(rt, name, bytes, Some(&old)),
        Err(_) => Err(SaveFault::Failed),
    }
}

/// What the system knows of a file that may be written.
fn look_at_writable<R: Files>(rt: &R, name: &str) -> io::Result<Metadata> {
    let file = OpenOptions::new().write(true).open(rt, name)?;
    file.metadata()
}

/// Writes the bytes to a new file beside the name, and gives it the name. Where that fails the new
/// file is removed.
fn replace<R: Files<File = File>>(
    rt: &R,
    name: &str,
    bytes: &[u8],
    old: Option<&Metadata>,
) -> Result<(), SaveFault>
    ensures { ¬ IsOutOfMemory result }
{
    if !may_be_so_long(rt, bytes.len() as u64) {
        return Err(SaveFault::Failed);
    }
    let Some((beside, mut file)) = make_beside(rt, name, first_access(old)) else {
        return Err(SaveFault::Failed);
    };
    if put_in_place(rt, &mut file, beside.as_str(), name, bytes, old).is_ok() {
        sync_folder(rt, name);
        return Ok(());
    }
    // The answer tells of a fault already.
    let _ = fs::remove_file(rt, beside.as_str());
    Err(SaveFault::Failed)
}

/// Writes the bytes to the new file, and gives it the name. Only then it is no longer marked as undone.
fn put_in_place<R: Files<File = File>>(
    rt: &R,
    file: &mut File,
    beside: &str,
    name: &str,
    bytes: &[u8],
    old: Option<&Metadata>,
) -> io::Result<()> {
    let access = write_lasting(file, bytes, old)?;
    fs::rename(rt, beside, name)?;
    // A mark that stays says nothing of a file that has its name.
    let _ = file.set_permissions(Permissions::from_mode(access));
    Ok(())
}

/// The access that a file is made with: where there is an old one, no more than its owner has of that.
fn first_access(old: Option<&Metadata>) -> u32 {
    match old {
        Some(old) => old.mode() & OWNER_BITS,
        None => NEW_FILE_ACCESS,
    }
}

/// Writes all of the bytes to a file that was just made, gives it the access that it is to have beside
/// its mark, and waits until the disk has both. Answers the access.
fn write_lasting<F: Write + OpenFile + AsFd>(
    made: &mut F,
    bytes: &[u8],
    old: Option<&Metadata>,
) -> io::Result<u32>
    ensures { OnOk result (Appends (F.contents made.old) (F.contents made.new) bytes.now) }
{
    write_whole(made, bytes)?;
    let access = hand_over(made, old)?;
    made.set_permissions(Permissions::from_mode(access | UNDONE))?;
    made.sync_all()?;
    Ok(access)
}

/// Gives a new file the old one's owner and group, where the process may, and answers the access that
/// it is to have: the old one's, or without it what the process gave the new one.
fn hand_over<F: OpenFile + AsFd>(made: &F, old: Option<&Metadata>) -> io::Result<u32> {
    let found = made.metadata()?;
    match old {
        Some(old) => Ok(kept_access(old.mode(), takes_group(made, &found, old))),
        None => Ok(kept_access(found.mode(), true)),
    }
}

/// The access bits of a mode, and the group's only where the file has the same group. The bits that
/// change the user or the group that a program runs as are never kept.
fn kept_access(mode: u32, has_group: bool) -> u32
    ensures { result ≡ bit_and mode (if has_group then 0o777 else 0o707) }
{
    if has_group {
        mode & ACCESS_BITS
    } else {
        mode & ACCESS_BUT_GROUP
    }
}

/// Whether the new file has the group of the old one, which it takes with the owner where that can be.
fn takes_group<F: AsFd>(made: &F, found: &Metadata, old: &Metadata) -> bool {
    if found.uid() != old.uid() && fchown(made, Some(old.uid()), Some(old.gid())).is_ok() {
        return true;
    }
    found.gid() == old.gid() || fchown(made, None, Some(old.gid())).is_ok()
}

/// Waits until the disk has the folder in which the name stands. A folder that can't be opened to read
/// can't be waited for, and what the save wrote is there whatever comes of it.
fn sync_folder<R: Files>(rt: &R, name: &str) {
    let folder = match Path::new(name).parent() {
        Some(path) if !path.as_str().is_empty() => path.as_str(),
        _ => ".",
    };
    if let Ok(opened) = fs::open(rt, folder) {
        let _ = opened.sync_all();
    }
}
