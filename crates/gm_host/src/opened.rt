//! What a load reads from an opened file, and what a save writes to one.
ghost use Rattle.std.specs.Prelude.{◌≡◌, ◌≢◌, ◌+◌, ◌<◌, ◌≤◌, [], IfOk, IfErr, OnOk, OnErr, length, vec_len, vec_capacity};
ghost use Rattle.std.specs.Io.{StartsWith, ReadsAtMost};
ghost use Rattle.std.specs.Io.KnownBytes.{Appends, Consumes, IsAtEnd, ReadConsumes};
ghost use Rattle.std.specs.IoError.{error_kind};
ghost use Rattle.gm_host.specs.Store.{IsAbsent, IsFailed, IfTooLong};
ghost use Rattle.gm_host.specs.inner.FileStore.{IsAllOf, IsFrontOf};
ghost use Rattle.gm_host.specs.Saves as saves;

use crate::fault::{LoadFault, SaveFault};
use crate::whole::write_whole;
use gm_model::Items;
use std::alloc::{AllocError, Global};
use std::fs::OpenFile;
use std::io;
use std::io::{ErrorKind, Read, Write};

/// How many bytes one read asks for at most.
const PIECE: usize = 131_072;

/// All bytes that an opened file has left, read no further than one byte past the limit.
pub(crate) fn read_opened<F: Read + OpenFile + Drop>(
    opened: io::Result<F>,
    alloc: Global,
    limit: usize,
) -> Result<Vec<u8>, LoadFault>
    ensures within_limit { IfOk result (λ bytes. length bytes.items ≤ limit) }
    ensures all_bytes { IfOk opened (λ file. IfOk result (λ bytes. IsAllOf (F.remaining file) bytes.items)) }
    ensures not_opened { OnErr opened (IsFailed result) }
    ensures never_absent { ¬ IsAbsent result }
    ensures seen_length { IfTooLong result (λ seen. length seen ≡ limit + 1) }
    ensures first_bytes { IfOk opened (λ file. IfTooLong result (λ seen. IsFrontOf (F.remaining file) seen)) }
{
    let Ok(mut file) = opened else {
        return Err(LoadFault::Failed);
    };
    read_within(&mut file, alloc, limit)
}

/// What is left to read, read no further than one byte past the limit.
fn read_within<F: Read + OpenFile>(
    file: &mut F,
    alloc: Global,
    limit: usize,
) -> Result<Vec<u8>, LoadFault>
    ensures within_limit { IfOk result (λ bytes. length bytes.items ≤ limit) }
    ensures all_bytes { IfOk result (λ bytes. Consumes (F.remaining file.old) (F.remaining file.new) bytes.items) }
    ensures to_the_end { OnOk result (IsAtEnd (F.remaining file.new)) }
    ensures never_absent { ¬ IsAbsent result }
    ensures seen_length { IfTooLong result (λ seen. length seen ≡ limit + 1) }
    ensures first_bytes { IfTooLong result (λ seen. Consumes (F.remaining file.old) (F.remaining file.new) seen) }
{
    let mut bytes = room_for(file, alloc, limit);
    while bytes.len() <= limit {
        let held = bytes.len();
        let wanted = (limit - held).saturating_add(1).min(PIECE);
        lengthen(&mut bytes, wanted)?;
        let Ok(count) = read_again(file, &mut bytes[held..]) else {
            return Err(LoadFault::Failed);
        };
        bytes.truncate(held + count);
        if count == 0 {
            return Ok(bytes);
        }
    }
    Err(LoadFault::TooLong {
        seen: Items::new(bytes),
    })
}

/// One read, which is made again where a signal interrupts it.
fn read_again<F: Read>(file: &mut F, room: &mut [u8]) -> io::Result<usize>
    ensures bound { ReadsAtMost result room.new }
    ensures bytes { ReadConsumes (F.remaining file.old) (F.remaining file.new) result room.new }
    ensures uninterrupted { IfErr result (λ error. error_kind error ≢ ErrorKind.Interrupted) }
{
    for _ in 0..u64::MAX {
        match file.read(room) {
            Ok(count) => return Ok(count),
            Err(error) => {
                if error.kind() != ErrorKind::Interrupted {
                    return Err(error);
                }
            }
        }
    }
    Err(ErrorKind::TimedOut.into())
}

/// An empty vector with room for what the file says that it holds, and for one byte more, so that
/// the read that finds the end needs no other room. Where the file does not say, or memory runs
/// out, it has no room.
fn room_for<F: OpenFile>(file: &F, alloc: Global, limit: usize) -> Vec<u8>
    ensures empty { result.items ≡ [] }
    ensures room { vec_capacity result ≤ limit + 1 }
{
    let Ok(found) = file.metadata() else {
        return Vec::new(alloc);
    };
    let held = usize::try_from(found.len()).unwrap_or(usize::MAX);
    match Vec::with_capacity(alloc, held.min(limit).saturating_add(1)) {
        Ok(room) => room,
        Err(_) => Vec::new(alloc),
    }
}

/// Appends zeros, at least one and at most `most`. A vector that has room is lengthened within it.
fn lengthen(bytes: &mut Vec<u8>, most: usize) -> Result<(), AllocError>
    requires { 0 < most }
    ensures kept { OnOk result (StartsWith bytes.new.items bytes.old.items) }
    ensures longer { OnOk result (vec_len bytes.old < vec_len bytes.new) }
    ensures fits { OnOk result (vec_len bytes.new ≤ vec_len bytes.old + most) }
{
    let held = bytes.len();
    if held == bytes.capacity() {
        bytes.reserve(most)?;
    }
    let room = bytes.capacity() - held;
    bytes.resize(held + room.min(most), 0)
}

/// Writes all of the bytes to a file that was opened to write, and gives the file back.
pub(crate) fn write_made<F: Write + Drop>(made: io::Result<F>, bytes: &[u8]) -> Result<F, SaveFault>
    ensures all_bytes { IfOk made (λ file. IfOk result (λ written. Appends (F.contents file) (F.contents written) bytes.now)) }
    ensures not_made { OnErr made (saves.IsFailed result) }
    ensures enough_memory { ¬ saves.IsOutOfMemory result }
{
    let Ok(mut file) = made else {
        return Err(SaveFault::Failed);
    };
    match write_whole(&mut file, bytes) {
        Ok(()) => Ok(file),
        Err(_) => Err(SaveFault::Failed),
    }
}
