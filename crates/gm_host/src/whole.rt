//! Bytes written whole, to a file or to the standard output.
ghost use Rattle.std.specs.Prelude.{◌≢◌, OnOk, OnErr, IfErr};
ghost use Rattle.std.specs.Io.{WritesAtMost};
ghost use Rattle.std.specs.Io.KnownBytes.{Appends, WriteAppends};
ghost use Rattle.std.specs.IoError.{error_kind};
ghost use Rattle.gm_host.specs.inner.FileStore.{AppendsInPart};

use std::io;
use std::io::{ErrorKind, Write};

/// Writes all of the bytes. A write that takes none of them is an error.
pub(crate) fn write_whole<W: Write>(writer: &mut W, bytes: &[u8]) -> io::Result<()>
    ensures all_bytes { OnOk result (Appends (W.contents writer.old) (W.contents writer.new) bytes.now) }
    ensures first_bytes { OnErr result (AppendsInPart (W.contents writer.old) (W.contents writer.new) bytes.now) }
{
    let mut rest = bytes;
    while !rest.is_empty() {
        match write_again(writer, rest)? {
            0 => return Err(ErrorKind::WriteZero.into()),
            count => rest = &rest[count..],
        }
    }
    Ok(())
}

/// One write, which is made again where a signal interrupts it.
fn write_again<W: Write>(writer: &mut W, bytes: &[u8]) -> io::Result<usize>
    ensures bound { WritesAtMost result bytes.now }
    ensures bytes { WriteAppends (W.contents writer.old) (W.contents writer.new) result bytes.now }
    ensures uninterrupted { IfErr result (λ error. error_kind error ≢ ErrorKind.Interrupted) }
{
    for _ in 0..u64::MAX {
        match writer.write(bytes) {
            Ok(count) => return Ok(count),
            Err(error) => {
                if error.kind() != ErrorKind::Interrupted {
                    return Err(error);
                }
            }
        }
    }
    Err(ErrorKind::TimedOut.into())
}
