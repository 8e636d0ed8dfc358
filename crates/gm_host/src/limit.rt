//! How long a file of this process may become.
use std::fs::Files;
use std::io::Read;
use std::{fs, str};

/// The standard output, by the name that leads to the very file.
pub(crate) const OUTPUT: &str = "/proc/self/fd/1";

/// The limits of this process, a line for each, as the system tells them.
const LIMITS: &str = "/proc/self/limits";

/// Whether the process may make a file of this many bytes. A write past that would end it by a signal.
pub(crate) fn may_be_so_long<R: Files>(rt: &R, bytes: u64) -> bool {
    match read_limit(rt) {
        Some(most) => bytes <= most,
        None => true,
    }
}

/// The most bytes of a file, or none where there is no limit or the system doesn't tell one.
fn read_limit<R: Files>(rt: &R) -> Option<u64> {
    // All lines together are shorter.
    let mut bytes = [0; 4_096];
    let mut file = fs::open(rt, LIMITS).ok()?;
    let count = file.read(&mut bytes).ok()?;
    limit_in(str::from_utf8(&bytes[..count]).ok()?)
}

/// The number in the line on the size of a file, the first after its name, which is what counts now.
fn limit_in(limits: &str) -> Option<u64> {
    for line in limits.lines() {
        if let Some(numbers) = line.strip_prefix("Max file size") {
            return numbers.split_whitespace().next()?.parse().ok();
        }
    }
    None
}

/// Whether the standard output may take this many bytes more: a regular file has that limit too.
pub(crate) fn output_may_take<R: Files>(rt: &R, bytes: u64) -> bool {
    match fs::metadata(rt, OUTPUT) {
        Ok(found) if found.is_file() => may_be_so_long(rt, found.len().saturating_add(bytes)),
        _ => true,
    }
}
