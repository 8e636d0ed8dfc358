//! The beginning of some bytes, as a save or a put that fails may still write it.

ghost use Rattle.std.specs.Prelude.{◌≡◌, take};

/// The first `count` bytes, at most all.
pub(crate) fn first(bytes: &[u8], count: usize) -> &[u8]
    ensures { result.now ≡ take count bytes.now }
{
    &bytes[..count.min(bytes.len())]
}
