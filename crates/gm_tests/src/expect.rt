//! Assertions that stand in functions of their own, so that a caller has a call for each.
ghost use Rattle.std.specs.Prelude.{◌≡◌, IsTrue};

use std::fmt::Debug;
use std::process::Abort;

/// The condition holds.
pub(crate) fn expect_holds(rt: &impl Abort, holds: bool)
    ensures { IsTrue holds }
{
    assert!(rt; holds);
}

/// Both numbers are the same.
pub(crate) fn expect_number(rt: &impl Abort, found: usize, wanted: usize)
    ensures { found ≡ wanted }
{
    assert!(rt; found == wanted);
}

/// Both values are the same, and else the message shows them and the row of the table.
pub(crate) fn expect_same_at<T: PartialEq + Debug>(
    rt: &impl Abort,
    found: &T,
    wanted: &T,
    row: &impl Debug,
) {
    if *found != *wanted {
        panic!(rt; "{found:?} in the place of {wanted:?} at {row:?}");
    }
}

/// Both values are the same.
pub(crate) fn expect_same<T: PartialEq + Debug>(rt: &impl Abort, found: &T, wanted: &T) {
    expect_same_at(rt, found, wanted, &"a row");
}

/// Both are the same bytes.
pub(crate) fn expect_bytes(rt: &impl Abort, found: &[u8], wanted: &[u8]) {
    expect_same(rt, &found, &wanted);
}

/// Both are the same word.
pub(crate) fn expect_word(rt: &impl Abort, found: &str, wanted: &str) {
    expect_same(rt, &found, &wanted);
}
