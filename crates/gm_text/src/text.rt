//! A text that grows at its end.

ghost use Rattle.std.specs.Prelude.{◌≡◌, ◌++◌, ◌≤◌, ◌↔◌, [], length, drop, IsTrue, IfOk, OnOk, OnErr, decimal};
ghost use Rattle.std.specs.Fmt.{signed_decimal};

use gm_model::OutOfMemory;
use itoa::Buffer;
use std::alloc::Global;
use std::marker::Model;

/// Bytes that grow at their end. Contracts see the list of the bytes.
#[derive(Drop)]
pub struct Text {
    bytes: Vec<u8>,
}

impl Model for Text {
    ghost use Rattle.std.specs.Prelude.{ℕ, List};

    ghost Value = { List ℕ };

    ghost view = { λ text. text.bytes.items };
}

impl Text {
    /// No bytes, which takes no memory.
    pub fn new(alloc: Global) -> Text
        ensures { result ≡ [] }
    {
        Text {
            bytes: Vec::new(alloc),
        }
    }

    /// No bytes, with room for `room` of them, so that these are appended without taking more memory.
    pub fn with_room(alloc: Global, room: usize) -> Result<Text, OutOfMemory>
        ensures { IfOk result (λ text. text ≡ []) }
    {
        Ok(Text {
            bytes: Vec::with_capacity(alloc, room)?,
        })
    }

    /// No bytes, in the room that these had, which is made greater where it isn't enough for `room` bytes.
    pub fn in_room_of(mut bytes: Vec<u8>, room: usize) -> Result<Text, OutOfMemory>
        ensures { IfOk result (λ text. text ≡ []) }
    {
        bytes.clear();
        bytes.reserve(room)?;
        Ok(Text { bytes })
    }

    /// How many bytes there are.
    pub fn len(&self) -> usize
        ensures { result ≡ length self.now }
    {
        self.bytes.len()
    }

    /// Whether there are no bytes.
    pub fn is_empty(&self) -> bool
        ensures { IsTrue result ↔ (self.now ≡ []) }
    {
        self.bytes.is_empty()
    }

    /// Appends the bytes.
    pub fn put(&mut self, bytes: &[u8]) -> Result<(), OutOfMemory>
        ensures ok { OnOk result (self.new ≡ self.old ++ bytes.now) }
        ensures err { OnErr result (self.new ≡ self.old) }
    {
        self.bytes.extend_from_slice(bytes)?;
        Ok(())
    }

    /// Appends the bytes from a place on.
    pub fn put_from(&mut self, bytes: &[u8], start: usize) -> Result<(), OutOfMemory>
        requires { start ≤ length bytes.now }
        ensures ok { OnOk result (self.new ≡ self.old ++ drop start bytes.now) }
        ensures err { OnErr result (self.new ≡ self.old) }
    {
        self.put(&bytes[start..])
    }

    /// Appends the number in decimal digits, without leading zeros.
    pub fn number(&mut self, n: u64) -> Result<(), OutOfMemory>
        ensures ok { OnOk result (self.new ≡ self.old ++ decimal n) }
        ensures err { OnErr result (self.new ≡ self.old) }
    {
        let mut digits = Buffer::new();
        self.put(digits.format(n).as_bytes())
    }

    /// Appends the number in decimal digits, after a `-` where it is below 0.
    pub fn signed(&mut self, n: i64) -> Result<(), OutOfMemory>
        ensures ok { OnOk result (self.new ≡ self.old ++ signed_decimal n) }
        ensures err { OnErr result (self.new ≡ self.old) }
    {
        let mut buffer = Buffer::new();
        self.put(buffer.format(n).as_bytes())
    }

    /// The bytes, given over without taking memory.
    pub fn into_bytes(self) -> Vec<u8>
        ensures { result.items ≡ self }
    {
        self.bytes
    }
}
