//! A dart of a result in one number.
ghost use Rattle.std.specs.Prelude.{◌≡◌, ◌<◌, false, IsTrue};
ghost use Rattle.gm_walk.specs.declared.at.At.TheVariants.{Old, New};
ghost use Rattle.gm_walk.specs.inner.Keys.{key_of, is_old};

use crate::at::At;
use gm_arena::Slot;
use std::marker::Model;

/// A dart of a result as one number, which no other dart has: so a walk compares, keeps and looks up
/// numbers alone. Contracts see the dart.
#[derive(Clone, Copy)]
pub struct PackedAt {
    key: u64,
}

impl Model for PackedAt {
    ghost use Rattle.gm_walk.specs.declared.at.At.{At};
    ghost use Rattle.gm_walk.specs.inner.Keys.{at_of, key_of, IsKey};

    ghost Value = { At };

    ghost view = { λ p. at_of p.key };

    ghost invariant = { λ p. IsKey p.key };

    ghost inverse = { λ at. record { key = key_of at } };

    ghost inverse_ok = { λ p h i. record { key = h.back i } };
}

impl PackedAt {
    ghost use Rattle.gm_model.specs.declared.limit.TheConstants.{MOST_NODES};
    /// The dart of the old map at the slot.
    #[inline(always)]
    pub fn old(slot: Slot) -> PackedAt
        ensures { result ≡ Old slot }
    {
        PackedAt {
            key: u64::from(slot.at) * 2,
        }
    }

    /// The new dart of an added node at a position.
    #[inline(always)]
    pub fn new(node: u8, position: u32) -> PackedAt
        requires { node < MOST_NODES }
        ensures { result ≡ New node position }
    {
        PackedAt {
            key: u64::from(position) * 64 + u64::from(node) * 2 + 1,
        }
    }

    /// Whether it is a dart of the old map.
    #[inline(always)]
    pub fn is_old(self) -> bool
        ensures { result ≡ is_old self }
    {
        self.key % 2 == 0
    }

    /// The slot of a dart of the old map.
    #[inline(always)]
    pub fn slot(self) -> Slot
        requires { IsTrue (is_old self) }
        ensures { self ≡ Old result }
    {
        Slot {
            at: (self.key / 2) as u32,
        }
    }

    /// The dart as callers see it.
    #[inline(always)]
    pub fn unpack(self) -> At
        ensures { result ≡ self }
    {
        if self.is_old() {
            return At::Old(self.slot());
        }
        At::New {
            node: (self.key / 2 % 32) as u8,
            position: (self.key / 64) as u32,
        }
    }

    /// The number.
    #[inline(always)]
    pub fn key(self) -> u64
        ensures { result ≡ key_of self }
    {
        self.key
    }
}
