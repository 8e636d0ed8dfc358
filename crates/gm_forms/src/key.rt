//! Names as the keys of tables.
ghost use Rattle.std.specs.Prelude.{[], ◌∷◌, bytes_eq};
ghost use Rattle.std.specs.Cmp.{partial_equiv_from_equiv, on_per, on_equiv};
ghost use Rattle.std.specs.Cmp.Lexicographic.{nat_list_eq_equiv};
ghost use Rattle.std.specs.Cmp.Rules.{hashing};
ghost use Rattle.std.proofs.Common.{rules};

use std::hash::{Hash, Hasher};

/// The bytes of a name of the text. They go into a hash in one write, where a slice's go one by
/// one.
#[derive(Clone, Copy)]
pub struct NameKey<'t> {
    pub bytes: &'t [u8],
}

impl<'t> PartialEq for NameKey<'t> {
    ghost eq = { λ x y. bytes_eq x.bytes.now y.bytes.now };

    ghost laws = { on_per (λ x. x.bytes.now) (partial_equiv_from_equiv nat_list_eq_equiv) };

    fn eq(&self, other: &Self) -> bool {
        self.bytes == other.bytes
    }
}

impl<'t> Eq for NameKey<'t> {
    ghost laws = { on_equiv (λ x. x.bytes.now) nat_list_eq_equiv };
}

impl<'t> Hash for NameKey<'t> {
    ghost hash_input = { λ x. x.bytes.now ∷ [] };

    ghost respects_eq = { Prim.search (hashing, rules) };

    fn hash<H: Hasher>(&self, state: &mut H) {
        state.write(self.bytes);
    }
}
