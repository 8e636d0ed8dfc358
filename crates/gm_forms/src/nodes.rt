//! The names of a rule's nodes, as they are mentioned first.

ghost use Rattle.std.specs.Prelude.{◌≡◌, [], length, OnOk};
ghost use Rattle.gm_forms.specs.BookText.{with_name};

use crate::key::NameKey;
use indexmap::IndexSet;
use std::alloc::{AllocFailed, Global};
use std::marker::Model;

/// The different names that a rule mentions as nodes, in the order of their first mention.
/// Contracts see their list.
#[derive(Drop)]
pub struct Nodes<'a> {
    names: IndexSet<NameKey<'a>>,
}

impl<'a> Model for Nodes<'a> {
    ghost use Rattle.std.specs.Prelude.{ℕ, List, map};

    ghost Value = { List (List ℕ) };

    ghost view = { λ nodes. map (λ name. name.bytes.now) nodes.names.keys };
}

impl<'a> Nodes<'a> {
    pub fn new(alloc: Global) -> Nodes<'a>
        ensures { result ≡ [] }
    {
        Nodes {
            names: IndexSet::new(alloc),
        }
    }

    pub fn len(&self) -> usize
        ensures { result ≡ length self.now }
    {
        self.names.len()
    }

    pub fn add(&mut self, name: &'a [u8]) -> Result<(), AllocFailed<NameKey<'a>>>
        ensures { OnOk result (self.new ≡ with_name self.old name.now) }
    {
        self.names.insert(NameKey { bytes: name })?;
        Ok(())
    }

    pub fn clear(&mut self)
        ensures { self.new ≡ [] }
    {
        self.names.clear();
    }
}
