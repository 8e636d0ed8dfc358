//! The names of embeddings, rules, parameters and nodes.

ghost use Rattle.std.specs.Prelude.{◌≡◌, ◌↔◌, ◌≤◌, ◌<◌, length, IsTrue, SomeIff};
ghost use Rattle.std.specs.List.{list_all};
ghost use Rattle.gm_model.specs.Names.{IsName, IsNameToken};
ghost use Rattle.gm_model.specs.Tokens.{is_letter, is_name_byte};

use crate::limit::MOST_NAME_BYTES;
use std::marker::Model;

/// The name of an embedding, a rule, a parameter or a node: 1 to 32 bytes that are one name token
/// of a text. A reserved word is one too. Contracts see the bytes.
#[derive(Clone, Copy, Debug, PartialEq, Eq)]
pub struct Name {
    held: [u8; MOST_NAME_BYTES],
    used: u8,
}

impl Model for Name {
    ghost use Rattle.std.specs.Prelude.{List, ℕ, take, length, ◌++◌};

    ghost Value = { List ℕ };

    ghost use Rattle.gm_model.specs.inner.Padded.{IsPadded, padded, padded-take, length-take-padded};
    ghost use Rattle.gm_model.specs.Names.{IsName};

    ghost view = { λ n. take n.used n.held };

    ghost invariant = { λ n. IsPadded 32 0 n.used n.held × IsName (take n.used n.held) };

    ghost inverse = { λ s. record { held = padded 32 0 s; used = length s } };

    ghost inverse_ok = { λ n h i. record {
      held = padded-take 32 0 n.used n.held h.0 i;
      used = length-take-padded 32 0 n.used n.held h.0 i;
    } };
}

impl Name {
    /// The name of these bytes. `None` where they are not 1 to 32, or are not one name token.
    pub fn new(bytes: &[u8]) -> Option<Name>
        ensures { SomeIff result (IsName bytes.now) bytes.now }
    {
        if bytes.len() > MOST_NAME_BYTES || !is_name_token(bytes) {
            return None;
        }
        let mut held = [0; MOST_NAME_BYTES];
        held[..bytes.len()].copy_from_slice(bytes);
        Some(Name {
            held,
            used: bytes.len() as u8,
        })
    }

    /// The bytes.
    pub fn bytes(&self) -> &[u8]
        ensures value { result.now ≡ self.now }
        ensures name { IsName self.now }
    {
        &self.held[..self.used as usize]
    }
}

fn is_name_token(bytes: &[u8]) -> bool
    ensures { IsTrue result ↔ IsNameToken bytes.now }
{
    match bytes.split_first() {
        None => false,
        Some((first, rest)) => begins_name(*first) && all_continue(rest),
    }
}

fn all_continue(bytes: &[u8]) -> bool
    ensures { result ≡ list_all is_name_byte bytes.now }
{
    bytes.iter().all(|b| continues_name(*b))
}

fn begins_name(b: u8) -> bool
    ensures { result ≡ is_letter b }
{
    b.is_ascii_alphabetic()
}

fn continues_name(b: u8) -> bool
    ensures { result ≡ is_name_byte b }
{
    b.is_ascii_alphanumeric() || b == b'_'
}
