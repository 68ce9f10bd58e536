//! The triples of a list of local characters (RFC 1184, section 2.4).

ghost use Rattle.std.specs.{Prelude.{◌≡◌, ◌↔◌, [], length, nat_eq, IsTrue}, Ordering.{on, eq_of_both}};
ghost use Rattle.std.specs.Cmp.{Lexicographic.pointwise, Rules.comparing};
ghost use Rattle.std.proofs.Common.{rules};

use std::alloc::{AllocError, Global};
use std::marker::Model;

/// A function of the set of local characters, its modifier and its character, as they travel: any
/// three octets (RFC 1184, section 2.4).
#[derive(Clone, Copy, PartialEq, Eq)]
pub struct Triple {
    /// The code of the function: 1 to 18 for those that have names.
    pub func: u8,
    /// The modifier: the level in the two low bits, then SLC_FLUSHOUT 32, SLC_FLUSHIN 64 and
    /// SLC_ACK 128.
    pub flags: u8,
    /// The character; 255 for none.
    pub value: u8,
}

/// A list of triples, in the order in which they travel.
#[derive(Drop)]
pub struct Triples {
    triples: Vec<Triple>,
}

impl Model for Triples {
    ghost use Rattle.std.specs.Prelude.{List};
    ghost use Rattle.tn_codes.specs.declared.triples.Triple.{Triple};

    ghost Value = { List Triple };

    ghost view = { λ list. list.triples.items };
}

impl Triples {
    /// Makes an empty list, which takes no memory.
    pub fn new(alloc: Global) -> Triples
        ensures { result ≡ [] }
    {
        Triples {
            triples: Vec::new(alloc),
        }
    }

    pub fn as_slice(&self) -> &[Triple]
        ensures { result.now ≡ self.now }
    {
        self.triples.as_slice()
    }

    pub fn len(&self) -> usize
        ensures { result ≡ length self.now }
    {
        self.triples.len()
    }

    pub fn is_empty(&self) -> bool
        ensures { IsTrue result ↔ (self.now ≡ []) }
    {
        self.triples.is_empty()
    }

    /// Returns the list as a vector, with no copy.
    pub fn into_vec(self) -> Vec<Triple>
        ensures { result.items ≡ self }
    {
        self.triples
    }
}

impl From<Vec<Triple>> for Triples {
    ghost from_gives = { λ vec list. list ≡ vec.items };

    fn from(triples: Vec<Triple>) -> Triples {
        Triples { triples }
    }
}

impl PartialEq for Triples {
    ghost eq = { pointwise (eq_of_both (on (λ t. t.func) nat_eq)
        (eq_of_both (on (λ t. t.flags) nat_eq) (on (λ t. t.value) nat_eq))) };

    ghost laws = { Prim.search (comparing, rules) depth 9 };

    fn eq(&self, other: &Triples) -> bool {
        self.triples == other.triples
    }
}

impl Eq for Triples {
    ghost laws = { Prim.search (comparing, rules) };
}

impl Clone for Triples {
    ghost is_clone = { λ list copy. copy ≡ list };

    fn clone(&self) -> Result<Triples, AllocError> {
        Ok(Triples {
            triples: self.triples.clone()?,
        })
    }
}
