//! A byte string: a name, a key, a value. A contract sees it as the list of its bytes.
ghost use Rattle.std.specs.Prelude.{◌≡◌, ◌∷◌, ◌++◌, length, IfOk, Some, nat_eq};
ghost use Rattle.std.proofs.Common.{rules, refl};
ghost use Rattle.std.specs.Ordering.{nat_cmp};
ghost use Rattle.std.specs.Cmp.{partial_equiv_from_equiv, ties};
ghost use Rattle.std.specs.Cmp.Rules.{comparing};
ghost use Rattle.std.specs.Cmp.Lexicographic.{slice_cmp, pointwise, nat_list_eq_equiv, nat_list_cmp_total, texts_po};

use crate::short::{INLINE_BYTES, Short};
use std::alloc::{AllocError, Global};
use std::cmp::Ordering;
use std::fmt::{self, Debug, Formatter};
use std::marker::Model;

/// A byte string. It owns its bytes. A copy of 30 bytes or less takes no memory.
#[derive(Drop)]
pub struct Bytes {
    stored: Stored,
}

/// Where the bytes lie.
#[derive(Drop)]
pub(crate) enum Stored {
    /// In the value itself.
    Short(Short),
    /// In memory of their own.
    Long(Vec<u8>),
}

// The size of a vector and a tag: `INLINE_BYTES` is chosen for it.
const _: () = prove!(size_of::<Bytes>() == 32);

impl Model for Bytes {
    ghost use Rattle.std.specs.Prelude.{List, ℕ};
    ghost use Rattle.xs_bytes.specs.Stored.{stored_bytes};

    ghost Value = { List ℕ };

    ghost view = { λ b. stored_bytes b.stored };
}

impl Bytes {
    /// The byte string of these bytes. It takes no memory.
    pub fn new(items: Vec<u8>) -> Self
        ensures { result ≡ items.items }
    {
        Self {
            stored: Stored::Long(items),
        }
    }

    /// A copy of a slice, at its exact size.
    pub fn from_slice(alloc: Global, items: &[u8]) -> Result<Self, AllocError>
        ensures { IfOk result (λ b. b ≡ items.now) }
    {
        if items.len() <= INLINE_BYTES {
            let mut short = Short::new();
            short.extend_from_slice(items);
            return Ok(Self {
                stored: Stored::Short(short),
            });
        }
        Ok(Self::new(Vec::from_slice(alloc, items)?))
    }

    /// A text, a byte, and a second text, joined at their exact size.
    pub fn join(alloc: Global, first: &[u8], between: u8, second: &[u8]) -> Result<Self, AllocError>
        ensures { IfOk result (λ b. b ≡ first.now ++ between ∷ second.now) }
    {
        let len = first.len() + 1 + second.len();
        if len <= INLINE_BYTES {
            let mut short = Short::new();
            short.extend_from_slice(first);
            short.extend_from_slice(&[between]);
            short.extend_from_slice(second);
            return Ok(Self {
                stored: Stored::Short(short),
            });
        }
        let mut items = Vec::with_capacity(alloc, len)?;
        items.extend_from_slice(first)?;
        items.push(between)?;
        items.extend_from_slice(second)?;
        Ok(Self::new(items))
    }

    /// The bytes.
    pub fn as_slice(&self) -> &[u8]
        ensures { result.now ≡ self.now }
    {
        match &self.stored {
            Stored::Short(short) => short.as_slice(),
            Stored::Long(items) => items.as_slice(),
        }
    }

    /// The number of bytes.
    pub fn len(&self) -> usize
        ensures { result ≡ length self.now }
    {
        self.as_slice().len()
    }
}

impl PartialEq for Bytes {
    ghost eq = { λ a b. pointwise nat_eq a b };

    ghost laws = { partial_equiv_from_equiv nat_list_eq_equiv };

    fn eq(&self, other: &Bytes) -> bool {
        self.as_slice() == other.as_slice()
    }
}

impl Eq for Bytes {
    ghost laws = { nat_list_eq_equiv };
}

impl PartialOrd for Bytes {
    ghost partial_cmp = { λ a b. Some (slice_cmp nat_cmp a b) };

    ghost laws = { texts_po };

    fn partial_cmp(&self, other: &Bytes) -> Option<Ordering> {
        Some(self.cmp(other))
    }
}

impl Ord for Bytes {
    ghost cmp = { λ a b. slice_cmp nat_cmp a b };

    ghost total = { nat_list_cmp_total };

    ghost matches_partial_cmp = { λ a b. refl };

    ghost matches_eq = { ties texts_po (λ a b. refl) };

    fn cmp(&self, other: &Bytes) -> Ordering {
        self.as_slice().cmp(other.as_slice())
    }
}

impl Debug for Bytes {
    fn fmt<W: fmt::Write>(&self, f: &mut Formatter<W>) -> fmt::Result {
        self.as_slice().fmt(f)
    }
}
