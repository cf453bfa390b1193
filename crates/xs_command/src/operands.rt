//! The ids or streams that a command names.
ghost use Rattle.std.specs.Prelude.{◌≡◌, ◌∷◌, []};

use std::marker::Model;

/// The ids or streams that a command names. A contract sees their list. A single one takes no memory: if memory has run
/// out, the commands of consumers can still be read.
#[derive(Debug, Drop)]
pub struct Operands<T> {
    kept: Kept<T>,
}

/// Where they are stored.
#[derive(Debug, Drop)]
pub(crate) enum Kept<T> {
    /// A single one, in the value itself.
    One([T; 1]),
    /// Any number, in memory of their own.
    Many(Vec<T>),
}

impl<T> Model for Operands<T> {
    ghost use Rattle.std.specs.Prelude.{List};
    ghost use Rattle.xs_command.specs.Operands.{all_kept};

    ghost Value = { List T };

    ghost view = { λ operands. all_kept operands.kept };
}

impl<T> Operands<T> {
    /// Any number. It takes no memory.
    pub(crate) fn many(items: Vec<T>) -> Self
        ensures { result ≡ items.items }
    {
        Self {
            kept: Kept::Many(items),
        }
    }

    /// A single one. It takes no memory.
    pub(crate) fn one(item: T) -> Self
        ensures { result ≡ item ∷ [] }
    {
        Self {
            kept: Kept::One([item]),
        }
    }

    /// All of them, in order.
    pub fn as_slice(&self) -> &[T]
        ensures { result.now ≡ self.now }
    {
        match &self.kept {
            Kept::One(item) => item.as_slice(),
            Kept::Many(items) => items.as_slice(),
        }
    }
}
