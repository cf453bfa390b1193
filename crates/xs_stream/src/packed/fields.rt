//! Fields as they are stored in bytes.
ghost use Rattle.std.specs.Prelude.{◌≡◌, ◌∷◌, [], length};
ghost use Rattle.std.specs.Iterator.{YieldsFirst, item_count};

use crate::packed::number::read_number;
use crate::packed::text::read_text;
use std::marker::Model;

/// A field that is stored in bytes. A contract sees it as a field.
#[derive(Drop)]
pub struct FieldView<'a> {
    name: &'a [u8],
    value: &'a [u8],
}

impl<'a> Model for FieldView<'a> {
    ghost use Rattle.xs_stream.specs.declared.field.Field.{Field};

    ghost Value = { Field };

    ghost view = { λ f. record { name = f.name.now; value = f.value.now } };
}

impl<'a> FieldView<'a> {
    /// Its name.
    pub fn name(&self) -> &'a [u8]
        ensures { result.now ≡ self.now.name }
    {
        self.name
    }

    /// Its value.
    pub fn value(&self) -> &'a [u8]
        ensures { result.now ≡ self.now.value }
    {
        self.value
    }
}

/// The fields of an entry, as a block stores them: an iterator over them. A contract sees the list of those that are
/// left.
#[derive(Drop)]
pub struct PackedFields<'a> {
    /// Whether the names are stored apart from the values.
    shared: bool,
    left: u64,
    names: &'a [u8],
    rest: &'a [u8],
}

impl<'a> Model for PackedFields<'a> {
    ghost use Rattle.std.specs.Prelude.{List};
    ghost use Rattle.xs_stream.specs.declared.field.Field.{Field};
    ghost use Rattle.xs_stream.specs.Packed.{fields_in};

    ghost Value = { List Field };

    ghost view = { λ f. fields_in f.shared f.left f.names.now f.rest.now };
}

impl<'a> PackedFields<'a> {
    ghost use Rattle.xs_stream.specs.Packed.{body_fields};

    /// The fields of a body, some of whose names may be in `names`.
    #[tactic(auto, unfolding(crate::specs::Packed::body_fields))]
    pub(crate) fn new(names: &'a [u8], body: &'a [u8]) -> Self
        ensures { result ≡ body_fields names.now body.now }
    {
        let (mark, rest) = read_number(body);
        if mark == 0 {
            let (left, names) = read_number(names);
            return Self {
                shared: true,
                left,
                names,
                rest,
            };
        }
        Self {
            shared: false,
            left: mark - 1,
            names,
            rest,
        }
    }

    /// A second iterator over the same fields.
    pub fn again(&self) -> Self
        ensures { result ≡ self.now }
    {
        Self {
            shared: self.shared,
            left: self.left,
            names: self.names,
            rest: self.rest,
        }
    }

    /// The number of fields that are left.
    pub fn count_left(&self) -> u64
        ensures { result ≡ length self.now }
    {
        self.left
    }
}

impl<'a> Iterator for PackedFields<'a> {
    type Item = FieldView<'a>;

    ghost next_gives = { YieldsFirst (λ s. s) };

    ghost remaining = { item_count (λ s. s) };

    #[inline(always)]
    fn next(&mut self) -> Option<FieldView<'a>> {
        if self.left == 0 {
            return None;
        }
        self.left -= 1;
        if self.shared {
            let (name, names) = read_text(self.names);
            let (value, rest) = read_text(self.rest);
            self.names = names;
            self.rest = rest;
            return Some(FieldView { name, value });
        }
        let (name, after_name) = read_text(self.rest);
        let (value, rest) = read_text(after_name);
        self.rest = rest;
        Some(FieldView { name, value })
    }
}
