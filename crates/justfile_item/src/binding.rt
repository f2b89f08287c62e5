//! Names that are bound to values.
ghost use Rattle.std.specs.Prelude.{◌==◌, ◌&&◌};
ghost use Rattle.std.specs.Bool.{beq};
ghost use Rattle.std.specs.Cmp.{and_per, bool_eq_equiv, nat_eq_equiv, on_per, partial_equiv_from_equiv};
ghost use Rattle.justfile_attribute_set.specs.contracts.attribute_set.PairSetAttributeWrittenPartialEq.TheImpl as sets;
ghost use Rattle.justfile_attribute_set.specs.contracts.attribute_set.PairSetAttributeWrittenPartialEq.TheImpl.Laws.{laws-law as set_per};
ghost use Rattle.justfile_token.specs.contracts.name.NamePartialEq.TheImpl as names;
ghost use Rattle.justfile_token.specs.contracts.name.NamePartialEq.TheImpl.Laws.{laws-law as name_per};
ghost use Rattle.justfile_numbers.specs.contracts.number.NumberPartialEq.TheImpl as numbers;
ghost use Rattle.justfile_numbers.specs.contracts.number.NumberPartialEq.TheImpl.Laws.{laws-law as number_per};

use crate::attributes::are_equal;
use justfile_attribute_set::AttributeSet;
use justfile_numbers::Number;
use justfile_token::{Keyed, Name};
use std::fmt;

/// A name that is bound to a value.
#[derive(Drop)]
pub struct Binding<'src, V> {
    /// The attributes.
    pub attributes: AttributeSet<'src>,
    /// Whether it is evaluated even if nothing uses it, with `eager` before the name.
    pub eager: bool,
    /// Whether it is exported as an environment variable, with `export` before the name.
    pub export: bool,
    /// The number of imports and modules from the root file to its file.
    pub file_depth: u32,
    /// The name.
    pub name: Name<'src>,
    /// The number of the binding. The numerator gives no other binding the same number.
    pub number: Number,
    /// Whether it is predefined, and not assigned in a file.
    pub prelude: bool,
    /// Whether lists of variables omit it.
    pub private: bool,
    /// The value.
    pub value: V,
}

/// The key of a binding is its name.
impl<'src, V> Keyed<'src> for Binding<'src, V> {
    ghost use Rattle.justfile_token.specs.Name.{name_text};

    ghost key_text = { λ binding. name_text binding.name };

    fn key(&self) -> &'src str {
        self.name.token.lexeme()
    }
}

/// Two bindings are equal if all their fields are.
impl<'src, V: PartialEq> PartialEq for Binding<'src, V> {
    ghost eq = { λ a b. sets.eq-value.it a.attributes b.attributes
        && (beq a.eager b.eager
        && (beq a.export b.export
        && ((a.file_depth == b.file_depth)
        && (names.eq-value.it a.name b.name
        && (numbers.eq-value.it a.number b.number
        && (beq a.prelude b.prelude
        && (beq a.private b.private && V.eq a.value b.value))))))) };

    ghost laws = { and_per (on_per (λ b. b.attributes) set_per)
        (and_per (on_per (λ b. b.eager) (partial_equiv_from_equiv bool_eq_equiv))
        (and_per (on_per (λ b. b.export) (partial_equiv_from_equiv bool_eq_equiv))
        (and_per (on_per (λ b. b.file_depth) (partial_equiv_from_equiv nat_eq_equiv))
        (and_per (on_per (λ b. b.name) name_per)
        (and_per (on_per (λ b. b.number) number_per)
        (and_per (on_per (λ b. b.prelude) (partial_equiv_from_equiv bool_eq_equiv))
        (and_per (on_per (λ b. b.private) (partial_equiv_from_equiv bool_eq_equiv))
        (on_per (λ b. b.value) V.laws)))))))) };

    fn eq(&self, other: &Self) -> bool {
        are_equal(&self.attributes, &other.attributes)
            && self.eager == other.eager
            && self.export == other.export
            && self.file_depth == other.file_depth
            && self.name == other.name
            && self.number == other.number
            && self.prelude == other.prelude
            && self.private == other.private
            && self.value == other.value
    }
}

/// Writes the name.
impl<'src, V> fmt::Debug for Binding<'src, V> {
    fn fmt<W: fmt::Write>(&self, f: &mut fmt::Formatter<W>) -> fmt::Result {
        f.write_str(self.name.lexeme())
    }
}
