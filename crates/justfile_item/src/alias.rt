//! Aliases of recipes.
ghost use Rattle.std.specs.Prelude.{◌≡◌, ◌&&◌, IfOk, not};
ghost use Rattle.std.specs.Cmp.{and_per, on_per};
ghost use Rattle.justfile_attribute_set.specs.contracts.attribute_set.PairSetAttributeWrittenPartialEq.TheImpl as sets;
ghost use Rattle.justfile_attribute_set.specs.contracts.attribute_set.PairSetAttributeWrittenPartialEq.TheImpl.Laws.{laws-law as set_per};
ghost use Rattle.justfile_token.specs.contracts.name.NamePartialEq.TheImpl as names;
ghost use Rattle.justfile_token.specs.contracts.name.NamePartialEq.TheImpl.Laws.{laws-law as name_per};
ghost use Rattle.justfile_token.specs.Sink.{Puts};
ghost use Rattle.justfile_item.specs.Copies.{IsSameAlias};
ghost use Rattle.justfile_item.specs.ItemText.{alias_text_of};
ghost use Rattle.justfile_item.specs.Private.{is_private_item};

use crate::attributes::are_equal;
use crate::private::is_private_item;
use justfile_attribute_set::AttributeSet;
use justfile_leaves::put_piece;
use justfile_recipe_header::write_namepath;
use justfile_token::{Keyed, Name, Namepath, Sink};
use std::alloc::{AllocError, Global};
use std::fmt;

/// An alias: another name for its target. In a file, the target is the path of a recipe.
#[derive(Drop)]
pub struct Alias<'src, T = Namepath<'src>> {
    /// The attributes.
    pub attributes: AttributeSet<'src>,
    /// The new name.
    pub name: Name<'src>,
    /// What the name refers to.
    pub target: T,
}

impl<'src> Alias<'src, Namepath<'src>> {
    /// Returns a copy of the alias, or an error if out of memory.
    pub fn clone(&self, alloc: Global) -> Result<Self, AllocError>
        ensures { IfOk result (λ copy. IsSameAlias copy self.now) }
    {
        let target = self.target.clone(alloc)?;
        match self.attributes.clone(alloc) {
            Ok(attributes) => Ok(Alias {
                attributes,
                name: self.name,
                target,
            }),
            Err(fault) => Err(fault),
        }
    }
}

impl<'src, T> Alias<'src, T> {
    /// Whether lists of recipes show the alias: its name doesn't begin with `_`, and it has no
    /// attribute `private`.
    pub fn is_public(&self) -> bool
        ensures { result ≡ not (is_private_item self.now.name.token self.now.attributes) }
    {
        !is_private_item(self.name.token, &self.attributes)
    }
}

/// The key of an alias is its name.
impl<'src, T> Keyed<'src> for Alias<'src, T> {
    ghost use Rattle.justfile_token.specs.Name.{name_text};

    ghost key_text = { λ alias. name_text alias.name };

    fn key(&self) -> &'src str {
        self.name.token.lexeme()
    }
}

/// Two aliases are equal if all their fields are.
impl<'src, T: PartialEq> PartialEq for Alias<'src, T> {
    ghost eq = { λ a b. sets.eq-value.it a.attributes b.attributes
        && (names.eq-value.it a.name b.name && T.eq a.target b.target) };

    ghost laws = { and_per (on_per (λ a. a.attributes) set_per)
        (and_per (on_per (λ a. a.name) name_per) (on_per (λ a. a.target) T.laws)) };

    fn eq(&self, other: &Self) -> bool {
        are_equal(&self.attributes, &other.attributes)
            && self.name == other.name
            && self.target == other.target
    }
}

impl<'src> fmt::Display for Alias<'src, Namepath<'src>> {
    ghost use Rattle.std.specs.Prelude.{Some};

    ghost output = { λ alias. Some (alias_text_of alias) };

    fn fmt<W: fmt::Write>(&self, f: &mut fmt::Formatter<W>) -> fmt::Result {
        write_alias(self, f)
    }
}

/// Writes the name.
impl<'src, T> fmt::Debug for Alias<'src, T> {
    fn fmt<W: fmt::Write>(&self, f: &mut fmt::Formatter<W>) -> fmt::Result {
        f.write_str(self.name.lexeme())
    }
}

/// Writes the text of an alias, without its attributes.
pub(crate) fn write_alias<S: Sink>(
    alias: &Alias<'_, Namepath<'_>>,
    sink: &mut S,
) -> Result<(), S::Fault>
    ensures { Puts S.took S.failed sink.old result (alias_text_of alias.now) sink.new }
{
    put_piece("alias ", sink)?;
    sink.put(alias.name.lexeme())?;
    put_piece(" := ", sink)?;
    write_namepath(&alias.target, sink)?;
    Ok(())
}
