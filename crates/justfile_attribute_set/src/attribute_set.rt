//! Sets of attributes: how they are made, read, copied and checked.
ghost use Rattle.std.specs.Prelude.{◌≡◌, [], length, find, map, not, None, IfErr, IfOk, OnOk, string_bytes};
ghost use Rattle.std.specs.Cmp.{on_per};
ghost use Rattle.std.specs.Cmp.Lexicographic.{lists_per, pointwise};
ghost use Rattle.std.specs.List.{All, AllZip};
ghost use Rattle.std.specs.Option.{option_and_then, option_copied, option_map};
ghost use Rattle.justfile_token.specs.StringLiteral.{IsSameLiteral};
ghost use Rattle.justfile_vocabulary.specs.declared.attribute_kind.AttributeKind.TheVariants as kinds;
ghost use Rattle.justfile_model.specs.Meanings.AttributeKinds.{is_allowed};
ghost use Rattle.justfile_model.specs.Meanings.AttributeRules.{first_invalid};
ghost use Rattle.justfile_model.specs.Trees.ContentKeys.{entry_cmp};
ghost use Rattle.justfile_model.specs.Lists.Distinct.{kept_last};
ghost use Rattle.justfile_model.specs.Lists.Order.{in_order};
ghost use Rattle.justfile_attribute.specs.New.{HasDerivedAttributeFields};
ghost use Rattle.justfile_attribute.specs.contracts.attribute.AttributePartialEq.TheImpl.Laws.{laws-law as attribute_per};
ghost use Rattle.justfile_expression.specs.LeafViews.{views_leaves};
ghost use Rattle.justfile_attribute_set.specs.Pairs.{commented_cmp, leaf_entry_of, pair_cmp, same, same_attributes, same_commented};
ghost use Rattle.justfile_attribute_set.specs.IntoNamed.{named_left};
ghost use Rattle.justfile_written.specs.Written.{uncommented};
ghost use Rattle.justfile_attribute_set.specs.Attributes as definitions;
ghost use Rattle.justfile_attribute_set.specs.Attributes.{are_enabled, groups_in, has_kind};
ghost use Rattle.justfile_attribute_set.specs.Keys.{keys_left};

use crate::copy::copy_pairs;
use crate::keys::{IntoNamed, Keys};
use crate::kinds::{enables_here, first_of_kind, has_enabler, has_kind, kind_of, may_have};
use crate::pair_set::PairSet;
use crate::pairs::{find_key, have_same_keys, last_of_each, sort_pairs};
use justfile_attribute::Attribute;
use justfile_token::{CompileError, CompileErrorKind, Name, StringLiteral, Token};
use justfile_vocabulary::{AttributeKind, ItemKind};
use justfile_written::{Written, with_comments, without_comments};
use std::alloc::{AllocError, Global};

/// The attributes of a construct in the order of their content. Each has the name that it was
/// written with and an optional comment.
pub type AttributeSet<'src> = PairSet<Attribute<'src>, Written<'src>>;

impl<'src> PairSet<Attribute<'src>, Written<'src>> {
    ghost use Rattle.justfile_attribute_set.specs.AttributeSet.{IsConstruct, IsInvalidBy, attributes_of, entries_with_comments, leaf_entries_of, pairs_of, written_of};
    ghost use Rattle.justfile_attribute_set.specs.Copies.{IsSameAttributes};

    /// Returns an empty set.
    #[tactic(auto, unfolding(crate::specs::InOrder::AreInOrder))]
    pub fn new(alloc: Global) -> Self
        ensures { pairs_of result ≡ [] }
    {
        PairSet {
            pairs: Vec::new(alloc),
        }
    }

    /// Returns the set of these attributes without comments, in the order of their content. The
    /// sort is stable. Of attributes that are equal, positions included, the last one is kept.
    ///
    /// # Errors
    ///
    /// `AllocError` if out of memory.
    #[tactic(auto, using(crate::proofs::Named::pairs_in_order, crate::proofs::Named::none_commented))]
    pub fn from_pairs(
        alloc: Global,
        pairs: Vec<(Attribute<'src>, Name<'src>)>,
    ) -> Result<Self, AllocError>
        ensures pairs { IfOk result (λ set. pairs_of set
            ≡ in_order pair_cmp (kept_last same_attributes pairs.entry.items)) }
        ensures comments { IfOk result (λ set. written_of set ≡ map uncommented (pairs_of set)) }
    {
        let written = without_comments(alloc, pairs)?;
        Self::from_written(alloc, written)
    }

    /// Returns the set of these attributes with their names and optional comments, in the order of
    /// their content. The sort is stable. Of attributes that are equal, positions included, the
    /// last one is kept.
    ///
    /// # Errors
    ///
    /// `AllocError` if out of memory.
    #[tactic(auto, using(crate::proofs::Named::entries_in_order))]
    pub fn from_entries(
        alloc: Global,
        entries: Vec<(Attribute<'src>, Name<'src>, Option<&'src str>)>,
    ) -> Result<Self, AllocError>
        ensures { IfOk result (λ set. entries_with_comments set
            ≡ in_order commented_cmp (kept_last same_commented entries.entry.items)) }
    {
        let written = with_comments(alloc, entries)?;
        Self::from_written(alloc, written)
    }

    /// Returns the set of these attributes in the order of their content. Of equal ones the last is
    /// kept.
    fn from_written(
        alloc: Global,
        pairs: Vec<(Attribute<'src>, Written<'src>)>,
    ) -> Result<Self, AllocError>
        ensures { IfOk result (λ set. written_of set
            ≡ in_order pair_cmp (kept_last same_attributes pairs.entry.items)) }
    {
        let mut kept = last_of_each(alloc, pairs)?;
        sort_pairs(&mut kept)?;
        Ok(PairSet { pairs: kept })
    }

    /// Returns the set of all these attributes in the order of their content. The sort is stable.
    /// Unlike `from_pairs` and `from_entries` it removes nothing, so it is for attributes of which
    /// no two are equal: those of a parser, whose positions differ, or those of a set
    /// (`into_written`). If the derived fields of the attributes are right, as `Attribute::new`
    /// makes them, the set is in the order of what the attributes mean.
    ///
    /// # Errors
    ///
    /// `AllocError` if out of memory.
    #[tactic(auto, using(crate::proofs::Sorts::entries_sorted))]
    pub fn from_parsed(pairs: Vec<(Attribute<'src>, Written<'src>)>) -> Result<Self, AllocError>
        ensures pairs { IfOk result (λ set. written_of set ≡ in_order pair_cmp pairs.entry.items) }
        ensures entries { IfOk result
            (λ set. All (λ p. HasDerivedAttributeFields p.0) pairs.entry.items → leaf_entries_of set
            ≡ in_order (entry_cmp views_leaves) (map leaf_entry_of pairs.entry.items)) }
    {
        let mut pairs = pairs;
        sort_pairs(&mut pairs)?;
        Ok(PairSet { pairs })
    }

    /// Returns a copy of the set, with its comments.
    ///
    /// # Errors
    ///
    /// `AllocError` if out of memory.
    #[tactic(auto, using(crate::proofs::CopiedPairs::copies_in_order))]
    pub fn clone(&self, alloc: Global) -> Result<Self, AllocError>
        ensures { IfOk result (λ copy. IsSameAttributes copy self.now) }
    {
        let pairs = copy_pairs(alloc, &self.pairs)?;
        Ok(PairSet { pairs })
    }

    /// Returns the number of attributes.
    pub fn len(&self) -> usize
        ensures { result ≡ length (attributes_of self.now) }
    {
        self.pairs.len()
    }

    /// Returns the first attribute of this kind, or `None` if there is none.
    pub fn get(&self, kind: AttributeKind) -> Option<&Attribute<'src>>
        ensures { option_copied result
            ≡ find (definitions.is_of_kind kind) (attributes_of self.now) }
    {
        match first_of_kind(&self.pairs, kind) {
            Some(pair) => Some(&pair.0),
            None => None,
        }
    }

    /// Returns the name that this attribute was written with, or `None` if the set doesn't have it.
    pub fn name(&self, attribute: &Attribute<'src>) -> Option<Name<'src>>
        ensures { result
            ≡ option_map (λ p. p.1) (find (λ p. same attribute.now p.0) (pairs_of self.now)) }
    {
        match find_key(&self.pairs, attribute) {
            Some(pair) => Some(pair.1.name),
            None => None,
        }
    }

    /// Returns the comment at the end of the line on which this attribute was written. The parser
    /// gives one only to the last attribute in its brackets, without trailing whitespace. `None` if
    /// there is no comment, or the set doesn't have the attribute.
    pub fn comment(&self, attribute: &Attribute<'src>) -> Option<&'src str>
        ensures { result ≡ option_and_then (λ p. p.1.comment)
            (find (λ p. same attribute.now p.0) (written_of self.now)) }
    {
        match find_key(&self.pairs, attribute) {
            Some(pair) => pair.1.comment,
            None => None,
        }
    }

    /// Returns copies of the names of the groups, in order.
    ///
    /// # Errors
    ///
    /// `AllocError` if out of memory.
    pub fn groups(&self, alloc: Global) -> Result<Vec<StringLiteral<'src>>, AllocError>
        ensures { IfOk result
            (λ copies. AllZip IsSameLiteral copies.items (groups_in (attributes_of self.now))) }
    {
        let mut groups = Vec::new(alloc);
        for pair in &self.pairs {
            if let Attribute::Group(name) = &pair.0 {
                groups.push(name.clone(alloc)?)?;
            }
        }
        Ok(groups)
    }

    /// Returns the names of the groups, in order.
    ///
    /// # Errors
    ///
    /// `AllocError` if out of memory.
    pub fn group_names(&self, alloc: Global) -> Result<Vec<&str>, AllocError>
        ensures { IfOk result (λ names. map (λ name. name.now) names.items
            ≡ map (λ group. string_bytes group.cooked) (groups_in (attributes_of self.now))) }
    {
        let mut names = Vec::new(alloc);
        for pair in &self.pairs {
            if let Attribute::Group(name) = &pair.0 {
                names.push(name.cooked.as_str())?;
            }
        }
        Ok(names)
    }

    /// Whether there is an attribute `private`.
    pub fn private(&self) -> bool
        ensures { result ≡ has_kind kinds.Private (attributes_of self.now) }
    {
        self.contains(AttributeKind::Private)
    }

    /// Whether the attributes enable the item on this system, which is Linux.
    pub fn is_enabled(&self) -> bool
        ensures { result ≡ are_enabled (attributes_of self.now) }
    {
        enables_here(
            has_enabler(&self.pairs),
            self.contains(AttributeKind::Linux),
            self.contains(AttributeKind::Unix),
        )
    }

    /// Whether there is an attribute of this kind.
    pub fn contains(&self, kind: AttributeKind) -> bool
        ensures { result ≡ has_kind kind (attributes_of self.now) }
    {
        has_kind(&self.pairs, kind)
    }

    /// Returns an iterator over the attributes, in order.
    pub fn iter(&self) -> Keys<'_, Attribute<'src>, Written<'src>>
        ensures { keys_left result ≡ attributes_of self.now }
    {
        Keys::new(&self.pairs)
    }

    /// Returns an iterator over the attributes, in order, each with its name, by value.
    pub fn into_items(self) -> IntoNamed<'src, Attribute<'src>>
        ensures { named_left result ≡ pairs_of self.entry }
    {
        IntoNamed::new(self.pairs)
    }

    /// Returns the attributes in order, each with its name and its optional comment.
    pub fn written(&self) -> &[(Attribute<'src>, Written<'src>)]
        ensures { result.now ≡ written_of self.now }
    {
        &self.pairs
    }

    /// Returns the attributes in order, each with its name and its optional comment, by value.
    /// `from_parsed` makes the same set of them.
    #[tactic(auto, using(crate::proofs::Sorts::order_stays))]
    pub fn into_written(self) -> Vec<(Attribute<'src>, Written<'src>)>
        ensures pairs { result.items ≡ written_of self.entry }
        ensures in_order { in_order pair_cmp result.items ≡ result.items }
    {
        self.pairs
    }

    /// Refuses attributes that an item of this kind, named by `item_token`, may not have. The kind
    /// must be one that can have attributes: any but `Comment` and `Newline`. The rule is
    /// `is_allowed` of the definitions.
    ///
    /// # Errors
    ///
    /// `InvalidAttribute` at the token, with the kind of the first attribute that the item may not
    /// have.
    pub fn ensure_valid_attributes(
        &self,
        item_kind: ItemKind,
        item_token: Token<'src>,
    ) -> Result<(), CompileError<'src>>
        requires construct { IsConstruct item_kind }
        ensures valid { OnOk result
            (first_invalid views_leaves item_kind (leaf_entries_of self.now) ≡ None) }
        ensures invalid { IfErr result
            (λ e. IsInvalidBy (first_invalid views_leaves item_kind (leaf_entries_of self.now))
            item_kind item_token.entry e) }
    {
        match self.first_invalid(item_kind) {
            None => Ok(()),
            Some(pair) => Err(item_token.error(CompileErrorKind::InvalidAttribute {
                item_kind,
                item_name: item_token.lexeme(),
                attribute: kind_of(&pair.0),
            })),
        }
    }

    /// Returns the first pair whose attribute an item of this kind may not have.
    fn first_invalid(&self, item_kind: ItemKind) -> Option<&(Attribute<'src>, Written<'src>)>
        ensures { option_copied result
            ≡ find (λ p. not (is_allowed item_kind (definitions.kind_of p.0)))
            (written_of self.now) }
    {
        self.pairs
            .iter()
            .find(|pair| !may_have(item_kind, kind_of(&pair.0)))
    }
}

/// Two sets are equal if their attributes are, in order. Names and comments are ignored.
impl PartialEq for PairSet<Attribute<'_>, Written<'_>> {
    ghost use Rattle.justfile_attribute_set.specs.AttributeSet.{attributes_of};

    ghost eq = { λ a b. pointwise same (attributes_of a) (attributes_of b) };

    ghost laws = { on_per attributes_of (lists_per attribute_per) };

    fn eq(&self, other: &Self) -> bool {
        have_same_keys(&self.pairs, &other.pairs)
    }
}

impl Eq for PairSet<Attribute<'_>, Written<'_>> {
    ghost use Rattle.std.specs.Cmp.{on_equiv};
    ghost use Rattle.std.specs.Cmp.Lexicographic.{lists_equiv};
    ghost use Rattle.justfile_attribute.specs.contracts.attribute.AttributeEq.TheImpl.Laws.{laws-law as attribute_equiv};
    ghost use Rattle.justfile_attribute_set.specs.AttributeSet.{attributes_of};

    ghost laws = { on_equiv attributes_of (lists_equiv attribute_equiv) };
}
