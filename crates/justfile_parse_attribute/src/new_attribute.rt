//! Making attributes from their arguments.
ghost use Rattle.std.specs.Prelude.{◌≡◌, ◌∷◌, ◌++◌, [], IfErr, IfOk, IsTrue, Ok, OnErr, OnOk};
ghost use Rattle.std.specs.Option.{option_map};
ghost use Rattle.justfile_attribute.specs.Attribute.{leaf_attribute_of};
ghost use Rattle.justfile_attribute.specs.New.{HasDerivedAttributeFields, takes_no_arguments};
ghost use Rattle.justfile_attribute_rules.specs.Made.{IsFaultOfRule, Makes, quoted_leaf};
ghost use Rattle.justfile_model.specs.Meanings.Meaning.{by_key, by_position, quoted};
ghost use Rattle.justfile_model.specs.Meanings.Rules.{AttributeArgumentExpression};
ghost use Rattle.justfile_model.specs.Readers.NewAttribute as new;
ghost use Rattle.justfile_model.specs.Trees.Tree as tree;
ghost use Rattle.justfile_parse_attribute.specs.ArgumentKeys.{AreKeyed, HasKeys, IsInserted, are_keys_distinct};
ghost use Rattle.justfile_token.specs.declared.fault.Fault.TheVariants.{Memory};
ghost use Rattle.justfile_parse_attribute.specs.AddedAttributes.{Adds};
ghost use Rattle.justfile_parse_attribute.specs.Attributes.{IsSingle, arguments_of};
ghost use Rattle.justfile_vocabulary.specs.declared.attribute_kind.AttributeKind.TheVariants as kinds;
ghost use Rattle.justfile_parse_attribute.specs.DerivedAttributeFields.{KeepsDerivedPairFields};
ghost use Rattle.justfile_expression.specs.LeafTree.{leaf_tree_of};
ghost use Rattle.justfile_expression.specs.LeafViews.{views_leaves};
ghost use Rattle.justfile_written.specs.Written.{uncommented};

use crate::arguments::Arguments;
use justfile_attribute::{Attribute, plain_attribute, takes_no_arguments};
use justfile_attribute_rules::KeyMap;
use justfile_expression::Expression;
use justfile_token::{
    CompileError, CompileErrorKind, CompileResult, Fault, Name, StringLiteral, Token,
};
use justfile_vocabulary::AttributeKind;
use justfile_written::Written;
use std::alloc::{AllocError, Global};
use std::collections::BTreeMap;

/// Makes an attribute from its arguments, and appends it to `attributes`.
///
/// # Errors
///
/// `Compile` if a rule is broken; `Memory` if memory runs out.
#[tactic(auto, using(crate::proofs::PlainAttributes::plain_made, crate::proofs::RepeatedAttributes::made_added))]
pub(crate) fn add_attribute<'src>(
    alloc: Global,
    attributes: &mut Vec<(Attribute<'src>, Written<'src>)>,
    name: Name<'src>,
    kind: AttributeKind,
    arguments: Arguments<'src>,
) -> CompileResult<'src>
    ensures added { Adds leaf_attribute_of result (new.new_attribute views_leaves name.entry.token
        kind (by_position (arguments_of arguments.entry)) (by_key (arguments_of arguments.entry)))
        name.entry attributes.old.items attributes.new.items }
    ensures fields { OnOk result
        (KeepsDerivedPairFields attributes.old.items attributes.new.items) }
    ensures kept { OnErr result (attributes.new.items ≡ attributes.old.items) }
{
    if takes_no_arguments(kind) && arguments.is_empty() {
        return push_plain(attributes, name, kind);
    }
    if is_group(kind) && arguments.is_single() {
        return push_group(attributes, name, arguments);
    }
    match new_attribute(alloc, name, kind, arguments) {
        Ok(attribute) => push_pair(attributes, attribute, name),
        Err(fault) => Err(fault),
    }
}

/// Appends the attribute of a kind that takes no arguments. Reserves room first, so that nothing
/// can fail once the attribute is made, and it needs to be copied less often.
///
/// # Errors
///
/// `Memory` if memory runs out.
#[tactic(auto, using(crate::proofs::RepeatedAttributes::made_added))]
fn push_plain<'src>(
    attributes: &mut Vec<(Attribute<'src>, Written<'src>)>,
    name: Name<'src>,
    kind: AttributeKind,
) -> CompileResult<'src>
    requires { IsTrue (takes_no_arguments kind) }
    ensures added { Adds leaf_attribute_of result (Ok (tree.Plain kind)) name.entry
        attributes.old.items attributes.new.items }
    ensures fields { OnOk result
        (KeepsDerivedPairFields attributes.old.items attributes.new.items) }
    ensures kept { OnErr result (attributes.new.items ≡ attributes.old.items) }
{
    let comment = None;
    attributes.reserve(1)?;
    attributes.push_reserved((plain_attribute(kind), Written { name, comment }));
    Ok(())
}

/// Whether the kind is `group`.
fn is_group(kind: AttributeKind) -> bool
    ensures { IsTrue result → kind ≡ kinds.Group }
{
    matches!(kind, AttributeKind::Group)
}

/// Appends a `group` with one argument, as most are. It needs no list of literals, and is copied
/// less often than what `Attribute::from_boxes` returns.
///
/// # Errors
///
/// `Compile` if the argument isn't a literal; `Memory` if memory runs out.
fn push_group<'src>(
    attributes: &mut Vec<(Attribute<'src>, Written<'src>)>,
    name: Name<'src>,
    arguments: Arguments<'src>,
) -> CompileResult<'src>
    requires { IsSingle arguments }
    ensures added { Adds leaf_attribute_of result (new.new_attribute views_leaves name.entry.token
        kinds.Group (by_position (arguments_of arguments.entry))
        (by_key (arguments_of arguments.entry))) name.entry attributes.old.items
        attributes.new.items }
    ensures fields { OnOk result
        (KeepsDerivedPairFields attributes.old.items attributes.new.items) }
    ensures kept { OnErr result (attributes.new.items ≡ attributes.old.items) }
{
    let (first, value) = arguments.into_single();
    match literal_of(value) {
        Some(literal) => push_group_named(attributes, name, literal),
        None => Err(not_literal_fault(name, first)),
    }
}

/// Appends the `group` with this name.
///
/// # Errors
///
/// `Memory` if memory runs out.
#[tactic(auto, using(crate::proofs::RepeatedAttributes::made_added))]
fn push_group_named<'src>(
    attributes: &mut Vec<(Attribute<'src>, Written<'src>)>,
    name: Name<'src>,
    group: StringLiteral<'src>,
) -> CompileResult<'src>
    ensures added { Adds leaf_attribute_of result
        (Ok (tree.Texts kinds.Group (quoted_leaf group.entry ∷ []))) name.entry
        attributes.old.items attributes.new.items }
    ensures fields { OnOk result
        (KeepsDerivedPairFields attributes.old.items attributes.new.items) }
    ensures kept { OnErr result (attributes.new.items ≡ attributes.old.items) }
{
    let comment = None;
    attributes.reserve(1)?;
    attributes.push_reserved((Attribute::Group(group), Written { name, comment }));
    Ok(())
}

/// Returns the literal if the expression is one, and otherwise `None`.
#[tactic(auto, using(justfile_attribute_rules::proofs::Quoted::not_quoted))]
fn literal_of(value: Box<Expression<'_>>) -> Option<StringLiteral<'_>>
    ensures { option_map quoted_leaf result ≡ quoted (leaf_tree_of value.entry.value) }
{
    Box::into_inner(value).into_string_literal()
}

/// Makes the fault, at the argument's first token, for one that isn't a literal.
fn not_literal_fault<'src>(name: Name<'src>, first: Token<'src>) -> Fault<'src>
    ensures { IsFaultOfRule (AttributeArgumentExpression name.entry.token) first.entry result }
{
    Fault::Compile(CompileError {
        kind: CompileErrorKind::AttributeArgumentExpression { attribute: name },
        token: first,
    })
}

/// Appends an attribute without a comment. Reserves room first, since a push that can fail would
/// return the attribute on failure, which costs one more copy.
///
/// # Errors
///
/// `Memory` if memory runs out.
fn push_pair<'src>(
    attributes: &mut Vec<(Attribute<'src>, Written<'src>)>,
    attribute: Attribute<'src>,
    name: Name<'src>,
) -> CompileResult<'src>
    ensures added { OnOk result (attributes.new.items
        ≡ attributes.old.items ++ uncommented (attribute.entry, name.entry) ∷ []) }
    ensures memory { IfErr result (λ fault. fault ≡ Memory) }
    ensures kept { OnErr result (attributes.new.items ≡ attributes.old.items) }
{
    let comment = None;
    attributes.reserve(1)?;
    attributes.push_reserved((attribute, Written { name, comment }));
    Ok(())
}

/// Makes the attribute of this kind with these arguments.
///
/// # Errors
///
/// `Compile` if a rule is broken; `Memory` if memory runs out.
#[tactic(auto, using(crate::proofs::KeysPut::made_same))]
fn new_attribute<'src>(
    alloc: Global,
    name: Name<'src>,
    kind: AttributeKind,
    arguments: Arguments<'src>,
) -> CompileResult<'src, Attribute<'src>>
    ensures made { Makes leaf_attribute_of result (new.new_attribute views_leaves name.entry.token
        kind (by_position (arguments_of arguments.entry)) (by_key (arguments_of arguments.entry))) }
    ensures fields { IfOk result HasDerivedAttributeFields }
{
    let Arguments {
        positional,
        keyed,
        texts: _,
    } = arguments;
    let keys = keys_by_text(alloc, keyed)?;
    Attribute::from_boxes(alloc, name, kind, positional, keys)
}

/// Collects keyword arguments into a map by the texts of their keys.
#[tactic(auto, using(crate::proofs::KeysPut::none_put, crate::proofs::KeysPut::one_put, crate::proofs::KeysPut::all_put))]
fn keys_by_text<'src>(
    alloc: Global,
    keyed: Vec<(Name<'src>, Option<Box<Expression<'src>>>)>,
) -> Result<KeyMap<'src>, AllocError>
    requires { IsTrue (are_keys_distinct keyed.items) }
    ensures { IfOk result (λ keys. HasKeys keyed.entry.items keys) }
{
    let mut keyed = keyed;
    let mut keys = BTreeMap::new(alloc);
    while let Some(given) = keyed.pop() {
        insert_key(&mut keys, given)?;
    }
    Ok(keys)
}

/// Inserts a key by its text. It replaces a key with the same text.
#[tactic(auto, using(crate::proofs::PutKeys::same_keyed))]
fn insert_key<'src>(
    keys: &mut KeyMap<'src>,
    given: (Name<'src>, Option<Box<Expression<'src>>>),
) -> Result<(), AllocError>
    requires { AreKeyed keys.old }
    ensures ok { OnOk result (IsInserted given.entry keys.old keys.new) }
    ensures err { OnErr result (keys.new.entries ≡ keys.old.entries) }
    ensures keyed { AreKeyed keys.new }
{
    let (key, _) = &given;
    let text = key.lexeme();
    match keys.insert(text, given) {
        Ok(_before) => Ok(()),
        Err(_failed) => Err(AllocError),
    }
}
