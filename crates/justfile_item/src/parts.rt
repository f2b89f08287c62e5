//! What items of several kinds have: a kind, a name, attributes, a doc, and whether they are
//! private.
ghost use Rattle.std.specs.Prelude.{◌≡◌, Some};
ghost use Rattle.std.specs.Option.{option_copied};
ghost use Rattle.justfile_item.specs.ItemText.{item_attributes};
ghost use Rattle.justfile_item.specs.Parts as parts;
ghost use Rattle.justfile_item.specs.Parts.{attribute_doc, is_item_private, item_doc, item_kind, item_name, literal_text_of};

use crate::doc::text_of;
use crate::item::Item;
use crate::private::is_private_item;
use justfile_attribute::Attribute;
use justfile_attribute_set::AttributeSet;
use justfile_expression::Expression;
use justfile_token::Name;
use justfile_vocabulary::{AttributeKind, ItemKind};

impl<'src> Item<'src> {
    /// Returns the kind of the item.
    pub fn kind(&self) -> ItemKind
        ensures { result ≡ item_kind self.now }
    {
        match self {
            Item::Alias(_) => ItemKind::Alias,
            Item::Assignment(_) => ItemKind::Assignment,
            Item::Comment(_) => ItemKind::Comment,
            Item::Function(_) => ItemKind::Function,
            Item::Import { .. } => ItemKind::Import,
            Item::Module { .. } => ItemKind::Module,
            Item::Newline => ItemKind::Newline,
            Item::Recipe(_) => ItemKind::Recipe,
            Item::Setting(_) => ItemKind::Setting,
            Item::Unexport { .. } => ItemKind::Unexport,
        }
    }

    /// Returns the name that the item defines, sets or removes. Comments, line ends and imports
    /// have none.
    pub fn name(&self) -> Option<Name<'src>>
        ensures { result ≡ item_name self.now }
    {
        match self {
            Item::Alias(alias) => Some(alias.name),
            Item::Assignment(assignment) => Some(assignment.name),
            Item::Comment(_) | Item::Newline | Item::Import { .. } => None,
            Item::Function(function) => Some(function.name),
            Item::Module { name, .. } | Item::Unexport { name, .. } => Some(*name),
            Item::Recipe(recipe) => Some(recipe.name),
            Item::Setting(set) => Some(set.name),
        }
    }

    /// Returns the attributes of the item. Comments and line ends have none.
    pub fn attributes(&self) -> Option<&AttributeSet<'src>>
        ensures { option_copied result ≡ item_attributes self.now }
    {
        match self {
            Item::Alias(alias) => some_set(&alias.attributes),
            Item::Assignment(assignment) => some_set(&assignment.attributes),
            Item::Comment(_) | Item::Newline => None,
            Item::Function(function) => some_set(&function.attributes),
            Item::Import { attributes, .. }
            | Item::Module { attributes, .. }
            | Item::Unexport { attributes, .. } => some_set(attributes),
            Item::Recipe(recipe) => some_set(&recipe.attributes),
            Item::Setting(set) => some_set(&set.attributes),
        }
    }

    /// Returns the doc that lists show beside a recipe or a module. With an attribute `doc` it is
    /// the text of its argument, or `None` if it has no argument or one that isn't a literal.
    /// Without one it is the text of the comment before the item, if that is its doc. Other items
    /// have none.
    pub fn doc(&self) -> Option<&str>
        ensures { option_copied result ≡ item_doc self.now }
    {
        match self {
            Item::Module {
                attributes,
                doc,
                ..
            } => listed_doc(attributes, doc),
            Item::Recipe(recipe) => listed_doc(&recipe.attributes, &recipe.doc),
            Item::Alias(_)
            | Item::Assignment(_)
            | Item::Comment(_)
            | Item::Function(_)
            | Item::Import { .. }
            | Item::Newline
            | Item::Setting(_)
            | Item::Unexport { .. } => None,
        }
    }

    /// Whether the item is private, so that lists omit it: whether it has the attribute `private`
    /// or a name that begins with `_`. For an assignment and a recipe it is their field `private`.
    /// Only aliases, assignments, functions, modules and recipes can be private.
    pub fn is_private(&self) -> bool
        ensures { result ≡ is_item_private self.now }
    {
        match self {
            Item::Alias(alias) => is_private_item(alias.name.token, &alias.attributes),
            Item::Assignment(assignment) => assignment.private,
            Item::Function(function) => is_private_item(function.name.token, &function.attributes),
            Item::Module {
                attributes,
                name,
                ..
            } => is_private_item(name.token, attributes),
            Item::Recipe(recipe) => recipe.private,
            Item::Comment(_)
            | Item::Import { .. }
            | Item::Newline
            | Item::Setting(_)
            | Item::Unexport { .. } => false,
        }
    }
}

/// Returns attributes that are there.
fn some_set<'a, 'src>(attributes: &'a AttributeSet<'src>) -> Option<&'a AttributeSet<'src>>
    ensures { option_copied result ≡ Some attributes.now }
{
    Some(attributes)
}

/// Returns the doc of a construct: that of its attribute `doc`, or else its comment.
fn listed_doc<'a>(attributes: &'a AttributeSet<'_>, comment: &'a Option<String>) -> Option<&'a str>
    ensures { option_copied result ≡ parts.listed_doc attributes.now comment.now }
{
    match attributes.get(AttributeKind::Doc) {
        Some(attribute) => attribute_doc(attribute),
        None => text_of(comment),
    }
}

/// Returns the text of an attribute `doc`.
fn attribute_doc<'a>(attribute: &'a Attribute<'_>) -> Option<&'a str>
    ensures { option_copied result ≡ attribute_doc attribute.now }
{
    match attribute {
        Attribute::Doc(Some(argument)) => literal_text(argument),
        _ => None,
    }
}

/// Returns the text of an expression that is a literal.
fn literal_text<'a>(expression: &'a Expression<'_>) -> Option<&'a str>
    ensures { option_copied result ≡ literal_text_of expression.now }
{
    match expression.as_string_literal() {
        Some(literal) => Some(literal.cooked.as_str()),
        None => None,
    }
}
