//! Items of any kind: their type, and how they are copied and printed.
ghost use Rattle.std.specs.Prelude.{◌≡◌, IfOk, string_bytes};
ghost use Rattle.std.specs.Option.{option_map};
ghost use Rattle.justfile_vocabulary.specs.Indentation.{indentation_text};
ghost use Rattle.justfile_model.specs.Printed.Printing.{if_some, item_text, printable_item};
ghost use Rattle.justfile_token.specs.Sink.{Puts};
ghost use Rattle.justfile_item.specs.Attributes.{attributes_text};
ghost use Rattle.justfile_item.specs.Copies.{IsSameItem};
ghost use Rattle.justfile_item.specs.Indented.{item_indentation};
ghost use Rattle.justfile_item.specs.Item.{item_shape};
ghost use Rattle.justfile_item.specs.ItemText.{bare_text, item_attributes, item_doc_text};
ghost use Rattle.justfile_item.specs.declared.item.Item.TheVariants as items;

use crate::alias::{Alias, write_alias};
use crate::assignment::{Assignment, write_assignment};
use crate::attributes::write_attributes;
use crate::doc::write_doc;
use crate::function_definition::{FunctionDefinition, write_function};
use crate::path::{copy_path, write_import, write_module, write_unexport};
use crate::recipe::{UnresolvedRecipe, write_recipe};
use crate::set::{Set, write_set};
use justfile_attribute_set::AttributeSet;
use justfile_token::{Name, Namepath, Sink, StringLiteral, copy_optional_text};
use justfile_vocabulary::Indentation;
use std::alloc::{AllocError, Global};
use std::fmt;

/// An item of a file, as in `docs/LANGUAGE.md`.
#[derive(Drop)]
pub enum Item<'src> {
    Alias(Alias<'src>),
    Assignment(Assignment<'src>),
    /// A comment, without whitespace at its end.
    Comment(&'src str),
    Function(FunctionDefinition<'src>),
    /// `import relative`, or `import? relative` if the file need not exist.
    Import {
        attributes: AttributeSet<'src>,
        optional: bool,
        relative: StringLiteral<'src>,
    },
    /// `mod name`, or `mod? name` if the file need not exist, with an optional path of the file.
    Module {
        attributes: AttributeSet<'src>,
        /// The doc: the text of the comment before the module, if that is its doc.
        doc: Option<String>,
        name: Name<'src>,
        optional: bool,
        relative: Option<StringLiteral<'src>>,
    },
    /// The end of a line, or a blank line.
    Newline,
    Recipe(UnresolvedRecipe<'src>),
    Setting(Set<'src>),
    /// `unexport name`: a variable that is removed from the environment of recipes.
    Unexport {
        attributes: AttributeSet<'src>,
        name: Name<'src>,
    },
}

impl<'src> Item<'src> {
    ghost use Rattle.justfile_model.specs.Readers.Reader.{has_body};
    ghost use Rattle.justfile_item.specs.Item.{is_item_enabled, item_of};

    /// Returns a copy of the item, or an error if out of memory.
    pub fn clone(&self, alloc: Global) -> Result<Self, AllocError>
        ensures { IfOk result (λ copy. IsSameItem copy self.now) }
    {
        match self {
            Item::Alias(alias) => match alias.clone(alloc) {
                Ok(alias) => Ok(Item::Alias(alias)),
                Err(fault) => Err(fault),
            },
            Item::Assignment(assignment) => match assignment.clone(alloc) {
                Ok(assignment) => Ok(Item::Assignment(assignment)),
                Err(fault) => Err(fault),
            },
            Item::Comment(text) => Ok(Item::Comment(text)),
            Item::Function(function) => match function.clone(alloc) {
                Ok(function) => Ok(Item::Function(function)),
                Err(fault) => Err(fault),
            },
            Item::Import {
                attributes,
                optional,
                relative,
            } => copy_import(attributes, alloc, *optional, relative),
            Item::Module {
                attributes,
                doc,
                name,
                optional,
                relative,
            } => copy_module(attributes, alloc, doc, name, *optional, relative),
            Item::Newline => Ok(Item::Newline),
            Item::Recipe(recipe) => match recipe.clone(alloc) {
                Ok(recipe) => Ok(Item::Recipe(recipe)),
                Err(fault) => Err(fault),
            },
            Item::Setting(set) => match set.clone(alloc) {
                Ok(set) => Ok(Item::Setting(set)),
                Err(fault) => Err(fault),
            },
            Item::Unexport { attributes, name } => copy_unexport(attributes, alloc, name),
        }
    }

    /// Whether the item is a recipe with a body.
    pub fn has_body(&self) -> bool
        ensures { result ≡ has_body (item_of self.now) }
    {
        match self {
            Item::Recipe(recipe) => !recipe.body.is_empty(),
            Item::Alias(_)
            | Item::Assignment(_)
            | Item::Comment(_)
            | Item::Function(_)
            | Item::Import { .. }
            | Item::Module { .. }
            | Item::Newline
            | Item::Setting(_)
            | Item::Unexport { .. } => false,
        }
    }

    /// Whether the item's attributes enable it on this system, which is Linux.
    pub fn is_enabled(&self) -> bool
        ensures { result ≡ is_item_enabled self.now }
    {
        match self {
            Item::Alias(alias) => alias.attributes.is_enabled(),
            Item::Assignment(assignment) => assignment.attributes.is_enabled(),
            Item::Comment(_) | Item::Newline => true,
            Item::Function(function) => function.attributes.is_enabled(),
            Item::Import { attributes, .. }
            | Item::Module { attributes, .. }
            | Item::Unexport { attributes, .. } => attributes.is_enabled(),
            Item::Recipe(recipe) => recipe.attributes.is_enabled(),
            Item::Setting(set) => set.attributes.is_enabled(),
        }
    }

    /// Returns the text of the item, with this indentation of body lines, or an error if out of
    /// memory.
    pub fn print(&self, alloc: Global, indentation: Indentation) -> Result<String, AllocError>
        ensures { IfOk result (λ printed. string_bytes printed
            ≡ item_text (item_shape self.now) (indentation_text indentation)) }
    {
        let mut printed = String::new(alloc);
        write_item(self, indentation, &mut printed)?;
        Ok(printed)
    }
}

/// Writes the text that `print` returns at an indentation of four spaces.
impl fmt::Debug for Item<'_> {
    fn fmt<W: fmt::Write>(&self, f: &mut fmt::Formatter<W>) -> fmt::Result {
        write_item(self, Indentation::default(), f)
    }
}

/// Whether the printed item reads back: no line of its body ends in a carriage return.
pub fn is_printable(item: &Item<'_>) -> bool
    ensures { result ≡ printable_item (item_shape item.now) }
{
    match item {
        Item::Recipe(recipe) => recipe.is_printable(),
        Item::Alias(_)
        | Item::Assignment(_)
        | Item::Comment(_)
        | Item::Function(_)
        | Item::Import { .. }
        | Item::Module { .. }
        | Item::Newline
        | Item::Setting(_)
        | Item::Unexport { .. } => true,
    }
}

/// Returns the indentation that the item sets, if it is the setting `indentation` and is enabled on
/// this system.
pub fn item_indentation(item: &Item<'_>) -> Option<Indentation>
    ensures { result ≡ option_map (λ p. p.1) (item_indentation item.now) }
{
    match item {
        Item::Setting(set) => set.indentation(),
        Item::Alias(_)
        | Item::Assignment(_)
        | Item::Comment(_)
        | Item::Function(_)
        | Item::Import { .. }
        | Item::Module { .. }
        | Item::Newline
        | Item::Recipe(_)
        | Item::Unexport { .. } => None,
    }
}

/// Returns a copy of an import.
fn copy_import<'src>(
    attributes: &AttributeSet<'src>,
    alloc: Global,
    optional: bool,
    relative: &StringLiteral<'src>,
) -> Result<Item<'src>, AllocError>
    ensures { IfOk result
        (λ copy. IsSameItem copy (items.Import attributes.now optional relative.now)) }
{
    let attributes = attributes.clone(alloc)?;
    Ok(Item::Import {
        attributes,
        optional,
        relative: relative.clone(alloc)?,
    })
}

/// Returns a copy of a module.
fn copy_module<'src>(
    attributes: &AttributeSet<'src>,
    alloc: Global,
    doc: &Option<String>,
    name: &Name<'src>,
    optional: bool,
    relative: &Option<StringLiteral<'src>>,
) -> Result<Item<'src>, AllocError>
    ensures { IfOk result (λ copy. IsSameItem copy
        (items.Module attributes.now doc.now name.now optional relative.now)) }
{
    let doc = copy_optional_text(alloc, doc)?;
    let relative = copy_path(alloc, relative)?;
    match attributes.clone(alloc) {
        Ok(attributes) => Ok(Item::Module {
            attributes,
            doc,
            name: *name,
            optional,
            relative,
        }),
        Err(fault) => Err(fault),
    }
}

/// Returns a copy of an `unexport` item.
fn copy_unexport<'src>(
    attributes: &AttributeSet<'src>,
    alloc: Global,
    name: &Name<'src>,
) -> Result<Item<'src>, AllocError>
    ensures { IfOk result (λ copy. IsSameItem copy (items.Unexport attributes.now name.now)) }
{
    match attributes.clone(alloc) {
        Ok(attributes) => Ok(Item::Unexport {
            attributes,
            name: *name,
        }),
        Err(fault) => Err(fault),
    }
}

/// Writes the text of an item, with lines for its doc and its attributes before it.
pub fn write_item<S: Sink>(
    item: &Item<'_>,
    indentation: Indentation,
    sink: &mut S,
) -> Result<(), S::Fault>
    ensures { Puts S.took S.failed sink.old result
        (item_text (item_shape item.now) (indentation_text indentation)) sink.new }
{
    write_item_doc(item, sink)?;
    write_item_attributes(item, sink)?;
    write_bare(item, indentation, sink)?;
    Ok(())
}

/// Writes the doc of an item, if any, as a comment on a line of its own, unless there is an
/// attribute `doc`.
fn write_item_doc<S: Sink>(item: &Item<'_>, sink: &mut S) -> Result<(), S::Fault>
    ensures { Puts S.took S.failed sink.old result (item_doc_text item.now) sink.new }
{
    match item {
        Item::Module {
            attributes,
            doc,
            ..
        } => write_doc(attributes, doc, sink),
        Item::Recipe(recipe) => write_doc(&recipe.attributes, &recipe.doc, sink),
        Item::Alias(_)
        | Item::Assignment(_)
        | Item::Comment(_)
        | Item::Function(_)
        | Item::Import { .. }
        | Item::Newline
        | Item::Setting(_)
        | Item::Unexport { .. } => Ok(()),
    }
}

/// Writes the attributes of an item, each on a line of its own.
fn write_item_attributes<S: Sink>(item: &Item<'_>, sink: &mut S) -> Result<(), S::Fault>
    ensures { Puts S.took S.failed sink.old result
        (if_some attributes_text (item_attributes item.now)) sink.new }
{
    match item {
        Item::Alias(alias) => write_attributes(&alias.attributes, sink),
        Item::Assignment(assignment) => write_attributes(&assignment.attributes, sink),
        Item::Comment(_) | Item::Newline => Ok(()),
        Item::Function(function) => write_attributes(&function.attributes, sink),
        Item::Import { attributes, .. }
        | Item::Module { attributes, .. }
        | Item::Unexport { attributes, .. } => write_attributes(attributes, sink),
        Item::Recipe(recipe) => write_attributes(&recipe.attributes, sink),
        Item::Setting(set) => write_attributes(&set.attributes, sink),
    }
}

/// Writes the text of an item, without its doc and its attributes.
fn write_bare<S: Sink>(
    item: &Item<'_>,
    indentation: Indentation,
    sink: &mut S,
) -> Result<(), S::Fault>
    ensures { Puts S.took S.failed sink.old result
        (bare_text item.now (indentation_text indentation)) sink.new }
{
    match item {
        Item::Alias(alias) => write_alias(alias, sink),
        Item::Assignment(assignment) => write_assignment(assignment, sink),
        Item::Comment(text) => sink.put(text),
        Item::Function(function) => write_function(function, sink),
        Item::Import {
            optional,
            relative,
            ..
        } => write_import(*optional, relative, sink),
        Item::Module {
            name,
            optional,
            relative,
            ..
        } => write_module(name, *optional, relative, sink),
        Item::Newline => Ok(()),
        Item::Recipe(recipe) => write_recipe(recipe, indentation, sink),
        Item::Setting(set) => write_set(set, sink),
        Item::Unexport { name, .. } => write_unexport(name, sink),
    }
}
