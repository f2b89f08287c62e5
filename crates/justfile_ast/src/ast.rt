//! Files: their type, copies, indentation and printing.
ghost use Rattle.std.specs.Prelude.{◌≡◌, ◌++◌, All, OnOk, OnErr, IfOk, IfSome, drop, map, string_bytes};
ghost use Rattle.std.specs.Io.KnownBytes.{Appends};
ghost use Rattle.std.specs.List.{AllZip, list_all};
ghost use Rattle.std.specs.Option.{option_map};
ghost use Rattle.justfile_vocabulary.specs.Indentation.{indentation_text};
ghost use Rattle.justfile_model.specs.Meanings.Enabled.{indentation_of};
ghost use Rattle.justfile_model.specs.Printed.NormalShape.{normal};
ghost use Rattle.justfile_model.specs.Printed.Printing.{printable, printable_item, text};
ghost use Rattle.justfile_model.specs.Printed.Uncommented.{HasNoComments, uncommented_text};
ghost use Rattle.justfile_token.specs.Sink.{Puts};
ghost use Rattle.justfile_expression.specs.Expression.{literal_tok};
ghost use Rattle.justfile_item.specs.Copies.{IsSameItem};
ghost use Rattle.justfile_item.specs.Indented.{HasDerivedFieldsOfSetting, items_indentation};
ghost use Rattle.justfile_item.specs.Item.{item_shape};
ghost use Rattle.justfile_ast.specs.Ast.{ast_shape, tree_of};
ghost use Rattle.justfile_ast.specs.Separator.{end_text, front_text, last_separator};
ghost use Rattle.justfile_ast.specs.PrintsBack.{PrintsBack};
ghost use Rattle.justfile_ast.specs.Written.{AppendsPart};
ghost use Rattle.justfile_ast.specs.declared.separator.Separator.TheVariants.{Start};

use crate::push::push_made;
use crate::separator::{Separator, write_separated};
use crate::write_fault::WriteFault;
use crate::writer::WriterSink;
use justfile_expression::ListFeature;
use justfile_item::{Item, is_printable, item_indentation};
use justfile_token::{Modulepath, Sink, Token};
use justfile_vocabulary::{Indentation, UnstableFeature};
use std::alloc::{AllocError, Global};
use std::collections::BTreeSet;
use std::io::Write;

/// A parsed file.
#[derive(Drop)]
pub struct Ast<'src> {
    /// The items, in the order of the file.
    pub items: Vec<Item<'src>>,
    /// The uses of features that need `set lists`, each with its token, in the order of parsing.
    pub list_features: Vec<(ListFeature, Token<'src>)>,
    /// The names of the modules that contain the file, as passed to the parser.
    pub module_path: Modulepath,
    /// The unstable features that the file uses.
    pub unstable_features: BTreeSet<UnstableFeature>,
    /// The working directory of the file's recipes, as passed to the parser.
    pub working_directory: String,
}

impl<'src> Ast<'src> {
    ghost use Rattle.justfile_ast.specs.Copies.{IsSameAst};

    /// Returns the indentation that the file sets: that of the first setting `indentation` that is
    /// enabled on this system. Returns `None` if there is none.
    #[tactic(auto, using(crate::proofs::Indented::indented_tree, crate::proofs::Indented::indented_text))]
    pub fn indentation(&self) -> Option<Indentation>
        ensures first { result ≡ option_map (λ p. p.1) (items_indentation self.now.items.items) }
        // The literal of that setting is the one that the definitions find in the file's tree.
        ensures literal { indentation_of (tree_of self.now)
            ≡ option_map (λ p. literal_tok p.0) (items_indentation self.now.items.items) }
        // Its text is the indentation.
        ensures text { All HasDerivedFieldsOfSetting self.now.items.items
            → IfSome (items_indentation self.now.items.items) (λ p. indentation_text p.1
            ≡ string_bytes p.0.cooked) }
    {
        first_indentation(&self.items)
    }

    /// Whether the printed text reads back: no line of a body ends in a carriage return.
    #[tactic(auto, using(crate::proofs::Printable::printable_items))]
    pub fn printable(&self) -> bool
        ensures { result ≡ printable (ast_shape self.now) }
    {
        are_printable(&self.items)
    }

    /// Returns a copy of the file, or an error if out of memory.
    pub fn clone(&self, alloc: Global) -> Result<Self, AllocError>
        ensures { IfOk result (λ copy. IsSameAst copy self.now) }
    {
        let list_features = self.list_features.as_slice().to_vec(alloc)?;
        let module_path = self.module_path.clone(alloc)?;
        let unstable_features = self.unstable_features.clone()?;
        let working_directory = self.working_directory.as_str().to_string(alloc)?;
        match copy_items(&self.items, alloc) {
            Ok(items) => Ok(Ast {
                items,
                list_features,
                module_path,
                unstable_features,
                working_directory,
            }),
            Err(fault) => Err(fault),
        }
    }

    /// Returns the printed text of the file, with this indentation of body lines, or an error if
    /// out of memory. `docs/LANGUAGE.md` describes the format, and `specs/PrintsBack.antt` defines
    /// what holds for the text.
    pub fn print(&self, alloc: Global, indentation: Indentation) -> Result<String, AllocError>
        ensures text { IfOk result (λ printed. string_bytes printed
            ≡ text (normal (ast_shape self.now)) (indentation_text indentation)) }
        ensures reads_back { IfOk result (λ printed. PrintsBack (ast_shape self.now)
            (indentation_text indentation) (string_bytes printed)) }
        // If no attribute and no recipe has a comment, the text is that of the definition without
        // such comments.
        ensures uncommented { IfOk result (λ printed. HasNoComments (ast_shape self.now)
            → string_bytes printed
            ≡ uncommented_text (normal (ast_shape self.now)) (indentation_text indentation)) }
    {
        self.printed_text(alloc, indentation)
    }

    /// Returns the printed text of the file: `print`, with a shorter contract.
    fn printed_text(&self, alloc: Global, indentation: Indentation) -> Result<String, AllocError>
        ensures { IfOk result (λ printed. string_bytes printed
            ≡ text (normal (ast_shape self.now)) (indentation_text indentation)) }
    {
        let mut printed = String::new(alloc);
        write_ast(self, indentation, &mut printed)?;
        Ok(printed)
    }

    /// Appends the printed text of the items from an index on to that of the items before them,
    /// which end with this separator, and returns the separator after them: so a file is printed in
    /// parts. The line end at the end of a file isn't appended.
    ///
    /// # Errors
    ///
    /// Memory runs out.
    pub fn print_part(
        &self,
        first: usize,
        indentation: Indentation,
        separator: Separator,
        printed: &mut String,
    ) -> Result<Separator, AllocError>
        ensures separator { IfOk result (λ following. following
            ≡ last_separator separator (drop first (ast_shape self.now))) }
        ensures appends { OnOk result (string_bytes printed.new ≡ string_bytes printed.old
            ++ front_text (indentation_text indentation) separator
            (drop first (ast_shape self.now))) }
    {
        write_items(&self.items, first, indentation, separator, printed)
    }

    /// Writes the printed text of the file to the writer, piece by piece. If it fails, the writer
    /// has a beginning of the text, and nothing else. The writer isn't flushed.
    ///
    /// # Errors
    ///
    /// `Failed` if a write returns an error, `Zero` if it accepts no byte.
    pub fn print_to<W: Write>(
        &self,
        indentation: Indentation,
        writer: &mut W,
    ) -> Result<(), WriteFault>
        ensures ok { OnOk result (Appends (W.contents writer.old) (W.contents writer.new)
            (text (normal (ast_shape self.now)) (indentation_text indentation))) }
        ensures err { OnErr result (AppendsPart (W.contents writer.old) (W.contents writer.new)
            (text (normal (ast_shape self.now)) (indentation_text indentation))) }
    {
        let mut sink = WriterSink { writer };
        write_ast(self, indentation, &mut sink)
    }
}

/// Returns the indentation of the first item that sets one.
#[tactic(auto, using(crate::proofs::Indented::none_here, crate::proofs::Indented::found_here, crate::proofs::Indented::none_left))]
fn first_indentation(items: &[Item<'_>]) -> Option<Indentation>
    ensures { result ≡ option_map (λ p. p.1) (items_indentation items.now) }
{
    for item in items {
        if let Some(indentation) = item_indentation(item) {
            return Some(indentation);
        }
    }
    None
}

/// Whether all of the items read back once they are printed.
#[tactic(auto, using(crate::proofs::Printable::one_more, crate::proofs::Printable::one_fails, crate::proofs::Printable::none_left))]
fn are_printable(items: &[Item<'_>]) -> bool
    ensures { result ≡ list_all (λ item. printable_item (item_shape item)) items.now }
{
    for item in items {
        if !is_printable(item) {
            return false;
        }
    }
    true
}

/// Returns copies of the items.
fn copy_items<'src>(items: &[Item<'src>], alloc: Global) -> Result<Vec<Item<'src>>, AllocError>
    ensures { IfOk result (λ copies. AllZip IsSameItem copies.items items.now) }
{
    let mut copies = Vec::new(alloc);
    for item in items {
        push_made(&mut copies, item.clone(alloc))?;
    }
    Ok(copies)
}

/// Writes the printed text of a file.
fn write_ast<S: Sink>(ast: &Ast<'_>, indentation: Indentation, sink: &mut S) -> Result<(), S::Fault>
    ensures { Puts S.took S.failed sink.old result
        (text (normal (ast_shape ast.now)) (indentation_text indentation)) sink.new }
{
    write_items(&ast.items, 0, indentation, Separator::Start, sink)?;
    write_end(&ast.items, sink)?;
    Ok(())
}

/// Writes the items of a file from an index on after a separator, without the line ends at their
/// end, and returns the separator after them.
fn write_items<S: Sink>(
    items: &[Item<'_>],
    first: usize,
    indentation: Indentation,
    separator: Separator,
    sink: &mut S,
) -> Result<Separator, S::Fault>
    ensures separator { IfOk result (λ following. following
        ≡ last_separator separator (map item_shape (drop first items.now))) }
    ensures puts { Puts S.took S.failed sink.old result
        (front_text (indentation_text indentation) separator
        (map item_shape (drop first items.now))) sink.new }
{
    let mut following = separator;
    for index in first..items.len() {
        following = write_separated(&items[index], indentation, following, sink)?;
    }
    Ok(following)
}

/// Writes the line end at the end of a file, unless the file has no items.
fn write_end<S: Sink>(items: &[Item<'_>], sink: &mut S) -> Result<(), S::Fault>
    ensures { Puts S.took S.failed sink.old result (end_text (map item_shape items.now)) sink.new }
{
    if items.is_empty() {
        return Ok(());
    }
    sink.put("\n")
}
