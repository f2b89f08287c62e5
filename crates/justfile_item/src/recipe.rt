//! Recipes: their type, and how they are copied and printed.
ghost use Rattle.std.specs.Prelude.{◌≡◌, ◌++◌, IfOk, codes};
ghost use Rattle.std.specs.List.{list_all};
ghost use Rattle.justfile_vocabulary.specs.Indentation.{indentation_text};
ghost use Rattle.justfile_model.specs.Printed.Printing.{fixed_text, header_text, body_line_text, body_text, printable_fragments, printable_body};
ghost use Rattle.justfile_token.specs.Sink.{Puts};
ghost use Rattle.justfile_line.specs.Body.{fragment_shapes, line_shape, line_shapes};
ghost use Rattle.justfile_item.specs.Copies.{IsSameRecipe};
ghost use Rattle.justfile_item.specs.Item.{header_shape, priors_of, subsequents_of};
ghost use Rattle.justfile_item.specs.Recipe.{unresolved_recipe_text};

use justfile_attribute_set::AttributeSet;
use justfile_leaves::{put_piece, put_piece_if, write_comment};
use justfile_line::{Line, is_printable, write_line};
use justfile_numbers::Number;
use justfile_recipe_header::{
    Parameter, UnresolvedDependency, write_dependencies, write_parameters, write_subsequents,
};
use justfile_token::{Keyed, Name, Sink, clone_all, copy_optional_text};
use justfile_vocabulary::Indentation;
use std::alloc::{AllocError, Global};
use std::fmt;

/// A recipe as it was parsed. Its dependencies aren't resolved to recipes.
#[derive(Drop)]
pub struct UnresolvedRecipe<'src> {
    /// The attributes.
    pub attributes: AttributeSet<'src>,
    /// The lines of the body, without empty ones at the end. Empty if the recipe has no body.
    pub body: Vec<Line<'src>>,
    /// The comment between the header and the body, without whitespace at its end, if there is one.
    /// `None` if the recipe has no body.
    pub comment: Option<&'src str>,
    /// The dependencies: the recipes that run before this one and then those that run after it, in
    /// order.
    pub dependencies: Vec<UnresolvedDependency<'src>>,
    /// The doc: the text of the comment before the recipe, if that is its doc.
    pub doc: Option<String>,
    /// The number of imports and modules from the root file to its file.
    pub file_depth: u32,
    /// The offsets of the imports that lead to its file, from the root file on.
    pub import_offsets: Vec<usize>,
    /// The name.
    pub name: Name<'src>,
    /// The number of the recipe. The numerator gives no other recipe the same number.
    pub number: Number,
    /// The parameters, in order.
    pub parameters: Vec<Parameter<'src>>,
    /// The number of dependencies before `&&`, or of all if there is no `&&`.
    pub priors: usize,
    /// Whether lists of recipes omit it.
    pub private: bool,
    /// Whether there is `@` before the name.
    pub quiet: bool,
    /// Whether the body is run as a script: there is an attribute `script`, or the body begins with
    /// `#!`.
    pub shebang: bool,
}

impl<'src> UnresolvedRecipe<'src> {
    /// Returns a copy of the recipe, or an error if out of memory.
    pub fn clone(&self, alloc: Global) -> Result<Self, AllocError>
        ensures { IfOk result (λ copy. IsSameRecipe copy self.now) }
    {
        let attributes = self.attributes.clone(alloc)?;
        let dependencies = clone_all(alloc, &self.dependencies)?;
        let parameters = clone_all(alloc, &self.parameters)?;
        let import_offsets = self.import_offsets.clone()?;
        let doc = copy_optional_text(alloc, &self.doc)?;
        Ok(UnresolvedRecipe {
            attributes,
            body: clone_all(alloc, &self.body)?,
            comment: self.comment,
            dependencies,
            doc,
            file_depth: self.file_depth,
            import_offsets,
            name: self.name,
            number: self.number,
            parameters,
            priors: self.priors,
            private: self.private,
            quiet: self.quiet,
            shebang: self.shebang,
        })
    }

    /// Returns the dependencies before `&&`, or all if there is no `&&`, and those after it.
    #[tactic(auto, using(std::proofs::lemmas::List::take_min, std::proofs::lemmas::List::drop_min))]
    fn split_dependencies(&self) -> (&[UnresolvedDependency<'src>], &[UnresolvedDependency<'src>])
        ensures priors { result.0.now ≡ priors_of self.now }
        ensures subsequents { result.1.now ≡ subsequents_of self.now }
    {
        let count = self.priors.min(self.dependencies.len());
        self.dependencies.split_at(count)
    }

    /// Whether all lines of the printed body read back.
    #[tactic(auto, using(justfile_line::proofs::Bodies::printable_lines))]
    pub(crate) fn is_printable(&self) -> bool
        ensures { result ≡ printable_body (line_shapes self.now.body.items) }
    {
        are_printable(&self.body)
    }
}

/// The key of a recipe is its name.
impl<'src> Keyed<'src> for UnresolvedRecipe<'src> {
    ghost use Rattle.justfile_token.specs.Name.{name_text};

    ghost key_text = { λ recipe. name_text recipe.name };

    fn key(&self) -> &'src str {
        self.name.token.lexeme()
    }
}

/// Writes the text of the header.
impl fmt::Debug for UnresolvedRecipe<'_> {
    fn fmt<W: fmt::Write>(&self, f: &mut fmt::Formatter<W>) -> fmt::Result {
        write_header(self, f)
    }
}

/// Whether all of the lines read back once they are printed.
fn are_printable(lines: &[Line<'_>]) -> bool
    ensures { result
        ≡ list_all (λ line. printable_fragments (fragment_shapes line.fragments.items)) lines.now }
{
    lines.iter().all(|line| is_printable(line))
}

/// Writes the text of a recipe, without its doc and its attributes.
pub(crate) fn write_recipe<S: Sink>(
    recipe: &UnresolvedRecipe<'_>,
    indentation: Indentation,
    sink: &mut S,
) -> Result<(), S::Fault>
    ensures { Puts S.took S.failed sink.old result
        (unresolved_recipe_text recipe.now (indentation_text indentation)) sink.new }
{
    write_header(recipe, sink)?;
    write_comment(recipe.comment, sink)?;
    write_body(&recipe.body, indentation, sink)?;
    Ok(())
}

/// Writes the header of a recipe.
fn write_header<S: Sink>(recipe: &UnresolvedRecipe<'_>, sink: &mut S) -> Result<(), S::Fault>
    ensures { Puts S.took S.failed sink.old result
        (header_text (header_shape recipe.now)) sink.new }
{
    let (priors, subsequents) = recipe.split_dependencies();
    put_piece_if(recipe.quiet, "@", sink)?;
    sink.put(recipe.name.lexeme())?;
    write_parameters(&recipe.parameters, sink)?;
    put_piece(":", sink)?;
    write_dependencies(priors, sink)?;
    write_subsequents(subsequents, sink)
}

/// Writes the lines of a body.
fn write_body<S: Sink>(
    lines: &[Line<'_>],
    indentation: Indentation,
    sink: &mut S,
) -> Result<(), S::Fault>
    ensures { Puts S.took S.failed sink.old result
        (body_text (indentation_text indentation) (line_shapes lines.now)) sink.new }
{
    for line in lines {
        write_next_line(line, indentation, sink)?;
    }
    Ok(())
}

/// Writes a line end, and then a line of a body.
fn write_next_line<S: Sink>(
    line: &Line<'_>,
    indentation: Indentation,
    sink: &mut S,
) -> Result<(), S::Fault>
    ensures { Puts S.took S.failed sink.old result
        (fixed_text (codes "\n")
        ++ body_line_text (indentation_text indentation) (line_shape line.now)) sink.new }
{
    put_piece("\n", sink)?;
    write_line(line, indentation, sink)?;
    Ok(())
}
