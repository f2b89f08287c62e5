//! Lines of bodies.
ghost use Rattle.std.specs.Prelude.{◌≡◌, ◌↔◌, IfOk, IsTrue};
ghost use Rattle.std.specs.List.{Contains};
ghost use Rattle.std.specs.Option.{option_copied};
ghost use Rattle.justfile_vocabulary.specs.Indentation.{indentation_text};
ghost use Rattle.justfile_model.specs.Printed.Printing.{ends_in_return, body_line_text, printable_fragments};
ghost use Rattle.justfile_token.specs.Sink.{Puts};
ghost use Rattle.justfile_line.specs.Copies.{IsSameLine};
ghost use Rattle.justfile_line.specs.Body.{fragment_shapes, fragments_text, line_shape};
ghost use Rattle.justfile_line.specs.Line.{IsComment, IsContinuation, IsEmpty, IsShebang, HasSigil, first_text, last_text};
ghost use Rattle.justfile_line.specs.Sigil.{IsSigilOf};

use crate::fragment::{Fragment, write_fragment};
use crate::sigil::Sigil;
use justfile_token::{Sink, TryClone, clone_all};
use justfile_vocabulary::Indentation;
use std::alloc::{AllocError, Global};
use std::collections::BTreeSet;
use std::fmt;

/// A line of a recipe's body.
#[derive(Drop, PartialEq)]
pub struct Line<'src> {
    /// The texts and the interpolations, in order.
    pub fragments: Vec<Fragment<'src>>,
    /// The number of the line in the source, counted from 0.
    pub number: usize,
}

impl<'src> Line<'src> {
    /// Returns a copy of the line, or an error if out of memory.
    pub fn clone(&self, alloc: Global) -> Result<Self, AllocError>
        ensures { IfOk result (λ copy. IsSameLine copy self.now) }
    {
        Ok(Line {
            fragments: clone_all(alloc, &self.fragments)?,
            number: self.number,
        })
    }

    /// Whether the line begins with a text that begins with `#`.
    pub fn is_comment(&self) -> bool
        ensures { IsTrue result ↔ IsComment self.now }
    {
        self.first().is_some_and(|text| text.starts_with('#'))
    }

    /// Whether the line ends with a text that ends in a backslash.
    pub fn is_continuation(&self) -> bool
        ensures { IsTrue result ↔ IsContinuation self.now }
    {
        self.last().is_some_and(|text| text.ends_with('\\'))
    }

    /// Whether the line has no fragments.
    pub fn is_empty(&self) -> bool
        ensures { IsTrue result ↔ IsEmpty self.now }
    {
        self.fragments.is_empty()
    }

    /// Whether the line begins with a text that begins with `#!`.
    pub fn is_shebang(&self) -> bool
        ensures { IsTrue result ↔ IsShebang self.now }
    {
        self.first().is_some_and(|text| text.starts_with("#!"))
    }

    /// Returns the sigils at the front of the line, each once. `?` is a sigil only if `guards` is
    /// set.
    ///
    /// # Errors
    ///
    /// `AllocError` if memory runs out.
    pub fn sigils(&self, alloc: Global, guards: bool) -> Result<BTreeSet<Sigil>, AllocError>
        ensures { IfOk result (λ sigils. (s : Sigil) → Contains sigils.keys s
            ↔ HasSigil guards self.now s) }
    {
        match self.first() {
            Some(text) => front_sigils(alloc, text.as_bytes(), guards),
            None => Ok(BTreeSet::new(alloc)),
        }
    }

    /// Returns the text at the front of the line, or `None` if it begins with an interpolation or
    /// is empty.
    fn first(&self) -> Option<&'src str>
        ensures { option_copied result ≡ first_text self.now }
    {
        self.fragments.first()?.text()
    }

    /// Returns the text at the end of the line, or `None` if it ends in an interpolation or is
    /// empty.
    fn last(&self) -> Option<&'src str>
        ensures { option_copied result ≡ last_text self.now }
    {
        self.fragments.last()?.text()
    }
}

impl TryClone for Line<'_> {
    ghost is_copy = { IsSameLine };

    fn try_clone(&self, alloc: Global) -> Result<Self, AllocError> {
        self.clone(alloc)
    }
}

/// Writes the text of the line without an indentation.
impl fmt::Debug for Line<'_> {
    fn fmt<W: fmt::Write>(&self, f: &mut fmt::Formatter<W>) -> fmt::Result {
        write_fragments(&self.fragments, f)
    }
}

/// Returns the sigils at the front of a text. They end before the first other byte and before a
/// repeated sigil.
fn front_sigils(alloc: Global, text: &[u8], guards: bool) -> Result<BTreeSet<Sigil>, AllocError>
    ensures { IfOk result (λ sigils. (s : Sigil) → Contains sigils.keys s
        ↔ IsSigilOf guards text.now s) }
{
    let mut sigils = BTreeSet::new(alloc);
    for &byte in text {
        let Some(sigil) = Sigil::of_byte(byte, guards) else {
            break;
        };
        if !sigils.insert(sigil)? {
            break;
        }
    }
    Ok(sigils)
}

/// Whether the printed line reads back: it doesn't end in a text that ends in a carriage return.
#[tactic(auto, using(crate::proofs::Bodies::printable_last))]
pub fn is_printable(line: &Line<'_>) -> bool
    ensures { result ≡ printable_fragments (fragment_shapes line.now.fragments.items) }
{
    match line.last() {
        Some(text) => !ends_in_return(text),
        None => true,
    }
}

/// Whether a text ends in a carriage return.
#[tactic(auto, using(crate::proofs::Bodies::return_last))]
fn ends_in_return(text: &str) -> bool
    ensures { result ≡ ends_in_return text.now }
{
    text.ends_with('\r')
}

/// Writes the text of a line.
pub fn write_line<S: Sink>(
    line: &Line<'_>,
    indentation: Indentation,
    sink: &mut S,
) -> Result<(), S::Fault>
    ensures { Puts S.took S.failed sink.old result
        (body_line_text (indentation_text indentation) (line_shape line.now)) sink.new }
{
    if line.is_empty() {
        return Ok(());
    }
    write_indentation(indentation, sink)?;
    write_fragments(&line.fragments, sink)?;
    Ok(())
}

/// Writes an indentation, the default one in one piece.
fn write_indentation<S: Sink>(indentation: Indentation, sink: &mut S) -> Result<(), S::Fault>
    ensures { Puts S.took S.failed sink.old result (indentation_text indentation) sink.new }
{
    if indentation == Indentation::default() {
        return sink.put("    ");
    }
    write_blanks(indentation, sink)
}

/// Writes an indentation, one blank at a time.
fn write_blanks<S: Sink>(indentation: Indentation, sink: &mut S) -> Result<(), S::Fault>
    ensures { Puts S.took S.failed sink.old result (indentation_text indentation) sink.new }
{
    let blank = indentation.blank();
    for _i in 0..indentation.count() {
        sink.put(blank)?;
    }
    Ok(())
}

/// Writes the texts of fragments.
fn write_fragments<S: Sink>(fragments: &[Fragment<'_>], sink: &mut S) -> Result<(), S::Fault>
    ensures { Puts S.took S.failed sink.old result (fragments_text fragments.now) sink.new }
{
    for fragment in fragments {
        write_fragment(fragment, sink)?;
    }
    Ok(())
}
