//! The separators between items, which are printed from left to right.
ghost use Rattle.std.specs.Prelude.{◌≡◌, IfOk};
ghost use Rattle.justfile_vocabulary.specs.Indentation.{indentation_text};
ghost use Rattle.justfile_token.specs.Sink.{Puts};
ghost use Rattle.justfile_item.specs.Item.{item_shape};
ghost use Rattle.justfile_ast.specs.Separator.{separator_text, is_line_end, next_separator, step_text, with_line_end};

use justfile_item::{Item, write_item};
use justfile_token::Sink;
use justfile_vocabulary::Indentation;

/// What comes before an item. It determines what is printed there.
#[derive(Clone, Copy, Debug, PartialEq, Eq)]
pub enum Separator {
    /// Nothing comes before the item.
    Start,
    /// Another item comes directly before it.
    Item,
    /// One line end comes before it.
    Line,
    /// Two or more line ends come before it.
    Blank,
}

impl Separator {
    /// Returns the text of the separator. More than one blank line is printed as one.
    pub fn text(self) -> &'static str
        ensures { result.now ≡ separator_text self }
    {
        match self {
            Separator::Start => "",
            Separator::Item => " ",
            Separator::Line => "\n",
            Separator::Blank => "\n\n",
        }
    }

    /// Returns the separator with one more line end.
    pub fn with_line_end(self) -> Separator
        ensures { result ≡ with_line_end self }
    {
        match self {
            Separator::Start | Separator::Item => Separator::Line,
            Separator::Line | Separator::Blank => Separator::Blank,
        }
    }
}

/// Writes an item, with the separator before it, and returns the separator after it. For a line end
/// it writes nothing: that becomes part of the separator before the next item.
#[tactic(auto, using(crate::proofs::Separators::separator_at_end, crate::proofs::Separators::text_at_end, crate::proofs::Separators::separator_past, crate::proofs::Separators::text_past))]
pub(crate) fn write_separated<S: Sink>(
    item: &Item<'_>,
    indentation: Indentation,
    separator: Separator,
    sink: &mut S,
) -> Result<Separator, S::Fault>
    ensures separator { IfOk result (λ following. following
        ≡ next_separator separator (item_shape item.now)) }
    ensures puts { Puts S.took S.failed sink.old result
        (step_text (indentation_text indentation) separator (item_shape item.now)) sink.new }
{
    if is_line_end(item) {
        return Ok(separator.with_line_end());
    }
    sink.put(separator.text())?;
    write_item(item, indentation, sink)?;
    Ok(Separator::Item)
}

/// Whether the item is the end of a line.
fn is_line_end(item: &Item<'_>) -> bool
    ensures { result ≡ is_line_end (item_shape item.now) }
{
    match item {
        Item::Newline => true,
        _ => false,
    }
}
