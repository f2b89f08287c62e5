//! Lists as JSON. They are written piece by piece: a tree of a long one would take much memory.
ghost use Rattle.std.specs.Prelude.{◌≡◌, ◌++◌, OnOk, IfOk, string_bytes};
ghost use Rattle.serde_json.specs.Data.{Data};
ghost use Rattle.serde_json.specs.Written.{comma_if, compact_text};
ghost use Rattle.editor_json.specs.Integers.{HasIntegers};
ghost use Rattle.editor_json.specs.Sent.{list_data};

use std::alloc::{AllocError, Global};

/// What is an element of a list in an answer.
pub(crate) trait Written {
    /// What the elements of the list share.
    type Shared;

    /// What it is as data, by what the elements share.
    ghost written: { Self.Shared → Self → Data };

    /// Returns its text.
    ///
    /// # Errors
    ///
    /// Memory ran out.
    fn text(&self, alloc: Global, shared: &Self::Shared) -> Result<String, AllocError>
        ensures exact { IfOk result
            (λ text. string_bytes text ≡ compact_text (written shared.now self.now)) }
        ensures integers { IfOk result (λ _. HasIntegers (written shared.now self.now)) };
}

/// Returns the text of a list whose elements share something.
pub(crate) fn list_text<T: Written>(
    alloc: Global,
    shared: &T::Shared,
    items: &[T],
) -> Result<String, AllocError>
    ensures exact { IfOk result
        (λ text. string_bytes text ≡ compact_text (list_data (T.written shared.now) items.now)) }
    ensures integers { IfOk result (λ _. HasIntegers (list_data (T.written shared.now) items.now)) }
{
    let mut list = String::from_str(alloc, "[")?;
    let mut is_later = false;
    for item in items {
        let piece = item.text(alloc, shared)?;
        push_piece(&mut list, is_later, piece.as_str())?;
        is_later = true;
    }
    list.push_str("]")?;
    Ok(list)
}

/// Appends an element, with a comma before any but the first.
fn push_piece(list: &mut String, is_later: bool, piece: &str) -> Result<(), AllocError>
    ensures { OnOk result
        (string_bytes list.new ≡ string_bytes list.old ++ (comma_if is_later ++ piece.now)) }
{
    if is_later {
        list.push_str(",")?;
    }
    list.push_str(piece)
}
