//! Sets of texts.
ghost use Rattle.std.specs.Prelude.{◌≡◌, ◌∷◌, ◌++◌, [], OnErr, OnOk};
ghost use Rattle.std.specs.List.{list_any};
ghost use Rattle.std.specs.Str.{bytes_eq};
ghost use Rattle.justfile_parse_base.specs.TextSets.{HaveSame, texts_in};

use std::alloc::AllocError;
use std::collections::BTreeSet;

/// Whether the text is in the set.
pub fn is_among(texts: &BTreeSet<&str>, text: &str) -> bool
    ensures { result ≡ list_any (bytes_eq text.now) (texts_in texts.now) }
{
    texts.contains(text)
}

/// Adds a text to the set.
///
/// # Errors
///
/// `AllocError` if memory runs out.
#[tactic(auto, using(crate::proofs::TextSetLemmas::added))]
pub fn add_text<'run>(texts: &mut BTreeSet<&'run str>, text: &'run str) -> Result<(), AllocError>
    ensures added { OnOk result
        (HaveSame (texts_in texts.old ++ text.now ∷ []) (texts_in texts.new)) }
    ensures kept { OnErr result (texts.new.keys ≡ texts.old.keys) }
{
    match texts.insert(text) {
        Ok(_is_new) => Ok(()),
        Err(_failed) => Err(AllocError),
    }
}
