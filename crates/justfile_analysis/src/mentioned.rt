//! The mentions of names in the parts of a justfile, where they are in the text.
ghost use Rattle.std.specs.Prelude.{◌≡◌, ◌++◌, IfOk, OnOk, map, option_map};
ghost use Rattle.editor_language.specs.Items.{moved_offset};
ghost use Rattle.justfile_analysis.specs.Mentioned.{AreMentioned, moved_noted, noted_in};
ghost use Rattle.justfile_mentions.specs.Noted.{noted};

use crate::reading::read_start;
use editor_language::{Known, Mention};
use std::alloc::{AllocError, Global};
use text_parts::Part;

/// How many numbers each part has for its items.
const NUMBERS: usize = 4_294_967_296;

/// Returns where names are defined and used in the parts of a text.
///
/// # Errors
///
/// Memory ran out.
pub fn mentions_of(alloc: Global, parts: &[Part<Known>]) -> Result<Vec<Mention>, AllocError>
    ensures { IfOk result (λ mentions. AreMentioned parts.now mentions.items) }
{
    let mut mentions = Vec::new(alloc);
    let mut start = 0usize;
    let mut first = 0usize;
    for part in parts {
        push_mentions(&part.known, start, first, &mut mentions)?;
        start = start.saturating_add(part.size);
        first = first.saturating_add(NUMBERS);
    }
    Ok(mentions)
}

/// Adds the mentions in a part that begins at an offset, whose items have numbers from `first` on.
fn push_mentions(
    known: &Known,
    start: usize,
    first: usize,
    mentions: &mut Vec<Mention>,
) -> Result<(), AllocError>
    ensures { OnOk result (map noted mentions.new.items
        ≡ map noted mentions.old.items ++ noted_in start first known.now) }
{
    let base = read_start(start);
    for mention in &known.mentions {
        mentions.push(moved_mention(mention, base, first)?)?;
    }
    Ok(())
}

/// Returns a mention in what was read from an offset on, as it is in the text.
fn moved_mention(mention: &Mention, base: usize, first: usize) -> Result<Mention, AllocError>
    ensures { IfOk result (λ moved. noted moved ≡ moved_noted base first (noted mention.now)) }
{
    let name = mention.name.clone()?;
    Ok(Mention {
        role: mention.role,
        name,
        scope: moved_scope(mention.scope, first),
        span: mention.span.moved(base),
        defines: mention.defines,
    })
}

/// Returns the number in the text of an item of a part whose items have numbers from `first` on, if
/// there is one.
fn moved_scope(scope: Option<usize>, first: usize) -> Option<usize>
    ensures { result ≡ option_map (moved_offset first) scope }
{
    match scope {
        Some(index) => Some(first.saturating_add(index)),
        None => None,
    }
}
