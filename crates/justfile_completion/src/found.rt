//! What can be written at the cursor.
ghost use Rattle.std.specs.Prelude.{◌≡◌, ◌++◌, IfNone, IfOk, IfSome, None, filter, length, map, min, nat_lt, option_map};
ghost use Rattle.justfile_completion.specs.Calls.{call_told, called_by};
ghost use Rattle.justfile_completion.specs.Completions.{AreAfter, AreAt, AreCompletions, AreFound, AreInItem, HasFound, begins_with, candidates_after, some_of, told_of};
ghost use Rattle.justfile_completion.specs.Cursor.{AreTokens, HasNoTokens};
ghost use Rattle.justfile_completion.specs.Offers.{told};

use crate::call::{Call, call_at};
use crate::candidates::candidates;
use crate::cursor::{front_of, last_item, word_end, word_start};
use crate::offer::{Offer, OfferKind};
use crate::order::put_in_order;
use crate::parameters::parameters_seen;
use crate::place::place_of;
use crate::words::{is_inside, line_of, outline, tokens_before};
use justfile_lex::Lexer;
use justfile_token::{Fault, Token};
use std::alloc::{AllocError, Global};

/// How many texts are offered at most.
pub const LIMIT: usize = 200;

/// What closes that which may be open at the cursor: nothing; an interpolation in a body, with brackets
/// that are open in it; a string, or an interpolation in a format string, in a body, too; or a command.
static ENDS: [&str; 19] = [
    "", "}}", ")}}", "))}}", ")))}}", "]}}", "])}}", "}}}", ")}}}", "))}}}", "})}}", "}}'", "}}\"",
    "}}'''", "}}\"\"\"", "}}'}}", "}}\"}}", "`", "```",
];

/// A text that can be written at the cursor.
#[derive(Drop)]
pub struct Completion {
    /// What it stands for.
    pub kind: OfferKind,
    /// The text.
    pub name: String,
    /// What is shown beside it. May be empty.
    pub detail: String,
    /// What it is for. May be empty.
    pub documentation: String,
}

/// What can be written at the cursor, in place of the word that the cursor is in.
#[derive(Drop)]
pub struct Completions {
    /// Where the word begins.
    pub start: usize,
    /// Where the word ends.
    pub end: usize,
    /// Whether there is more than the limit.
    pub is_incomplete: bool,
    /// The texts, in the order of their names.
    pub found: Vec<Completion>,
    /// What is called, if an argument is written.
    pub call: Option<Call>,
}

/// What can be written, whether there is more than the limit, and what is called.
type Found = (Vec<Completion>, bool, Option<Call>);

/// Returns what can be written at an offset of a text, and what is called there. These names are known of the text.
///
/// The place is found by the tokens before the word that the cursor is in: those of the text before it,
/// or, if that can't be cut into tokens, those of the item that it ends with. In a string, a command and
/// a comment nothing is offered. Of more than `LIMIT` texts only those are offered that begin with what
/// stands before the cursor.
///
/// # Errors
///
/// Memory ran out.
#[tactic(auto, using(crate::proofs::Told::are_completions))]
pub fn completions_at(
    alloc: Global,
    names: &[Offer<'_>],
    text: &str,
    offset: usize,
) -> Result<Completions, AllocError>
    ensures { IfOk result (AreCompletions names.now text.now (min offset (length text.now))) }
{
    let bytes = text.as_bytes();
    let cursor = offset.min(bytes.len());
    let start = word_start(bytes, cursor);
    let end = word_end(bytes, cursor);
    let typed = &bytes[start..cursor];
    let (found, is_incomplete, call) = found_at(alloc, names, front_of(text, start), typed)?;
    Ok(Completions {
        start,
        end,
        is_incomplete,
        found,
        call,
    })
}

/// Returns what can be written after a text, where this is written already, and whether there is more: by
/// the text, or by its last item alone, if the text has no tokens.
fn found_at(
    alloc: Global,
    names: &[Offer<'_>],
    front: &str,
    typed: &[u8],
) -> Result<Found, AllocError>
    ensures { IfOk result (λ r. AreAt names.now front.now typed.now r.0.items r.1 r.2) }
{
    match found_after(alloc, names, front, typed, &ENDS)? {
        Some(found) => Ok(found),
        None => found_in_item(alloc, names, last_item(front), typed),
    }
}

/// Returns what can be written after the text of an item, where this is written already, and whether
/// there is more. Without tokens there is nothing.
fn found_in_item(
    alloc: Global,
    names: &[Offer<'_>],
    item: &str,
    typed: &[u8],
) -> Result<Found, AllocError>
    ensures { IfOk result (λ r. AreInItem names.now item.now typed.now r.0.items r.1 r.2) }
{
    match found_after(alloc, names, item, typed, &ENDS)? {
        Some(found) => Ok(found),
        None => Ok((Vec::new(alloc), false, None)),
    }
}

/// Returns what can be written after a text that one of these ends closes, where this is written
/// already, and whether there is more, or nothing if none of them closes it.
fn found_after(
    alloc: Global,
    names: &[Offer<'_>],
    front: &str,
    typed: &[u8],
    ends: &[&str],
) -> Result<Option<Found>, AllocError>
    ensures some { IfOk result (λ found. IfSome found (λ r. AreAfter names.now front.now
        typed.now (map (λ end. end.now) ends.now) r.0.items r.1 r.2)) }
    ensures none { IfOk result (λ found. IfNone found
        (AreTokens front.now (map (λ end. end.now) ends.now) None)) }
{
    let Some((end, others)) = ends.split_first() else {
        return Ok(None);
    };
    match found_with(alloc, names, front, typed, end)? {
        Some(found) => Ok(Some(found)),
        None => found_after(alloc, names, front, typed, others),
    }
}

/// Returns what can be written after a text, if it has tokens with this end.
fn found_with(
    alloc: Global,
    names: &[Offer<'_>],
    front: &str,
    typed: &[u8],
    end: &str,
) -> Result<Option<Found>, AllocError>
    ensures some { IfOk result (λ found. IfSome found (λ r. HasFound names.now
        (front.now ++ end.now) (length front.now) typed.now r.0.items r.1 r.2)) }
    ensures none { IfOk result (λ found. IfNone found (HasNoTokens (front.now ++ end.now))) }
{
    let closed = format!(in alloc; "{front}{end}")?;
    found_in(alloc, names, closed.as_str(), front.len(), typed)
}

/// Returns what can be written at the cursor in a text, if the text has tokens.
#[tactic(auto, using(crate::proofs::Told::has_found, crate::proofs::Told::no_tokens))]
fn found_in(
    alloc: Global,
    names: &[Offer<'_>],
    text: &str,
    cursor: usize,
    typed: &[u8],
) -> Result<Option<Found>, AllocError>
    ensures some { IfOk result (λ found. IfSome found
        (λ r. HasFound names.now text.now cursor typed.now r.0.items r.1 r.2)) }
    ensures none { IfOk result (λ found. IfNone found (HasNoTokens text.now)) }
{
    match Lexer::lex(alloc, "justfile", text) {
        Ok(tokens) => {
            let before = tokens_before(&tokens, cursor);
            let found = found_before(alloc, names, before, cursor, typed)?;
            Ok(Some(found))
        }
        Err(Fault::Memory) => Err(AllocError),
        Err(Fault::Compile(_)) => Ok(None),
        Err(Fault::Numbers) => Ok(None),
    }
}

/// Returns what can be written at the cursor, and what is called there, by the tokens that begin before
/// it.
fn found_before(
    alloc: Global,
    names: &[Offer<'_>],
    tokens: &[Token<'_>],
    cursor: usize,
    typed: &[u8],
) -> Result<Found, AllocError>
    ensures found { IfOk result (λ r. AreFound (candidates_after names.now cursor tokens.now)
        typed.now r.0.items r.1) }
    ensures call { IfOk result (λ r. option_map call_told r.2 ≡ called_by cursor tokens.now) }
{
    let call = call_at(alloc, tokens, cursor)?;
    let (found, is_incomplete) = found_by(alloc, names, tokens, cursor, typed)?;
    Ok((found, is_incomplete, call))
}

/// Returns what can be written at the cursor, by the tokens that begin before it.
#[tactic(auto, using(crate::proofs::Told::are_found))]
fn found_by(
    alloc: Global,
    names: &[Offer<'_>],
    tokens: &[Token<'_>],
    cursor: usize,
    typed: &[u8],
) -> Result<(Vec<Completion>, bool), AllocError>
    ensures { IfOk result (λ r. AreFound (candidates_after names.now cursor tokens.now) typed.now
        r.0.items r.1) }
{
    let line = line_of(alloc, tokens)?;
    let outline = outline(alloc, &line)?;
    let parameters = parameters_seen(alloc, tokens)?;
    let place = place_of(is_inside(tokens, cursor), tokens, &outline);
    let mut offers = candidates(alloc, names, &line, &outline, &parameters, place)?;
    put_in_order(&mut offers)?;
    shown(alloc, &offers, typed)
}

/// Returns those of the offers that are shown, where this is written already, and whether there is
/// more.
fn shown(
    alloc: Global,
    ordered: &[Offer<'_>],
    typed: &[u8],
) -> Result<(Vec<Completion>, bool), AllocError>
    ensures found { IfOk result
        (λ r. map told_of r.0.items ≡ map told (some_of typed.now ordered.now)) }
    ensures incomplete { IfOk result (λ r. r.1 ≡ nat_lt LIMIT (length ordered.now)) }
{
    if ordered.len() <= LIMIT {
        return Ok((copies(alloc, ordered)?, false));
    }
    let mut some = beginning_with(alloc, ordered, typed)?;
    some.truncate(LIMIT);
    Ok((copies(alloc, &some)?, true))
}

/// Whether an offer begins with what is written already.
fn begins_with(offer: &Offer<'_>, typed: &[u8]) -> bool
    ensures { result ≡ begins_with typed.now offer.now }
{
    offer.name.as_bytes().starts_with(typed)
}

/// Returns the offers that begin with what is written already.
fn beginning_with<'a>(
    alloc: Global,
    ordered: &[Offer<'a>],
    typed: &[u8],
) -> Result<Vec<Offer<'a>>, AllocError>
    ensures { IfOk result
        (λ found. found.items ≡ filter (begins_with typed.now) ordered.now) }
{
    ordered
        .iter()
        .filter(|offer| begins_with(offer, typed))
        .copied()
        .collect(alloc)
}

/// Returns copies of offers.
#[tactic(auto, using(crate::proofs::Mapped::mapped_more))]
fn copies(alloc: Global, offers: &[Offer<'_>]) -> Result<Vec<Completion>, AllocError>
    ensures { IfOk result (λ found. map told_of found.items ≡ map told offers.now) }
{
    let mut found = Vec::new(alloc);
    for offer in offers {
        found.push(copy(alloc, offer)?)?;
    }
    Ok(found)
}

/// Returns a copy of an offer.
fn copy(alloc: Global, offer: &Offer<'_>) -> Result<Completion, AllocError>
    ensures { IfOk result (λ made. told_of made ≡ told offer.now) }
{
    let name = offer.name.to_string(alloc)?;
    let detail = offer.detail.to_string(alloc)?;
    let documentation = offer.documentation.to_string(alloc)?;
    Ok(Completion {
        kind: offer.kind,
        name,
        detail,
        documentation,
    })
}
