//! What can be written somewhere in a justfile.
ghost use Rattle.std.specs.Prelude.{◌≡◌, IfOk, filter, map};
ghost use Rattle.std.specs.List.{AllZip};
ghost use Rattle.justfile_completion.specs.Completions.{told_of};
ghost use Rattle.justfile_server.specs.Comments.{comment_above};
ghost use Rattle.justfile_server.specs.Headers.{recipe_span};
ghost use Rattle.justfile_server.specs.Links.{IsPart};
ghost use Rattle.justfile_server.specs.Choices.{AreChoices, IsDetail, IsDocumentation, Offers, is_offered, kind_of, role_kind, shown, to_show};

use crate::chunk::part_of;
use crate::comments::comment_above;
use crate::headers::{function_end, recipe_span};
use editor_language::{Choices, Mention, Role, Span};
use editor_messages::{Completion, CompletionKind};
use justfile_completion::{Offer, OfferKind, completions_at};
use std::alloc::{AllocError, Global};

/// Returns what can be written at an offset of a text with these mentions.
#[tactic(auto, using(crate::proofs::Offered::are_choices))]
pub(crate) fn choices_at(
    alloc: Global,
    text: &str,
    mentions: &[Mention],
    offset: usize,
) -> Result<Choices, AllocError>
    ensures { IfOk result (AreChoices text.now mentions.now offset) }
{
    let names = offers_of(alloc, text, mentions)?;
    let made = completions_at(alloc, &names, text, offset)?;
    let span = Span {
        start: made.start,
        end: made.end,
    };
    let is_incomplete = made.is_incomplete;
    let found = shown(alloc, made.found)?;
    Ok(Choices {
        span,
        is_incomplete,
        found,
    })
}

/// Returns the names that a text defines, and that are known in all items.
#[tactic(auto, using(crate::proofs::Kept::passed, crate::proofs::Kept::kept))]
fn offers_of<'a>(
    alloc: Global,
    text: &'a str,
    mentions: &'a [Mention],
) -> Result<Vec<Offer<'a>>, AllocError>
    ensures { IfOk result (λ offers.
        AllZip (Offers text.now) (filter is_offered mentions.now) offers.items) }
{
    let mut offers = Vec::new(alloc);
    for mention in mentions {
        if is_offered(mention) {
            offers.push(offer_of(text, mention))?;
        }
    }
    Ok(offers)
}

/// Whether a mention defines a name that is known in all items. Those that are seen at a place are found
/// by its tokens.
fn is_offered(mention: &Mention) -> bool
    ensures { result ≡ is_offered mention.now }
{
    mention.defines && !matches!(mention.role, Role::Parameter)
}

/// Returns the offer of the name that a mention in a text defines.
fn offer_of<'a>(text: &'a str, mention: &'a Mention) -> Offer<'a>
    ensures { Offers text.now mention.now result }
{
    Offer {
        kind: role_kind(mention.role),
        name: mention.name.as_str(),
        detail: detail_of(text, mention.role, mention.span.start),
        documentation: documentation_of(text, mention.role, mention.span.start),
    }
}

/// Returns what a name is offered as.
fn role_kind(role: Role) -> OfferKind
    ensures { result ≡ role_kind role }
{
    match role {
        Role::Recipe => OfferKind::Recipe,
        Role::Constant | Role::Variable => OfferKind::Variable,
        Role::Function => OfferKind::Function,
        Role::Parameter => OfferKind::Parameter,
    }
}

/// Returns what is shown beside a name that is defined at an offset: of a recipe and a function the
/// parameters, of an alias the target.
fn detail_of(text: &str, role: Role, start: usize) -> &str
    ensures { IsDetail text.now role start result.now }
{
    match role {
        Role::Recipe => recipe_detail(text, start),
        Role::Function => part_of(text, start, function_end(text.as_bytes(), start)),
        Role::Constant | Role::Variable => "variable",
        Role::Parameter => "parameter",
    }
}

/// Returns what is shown beside the name of a recipe or an alias that is defined at an offset.
fn recipe_detail(text: &str, start: usize) -> &str
    ensures { let span = recipe_span text.now start in
        IsPart text.now span.start span.end result.now }
{
    let span = recipe_span(text.as_bytes(), start);
    part_of(text, span.start, span.end)
}

/// Returns what is said of a name that is defined at an offset: of a recipe the comment above it.
fn documentation_of(text: &str, role: Role, start: usize) -> &str
    ensures { IsDocumentation text.now role start result.now }
{
    match role {
        Role::Recipe => comment_of(text, start),
        Role::Constant | Role::Function | Role::Variable | Role::Parameter => "",
    }
}

/// Returns what the comment above the line of an offset says.
fn comment_of(text: &str, start: usize) -> &str
    ensures { let span = comment_above text.now start in
        IsPart text.now span.start span.end result.now }
{
    let span = comment_above(text.as_bytes(), start);
    part_of(text, span.start, span.end)
}

/// Returns what is shown of texts.
fn shown(
    alloc: Global,
    found: Vec<justfile_completion::Completion>,
) -> Result<Vec<Completion>, AllocError>
    ensures { IfOk result
        (λ made. map shown made.items ≡ map to_show (map told_of found.items)) }
{
    let mut made = Vec::new(alloc);
    for text in found {
        made.push(completion_of(text))?;
    }
    Ok(made)
}

/// Returns what is shown of a text.
fn completion_of(text: justfile_completion::Completion) -> Completion
    ensures { shown result ≡ to_show (told_of text) }
{
    Completion {
        label: text.name,
        kind: kind_of(text.kind),
        detail: text.detail,
        documentation: text.documentation,
    }
}

/// Returns what an editor is told of what a text stands for.
fn kind_of(kind: OfferKind) -> CompletionKind
    ensures { result ≡ kind_of kind }
{
    match kind {
        OfferKind::Constant => CompletionKind::Constant,
        OfferKind::Function | OfferKind::Recipe => CompletionKind::Function,
        OfferKind::Group => CompletionKind::Value,
        OfferKind::Keyword => CompletionKind::Keyword,
        OfferKind::Parameter | OfferKind::Variable => CompletionKind::Variable,
        OfferKind::Property => CompletionKind::Property,
    }
}
