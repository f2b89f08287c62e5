//! What is answered.
ghost use Rattle.std.specs.Prelude.{◌≡◌};
ghost use Rattle.editor_messages.specs.Numbers.{completion_number, highlight_number};

use crate::symbol_kind::SymbolKind;
use justfile_lines::Encoding;
use text_edits::{Range, TextEdit};

/// What is wrong in a range.
#[derive(Drop)]
pub struct Diagnostic {
    /// Where it is.
    pub range: Range,
    /// What is wrong.
    pub message: String,
    /// The name of its kind. May be empty.
    pub code: &'static str,
    /// Another range that it is about, if there is one.
    pub related: Option<Related>,
}

/// A range that something wrong is about, too.
#[derive(Clone, Copy)]
pub struct Related {
    /// The range.
    pub range: Range,
    /// What is there.
    pub message: &'static str,
}

/// A symbol of a document.
#[derive(Drop)]
pub struct Symbol {
    /// Its name.
    pub name: String,
    /// What it is.
    pub kind: SymbolKind,
    /// All that belongs to it.
    pub range: Range,
    /// Its name's place.
    pub selection: Range,
}

/// Lines that can be folded.
#[derive(Clone, Copy)]
pub struct Fold {
    /// The first line.
    pub first: usize,
    /// The last line.
    pub last: usize,
}

/// Where a name is.
#[derive(Clone, Copy)]
pub struct Highlight {
    /// Its place.
    pub range: Range,
    /// Whether the name is defined there.
    pub defines: bool,
}

impl Highlight {
    /// Returns the number that the protocol has for a place where a name is read, or where it is written.
    pub fn number(self) -> usize
        ensures { result ≡ highlight_number self }
    {
        if self.defines { 3 } else { 2 }
    }
}

/// Edits of a document.
#[derive(Drop)]
pub struct Rename {
    /// The document's address.
    pub uri: String,
    /// The edits.
    pub edits: Vec<TextEdit>,
}

/// What is known of a name.
#[derive(Drop)]
pub struct Hover {
    /// Where the name is.
    pub range: Range,
    /// What is known.
    pub text: String,
}

/// What a completion stands for.
#[derive(Clone, Copy)]
pub enum CompletionKind {
    /// A function, or what is run.
    Function,
    /// A variable, or a parameter.
    Variable,
    /// A setting, an attribute, or a key of one.
    Property,
    /// A value, such as the name of a group.
    Value,
    /// A keyword.
    Keyword,
    /// A constant.
    Constant,
}

impl CompletionKind {
    /// Returns the number that the protocol has for the kind.
    pub fn number(self) -> usize
        ensures { result ≡ completion_number self }
    {
        match self {
            CompletionKind::Function => 3,
            CompletionKind::Variable => 6,
            CompletionKind::Property => 10,
            CompletionKind::Value => 12,
            CompletionKind::Keyword => 14,
            CompletionKind::Constant => 21,
        }
    }
}

/// A text that can be written somewhere.
#[derive(Drop)]
pub struct Completion {
    /// The text.
    pub label: String,
    /// What it stands for.
    pub kind: CompletionKind,
    /// What is shown beside it. May be empty.
    pub detail: String,
    /// What it is for. May be empty.
    pub documentation: String,
}

/// What can be written somewhere.
#[derive(Drop)]
pub struct Completions {
    /// What each text takes the place of.
    pub range: Range,
    /// Whether there may be other texts once more is written.
    pub is_incomplete: bool,
    /// The texts.
    pub found: Vec<Completion>,
}

/// A link.
#[derive(Drop)]
pub struct Link {
    /// Where it is.
    pub range: Range,
    /// The address that it leads to.
    pub target: String,
}

/// A way to set something right.
#[derive(Drop)]
pub struct CodeAction {
    /// What is done.
    pub title: String,
    /// The edits.
    pub edits: Vec<TextEdit>,
}

/// What is called, and for which of its parameters an argument is written.
#[derive(Drop)]
pub struct Signature {
    /// What is called, and its parameters.
    pub label: String,
    /// Where the parameters are in the label.
    pub parameters: Vec<LabelPart>,
    /// The index of the one that an argument is written for.
    pub active: usize,
}

/// A part of a label. Its bytes are ASCII before and in it, so the offsets are those of any encoding.
#[derive(Clone, Copy)]
pub struct LabelPart {
    /// Where it begins.
    pub start: usize,
    /// Where it ends.
    pub end: usize,
}

/// What can be run.
#[derive(Drop)]
pub struct Lens {
    /// Where its name is.
    pub range: Range,
    /// Its name.
    pub name: String,
}

/// An answer.
#[derive(Drop)]
pub enum Answer {
    /// Nothing.
    Nothing,
    /// What the server can do. It counts columns so.
    Abilities(Encoding),
    /// Symbols.
    Symbols(Vec<Symbol>),
    /// Lines that can be folded.
    Folds(Vec<Fold>),
    /// Edits of the document.
    Edits(Vec<TextEdit>),
    /// Ranges of the document with an address.
    Places(String, Vec<Range>),
    /// A range of the document.
    Place(Range),
    /// Where a name is.
    Highlights(Vec<Highlight>),
    /// Edits of the document with an address.
    Rename(Rename),
    /// What is known of a name.
    Hover(Hover),
    /// What can be written.
    Completions(Completions),
    /// Ways to set something right in the document with an address.
    Fixes(String, Vec<CodeAction>),
    /// What is called.
    Signature(Signature),
    /// What can be run.
    Lenses(Vec<Lens>),
    /// The kinds of tokens, as the protocol writes them.
    Tokens(Vec<usize>),
    /// Links.
    Links(Vec<Link>),
}
