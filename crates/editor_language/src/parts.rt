//! What a text consists of.
use crate::mention::Mention;
use editor_messages::{Completion, SymbolKind};
use text_parts::Part;

/// A part of a text: from an offset up to another one.
#[derive(Clone, Copy)]
pub struct Span {
    /// Where it begins.
    pub start: usize,
    /// Where it ends.
    pub end: usize,
}

/// What is wrong in a text.
#[derive(Drop)]
pub struct Problem {
    /// Where it is.
    pub span: Span,
    /// What is wrong.
    pub message: String,
}

/// What is wrong with what a text says. The text can be read.
#[derive(Drop)]
pub struct Finding {
    /// Where it is.
    pub span: Span,
    /// What is wrong.
    pub message: String,
    /// The name of its kind.
    pub code: &'static str,
    /// Another place that it is about, if there is one.
    pub other: Option<OtherPlace>,
}

/// A place that a finding is about, too.
#[derive(Clone, Copy)]
pub struct OtherPlace {
    /// The place.
    pub span: Span,
    /// What is there.
    pub message: &'static str,
}

/// An item of a text.
#[derive(Drop)]
pub struct Item {
    /// Its name, or what it names.
    pub name: String,
    /// What it is.
    pub kind: SymbolKind,
    /// Whether it names another file, to which it leads.
    pub is_link: bool,
    /// All that belongs to it.
    pub span: Span,
    /// Its name's place.
    pub name_span: Span,
    /// Its body, if it has one.
    pub body: Option<Span>,
}

/// What is known of a text.
#[derive(Drop)]
pub struct Analysis {
    /// What is wrong.
    pub problems: Vec<Problem>,
    /// The parts of the text, each with what is known of it by itself: the items and the mentions of the
    /// text are theirs. After a change, those that it doesn't concern are kept.
    pub parts: Vec<Part<Known>>,
}

/// What is known of a part of a text. Offsets count from the beginning of what was read: for a later
/// part from the line feed before it.
#[derive(Drop)]
pub struct Known {
    /// The items, in their order.
    pub items: Vec<Item>,
    /// Where names are defined and used, in the order of the text. The item in which alone a name is known
    /// has its number among the items that were read.
    pub mentions: Vec<Mention>,
    /// What is wrong, if something is.
    pub problem: Option<PartProblem>,
}

/// What is wrong in a part.
#[derive(Drop)]
pub struct PartProblem {
    /// Where it is.
    pub span: Span,
    /// What is wrong.
    pub message: String,
    /// Whether the message names lines, which count from the beginning of what was read.
    pub names_lines: bool,
}

/// A part of a text that leads to a file.
#[derive(Drop)]
pub struct FileLink {
    /// Where it is.
    pub span: Span,
    /// The file's path: absolute, or as it is seen from the folder of the text's document.
    pub path: String,
}

/// What takes the place of a part of a text.
#[derive(Drop)]
pub struct Replacement {
    /// What is replaced.
    pub span: Span,
    /// What it is replaced by.
    pub text: String,
}

/// A way to set right what is wrong in a text.
#[derive(Drop)]
pub struct QuickFix {
    /// Where it is wrong.
    pub span: Span,
    /// What is done.
    pub title: String,
    /// What takes the place of parts of the text.
    pub replacements: Vec<Replacement>,
}

/// What can be run as it is.
#[derive(Drop)]
pub struct Run {
    /// Where its name is.
    pub span: Span,
    /// Its name.
    pub name: String,
}

/// What can be written somewhere.
#[derive(Drop)]
pub struct Choices {
    /// What each text takes the place of.
    pub span: Span,
    /// Whether there may be other texts once more is written.
    pub is_incomplete: bool,
    /// The texts.
    pub found: Vec<Completion>,
}

/// How a token is shown.
#[derive(Clone, Copy)]
pub enum TokenType {
    /// A comment.
    Comment,
    /// A string.
    Text,
    /// An operator.
    Operator,
    /// A keyword.
    Keyword,
    /// A setting, or an attribute.
    Property,
    /// A function, or what is run.
    Function,
    /// A variable.
    Variable,
    /// A parameter.
    Parameter,
}

impl TokenType {
    /// Returns the index of the type among those that the server tells apart.
    pub fn index(self) -> usize {
        match self {
            TokenType::Comment => 0,
            TokenType::Text => 1,
            TokenType::Operator => 2,
            TokenType::Keyword => 3,
            TokenType::Property => 4,
            TokenType::Function => 5,
            TokenType::Variable => 6,
            TokenType::Parameter => 7,
        }
    }
}

/// A token, and how it is shown.
#[derive(Clone, Copy)]
pub struct Colored {
    /// Where it is.
    pub span: Span,
    /// How it is shown.
    pub kind: TokenType,
}
