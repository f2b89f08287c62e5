//! The kinds of items, and their names in messages.
ghost use Rattle.std.specs.Prelude.{◌≡◌};

use std::fmt;

/// The kind of an item.
#[derive(Clone, Copy, Debug, PartialEq, Eq)]
pub enum ItemKind {
    /// `alias name := target`
    Alias,
    /// `name := value`
    Assignment,
    /// A line that begins with `#`, or a comment after an item on its line.
    Comment,
    /// `name(parameters) := body`
    Function,
    /// `import path`
    Import,
    /// `mod name`
    Module,
    /// A line end.
    Newline,
    /// A recipe, with a body or without one.
    Recipe,
    /// `set name`
    Setting,
    /// `unexport name`
    Unexport,
}

impl ItemKind {
    ghost use Rattle.justfile_vocabulary.specs.ItemKind.{item_kind_article, item_kind_text};

    /// Returns the indefinite article of the kind's name.
    pub fn article(self) -> &'static str
        ensures { result.now ≡ item_kind_article self }
    {
        match self {
            ItemKind::Alias | ItemKind::Assignment | ItemKind::Import | ItemKind::Unexport => "an",
            ItemKind::Comment
            | ItemKind::Function
            | ItemKind::Module
            | ItemKind::Newline
            | ItemKind::Recipe
            | ItemKind::Setting => "a",
        }
    }

    fn name(self) -> &'static str
        ensures { result.now ≡ item_kind_text self }
    {
        match self {
            ItemKind::Alias => "alias",
            ItemKind::Assignment => "assignment",
            ItemKind::Comment => "comment",
            ItemKind::Function => "function",
            ItemKind::Import => "import",
            ItemKind::Module => "module",
            ItemKind::Newline => "newline",
            ItemKind::Recipe => "recipe",
            ItemKind::Setting => "setting",
            ItemKind::Unexport => "unexport",
        }
    }
}

/// Ignores width and alignment: the text is written as it is.
impl fmt::Display for ItemKind {
    ghost use Rattle.std.specs.Prelude.{Some};
    ghost use Rattle.justfile_vocabulary.specs.ItemKind.{item_kind_text};

    ghost output = { λ kind. Some (item_kind_text kind) };

    ghost styled_output = { λ kind spec. Some (item_kind_text kind) };

    fn fmt<W: fmt::Write>(&self, f: &mut fmt::Formatter<W>) -> fmt::Result {
        f.write_str(self.name())
    }
}
