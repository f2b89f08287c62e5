//! What is offered.
ghost use Rattle.std.specs.Prelude.{◌≡◌};
ghost use Rattle.justfile_completion.specs.Offers.{kind_number};

/// What an offered text stands for.
#[derive(Clone, Copy, Debug, PartialEq, Eq)]
pub enum OfferKind {
    /// A built-in constant.
    Constant,
    /// A function, built in or not.
    Function,
    /// A group of recipes.
    Group,
    /// A keyword.
    Keyword,
    /// A parameter.
    Parameter,
    /// A setting, an attribute, or a key or a value of one.
    Property,
    /// A recipe.
    Recipe,
    /// A variable.
    Variable,
}

impl OfferKind {
    /// Returns a number of its own for each.
    pub(crate) fn number(self) -> u8
        ensures { result ≡ kind_number self }
    {
        match self {
            OfferKind::Constant => 0,
            OfferKind::Function => 1,
            OfferKind::Group => 2,
            OfferKind::Keyword => 3,
            OfferKind::Parameter => 4,
            OfferKind::Property => 5,
            OfferKind::Recipe => 6,
            OfferKind::Variable => 7,
        }
    }
}

/// A text that can be written somewhere.
#[derive(Clone, Copy)]
pub struct Offer<'a> {
    /// What it stands for.
    pub kind: OfferKind,
    /// The text.
    pub name: &'a str,
    /// What is shown beside it, such as parameters or a value. May be empty.
    pub detail: &'a str,
    /// What it is for, in a sentence or more. May be empty.
    pub documentation: &'a str,
}
