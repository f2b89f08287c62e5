//! Where the defaults of the parameters of an item are.
ghost use Rattle.std.specs.Prelude.{◌≡◌, []};
ghost use Rattle.justfile_references.specs.Defaults.{defaults_before, defaults_of, is_in, last_offset};

use justfile_item::{Item, UnresolvedRecipe};
use justfile_line::Line;
use justfile_recipe_header::UnresolvedDependency;
use justfile_token::{Namepath, Token};

/// Where the defaults of the parameters of an item are.
#[derive(Clone, Copy)]
pub enum Defaults {
    /// Nowhere.
    Nowhere,
    /// After an offset.
    After(usize),
    /// After an offset, and before another one.
    Between(usize, usize),
    /// After an offset, and before a line.
    BeforeLine(usize, usize),
}

impl Defaults {
    /// Returns where the defaults of the parameters of an item are. Only those of a recipe have some:
    /// between its name, and its dependencies or its body.
    pub fn of(item: &Item<'_>) -> Self
        ensures { result ≡ defaults_of item.now }
    {
        match item {
            Item::Recipe(recipe) => Defaults::of_recipe(recipe),
            _ => Defaults::Nowhere,
        }
    }

    /// Returns where the defaults of the parameters of a recipe are.
    fn of_recipe(recipe: &UnresolvedRecipe<'_>) -> Self
        ensures { result ≡ defaults_before recipe.now.name.token.offset
            recipe.now.dependencies.items recipe.now.body.items }
    {
        Defaults::before(recipe.name.token.offset, &recipe.dependencies, &recipe.body)
    }

    /// Returns where the defaults are that are after an offset, before dependencies or a body.
    fn before(start: usize, dependencies: &[UnresolvedDependency<'_>], body: &[Line<'_>]) -> Self
        ensures { result ≡ defaults_before start dependencies.now body.now }
    {
        match dependencies {
            [dependency, ..] => Defaults::Between(start, offset_of(&dependency.recipe)),
            [] => Defaults::before_body(start, body),
        }
    }

    /// Returns where the defaults are that are after an offset, before a body.
    fn before_body(start: usize, body: &[Line<'_>]) -> Self
        ensures { result ≡ defaults_before start [] body.now }
    {
        match body {
            [line, ..] => Defaults::BeforeLine(start, line.number),
            [] => Defaults::After(start),
        }
    }

    /// Whether a token is in a default.
    pub fn has(self, token: &Token<'_>) -> bool
        ensures { result ≡ is_in self token.now }
    {
        match self {
            Defaults::Nowhere => false,
            Defaults::After(start) => start < token.offset,
            Defaults::Between(start, end) => start < token.offset && token.offset < end,
            Defaults::BeforeLine(start, line) => start < token.offset && token.line < line,
        }
    }
}

/// Returns the offset of the last name of a path.
fn offset_of(path: &Namepath<'_>) -> usize
    ensures { result ≡ last_offset path.now }
{
    path.last().token.offset
}
