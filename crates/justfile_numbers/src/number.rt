//! Numbers of bindings and recipes.
/// The number of a binding or of a recipe.
#[derive(Clone, Copy, Debug, PartialEq, Eq, PartialOrd, Ord)]
pub struct Number(pub u32);
