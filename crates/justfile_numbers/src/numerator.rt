//! What hands out the numbers of bindings and recipes.
ghost use Rattle.std.specs.Prelude.{◌≡◌, ◌+◌, ◌-◌, ◌^◌, ◌<◌, ◌↔◌, IsNone, IfSome, OnSome, IfNone};

use crate::number::Number;

/// The counters that hand out the numbers of bindings and recipes. The first bindings are the
/// constants.
#[derive(Debug, Drop)]
pub struct Numerator {
    bindings: u32,
    constants: u32,
    recipes: u32,
}

impl Numerator {
    ghost use Rattle.justfile_numbers.specs.Numerator.{number_of, bindings_of, constants_of, recipes_of};

    /// Returns the numerator of a program with this many constants.
    pub fn new(constants: u32) -> Self
        ensures bindings { bindings_of result ≡ constants }
        ensures constants { constants_of result ≡ constants }
        ensures recipes { recipes_of result ≡ 0 }
    {
        Numerator {
            bindings: constants,
            constants,
            recipes: 0,
        }
    }

    /// Returns the number of the next binding, or `None` if only the last number is left.
    pub fn next_binding(&mut self) -> Option<Number>
        ensures number { IfSome result (λ n. n ≡ number_of (bindings_of self.old)) }
        ensures end { IsNone result ↔ (bindings_of self.old ≡ 2 ^ 32 - 1) }
        ensures counted { OnSome result (bindings_of self.new ≡ bindings_of self.old + 1) }
        ensures unchanged { IfNone result (self.new ≡ self.old) }
        ensures constants { constants_of self.new ≡ constants_of self.old }
        ensures recipes { recipes_of self.new ≡ recipes_of self.old }
    {
        let number = self.bindings;
        self.bindings = number.checked_add(1)?;
        Some(Number(number))
    }

    /// Returns the number of the next recipe, or `None` if only the last number is left.
    pub fn next_recipe(&mut self) -> Option<Number>
        ensures number { IfSome result (λ n. n ≡ number_of (recipes_of self.old)) }
        ensures end { IsNone result ↔ (recipes_of self.old ≡ 2 ^ 32 - 1) }
        ensures counted { OnSome result (recipes_of self.new ≡ recipes_of self.old + 1) }
        ensures unchanged { IfNone result (self.new ≡ self.old) }
        ensures bindings { bindings_of self.new ≡ bindings_of self.old }
        ensures constants { constants_of self.new ≡ constants_of self.old }
    {
        let number = self.recipes;
        self.recipes = number.checked_add(1)?;
        Some(Number(number))
    }

    /// Returns the number of the constant with this index, which must be below the number of
    /// constants.
    pub fn constant(&self, i: u32) -> Number
        requires { i < constants_of self.now }
        ensures { result ≡ number_of i }
    {
        Number(i)
    }
}
