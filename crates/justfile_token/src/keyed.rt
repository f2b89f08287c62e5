//! Values that are found by a name.
ghost use Rattle.std.specs.Prelude.{◌≡◌, ℕ, List};
ghost use Rattle.justfile_token.specs.Name.{name_text};

use crate::name::Name;

/// A value that has a name by which it is found.
pub trait Keyed<'key> {
    /// The bytes of the name.
    ghost key_text: { Self → List ℕ };

    /// Returns the name.
    fn key(&self) -> &'key str
        ensures { result.now ≡ key_text self.now };
}

impl<'key, 'src: 'key> Keyed<'key> for Name<'src> {
    ghost key_text = { name_text };

    fn key(&self) -> &'key str {
        self.lexeme()
    }
}
