//! Options as they are written on a command line.
use std::fmt;

/// How an option is written on the command line.
#[derive(Debug, Drop, PartialEq, Eq)]
pub enum Switch {
    /// `--` and the name.
    Long(String),
    /// `-` and the character.
    Short(char),
}

impl fmt::Display for Switch {
    ghost use Rattle.std.specs.Prelude.{Some};
    ghost use Rattle.justfile_vocabulary.specs.Switch.{switch_text};

    ghost output = { λ switch. Some (switch_text switch) };

    fn fmt<W: fmt::Write>(&self, f: &mut fmt::Formatter<W>) -> fmt::Result {
        match self {
            Switch::Long(name) => write!(f, "--{name}"),
            Switch::Short(character) => write!(f, "-{character}"),
        }
    }
}
