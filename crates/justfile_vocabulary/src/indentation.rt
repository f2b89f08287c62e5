//! Indentations of the lines of bodies.
ghost use Rattle.std.specs.Prelude.{◌≡◌, ◌<◌, ◌||◌, ◌==◌, IsTrue};
ghost use Rattle.std.specs.List.{list_all};
ghost use Rattle.justfile_vocabulary.specs.ByteNames as byte;

use std::fmt;
use std::str::FromStr;

/// The indentation of the lines of a body: one or more copies of the same blank.
#[derive(Clone, Copy, Debug, PartialEq, Eq)]
pub struct Indentation {
    character: char,
    count: usize,
    ghost is_blank: { IsTrue (character == byte.space || character == byte.tab) },
    ghost is_positive: { 0 < count },
}

impl Indentation {
    ghost use Rattle.std.specs.Prelude.{◌∷◌, []};
    ghost use Rattle.justfile_vocabulary.specs.Indentation.{blank_of, count_of};

    /// Returns the blank that is repeated.
    pub fn blank(self) -> &'static str
        ensures { result.now ≡ blank_of self ∷ [] }
    {
        if self.character == '\t' { "\t" } else { " " }
    }

    /// Returns the number of blanks.
    pub fn count(self) -> usize
        ensures { result ≡ count_of self }
    {
        self.count
    }
}

impl Default for Indentation {
    ghost use Rattle.std.specs.Prelude.{codes};
    ghost use Rattle.justfile_vocabulary.specs.Indentation.{indentation_text};

    ghost is_default = { λ indentation. indentation_text indentation ≡ codes "    " };

    /// Returns four spaces.
    fn default() -> Self {
        Indentation {
            character: ' ',
            count: 4,
        }
    }
}

fn all_equal(bytes: &[u8], first: u8) -> bool
    ensures { result ≡ list_all (λ byte. byte == first) bytes.now }
{
    bytes.iter().all(|byte| *byte == first)
}

/// Parses an indentation. The whole text must be one.
///
/// # Errors
///
/// A message, if the text is empty or isn't only spaces or only tabs.
impl FromStr for Indentation {
    ghost use Rattle.justfile_vocabulary.specs.Indentation.{ReadsIndentation};

    type Err = &'static str;

    ghost from_str_gives = { ReadsIndentation };

    #[tactic(auto, using(crate::proofs::IndentationLemmas::replicate_all))]
    fn from_str(text: &str) -> Result<Self, &'static str> {
        let bytes = text.as_bytes();
        let Some(first) = bytes.first().copied() else {
            return Err("indentation must not be empty");
        };
        if first != b' ' && first != b'\t' {
            return Err("indentation must be spaces or tabs");
        }
        if !all_equal(bytes, first) {
            return Err("indentation may not be mixed");
        }
        Ok(Indentation {
            character: first as char,
            count: bytes.len(),
        })
    }
}

impl fmt::Display for Indentation {
    ghost use Rattle.std.specs.Prelude.{Some};
    ghost use Rattle.justfile_vocabulary.specs.Indentation.{indentation_text};

    ghost output = { λ indentation. Some (indentation_text indentation) };

    fn fmt<W: fmt::Write>(&self, f: &mut fmt::Formatter<W>) -> fmt::Result {
        let blank = self.blank();
        for _blank in 0..self.count {
            f.write_str(blank)?;
        }
        Ok(())
    }
}
