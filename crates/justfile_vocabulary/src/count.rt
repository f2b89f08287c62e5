//! Counted nouns in messages.
use std::fmt;

/// A noun in the number that a count requires, with or without the count before it.
#[derive(Clone, Copy, Debug)]
pub struct Count {
    count: usize,
    irregular: Option<&'static str>,
    noun: &'static str,
    numbered: bool,
}

impl Count {
    ghost use Rattle.std.specs.Prelude.{◌≡◌, ◌++◌, codes, Some};
    ghost use Rattle.std.specs.Fmt.{DisplaysOnOk, decimal};
    ghost use Rattle.justfile_vocabulary.specs.Count.{count_text, irregular_text, noun_text, numbered_text, plain_text};

    /// Returns the count and the noun, with an `s` unless the count is 1.
    pub fn numbered(noun: &'static str, count: usize) -> Self
        ensures { count_text result ≡ numbered_text noun.entry.now count }
    {
        Count {
            count,
            irregular: None,
            noun,
            numbered: true,
        }
    }

    /// Returns the count and the noun, or its plural `irregular` unless the count is 1.
    pub fn numbered_irregular(noun: &'static str, irregular: &'static str, count: usize) -> Self
        ensures { count_text result
            ≡ decimal count ++ codes " "
            ++ irregular_text noun.entry.now irregular.entry.now count }
    {
        Count {
            count,
            irregular: Some(irregular),
            noun,
            numbered: true,
        }
    }

    /// Returns the noun alone, with an `s` unless the count is 1.
    pub fn unnumbered(noun: &'static str, count: usize) -> Self
        ensures { count_text result ≡ noun_text noun.entry.now count }
    {
        Count {
            count,
            irregular: None,
            noun,
            numbered: false,
        }
    }

    /// Writes the noun.
    fn write_noun<W: fmt::Write>(&self, f: &mut fmt::Formatter<W>) -> fmt::Result
        ensures { DisplaysOnOk W.write_str_gives f.old result
            (Some (plain_text self.now.noun.now self.now.irregular self.now.count)) f.new }
    {
        match (self.irregular, self.count) {
            (_, 1) => f.write_str(self.noun),
            (Some(irregular), _) => f.write_str(irregular),
            (None, _) => write!(f, "{}s", self.noun),
        }
    }
}

impl fmt::Display for Count {
    ghost use Rattle.std.specs.Prelude.{Some};
    ghost use Rattle.justfile_vocabulary.specs.Count.{count_text};

    ghost output = { λ count. Some (count_text count) };

    fn fmt<W: fmt::Write>(&self, f: &mut fmt::Formatter<W>) -> fmt::Result {
        if self.numbered {
            write!(f, "{} ", self.count)?;
        }
        self.write_noun(f)
    }
}
