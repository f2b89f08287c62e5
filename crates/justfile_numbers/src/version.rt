//! Versions of `just`.
ghost use Rattle.std.specs.Prelude.{◌≡◌, ℕ, ◌∷◌, ◌++◌, IfSome, IfNone};
ghost use Rattle.justfile_numbers.specs.NumberText.{HasNoDot, IsNumberText, dot};

use std::fmt;
use std::str::FromStr;

/// A version of `just`, ordered number by number.
#[derive(Clone, Copy, Debug, PartialEq, Eq, PartialOrd, Ord)]
pub struct Version {
    /// The major number.
    pub major: u64,
    /// The minor number.
    pub minor: u64,
    /// The patch number.
    pub patch: u64,
}

/// Parses a number in decimal digits. Returns `None` if the text is empty, has another character,
/// or writes a number above 64 bits.
fn parse_number(text: &str) -> Option<u64>
    ensures some { IfSome result (IsNumberText text.now) }
    ensures none { IfNone result ((n : ℕ) → ¬ IsNumberText text.now n) }
{
    if text.as_bytes().first().copied() == Some(b'+') {
        return None;
    }
    text.parse().ok()
}

/// Returns the texts before and after the first dot, or `None` if there is no dot.
#[tactic(auto, using(crate::proofs::VersionLemmas::no_dot_all))]
fn split_at_dot(text: &str) -> Option<(&str, &str)>
    ensures some { IfSome result (λ parts. text.now ≡ parts.0.now ++ dot ∷ parts.1.now) }
    ensures first { IfSome result (λ parts. HasNoDot parts.0.now) }
    ensures none { IfNone result (HasNoDot text.now) }
{
    text.split_once('.')
}

impl Version {
    ghost use Rattle.justfile_numbers.specs.Version.{IsVersionText, WritesVersion};

    /// The version of `just` whose language this is.
    pub const CURRENT: Version = Version {
        major: 1,
        minor: 58,
        patch: 0,
    };

    /// Parses the three numbers of a version.
    fn from_numbers(major: &str, minor: &str, patch: &str) -> Option<Self>
        ensures some { IfSome result (WritesVersion major.now minor.now patch.now) }
        ensures none { IfNone result
            ((v : Version) → ¬ WritesVersion major.now minor.now patch.now v) }
    {
        Some(Version {
            major: parse_number(major)?,
            minor: parse_number(minor)?,
            patch: parse_number(patch)?,
        })
    }

    /// Parses a version.
    fn read(text: &str) -> Option<Self>
        ensures some { IfSome result (IsVersionText text.now) }
        ensures none { IfNone result ((v : Version) → ¬ IsVersionText text.now v) }
    {
        let Some((major, rest)) = split_at_dot(text) else {
            return None;
        };
        let Some((minor, patch)) = split_at_dot(rest) else {
            return None;
        };
        Version::from_numbers(major, minor, patch)
    }
}

/// Parses three numbers separated by dots.
///
/// # Errors
///
/// A message, if the text is anything else.
impl FromStr for Version {
    ghost use Rattle.justfile_numbers.specs.Version.{ReadsVersion};

    type Err = &'static str;

    ghost from_str_gives = { ReadsVersion };

    fn from_str(text: &str) -> Result<Self, &'static str> {
        Version::read(text).ok_or("invalid version")
    }
}

impl fmt::Display for Version {
    ghost use Rattle.std.specs.Prelude.{Some};
    ghost use Rattle.justfile_numbers.specs.Version.{version_text};

    ghost output = { λ version. Some (version_text version) };

    fn fmt<W: fmt::Write>(&self, f: &mut fmt::Formatter<W>) -> fmt::Result {
        let (major, minor, patch) = (self.major, self.minor, self.patch);
        write!(f, "{major}.{minor}.{patch}")
    }
}
