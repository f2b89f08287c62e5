//! How paths of names are printed.
ghost use Rattle.std.specs.Prelude.{◌≡◌, ℕ, List, Some, map, string_bytes};
ghost use Rattle.std.specs.List.{flat_map};
ghost use Rattle.std.specs.Fmt.{DisplaysOnOk};
ghost use Rattle.justfile_token.specs.Name.{name_text};
ghost use Rattle.justfile_token.specs.Path.{path_text, separated_name};

use crate::name::Name;
use std::fmt;

/// A name in a path.
pub(crate) trait PathName {
    /// The bytes of the name.
    ghost name_bytes: { Self → List ℕ };

    /// Returns the text of the name.
    fn text(&self) -> &str
        ensures { result.now ≡ name_bytes self.now };
}

impl PathName for Name<'_> {
    ghost name_bytes = { name_text };

    fn text(&self) -> &str {
        self.token.lexeme()
    }
}

impl PathName for String {
    ghost name_bytes = { string_bytes };

    fn text(&self) -> &str {
        self.as_str()
    }
}

/// Writes names, each after two colons.
fn write_separated<N: PathName, W: fmt::Write>(
    names: &[N],
    f: &mut fmt::Formatter<W>,
) -> fmt::Result
    ensures { DisplaysOnOk W.write_str_gives f.old result
        (Some (flat_map (λ name. separated_name (N.name_bytes name)) names.now)) f.new }
{
    for name in names {
        f.write_str("::")?;
        f.write_str(name.text())?;
    }
    Ok(())
}

/// Writes names, separated by two colons.
pub(crate) fn write_path<N: PathName, W: fmt::Write>(
    names: &[N],
    f: &mut fmt::Formatter<W>,
) -> fmt::Result
    ensures { DisplaysOnOk W.write_str_gives f.old result
        (Some (path_text (map N.name_bytes names.now))) f.new }
{
    let Some((first, rest)) = names.split_first() else {
        return Ok(());
    };
    f.write_str(first.text())?;
    write_separated(rest, f)
}
