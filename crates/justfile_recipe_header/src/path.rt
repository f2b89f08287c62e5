//! Printing of the path of a recipe.

ghost use Rattle.justfile_token.specs.Name.{name_text};
ghost use Rattle.justfile_token.specs.Namepath.{namepath_text};
ghost use Rattle.justfile_token.specs.Sink.{Puts};
ghost use Rattle.justfile_recipe_header.specs.Header.{names_text};

use crate::write_to::{WriteTo, write_each};
use justfile_token::{Name, Namepath, Sink};

impl WriteTo for Name<'_> {
    ghost piece_text = { name_text };

    fn write<S: Sink>(&self, sink: &mut S) -> Result<(), S::Fault> {
        sink.put(self.lexeme())
    }
}

/// Writes the names of a path with `::` between them.
pub fn write_namepath<S: Sink>(path: &Namepath<'_>, sink: &mut S) -> Result<(), S::Fault>
    ensures { Puts S.took S.failed sink.old result (namepath_text path.now) sink.new }
{
    write_names(path.iter().as_slice(), sink)
}

/// Writes names with `::` between them.
#[tactic(auto, using(crate::proofs::Parts::names_parts))]
fn write_names<S: Sink>(names: &[Name<'_>], sink: &mut S) -> Result<(), S::Fault>
    ensures { Puts S.took S.failed sink.old result (names_text names.now) sink.new }
{
    let Some((first, rest)) = names.split_first() else {
        return Ok(());
    };
    first.write(sink)?;
    write_each("::", rest, sink)?;
    Ok(())
}
