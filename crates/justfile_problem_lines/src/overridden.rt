//! What other files of a module override.
ghost use Rattle.std.specs.Prelude.{◌≡◌, IfOk};
ghost use Rattle.justfile_problems.specs.Overridden.{AreOverridden, is_overridden_in};
ghost use Rattle.justfile_problem_lines.specs.Modules.{definitions_at, files_before, is_overridden_at, place_in};

use crate::module::all_definitions;
use justfile_problems::{Definition, ModuleFile, Overridden};
use std::alloc::{AllocError, Global};

/// Returns the files of a module that come before one.
fn files_before(group: &[usize], index: usize) -> &[usize]
    ensures { result.now ≡ files_before group.now index }
{
    match place_in(group, index) {
        Some(place) => {
            let (before, _) = group.split_at(place);
            before
        }
        None => &[],
    }
}

/// Returns the place of an index among some, if it is among them.
fn place_in(group: &[usize], index: usize) -> Option<usize>
    ensures { result ≡ place_in group.now index }
{
    group.iter().position(|other| *other == index)
}

/// Returns where recipes and assignments begin, in the file of a module with this index, that are
/// overridden: by that file, or by those before it.
pub(crate) fn overridden_at(
    alloc: Global,
    files: &[ModuleFile<'_>],
    group: &[usize],
    index: usize,
) -> Result<Overridden, AllocError>
    ensures { IfOk result (λ found.
        is_overridden_in found ≡ is_overridden_at files.now group.now index) }
{
    let others = all_definitions(alloc, files, files_before(group, index))?;
    overridden_in(alloc, &others, files, index)
}

/// Returns the same, where the files before it define `others`.
fn overridden_in<'src>(
    alloc: Global,
    others: &[Definition<'src>],
    files: &[ModuleFile<'src>],
    index: usize,
) -> Result<Overridden, AllocError>
    ensures { IfOk result (λ found.
        AreOverridden others.now (definitions_at files.now index) found.offsets) }
{
    match files.get(index) {
        Some(file) => Overridden::of(alloc, others, &file.facts.definitions),
        None => Overridden::of(alloc, others, &[]),
    }
}
