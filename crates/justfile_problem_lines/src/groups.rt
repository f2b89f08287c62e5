//! Which files a module has: its first one, and those that this leads to by imports.
ghost use Rattle.std.specs.Prelude.{◌≡◌, IfOk, OnOk, Some, slice_get};
ghost use Rattle.justfile_problem_lines.specs.Groups.{file_of, first_files, first_of, group_after, import_from, is_among, with_imports, with_index};

use justfile_problems::{Link, Target};
use std::alloc::{AllocError, Global};

/// Returns the index of the file to which something leads.
pub(crate) fn file_of(target: Target) -> Option<usize>
    ensures { result ≡ file_of target }
{
    match target {
        Target::File(index) => Some(index),
        Target::Nothing | Target::Unknown => None,
    }
}

/// Returns the index of the file that the one with an index imports.
fn import_from(from: usize, link: &Link<'_>) -> Option<usize>
    ensures { result ≡ import_from from link.now }
{
    if link.from == from && link.submodule.is_none() {
        file_of(link.target)
    } else {
        None
    }
}

/// Returns the index of the first file of a module.
pub(crate) fn first_of(link: &Link<'_>) -> Option<usize>
    ensures { result ≡ first_of link.now }
{
    if link.submodule.is_some() {
        file_of(link.target)
    } else {
        None
    }
}

/// Whether an index is among some.
pub(crate) fn is_among(indices: &[usize], index: usize) -> bool
    ensures { result ≡ is_among indices.now index }
{
    indices.iter().any(|other| *other == index)
}

/// Appends an index, unless there is none or it is among them.
fn push_index(index: Option<usize>, indices: &mut Vec<usize>) -> Result<(), AllocError>
    ensures { OnOk result (indices.new.items ≡ with_index indices.old.items index) }
{
    let Some(index) = index else {
        return Ok(());
    };
    if !is_among(indices, index) {
        indices.push(index)?;
    }
    Ok(())
}

/// Appends the indices of the files that the one with an index imports.
#[tactic(auto, using(std::proofs::lemmas::List::Sums::fold_more))]
fn push_imports(links: &[Link<'_>], from: usize, indices: &mut Vec<usize>) -> Result<(), AllocError>
    ensures { OnOk result
        (indices.new.items ≡ with_imports links.now indices.old.items (Some from)) }
{
    for link in links {
        push_index(import_from(from, link), indices)?;
    }
    Ok(())
}

/// Appends the indices of the files that the one imports whose index is at a position.
fn push_imports_at(
    links: &[Link<'_>],
    position: usize,
    indices: &mut Vec<usize>,
) -> Result<(), AllocError>
    ensures { OnOk result (indices.new.items
        ≡ with_imports links.now indices.old.items (slice_get indices.old.items position)) }
{
    let from = indices.get(position).copied();
    match from {
        Some(from) => push_imports(links, from, indices),
        None => Ok(()),
    }
}

/// Returns the indices of a file and of those that it leads to by imports, where there are so many
/// files.
pub(crate) fn group_of(
    alloc: Global,
    links: &[Link<'_>],
    count: usize,
    first: usize,
) -> Result<Vec<usize>, AllocError>
    ensures { IfOk result (λ group. group.items ≡ group_after links.now count first) }
{
    let mut group = Vec::new(alloc);
    group.push(first)?;
    for position in 0..count {
        push_imports_at(links, position, &mut group)?;
    }
    Ok(group)
}

/// Returns the indices of the first files of all modules.
#[tactic(auto, using(std::proofs::lemmas::List::Sums::fold_more))]
pub(crate) fn first_files(alloc: Global, links: &[Link<'_>]) -> Result<Vec<usize>, AllocError>
    ensures { IfOk result (λ first. first.items ≡ first_files links.now) }
{
    let mut first = Vec::new(alloc);
    first.push(0)?;
    for link in links {
        push_index(first_of(link), &mut first)?;
    }
    Ok(first)
}
