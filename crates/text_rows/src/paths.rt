//! Paths of names, as rows show them.

use justfile_token::{Modulepath, Name, Namepath};
use row_notation::{Answer, names_of, path_from, path_of, push_copy};
use std::alloc::{AllocError, Global};

/// Writes the path of a text's names, and how many it has. Writes `apart` if what it has isn't
/// these names, `unjoined` if it isn't the path of all but the last one joined with that, and
/// `uncopied` if its copy isn't equal to it.
pub(crate) fn namepath(answer: &mut Answer, text: &str) {
    match (
        names_of(answer.alloc(), text),
        path_of(answer.alloc(), text),
    ) {
        (Ok(names), Ok(path)) => push_path(answer, &path, &names),
        _ => answer.fail(),
    }
}

fn push_path<'row>(answer: &mut Answer, path: &Namepath<'row>, names: &[Name<'row>]) {
    answer.push_display(path);
    answer.push_number(path.components());
    answer.push_if("apart", !has_names(path, names));
    push_copy(path, path.clone(answer.alloc()), answer);
    if let Some((last, before)) = names.split_last() {
        push_joined(answer, path, before, *last);
    }
}

/// Writes `unjoined` if a path isn't that of the names `before` joined with `last`. One that has no
/// names before the last isn't joined.
fn push_joined<'row>(
    answer: &mut Answer,
    path: &Namepath<'row>,
    before: &[Name<'row>],
    last: Name<'row>,
) {
    let Some((first, others)) = before.split_first() else {
        return;
    };
    match joined(answer.alloc(), *first, others, last) {
        Ok(joined) => answer.push_if("unjoined", joined != *path),
        Err(_) => answer.fail(),
    }
}

/// Whether each call returns these names of a path.
fn has_names<'row>(path: &Namepath<'row>, names: &[Name<'row>]) -> bool {
    let (last, modules) = path.split_last();
    path.iter().eq(names.iter())
        && names.split_last() == Some((last, modules))
        && path.last() == last
}

/// Joins the path of `first` and `others` with `last`.
fn joined<'row>(
    alloc: Global,
    first: Name<'row>,
    others: &[Name<'row>],
    last: Name<'row>,
) -> Result<Namepath<'row>, AllocError> {
    path_from(alloc, first, others)?.join(alloc, last)
}

/// Makes the path of modules with the names of a text.
fn modules_of(alloc: Global, text: &str) -> Result<Modulepath, AllocError> {
    if text.is_empty() {
        return Modulepath::from_namepath(alloc, None);
    }
    Modulepath::from_namepath(alloc, Some(&path_of(alloc, text)?))
}

/// Returns a copy of a path of modules with one more name.
fn lengthened(alloc: Global, modules: &Modulepath) -> Result<Modulepath, AllocError> {
    let mut longer = modules.clone(alloc)?;
    longer.push("z".to_string(alloc)?)?;
    Ok(longer)
}

/// Writes the path of modules with the names of a text, `root` if it is the empty one, and a copy
/// of it with one more name. Writes `uncopied` if its copy isn't equal to it, `changed` if it was
/// changed with its copy, and `lost` if the new name isn't the last one.
pub(crate) fn modulepath(answer: &mut Answer, text: &str) {
    match modules_of(answer.alloc(), text) {
        Ok(modules) => push_modules(answer, &modules),
        Err(_) => answer.fail(),
    }
}

fn push_modules(answer: &mut Answer, modules: &Modulepath) {
    let alloc = answer.alloc();
    answer.push_display(modules);
    answer.push_if("root", *modules == Modulepath::new(alloc));
    push_copy(modules, modules.clone(alloc), answer);
    match lengthened(alloc, modules) {
        Ok(longer) => push_longer(answer, modules, &longer),
        Err(_) => answer.fail(),
    }
}

fn push_longer(answer: &mut Answer, modules: &Modulepath, longer: &Modulepath) {
    answer.push_display(longer);
    answer.push_if("changed", *modules == *longer);
    let is_last = match longer.names().last() {
        Some(name) => name.as_str() == "z",
        None => false,
    };
    answer.push_if("lost", !is_last);
}
