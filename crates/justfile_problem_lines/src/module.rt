//! The lines that tell what is wrong with a module.
ghost use Rattle.std.specs.Prelude.{◌≡◌, ◌++◌, IfOk, OnOk, option_copied, option_to_list, slice_get, string_bytes};
ghost use Rattle.justfile_problems.specs.Overridden.{is_overridden_in};
ghost use Rattle.justfile_problem_lines.specs.Modules.{TellAny, TellCirclesOfFile, TellModule, TellModuleOf, TellPart, TellParts, all_definitions, definitions_at, definitions_of, is_overridden_at, is_settled, leads_to_more, may_be_more, rule_at, rules_in, shared_definitions};

use crate::groups::{group_of, is_among};
use crate::lines::{append, circle_lines, problem_lines};
use crate::members::all_member_lines;
use crate::overridden::overridden_at;
use justfile_problems::{
    Definition, Link, ModuleFile, Overridden, Rules, Target, circles_of, joined, problems_within,
};
use std::alloc::{AllocError, Global};

/// Returns the lines that tell what is wrong with the module that begins with the file with this
/// index. `imported` is whether yet another file may import that.
pub(crate) fn module_lines(
    alloc: Global,
    imported: bool,
    files: &[ModuleFile<'_>],
    links: &[Link<'_>],
    first: usize,
) -> Result<String, AllocError>
    ensures { IfOk result (λ lines.
        TellModule imported files.now links.now first (string_bytes lines)) }
{
    let group = group_of(alloc, links, files.len(), first)?;
    group_lines(alloc, imported, files, links, first, &group)
}

/// Returns these lines, where the module has the files with these indices.
fn group_lines(
    alloc: Global,
    imported: bool,
    files: &[ModuleFile<'_>],
    links: &[Link<'_>],
    first: usize,
    group: &[usize],
) -> Result<String, AllocError>
    ensures { IfOk result (λ lines.
        TellModuleOf imported files.now links.now first group.now (string_bytes lines)) }
{
    let more = imported || may_be_more(links, group);
    let mut lines = part_lines(alloc, more, files, group)?;
    let members = all_member_lines(alloc, files, links, group)?;
    append(&members, &mut lines)?;
    let circles = circles_at(alloc, files, first)?;
    append(&circles, &mut lines)?;
    Ok(lines)
}

/// Whether it is known to which file an import leads, or that there is none, which need not be.
fn is_settled(optional: bool, target: Target) -> bool
    ensures { result ≡ is_settled optional target }
{
    match target {
        Target::File(_) => true,
        Target::Nothing => optional,
        Target::Unknown => false,
    }
}

/// Whether an import of one of the files with these indices may lead to a file that isn't known.
fn leads_to_more(group: &[usize], link: &Link<'_>) -> bool
    ensures { result ≡ leads_to_more group.now link.now }
{
    let settled = is_settled(link.optional, link.target);
    is_among(group, link.from) && link.submodule.is_none() && !settled
}

/// Whether one of these imports does.
pub(crate) fn may_be_more(links: &[Link<'_>], group: &[usize]) -> bool
    ensures { result ≡ may_be_more links.now group.now }
{
    links.iter().any(|link| leads_to_more(group, link))
}

/// Appends what a file defines, if there is one.
fn push_definitions_of<'src>(
    file: Option<&ModuleFile<'src>>,
    all: &mut Vec<Definition<'src>>,
) -> Result<(), AllocError>
    ensures { OnOk result
        (all.new.items ≡ all.old.items ++ definitions_of (option_copied file.entry)) }
{
    match file {
        Some(file) => all.extend_from_slice(&file.facts.definitions),
        None => Ok(()),
    }
}

/// Appends what the file with an index defines.
fn push_definitions<'src>(
    files: &[ModuleFile<'src>],
    index: usize,
    all: &mut Vec<Definition<'src>>,
) -> Result<(), AllocError>
    ensures { OnOk result (all.new.items ≡ all.old.items ++ definitions_at files.now index) }
{
    push_definitions_of(files.get(index), all)
}

/// Returns what the files with these indices define, one file after the other.
#[tactic(auto, using(std::proofs::lemmas::List::flat_map_more, std::proofs::lemmas::List::take_more))]
pub(crate) fn all_definitions<'src>(
    alloc: Global,
    files: &[ModuleFile<'src>],
    group: &[usize],
) -> Result<Vec<Definition<'src>>, AllocError>
    ensures { IfOk result (λ all. all.items ≡ all_definitions files.now group.now) }
{
    let mut all = Vec::new(alloc);
    for index in group {
        push_definitions(files, *index, &mut all)?;
    }
    Ok(all)
}

/// Returns the definitions that the files with these indices share: none if there is one alone.
fn shared_definitions<'src>(
    alloc: Global,
    files: &[ModuleFile<'src>],
    group: &[usize],
) -> Result<Vec<Definition<'src>>, AllocError>
    ensures { IfOk result (λ all. all.items ≡ shared_definitions files.now group.now) }
{
    match group {
        [] | [_] => Ok(Vec::new(alloc)),
        [_, _, ..] => all_definitions(alloc, files, group),
    }
}

/// Returns what the file with an index allows.
fn rule_at(files: &[ModuleFile<'_>], index: usize) -> Option<Rules>
    ensures { result ≡ rule_at files.now index }
{
    match files.get(index) {
        Some(file) => Some(file.facts.rules),
        None => None,
    }
}

/// Appends rules, if there are any.
fn push_rules(found: Option<Rules>, rules: &mut Vec<Rules>) -> Result<(), AllocError>
    ensures { OnOk result (rules.new.items ≡ rules.old.items ++ option_to_list found) }
{
    if let Some(found) = found {
        rules.push(found)?;
    }
    Ok(())
}

/// Returns what the files with these indices allow together. Other ones may define names, or not.
#[tactic(auto, using(std::proofs::lemmas::List::flat_map_more, std::proofs::lemmas::List::take_more))]
pub(crate) fn rules_in(
    alloc: Global,
    more: bool,
    files: &[ModuleFile<'_>],
    group: &[usize],
) -> Result<Rules, AllocError>
    ensures { IfOk result (λ rules. rules ≡ rules_in files.now more group.now) }
{
    let mut rules = Vec::new(alloc);
    for index in group {
        push_rules(rule_at(files, *index), &mut rules)?;
    }
    Ok(joined(&rules, more))
}

/// Returns the lines that tell the problems of the files with these indices, which are a module.
fn part_lines(
    alloc: Global,
    more: bool,
    files: &[ModuleFile<'_>],
    group: &[usize],
) -> Result<String, AllocError>
    ensures { IfOk result (λ lines. TellParts (rules_in files.now more group.now)
        (shared_definitions files.now group.now) files.now group.now (string_bytes lines)) }
{
    let rules = rules_in(alloc, more, files, group)?;
    let all = shared_definitions(alloc, files, group)?;
    parts(alloc, rules, &all, files, group)
}

/// Returns the lines that tell the problems of the files with these indices of a module that has these
/// definitions.
fn parts<'src>(
    alloc: Global,
    rules: Rules,
    all: &[Definition<'src>],
    files: &[ModuleFile<'src>],
    group: &[usize],
) -> Result<String, AllocError>
    ensures { IfOk result
        (λ lines. TellParts rules all.now files.now group.now (string_bytes lines)) }
{
    let mut lines = String::new(alloc);
    for index in group {
        let part = part_at(alloc, rules, all, files, group, *index)?;
        append(&part, &mut lines)?;
    }
    Ok(lines)
}

/// Returns the lines that tell the problems of the file with an index.
fn part_at<'src>(
    alloc: Global,
    rules: Rules,
    all: &[Definition<'src>],
    files: &[ModuleFile<'src>],
    group: &[usize],
    index: usize,
) -> Result<String, AllocError>
    ensures { IfOk result (λ lines.
        TellAny (TellPart rules (is_overridden_at files.now group.now index) all.now)
        (slice_get files.now index) (string_bytes lines)) }
{
    match files.get(index) {
        Some(file) => part(alloc, rules, all, files, group, index, file),
        None => Ok(String::new(alloc)),
    }
}

/// Returns the lines that tell the problems of this file of a module, which has that index.
fn part<'src>(
    alloc: Global,
    rules: Rules,
    all: &[Definition<'src>],
    files: &[ModuleFile<'src>],
    group: &[usize],
    index: usize,
    file: &ModuleFile<'src>,
) -> Result<String, AllocError>
    ensures { IfOk result (λ lines. TellPart rules (is_overridden_at files.now group.now index)
        all.now file.now (string_bytes lines)) }
{
    let overridden = overridden_at(alloc, files, group, index)?;
    judged_part(alloc, rules, &overridden, all, file)
}

/// Returns the same, where these items are overridden.
fn judged_part<'src>(
    alloc: Global,
    rules: Rules,
    overridden: &Overridden,
    all: &[Definition<'src>],
    file: &ModuleFile<'src>,
) -> Result<String, AllocError>
    ensures { IfOk result (λ lines. TellPart rules (is_overridden_in overridden.now) all.now
        file.now (string_bytes lines)) }
{
    let problems = problems_within(
        alloc,
        rules,
        overridden,
        all,
        &file.facts.definitions,
        &file.facts.uses,
        &file.facts.suspects,
    )?;
    problem_lines(alloc, file.source, &problems)
}

/// Returns the lines that tell the circles of the file with an index.
fn circles_at(alloc: Global, files: &[ModuleFile<'_>], index: usize) -> Result<String, AllocError>
    ensures { IfOk result
        (λ lines. TellAny TellCirclesOfFile (slice_get files.now index) (string_bytes lines)) }
{
    match files.get(index) {
        Some(file) => circles_in(alloc, file),
        None => Ok(String::new(alloc)),
    }
}

/// Returns the lines that tell the circles of a file.
fn circles_in(alloc: Global, file: &ModuleFile<'_>) -> Result<String, AllocError>
    ensures { IfOk result (λ lines. TellCirclesOfFile file.now (string_bytes lines)) }
{
    let circles = circles_of(alloc, &file.facts.definitions, &file.facts.uses)?;
    circle_lines(alloc, file.source, &circles)
}
