//! The lines that tell what is wrong with uses of what modules define.
ghost use Rattle.std.specs.Prelude.{◌≡◌, ◌++◌, [], IfOk, OnOk, Some, slice_get, string_bytes};
ghost use Rattle.std.specs.List.{flat_map};
ghost use Rattle.justfile_problems.specs.Overridden.{is_overridden_in};
ghost use Rattle.justfile_problem_lines.specs.Modules.{TellAllMembers, TellAny, TellJudged, TellMembers, TellMembersAt, TellMembersIn, TellMembersOf, first_within, is_overridden_at, use_of};

use crate::groups::{first_of, group_of, is_among};
use crate::lines::{append, problem_lines_within};
use crate::module::{all_definitions, may_be_more, rules_in};
use crate::overridden::overridden_at;
use justfile_problems::{
    Definition, Link, Member, ModuleFile, Overridden, Rules, Use, problems_within,
};
use justfile_token::Name;
use std::alloc::{AllocError, Global};

/// Returns the lines that tell the problems of files with uses of what modules define that they have.
pub(crate) fn all_member_lines(
    alloc: Global,
    files: &[ModuleFile<'_>],
    links: &[Link<'_>],
    group: &[usize],
) -> Result<String, AllocError>
    ensures { IfOk result
        (λ lines. TellAllMembers files.now links.now group.now (string_bytes lines)) }
{
    let mut lines = String::new(alloc);
    for link in links {
        let part = member_lines_at(alloc, files, links, group, link)?;
        append(&part, &mut lines)?;
    }
    Ok(lines)
}

/// Returns the first file of a module that one of the files with these indices has.
fn first_within(group: &[usize], link: &Link<'_>) -> Option<usize>
    ensures { result ≡ first_within group.now link.now }
{
    if is_among(group, link.from) {
        first_of(link)
    } else {
        None
    }
}

/// Returns the lines of uses of what one module defines, if it is one of these files.
fn member_lines_at(
    alloc: Global,
    files: &[ModuleFile<'_>],
    links: &[Link<'_>],
    group: &[usize],
    link: &Link<'_>,
) -> Result<String, AllocError>
    ensures { IfOk result (λ lines.
        TellMembersAt files.now links.now group.now link.now (string_bytes lines)) }
{
    let Some(owner) = link.submodule else {
        return Ok(String::new(alloc));
    };
    match first_within(group, link) {
        Some(first) => member_lines(alloc, files, links, group, owner, first),
        None => Ok(String::new(alloc)),
    }
}

/// Returns the lines of uses of what the module with this name and this first file defines.
fn member_lines(
    alloc: Global,
    files: &[ModuleFile<'_>],
    links: &[Link<'_>],
    group: &[usize],
    owner: Name<'_>,
    first: usize,
) -> Result<String, AllocError>
    ensures { IfOk result (λ lines.
        TellMembersOf files.now links.now group.now owner.entry first (string_bytes lines)) }
{
    let inner = group_of(alloc, links, files.len(), first)?;
    let rules = rules_in(alloc, may_be_more(links, &inner), files, &inner)?;
    let all = all_definitions(alloc, files, &inner)?;
    members_of_files(alloc, rules, &all, owner, files, group)
}

/// Returns the lines of uses by the files with these indices of what a module defines.
fn members_of_files<'src>(
    alloc: Global,
    rules: Rules,
    all: &[Definition<'src>],
    owner: Name<'src>,
    files: &[ModuleFile<'src>],
    group: &[usize],
) -> Result<String, AllocError>
    ensures { IfOk result (λ lines.
        TellMembersIn rules all.now owner.entry files.now group.now (string_bytes lines)) }
{
    let mut lines = String::new(alloc);
    for index in group {
        let part = members_at(alloc, rules, all, owner, files, group, *index)?;
        append(&part, &mut lines)?;
    }
    Ok(lines)
}

/// Returns the lines of uses by the file with an index.
fn members_at<'src>(
    alloc: Global,
    rules: Rules,
    all: &[Definition<'src>],
    owner: Name<'src>,
    files: &[ModuleFile<'src>],
    group: &[usize],
    index: usize,
) -> Result<String, AllocError>
    ensures { IfOk result (λ lines.
        TellAny (TellMembers rules (is_overridden_at files.now group.now index) all.now owner.entry)
        (slice_get files.now index) (string_bytes lines)) }
{
    match files.get(index) {
        Some(file) => members_in(alloc, rules, all, owner, files, group, index, file),
        None => Ok(String::new(alloc)),
    }
}

/// Returns the lines of uses by this file, which has that index.
fn members_in<'src>(
    alloc: Global,
    rules: Rules,
    all: &[Definition<'src>],
    owner: Name<'src>,
    files: &[ModuleFile<'src>],
    group: &[usize],
    index: usize,
    file: &ModuleFile<'src>,
) -> Result<String, AllocError>
    ensures { IfOk result (λ lines. TellMembers rules (is_overridden_at files.now group.now index)
        all.now owner.entry file.now (string_bytes lines)) }
{
    let uses = uses_of(alloc, owner.lexeme(), &file.facts.members)?;
    lines_of_uses(
        alloc,
        rules,
        all,
        owner,
        files,
        group,
        index,
        file.source,
        &uses,
    )
}

/// Returns the lines of these uses by the file with this index and this text. Which of its items are
/// overridden is found out only if there are any.
fn lines_of_uses<'src>(
    alloc: Global,
    rules: Rules,
    all: &[Definition<'src>],
    owner: Name<'src>,
    files: &[ModuleFile<'src>],
    group: &[usize],
    index: usize,
    source: &'src str,
    uses: &[Use<'src>],
) -> Result<String, AllocError>
    ensures { IfOk result (λ lines. TellJudged (Some owner.entry) rules
        (is_overridden_at files.now group.now index) all.now [] uses.now [] source.now
        (string_bytes lines)) }
{
    match uses {
        [] => Ok(String::new(alloc)),
        [_, ..] => lines_of_some(alloc, rules, all, owner, files, group, index, source, uses),
    }
}

/// Returns the same.
fn lines_of_some<'src>(
    alloc: Global,
    rules: Rules,
    all: &[Definition<'src>],
    owner: Name<'src>,
    files: &[ModuleFile<'src>],
    group: &[usize],
    index: usize,
    source: &'src str,
    uses: &[Use<'src>],
) -> Result<String, AllocError>
    ensures { IfOk result (λ lines. TellJudged (Some owner.entry) rules
        (is_overridden_at files.now group.now index) all.now [] uses.now [] source.now
        (string_bytes lines)) }
{
    let overridden = overridden_at(alloc, files, group, index)?;
    judged_lines(alloc, rules, &overridden, all, owner, source, uses)
}

/// Returns the same, where these items are overridden.
fn judged_lines<'src>(
    alloc: Global,
    rules: Rules,
    overridden: &Overridden,
    all: &[Definition<'src>],
    owner: Name<'src>,
    source: &'src str,
    uses: &[Use<'src>],
) -> Result<String, AllocError>
    ensures { IfOk result (λ lines. TellJudged (Some owner.entry) rules
        (is_overridden_in overridden.now) all.now [] uses.now [] source.now
        (string_bytes lines)) }
{
    let problems = problems_within(alloc, rules, overridden, all, &[], uses, &[])?;
    problem_lines_within(alloc, source, Some(owner), &problems)
}

/// Returns the uses of what the module with this name defines.
#[tactic(auto, using(std::proofs::lemmas::List::flat_map_more, std::proofs::lemmas::List::take_more))]
fn uses_of<'src>(
    alloc: Global,
    owner: &str,
    members: &[Member<'src>],
) -> Result<Vec<Use<'src>>, AllocError>
    ensures { IfOk result (λ uses. uses.items ≡ flat_map (use_of owner.now) members.now) }
{
    let mut uses = Vec::new(alloc);
    for member in members {
        push_use(owner, member, &mut uses)?;
    }
    Ok(uses)
}

/// Appends a use, if it is of what the module with this name defines.
fn push_use<'src>(
    owner: &str,
    member: &Member<'src>,
    uses: &mut Vec<Use<'src>>,
) -> Result<(), AllocError>
    ensures { OnOk result (uses.new.items ≡ uses.old.items ++ use_of owner.now member.now) }
{
    if member.owner.lexeme() == owner {
        uses.push(member.used)?;
    }
    Ok(())
}
