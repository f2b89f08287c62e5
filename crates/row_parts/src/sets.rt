//! Sets of attributes made from entries and from pairs.

use crate::attributes::push_attribute;
use justfile_attribute::Attribute;
use justfile_attribute_set::{AttributeSet, ContentOrder, IntoNamed, PairSet};
use justfile_token::Name;
use row_notation::{Answer, Text};
use std::alloc::{AllocError, Global};
use std::fmt::Display;

/// Makes a set from a set's attributes and their copies with this name and comment, and writes it.
pub fn push_joined<'src>(
    set: &AttributeSet<'src>,
    answer: &mut Answer,
    name: Name<'src>,
    comment: Option<&'src str>,
) {
    match joined(set, answer.alloc(), name, comment) {
        Ok(mut made) => push_set(set, &mut made, answer, name),
        Err(_) => answer.fail(),
    }
}

/// Attributes with their names and comments.
type Entries<'src> = Vec<(Attribute<'src>, Name<'src>, Option<&'src str>)>;

/// Makes a set from copies of a set's attributes in reverse order, with another comment, followed
/// by copies with this name and comment.
fn joined<'src>(
    set: &AttributeSet<'src>,
    alloc: Global,
    name: Name<'src>,
    comment: Option<&'src str>,
) -> Result<AttributeSet<'src>, AllocError> {
    let mut entries = Vec::new(alloc);
    match put_joined(set, &mut entries, alloc, name, comment) {
        Ok(()) => AttributeSet::from_entries(alloc, entries),
        Err(error) => Err(error),
    }
}

/// Appends the entries that `joined` makes a set of.
fn put_joined<'src>(
    set: &AttributeSet<'src>,
    entries: &mut Entries<'src>,
    alloc: Global,
    name: Name<'src>,
    comment: Option<&'src str>,
) -> Result<(), AllocError> {
    put_entries(set, entries, alloc, None, Some("# earlier"))?;
    entries.reverse();
    put_entries(set, entries, alloc, Some(name), comment)
}

/// Appends an entry for a copy of each attribute of a set, with this name or else its own, and with
/// this comment.
fn put_entries<'src>(
    set: &AttributeSet<'src>,
    entries: &mut Entries<'src>,
    alloc: Global,
    name: Option<Name<'src>>,
    comment: Option<&'src str>,
) -> Result<(), AllocError> {
    match set.clone(alloc) {
        Ok(copy) => put_each(copy.into_items(), entries, name, comment),
        Err(error) => Err(error),
    }
}

/// Appends an entry for the first of each pair, with this name or else its own, and with this
/// comment.
fn put_each<'src, K: Drop>(
    pairs: IntoNamed<'src, K>,
    entries: &mut Vec<(K, Name<'src>, Option<&'src str>)>,
    name: Option<Name<'src>>,
    comment: Option<&'src str>,
) -> Result<(), AllocError> {
    for (key, own) in pairs {
        let name = name.unwrap_or(own);
        if entries.push((key, name, comment)).is_err() {
            return Err(AllocError);
        }
    }
    Ok(())
}

/// Makes a set from the attributes of two sets and their names, without comments.
fn named<'src>(
    earlier: &AttributeSet<'src>,
    later: &AttributeSet<'src>,
    alloc: Global,
) -> Result<AttributeSet<'src>, AllocError> {
    let mut pairs = Vec::new(alloc);
    match put_both(earlier, later, &mut pairs, alloc) {
        Ok(()) => AttributeSet::from_pairs(alloc, pairs),
        Err(error) => Err(error),
    }
}

/// Appends copies of the attributes of two sets with their names.
fn put_both<'src>(
    earlier: &AttributeSet<'src>,
    later: &AttributeSet<'src>,
    pairs: &mut Vec<(Attribute<'src>, Name<'src>)>,
    alloc: Global,
) -> Result<(), AllocError> {
    put_named(earlier, pairs, alloc)?;
    put_named(later, pairs, alloc)
}

/// Appends copies of a set's attributes with their names.
fn put_named<'src>(
    set: &AttributeSet<'src>,
    pairs: &mut Vec<(Attribute<'src>, Name<'src>)>,
    alloc: Global,
) -> Result<(), AllocError> {
    match set.clone(alloc) {
        Ok(copy) => put_pairs(copy.into_items(), pairs),
        Err(error) => Err(error),
    }
}

/// Appends pairs to others.
fn put_pairs<'src, K: Drop>(
    more: IntoNamed<'src, K>,
    pairs: &mut Vec<(K, Name<'src>)>,
) -> Result<(), AllocError> {
    for pair in more {
        if pairs.push(pair).is_err() {
            return Err(AllocError);
        }
    }
    Ok(())
}

/// Writes the attributes of a set, its groups, and whether one is `private`. Writes `unequal` after
/// them if the set isn't equal to `made`, in which each attribute has this name.
fn push_set<'src>(
    set: &AttributeSet<'src>,
    made: &mut AttributeSet<'src>,
    answer: &mut Answer,
    name: Name<'src>,
) {
    let is_equal = *set == *made && set.len() == made.len();
    push_members(made, answer);
    answer.push_if("unequal", !is_equal);
    push_named(set, made, answer, name);
    push_taken(set, answer);
}

/// Writes `remade` if a set that is taken apart and made again isn't equal to it, `untaken` if its
/// attributes by value are others, and `filled` if a new set has attributes.
fn push_taken(set: &AttributeSet<'_>, answer: &mut Answer) {
    match (remade(set, answer.alloc()), is_taken(set, answer.alloc())) {
        (Ok(is_remade), Ok(is_taken)) => {
            answer.push_if("remade", !is_remade);
            answer.push_if("untaken", !is_taken);
        }
        _ => answer.fail(),
    }
    answer.push_if("filled", AttributeSet::new(answer.alloc()).len() > 0);
}

/// Whether a set is made again of what a copy of it is taken apart to.
fn remade(set: &AttributeSet<'_>, alloc: Global) -> Result<bool, AllocError> {
    match set.clone(alloc) {
        Ok(copy) => is_made(set, AttributeSet::from_parsed(copy.into_written())),
        Err(error) => Err(error),
    }
}

/// Whether a set that was made is equal to this one.
fn is_made<'src>(
    set: &AttributeSet<'src>,
    made: Result<AttributeSet<'src>, AllocError>,
) -> Result<bool, AllocError> {
    match made {
        Ok(made) => Ok(made == *set),
        Err(error) => Err(error),
    }
}

/// Whether a copy of a set, by value, has the set's attributes in order.
fn is_taken(set: &AttributeSet<'_>, alloc: Global) -> Result<bool, AllocError> {
    match set.clone(alloc) {
        Ok(copy) => Ok(has_keys(copy, set.written())),
        Err(error) => Err(error),
    }
}

/// Whether a set, by value, has the first components of these pairs, in order.
fn has_keys<K: ContentOrder + PartialEq + Drop, V: Drop>(
    set: PairSet<K, V>,
    pairs: &[(K, V)],
) -> bool {
    let mut index: usize = 0;
    for key in set {
        match pairs.get(index) {
            Some(pair) if pair.0 == key => index = index.saturating_add(1),
            _ => return false,
        }
    }
    index == pairs.len()
}

/// Makes a set from the attributes and names of a set, and then of an equal one in which each
/// attribute has the name `name`. Writes `unnamed` if the result isn't equal to them, and what is
/// wrong with what it has beside its attributes.
fn push_named<'src>(
    set: &AttributeSet<'src>,
    later: &AttributeSet<'src>,
    answer: &mut Answer,
    name: Name<'src>,
) {
    match named(set, later, answer.alloc()) {
        Ok(mut made) => push_unnamed(later, &mut made, answer, name),
        Err(_) => answer.fail(),
    }
}

/// Writes `unnamed` if a set isn't equal to the one that was made with the name `name`, and what is
/// wrong with what that one has beside its attributes.
fn push_unnamed<'src>(
    later: &AttributeSet<'src>,
    made: &mut AttributeSet<'src>,
    answer: &mut Answer,
    name: Name<'src>,
) {
    let is_equal = *later == *made;
    answer.push_if("unnamed", !is_equal);
    push_unwanted(made, answer, name);
}

/// Writes `earlier` for each attribute of a set that has another name than `name`, and `commented`
/// for each that has a comment.
fn push_unwanted<'src>(set: &mut AttributeSet<'src>, answer: &mut Answer, name: Name<'src>) {
    for (_, written) in set.written() {
        answer.push_if("earlier", written.name.offset != name.offset);
        answer.push_if("commented", written.comment.is_some());
    }
}

/// Writes the attributes of a set, its groups, and whether one is `private`.
fn push_members(set: &AttributeSet<'_>, answer: &mut Answer) {
    let written = set.written();
    for index in 0..written.len() {
        push_member(set, &written[index].0, answer);
    }
    push_groups(set, answer);
    answer.push_if("private", set.private());
}

/// Writes an attribute of a set with the offset of its name and its comment. Writes `missing` after
/// it if the set says that it has none of this kind.
fn push_member<'src>(set: &AttributeSet<'src>, attribute: &Attribute<'src>, answer: &mut Answer) {
    push_attribute(set, attribute, answer);
    answer.push_if("missing", !set.contains(attribute.kind()));
    push_first(set, attribute, answer);
}

/// Writes the first attribute of the same kind in a set, if it displays another text.
fn push_first<'src>(set: &AttributeSet<'src>, attribute: &Attribute<'src>, answer: &mut Answer) {
    match set.get(attribute.kind()) {
        Some(first) if *first == *attribute => {}
        Some(first) => push_labelled(answer, "after ", first),
        None => answer.push("missing"),
    }
}

/// Writes the names of a set's groups, after a word for them.
fn push_groups(set: &AttributeSet<'_>, answer: &mut Answer) {
    match set.groups(answer.alloc()) {
        Ok(groups) => {
            for group in &groups {
                push_labelled(answer, "in ", group);
            }
        }
        Err(_) => answer.fail(),
    }
}

/// Writes a word and the text that a value displays as a field.
fn push_labelled<T: Display>(answer: &mut Answer, word: &str, value: &T) {
    let mut shown = Text::new(answer.alloc());
    shown.put(word);
    shown.put_display(value);
    answer.push_text(shown);
}
