//! Attributes that are made of expressions, and of keys that the parser never passes for their kind.

use justfile_attribute::Attribute;
use justfile_expression::Expression;
use justfile_token::{CompileResult, Name, Token};
use justfile_vocabulary::AttributeKind;
use row_notation::{Answer, field_at, names_of, number_at, push_fault};
use std::alloc::{AllocError, Global};
use std::collections::BTreeMap;

/// Keys by their texts.
type Keys<'src> = BTreeMap<&'src str, (Name<'src>, Option<Expression<'src>>)>;

/// Appends a positional argument, a variable with this name.
fn push_variable<'src>(
    arguments: &mut Vec<(Token<'src>, Expression<'src>)>,
    name: Name<'src>,
) -> Result<(), AllocError> {
    let number = None;
    arguments.reserve(1)?;
    arguments.push_reserved((*name, Expression::Variable { name, number }));
    Ok(())
}

/// Makes positional arguments, each a variable with this name.
fn arguments<'src>(
    alloc: Global,
    name: Name<'src>,
    count: usize,
) -> Result<Vec<(Token<'src>, Expression<'src>)>, AllocError> {
    let mut arguments = Vec::new(alloc);
    for _ in 0..count {
        push_variable(&mut arguments, name)?;
    }
    Ok(arguments)
}

/// Inserts a key by a text.
fn insert<'src>(
    keys: &mut Keys<'src>,
    text: &'src str,
    given: (Name<'src>, Option<Expression<'src>>),
) -> Result<(), AllocError> {
    match keys.insert(text, given) {
        Ok(_before) => Ok(()),
        Err(_failed) => Err(AllocError),
    }
}

/// Inserts a key by a text, whatever its name. Its value is a variable with its name.
fn insert_variable<'src>(
    keys: &mut Keys<'src>,
    text: &'src str,
    name: Name<'src>,
) -> Result<(), AllocError> {
    let number = None;
    insert(
        keys,
        text,
        (name, Some(Expression::Variable { name, number })),
    )
}

/// Inserts a key without a value by each name.
fn put_names<'src>(keys: &mut Keys<'src>, names: &[Name<'src>]) -> Result<(), AllocError> {
    for name in names {
        insert(keys, name.lexeme(), (*name, None))?;
    }
    Ok(())
}

/// Inserts a key by each word of a text, all with these names and with a variable as their value.
fn put_words<'src>(
    keys: &mut Keys<'src>,
    words: &'src str,
    names: &[Name<'src>],
) -> Result<(), AllocError> {
    for word in words.split_whitespace() {
        for name in names {
            insert_variable(keys, word, *name)?;
        }
    }
    Ok(())
}

/// Writes the attribute with the first name of a text: with a number of arguments, each a variable
/// with its name, and the other names as its keys; or, if it is keyed, with the words of the first
/// field as its keys, whose names and values are the second name. Or writes why it is refused.
pub fn makes(answer: &mut Answer, fields: &[String], is_keyed: bool) {
    match names_of(answer.alloc(), field_at(fields, 1)) {
        Ok(names) => push_new(&names, answer, fields, is_keyed),
        Err(_) => answer.fail(),
    }
}

fn push_new<'src>(
    names: &[Name<'src>],
    answer: &mut Answer,
    fields: &'src [String],
    is_keyed: bool,
) {
    match names.split_first() {
        Some((name, others)) if !is_keyed || others.len() == 1 => {
            push_named(answer, *name, others, fields, is_keyed)
        }
        _ => answer.push("none"),
    }
}

fn push_named<'src>(
    answer: &mut Answer,
    name: Name<'src>,
    others: &[Name<'src>],
    fields: &'src [String],
    is_keyed: bool,
) {
    let Some(kind) = AttributeKind::from_name(name.lexeme()) else {
        return answer.push("none");
    };
    let mut keys = BTreeMap::new(answer.alloc());
    let (count, is_put) = if is_keyed {
        (0, put_words(&mut keys, field_at(fields, 0), others).is_ok())
    } else {
        let count = number_at(fields, 0) as usize;
        (count, put_names(&mut keys, others).is_ok())
    };
    if is_put {
        push_with_keys(answer, (name, kind), keys, count);
    } else {
        answer.fail();
    }
}

/// Writes the attribute with these keys and with `count` arguments.
fn push_with_keys<'src>(
    answer: &mut Answer,
    (name, kind): (Name<'src>, AttributeKind),
    keys: Keys<'src>,
    count: usize,
) {
    match arguments(answer.alloc(), name, count) {
        Ok(arguments) => {
            let made = Attribute::new(answer.alloc(), name, kind, arguments, keys);
            push_result(answer, name.src, &made);
        }
        Err(_) => answer.fail(),
    }
}

/// Writes an attribute, or why there is none.
fn push_result<'src>(answer: &mut Answer, text: &str, made: &CompileResult<'src, Attribute<'src>>) {
    match made {
        Ok(attribute) => answer.push_display(attribute),
        Err(fault) => push_fault(answer, text, fault),
    }
}
