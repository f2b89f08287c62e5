//! The names of files in the headers of diffs.
ghost use Rattle.std.specs.Prelude.{◌≡◌, ◌+◌, ◌/◌, ◌%◌, ◌<◌, ◌++◌, IfOk, OnOk, chars, codes, string_bytes};
ghost use Rattle.std.specs.List.{list_any};
ghost use Rattle.line_diff.specs.Label.{bare, escaped, is_high_control, is_quoted, is_special, label_of, octal, quoted};

use std::alloc::{AllocError, Global};

/// Returns the name of a file as it stands in the header of a diff: without `./` before it, which
/// `git apply` refuses, and in quotes, if `patch` wouldn't read it otherwise.
pub(crate) fn file_label(alloc: Global, name: &str) -> Result<String, AllocError>
    ensures { IfOk result (λ label. string_bytes label ≡ label_of name.now) }
{
    in_quotes(alloc, bare(name))
}

/// Returns a name without `./` before it. It stays if another slash follows.
fn bare(name: &str) -> &str
    ensures { result.now ≡ bare name.now }
{
    if name.starts_with(".//") {
        return name;
    }
    match name.strip_prefix("./") {
        Some(path) => path,
        None => name,
    }
}

/// Returns a name in quotes, if it has a character for which it is.
fn in_quotes(alloc: Global, name: &str) -> Result<String, AllocError>
    ensures { IfOk result (λ label. string_bytes label ≡ quoted name.now) }
{
    if !has_quoted(name) {
        return name.to_string(alloc);
    }
    let mut label = "\"".to_string(alloc)?;
    for character in name.chars() {
        push_escaped(&mut label, character)?;
    }
    label.push_str("\"")?;
    Ok(label)
}

/// Whether a name has a character for which it is in quotes.
fn has_quoted(name: &str) -> bool
    ensures { result ≡ list_any is_quoted (chars name.now) }
{
    for character in name.chars() {
        if is_quoted(character) {
            return true;
        }
    }
    false
}

/// Whether a name that has this character is written in quotes.
fn is_quoted(character: char) -> bool
    ensures { result ≡ is_quoted character }
{
    character == ' ' || is_special(character) || is_high_control(character)
}

/// Whether a character of a name in quotes is written as a backslash and its number.
fn is_special(character: char) -> bool
    ensures { result ≡ is_special character }
{
    character < ' ' || character == '"' || character == '\\' || character == '\x7f'
}

/// Whether a character is one of the control characters after those of ASCII.
fn is_high_control(character: char) -> bool
    ensures { result ≡ is_high_control character }
{
    let code = character as u32;
    127 < code && code < 160
}

/// Adds a character of a name in quotes.
fn push_escaped(label: &mut String, character: char) -> Result<(), AllocError>
    ensures { OnOk result (string_bytes label.new ≡ string_bytes label.old ++ escaped character) }
{
    if is_special(character) {
        return push_octal(label, character as u32);
    }
    if is_high_control(character) {
        // the first of its two bytes
        label.push_str("\\302")?;
        return push_octal(label, character as u32);
    }
    label.push(character)
}

/// Adds a backslash and the three octal digits of a byte.
fn push_octal(label: &mut String, byte: u32) -> Result<(), AllocError>
    ensures { OnOk result (string_bytes label.new ≡ string_bytes label.old ++ octal byte) }
{
    label.push_str("\\")?;
    label.push(octal_digit(byte / 64))?;
    label.push(octal_digit(byte / 8))?;
    label.push(octal_digit(byte))
}

/// Returns the last octal digit of a number.
fn octal_digit(number: u32) -> char
    ensures { result ≡ 48 + number % 8 }
{
    char::from(b'0' + (number % 8) as u8)
}
