//! Names and texts as messages and lists show them. Control characters, which can command a
//! terminal, are written as `\u{..}`, as messages of `just` write other characters.
ghost use Rattle.std.specs.Prelude.{◌≡◌, ◌++◌, IfOk, OnOk, string_bytes};
ghost use Rattle.justfile_files.specs.Visible.{visible_character, visible_lines, visible_name, visible_text};

use std::alloc::{AllocError, Global};

/// Returns a name as it is shown, on one line.
///
/// # Errors
///
/// Memory ran out.
pub fn visible_name(alloc: Global, name: &str) -> Result<String, AllocError>
    ensures { IfOk result (λ text. string_bytes text ≡ visible_name name.now) }
{
    visible_text(alloc, name, false)
}

/// Returns lines as they are shown. Line feeds stay.
///
/// # Errors
///
/// Memory ran out.
pub fn visible_lines(alloc: Global, lines: &str) -> Result<String, AllocError>
    ensures { IfOk result (λ text. string_bytes text ≡ visible_lines lines.now) }
{
    visible_text(alloc, lines, true)
}

/// Returns a text as it is shown.
fn visible_text(alloc: Global, text: &str, keeps_feeds: bool) -> Result<String, AllocError>
    ensures { IfOk result (λ shown. string_bytes shown ≡ visible_text keeps_feeds text.now) }
{
    let mut shown = String::new(alloc);
    for character in text.chars() {
        push_visible(alloc, &mut shown, character, keeps_feeds)?;
    }
    Ok(shown)
}

/// Adds a character as it is shown.
fn push_visible(
    alloc: Global,
    shown: &mut String,
    character: char,
    keeps_feeds: bool,
) -> Result<(), AllocError>
    ensures { OnOk result (string_bytes shown.new
        ≡ string_bytes shown.old ++ visible_character keeps_feeds character) }
{
    if character.is_control() && !(keeps_feeds && character == '\n') {
        let number = character as u32;
        let code = format!(in alloc; "\\u{{{number:x}}}")?;
        return shown.push_str(code.as_str());
    }
    shown.push(character)
}
