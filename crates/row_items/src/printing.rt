//! Printed texts of files and of items, as rows show them. Functions take the file as their first
//! parameter, because its lifetimes after those of others make the check exceed its limit.

use justfile_ast::Ast;
use justfile_item::Item;
use justfile_vocabulary::Indentation;
use row_notation::{Answer, Stream, Text};
use std::alloc::Global;
use std::io::ErrorKind;

/// Writes a file's printed text at an indentation.
pub fn copies(ast: &Ast<'_>, answer: &mut Answer, indentation: Indentation) {
    answer.push_made(ast.print(answer.alloc(), indentation));
}

/// Writes a file's printed text at an indentation, and whether the file says that it isn't
/// printable.
pub fn prints_once(ast: &mut Ast<'_>, answer: &mut Answer, indentation: Indentation) {
    copies(ast, answer, indentation);
    answer.push_if("unprintable", !ast.printable());
}

/// Writes a file's printed text at an indentation, and what it writes to writers if that is
/// another. If the file says that it isn't printable, writes `unprintable` after it; otherwise
/// returns the printed text, which has to print as itself.
pub fn push_printed_text(
    ast: &Ast<'_>,
    answer: &mut Answer,
    indentation: Indentation,
) -> Option<String> {
    let Ok(printed) = ast.print(answer.alloc(), indentation) else {
        answer.fail();
        return None;
    };
    answer.push(printed.as_str());
    writes(ast, answer, indentation, printed.as_str());
    if !ast.printable() {
        answer.push("unprintable");
        return None;
    }
    Some(printed)
}

/// Writes what a file prints to a writer that takes all bytes of a call, and to one that takes one
/// byte, unless that is its printed text.
fn writes(ast: &Ast<'_>, answer: &mut Answer, indentation: Indentation, printed: &str) {
    writes_at(ast, answer, indentation, printed, usize::MAX);
    writes_at(ast, answer, indentation, printed, 1);
}

/// Writes what a file prints to a writer that takes at most `most_bytes` bytes in a call, unless
/// that is its printed text.
fn writes_at(
    ast: &Ast<'_>,
    answer: &mut Answer,
    indentation: Indentation,
    printed: &str,
    most_bytes: usize,
) {
    let mut writer = Stream::new(answer.alloc(), b"", most_bytes);
    let is_written = ast.print_to(indentation, &mut writer).is_ok();
    answer.push_if("unwritten", !is_written);
    if writer.text() != printed {
        answer.push("written");
        answer.push(writer.text());
    }
}

/// Writes what a file prints to a writer that takes one byte in each of `calls` calls, and then is
/// `broken`, `interrupted`, or takes `nothing`; and the fault, or `written` if there is none.
pub fn stops(ast: &Ast<'_>, answer: &mut Answer, calls: u32, how: &str) {
    let mut writer = Stream::new(answer.alloc(), b"", 1);
    match how {
        "interrupted" => writer.fail_with(ErrorKind::Interrupted),
        _ => writer.fail_with(ErrorKind::BrokenPipe),
    }
    match how {
        "nothing" => writer.fail_after(calls.saturating_add(1), 0),
        _ => writer.fail_after(calls, 1),
    }
    let result = ast.print_to(Indentation::default(), &mut writer);
    answer.push(writer.text());
    match result {
        Ok(()) => answer.push("written"),
        Err(fault) => answer.push_debug(&fault),
    }
}

/// Writes whether the first item of a file has a body, and the item's own printed text at an
/// indentation. For an alias, an assignment or a setting, also writes the text that it displays.
/// Then drops the other items, and writes what the file prints to writers unless that is the text
/// of its item and a line feed.
pub fn prints_item(ast: &mut Ast<'_>, answer: &mut Answer, indentation: Indentation) {
    if ast.items.is_empty() {
        return answer.push("none");
    }
    push_item(&ast.items[0], answer, indentation);
    let line = line_of(&ast.items[0], answer.alloc(), indentation);
    keep_first(&mut ast.items);
    writes(ast, answer, indentation, line.as_str());
}

/// Returns an item's own printed text and a line feed.
fn line_of(item: &Item<'_>, alloc: Global, indentation: Indentation) -> Text {
    let mut line = Text::new(alloc);
    line.put_made(item.print(alloc, indentation));
    line.put("\n");
    line
}

/// Drops all items but the first.
fn keep_first(items: &mut Vec<Item<'_>>) {
    items.truncate(1);
}

fn push_item(item: &Item<'_>, answer: &mut Answer, indentation: Indentation) {
    answer.push(if item.has_body() { "body" } else { "bodiless" });
    answer.push_made(item.print(answer.alloc(), indentation));
    match item {
        Item::Alias(alias) => answer.push_display(alias),
        Item::Assignment(assignment) => answer.push_display(assignment),
        Item::Setting(set) => answer.push_display(set),
        _ => {}
    }
}
