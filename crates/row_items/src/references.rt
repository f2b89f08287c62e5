//! The names that items define and use, as rows show them.

use justfile_item::Item;
use justfile_references::{Reference, references};
use row_notation::{Answer, Text};
use row_parts::shown::{put_if, put_marked};

/// Writes the names that an item defines and uses, after `=` where it defines them: the role, the
/// offset, and the name.
pub(crate) fn push_references(item: &Item<'_>, answer: &mut Answer) {
    match references(item, answer.alloc()) {
        Ok(found) => push_found(answer, &found),
        Err(_) => answer.fail(),
    }
}

/// Writes references, each as a field.
fn push_found(answer: &mut Answer, found: &[Reference<'_>]) {
    for reference in found {
        push_reference(answer, *reference);
    }
}

fn push_reference(answer: &mut Answer, reference: Reference<'_>) {
    let mut shown = Text::new(answer.alloc());
    put_if(&mut shown, "=", reference.defines);
    shown.put_debug(&reference.role);
    shown.put("@");
    shown.put_number(reference.token.offset);
    put_marked(&mut shown, "", reference.token.lexeme());
    answer.push_text(shown);
}
