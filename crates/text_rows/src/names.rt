//! Kinds of attributes, signals and switches.

use justfile_vocabulary::{AttributeKind, Signal, Switch};
use row_notation::{Answer, field_at};
use std::alloc::{AllocError, Global};

/// Writes the kind of attribute with this name and its properties, or `none`. Writes `unspelled`
/// after it if the kind's own name differs.
pub(crate) fn attribute_kind(answer: &mut Answer, text: &str) {
    let Some(kind) = AttributeKind::from_name(text) else {
        return answer.push("none");
    };
    answer.push_debug(&kind);
    answer.push(kind.name());
    answer.push_if("enabler", kind.is_enabler());
    answer.push_if("keys", kind.accepts_keyword_arguments());
    answer.push_if("unspelled", kind.name() != text)
}

/// Writes the signal with this name, and the text that it displays, or `none`.
pub(crate) fn signal(answer: &mut Answer, text: &str) {
    let Some(signal) = Signal::from_name(text) else {
        return answer.push("none");
    };
    answer.push_debug(&signal);
    answer.push_display(&signal)
}

/// Makes the switch of this form. A short one has the first character of the name.
fn switch_of(alloc: Global, form: &str, name: &str) -> Result<Switch, AllocError> {
    match (form, name.chars().next()) {
        ("short", Some(character)) => Ok(Switch::Short(character)),
        _ => Ok(Switch::Long(name.to_string(alloc)?)),
    }
}

/// Returns the text that a switch displays.
fn switch_text(alloc: Global, form: &str, name: &str) -> Result<String, AllocError> {
    switch_of(alloc, form, name)?.to_string(alloc)
}

/// Writes the text that the switch of a form and a name displays.
pub(crate) fn switch(answer: &mut Answer, fields: &[String]) {
    let (form, name) = (field_at(fields, 0), field_at(fields, 1));
    answer.push_made(switch_text(answer.alloc(), form, name))
}
