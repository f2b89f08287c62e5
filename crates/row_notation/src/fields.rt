//! Access to the fields of a row by their indices.

use justfile_vocabulary::Indentation;

/// Returns the field at an index, or the empty text if there is none.
pub fn field_at(fields: &[String], index: usize) -> &str {
    match fields.get(index) {
        Some(field) => field.as_str(),
        None => "",
    }
}

/// Returns the number in this field, or 0 if it isn't a number.
pub fn number_at(fields: &[String], index: usize) -> u32 {
    field_at(fields, index).parse::<u32>().unwrap_or(0)
}

/// Whether this field is a number.
pub fn is_number(fields: &[String], index: usize) -> bool {
    field_at(fields, index).parse::<u32>().is_ok()
}

/// Returns the indentation in this field, or four spaces if it isn't one.
pub fn indentation_at(fields: &[String], index: usize) -> Indentation {
    indentation_of(field_at(fields, index))
}

/// Returns the indentation that a text is, or four spaces if it isn't one.
pub fn indentation_of(text: &str) -> Indentation {
    text.parse::<Indentation>().unwrap_or_default()
}

/// Whether this field is an indentation.
pub fn is_indentation(fields: &[String], index: usize) -> bool {
    field_at(fields, index).parse::<Indentation>().is_ok()
}
