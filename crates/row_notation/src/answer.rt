//! What a row finds or expects, in the notation of rows.

use crate::text::Text;
use std::alloc::{AllocError, Global};
use std::fmt::{Debug, Display};

/// Fields separated by blanks. Each has one notation, so equal answers have equal texts.
#[derive(Drop)]
pub struct Answer {
    notation: Text,
}

impl Answer {
    /// Returns an answer without fields.
    pub fn new(alloc: Global) -> Self {
        Answer {
            notation: Text::new(alloc),
        }
    }

    /// Returns the allocator of the answer.
    pub fn alloc(&self) -> Global {
        self.notation.alloc()
    }

    /// Appends a field.
    pub fn push(&mut self, field: &str) {
        self.separate();
        if is_word(field) {
            self.notation.put(field);
        } else {
            self.quote(field);
        }
    }

    /// Appends a blank if there are fields already.
    fn separate(&mut self) {
        if !self.notation.as_str().is_empty() {
            self.notation.put(" ");
        }
    }

    /// Appends a field in quotes.
    fn quote(&mut self, field: &str) {
        self.notation.put("«");
        for character in field.chars() {
            self.put_character(character);
        }
        self.notation.put("»");
    }

    /// Appends a character of a field in quotes, with an escape if it needs one.
    fn put_character(&mut self, character: char) {
        match character {
            '\n' => self.notation.put("\\n"),
            '\r' => self.notation.put("\\r"),
            '\t' => self.notation.put("\\t"),
            '\\' => self.notation.put("\\\\"),
            _ if is_unseen(character) => self.put_code(character),
            _ => self.notation.put_character(character),
        }
    }

    /// Appends the escape with a character's number.
    fn put_code(&mut self, character: char) {
        let code = u32::from(character);
        let escape = format!(in self.alloc(); "\\u{{{code:x}}}");
        self.notation.put_made(escape);
    }

    /// Appends a field, or records that memory ran out for it.
    pub fn push_made(&mut self, made: Result<String, AllocError>) {
        match made {
            Ok(field) => self.push(field.as_str()),
            Err(_) => self.notation.fail(),
        }
    }

    /// Appends the text that a value displays as a field.
    pub fn push_display<T: Display>(&mut self, value: &T) {
        self.push_made(value.to_string(self.alloc()));
    }

    /// Appends the text that `Debug` writes of a value as a field.
    pub fn push_debug<T: Debug>(&mut self, value: &T) {
        self.push_made(format!(in self.alloc(); "{value:?}"));
    }

    /// Appends a text as a field.
    pub fn push_text(&mut self, text: Text) {
        self.push_made(text.finish());
    }

    /// Appends a number.
    pub fn push_number(&mut self, number: usize) {
        self.separate();
        self.notation.put_number(number);
    }

    /// Appends a word if `is_so`.
    pub fn push_if(&mut self, word: &str, is_so: bool) {
        if is_so {
            self.push(word);
        }
    }

    /// Appends the fields of another answer.
    pub fn push_all(&mut self, other: &Answer) {
        if !other.notation.as_str().is_empty() {
            self.separate();
        }
        self.notation.put_text(&other.notation);
    }

    /// Records that memory ran out.
    pub fn fail(&mut self) {
        self.notation.fail();
    }

    /// Appends a word and the fields of `other`, unless these are the fields of `expected`.
    pub fn push_unless(&mut self, word: &str, other: &Answer, expected: &Answer) {
        if other.notation.as_str() != expected.notation.as_str() {
            self.push(word);
            self.push_all(other);
        }
    }

    /// Whether the fields are those of another answer. They aren't if memory ran out for one of them.
    pub(crate) fn is_equal(&self, other: &Answer) -> bool {
        self.notation.is_equal(&other.notation)
    }

    /// Appends the fields to a text.
    pub(crate) fn put_to(&self, text: &mut Text) {
        text.put_text(&self.notation);
    }
}

/// Whether a field needs no quotes.
fn is_word(field: &str) -> bool {
    !field.is_empty() && field.chars().all(is_word_character)
}

/// Whether a character of a field needs neither quotes nor an escape.
fn is_word_character(character: char) -> bool {
    !matches!(character, ' ' | '\t' | '\n' | '\r' | '\\') && !is_unseen(character)
}

/// Whether a character needs an escape with its number: because it has a meaning in the notation,
/// or can't be seen.
fn is_unseen(character: char) -> bool {
    matches!(
        character,
        '«' | '»' | '\u{0}'..='\u{1F}' | '\u{7F}'..='\u{A0}' | '\u{200B}'..='\u{200F}' | '\u{FEFF}'
    )
}
