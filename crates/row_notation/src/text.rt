//! Texts written piece by piece.

use std::alloc::{AllocError, Global};
use std::fmt::{Debug, Display};

/// A text, and whether memory ran out for a piece of it. So the methods that append pieces return
/// no error; `finish` does.
#[derive(Drop)]
pub struct Text {
    alloc: Global,
    content: String,
    is_short: bool,
}

impl Text {
    /// Returns the empty text.
    pub fn new(alloc: Global) -> Self {
        Text {
            alloc,
            content: String::new(alloc),
            is_short: false,
        }
    }

    /// Returns the allocator of the text.
    pub fn alloc(&self) -> Global {
        self.alloc
    }

    /// Returns what was written.
    pub fn as_str(&self) -> &str {
        self.content.as_str()
    }

    /// Appends a piece.
    pub fn put(&mut self, piece: &str) {
        if self.content.push_str(piece).is_err() {
            self.is_short = true;
        }
    }

    /// Appends a character.
    pub fn put_character(&mut self, character: char) {
        if self.content.push(character).is_err() {
            self.is_short = true;
        }
    }

    /// Appends a number.
    pub fn put_number(&mut self, number: usize) {
        self.put_display(&number);
    }

    /// Appends the text that a value displays.
    pub fn put_display<T: Display>(&mut self, value: &T) {
        self.put_made(value.to_string(self.alloc));
    }

    /// Appends the text that `Debug` writes of a value.
    pub fn put_debug<T: Debug>(&mut self, value: &T) {
        self.put_made(format!(in self.alloc; "{value:?}"));
    }

    /// Appends a piece, or records that memory ran out for it.
    pub fn put_made(&mut self, made: Result<String, AllocError>) {
        match made {
            Ok(piece) => self.put(piece.as_str()),
            Err(_) => self.is_short = true,
        }
    }

    /// Appends another text.
    pub fn put_text(&mut self, other: &Text) {
        self.put(other.as_str());
        if other.is_short {
            self.is_short = true;
        }
    }

    /// Whether another text is the same. It isn't if memory ran out for a piece of one of them.
    pub(crate) fn is_equal(&self, other: &Text) -> bool {
        !self.is_short && !other.is_short && self.as_str() == other.as_str()
    }

    /// Drops what was written.
    pub(crate) fn clear(&mut self) {
        self.content.clear();
        self.is_short = false;
    }

    /// Records that memory ran out.
    pub fn fail(&mut self) {
        self.is_short = true;
    }

    /// Returns the text.
    ///
    /// # Errors
    ///
    /// Memory ran out for a piece of it.
    pub fn finish(self) -> Result<String, AllocError> {
        let Text {
            alloc: _,
            content,
            is_short,
        } = self;
        if is_short {
            Err(AllocError)
        } else {
            Ok(content)
        }
    }
}
