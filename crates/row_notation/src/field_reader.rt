//! Reads the fields of a line.

use crate::text::Text;
use std::alloc::Global;
use std::mem;

/// What comes before the next character.
#[derive(Clone, Copy)]
enum State {
    /// A blank, or nothing.
    Blank,
    /// A field without quotes.
    Word,
    /// A text in quotes that isn't closed yet.
    Text,
    /// The closing quote.
    Closed,
    /// A backslash in a text.
    Backslash,
    /// A backslash in a text at the end of a line.
    Continued,
    /// The `u` of an escape with a number.
    Mark,
    /// The digits of a character's number.
    Code(u32),
    /// The digits of how many times a piece is repeated.
    Count(u32),
    /// The piece that is repeated this many times.
    Piece(u32),
    /// A character that no field allows there.
    Unreadable,
}

/// The fields read so far, and the one that is being read.
#[derive(Drop)]
pub(crate) struct FieldReader {
    alloc: Global,
    state: State,
    field: Text,
    piece: Text,
    fields: Vec<String>,
    is_short: bool,
}

impl FieldReader {
    /// Returns a reader that has read nothing.
    pub(crate) fn new(alloc: Global) -> Self {
        FieldReader {
            alloc,
            state: State::Blank,
            field: Text::new(alloc),
            piece: Text::new(alloc),
            fields: Vec::new(alloc),
            is_short: false,
        }
    }

    /// Reads a line. Its end also ends a field, except a text that ends with a backslash there.
    pub(crate) fn read(&mut self, line: &str) {
        for character in line.chars() {
            self.state = self.take(character);
        }
        self.state = self.end_line();
    }

    /// Returns the state after the end of a line.
    fn end_line(&mut self) -> State {
        if let State::Backslash = self.state {
            return State::Continued;
        }
        match self.take(' ') {
            State::Blank => State::Blank,
            _ => State::Unreadable,
        }
    }

    /// Drops what was read, to read another row.
    pub(crate) fn restart(&mut self) {
        self.state = State::Blank;
        self.field.clear();
        self.piece.clear();
        self.fields.clear();
    }

    /// Returns the allocator of the fields.
    pub(crate) fn alloc(&self) -> Global {
        self.alloc
    }

    /// Whether memory ran out.
    pub(crate) fn is_short(&self) -> bool {
        self.is_short
    }

    /// Returns the fields, or `None` if they can't be read.
    pub(crate) fn fields(&self) -> Option<&[String]> {
        match self.state {
            State::Blank => Some(self.fields.as_slice()),
            _ => None,
        }
    }

    /// Takes a character, and returns the state after it.
    fn take(&mut self, character: char) -> State {
        match self.state {
            State::Blank => self.take_blank(character),
            State::Word => self.take_word(character),
            State::Text => self.take_text(character),
            State::Closed => self.take_end_of_text(character),
            State::Backslash => self.take_escape(character),
            State::Continued => self.take_continuation(character),
            State::Mark => take_brace(character),
            State::Code(code) => self.take_digit(code, character),
            State::Count(count) => take_count(count, character),
            State::Piece(count) => self.take_piece(count, character),
            State::Unreadable => State::Unreadable,
        }
    }

    /// Takes a character before the next field.
    fn take_blank(&mut self, character: char) -> State {
        match character {
            ' ' | '\t' => State::Blank,
            '«' => State::Text,
            _ => self.take_word(character),
        }
    }

    /// Takes a character of a word, or the blank after it.
    fn take_word(&mut self, character: char) -> State {
        match character {
            ' ' | '\t' => self.end_field(),
            '«' | '»' => State::Unreadable,
            _ => self.put(character, State::Word),
        }
    }

    /// Takes a character of a text, or one with a meaning of its own in texts.
    fn take_text(&mut self, character: char) -> State {
        match character {
            '»' => State::Closed,
            '«' => State::Unreadable,
            '\\' => State::Backslash,
            _ => self.put(character, State::Text),
        }
    }

    /// Takes a character at the front of a line on which a text goes on. Blanks there don't belong
    /// to the text.
    fn take_continuation(&mut self, character: char) -> State {
        match character {
            ' ' | '\t' => State::Continued,
            _ => self.take_text(character),
        }
    }

    /// Takes the blank that has to follow a text.
    fn take_end_of_text(&mut self, character: char) -> State {
        match character {
            ' ' | '\t' => self.end_field(),
            _ => State::Unreadable,
        }
    }

    /// Takes the character after a backslash.
    fn take_escape(&mut self, character: char) -> State {
        match character {
            'n' => self.put('\n', State::Text),
            'r' => self.put('\r', State::Text),
            't' => self.put('\t', State::Text),
            '\\' => self.put('\\', State::Text),
            'u' => State::Mark,
            _ => take_first_digit(character),
        }
    }

    /// Takes a digit of a character's number, or the brace that ends it.
    fn take_digit(&mut self, code: u32, character: char) -> State {
        if let Some(digit) = character.to_digit(16) {
            return State::Code(code.saturating_mul(16).saturating_add(digit));
        }
        match char::from_u32(code) {
            Some(coded) if character == '}' => self.put(coded, State::Text),
            _ => State::Unreadable,
        }
    }

    /// Takes a character of a repeated piece, or the bracket that ends it.
    fn take_piece(&mut self, count: u32, character: char) -> State {
        if character != '›' {
            self.piece.put_character(character);
            return State::Piece(count);
        }
        let piece = mem::replace(&mut self.piece, Text::new(self.alloc));
        for _ in 0..count {
            self.field.put_text(&piece);
        }
        State::Text
    }

    /// Appends a character to the field, and returns `state`.
    fn put(&mut self, character: char, state: State) -> State {
        self.field.put_character(character);
        state
    }

    /// Ends a field, and begins the next one.
    fn end_field(&mut self) -> State {
        let field = mem::replace(&mut self.field, Text::new(self.alloc));
        match field.finish() {
            Ok(field) => self.push(field),
            Err(_) => self.is_short = true,
        }
        State::Blank
    }

    fn push(&mut self, field: String) {
        if self.fields.push(field).is_err() {
            self.is_short = true;
        }
    }
}

/// Returns the state after the character that follows `\u`.
fn take_brace(character: char) -> State {
    if character == '{' {
        State::Code(0)
    } else {
        State::Unreadable
    }
}

/// Returns the state after the first digit of a count.
fn take_first_digit(character: char) -> State {
    match character.to_digit(10) {
        Some(digit) => State::Count(digit),
        None => State::Unreadable,
    }
}

/// Returns the state after a character in a count: a further digit, or the bracket that ends it.
fn take_count(count: u32, character: char) -> State {
    match character.to_digit(10) {
        Some(digit) => State::Count(count.saturating_mul(10).saturating_add(digit)),
        None if character == '‹' => State::Piece(count),
        None => State::Unreadable,
    }
}
