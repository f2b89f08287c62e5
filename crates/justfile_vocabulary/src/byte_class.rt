//! The classes of bytes by which the lexer branches.
ghost use Rattle.std.specs.Prelude.{◌≡◌};
ghost use Rattle.justfile_vocabulary.specs.ByteClass.{class_of};

use self::ByteClass::{
    Blank, CarriageReturn as Return, Closer, Fixed, IdentifierContinue as Continue,
    IdentifierStart as Start, Lead, LineFeed, Opener, Other, Quote,
};

/// The class of a byte: what may begin with it.
#[derive(Clone, Copy, Debug, PartialEq, Eq)]
pub enum ByteClass {
    /// A space or a tab.
    Blank,
    LineFeed,
    CarriageReturn,
    /// A letter or `_`, which begins a name.
    IdentifierStart,
    /// A digit or `-`, which continues a name and can't begin one.
    IdentifierContinue,
    /// A quote or a backtick, which begins a literal.
    Quote,
    /// An opening delimiter.
    Opener,
    /// A closing delimiter.
    Closer,
    /// The first byte of a token of fixed text that isn't a delimiter, such as an operator.
    Fixed,
    /// The first byte of a character of several bytes.
    Lead,
    /// Any other byte. Two of these begin a token: `#` a comment, and `\` an escaped line end.
    Other,
}

/// The class of each byte, in rows of sixteen.
static CLASSES: [ByteClass; 256] = [
    // 0x00 to 0x0F: control characters, among them the tab, the line feed and the carriage return.
    Other, Other, Other, Other, Other, Other, Other, Other, Other, Blank, LineFeed, Other, Other,
    Return, Other, Other,
    // 0x10 to 0x1F: control characters.
    Other, Other, Other, Other, Other, Other, Other, Other, Other, Other, Other, Other, Other,
    Other, Other, Other,
    // 0x20 to 0x2F: the space and `! " # $ % & ' ( ) * + , - . /`.
    Blank, Fixed, Quote, Other, Fixed, Other, Fixed, Quote, Opener, Closer, Fixed, Fixed, Fixed,
    Continue, Other, Fixed,
    // 0x30 to 0x3F: the digits and `: ; < = > ?`.
    Continue, Continue, Continue, Continue, Continue, Continue, Continue, Continue, Continue,
    Continue, Fixed, Other, Other, Fixed, Other, Fixed,
    // 0x40 to 0x4F: `@` and the capitals `A` to `O`.
    Fixed, Start, Start, Start, Start, Start, Start, Start, Start, Start, Start, Start, Start,
    Start, Start, Start,
    // 0x50 to 0x5F: the capitals `P` to `Z` and `[ \ ] ^ _`.
    Start, Start, Start, Start, Start, Start, Start, Start, Start, Start, Start, Opener, Other,
    Closer, Other, Start,
    // 0x60 to 0x6F: the backtick and the letters `a` to `o`.
    Quote, Start, Start, Start, Start, Start, Start, Start, Start, Start, Start, Start, Start,
    Start, Start, Start,
    // 0x70 to 0x7F: the letters `p` to `z`, `{ | } ~` and the last control character.
    Start, Start, Start, Start, Start, Start, Start, Start, Start, Start, Start, Opener, Fixed,
    Closer, Other, Other,
    // 0x80 to 0x8F: later bytes of a character of several bytes.
    Other, Other, Other, Other, Other, Other, Other, Other, Other, Other, Other, Other, Other,
    Other, Other, Other,
    // 0x90 to 0x9F: later bytes of a character of several bytes.
    Other, Other, Other, Other, Other, Other, Other, Other, Other, Other, Other, Other, Other,
    Other, Other, Other,
    // 0xA0 to 0xAF: later bytes of a character of several bytes.
    Other, Other, Other, Other, Other, Other, Other, Other, Other, Other, Other, Other, Other,
    Other, Other, Other,
    // 0xB0 to 0xBF: later bytes of a character of several bytes.
    Other, Other, Other, Other, Other, Other, Other, Other, Other, Other, Other, Other, Other,
    Other, Other, Other,
    // 0xC0 to 0xCF: 0xC0 and 0xC1, which never occur in UTF-8, and first bytes of characters of two
    // bytes.
    Other, Other, Lead, Lead, Lead, Lead, Lead, Lead, Lead, Lead, Lead, Lead, Lead, Lead, Lead,
    Lead,
    // 0xD0 to 0xDF: first bytes of characters of two bytes.
    Lead, Lead, Lead, Lead, Lead, Lead, Lead, Lead, Lead, Lead, Lead, Lead, Lead, Lead, Lead, Lead,
    // 0xE0 to 0xEF: first bytes of characters of three bytes.
    Lead, Lead, Lead, Lead, Lead, Lead, Lead, Lead, Lead, Lead, Lead, Lead, Lead, Lead, Lead, Lead,
    // 0xF0 to 0xFF: first bytes of characters of four bytes, and from 0xF5 on bytes that never
    // occur in UTF-8.
    Lead, Lead, Lead, Lead, Lead, Other, Other, Other, Other, Other, Other, Other, Other, Other,
    Other, Other,
];

/// Returns the class of a byte.
pub fn byte_class(byte: u8) -> ByteClass
    ensures { result ≡ class_of byte }
{
    CLASSES[byte as usize]
}
