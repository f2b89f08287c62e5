//! Examples of texts with escapes and indentation, checked by computation: their values, or why
//! they are invalid.
ghost use Rattle.std.specs.Prelude.{◌≡◌, [], ◌∷◌, codes};
ghost use Rattle.justfile_model.specs.LiteralTexts.Cook.{Cooks, Refused};
ghost use Rattle.justfile_model.specs.LiteralTexts.EscapeFault.{InvalidEscapeSequence, UnicodeEscapeCharacter, UnicodeEscapeDelimiter, UnicodeEscapeEmpty, UnicodeEscapeLength, UnicodeEscapeRange, UnicodeEscapeUnterminated};
ghost use Rattle.justfile_model.specs.LiteralTexts.Unindent.{unindented};

/// All escapes.
pub fn cooked()
    ensures empty { Cooks [] [] }
    ensures plain { Cooks (97 ∷ 195 ∷ 169 ∷ []) (97 ∷ 195 ∷ 169 ∷ []) }
    ensures line_feed { Cooks (codes "a\\nb") (codes "a\nb") }
    ensures carriage_return { Cooks (codes "\\r") (codes "\r") }
    ensures tab { Cooks (codes "\\t") (codes "\t") }
    ensures backslash { Cooks (codes "\\\\n") (codes "\\n") }
    ensures quote { Cooks (codes "\\\"") (codes "\"") }
    ensures joined { Cooks (codes "a\\\nb") (codes "ab") }
    ensures joined_crlf { Cooks (codes "a\\\r\nb") (codes "ab") }
    ensures one_digit { Cooks (codes "\\u{9}") (codes "\t") }
    ensures two_digits { Cooks (codes "\\u{41}b") (codes "Ab") }
    ensures six_digits { Cooks (codes "\\u{00e9}\\u{10FFff}")
        (195 ∷ 169 ∷ 244 ∷ 143 ∷ 191 ∷ 191 ∷ []) }
    ensures raw_braces { Cooks (codes "u{41}") (codes "u{41}") }
{}

/// All faults.
pub fn refused()
    ensures unknown { Refused (codes "a\\nb\\q") (InvalidEscapeSequence 113) }
    ensures unknown_two_bytes { Refused (92 ∷ 195 ∷ 169 ∷ []) (InvalidEscapeSequence 233) }
    ensures lone_return { Refused (codes "\\\ra") (InvalidEscapeSequence 13) }
    ensures lone_return_at_end { Refused (codes "\\\r") (InvalidEscapeSequence 13) }
    ensures no_brace { Refused (codes "\\u41") (UnicodeEscapeDelimiter 52) }
    ensures empty { Refused (codes "\\u{}") UnicodeEscapeEmpty }
    ensures no_digit { Refused (codes "\\u{g}") (UnicodeEscapeCharacter 103) }
    ensures after_digits { Refused (codes "\\u{123456 }") (UnicodeEscapeCharacter 32) }
    ensures seven_digits { Refused (codes "\\u{1234567}") (UnicodeEscapeLength (codes "1234567")) }
    ensures eight_digits { Refused (codes "\\u{12345678") (UnicodeEscapeLength (codes "1234567")) }
    ensures surrogate { Refused (codes "\\u{D800}") (UnicodeEscapeRange (codes "D800")) }
    ensures too_great { Refused (codes "\\u{110000}") (UnicodeEscapeRange (codes "110000")) }
    ensures backslash_at_end { Refused (codes "\\") UnicodeEscapeUnterminated }
    ensures u_at_end { Refused (codes "a\\u") UnicodeEscapeUnterminated }
    ensures brace_at_end { Refused (codes "\\u{") UnicodeEscapeUnterminated }
    ensures digits_at_end { Refused (codes "\\u{123456") UnicodeEscapeUnterminated }
    ensures first_decides { Refused (codes "\\q\\u{}") (InvalidEscapeSequence 113) }
{}

/// A blank first or last line is removed, but not the line end before the last line.
#[tactic(auto, unfolding(justfile_model::specs::LiteralTexts::Unindent::unindented))]
pub fn outer_lines()
    ensures empty { unindented [] ≡ [] }
    ensures first { unindented (codes "\n  foo\n    bar\n") ≡ codes "foo\n  bar\n" }
    ensures last { unindented (codes "\n  a\n  ") ≡ codes "a\n" }
    ensures one_of_two { unindented (codes "  foo\n  bar\n\n") ≡ codes "foo\nbar\n" }
    ensures both { unindented (codes "\n          hello\n          bar\n        ")
        ≡ codes "hello\nbar\n" }
    ensures one_of_each { unindented (codes "\n\n          hello\n          bar\n\n        ")
        ≡ codes "\nhello\nbar\n\n" }
    ensures only_line { unindented (codes " \t\r\n") ≡ [] }
{}

/// A blank line in the middle keeps its line end. Its blanks don't count for the indentation.
#[tactic(auto, unfolding(justfile_model::specs::LiteralTexts::Unindent::unindented))]
pub fn middle_lines()
    ensures shorter_and_longer { unindented (codes "  a\n    \n \r\n  b") ≡ codes "a\n\n\r\nb" }
    ensures all_blank { unindented (codes " \n  \r\n\n") ≡ codes "\r\n" }
    ensures two_returns { unindented (codes "a\n\r\r\nb") ≡ codes "a\n\r\nb" }
    ensures lone_return { unindented (codes "  a\r  \n \r\n") ≡ codes "a\r  \n" }
    ensures crlf { unindented (codes "  foo\r\n\r\n  bar\r\n") ≡ codes "foo\r\n\r\nbar\r\n" }
{}

/// The run of spaces and tabs that the other lines share is removed.
#[tactic(auto, unfolding(justfile_model::specs::LiteralTexts::Unindent::unindented))]
pub fn shared_runs()
    ensures none { unindented (codes "foo\nbar\nbaz\n") ≡ codes "foo\nbar\nbaz\n" }
    ensures one_line { unindented (codes "foo") ≡ codes "foo" }
    ensures not_shared { unindented (codes "hello\n  bar\n  foo") ≡ codes "hello\n  bar\n  foo" }
    ensures equal { unindented (codes "  foo\n  bar") ≡ codes "foo\nbar" }
    ensures mixed { unindented (codes "  a\n\tb") ≡ codes "  a\n\tb" }
    ensures front { unindented (codes "\t  a\n\t b\n") ≡ codes " a\nb\n" }
{}
