//! The lines of a header.
ghost use Rattle.std.specs.Prelude.{◌≡◌, ◌+◌, ◌≤◌, length};
ghost use Rattle.std.specs.List.{list_all, suffix_len};
ghost use Rattle.message_stream.specs.Field.{AreDigits, are_digits, ends_header, is_digit, is_length_name, isnt, length_in, number, number_of, own_name, trimmed};

/// The name of the field that names a length, in any case.
const NAME: &[u8] = b"content-length";

/// What ends a line.
const END: &[u8] = b"\r\n";

/// What ends a line too.
const FEED: &[u8] = b"\n";

/// The greatest length that is told from greater ones.
pub const MOST: usize = 1 << 40;

/// Whether a line is the last one of a header.
pub(crate) fn is_last(line: &[u8]) -> bool
    ensures { result ≡ ends_header line.now }
{
    line == END || line == FEED
}

/// Returns the length that a line of a header names, at most `MOST`.
pub(crate) fn length_in(line: &[u8]) -> Option<usize>
    ensures { result ≡ length_in line.now }
{
    let start = after_last(b':', line);
    let (name, _) = line.split_at(start.saturating_sub(1));
    let (_, value) = line.split_at(start);
    if names_length(name) {
        number_in(value)
    } else {
        None
    }
}

/// Whether a field has the name of that which names a length. A body may stand before it.
fn names_length(name: &[u8]) -> bool
    ensures { result ≡ is_length_name (own_name name.now) }
{
    let (_, own) = name.split_at(after_last(b'}', name));
    own.eq_ignore_ascii_case(NAME)
}

/// Returns where the text after the last byte that is this one begins.
fn after_last(byte: u8, text: &[u8]) -> usize
    ensures is { result + suffix_len (isnt byte) text.now ≡ length text.now }
    ensures bound { result ≤ length text.now }
{
    let mut start = text.len();
    'bytes: while start > 0 && text[start - 1] != byte {
        start -= 1;
    }
    start
}

/// Returns the number that the value of a field is.
#[tactic(auto, using(crate::proofs::Fields::digits_are))]
fn number_in(value: &[u8]) -> Option<usize>
    ensures { result ≡ number_of (trimmed value.now) }
{
    let digits = trimmed(value);
    if are_digits(digits) {
        Some(number(digits))
    } else {
        None
    }
}

/// Whether these are digits, one or more.
#[tactic(auto, using(crate::proofs::Fields::are_if, crate::proofs::Fields::none_if))]
fn are_digits(digits: &[u8]) -> bool
    ensures { result ≡ are_digits digits.now }
{
    if digits.is_empty() {
        false
    } else {
        all_digits(digits)
    }
}

/// Whether all of these are digits.
fn all_digits(digits: &[u8]) -> bool
    ensures { result ≡ list_all is_digit digits.now }
{
    digits.iter().all(|digit| is_digit(digit))
}

/// Whether a byte is a digit.
fn is_digit(byte: &u8) -> bool
    ensures { result ≡ is_digit byte.now }
{
    let byte = *byte;
    48 <= byte && byte <= 57
}

/// Returns a value without the blanks before it and after it.
fn trimmed(value: &[u8]) -> &[u8]
    ensures { result.now ≡ trimmed value.now }
{
    value.trim_ascii()
}

/// Returns the number that digits write, or `MOST` in place of a greater one.
fn number(digits: &[u8]) -> usize
    requires { AreDigits digits.now }
    ensures { result ≡ number digits.now }
{
    let mut number = 0;
    for digit in digits {
        number = (number * 10 + usize::from(*digit - b'0')).min(MOST);
    }
    number
}
