//! The next token at the start of a line, where levels open, continue and close.
ghost use Rattle.std.specs.Prelude.{◌≡◌, ◌<◌, ◌&&◌, nat_eq, length, None};
ghost use Rattle.std.specs.List.{starts_with};
ghost use Rattle.std.specs.Result.{result_ok};
ghost use Rattle.justfile_model.specs.Lexing.Bytes.{blank_len};
ghost use Rattle.justfile_model.specs.Lexing.Next.{end_token, blanks_or, tested_blanks, begins_blank_line, layout, at_line_start, next};
ghost use Rattle.justfile_scan.specs.Layouts.{indent};
ghost use Rattle.justfile_scan.specs.Modes.{mode_of};
ghost use Rattle.justfile_scan.specs.Scanned.{found_of};
ghost use Rattle.justfile_scan.specs.WhiteRun.{IsRunOf};

use crate::bytes::{begins_with, blank_len, is_line_end, is_mixed, skip, take_blanks};
use crate::mode::Mode;
use crate::scan::scan_within_line;
use crate::scan_error::Scanned;
use crate::white_run::WhiteRun;
use justfile_vocabulary::TokenKind;

/// Scans the next token.
#[tactic(auto, unfolding(justfile_model::specs::Lexing::Next::next))]
pub fn scan_token(mode: &Mode, run: &mut WhiteRun, rest: &str) -> Scanned
    requires closed { length rest.now ≡ 0 → (mode_of mode.now).interpolation ≡ None }
    requires run { IsRunOf rest.now run.old }
    ensures found { found_of result ≡ result_ok (next (mode_of mode.now) rest.now) }
    ensures run { IsRunOf rest.now run.new }
{
    if rest.is_empty() {
        scan_end(mode)
    } else if mode.line_start {
        scan_line_start(mode, run, rest)
    } else {
        scan_within_line(mode, rest)
    }
}

/// Scans the token at the end of the text, if no interpolation is open: a dedent or `Eof`.
fn scan_end(mode: &Mode) -> Scanned
    requires { (mode_of mode.now).interpolation ≡ None }
    ensures { found_of result ≡ result_ok (end_token (mode_of mode.now)) }
{
    if mode.no_level() {
        Scanned::token(TokenKind::Eof, 0)
    } else {
        Scanned::token(TokenKind::Dedent, 0)
    }
}

/// Scans the token at the start of a line.
#[tactic(auto, unfolding(justfile_model::specs::Lexing::Next::layout))]
fn scan_line_start(mode: &Mode, run: &mut WhiteRun, rest: &str) -> Scanned
    requires some { 0 < length rest.now }
    requires run { IsRunOf rest.now run.old }
    ensures found { found_of result ≡ result_ok (at_line_start (mode_of mode.now) rest.now) }
    ensures run { IsRunOf rest.now run.new }
{
    let bytes = rest.as_bytes();
    let length = blank_len(bytes);
    let found = take_blanks(rest, length);
    let level = mode.level();
    let after_blanks = skip(bytes, length);
    if mode.is_nested() {
        return scan_blanks(found.len(), mode, rest);
    }
    if is_blank_line(after_blanks) {
        if !mode.no_level() && run.closes_levels(bytes) {
            return Scanned::token(TokenKind::Dedent, 0);
        }
        return scan_blanks(found.len(), mode, rest);
    }
    if found == level {
        return scan_blanks(found.len(), mode, rest);
    }
    if mode.is_level(found) {
        return Scanned::token(TokenKind::Dedent, 0);
    }
    if continues_body(mode, found, level) {
        return scan_blanks(level.len(), mode, rest);
    }
    scan_indent(mode, found)
}

/// Scans a run of `count` blanks, or the next token if `count` is 0.
#[inline(always)]
fn scan_blanks(count: usize, mode: &Mode, rest: &str) -> Scanned
    requires { 0 < length rest.now }
    ensures { found_of result ≡ result_ok (blanks_or count (mode_of mode.now) rest.now) }
{
    if count == 0 {
        scan_within_line(mode, rest)
    } else {
        Scanned::token(TokenKind::Whitespace, count)
    }
}

/// Whether a line end or the end of the text is at the start.
fn is_blank_line(rest: &[u8]) -> bool
    ensures { result ≡ begins_blank_line rest.now }
{
    is_line_end(rest) || rest.is_empty()
}

/// Whether a line in a body begins with the level.
fn continues_body(mode: &Mode, found: &str, level: &str) -> bool
    ensures { result ≡ ((mode_of mode.now).in_body && starts_with nat_eq found.now level.now) }
{
    mode.in_body && begins_with(found.as_bytes(), level.as_bytes())
}

/// Scans an indent, for blanks that aren't a level and don't continue a body. There is no token if
/// they mix spaces and tabs, or don't begin with the level.
fn scan_indent(mode: &Mode, found: &str) -> Scanned
    requires { blank_len found.now ≡ length found.now }
    ensures { found_of result ≡ result_ok (indent (mode_of mode.now) found.now) }
{
    let level = mode.level();
    let tested_blanks = take_tested_blanks(mode, found);
    if is_mixed(tested_blanks.as_bytes()) {
        return Scanned::nothing();
    }
    if !begins_with(found.as_bytes(), level.as_bytes()) {
        return Scanned::nothing();
    }
    Scanned::token(TokenKind::Indent, found.len())
}

/// Returns the leading blanks that can't mix spaces and tabs: in a body, only as many as the level
/// has.
pub fn take_tested_blanks<'src>(mode: &Mode, found: &'src str) -> &'src str
    requires { blank_len found.now ≡ length found.now }
    ensures { result.now ≡ tested_blanks (mode_of mode.now) found.now }
{
    if mode.in_body {
        take_blanks(found, mode.level().len().min(found.len()))
    } else {
        found
    }
}
