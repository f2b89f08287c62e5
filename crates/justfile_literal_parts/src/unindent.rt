//! A text without the indentation that its lines share.
ghost use Rattle.std.specs.Prelude.{◌≡◌, [], ◌∷◌, ◌++◌, false, true, IfOk, OnOk, drop, length, map, nat_eq, string_bytes};
ghost use Rattle.std.specs.List.{All, common_prefix_len, list_all, prefix_len};
ghost use Rattle.justfile_vocabulary.specs.Indentation.{is_space_or_tab};
ghost use Rattle.justfile_model.specs.LiteralTexts.Unindent.{IsFront, IsIndented, indentation, is_blank_line, is_white, joined, leading_blanks, kept_line_end, lines_of_text, later_lines, middle_line, outer_line, shared_front, unindented};

use std::alloc::{AllocError, Global};

/// Returns the text without the indentation that its lines share.
///
/// Lines of whitespace don't count for the indentation. Such a line is removed if it is the first
/// or the last one, and otherwise keeps its line end.
#[tactic(auto, using(crate::proofs::SharedFronts::all_indented), unfolding(justfile_model::specs::LiteralTexts::Unindent::unindented))]
pub fn unindent(alloc: Global, text: &str) -> Result<String, AllocError>
    ensures { IfOk result (λ answer. string_bytes answer ≡ unindented text.now) }
{
    let lines = split_lines(alloc, text)?;
    join_lines(alloc, lines.as_slice(), find_indentation(lines.as_slice()))
}

/// Returns the lines of the text, each with its line feed.
fn split_lines(alloc: Global, text: &str) -> Result<Vec<&str>, AllocError>
    ensures { IfOk result (λ found. map (λ line. line.now) found.items ≡ lines_of_text text.now) }
{
    text.split_inclusive('\n').collect(alloc)
}

/// Returns the unindented lines, concatenated.
fn join_lines(alloc: Global, lines: &[&str], run: &str) -> Result<String, AllocError>
    requires { All (λ line. IsIndented run.now line.now) lines.now }
    ensures { IfOk result (λ text. string_bytes text
        ≡ joined run.now (map (λ line. line.now) lines.now)) }
{
    let mut text = String::new(alloc);
    if let Some((first, rest)) = lines.split_first() {
        text.push_str(strip_outer_line(first, run))?;
        push_later_lines(&mut text, rest, run)?;
    }
    Ok(text)
}

/// Appends the unindented lines after the first one.
fn push_later_lines(text: &mut String, lines: &[&str], run: &str) -> Result<(), AllocError>
    requires { All (λ line. IsIndented run.now line.now) lines.now }
    ensures { OnOk result (string_bytes text.new
        ≡ string_bytes text.old ++ later_lines run.now (map (λ line. line.now) lines.now)) }
{
    let Some((last, middle)) = lines.split_last() else {
        return Ok(());
    };
    for line in middle {
        text.push_str(strip_middle_line(line, run))?;
    }
    text.push_str(strip_outer_line(last, run))
}

/// Returns the unindented line from the middle of the text. A blank line keeps its line end.
fn strip_middle_line<'text>(line: &'text str, run: &str) -> &'text str
    requires { IsIndented run.now line.now }
    ensures { result.now ≡ middle_line run.now line.now }
{
    if is_blank_line(line) {
        line_end(line)
    } else {
        strip_run(line, run)
    }
}

/// Returns the end of the line: a carriage return and a line feed, or a line feed alone.
#[tactic(auto, using(std::proofs::lemmas::Str::Pattern::ends_text))]
fn line_end(line: &str) -> &'static str
    ensures { result.now ≡ kept_line_end line.now }
{
    if line.ends_with("\r\n") { "\r\n" } else { "\n" }
}

/// Returns the unindented first or last line, which is empty if the line is blank.
fn strip_outer_line<'text>(line: &'text str, run: &str) -> &'text str
    requires { IsIndented run.now line.now }
    ensures { result.now ≡ outer_line run.now line.now }
{
    if is_blank_line(line) {
        ""
    } else {
        strip_run(line, run)
    }
}

/// Returns the line without the run of blanks at its start.
fn strip_run<'text>(line: &'text str, run: &str) -> &'text str
    requires { IsFront run.now line.now }
    ensures { result.now ≡ drop (length run.now) line.now }
{
    line.strip_prefix(run).unwrap_or(line)
}

/// Returns the longest run of blanks with which all lines begin, except blank ones.
fn find_indentation<'text>(lines: &[&'text str]) -> &'text str
    ensures { result.now ≡ indentation (map (λ line. line.now) lines.now) }
{
    let mut shared = None;
    for line in lines {
        if !is_blank_line(line) {
            let blanks = leading_blanks(line);
            shared = Some(match shared {
                None => blanks,
                Some(run) => take_shared_front(run, blanks),
            });
        }
    }
    shared.unwrap_or("")
}

/// Whether the line consists of whitespace.
fn is_blank_line(line: &str) -> bool
    ensures { result ≡ is_blank_line line.now }
{
    line.bytes().all(is_white)
}

/// Whether the byte is a space, a tab, a carriage return or a line feed.
fn is_white(byte: u8) -> bool
    ensures { result ≡ is_white byte }
{
    is_space_or_tab(byte) || matches!(byte, b'\r' | b'\n')
}

/// Returns the spaces and tabs at the start of the line.
fn leading_blanks(line: &str) -> &str
    ensures front { result.now ≡ leading_blanks line.now }
    ensures blank { list_all is_space_or_tab result.now ≡ true }
{
    line.split_at(blank_len(line)).0
}

/// Returns the number of spaces and tabs at the start of the line.
fn blank_len(line: &str) -> usize
    ensures { result ≡ prefix_len is_space_or_tab line.now }
{
    line.bytes()
        .take_while(|byte| is_space_or_tab(*byte))
        .count()
}

/// Whether the byte is a space or a tab.
fn is_space_or_tab(byte: u8) -> bool
    ensures { result ≡ is_space_or_tab byte }
{
    matches!(byte, b' ' | b'\t')
}

/// Returns the longest prefix of the run of blanks with which the other text begins, too.
fn take_shared_front<'text>(run: &'text str, other: &str) -> &'text str
    requires { list_all is_space_or_tab run.now ≡ true }
    ensures front { result.now ≡ shared_front run.now (other.now ∷ []) }
    ensures blank { list_all is_space_or_tab result.now ≡ true }
{
    run.split_at(shared_len(run, other)).0
}

/// Returns the number of bytes that the two texts share at their starts.
fn shared_len(text: &str, other: &str) -> usize
    ensures { result ≡ common_prefix_len nat_eq text.now other.now }
{
    text.bytes()
        .zip(other.bytes())
        .take_while(|(left, right)| left == right)
        .count()
}
