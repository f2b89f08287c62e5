//! Runs of the program `justfmt`.

use crate::word::Word;
use formatted::formatted_as_set;
use justfile_canonical::parts::format_parts;
use justfile_format::system::Justfmt;
use justfile_syntax::format::format_text;
use row_notation::{Answer, Stream, field_at, number_at, push_fault};
use std::alloc::{AllocError, Global};
use system_run::Program;

/// How many bytes a call reads or writes at most.
const MOST_BYTES: usize = 2;

/// The streams of a run.
#[derive(Drop)]
struct Streams<'row> {
    input: Stream<'row>,
    output: Stream<'row>,
    errors: Stream<'row>,
}

impl<'row> Streams<'row> {
    /// Makes the streams of a run with this standard input.
    fn new(alloc: Global, input: &'row [u8]) -> Self {
        Streams {
            input: Stream::new(alloc, input, MOST_BYTES),
            output: Stream::new(alloc, b"", MOST_BYTES),
            errors: Stream::new(alloc, b"", MOST_BYTES),
        }
    }

    /// Makes the named part of a run fail after `calls` calls, the last of which has at most
    /// `last_bytes` bytes.
    fn fail(&mut self, name: &str, calls: u32, last_bytes: usize) {
        match name {
            "reading" => self.input.fail_after(calls, last_bytes),
            "writing" => self.output.fail_after(calls, last_bytes),
            "flushing" => self.output.fails_at_flush = true,
            "reporting" => self.errors.fail_after(calls, last_bytes),
            _ => {}
        }
    }

    /// Whether a read or a write has failed.
    fn has_failed(&self) -> bool {
        self.input.has_failed || self.output.has_failed || self.errors.has_failed
    }

    /// Runs the program, and returns its exit status.
    fn run(&mut self, alloc: Global, arguments: &[String]) -> u8 {
        Justfmt::run(
            alloc,
            arguments,
            &mut self.input,
            &mut self.output,
            &mut self.errors,
        )
    }
}

/// Returns the arguments that a field lists, with blanks between them.
fn arguments(alloc: Global, listed: &str) -> Result<Vec<String>, AllocError> {
    let mut arguments = Vec::new(alloc);
    for argument in listed.split_whitespace() {
        arguments.push(argument.to_string(alloc)?)?;
    }
    Ok(arguments)
}

/// Runs the program with the arguments that a field lists, and returns its exit status.
fn run_over(answer: &mut Answer, listed: &str, streams: &mut Streams<'_>) -> u8 {
    match arguments(answer.alloc(), listed) {
        Ok(arguments) => streams.run(answer.alloc(), arguments.as_slice()),
        Err(_) => {
            answer.fail();
            0
        }
    }
}

/// Writes the status of a run, its output, and what it wrote to standard error.
fn push_run(answer: &mut Answer, listed: &str, streams: &mut Streams<'_>) {
    let status = run_over(answer, listed, streams);
    answer.push_number(status as usize);
    answer.push(streams.output.text());
    answer.push(streams.errors.text());
}

/// Writes `library` if `format_text` doesn't return the text or the lines that a run without
/// arguments writes.
fn push_library(answer: &mut Answer, source: &str, streams: &Streams<'_>) {
    let (output, errors) = (streams.output.text(), streams.errors.text());
    let is_same = match format_text(answer.alloc(), "justfile", source) {
        Ok(text) => text.as_str() == output && errors.is_empty(),
        Err(fault) => output.is_empty() && fault.lines() == errors,
    };
    answer.push_if("library", !is_same);
}

/// Writes the run of a row, in which the input, a stream or nothing fails.
pub(crate) fn runs(answer: &mut Answer, word: Word, fields: &[String]) {
    let is_run = word == Word::Run;
    let name = if is_run { "" } else { field_at(fields, 0) };
    let arguments_place = if is_run { 0 } else { 2 };
    let input = if name == "encoding" {
        b"\xff"
    } else {
        field_at(fields, arguments_place + 1).as_bytes()
    };
    let mut streams = Streams::new(answer.alloc(), input);
    streams.fail(name, number_at(fields, 1), MOST_BYTES);
    let listed = field_at(fields, arguments_place);
    push_run(answer, listed, &mut streams);
    if is_run && listed.is_empty() {
        push_library(answer, field_at(fields, 1), &streams);
    }
}

/// How many calls fail in turn at most.
const MOST_CALLS: u32 = 100_000;

/// Runs a row once for each call of the named part, with that call failing, at once and after one
/// byte. Writes what the first run leaves, and what other runs leave if it differs.
pub(crate) fn breaks_each(answer: &mut Answer, fields: &[String]) {
    let mut plain = Streams::new(answer.alloc(), field_at(fields, 2).as_bytes());
    run_over(answer, field_at(fields, 1), &mut plain);
    let mut first = Answer::new(answer.alloc());
    break_at(&mut first, fields, &plain, 0, MOST_BYTES);
    answer.push_all(&first);
    for calls in 0..MOST_CALLS {
        for last_bytes in 1..=MOST_BYTES {
            let mut found = Answer::new(answer.alloc());
            if !break_at(&mut found, fields, &plain, calls, last_bytes) {
                return;
            }
            answer.push_unless("apart", &found, &first);
        }
    }
}

/// Runs a row with a call failing after `calls` others. Writes what the run leaves, and returns
/// whether a call failed.
fn break_at(
    answer: &mut Answer,
    fields: &[String],
    plain: &Streams<'_>,
    calls: u32,
    last_bytes: usize,
) -> bool {
    let mut streams = Streams::new(answer.alloc(), field_at(fields, 2).as_bytes());
    streams.fail(field_at(fields, 0), calls, last_bytes);
    let status = run_over(answer, field_at(fields, 1), &mut streams);
    answer.push_number(status as usize);
    push_begun(answer, "output", &streams.output, &plain.output);
    if streams.errors.has_failed {
        push_begun(answer, "errors", &streams.errors, &plain.errors);
    } else {
        answer.push(streams.errors.text());
    }
    streams.has_failed()
}

/// Writes a word if what was written to a stream isn't a beginning of what is written to it if
/// nothing fails.
fn push_begun(answer: &mut Answer, word: &str, stream: &Stream<'_>, plain: &Stream<'_>) {
    answer.push_if(word, !plain.written.starts_with(&stream.written));
}

/// Writes what a text is formatted to. Then writes what else the run leaves, and what goes wrong if
/// the result is formatted or checked again.
pub(crate) fn formats(answer: &mut Answer, source: &str) {
    let mut streams = Streams::new(answer.alloc(), source.as_bytes());
    let status = run_over(answer, "", &mut streams);
    let printed = streams.output.text();
    answer.push(printed);
    push_rest(answer, status, &streams);
    push_library(answer, source, &streams);
    push_caller(answer, source, printed);
    push_parts(answer, source, printed);
    push_again(answer, "", printed, printed);
    push_again(answer, "--check", printed, "");
}

/// Writes `caller` if `formatted_as_set` returns another text than this.
fn push_caller(answer: &mut Answer, source: &str, expected: &str) {
    match formatted_as_set(answer.alloc(), source) {
        Ok(text) => answer.push_if("caller", text.as_str() != expected),
        Err(fault) => push_fault(answer, source, &fault),
    }
}

/// Writes `parts` if `format_parts` returns another text than this, where each part is as short as
/// it can be.
fn push_parts(answer: &mut Answer, source: &str, expected: &str) {
    if let Some(text) = format_parts(answer.alloc(), source, 1) {
        answer.push_if("parts", text.as_str() != expected);
    }
}

/// Runs the program over a formatted text, and writes what it does besides writing the expected
/// text.
fn push_again(answer: &mut Answer, argument: &str, formatted: &str, expected: &str) {
    let mut streams = Streams::new(answer.alloc(), formatted.as_bytes());
    let status = run_over(answer, argument, &mut streams);
    let written = streams.output.text();
    answer.push_if("unsettled", written != expected);
    push_rest(answer, status, &streams);
}

/// Writes the status of a run if it isn't 0, and what it wrote to standard error if it wrote
/// anything.
fn push_rest(answer: &mut Answer, status: u8, streams: &Streams<'_>) {
    if status != 0 {
        answer.push_number(status as usize);
    }
    let errors = streams.errors.text();
    answer.push_if(errors, !errors.is_empty());
}
