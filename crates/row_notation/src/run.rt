//! Runs the rows of files, and compares what they find with what they expect.

use crate::answer::Answer;
use crate::field_reader::FieldReader;
use crate::text::Text;
use std::alloc::Global;
use std::process::ExitCode;
use std::{env, fs, io, mem};

/// The end of the name of a file whose rows don't hold, so that a comparison is seen to fail.
const WRONG_ROWS: &str = "wrong.rows";

/// A word that rows begin with: what they do.
pub trait RowWord: Copy {
    /// Returns the word with this spelling, and the least number of fields of its rows.
    fn of(written: &str) -> Option<(Self, usize)>;

    /// Whether the fields are of the kinds that a row with this word needs.
    fn are_readable(self, fields: &[String]) -> bool;

    /// Whether the field at an index is expected. `least` is the least number of fields.
    fn is_expected(self, least: usize, place: usize) -> bool;

    /// Writes what is found for the fields of a row.
    fn push_found(self, answer: &mut Answer, fields: &[String]);
}

/// How many rows hold, fail and can't be read, and what is to be printed of those of a file.
#[derive(Drop)]
struct Report {
    hold: u64,
    fail: u64,
    unreadable: u64,
    /// Whether a row fails or can't be read that should hold.
    is_missed: bool,
    /// The lines about the rows of a file that fail or can't be read.
    lines: Text,
}

impl Report {
    /// Returns the report of no rows.
    fn new(alloc: Global) -> Self {
        Report {
            hold: 0,
            fail: 0,
            unreadable: 0,
            is_missed: false,
            lines: Text::new(alloc),
        }
    }

    /// Writes the place of a row that doesn't hold, and notes if it should hold.
    fn put_place(&mut self, (path, line): (&str, usize)) {
        self.lines.put(path);
        self.lines.put(":");
        self.lines.put_number(line);
        if !path.ends_with(WRONG_ROWS) {
            self.is_missed = true;
        }
    }

    /// Counts a row that can't be read, and writes that.
    fn miss(&mut self, place: (&str, usize)) {
        self.unreadable = self.unreadable.saturating_add(1);
        self.put_place(place);
        self.lines.put(": can't be read\n");
    }

    /// Compares what is found for a row with what it expects. Counts the row, and writes both if they
    /// differ.
    fn compare(&mut self, place: (&str, usize), expected: &Answer, found: &Answer) {
        if found.is_equal(expected) {
            self.hold = self.hold.saturating_add(1);
            return;
        }
        self.fail = self.fail.saturating_add(1);
        self.put_place(place);
        self.lines.put(": fails\n  expected: ");
        expected.put_to(&mut self.lines);
        self.lines.put("\n  found:    ");
        found.put_to(&mut self.lines);
        self.lines.put("\n");
    }
}

/// Runs a row with these fields, of which the first is its word.
fn run_row<W: RowWord>(report: &mut Report, place: (&str, usize), row: &[String], alloc: Global) {
    let Some((written, fields)) = row.split_first() else {
        return report.miss(place);
    };
    match W::of(written.as_str()) {
        Some((word, least)) if least <= fields.len() && word.are_readable(fields) => {
            run_word(report, place, fields, (word, least), alloc)
        }
        _ => report.miss(place),
    }
}

/// Runs a row with this word and with these fields, at least as many as it needs.
fn run_word<W: RowWord>(
    report: &mut Report,
    place: (&str, usize),
    fields: &[String],
    (word, least): (W, usize),
    alloc: Global,
) {
    let mut expected = Answer::new(alloc);
    for (index, field) in fields.iter().enumerate() {
        if word.is_expected(least, index) {
            expected.push(field.as_str());
        }
    }
    let mut found = Answer::new(alloc);
    word.push_found(&mut found, fields);
    report.compare(place, &expected, &found);
}

/// Runs the row that a reader has read, whose first line has this number; none, if that is 0.
fn end_row<W: RowWord>(report: &mut Report, reader: &FieldReader, path: &str, line: usize) {
    if line > 0 {
        match reader.fields() {
            Some(fields) => run_row::<W>(report, (path, line), fields, reader.alloc()),
            None => report.miss((path, line)),
        }
    }
    if reader.is_short() {
        report.lines.fail();
    }
}

/// Runs the rows of a text. A line that begins with a blank continues the row before it.
fn run_text<W: RowWord>(report: &mut Report, alloc: Global, path: &str, text: &str) {
    let mut reader = FieldReader::new(alloc);
    let mut row: usize = 0;
    for (index, line) in text.lines().enumerate() {
        if !line.is_empty() && !line.starts_with('#') {
            if !line.starts_with(' ') {
                end_row::<W>(report, &reader, path, row);
                reader.restart();
                row = index.saturating_add(1);
            }
            reader.read(line);
        }
    }
    end_row::<W>(report, &reader, path, row);
}

/// Runs the rows of a file, and prints those that fail or can't be read.
fn run_file<W: RowWord>(rt: &HostRuntime, path: &str, report: &mut Report) -> io::Result<()> {
    match fs::read_to_string(rt, path) {
        Ok(text) => run_text::<W>(report, rt.alloc(), path, text.as_str()),
        Err(error) => return Err(error),
    }
    print_lines(rt, report)
}

/// Prints the lines of a report, and drops them.
fn print_lines(rt: &HostRuntime, report: &mut Report) -> io::Result<()> {
    let lines = mem::replace(&mut report.lines, Text::new(rt.alloc()));
    match lines.finish() {
        Ok(lines) => print!(rt; "{lines}"),
        Err(error) => Err(io::Error::from(error)),
    }
}

/// Runs the rows of the files that the program's arguments name. Prints those that fail or can't be
/// read, and at the end how many hold, fail and can't be read. Returns the exit status 1 if one that
/// doesn't hold is in a file other than `wrong.rows`, else 0.
///
/// # Errors
///
/// A file can't be read, a line can't be printed, or memory ran out.
pub fn run_rows<W: RowWord>(rt: &HostRuntime) -> io::Result<ExitCode> {
    let mut report = Report::new(rt.alloc());
    for path in env::args(rt)?.skip(1) {
        run_file::<W>(rt, path.as_str(), &mut report)?;
    }
    print_counts(rt, &report)?;
    Ok(if report.is_missed {
        ExitCode::FAILURE
    } else {
        ExitCode::SUCCESS
    })
}

/// Prints how many rows hold, fail and can't be read.
fn print_counts(rt: &HostRuntime, report: &Report) -> io::Result<()> {
    let (hold, fail, unreadable) = (report.hold, report.fail, report.unreadable);
    println!(rt; "{hold} rows hold, {fail} fail, {unreadable} can't be read")
}
