//! What the arguments ask for.
ghost use Rattle.std.specs.Prelude.{◌≡◌, IfOk, Some, string_bytes};
ghost use Rattle.justfile_files.specs.declared.request.Task.TheVariants.{Check};
ghost use Rattle.justfile_files.specs.Request.{after_in_place, after_list, asked, changes_files, first_option, fits_stream, given_names, in_place, is_option, linted, misuse_lines, named, names_of, options_of, replacing, request_of, shown_misuse, shown_option, shown_request, stream_of, subject_of, texts, what_is_wrong, without};

use crate::visible::visible_name;
use std::alloc::{AllocError, Global};

/// The name of standard input in messages, if the arguments give it none.
pub const NAME: &str = "justfile";

/// What is done with each file.
#[derive(Clone, Copy, Debug, PartialEq, Eq)]
pub enum Task {
    /// The file is replaced by its formatted text.
    Format,
    /// The file is replaced by its formatted text, and its name is written if that changes it.
    FormatAndName,
    /// The file's name is written if the file isn't formatted.
    Check,
    /// The changes that formatting would make are written.
    Diff,
}

/// How a file gets its formatted text.
#[derive(Clone, Copy, Debug, PartialEq, Eq)]
pub enum Writing {
    /// A new file takes its place, where nothing is lost by that, as far as it can be seen.
    Replace,
    /// The text is written into the file itself, which keeps all that it has besides.
    InPlace,
}

/// What is done with each file, and how.
#[derive(Clone, Copy, Debug)]
pub struct Options {
    pub task: Task,
    pub writing: Writing,
}

/// What the arguments ask for.
#[derive(Clone, Copy, Debug)]
pub enum Request<'a> {
    /// What the program does and how it is called.
    Help,
    /// Which version it is.
    Version,
    /// The task with the files and folders of these names. There is at least one.
    Files(Options, &'a [String]),
    /// The task with the justfile that `just` would find.
    Nearest(Options),
    /// The task with standard input, which has this name in messages.
    Stream(Task, &'a str),
    /// What is wrong with texts.
    Lint(Subject<'a>),
}

/// The texts of which it is asked what is wrong with them.
#[derive(Clone, Copy, Debug)]
pub enum Subject<'a> {
    /// The files and folders of these names. There is at least one.
    Files(&'a [String]),
    /// The justfile that `just` would find.
    Nearest,
    /// Standard input, which has this name in messages.
    Stream(&'a str),
}

/// Why arguments ask for nothing.
#[derive(Clone, Copy, Debug)]
pub enum Misuse<'a> {
    /// This one doesn't fit.
    Unexpected(&'a str),
    /// After the last one another is missing.
    Incomplete,
}

impl Task {
    /// Whether files are replaced by their formatted texts.
    pub fn changes_files(self) -> bool
        ensures { result ≡ changes_files self }
    {
        match self {
            Task::Format => true,
            Task::FormatAndName => true,
            Task::Check => false,
            Task::Diff => false,
        }
    }
}

/// Returns what the arguments ask for, which have one of the forms `--help`, `--version`,
/// `OPTIONS NAME..`, `OPTIONS -- NAME..`, `OPTIONS` and `OPTIONS [--name FILE] -`. The options are
/// `--check`, `--diff`, `--lint`, `--list` or `--in-place`, or `--list` and one of `--check` and
/// `--in-place`. A name that begins with `-` comes after `--`.
///
/// # Errors
///
/// They have another form.
pub fn request_in(arguments: &[String]) -> Result<Request<'_>, Misuse<'_>>
    ensures { shown_request result ≡ request_of (texts arguments.now) }
{
    let [first, rest @ ..] = arguments else {
        return Ok(Request::Nearest(replacing(Task::Format)));
    };
    if first.as_str() == "--help" || first.as_str() == "-h" {
        return Ok(Request::Help);
    }
    if first.as_str() == "--version" || first.as_str() == "-V" {
        return Ok(Request::Version);
    }
    if first.as_str() == "--lint" {
        return lint_in(rest);
    }
    let (options, words) = options_in(arguments);
    subject_in(options, words)
}

/// Returns what the words after `--lint` ask for: what they would ask for after `--check`, with what
/// is wrong in place of the task.
#[tactic(auto, using(crate::proofs::RequestLemmas::linted_misuse))]
fn lint_in(words: &[String]) -> Result<Request<'_>, Misuse<'_>>
    ensures { shown_request result ≡ linted (subject_of (replacing Check) (texts words.now)) }
{
    match subject_in(replacing(Task::Check), words) {
        Ok(request) => Ok(linted(request)),
        Err(misuse) => Err(misuse),
    }
}

/// Returns the request for what is wrong, in place of one for a task.
fn linted(request: Request<'_>) -> Request<'_>
    ensures { asked result ≡ linted (asked request.entry) }
{
    match request {
        Request::Files(_, names) => Request::Lint(Subject::Files(names)),
        Request::Nearest(_) => Request::Lint(Subject::Nearest),
        Request::Stream(_, name) => Request::Lint(Subject::Stream(name)),
        Request::Help => Request::Help,
        Request::Version => Request::Version,
        Request::Lint(subject) => Request::Lint(subject),
    }
}

/// Returns the options to do a task by replacing files, if it changes any.
fn replacing(task: Task) -> Options
    ensures { result ≡ replacing task }
{
    Options {
        task,
        writing: Writing::Replace,
    }
}

/// Returns the options to do a task by writing into the files themselves.
fn in_place(task: Task) -> Options
    ensures { result ≡ in_place task }
{
    Options {
        task,
        writing: Writing::InPlace,
    }
}

/// Returns the options that the first words are, and the words after them.
fn options_in(words: &[String]) -> (Options, &[String])
    ensures options { result.0 ≡ (options_of (texts words.now)).0 }
    ensures rest { texts result.1.now ≡ (options_of (texts words.now)).1 }
{
    let [first, rest @ ..] = words else {
        return (replacing(Task::Format), words);
    };
    if first.as_str() == "--check" {
        return (replacing(Task::Check), without(rest, "--list"));
    }
    if first.as_str() == "--diff" {
        return (replacing(Task::Diff), rest);
    }
    if first.as_str() == "--list" {
        return options_after_list(rest);
    }
    if first.as_str() == "--in-place" {
        return options_after_in_place(rest);
    }
    (replacing(Task::Format), words)
}

/// Returns the options that `--list` and the words after it are, and the words after the options:
/// with `--check` nothing is changed.
fn options_after_list(words: &[String]) -> (Options, &[String])
    ensures options { result.0 ≡ (after_list (texts words.now)).0 }
    ensures rest { texts result.1.now ≡ (after_list (texts words.now)).1 }
{
    match words {
        [first, rest @ ..] if first.as_str() == "--check" => (replacing(Task::Check), rest),
        [first, rest @ ..] if first.as_str() == "--in-place" => {
            (in_place(Task::FormatAndName), rest)
        }
        _ => (replacing(Task::FormatAndName), words),
    }
}

/// Returns the options that `--in-place` and the words after it are, and the words after the
/// options.
fn options_after_in_place(words: &[String]) -> (Options, &[String])
    ensures options { result.0 ≡ (after_in_place (texts words.now)).0 }
    ensures rest { texts result.1.now ≡ (after_in_place (texts words.now)).1 }
{
    match words {
        [first, rest @ ..] if first.as_str() == "--list" => (in_place(Task::FormatAndName), rest),
        _ => (in_place(Task::Format), words),
    }
}

/// Returns the words without an option, if they begin with it.
fn without<'a>(words: &'a [String], option: &str) -> &'a [String]
    ensures { texts result.now ≡ without option.now (texts words.now) }
{
    match words {
        [first, rest @ ..] if first.as_str() == option => rest,
        _ => words,
    }
}

/// Returns what the words after the options ask for.
fn subject_in(options: Options, words: &[String]) -> Result<Request<'_>, Misuse<'_>>
    ensures { shown_request result ≡ subject_of options (texts words.now) }
{
    let [first, rest @ ..] = words else {
        return Ok(Request::Nearest(options));
    };
    if first.as_str() == "--" {
        return given_in(options, rest);
    }
    if first.as_str() == "-" {
        return stream_in(options, NAME, first.as_str(), rest);
    }
    if first.as_str() == "--name" {
        return named_in(options, rest);
    }
    match option_in(words) {
        Some(option) => Err(Misuse::Unexpected(option)),
        None => Ok(Request::Files(options, words)),
    }
}

/// Returns what the words after `--` ask for.
fn given_in(options: Options, names: &[String]) -> Result<Request<'_>, Misuse<'_>>
    ensures { shown_request result ≡ given_names options (texts names.now) }
{
    if names.is_empty() {
        return Err(Misuse::Incomplete);
    }
    Ok(Request::Files(options, names))
}

/// Returns what the words after `--name` ask for.
fn named_in(options: Options, words: &[String]) -> Result<Request<'_>, Misuse<'_>>
    ensures { shown_request result ≡ named options (texts words.now) }
{
    let [name, dash, rest @ ..] = words else {
        return Err(Misuse::Incomplete);
    };
    if dash.as_str() == "-" {
        return stream_in(options, name.as_str(), dash.as_str(), rest);
    }
    Err(Misuse::Unexpected(dash.as_str()))
}

/// Returns that standard input is asked for, if nothing is left after the word that stands for it.
/// It is no file that is written in place, and its formatted text is written where names would be,
/// so there is no list.
fn stream_in<'a>(
    options: Options,
    name: &'a str,
    dash: &'a str,
    rest: &'a [String],
) -> Result<Request<'a>, Misuse<'a>>
    ensures { shown_request result ≡ stream_of options name.now dash.now (texts rest.now) }
{
    if options.task == Task::FormatAndName || options.writing == Writing::InPlace {
        return Err(Misuse::Unexpected(dash));
    }
    match rest {
        [] => Ok(Request::Stream(options.task, name)),
        [next, ..] => Err(Misuse::Unexpected(next.as_str())),
    }
}

/// Returns the first of the words that begins with `-`.
fn option_in(words: &[String]) -> Option<&str>
    ensures { shown_option result ≡ first_option (texts words.now) }
{
    for word in words {
        if is_option(word.as_str()) {
            return Some(word.as_str());
        }
    }
    None
}

/// Whether a word begins with `-`.
fn is_option(word: &str) -> bool
    ensures { result ≡ is_option word.now }
{
    word.starts_with("-")
}

/// Returns the lines that tell a misuse.
///
/// # Errors
///
/// Memory ran out.
pub fn misuse_lines(alloc: Global, misuse: Misuse<'_>) -> Result<String, AllocError>
    ensures { IfOk result (λ lines. string_bytes lines
        ≡ misuse_lines (shown_misuse misuse.entry)) }
{
    let wrong = what_is_wrong(alloc, misuse)?;
    let mut lines = "error: ".to_string(alloc)?;
    lines.push_str(wrong.as_str())?;
    lines.push_str("\nsee justfiles --help\n")?;
    Ok(lines)
}

/// Returns what is wrong in words.
fn what_is_wrong(alloc: Global, misuse: Misuse<'_>) -> Result<String, AllocError>
    ensures { IfOk result (λ words. string_bytes words
        ≡ what_is_wrong (shown_misuse misuse.entry)) }
{
    match misuse {
        Misuse::Unexpected(word) => unexpected(alloc, word),
        Misuse::Incomplete => "an argument is missing at the end".to_string(alloc),
    }
}

/// Returns in words that an argument doesn't fit.
fn unexpected(alloc: Global, word: &str) -> Result<String, AllocError>
    ensures { IfOk result (λ words. string_bytes words ≡ what_is_wrong (Some word.now)) }
{
    let word = visible_name(alloc, word)?;
    let mut words = "unexpected argument: ".to_string(alloc)?;
    words.push_str(word.as_str())?;
    Ok(words)
}
