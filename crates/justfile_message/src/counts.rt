//! How many arguments were given, and how many are accepted.
ghost use Rattle.std.specs.Prelude.{Some, codes};
ghost use Rattle.std.specs.Fmt.{DisplaysOnOk, ◌++?◌};
ghost use Rattle.std.specs.Range.{range_inclusive_end, range_inclusive_start};
ghost use Rattle.justfile_vocabulary.specs.Count.{noun_text};
ghost use Rattle.justfile_message.specs.Parts.{arguments_text, range_text, taken_text};
ghost use Rattle.justfile_vocabulary.specs.Text.{◌&◌};

use justfile_vocabulary::Count;
use std::fmt;
use std::ops::RangeInclusive;

/// The number of arguments that were given.
#[derive(Clone, Copy)]
struct Arguments(usize);

impl fmt::Display for Arguments {
    ghost output = { λ arguments. Some (arguments_text arguments.0) };

    fn fmt<W: fmt::Write>(&self, f: &mut fmt::Formatter<W>) -> fmt::Result {
        write!(f, "{}", Count::numbered("argument", self.0))
    }
}

/// How many arguments are accepted, where `found` were given.
#[derive(Clone, Copy)]
struct Taken {
    found: usize,
    min: usize,
    max: usize,
}

impl fmt::Display for Taken {
    ghost output = { λ taken. Some (taken_text taken.found taken.min taken.max) };

    fn fmt<W: fmt::Write>(&self, f: &mut fmt::Formatter<W>) -> fmt::Result {
        if self.min == self.max {
            write!(f, "{}", Arguments(self.min))
        } else if self.found < self.min {
            write!(f, "at least {}", Arguments(self.min))
        } else {
            write!(f, "at most {}", Arguments(self.max))
        }
    }
}

/// How many arguments are accepted. An end of `usize::MAX` means that there is no limit.
#[derive(Clone, Copy)]
struct ArgumentRange<'a>(&'a RangeInclusive<usize>);

impl fmt::Display for ArgumentRange<'_> {
    ghost output = { λ range.
        Some (range_text (range_inclusive_start range.0.now) (range_inclusive_end range.0.now)) };

    fn fmt<W: fmt::Write>(&self, f: &mut fmt::Formatter<W>) -> fmt::Result {
        let (least, most) = (*self.0.start(), *self.0.end());
        if least == most {
            write!(f, "{least}")
        } else if most == usize::MAX {
            write!(f, "{least} or more")
        } else {
            write!(f, "{least} to {most}")
        }
    }
}

/// Writes that the number of arguments isn't one of those that are accepted.
pub fn write_count_mismatch<A: fmt::Display, W: fmt::Write>(
    before: &str,
    taker: &A,
    found: usize,
    min: usize,
    max: usize,
    f: &mut fmt::Formatter<W>,
) -> fmt::Result
    ensures { DisplaysOnOk W.write_str_gives f.old result
        (Some before.now ++? A.output taker.now
        ++? Some (codes "` got " & arguments_text found & codes " but takes "
        & taken_text found min max)) f.new }
{
    let taken = Taken { found, min, max };
    let found = Arguments(found);
    write!(f, "{before}{taker}` got {found} but takes {taken}")
}

/// Writes that attributes are before something that takes none. The message ends with the noun,
/// without the count.
pub fn write_extraneous<W: fmt::Write>(count: usize, f: &mut fmt::Formatter<W>) -> fmt::Result
    ensures { DisplaysOnOk W.write_str_gives f.old result
        (Some (codes "extraneous " & noun_text (codes "attribute") count)) f.new }
{
    write!(f, "extraneous {}", Count::unnumbered("attribute", count))
}

/// Writes that a function is called with a number of arguments that it doesn't accept.
pub fn write_function_mismatch<W: fmt::Write>(
    function: &str,
    arguments: usize,
    expected: &RangeInclusive<usize>,
    f: &mut fmt::Formatter<W>,
) -> fmt::Result
    ensures { DisplaysOnOk W.write_str_gives f.old result
        (Some (codes "function `" & function.now & codes "` called with " & arguments_text arguments
        & codes " but takes "
        & range_text (range_inclusive_start expected.now) (range_inclusive_end expected.now)))
        f.new }
{
    let (arguments, expected) = (Arguments(arguments), ArgumentRange(expected));
    write!(
        f,
        "function `{function}` called with {arguments} but takes {expected}"
    )
}
