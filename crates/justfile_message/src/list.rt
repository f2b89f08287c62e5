//! Lists of alternatives in messages.
ghost use Rattle.std.specs.Prelude.{◌≡◌, Some, map};
ghost use Rattle.std.specs.List.{flat_map};
ghost use Rattle.std.specs.Fmt.{DisplaysOnOk};
ghost use Rattle.justfile_message.specs.List.{after_comma, item_text, last_separator, list_text, or_text, other_text, ticked_text};

use justfile_vocabulary::alternative::Alternative;
use std::fmt;

/// Alternatives as messages print them: `a`, `a or b`, `a, b, or c`, or nothing if there is none.
#[derive(Debug, Drop)]
pub struct List<'a, T> {
    items: &'a [T],
    /// Whether each alternative is printed between backticks.
    ticked: bool,
}

impl<'a, T: Alternative> List<'a, T> {
    /// Returns the list of the alternatives as they are.
    pub fn or(items: &'a [T]) -> Self
        ensures { list_text T.alternative_text result
            ≡ or_text (map T.alternative_text items.entry.now) }
    {
        List {
            items,
            ticked: false,
        }
    }

    /// Returns the list of the alternatives, each between backticks.
    pub fn or_ticked(items: &'a [T]) -> Self
        ensures { list_text T.alternative_text result
            ≡ or_text (map (λ item. ticked_text (T.alternative_text item)) items.entry.now) }
    {
        List {
            items,
            ticked: true,
        }
    }
}

/// Writes an alternative.
fn write_item<T: Alternative, W: fmt::Write>(
    item: &T,
    ticked: bool,
    f: &mut fmt::Formatter<W>,
) -> fmt::Result
    ensures { DisplaysOnOk W.write_str_gives f.old result
        (Some (item_text ticked (T.alternative_text item.now))) f.new }
{
    if !ticked {
        return item.write_alternative(f);
    }
    f.write_str("`")?;
    item.write_alternative(f)?;
    f.write_str("`")
}

/// Writes alternatives, each after a comma and a space.
fn write_after_commas<T: Alternative, W: fmt::Write>(
    items: &[T],
    ticked: bool,
    f: &mut fmt::Formatter<W>,
) -> fmt::Result
    ensures { DisplaysOnOk W.write_str_gives f.old result
        (Some (flat_map
        (λ item. after_comma (item_text ticked (T.alternative_text item))) items.now)) f.new }
{
    for item in items {
        f.write_str(", ")?;
        write_item(item, ticked, f)?;
    }
    Ok(())
}

/// Returns the text before the last alternative, which is the second one or a later one.
fn last_separator(is_second: bool) -> &'static str
    ensures { result.now ≡ last_separator is_second }
{
    if is_second { " or " } else { ", or " }
}

/// Writes the alternatives after the first.
fn write_others<T: Alternative, W: fmt::Write>(
    items: &[T],
    ticked: bool,
    f: &mut fmt::Formatter<W>,
) -> fmt::Result
    ensures { DisplaysOnOk W.write_str_gives f.old result
        (Some (other_text
        (map (λ item. item_text ticked (T.alternative_text item)) items.now))) f.new }
{
    let Some((last, others)) = items.split_last() else {
        return Ok(());
    };
    write_after_commas(others, ticked, f)?;
    f.write_str(last_separator(others.is_empty()))?;
    write_item(last, ticked, f)
}

impl<T: Alternative> fmt::Display for List<'_, T> {
    ghost use Rattle.std.specs.Prelude.{Some};
    ghost use Rattle.justfile_message.specs.List.{list_text};

    ghost output = { λ list. Some (list_text T.alternative_text list) };

    fn fmt<W: fmt::Write>(&self, f: &mut fmt::Formatter<W>) -> fmt::Result {
        let Some((first, others)) = self.items.split_first() else {
            return Ok(());
        };
        write_item(first, self.ticked, f)?;
        write_others(others, self.ticked, f)
    }
}
