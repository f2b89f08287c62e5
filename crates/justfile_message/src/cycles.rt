//! Messages for recipes and variables that depend on themselves.
ghost use Rattle.std.specs.Prelude.{Some};
ghost use Rattle.std.specs.List.{flat_map};
ghost use Rattle.std.specs.Fmt.{DisplaysOnOk};
ghost use Rattle.justfile_message.specs.Parts.{arrow_name, circle_text, recipe_circle_text, variable_circle_text};

use std::fmt;

/// Writes names, each after an arrow.
fn write_arrows<W: fmt::Write>(names: &[&str], f: &mut fmt::Formatter<W>) -> fmt::Result
    ensures { DisplaysOnOk W.write_str_gives f.old result
        (Some (flat_map arrow_name names.now)) f.new }
{
    for name in names {
        f.write_str(" -> ")?;
        f.write_str(name)?;
    }
    Ok(())
}

/// Names separated by arrows.
#[derive(Clone, Copy)]
struct Circle<'a>(&'a [&'a str]);

impl fmt::Display for Circle<'_> {
    ghost output = { λ circle. Some (circle_text circle.0.now) };

    fn fmt<W: fmt::Write>(&self, f: &mut fmt::Formatter<W>) -> fmt::Result {
        let Some((first, rest)) = self.0.split_first() else {
            return Ok(());
        };
        f.write_str(first)?;
        write_arrows(rest, f)
    }
}

/// Writes that a recipe depends on itself, directly or through other recipes.
pub fn write_recipe_circle<W: fmt::Write>(
    recipe: &str,
    circle: &[&str],
    f: &mut fmt::Formatter<W>,
) -> fmt::Result
    ensures { DisplaysOnOk W.write_str_gives f.old result
        (Some (recipe_circle_text recipe.now circle.now)) f.new }
{
    if circle.len() == 2 {
        write!(f, "recipe `{recipe}` depends on itself")
    } else {
        write!(
            f,
            "recipe `{recipe}` has circular dependency `{}`",
            Circle(circle)
        )
    }
}

/// Writes that a variable is defined in terms of itself, directly or through other variables.
pub fn write_variable_circle<W: fmt::Write>(
    variable: &str,
    circle: &[&str],
    f: &mut fmt::Formatter<W>,
) -> fmt::Result
    ensures { DisplaysOnOk W.write_str_gives f.old result
        (Some (variable_circle_text variable.now circle.now)) f.new }
{
    if circle.len() == 2 {
        write!(f, "variable `{variable}` is defined in terms of itself")
    } else {
        write!(
            f,
            "variable `{variable}` depends on its own value: `{}`",
            Circle(circle)
        )
    }
}
