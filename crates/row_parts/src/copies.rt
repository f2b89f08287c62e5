//! Checks that copies of parts of items are equal to their originals.

use justfile_line::Line;
use justfile_recipe_header::{Parameter, UnresolvedDependency};
use row_notation::{Answer, push_copy};

/// Writes `uncopied` if the copy of a line isn't equal to it. That copies and compares its fragments.
pub(crate) fn copies_line(line: &Line<'_>, answer: &mut Answer) {
    push_copy(line, line.clone(answer.alloc()), answer);
}

/// Writes `uncopied` if the copy of a parameter isn't equal to it.
pub fn copies_parameter(parameter: &Parameter<'_>, answer: &mut Answer) {
    push_copy(parameter, parameter.clone(answer.alloc()), answer);
}

/// Writes `uncopied` if the copy of a dependency isn't equal to it. That copies and compares its
/// arguments.
pub fn copies_dependency(dependency: &UnresolvedDependency<'_>, answer: &mut Answer) {
    push_copy(dependency, dependency.clone(answer.alloc()), answer);
}
