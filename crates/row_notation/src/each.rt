//! Values that are written one after another.
ghost use Rattle.std.specs.Iterator.{IsFinite};

use crate::answer::Answer;
use std::fmt::Debug;

/// Writes each value of an iterator as a field with the text that `Debug` writes.
pub fn push_each_debug<'set, T: Debug + 'set, I: Iterator<Item = &'set T>>(
    values: I,
    answer: &mut Answer,
)
    requires can { I.can_next values }
    requires finite { IsFinite (I.remaining values) }
{
    for value in values {
        answer.push_debug(value);
    }
}
