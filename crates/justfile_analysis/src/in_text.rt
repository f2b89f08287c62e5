//! The problems of the parts of a justfile, where they are in the text.
ghost use Rattle.std.specs.Prelude.{◌-◌, IfOk};
ghost use Rattle.justfile_analysis.specs.InText.{AreTold, IsToldAt};

use crate::reading::read_start;
use crate::rejection::message_after;
use editor_language::{Known, PartProblem, Problem};
use justfile_recovery::line_feeds;
use std::alloc::{AllocError, Global};
use text_parts::Part;

/// How many line feeds are before an offset of a text, along which it goes.
#[derive(Drop)]
struct LineCount {
    at: usize,
    count: usize,
}

impl LineCount {
    /// Returns how many there are before an offset, which isn't before the last one.
    fn before(&mut self, bytes: &[u8], offset: usize) -> usize {
        if let Some(between) = bytes.get(self.at..offset) {
            self.count = self.count.saturating_add(line_feeds(between));
            self.at = offset;
        }
        self.count
    }
}

/// Returns the problems of the parts of a text, with their places in the text.
pub(crate) fn problems_in_text(
    alloc: Global,
    text: &str,
    parts: &[Part<Known>],
) -> Result<Vec<Problem>, AllocError>
    ensures { IfOk result (λ problems. AreTold parts.now problems.items) }
{
    let mut problems = Vec::new(alloc);
    let mut lines = LineCount { at: 0, count: 0 };
    let mut start = 0usize;
    for part in parts {
        if let Some(problem) = &part.known.problem {
            let moved = problem_in_text(alloc, text, start, part.reach, problem, &mut lines)?;
            problems.push(moved)?;
        }
        start = start.saturating_add(part.size);
    }
    Ok(problems)
}

/// Returns the problem of a part that begins at an offset and was read so far, as it is in the text.
fn problem_in_text(
    alloc: Global,
    text: &str,
    start: usize,
    reach: usize,
    problem: &PartProblem,
    lines: &mut LineCount,
) -> Result<Problem, AllocError>
    ensures { IfOk result (IsToldAt (start - 1) problem.now) }
{
    let base = read_start(start);
    let message = if problem.names_lines {
        message_after(
            alloc,
            text,
            base,
            start.saturating_add(reach.saturating_sub(1)),
            lines.before(text.as_bytes(), base),
            problem,
        )?
    } else {
        problem.message.clone()?
    };
    Ok(Problem {
        span: problem.span.moved(base),
        message,
    })
}
