//! The outcomes of the calls of one kind.

/// The outcome of a call.
#[derive(Clone, Copy, PartialEq, Eq)]
pub(crate) enum Outcome {
    /// It returned the right value.
    Plain,
    /// It returned that memory ran out.
    Refused,
    /// It returned something else.
    Wrong,
}

impl Outcome {
    /// Returns the word for the outcome.
    pub(crate) fn name(self) -> &'static str {
        match self {
            Outcome::Plain => "plain",
            Outcome::Refused => "refused",
            Outcome::Wrong => "wrong",
        }
    }
}

/// How many calls ran out of memory, and how many were wrong.
#[derive(Drop)]
pub(crate) struct Counts {
    refused: u64,
    wrong: u64,
    /// The outcome of the last call.
    pub(crate) last: Outcome,
    /// The outcome of the same call after it.
    pub(crate) again: Outcome,
}

impl Counts {
    /// Returns the counts of no calls.
    pub(crate) fn new() -> Self {
        Counts {
            refused: 0,
            wrong: 0,
            last: Outcome::Refused,
            again: Outcome::Wrong,
        }
    }

    /// Counts a call, and the same call with ample memory after it.
    pub(crate) fn count(&mut self, outcome: Outcome, again: Outcome) {
        if outcome == Outcome::Refused {
            self.refused = self.refused.saturating_add(1);
        }
        if outcome == Outcome::Wrong || again != Outcome::Plain {
            self.wrong = self.wrong.saturating_add(1);
        }
        self.last = outcome;
        self.again = again;
    }

    /// Returns what to print about the calls. The last of them should have had enough memory.
    pub(crate) fn verdict(&self) -> &'static str {
        if self.wrong > 0 {
            "an answer is wrong"
        } else if self.refused == 0 {
            "memory never ran out"
        } else if self.last != Outcome::Plain {
            "memory ran out to the end"
        } else {
            "memory ran out, and no answer is wrong"
        }
    }
}
