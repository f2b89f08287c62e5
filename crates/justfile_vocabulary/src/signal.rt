//! The signals that the attribute `continue` may name.
ghost use Rattle.std.specs.Prelude.{◌≡◌};

use std::fmt;

/// A signal that the attribute `continue` may name.
#[derive(Clone, Copy, Debug, PartialEq, Eq, PartialOrd, Ord)]
pub enum Signal {
    Hangup,
    Interrupt,
    Quit,
}

/// All signals, in declaration order.
static SIGNALS: [Signal; 3] = [Signal::Hangup, Signal::Interrupt, Signal::Quit];

impl Signal {
    ghost use Rattle.justfile_vocabulary.specs.Signal.{signal_name, signal_named};

    /// Returns the signal with this name.
    pub fn from_name(name: &str) -> Option<Self>
        ensures { result ≡ signal_named name.now }
    {
        SIGNALS.iter().copied().find(|signal| signal.name() == name)
    }

    /// Returns the signal's name.
    fn name(self) -> &'static str
        ensures { result.now ≡ signal_name self }
    {
        match self {
            Signal::Hangup => "SIGHUP",
            Signal::Interrupt => "SIGINT",
            Signal::Quit => "SIGQUIT",
        }
    }
}

/// Ignores width and alignment: the text is written as it is.
impl fmt::Display for Signal {
    ghost use Rattle.std.specs.Prelude.{Some};
    ghost use Rattle.justfile_vocabulary.specs.Signal.{signal_name};

    ghost output = { λ signal. Some (signal_name signal) };

    ghost styled_output = { λ signal spec. Some (signal_name signal) };

    fn fmt<W: fmt::Write>(&self, f: &mut fmt::Formatter<W>) -> fmt::Result {
        f.write_str(self.name())
    }
}
