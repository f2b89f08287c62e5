//! The sigils at the front of body lines.

/// A mark at the front of a body line that changes how the line is run.
#[derive(Clone, Copy, Debug, PartialEq, Eq, PartialOrd, Ord)]
pub enum Sigil {
    /// `?`. It is a sigil only with the setting `guards`.
    Guard,
    /// `-`: a failure of the line is ignored.
    Infallible,
    /// `@`: inverts whether the line is echoed.
    Quiet,
}

impl Sigil {
    ghost use Rattle.std.specs.Prelude.{◌≡◌};
    ghost use Rattle.justfile_line.specs.Sigil.{sigil_of};

    /// Returns the sigil for a byte, or `None` if it isn't one. `?` is a sigil only if `guards` is
    /// set.
    pub(crate) fn of_byte(byte: u8, guards: bool) -> Option<Sigil>
        ensures { result ≡ sigil_of guards byte }
    {
        match byte {
            b'?' if guards => Some(Sigil::Guard),
            b'-' => Some(Sigil::Infallible),
            b'@' => Some(Sigil::Quiet),
            _ => None,
        }
    }
}
