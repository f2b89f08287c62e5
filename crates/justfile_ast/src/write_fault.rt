//! Why a text wasn't written completely.

/// Why a text wasn't written completely.
#[derive(Clone, Copy, Debug, PartialEq, Eq)]
pub enum WriteFault {
    /// A write returned an error. Interruptions count as errors too.
    Failed,
    /// A write of some bytes accepted none of them.
    Zero,
}
