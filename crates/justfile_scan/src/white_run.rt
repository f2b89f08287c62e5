//! Whether levels close before blank lines, read once for each run of white bytes.
ghost use Rattle.std.specs.Prelude.{◌≡◌, false};
ghost use Rattle.justfile_model.specs.Lexing.Bytes.{white, line_feed, closes_levels};

use crate::bytes::{is_line_feed, is_white};
use justfile_vocabulary::byte_class::byte_class;
use justfile_vocabulary::bytes::byte_at;

/// The run of white bytes that was read last. Either levels close before each of its blank lines or
/// before none, so reading it once is enough, and lexing takes linear time.
#[derive(Clone, Copy, Debug)]
pub struct WhiteRun {
    /// The number of bytes of the text after the run.
    rest_len: usize,
    /// Whether levels close before the run's blank lines.
    closes: bool,
}

impl WhiteRun {
    ghost use Rattle.justfile_scan.specs.WhiteRun.{IsRunOf};

    /// Returns the empty run before a text.
    pub fn before(text: &str) -> Self
        ensures { IsRunOf text.now result }
    {
        WhiteRun {
            rest_len: text.len(),
            closes: false,
        }
    }

    /// Whether the run of white bytes at the start of the rest ends in a line feed, and another
    /// byte follows it.
    #[inline(never)]
    pub fn closes_levels(&mut self, rest: &[u8]) -> bool
        requires { IsRunOf rest.now self.old }
        ensures closes { result ≡ closes_levels false rest.now }
        ensures run { IsRunOf rest.now self.new }
    {
        if rest.len() <= self.rest_len {
            *self = WhiteRun::read_front(rest);
        }
        self.closes
    }

    /// Reads the run at the start.
    #[tactic(auto, using(crate::proofs::WhiteRunLemmas::white_loop))]
    fn read_front(bytes: &[u8]) -> Self
        ensures run { IsRunOf bytes.now result }
        ensures closes { result.closes ≡ closes_levels false bytes.now }
    {
        let mut closes = false;
        for at in 0..bytes.len() {
            let class = byte_class(byte_at(bytes, at));
            if !is_white(class) {
                return WhiteRun {
                    rest_len: bytes.len() - at,
                    closes,
                };
            }
            closes = is_line_feed(class);
        }
        WhiteRun {
            rest_len: 0,
            closes: false,
        }
    }
}
