//! The sinks: a `String` and a formatter.
ghost use Rattle.std.specs.Prelude.{◌≡◌, ℕ, List, [], ◌++◌, string_bytes};
ghost use Rattle.std.proofs.Common.{append-nil, sym};
ghost use Rattle.justfile_token.specs.SinkLaws.{text_more, Displays, displays_nothing, displays_more};

use crate::sink::Sink;
use std::alloc::AllocError;
use std::fmt;

impl Sink for String {
    type Fault = AllocError;

    ghost took = { λ a text b. string_bytes b ≡ string_bytes a ++ text };

    ghost failed = { λ a text b. Unit {0} };

    fn put(&mut self, piece: &str) -> Result<(), AllocError> {
        self.push_str(piece)
    }

    ghost took_nothing = { λ a. sym (append-nil (string_bytes a)) };

    ghost took_more = { λ a b c xs ys p q. text_more _ _ _ xs ys p q };

    ghost failed_later = { λ a b c xs ys p q. tt };

    ghost failed_before = { λ a b xs ys p. tt };
}

impl<W: fmt::Write> Sink for fmt::Formatter<W> {
    type Fault = fmt::Error;

    ghost took = { λ f text g. Displays W.write_str_gives f text g };

    ghost failed = { λ f text g. Unit {0} };

    fn put(&mut self, piece: &str) -> fmt::Result {
        self.write_str(piece)
    }

    ghost took_nothing = { λ f. displays_nothing W.write_str_gives f };

    ghost took_more = { λ f g h xs ys p q. displays_more W.write_str_gives f g h xs ys p q };

    ghost failed_later = { λ f g h xs ys p q. tt };

    ghost failed_before = { λ f g xs ys p. tt };
}
