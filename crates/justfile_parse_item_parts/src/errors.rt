//! The faults for unknown names and words.
ghost use Rattle.justfile_vocabulary.specs.declared.keyword.Keyword.TheVariants as words;
ghost use Rattle.justfile_model.specs.Readers.ReaderState.{ExpectedKeyword, UnknownSetting};
ghost use Rattle.justfile_parse_base.specs.ParseErrors.{IsFaultOfRead};

use justfile_token::{CompileError, CompileErrorKind, Fault, Token};
use justfile_vocabulary::Keyword;
use std::alloc::Global;

/// Makes the fault for a name that isn't that of a setting.
pub(crate) fn unknown_setting_fault<'src>(name: Token<'src>) -> Fault<'src>
    ensures { IsFaultOfRead (UnknownSetting name.entry) result }
{
    Fault::Compile(CompileError {
        kind: CompileErrorKind::UnknownSetting {
            setting: name.lexeme(),
        },
        token: name,
    })
}

/// Makes the fault for a word that isn't one of these keywords. It is `Memory` if there is no
/// memory for a copy that the error holds.
pub(crate) fn expected_keyword_fault<'src>(
    alloc: Global,
    expected: &[Keyword],
    found: Token<'src>,
) -> Fault<'src>
    ensures { IsFaultOfRead (ExpectedKeyword expected.now found.entry) result }
{
    match Vec::from_slice(alloc, expected) {
        Ok(expected) => Fault::Compile(CompileError {
            kind: CompileErrorKind::ExpectedKeyword { expected, found },
            token: found,
        }),
        Err(_) => Fault::Memory,
    }
}
