//! Root files: a text without imports, parsed under the usual conditions.
ghost use Rattle.std.specs.Prelude.{◌≡◌, List, IfOk, IfErr};
ghost use Rattle.justfile_numbers.specs.Numerator.{constants_of};
ghost use Rattle.justfile_model.specs.Lexing.Lexed.{Lexed};
ghost use Rattle.justfile_model.specs.Lexing.SignificantTokens.{identifiers, significant_tokens};
ghost use Rattle.justfile_model.specs.Lexing.Tok.{Tok};
ghost use Rattle.justfile_parse.specs.Parsing.{CountersMoved, HasNoTree};
ghost use Rattle.justfile_indentation.specs.OwnIndentation.{HasCookedIndentation};
ghost use Rattle.justfile_canonical.specs.Root.{HasNoRoot, IsRoot, IsRootFrom, conditions};

use justfile_ast::Ast;
use justfile_numbers::{Numerator, Version};
use justfile_parse::{Parser, RECURSION_LIMIT};
use justfile_token::{CompileResult, Source, Unchanged};
use std::alloc::Global;

/// Parses a text as the root file at this path: at depth 0, in no module, with numbers from 0 on,
/// under the usual limit of depth and this library's version. The texts of literals with the mark
/// `x` are left as they are. The path is only named in errors.
///
/// # Errors
///
/// As for `Parser::parse_source`.
pub fn parse_root<'src>(
    alloc: Global,
    path: &'src str,
    source: &'src str,
) -> CompileResult<'src, Ast<'src>>
    ensures ok { IfOk result (IsRoot path.now source.now) }
    // The indentation that the file sets is the text of its literal.
    ensures indented { IfOk result HasCookedIndentation }
    ensures err { IfErr result (HasNoRoot path.now source.now) }
{
    let mut numerator = Numerator::new(0);
    parse_root_with(alloc, &mut numerator, path, source)
}

/// Parses a text as `parse_root` does, with numbers from this numerator: for a program that has
/// constants, whose numbers come first, or that numbers several files.
///
/// # Errors
///
/// As for `Parser::parse_source`.
pub fn parse_root_with<'src>(
    alloc: Global,
    numerator: &mut Numerator,
    path: &'src str,
    source: &'src str,
) -> CompileResult<'src, Ast<'src>>
    ensures ok { IfOk result (IsRootFrom numerator.old numerator.new path.now source.now) }
    // The indentation that the file sets is the text of its literal.
    ensures indented { IfOk result HasCookedIndentation }
    ensures err { IfErr result
        (HasNoTree conditions path.now source.now numerator.old numerator.new) }
    ensures moved { (tokens : List Tok) → Lexed source.now tokens
        → CountersMoved numerator.old numerator.new (identifiers (significant_tokens tokens)) }
    ensures unmoved { ((tokens : List Tok) → Lexed source.now tokens → ⊥)
        → numerator.new ≡ numerator.old }
    ensures constants { constants_of numerator.new ≡ constants_of numerator.old }
{
    let origin = Source {
        file_depth: 0,
        import_offsets: &[],
        namepath: None,
        working_directory: "",
    };
    Parser::parse_source(
        alloc,
        numerator,
        path,
        &origin,
        source,
        &Unchanged,
        Version::CURRENT,
        RECURSION_LIMIT,
    )
}
