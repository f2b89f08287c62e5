//! The public calls that parse files.
ghost use Rattle.std.specs.Prelude.{◌≡◌, List, map, Contains, IfOk, IfErr, string_bytes};
ghost use Rattle.justfile_token.specs.Modulepath.{module_names, names_of};
ghost use Rattle.justfile_numbers.specs.Numerator.{constants_of};
ghost use Rattle.justfile_model.specs.Lexing.Lexed.{Lexed};
ghost use Rattle.justfile_model.specs.Lexing.SignificantTokens.{identifiers, significant_tokens};
ghost use Rattle.justfile_model.specs.Lexing.Tok.{Tok, tok_of};
ghost use Rattle.justfile_parse_expression.specs.Conditions.{conditions_of};
ghost use Rattle.justfile_parse_file.specs.Parsing.{CountersMoved, HasNoTree, IsOneLex, IsParsed, IsParsedText, IsUnparsed};

use justfile_ast::Ast;
use justfile_numbers::{Numerator, Version};
use justfile_parse_file as files;
use justfile_token::{CompileResult, Expander, Namepath, Source, Token};
use std::alloc::Global;

/// Parses files.
pub struct Parser;

impl Parser {
    /// Parses a file from its text, under a limit as for `parse`.
    ///
    /// # Errors
    ///
    /// `Compile`, with a part of the text, if the text can't be lexed or its tokens aren't a file;
    /// `Numbers` and `Memory` as for `parse`. If the text can't be lexed, the numerator is
    /// unchanged.
    pub fn parse_source<'src, X: Expander>(
        alloc: Global,
        numerator: &mut Numerator,
        path: &'src str,
        source: &Source<'_, '_>,
        src: &'src str,
        expander: &X,
        current: Version,
        limit: usize,
    ) -> CompileResult<'src, Ast<'src>>
        ensures parsed { IfOk result
            (IsParsedText (conditions_of X.answer expander.now current limit) path.now src.now
            source.now.file_depth source.now.import_offsets.now numerator.old numerator.new) }
        ensures module_path { IfOk result (λ ast. names_of ast.module_path
            ≡ module_names source.now.namepath) }
        ensures working_directory { IfOk result (λ ast. string_bytes ast.working_directory
            ≡ source.now.working_directory.now) }
        ensures no_tree { IfErr result
            (HasNoTree (conditions_of X.answer expander.now current limit) path.now src.now
            numerator.old numerator.new) }
        ensures moved { (tokens : List Tok) → Lexed src.now tokens
            → CountersMoved numerator.old numerator.new (identifiers (significant_tokens tokens)) }
        ensures unmoved { ((tokens : List Tok) → Lexed src.now tokens → ⊥)
            → numerator.new ≡ numerator.old }
        ensures constants { constants_of numerator.new ≡ constants_of numerator.old }
    {
        files::parse_source(
            alloc, numerator, path, source, src, expander, current, limit,
        )
    }

    /// Parses a file from its tokens, which have to be those of one source. At most `limit`
    /// expressions may be nested in one another; `RECURSION_LIMIT` is the usual limit.
    ///
    /// # Errors
    ///
    /// `Compile`, with one of the tokens, if they aren't a file; `Numbers` if a binding or a recipe
    /// needs a number and the counter has reached its maximum; `Memory` if memory runs out. On an
    /// error, the numerator's counters have moved up by at most the number of identifiers.
    pub fn parse<'src, X: Expander>(
        alloc: Global,
        file_depth: u32,
        import_offsets: &[usize],
        module_namepath: Option<&Namepath<'_>>,
        numerator: &mut Numerator,
        tokens: &[Token<'src>],
        working_directory: &str,
        expander: &X,
        current: Version,
        limit: usize,
    ) -> CompileResult<'src, Ast<'src>>
        requires { IsOneLex tokens.now }
        ensures parsed { IfOk result (IsParsed (conditions_of X.answer expander.now current limit)
            (map tok_of tokens.now) (Contains tokens.now) file_depth import_offsets.now
            numerator.old numerator.new) }
        ensures module_path { IfOk result (λ ast. names_of ast.module_path
            ≡ module_names module_namepath.entry) }
        ensures working_directory { IfOk result (λ ast. string_bytes ast.working_directory
            ≡ working_directory.now) }
        ensures unparsed { IfErr result
            (IsUnparsed (conditions_of X.answer expander.now current limit)
            (map tok_of tokens.now) (Contains tokens.now) numerator.old numerator.new) }
        ensures moved { CountersMoved numerator.old numerator.new
            (identifiers (significant_tokens (map tok_of tokens.now))) }
    {
        files::parse(
            alloc,
            file_depth,
            import_offsets,
            module_namepath,
            numerator,
            tokens,
            working_directory,
            expander,
            current,
            limit,
        )
    }
}
