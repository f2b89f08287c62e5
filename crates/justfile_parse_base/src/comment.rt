//! Comments at the ends of lines.
ghost use Rattle.std.specs.Prelude.{◌≡◌};
ghost use Rattle.std.specs.Option.{option_copied, option_map};
ghost use Rattle.justfile_parse_base.specs.SharedTable as reader;

use justfile_parse_expression::significant::SignificantToken;

/// Returns the text of a comment, if there is one, without the whitespace at its end.
#[tactic(auto, unfolding(justfile_parse_expression::specs::TableReader::leaves))]
pub fn comment_text<'src>(comment: Option<SignificantToken<'src>>) -> Option<&'src str>
    ensures { option_copied result ≡ option_map reader.comment_in comment.entry }
{
    match comment {
        Some((comment, _)) => Some(comment.lexeme().trim_end()),
        None => None,
    }
}
