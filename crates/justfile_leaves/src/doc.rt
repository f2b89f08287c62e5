//! The docs that comments hold.
ghost use Rattle.std.specs.Prelude.{◌≡◌, IsTrue, codes, if◌then◌else◌, nat_eq};
ghost use Rattle.std.specs.List.{starts_with};
ghost use Rattle.std.specs.Option.{option_map};
ghost use Rattle.justfile_model.specs.Grammars.Docs.{doc_in};
ghost use Rattle.justfile_model.specs.Grammars.Docs as before;

/// Returns the doc in the first comment of a file, or `None` if the comment begins with `#!` or is
/// empty.
pub fn find_first_doc(comment: &str) -> Option<&str>
    requires { IsTrue (starts_with nat_eq comment.now (codes "#")) }
    ensures { option_map (λ doc. doc.now) result ≡ doc_in before.Nothing comment.now }
{
    if comment.starts_with("#!") {
        return None;
    }
    find_text(comment)
}

/// Returns the doc in a comment after other items, or `None` if the comment isn't at the start of
/// its line or is empty.
pub fn find_later_doc(is_line_start: bool, comment: &str) -> Option<&str>
    requires { IsTrue (starts_with nat_eq comment.now (codes "#")) }
    ensures { option_map (λ doc. doc.now) result
        ≡ doc_in (if is_line_start then before.LineEnd else before.Other) comment.now }
{
    if is_line_start {
        find_text(comment)
    } else {
        None
    }
}

/// Returns the text of a comment after its `#`, without the whitespace around it, or `None` if that
/// is empty.
fn find_text(comment: &str) -> Option<&str>
    requires { IsTrue (starts_with nat_eq comment.now (codes "#")) }
    ensures { option_map (λ doc. doc.now) result ≡ doc_in before.LineEnd comment.now }
{
    let text = comment.strip_prefix("#")?.trim();
    if text.is_empty() { None } else { Some(text) }
}
