//! Names of files.
ghost use Rattle.std.specs.Prelude.{◌≡◌};
ghost use Rattle.justfile_lint.specs.Names.{ends_alike, is_named, may_be_imported};

/// Whether another file may import a file at this path: it isn't one that `just` runs by its name.
pub fn may_be_imported(path: &str) -> bool
    ensures { result ≡ may_be_imported path.now }
{
    !(is_named(path, "justfile", "/justfile")
        || is_named(path, ".justfile", "/.justfile")
        || is_named(path, "mod.just", "/mod.just"))
}

/// Whether a path is a name, or ends in it after a slash, in any case of its letters.
fn is_named(path: &str, name: &str, ending: &str) -> bool
    ensures { result ≡ is_named path.now name.now ending.now }
{
    path.as_bytes().eq_ignore_ascii_case(name.as_bytes()) || ends_alike(path, ending)
}

/// Whether a text ends in this one, in any case of its letters.
fn ends_alike(text: &str, ending: &str) -> bool
    ensures { result ≡ ends_alike text.now ending.now }
{
    let (text, ending) = (text.as_bytes(), ending.as_bytes());
    let (_, last) = text.split_at(text.len().saturating_sub(ending.len()));
    last.eq_ignore_ascii_case(ending)
}
