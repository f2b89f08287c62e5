//! Where a text comes from.
ghost use Rattle.std.specs.Prelude.{◌≡◌, None, []};

use crate::namepath::Namepath;

/// The origin of a text: how deep its file lies, the imports that lead to it, its module, and the
/// working directory there.
#[derive(Debug, Drop)]
pub struct Source<'a, 'src> {
    /// The number of imports and modules between the file and the root.
    pub file_depth: u32,
    /// The offsets of the imports that lead to the file, outermost first.
    pub import_offsets: &'a [usize],
    /// The path of the file's module, or `None` for the root.
    pub namepath: Option<&'a Namepath<'src>>,
    /// The working directory of the file's module.
    pub working_directory: &'a str,
}

impl Source<'_, '_> {
    /// Returns the origin of a root file: at depth 0, imported by none, in no module, and with an
    /// empty working directory.
    pub fn root() -> Self
        ensures depth { result.file_depth ≡ 0 }
        ensures imports { result.import_offsets.now ≡ [] }
        ensures module { result.namepath ≡ None }
        ensures directory { result.working_directory.now ≡ [] }
    {
        Source {
            file_depth: 0,
            import_offsets: &[],
            namepath: None,
            working_directory: "",
        }
    }
}
