//! The folder in which files lie.
ghost use Rattle.std.specs.Prelude.{◌≡◌, ℕ, List, Option, IfOk, IfSome, OnErr, OnOk};
ghost use Rattle.std.specs.Option.{option_map};
ghost use Rattle.justfile_files.specs.Folder.{KeepsFiles, Replaces};
ghost use Rattle.justfile_files.specs.Request.{texts};

use std::alloc::{AllocError, Global};
use std::io;

/// Why the bytes of a file weren't replaced.
#[derive(Debug, Drop)]
pub enum ReplaceError {
    /// The system refused it.
    System(io::Error),
    /// The file holds other bytes than those that were read.
    Changed,
    /// What the words tell.
    Other(String),
}

impl From<io::Error> for ReplaceError {
    fn from(error: io::Error) -> Self {
        ReplaceError::System(error)
    }
}

impl From<AllocError> for ReplaceError {
    fn from(error: AllocError) -> Self {
        ReplaceError::System(io::Error::from(error))
    }
}

/// A folder of files with names: for the program the file system, for a test a folder in memory.
pub trait Folder {
    /// The bytes of the file with a name, if there is one and they are known.
    ghost contents: { Self → List ℕ → Option (List ℕ) };

    /// The folder with a name, if it is one that can be searched, has files with these names within
    /// it: in it and below, those of justfiles at least. Names of folders that can't be searched
    /// are among them, with a slash at their end.
    ghost lists: { Self → List ℕ → Option (List (List ℕ)) → Type 0 };

    /// Returns the names of the files in a folder and below, if the name is that of a folder.
    ///
    /// # Errors
    ///
    /// Memory ran out.
    fn files_in(&self, alloc: Global, name: &str) -> Result<Option<Vec<String>>, AllocError>
        ensures { IfOk result (λ names. lists self.now name.now
            (option_map (λ found. texts found.items) names)) };

    /// Returns the bytes of a file.
    ///
    /// # Errors
    ///
    /// There is no such file, or it can't be read.
    fn read(&mut self, alloc: Global, name: &str) -> io::Result<Vec<u8>>
        ensures ok { IfOk result (λ bytes. IfSome (contents self.old name.now)
            (λ known. bytes.items ≡ known)) }
        ensures kept { KeepsFiles (contents self.old) (contents self.new) };

    /// Returns the bytes of a file that another one names, if it is one that may be read for that.
    ///
    /// # Errors
    ///
    /// There is no such file, or it can't be read.
    fn read_named(&mut self, alloc: Global, name: &str) -> io::Result<Vec<u8>>
        ensures ok { IfOk result (λ bytes. IfSome (contents self.old name.now)
            (λ known. bytes.items ≡ known)) }
        ensures kept { KeepsFiles (contents self.old) (contents self.new) };

    /// Replaces the bytes of a file, which are those of the text `source`, by those of another
    /// text, all of them or none.
    ///
    /// # Errors
    ///
    /// The file holds other bytes, or can't be replaced. It is as it was.
    fn replace(
        &mut self,
        alloc: Global,
        name: &str,
        source: &str,
        text: &str,
    ) -> Result<(), ReplaceError>
        ensures read { OnOk result (IfSome (contents self.old name.now)
            (λ known. source.now ≡ known)) }
        ensures ok { OnOk result
            (Replaces (contents self.old) (contents self.new) name.now text.now) }
        ensures err { OnErr result (KeepsFiles (contents self.old) (contents self.new)) };
}
