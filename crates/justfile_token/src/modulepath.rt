//! Paths of modules, as texts that are copied.
ghost use Rattle.std.specs.Prelude.{◌≡◌, [], ◌∷◌, ◌++◌, IfOk, OnOk, OnErr, Some, map, string_bytes};

use crate::namepath::Namepath;
use crate::path::write_path;
use std::alloc::{AllocError, Global};
use std::fmt;

/// The names of a module and of the modules around it, outermost first. The root has no names.
#[derive(Drop, PartialEq, Eq, PartialOrd, Ord)]
pub struct Modulepath {
    names: Vec<String>,
}

impl Modulepath {
    ghost use Rattle.justfile_token.specs.Modulepath.{module_names, names_of};

    /// Returns the path of the root.
    pub fn new(alloc: Global) -> Self
        ensures { names_of result ≡ [] }
    {
        Modulepath {
            names: Vec::new(alloc),
        }
    }

    /// Returns the path with the names of a namepath, or the path of the root if there is none.
    ///
    /// # Errors
    ///
    /// `AllocError` if memory runs out.
    pub fn from_namepath(alloc: Global, namepath: Option<&Namepath<'_>>) -> Result<Self, AllocError>
        ensures { IfOk result (λ path. names_of path ≡ module_names namepath.entry) }
    {
        let mut path = Modulepath::new(alloc);
        let Some(namepath) = namepath else {
            return Ok(path);
        };
        for name in namepath.iter().as_slice() {
            path.push(name.token.lexeme().to_string(alloc)?)?;
        }
        Ok(path)
    }

    /// Returns the names, outermost first.
    pub fn names(&self) -> &[String]
        ensures { map string_bytes result.now ≡ names_of self.now }
    {
        &self.names
    }

    /// Appends the name of a module.
    ///
    /// # Errors
    ///
    /// `AllocError` if memory runs out; the path is unchanged.
    pub fn push(&mut self, name: String) -> Result<(), AllocError>
        ensures ok { OnOk result (names_of self.new ≡ names_of self.old ++ string_bytes name ∷ []) }
        ensures err { OnErr result (names_of self.new ≡ names_of self.old) }
    {
        self.names.push(name)?;
        Ok(())
    }

    /// Returns a copy of the path.
    ///
    /// # Errors
    ///
    /// `AllocError` if memory runs out.
    pub fn clone(&self, alloc: Global) -> Result<Self, AllocError>
        ensures { IfOk result (λ copy. names_of copy ≡ names_of self.now) }
    {
        let mut names = Vec::new(alloc);
        for name in &self.names {
            names.push(name.as_str().to_string(alloc)?)?;
        }
        Ok(Modulepath { names })
    }
}

impl fmt::Display for Modulepath {
    ghost use Rattle.justfile_token.specs.Modulepath.{names_of};
    ghost use Rattle.justfile_token.specs.Path.{path_text};

    ghost output = { λ path. Some (path_text (names_of path)) };

    fn fmt<W: fmt::Write>(&self, f: &mut fmt::Formatter<W>) -> fmt::Result {
        write_path(&self.names, f)
    }
}

/// Writes the path as `Display` does.
impl fmt::Debug for Modulepath {
    fn fmt<W: fmt::Write>(&self, f: &mut fmt::Formatter<W>) -> fmt::Result {
        write_path(&self.names, f)
    }
}
