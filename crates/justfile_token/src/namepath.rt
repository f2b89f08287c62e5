//! Paths of names, which are never empty.
ghost use Rattle.std.specs.Prelude.{◌≡◌, ◌<◌, ◌-◌, [], ◌∷◌, ◌++◌, length, slice_get, IfOk, OnOk, OnErr, Some};
ghost use Rattle.std.specs.Slice.Iter.{iter_rest};

use crate::name::Name;
use crate::path::write_path;
use std::alloc::{AllocError, Global};
use std::{fmt, slice};

/// A name, after the names of the modules around it, outermost first.
#[derive(Drop, PartialEq, Eq, PartialOrd, Ord)]
pub struct Namepath<'src> {
    names: Vec<Name<'src>>,
    ghost is_nonempty: { 0 < length names.items },
}

impl<'src> Namepath<'src> {
    ghost use Rattle.justfile_token.specs.Namepath.{names_in};

    /// Returns the path of a single name.
    ///
    /// # Errors
    ///
    /// `AllocError` if memory runs out.
    pub fn from_name(alloc: Global, name: Name<'src>) -> Result<Self, AllocError>
        ensures { IfOk result (λ path. names_in path ≡ name.entry ∷ []) }
    {
        let mut names = Vec::with_capacity(alloc, 1)?;
        names.push(name)?;
        Ok(Namepath { names })
    }

    /// Returns the path with this name appended.
    ///
    /// # Errors
    ///
    /// `AllocError` if memory runs out.
    pub fn join(&self, alloc: Global, name: Name<'src>) -> Result<Self, AllocError>
        ensures { IfOk result (λ path. names_in path ≡ names_in self.now ++ name.entry ∷ []) }
    {
        let mut path = self.clone(alloc)?;
        path.push(name)?;
        Ok(path)
    }

    /// Appends a name.
    ///
    /// # Errors
    ///
    /// `AllocError` if memory runs out; the path is unchanged.
    pub fn push(&mut self, name: Name<'src>) -> Result<(), AllocError>
        ensures ok { OnOk result (names_in self.new ≡ names_in self.old ++ name.entry ∷ []) }
        ensures err { OnErr result (names_in self.new ≡ names_in self.old) }
    {
        self.names.push(name)?;
        Ok(())
    }

    /// Returns the last name, to which the path leads.
    pub fn last(&self) -> &Name<'src>
        ensures { slice_get (names_in self.now) (length (names_in self.now) - 1) ≡ Some result.now }
    {
        &self.names[self.names.len() - 1]
    }

    /// Returns the last name, and the names of the modules before it.
    pub fn split_last(&self) -> (&Name<'src>, &[Name<'src>])
        ensures { names_in self.now ≡ result.1.now ++ result.0.now ∷ [] }
    {
        let last = self.names.len() - 1;
        (&self.names[last], &self.names[..last])
    }

    /// Returns an iterator over the names in order.
    pub fn iter(&self) -> slice::Iter<'_, Name<'src>>
        ensures { iter_rest result ≡ names_in self.now }
    {
        self.names.iter()
    }

    /// Returns the number of names.
    pub fn components(&self) -> usize
        ensures { result ≡ length (names_in self.now) }
    {
        self.names.len()
    }

    /// Returns a copy of the path.
    ///
    /// # Errors
    ///
    /// `AllocError` if memory runs out.
    pub fn clone(&self, alloc: Global) -> Result<Self, AllocError>
        ensures { IfOk result (λ copy. names_in copy ≡ names_in self.now) }
    {
        let names = self.names.as_slice().to_vec(alloc)?;
        Ok(Namepath { names })
    }
}

impl fmt::Display for Namepath<'_> {
    ghost use Rattle.justfile_token.specs.Namepath.{namepath_text};

    ghost output = { λ path. Some (namepath_text path) };

    fn fmt<W: fmt::Write>(&self, f: &mut fmt::Formatter<W>) -> fmt::Result {
        write_path(&self.names, f)
    }
}

/// Writes the path as `Display` does.
impl fmt::Debug for Namepath<'_> {
    fn fmt<W: fmt::Write>(&self, f: &mut fmt::Formatter<W>) -> fmt::Result {
        write_path(&self.names, f)
    }
}
