//! What a file of a module says.
ghost use Rattle.std.specs.Prelude.{IfOk};
ghost use Rattle.justfile_lint.specs.Modules.{AreLinksOf, IsSaidBy};

use justfile_ast::Ast;
use justfile_facts::{facts_of, imports_of, submodules_of};
use justfile_problems::{Facts, Import, Submodule};
use std::alloc::{AllocError, Global};

/// What leads from a file to others, of what is enabled.
#[derive(Drop)]
pub struct FileLinks<'src> {
    /// Its imports.
    pub imports: Vec<Import<'src>>,
    /// Its modules.
    pub submodules: Vec<Submodule<'src>>,
}

/// What a file of a module says.
#[derive(Drop)]
pub struct FileFacts<'src> {
    /// What it says of names.
    pub facts: Facts<'src>,
    /// Its imports that are enabled.
    pub imports: Vec<Import<'src>>,
    /// Its modules that are enabled.
    pub submodules: Vec<Submodule<'src>>,
}

/// Returns what a file says that is one of a module: other ones may import it. The file is passed as
/// `&mut`, and isn't changed.
///
/// # Errors
///
/// `AllocError` if memory runs out.
pub fn file_facts<'src>(ast: &mut Ast<'src>, alloc: Global) -> Result<FileFacts<'src>, AllocError>
    ensures { IfOk result (IsSaidBy ast.old) }
{
    let facts = facts_of(&ast.items, &ast.list_features, false, alloc)?;
    let imports = imports_of(&ast.items, alloc)?;
    let submodules = submodules_of(&ast.items, alloc)?;
    Ok(FileFacts {
        facts,
        imports,
        submodules,
    })
}

/// Returns what leads from a file to others. The file is passed as `&mut`, and isn't changed.
///
/// # Errors
///
/// `AllocError` if memory runs out.
pub fn file_links<'src>(ast: &mut Ast<'src>, alloc: Global) -> Result<FileLinks<'src>, AllocError>
    ensures { IfOk result (AreLinksOf ast.old) }
{
    let imports = imports_of(&ast.items, alloc)?;
    let submodules = submodules_of(&ast.items, alloc)?;
    Ok(FileLinks {
        imports,
        submodules,
    })
}
