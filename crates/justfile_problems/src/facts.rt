//! What a file says of names: where each is defined, and where it is used.
use justfile_builtins::functions::Arguments;
use justfile_token::{Name, Token};
use justfile_vocabulary::{AttributeKind, ItemKind, Keyword, ListFeature};

/// A set of names, which an item has or the file. The names that the file may define are apart: those
/// of items for other systems, and of modules whose files need not exist.
#[derive(Clone, Copy, Debug, PartialEq, Eq, Hash)]
pub enum Space {
    /// Aliases, modules and recipes.
    Commands,
    /// The recipe that has the attribute `default`, whatever its name is.
    DefaultRecipes,
    /// The first parameter of an item that has a default and isn't an option, whatever its name is.
    Defaults,
    /// Settings with values that exclude other settings.
    ExclusiveSettings,
    /// Functions.
    Functions,
    /// Aliases, modules and recipes that the file may define.
    HiddenCommands,
    /// Functions that the file may define.
    HiddenFunctions,
    /// Assignments that the file may have.
    HiddenVariables,
    /// The parameters of an item.
    Parameters,
    /// Settings.
    Settings,
    /// Variables that are removed from the environment.
    Unexports,
    /// Assignments.
    Variables,
}

/// A place where a name is defined.
#[derive(Clone, Copy)]
pub struct Definition<'src> {
    /// The set of names that it belongs to.
    pub space: Space,
    /// The kind of the item that defines it.
    pub kind: ItemKind,
    /// The name of that item.
    pub item: Name<'src>,
    /// The name.
    pub name: Name<'src>,
    /// The numbers of arguments that a recipe or a function takes.
    pub takes: Arguments,
}

/// What a name is used as.
#[derive(Clone, Copy, Debug, PartialEq, Eq)]
pub enum Role {
    /// A recipe that another one depends on, with this number of arguments.
    Dependency(usize),
    /// A setting that excludes another one.
    Exclusive {
        /// The keyword that is its name.
        own: Keyword,
        /// The one that it excludes.
        other: Keyword,
    },
    /// An assignment with the word `export`.
    Export,
    /// A function that is called, with this number of arguments.
    Function(usize),
    /// A parameter that is required and isn't an option.
    Required,
    /// The target of an alias.
    Target,
    /// A variable, which may be a parameter of its item. In a default it sees the parameters before
    /// this offset, and elsewhere all.
    Variable(Option<usize>),
}

/// A place where a name is used.
#[derive(Clone, Copy)]
pub struct Use<'src> {
    /// What it is used as.
    pub role: Role,
    /// The name of the item that uses it.
    pub item: Name<'src>,
    /// The name.
    pub name: Name<'src>,
    /// Whether it may be in a line that begins with `#`, which the setting `ignore-comments` makes a
    /// comment.
    pub commented: bool,
}

/// What is wrong at a place under some settings. `shell` is whether the recipe has the attribute
/// `shell`, so that the setting `default-script` doesn't make it a script.
#[derive(Clone, Copy, Debug, PartialEq, Eq)]
pub enum SuspectKind {
    /// A line begins with blanks behind the indentation, and doesn't continue another one.
    Blanks {
        shell: bool,
    },
    /// A feature that needs the setting `lists`.
    ListFeature(ListFeature),
    /// A starred dependency.
    MappedDependency,
    /// An attribute that is for scripts.
    ScriptAttribute {
        attribute: AttributeKind,
        shell: bool,
    },
    /// A line has the sigils `?` and `-`, and doesn't continue another one.
    Sigils {
        shell: bool,
    },
}

/// A place that is wrong under some settings.
#[derive(Clone, Copy)]
pub struct Suspect<'src> {
    /// The token that is there.
    pub token: Token<'src>,
    /// What may be wrong.
    pub kind: SuspectKind,
}

/// What a file allows.
#[derive(Clone, Copy)]
pub struct Rules {
    /// Recipes with a body are run as scripts, unless they have the attribute `shell`.
    pub default_script: bool,
    /// Recipes may be defined twice.
    pub duplicate_recipes: bool,
    /// Variables may be defined twice.
    pub duplicate_variables: bool,
    /// `?` is a sigil.
    pub guards: bool,
    /// Lines of bodies that begin with `#` are comments.
    pub ignore_comments: bool,
    /// Values can be lists.
    pub lists: bool,
    /// Other files may define names and set settings: the file imports one, or may be imported.
    pub open: bool,
}

/// A place where a name of a module is used, by a path of two names.
#[derive(Clone, Copy)]
pub struct Member<'src> {
    /// The name of the module.
    pub owner: Name<'src>,
    /// The use of the other name, as it is used in the module.
    pub used: Use<'src>,
}

/// What a file says of names.
#[derive(Drop)]
pub struct Facts<'src> {
    /// What it allows.
    pub rules: Rules,
    /// Where its items define names, in their order.
    pub definitions: Vec<Definition<'src>>,
    /// Where they use names.
    pub uses: Vec<Use<'src>>,
    /// Where they use names of modules.
    pub members: Vec<Member<'src>>,
    /// Where they are wrong under some settings.
    pub suspects: Vec<Suspect<'src>>,
}

/// Where an import or a module leads.
#[derive(Clone, Copy, Debug, PartialEq, Eq)]
pub enum Target {
    /// To the file with this index.
    File(usize),
    /// To no file.
    Nothing,
    /// It isn't known.
    Unknown,
}

/// An import of one file by another, or a module.
#[derive(Clone, Copy)]
pub struct Link<'src> {
    /// The index of the file that has it.
    pub from: usize,
    /// Where it leads.
    pub target: Target,
    /// Whether it need not lead to a file.
    pub optional: bool,
    /// The name of the module, if it is one.
    pub submodule: Option<Name<'src>>,
    /// The token of its path, or of that name.
    pub token: Token<'src>,
}

/// An import, as it is written.
#[derive(Drop)]
pub struct Import<'src> {
    /// The path as it is meant: without delimiters, and with escapes replaced.
    pub path: String,
    /// Whether the path leads to the file as it is: it isn't expanded as in a shell, and doesn't begin
    /// with `~`.
    pub plain: bool,
    /// Whether the file need not exist.
    pub optional: bool,
    /// The token of the path.
    pub token: Token<'src>,
}

/// A module, as it is written.
#[derive(Drop)]
pub struct Submodule<'src> {
    /// Its name.
    pub name: Name<'src>,
    /// The path that it is given, as it is meant, if it is.
    pub path: Option<String>,
    /// Whether that leads to the file as it is, as that of an import.
    pub plain: bool,
    /// Whether its file need not exist.
    pub optional: bool,
}

/// Where the file of a module is.
#[derive(Drop)]
pub enum Located {
    /// At this path, if there is a file.
    At(String),
    /// Nowhere.
    Nowhere,
    /// It isn't known.
    Unknown,
}

/// A module, and where its file is.
#[derive(Drop)]
pub struct LocatedModule<'src> {
    /// Its name.
    pub name: Name<'src>,
    /// Whether its file need not exist.
    pub optional: bool,
    /// Where that is.
    pub file: Located,
}

/// A file of a module.
#[derive(Drop)]
pub struct ModuleFile<'src> {
    /// Its name in messages.
    pub name: &'src str,
    /// Its path, by which others import it.
    pub path: &'src str,
    /// Its text.
    pub source: &'src str,
    /// What it says of names.
    pub facts: Facts<'src>,
    /// Its imports.
    pub imports: Vec<Import<'src>>,
    /// Its modules.
    pub modules: Vec<LocatedModule<'src>>,
}
