//! Kinds of symbols.
ghost use Rattle.std.specs.Prelude.{◌≡◌};
ghost use Rattle.editor_messages.specs.Numbers.{symbol_number};

/// What a symbol is.
#[derive(Clone, Copy)]
pub enum SymbolKind {
    /// A module, or a file.
    Module,
    /// A setting.
    Property,
    /// A function, or what is run.
    Function,
    /// A variable.
    Variable,
}

impl SymbolKind {
    /// Returns the number that the protocol has for the kind.
    pub fn number(self) -> usize
        ensures { result ≡ symbol_number self }
    {
        match self {
            SymbolKind::Module => 2,
            SymbolKind::Property => 7,
            SymbolKind::Function => 12,
            SymbolKind::Variable => 13,
        }
    }
}
