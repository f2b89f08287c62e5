//! The methods that are known.
ghost use Rattle.std.specs.Prelude.{◌≡◌};
ghost use Rattle.editor_messages.specs.Methods.{method_name, method_named};

/// A method of the protocol.
#[derive(Clone, Copy, PartialEq, Eq)]
pub enum Method {
    /// Asks what the server can do.
    Initialize,
    /// Asks the server to end its work.
    Shutdown,
    /// Tells the server to exit.
    Exit,
    /// Tells that a document was opened.
    DidOpen,
    /// Tells how a document was changed.
    DidChange,
    /// Tells that a document was closed.
    DidClose,
    /// Asks for the symbols of a document.
    DocumentSymbol,
    /// Asks for what can be folded.
    FoldingRange,
    /// Asks for edits that format a document.
    Formatting,
    /// Asks for edits that format a range.
    RangeFormatting,
    /// Asks where a name is defined.
    Definition,
    /// Asks where a name is used.
    References,
    /// Asks where a name is, to highlight it.
    DocumentHighlight,
    /// Asks whether there is a name that can be replaced.
    PrepareRename,
    /// Asks for edits that replace a name.
    Rename,
    /// Asks what is known of a name.
    Hover,
    /// Asks what can be written somewhere.
    Completion,
    /// Asks for ways to set right what is wrong in a range.
    CodeAction,
    /// Asks for the parameters of what is called somewhere.
    SignatureHelp,
    /// Asks for commands that are shown in a document.
    CodeLens,
    /// Asks for the kinds of tokens.
    SemanticTokens,
    /// Asks for the links of a document.
    DocumentLink,
}

/// All methods.
static METHODS: [Method; 22] = [
    Method::Initialize,
    Method::Shutdown,
    Method::Exit,
    Method::DidOpen,
    Method::DidChange,
    Method::DidClose,
    Method::DocumentSymbol,
    Method::FoldingRange,
    Method::Formatting,
    Method::RangeFormatting,
    Method::Definition,
    Method::References,
    Method::DocumentHighlight,
    Method::PrepareRename,
    Method::Rename,
    Method::Hover,
    Method::Completion,
    Method::CodeAction,
    Method::SignatureHelp,
    Method::CodeLens,
    Method::SemanticTokens,
    Method::DocumentLink,
];

impl Method {
    /// Returns the method with a name.
    pub fn from_name(name: &str) -> Option<Method>
        ensures { result ≡ method_named name.now }
    {
        METHODS.iter().copied().find(|method| method.name() == name)
    }

    /// Returns the method's name.
    fn name(self) -> &'static str
        ensures { result.now ≡ method_name self }
    {
        match self {
            Method::Initialize => "initialize",
            Method::Shutdown => "shutdown",
            Method::Exit => "exit",
            Method::DidOpen => "textDocument/didOpen",
            Method::DidChange => "textDocument/didChange",
            Method::DidClose => "textDocument/didClose",
            Method::DocumentSymbol => "textDocument/documentSymbol",
            Method::FoldingRange => "textDocument/foldingRange",
            Method::Formatting => "textDocument/formatting",
            Method::RangeFormatting => "textDocument/rangeFormatting",
            Method::Definition => "textDocument/definition",
            Method::References => "textDocument/references",
            Method::DocumentHighlight => "textDocument/documentHighlight",
            Method::PrepareRename => "textDocument/prepareRename",
            Method::Rename => "textDocument/rename",
            Method::Hover => "textDocument/hover",
            Method::Completion => "textDocument/completion",
            Method::CodeAction => "textDocument/codeAction",
            Method::SignatureHelp => "textDocument/signatureHelp",
            Method::CodeLens => "textDocument/codeLens",
            Method::SemanticTokens => "textDocument/semanticTokens/full",
            Method::DocumentLink => "textDocument/documentLink",
        }
    }
}
