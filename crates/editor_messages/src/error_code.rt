//! Why a request is refused.
ghost use Rattle.std.specs.Prelude.{◌≡◌};
ghost use Rattle.editor_messages.specs.Numbers.{error_number};

/// Why a request is refused.
#[derive(Clone, Copy)]
pub enum ErrorCode {
    /// The message is no JSON.
    ParseError,
    /// The message is no request.
    InvalidRequest,
    /// The method isn't known.
    MethodNotFound,
    /// The method lacks a parameter, or has a wrong one.
    InvalidParams,
    /// Memory ran out.
    InternalError,
    /// The server isn't initialized.
    ServerNotInitialized,
    /// What was asked for can't be done.
    RequestFailed,
    /// The document's text isn't known.
    ContentModified,
}

impl ErrorCode {
    /// Returns the number that the protocol has for the reason.
    pub fn number(self) -> i64
        ensures { result ≡ error_number self }
    {
        match self {
            ErrorCode::ParseError => -32700,
            ErrorCode::InvalidRequest => -32600,
            ErrorCode::MethodNotFound => -32601,
            ErrorCode::InvalidParams => -32602,
            ErrorCode::InternalError => -32603,
            ErrorCode::ServerNotInitialized => -32002,
            ErrorCode::RequestFailed => -32803,
            ErrorCode::ContentModified => -32801,
        }
    }
}
