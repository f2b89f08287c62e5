//! Serving an editor over streams.
ghost use Rattle.std.specs.Prelude.{◌≡◌, IfOk, None, OnOk};
ghost use Rattle.editor_messages.specs.declared.error_code.ErrorCode.TheVariants.{InternalError, InvalidRequest};
ghost use Rattle.editor_server.specs.Changed.{AreKnown};
ghost use Rattle.editor_server.specs.Served.{Handles, IsServed, Takes, Tells, Writes};

use crate::sent::Sent;
use crate::server::Server;
use editor_json::error_text;
use editor_language::Language;
use editor_messages::ErrorCode;
use message_stream::{Received, read_message, write_message};
use std::alloc::Global;
use std::io::{self, BufRead, Write};

/// How many bytes the body of a message has at most.
const LIMIT: usize = 1 << 26;

/// The exit status if the input ends before the editor tells the server to exit.
const CUT_OFF: u8 = 1;

/// Answers messages until the editor tells the server to exit, or the input ends. Returns the exit
/// status.
///
/// # Errors
///
/// Reading or writing failed.
pub fn serve<L: Language, R: BufRead, W: Write>(
    alloc: Global,
    language: &L,
    reader: &mut R,
    writer: &mut W,
) -> io::Result<u8>
    ensures { IfOk result (λ status. IsServed L.knows L.finds L.mentioned L.formats L.unformatted L.names
        L.linked L.completed L.fixed L.signed L.runs
        (R.remaining reader.old) (W.contents writer.old) status
        (R.remaining reader.new) (W.contents writer.new)) }
{
    let mut server = Server::new(alloc);
    for _ in 0..u64::MAX {
        let received = read_message(alloc, LIMIT, reader)?;
        if let Some(status) = answer(alloc, language, &mut server, received, writer)? {
            return Ok(status);
        }
    }
    Ok(CUT_OFF)
}

/// Answers what was received. Returns the exit status if the server is to exit.
#[tactic(auto, using(crate::proofs::Unread::known_unread, crate::proofs::Handled::lost_and_told))]
fn answer<L: Language, W: Write>(
    alloc: Global,
    language: &L,
    server: &mut Server,
    received: Received,
    writer: &mut W,
) -> io::Result<Option<u8>>
    requires { AreKnown L.knows server.old.documents.list }
    ensures known { AreKnown L.knows server.new.documents.list }
    ensures takes { IfOk result (Takes L.knows L.finds L.mentioned L.formats L.unformatted L.names
        L.linked L.completed L.fixed L.signed L.runs
        received server.old server.new (W.contents writer.old)
        (W.contents writer.new)) }
{
    match received {
        Received::End => Ok(Some(CUT_OFF)),
        Received::WrongHeader => {
            server.lose_all(alloc);
            let message = "the header names no length";
            refuse(alloc, ErrorCode::InvalidRequest, message, writer)
        }
        Received::TooLong => {
            server.lose_all(alloc);
            let message = "the message is too long";
            refuse(alloc, ErrorCode::InvalidRequest, message, writer)
        }
        Received::Message(body) => react(alloc, language, server, &body, writer),
    }
}

/// Does what is to be done after a message. Returns the exit status if the server is to exit.
fn react<L: Language, W: Write>(
    alloc: Global,
    language: &L,
    server: &mut Server,
    body: &[u8],
    writer: &mut W,
) -> io::Result<Option<u8>>
    requires { AreKnown L.knows server.old.documents.list }
    ensures known { AreKnown L.knows server.new.documents.list }
    ensures handles { IfOk result (Handles L.knows L.finds L.mentioned L.formats L.unformatted L.names
        L.linked L.completed L.fixed L.signed L.runs
        body.now server.old server.new (W.contents writer.old)
        (W.contents writer.new)) }
{
    match server.react(alloc, language, body) {
        Ok(Sent::Nothing) => Ok(None),
        Ok(Sent::Text(text)) => send(alloc, text.as_str(), writer),
        Ok(Sent::Exit(status)) => Ok(Some(status)),
        Err(_) => refuse(alloc, ErrorCode::InternalError, "memory ran out", writer),
    }
}

/// Sends a message. The server goes on.
fn send<W: Write>(alloc: Global, body: &str, writer: &mut W) -> io::Result<Option<u8>>
    ensures writes { OnOk result
        (Writes body.now (W.contents writer.old) (W.contents writer.new)) }
    ensures goes_on { IfOk result (λ exits. exits ≡ None) }
{
    write_message(alloc, body, writer)?;
    Ok(None)
}

/// Tells why a message isn't answered, unless there is too little memory for that. The server goes on.
#[tactic(auto, using(crate::proofs::Handled::untold))]
fn refuse<W: Write>(
    alloc: Global,
    code: ErrorCode,
    message: &str,
    writer: &mut W,
) -> io::Result<Option<u8>>
    ensures tells { OnOk result (Tells code (W.contents writer.old) (W.contents writer.new)) }
    ensures goes_on { IfOk result (λ exits. exits ≡ None) }
{
    match error_text(alloc, None, code, message) {
        Ok(text) => send(alloc, text.as_str(), writer),
        Err(_) => Ok(None),
    }
}
