//! What the server does at each message.
ghost use Rattle.std.specs.Prelude.{◌≡◌, IfErr, IfOk, OnErr, false};
ghost use Rattle.std.specs.BTreeMap.{IsEmpty, get_by_text};
ghost use Rattle.editor_answers.specs.Answers.{FailsFor};
ghost use Rattle.editor_messages.specs.declared.error_code.ErrorCode.TheVariants.{InvalidRequest};
ghost use Rattle.serde_json.specs.View.{view};
ghost use Rattle.editor_server.specs.Answering.{Answered, FailsAt, Handles, HandlesParsed, IsUnread, LosesTexts, Unanswered, UnansweredParsed};
ghost use Rattle.editor_server.specs.Changed.{AreKnown};
ghost use Rattle.editor_server.specs.Model.{Answers, Changes, IsAnswerAbout, IsRefusedAbout, LeavesOnError, Loses, Notes, Publishes, Refuses, Replies, Stores, TellsOf, absence, reason_of};
ghost use Rattle.editor_server.specs.declared.reaction.Stage.TheVariants.{New, Working};
ghost use Rattle.editor_server.specs.Steps.{AfterAll, Fails, IsIdle, IsMade, IsRefusal, Reacts};

use crate::documents::Documents;
use crate::reaction::{Reaction, Stage};
use crate::sent::{Sent, make_sent};
use editor_answers::{Failure, answer};
use editor_json::{message_of, parsed};
use editor_language::Language;
use editor_messages::{Answer, Change, ErrorCode, Id, Message, Notification, Query, Request};
use justfile_lines::Encoding;
use serde_json::Value;
use std::alloc::{AllocError, Global};

/// A server.
#[derive(Drop)]
pub struct Server {
    stage: Stage,
    encoding: Encoding,
    documents: Documents,
}

impl Server {
    /// Returns a server that isn't initialized.
    pub fn new(alloc: Global) -> Self
        ensures stage { result.stage ≡ New }
        ensures documents { IsEmpty result.documents.list }
        ensures lost { result.documents.has_lost ≡ false }
    {
        Server {
            stage: Stage::New,
            encoding: Encoding::Utf16,
            documents: Documents::new(alloc),
        }
    }

    /// Returns what is to be done after a message with this body.
    ///
    /// # Errors
    ///
    /// Memory ran out.
    #[tactic(auto, using(crate::proofs::Unread::known_unread))]
    pub fn react<L: Language>(
        &mut self,
        alloc: Global,
        language: &L,
        body: &[u8],
    ) -> Result<Sent, AllocError>
        requires { AreKnown L.knows self.old.documents.list }
        ensures ok { IfOk result (Answered L.knows L.finds L.mentioned L.formats L.unformatted L.names
            L.linked L.completed L.fixed L.signed L.runs body.now self.old self.new) }
        ensures failed { OnErr result (FailsAt L.knows L.finds L.mentioned L.formats L.unformatted
            L.names L.linked L.completed L.fixed L.signed L.runs body.now self.old self.new) }
        ensures known { AreKnown L.knows self.new.documents.list }
    {
        match parsed(alloc, body) {
            Ok(value) => self.react_to_parsed(alloc, language, &value),
            Err(_) => {
                self.lose_all(alloc);
                Err(AllocError)
            }
        }
    }

    /// Returns what is to be done after a body that writes this value, or none.
    #[tactic(auto, using(crate::proofs::Unread::known_unread))]
    fn react_to_parsed<L: Language>(
        &mut self,
        alloc: Global,
        language: &L,
        value: &Option<Value>,
    ) -> Result<Sent, AllocError>
        requires { AreKnown L.knows self.old.documents.list }
        ensures ok { IfOk result (HandlesParsed L.knows L.finds L.mentioned L.formats L.unformatted
            L.names L.linked L.completed L.fixed L.signed L.runs value.now self.old self.new) }
        ensures failed { OnErr result (UnansweredParsed L.knows L.finds L.mentioned L.formats
            L.unformatted L.names L.linked L.completed L.fixed L.signed L.runs
            value.now self.old self.new) }
        ensures known { AreKnown L.knows self.new.documents.list }
    {
        match value {
            Some(value) => self.react_to_value(alloc, language, value),
            None => self.refuse_unread(alloc),
        }
    }

    /// Returns what is to be done after a message that is this value.
    #[tactic(auto, using(crate::proofs::Unread::known_unread))]
    fn react_to_value<L: Language>(
        &mut self,
        alloc: Global,
        language: &L,
        value: &Value,
    ) -> Result<Sent, AllocError>
        requires { AreKnown L.knows self.old.documents.list }
        ensures ok { IfOk result (Handles L.knows L.finds L.mentioned L.formats L.unformatted L.names
            L.linked L.completed L.fixed L.signed L.runs (view value.now) self.old self.new) }
        ensures failed { OnErr result (Unanswered L.knows L.finds L.mentioned L.formats L.unformatted
            L.names L.linked L.completed L.fixed L.signed L.runs
            (view value.now) self.old self.new) }
        ensures known { AreKnown L.knows self.new.documents.list }
    {
        match message_of(alloc, value) {
            Ok(message) => {
                let reaction = self.react_to(alloc, language, message)?;
                make_sent(alloc, &reaction)
            }
            Err(_) => {
                self.lose_all(alloc);
                Err(AllocError)
            }
        }
    }

    /// Returns what is to be done after a body that is no JSON.
    fn refuse_unread(&mut self, alloc: Global) -> Result<Sent, AllocError>
        ensures ok { IfOk result (IsUnread self.old self.new) }
        ensures lost { LosesTexts self.old self.new }
    {
        self.lose_all(alloc);
        make_sent(alloc, &refused(None, ErrorCode::ParseError))
    }

    /// Forgets all texts, since what was received isn't known: it may have changed any of them.
    pub(crate) fn lose_all(&mut self, alloc: Global)
        ensures { LosesTexts self.old self.new }
    {
        self.documents.lose_all(alloc);
    }

    /// Returns what is to be done after a message.
    fn react_to<'a, L: Language>(
        &mut self,
        alloc: Global,
        language: &L,
        message: Message<'a>,
    ) -> Result<Reaction<'a>, AllocError>
        requires { AreKnown L.knows self.old.documents.list }
        ensures ok { IfOk result (Reacts L.knows L.finds L.mentioned L.formats L.unformatted L.names
            L.linked L.completed L.fixed L.signed L.runs message.entry self.old self.new) }
        ensures failed { OnErr result (Fails message.entry self.old self.new) }
        ensures known { AreKnown L.knows self.new.documents.list }
    {
        match message {
            Message::Request(id, request) => self.reply(alloc, language, id, request),
            Message::Notification(told) => self.note(alloc, language, told),
            Message::Wrong(id, code) => Ok(refused(id, self.reason(code))),
            Message::Ignored => Ok(Reaction::Silent),
        }
    }

    /// Returns why a message is refused that is wrong for a reason. Before the work and after it that
    /// no request fits comes first.
    fn reason(&self, code: ErrorCode) -> ErrorCode
        ensures { result ≡ reason_of self.now.stage code }
    {
        match (self.stage, code) {
            (Stage::New, ErrorCode::MethodNotFound | ErrorCode::InvalidParams) => {
                ErrorCode::ServerNotInitialized
            }
            (Stage::ShutDown, ErrorCode::MethodNotFound | ErrorCode::InvalidParams) => {
                ErrorCode::InvalidRequest
            }
            _ => code,
        }
    }

    /// Returns what is to be done after a request.
    fn reply<'a, L: Language>(
        &mut self,
        alloc: Global,
        language: &L,
        id: Id<'a>,
        request: Request<'a>,
    ) -> Result<Reaction<'a>, AllocError>
        ensures ok { IfOk result (Replies id.entry
            (Answers L.knows L.mentioned L.formats L.unformatted L.names L.linked L.completed
            L.fixed L.signed L.runs self.old.stage self.old.encoding self.old.documents
            request.entry)
            (Refuses L.knows L.mentioned L.names self.old.stage self.old.encoding
            self.old.documents request.entry)) }
        ensures after { AfterAll request.entry self.old self.new }
    {
        let made = self.result(alloc, language, request);
        replied(id, made)
    }

    /// Returns the answer to a request.
    fn result<L: Language>(
        &mut self,
        alloc: Global,
        language: &L,
        request: Request<'_>,
    ) -> Result<Answer, Failure>
        ensures ok { IfOk result (Answers L.knows L.mentioned L.formats L.unformatted L.names
            L.linked L.completed L.fixed L.signed L.runs
            self.old.stage self.old.encoding self.old.documents
            request.entry) }
        ensures failed { IfErr result (FailsFor (Refuses L.knows L.mentioned L.names self.old.stage
            self.old.encoding self.old.documents request.entry)) }
        ensures after { AfterAll request.entry self.old self.new }
    {
        match self.stage {
            Stage::New => self.begin(language, request),
            Stage::Working => self.work(alloc, language, request),
            Stage::ShutDown => Err(unfit()),
        }
    }

    /// Returns the answer to a request, before the work.
    fn begin<L: Language>(&mut self, _language: &L, request: Request<'_>) -> Result<Answer, Failure>
        requires { self.old.stage ≡ New }
        ensures ok { IfOk result (Answers L.knows L.mentioned L.formats L.unformatted L.names
            L.linked L.completed L.fixed L.signed L.runs
            self.old.stage self.old.encoding self.old.documents
            request.entry) }
        ensures failed { IfErr result (FailsFor (Refuses L.knows L.mentioned L.names self.old.stage
            self.old.encoding self.old.documents request.entry)) }
        ensures after { AfterAll request.entry self.old self.new }
    {
        match request {
            Request::Initialize(encoding) => {
                self.stage = Stage::Working;
                self.encoding = encoding;
                Ok(Answer::Abilities(encoding))
            }
            _ => {
                let message = "the server isn't initialized";
                Err(Failure::Refused(ErrorCode::ServerNotInitialized, message))
            }
        }
    }

    /// Returns the answer to a request, at work.
    fn work<L: Language>(
        &mut self,
        alloc: Global,
        language: &L,
        request: Request<'_>,
    ) -> Result<Answer, Failure>
        requires { self.old.stage ≡ Working }
        ensures ok { IfOk result (Answers L.knows L.mentioned L.formats L.unformatted L.names
            L.linked L.completed L.fixed L.signed L.runs
            self.old.stage self.old.encoding self.old.documents
            request.entry) }
        ensures failed { IfErr result (FailsFor (Refuses L.knows L.mentioned L.names self.old.stage
            self.old.encoding self.old.documents request.entry)) }
        ensures after { AfterAll request.entry self.old self.new }
    {
        match request {
            Request::Shutdown => {
                self.stage = Stage::ShutDown;
                Ok(Answer::Nothing)
            }
            Request::About(uri, query) => self.about(alloc, language, uri, query),
            Request::Initialize(_) => Err(unfit()),
        }
    }

    /// Returns the answer to what is asked for about the document with an address.
    fn about<L: Language>(
        &self,
        alloc: Global,
        language: &L,
        uri: &str,
        query: Query<'_>,
    ) -> Result<Answer, Failure>
        ensures ok { IfOk result (IsAnswerAbout L.knows L.mentioned L.formats L.unformatted
            L.names L.linked L.completed L.fixed L.signed L.runs
            self.now.encoding uri.now query.entry
            (get_by_text self.now.documents.list uri.now)) }
        ensures failed { IfErr result (FailsFor (IsRefusedAbout L.knows L.mentioned L.names
            self.now.encoding uri.now query.entry
            (get_by_text self.now.documents.list uri.now) self.now.documents.has_lost)) }
    {
        match self.documents.get(uri) {
            Some(document) => {
                let text = document.text.as_str();
                let analysis = &document.analysis;
                answer(alloc, language, self.encoding, uri, text, analysis, query)
            }
            None => Err(absent(self.documents.has_lost)),
        }
    }

    /// Returns what is to be done after something was told.
    fn note<'a, L: Language>(
        &mut self,
        alloc: Global,
        language: &L,
        told: Notification<'a>,
    ) -> Result<Reaction<'a>, AllocError>
        requires { AreKnown L.knows self.old.documents.list }
        ensures stage { self.new.stage ≡ self.old.stage }
        ensures encoding { self.new.encoding ≡ self.old.encoding }
        ensures ok { IfOk result (Notes L.knows L.finds self.old.stage self.old.encoding told.entry
            self.old.documents self.new.documents) }
        ensures failed { OnErr result (LeavesOnError self.old.stage told.entry
            self.old.documents self.new.documents) }
        ensures known { AreKnown L.knows self.new.documents.list }
    {
        match self.stage {
            Stage::New => Ok(idle(told, 1)),
            Stage::ShutDown => Ok(idle(told, 0)),
            Stage::Working => self.note_at_work(alloc, language, told),
        }
    }

    /// Returns what is to be done after something was told, at work.
    #[tactic(auto, using(crate::proofs::Kept::known_closes, crate::proofs::Kept::known_loses, crate::proofs::Kept::known_lost))]
    fn note_at_work<'a, L: Language>(
        &mut self,
        alloc: Global,
        language: &L,
        told: Notification<'a>,
    ) -> Result<Reaction<'a>, AllocError>
        requires known { AreKnown L.knows self.old.documents.list }
        requires working { self.old.stage ≡ Working }
        ensures stage { self.new.stage ≡ self.old.stage }
        ensures encoding { self.new.encoding ≡ self.old.encoding }
        ensures ok { IfOk result (Notes L.knows L.finds self.old.stage self.old.encoding told.entry
            self.old.documents self.new.documents) }
        ensures failed { OnErr result (LeavesOnError self.old.stage told.entry
            self.old.documents self.new.documents) }
        ensures known { AreKnown L.knows self.new.documents.list }
    {
        match told {
            Notification::Exit => Ok(Reaction::Exit(1)),
            Notification::Open(uri, version, text) => {
                self.open(alloc, language, uri, version, text)
            }
            Notification::Change(uri, version, changes) => {
                self.change(alloc, language, uri, version, &changes)
            }
            Notification::Close(uri) => {
                self.documents.close(uri);
                Ok(Reaction::Publish(uri, None, Vec::new(alloc)))
            }
            Notification::Unclear(Some(uri)) => {
                self.documents.lose(uri);
                Ok(Reaction::Publish(uri, None, Vec::new(alloc)))
            }
            Notification::Unclear(None) => {
                self.documents.lose_all(alloc);
                Ok(Reaction::Silent)
            }
        }
    }

    /// Opens a document, and tells what is wrong in it.
    fn open<'a, L: Language>(
        &mut self,
        alloc: Global,
        language: &L,
        uri: &'a str,
        version: Option<i64>,
        text: &str,
    ) -> Result<Reaction<'a>, AllocError>
        requires { AreKnown L.knows self.old.documents.list }
        ensures stage { self.new.stage ≡ self.old.stage }
        ensures encoding { self.new.encoding ≡ self.old.encoding }
        ensures ok { IfOk result (Publishes uri.now version (Stores L.knows L.finds self.old.encoding
            uri.now text.now self.old.documents self.new.documents)) }
        ensures failed { OnErr result (Loses uri.now self.old.documents self.new.documents) }
        ensures known { AreKnown L.knows self.new.documents.list }
    {
        let encoding = self.encoding;
        let found = self.documents.open(alloc, language, encoding, uri, text)?;
        Ok(Reaction::Publish(uri, version, found))
    }

    /// Changes a document, and tells what is wrong in it then.
    fn change<'a, L: Language>(
        &mut self,
        alloc: Global,
        language: &L,
        uri: &'a str,
        version: Option<i64>,
        changes: &[Change<'_>],
    ) -> Result<Reaction<'a>, AllocError>
        requires { AreKnown L.knows self.old.documents.list }
        ensures stage { self.new.stage ≡ self.old.stage }
        ensures encoding { self.new.encoding ≡ self.old.encoding }
        ensures ok { IfOk result (TellsOf uri.now version (Changes L.knows L.finds self.old.encoding
            uri.now changes.now (get_by_text self.old.documents.list uri.now)
            self.old.documents self.new.documents)) }
        ensures failed { OnErr result (Loses uri.now self.old.documents self.new.documents) }
        ensures known { AreKnown L.knows self.new.documents.list }
    {
        let encoding = self.encoding;
        match self
            .documents
            .change(alloc, language, encoding, uri, changes)?
        {
            Some(found) => Ok(Reaction::Publish(uri, version, found)),
            None => Ok(Reaction::Silent),
        }
    }
}

/// Returns what is to be done after something was told outside the work.
fn idle<'a>(told: Notification<'a>, status: u8) -> Reaction<'a>
    ensures { IsIdle status told.entry result }
{
    match told {
        Notification::Exit => Reaction::Exit(status),
        _ => Reaction::Silent,
    }
}

/// Returns what is to be done after a request with an id that has this answer.
fn replied<'a>(id: Id<'a>, made: Result<Answer, Failure>) -> Result<Reaction<'a>, AllocError>
    ensures { IfOk result (IsMade id.entry made) }
{
    match made {
        Ok(answer) => Ok(Reaction::Reply(id, answer)),
        Err(Failure::Memory) => Err(AllocError),
        Err(Failure::Refused(code, message)) => Ok(Reaction::Refuse(Some(id), code, message)),
    }
}

/// Returns that there is no text to answer about.
fn absent(has_lost: bool) -> Failure
    ensures { FailsFor (λ code. code ≡ absence has_lost) result }
{
    if has_lost {
        Failure::Refused(
            ErrorCode::ContentModified,
            "the document's text isn't known",
        )
    } else {
        Failure::Refused(ErrorCode::InvalidParams, "the document isn't open")
    }
}

/// Returns that a request doesn't fit.
fn unfit() -> Failure
    ensures { FailsFor (λ code. code ≡ InvalidRequest) result }
{
    Failure::Refused(ErrorCode::InvalidRequest, "the request doesn't fit here")
}

/// Returns that a message is refused.
fn refused<'a>(id: Option<Id<'a>>, code: ErrorCode) -> Reaction<'a>
    ensures { IsRefusal id.entry code result }
{
    Reaction::Refuse(id, code, refusal(code))
}

/// Returns what is told of a refusal.
fn refusal(code: ErrorCode) -> &'static str {
    match code {
        ErrorCode::ParseError => "the message is no JSON",
        ErrorCode::InvalidRequest => "the message is no request",
        ErrorCode::MethodNotFound => "the method isn't known",
        ErrorCode::InvalidParams => "a parameter is missing, or wrong",
        ErrorCode::InternalError => "memory ran out",
        ErrorCode::ServerNotInitialized => "the server isn't initialized",
        ErrorCode::RequestFailed => "what was asked for can't be done",
        ErrorCode::ContentModified => "the document's text isn't known",
    }
}
