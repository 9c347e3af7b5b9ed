//! What a request comes to, by where server and client are: the table of the protocol.

ghost use Rattle.std.specs.Prelude.{◌≡◌};
ghost use Rattle.app_messages.specs.Protocol.{asked, of_files, of_parts, of_places, question, reply, reply_asked};

use crate::refusals::Refusal;

/// Where server and client are.
#[derive(Clone, Copy, PartialEq, Eq)]
pub enum ServerStage {
    /// Before `initialize`.
    New,
    /// Between `initialize` and `shutdown`.
    Open,
    /// After `shutdown`.
    Shut,
}

/// What a request asks.
#[derive(Clone, Copy, PartialEq, Eq)]
pub enum Question {
    Hover,
    Definition,
    References,
    Highlights,
    Completion,
    Signature,
    Selections,
    Hints,
    Layout,
    LayoutIn,
    Prepare,
    Rename,
    Actions,
    Calls,
    Callers,
    Callees,
    Outline,
    Folds,
    Colours,
    Lenses,
    Symbols,
}

/// What a request comes to.
#[derive(Clone, Copy, PartialEq, Eq)]
pub enum Reply {
    /// Server and client begin.
    Begin,
    /// They end.
    Shut,
    /// The answer to a question.
    Ask(Question),
    /// An error.
    Refuse(Refusal),
}

/// What a request comes to at a stage, by its method.
pub fn reply_to(stage: ServerStage, method: &str) -> Reply
    ensures { result ≡ reply stage method.now }
{
    match stage {
        ServerStage::New => match method {
            "initialize" => Reply::Begin,
            _ => Reply::Refuse(Refusal::NotInitialized),
        },
        ServerStage::Open => match method {
            "initialize" => Reply::Refuse(Refusal::InitializedTwice),
            "shutdown" => Reply::Shut,
            _ => asked_by(method),
        },
        ServerStage::Shut => Reply::Refuse(Refusal::ShutDown),
    }
}

// What a request of an open server comes to, unless it ends the server.
fn asked_by(method: &str) -> Reply
    ensures { result ≡ reply_asked (question method.now) }
{
    match question_of(method) {
        Some(question) => Reply::Ask(question),
        None => Reply::Refuse(Refusal::NoMethod),
    }
}

// What a request asks, if there is such a request.
#[tactic(auto, unfolding(crate::specs::Protocol::question))]
fn question_of(method: &str) -> Option<Question>
    ensures { result ≡ question method.now }
{
    match question_of_place(method) {
        Some(question) => Some(question),
        None => match question_of_part(method) {
            Some(question) => Some(question),
            None => question_of_file(method),
        },
    }
}

// What is asked about a place.
fn question_of_place(method: &str) -> Option<Question>
    ensures { result ≡ asked method.now of_places }
{
    match method {
        "textDocument/hover" => Some(Question::Hover),
        "textDocument/definition" => Some(Question::Definition),
        "textDocument/references" => Some(Question::References),
        "textDocument/documentHighlight" => Some(Question::Highlights),
        "textDocument/completion" => Some(Question::Completion),
        "textDocument/signatureHelp" => Some(Question::Signature),
        "textDocument/prepareRename" => Some(Question::Prepare),
        _ => None,
    }
}

// What is asked about a part of a document, or an item.
fn question_of_part(method: &str) -> Option<Question>
    ensures { result ≡ asked method.now of_parts }
{
    match method {
        "textDocument/rename" => Some(Question::Rename),
        "textDocument/selectionRange" => Some(Question::Selections),
        "textDocument/inlayHint" => Some(Question::Hints),
        "textDocument/rangeFormatting" => Some(Question::LayoutIn),
        "textDocument/codeAction" => Some(Question::Actions),
        "textDocument/prepareCallHierarchy" => Some(Question::Calls),
        "callHierarchy/incomingCalls" => Some(Question::Callers),
        _ => None,
    }
}

// What is asked about all of a document, or of all of them.
fn question_of_file(method: &str) -> Option<Question>
    ensures { result ≡ asked method.now of_files }
{
    match method {
        "callHierarchy/outgoingCalls" => Some(Question::Callees),
        "textDocument/formatting" => Some(Question::Layout),
        "textDocument/documentSymbol" => Some(Question::Outline),
        "textDocument/foldingRange" => Some(Question::Folds),
        "textDocument/semanticTokens/full" => Some(Question::Colours),
        "textDocument/codeLens" => Some(Question::Lenses),
        "workspace/symbol" => Some(Question::Symbols),
        _ => None,
    }
}
