//! Why a request has no answer: the errors of the protocol.

ghost use Rattle.std.specs.Prelude.{◌≡◌};
ghost use Rattle.app_messages.specs.Refusals.{number_of};

use std::alloc::{AllocError, AllocFailed};

/// Why a request has no answer.
#[derive(Clone, Copy, PartialEq, Eq)]
pub enum Refusal {
    /// Memory was refused.
    Memory,
    /// Bytes that are no head, or a head without the length of a message.
    NoHead,
    /// What a head announces is no JSON.
    NoJson,
    /// The JSON is no message.
    NoMessage,
    /// There is no such request.
    NoMethod,
    /// `initialize` has to come first.
    NotInitialized,
    /// `initialize` came before.
    InitializedTwice,
    /// `shutdown` came before.
    ShutDown,
    /// The client doesn't want the answer any more.
    Cancelled,
    /// A parameter isn't there, or isn't what it has to be.
    NoParameter,
    /// The document isn't open.
    NotOpen,
    /// A place isn't in its document.
    Outside,
    /// A new name is none.
    NoName,
    /// A new name has another meaning there.
    Taken,
    /// Nothing that can be renamed stands there.
    NotRenamed,
    /// A text has a mistake, so that not all names are known.
    Unread,
    /// A spec has this name without its type, and several types have it.
    Unsure,
}

impl Refusal {
    /// The error's number in the protocol, as text.
    pub fn number(self) -> &'static str
        ensures { result.now ≡ number_of self }
    {
        match self {
            Refusal::NoJson => "-32700",
            Refusal::NoHead | Refusal::NoMessage | Refusal::InitializedTwice | Refusal::ShutDown =>
                "-32600",
            Refusal::NoMethod => "-32601",
            Refusal::NoParameter | Refusal::NotOpen | Refusal::Outside => "-32602",
            Refusal::Memory => "-32603",
            Refusal::Cancelled => "-32800",
            Refusal::NotInitialized => "-32002",
            Refusal::NoName
            | Refusal::Taken
            | Refusal::NotRenamed
            | Refusal::Unread
            | Refusal::Unsure => "-32803",
        }
    }

    /// What it says. It has no quotes, so it can stand in JSON as it is.
    pub fn text(self) -> &'static str {
        match self {
            Refusal::Memory => "out of memory",
            Refusal::NoHead => "expected a head with Content-Length",
            Refusal::NoJson => "the message is no JSON, or its length is wrong",
            Refusal::NoMessage => "the JSON is no message",
            Refusal::NoMethod => "no such method",
            Refusal::NotInitialized => "initialize has to come first",
            Refusal::InitializedTwice => "initialize came before",
            Refusal::ShutDown => "shutdown came before",
            Refusal::Cancelled => "the request was cancelled",
            Refusal::NoParameter => "a parameter is missing or wrong",
            Refusal::NotOpen => "the document is not open",
            Refusal::Outside => "the place is not in the document",
            Refusal::NoName => "this is no name",
            Refusal::Taken => "this name has another meaning there",
            Refusal::NotRenamed => "nothing stands here that a file defines",
            Refusal::Unsure => "a spec has this name without its type, and several types have it",
            Refusal::Unread => "a text can not be read: mend its mistakes first",
        }
    }
}

impl From<AllocError> for Refusal {
    fn from(_: AllocError) -> Refusal {
        Refusal::Memory
    }
}

impl<T: Drop> From<AllocFailed<T>> for Refusal {
    fn from(_: AllocFailed<T>) -> Refusal {
        Refusal::Memory
    }
}
