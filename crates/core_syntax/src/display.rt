//! Places, limits and errors as text: an error in one line, each place as its file's number and its offset with a colon
//! between them.

ghost use Rattle.std.specs.Prelude.{◌++◌, Some, codes};
ghost use Rattle.std.specs.Fmt.{decimal};

use crate::syntax::{Error, Limit, Pos, Span};
use std::fmt;

impl fmt::Display for Pos {
    ghost output = { λ p. Some (decimal p.file ++ codes ":" ++ decimal p.offset) };

    fn fmt<W: fmt::Write>(&self, f: &mut fmt::Formatter<W>) -> fmt::Result {
        let file = self.file;
        let offset = self.offset;
        write!(f, "{file}:{offset}")
    }
}

impl fmt::Display for Limit {
    fn fmt<W: fmt::Write>(&self, f: &mut fmt::Formatter<W>) -> fmt::Result {
        f.write_str(self.text())
    }
}

impl Error {
    /// The words for what is wrong, which a line begins with: `type error`, `unreachable`, `overlap`, `shadowed`, or a
    /// limit by its number, as `limit L3`.
    pub fn kind(&self) -> &'static str {
        match self {
            Error::TypeError { .. } => "type error",
            Error::UnreachableError { .. } => "unreachable",
            Error::OverlapError { .. } => "overlap",
            Error::ShadowedError { .. } => "shadowed",
            Error::LimitError { limit, .. } => limit.number(),
        }
    }
}

impl fmt::Display for Error {
    fn fmt<W: fmt::Write>(&self, f: &mut fmt::Formatter<W>) -> fmt::Result {
        f.write_str(self.kind())?;
        match self {
            Error::TypeError { msg, span } => write_placed(f, span.from, msg),
            Error::UnreachableError { msg, span } => write_placed(f, span.from, msg),
            Error::LimitError { msg, span, .. } => write_placed(f, span.from, msg),
            Error::OverlapError { msg, rules } => {
                write_places(f, rules)?;
                write!(f, ": {msg}")
            }
            Error::ShadowedError { shadowed, mask } => {
                write_places(f, shadowed)?;
                let by = mask.from;
                write!(f, " by {by}")
            }
        }
    }
}

impl std::error::Error for Error {}

// Writes a place, and what isn't right there.
fn write_placed<W: fmt::Write, M: fmt::Display>(
    f: &mut fmt::Formatter<W>,
    at: Pos,
    msg: &M,
) -> fmt::Result {
    write!(f, " at {at}: {msg}")
}

// Writes where spans begin, with commas between them.
fn write_places<W: fmt::Write>(f: &mut fmt::Formatter<W>, spans: &[Span]) -> fmt::Result {
    let mut before = " at ";
    for span in spans {
        let at = span.from;
        write!(f, "{before}{at}")?;
        before = ", ";
    }
    Ok(())
}
