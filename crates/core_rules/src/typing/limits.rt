//! How the limit that a rule passes is noted.

ghost use Rattle.std.specs.Prelude.{[], ◌∷◌, OnOk};
ghost use Rattle.core_rules.specs.RuleLists.{NotesLimit, NotesStop};
ghost use Rattle.core_syntax.specs.Positions.{NotesAt};
ghost use Rattle.core_syntax.specs.SyntaxViews.{position};

use crate::typing::progress::Stop;
use core_syntax::syntax::{Error, Limit, Pos, Span};
use std::alloc::AllocError;

impl Stop {
    /// Notes that the rule at a place passes the limit that ended the work on it.
    ///
    /// # Errors
    ///
    /// Where memory is refused; also where that ended the work.
    pub(crate) fn report(self, errors: &mut Vec<Error>, pos: Pos) -> Result<(), AllocError>
        ensures noted { OnOk result (NotesStop self pos errors.old.items errors.new.items) }
        ensures places { OnOk result (NotesAt (position pos ∷ []) errors.old.items errors.new.items) }
    {
        match &self {
            Stop::Memory(refused) => Err(*refused),
            Stop::Nesting => report_limit(errors, Limit::Nesting, pos),
            Stop::Expansions => report_limit(errors, Limit::Expansions, pos),
        }
    }
}

// Notes that the rule at a place passes a limit.
#[tactic(auto, using(core_syntax::proofs::Positioned::notes_one, core_syntax::proofs::Positioned::limit_stands_there))]
fn report_limit(errors: &mut Vec<Error>, limit: Limit, pos: Pos) -> Result<(), AllocError>
    ensures noted { OnOk result (NotesLimit limit pos errors.old.items errors.new.items) }
    ensures places { OnOk result (NotesAt (position pos ∷ []) errors.old.items errors.new.items) }
{
    let msg = String::from_str(*errors.allocator(), limit.text())?;
    let span = Span::new_single(pos);
    errors.push(Error::LimitError { limit, msg, span })?;
    Ok(())
}
