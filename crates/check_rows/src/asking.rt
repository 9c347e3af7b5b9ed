//! What is asked about the rules of a text.

use cranelift_isle::lower::lower;
use cranelift_isle::syntax::Fault;
use spec_questions::answers::Answers;
use spec_questions::questions::{QuestionFault, Questions, Wanted, questions_about};
use spec_tables::faults::SpecError;
use std::alloc::{AllocError, AllocFailed, Global};
use text_reader::errors::ReadFault;
use text_reader::syntax::VerificationForm;
use text_reader::{read, verification};

/// Why nothing is asked.
#[derive(Drop)]
pub enum Refused {
    /// Memory was refused.
    Memory,
    /// The text is no list of definitions and specs.
    Unread,
    /// The definitions aren't accepted.
    Rules,
    /// The specs are wrong.
    Specs(Vec<SpecError>),
    /// The specs are too many.
    TooMany,
}

impl From<AllocError> for Refused {
    fn from(_: AllocError) -> Refused {
        Refused::Memory
    }
}

impl<T: Drop> From<AllocFailed<T>> for Refused {
    fn from(_: AllocFailed<T>) -> Refused {
        Refused::Memory
    }
}

impl From<ReadFault> for Refused {
    fn from(fault: ReadFault) -> Refused {
        match fault {
            ReadFault::Text(_) => Refused::Unread,
            ReadFault::Memory(_) => Refused::Memory,
        }
    }
}

impl From<Fault> for Refused {
    fn from(fault: Fault) -> Refused {
        match fault {
            Fault::Errors(_) => Refused::Rules,
            Fault::Memory(_) => Refused::Memory,
        }
    }
}

impl From<QuestionFault> for Refused {
    fn from(fault: QuestionFault) -> Refused {
        match fault {
            QuestionFault::Wrong(errors) => Refused::Specs(errors),
            QuestionFault::Memory => Refused::Memory,
            QuestionFault::TooMany => Refused::TooMany,
        }
    }
}

/// What is asked about the rules of a text: where no rule of greater priority matches, if `above` says so, without what pure calls require,
/// if `lax` does, and by what solvers answered.
pub fn asked_about(
    alloc: Global,
    text: &str,
    above: bool,
    lax: bool,
    answers: Option<&Answers>,
) -> Result<Questions, Refused> {
    let defs = read(alloc, 0, text)?;
    let forms = forms_in(alloc, text)?;
    let lowered = lower(alloc, &defs, true)?;
    let wanted = Wanted {
        above,
        lax,
        only: None,
        answers,
    };
    Ok(questions_about(alloc, &lowered, &forms, wanted)?)
}

fn forms_in(alloc: Global, text: &str) -> Result<Vec<VerificationForm>, Refused> {
    let mut forms = Vec::new(alloc);
    for (_, form) in verification(alloc, 0, text)? {
        forms.push(form)?;
    }
    Ok(forms)
}
