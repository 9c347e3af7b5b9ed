//! Why a rule has no question.

use spec_calls::faults::CallFault;
use spec_cases::faults::Fault;
use spec_cases::limits::AskingFault;
use spec_texts::faults::Fault as TextFault;
use std::alloc::{AllocError, AllocFailed};

/// Why a rule has no question.
#[derive(Drop)]
pub(crate) enum NoQuestion {
    /// Memory was refused.
    Memory(AllocError),
    /// What is the matter, in one line.
    Because(&'static str),
}

impl From<AllocError> for NoQuestion {
    fn from(refused: AllocError) -> NoQuestion {
        NoQuestion::Memory(refused)
    }
}

impl<T: Drop> From<AllocFailed<T>> for NoQuestion {
    fn from(failed: AllocFailed<T>) -> NoQuestion {
        NoQuestion::Memory(AllocError::from(failed))
    }
}

impl From<Fault> for NoQuestion {
    fn from(fault: Fault) -> NoQuestion {
        because(&fault)
    }
}

impl From<AskingFault> for NoQuestion {
    fn from(fault: AskingFault) -> NoQuestion {
        match &fault {
            AskingFault::Formula(why) => because(why),
            AskingFault::TooMany => NoQuestion::Because("too many choices of widths"),
        }
    }
}

impl From<CallFault> for NoQuestion {
    fn from(fault: CallFault) -> NoQuestion {
        match fault {
            CallFault::Memory(refused) => NoQuestion::Memory(refused),
            CallFault::Foreign => because(&Fault::Foreign),
            CallFault::Full => NoQuestion::Because("it has more sites than have numbers"),
        }
    }
}

// Why there is no question where a formula isn't made.
fn because(fault: &Fault) -> NoQuestion {
    match fault {
        Fault::Memory(refused) => NoQuestion::Memory(*refused),
        Fault::Full => NoQuestion::Because("there are more formulas than have numbers"),
        Fault::Foreign => NoQuestion::Because("a site isn't made of earlier ones"),
        Fault::TooGreat => NoQuestion::Because("a number or a width is too large"),
        Fault::TooMany => NoQuestion::Because("a value comes to too many cases"),
    }
}

impl From<TextFault> for NoQuestion {
    fn from(fault: TextFault) -> NoQuestion {
        match &fault {
            TextFault::Memory(refused) => NoQuestion::Memory(*refused),
            _ => NoQuestion::Because("a solver can't be asked about such a number or width"),
        }
    }
}
