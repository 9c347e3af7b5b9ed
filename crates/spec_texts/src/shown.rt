//! What people are shown of a question, where a solver says that its facts can be so.

use crate::faults::Fault;
use crate::paths::path_of;
use crate::writing::{Writer, written};
use spec_cases::arena::Formulas;
use spec_cases::formulas::{Fact, Operand};

/// A question, of which something is shown.
#[derive(Drop)]
pub struct Shown<'a> {
    formulas: &'a Formulas,
    behind: Writer<'a>,
}

impl<'a> Shown<'a> {
    /// The question of facts.
    ///
    /// # Errors
    ///
    /// As `text_of`.
    pub fn of(formulas: &'a Formulas, facts: &[Fact]) -> Result<Shown<'a>, Fault> {
        let mut behind = written(formulas, facts)?;
        behind.close();
        Ok(Shown { formulas, behind })
    }

    /// The constants that its text declares, in its order: the name of each, and the path of what it is (`path_of`).
    ///
    /// # Errors
    ///
    /// `Memory` where memory is refused.
    pub fn constants(&self) -> Result<Vec<(String, String)>, Fault> {
        let alloc = self.formulas.alloc();
        let mut list = Vec::new(alloc);
        for constant in self.behind.declared().constants() {
            let mut name = String::new(alloc);
            constant.push_to(&mut name)?;
            list.push((name, path_of(self.formulas, *constant)?))?;
        }
        Ok(list)
    }

    /// A formula as it may stand in `get-value` behind the text: by the names of the text, and written out where it has none. None where it
    /// would name what the text doesn't declare, has no text, or is too great: past 4,000 bytes, or of more than 200 parts without names.
    ///
    /// # Errors
    ///
    /// `Foreign` where what it is made of isn't there, or is used at two sorts, `Memory` where memory is refused.
    pub fn operand(&mut self, shown: Operand) -> Result<Option<String>, Fault> {
        match self.behind.text_behind(shown) {
            Ok(text) => Ok(Some(text)),
            Err(Fault::Undeclared | Fault::Unfit | Fault::Unspelled) => Ok(None),
            Err(fault) => Err(fault),
        }
    }
}
