//! The data of all specs.

use crate::checks::check_names;
use crate::data::{SaidAt, SpecData, TermSaid};
use crate::faults::{Stop, note_first};
use crate::heads::pos_of;
use crate::kinds::{Kind, are_other_sorts};
use crate::names::report_other_sort;
use crate::scopes::Scope;
use crate::sorts::{all_widths, listed_widths};
use crate::translation::Translation;
use cranelift_isle::lower::Lowered;
use cranelift_isle::sema::Term;
use spec_cases::expressions::Expr;
use spec_cases::faults::Fault;
use spec_cases::operators::Operator;
use spec_cases::steps::Constant;
use spec_tables::faults::SpecError;
use spec_tables::specs::{ConstantModel, Specs};
use std::alloc::{AllocError, Global};
use std::mem;
use text_reader::syntax::{Spec, SpecExpr};

/// What specs say, as data. What is wrong with an expression is noted once, and the expression is left out.
///
/// # Errors
///
/// `Memory` where memory is refused, `Full` where there are more expressions than have numbers.
pub fn spec_data<'c, 's>(
    alloc: Global,
    lowered: &'c Lowered,
    specs: &'c Specs<'s>,
    errors: &mut Vec<SpecError>,
) -> Result<SpecData, Fault> {
    check_names(alloc, lowered, specs, errors)?;
    let mut translation = nothing_yet(alloc, lowered, specs)?;
    let constants = translation.constants(errors)?;
    let terms = translation.terms(errors)?;
    let listed = listed_widths(alloc, specs)?;
    Ok(SpecData {
        sorts: translation.type_sorts(&listed)?,
        functions: translation.function_sorts()?,
        exprs: translation.taken(),
        constants,
        terms,
    })
}

fn nothing_yet<'c, 's>(
    alloc: Global,
    lowered: &'c Lowered,
    specs: &'c Specs<'s>,
) -> Result<Translation<'c, 's>, AllocError> {
    Ok(Translation {
        alloc,
        lowered,
        specs,
        exprs: Vec::new(alloc),
        widths: all_widths(alloc, &lowered.tyenv.types, specs)?,
        above: Vec::new(alloc),
        equalities: Vec::new(alloc),
        numbers: Vec::new(alloc),
        converted_any: None,
    })
}

impl<'c, 's> Translation<'c, 's> {
    // The expressions, which are no longer here then.
    fn taken(&mut self) -> Vec<Expr> {
        mem::replace(&mut self.exprs, Vec::new(self.alloc))
    }

    // The constants that stand for a value that is written.
    fn constants(&mut self, errors: &mut Vec<SpecError>) -> Result<Vec<Constant>, Fault> {
        let specs = self.specs;
        let mut constants = Vec::new(self.alloc);
        for known in &specs.constants {
            match self.says_constant(known.value) {
                Ok(said) => {
                    self.check_sort(known, said.kind, errors)?;
                    if let Some(value) = said.literal {
                        constants.push(Constant {
                            name: known.name,
                            value,
                        })?;
                    }
                }
                Err(stop) => noted(stop, errors)?,
            }
        }
        Ok(constants)
    }

    // Notes that a constant stands for a value of another sort than its type's.
    fn check_sort(
        &self,
        known: &ConstantModel<'_>,
        kind: Kind,
        errors: &mut Vec<SpecError>,
    ) -> Result<(), AllocError> {
        match self.lowered.tyenv.const_types.get(&known.name) {
            Some(ty) if are_other_sorts(kind, self.kind_of(*ty)) => {
                report_other_sort(self.alloc, pos_of(known.value), errors)
            }
            _ => Ok(()),
        }
    }

    // What is said of each term.
    fn terms(&mut self, errors: &mut Vec<SpecError>) -> Result<Vec<TermSaid>, Fault> {
        let lowered = self.lowered;
        let mut terms = Vec::new(self.alloc);
        for term in &lowered.termenv.terms {
            terms.push(self.term_said(term, errors)?)?;
        }
        Ok(terms)
    }

    // What is said of a term: by its spec, or as an unknown function.
    fn term_said(&mut self, term: &Term, errors: &mut Vec<SpecError>) -> Result<TermSaid, Fault> {
        let specs = self.specs;
        let mut said = TermSaid {
            is_said: specs.spec(term.id).is_some(),
            require: Vec::new(self.alloc),
            provide: Vec::new(self.alloc),
        };
        match specs.spec(term.id) {
            Some(spec) => self.add_spec(term, spec, &mut said, errors)?,
            None => self.add_answer(term, &mut said)?,
        }
        Ok(said)
    }

    // Adds what a spec says, behind what signatures say: when an extractor matches goes before what it provides.
    fn add_spec(
        &mut self,
        term: &Term,
        spec: &'s Spec,
        said: &mut TermSaid,
        errors: &mut Vec<SpecError>,
    ) -> Result<(), Fault> {
        match self.add_signatures(term, said) {
            Ok(()) => {}
            Err(stop) => noted(stop, errors)?,
        }
        self.add_part(term, spec, &spec.required, &mut said.require, errors)?;
        self.add_part(term, spec, &spec.matches, &mut said.provide, errors)?;
        self.add_part(term, spec, &spec.provides, &mut said.provide, errors)
    }

    // Adds the expressions of a list of a spec, if it has the list.
    fn add_part(
        &mut self,
        term: &Term,
        spec: &'s Spec,
        part: &'s Option<Vec<SpecExpr>>,
        out: &mut Vec<SaidAt>,
        errors: &mut Vec<SpecError>,
    ) -> Result<(), Fault> {
        let Some(exprs) = part else {
            return Ok(());
        };
        for expr in exprs {
            let mut scope = Scope::new(self.alloc);
            self.add_names(&mut scope, term, spec)?;
            match self.says_truth(&mut scope, expr) {
                Ok(said) => out.push(SaidAt {
                    expr: said,
                    pos: pos_of(expr),
                })?,
                Err(stop) => noted(stop, errors)?,
            }
        }
        Ok(())
    }

    // Adds the names of the result and of the arguments of a term's spec.
    fn add_names(
        &self,
        scope: &mut Scope<'s>,
        term: &Term,
        spec: &'s Spec,
    ) -> Result<(), AllocError> {
        scope.add_result("result", self.kind_of(term.ret_ty))?;
        for (index, (name, ty)) in spec.args.iter().zip(&term.arg_tys).enumerate() {
            scope.add_argument(name.0.as_str(), index, self.kind_of(*ty))?;
        }
        Ok(())
    }

    // Adds that the result is what an unknown function gives, if the term may be one.
    fn add_answer(&mut self, term: &Term, said: &mut TermSaid) -> Result<(), Fault> {
        let Some(function) = self.function_of(term) else {
            return Ok(());
        };
        let mut args = Vec::new(self.alloc);
        for index in 0..term.arg_tys.len() {
            args.push(self.add(Expr::Argument(index))?)?;
        }
        let of = self.list(&args)?;
        let answer = self.add(Expr::Unknown(function, of))?;
        let given = self.add(Expr::Result)?;
        said.provide.push(SaidAt {
            expr: self.operation(Operator::Equals, &[given, answer])?,
            pos: term.decl_pos,
        })?;
        Ok(())
    }
}

// Notes what is wrong with an expression.
fn noted(stop: Stop, errors: &mut Vec<SpecError>) -> Result<(), Fault> {
    match stop {
        Stop::Wrong(error) => Ok(note_first(errors, error)?),
        Stop::Fault(fault) => Err(fault),
    }
}
