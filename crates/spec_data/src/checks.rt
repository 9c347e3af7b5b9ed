//! Names in specs that stand for nothing.

use crate::faults::report;
use crate::heads::{is_other, pos_of};
use core_syntax::syntax::Ident;
use cranelift_isle::lower::Lowered;
use spec_tables::faults::SpecError;
use spec_tables::specs::Specs;
use std::alloc::{AllocError, Global};
use text_reader::syntax::{Macro, Spec, SpecExpr};

/// Notes the names in specs, macros and models of constants that stand for nothing, and operators that there aren't.
pub(crate) fn check_names<'c, 's>(
    alloc: Global,
    lowered: &'c Lowered,
    specs: &'c Specs<'s>,
    errors: &mut Vec<SpecError>,
) -> Result<(), AllocError> {
    let checker = Checker {
        alloc,
        lowered,
        specs,
    };
    for term in &specs.terms {
        checker.check_said(term.spec, errors)?;
    }
    for known in &specs.macros {
        checker.check_macro(*known, errors)?;
    }
    for constant in &specs.constants {
        checker.check_apart(constant.value, errors)?;
        checker.check_constant(constant, errors)?;
    }
    Ok(())
}

/// Checks names.
#[derive(Clone, Copy)]
pub(crate) struct Checker<'c, 's> {
    pub(crate) alloc: Global,
    pub(crate) lowered: &'c Lowered,
    pub(crate) specs: &'c Specs<'s>,
}

impl<'c, 's> Checker<'c, 's> {
    fn check_said(
        &self,
        spec: Option<&Spec>,
        errors: &mut Vec<SpecError>,
    ) -> Result<(), AllocError> {
        match spec {
            Some(spec) => {
                self.check_part(spec, &spec.required, errors)?;
                self.check_part(spec, &spec.provides, errors)?;
                self.check_part(spec, &spec.matches, errors)
            }
            None => Ok(()),
        }
    }

    // Checks a list of expressions of a spec, if it has the list.
    fn check_part(
        &self,
        spec: &Spec,
        part: &Option<Vec<SpecExpr>>,
        errors: &mut Vec<SpecError>,
    ) -> Result<(), AllocError> {
        match part {
            Some(exprs) => {
                let mut scope = names_of(self.alloc, &spec.args)?;
                scope.push("result")?;
                self.check_each(&mut scope, exprs, errors)
            }
            None => Ok(()),
        }
    }

    // Checks a macro, under its parameters.
    fn check_macro(&self, known: &Macro, errors: &mut Vec<SpecError>) -> Result<(), AllocError> {
        let mut scope = names_of(self.alloc, &known.params)?;
        self.check(&mut scope, &known.body, errors)
    }

    // Checks an expression under no names.
    fn check_apart(&self, expr: &SpecExpr, errors: &mut Vec<SpecError>) -> Result<(), AllocError> {
        let mut scope = Vec::new(self.alloc);
        self.check(&mut scope, expr, errors)
    }

    // Checks an expression, under these names.
    #[cycle(check)]
    fn check<'e>(
        &self,
        scope: &mut Vec<&'e str>,
        expr: &'e SpecExpr,
        errors: &mut Vec<SpecError>,
    ) -> Result<(), AllocError> {
        match expr {
            SpecExpr::Var { var, .. } => self.check_name(scope, var, errors),
            SpecExpr::Op { op, args, .. } => {
                self.check_operator(op, errors)?;
                self.check_each(scope, args, errors)
            }
            SpecExpr::Cases {
                op,
                value,
                cases,
                ..
            } => {
                self.check(scope, value, errors)?;
                self.check_cases(scope, is_match(op), cases, errors)
            }
            SpecExpr::Let { defs, body, .. } => {
                let before = scope.len();
                self.check_defs(scope, defs, errors)?;
                self.check(scope, body, errors)?;
                scope.truncate(before);
                Ok(())
            }
            SpecExpr::As { value, .. } => self.check(scope, value, errors),
            SpecExpr::With { pos, .. } => {
                report(
                    self.alloc,
                    "spec-unsupported",
                    *pos,
                    "`with` isn't supported",
                    errors,
                )
            }
            SpecExpr::Pair { pos, .. } => report(
                self.alloc,
                "spec",
                *pos,
                "a pair stands in no case",
                errors,
            ),
            SpecExpr::ConstInt { .. }
            | SpecExpr::ConstBitVec { .. }
            | SpecExpr::ConstBool { .. }
            | SpecExpr::ConstUnit { .. } => Ok(()),
        }
    }

    // Checks expressions one after another.
    #[cycle(check)]
    fn check_each<'e>(
        &self,
        scope: &mut Vec<&'e str>,
        exprs: &'e [SpecExpr],
        errors: &mut Vec<SpecError>,
    ) -> Result<(), AllocError> {
        for expr in exprs {
            self.check(scope, expr, errors)?;
        }
        Ok(())
    }

    // Checks the cases of a switch or a match.
    #[cycle(check)]
    fn check_cases<'e>(
        &self,
        scope: &mut Vec<&'e str>,
        is_match: bool,
        cases: &'e [SpecExpr],
        errors: &mut Vec<SpecError>,
    ) -> Result<(), AllocError> {
        for case in cases {
            self.check_case(scope, is_match, case, errors)?;
        }
        Ok(())
    }

    // Checks a case of a switch or a match.
    #[cycle(check)]
    fn check_case<'e>(
        &self,
        scope: &mut Vec<&'e str>,
        is_match: bool,
        case: &'e SpecExpr,
        errors: &mut Vec<SpecError>,
    ) -> Result<(), AllocError> {
        if let SpecExpr::Pair { left, right, .. } = case {
            let before = scope.len();
            if is_match {
                bind(scope, left)?;
            } else if !is_other(left) {
                self.check(scope, left, errors)?;
            }
            self.check(scope, right, errors)?;
            scope.truncate(before);
        }
        Ok(())
    }

    // Checks definitions, and adds their names.
    #[cycle(check)]
    fn check_defs<'e>(
        &self,
        scope: &mut Vec<&'e str>,
        defs: &'e [SpecExpr],
        errors: &mut Vec<SpecError>,
    ) -> Result<(), AllocError> {
        for def in defs {
            if let SpecExpr::Pair { left, right, .. } = def {
                self.check(scope, right, errors)?;
                bind(scope, left)?;
            }
        }
        Ok(())
    }
}

fn names_of<'e>(alloc: Global, names: &'e [Ident]) -> Result<Vec<&'e str>, AllocError> {
    let mut texts = Vec::new(alloc);
    for name in names {
        texts.push(name.0.as_str())?;
    }
    Ok(texts)
}

fn bind<'e>(scope: &mut Vec<&'e str>, pattern: &'e SpecExpr) -> Result<(), AllocError> {
    match pattern {
        SpecExpr::Var { var, .. } => scope.push(var.0.as_str())?,
        SpecExpr::Op { args, .. } => {
            for arg in args {
                if let SpecExpr::Var { var, .. } = arg {
                    scope.push(var.0.as_str())?;
                }
            }
        }
        _ => {}
    }
    Ok(())
}

// Whether a list of cases is one of a match, whose patterns bind names.
fn is_match(op: &Ident) -> bool {
    op.0.as_str() == "match"
}
