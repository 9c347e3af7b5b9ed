//! What the signatures of a term say of widths.

use crate::data::{SaidAt, TermSaid};
use crate::faults::Stop;
use crate::kinds::Kind;
use crate::translation::Translation;
use core_syntax::syntax::Pos;
use cranelift_isle::sema::Term;
use spec_cases::expressions::{Expr, ExprId};
use spec_cases::faults::Fault;
use spec_cases::literals::Literal;
use spec_cases::operators::Operator;
use spec_tables::models::{ValueModel, said_model};
use text_reader::syntax::{ModelType, Signature};

// The widths that a signature gives to arguments, and to the result.
struct Widths {
    args: Vec<Option<usize>>,
    result: Option<usize>,
}

// Written out, and so proved here once.
impl Drop for Widths {
    fn drop(self) {
        let Widths { args: _, result: _ } = self;
    }
}

// Whether two signatures give the same widths to arguments, and to the result where that counts.
fn are_alike(first: &Widths, second: &Widths, with_result: bool) -> bool {
    if with_result && first.result != second.result {
        return false;
    }
    for (a, b) in first.args.iter().zip(&second.args) {
        if *a != *b {
            return false;
        }
    }
    true
}

fn is_among(earlier: &[Widths], widths: &Widths, with_result: bool) -> bool {
    for known in earlier {
        if are_alike(known, widths, with_result) {
            return true;
        }
    }
    false
}

impl<'c, 's> Translation<'c, 's> {
    /// Adds what the signatures of a term require and provide, if it has some.
    pub(crate) fn add_signatures(&mut self, term: &Term, said: &mut TermSaid) -> Result<(), Stop> {
        let signatures = self.specs.signatures(term.id);
        let Some(first) = signatures.first() else {
            return Ok(());
        };
        let pos = first.pos;
        let mut each = Vec::new(self.alloc);
        for signature in signatures {
            each.push(self.widths_said(term, signature)?)?;
        }
        let expr = self.has_signature(&each, false)?;
        said.require.push(SaidAt { expr, pos })?;
        let expr = self.has_signature(&each, true)?;
        said.provide.push(SaidAt { expr, pos })?;
        Ok(())
    }

    // The widths that a signature gives. The values of the term's types have to be of the sorts that it says.
    fn widths_said(&self, term: &Term, signature: &Signature) -> Result<Widths, Stop> {
        let mut args = Vec::new(self.alloc);
        for (said, ty) in signature.args.iter().zip(&term.arg_tys) {
            args.push(self.width_said(said, self.kind_of(*ty), signature.pos)?)?;
        }
        let result = self.width_said(&signature.ret, self.kind_of(term.ret_ty), signature.pos)?;
        Ok(Widths { args, result })
    }

    // The width that a model gives to values of a kind.
    fn width_said(&self, said: &ModelType, kind: Kind, pos: Pos) -> Result<Option<usize>, Stop> {
        let specs = self.specs;
        let model = said_model(self.alloc, &self.lowered.tyenv, &specs.models, said)?;
        self.has_model(kind, model, pos)?;
        match (model, kind) {
            (ValueModel::Word(width), Kind::Word | Kind::Unknown) => Ok(Some(width)),
            _ => Ok(None),
        }
    }

    // That arguments have the widths of one of these signatures, and the result too where that counts.
    fn has_signature(&mut self, signatures: &[Widths], with_result: bool) -> Result<ExprId, Fault> {
        let mut facts = Vec::new(self.alloc);
        for (count, widths) in signatures.iter().enumerate() {
            let earlier = signatures.get(..count).unwrap_or(&[]);
            if !is_among(earlier, widths, with_result) {
                facts.push(self.has_widths(widths, with_result)?)?;
            }
        }
        self.joined(Operator::OneOf, &facts, false)
    }

    // That arguments have the widths of a signature, and the result too where that counts.
    fn has_widths(&mut self, widths: &Widths, with_result: bool) -> Result<ExprId, Fault> {
        let mut facts = Vec::new(self.alloc);
        for (index, said) in widths.args.iter().enumerate() {
            if let Some(width) = *said {
                let of = self.add(Expr::Argument(index))?;
                facts.push(self.has_width(of, width)?)?;
            }
        }
        if with_result {
            if let Some(width) = widths.result {
                let of = self.add(Expr::Result)?;
                facts.push(self.has_width(of, width)?)?;
            }
        }
        self.joined(Operator::Both, &facts, true)
    }

    fn has_width(&mut self, of: ExprId, width: usize) -> Result<ExprId, Fault> {
        let own = self.width_of(of)?;
        let wanted = self.literal(Literal::Integer(width as i128))?;
        self.operation(Operator::Equals, &[own, wanted])
    }
}
