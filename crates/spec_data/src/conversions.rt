//! What `conv_to` becomes: a word cut, or under bits that may be anything.

use crate::faults::Stop;
use crate::kinds::Kind;
use crate::lists::Case;
use crate::scopes::Scope;
use crate::translation::{Above, Translation, Typed, of_kind};
use core_syntax::syntax::Pos;
use spec_cases::expressions::{Expr, ExprId};
use spec_cases::faults::Fault;
use spec_cases::literals::Literal;
use spec_cases::operators::Operator;
use spec_tables::operators::{Group, Operator as SaidOperator};
use std::alloc::{AllocError, Global};
use text_reader::syntax::SpecExpr;

// The width that is written, if one is.
fn written_width(literal: Option<Literal>) -> Option<u32> {
    match literal {
        Some(Literal::Integer(number)) => match u32::try_from(number) {
            Ok(width) => Some(width),
            Err(_) => None,
        },
        _ => None,
    }
}

// The width of the word that is written, if one is.
fn word_width(literal: Option<Literal>) -> Option<u32> {
    match literal {
        Some(Literal::Word(width, _)) => Some(width),
        _ => None,
    }
}

fn copied(alloc: Global, widths: &[u32]) -> Result<Vec<u32>, AllocError> {
    Vec::from_slice(alloc, widths)
}

impl<'c, 's> Translation<'c, 's> {
    /// What `conv_to` becomes.
    #[cycle(says)]
    pub(crate) fn says_converted<'e>(
        &mut self,
        scope: &mut Scope<'e>,
        args: &'e [SpecExpr],
        pos: Pos,
        fuel: usize,
    ) -> Result<Typed, Stop> {
        let [width, word] = args else {
            return Err(self.misfit(SaidOperator::Convert, pos));
        };
        let width = self.says(scope, width, fuel)?;
        let width = self.operand(SaidOperator::Convert, Group::Resize, 0, width, pos)?;
        let len = scope.len();
        scope.bind_unnamed()?;
        let word = self.says(scope, word, fuel)?;
        let word = self.operand(SaidOperator::Convert, Group::Resize, 1, word, pos)?;
        scope.shorten(len);
        let body = self.converted(written_width(width.literal), word_width(word.literal))?;
        Ok(of_kind(self.bound(&[width.expr, word.expr], body)?, Kind::Word))
    }

    // A word at a width, which is bound before it. Where neither is written, it is made once.
    fn converted(&mut self, width: Option<u32>, word: Option<u32>) -> Result<ExprId, Fault> {
        if let (None, None, Some(known)) = (width, word, self.converted_any) {
            return Ok(known);
        }
        let to = self.widths_or(width)?;
        let from = self.widths_or(word)?;
        let body = self.converted_between(&to, &from)?;
        if width.is_none() && word.is_none() {
            self.converted_any = Some(body);
        }
        Ok(body)
    }

    // The width that is written, or else those that words may have.
    fn widths_or(&self, written: Option<u32>) -> Result<Vec<u32>, AllocError> {
        match written {
            Some(width) => copied(self.alloc, &[width]),
            None => copied(self.alloc, &self.widths),
        }
    }

    // A word of one of these widths at one of those: cut, itself, or wider.
    fn converted_between(&mut self, to: &[u32], from: &[u32]) -> Result<ExprId, Fault> {
        let width = self.variable(1)?;
        let word = self.variable(0)?;
        let own = self.width_of(word)?;
        let is_same = self.operation(Operator::Equals, &[width, own])?;
        let cut = self.cut(width, word)?;
        let narrow = self.choice(is_same, word, cut)?;
        let mut cases = Vec::new(self.alloc);
        for wide in to {
            self.add_wider(*wide, from, word, own, &mut cases)?;
        }
        let wide = self.switch(width, &cases)?;
        let is_narrow = self.operation(Operator::LessOrEqual, &[width, own])?;
        self.choice(is_narrow, narrow, wide)
    }

    // So many of the lower bits.
    fn cut(&mut self, width: ExprId, word: ExprId) -> Result<ExprId, Fault> {
        let one = self.number(1)?;
        let high = self.operation(Operator::Minus, &[width, one])?;
        let low = self.number(0)?;
        self.operation(Operator::Bits, &[high, low, word])
    }

    // Adds the case of a width, if a word of one of these widths may become so wide.
    fn add_wider(
        &mut self,
        to: u32,
        from: &[u32],
        word: ExprId,
        own: ExprId,
        cases: &mut Vec<Case>,
    ) -> Result<(), Fault> {
        let mut from_each = Vec::new(self.alloc);
        for width in from {
            if *width < to {
                from_each.push(self.widened_from(to, *width, word)?)?;
            }
        }
        if !from_each.is_empty() {
            let key = self.number(to)?;
            let body = self.switch(own, &from_each)?;
            cases.push(Case { key, body })?;
        }
        Ok(())
    }

    // The case of a word of a width that becomes wider.
    fn widened_from(&mut self, to: u32, from: u32, word: ExprId) -> Result<Case, Fault> {
        let function = self.above(to, from)?;
        let of = self.list(&[word])?;
        let bits = self.add(Expr::Unknown(function, of))?;
        Ok(Case {
            key: self.number(from)?,
            body: self.operation(Operator::Joined, &[bits, word])?,
        })
    }

    // The number of the function for the bits above a word that becomes wider: a new one follows the terms.
    fn above(&mut self, to: u32, from: u32) -> Result<u32, Fault> {
        for known in &self.above {
            if known.to == to && known.from == from {
                return Ok(known.function);
            }
        }
        let number = self
            .lowered
            .termenv
            .terms
            .len()
            .saturating_add(self.above.len());
        let Ok(function) = u32::try_from(number) else {
            return Err(Fault::Full);
        };
        self.above.push(Above { function, to, from })?;
        Ok(function)
    }
}
