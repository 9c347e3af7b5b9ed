//! What expressions of texts become.

use crate::faults::{Stop, wrong};
use crate::heads::pos_of;
use crate::kinds::{Kind, kind_given};
use crate::lists::Case;
use crate::scopes::Scope;
use crate::translation::{DEEPEST, Translation, Typed, of_kind};
use core_syntax::syntax::{Ident, Pos};
use cranelift_isle::sema::TermId;
use spec_cases::expressions::ExprId;
use spec_cases::faults::Fault;
use spec_cases::literals::Literal;
use spec_tables::models::{ValueModel, said_model};
use spec_tables::operators::{Group, Operator, operator_of};
use text_reader::syntax::{ModelType, SpecExpr};

impl<'c, 's> Translation<'c, 's> {
    /// What an expression becomes.
    #[cycle(says)]
    pub(crate) fn says<'e>(
        &mut self,
        scope: &mut Scope<'e>,
        expr: &'e SpecExpr,
        fuel: usize,
    ) -> Result<Typed, Stop> {
        if fuel == 0 {
            return Err(self.nests_too_deep(pos_of(expr)));
        }
        match expr {
            SpecExpr::ConstInt { val, .. } => Ok(self.written(Literal::Integer(*val))?),
            SpecExpr::ConstBitVec { val, width, pos } => self.says_word(*val, *width, *pos),
            SpecExpr::ConstBool { val, .. } => Ok(self.written(Literal::Truth(*val))?),
            SpecExpr::ConstUnit { .. } => Ok(self.unit()?),
            SpecExpr::Var { var, .. } => self.says_name(scope, var, fuel - 1),
            SpecExpr::Op { op, args, pos } => self.says_list(scope, op, args, *pos, fuel - 1),
            SpecExpr::Cases {
                op,
                value,
                cases,
                pos,
            } => self.says_cases(scope, op, value, cases, *pos, fuel - 1),
            SpecExpr::Let { defs, body, .. } => self.says_let(scope, defs, body, fuel - 1),
            SpecExpr::As { value, ty, pos } => self.says_as(scope, value, ty, *pos, fuel - 1),
            SpecExpr::With { pos, .. } => Err(self.with_unsupported(*pos)),
            SpecExpr::Pair { pos, .. } => Err(self.no_pair(*pos)),
        }
    }

    /// What an expression becomes that speaks of no names.
    #[cycle(says)]
    pub(crate) fn says_apart(&mut self, expr: &'s SpecExpr, fuel: usize) -> Result<Typed, Stop> {
        if fuel == 0 {
            return Err(self.nests_too_deep(pos_of(expr)));
        }
        let mut scope = Scope::new(self.alloc);
        self.says(&mut scope, expr, fuel - 1)
    }

    fn says_word(&mut self, val: u128, width: usize, pos: Pos) -> Result<Typed, Stop> {
        match u32::try_from(width) {
            Ok(width) => Ok(self.written(Literal::Word(width, val))?),
            Err(_) => Err(wrong(pos, String::from_str(self.alloc, "a word of too many bits"))),
        }
    }

    // Where a word is of another width than its type says, nothing is said.
    #[cycle(says)]
    fn says_as<'e>(
        &mut self,
        scope: &mut Scope<'e>,
        expr: &'e SpecExpr,
        said: &ModelType,
        pos: Pos,
        fuel: usize,
    ) -> Result<Typed, Stop> {
        let value = self.says(scope, expr, fuel)?;
        let specs = self.specs;
        let model = said_model(self.alloc, &self.lowered.tyenv, &specs.models, said)?;
        self.has_model(value.kind, model, pos)?;
        match (model, value.kind) {
            (ValueModel::Word(width), Kind::Word | Kind::Unknown) => match u32::try_from(width) {
                Ok(width) => Ok(self.says_wide(value, width)?),
                Err(_) => Ok(value),
            },
            _ => Ok(value),
        }
    }

    // A word where it is of this width. One that is written is so as it is.
    fn says_wide(&mut self, value: Typed, width: u32) -> Result<Typed, Fault> {
        match value.literal {
            Some(Literal::Word(known, _)) if known == width => return Ok(value),
            _ => {}
        }
        let word = self.variable(0)?;
        let case = Case {
            key: self.number(width)?,
            body: word,
        };
        let is_wide = self.width_of(word)?;
        let body = self.switch(is_wide, &[case])?;
        Ok(of_kind(self.bound(&[value.expr], body)?, Kind::Word))
    }

    // What a name stands for: what is bound, a constant, or a variant without fields.
    #[cycle(says)]
    fn says_name<'e>(
        &mut self,
        scope: &mut Scope<'e>,
        name: &Ident,
        fuel: usize,
    ) -> Result<Typed, Stop> {
        if let Some(found) = scope.find(name.0.as_str()) {
            let expr = self.add(found.expr)?;
            return Ok(of_kind(expr, found.kind));
        }
        if let Some(value) = self.constant_called(name) {
            return self.says_apart(value, fuel);
        }
        match self.term_called(name) {
            Some(term) => self.says_term(term, name, &[], name.1),
            None => Err(self.unknown_name(name)),
        }
    }

    fn constant_called(&self, name: &Ident) -> Option<&'s SpecExpr> {
        let (lowered, specs) = (self.lowered, self.specs);
        specs.constant(lowered.tyenv.intern(name)?)
    }

    /// The term of a name.
    pub(crate) fn term_called(&self, name: &Ident) -> Option<TermId> {
        let lowered = self.lowered;
        let sym = lowered.tyenv.intern(name)?;
        lowered.termenv.term_map.get(&sym).copied()
    }

    // What a list becomes, by its head: a choice, an operator, a field, a macro or a term.
    #[cycle(says)]
    fn says_list<'e>(
        &mut self,
        scope: &mut Scope<'e>,
        op: &'e Ident,
        args: &'e [SpecExpr],
        pos: Pos,
        fuel: usize,
    ) -> Result<Typed, Stop> {
        if fuel == 0 {
            return Err(self.nests_too_deep(pos));
        }
        let word = op.0.as_str();
        if let Some((operator, group)) = operator_of(word) {
            return self.says_operator(scope, operator, group, args, pos, fuel - 1);
        }
        if let Some(field) = word.strip_prefix(":") {
            return self.says_field(scope, field, args, pos, fuel - 1);
        }
        let specs = self.specs;
        match specs.macro_of(word) {
            Some(known) => self.says_macro(scope, known, args, pos, fuel - 1),
            None => self.says_called(scope, op, args, pos, fuel - 1),
        }
    }

    #[cycle(says)]
    fn says_operator<'e>(
        &mut self,
        scope: &mut Scope<'e>,
        operator: Operator,
        group: Group,
        args: &'e [SpecExpr],
        pos: Pos,
        fuel: usize,
    ) -> Result<Typed, Stop> {
        match operator {
            Operator::If => self.says_if(scope, args, pos, fuel),
            Operator::Convert => self.says_converted(scope, args, pos, fuel),
            Operator::Equal => self.says_equal(scope, args, pos, fuel),
            _ => {
                let values = self.says_each(scope, args, fuel)?;
                Ok(of_kind(
                    self.operated(operator, group, &values, pos)?,
                    kind_given(group),
                ))
            }
        }
    }

    /// What expressions become, one after another.
    #[cycle(says)]
    pub(crate) fn says_each<'e>(
        &mut self,
        scope: &mut Scope<'e>,
        exprs: &'e [SpecExpr],
        fuel: usize,
    ) -> Result<Vec<Typed>, Stop> {
        let mut values = Vec::new(self.alloc);
        for expr in exprs {
            values.push(self.says(scope, expr, fuel)?)?;
        }
        Ok(values)
    }

    // One of two expressions by a truth.
    #[cycle(says)]
    fn says_if<'e>(
        &mut self,
        scope: &mut Scope<'e>,
        args: &'e [SpecExpr],
        pos: Pos,
        fuel: usize,
    ) -> Result<Typed, Stop> {
        let [condition, first, second] = args else {
            return Err(self.misfit(Operator::If, pos));
        };
        if fuel == 0 {
            return Err(self.nests_too_deep(pos));
        }
        let condition = self.says(scope, condition, fuel - 1)?;
        let condition = self.operand(Operator::If, Group::Choice, 0, condition, pos)?;
        let first = self.says_arm_body(scope, first, fuel - 1)?;
        let second = self.says_arm_body(scope, second, fuel - 1)?;
        self.one_of_two(condition, first, second, pos)
    }

    // One of two values by a truth.
    fn one_of_two(
        &mut self,
        condition: Typed,
        first: Typed,
        second: Typed,
        pos: Pos,
    ) -> Result<Typed, Stop> {
        let Some(kind) = self.common_kind(first.kind, second.kind) else {
            return Err(self.unsorted(pos));
        };
        let first = self.of_common_kind(first, kind)?;
        let second = self.of_common_kind(second, kind)?;
        Ok(of_kind(self.choice(condition.expr, first, second)?, kind))
    }

    /// What the key or the body of an arm becomes.
    #[cycle(says)]
    pub(crate) fn says_arm_body<'e>(
        &mut self,
        scope: &mut Scope<'e>,
        expr: &'e SpecExpr,
        fuel: usize,
    ) -> Result<Typed, Stop> {
        if fuel == 0 {
            return Err(self.nests_too_deep(pos_of(expr)));
        }
        self.says(scope, expr, fuel - 1)
    }

    /// What an expression of a list of a spec becomes, which is a truth.
    pub(crate) fn says_truth<'e>(
        &mut self,
        scope: &mut Scope<'e>,
        expr: &'e SpecExpr,
    ) -> Result<ExprId, Stop> {
        let said = self.says(scope, expr, DEEPEST)?;
        self.truth_said(said, expr)
    }

    /// What a constant stands for.
    pub(crate) fn says_constant(&mut self, expr: &'s SpecExpr) -> Result<Typed, Stop> {
        self.says_apart(expr, DEEPEST)
    }
}
