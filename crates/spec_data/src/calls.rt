//! What calls of terms and macros become, and what is defined.

use crate::faults::Stop;
use crate::heads::{name_in, pos_of};
use crate::kinds::Kind;
use crate::scopes::Scope;
use crate::translation::{Translation, Typed, of_kind};
use core_syntax::syntax::{Ident, Pos};
use cranelift_isle::sema::{Term, TermId, TermKind};
use spec_cases::expressions::{Expr, ExprId};
use spec_cases::faults::Fault;
use text_reader::syntax::{Macro, SpecExpr};

impl<'c, 's> Translation<'c, 's> {
    // An expression under values that are bound. Without values it stays what it is.
    fn under(&mut self, values: &[ExprId], body: Typed) -> Result<Typed, Fault> {
        if values.is_empty() {
            return Ok(body);
        }
        Ok(of_kind(self.bound(values, body.expr)?, body.kind))
    }

    /// What the term of a name gives.
    #[cycle(says)]
    pub(crate) fn says_called<'e>(
        &mut self,
        scope: &mut Scope<'e>,
        op: &Ident,
        args: &'e [SpecExpr],
        pos: Pos,
        fuel: usize,
    ) -> Result<Typed, Stop> {
        let values = self.says_each(scope, args, fuel)?;
        match self.term_called(op) {
            Some(term) => self.says_term(term, op, &values, pos),
            None => Err(self.unknown_operator(op)),
        }
    }

    /// A variant or a struct that is made, or what an unknown function gives.
    pub(crate) fn says_term(
        &mut self,
        id: TermId,
        name: &Ident,
        values: &[Typed],
        pos: Pos,
    ) -> Result<Typed, Stop> {
        let lowered = self.lowered;
        let Some(term) = lowered.termenv.terms.get(id.index()) else {
            return Err(self.unknown_name(name));
        };
        if term.arg_tys.len() != values.len() {
            return Err(self.miscounted(name, "arguments", term.arg_tys.len(), values.len(), pos));
        }
        self.made_by(term, name, values, pos)
    }

    // A variant or a struct that a term makes, or what it gives as an unknown function.
    fn made_by(
        &mut self,
        term: &Term,
        name: &Ident,
        values: &[Typed],
        pos: Pos,
    ) -> Result<Typed, Stop> {
        match &term.kind {
            TermKind::EnumVariant { variant } => {
                let of = self.fields_said(term, name, values, pos)?;
                let expr = self.add(Expr::VariantSaid(term.ret_ty, *variant, of))?;
                Ok(of_kind(expr, Kind::Own(term.ret_ty)))
            }
            TermKind::Struct => {
                let of = self.fields_said(term, name, values, pos)?;
                let expr = self.add(Expr::StructSaid(term.ret_ty, of))?;
                Ok(of_kind(expr, Kind::Own(term.ret_ty)))
            }
            TermKind::Decl { .. } => match self.function_of(term) {
                Some(function) => self.answer_by(term, function, name, values),
                None => Err(self.no_function(name)),
            },
        }
    }

    // The fields of a variant or a struct, which have to be of their types' sorts.
    fn fields_said(
        &mut self,
        term: &Term,
        name: &Ident,
        values: &[Typed],
        pos: Pos,
    ) -> Result<ExprId, Stop> {
        let mut of = Vec::new(self.alloc);
        for (value, ty) in values.iter().zip(&term.arg_tys) {
            match self.argument(*value, *ty)? {
                Some(expr) => of.push(expr)?,
                None => return Err(self.misfit_of(name.0.as_str(), pos)),
            }
        }
        Ok(self.list(&of)?)
    }

    // What a term gives as an unknown function.
    fn answer_by(
        &mut self,
        term: &Term,
        function: u32,
        name: &Ident,
        values: &[Typed],
    ) -> Result<Typed, Stop> {
        let mut of = Vec::new(self.alloc);
        for (value, ty) in values.iter().zip(&term.arg_tys) {
            match self.argument(*value, *ty)? {
                Some(expr) => of.push(expr)?,
                None => return Err(self.no_function(name)),
            }
        }
        let list = self.list(&of)?;
        let expr = self.add(Expr::Unknown(function, list))?;
        Ok(of_kind(expr, self.kind_of(term.ret_ty)))
    }

    /// A macro: what its parameters stand for is found once, before it.
    #[cycle(says)]
    pub(crate) fn says_macro<'e>(
        &mut self,
        scope: &mut Scope<'e>,
        known: &'s Macro,
        args: &'e [SpecExpr],
        pos: Pos,
        fuel: usize,
    ) -> Result<Typed, Stop> {
        let len = scope.len();
        let mut values = Vec::new(self.alloc);
        let mut kinds = Vec::new(self.alloc);
        for arg in args {
            let value = self.says(scope, arg, fuel)?;
            scope.bind_unnamed()?;
            values.push(value.expr)?;
            kinds.push(value.kind)?;
        }
        scope.shorten(len);
        if fuel == 0 {
            return Err(self.nests_too_deep(pos));
        }
        if known.params.len() != values.len() {
            return Err(self.miscounted(
                &known.name,
                "parameters",
                known.params.len(),
                values.len(),
                pos,
            ));
        }
        let mut inner = Scope::new(self.alloc);
        for (param, kind) in known.params.iter().zip(&kinds) {
            inner.bind(param.0.as_str(), *kind)?;
        }
        let body = self.says(&mut inner, &known.body, fuel - 1)?;
        Ok(self.under(&values, body)?)
    }

    /// An expression under definitions.
    #[cycle(says)]
    pub(crate) fn says_let<'e>(
        &mut self,
        scope: &mut Scope<'e>,
        defs: &'e [SpecExpr],
        body: &'e SpecExpr,
        fuel: usize,
    ) -> Result<Typed, Stop> {
        if fuel == 0 {
            return Err(self.nests_too_deep(pos_of(body)));
        }
        let len = scope.len();
        let mut values = Vec::new(self.alloc);
        for def in defs {
            values.push(self.says_definition(scope, def, fuel - 1)?)?;
        }
        let body = self.says(scope, body, fuel - 1)?;
        scope.shorten(len);
        Ok(self.under(&values, body)?)
    }

    // What is defined, whose name is then bound.
    #[cycle(says)]
    fn says_definition<'e>(
        &mut self,
        scope: &mut Scope<'e>,
        def: &'e SpecExpr,
        fuel: usize,
    ) -> Result<ExprId, Stop> {
        let SpecExpr::Pair { left, right, pos } = def else {
            return Err(self.unsupported("let", pos_of(def)));
        };
        let value = self.says(scope, right, fuel)?;
        let Some(name) = name_in(left) else {
            return Err(self.unsupported("let without a name", *pos));
        };
        scope.bind(name, value.kind)?;
        Ok(value.expr)
    }
}
