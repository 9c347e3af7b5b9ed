//! A visitor that notes the name of each call. Its ids are the numbers of calls.

ghost use Rattle.std.specs.Prelude.{◌≡◌, ◌+◌, IfOk, OnOk, vec_len};

use core_typed::{Body, ExprVisitor, PatternVisitor, RuleVisitor, VisitFault, VisitedExpr};
use core_types::{Sym, TermId, TypeId, VariantId};
use std::alloc::Global;

/// What is noted: one call more, where a call is answered. It lends itself.
#[derive(Drop)]
pub struct Recorder {
    alloc: Global,
    /// The names of the calls so far, in order.
    pub calls: Vec<&'static str>,
}

impl Recorder {
    /// A recorder that has seen nothing.
    pub fn new(alloc: Global) -> Recorder {
        let calls = Vec::new(alloc);
        Recorder { alloc, calls }
    }

    // Notes a call, and answers its number, from 1.
    fn note(&mut self, call: &'static str) -> Result<usize, VisitFault>
        ensures { OnOk result (vec_len self.new.calls ≡ vec_len self.old.calls + 1) }
    {
        self.calls.push(call)?;
        Ok(self.calls.len())
    }

    // Notes a call that is answered by so many ids.
    fn give(&mut self, call: &'static str, count: usize) -> Result<Vec<usize>, VisitFault>
        ensures count { IfOk result (λ ids. vec_len ids ≡ count) }
        ensures noted { OnOk result (vec_len self.new.calls ≡ vec_len self.old.calls + 1) }
    {
        let number = self.note(call)?;
        Ok(vec![in self.alloc; number; count]?)
    }

    // Notes a call that is answered by nothing.
    fn see(&mut self, call: &'static str) -> Result<(), VisitFault>
        ensures { OnOk result (vec_len self.new.calls ≡ vec_len self.old.calls + 1) }
    {
        self.note(call)?;
        Ok(())
    }
}

impl PatternVisitor for Recorder {
    type PatternId = usize;

    ghost match_equal_steps = { λ s a b ty r t. OnOk r (vec_len t.calls ≡ vec_len s.calls + 1) };

    ghost match_bool_steps = { λ s input ty b r t. OnOk r (vec_len t.calls ≡ vec_len s.calls + 1) };

    ghost match_int_steps = { λ s input ty z r t. OnOk r (vec_len t.calls ≡ vec_len s.calls + 1) };

    ghost match_prim_steps = { λ s input ty name r t. OnOk r (vec_len t.calls ≡ vec_len s.calls + 1) };

    ghost match_variant_steps = { λ s input ty tys variant r t. OnOk r (vec_len t.calls ≡ vec_len s.calls + 1) };

    ghost extract_struct_steps = { λ s input ty tys r t. OnOk r (vec_len t.calls ≡ vec_len s.calls + 1) };

    ghost extract_steps = { λ s input ty tys term infallible multi r t. OnOk r (vec_len t.calls ≡ vec_len s.calls + 1) };

    fn add_match_equal(&mut self, _a: usize, _b: usize, _ty: TypeId) -> Result<(), VisitFault> {
        self.see("AddMatchEqual")
    }

    fn add_match_bool(
        &mut self,
        _input: usize,
        _ty: TypeId,
        _bool_val: bool,
    ) -> Result<(), VisitFault> {
        self.see("AddMatchBool")
    }

    fn add_match_int(
        &mut self,
        _input: usize,
        _ty: TypeId,
        _int_val: i128,
    ) -> Result<(), VisitFault> {
        self.see("AddMatchInt")
    }

    fn add_match_prim(&mut self, _input: usize, _ty: TypeId, _val: Sym) -> Result<(), VisitFault> {
        self.see("AddMatchPrim")
    }

    fn add_match_variant(
        &mut self,
        _input: usize,
        _input_ty: TypeId,
        arg_tys: &[TypeId],
        _variant: VariantId,
    ) -> Result<Vec<usize>, VisitFault> {
        self.give("AddMatchVariant", arg_tys.len())
    }

    fn add_extract_struct(
        &mut self,
        _input: usize,
        _input_ty: TypeId,
        arg_tys: &[TypeId],
    ) -> Result<Vec<usize>, VisitFault> {
        self.give("AddExtractStruct", arg_tys.len())
    }

    fn add_extract(
        &mut self,
        _input: usize,
        _input_ty: TypeId,
        output_tys: Vec<TypeId>,
        _term: TermId,
        _infallible: bool,
        _multi: bool,
    ) -> Result<Vec<usize>, VisitFault> {
        self.give("AddExtract", output_tys.len())
    }
}

impl ExprVisitor for Recorder {
    type ExprId = usize;

    ghost const_bool_steps = { λ s ty b r t. OnOk r (vec_len t.calls ≡ vec_len s.calls + 1) };

    ghost const_int_steps = { λ s ty z r t. OnOk r (vec_len t.calls ≡ vec_len s.calls + 1) };

    ghost const_prim_steps = { λ s ty name r t. OnOk r (vec_len t.calls ≡ vec_len s.calls + 1) };

    ghost create_variant_steps = { λ s inputs ty variant r t. OnOk r (vec_len t.calls ≡ vec_len s.calls + 1) };

    ghost create_struct_steps = { λ s inputs ty r t. OnOk r (vec_len t.calls ≡ vec_len s.calls + 1) };

    ghost construct_steps = { λ s inputs ty term pure infallible multi recursive r t. OnOk r (vec_len t.calls ≡ vec_len s.calls + 1) };

    fn add_const_bool(&mut self, _ty: TypeId, _val: bool) -> Result<usize, VisitFault> {
        self.note("AddConstBool")
    }

    fn add_const_int(&mut self, _ty: TypeId, _val: i128) -> Result<usize, VisitFault> {
        self.note("AddConstInt")
    }

    fn add_const_prim(&mut self, _ty: TypeId, _val: Sym) -> Result<usize, VisitFault> {
        self.note("AddConstPrim")
    }

    fn add_create_variant(
        &mut self,
        _inputs: Vec<(usize, TypeId)>,
        _ty: TypeId,
        _variant: VariantId,
    ) -> Result<usize, VisitFault>
        ensures { OnOk result (vec_len self.new.calls ≡ vec_len self.old.calls + 1) }
    {
        self.note("AddCreateVariant")
    }

    fn add_create_struct(
        &mut self,
        _inputs: Vec<(usize, TypeId)>,
        _ty: TypeId,
    ) -> Result<usize, VisitFault>
        ensures { OnOk result (vec_len self.new.calls ≡ vec_len self.old.calls + 1) }
    {
        self.note("AddCreateStruct")
    }

    fn add_construct(
        &mut self,
        _inputs: Vec<(usize, TypeId)>,
        _ty: TypeId,
        _term: TermId,
        _pure: bool,
        _infallible: bool,
        _multi: bool,
        _rec: bool,
    ) -> Result<usize, VisitFault>
        ensures { OnOk result (vec_len self.new.calls ≡ vec_len self.old.calls + 1) }
    {
        self.note("AddConstruct")
    }
}

impl RuleVisitor for Recorder {
    type PatternVisitor = Self;

    type ExprVisitor = Self;

    type Expr = usize;

    ghost arg_steps = { λ s index ty r t. OnOk r (vec_len t.calls ≡ vec_len s.calls + 1) };

    ghost expr_as_pattern_steps = { λ s expr r t. OnOk r (vec_len t.calls ≡ vec_len s.calls + 1) };

    ghost pattern_as_expr_steps = { λ s pattern r t. OnOk r (vec_len t.calls ≡ vec_len s.calls + 1) };

    ghost lend_pattern_steps = { λ s r t. Unit {0} };

    ghost take_pattern_steps = { λ s l r t. Unit {0} };

    ghost leave_pattern_steps = { λ l s t. Unit {0} };

    ghost lend_expr_steps = { λ s r t. Unit {0} };

    ghost take_expr_steps = { λ s l ty value r t. Unit {0} };

    ghost leave_expr_steps = { λ l s t. Unit {0} };

    fn add_arg(&mut self, _index: usize, _ty: TypeId) -> Result<usize, VisitFault> {
        self.note("AddArg")
    }

    fn with_pattern<T: Drop, B: Body<Self, Answer = T> + Drop>(
        &mut self,
        body: B,
    ) -> Result<T, VisitFault> {
        if let Err(fault) = self.note("AddPattern") {
            return Err(fault);
        }
        body.run(self)
    }

    fn with_expr<B: Body<Self, Answer = VisitedExpr<usize>> + Drop>(
        &mut self,
        body: B,
    ) -> Result<usize, VisitFault> {
        if let Err(fault) = self.note("AddExpr") {
            return Err(fault);
        }
        let visited = body.run(self)?;
        Ok(visited.value)
    }

    fn expr_as_pattern(&mut self, _expr: usize) -> Result<usize, VisitFault> {
        self.note("ExprAsPattern")
    }

    fn pattern_as_expr(&mut self, _pattern: usize) -> Result<usize, VisitFault> {
        self.note("PatternAsExpr")
    }
}
