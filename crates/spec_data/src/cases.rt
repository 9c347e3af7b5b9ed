//! What a switch becomes.

use crate::faults::Stop;
use crate::heads::{is_other, pos_of};
use crate::kinds::Kind;
use crate::lists::Case;
use crate::scopes::Scope;
use crate::translation::{Translation, Typed, of_kind};
use core_syntax::syntax::{Ident, Pos};
use cranelift_isle::sema::TypeId;
use spec_cases::expressions::ExprId;
use spec_cases::faults::Fault;
use std::alloc::Global;
use text_reader::syntax::SpecExpr;

// The value that keys are compared with.
#[derive(Clone, Copy)]
struct Switched {
    kind: Kind,
    // Its type, where it is compared by variants and fields.
    parts: Option<TypeId>,
}

// The cases so far: their keys, and what they give.
struct Cases {
    keys: Vec<ExprId>,
    bodies: Vec<Typed>,
}

// Written out, and so proved here once.
impl Drop for Cases {
    fn drop(self) {
        let Cases { keys: _, bodies: _ } = self;
    }
}

// Whether a key among cases stands for any other value.
fn has_other(cases: &[SpecExpr]) -> bool {
    for case in cases {
        if let SpecExpr::Pair { left, .. } = case {
            if is_other(left) {
                return true;
            }
        }
    }
    false
}

fn no_cases(alloc: Global) -> Cases {
    Cases {
        keys: Vec::new(alloc),
        bodies: Vec::new(alloc),
    }
}

impl<'c, 's> Translation<'c, 's> {
    /// A switch or a match.
    #[cycle(says)]
    pub(crate) fn says_cases<'e>(
        &mut self,
        scope: &mut Scope<'e>,
        op: &Ident,
        value: &'e SpecExpr,
        cases: &'e [SpecExpr],
        pos: Pos,
        fuel: usize,
    ) -> Result<Typed, Stop> {
        if fuel == 0 {
            return Err(self.nests_too_deep(pos));
        }
        if op.0.as_str() == "match" {
            return self.says_match(scope, value, cases, pos, fuel - 1);
        }
        let value = self.says(scope, value, fuel - 1)?;
        let number = self.as_number(value)?;
        let switched = Switched {
            kind: value.kind,
            parts: self.type_in_parts(number.kind),
        };
        if has_other(cases) || switched.parts.is_some() {
            self.says_bound_switch(scope, number.expr, switched, cases, pos, fuel - 1)
        } else {
            self.says_switch(scope, number.expr, switched, cases, pos, fuel - 1)
        }
    }

    // A switch without a key for any other value.
    #[cycle(says)]
    fn says_switch<'e>(
        &mut self,
        scope: &mut Scope<'e>,
        value: ExprId,
        switched: Switched,
        cases: &'e [SpecExpr],
        pos: Pos,
        fuel: usize,
    ) -> Result<Typed, Stop> {
        let found = self.says_keys(scope, switched, cases, fuel)?;
        self.switch_of(value, &found, pos)
    }

    // A switch whose value is bound before its cases: a key for any other value is the value itself. One that is compared by variants and
    // fields is none of keys, but of whether it is equal to them.
    #[cycle(says)]
    fn says_bound_switch<'e>(
        &mut self,
        scope: &mut Scope<'e>,
        value: ExprId,
        switched: Switched,
        cases: &'e [SpecExpr],
        pos: Pos,
        fuel: usize,
    ) -> Result<Typed, Stop> {
        let len = scope.len();
        scope.bind_unnamed()?;
        let found = self.says_keys(scope, switched, cases, fuel)?;
        scope.shorten(len);
        let bound = self.any_key(switched)?;
        let body = self.switch_of(bound, &found, pos)?;
        Ok(of_kind(self.bound(&[value], body.expr)?, body.kind))
    }

    // The key that is met by any value: the value that is bound, or that it is equal.
    fn any_key(&mut self, switched: Switched) -> Result<ExprId, Fault> {
        match switched.parts {
            Some(_) => self.truth(true),
            None => self.variable(0),
        }
    }

    // The first case of an equal value. What cases give is of one sort.
    fn switch_of(&mut self, value: ExprId, found: &Cases, pos: Pos) -> Result<Typed, Stop> {
        let given = self.of_one_kind(&found.bodies, pos)?;
        let mut cases = Vec::new(self.alloc);
        for (key, body) in found.keys.iter().zip(&given.exprs) {
            cases.push(Case {
                key: *key,
                body: *body,
            })?;
        }
        Ok(of_kind(self.switch(value, &cases)?, given.kind))
    }

    // The cases of a switch, up to one that is taken of any value.
    #[cycle(says)]
    fn says_keys<'e>(
        &mut self,
        scope: &mut Scope<'e>,
        switched: Switched,
        cases: &'e [SpecExpr],
        fuel: usize,
    ) -> Result<Cases, Stop> {
        let mut found = no_cases(self.alloc);
        for case in cases {
            if self.says_case(scope, switched, case, &mut found, fuel)? {
                break;
            }
        }
        Ok(found)
    }

    // Adds a case. True where it is taken of any value.
    #[cycle(says)]
    fn says_case<'e>(
        &mut self,
        scope: &mut Scope<'e>,
        switched: Switched,
        case: &'e SpecExpr,
        found: &mut Cases,
        fuel: usize,
    ) -> Result<bool, Stop> {
        let SpecExpr::Pair { left, right, .. } = case else {
            return Err(self.unsupported("a case that is no pair", pos_of(case)));
        };
        let is_last = is_other(left);
        let key = if is_last {
            self.any_key(switched)?
        } else {
            self.says_key(scope, switched, left, fuel)?
        };
        found.keys.push(key)?;
        found.bodies.push(self.says_arm_body(scope, right, fuel)?)?;
        Ok(is_last)
    }

    // A key, or that the value that is bound is equal to it.
    #[cycle(says)]
    fn says_key<'e>(
        &mut self,
        scope: &mut Scope<'e>,
        switched: Switched,
        left: &'e SpecExpr,
        fuel: usize,
    ) -> Result<ExprId, Stop> {
        let len = scope.len();
        if switched.parts.is_some() {
            // the value is bound again before the key
            scope.bind_unnamed()?;
        }
        let key = self.says_arm_body(scope, left, fuel)?;
        scope.shorten(len);
        if self.common_kind(switched.kind, key.kind).is_none() {
            return Err(self.unsorted(pos_of(left)));
        }
        match switched.parts {
            Some(ty) => Ok(self.is_bound_equal(ty, key.expr)?),
            None => Ok(self.as_number(key)?.expr),
        }
    }

    // That the value that is bound is equal to this, before which it is bound again.
    fn is_bound_equal(&mut self, ty: TypeId, other: ExprId) -> Result<ExprId, Fault> {
        let value = self.variable(0)?;
        let body = self.equal_parts(ty)?;
        self.bound(&[value, other], body)
    }
}
