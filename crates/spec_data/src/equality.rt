//! What equality becomes: values of enums and structs are compared by their variants and fields.

use crate::arms::Arm;
use crate::faults::Stop;
use crate::fields::{field_count, field_type};
use crate::kinds::Kind;
use crate::patterns::Taken;
use crate::scopes::Scope;
use crate::translation::{Equality, Translation, Typed, of_kind};
use core_syntax::syntax::Pos;
use cranelift_isle::sema::{Fields, Type, TypeId, Variant};
use spec_cases::expressions::{Expr, ExprId};
use spec_cases::faults::Fault;
use spec_cases::operators::Operator;
use spec_tables::models::ValueModel;
use spec_tables::operators::Operator as SaidOperator;
use text_reader::syntax::SpecExpr;

// How deep values are compared by their parts. Deeper ones are left to the operator.
const DEEPEST_PART: usize = 4;

impl<'c, 's> Translation<'c, 's> {
    /// That two expressions are equal.
    #[cycle(says)]
    pub(crate) fn says_equal<'e>(
        &mut self,
        scope: &mut Scope<'e>,
        args: &'e [SpecExpr],
        pos: Pos,
        fuel: usize,
    ) -> Result<Typed, Stop> {
        let [first, second] = args else {
            return Err(self.misfit(SaidOperator::Equal, pos));
        };
        let left = self.says(scope, first, fuel)?;
        let right = self.says(scope, second, fuel)?;
        let Some(kind) = self.common_kind(left.kind, right.kind) else {
            return Err(self.misfit(SaidOperator::Equal, pos));
        };
        let Some(ty) = self.type_in_parts(kind) else {
            return Ok(of_kind(self.equal_plain(left, right, kind)?, Kind::Truth));
        };
        // the second again, since the first is bound before it
        let len = scope.len();
        scope.bind_unnamed()?;
        let right = self.says(scope, second, fuel)?;
        scope.shorten(len);
        let body = self.equal_parts(ty)?;
        Ok(of_kind(self.bound(&[left.expr, right.expr], body)?, Kind::Truth))
    }

    // That two values without parts are equal, which come to values of a kind. Of units there is one alone.
    fn equal_plain(&mut self, left: Typed, right: Typed, kind: Kind) -> Result<ExprId, Fault> {
        if kind == Kind::Unit {
            return self.truth(true);
        }
        let left = self.of_common_kind(left, kind)?;
        let right = self.of_common_kind(right, kind)?;
        self.operation(Operator::Equals, &[left, right])
    }

    /// The type by whose variants and fields values of a kind are compared.
    pub(crate) fn type_in_parts(&self, kind: Kind) -> Option<TypeId> {
        match kind.own() {
            Some(ty) if self.has_parts(ty) => Some(ty),
            _ => None,
        }
    }

    /// That two values of a type with parts are equal, of which the first is bound before the second.
    pub(crate) fn equal_parts(&mut self, ty: TypeId) -> Result<ExprId, Fault> {
        self.equal(ty, DEEPEST_PART)
    }

    // Whether values of a type have variants or fields.
    fn has_parts(&self, ty: TypeId) -> bool {
        match self.lowered.tyenv.types.get(ty.index()) {
            Some(Type::Enum { variants, .. }) => !variants.is_empty(),
            Some(Type::Struct { .. }) => true,
            _ => false,
        }
    }

    // That two values of a type are equal, of which the first is bound before the second. It is made once.
    #[cycle(equal)]
    fn equal(&mut self, ty: TypeId, depth: usize) -> Result<ExprId, Fault> {
        if let Some(known) = self.equality_of(ty, depth) {
            return Ok(known);
        }
        let body = self.equal_made(ty, depth)?;
        self.equalities.push(Equality { ty, depth, body })?;
        Ok(body)
    }

    fn equality_of(&self, ty: TypeId, depth: usize) -> Option<ExprId> {
        for known in &self.equalities {
            if known.ty == ty && known.depth == depth {
                return Some(known.body);
            }
        }
        None
    }

    #[cycle(equal)]
    fn equal_made(&mut self, ty: TypeId, depth: usize) -> Result<ExprId, Fault> {
        if depth == 0 {
            return self.equal_at(1, 0);
        }
        let lowered = self.lowered;
        match lowered.tyenv.types.get(ty.index()) {
            Some(Type::Enum { variants, .. }) if !variants.is_empty() => {
                self.equal_variants(ty, variants, depth - 1)
            }
            Some(Type::Struct { fields, .. }) => self.equal_structs(ty, fields, depth - 1),
            _ => self.equal_at(1, 0),
        }
    }

    // That two variables are equal, by the operator.
    fn equal_at(&mut self, first: usize, second: usize) -> Result<ExprId, Fault> {
        let left = self.variable(first)?;
        let right = self.variable(second)?;
        self.operation(Operator::Equals, &[left, right])
    }

    // That two values of an enum are equal: the arms of the first match the second.
    #[cycle(equal)]
    fn equal_variants(
        &mut self,
        ty: TypeId,
        variants: &[Variant],
        depth: usize,
    ) -> Result<ExprId, Fault> {
        let mut arms = Vec::new(self.alloc);
        for variant in variants {
            let body = self.equal_variant(ty, variant, depth)?;
            arms.push(Arm {
                taken: Taken::Variant(ty, variant.id),
                body,
            })?;
        }
        let first = self.variable(1)?;
        self.matched(first, &arms)
    }

    // Where the first value is of a variant, whose fields are bound: that the second is of it, and its fields are equal.
    #[cycle(equal)]
    fn equal_variant(
        &mut self,
        ty: TypeId,
        variant: &Variant,
        depth: usize,
    ) -> Result<ExprId, Fault> {
        let body = self.equal_fields(&variant.fields, depth)?;
        let other = self.truth(false)?;
        let second = self.variable(field_count(&variant.fields))?;
        let same = Arm {
            taken: Taken::Variant(ty, variant.id),
            body,
        };
        let otherwise = Arm {
            taken: Taken::Any,
            body: other,
        };
        self.matched(second, &[same, otherwise])
    }

    // That two structs are equal: the fields of the first are bound, and then those of the second.
    #[cycle(equal)]
    fn equal_structs(
        &mut self,
        ty: TypeId,
        fields: &Fields,
        depth: usize,
    ) -> Result<ExprId, Fault> {
        let taken = Taken::Struct(ty);
        let body = self.equal_fields(fields, depth)?;
        let second = self.variable(field_count(fields))?;
        let inner = self.matched(second, &[Arm { taken, body }])?;
        let first = self.variable(1)?;
        self.matched(first, &[Arm { taken, body: inner }])
    }

    // That fields are equal, where those of both values are bound, of the second last.
    #[cycle(equal)]
    fn equal_fields(&mut self, fields: &Fields, depth: usize) -> Result<ExprId, Fault> {
        let count = field_count(fields);
        let mut facts = Vec::new(self.alloc);
        for place in 0..count {
            facts.push(self.equal_field(fields, place, count, depth)?)?;
        }
        self.joined(Operator::Both, &facts, true)
    }

    // That the fields of a place are equal, of so many of each value.
    #[cycle(equal)]
    fn equal_field(
        &mut self,
        fields: &Fields,
        place: usize,
        count: usize,
        depth: usize,
    ) -> Result<ExprId, Fault> {
        match field_type(fields, place) {
            Some(ty) if self.has_parts(ty) => {
                let first = self.variable(count.saturating_add(place))?;
                // one more is bound
                let second = self.variable(place.saturating_add(1))?;
                let body = self.equal(ty, depth)?;
                self.bound(&[first, second], body)
            }
            Some(ty) if self.kind_of(ty) == Kind::Unit => self.truth(true),
            Some(ty) if self.specs.model(ty) == ValueModel::AnyWord => {
                self.equal_words(count.saturating_add(place), place)
            }
            _ => self.equal_at(count.saturating_add(place), place),
        }
    }

    // That two variables are equal words, of one width: values with fields of other widths aren't equal.
    fn equal_words(&mut self, first: usize, second: usize) -> Result<ExprId, Fault> {
        let left = self.variable(first)?;
        let right = self.variable(second)?;
        let widths = [self.width_of(left)?, self.width_of(right)?];
        let are_alike = self.operation(Operator::Equals, &widths)?;
        let same = self.operation(Operator::Equals, &[left, right])?;
        let other = self.truth(false)?;
        self.choice(are_alike, same, other)
    }
}
