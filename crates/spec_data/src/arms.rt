//! What a match becomes, and a field by its name.

use crate::faults::{Stop, wrong};
use crate::fields::{field_place, field_type};
use crate::heads::pos_of;
use crate::kinds::Kind;
use crate::patterns::Taken;
use crate::scopes::Scope;
use crate::translation::{Translation, Typed, of_kind};
use core_syntax::syntax::Pos;
use cranelift_isle::sema::{TypeId, Variant, VariantId};
use spec_cases::expressions::{Expr, ExprId};
use spec_cases::faults::Fault;
use spec_cases::operators::Operator;
use std::alloc::Global;
use text_reader::syntax::SpecExpr;

/// An arm of a match.
#[derive(Clone, Copy)]
pub(crate) struct Arm {
    pub(crate) taken: Taken,
    pub(crate) body: ExprId,
}

// The arms so far: what they take, and what they give.
struct Arms {
    taken: Vec<Taken>,
    bodies: Vec<Typed>,
}

// Written out, and so proved here once.
impl Drop for Arms {
    fn drop(self) {
        let Arms {
            taken: _,
            bodies: _,
        } = self;
    }
}

impl Arms {
    fn new(alloc: Global) -> Arms {
        Arms {
            taken: Vec::new(alloc),
            bodies: Vec::new(alloc),
        }
    }

    // Whether an arm is of a variant.
    fn has(&self, variant: VariantId) -> bool {
        for taken in &self.taken {
            if let Taken::Variant(_, known) = taken {
                if *known == variant {
                    return true;
                }
            }
        }
        false
    }
}

impl<'c, 's> Translation<'c, 's> {
    /// The arm of a value.
    pub(crate) fn matched(&mut self, value: ExprId, arms: &[Arm]) -> Result<ExprId, Fault> {
        let arms = self.arms(arms)?;
        self.add(Expr::MatchOn(value, arms))
    }

    /// Arms, one after another.
    pub(crate) fn arms(&mut self, arms: &[Arm]) -> Result<ExprId, Fault> {
        let mut rest = self.add(Expr::NoArm)?;
        for arm in arms.iter().rev() {
            let body = arm.body;
            rest = self.add(match arm.taken {
                Taken::Variant(ty, variant) => Expr::VariantArm {
                    ty,
                    variant,
                    body,
                    rest,
                },
                Taken::Struct(ty) => Expr::StructArm { ty, body },
                Taken::Any => Expr::ElseArm { body },
            })?;
        }
        Ok(rest)
    }

    // The arm of a value. What arms give is of one sort.
    fn match_of(&mut self, value: ExprId, found: &Arms, pos: Pos) -> Result<Typed, Stop> {
        let given = self.of_one_kind(&found.bodies, pos)?;
        let mut arms = Vec::new(self.alloc);
        for (taken, body) in found.taken.iter().zip(&given.exprs) {
            arms.push(Arm {
                taken: *taken,
                body: *body,
            })?;
        }
        Ok(of_kind(self.matched(value, &arms)?, given.kind))
    }

    /// What a match becomes.
    #[cycle(says)]
    pub(crate) fn says_match<'e>(
        &mut self,
        scope: &mut Scope<'e>,
        value: &'e SpecExpr,
        cases: &'e [SpecExpr],
        pos: Pos,
        fuel: usize,
    ) -> Result<Typed, Stop> {
        let value = self.says(scope, value, fuel)?;
        let mut found = Arms::new(self.alloc);
        for case in cases {
            if self.says_arm(scope, value.kind, case, &mut found, fuel)? {
                break;
            }
        }
        self.match_of(value.expr, &found, pos)
    }

    // Adds the arm of a case, of a value of this kind. True where it takes any value.
    #[cycle(says)]
    fn says_arm<'e>(
        &mut self,
        scope: &mut Scope<'e>,
        kind: Kind,
        case: &'e SpecExpr,
        found: &mut Arms,
        fuel: usize,
    ) -> Result<bool, Stop> {
        let SpecExpr::Pair { left, right, .. } = case else {
            return Err(self.unsupported("a case that is no pair", pos_of(case)));
        };
        let len = scope.len();
        let taken = self.bind_pattern(scope, kind, left)?;
        let body = self.says_arm_body(scope, right, fuel)?;
        scope.shorten(len);
        if let Taken::Variant(_, variant) = taken {
            if found.has(variant) {
                return Err(self.arm_twice(pos_of(left)));
            }
        }
        found.taken.push(taken)?;
        found.bodies.push(body)?;
        Ok(match taken {
            Taken::Variant(_, _) => false,
            Taken::Struct(_) | Taken::Any => true,
        })
    }

    /// The field of a struct, or of the variants that have it.
    #[cycle(says)]
    pub(crate) fn says_field<'e>(
        &mut self,
        scope: &mut Scope<'e>,
        field: &str,
        args: &'e [SpecExpr],
        pos: Pos,
        fuel: usize,
    ) -> Result<Typed, Stop> {
        let alloc = self.alloc;
        let [value] = args else {
            return Err(wrong(pos, String::from_str(alloc, "a field is of one value")));
        };
        let value = self.says(scope, value, fuel)?;
        let own = value.kind.own();
        if let (Some(ty), Some(variants)) = (own, self.variants_of(own)) {
            return Ok(self.field_of_variants(value.expr, ty, variants, field)?);
        }
        match self.field_of_struct(value, field)? {
            Some(found) => Ok(found),
            None => Err(wrong(pos, format!(in alloc; "the value has no field `{field}`"))),
        }
    }

    // The field of a struct, if it has it.
    fn field_of_struct(&mut self, value: Typed, name: &str) -> Result<Option<Typed>, Fault> {
        let Some(fields) = self.fields_of(value.kind.own()) else {
            return Ok(None);
        };
        match field_place(&self.lowered.tyenv, fields, name) {
            Some(index) => {
                let expr = self.operation(Operator::Field { index }, &[value.expr])?;
                Ok(Some(of_kind(expr, self.kind_of_field(field_type(fields, index)))))
            }
            None => Ok(None),
        }
    }

    // The field of the variants that have it: of others nothing is said.
    fn field_of_variants(
        &mut self,
        value: ExprId,
        ty: TypeId,
        variants: &[Variant],
        name: &str,
    ) -> Result<Typed, Fault> {
        let mut arms = Vec::new(self.alloc);
        let mut kind = Kind::Unknown;
        for variant in variants {
            if let Some(place) = field_place(&self.lowered.tyenv, &variant.fields, name) {
                let body = self.variable(place)?;
                arms.push(Arm {
                    taken: Taken::Variant(ty, variant.id),
                    body,
                })?;
                let given = self.kind_of_field(field_type(&variant.fields, place));
                kind = self.common_kind(kind, given).unwrap_or(Kind::Unknown);
            }
        }
        Ok(of_kind(self.matched(value, &arms)?, kind))
    }
}
