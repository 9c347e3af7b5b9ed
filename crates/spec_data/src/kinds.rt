//! What sort of value an expression surely gives, and that operands fit their operators.

use crate::faults::{Stop, wrong};
use crate::heads::pos_of;
use crate::translation::{Translation, Typed};
use core_syntax::syntax::Pos;
use cranelift_isle::sema::{Type, TypeId};
use spec_cases::expressions::ExprId;
use spec_cases::faults::Fault;
use spec_cases::literals::Literal;
use spec_tables::models::ValueModel;
use spec_tables::operators::{Group, Operator};
use text_reader::syntax::SpecExpr;

/// What sort of value an expression gives, as far as it is known without widths.
#[derive(Clone, Copy, PartialEq, Eq)]
pub(crate) enum Kind {
    Truth,
    Integer,
    Word,
    /// A value of which there is one alone.
    Unit,
    /// A value of an enum or a struct that stands for itself.
    Own(TypeId),
    Unknown,
}

/// Values of one kind, among which one is chosen.
pub(crate) struct Choices {
    pub(crate) exprs: Vec<ExprId>,
    pub(crate) kind: Kind,
}

// Written out, and so proved here once.
impl Drop for Choices {
    fn drop(self) {
        let Choices { exprs: _, kind: _ } = self;
    }
}

impl Kind {
    /// The enum or the struct that a value is of, where it is known to be one.
    pub(crate) fn own(self) -> Option<TypeId> {
        match self {
            Kind::Own(ty) => Some(ty),
            Kind::Truth | Kind::Integer | Kind::Word | Kind::Unit | Kind::Unknown => None,
        }
    }

    // Whether a value may be of another kind.
    fn may_be(self, other: Kind) -> bool {
        self == Kind::Unknown || other == Kind::Unknown || self == other
    }
}

// Whether values of a kind are truths, integers or words.
fn is_plain(kind: Kind) -> bool {
    match kind {
        Kind::Truth | Kind::Integer | Kind::Word => true,
        Kind::Unit | Kind::Own(_) | Kind::Unknown => false,
    }
}

/// Whether values of two kinds are truths, integers or words of different sorts.
pub(crate) fn are_other_sorts(first: Kind, second: Kind) -> bool {
    is_plain(first) && is_plain(second) && first != second
}

/// The kind of a value that is written.
pub(crate) fn kind_written(literal: Literal) -> Kind {
    match literal {
        Literal::Truth(_) => Kind::Truth,
        Literal::Integer(_) => Kind::Integer,
        Literal::Word(_, _) => Kind::Word,
    }
}

/// The kind of what an operator of a group gives. Of a choice it is its operands'.
pub(crate) fn kind_given(group: Group) -> Kind {
    match group {
        Group::Truths
        | Group::Truth
        | Group::Implication
        | Group::Equality
        | Group::Order
        | Group::WordOrder => Kind::Truth,
        Group::Arithmetic | Group::Number => Kind::Integer,
        Group::Words
        | Group::Word
        | Group::Join
        | Group::Turn
        | Group::Part
        | Group::Resize
        | Group::Making => Kind::Word,
        Group::Choice => Kind::Unknown,
    }
}

// Whether an operand of a kind fits an operator of a group at this place.
fn fits_at(group: Group, place: usize, kind: Kind) -> bool {
    match group {
        Group::Truths | Group::Truth | Group::Implication => kind.may_be(Kind::Truth),
        Group::Order | Group::Arithmetic | Group::Making => kind.may_be(Kind::Integer),
        Group::Words | Group::Word | Group::WordOrder | Group::Join | Group::Number => {
            kind.may_be(Kind::Word)
        }
        Group::Turn => kind.may_be(Kind::Word) || place == 1 && kind == Kind::Integer,
        Group::Part if place < 2 => kind.may_be(Kind::Integer),
        Group::Resize if place < 1 => kind.may_be(Kind::Integer),
        Group::Part | Group::Resize => kind.may_be(Kind::Word),
        Group::Choice if place < 1 => kind.may_be(Kind::Truth),
        Group::Choice | Group::Equality => true,
    }
}

// Whether a value of a kind may be said to be of a model. Of values that are no plain ones nothing is said so.
fn is_as_said(kind: Kind, model: ValueModel) -> bool {
    match kind {
        Kind::Truth | Kind::Integer | Kind::Word => match model {
            ValueModel::Truth => kind == Kind::Truth,
            ValueModel::Integer => kind == Kind::Integer,
            ValueModel::Word(_) | ValueModel::AnyWord => kind == Kind::Word,
            ValueModel::Unit => false,
            ValueModel::Own | ValueModel::Unknown => true,
        },
        Kind::Unit | Kind::Own(_) | Kind::Unknown => true,
    }
}

impl<'c, 's> Translation<'c, 's> {
    /// The kind of the values of a type.
    pub(crate) fn kind_of(&self, ty: TypeId) -> Kind {
        match self.specs.model(ty) {
            ValueModel::Truth => Kind::Truth,
            ValueModel::Integer => Kind::Integer,
            ValueModel::Word(_) | ValueModel::AnyWord => Kind::Word,
            ValueModel::Unit => Kind::Unit,
            ValueModel::Own => self.own_kind(ty),
            ValueModel::Unknown => Kind::Unknown,
        }
    }

    // The kind of the values of a type that stand for themselves.
    fn own_kind(&self, ty: TypeId) -> Kind {
        match self.lowered.tyenv.types.get(ty.index()) {
            Some(Type::Enum { .. } | Type::Struct { .. }) => Kind::Own(ty),
            _ => Kind::Unknown,
        }
    }

    /// The kind of a field's values, where the field is known.
    pub(crate) fn kind_of_field(&self, ty: Option<TypeId>) -> Kind {
        match ty {
            Some(ty) => self.kind_of(ty),
            None => Kind::Unknown,
        }
    }

    /// The kind of what is one of two values. A number and a value that stands for one come to a number. None where they are of different
    /// sorts.
    pub(crate) fn common_kind(&self, first: Kind, second: Kind) -> Option<Kind> {
        if first == Kind::Unknown || first == second {
            return Some(second);
        }
        if second == Kind::Unknown || self.number_kind(second) == Some(first) {
            return Some(first);
        }
        if self.number_kind(first) == Some(second) {
            return Some(second);
        }
        None
    }

    // The kind of what is one of these values. None where they are of different sorts.
    fn kind_among(&self, values: &[Typed]) -> Option<Kind> {
        let mut kind = Kind::Unknown;
        for value in values {
            kind = self.common_kind(kind, value.kind)?;
        }
        Some(kind)
    }

    /// Values among which one is chosen, which have to be of one sort.
    pub(crate) fn of_one_kind(&mut self, values: &[Typed], pos: Pos) -> Result<Choices, Stop> {
        let Some(kind) = self.kind_among(values) else {
            return Err(self.unsorted(pos));
        };
        let mut exprs = Vec::new(self.alloc);
        for value in values {
            exprs.push(self.of_common_kind(*value, kind)?)?;
        }
        Ok(Choices { exprs, kind })
    }

    /// The operands of an operator, which have to be of the sorts that it takes.
    pub(crate) fn operands(
        &mut self,
        operator: Operator,
        group: Group,
        values: &[Typed],
        pos: Pos,
    ) -> Result<Vec<ExprId>, Stop> {
        let mut of = Vec::new(self.alloc);
        for (place, value) in values.iter().enumerate() {
            of.push(self.operand(operator, group, place, *value, pos)?.expr)?;
        }
        Ok(of)
    }

    /// An operand at a place, as a number where it stands for one.
    pub(crate) fn operand(
        &mut self,
        operator: Operator,
        group: Group,
        place: usize,
        value: Typed,
        pos: Pos,
    ) -> Result<Typed, Stop> {
        let value = self.as_number(value)?;
        if fits_at(group, place, value.kind) {
            Ok(value)
        } else {
            Err(self.misfit(operator, pos))
        }
    }

    /// The argument of an unknown function, or a field: as a number where that is wanted. None where it is of another sort than its type's
    /// values.
    pub(crate) fn argument(&mut self, value: Typed, ty: TypeId) -> Result<Option<ExprId>, Fault> {
        let wanted = self.kind_of(ty);
        if value.kind.may_be(wanted) {
            return Ok(Some(value.expr));
        }
        let number = self.as_number(value)?;
        if number.kind.may_be(wanted) {
            Ok(Some(number.expr))
        } else {
            Ok(None)
        }
    }

    /// A list of a spec has truths alone.
    pub(crate) fn truth_said(&self, said: Typed, expr: &SpecExpr) -> Result<ExprId, Stop> {
        if said.kind.may_be(Kind::Truth) {
            return Ok(said.expr);
        }
        Err(wrong(
            pos_of(expr),
            String::from_str(self.alloc, "this is no truth value"),
        ))
    }

    /// A value is of the sort that is said of it.
    pub(crate) fn has_model(&self, kind: Kind, model: ValueModel, pos: Pos) -> Result<(), Stop> {
        if is_as_said(kind, model) {
            return Ok(());
        }
        Err(wrong(
            pos,
            String::from_str(self.alloc, "the value is of another sort"),
        ))
    }

    /// That values among which one is chosen, or a key and its value, are of different sorts.
    pub(crate) fn unsorted(&self, pos: Pos) -> Stop {
        wrong(
            pos,
            String::from_str(self.alloc, "these are of different sorts"),
        )
    }
}
