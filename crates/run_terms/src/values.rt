//! Values, and what sites hold.

ghost use Rattle.std.specs.Prelude.{◌≡◌, ◌&&◌, ℕ, IfOk, Some, option_map};
ghost use Rattle.std.specs.Bool.{◌==◌};
ghost use Rattle.model.specs.rules.Values.{value_eq, values_eq};
ghost use Rattle.run_terms.specs.ValueViews.{value_view, value_views, content_view, content_views};
ghost use Rattle.model.specs.trees.Run.{Env, as_value, unwrapped};
ghost use Rattle.run_terms.specs.RunViews.{content_list, found_view, many_by};

use crate::state::Found;
use core_types::{TypeId, VariantId};
use std::alloc::{AllocError, Global};

/// A value: a finite tree.
pub enum Value {
    /// A truth value.
    Truth(bool),
    /// A value of a built-in integer type or of a primitive type, or one of an extern enum that is of none of its variants.
    Atom(TypeId, i128),
    /// A variant with its fields, in order.
    Variant(TypeId, VariantId, Vec<Value>),
    /// A struct with its fields, in order.
    Struct(TypeId, Vec<Value>),
}

impl Drop for Value {
    fn drop(self) {
        match self {
            Value::Truth(_) => {}
            Value::Atom(_, _) => {}
            Value::Variant(_, _, _) => {}
            Value::Struct(_, _) => {}
        }
    }
}

impl Clone for Value {
    ghost use Rattle.run_terms.specs.ValueViews.{value_view};

    ghost is_clone = { λ v w. value_view w ≡ value_view v };

    #[cycle(value_clone)]
    fn clone(&self) -> Result<Value, AllocError> {
        match self {
            Value::Truth(truth) => Ok(Value::Truth(*truth)),
            Value::Atom(ty, number) => Ok(Value::Atom(*ty, *number)),
            Value::Variant(ty, variant, fields) => Ok(Value::Variant(
                *ty,
                *variant,
                value_clones(*fields.allocator(), fields)?,
            )),
            Value::Struct(ty, fields) => Ok(Value::Struct(
                *ty,
                value_clones(*fields.allocator(), fields)?,
            )),
        }
    }
}

/// The clones of several values.
#[cycle(value_clone)]
pub fn value_clones(alloc: Global, parts: &[Value]) -> Result<Vec<Value>, AllocError>
    ensures { IfOk result (λ v. value_views v.items ≡ value_views parts.now) }
{
    let mut out = Vec::new(alloc);
    for part in parts {
        out.push(part.clone()?)?;
    }
    Ok(out)
}

/// Whether two types are the same.
pub fn same_type(s: TypeId, t: TypeId) -> bool
    ensures { result ≡ (s.0 == t.0) }
{
    s.index() == t.index()
}

/// Whether two variants are the same.
pub fn same_variant(s: TypeId, i: VariantId, t: TypeId, j: VariantId) -> bool
    ensures { result ≡ ((s.0 == t.0) && (i.0 == j.0)) }
{
    s.index() == t.index() && i.index() == j.index()
}

/// Whether two values are equal.
#[cycle(same)]
pub fn same_value(a: &Value, b: &Value) -> bool
    ensures { result ≡ value_eq (value_view a.now) (value_view b.now) }
{
    match (a, b) {
        (Value::Truth(x), Value::Truth(y)) => *x == *y,
        (Value::Atom(s, x), Value::Atom(t, y)) => s.index() == t.index() && *x == *y,
        (Value::Variant(s, i, xs), Value::Variant(t, j, ys)) => {
            if same_variant(*s, *i, *t, *j) {
                same_values(xs, ys)
            } else {
                false
            }
        }
        (Value::Struct(s, xs), Value::Struct(t, ys)) => {
            if same_type(*s, *t) {
                same_values(xs, ys)
            } else {
                false
            }
        }
        _ => false,
    }
}

#[cycle(same)]
fn same_values(a: &[Value], b: &[Value]) -> bool
    ensures { result ≡ values_eq (value_views a.now) (value_views b.now) }
{
    let mut place = 0;
    for x in a {
        match b.get(place) {
            Some(y) => {
                if !same_value(x, y) {
                    return false;
                }
            }
            None => return false,
        }
        place += 1;
    }
    b.get(place).is_none()
}

/// What a site can hold.
pub enum Content {
    /// One value.
    One(Value),
    /// The outputs of a call that has none or several.
    Parts(Vec<Value>),
    /// Nothing: a call has failed.
    Nothing,
    /// A content that is there.
    Just(Box<Content>),
    /// The answers of a multi call.
    Many(Vec<Content>),
}

impl Drop for Content {
    fn drop(self) {
        match self {
            Content::One(_) => {}
            Content::Parts(_) => {}
            Content::Nothing => {}
            Content::Just(_) => {}
            Content::Many(_) => {}
        }
    }
}

impl Content {
    /// The value that it is, if it is one.
    pub fn into_value(self) -> Option<Value>
        ensures { option_map value_view result ≡ as_value (content_view self) }
    {
        match self {
            Content::One(value) => Some(value),
            Content::Parts(_) => None,
            Content::Nothing => None,
            Content::Just(_) => None,
            Content::Many(_) => None,
        }
    }

    /// The answers of a multi call, if it is such.
    pub fn into_answers(self) -> Option<Vec<Content>>
        ensures { option_map (λ v. content_list v.items) result ≡ many_by (Some (content_view self)) }
    {
        match self {
            Content::One(_) => None,
            Content::Parts(_) => None,
            Content::Nothing => None,
            Content::Just(_) => None,
            Content::Many(answers) => Some(answers),
        }
    }

    /// What is in a content that is there; an unwrap of nothing fails.
    pub fn unwrapped(self) -> Found
        ensures { (env : Env) (calls : _) (s : ℕ) → found_view result env calls s ≡ unwrapped env calls s (Some (content_view self)) }
    {
        match self {
            Content::One(_) => Found::Missing,
            Content::Parts(_) => Found::Missing,
            Content::Nothing => Found::Failed,
            Content::Just(inner) => Found::There(Box::into_inner(inner)),
            Content::Many(_) => Found::Missing,
        }
    }
}

impl Clone for Content {
    ghost use Rattle.run_terms.specs.ValueViews.{content_view};

    ghost is_clone = { λ v w. content_view w ≡ content_view v };

    #[cycle(content_clone)]
    fn clone(&self) -> Result<Content, AllocError> {
        match self {
            Content::One(value) => Ok(Content::One(value.clone()?)),
            Content::Parts(values) => {
                Ok(Content::Parts(value_clones(*values.allocator(), values)?))
            }
            Content::Nothing => Ok(Content::Nothing),
            Content::Just(content) => {
                let alloc = *Box::allocator(content);
                Ok(Content::Just(Box::new(alloc, (**content).clone()?)?))
            }
            Content::Many(answers) => {
                Ok(Content::Many(content_clones(*answers.allocator(), answers)?))
            }
        }
    }
}

#[cycle(content_clone)]
fn content_clones(alloc: Global, parts: &[Content]) -> Result<Vec<Content>, AllocError>
    ensures { IfOk result (λ v. content_views v.items ≡ content_views parts.now) }
{
    let mut out = Vec::new(alloc);
    for part in parts {
        out.push(part.clone()?)?;
    }
    Ok(out)
}
