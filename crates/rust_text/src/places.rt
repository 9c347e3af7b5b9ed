//! Places, and how they are handed on.

ghost use Rattle.std.specs.Prelude.{◌∷◌, OnOk};
ghost use Rattle.model_code.specs.Tokens.{number};
ghost use Rattle.model_code.specs.Pieces.{place_before, token, use_before};
ghost use Rattle.rust_code.specs.CodeViews.{place_view, use_view};
ghost use Rattle.rust_text.specs.Adding.{Adds};

use crate::added::{add_token, add_word, add_words};
use crate::tokens::{Owner, Piece, RustToken, Word};
use cranelift_isle::sema::TypeId;
use rust_code::code::{Pass, ReadPlace, Use};
use std::alloc::AllocError;

/// Adds an integer.
pub(crate) fn add_int(out: &mut Vec<Piece>, val: i128, ty: TypeId) -> Result<(), AllocError>
    ensures { OnOk result (Adds out.old.items out.new.items (λ p rest. token (number val (p.ending ty.0)) ∷ rest)) }
{
    add_token(out, RustToken::Int { val, ty })
}

/// Adds a place.
pub(crate) fn add_place(out: &mut Vec<Piece>, place: ReadPlace) -> Result<(), AllocError>
    ensures { OnOk result (Adds out.old.items out.new.items (λ p rest. place_before p (place_view place) rest)) }
{
    match place {
        ReadPlace::Variable { site } => add_token(out, RustToken::Variable(site)),
        ReadPlace::Parameter { index } => add_token(out, RustToken::Parameter(index)),
        ReadPlace::PartOf { tuple, field } => {
            add_token(out, RustToken::Variable(tuple))?;
            add_token(out, RustToken::Part(field))
        }
        ReadPlace::IntWritten { val, ty } => add_int(out, val, ty),
        ReadPlace::NameWritten { name } => add_token(out, RustToken::Constant(name)),
        ReadPlace::VariantWritten { ty, variant } => {
            add_token(out, RustToken::Owner(Owner::Variant { ty, variant }))
        }
        ReadPlace::StructWritten { ty } => add_token(out, RustToken::Owner(Owner::Struct { ty })),
    }
}

/// Adds a place as it is handed on.
pub(crate) fn add_use(out: &mut Vec<Piece>, used: Use) -> Result<(), AllocError>
    ensures { OnOk result (Adds out.old.items out.new.items (λ p rest. use_before p (use_view used) rest)) }
{
    match used.pass {
        Pass::AsItIs => add_place(out, used.place),
        Pass::Lent => {
            add_word(out, Word::Ampersand)?;
            add_place(out, used.place)
        }
        Pass::Cloned => {
            add_place(out, used.place)?;
            add_words(out, &[Word::Dot, Word::Clone, Word::Opening, Word::Closing])
        }
        Pass::SeenThrough => {
            add_word(out, Word::Star)?;
            add_place(out, used.place)
        }
    }
}
