//! What is made of answers to calls.

ghost use Rattle.std.specs.Prelude.{◌≡◌, IfOk, option_map};
ghost use Rattle.model.specs.rules.Matching.{single};
ghost use Rattle.model.specs.rules.Meaning.{answered_outputs, outputs};
ghost use Rattle.model.specs.trees.Run.{as_value};
ghost use Rattle.run_terms.specs.ValueViews.{content_view, value_view, value_views};

use crate::values::{Content, Value, value_clones};
use std::alloc::{AllocError, Global};

// The outputs of a call that has answered: one value stands alone, none or several stand together.
fn outputs(alloc: Global, content: &Content) -> Result<Option<Vec<Value>>, AllocError>
    ensures { IfOk result (λ o. option_map (λ v. value_views v.items) o ≡ outputs (content_view content.now)) }
{
    match content {
        Content::One(value) => {
            let value = value.clone()?;
            Ok(Some(vec![in alloc; value]?))
        }
        Content::Parts(values) => Ok(Some(value_clones(alloc, values)?)),
        Content::Nothing => Ok(None),
        Content::Just(_) => Ok(None),
        Content::Many(_) => Ok(None),
    }
}

/// The outputs of a call that may answer nothing.
pub fn answered_outputs(alloc: Global, content: &Content) -> Result<Option<Vec<Value>>, AllocError>
    ensures { IfOk result (λ o. option_map (λ v. value_views v.items) o ≡ answered_outputs (content_view content.now)) }
{
    match content {
        Content::Just(inner) => outputs(alloc, inner),
        Content::Nothing => Ok(None),
        Content::One(_) => outputs(alloc, content),
        Content::Parts(_) => outputs(alloc, content),
        Content::Many(_) => outputs(alloc, content),
    }
}

fn one_value(content: &Content) -> Result<Option<Value>, AllocError>
    ensures { IfOk result (λ o. option_map value_view o ≡ as_value (content_view content.now)) }
{
    match content {
        Content::One(value) => Ok(Some(value.clone()?)),
        Content::Parts(_) => Ok(None),
        Content::Nothing => Ok(None),
        Content::Just(_) => Ok(None),
        Content::Many(_) => Ok(None),
    }
}

/// The value that a call's answer is, where it is one.
pub fn single(content: &Content) -> Result<Option<Value>, AllocError>
    ensures { IfOk result (λ o. option_map value_view o ≡ single (content_view content.now)) }
{
    match content {
        Content::Just(inner) => one_value(inner),
        Content::One(_) => one_value(content),
        Content::Parts(_) => Ok(None),
        Content::Nothing => Ok(None),
        Content::Many(_) => Ok(None),
    }
}
