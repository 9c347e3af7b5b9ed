//! The line of an object.
#![tactic(auto, using(crate::proofs::Nesting::nest_steps))]

ghost use Rattle.std.specs.Prelude.{◌≡◌, ◌∷◌, ◌++◌, [], List, IfOk, OnOk, reverse, string_bytes};
ghost use Rattle.json.specs.Json.{Members, object};
ghost use Rattle.json.specs.Lex.{tokens};
ghost use Rattle.json.specs.Print.{print};
ghost use Rattle.json.specs.Token.{Token};
ghost use Rattle.text_json.specs.JsonLine.{IsJsonLine, IsLineOf};
ghost use Rattle.text_json.specs.Nesting.{closed, inside, nesting, whole};
ghost use Rattle.text_json.specs.Writing.{all_last_tokens, last_tokens, with_members, written};

use crate::{Json, Place};
use json::Writer;
use std::alloc::AllocError;

impl Json {
    /// The line: what is open is ended.
    pub fn line(self) -> Result<String, AllocError>
        ensures json { IfOk result (λ text. IsJsonLine (string_bytes text)) }
        ensures members { IfOk result (λ text. (ms : Members) → written self ≡ with_members ms (Token.begin_object ∷ [])
            → IsLineOf (object ms) (string_bytes text)) }
    {
        let Json {
            mut out,
            outer,
            place,
        } = self;
        push_ends(&mut out, outer, place)?;
        let mut text = printed(out);
        text.push_str("\n")?;
        Ok(text)
    }
}

// What is written, as text.
fn printed(out: Writer) -> String
    requires { out.before ≡ [] }
    ensures text { string_bytes result ≡ print out.tokens }
    ensures read { tokens (print out.tokens) ≡ out.tokens }
{
    String::from_utf8(out.into_inner()).unwrap()
}

// Ends all that is open.
fn push_ends(out: &mut Writer, outer: Vec<Place>, place: Place) -> Result<(), AllocError>
    requires { nesting out.old.tokens ≡ inside (reverse outer.items) place }
    ensures whole { OnOk result (nesting out.new.tokens ≡ whole) }
    ensures before { OnOk result (out.new.before ≡ out.old.before) }
    ensures ends { OnOk result (out.new.tokens ≡ out.old.tokens ++ all_last_tokens (place ∷ reverse outer.items)) }
{
    let mut outer = outer;
    push_last(out, place)?;
    while let Some(around) = outer.pop() {
        push_last(out, around)?;
    }
    Ok(())
}

// Ends what a place is in. A key without a value gets `null`.
fn push_last(out: &mut Writer, place: Place) -> Result<(), AllocError>
    ensures nested { OnOk result ((outer : List Place) → nesting out.old.tokens ≡ inside outer place
        → nesting out.new.tokens ≡ closed outer) }
    ensures before { OnOk result (out.new.before ≡ out.old.before) }
    ensures ends { OnOk result (out.new.tokens ≡ out.old.tokens ++ last_tokens place) }
{
    match place {
        Place::List => out.end_array(),
        Place::Object => out.end_object(),
        Place::Key => {
            out.null()?;
            out.end_object()
        }
    }
}
