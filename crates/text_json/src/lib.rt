//! A writer of JSON: values after one another.
//!
//! What it gives is one line of JSON, whatever was called in which order. A call that is out of place adds nothing: a value in
//! an object without a key before it, a key in a list or behind a key, an end behind a key or where nothing was begun.
#![tactic(auto)]

ghost use Rattle.std.specs.Prelude.{◌≡◌, [], reverse};
ghost use Rattle.text_json.specs.Nesting.{inside, nesting};

mod calls;
mod line;

use json::Writer;

// What may come next.
#[derive(Clone, Copy, PartialEq, Eq)]
enum Place {
    // A value of a list, or its end.
    List,
    // A key of an object, or its end.
    Object,
    // The value of a key.
    Key,
}

/// JSON that is being written: an object.
pub struct Json {
    // What is written.
    out: Writer,
    // The places behind what is open, but for the whole.
    outer: Vec<Place>,
    place: Place,
    ghost alone: { out.before ≡ [] },
    ghost nested: { nesting out.tokens ≡ inside (reverse outer.items) place },
}

impl Drop for Json {
    fn drop(self) {
        let Json {
            out: _,
            outer: _,
            place: _,
        } = self;
    }
}
