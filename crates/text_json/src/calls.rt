//! The calls that add to an object.
#![tactic(auto, using(crate::proofs::Nesting::nest_steps, crate::proofs::Writing::put_steps))]

ghost use Rattle.std.specs.Prelude.{◌≡◌, ◌≢◌, ◌∷◌, ◌++◌, [], IfOk, OnErr, OnOk, decimal};
ghost use Rattle.std.specs.Fmt.{signed_decimal};
ghost use Rattle.json.specs.Json as Data;
ghost use Rattle.json.specs.Json.{boolean, member, no_members, null, string};
ghost use Rattle.json.specs.Token.{Token};
ghost use Rattle.text_json.specs.Nesting.{after_value, begin_token, end_token};
ghost use Rattle.text_json.specs.Writing.{put, put_end, with_members, with_value, written};

use crate::{Json, Place};
use json::Writer;
use std::alloc::{AllocError, Global};

impl Json {
    /// An object that nothing is in yet.
    pub fn new(alloc: Global) -> Result<Json, AllocError>
        ensures { IfOk result (λ json. written json ≡ Token.begin_object ∷ []) }
    {
        let mut out = Writer::new(Vec::new(alloc));
        out.begin_object()?;
        Ok(Json {
            out,
            outer: Vec::new(alloc),
            place: Place::Object,
        })
    }

    /// Begins a list.
    pub fn begin_list(&mut self) -> Result<(), AllocError>
        ensures { OnOk result (written self.new ≡ put Token.begin_array (written self.old)) }
    {
        self.begin(Place::List)
    }

    /// Begins an object.
    pub fn begin_object(&mut self) -> Result<(), AllocError>
        ensures { OnOk result (written self.new ≡ put Token.begin_object (written self.old)) }
    {
        self.begin(Place::Object)
    }

    // Begins what this place is in.
    fn begin(&mut self, inner: Place) -> Result<(), AllocError>
        requires { inner ≢ Place.Key }
        ensures { OnOk result (written self.new ≡ put (begin_token inner) (written self.old)) }
    {
        let Some(after) = after_value(self.place) else {
            return Ok(());
        };
        self.outer.push(after)?;
        if let Err(error) = push_begin(&mut self.out, inner) {
            self.outer.pop();
            return Err(error);
        }
        self.place = inner;
        Ok(())
    }

    /// Ends the list or the object that was begun last.
    pub fn end(&mut self) -> Result<(), AllocError>
        ensures { OnOk result (written self.new ≡ put_end (written self.old)) }
    {
        if self.place == Place::Key {
            return Ok(());
        }
        let Some(after) = self.outer.last().copied() else {
            return Ok(());
        };
        push_end(&mut self.out, self.place)?;
        self.outer.pop();
        self.place = after;
        Ok(())
    }

    /// A key of an object, whose value comes next.
    pub fn key(&mut self, name: &str) -> Result<(), AllocError>
        ensures { OnOk result (written self.new ≡ put (Token.key name.now) (written self.old)) }
    {
        if self.place != Place::Object {
            return Ok(());
        }
        self.out.key(name)?;
        self.place = Place::Key;
        Ok(())
    }

    /// A key with a list that begins.
    pub fn begin_list_at(&mut self, name: &str) -> Result<(), AllocError>
        ensures { OnOk result (written self.new ≡ put Token.begin_array (put (Token.key name.now) (written self.old))) }
    {
        self.key(name)?;
        self.begin_list()
    }

    /// A key with an object that begins.
    pub fn begin_object_at(&mut self, name: &str) -> Result<(), AllocError>
        ensures { OnOk result (written self.new ≡ put Token.begin_object (put (Token.key name.now) (written self.old))) }
    {
        self.key(name)?;
        self.begin_object()
    }

    /// A key with a string.
    pub fn key_string(&mut self, name: &str, text: &str) -> Result<(), AllocError>
        ensures { OnOk result (written self.new
            ≡ with_members (member name.now (string text.now) no_members) (written self.old)) }
    {
        self.key(name)?;
        self.string(text)
    }

    /// A key with a number.
    pub fn key_number(&mut self, name: &str, number: usize) -> Result<(), AllocError>
        ensures { OnOk result (written self.new
            ≡ with_members (member name.now (Data.number (decimal number)) no_members) (written self.old)) }
    {
        self.key(name)?;
        self.number(number)
    }

    /// A key with a number that may be below 0.
    pub fn key_integer(&mut self, name: &str, number: i64) -> Result<(), AllocError>
        ensures { OnOk result (written self.new
            ≡ with_members (member name.now (Data.number (signed_decimal number)) no_members) (written self.old)) }
    {
        self.key(name)?;
        self.integer(number)
    }

    /// A key with a string of a number's digits, which may be more than a reader's numbers have.
    pub fn key_digits(&mut self, name: &str, number: i128) -> Result<(), AllocError>
        ensures { OnOk result (written self.new
            ≡ with_members (member name.now (string (signed_decimal number)) no_members) (written self.old)) }
    {
        let alloc = *self.outer.allocator();
        self.key(name)?;
        self.string(&format!(in alloc; "{number}")?)
    }

    /// A key with a truth value.
    pub fn key_flag(&mut self, name: &str, flag: bool) -> Result<(), AllocError>
        ensures { OnOk result (written self.new
            ≡ with_members (member name.now (boolean flag) no_members) (written self.old)) }
    {
        self.key(name)?;
        self.flag(flag)
    }

    /// A key with `null`.
    pub fn key_null(&mut self, name: &str) -> Result<(), AllocError>
        ensures { OnOk result (written self.new
            ≡ with_members (member name.now null no_members) (written self.old)) }
    {
        self.key(name)?;
        self.null()
    }

    /// A string.
    pub fn string(&mut self, text: &str) -> Result<(), AllocError>
        ensures { OnOk result (written self.new ≡ with_value (string text.now) (written self.old)) }
    {
        let Some(after) = after_value(self.place) else {
            return Ok(());
        };
        self.out.string(text)?;
        self.place = after;
        Ok(())
    }

    /// A number.
    pub fn number(&mut self, number: usize) -> Result<(), AllocError>
        ensures { OnOk result (written self.new ≡ with_value (Data.number (decimal number)) (written self.old)) }
    {
        let Some(after) = after_value(self.place) else {
            return Ok(());
        };
        self.out.u64(number as u64)?;
        self.place = after;
        Ok(())
    }

    /// A number that may be below 0.
    pub fn integer(&mut self, number: i64) -> Result<(), AllocError>
        ensures { OnOk result (written self.new ≡ with_value (Data.number (signed_decimal number)) (written self.old)) }
    {
        let Some(after) = after_value(self.place) else {
            return Ok(());
        };
        self.out.i64(number)?;
        self.place = after;
        Ok(())
    }

    /// A truth value.
    pub fn flag(&mut self, flag: bool) -> Result<(), AllocError>
        ensures { OnOk result (written self.new ≡ with_value (boolean flag) (written self.old)) }
    {
        let Some(after) = after_value(self.place) else {
            return Ok(());
        };
        self.out.boolean(flag)?;
        self.place = after;
        Ok(())
    }

    /// `null`.
    pub fn null(&mut self) -> Result<(), AllocError>
        ensures { OnOk result (written self.new ≡ with_value null (written self.old)) }
    {
        let Some(after) = after_value(self.place) else {
            return Ok(());
        };
        self.out.null()?;
        self.place = after;
        Ok(())
    }
}

// The place behind a value, where one may come.
fn after_value(place: Place) -> Option<Place>
    ensures { result ≡ after_value place }
{
    match place {
        Place::List => Some(Place::List),
        Place::Object => None,
        Place::Key => Some(Place::Object),
    }
}

// Begins what a place is in.
fn push_begin(out: &mut Writer, place: Place) -> Result<(), AllocError>
    ensures ok { OnOk result (out.new.tokens ≡ out.old.tokens ++ begin_token place ∷ []) }
    ensures err { OnErr result (out.new.tokens ≡ out.old.tokens) }
    ensures before { out.new.before ≡ out.old.before }
{
    match place {
        Place::List => out.begin_array(),
        Place::Object | Place::Key => out.begin_object(),
    }
}

// Ends what a place is in.
fn push_end(out: &mut Writer, place: Place) -> Result<(), AllocError>
    ensures ok { OnOk result (out.new.tokens ≡ out.old.tokens ++ end_token place ∷ []) }
    ensures err { OnErr result (out.new.tokens ≡ out.old.tokens) }
    ensures before { out.new.before ≡ out.old.before }
{
    match place {
        Place::List => out.end_array(),
        Place::Object | Place::Key => out.end_object(),
    }
}
