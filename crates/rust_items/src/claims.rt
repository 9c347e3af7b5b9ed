//! Things with names in Rust, told apart by them.

ghost use Rattle.std.specs.Prelude.{◌≡◌, ◌≢◌, ◌⊎◌, ℕ, List, None, Some, All, IfErr, IfOk, OnOk, find, if◌then◌else◌, option_map, string_bytes};
ghost use Rattle.std.specs.Str.{bytes_eq};
ghost use Rattle.rust_items.specs.Claims.{AreWrittenApart, Claim as Thing, IsFirstClash, IsWellNamed, TellsClash, TellsFirst, TellsTaken, clash_text, first_taken, taken_text};
ghost use Rattle.rust_items.specs.ClaimViews.{claim_view, claim_views, is_own, kind_view, kind_views, owner_in};
ghost use Rattle.rust_items.specs.Faults.{TellsOf};

use crate::faults::CodeError;
use crate::own::{is_own_type, is_own_value};
use std::alloc::{AllocError, Global};
use std::collections::HashMap;

/// A thing with a name.
pub struct Claim {
    /// The name, as it is written in Rust.
    pub written: String,
    /// The thing, as errors tell it.
    pub owner: String,
}

/// Which names of the code's own things of a kind can't have.
#[derive(Clone, Copy)]
pub enum Own {
    /// None is refused.
    Nothing,
    /// Those of values.
    Values,
    /// Those of types and of values.
    Types,
}

/// Things that are to be told apart.
pub struct Namespace {
    /// What they are, as errors tell it.
    pub what: &'static str,
    /// What one of them is.
    pub one: &'static str,
    /// Which names they can't have.
    pub own: Own,
    /// The things.
    pub claims: Vec<Claim>,
}

impl Drop for Claim {
    fn drop(self) {
        let Claim {
            written: _,
            owner: _,
        } = self;
    }
}

impl Drop for Namespace {
    fn drop(self) {
        let Namespace {
            what: _,
            one: _,
            own: _,
            claims: _,
        } = self;
    }
}

/// Looks for things that can't have their names, kind by kind.
///
/// # Errors
///
/// `Names` for the first kind where a thing is written as a name of the code's own, or as an earlier thing; `Memory` where memory
/// is refused.
pub fn check_kinds(alloc: Global, kinds: &[Namespace]) -> Result<(), CodeError>
    ensures good { OnOk result (All IsWellNamed (kind_views kinds.now)) }
    ensures wrong { IfErr result (λ e. TellsOf e (TellsFirst (kind_views kinds.now))) }
{
    for kind in kinds {
        check_kind(alloc, kind)?;
    }
    Ok(())
}

// Looks for things of a kind that can't have their names.
fn check_kind(alloc: Global, kind: &Namespace) -> Result<(), CodeError>
    ensures good { OnOk result (IsWellNamed (kind_view kind.now)) }
    ensures wrong { IfErr result (λ e. TellsOf e (λ text. TellsTaken (kind_view kind.now) text ⊎ TellsClash (kind_view kind.now) text)) }
{
    check_free(alloc, kind)?;
    check_apart(alloc, kind.what, &kind.claims)
}

// Looks for a thing that is written as a name of the code's own.
fn check_free(alloc: Global, kind: &Namespace) -> Result<(), CodeError>
    ensures free { OnOk result (first_taken (kind_view kind.now) ≡ None) }
    ensures taken { IfErr result (λ e. TellsOf e (TellsTaken (kind_view kind.now))) }
{
    match first_taken(kind.own, &kind.claims) {
        Some(claim) => Err(CodeError::Names(taken_text(alloc, kind.one, claim.owner.as_str())?)),
        None => Ok(()),
    }
}

// The first thing that is written as a name of the code's own.
fn first_taken(own: Own, claims: &[Claim]) -> Option<&Claim>
    ensures { option_map (λ c. claim_view c.now) result ≡ find (λ c. is_own own c.written) (claim_views claims.now) }
{
    for claim in claims {
        if is_own(own, claim.written.as_str()) {
            return Some(claim);
        }
    }
    None
}

fn is_own(own: Own, name: &str) -> bool
    ensures { result ≡ is_own own name.now }
{
    match own {
        Own::Nothing => false,
        Own::Values => is_own_value(name),
        Own::Types => is_own_type(name),
    }
}

// What is told of a thing that is written as a name of the code's own.
fn taken_text(alloc: Global, one: &str, owner: &str) -> Result<String, AllocError>
    ensures { IfOk result (λ text. string_bytes text ≡ taken_text one.now owner.now) }
{
    format!(in alloc; "the {one} `{owner}` has a name that the code itself uses")
}

// Looks for two things that would have one name.
fn check_apart(alloc: Global, what: &str, claims: &[Claim]) -> Result<(), CodeError>
    ensures apart { OnOk result (AreWrittenApart (claim_views claims.now)) }
    ensures clash { IfErr result (λ e. TellsOf e (λ text. (earlier later : Thing) × IsFirstClash (claim_views claims.now) earlier later × (text ≡ clash_text what.now earlier.owner later.owner later.written))) }
{
    let mut owners = HashMap::new(alloc);
    for claim in claims {
        note(alloc, &mut owners, what, claim)?;
    }
    Ok(())
}
// Notes what has a name. The same thing may have it again.
fn note(
    alloc: Global,
    owners: &mut HashMap<String, String>,
    what: &str,
    claim: &Claim,
) -> Result<(), CodeError>
    ensures held { OnOk result ((q : List ℕ) → owner_in owners.new q ≡ (if bytes_eq (string_bytes claim.now.written) q then Some (string_bytes claim.now.owner) else owner_in owners.old q)) }
    ensures free { OnOk result ((o : List ℕ) → owner_in owners.old (string_bytes claim.now.written) ≡ Some o → o ≡ string_bytes claim.now.owner) }
    ensures clash { IfErr result (λ e. TellsOf e (λ text. (o : List ℕ) × (owner_in owners.old (string_bytes claim.now.written) ≡ Some o) × (o ≢ string_bytes claim.now.owner) × (text ≡ clash_text what.now o (string_bytes claim.now.owner) (string_bytes claim.now.written)))) }
{
    if let Some(earlier) = owners.get(claim.written.as_str()) {
        return check_same(alloc, what, earlier.as_str(), claim);
    }
    let written = claim.written.clone()?;
    let owner = claim.owner.clone()?;
    owners.insert(written, owner)?;
    Ok(())
}

// Whether the thing that has a name already is this one.
fn check_same(alloc: Global, what: &str, earlier: &str, claim: &Claim) -> Result<(), CodeError>
    ensures same { OnOk result (earlier.now ≡ string_bytes claim.now.owner) }
    ensures other { IfErr result (λ e. TellsOf e (λ text. (earlier.now ≢ string_bytes claim.now.owner) × (text ≡ clash_text what.now earlier.now (string_bytes claim.now.owner) (string_bytes claim.now.written)))) }
{
    if earlier == claim.owner.as_str() {
        return Ok(());
    }
    Err(CodeError::Names(clash_text(alloc, what, earlier, claim)?))
}

// What is told of two things that would have one name.
fn clash_text(alloc: Global, what: &str, earlier: &str, claim: &Claim) -> Result<String, AllocError>
    ensures { IfOk result (λ text. string_bytes text ≡ clash_text what.now earlier.now (string_bytes claim.now.owner) (string_bytes claim.now.written)) }
{
    let Claim { written, owner } = claim;
    format!(in alloc; "{what} `{earlier}` and `{owner}` would both be `{written}` in Rust")
}
