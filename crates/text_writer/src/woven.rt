//! Definitions and trees for a verifier as one text.

ghost use Rattle.std.specs.Prelude.{◌≡◌, IfErr, IfOk, map, Ok, OnOk, string_bytes};
ghost use Rattle.core_syntax.specs.SyntaxViews.{definition_view, definition_views, position};
ghost use Rattle.text_reader.specs.SpecViews.{numbered_view, verification_view};
ghost use Rattle.text_writer.specs.SpecFaults.{IsTrouble};
ghost use Rattle.text_writer.specs.Saying.{ReadsBackVerification};
ghost use Rattle.text_writer.specs.Woven.{added, defined_item, item_at, left_behind, said_item, tree_item, woven};
ghost use Rattle.text_writer.specs.ReadsBack.{ReadsBackAs};

use crate::definitions::{can_be_spelled as definition_can_be_spelled, push_definition};
use crate::spec_faults::SpecPrintFault;
use crate::spellable::{can_be_spelled, place};
use crate::verification::push_verification;
use core_syntax::syntax::{Def, Pos};
use std::alloc::Global;
use text_reader::syntax::VerificationForm;

/// The text of definitions and trees, each tree in the place of the definition for other tools that has its number. So what `read`
/// and `verification` give of a text is printed as one text.
///
/// # Errors
///
/// Where the first definition or tree stands that no text spells, or the first number that a tree or a definition for other tools has
/// and not the other, whichever comes first, and where memory is refused.
pub fn print_all(
    alloc: Global,
    defs: &[Def],
    forms: &[(usize, VerificationForm)],
) -> Result<String, SpecPrintFault>
    ensures text { IfOk result (λ s. woven 0 (definition_views defs.now) (map numbered_view forms.now) ≡ Ok (string_bytes s)) }
    // A reader of definitions reads these, and one for a verifier these trees, but for places.
    ensures defined { IfOk result (λ s. ReadsBackAs (string_bytes s) (definition_views defs.now)) }
    ensures said { IfOk result (λ s. ReadsBackVerification (string_bytes s) (map numbered_view forms.now)) }
    ensures trouble { IfErr result (λ e. IsTrouble e (woven 0 (definition_views defs.now) (map numbered_view forms.now))) }
{
    woven_text(alloc, defs, forms)
}

// The text of definitions and trees.
fn woven_text(
    alloc: Global,
    defs: &[Def],
    forms: &[(usize, VerificationForm)],
) -> Result<String, SpecPrintFault>
    ensures text { IfOk result (λ s. woven 0 (definition_views defs.now) (map numbered_view forms.now) ≡ Ok (string_bytes s)) }
    ensures trouble { IfErr result (λ e. IsTrouble e (woven 0 (definition_views defs.now) (map numbered_view forms.now))) }
{
    let mut text = String::new(alloc);
    let mut left = forms;
    for n in 0..defs.len() {
        match push_item(&mut text, n, &defs[n], left) {
            Ok(()) => left = left_behind(&defs[n], left),
            Err(fault) => return Err(fault),
        }
    }
    match left {
        [] => Ok(text),
        [first, ..] => Err(SpecPrintFault::Unmatched(first.0)),
    }
}

// Adds the item of a number, where this definition and these trees are left.
fn push_item(
    out: &mut String,
    n: usize,
    def: &Def,
    left: &[(usize, VerificationForm)],
) -> Result<(), SpecPrintFault>
    ensures added { OnOk result (added (string_bytes out.old) (item_at n (definition_view def.now) (map numbered_view left.now)) ≡ Ok (string_bytes out.new)) }
    ensures trouble { IfErr result (λ e. IsTrouble e (item_at n (definition_view def.now) (map numbered_view left.now))) }
{
    match def.place() {
        Some(place) => push_defined(out, def, place),
        None => push_said(out, n, left),
    }
}

fn push_defined(out: &mut String, def: &Def, place: Pos) -> Result<(), SpecPrintFault>
    ensures added { OnOk result (added (string_bytes out.old) (defined_item (definition_view def.now) (position place)) ≡ Ok (string_bytes out.new)) }
    ensures trouble { IfErr result (λ e. IsTrouble e (defined_item (definition_view def.now) (position place))) }
{
    if !definition_can_be_spelled(def) {
        return Err(SpecPrintFault::Unspellable(place));
    }
    push_definition(out, def)?;
    out.push_str("\n")?;
    Ok(())
}

// Adds the next tree, for the definition of this number.
fn push_said(
    out: &mut String,
    n: usize,
    left: &[(usize, VerificationForm)],
) -> Result<(), SpecPrintFault>
    ensures added { OnOk result (added (string_bytes out.old) (said_item n (map numbered_view left.now)) ≡ Ok (string_bytes out.new)) }
    ensures trouble { IfErr result (λ e. IsTrouble e (said_item n (map numbered_view left.now))) }
{
    match left {
        [] => Err(SpecPrintFault::Unmatched(n)),
        [first, ..] => push_tree(out, n, first.0, &first.1),
    }
}

// Adds a tree that has this number, for the definition of that number.
fn push_tree(
    out: &mut String,
    n: usize,
    number: usize,
    form: &VerificationForm,
) -> Result<(), SpecPrintFault>
    ensures added { OnOk result (added (string_bytes out.old) (tree_item n (number, verification_view form.now)) ≡ Ok (string_bytes out.new)) }
    ensures trouble { IfErr result (λ e. IsTrouble e (tree_item n (number, verification_view form.now))) }
{
    if number != n {
        return Err(SpecPrintFault::Unmatched(n));
    }
    if !can_be_spelled(form) {
        return Err(SpecPrintFault::Unspellable(place(form)));
    }
    push_verification(out, form)?;
    out.push_str("\n")?;
    Ok(())
}

// The trees that are left behind a definition.
fn left_behind<'a>(
    def: &Def,
    left: &'a [(usize, VerificationForm)],
) -> &'a [(usize, VerificationForm)]
    ensures { map numbered_view result.now ≡ left_behind (definition_view def.now) (map numbered_view left.now) }
{
    if def.place().is_some() {
        return left;
    }
    match left {
        [] => left,
        [_, rest @ ..] => rest,
    }
}
