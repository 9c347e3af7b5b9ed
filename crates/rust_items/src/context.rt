//! The trait of the functions that come from outside.

ghost use Rattle.std.specs.Prelude.{◌≡◌, ◌≢◌, ◌++◌, ℕ, List, Some, codes, IfErr, IfOk, OnOk, map, option_map, string_bytes};
ghost use Rattle.core_terms.specs.SignatureViews.{giving_view, signature_view};
ghost use Rattle.cranelift_isle.specs.SyntaxViews.{position};
ghost use Rattle.cranelift_isle.specs.TermViews.{term_view, term_views};
ghost use Rattle.rust_items.specs.Faults.{TellsOf};
ghost use Rattle.rust_items.specs.ItemViews.{added_view, added_views, held_in, items_by};
ghost use Rattle.rust_items.specs.LineViews.{lines_view};
ghost use Rattle.rust_items.specs.WrittenItems.{AreAlike, ContextFunction, TellsTwoSignatures, answers_begin, answers_written, call_begin, call_written, constructor_function, context_functions, context_written, extractor_function, first_held, firsts, function_at, function_lines, functions_of_term, given_written, lines_written, many_written, new_lines, one_written, option_written, places_text, returns_written, signature_written, signatures_text, trait_begin};

use crate::names::{push_name, push_part};
use crate::options::CodeError;
use crate::program::{ALLOWED, Program};
use cranelift_isle::sema::{ExternalSig, ReturnKind, Term, TypeId};
use cranelift_isle::syntax::Pos;
use std::alloc::AllocError;
use std::collections::HashMap;

// What the trait's functions and the constants owe: the premises of what is proved of trees.
const OWED: &str = "
/// The functions that the rules call.
///
/// Extractors and `pure` constructors must be functions of their arguments, without effect: the
/// code shares such calls, makes them early and repeats them. Different constants of one type that
/// patterns name must differ in value. No pattern may name a constant of an enum or struct type.
/// The proof of the trees depends on this. The compiler doesn't check it.
";

// A function: its name, its lines, and where a term that has it is declared.
struct Added {
    name: String,
    text: String,
    pos: Pos,
}

impl Drop for Added {
    fn drop(self) {
        let Added {
            name: _,
            text: _,
            pos: _,
        } = self;
    }
}

/// Adds the trait: a function for each external constructor and extractor, each name once.
///
/// # Errors
///
/// `Names` for the first function that has the name of an earlier one and another signature; `Memory` where memory is refused.
pub fn push_context(out: &mut String, program: Program<'_>) -> Result<(), CodeError>
    ensures written { OnOk result (string_bytes out.new ≡ string_bytes out.old ++ context_written (items_by program.entry) (term_views program.entry.terms.now)) }
    ensures alike { OnOk result (AreAlike (context_functions (items_by program.entry) (term_views program.entry.terms.now))) }
    ensures wrong { IfErr result (λ e. TellsOf e (TellsTwoSignatures (lines_view program.entry.lines.now) (context_functions (items_by program.entry) (term_views program.entry.terms.now)))) }
{
    let functions = functions_of(program)?;
    push_trait(out, program, &functions)
}

// The functions of the terms, in order.
fn functions_of(program: Program<'_>) -> Result<Vec<Added>, AllocError>
    ensures { IfOk result (λ v. added_views v.items ≡ context_functions (items_by program.entry) (term_views program.entry.terms.now)) }
{
    let mut functions = Vec::new(program.alloc);
    for term in program.terms {
        push_functions(program, &mut functions, term)?;
    }
    Ok(functions)
}

fn push_functions(
    program: Program<'_>,
    functions: &mut Vec<Added>,
    term: &Term,
) -> Result<(), AllocError>
    ensures { OnOk result (added_views functions.new.items ≡ added_views functions.old.items ++ functions_of_term (items_by program.entry) (term_view term.now)) }
{
    push_extractor(program, functions, term)?;
    push_constructor(program, functions, term)
}

// Adds the function that takes a term's values apart, where it comes from outside.
fn push_extractor(
    program: Program<'_>,
    functions: &mut Vec<Added>,
    term: &Term,
) -> Result<(), AllocError>
    ensures { OnOk result (added_views functions.new.items ≡ added_views functions.old.items ++ extractor_function (items_by program.entry) (term_view term.now)) }
{
    if !term.has_external_extractor() {
        return Ok(());
    }
    let sig = term.extractor_sig(program.alloc, program.tyenv)?;
    push_if_there(program, functions, &sig, term.decl_pos)
}

// Adds the function that makes a term's values, where it comes from outside.
fn push_constructor(
    program: Program<'_>,
    functions: &mut Vec<Added>,
    term: &Term,
) -> Result<(), AllocError>
    ensures { OnOk result (added_views functions.new.items ≡ added_views functions.old.items ++ constructor_function (items_by program.entry) (term_view term.now)) }
{
    if !term.has_external_constructor() {
        return Ok(());
    }
    let sig = term.constructor_sig(program.alloc, program.tyenv)?;
    push_if_there(program, functions, &sig, term.decl_pos)
}

fn push_if_there(
    program: Program<'_>,
    functions: &mut Vec<Added>,
    sig: &Option<ExternalSig>,
    pos: Pos,
) -> Result<(), AllocError>
    ensures { OnOk result (added_views functions.new.items ≡ added_views functions.old.items ++ function_at (items_by program.entry) (position pos) (option_map signature_view sig.now)) }
{
    match sig {
        Some(sig) => push_function(program, functions, sig, pos),
        None => Ok(()),
    }
}

// Adds the function of a signature.
#[tactic(auto, using(crate::proofs::Firsts::pushed_function))]
fn push_function(
    program: Program<'_>,
    functions: &mut Vec<Added>,
    sig: &ExternalSig,
    pos: Pos,
) -> Result<(), AllocError>
    ensures { OnOk result (added_views functions.new.items ≡ added_views functions.old.items ++ function_at (items_by program.entry) (position pos) (Some (signature_view sig.now))) }
{
    let mut text = String::new(program.alloc);
    push_signature(&mut text, program, sig)?;
    let name = sig.func_name.clone()?;
    functions.push(Added { name, text, pos })?;
    Ok(())
}

// Adds the trait of these functions.
fn push_trait(out: &mut String, program: Program<'_>, functions: &[Added]) -> Result<(), CodeError>
    ensures written { OnOk result (string_bytes out.new ≡ string_bytes out.old ++ (trait_begin ++ (function_lines (firsts (added_views functions.now)) ++ codes "}\n"))) }
    ensures alike { OnOk result (AreAlike (added_views functions.now)) }
    ensures wrong { IfErr result (λ e. TellsOf e (TellsTwoSignatures (lines_view program.entry.lines.now) (added_views functions.now))) }
{
    push_begin(out)?;
    push_firsts(out, program, functions)?;
    out.push_str("}\n")?;
    Ok(())
}

fn push_begin(out: &mut String) -> Result<(), AllocError>
    ensures { OnOk result (string_bytes out.new ≡ string_bytes out.old ++ trait_begin) }
{
    out.push_str(OWED)?;
    out.push_str(ALLOWED)?;
    out.push_str("pub trait Context {\n")
}

// Adds the first of these functions of each name. Others of that name must have the same lines.
fn push_firsts(out: &mut String, program: Program<'_>, functions: &[Added]) -> Result<(), CodeError>
    ensures written { OnOk result (string_bytes out.new ≡ string_bytes out.old ++ function_lines (firsts (added_views functions.now))) }
    ensures alike { OnOk result (AreAlike (added_views functions.now)) }
    ensures wrong { IfErr result (λ e. TellsOf e (TellsTwoSignatures (lines_view program.entry.lines.now) (added_views functions.now))) }
{
    let mut held = HashMap::new(program.alloc);
    for function in functions {
        push_once(out, program, &mut held, function)?;
    }
    Ok(())
}

// Adds the lines of a function, unless there is one of its name already.
fn push_once(
    out: &mut String,
    program: Program<'_>,
    held: &mut HashMap<String, Added>,
    function: &Added,
) -> Result<(), CodeError>
    ensures lines { OnOk result (string_bytes out.new ≡ string_bytes out.old ++ new_lines (held_in held.old (string_bytes function.now.name)) (added_view function.now)) }
    ensures held { OnOk result ((q : List ℕ) → held_in held.new q ≡ first_held (held_in held.old) (added_view function.now) q) }
    ensures same { OnOk result ((g : ContextFunction) → held_in held.old (string_bytes function.now.name) ≡ Some g → g.text ≡ string_bytes function.now.text) }
    ensures unlike { IfErr result (λ e. TellsOf e (λ text. (g : ContextFunction) × (held_in held.old (string_bytes function.now.name) ≡ Some g)
        × (g.text ≢ string_bytes function.now.text) × (text ≡ signatures_text (lines_view program.entry.lines.now) (string_bytes function.now.name) g.at (position function.now.pos)))) }
{
    if let Some(earlier) = held.get(function.name.as_str()) {
        return check_alike(program, earlier, function);
    }
    out.push_str(&function.text)?;
    let name = function.name.clone()?;
    let copy = copy_of(function)?;
    held.insert(name, copy)?;
    Ok(())
}

fn copy_of(function: &Added) -> Result<Added, AllocError>
    ensures { IfOk result (λ copy. added_view copy ≡ added_view function.now) }
{
    let name = function.name.clone()?;
    let text = function.text.clone()?;
    Ok(Added {
        name,
        text,
        pos: function.pos,
    })
}

// Whether two functions of one name have the same lines.
fn check_alike(program: Program<'_>, earlier: &Added, later: &Added) -> Result<(), CodeError>
    ensures same { OnOk result (string_bytes earlier.now.text ≡ string_bytes later.now.text) }
    ensures other { IfErr result (λ e. TellsOf e (λ text. (string_bytes earlier.now.text ≢ string_bytes later.now.text)
        × (text ≡ signatures_text (lines_view program.entry.lines.now) (string_bytes later.now.name) (position earlier.now.pos) (position later.now.pos)))) }
{
    if earlier.text.as_str() == later.text.as_str() {
        return Ok(());
    }
    let why = signatures_text(program, &later.name, earlier.pos, later.pos)?;
    Err(CodeError::Names(why))
}

// That a function would have two signatures, by the terms that are declared at these places.
fn signatures_text(
    program: Program<'_>,
    name: &str,
    earlier: Pos,
    later: Pos,
) -> Result<String, AllocError>
    ensures { IfOk result (λ text. string_bytes text ≡ signatures_text (lines_view program.entry.lines.now) name.now (position earlier) (position later)) }
{
    let mut why = String::from_str(program.alloc, "the external function `")?;
    why.push_str(name)?;
    why.push_str("` has two signatures, by the terms at ")?;
    push_places(&mut why, program, earlier, later)?;
    Ok(why)
}

fn push_places(
    out: &mut String,
    program: Program<'_>,
    earlier: Pos,
    later: Pos,
) -> Result<(), AllocError>
    ensures { OnOk result (string_bytes out.new ≡ string_bytes out.old ++ places_text (lines_view program.entry.lines.now) (position earlier) (position later)) }
{
    program.lines.push(out, earlier)?;
    out.push_str(" and at ")?;
    program.lines.push(out, later)
}

// Adds the lines of a function. One that gives many values is handed what it puts them into, whose type is its own.
fn push_signature(
    out: &mut String,
    program: Program<'_>,
    sig: &ExternalSig,
) -> Result<(), AllocError>
    ensures { OnOk result (string_bytes out.new ≡ string_bytes out.old ++ signature_written (items_by program.entry) (signature_view sig.now)) }
{
    push_lines(
        out,
        program,
        &sig.func_name,
        &sig.param_tys,
        &sig.ret_tys,
        sig.ret_kind,
    )
}

fn push_lines(
    out: &mut String,
    program: Program<'_>,
    name: &str,
    params: &[TypeId],
    tys: &[TypeId],
    kind: ReturnKind,
) -> Result<(), AllocError>
    ensures { OnOk result (string_bytes out.new ≡ string_bytes out.old
        ++ lines_written (items_by program.entry) name.now (map (λ t. t.0) params.now) (map (λ t. t.0) tys.now) (giving_view kind)) }
{
    push_returns(out, program, name, tys, kind)?;
    push_call(out, program, name, params, tys, kind)
}

// Adds the type of what many values are put into.
fn push_returns(
    out: &mut String,
    program: Program<'_>,
    name: &str,
    tys: &[TypeId],
    kind: ReturnKind,
) -> Result<(), AllocError>
    ensures { OnOk result (string_bytes out.new ≡ string_bytes out.old ++ returns_written (items_by program.entry) name.now (map (λ t. t.0) tys.now) (giving_view kind)) }
{
    match kind {
        ReturnKind::Plain => Ok(()),
        ReturnKind::Option => Ok(()),
        ReturnKind::Iterator => push_answers(out, program, name, tys),
    }
}

fn push_answers(
    out: &mut String,
    program: Program<'_>,
    name: &str,
    tys: &[TypeId],
) -> Result<(), AllocError>
    ensures { OnOk result (string_bytes out.new ≡ string_bytes out.old ++ answers_written (items_by program.entry) name.now (map (λ t. t.0) tys.now)) }
{
    push_answers_begin(out, name)?;
    program.push_outputs(out, tys)?;
    out.push_str(">;\n")
}

fn push_answers_begin(out: &mut String, name: &str) -> Result<(), AllocError>
    ensures { OnOk result (string_bytes out.new ≡ string_bytes out.old ++ answers_begin name.now) }
{
    out.push_str("    type ")?;
    push_part(out, name)?;
    out.push_str("_returns: Default + IntoContextIter<Context = Self, Output = ")
}

// Adds a function's name, parameters and result.
fn push_call(
    out: &mut String,
    program: Program<'_>,
    name: &str,
    params: &[TypeId],
    tys: &[TypeId],
    kind: ReturnKind,
) -> Result<(), AllocError>
    ensures { OnOk result (string_bytes out.new ≡ string_bytes out.old
        ++ call_written (items_by program.entry) name.now (map (λ t. t.0) params.now) (map (λ t. t.0) tys.now) (giving_view kind)) }
{
    push_call_begin(out, name)?;
    program.push_parameters(out, params)?;
    push_result(out, program, name, tys, kind)?;
    out.push_str(";\n")
}

fn push_call_begin(out: &mut String, name: &str) -> Result<(), AllocError>
    ensures { OnOk result (string_bytes out.new ≡ string_bytes out.old ++ call_begin name.now) }
{
    out.push_str("    fn ")?;
    push_name(out, name)?;
    out.push_str("(&mut self")
}

// Adds the rest of a signature: what a function gives, or puts its values into.
fn push_result(
    out: &mut String,
    program: Program<'_>,
    name: &str,
    tys: &[TypeId],
    kind: ReturnKind,
) -> Result<(), AllocError>
    ensures { OnOk result (string_bytes out.new ≡ string_bytes out.old ++ given_written (items_by program.entry) name.now (map (λ t. t.0) tys.now) (giving_view kind)) }
{
    match kind {
        ReturnKind::Plain => push_one(out, program, tys),
        ReturnKind::Option => push_option(out, program, tys),
        ReturnKind::Iterator => push_many(out, name),
    }
}

fn push_one(out: &mut String, program: Program<'_>, tys: &[TypeId]) -> Result<(), AllocError>
    ensures { OnOk result (string_bytes out.new ≡ string_bytes out.old ++ one_written (items_by program.entry) (map (λ t. t.0) tys.now)) }
{
    out.push_str(") -> ")?;
    program.push_outputs(out, tys)
}

fn push_option(out: &mut String, program: Program<'_>, tys: &[TypeId]) -> Result<(), AllocError>
    ensures { OnOk result (string_bytes out.new ≡ string_bytes out.old ++ option_written (items_by program.entry) (map (λ t. t.0) tys.now)) }
{
    out.push_str(") -> Option<")?;
    program.push_outputs(out, tys)?;
    out.push_str(">")
}

fn push_many(out: &mut String, name: &str) -> Result<(), AllocError>
    ensures { OnOk result (string_bytes out.new ≡ string_bytes out.old ++ many_written name.now) }
{
    out.push_str(", returns: &mut Self::")?;
    push_part(out, name)?;
    out.push_str("_returns) -> ()")
}
