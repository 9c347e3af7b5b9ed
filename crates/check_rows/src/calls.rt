//! Rows on public calls that no program makes.

ghost use Rattle.std.specs.Prelude.{◌≡◌, None};

use crate::asking::Refused;
use crate::merges::push_merges;
use cranelift_isle::lower::{Lowered, LoweredTerm, lower};
use cranelift_isle::sema::{Expr, Rule, RuleId, Sym, TermId, TypeEnv, TypeId, VarId, VariantId};
use cranelift_isle::syntax::{Def, Error, Files, Pos, Span};
use cranelift_isle::trie_again::BindingId;
use report_queries::in_place::is_site_in_place;
use report_queries::names::variant_name;
use report_queries::positions::rules_named;
use report_queries::texts::{Comments, names_of, print_term};
use report_queries::walk::steps;
use std::alloc::{AllocError, Global};
use text_reader::read;
use text_reader::recovery::recover;

/// Adds what these calls answer, each once. The row ends only if no merge takes long.
pub fn push_calls(alloc: Global, out: &mut String) -> Result<(), AllocError> {
    match push_all(alloc, out) {
        Ok(()) => Ok(()),
        Err(Refused::Memory) => Err(AllocError),
        Err(_) => out.push_str("refused\n"),
    }
}

fn push_all(alloc: Global, out: &mut String) -> Result<(), Refused> {
    push_types(alloc, out)?;
    push_names(alloc, out)?;
    push_definitions(alloc, out)?;
    push_answers(alloc, out)?;
    push_rules_of_error(alloc, out)?;
    push_recovered(alloc, out)?;
    push_merges(alloc, out)?;
    Ok(())
}

// Adds the built-in types.
fn push_types(alloc: Global, out: &mut String) -> Result<(), AllocError> {
    let env = TypeEnv::try_default(alloc)?;
    let names = env.syms.join(alloc, " ")?;
    write!(out, "{} types: {names}\n", env.types.len())
}

// A rule without a name, in the first file.
fn nameless(alloc: Global) -> Rule
    ensures { (result.pos.file ≡ 0) × (result.name ≡ None) }
{
    Rule {
        id: RuleId(0),
        root_term: TermId(0),
        args: Vec::new(alloc),
        iflets: Vec::new(alloc),
        rhs: Expr::Var(TypeId::U8, VarId(0)),
        vars: Vec::new(alloc),
        prio: 0,
        pos: Pos { file: 0, offset: 2 },
        name: None,
    }
}

// Adds what a rule is called: without a name by its place.
fn push_names(alloc: Global, out: &mut String) -> Result<(), AllocError> {
    let env = TypeEnv::try_default(alloc)?;
    let files = Files {
        names: Vec::from_array(alloc, [String::from_str(alloc, "a.isle")?])?,
        texts: Vec::from_array(alloc, [String::from_str(alloc, "\n\n")?])?,
    };
    let mut rule = nameless(alloc);
    let place = rule.identifier(alloc, &env, &files)?;
    rule.name = Some(Sym(1));
    let name = rule.identifier(alloc, &env, &files)?;
    write!(out, "rules: {place}, {name}\n")
}

// A definition of each form.
const FORMS: &str = "(type f (primitive u8)) (type f (enum A B)) (type f (struct (x u8)))
(decl f (u8) u8) (rule 1 (f x) (let () 1)) (rule (f x) (if-let _ 1) (f)) (extractor (f) _)
(convert u8 u16 f) (extern const $f u8) (extern constructor f g) (extern extractor f g) (pragma)";

// Adds how many definitions there are, one of each form, and to which the clone of each is equal: to its own, since no two are equal.
fn push_definitions(alloc: Global, out: &mut String) -> Result<(), Refused> {
    let defs = read(alloc, 0, FORMS)?;
    write!(out, "{} definitions, their clones:", defs.len())?;
    for def in &defs {
        push_equal(out, def, &defs)?;
    }
    out.push('\n')?;
    Ok(())
}

// Adds the numbers of the definitions that the clone of one is equal to.
fn push_equal(out: &mut String, def: &Def, defs: &[Def]) -> Result<(), AllocError> {
    let copy = def.clone()?;
    for (number, other) in defs.iter().enumerate() {
        if copy == *other {
            write!(out, " {number}")?;
        }
    }
    out.push(';')
}

const RULES: &str = "(type T (enum A)) (decl f (u8) u8) (rule 1 (f 1) 10) (rule (f x) x)";

// Adds clones of what was lowered, and answers about it.
fn push_answers(alloc: Global, out: &mut String) -> Result<(), Refused> {
    let defs = read(alloc, 0, RULES)?;
    let lowered = lower(alloc, &defs, true)?;
    let copy = lowered.termenv.clone()?;
    let variant = variant_name(&lowered.tyenv, TypeId(13), VariantId(0)).unwrap_or("none");
    write!(
        out,
        "{} terms, {} rules, variant {variant}\n",
        copy.terms.len(),
        copy.rules.len()
    )?;
    for term in &lowered.terms {
        push_term(alloc, out, &lowered, term)?;
    }
    Ok(())
}

// Adds a term's tree; of each step the number of tests around it; whether the tree is its clone, and whether its second site is in
// place.
fn push_term(
    alloc: Global,
    out: &mut String,
    lowered: &Lowered,
    term: &LoweredTerm,
) -> Result<(), AllocError> {
    let tree = term.block.clone()?;
    let names = names_of(lowered);
    let bindings = &term.rules.bindings;
    print_term(out, names, Comments::Nothing, term.id, bindings, &tree)?;
    out.push_str("depths")?;
    for visit in &steps(alloc, &tree)? {
        write!(out, " {}", visit.depth())?;
    }
    let (equal, in_place) = (
        tree == term.block,
        is_site_in_place(&term.rules, BindingId::from(1)),
    );
    write!(out, ", its clone: {equal}, in place: {in_place}\n")
}

// Adds which rules an error names.
fn push_rules_of_error(alloc: Global, out: &mut String) -> Result<(), Refused> {
    let defs = read(alloc, 0, RULES)?;
    let lowered = lower(alloc, &defs, true)?;
    let place = Pos {
        file: 0,
        offset: 53,
    };
    let error = Error::OverlapError {
        msg: String::new(alloc),
        rules: Vec::from_array(alloc, [Span::new_single(place)])?,
    };
    out.push_str("named:")?;
    for id in &rules_named(alloc, &lowered.termenv, &error)? {
        write!(out, " {}", id.index())?;
    }
    out.push('\n')?;
    Ok(())
}

// Adds what is read of a text with a list that isn't ended, which costs what it stands with alone.
fn push_recovered(alloc: Global, out: &mut String) -> Result<(), AllocError> {
    let text = "(decl f () u8)\n(rule (f x)\n(decl g () u8)\n";
    let found = recover(alloc, 0, text)?;
    let (defs, errors) = (found.defs.len(), found.errors.len());
    write!(out, "{defs} definitions and {errors} error read\n")
}
