//! The text of what definitions become.

ghost use Rattle.std.specs.Prelude.{◌≡◌, ◌++◌, IfOk, OnOk, string_bytes};
ghost use Rattle.std.specs.BTreeMap.{get};
ghost use Rattle.core_syntax.specs.SyntaxViews.{position};
ghost use Rattle.core_syntax.specs.contracts.syntax.PosOrd.TheImpl.{ghosts};
ghost use Rattle.report_queries.specs.TermTexts.{HasNames, name_or, rule_at, term_text, term_text_with};

use cranelift_isle::lower::{Lowered, LoweredTerm};
use cranelift_isle::sema::Sym;
use cranelift_isle::syntax::Pos;
use cranelift_isle::trie_again::Rule;
use report_print::lines::FileLines;
use report_print::print::{Comments, TreeNames, print_term};
use std::alloc::{AllocError, Global};
use std::collections::BTreeMap;

/// Adds the text of a term: its name, its sites and its tree, with the rule that each return takes.
///
/// # Errors
///
/// Where memory is refused.
pub fn push_tree(
    out: &mut String,
    lines: &FileLines<'_>,
    lowered: &Lowered,
    term: &LoweredTerm,
) -> Result<(), AllocError>
    ensures { OnOk result (string_bytes out.new ≡ string_bytes out.old ++ term_text lines.now.files.now lowered.now term.now) }
{
    let rules = rule_names(*out.allocator(), term)?;
    print_tree(out, Comments::Rules(lines, &rules), lowered, term)
}

// Adds the text of a term with these comments.
fn print_tree(
    out: &mut String,
    comments: Comments<'_>,
    lowered: &Lowered,
    term: &LoweredTerm,
) -> Result<(), AllocError>
    ensures { OnOk result (string_bytes out.new ≡ string_bytes out.old ++ term_text_with comments.entry lowered.now term.now) }
{
    let names = TreeNames {
        syms: &lowered.tyenv.syms,
        types: &lowered.tyenv.types,
        terms: &lowered.termenv.terms,
    };
    let (bindings, block) = (&term.rules.bindings, &term.block);
    print_term(out, names, comments, term.id, bindings, block)
}

// The names of the rules of a term that have one, by their positions.
fn rule_names(alloc: Global, term: &LoweredTerm) -> Result<BTreeMap<Pos, Sym>, AllocError>
    ensures { IfOk result (λ names. HasNames names (rule_at term.now.rules.rules.items)) }
{
    let mut names = BTreeMap::new(alloc);
    for rule in &term.rules.rules {
        add_name(&mut names, rule)?;
    }
    Ok(names)
}

// Adds the name of a rule, where it has one.
fn add_name(names: &mut BTreeMap<Pos, Sym>, rule: &Rule) -> Result<(), AllocError>
    ensures { OnOk result ((q : Pos) → get ghosts.cmp names.new q ≡ name_or rule.now (position q) (get ghosts.cmp names.old q)) }
{
    match rule.name {
        Some(name) => {
            names.insert(rule.pos, name)?;
            Ok(())
        }
        None => Ok(()),
    }
}

// The text of all terms' trees.
pub(crate) fn trees(alloc: Global, lowered: &Lowered) -> Result<String, AllocError> {
    let mut out = String::new(alloc);
    for term in &lowered.terms {
        print_tree(&mut out, Comments::Nothing, lowered, term)?;
    }
    Ok(out)
}
