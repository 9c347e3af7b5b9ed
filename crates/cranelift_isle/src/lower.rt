//! One call from definitions to trees of tests.

ghost use Rattle.std.specs.Prelude.{◌≡◌, map, All, IfOk, None};
ghost use Rattle.cranelift_isle.specs.declared.lower.Refused.TheVariants.{Memory};
ghost use Rattle.core_syntax.specs.Answers.{Answers, OnErrors};
ghost use Rattle.core_syntax.specs.SyntaxViews.{definition_views};
ghost use Rattle.model.specs.trees.Best.{IsBestTree};
ghost use Rattle.model.specs.claims.Layers.{IsBuiltForSome};
ghost use Rattle.cranelift_isle.specs.BuiltSets.{term_set_views};
ghost use Rattle.cranelift_isle.specs.LoweringErrors.{AreErrorsOfLowering};
ghost use Rattle.cranelift_isle.specs.Refusing.{refused_by, as_lower, ComesWithErrors};
ghost use Rattle.cranelift_isle.specs.Lowerings.{lowered_views, set_of_term, AreAccepted, IsLowered, LoweringIsAFunction};

use crate::environments::{Environments, environments_of};
use crate::overlap::check;
use core_rule_sets::trie_again::RuleSet;
use core_rules::TermEnv;
use core_serialize::serialize::{Block, serialize};
use core_syntax::syntax::{Def, Error, Fault};
use core_types::{TermId, TypeEnv};
use laws_trees::best_trees_keep_the_headline;
use std::alloc::{AllocError, Global};

/// A term with rules: its rule set, and the tree of tests that picks one of the rules.
pub struct LoweredTerm {
    /// The term: an index into `TermEnv::terms`.
    pub id: TermId,
    /// Its rules, each with what it demands of the sites.
    pub rules: RuleSet,
    /// The tree. It uses the sites of `rules`.
    pub block: Block,
}

impl Drop for LoweredTerm {
    fn drop(self) {
        let Self {
            id: _,
            rules: _,
            block: _,
        } = self;
    }
}

/// The result of lowering a list of definitions.
pub struct Lowered {
    /// The names and types.
    pub tyenv: TypeEnv,
    /// The terms and the typed rules.
    pub termenv: TermEnv,
    /// One entry for each term with rules, sorted by `id`.
    pub terms: Vec<LoweredTerm>,
}

impl Drop for Lowered {
    fn drop(self) {
        let Self {
            tyenv: _,
            termenv: _,
            terms: _,
        } = self;
    }
}

/// Why there are no trees of definitions, with what these became before that.
#[derive(Drop)]
pub enum Refused {
    /// The allocator refused.
    Memory(AllocError),
    /// What is wrong with the definitions: at least one error. And their environments, if types and rules can be read.
    Errors(Vec<Error>, Option<Environments>),
}

impl From<Fault> for Refused {
    ghost from_gives = { λ f r. r ≡ refused_by f None };

    fn from(fault: Fault) -> Refused {
        refused_with(fault, None)
    }
}

impl From<AllocError> for Refused {
    ghost from_gives = { λ e r. r ≡ Memory e };

    fn from(error: AllocError) -> Refused {
        Refused::Memory(error)
    }
}

// What is refused, with the environments that definitions became.
fn refused_with(fault: Fault, environments: Option<Environments>) -> Refused
    ensures { result ≡ refused_by fault environments }
{
    match fault {
        Fault::Memory(error) => Refused::Memory(error),
        Fault::Errors(errors) => Refused::Errors(errors, environments),
    }
}

/// Makes the trees of all terms with rules. It reads types and terms, types the rules, builds rule sets and makes a tree of
/// each set.
///
/// `expand` says whether each use of an internal extractor is replaced by its template. The upstream crate has a function
/// for each pass, and its callers chain them. What follows from the two clauses is in `laws`.
///
/// # Errors
///
/// `Fault::Errors` has the errors of the first pass that refuses the definitions:
/// - `TypeEnv::from_ast`: type errors.
/// - `TermEnv::from_ast`: type errors, and limits on expansions. If the types are valid, the errors name each rule that
///   fails only by these limits.
/// - `check`: rules that can't match, limits on what a rule makes, overlaps and shadows.
///
/// `Fault::Memory` says that an allocation failed.
pub fn lower(alloc: Global, defs: &[Def], expand: bool) -> Result<Lowered, Fault>
    // Ok exactly if the definitions are accepted; it then has their environments, rule sets and trees
    ensures accepted { Answers result (AreAccepted (definition_views defs.now) expand) (IsLowered (definition_views defs.now) expand) }

    // the errors say which pass refuses the definitions, where and why
    ensures refused { OnErrors result (AreErrorsOfLowering (definition_views defs.now) expand) }
{
    match lower_or_environments(alloc, defs, expand) {
        Ok(lowered) => Ok(lowered),
        Err(Refused::Memory(error)) => Err(Fault::Memory(error)),
        Err(Refused::Errors(errors, _)) => Err(Fault::Errors(errors)),
    }
}

/// What `lower` answers; where it answers errors, with the environments of definitions whose types and rules can be read, so that
/// who tells the errors has the names of what has ids in them.
///
/// # Errors
///
/// `lower`'s.
pub fn lower_or_environments(alloc: Global, defs: &[Def], expand: bool) -> Result<Lowered, Refused>
    // what `lower` promises
    ensures accepted { Answers (as_lower result) (AreAccepted (definition_views defs.now) expand) (IsLowered (definition_views defs.now) expand) }
    ensures refused { OnErrors (as_lower result) (AreErrorsOfLowering (definition_views defs.now) expand) }

    // the environments are those of the definitions, and none come with errors only if types or rules can't be read
    ensures environments { ComesWithErrors (definition_views defs.now) expand result }
{
    // a law, without code: the best trees of accepted definitions keep the headline
    best_trees_keep_the_headline();
    let environments = environments_of(alloc, defs, expand)?;
    let sets = match check(alloc, &environments.termenv) {
        Ok(sets) => sets,
        Err(fault) => return Err(refused_with(fault, Some(environments))),
    };
    let terms = trees_of(alloc, sets)?;
    let Environments { tyenv, termenv } = environments;
    Ok(Lowered {
        tyenv,
        termenv,
        terms,
    })
}

// The best tree of each set.
fn trees_of(alloc: Global, sets: Vec<(TermId, RuleSet)>) -> Result<Vec<LoweredTerm>, AllocError>
    requires built { All (λ b. IsBuiltForSome b.1) (term_set_views sets.items) }
    ensures same { IfOk result (λ ts. map set_of_term (lowered_views ts.items) ≡ term_set_views sets.items) }
    ensures best { IfOk result (λ ts. All (λ t. IsBestTree t.set t.tree) (lowered_views ts.items)) }
{
    let mut terms = Vec::new(alloc);
    for (id, rules) in sets {
        let block = serialize(alloc, &rules)?;
        terms.push(LoweredTerm { id, rules, block })?;
    }
    Ok(terms)
}

/// Two answers that meet what `lower` promises of the same definitions, with the same `expand`, are one answer: they show
/// equal environments, and each term has the same sites, rules that show the same and the same tree.
///
/// This function is a law and has no code. A caller may cite its clause in a proof, as `c.lowering_is_a_function.ensures`.
/// If two answers meet the clause `accepted` of `lower`, which is `IsLowered`, it gives `AreOneAnswer` for them.
pub fn lowering_is_a_function()
    ensures { LoweringIsAFunction }
{}
