//! Calls under their own clauses, word for word. A wrong body that spoils what the real call answers is tried here, so that no large
//! crate is proved once more for it.
#![tactic(auto)]

pub mod building;
pub mod serializing;
pub mod visiting;

ghost use Rattle.std.specs.Prelude.{◌≡◌, ◌+◌, ◌++◌, ◌∷◌, [], ℕ, All, Bool, false, IfErr, IfOk, length, List, OnErr, OnOk, string_bytes, sum_by, true};
ghost use Rattle.model.specs.claims.Environments.{AreReadable, AreRulesOf, HasTypedRules, IsElaborated, IsReadAs, TypesRead, program_of};
ghost use Rattle.model.specs.claims.Refusals.{overlapping};
ghost use Rattle.model.specs.lists.Elaborated.{TypedRules};
ghost use Rattle.model.specs.lists.Syntax.{Definition};
ghost use Rattle.model.specs.sites.Overlap.{ascending_positions};
ghost use Rattle.core_containers.specs.Partition.{added_by, together, together_after, IsPartition};
ghost use Rattle.core_overlap.specs.Comparisons.{positions};
ghost use Rattle.core_overlap.specs.Graphs.{count_left, unreported, unreported_at};
ghost use Rattle.core_rule_sets.specs.Endings.{ClassEnds, GoOnForEver};
ghost use Rattle.core_rule_sets.specs.declared.closure_classes.Part.{Part};
ghost use Rattle.core_rules.specs.Progress.{Counts};
ghost use Rattle.core_syntax.specs.Answers.{Answers};
ghost use Rattle.core_syntax.specs.ErrorViews.{error_views};
ghost use Rattle.core_syntax.specs.Positions.{HasSingleSpans};
ghost use Rattle.core_syntax.specs.SyntaxViews.{definition_views, position};
ghost use Rattle.core_types.specs.EnvViews.{environment_view};
ghost use Rattle.core_rules.specs.ShownEnvs.{environment_shown_by};
ghost use Rattle.cranelift_isle.specs.BuiltSets.{IsOfElaborated, ShowsElaborated};
ghost use Rattle.cranelift_isle.specs.Checks.{IsChecked};
ghost use Rattle.cranelift_isle.specs.Lowerings.{AreAccepted, IsLowered};
ghost use Rattle.rust_items.specs.Faults.{TellsOf};
ghost use Rattle.rust_text.specs.Settings.{setting_of_included};
ghost use Rattle.rust_text.specs.WholeCode.{IsWholeCode, TellsNames};

use core_overlap::overlap::report;
use core_rule_sets::closure_classes::Part;
use core_rule_sets::cycles::has_cycle;
use core_rules::typing::progress::{Progress, Stop};
use cranelift_isle::disjointsets::DisjointSets;
use cranelift_isle::lower::{Lowered, lower};
use cranelift_isle::overlap::check;
use cranelift_isle::sema::{TermEnv, TermId, TypeEnv};
use cranelift_isle::syntax::{Def, Error, Fault, Files, Pos};
use cranelift_isle::trie_again::{BindingId, RuleSet};
use rust_text::code::{CodeError, rust_code};
use std::alloc::{AllocError, Global};
use std::collections::BTreeMap;
use std::fmt::Debug;
use std::hash::Hash;

/// `DisjointSets::merge`.
///
/// # Errors
///
/// As it has them.
pub fn merged<T: Copy + Debug + Eq + Hash + Ord>(
    sets: &mut DisjointSets<T>,
    x: T,
    y: T,
) -> Result<(), AllocError>
    requires { T.eq x y ≡ false }
    ensures ok { OnOk result ((a b : T) → together T.eq sets.new a b ≡ together_after T.eq sets.old x y a b) }
    ensures len { OnOk result (sum_by length sets.new ≡ sum_by length sets.old + added_by T.eq sets.old x + added_by T.eq sets.old y) }
    ensures err { OnErr result (sets.new ≡ sets.old) }
    ensures partition { IsPartition T.eq sets.new }
{
    sets.merge(x, y)
}

/// `report`, of a rule with those that it overlaps.
///
/// # Errors
///
/// As it has them.
pub fn reported(
    alloc: Global,
    others: &BTreeMap<Pos, Vec<Pos>>,
    counts: &mut BTreeMap<Pos, usize>,
    place: Pos,
    errors: &mut Vec<Error>,
) -> Result<(), AllocError>
    ensures counts { OnOk result ((q : Pos) → unreported_at counts.new q ≡ count_left counts.old place (unreported others.now counts.old place) q) }
    ensures error { OnOk result (error_views errors.new.items
        ≡ error_views errors.old.items ++ overlapping (position place ∷ ascending_positions (positions (unreported others.now counts.old place))) ∷ []) }
    ensures single { OnOk result (All HasSingleSpans errors.old.items → All HasSingleSpans errors.new.items) }
{
    report(alloc, others, counts, place, errors)
}

/// `has_cycle`, the occurs check.
///
/// # Errors
///
/// As it has them.
pub fn is_cyclic(
    alloc: Global,
    classes: &DisjointSets<BindingId>,
    parts: &[Part],
) -> Result<bool, AllocError>
    ensures cycle { IfOk result (λ b. b ≡ true → (left : List Part) × GoOnForEver classes.now parts.now left) }
    ensures none { IfOk result (λ b. b ≡ false → (class : ℕ) → ClassEnds classes.now parts.now class) }
{
    has_cycle(alloc, classes, parts)
}

/// `Progress::expand`, which counts an expansion of a rule.
///
/// # Errors
///
/// As it has them.
pub fn expanded(progress: &mut Progress, nesting: usize) -> Result<usize, Stop>
    ensures { Counts nesting progress.old progress.new result }
{
    progress.expand(nesting)
}

/// `TermEnv::from_ast`.
///
/// # Errors
///
/// As it has them.
pub fn terms_of(
    alloc: Global,
    tyenv: &mut TypeEnv,
    defs: &[Def],
    expand_internal_extractors: bool,
) -> Result<TermEnv, Fault>
    ghost read: { TypesRead }
    requires readable { AreReadable read }
    requires types { IsReadAs (environment_view tyenv.old) read }
    ensures answers { Answers result (HasTypedRules read (definition_views defs.now) expand_internal_extractors)
        (λ env. (rules : TypedRules) × AreRulesOf read (definition_views defs.now) expand_internal_extractors rules (environment_shown_by env) (environment_view tyenv.new)) }
{
    TermEnv::from_ast(alloc, tyenv, defs, expand_internal_extractors)
}

/// `check`.
///
/// # Errors
///
/// As it has them.
pub fn checked(alloc: Global, termenv: &TermEnv) -> Result<Vec<(TermId, RuleSet)>, Fault>
    requires elaborated { IsOfElaborated termenv.now }
    ensures checked { (e : TypesRead) (defs : List Definition) (expand : Bool) (rules : TypedRules) → IsElaborated e defs expand rules
        → ShowsElaborated e defs rules termenv.now
        → IsChecked (program_of e defs rules.rules) result }
{
    check(alloc, termenv)
}

/// `lower`.
///
/// # Errors
///
/// As it has them.
pub fn lowered(alloc: Global, defs: &[Def], expand: bool) -> Result<Lowered, Fault>
    ensures accepted { Answers result (AreAccepted (definition_views defs.now) expand) (IsLowered (definition_views defs.now) expand) }
{
    lower(alloc, defs, expand)
}

/// `rust_code`.
///
/// # Errors
///
/// As it has them.
pub fn code_of(alloc: Global, lowered: &Lowered, files: &Files) -> Result<String, CodeError>
    ensures code { IfOk result (λ code. IsWholeCode lowered.now (setting_of_included lowered.now files.now) true (string_bytes code)) }
    ensures wrong { IfErr result (λ e. TellsOf e (TellsNames lowered.now (setting_of_included lowered.now files.now).sources)) }
{
    rust_code(alloc, lowered, files)
}
