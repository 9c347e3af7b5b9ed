//! What the code of a tree of accepted definitions means: what their source rules mean. Its text can be written, and is read back;
//! and what this text shows does what the code does.
//!
//! A function here has no code, or calls the laws that its proof rests on: its clause is a law.
#![tactic(auto)]

ghost use Rattle.laws_code.specs.Bounds.{CodeKeepsBound};
ghost use Rattle.laws_code.specs.ChoiceSamples.{BoundsAreKept};
ghost use Rattle.laws_code.specs.CodeChoices.{CodeChoosesAsSource, CodeOfLoweredTermsMeans};
ghost use Rattle.laws_code.specs.CodeMoves.{CallsAreGoneOverInBuiltSets, CodeOfAcceptedTakesOnce, LoopsTakeOnce};
ghost use Rattle.laws_code.specs.CodeScopes.{BuiltSetsLoopOverBound, CodeOfAcceptedIsScoped};
ghost use Rattle.laws_code.specs.TypedSamples.{ConstraintsAreJudged};
ghost use Rattle.laws_code.specs.TypedTrees.{BuiltSetsAreTyped, BuiltSetsConstrainByTypes, CodeOfAcceptedIsWellMade, CodeOfEachTermIsWellMade, TypedSetsHaveTypedTrees};
ghost use Rattle.laws_code.specs.TextSamples.{WritableCodeIsJudged};
ghost use Rattle.laws_code.specs.WritableCode.{CodeOfAcceptedIsWritable, CodeOfBuiltSetsIsWritable, TextOfAcceptedIsReadBack};
ghost use Rattle.laws_code.specs.CalledAlike.{CodeCallsAlike, PureFunctionsCallAlike, TreesCallAlike};
ghost use Rattle.laws_code.specs.Meanings.{ShownCodeRunsUnderItsMeaning, TextRunsUnderItsMeaning};
ghost use Rattle.laws_code.specs.Samples.{ShownRunsAreJudged};
ghost use Rattle.laws_code.specs.ShownLaws.{ShownCodeRunsAsCode};
ghost use Rattle.laws_code.specs.TextRuns.{EachTermHasItsText, TextOfAcceptedSaysItsSource};

use laws_trees::{best_trees_bind_before_use, best_trees_keep_the_headline};
use model_code::{
    fitting_code_moves_once, flat_keeps_writable, moves_keep_writable, passes_by_types_fit,
    printed_code_is_scoped, printed_code_runs, text_is_read_back, with_moves_is_made_well,
    with_moves_says_same,
};

/// The code of the tree of each term that was lowered means what its source rules do: in a term that isn't multi the outcome of
/// the matching rule of greatest priority, in a multi term the bag of results, or with a bound a part of it up to there.
pub fn code_of_lowered_terms_means()
    ensures { CodeOfLoweredTermsMeans }
{
    printed_code_runs();
}

/// So does the code of each best tree of a set that is built of accepted definitions, whatever made it.
pub fn code_chooses_as_source()
    ensures { CodeChoosesAsSource }
{
    best_trees_keep_the_headline();
    code_of_lowered_terms_means();
}

/// With a bound of results, the code of a best tree gives what the tree gives where that is less; else so many of its first results,
/// and returns.
pub fn code_keeps_bound()
    ensures { CodeKeepsBound }
{
    printed_code_runs();
}

/// In a built set no loop goes over what is written in place.
#[tactic(auto, using(crate::proofs::CodeScopes::built_sets_loop_over_bound_lem))]
pub fn built_sets_loop_over_bound()
    ensures { BuiltSetsLoopOverBound }
{}

/// And what this code reads is in scope.
pub fn code_of_accepted_is_scoped()
    ensures { CodeOfAcceptedIsScoped }
{
    best_trees_bind_before_use();
    printed_code_is_scoped();
    built_sets_loop_over_bound();
}

/// What the loops of a best tree's code go over is bound right before each, and read by nothing else, where picks alone are made of
/// it, and no rule equates, constrains or returns it.
#[tactic(auto, using(crate::proofs::CodeMoves::loops_take_once_lem))]
pub fn loops_take_once()
    ensures { LoopsTakeOnce }
{}

/// So it is in a built set.
#[tactic(auto, using(crate::proofs::PickedCalls::calls_are_gone_over_in_built_sets_lem))]
pub fn calls_are_gone_over_in_built_sets()
    ensures { CallsAreGoneOverInBuiltSets }
{}

/// And the loops of the code of such a tree take what they go over once.
pub fn code_of_accepted_takes_once()
    ensures { CodeOfAcceptedTakesOnce }
{
    loops_take_once();
    calls_are_gone_over_in_built_sets();
    built_sets_loop_over_bound();
}

/// The best trees of a typed set are typed.
#[tactic(auto, using(crate::proofs::TypedTrees::typed_sets_have_typed_trees_lem))]
pub fn typed_sets_have_typed_trees()
    ensures { TypedSetsHaveTypedTrees }
{}

/// A built set is typed by the types of its program, where its rules constrain by types.
#[tactic(auto, using(crate::proofs::TypedSets::built_sets_are_typed_lem))]
pub fn built_sets_are_typed()
    ensures { BuiltSetsAreTyped }
{}

/// So the code of accepted definitions is well made: what it reads is in scope, each use gives a reference or a value as is wanted,
/// what isn't Copy is moved once at most, and it means what its source rules do.
pub fn code_of_accepted_is_well_made()
    ensures { CodeOfAcceptedIsWellMade }
{
    typed_sets_have_typed_trees();
    built_sets_are_typed();
    passes_by_types_fit();
    fitting_code_moves_once();
    with_moves_says_same();
    with_moves_is_made_well();
    code_of_accepted_is_scoped();
    code_of_accepted_takes_once();
    code_chooses_as_source();
}

/// The rules of a built set constrain by types.
pub fn built_sets_constrain_by_types()
    ensures { BuiltSetsConstrainByTypes }
{}

/// So the code of each term of accepted definitions is well made.
pub fn code_of_each_term_is_well_made()
    ensures { CodeOfEachTermIsWellMade }
{
    built_sets_constrain_by_types();
    code_of_accepted_is_well_made();
}

/// A sample collects up to its bound, and near ones don't.
#[tactic(auto, using(crate::proofs::ChoiceSamples::bounds_are_kept_lem))]
pub fn bounds_are_kept()
    ensures { BoundsAreKept }
{}

/// Sets constrain by types, and near ones don't: one that asks a number to be a variant, or an enum to be a literal.
#[tactic(auto, using(crate::proofs::TypedSamples::constraints_are_judged_lem))]
pub fn constraints_are_judged()
    ensures { ConstraintsAreJudged }
{}

/// The code of a best tree of a built set can be written: what is made, and each pattern, has as many fields as its type has.
#[tactic(auto, using(crate::proofs::TreesWritable::code_of_built_sets_is_writable_lem))]
pub fn code_of_built_sets_is_writable()
    ensures { CodeOfBuiltSetsIsWritable }
{}

/// So the code of accepted definitions can be written.
pub fn code_of_accepted_is_writable()
    ensures { CodeOfAcceptedIsWritable }
{
    code_of_built_sets_is_writable();
    flat_keeps_writable();
    moves_keep_writable();
}

/// And the text of it is read back: its words and marks are those of tokens from which a reader gets what the code shows.
pub fn text_of_accepted_is_read_back()
    ensures { TextOfAcceptedIsReadBack }
{
    code_of_accepted_is_writable();
    text_is_read_back();
}

/// Sample code can be written, and near code can't.
#[tactic(auto, using(crate::proofs::TextSamples::writable_code_is_judged_lem))]
pub fn writable_code_is_judged()
    ensures { WritableCodeIsJudged }
{}

/// What a text shows of code runs as the code, if each call is an impure one exactly if its function is impure.
#[tactic(auto, using(crate::proofs::ShownRuns::shown_code_runs_as_code_lem))]
pub fn shown_code_runs_as_code()
    ensures { ShownCodeRunsAsCode }
{}

/// So it is in the code of each tree of a built set, if terms that are one function are impure alike.
#[tactic(auto, using(crate::proofs::CalledAlike::trees_call_alike_lem))]
pub fn trees_call_alike()
    ensures { TreesCallAlike }
{}

/// And in the code of accepted definitions.
pub fn code_calls_alike()
    ensures { CodeCallsAlike }
{
    trees_call_alike();
}

/// Functions are impure as their terms are, where what is one function from outside is pure for all its terms or for none.
#[tactic(auto, using(crate::proofs::PureFunctions::pure_functions_call_alike_lem))]
pub fn pure_functions_call_alike()
    ensures { PureFunctionsCallAlike }
{}

/// So the text of a term of accepted definitions is read as code that has the outcome of the matching source rule of greatest
/// priority, or of a multi term the bag of its rules' results.
pub fn text_of_accepted_says_its_source()
    ensures { TextOfAcceptedSaysItsSource }
{
    code_chooses_as_source();
    with_moves_says_same();
    code_of_accepted_is_writable();
    code_calls_alike();
    shown_code_runs_as_code();
    text_of_accepted_is_read_back();
}

/// And each term with rules of what lowering answers has its tree, its code and such a text.
pub fn each_term_has_its_text()
    ensures { EachTermHasItsText }
{
    code_chooses_as_source();
    with_moves_says_same();
    code_of_accepted_is_writable();
    code_calls_alike();
    shown_code_runs_as_code();
    text_of_accepted_is_read_back();
}

/// Samples of shown code have the runs that a person says, and near ones have others.
#[tactic(auto, using(crate::proofs::Samples::shown_runs_are_judged_lem))]
pub fn shown_runs_are_judged()
    ensures { ShownRunsAreJudged }
{}

/// Among whatever functions, what a text shows of code runs as the code does under the meaning that these functions are.
pub fn shown_code_runs_under_its_meaning()
    ensures { ShownCodeRunsUnderItsMeaning }
{
    shown_code_runs_as_code();
}

/// So the text of a term that isn't multi has the outcome that source rules choose under this meaning.
pub fn text_runs_under_its_meaning()
    ensures { TextRunsUnderItsMeaning }
{
    code_chooses_as_source();
    with_moves_says_same();
    code_of_accepted_is_writable();
    code_calls_alike();
    shown_code_runs_as_code();
    text_of_accepted_is_read_back();
    shown_code_runs_under_its_meaning();
}
