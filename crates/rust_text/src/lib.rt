//! The Rust code of lowered programs. The functions of terms are printed from code as data (`rust_code`), and from nothing else: code
//! becomes pieces (tokens, white space, comments, lines for the log), which are exactly those that `model_code` says, and pieces
//! become text. What the functions do is what the source rules mean, what is printed is read back, and each name is read by itself.
//!
//! A function without code, or that calls the laws that its proof rests on, is a law: its clause is what it says.
#![tactic(auto)]

ghost use Rattle.rust_text.specs.ClosedNames.{WrittenNamesAreClosed};
ghost use Rattle.std.specs.Prelude.{IfOk};
ghost use Rattle.laws_code.specs.CodeChoices.{MeansItsSource};
ghost use Rattle.laws_code.specs.TypedTrees.{IsWellMade};
ghost use Rattle.rust_code.specs.CodeViews.{block_view};
ghost use Rattle.rust_text.specs.CodeOfTerms.{EachTermIsInItsCode};
ghost use Rattle.rust_text.specs.CodeReadOnce.{AnswersCodeIsReadOnce};
ghost use Rattle.rust_text.specs.Fronts.{FrontsAreClosed};
ghost use Rattle.rust_text.specs.LoweredCode.{IsItsCode, OfLowered};
ghost use Rattle.rust_text.specs.NamesTold.{NamesOfAnswersTell};
ghost use Rattle.rust_text.specs.OneReading.{CodeIsReadOnce, TextsAreReadOnce};
ghost use Rattle.rust_text.specs.PrintedTexts.{EachTermHasItsPrintedText, PrintedTextsAreReadBack};
ghost use Rattle.rust_text.specs.ProgramTokens.{WellNamedAreWrittenOnce};
ghost use Rattle.rust_text.specs.ReadOnceSample.{SampleIsReadOnce};
ghost use Rattle.rust_text.specs.WholeNames.{NamesAreClosed, NamesAreWhole};
ghost use Rattle.rust_text.specs.WrittenOnce.{WrittenOnceAreApart};

use cranelift_isle::lower::{Lowered, LoweredTerm};
use laws_code::{
    code_chooses_as_source, code_of_each_term_is_well_made, each_term_has_its_text,
    pure_functions_call_alike, text_of_accepted_is_read_back, text_of_accepted_says_its_source,
};
use laws_typing::{lists_agree, names_stay_in_lists, terms_have_names, types_stand_at_ids};
use model_code::{
    names_apart_make_tokens_apart, one_reading, printed_text_has_one_reading, with_moves_says_same,
};
use rust_code::code::CodeBlock;
use rust_code::code_of::code_of;
use rust_code::types::Tables;
use rust_items::laws::functions_apart_are_pure_alike;
use std::alloc::{AllocError, Global};

mod added;
mod blocks;
pub mod code;
mod conditions;
mod expanded;
mod expressions;
mod functions;
mod labels;
mod layout;
pub mod names;
mod notation;
pub mod numbers;
mod patterns;
mod pieces;
mod places;
pub mod spelling;
mod statements;
pub mod stubs;
pub mod tokens;

/// Names as they are written in Rust, quoted texts and numbers are texts whose quotes end in them, and in which no comment begins.
#[tactic(auto, using(crate::proofs::ClosedNames::written_names_are_closed_lem))]
pub fn written_names_are_closed()
    ensures { WrittenNamesAreClosed }
{}

/// The code of a term's function. The clauses speak of a term of an answer of `lower`, handed in with that answer.
///
/// # Errors
///
/// Where memory is refused.
pub fn function_code(
    alloc: Global,
    lowered: &Lowered,
    term: &LoweredTerm,
) -> Result<CodeBlock, AllocError>
    // it is the code of the term's tree, with values handed on as the types of the definitions' program ask, and moves in place of
    // clones wherever a move may stand
    ensures made { IfOk result (λ c. OfLowered lowered.now term.now (IsItsCode (block_view c))) }

    // in a term that isn't multi it has the outcome of the matching source rule of greatest priority; in a multi term it gives the
    // bag of the rules' results, or with a bound a part of it
    ensures means { IfOk result (λ c. OfLowered lowered.now term.now (λ p t. MeansItsSource p t (block_view c))) }

    // what it reads is in scope, each use gives a reference or a value as is wanted, and what isn't Copy is moved once at most
    ensures well_made { IfOk result (λ c. OfLowered lowered.now term.now (λ p t. IsWellMade p t (block_view c))) }
{
    // laws, without code
    code_chooses_as_source();
    with_moves_says_same();
    code_of_each_term_is_well_made();
    let tables = Tables {
        tyenv: &lowered.tyenv,
        terms: &lowered.termenv.terms,
        term: term.id,
        sites: &term.rules.bindings,
    };
    Ok(code_of(alloc, &tables, &term.block)?)
}

/// The names of a function's code are closed texts, whatever the program calls its things: no quotes begin in them that don't end
/// there, and no comment begins. And places stay on their line.
pub fn names_are_closed()
    ensures { NamesAreClosed }
{}

/// So they are read by themselves.
pub fn names_are_whole()
    ensures { NamesAreWhole }
{}

/// So the text of each function is read back: its words and marks are those of tokens from which a reader gets what the code shows.
pub fn printed_texts_are_read_back()
    ensures { PrintedTextsAreReadBack }
{
    text_of_accepted_is_read_back();
    names_are_whole();
}

/// And each term with rules has code that means what its source rules do, and such a text, which is read as code that does so.
pub fn each_term_has_its_printed_text()
    ensures { EachTermHasItsPrintedText }
{
    each_term_has_its_text();
    names_are_whole();
}

/// What stands before the functions leaves no comment and no quotes open, whatever the definitions and files call their things.
#[tactic(auto, using(crate::proofs::Fronts::fronts_are_closed_lem))]
pub fn fronts_are_closed()
    ensures { FrontsAreClosed }
{}

/// So the code of what lowering answers has, behind such a front, one function of each term with rules, in order, and nothing else.
/// Its first lines are the term's signature, and its text, read back, gives what trying the term's rules by priority gives.
pub fn each_term_is_in_its_code()
    ensures { EachTermIsInItsCode }
{
    text_of_accepted_says_its_source();
    names_are_whole();
    functions_apart_are_pure_alike();
    pure_functions_call_alike();
    fronts_are_closed();
}

/// Things of a program that are written differently have names that are apart in their words.
pub fn written_once_are_apart()
    ensures { WrittenOnceAreApart }
{}

/// Where names are told apart and tell what they name, different things are written differently.
pub fn well_named_are_written_once()
    ensures { WellNamedAreWrittenOnce }
{}

/// So a text is read as one code at most, by tokens of the program in order.
pub fn texts_are_read_once()
    ensures { TextsAreReadOnce }
{
    one_reading();
    names_apart_make_tokens_apart();
    written_once_are_apart();
    well_named_are_written_once();
}

/// And the text of code whose tokens are the program's is read as what it shows of the code, and as no other code.
pub fn code_is_read_once()
    ensures { CodeIsReadOnce }
{
    printed_text_has_one_reading();
    names_apart_make_tokens_apart();
    written_once_are_apart();
    well_named_are_written_once();
    names_are_whole();
}

/// The names of accepted definitions tell what they name, whatever the definitions call their things.
pub fn names_of_answers_tell()
    ensures { NamesOfAnswersTell }
{
    lists_agree();
    names_stay_in_lists();
    types_stand_at_ids();
    terms_have_names();
}

/// So the code of an answer has one reading: none of its functions' bodies is read as two codes by tokens of its program.
pub fn answers_code_is_read_once()
    ensures { AnswersCodeIsReadOnce }
{
    texts_are_read_once();
    names_of_answers_tell();
}

/// A sample's names are told apart and tell what they name, and the tokens of its code are the program's.
pub fn sample_is_read_once()
    ensures { SampleIsReadOnce }
{}
