//! The questions about the rules of lowered definitions.
ghost use Rattle.std.specs.Prelude.{◌≡◌, [], false, IfOk};
ghost use Rattle.spec_asked.specs.Lowered.{AsksLowered};

use crate::asking::{AskedCondition, questions_of};
use crate::tables::{ProgramTables, SpecTables};
use core_rule_sets::trie_again::Rule;
use cranelift_isle::lower::{Lowered, LoweredTerm};
use spec_cases::arena::Formulas;
use spec_cases::limits::AskingFault;
use spec_steps::demands::Signature;

/// The steps of a rule of a term of lowered definitions, by the types of their terms, and the questions about it: all that there are. By the flag, each place
/// whose type is known is asked at each of its widths by itself, or none is. Where `above` is true, rules of greater priority are excluded. Condition: the term is one of `lowered`, the rule is one of
/// the term's, and `lowered` is what `lower` answers; else nothing is said of the questions.
///
/// # Errors
///
/// `questions_of`'s.
pub fn lowered_questions(
    formulas: &mut Formulas,
    lowered: &Lowered,
    signatures: &[Signature],
    specs: &SpecTables<'_>,
    term: &LoweredTerm,
    rule: &Rule,
    flag: bool,
    above: bool,
) -> Result<AskedCondition, AskingFault>
    ensures asked { IfOk result (λ r. AsksLowered lowered.now signatures.now specs.now term.now formulas.new rule.now flag r.questions.items r.excluded.items) }
    ensures alone { IfOk result (λ r. above ≡ false → r.excluded.items ≡ []) }
{
    let program = ProgramTables {
        types: &lowered.tyenv.types,
        signatures,
    };
    Ok(questions_of(
        formulas,
        &program,
        specs,
        term.id,
        &term.rules,
        rule,
        flag,
        above,
    )?)
}
