//! What an unknown function answers: a value of its sort, on operands of its sorts.
ghost use Rattle.std.specs.Prelude.{◌≡◌, ◌∷◌, ◌&&◌, ◌^◌, nat_lt, map, Some, IfOk};
ghost use Rattle.std.specs.Bool.{◌==◌};
ghost use Rattle.std.specs.List.{list_any};
ghost use Rattle.laws_specs.specs.Specs as L;
ghost use Rattle.model.specs.rules.Meaning.{look};
ghost use Rattle.model_questions.specs.Evaluated as E;
ghost use Rattle.model_questions.specs.Formulas as M;
ghost use Rattle.spec_cases.specs.CaseViews.{cases_of};
ghost use Rattle.spec_cases.specs.Namings.{forms_of, operand_and, operands_of, operator_view, word_of, Makes, Names};
ghost use Rattle.spec_cases.specs.Results.{outcome_view};
ghost use Rattle.spec_cases.specs.Sorts.{function_sort, function_sorts, sort_view};

use crate::arena::Formulas;
use crate::cases::{Cases, anything, one_case};
use crate::faults::Fault;
use crate::fitting::operands;
use crate::forms::Form;
use crate::formulas::{FactNode, IntegerNode, NodeId, Operand, Word, WordNode};
use crate::operators::Operator;
use crate::results::{Outcome, result_of};
use crate::sorts::{FunctionSort, Sort};

// Whether a width is one of these.
fn is_listed(width: u32, widths: &[u32]) -> bool
    ensures { result ≡ list_any (λ w. width == w) widths.now }
{
    match widths {
        [] => false,
        [first, rest @ ..] => width == *first || is_listed(width, rest),
    }
}

impl Sort {
    // Whether it has the truths.
    fn takes_truths(&self) -> bool
        ensures { result ≡ E.is_operand_of (sort_view self.now) L.truths }
    {
        match self {
            Sort::Truths => true,
            Sort::Integers | Sort::Words(_) | Sort::WordsAmong(_) => false,
        }
    }

    // Whether it has the integers.
    fn takes_integers(&self) -> bool
        ensures { result ≡ E.is_operand_of (sort_view self.now) L.integers }
    {
        match self {
            Sort::Integers => true,
            Sort::Truths | Sort::Words(_) | Sort::WordsAmong(_) => false,
        }
    }

    // Whether it has the words of a width.
    fn takes_words(&self, width: u32) -> bool
        ensures { result ≡ E.is_operand_of (sort_view self.now) (L.words width) }
    {
        match self {
            Sort::Words(own) => width == *own,
            Sort::WordsAmong(widths) => is_listed(width, widths),
            Sort::Truths | Sort::Integers => false,
        }
    }
}

impl Outcome {
    // Whether it is a word of this width.
    fn is_word(self, width: u32) -> bool
        ensures { result ≡ E.is_word_result width (outcome_view self) }
    {
        match self {
            Outcome::Word(own) => own == width,
            Outcome::Nothing | Outcome::Truth | Outcome::Integer | Outcome::Unfollowed => false,
        }
    }
}

// Whether a number lies below two to a width.
fn is_below(number: u128, width: u32) -> bool
    ensures { result ≡ nat_lt number (2 ^ width) }
{
    match 2u128.checked_pow(width) {
        None => true,
        Some(whole) => number < whole,
    }
}

impl Formulas {
    // Whether a word lies below two to a width, for sure.
    #[cycle(forming)]
    fn is_surely_formed(&self, width: u32, word: Word) -> Result<bool, Fault>
        ensures { IfOk result (λ b. (v : _) → Names v self.now → b ≡ E.is_surely_formed width (word_of v word)) }
    {
        match word {
            Word::At(_, own) => Ok(own == width),
            Word::Written(number) => Ok(is_below(number, width)),
            Word::Made(node) => Ok(self.is_made_formed(width, node)?),
        }
    }

    // The same of one that is made of others.
    #[cycle(forming)]
    #[tactic(auto, using(crate::proofs::AnsweringSteps::made_steps))]
    fn is_made_formed(&self, width: u32, node: NodeId) -> Result<bool, Fault>
        ensures { IfOk result (λ b. (v : _) → Names v self.now → b ≡ E.is_surely_formed width (v.word node.0)) }
    {
        match self.word_node(node)? {
            WordNode::By(operator, of) => Ok(self.is_result_formed(width, *operator, of, node)?),
            WordNode::Answered(_, _) => Ok(false),
            WordNode::Either(_, first, second) => {
                Ok(self.are_both_formed(width, *first, *second, node)?)
            }
        }
    }

    // Of what an operator gives: it is of this width, and made of such words.
    #[cycle(forming)]
    #[tactic(auto, using(crate::proofs::AnsweringSteps::result_steps))]
    fn is_result_formed(
        &self,
        width: u32,
        operator: Operator,
        of: &[Operand],
        limit: NodeId,
    ) -> Result<bool, Fault>
        ensures { IfOk result (λ b. (v : _) → Names v self.now → b ≡ E.is_surely_formed width (M.word_by (operator_view operator) (operands_of v of.now))) }
    {
        let outcome = result_of(operator, of)?;
        if outcome.is_word(width) {
            Ok(self.are_surely_formed(of, limit)?)
        } else {
            Ok(false)
        }
    }

    // Of one of two.
    #[cycle(forming)]
    fn are_both_formed(
        &self,
        width: u32,
        first: Word,
        second: Word,
        limit: NodeId,
    ) -> Result<bool, Fault>
        ensures { IfOk result (λ b. (v : _) → Names v self.now → b ≡ E.is_surely_formed width (word_of v first) && E.is_surely_formed width (word_of v second)) }
    {
        if self.is_part_formed(width, first, limit)? {
            Ok(self.is_part_formed(width, second, limit)?)
        } else {
            Ok(false)
        }
    }

    // Of a part of what is made: its number is smaller.
    #[cycle(forming)]
    fn is_part_formed(&self, width: u32, word: Word, limit: NodeId) -> Result<bool, Fault>
        ensures { IfOk result (λ b. (v : _) → Names v self.now → b ≡ E.is_surely_formed width (word_of v word)) }
    {
        if word.is_within(limit.0 as usize) {
            Ok(self.is_surely_formed(width, word)?)
        } else {
            Err(Fault::Foreign)
        }
    }

    // Whether all words among operands lie below two to their widths, for sure.
    #[cycle(forming)]
    fn are_surely_formed(&self, of: &[Operand], limit: NodeId) -> Result<bool, Fault>
        ensures { IfOk result (λ b. (v : _) → Names v self.now → b ≡ E.are_surely_formed (operands_of v of.now)) }
    {
        match of {
            [] => Ok(true),
            [first, rest @ ..] => {
                if self.is_operand_formed(*first, limit)? {
                    Ok(self.are_surely_formed(rest, limit)?)
                } else {
                    Ok(false)
                }
            }
        }
    }

    // Whether an operand does, where it is a word.
    #[cycle(forming)]
    fn is_operand_formed(&self, operand: Operand, limit: NodeId) -> Result<bool, Fault>
        ensures { IfOk result (λ b. (v : _) (rest : _) → Names v self.now → E.are_surely_formed (operand_and v operand rest) ≡ b && E.are_surely_formed rest) }
    {
        match operand {
            Operand::Fact(_) | Operand::Integer(_) => Ok(true),
            Operand::Word(width, word) => Ok(self.is_part_formed(width, word, limit)?),
        }
    }

    // Whether a word is of a sort, and formed for sure.
    fn is_word_of(&self, width: u32, word: Word, sort: &Sort) -> Result<bool, Fault>
        ensures { IfOk result (λ b. (v : _) → Names v self.now → b ≡ E.is_operand_of (sort_view sort.now) (L.words width) && E.is_surely_formed width (word_of v word)) }
    {
        if sort.takes_words(width) {
            Ok(self.is_surely_formed(width, word)?)
        } else {
            Ok(false)
        }
    }

    // Whether an operand is of a sort, and formed for sure.
    fn is_of(&self, operand: Operand, sort: &Sort) -> Result<bool, Fault>
        ensures { IfOk result (λ b. (v : _) (sorts : _) (rest : _) → Names v self.now → E.are_operands_of (sort_view sort.now ∷ sorts) (operand_and v operand rest) ≡ b && E.are_operands_of sorts rest) }
    {
        match operand {
            Operand::Fact(_) => Ok(sort.takes_truths()),
            Operand::Integer(_) => Ok(sort.takes_integers()),
            Operand::Word(width, word) => Ok(self.is_word_of(width, word, sort)?),
        }
    }

    // Whether an operand is of a sort, and more are of others.
    #[cycle(sorting)]
    fn are_more_of(
        &self,
        operand: Operand,
        sort: &Sort,
        more: &[Sort],
        later: &[Operand],
    ) -> Result<bool, Fault>
        ensures { IfOk result (λ b. (v : _) → Names v self.now → b ≡ E.are_operands_of (sort_view sort.now ∷ map sort_view more.now) (operand_and v operand (operands_of v later.now))) }
    {
        if self.is_of(operand, sort)? {
            Ok(self.are_operands_of(more, later)?)
        } else {
            Ok(false)
        }
    }

    // Whether operands are of sorts, one by one.
    #[cycle(sorting)]
    #[tactic(auto, using(crate::proofs::AnsweringSteps::operand_steps))]
    fn are_operands_of(&self, sorts: &[Sort], operands: &[Operand]) -> Result<bool, Fault>
        ensures { IfOk result (λ b. (v : _) → Names v self.now → b ≡ E.are_operands_of (map sort_view sorts.now) (operands_of v operands.now)) }
    {
        match sorts {
            [] => match operands {
                [] => Ok(true),
                [_, ..] => Ok(false),
            },
            [sort, more @ ..] => match operands {
                [] => Ok(false),
                [operand, later @ ..] => Ok(self.are_more_of(*operand, sort, more, later)?),
            },
        }
    }
}

impl Formulas {
    // An answer of a sort.
    #[tactic(auto, using(crate::proofs::AppliedSteps::case_steps))]
    fn answer_of_sort(
        &mut self,
        function: u32,
        operands: &[Operand],
        sort: &Sort,
    ) -> Result<Cases<Form>, Fault>
        ensures { IfOk result (λ cs. Makes self.old self.new (λ v. cases_of v cs ≡ E.answer_of_sort function (operands_of v operands.now) (sort_view sort.now))) }
    {
        let list = Vec::from_slice(self.alloc(), operands)?;
        match sort {
            Sort::Truths => {
                let fact = self.made_fact(FactNode::Answered(function, list))?;
                Ok(one_case(self.alloc(), Form::Fact(fact))?)
            }
            Sort::Integers => {
                let integer = self.made_integer(IntegerNode::Answered(function, list))?;
                Ok(one_case(self.alloc(), Form::Integer(integer))?)
            }
            Sort::Words(width) => {
                let word = self.made_word(WordNode::Answered(function, list))?;
                Ok(one_case(self.alloc(), Form::Word(*width, word))?)
            }
            Sort::WordsAmong(_) => Ok(anything(self.alloc())),
        }
    }

    // An answer by a function's sort, on operands of its sorts.
    #[tactic(auto, using(crate::proofs::AppliedSteps::case_steps))]
    fn answered_by(
        &mut self,
        function: u32,
        operands: &[Operand],
        own: &FunctionSort,
    ) -> Result<Cases<Form>, Fault>
        ensures { IfOk result (λ cs. Makes self.old self.new (λ v. cases_of v cs ≡ E.answered_as_sorted function (operands_of v operands.now) (Some (function_sort own.now).1))) }
    {
        if self.are_operands_of(&own.takes, operands)? {
            Ok(self.answer_of_sort(function, operands, &own.gives)?)
        } else {
            Ok(anything(self.alloc()))
        }
    }

    // An answer by the function's sort, where it has one.
    #[tactic(auto, using(crate::proofs::AppliedSteps::case_steps))]
    fn answered_as_sorted(
        &mut self,
        functions: &[FunctionSort],
        function: u32,
        operands: &[Operand],
    ) -> Result<Cases<Form>, Fault>
        ensures { IfOk result (λ cs. Makes self.old self.new (λ v. cases_of v cs ≡ E.answered_as_sorted function (operands_of v operands.now) (look (λ n. n == function) (function_sorts functions.now)))) }
    {
        match functions {
            [] => Ok(anything(self.alloc())),
            [first, rest @ ..] => {
                if first.function == function {
                    Ok(self.answered_by(function, operands, first)?)
                } else {
                    Ok(self.answered_as_sorted(rest, function, operands)?)
                }
            }
        }
    }

    /// What an unknown function answers. On values that aren't plain it isn't followed.
    ///
    /// # Errors
    ///
    /// As `made_fact`.
    #[tactic(auto, using(crate::proofs::AppliedSteps::case_steps))]
    pub fn answered_of(
        &mut self,
        functions: &[FunctionSort],
        function: u32,
        forms: &[Form],
    ) -> Result<Cases<Form>, Fault>
        ensures { IfOk result (λ cs. Makes self.old self.new (λ v. cases_of v cs ≡ E.answered_of function (look (λ n. n == function) (function_sorts functions.now)) (E.operands (forms_of v forms.now)))) }
    {
        match operands(self.alloc(), forms)? {
            None => Ok(anything(self.alloc())),
            Some(of) => Ok(self.answered_as_sorted(functions, function, &of)?),
        }
    }
}
