//! Formulas as a solver reads them: what is made by its name, and the rest in full.

use crate::declared::{Constant, Declared};
use crate::faults::Fault;
use crate::operators::word_for;
use crate::sorts::Sort;
use crate::uses::{Use, Uses, uses_of, uses_of_operand};
use spec_cases::arena::Formulas;
use spec_cases::formulas::{
    Fact, FactNode, Integer, IntegerNode, NodeId, Operand, PlaceId, Word, WordNode,
};
use spec_cases::operators::Operator;
use spec_cases::results::{Outcome, result_of};
use spec_cases::shapes::{Shape, shape_of};

// What has no name is written out in so many bytes at most, and of so many such parts.
const MOST_BYTES: usize = 4000;

const MOST_PARTS: usize = 200;

/// What is written of a question.
#[derive(Drop)]
pub struct Writer<'a> {
    formulas: &'a Formulas,
    uses: Uses<'a>,
    declared: Declared,
    out: String,
    // What stands for a number that has no name.
    parts: Vec<(u32, String)>,
}

/// The lines of a question.
///
/// # Errors
///
/// As `text_of`.
pub fn written<'a>(formulas: &'a Formulas, facts: &[Fact]) -> Result<Writer<'a>, Fault> {
    let uses = uses_of(formulas, facts)?;
    let mut writer = Writer {
        formulas,
        uses,
        declared: Declared::new(formulas.alloc()),
        out: String::new(formulas.alloc()),
        parts: Vec::new(formulas.alloc()),
    };
    writer.push_all_defined()?;
    writer.push_all_asserted(facts)?;
    Ok(writer)
}

impl<'a> Writer<'a> {
    /// What is declared.
    pub fn declared(&self) -> &Declared {
        &self.declared
    }

    fn push(&mut self, text: &str) -> Result<(), Fault> {
        self.out.push_str(text)?;
        Ok(())
    }

    fn push_sort(&mut self, sort: Sort) -> Result<(), Fault> {
        if sort == Sort::Integers {
            self.declared.add_integers()?;
        }
        sort.push_to(&mut self.out)?;
        Ok(())
    }

    fn push_constant(&mut self, constant: Constant) -> Result<(), Fault> {
        self.declared.add_constant(constant)?;
        constant.push_to(&mut self.out)?;
        Ok(())
    }

    // The name of what is made, or what stands for it.
    fn push_made(&mut self, node: NodeId) -> Result<(), Fault> {
        let number = node.number();
        for (own, text) in &self.parts {
            if *own == number {
                self.out.push_str(text)?;
                return Ok(());
            }
        }
        write!(self.out, "n{number}")?;
        Ok(())
    }

    // That a constant, a word of 16 bits, is a number.
    fn push_is(&mut self, constant: Constant, number: usize) -> Result<(), Fault> {
        if number > 65535 {
            return Err(Fault::Unfit);
        }
        self.push("(= ")?;
        self.push_constant(constant)?;
        write!(self.out, " (_ bv{number} 16))")?;
        Ok(())
    }

    // That a place has a variant, counted from 1.
    fn push_kind(&mut self, place: PlaceId, variant: usize) -> Result<(), Fault> {
        let name = self.uses.name_of(place)?;
        match variant.checked_add(1) {
            Some(number) => self.push_is(Constant::Variant(name), number),
            None => Err(Fault::Unfit),
        }
    }

    fn push_fact(&mut self, fact: Fact) -> Result<(), Fault> {
        match fact {
            Fact::Known(true) => self.push("true"),
            Fact::Known(false) => self.push("false"),
            Fact::At(place) => {
                let name = self.uses.name_of(place)?;
                self.push_constant(Constant::Truth(name))
            }
            Fact::AsWide(place, width) => {
                let name = self.uses.name_of(place)?;
                self.push_is(Constant::Width(name), width as usize)
            }
            Fact::IsKind(place, variant) => self.push_kind(place, variant.0),
            Fact::Made(node) => self.push_made(node),
        }
    }

    fn push_number(&mut self, number: i128) -> Result<(), Fault> {
        if number < 0 {
            let size = number.unsigned_abs();
            write!(self.out, "(- {size})")?;
        } else {
            write!(self.out, "{number}")?;
        }
        Ok(())
    }

    fn push_integer(&mut self, integer: Integer) -> Result<(), Fault> {
        self.declared.add_integers()?;
        match integer {
            Integer::Written(number) => self.push_number(number),
            Integer::At(place) => {
                let name = self.uses.name_of(place)?;
                self.push_constant(Constant::Integer(name))
            }
            Integer::Made(node) => self.push_made(node),
        }
    }

    // A word of a width, by its number.
    fn push_bits(&mut self, width: u32, number: u128) -> Result<(), Fault> {
        if let Some(whole) = 2u128.checked_pow(width) {
            if number >= whole {
                return Err(Fault::Unfit);
            }
        }
        write!(self.out, "(_ bv{number} {width})")?;
        Ok(())
    }

    fn push_word(&mut self, width: u32, word: Word) -> Result<(), Fault> {
        match word {
            Word::Written(number) => self.push_bits(width, number),
            Word::At(place, own) => {
                let name = self.uses.name_of(place)?;
                self.push_constant(Constant::Word(name, own))
            }
            Word::Made(node) => self.push_made(node),
        }
    }

    fn push_operand(&mut self, operand: Operand) -> Result<(), Fault> {
        match operand {
            Operand::Fact(fact) => self.push_fact(fact),
            Operand::Integer(integer) => self.push_integer(integer),
            Operand::Word(width, word) => self.push_word(width, word),
        }
    }

    // A word before operands.
    fn push_applied(&mut self, word: &str, operands: &[Operand]) -> Result<(), Fault> {
        self.push("(")?;
        self.push(word)?;
        for operand in operands {
            self.push(" ")?;
            self.push_operand(*operand)?;
        }
        self.push(")")
    }

    // To so many bits.
    fn push_widened(&mut self, word: &str, wider: u32, width: u32, of: Word) -> Result<(), Fault> {
        match wider.checked_sub(width) {
            Some(more) => {
                write!(self.out, "((_ {word} {more}) ")?;
                self.push_word(width, of)?;
                self.push(")")
            }
            None => Err(Fault::Unspelled),
        }
    }

    // From a bit down to another one.
    fn push_extracted(
        &mut self,
        high: Integer,
        low: Integer,
        width: u32,
        of: Word,
    ) -> Result<(), Fault> {
        match (high, low) {
            (Integer::Written(from), Integer::Written(to)) => {
                write!(self.out, "((_ extract {from} {to}) ")?;
                self.push_word(width, of)?;
                self.push(")")
            }
            _ => Err(Fault::Unspelled),
        }
    }

    // By how many bits, modulo the width: a word of this width.
    fn push_count(&mut self, width: u32, count: Operand) -> Result<(), Fault> {
        match count {
            Operand::Integer(integer) => {
                write!(self.out, "((_ int2bv {width}) (mod ")?;
                self.push_integer(integer)?;
                write!(self.out, " {width}))")?;
            }
            Operand::Word(own, word) => {
                self.push("(bvurem ")?;
                self.push_word(own, word)?;
                self.push(" ")?;
                self.push_bits(width, width as u128)?;
                self.push(")")?;
            }
            Operand::Fact(_) => return Err(Fault::Unspelled),
        }
        Ok(())
    }

    // A word shifted one way by a count, together with it shifted the other way by what the width is more.
    fn push_rotated(
        &mut self,
        first: &str,
        second: &str,
        width: u32,
        of: Word,
        count: Operand,
    ) -> Result<(), Fault> {
        self.push("(bvor (")?;
        self.push(first)?;
        self.push(" ")?;
        self.push_word(width, of)?;
        self.push(" ")?;
        self.push_count(width, count)?;
        self.push(") (")?;
        self.push(second)?;
        self.push(" ")?;
        self.push_word(width, of)?;
        self.push(" (bvsub ")?;
        self.push_bits(width, width as u128)?;
        self.push(" ")?;
        self.push_count(width, count)?;
        self.push(")))")
    }

    fn push_rotation(
        &mut self,
        operator: Operator,
        width: u32,
        of: Word,
        count: Operand,
    ) -> Result<(), Fault> {
        match operator {
            Operator::RotatedLeft => self.push_rotated("bvshl", "bvlshr", width, of, count),
            Operator::RotatedRight => self.push_rotated("bvlshr", "bvshl", width, of, count),
            _ => Err(Fault::Unspelled),
        }
    }

    // An operator that has more than a word before its operands; the sort is that of its result.
    fn push_special(
        &mut self,
        operator: Operator,
        operands: &[Operand],
        sort: Sort,
    ) -> Result<(), Fault> {
        match (operator, shape_of(operands), sort) {
            (Operator::Widened, Shape::IntegerWord(_, width, of), Sort::Words(wider)) => {
                self.push_widened("zero_extend", wider, width, of)
            }
            (Operator::WidenedSigned, Shape::IntegerWord(_, width, of), Sort::Words(wider)) => {
                self.push_widened("sign_extend", wider, width, of)
            }
            (Operator::Bits, Shape::TwoIntegersWord(high, low, width, of), _) => {
                self.push_extracted(high, low, width, of)
            }
            (Operator::AsWord, Shape::TwoIntegers(_, integer), Sort::Words(width)) => {
                write!(self.out, "((_ int2bv {width}) ")?;
                self.push_integer(integer)?;
                self.push(")")
            }
            (_, Shape::TwoWords(width, of, other, count), _) => {
                self.push_rotation(operator, width, of, Operand::Word(other, count))
            }
            (_, Shape::WordInteger(width, of, count), _) => {
                self.push_rotation(operator, width, of, Operand::Integer(count))
            }
            (Operator::WidthOf, Shape::OneWord(width, _), _) => {
                self.push_integer(Integer::Written(width as i128))
            }
            _ => Err(Fault::Unspelled),
        }
    }

    // What an operator gives, of a sort.
    fn push_by(
        &mut self,
        operator: Operator,
        operands: &[Operand],
        sort: Sort,
    ) -> Result<(), Fault> {
        if !gives(result_of(operator, operands)?, sort) {
            return Err(Fault::Unspelled);
        }
        match word_for(operator) {
            Some(word) => self.push_applied(word, operands),
            None => self.push_special(operator, operands, sort),
        }
    }

    // What an unknown function answers, of a sort.
    fn push_answered(
        &mut self,
        function: u32,
        operands: &[Operand],
        sort: Sort,
    ) -> Result<(), Fault> {
        let place = self.declared.add_function(function, operands, sort)?;
        let mut name = String::new(self.formulas.alloc());
        write!(name, "f{function}_{place}")?;
        match operands {
            [] => self.push(&name),
            [_, ..] => self.push_applied(&name, operands),
        }
    }

    // A word before two truths.
    fn push_two(&mut self, word: &str, a: Fact, b: Fact) -> Result<(), Fault> {
        self.push_applied(word, &[Operand::Fact(a), Operand::Fact(b)])
    }

    // The first where the fact is so, else the second.
    fn push_either(&mut self, fact: Fact, a: Operand, b: Operand) -> Result<(), Fault> {
        self.push_applied("ite", &[Operand::Fact(fact), a, b])
    }

    // What a truth is made of.
    fn push_fact_node(&mut self, fact: NodeId) -> Result<(), Fault> {
        let formulas = self.formulas;
        match formulas.fact_node(fact)? {
            FactNode::By(operator, operands) => self.push_by(*operator, operands, Sort::Truths),
            FactNode::Answered(function, operands) => {
                self.push_answered(*function, operands, Sort::Truths)
            }
            FactNode::Both(a, b) => self.push_two("and", *a, *b),
            FactNode::One(a, b) => self.push_two("or", *a, *b),
            FactNode::No(a) => self.push_applied("not", &[Operand::Fact(*a)]),
            FactNode::Same(a, b) => self.push_two("=", *a, *b),
        }
    }

    // What an integer is made of.
    fn push_integer_node(&mut self, integer: NodeId) -> Result<(), Fault> {
        let formulas = self.formulas;
        match formulas.integer_node(integer)? {
            IntegerNode::By(operator, operands) => {
                self.push_by(*operator, operands, Sort::Integers)
            }
            IntegerNode::Answered(function, operands) => {
                self.push_answered(*function, operands, Sort::Integers)
            }
            IntegerNode::Either(fact, a, b) => {
                self.push_either(*fact, Operand::Integer(*a), Operand::Integer(*b))
            }
        }
    }

    // What a word of a width is made of.
    fn push_word_node(&mut self, word: NodeId, width: u32) -> Result<(), Fault> {
        let formulas = self.formulas;
        match formulas.word_node(word)? {
            WordNode::By(operator, operands) => {
                self.push_by(*operator, operands, Sort::Words(width))
            }
            WordNode::Answered(function, operands) => {
                self.push_answered(*function, operands, Sort::Words(width))
            }
            WordNode::Either(fact, a, b) => {
                self.push_either(*fact, Operand::Word(width, *a), Operand::Word(width, *b))
            }
        }
    }

    // What is made, of a sort.
    fn push_node(&mut self, node: NodeId, sort: Sort) -> Result<(), Fault> {
        match sort {
            Sort::Truths => self.push_fact_node(node),
            Sort::Integers => self.push_integer_node(node),
            Sort::Words(width) => self.push_word_node(node, width),
        }
    }

    // The line of what is made.
    fn push_defined(&mut self, node: NodeId, sort: Sort) -> Result<(), Fault> {
        self.push("(define-fun ")?;
        self.push_made(node)?;
        self.push(" () ")?;
        self.push_sort(sort)?;
        self.push(" ")?;
        self.push_node(node, sort)?;
        self.push(")\n")
    }

    // A line for each formula that is used and made of others.
    fn push_all_defined(&mut self) -> Result<(), Fault> {
        for number in 0..self.uses.count() {
            if let Use::Made(node, sort) = self.uses.at(number) {
                self.push_defined(node, sort)?;
            }
        }
        Ok(())
    }

    // That a fact is so.
    fn push_asserted(&mut self, fact: Fact) -> Result<(), Fault> {
        self.push("(assert ")?;
        self.push_fact(fact)?;
        self.push(")\n")
    }

    fn push_all_asserted(&mut self, facts: &[Fact]) -> Result<(), Fault> {
        for fact in facts {
            self.push_asserted(*fact)?;
        }
        Ok(())
    }

    /// The text: the logic, what is declared, and the lines.
    ///
    /// # Errors
    ///
    /// `Memory` where memory is refused.
    pub fn text(&self) -> Result<String, Fault> {
        let mut text = String::new(self.formulas.alloc());
        let logic = self.declared.logic();
        write!(text, "(set-logic {logic})\n")?;
        self.declared.push_to(&mut text)?;
        text.push_str(&self.out)?;
        text.push_str("(check-sat)\n")?;
        Ok(text)
    }

    /// Nothing more is declared from now on: what is written next stands behind the text.
    pub fn close(&mut self) {
        self.declared.close();
    }

    // Writes out what has no name.
    fn add_part(&mut self, node: NodeId, sort: Sort) -> Result<(), Fault> {
        self.out.clear();
        self.push_node(node, sort)?;
        if self.out.len() > MOST_BYTES || self.parts.len() >= MOST_PARTS {
            return Err(Fault::Undeclared);
        }
        self.parts.push((node.number(), self.out.clone()?))?;
        Ok(())
    }

    // Writes out a part of a formula, where it has no name.
    fn push_part(&mut self, number: usize, part: Use) -> Result<(), Fault> {
        match (part, self.uses.at(number)) {
            (Use::Nothing, _) => Ok(()),
            (Use::Place(place, _), _) => self.uses.use_named(place),
            (Use::Made(node, sort), Use::Nothing) => self.add_part(node, sort),
            (Use::Made(_, sort), Use::Made(_, own)) if sort == own => Ok(()),
            (Use::Made(_, _), Use::Made(_, _) | Use::Place(_, _)) => Err(Fault::Foreign),
        }
    }

    // Writes out the parts of a formula. Each is made of smaller numbers, so these come first.
    fn push_parts(&mut self, parts: &Uses<'a>) -> Result<(), Fault> {
        for number in 0..parts.count() {
            self.push_part(number, parts.at(number))?;
        }
        Ok(())
    }

    /// A formula as it may stand behind the text, which is closed.
    ///
    /// # Errors
    ///
    /// `Undeclared` where it names what isn't declared, or is too great without names, else as `text_of`.
    pub fn text_behind(&mut self, formula: Operand) -> Result<String, Fault> {
        let parts = uses_of_operand(self.formulas, formula)?;
        self.parts.clear();
        self.push_parts(&parts)?;
        self.out.clear();
        self.push_operand(formula)?;
        Ok(self.out.clone()?)
    }
}

// Whether what an operator comes to is of a sort.
fn gives(outcome: Outcome, sort: Sort) -> bool {
    match outcome {
        Outcome::Truth => sort == Sort::Truths,
        Outcome::Integer => sort == Sort::Integers,
        Outcome::Word(width) => sort == Sort::Words(width),
        Outcome::Nothing | Outcome::Unfollowed => false,
    }
}
