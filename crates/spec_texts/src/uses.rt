//! Which numbers of an arena are used, and as what.

use crate::faults::Fault;
use crate::sorts::Sort;
use spec_cases::arena::Formulas;
use spec_cases::formulas::{
    Fact, FactNode, Integer, IntegerNode, NodeId, Operand, PlaceId, Word, WordNode,
};

/// What a number is used as.
#[derive(Clone, Copy)]
pub enum Use {
    /// It isn't used.
    Nothing,
    /// As a place, which is named by a number: the least that is used and the same place.
    Place(PlaceId, u32),
    /// As what is made, of a sort.
    Made(NodeId, Sort),
}

/// What each number of an arena is used as.
#[derive(Drop)]
pub struct Uses<'a> {
    formulas: &'a Formulas,
    uses: Vec<Use>,
}

impl<'a> Uses<'a> {
    // None is used.
    fn new(formulas: &'a Formulas) -> Result<Uses<'a>, Fault> {
        let uses = vec![in formulas.alloc(); Use::Nothing; formulas.count()]?;
        Ok(Uses { formulas, uses })
    }

    /// How many numbers there are.
    pub fn count(&self) -> usize {
        self.uses.len()
    }

    /// What a number is used as.
    pub fn at(&self, number: usize) -> Use {
        match self.uses.get(number) {
            Some(own) => *own,
            None => Use::Nothing,
        }
    }

    /// The number by which a place is named.
    ///
    /// # Errors
    ///
    /// `Foreign` where it isn't used.
    pub fn name_of(&self, place: PlaceId) -> Result<u32, Fault> {
        match self.at(place.number() as usize) {
            Use::Place(_, name) => Ok(name),
            Use::Nothing | Use::Made(_, _) => Err(Fault::Foreign),
        }
    }

    // The name of a place of another number that is the same.
    fn name_beside(&self, place: PlaceId) -> Result<u32, Fault> {
        for own in &self.uses {
            if let Use::Place(other, name) = own {
                if self.formulas.same_place(*other, place)? {
                    return Ok(*name);
                }
            }
        }
        Err(Fault::Undeclared)
    }

    /// Uses a place too, by the name that it has already.
    ///
    /// # Errors
    ///
    /// `Undeclared` where it has none, `Foreign` where it isn't there.
    pub fn use_named(&mut self, place: PlaceId) -> Result<(), Fault> {
        let number = place.number() as usize;
        match self.at(number) {
            Use::Place(_, _) => Ok(()),
            Use::Made(_, _) => Err(Fault::Foreign),
            Use::Nothing => {
                let name = self.name_beside(place)?;
                self.set(number, Use::Place(place, name))
            }
        }
    }

    // Puts down what a number is used as.
    fn set(&mut self, number: usize, as_what: Use) -> Result<(), Fault> {
        match self.uses.get_mut(number) {
            Some(own) => {
                *own = as_what;
                Ok(())
            }
            None => Err(Fault::Foreign),
        }
    }

    fn use_place(&mut self, place: PlaceId) -> Result<(), Fault> {
        let number = place.number();
        self.set(number as usize, Use::Place(place, number))
    }

    // Of one sort, wherever it is used.
    fn use_made(&mut self, node: NodeId, sort: Sort) -> Result<(), Fault> {
        let number = node.number() as usize;
        if let Use::Made(_, own) = self.at(number) {
            if own != sort {
                return Err(Fault::Foreign);
            }
        }
        self.set(number, Use::Made(node, sort))
    }

    fn use_fact(&mut self, fact: Fact) -> Result<(), Fault> {
        match fact {
            Fact::Known(_) => Ok(()),
            Fact::At(place) | Fact::AsWide(place, _) | Fact::IsKind(place, _) => {
                self.use_place(place)
            }
            Fact::Made(node) => self.use_made(node, Sort::Truths),
        }
    }

    fn use_integer(&mut self, integer: Integer) -> Result<(), Fault> {
        match integer {
            Integer::Written(_) => Ok(()),
            Integer::At(place) => self.use_place(place),
            Integer::Made(node) => self.use_made(node, Sort::Integers),
        }
    }

    fn use_word(&mut self, width: u32, word: Word) -> Result<(), Fault> {
        if width == 0 {
            return Err(Fault::Unfit);
        }
        match word {
            Word::Written(_) => Ok(()),
            Word::At(place, own) => {
                if own == width {
                    self.use_place(place)
                } else {
                    Err(Fault::Foreign)
                }
            }
            Word::Made(node) => self.use_made(node, Sort::Words(width)),
        }
    }

    fn use_operands(&mut self, operands: &[Operand]) -> Result<(), Fault> {
        for operand in operands {
            match *operand {
                Operand::Fact(fact) => self.use_fact(fact)?,
                Operand::Integer(integer) => self.use_integer(integer)?,
                Operand::Word(width, word) => self.use_word(width, word)?,
            }
        }
        Ok(())
    }

    fn use_facts(&mut self, facts: &[Fact]) -> Result<(), Fault> {
        for fact in facts {
            self.use_fact(*fact)?;
        }
        Ok(())
    }

    // What a truth is made of.
    fn use_parts_of_fact(&mut self, fact: NodeId) -> Result<(), Fault> {
        let formulas = self.formulas;
        match formulas.fact_node(fact)? {
            FactNode::By(_, operands) | FactNode::Answered(_, operands) => {
                self.use_operands(operands)
            }
            FactNode::Both(a, b) | FactNode::One(a, b) | FactNode::Same(a, b) => {
                self.use_fact(*a)?;
                self.use_fact(*b)
            }
            FactNode::No(a) => self.use_fact(*a),
        }
    }

    // What an integer is made of.
    fn use_parts_of_integer(&mut self, integer: NodeId) -> Result<(), Fault> {
        let formulas = self.formulas;
        match formulas.integer_node(integer)? {
            IntegerNode::By(_, operands) | IntegerNode::Answered(_, operands) => {
                self.use_operands(operands)
            }
            IntegerNode::Either(fact, a, b) => {
                self.use_fact(*fact)?;
                self.use_integer(*a)?;
                self.use_integer(*b)
            }
        }
    }

    // What a word of a width is made of.
    fn use_parts_of_word(&mut self, word: NodeId, width: u32) -> Result<(), Fault> {
        let formulas = self.formulas;
        match formulas.word_node(word)? {
            WordNode::By(_, operands) | WordNode::Answered(_, operands) => {
                self.use_operands(operands)
            }
            WordNode::Either(fact, a, b) => {
                self.use_fact(*fact)?;
                self.use_word(width, *a)?;
                self.use_word(width, *b)
            }
        }
    }

    // What a number is made of, where it is used as what is made.
    fn use_parts(&mut self, number: usize) -> Result<(), Fault> {
        match self.at(number) {
            Use::Made(node, Sort::Truths) => self.use_parts_of_fact(node),
            Use::Made(node, Sort::Integers) => self.use_parts_of_integer(node),
            Use::Made(node, Sort::Words(width)) => self.use_parts_of_word(node, width),
            Use::Nothing | Use::Place(_, _) => Ok(()),
        }
    }

    // What is used is made of is used too. What is made is made of smaller numbers, so the great ones come first.
    fn use_all_parts(&mut self) -> Result<(), Fault> {
        for number in (0..self.uses.len()).rev() {
            self.use_parts(number)?;
        }
        Ok(())
    }

    // What is used as a place gets the name of the first that is the same place.
    fn name_places(&mut self) -> Result<(), Fault> {
        let formulas = self.formulas;
        let mut named = Vec::new(formulas.alloc());
        for number in 0..self.uses.len() {
            if let Use::Place(place, _) = self.at(number) {
                match first_same(formulas, &named, place)? {
                    Some(name) => self.set(number, Use::Place(place, name))?,
                    None => named.push(place)?,
                }
            }
        }
        Ok(())
    }
}

// The number of the first of these that is the same place.
fn first_same(
    formulas: &Formulas,
    places: &[PlaceId],
    place: PlaceId,
) -> Result<Option<u32>, Fault> {
    for other in places {
        if formulas.same_place(*other, place)? {
            return Ok(Some(other.number()));
        }
    }
    Ok(None)
}

/// What facts use.
///
/// # Errors
///
/// `Foreign` where what is used isn't there, or is used at two sorts, `Unfit` where a word has no bits, `Memory` where memory is refused.
pub fn uses_of<'a>(formulas: &'a Formulas, facts: &[Fact]) -> Result<Uses<'a>, Fault> {
    let mut uses = Uses::new(formulas)?;
    uses.use_facts(facts)?;
    uses.use_all_parts()?;
    uses.name_places()?;
    Ok(uses)
}

/// What an operand uses. Each place is named by its own number.
///
/// # Errors
///
/// As `uses_of`.
pub fn uses_of_operand<'a>(formulas: &'a Formulas, operand: Operand) -> Result<Uses<'a>, Fault> {
    let mut uses = Uses::new(formulas)?;
    uses.use_operands(&[operand])?;
    uses.use_all_parts()?;
    Ok(uses)
}
