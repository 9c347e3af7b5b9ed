//! The arena of the formulas of a question.
ghost use Rattle.std.specs.Prelude.{◌≡◌, ℕ, [], length, IfOk};
ghost use Rattle.model.specs.sites.Sites.{SiteTerm};
ghost use Rattle.spec_cases.specs.Namings.{fact_of, forms_of, integer_of, layer_of_fact, layer_of_integer, layer_of_place, layer_of_word, word_of, IsNamed, Makes, Names};
ghost use Rattle.spec_cases.specs.Standing.{naming_of};

use crate::faults::Fault;
use crate::forms::{FieldsId, Form};
use crate::formulas::{
    Fact, FactNode, Integer, IntegerNode, Node, NodeId, Place, PlaceId, Word, WordNode,
};
use std::alloc::Global;
use std::marker::Model;

/// The formulas of a question, the places that they speak of, and the fields of values. A contract sees them as a list, by their
/// numbers; each is made of earlier ones. All that is called here adds to them: what has a number keeps what it stands for.
pub struct Formulas {
    alloc: Global,
    nodes: Vec<Node>,
}

impl Model for Formulas {
    ghost use Rattle.std.specs.Prelude.{List};
    ghost use Rattle.spec_cases.specs.declared.formulas.Node.{Node};
    ghost use Rattle.spec_cases.specs.Arenas.{AreOrdered};

    ghost Value = { List Node };

    ghost view = { λ s. s.nodes.items };

    ghost invariant = { λ s. AreOrdered s.nodes.items };
}

impl Drop for Formulas {
    fn drop(self) {
        let Self { alloc: _, nodes: _ } = self;
    }
}

/// The numbers of any formulas stand for something.
pub fn formulas_stand(formulas: &Formulas)
    ensures { (site : ℕ → SiteTerm) → Names (naming_of site formulas.now) formulas.now }
{
    let _nodes = &formulas.nodes;
}

impl Formulas {
    /// No formulas. Takes no memory.
    pub fn new(alloc: Global) -> Formulas
        ensures { result ≡ [] }
    {
        Formulas {
            alloc,
            nodes: Vec::new(alloc),
        }
    }

    /// Where memory is asked of.
    pub fn alloc(&self) -> Global {
        self.alloc
    }

    /// How many numbers are taken.
    pub fn count(&self) -> usize
        ensures { result ≡ length self.now }
    {
        self.nodes.len()
    }

    // The number of what is made of others.
    fn push(&mut self, node: Node) -> Result<u32, Fault>
        ensures { IfOk result (λ n. Makes self.old self.new (λ v. IsNamed v n node)) }
    {
        let count = self.nodes.len();
        if !node.is_within(count) {
            return Err(Fault::Foreign);
        }
        let Ok(number) = u32::try_from(count) else {
            return Err(Fault::Full);
        };
        self.nodes.push(node)?;
        Ok(number)
    }

    /// A place.
    ///
    /// # Errors
    ///
    /// `Foreign` where what it is made of isn't there, `Full` where no number is left, `Memory` where memory is refused.
    pub fn made_place(&mut self, place: Place) -> Result<PlaceId, Fault>
        ensures { IfOk result (λ p. Makes self.old self.new (λ v. v.place p.0 ≡ layer_of_place v place)) }
    {
        Ok(PlaceId(self.push(Node::Place(place))?))
    }

    /// A word that is made of others.
    ///
    /// # Errors
    ///
    /// As above.
    pub fn made_word(&mut self, node: WordNode) -> Result<Word, Fault>
        ensures { IfOk result (λ t. Makes self.old self.new (λ v. word_of v t ≡ layer_of_word v node)) }
    {
        Ok(Word::Made(NodeId(self.push(Node::Word(node))?)))
    }

    /// An integer that is made of others.
    ///
    /// # Errors
    ///
    /// As above.
    pub fn made_integer(&mut self, node: IntegerNode) -> Result<Integer, Fault>
        ensures { IfOk result (λ z. Makes self.old self.new (λ v. integer_of v z ≡ layer_of_integer v node)) }
    {
        Ok(Integer::Made(NodeId(self.push(Node::Integer(node))?)))
    }

    /// A truth that is made of others.
    ///
    /// # Errors
    ///
    /// As above.
    pub fn made_fact(&mut self, node: FactNode) -> Result<Fact, Fault>
        ensures { IfOk result (λ f. Makes self.old self.new (λ v. fact_of v f ≡ layer_of_fact v node)) }
    {
        Ok(Fact::Made(NodeId(self.push(Node::Fact(node))?)))
    }

    /// The number of the fields of a value.
    ///
    /// # Errors
    ///
    /// As above.
    pub fn made_fields(&mut self, fields: Vec<Form>) -> Result<FieldsId, Fault>
        ensures { IfOk result (λ n. Makes self.old self.new (λ v. v.fields n.0 ≡ forms_of v fields.items)) }
    {
        Ok(FieldsId(self.push(Node::Fields(fields))?))
    }

    /// The fields of a value.
    ///
    /// # Errors
    ///
    /// `Foreign` where they aren't there.
    pub fn fields(&self, fields: FieldsId) -> Result<&[Form], Fault>
        ensures { IfOk result (λ fs. (v : _) → Names v self.now → v.fields fields.0 ≡ forms_of v fs.now) }
    {
        match self.nodes.get(fields.0 as usize) {
            Some(Node::Fields(list)) => Ok(list),
            _ => Err(Fault::Foreign),
        }
    }

    /// What a truth is made of.
    ///
    /// # Errors
    ///
    /// `Foreign` where it isn't there.
    pub fn fact_node(&self, fact: NodeId) -> Result<&FactNode, Fault>
        ensures { IfOk result (λ x. (v : _) → Names v self.now → v.fact fact.0 ≡ layer_of_fact v x.now) }
    {
        match self.nodes.get(fact.0 as usize) {
            Some(Node::Fact(node)) => Ok(node),
            _ => Err(Fault::Foreign),
        }
    }

    /// What a word is made of.
    ///
    /// # Errors
    ///
    /// `Foreign` where it isn't there.
    pub fn word_node(&self, word: NodeId) -> Result<&WordNode, Fault>
        ensures { IfOk result (λ x. (v : _) → Names v self.now → v.word word.0 ≡ layer_of_word v x.now) }
    {
        match self.nodes.get(word.0 as usize) {
            Some(Node::Word(node)) => Ok(node),
            _ => Err(Fault::Foreign),
        }
    }

    /// What an integer is made of.
    ///
    /// # Errors
    ///
    /// `Foreign` where it isn't there.
    pub fn integer_node(&self, integer: NodeId) -> Result<&IntegerNode, Fault>
        ensures { IfOk result (λ x. (v : _) → Names v self.now → v.integer integer.0 ≡ layer_of_integer v x.now) }
    {
        match self.nodes.get(integer.0 as usize) {
            Some(Node::Integer(node)) => Ok(node),
            _ => Err(Fault::Foreign),
        }
    }

    /// One layer of a place.
    ///
    /// # Errors
    ///
    /// `Foreign` where it isn't there.
    pub fn layer_at(&self, place: PlaceId) -> Result<Place, Fault>
        ensures { IfOk result (λ p. (v : _) → Names v self.now → v.place place.0 ≡ layer_of_place v p) }
    {
        match self.nodes.get(place.0 as usize) {
            Some(Node::Place(layer)) => Ok(*layer),
            _ => Err(Fault::Foreign),
        }
    }
}
