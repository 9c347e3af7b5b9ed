//! Calls that take no memory, on values that are made before.

use crate::environments::{ACCEPTED, defs_of, read_rules};
use core_containers::disjointsets::DisjointSets;
use core_rule_sets::trie_again::{
    Binding, BindingId, Constraint, Overlap, Rule, RuleSet, TupleIndex,
};
use core_rules::TermEnv;
use core_syntax::stablemapset::{StableMap, StableSet};
use core_syntax::syntax::{Def, Fault, Ident, Pos, Span};
use core_types::{BuiltinType, IntType, RuleId, Sym, TermId, TypeEnv, TypeId};
use std::alloc::{AllocError, Global};
use std::collections::HashMap;

/// What the calls are made on.
#[derive(Drop)]
pub struct Fixture {
    alloc: Global,
    set: StableSet<u32>,
    map: StableMap<u32, u32>,
    sets: DisjointSets<u32>,
    defs: Vec<Def>,
    tyenv: TypeEnv,
    termenv: TermEnv,
    // a type's name, a term's name, a rule's name, and a name that isn't known
    names: [Ident; 4],
    // one site, a truth value
    site: RuleSet,
}

impl Fixture {
    /// What `ACCEPTED` gives, and containers of one, two and two numbers.
    pub fn new(alloc: Global) -> Result<Fixture, Fault> {
        let defs = defs_of(alloc, ACCEPTED)?;
        let mut tyenv = TypeEnv::from_ast(alloc, &defs)?;
        let termenv = read_rules(alloc, &mut tyenv, &defs)?;
        let mut set = StableSet::new(alloc);
        set.insert(7)?;
        let map = StableMap::from(HashMap::from_array(alloc, [(7, 1), (8, 2)])?);
        let mut sets = DisjointSets::new(alloc);
        sets.merge(7, 8)?;
        Ok(Fixture {
            alloc,
            set,
            map,
            sets,
            defs,
            tyenv,
            termenv,
            names: names(alloc)?,
            site: site(alloc)?,
        })
    }
}

// Names that `ACCEPTED` has of a type, a term and a rule, and one that it doesn't have.
fn names(alloc: Global) -> Result<[Ident; 4], AllocError> {
    Ok([
        ident(alloc, "P")?,
        ident(alloc, "f")?,
        ident(alloc, "one")?,
        ident(alloc, "nope")?,
    ])
}

fn ident(alloc: Global, text: &str) -> Result<Ident, AllocError> {
    Ok(Ident(String::from_str(alloc, text)?, Pos { file: 0, offset: 0 }))
}

// A set with one site and no rules.
fn site(alloc: Global) -> Result<RuleSet, AllocError> {
    let mut set = RuleSet::new(alloc);
    set.bindings.push(TRUE)?;
    Ok(set)
}

const TRUE: Binding = Binding::ConstBool {
    val: true,
    ty: TypeId::BOOL,
};

/// Containers are asked and made, and a number in no set is taken out.
pub fn containers_answer(asked: &Fixture) -> bool {
    let (set, map, sets) = (&asked.set, &asked.map, &asked.sets);
    let has = set.contains(&7) && !set.contains(&8) && set.len() == 1;
    let maps = map.get(&7) == Some(&1) && map.contains_key(&8) && map.len() == 2;
    let joins = sets.in_same_set(7, 8) && sets.find(7) == sets.find(8) && sets.len() == 2;
    has && maps && joins && new_ones_answer(asked.alloc)
}

// The same of new containers.
fn new_ones_answer(alloc: Global) -> bool {
    let set: StableSet<u32> = StableSet::new(alloc);
    let map: StableMap<u32, u32> = StableMap::new(alloc);
    let mut sets: DisjointSets<u32> = DisjointSets::new(alloc);
    let found = sets.find_mut(7).is_none() && sets.is_empty();
    let removed = sets.remove_set_of(7).is_ok();
    set.len() == 0 && map.get(&7).is_none() && found && removed
}

/// Names are looked up, and types and terms asked.
pub fn tables_answer(asked: &Fixture) -> bool {
    let (tyenv, termenv) = (&asked.tyenv, &asked.termenv);
    let [ty, term, rule, nope] = &asked.names;
    let types = tyenv.intern(ty) == Some(Sym(13))
        && tyenv.get_type_by_name(ty) == Some(TypeId(13))
        && tyenv.intern(nope).is_none();
    let terms = termenv.get_term_by_name(tyenv, term) == Some(TermId(4))
        && termenv.get_rule_by_name(tyenv, rule) == Some(RuleId(0));
    types && terms && types_answer(tyenv) && terms_answer(termenv)
}

// One type is primitive, 12 are integers, and three have a place.
fn types_answer(tyenv: &TypeEnv) -> bool {
    let types = &tyenv.types;
    let ids = types.iter().enumerate().all(|(i, ty)| ty.id() == TypeId(i));
    let kinds = types.iter().filter(|ty| ty.is_prim()).count() == 1
        && types.iter().filter(|ty| ty.is_int()).count() == 12
        && types.iter().filter(|ty| ty.pos().is_some()).count() == 3;
    let eight = IntType::U8.bits() == 8 && IntType::U8.reduce(-1) == 255;
    ids && kinds && eight && TypeId::builtin(BuiltinType::Int(IntType::I8)) == TypeId::I8
}

// Two terms are variants, one is a struct, six others are declared.
fn terms_answer(termenv: &TermEnv) -> bool {
    let terms = &termenv.terms;
    let made = terms.iter().filter(|term| term.is_enum_variant()).count() == 2
        && terms.iter().filter(|term| term.is_struct()).count() == 1;
    let sides = terms.iter().filter(|term| term.has_constructor()).count() == 7
        && terms.iter().filter(|term| term.has_extractor()).count() == 5;
    let outside = terms
        .iter()
        .filter(|term| term.has_external_constructor())
        .count()
        == 2
        && terms
            .iter()
            .filter(|term| term.has_external_extractor())
            .count()
            == 1;
    let ruled = terms
        .iter()
        .filter(|term| term.has_internal_constructor())
        .count()
        == 2
        && terms.iter().filter(|term| term.is_partial()).count() == 2;
    made && sides && outside && ruled
}

/// Numbers become sites and parts, a site is found, and rules of sets are compared.
pub fn sites_answer(asked: &Fixture) -> bool {
    let (rule, other) = (Rule::new(asked.alloc), Rule::new(asked.alloc));
    let site = BindingId::from(0);
    let numbers = BindingId::try_from(65536usize).is_err()
        && TupleIndex::try_from(256usize).is_err()
        && BindingId::try_from(65535usize).is_ok()
        && TupleIndex::try_from(255usize).is_ok();
    let found = asked.site.find_binding(&TRUE) == Some(site) && TRUE.sources().is_empty();
    let rules = rule.may_overlap(&other) == Overlap::Yes { subset: true }
        && rule.total_constraints() == 0
        && rule.get_constraint(site).is_none();
    numbers && found && rules && Constraint::Some.compatible(&TRUE)
}

/// Syntax trees say where they stand, and typed ones their types.
pub fn trees_answer(asked: &Fixture) -> bool {
    let rooted = asked.defs.iter().filter(|def| is_rooted(def)).count();
    let typed = asked
        .termenv
        .rules
        .iter()
        .filter(|rule| rule.rhs.ty() == TypeId(13));
    rooted == 3 && typed.count() == 2
}

// Whether it is a rule of a term, whose pattern begins before its expression.
fn is_rooted(def: &Def) -> bool {
    match def {
        Def::Rule(rule) => {
            let span = Span::new_single(rule.pattern.pos());
            rule.pattern.root_term().is_some() && span.to.offset <= rule.expr.pos().offset
        }
        _ => false,
    }
}
