//! The sites of a rule's variables.

use cranelift_isle::sema::{Expr, Pattern, Rule, Term, TermId, TermKind, TypeId, VarId, VariantId};
use cranelift_isle::trie_again::{Binding, BindingId, TupleIndex};
use std::alloc::{AllocError, Global};
use std::collections::HashMap;

/// The sites of a term's rules, by what they stand for.
pub struct KnownSites<'a> {
    alloc: Global,
    // The terms, by their ids.
    terms: &'a [Term],
    // The number of each binding.
    numbers: HashMap<Binding, BindingId>,
}

impl<'a> Drop for KnownSites<'a> {
    fn drop(self) {
        let KnownSites {
            alloc: _,
            terms: _,
            numbers: _,
        } = self;
    }
}

// What was found so far of a rule.
struct Found {
    // The site of each variable, by the variables' ids.
    sites: Vec<Option<BindingId>>,
    // How many impure calls the rule makes.
    impure: u32,
}

impl Drop for Found {
    fn drop(self) {
        let Found {
            sites: _,
            impure: _,
        } = self;
    }
}

impl Found {
    fn note(&mut self, variable: VarId, site: Option<BindingId>) {
        if let Some(entry) = self.sites.get_mut(variable.index()) {
            *entry = site;
        }
    }

    fn site_of(&self, variable: VarId) -> Option<BindingId> {
        match self.sites.get(variable.index()) {
            Some(site) => *site,
            None => None,
        }
    }

    // The number of the next call of a constructor among the impure ones: 0 where it is pure.
    fn next_call(&mut self, pure: bool) -> u32 {
        if pure {
            return 0;
        }
        self.impure = self.impure.saturating_add(1);
        self.impure
    }
}

impl<'a> KnownSites<'a> {
    /// These sites.
    pub fn new(
        alloc: Global,
        terms: &'a [Term],
        bindings: &[Binding],
    ) -> Result<KnownSites<'a>, AllocError> {
        let mut numbers = HashMap::new(alloc);
        for (number, binding) in bindings.iter().enumerate() {
            if let Ok(site) = BindingId::try_from(number) {
                numbers.insert(binding.clone()?, site)?;
            }
        }
        Ok(KnownSites {
            alloc,
            terms,
            numbers,
        })
    }

    /// The site of each variable of a rule that these sites come from, by the variables' ids. None where no site is its value.
    pub fn of_rule(&self, rule: &Rule) -> Result<Vec<Option<BindingId>>, AllocError> {
        let mut sites = Vec::new(self.alloc);
        for _ in &rule.vars {
            sites.push(None)?;
        }
        let mut found = Found { sites, impure: 0 };
        self.note_arguments(&rule.args, &mut found);
        for iflet in &rule.iflets {
            let value = self.value_of(&iflet.rhs, &mut found)?;
            self.note_pattern(&iflet.lhs, &value, &mut found);
        }
        let _result = self.value_of(&rule.rhs, &mut found)?;
        found.sites.clone()
    }

    fn find(&self, binding: &Binding) -> Option<BindingId> {
        self.numbers.get(binding).copied()
    }

    fn note_arguments(&self, arguments: &[Pattern], found: &mut Found) {
        for (place, argument) in arguments.iter().enumerate() {
            if let Ok(index) = TupleIndex::try_from(place) {
                let site = self.find(&Binding::Argument { index });
                self.note_pattern(argument, &site, found);
            }
        }
    }

    #[cycle(patterns)]
    fn note_pattern(&self, pattern: &Pattern, site: &Option<BindingId>, found: &mut Found) {
        match pattern {
            Pattern::BindPattern(_, variable, inner) => {
                found.note(*variable, *site);
                self.note_pattern(inner, site, found);
            }
            Pattern::Term(_, term, parts) => self.note_parts(*term, parts, site, found),
            Pattern::And(_, parts) => {
                for part in parts {
                    self.note_pattern(part, site, found);
                }
            }
            Pattern::Var(..)
            | Pattern::ConstBool(..)
            | Pattern::ConstInt(..)
            | Pattern::ConstPrim(..)
            | Pattern::Wildcard(..) => {}
        }
    }

    #[cycle(patterns)]
    fn note_parts(
        &self,
        term: TermId,
        parts: &[Pattern],
        site: &Option<BindingId>,
        found: &mut Found,
    ) {
        for (place, part) in parts.iter().enumerate() {
            let inner = self.part_of(term, site, place, parts.len());
            self.note_pattern(part, &inner, found);
        }
    }

    // The site of one of so many parts of a value that a term takes apart.
    fn part_of(
        &self,
        term: TermId,
        site: &Option<BindingId>,
        place: usize,
        count: usize,
    ) -> Option<BindingId> {
        let source = (*site)?;
        let field = TupleIndex::try_from(place).ok()?;
        match &self.terms.get(term.index())?.kind {
            TermKind::EnumVariant { variant } => self.find(&Binding::MatchVariant {
                source,
                variant: *variant,
                field,
            }),
            TermKind::Struct => self.find(&Binding::ExtractStruct { source, field }),
            TermKind::Decl { .. } => {
                let call = self.find(&Binding::Extractor {
                    term,
                    parameter: source,
                })?;
                let answer = self.value_in(call);
                if count == 1 {
                    return Some(answer);
                }
                self.find(&Binding::MatchTuple {
                    source: answer,
                    field,
                })
            }
        }
    }

    // The site of what a call gives: each of its values, the one in its answer, or the answer itself.
    fn value_in(&self, call: BindingId) -> BindingId {
        if let Some(each) = self.find(&Binding::Iterator { source: call }) {
            return each;
        }
        match self.find(&Binding::MatchSome { source: call }) {
            Some(value) => value,
            None => call,
        }
    }

    // The site of an expression's value. The variables of lets are noted.
    #[cycle(exprs)]
    fn value_of(&self, expr: &Expr, found: &mut Found) -> Result<Option<BindingId>, AllocError> {
        match expr {
            Expr::Term(ty, term, arguments) => {
                let Some(parts) = self.values_of(arguments, found)? else {
                    return Ok(None);
                };
                Ok(self.made_of(*ty, *term, parts, found))
            }
            Expr::Var(_, variable) => Ok(found.site_of(*variable)),
            Expr::ConstBool(ty, val) => Ok(self.find(&Binding::ConstBool { val: *val, ty: *ty })),
            Expr::ConstInt(ty, val) => Ok(self.find(&Binding::ConstInt { val: *val, ty: *ty })),
            Expr::ConstPrim(_, val) => Ok(self.find(&Binding::ConstPrim { val: *val })),
            Expr::Let { bindings, body, .. } => {
                self.note_bindings(bindings, found)?;
                self.value_of(body, found)
            }
        }
    }

    // The sites of the values of arguments, if each has one.
    #[cycle(exprs)]
    fn values_of(
        &self,
        arguments: &[Expr],
        found: &mut Found,
    ) -> Result<Option<Vec<BindingId>>, AllocError> {
        let mut values = Vec::new(self.alloc);
        for argument in arguments {
            let Some(value) = self.value_of(argument, found)? else {
                return Ok(None);
            };
            values.push(value)?;
        }
        Ok(Some(values))
    }

    #[cycle(exprs)]
    fn note_bindings(
        &self,
        bindings: &[(VarId, TypeId, Box<Expr>)],
        found: &mut Found,
    ) -> Result<(), AllocError> {
        for binding in bindings {
            let value = self.value_of(&binding.2, found)?;
            found.note(binding.0, value);
        }
        Ok(())
    }

    // The site of what a term makes of these values.
    fn made_of(
        &self,
        ty: TypeId,
        term: TermId,
        parts: Vec<BindingId>,
        found: &mut Found,
    ) -> Option<BindingId> {
        match &self.terms.get(term.index())?.kind {
            TermKind::EnumVariant { variant } => self.find(&variant_of(ty, *variant, parts)),
            TermKind::Struct => self.find(&Binding::MakeStruct { ty, fields: parts }),
            TermKind::Decl { flags, .. } => {
                let call = self.find(&Binding::Constructor {
                    term,
                    parameters: parts,
                    instance: found.next_call(flags.pure),
                })?;
                Some(self.value_in(call))
            }
        }
    }
}

fn variant_of(ty: TypeId, variant: VariantId, fields: Vec<BindingId>) -> Binding {
    Binding::MakeVariant {
        ty,
        variant,
        fields,
    }
}
