//! The table of terms and rules.

ghost use Rattle.core_syntax.specs.Answers.{Answers, OnErrors};
ghost use Rattle.core_syntax.specs.Positions.{ErrorStandsAt, positions_of};
ghost use Rattle.core_syntax.specs.SyntaxViews.{definition_views};
ghost use Rattle.model.specs.claims.Environments.{TypesRead, AreReadable, AreRulesOf, HasTypedRules, IsLeftByRefusal, IsReadAs};
ghost use Rattle.model.specs.claims.Questions.{variant_by_id};
ghost use Rattle.model.specs.claims.Refusals.{NamesOnlyPassed, PassedInReading, RefusesRules};
ghost use Rattle.model.specs.lists.Elaborated.{TypedRules};
ghost use Rattle.core_types.specs.Envs.{symbol_of};
ghost use Rattle.core_types.specs.EnvViews.{environment_view};
ghost use Rattle.core_types.specs.TypeViews.{type_views};
ghost use Rattle.core_terms.specs.ShownTables.{shown_by};
ghost use Rattle.core_syntax.specs.ErrorViews.{error_views};
ghost use Rattle.core_rules.specs.LimitsNamed.{NamesTypedPastLimits, NamesFirstPastLimits};
ghost use Rattle.laws_typing.specs.ReadLimits.{NonePassedInReading};
ghost use Rattle.core_rules.specs.RuleBreaches.{FirstBreaksRules};
ghost use Rattle.core_rules.specs.RulesTold.{TellsReading};
ghost use Rattle.core_rules.specs.ShownEnvs.{terms_shown_by, environment_shown_by};
ghost use Rattle.core_types.specs.TypePositions.{types_positions};
ghost use Rattle.core_rules.specs.TermEnvs.{term_in_env, rule_in_env, variant_term_in};
ghost use Rattle.std.specs.Prelude.{◌≡◌, ◌++◌, All, Some, IsSome, IfOk, OnErr, option_map, option_and_then, string_bytes};

use core_syntax::stablemapset::StableMap;
use core_syntax::syntax::{Def, Fault, Ident};
use core_terms::{Term, TermTable};
use core_typed::{Rule, UsedTerms};
use core_types::{RuleId, Sym, TermId, TypeEnv, TypeId, VariantId, VariantTerms};
use std::alloc::{AllocError, Global};

/// All terms, and all rules in typed form: what the meaning of a list of definitions is read from.
#[derive(Debug)]
pub struct TermEnv {
    /// The terms, by their ids.
    pub terms: Vec<Term>,
    /// Each term's id by its name.
    pub term_map: StableMap<Sym, TermId>,
    /// The rules, by their ids.
    pub rules: Vec<Rule>,
    /// Each named rule's id by its name.
    pub rule_map: StableMap<Sym, RuleId>,
    /// The term that converts the first type into the second, where there is one.
    pub converters: StableMap<(TypeId, TypeId), TermId>,
    /// Whether internal extractors are replaced by their templates in `rules`.
    pub expand_internal_extractors: bool,
}

impl TermEnv {
    /// The terms and the typed rules of a list of definitions, of all forms, by any types that are handed in as
    /// `tyenv`, a well-formed environment: that of `TypeEnv::from_ast` for the same list is one.
    /// `expand_internal_extractors` says whether the templates of internal extractors take the place of their uses in
    /// patterns. The i-th rule, from 0, is rule i. An unnamed rule that is the only one of its term has the term's
    /// name. Upstream's `TermEnv::from_ast`.
    ///
    /// Names are added to those of `tyenv`, and nothing else of it changes: those of terms as `TermTable::from_ast` adds
    /// them, then rule by rule those of its variables and constants as they are met, and its own name last.
    ///
    /// # Errors
    ///
    /// `Errors` has all that is wrong with the terms, as `TermTable::from_ast` says. Where nothing is, it has all that is
    /// wrong with the rules: what typing them finds, rule by rule, a limit on expansions that a rule passes with the
    /// place of the rule; then each rule with a name that an earlier rule has; then each declared term without rules,
    /// external constructor and extractor; then each use of a term without a constructor in an expression.
    /// Each rule that lacks nothing but the limits on expansions is named with one of these.
    /// A rule whose reading comes to such a limit before anything in it is wrong has that limit as its only error while rules are
    /// typed; one in which something is wrong before has first what says so, and a limit at most behind it.
    /// `Memory` where memory is refused. Each error stands at positions that occur in the definitions or that the types of
    /// `tyenv` keep. The first error stands where a condition of this is broken: where the terms are valid, at the first rule
    /// that can't be typed, or in a template that is expanded; where all can, at the first rule whose name is taken; else at the
    /// first declaration of a term that isn't defined; else at the first rule that uses a term without a constructor.
    pub fn from_ast(
        alloc: Global,
        tyenv: &mut TypeEnv,
        defs: &[Def],
        expand_internal_extractors: bool,
    ) -> Result<TermEnv, Fault>
        ghost read: { TypesRead }
        requires readable { AreReadable read }
        requires types { IsReadAs (environment_view tyenv.old) read }
        ensures answers { Answers result (HasTypedRules read (definition_views defs.now) expand_internal_extractors)
            (λ env. (rules : TypedRules) × AreRulesOf read (definition_views defs.now) expand_internal_extractors rules (environment_shown_by env) (environment_view tyenv.new)) }
        ensures within_limits { IfOk result (λ env. NonePassedInReading read (definition_views defs.now) expand_internal_extractors) }
        ensures left { OnErr result (IsLeftByRefusal read (environment_view tyenv.new)) }
        ensures limits { OnErrors result (λ es. NamesOnlyPassed (PassedInReading read (definition_views defs.now) expand_internal_extractors)
            (error_views es)) }
        ensures named { OnErrors result (λ es. NamesTypedPastLimits read (definition_views defs.now) expand_internal_extractors (error_views es)) }
        ensures first { OnErrors result (λ es. NamesFirstPastLimits read (definition_views defs.now) expand_internal_extractors (error_views es)) }
        ensures refused { OnErrors result (λ es. RefusesRules read (definition_views defs.now) expand_internal_extractors (error_views es)) }
        ensures places { OnErrors result (All (ErrorStandsAt (positions_of (definition_views defs.now) ++ types_positions read.known.types))) }
        ensures breach { OnErrors result (FirstBreaksRules read (definition_views defs.now) expand_internal_extractors) }
        ensures told { OnErrors result (TellsReading read (definition_views defs.now) expand_internal_extractors) }
    {
        let table = TermTable::from_ast(alloc, tyenv, defs)?;
        let mut env = TermEnv::with_terms(alloc, table, expand_internal_extractors);
        let errors = env.read_rules(tyenv, defs)?;
        if !errors.is_empty() {
            return Err(Fault::Errors(errors));
        }
        Ok(env)
    }

    // The terms of a table, and no rules yet.
    fn with_terms(alloc: Global, table: TermTable, expand_internal_extractors: bool) -> TermEnv
        ensures terms { terms_shown_by result ≡ shown_by table }
        ensures expand { result.expand_internal_extractors ≡ expand_internal_extractors }
    {
        let TermTable {
            terms,
            term_map,
            converters,
        } = table;
        TermEnv {
            terms,
            term_map,
            rules: Vec::new(alloc),
            rule_map: StableMap::new(alloc),
            converters,
            expand_internal_extractors,
        }
    }

    /// The term of a name, or None where the name is no term's. `tyenv` is the environment that the terms
    /// were read with. Takes no memory. Upstream's `TermEnv::get_term_by_name`.
    pub fn get_term_by_name(&self, tyenv: &TypeEnv, name: &Ident) -> Option<TermId>
        ensures { option_map (λ t. t.0) result ≡ option_and_then (term_in_env self.now) (symbol_of tyenv.now (string_bytes name.now.0)) }
    {
        let sym = tyenv.intern(name)?;
        self.term_map.get(&sym).copied()
    }

    /// The rule of a name, or None where the name is no rule's. `tyenv` is the environment that the rules
    /// were read with. Takes no memory. Upstream's `TermEnv::get_rule_by_name`.
    pub fn get_rule_by_name(&self, tyenv: &TypeEnv, name: &Ident) -> Option<RuleId>
        ensures { option_map (λ r. r.0) result ≡ option_and_then (rule_in_env self.now) (symbol_of tyenv.now (string_bytes name.now.0)) }
    {
        let sym = tyenv.intern(name)?;
        self.rule_map.get(&sym).copied()
    }

    /// The term of a variant, by the ids of the enum and of the variant. Condition: the type is an enum of
    /// `tyenv` and has that variant, whose full name is a term's here, as in each environment that `tyenv`
    /// was read with. Takes no memory. Upstream's `TermEnv::get_variant_term`.
    pub fn get_variant_term(&self, tyenv: &TypeEnv, ty: TypeId, variant: VariantId) -> TermId
        requires variant { IsSome (variant_by_id (type_views tyenv.now.types.items) ty.0 variant.0) }
        requires term { IsSome (variant_term_in self.now tyenv.now ty.0 variant.0) }
        ensures { Some result.0 ≡ variant_term_in self.now tyenv.now ty.0 variant.0 }
    {
        let variant = tyenv.get_variant(ty, variant);
        self.term_map[&variant.fullname]
    }

    /// Another environment that shows the same. Stands for upstream's `Clone`, since memory can be refused.
    ///
    /// # Errors
    ///
    /// Where memory is refused.
    pub fn clone(&self) -> Result<TermEnv, AllocError>
        ensures { IfOk result (λ copy. environment_shown_by copy ≡ environment_shown_by self.now) }
    {
        Ok(TermEnv {
            terms: self.terms.clone()?,
            term_map: self.term_map.clone()?,
            rules: self.rules.clone()?,
            rule_map: self.rule_map.clone()?,
            converters: self.converters.clone()?,
            expand_internal_extractors: self.expand_internal_extractors,
        })
    }
}

// What crates below ask of an environment of terms.
impl VariantTerms for TermEnv {
    ghost use Rattle.core_rules.specs.TermEnvs.{term_in_env};

    ghost term_of_name = { term_in_env };

    fn get_variant_term(&self, tyenv: &TypeEnv, ty: TypeId, variant: VariantId) -> TermId {
        TermEnv::get_variant_term(self, tyenv, ty, variant)
    }
}

impl UsedTerms for TermEnv {
    ghost use Rattle.core_terms.specs.TermViews.{term_views};

    ghost term_entries = { λ env. term_views env.terms.items };

    #[tactic(auto, using(crate::proofs::UsedTerms::entry_at))]
    fn used_term(&self, term: TermId) -> &Term {
        match self.terms.get(term.index()) {
            Some(found) => found,
            None => unreachable!(),
        }
    }
}

// Written out, and so proved here once.
impl Drop for TermEnv {
    fn drop(self) {
        let TermEnv {
            terms: _,
            term_map: _,
            rules: _,
            rule_map: _,
            converters: _,
            expand_internal_extractors: _,
        } = self;
    }
}
