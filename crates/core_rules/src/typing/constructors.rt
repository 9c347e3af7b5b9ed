//! Whether the terms that the expressions of rules use have constructors: looked at after all rules, as upstream does.

ghost use Rattle.std.specs.Prelude.{◌≡◌, [], ◌∷◌, All, Decides, IsTrue, OnOk, map, string_bytes};
ghost use Rattle.std.specs.List.{flat_map};
ghost use Rattle.core_syntax.specs.Expressions.{terms_of_expr};
ghost use Rattle.core_syntax.specs.Places.{term_view};
ghost use Rattle.core_syntax.specs.SyntaxViews.{position, definition_view, definition_views, expr_view, iflet_view, rule_view};
ghost use Rattle.model.specs.lists.TermTable.{rule_trees};
ghost use Rattle.model.specs.rules.CalledTerms.{CallsAlone, CallAlone, LetsCallAlone};
ghost use Rattle.core_syntax.specs.NotedErrors.{MayNoteMore};
ghost use Rattle.core_terms.specs.TermViews.{term_views};
ghost use Rattle.core_rules.specs.Constructors.{has_constructor_if_there, uses_of_rule, uses_of_definition, AreFoundMade, IsMadeTerm, IfLetCallsMade, CallsMade, ChecksUnless};
ghost use Rattle.core_rules.specs.RuleBreaches.{UsesUnmade};
ghost use Rattle.core_typed.specs.Elaborating.{Checks};
ghost use Rattle.core_typed.specs.ExprViews.{expr_view as typed_view, expr_views as typed_views, expr_parts, let_parts, let_views};
ghost use Rattle.core_typed.specs.FirstErrors.{MayBegin};
ghost use Rattle.core_typed.specs.RuleViews.{iflet_view as typed_iflet_view, rule_view as typed_rule_view, rule_views};
ghost use Rattle.core_rules.specs.PatternUses.{found_term};
ghost use Rattle.core_syntax.specs.Positions.{NotesAt, expr_positions, iflet_positions, rule_positions, definition_positions, positions_of};

use crate::term_env::TermEnv;
use core_syntax::syntax::{Def, Error, Expr, Ident, IfLet, Pos, Rule};
use core_typed as typed;
use core_types::{TermId, TypeEnv, TypeId, VarId, report_name};
use core_why::Wrong;
use std::alloc::AllocError;

impl TermEnv {
    // Whether a name is no term's, or that of a term with a constructor; else this is noted.
    #[tactic(auto, using(core_syntax::proofs::Positioned::notes_nothing))]
    fn check_use(
        &self,
        tyenv: &TypeEnv,
        errors: &mut Vec<Error>,
        pos: Pos,
        name: &Ident,
    ) -> Result<(), AllocError>
        ensures checks { OnOk result (Checks errors.old.items errors.new.items (IsTrue (has_constructor_if_there (found_term self.now tyenv.now (string_bytes name.now.0))))) }
        ensures places { OnOk result (NotesAt (position pos ∷ []) errors.old.items errors.new.items) }
    {
        let Some(term) = self.find_term(tyenv, name) else {
            return Ok(());
        };
        if term.has_constructor() {
            return Ok(());
        }
        report_name(errors, pos, Wrong::NoConstructor, &name.0)
    }

    // The same of each of these uses.
    fn check_uses(
        &self,
        tyenv: &TypeEnv,
        errors: &mut Vec<Error>,
        uses: &[(Pos, &Ident)],
    ) -> Result<(), AllocError>
        ensures checks { OnOk result (Checks errors.old.items errors.new.items (AreFoundMade self.now tyenv.now (map (λ t. term_view t.0 t.1.now) uses.now))) }
        ensures places { OnOk result (NotesAt (map (λ t. position t.0) uses.now) errors.old.items errors.new.items) }
    {
        for used in uses {
            self.check_use(tyenv, errors, used.0, used.1)?;
        }
        Ok(())
    }

    // The same of what an expression uses.
    fn check_expr(
        &self,
        tyenv: &TypeEnv,
        errors: &mut Vec<Error>,
        expr: &Expr,
    ) -> Result<(), AllocError>
        ensures checks { OnOk result (Checks errors.old.items errors.new.items (AreFoundMade self.now tyenv.now (terms_of_expr (expr_view expr.now)))) }
        ensures places { OnOk result (NotesAt (expr_positions (expr_view expr.now)) errors.old.items errors.new.items) }
    {
        let mut uses = Vec::new(*errors.allocator());
        expr.terms(&mut uses)?;
        self.check_uses(tyenv, errors, &uses)
    }

    // The same of what the expressions of if-lets use.
    fn check_iflets(
        &self,
        tyenv: &TypeEnv,
        errors: &mut Vec<Error>,
        iflets: &[IfLet],
    ) -> Result<(), AllocError>
        ensures checks { OnOk result (Checks errors.old.items errors.new.items (AreFoundMade self.now tyenv.now (flat_map
            (λ i. terms_of_expr i.expr) (map iflet_view iflets.now)))) }
        ensures places { OnOk result (NotesAt (flat_map iflet_positions (map iflet_view iflets.now)) errors.old.items errors.new.items) }
    {
        for iflet in iflets {
            self.check_expr(tyenv, errors, &iflet.expr)?;
        }
        Ok(())
    }

    // The same of what a rule's expressions use.
    fn check_rule(
        &self,
        tyenv: &TypeEnv,
        errors: &mut Vec<Error>,
        rule: &Rule,
    ) -> Result<(), AllocError>
        ensures checks { OnOk result (Checks errors.old.items errors.new.items (AreFoundMade self.now tyenv.now (uses_of_rule (rule_view rule.now)))) }
        ensures places { OnOk result (NotesAt (rule_positions (rule_view rule.now)) errors.old.items errors.new.items) }
    {
        self.check_iflets(tyenv, errors, &rule.iflets)?;
        self.check_expr(tyenv, errors, &rule.expr)
    }

    // The same of the rule that a definition is, if it is one.
    #[tactic(auto, using(core_syntax::proofs::Positioned::notes_nothing))]
    fn check_definition(
        &self,
        tyenv: &TypeEnv,
        errors: &mut Vec<Error>,
        def: &Def,
    ) -> Result<(), AllocError>
        ensures checks { OnOk result (Checks errors.old.items errors.new.items (AreFoundMade self.now tyenv.now (uses_of_definition
            (definition_view def.now)))) }
        ensures places { OnOk result (NotesAt (definition_positions (definition_view def.now)) errors.old.items errors.new.items) }
    {
        let Def::Rule(rule) = def else {
            return Ok(());
        };
        self.check_rule(tyenv, errors, rule)
    }

    // The same of all rules: rule by rule, what if-lets use first.
    fn check_definitions(
        &self,
        tyenv: &TypeEnv,
        errors: &mut Vec<Error>,
        defs: &[Def],
    ) -> Result<(), AllocError>
        ensures checks { OnOk result (Checks errors.old.items errors.new.items (AreFoundMade self.now tyenv.now (flat_map uses_of_rule (rule_trees
            (definition_views defs.now))))) }
        ensures places { OnOk result (NotesAt (positions_of (definition_views defs.now)) errors.old.items errors.new.items) }
        ensures breach { OnOk result (MayBegin (UsesUnmade (AreFoundMade self.now tyenv.now) (rule_trees
            (definition_views defs.now))) errors.old.items errors.new.items) }
    {
        for def in defs {
            self.check_definition(tyenv, errors, def)?;
        }
        Ok(())
    }

    /// Notes each term without a constructor where the expressions of rules use it: rule by rule, what if-lets use
    /// first. Upstream's `TermEnv::check_for_expr_terms_without_constructors`, which leaves out if-lets. `made` says whether
    /// each term that the typed rules call has a constructor: where all rules are typed and nothing is wrong so far, what
    /// is used is called, so that no name is looked up again.
    ///
    /// # Errors
    ///
    /// Where memory is refused.
    pub(crate) fn check_constructors(
        &self,
        tyenv: &TypeEnv,
        errors: &mut Vec<Error>,
        defs: &[Def],
        made: bool,
    ) -> Result<(), AllocError>
        ensures checks { OnOk result (ChecksUnless made (AreFoundMade self.now tyenv.now (flat_map uses_of_rule (rule_trees
            (definition_views defs.now)))) errors.old.items errors.new.items) }
        ensures notes { OnOk result (MayNoteMore errors.old.items errors.new.items) }
        ensures places { OnOk result (NotesAt (positions_of (definition_views defs.now)) errors.old.items errors.new.items) }
        ensures breach { OnOk result (MayBegin (UsesUnmade (AreFoundMade self.now tyenv.now) (rule_trees
            (definition_views defs.now))) errors.old.items errors.new.items) }
    {
        if made && errors.is_empty() {
            return Ok(());
        }
        self.check_definitions(tyenv, errors, defs)
    }

    // Whether there is a term of this id, and it has a constructor.
    #[tactic(auto, using(crate::proofs::UsedTerms::entry_at))]
    fn is_made(&self, term: TermId) -> bool
        ensures { Decides result (IsMadeTerm (term_views self.now.terms.items) term.0) }
    {
        match self.terms.get(term.index()) {
            Some(entry) => entry.has_constructor(),
            None => false,
        }
    }

    // Whether each term that a typed expression calls has a constructor.
    #[cycle(calls_made)]
    fn calls_made(&self, expr: &typed::Expr) -> bool
        ensures { Decides result (CallsAlone (IsMadeTerm (term_views self.now.terms.items)) (typed_view expr.now)) }
    {
        match expr {
            typed::Expr::Term(_, term, args) => self.is_made(*term) && self.all_call_made(args),
            typed::Expr::Let { bindings, body, .. } => {
                self.lets_call_made(bindings) && self.calls_made(body)
            }
            typed::Expr::Var(..)
            | typed::Expr::ConstBool(..)
            | typed::Expr::ConstInt(..)
            | typed::Expr::ConstPrim(..) => true,
        }
    }

    // The same of several expressions.
    #[cycle(calls_made)]
    fn all_call_made(&self, exprs: &[typed::Expr]) -> bool
        ensures { Decides result (CallAlone (IsMadeTerm (term_views self.now.terms.items)) (expr_parts (typed_views exprs.now))) }
    {
        for expr in exprs {
            if !self.calls_made(expr) {
                return false;
            }
        }
        true
    }

    // The same of the values of a let's definitions.
    #[cycle(calls_made)]
    fn lets_call_made(&self, bindings: &[(VarId, TypeId, Box<typed::Expr>)]) -> bool
        ensures { Decides result (LetsCallAlone (IsMadeTerm (term_views self.now.terms.items)) (let_parts (let_views bindings.now))) }
    {
        for binding in bindings {
            if !self.calls_made(&binding.2) {
                return false;
            }
        }
        true
    }

    // The same of the expressions of typed if-lets.
    fn iflets_call_made(&self, iflets: &[typed::IfLet]) -> bool
        ensures { Decides result (All (IfLetCallsMade (term_views self.now.terms.items)) (map typed_iflet_view iflets.now)) }
    {
        for iflet in iflets {
            if !self.calls_made(&iflet.rhs) {
                return false;
            }
        }
        true
    }

    // The same of a typed rule.
    fn rule_calls_made(&self, rule: &typed::Rule) -> bool
        ensures { Decides result (CallsMade (term_views self.now.terms.items) (typed_rule_view rule.now)) }
    {
        self.iflets_call_made(&rule.iflets) && self.calls_made(&rule.rhs)
    }

    /// Whether each term that the expressions of these typed rules call has a constructor.
    pub(crate) fn rules_call_made(&self, rules: &[typed::Rule]) -> bool
        ensures { Decides result (All (CallsMade (term_views self.now.terms.items)) (rule_views rules.now)) }
    {
        for rule in rules {
            if !self.rule_calls_made(rule) {
                return false;
            }
        }
        true
    }
}
