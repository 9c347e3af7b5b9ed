//! How the rules of a list are typed, one after another and each within the limits on expansions.

ghost use Rattle.std.specs.Prelude.{◌≡◌, [], ◌++◌, IfOk, OnOk, option_map};
ghost use Rattle.core_syntax.specs.SyntaxViews.{position, definition_view, definition_views, rule_view as tree_view};
ghost use Rattle.model.specs.lists.TermTable.{rule_of, rule_trees};
ghost use Rattle.core_types.specs.Envs.{IsInterned};
ghost use Rattle.core_rules.specs.RuleListTaking.{DoesRule, DoesRules};
ghost use Rattle.core_typed.specs.RuleViews.{rule_view, rule_views};
ghost use Rattle.core_rules.specs.ShownSettings.{Keeps};
ghost use Rattle.core_syntax.specs.Positions.{NotesAt, OccurAmong, rule_positions, definition_positions, positions_of};
ghost use Rattle.core_rules.specs.RulePositions.{with_templates, StandsIf};
ghost use Rattle.core_typed.specs.RuleNaming.{rules_at};

use crate::term_env::TermEnv;
use crate::typing::progress::Progress;
use core_syntax::syntax;
use core_syntax::syntax::Def;
use core_typed::Rule;
use core_types::{RuleId, TypeEnv};
use std::alloc::AllocError;

// How many expansions may nest in one another, so that those that never end are cut off.
const MOST_NESTED: usize = 256;

impl TermEnv {
    // A rule with this id, from the names met before it, where nothing was noted yet. A limit that it passes ends the work on
    // it, and is noted at its place. Upstream has no such limit.
    fn type_rule(
        &self,
        tyenv: &mut TypeEnv,
        work: &mut Progress,
        rule: &syntax::Rule,
        id: RuleId,
    ) -> Result<Option<Rule>, AllocError>
        requires inverse { IsInterned tyenv.old }
        requires nothing { work.old.errors.items ≡ [] }
        ensures keeps { Keeps tyenv.old tyenv.new }
        ensures places { OnOk result (NotesAt (with_templates self.now (rule_positions (tree_view rule.now))) work.old.errors.items work.new.errors.items) }
        ensures exact { IfOk result (λ o. DoesRule self.now tyenv.old tyenv.new (tree_view rule.now) id.0 (option_map rule_view o)
            work.old.errors.items work.new.errors.items) }
        ensures stands { IfOk result (StandsIf (position rule.now.pos)) }
    {
        work.begin();
        match self.translate_rule(tyenv, work, rule, id, MOST_NESTED) {
            Ok(made) => Ok(made),
            Err(stop) => {
                stop.report(&mut work.errors, rule.pos)?;
                Ok(None)
            }
        }
    }

    // The same, and what it notes comes behind what was noted before.
    fn collect_rule(
        &self,
        tyenv: &mut TypeEnv,
        work: &mut Progress,
        rule: &syntax::Rule,
        id: RuleId,
    ) -> Result<Option<Rule>, AllocError>
        requires { IsInterned tyenv.old }
        ensures keeps { Keeps tyenv.old tyenv.new }
        ensures places { OnOk result (NotesAt (with_templates self.now (rule_positions (tree_view rule.now))) work.old.errors.items work.new.errors.items) }
        ensures exact { IfOk result (λ o. DoesRule self.now tyenv.old tyenv.new (tree_view rule.now) id.0 (option_map rule_view o)
            work.old.errors.items work.new.errors.items) }
        ensures stands { IfOk result (StandsIf (position rule.now.pos)) }
    {
        let none = Vec::new(*self.terms.allocator());
        let mut errors = std::mem::replace(&mut work.errors, none);
        let made = self.type_rule(tyenv, work, rule, id)?;
        errors.append(&mut work.errors)?;
        work.errors = errors;
        Ok(made)
    }

    // The rule that a definition is, if it is one and can be typed, becomes the next one.
    fn collect_definition(
        &self,
        tyenv: &mut TypeEnv,
        work: &mut Progress,
        def: &Def,
        rules: &mut Vec<Rule>,
    ) -> Result<(), AllocError>
        requires { IsInterned tyenv.old }
        ensures keeps { Keeps tyenv.old tyenv.new }
        ensures exact { OnOk result (DoesRules self.now tyenv.old tyenv.new (rule_of (definition_view def.now)) (rule_views rules.old.items)
            (rule_views rules.new.items) work.old.errors.items work.new.errors.items) }
        ensures places { OnOk result (NotesAt (with_templates self.now (definition_positions
            (definition_view def.now))) work.old.errors.items work.new.errors.items) }
        ensures stand { OnOk result (OccurAmong (rules_at (rule_views rules.new.items)) (rules_at
            (rule_views rules.old.items) ++ definition_positions (definition_view def.now))) }
    {
        let Def::Rule(rule) = def else {
            return Ok(());
        };
        let id = RuleId(rules.len());
        let Some(made) = self.collect_rule(tyenv, work, rule, id)? else {
            return Ok(());
        };
        rules.push(made)?;
        Ok(())
    }

    /// The typed rules of a list of definitions, in order, by these tables and from the names that `tyenv` has met. What
    /// is wrong is noted in `work`, as is a limit that a rule passes, and the work goes on with the next rule; a term
    /// without a constructor is noted after all rules. Upstream's first pass of `TermEnv::collect_rules`.
    ///
    /// # Errors
    ///
    /// Where memory is refused.
    pub(crate) fn collect_rules(
        &self,
        tyenv: &mut TypeEnv,
        work: &mut Progress,
        defs: &[Def],
    ) -> Result<Vec<Rule>, AllocError>
        requires { IsInterned tyenv.old }
        ensures keeps { Keeps tyenv.old tyenv.new }
        ensures exact { IfOk result (λ v. DoesRules self.now tyenv.old tyenv.new (rule_trees (definition_views defs.now)) [] (rule_views v.items)
            work.old.errors.items work.new.errors.items) }
        ensures places { OnOk result (NotesAt (with_templates self.now (positions_of
            (definition_views defs.now))) work.old.errors.items work.new.errors.items) }
        ensures stand { IfOk result (λ v. OccurAmong (rules_at (rule_views v.items)) (positions_of (definition_views defs.now))) }
    {
        let mut rules = Vec::with_capacity(*self.terms.allocator(), defs.len())?;
        for def in defs {
            self.collect_definition(tyenv, work, def, &mut rules)?;
        }
        Ok(rules)
    }
}
