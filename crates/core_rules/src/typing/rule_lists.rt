//! How all rules of a list are read by its terms.

ghost use Rattle.std.specs.Prelude.{◌≡◌, [], ◌++◌, IfOk};
ghost use Rattle.core_syntax.specs.SyntaxViews.{definition_views};
ghost use Rattle.model.specs.lists.TermTable.{rule_trees};
ghost use Rattle.core_types.specs.Envs.{IsInterned};
ghost use Rattle.core_rules.specs.RuleBreaches.{BeginsWrong};
ghost use Rattle.core_rules.specs.RuleListTaking.{SaysSteps};
ghost use Rattle.core_rules.specs.RulesRead.{ReadsRules};
ghost use Rattle.core_rules.specs.ShownEnvs.{terms_shown_by};
ghost use Rattle.core_rules.specs.ShownSettings.{Keeps};
ghost use Rattle.core_syntax.specs.Positions.{NotesAt, positions_of};
ghost use Rattle.core_terms.specs.TermPositions.{terms_positions};
ghost use Rattle.core_terms.specs.TermViews.{term_views};

use crate::term_env::TermEnv;
use crate::typing::progress::Progress;
use core_syntax::syntax::{Def, Error};
use core_typed::rule_names::{check_defined, map_names, name_rules};
use core_types::TypeEnv;
use std::alloc::AllocError;

impl TermEnv {
    /// Types all rules and gives them their names, where there are none yet: what is wrong with them, then with their
    /// names, then with what the terms are defined by.
    ///
    /// # Errors
    ///
    /// Where memory is refused.
    pub(crate) fn read_rules(
        &mut self,
        tyenv: &mut TypeEnv,
        defs: &[Def],
    ) -> Result<Vec<Error>, AllocError>
        requires { IsInterned tyenv.old }
        ensures keeps { Keeps tyenv.old tyenv.new }
        ensures terms { terms_shown_by self.new ≡ terms_shown_by self.old }
        ensures expand { self.new.expand_internal_extractors ≡ self.old.expand_internal_extractors }
        ensures reads { IfOk result (λ v. ReadsRules self.old tyenv.old tyenv.new (definition_views defs.now) self.new v.items) }
        ensures exact { IfOk result (λ v. SaysSteps self.old tyenv.old (rule_trees (definition_views defs.now)) v.items) }
        ensures breach { IfOk result (λ v. BeginsWrong self.old tyenv.old (rule_trees (definition_views defs.now)) [] v.items) }
        ensures places { IfOk result (λ v. NotesAt (positions_of (definition_views defs.now) ++ terms_positions (term_views self.old.terms.items)) [] v.items) }
    {
        let alloc = *self.terms.allocator();
        let mut work = Progress::new(alloc, Vec::new(alloc));
        let mut rules = self.collect_rules(tyenv, &mut work, defs)?;
        let made = self.rules_call_made(&rules);
        let mut errors = std::mem::replace(&mut work.errors, Vec::new(alloc));
        name_rules(&self.terms, &mut rules)?;
        let rule_map = map_names(alloc, tyenv, &rules, &mut errors)?;
        check_defined(tyenv, &self.terms, &mut errors)?;
        self.check_constructors(tyenv, &mut errors, defs, made)?;
        self.rules = rules;
        self.rule_map = rule_map;
        Ok(errors)
    }
}
