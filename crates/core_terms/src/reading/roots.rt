//! How the terms that rules are of are read: such a term is made by its rules.

ghost use Rattle.std.specs.Prelude.{◌≡◌, [], ◌∷◌, OnOk, is_none, true, false};
ghost use Rattle.model.specs.claims.Environments.{TypesRead, AreReadable};
ghost use Rattle.core_syntax.specs.Positions.{NotesAt, definition_positions, positions_of};
ghost use Rattle.core_syntax.specs.SyntaxViews.{definition_view, definition_views, position, rule_view};
ghost use Rattle.core_terms.specs.Reading.{IsWithin};
ghost use Rattle.core_terms.specs.TermBreaches.{of_definitions};
ghost use Rattle.core_terms.specs.Signing.{ReadsTerms};
ghost use Rattle.core_terms.specs.ReadTerms.{is_declared_kind, RootsRead, ReadsRuleRoot, ReadsIfRule};
ghost use Rattle.core_terms.specs.TermViews.{term_view};
ghost use Rattle.core_terms.specs.TermPositions.{table_positions, IsPlacedAmong};

use crate::reading::set_internal;
use crate::term::{Term, TermKind};
use crate::term_table::TermTable;
use core_syntax::syntax::{Def, Error, Rule};
use core_types::{TypeEnv, report, report_name};
use core_why::{Why, Wrong};
use std::alloc::AllocError;

impl TermTable {
    // Reads which terms all rules are of.
    pub(crate) fn read_roots(
        &mut self,
        tyenv: &TypeEnv,
        errors: &mut Vec<Error>,
        defs: &[Def],
    ) -> Result<(), AllocError>
        ghost read: { TypesRead }
        requires readable { AreReadable read }
        requires start { ReadsTerms read of_definitions (definition_views defs.now)
            (RootsRead read (definition_views defs.now) []) tyenv.now self.old errors.old.items }
        ensures reads { OnOk result (ReadsTerms read of_definitions (definition_views defs.now)
            (RootsRead read (definition_views defs.now) (definition_views defs.now)) tyenv.now self.new errors.new.items) }
        ensures places { OnOk result (NotesAt (positions_of (definition_views defs.now)) errors.old.items errors.new.items) }
        ensures placed { OnOk result (IsPlacedAmong (table_positions self.old) self.new) }
    {
        for def in defs {
            self.read_if_rule(tyenv, errors, def)?;
        }
        Ok(())
    }

    // Reads which term a definition is a rule of, if it is one.
    #[tactic(auto, using(core_syntax::proofs::Positioned::notes_nothing))]
    fn read_if_rule(
        &mut self,
        tyenv: &TypeEnv,
        errors: &mut Vec<Error>,
        def: &Def,
    ) -> Result<(), AllocError>
        requires { IsWithin self.old }
        ensures within { OnOk result (IsWithin self.new) }
        ensures reads { OnOk result (ReadsIfRule (definition_view def.now) tyenv.now self.old errors.old.items self.new errors.new.items) }
        ensures places { OnOk result (NotesAt (definition_positions (definition_view def.now)) errors.old.items errors.new.items) }
        ensures placed { OnOk result (IsPlacedAmong (table_positions self.old) self.new) }
    {
        let Def::Rule(rule) = def else {
            return Ok(());
        };
        self.read_root(tyenv, errors, rule)
    }

    // Reads which term a rule is of: a declared one.
    #[tactic(auto, using(core_syntax::proofs::Positioned::notes_nothing))]
    fn read_root(
        &mut self,
        tyenv: &TypeEnv,
        errors: &mut Vec<Error>,
        rule: &Rule,
    ) -> Result<(), AllocError>
        requires { IsWithin self.old }
        ensures within { OnOk result (IsWithin self.new) }
        ensures reads { OnOk result (ReadsRuleRoot (rule_view rule.now) tyenv.now self.old errors.old.items self.new errors.new.items) }
        ensures places { OnOk result (NotesAt (position rule.now.pos ∷ []) errors.old.items errors.new.items) }
        ensures placed { OnOk result (IsPlacedAmong (table_positions self.old) self.new) }
    {
        let Some(root) = rule.pattern.root_term() else {
            return report(errors, rule.pos, Why::NoRoot);
        };
        let Some(id) = self.find_term(tyenv, root) else {
            return report_name(errors, rule.pos, Wrong::UndeclaredRoot, &root.0);
        };
        if let Some(wrong) = why_no_root(&self.terms[id.index()]) {
            return report_name(errors, rule.pos, wrong, &root.0);
        }
        set_internal(&mut self.terms[id.index()]);
        Ok(())
    }
}

// Why a term can't have rules, or None where it can: it is a declared one.
fn why_no_root(term: &Term) -> Option<Wrong>
    ensures { is_none result ≡ is_declared_kind (term_view term.now).kind }
{
    match &term.kind {
        TermKind::Decl { .. } => None,
        TermKind::EnumVariant { .. } => Some(Wrong::RootOfVariant),
        TermKind::Struct => Some(Wrong::RootOfStruct),
    }
}
