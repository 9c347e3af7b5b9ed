//! How declared terms are read: each declaration becomes the next term.

ghost use Rattle.std.specs.Prelude.{◌≡◌, ◌&&◌, [], ◌∷◌, ◌++◌, OnOk};
ghost use Rattle.model.specs.claims.Environments.{TypesRead, AreReadable, IsLeftByRefusal};
ghost use Rattle.core_syntax.specs.Positions.{NotesAt, declaration_positions, definition_positions, positions_of};
ghost use Rattle.core_syntax.specs.SyntaxViews.{decl_view, definition_view, definition_views, position};
ghost use Rattle.core_types.specs.EnvViews.{environment_view};
ghost use Rattle.core_types.specs.Envs.{IsInterned};
ghost use Rattle.core_terms.specs.Reading.{MayIntern};
ghost use Rattle.core_types.specs.VariantReading.{ReportsIf};
ghost use Rattle.core_terms.specs.Reading.{IsWithin};
ghost use Rattle.core_terms.specs.TermBreaches.{of_signatures, FirstStandsAt};
ghost use Rattle.core_terms.specs.Signing.{ReadsTerms, Declaring, ReadsDeclaration, ReadsIfDeclared};
ghost use Rattle.core_terms.specs.TermPositions.{table_positions, IsPlacedAmong};

use crate::reading::meet_name;
use crate::term_table::TermTable;
use core_syntax::syntax::{Decl, Def, Error};
use core_types::{TypeEnv, report_name};
use core_why::Wrong;
use std::alloc::AllocError;

impl TermTable {
    pub(crate) fn read_declarations(
        &mut self,
        tyenv: &mut TypeEnv,
        errors: &mut Vec<Error>,
        defs: &[Def],
    ) -> Result<(), AllocError>
        ghost read: { TypesRead }
        requires readable { AreReadable read }
        requires start { ReadsTerms read of_signatures (definition_views defs.now)
            (Declaring read (definition_views defs.now) []) tyenv.old self.old errors.old.items }
        ensures left { IsLeftByRefusal read (environment_view tyenv.new) }
        ensures reads { OnOk result (ReadsTerms read of_signatures (definition_views defs.now)
            (Declaring read (definition_views defs.now) (definition_views defs.now)) tyenv.new self.new errors.new.items) }
        ensures places { OnOk result (NotesAt (positions_of (definition_views defs.now) ++ table_positions self.old) errors.old.items errors.new.items) }
        ensures placed { OnOk result (IsPlacedAmong (positions_of (definition_views defs.now) ++ table_positions self.old) self.new) }
    {
        for def in defs {
            self.read_if_declared(tyenv, errors, def)?;
        }
        Ok(())
    }

    #[tactic(auto, using(core_syntax::proofs::Positioned::notes_nothing))]
    fn read_if_declared(
        &mut self,
        tyenv: &mut TypeEnv,
        errors: &mut Vec<Error>,
        def: &Def,
    ) -> Result<(), AllocError>
        requires inverse { IsInterned tyenv.old }
        requires within { IsWithin self.old }
        ensures interns { MayIntern tyenv.old tyenv.new }
        ensures within { OnOk result (IsWithin self.new) }
        ensures reads { OnOk result (ReadsIfDeclared (definition_view def.now) tyenv.old self.old errors.old.items tyenv.new self.new errors.new.items) }
        ensures places { OnOk result (NotesAt (definition_positions (definition_view def.now) ++ table_positions self.old) errors.old.items errors.new.items) }
        ensures begins { OnOk result (FirstStandsAt (definition_positions (definition_view def.now)) errors.old.items errors.new.items) }
        ensures placed { OnOk result (IsPlacedAmong (definition_positions (definition_view def.now) ++ table_positions self.old) self.new) }
    {
        let Def::Decl(decl) = def else {
            return Ok(());
        };
        self.read_declaration(tyenv, errors, decl)
    }

    // Reads a declaration. A later one of the same name takes the name, so that a third one is told the
    // place of the second.
    fn read_declaration(
        &mut self,
        tyenv: &mut TypeEnv,
        errors: &mut Vec<Error>,
        decl: &Decl,
    ) -> Result<(), AllocError>
        requires inverse { IsInterned tyenv.old }
        requires within { IsWithin self.old }
        ensures interns { MayIntern tyenv.old tyenv.new }
        ensures within { OnOk result (IsWithin self.new) }
        ensures reads { OnOk result (ReadsDeclaration (decl_view decl.now) tyenv.old self.old errors.old.items tyenv.new self.new errors.new.items) }
        ensures places { OnOk result (NotesAt (declaration_positions (decl_view decl.now) ++ table_positions self.old) errors.old.items errors.new.items) }
        ensures begins { OnOk result (FirstStandsAt (declaration_positions (decl_view decl.now)) errors.old.items errors.new.items) }
        ensures placed { OnOk result (IsPlacedAmong (declaration_positions (decl_view decl.now) ++ table_positions self.old) self.new) }
    {
        let name = meet_name(tyenv, &decl.term)?;
        self.check_free(errors, decl, name)?;
        check_marks(errors, decl)?;
        self.add_decl(tyenv, errors, decl, name)
    }
}

// Notes a declaration of a term that is both multi and partial.
#[tactic(auto, using(core_syntax::proofs::Positioned::notes_nothing))]
fn check_marks(errors: &mut Vec<Error>, decl: &Decl) -> Result<(), AllocError>
    ensures noted { OnOk result (ReportsIf (decl.now.multi && decl.now.partial) errors.old.items errors.new.items) }
    ensures places { OnOk result (NotesAt (position decl.now.pos ∷ []) errors.old.items errors.new.items) }
{
    if !(decl.multi && decl.partial) {
        return Ok(());
    }
    report_name(errors, decl.pos, Wrong::MultiPartial, &decl.term.0)
}
