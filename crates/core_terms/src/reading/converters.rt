//! How converters are read: each is the term that a conversion from one type to another calls.

ghost use Rattle.std.specs.Prelude.{◌≡◌, [], ◌∷◌, OnOk};
ghost use Rattle.model.specs.claims.Environments.{TypesRead, AreReadable};
ghost use Rattle.core_syntax.specs.Positions.{NotesAt, converter_positions, definition_positions, positions_of};
ghost use Rattle.core_syntax.specs.SyntaxViews.{converter_view, definition_view, definition_views, position};
ghost use Rattle.core_syntax.specs.NotedErrors.{NotesMore};
ghost use Rattle.core_types.specs.ToldErrors.{Notes, NotesEach};
ghost use Rattle.core_terms.specs.TermErrors.{TellsOfConverter};
ghost use Rattle.core_terms.specs.Reading.{IsWithin};
ghost use Rattle.core_terms.specs.TermBreaches.{of_converters};
ghost use Rattle.core_terms.specs.Signing.{ReadsTerms};
ghost use Rattle.core_terms.specs.Converting.{ConvertersRead, ReadsConverter, ReadsIfConverter};

use crate::term_table::TermTable;
use core_syntax::syntax::{Converter, Def, Error};
use core_types::{TypeEnv, report, report_name};
use core_why::{Why, Wrong};
use std::alloc::AllocError;

impl TermTable {
    pub(crate) fn read_converters(
        &mut self,
        tyenv: &TypeEnv,
        errors: &mut Vec<Error>,
        defs: &[Def],
    ) -> Result<(), AllocError>
        ghost read: { TypesRead }
        requires readable { AreReadable read }
        requires start { ReadsTerms read of_converters (definition_views defs.now)
            (ConvertersRead read (definition_views defs.now) []) tyenv.now self.old errors.old.items }
        requires none { errors.old.items ≡ [] }
        ensures reads { OnOk result (ReadsTerms read of_converters (definition_views defs.now)
            (ConvertersRead read (definition_views defs.now) (definition_views defs.now)) tyenv.now self.new errors.new.items) }
        ensures places { OnOk result (NotesAt (positions_of (definition_views defs.now)) errors.old.items errors.new.items) }
        ensures terms { self.new.terms ≡ self.old.terms }
        ensures told { OnOk result (NotesEach (TellsOfConverter read.known (definition_views defs.now))
            (definition_views defs.now) errors.old.items errors.new.items) }
    {
        for def in defs {
            self.read_if_converter(tyenv, errors, def)?;
        }
        Ok(())
    }

    #[tactic(auto, using(core_syntax::proofs::Positioned::notes_nothing))]
    fn read_if_converter(
        &mut self,
        tyenv: &TypeEnv,
        errors: &mut Vec<Error>,
        def: &Def,
    ) -> Result<(), AllocError>
        requires { IsWithin self.old }
        ensures within { OnOk result (IsWithin self.new) }
        ensures reads { OnOk result (ReadsIfConverter (definition_view def.now) tyenv.now self.old errors.old.items self.new errors.new.items) }
        ensures places { OnOk result (NotesAt (definition_positions (definition_view def.now)) errors.old.items errors.new.items) }
        ensures terms { self.new.terms ≡ self.old.terms }
    {
        let Def::Converter(converter) = def else {
            return Ok(());
        };
        self.read_converter(tyenv, errors, converter)
    }

    // Reads a converter: the first one of a pair of types.
    #[tactic(auto, using(core_syntax::proofs::Positioned::notes_nothing))]
    fn read_converter(
        &mut self,
        tyenv: &TypeEnv,
        errors: &mut Vec<Error>,
        converter: &Converter,
    ) -> Result<(), AllocError>
        requires { IsWithin self.old }
        ensures within { OnOk result (IsWithin self.new) }
        ensures reads { OnOk result (ReadsConverter (converter_view converter.now) tyenv.now self.old errors.old.items self.new errors.new.items) }
        ensures places { OnOk result (NotesAt (converter_positions (converter_view converter.now)) errors.old.items errors.new.items) }
        ensures terms { self.new.terms ≡ self.old.terms }
    {
        let Some(inner) = tyenv.get_type_by_name(&converter.inner_ty) else {
            let name = &converter.inner_ty;
            return report_name(errors, name.1, Wrong::UnknownInner, &name.0);
        };
        let Some(outer) = tyenv.get_type_by_name(&converter.outer_ty) else {
            let name = &converter.outer_ty;
            return report_name(errors, name.1, Wrong::UnknownOuter, &name.0);
        };
        let Some(term) = self.find_term(tyenv, &converter.term) else {
            let name = &converter.term;
            return report_name(errors, name.1, Wrong::UnknownConverter, &name.0);
        };
        if self.converters.contains_key(&(inner, outer)) {
            return report_converted(errors, converter);
        }
        self.converters.insert((inner, outer), term)?;
        Ok(())
    }
}

// Notes a converter of a pair of types that has one already.
fn report_converted(errors: &mut Vec<Error>, converter: &Converter) -> Result<(), AllocError>
    ensures noted { OnOk result (NotesMore errors.old.items errors.new.items) }
    ensures places { OnOk result (NotesAt (position converter.now.pos ∷ []) errors.old.items errors.new.items) }
    ensures told { OnOk result (Notes 1 (position converter.now.pos ∷ []) errors.old.items errors.new.items) }
{
    let inner = converter.inner_ty.0.clone()?;
    let outer = converter.outer_ty.0.clone()?;
    report(errors, converter.pos, Why::ConverterTwice { inner, outer })
}
