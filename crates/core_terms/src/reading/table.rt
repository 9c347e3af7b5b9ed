//! How the whole term table is read, group by group. Each group is read only where nothing is wrong so far.

ghost use Rattle.std.specs.Prelude.{◌≡◌, ◌++◌, ℕ, None, [], All, IfOk, OnErr, OnOk};
ghost use Rattle.model.specs.claims.Environments.{TypesRead, AreReadable, AreTermsOf, IsLeftByRefusal, IsReadAs};
ghost use Rattle.model.specs.lists.TermTable.{IsValidTerms};
ghost use Rattle.model.specs.claims.Refusals.{RefusesTerms};
ghost use Rattle.core_syntax.specs.Positions.{NotesAt, ErrorStandsAt, positions_of};
ghost use Rattle.core_syntax.specs.Answers.{Answers, NoLimit, OnErrors};
ghost use Rattle.core_syntax.specs.ErrorViews.{error_views};
ghost use Rattle.core_syntax.specs.SyntaxViews.{definition_views};
ghost use Rattle.core_types.specs.EnvViews.{environment_view};
ghost use Rattle.core_terms.specs.Recursion.{ExtractorsRead};
ghost use Rattle.core_terms.specs.Signing.{Declaring, ReadsTerms};
ghost use Rattle.core_terms.specs.Stages.{HasNoConverter};
ghost use Rattle.core_terms.specs.ReadTerms.{RootsRead};
ghost use Rattle.core_terms.specs.TermBreaches.{of_signatures, of_definitions, FirstBreaksTerms};
ghost use Rattle.core_terms.specs.TermErrors.{AreErrorsOfTerms};
ghost use Rattle.core_terms.specs.TermTables.{term_at};
ghost use Rattle.core_terms.specs.ShownTables.{shown_by};
ghost use Rattle.core_terms.specs.TermPositions.{table_positions, IsPlacedAmong};
ghost use Rattle.core_types.specs.TypePositions.{types_positions};

use crate::term_table::TermTable;
use core_syntax::stablemapset::StableMap;
use core_syntax::syntax::{Def, Error, Fault};
use core_types::TypeEnv;
use std::alloc::{AllocError, Global};
use std::collections::HashMap;

impl TermTable {
    /// The terms of a list of definitions, of all forms, by any types that are handed in as `tyenv`, a
    /// well-formed environment. The i-th declaration, from 0, is term i; types ascending, each variant of an
    /// enum and each struct follows. The names of the declared terms and of external functions are added to
    /// those of `tyenv`, in order, as far as the reading comes; all else of it stays.
    ///
    /// `Errors` has all that is wrong in the first of four groups in which something is: declarations and the
    /// terms that types make; rules' terms and internal extractors; converters; external functions. `Memory`
    /// where memory is refused. The first error stands at a definition that breaks a condition of validity, of two that
    /// have one name at the later one, or at a type that makes a term whose name is taken. Each error stands at
    /// positions that occur in the definitions or that the types of `tyenv` keep, and so do all positions that the table
    /// keeps. Of converters there is one error for each that isn't right, in order, and no other.
    pub fn from_ast(alloc: Global, tyenv: &mut TypeEnv, defs: &[Def]) -> Result<TermTable, Fault>
        ghost read: { TypesRead }
        requires readable { AreReadable read }
        requires types { IsReadAs (environment_view tyenv.old) read }
        ensures answers { Answers result (IsValidTerms read.known (definition_views defs.now))
            (λ table. AreTermsOf read (definition_views defs.now) (shown_by table) (environment_view tyenv.new)) }
        ensures left { OnErr result (IsLeftByRefusal read (environment_view tyenv.new)) }
        ensures no_limit { NoLimit result }
        ensures refused { OnErrors result (λ es. RefusesTerms read (definition_views defs.now) (error_views es)) }
        ensures breach { OnErrors result (FirstBreaksTerms read.known (definition_views defs.now)) }
        ensures told { OnErrors result (AreErrorsOfTerms read (definition_views defs.now)) }
        ensures places { OnErrors result (All (ErrorStandsAt (positions_of (definition_views defs.now) ++ types_positions read.known.types))) }
        ensures placed { IfOk result (IsPlacedAmong (positions_of (definition_views defs.now) ++ types_positions read.known.types)) }
    {
        let mut table = TermTable::with_room(alloc, defs.len())?;
        let mut errors = Vec::new(alloc);
        table.read_signatures(tyenv, &mut errors, defs)?;
        if !errors.is_empty() {
            return Err(Fault::Errors(errors));
        }
        table.read_definitions(tyenv, &mut errors, defs)?;
        if !errors.is_empty() {
            return Err(Fault::Errors(errors));
        }
        table.read_converters(tyenv, &mut errors, defs)?;
        if !errors.is_empty() {
            return Err(Fault::Errors(errors));
        }
        table.read_externs(tyenv, &mut errors, defs)?;
        if !errors.is_empty() {
            return Err(Fault::Errors(errors));
        }
        Ok(table)
    }

    // A table of nothing, with room for so many terms: long lists have about as many terms as definitions, and a table
    // that grows by and by is copied each time.
    fn with_room(alloc: Global, terms: usize) -> Result<TermTable, AllocError>
        ensures terms { IfOk result (λ table. table.terms.items ≡ []) }
        ensures ids { IfOk result (λ table. (k : ℕ) → term_at table k ≡ None) }
        ensures converters { IfOk result HasNoConverter }
    {
        Ok(TermTable {
            terms: Vec::with_capacity(alloc, terms)?,
            term_map: StableMap::from(HashMap::with_capacity(alloc, terms)?),
            converters: StableMap::new(alloc),
        })
    }

    // Reads all declarations, and adds the terms that types make.
    fn read_signatures(
        &mut self,
        tyenv: &mut TypeEnv,
        errors: &mut Vec<Error>,
        defs: &[Def],
    ) -> Result<(), AllocError>
        ghost read: { TypesRead }
        requires readable { AreReadable read }
        requires start { ReadsTerms read of_signatures (definition_views defs.now)
            (Declaring read (definition_views defs.now) []) tyenv.old self.old errors.old.items }
        ensures left { IsLeftByRefusal read (environment_view tyenv.new) }
        ensures reads { OnOk result (ReadsTerms read of_signatures (definition_views defs.now)
            (RootsRead read (definition_views defs.now) []) tyenv.new self.new errors.new.items) }
        ensures places { OnOk result (NotesAt
            ((positions_of (definition_views defs.now) ++ types_positions read.known.types) ++ table_positions self.old) errors.old.items errors.new.items) }
        ensures placed { OnOk result (IsPlacedAmong
            ((positions_of (definition_views defs.now) ++ types_positions read.known.types) ++ table_positions self.old) self.new) }
    {
        self.read_declarations(tyenv, errors, defs)?;
        self.add_made_terms(tyenv, errors)
    }

    // Reads which terms the rules are of, and all internal extractors.
    fn read_definitions(
        &mut self,
        tyenv: &TypeEnv,
        errors: &mut Vec<Error>,
        defs: &[Def],
    ) -> Result<(), AllocError>
        ghost read: { TypesRead }
        requires readable { AreReadable read }
        requires start { ReadsTerms read of_definitions (definition_views defs.now)
            (RootsRead read (definition_views defs.now) []) tyenv.now self.old errors.old.items }
        ensures reads { OnOk result (ReadsTerms read of_definitions (definition_views defs.now)
            (ExtractorsRead read (definition_views defs.now)) tyenv.now self.new errors.new.items) }
        ensures places { OnOk result (NotesAt (positions_of (definition_views defs.now) ++ table_positions self.old) errors.old.items errors.new.items) }
        ensures placed { OnOk result (IsPlacedAmong (positions_of (definition_views defs.now) ++ table_positions self.old) self.new) }
    {
        self.read_roots(tyenv, errors, defs)?;
        self.collect_extractor_templates(tyenv, errors, defs)
    }
}
