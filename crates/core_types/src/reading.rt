//! How the type table is read off a list of definitions: the names of the types first, then what the
//! types are, then constants. What is wrong with a definition is noted, and the reading goes on.

ghost use Rattle.std.specs.Prelude.{◌≡◌, ◌⊎◌, [], ◌∷◌, ◌++◌, All, IfOk, OnOk, MatchOption, Some};
ghost use Rattle.model.specs.lists.Names.{number};
ghost use Rattle.model.specs.lists.TypeTable.{IsValidTypes, builtin_names, type_names_met};
ghost use Rattle.model.specs.claims.Environments.{AreTypesOf};
ghost use Rattle.model.specs.claims.Questions.{IsWellFormedEnvironment};
ghost use Rattle.model.specs.claims.Refusals.{RefusesTypes, ill_typed};
ghost use Rattle.core_syntax.specs.Answers.{Answers, NoLimit, OnErrors};
ghost use Rattle.core_syntax.specs.ErrorViews.{error_views};
ghost use Rattle.core_syntax.specs.Stable.{entry_count};
ghost use Rattle.core_syntax.specs.SyntaxViews.{position, definition_view, definition_views, type_view};
ghost use Rattle.core_types.specs.EnvViews.{environment_view};
ghost use Rattle.core_types.specs.Envs.{names_of, type_at, IsInterned};
ghost use Rattle.core_syntax.specs.NotedErrors.{NotesMore};
ghost use Rattle.core_syntax.specs.Positions.{ErrorStandsAt, NotesAt, positions_of};
ghost use Rattle.core_types.specs.Reading.{AddsBuiltin, NamesType, MeetsNames, NotesTaken, NamesDefinition};
ghost use Rattle.core_types.specs.Stages.{Booting, NamesTypes};
ghost use Rattle.core_types.specs.ToldErrors.{Notes, NotesEach};
ghost use Rattle.core_types.specs.TypeBreaches.{FirstBreaksTypes};
ghost use Rattle.core_types.specs.TypeErrors.{TellsOfName, AreErrorsOfTypes};
ghost use Rattle.core_types.specs.TypeTables.{SeesTypes};

mod constants;
mod contents;
mod fields;

use crate::builtin::BuiltinType;
use crate::ids::TypeId;
use crate::type_env::TypeEnv;
use crate::types::Type;
use core_syntax::stablemapset::StableMap;
use core_syntax::syntax;
use core_syntax::syntax::{Def, Error, Fault, Pos, Span};
use core_why::{Why, Wrong};
use std::alloc::{AllocError, Global};
use std::collections::HashMap;

impl TypeEnv {
    /// A table of the built-in types alone, each with its place in `BuiltinType::ALL` as its id and
    /// as that of its name. It is well formed: terms and rules can be read with it. An error where memory
    /// is refused. Stands for upstream's `Default`.
    #[tactic(auto, using(crate::proofs::Booting::booted, crate::proofs::Booting::booted_count, crate::proofs::WellFormedEnvs::builtins_shown, crate::proofs::WellFormedEnvs::builtins_well_formed))]
    pub fn try_default(alloc: Global) -> Result<TypeEnv, AllocError>
        ensures table { IfOk result (λ env. SeesTypes env [] builtin_names) }
        ensures count { IfOk result (λ env. entry_count env.type_map ≡ 13) }
        ensures shown { IfOk result (λ env. AreTypesOf [] (environment_view env)) }
        ensures well_formed { IfOk result (λ env. IsWellFormedEnvironment (environment_view env)) }
    {
        TypeEnv::with_builtins(alloc, BuiltinType::ALL.len())
    }

    /// The type table of a list of definitions, upstream's `TypeEnv::from_ast`. The built-in types come
    /// first; the types that are defined follow in order. Names get their ids by first meeting: those of
    /// the built-in types, those of the types that are defined, then in each type the name inside a
    /// primitive one, or each variant's full name, name and fields, or the struct's fields, and last those
    /// of constants. A constant has the type of its last definition.
    ///
    /// `Errors` has what is wrong, each with its place, which is one in the definitions: all types are looked
    /// at, and the first error ends the work on one type. A type whose name is another type's, a primitive
    /// type that is marked `extern` or `nodebug`, another type that is marked both, two variants of an enum or
    /// two fields of a list with one name, a field or a constant of an unknown type. The first error stands at
    /// a definition that breaks one of these conditions. The errors are those of the names of all types, then
    /// those of what each type is, one at most for a type, and then those of constants; and there are no
    /// others. `Memory` where memory is refused.
    ///
    /// The table that is answered is well formed: terms and rules can be read with it.
    pub fn from_ast(alloc: Global, defs: &[Def]) -> Result<TypeEnv, Fault>
        ensures answers { Answers result (IsValidTypes (definition_views defs.now))
            (λ env. SeesTypes env (definition_views defs.now) (type_names_met (definition_views defs.now))) }
        ensures no_limit { NoLimit result }
        ensures refused { OnErrors result (λ es. RefusesTypes (definition_views defs.now) (error_views es)) }
        ensures places { OnErrors result (All (ErrorStandsAt (positions_of (definition_views defs.now)))) }
        ensures breach { OnErrors result (FirstBreaksTypes (definition_views defs.now)) }
        ensures told { OnErrors result (AreErrorsOfTypes (definition_views defs.now)) }
        ensures shown { IfOk result (λ env. AreTypesOf (definition_views defs.now) (environment_view env)) }
        ensures well_formed { IfOk result (λ env. IsWellFormedEnvironment (environment_view env)) }
    {
        let mut env = TypeEnv::with_builtins(alloc, defs.len())?;
        let mut errors = Vec::new(alloc);
        env.name_types(&mut errors, defs)?;
        env.fill_types(&mut errors, defs)?;
        env.read_constants(&mut errors, defs)?;
        if errors.is_empty() {
            Ok(env)
        } else {
            Err(Fault::Errors(errors))
        }
    }

    // A table of the built-in types alone, with room for so many names: long lists have about as many names as
    // definitions, and a table that grows by and by is copied each time.
    fn with_builtins(alloc: Global, names: usize) -> Result<TypeEnv, AllocError>
        ensures { IfOk result (λ env. Booting env []) }
    {
        let mut env = TypeEnv {
            syms: Vec::with_capacity(alloc, names)?,
            sym_map: HashMap::with_capacity(alloc, names)?,
            types: Vec::new(alloc),
            type_map: StableMap::new(alloc),
            const_types: StableMap::new(alloc),
            errors: Vec::new(alloc),
        };
        env.add_builtins(&BuiltinType::ALL)?;
        Ok(env)
    }

    // Makes a name that of the next type. The type that has the name already, where one does.
    fn claim_type_name(&mut self, name: &str) -> Result<Option<TypeId>, AllocError>
        requires { IsInterned self.old }
        ensures inverse { IsInterned self.new }
        ensures named { IfOk result (λ o. MatchOption o (NamesType name.now self.old self.new)
            (λ id. (type_at self.old (number (names_of self.old) name.now) ≡ Some id.0) × MeetsNames (name.now ∷ []) self.old self.new)) }
        ensures types { self.new.types ≡ self.old.types }
    {
        let sym = self.intern_text(name)?;
        if let Some(existing) = self.type_map.get(&sym) {
            return Ok(Some(*existing));
        }
        let id = TypeId(self.type_map.len());
        self.type_map.insert(sym, id)?;
        Ok(None)
    }

    fn add_builtins(&mut self, builtins: &[BuiltinType]) -> Result<(), AllocError>
        requires { Booting self.old builtins.now }
        ensures { OnOk result (Booting self.new []) }
    {
        for builtin in builtins {
            self.add_builtin(*builtin)?;
        }
        Ok(())
    }

    // Adds a built-in type, the next one.
    fn add_builtin(&mut self, builtin: BuiltinType) -> Result<(), AllocError>
        requires { IsInterned self.old }
        ensures inverse { IsInterned self.new }
        ensures adds { OnOk result (AddsBuiltin builtin self.old self.new) }
    {
        let _existing = self.claim_type_name(builtin.name())?;
        self.types.push(Type::Builtin(builtin))?;
        Ok(())
    }

    // Reads the name of the type that a definition is of, if it is one.
    fn name_definition(&mut self, errors: &mut Vec<Error>, def: &Def) -> Result<(), AllocError>
        requires { IsInterned self.old }
        ensures inverse { IsInterned self.new }
        ensures names { OnOk result (NamesDefinition (definition_view def.now) self.old errors.old.items self.new errors.new.items) }
    {
        let Def::TypeDef(ty) = def else {
            return Ok(());
        };
        let Some(existing) = self.claim_type_name(ty.name.0.as_str())? else {
            return Ok(());
        };
        report_duplicate(errors, ty, existing)
    }

    fn name_types(&mut self, errors: &mut Vec<Error>, defs: &[Def]) -> Result<(), AllocError>
        requires { NamesTypes (definition_views defs.now) [] (definition_views defs.now) self.old errors.old.items }
        ensures names { OnOk result (NamesTypes (definition_views defs.now) (definition_views defs.now) [] self.new errors.new.items) }
        ensures told { OnOk result (NotesEach TellsOfName (definition_views defs.now) errors.old.items errors.new.items) }
    {
        for def in defs {
            self.name_definition(errors, def)?;
        }
        Ok(())
    }
}

/// Notes that the definition at a place, or what it says there, isn't right: one error more, after those so far.
///
/// # Errors
///
/// Where memory is refused.
#[tactic(auto, using(core_syntax::proofs::Positioned::notes_one, core_syntax::proofs::Positioned::stands_there, crate::proofs::ToldErrors::one_noted))]
pub fn report(errors: &mut Vec<Error>, pos: Pos, msg: Why) -> Result<(), AllocError>
    ensures noted { OnOk result (NotesMore errors.old.items errors.new.items) }
    ensures places { OnOk result (NotesAt (position pos ∷ []) errors.old.items errors.new.items) }
    ensures one { OnOk result (error_views errors.new.items ≡ error_views errors.old.items ++ ill_typed (position pos) ∷ []) }
    ensures told { OnOk result (Notes 1 (position pos ∷ []) errors.old.items errors.new.items) }
{
    let span = Span::new_single(pos);
    errors.push(Error::TypeError { msg, span })?;
    Ok(())
}

/// Notes at a place that what has a name isn't right: one error more, after those so far.
///
/// # Errors
///
/// Where memory is refused.
pub fn report_name(
    errors: &mut Vec<Error>,
    pos: Pos,
    wrong: Wrong,
    name: &str,
) -> Result<(), AllocError>
    ensures noted { OnOk result (NotesMore errors.old.items errors.new.items) }
    ensures places { OnOk result (NotesAt (position pos ∷ []) errors.old.items errors.new.items) }
    ensures one { OnOk result (error_views errors.new.items ≡ error_views errors.old.items ++ ill_typed (position pos) ∷ []) }
    ensures told { OnOk result (Notes 1 (position pos ∷ []) errors.old.items errors.new.items) }
{
    let name = String::from_str(*errors.allocator(), name)?;
    report(errors, pos, Why::Named(name, wrong))
}

// Notes that the name of a definition is that of another type.
fn report_duplicate(
    errors: &mut Vec<Error>,
    ty: &syntax::Type,
    existing: TypeId,
) -> Result<(), AllocError>
    ensures told { OnOk result (NotesTaken existing.0 (position ty.now.pos) errors.old.items errors.new.items) }
{
    report_name(errors, ty.pos, Wrong::TypeTwice, &ty.name.0)?;
    if existing.index() >= BuiltinType::ALL.len() {
        return Ok(());
    }
    report_name(errors, ty.pos, Wrong::TypeBuiltin, &ty.name.0)
}
