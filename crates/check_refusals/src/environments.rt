//! A type environment beside a copy that was made before rules are read with it.

ghost use Rattle.std.specs.Prelude.{OnErr};
ghost use Rattle.core_syntax.specs.SyntaxViews.{definition_views};
ghost use Rattle.model.specs.claims.Environments.{AreTypesOf};
ghost use Rattle.core_types.specs.EnvViews.{environment_view};
ghost use Rattle.check_refusals.specs.TypesAfterRefusal.{IsLeftOf};

use core_rules::TermEnv;
use core_syntax::stablemapset::StableMap;
use core_syntax::syntax::{Def, Error, Fault};
use core_types::{Sym, Type, TypeEnv, TypeId};
use core_why::{Why, Wrong};
use std::alloc::{AllocError, Global};
use text_reader::errors::ReadFault;
use text_reader::read;

/// Definitions of all forms that are accepted: nine terms, of which two are a type's variants and one a struct, and three rules.
pub const ACCEPTED: &str = "(type P (primitive P)) (extern const $K P)
(type T (enum (A (v u8) (w P)) (B))) (type S (struct (t T) (n u8)))
(decl pure partial p (u8) T) (extern constructor p p_fn)
(decl e (u8 P) T) (extern extractor e e_fn)
(decl d (u8) u8) (extractor (d a) (and a 7))
(decl w (u8) P) (extern constructor w w_fn) (convert u8 P w)
(decl f (T u8) P) (rule one 2 (f (T.A x $K) y) x) (rule (f (e x _) (d y)) (if-let (T.B) (p y)) x)
(decl partial g (u8) S) (rule (g x) (let ((y u8 5)) (S (p x) y)))";

/// The same sort of definitions, of which one rule names a variable that isn't bound.
pub const REFUSED: &str = "(type T (enum (A (v u8)) (B))) (extern const $K u8)
(decl f (T u8) u8) (rule one 2 (f (T.A x) $K) x) (rule two (f _ y) z)";

/// What reading rules comes to where memory is there.
#[derive(Clone, Copy)]
pub enum ExpectedReading {
    /// So many terms, and so many rules.
    Rules(usize, usize),
    /// One error, of a variable of this name that isn't known.
    UnknownVariable(&'static str),
}

impl ExpectedReading {
    fn is(self, answer: &Result<TermEnv, Fault>) -> bool {
        match (self, answer) {
            (ExpectedReading::Rules(terms, rules), Ok(env)) => {
                env.terms.len() == terms && env.rules.len() == rules
            }
            (ExpectedReading::UnknownVariable(name), Err(Fault::Errors(errors))) => {
                is_unknown(errors, name)
            }
            _ => false,
        }
    }
}

// Whether these errors are one, of a variable of this name that isn't known.
fn is_unknown(errors: &[Error], variable: &str) -> bool {
    match errors {
        [
            Error::TypeError {
                msg: Why::Named(name, Wrong::UnknownVariable),
                ..
            },
        ] => name.as_str() == variable,
        _ => false,
    }
}

/// Whether a type environment is as its copy after rules were read with it and memory was refused, and reading them again
/// comes to what is wanted; or reading them came to that at once.
pub fn rules_stay(alloc: Global, text: &str, wanted: ExpectedReading) -> Result<bool, Fault> {
    let defs = defs_of(alloc, text)?;
    stays_at_rules(alloc, &defs, wanted)
}

// The same of definitions.
fn stays_at_rules(alloc: Global, defs: &[Def], wanted: ExpectedReading) -> Result<bool, Fault> {
    let mut tyenv = TypeEnv::from_ast(alloc, defs)?;
    let copy = Copied::of(&tyenv)?;
    match read_rules(alloc, &mut tyenv, defs) {
        Err(Fault::Memory(_)) => {
            let stays = copy.is(&tyenv);
            let answer = read_again(alloc, &mut tyenv, defs);
            Ok(stays && wanted.is(&answer))
        }
        answer => Ok(wanted.is(&answer)),
    }
}

/// The definitions of a text, which has no error.
pub fn defs_of(alloc: Global, text: &str) -> Result<Vec<Def>, Fault> {
    match read(alloc, 0, text) {
        Ok(defs) => Ok(defs),
        Err(ReadFault::Memory(refused)) => Err(Fault::Memory(refused)),
        Err(ReadFault::Text(_)) => Err(Fault::Errors(Vec::new(alloc))),
    }
}

/// Reads the rules of definitions with their types.
pub fn read_rules(alloc: Global, tyenv: &mut TypeEnv, defs: &[Def]) -> Result<TermEnv, Fault>
    requires { AreTypesOf (definition_views defs.now) (environment_view tyenv.old) }
    ensures { OnErr result (IsLeftOf (definition_views defs.now) (environment_view tyenv.new)) }
{
    TermEnv::from_ast(alloc, tyenv, defs, true)
}

// Reads them with what a refusal left of these types.
fn read_again(alloc: Global, tyenv: &mut TypeEnv, defs: &[Def]) -> Result<TermEnv, Fault>
    requires { IsLeftOf (definition_views defs.now) (environment_view tyenv.old) }
{
    TermEnv::from_ast(alloc, tyenv, defs, true)
}

// What has to stay of a type environment.
#[derive(Drop)]
struct Copied {
    names: Vec<String>,
    types: Vec<Type>,
    type_map: StableMap<Sym, TypeId>,
    const_types: StableMap<Sym, TypeId>,
}

impl Copied {
    fn of(tyenv: &TypeEnv) -> Result<Copied, AllocError> {
        Ok(Copied {
            names: tyenv.syms.clone()?,
            types: tyenv.types.clone()?,
            type_map: tyenv.type_map.clone()?,
            const_types: tyenv.const_types.clone()?,
        })
    }

    // Whether a type environment has the same types and look-ups, the names that there were, at their numbers, and no error.
    fn is(&self, tyenv: &TypeEnv) -> bool {
        let types = self.types == tyenv.types && tyenv.errors.is_empty();
        types && self.has_look_ups(tyenv) && self.has_names(tyenv)
    }

    fn has_look_ups(&self, tyenv: &TypeEnv) -> bool {
        (0..tyenv.syms.len()).all(|i| {
            self.type_map.get(&Sym(i)) == tyenv.type_map.get(&Sym(i))
                && self.const_types.get(&Sym(i)) == tyenv.const_types.get(&Sym(i))
        })
    }

    fn has_names(&self, tyenv: &TypeEnv) -> bool {
        self.names.len() <= tyenv.syms.len()
            && self
                .names
                .iter()
                .zip(&tyenv.syms)
                .all(|(name, sym)| name == sym)
            && tyenv.syms.iter().enumerate().all(|(i, name)| {
                tyenv.sym_map.get(name.as_str()).copied() == Some(Sym(i))
            })
    }
}
