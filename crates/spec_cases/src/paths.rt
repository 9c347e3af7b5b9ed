//! The questions of steps.
ghost use Rattle.std.specs.Prelude.{◌≡◌, ◌∷◌, true, option_map, slice_get, IfOk, OnOk, Some};
ghost use Rattle.std.specs.Bool.{◌==◌};
ghost use Rattle.laws_specs.specs.Specs as L;
ghost use Rattle.model.specs.rules.Meaning.{look};
ghost use Rattle.model_questions.specs.Formulas as M;
ghost use Rattle.model_questions.specs.Questions as Q;
ghost use Rattle.model_questions.specs.Steps as S;
ghost use Rattle.core_types.specs.TypeViews.{type_view};
ghost use Rattle.spec_cases.specs.Asking.{asked_after, asked_in, has_atoms, listed, Adds, Asks};
ghost use Rattle.spec_cases.specs.Namings.{fact_of};
ghost use Rattle.spec_cases.specs.Sorts.{sort_view, type_sorts};
ghost use Rattle.spec_cases.specs.Steps.{is_told, said_view, step_view, step_views};
ghost use Rattle.spec_cases.specs.Tables.{specs_in, types_in};
ghost use Rattle.spec_cases.specs.Trails.{trails_in};

use crate::arena::Formulas;
use crate::asking::Asking;
use crate::faults::Fault;
use crate::formulas::{Fact, PlaceId};
use crate::limits::{AskingFault, add_question};
use crate::sorts::{Sort, TypeSort};
use crate::steps::{Said, Step, are_steps_within};
use crate::tables::Tables;
use crate::trails::{Trail, Trails};
use crate::variants::is_empty;
use core_types::{BuiltinType, Type, TypeId};
use std::alloc::Global;

impl Sort {
    // The widths that it lists, if it lists some.
    fn listed(&self, alloc: Global) -> Result<Option<Vec<u32>>, Fault>
        ensures { IfOk result (λ o. option_map (λ ws. ws.items) o ≡ listed (Some (sort_view self.now))) }
    {
        match self {
            Sort::WordsAmong(widths) => Ok(Some(Vec::from_slice(alloc, widths)?)),
            Sort::Truths | Sort::Integers | Sort::Words(_) => Ok(None),
        }
    }
}

// The widths that a type's sort lists.
#[tactic(auto, using(crate::proofs::AskingSteps::look_steps))]
fn sort_widths(alloc: Global, sorts: &[TypeSort], ty: TypeId) -> Result<Option<Vec<u32>>, Fault>
    ensures { IfOk result (λ o. option_map (λ ws. ws.items) o ≡ listed (look (λ k. k == ty.0) (type_sorts sorts.now))) }
{
    match sorts {
        [] => Ok(None),
        [first, rest @ ..] => {
            if first.ty.0 == ty.0 {
                Ok(first.sort.listed(alloc)?)
            } else {
                Ok(sort_widths(alloc, rest, ty)?)
            }
        }
    }
}

// Whether a type has atoms alone.
#[tactic(auto, using(crate::proofs::AskingSteps::integer_atoms))]
fn has_atoms(entry: &Type) -> bool
    ensures { result ≡ has_atoms (type_view entry.now) }
{
    match entry {
        Type::Builtin(BuiltinType::Bool) | Type::Struct { .. } => false,
        Type::Builtin(BuiltinType::Int(_)) | Type::Primitive(_, _, _) => true,
        Type::Enum { variants, .. } => is_empty(variants),
    }
}

// The widths at which a place of a type is asked by itself.
#[tactic(auto, using(crate::proofs::AskingSteps::split_steps))]
fn split_widths(alloc: Global, tables: &Tables<'_>, ty: TypeId) -> Result<Option<Vec<u32>>, Fault>
    ensures { IfOk result (λ o. option_map (λ ws. ws.items) o ≡ listed (Q.split_sort (slice_get (types_in tables.now) ty.0) (L.sort_of (specs_in tables.now) ty.0))) }
{
    match tables.types.get(ty.0) {
        None => Ok(None),
        Some(entry) => {
            if has_atoms(entry) {
                Ok(sort_widths(alloc, tables.sorts, ty)?)
            } else {
                Ok(None)
            }
        }
    }
}

impl Formulas {
    /// Adds the questions of steps, in order: those of what is to be shown, after the facts of a trail and what is told of places. The
    /// facts of a question are what its end stands for.
    ///
    /// # Errors
    ///
    /// `TooMany` where there would be more questions or branches than are made, else as `fact_of`.
    #[cycle(asking)]
    pub fn paths(
        &mut self,
        asking: &Asking<'_>,
        steps: &[Step],
        trail: Trail,
        trails: &mut Trails,
        out: &mut Vec<Trail>,
    ) -> Result<(), AskingFault>
        ensures { OnOk result (Asks self.old self.new trails.old trails.new asking.now.exprs.now (λ v w s. Adds s out.old.items out.new.items (asked_in v s asking.now (step_views v w steps.now) trail))) }
    {
        match steps {
            [] => Ok(()),
            [step, rest @ ..] => Ok(self.first_path(asking, step, rest, trail, trails, out)?),
        }
    }

    // Adds the questions of a step and of those after it.
    #[cycle(asking)]
    fn first_path(
        &mut self,
        asking: &Asking<'_>,
        step: &Step,
        rest: &[Step],
        trail: Trail,
        trails: &mut Trails,
        out: &mut Vec<Trail>,
    ) -> Result<(), AskingFault>
        ensures { OnOk result (Asks self.old self.new trails.old trails.new asking.now.exprs.now (λ v w s. Adds s out.old.items out.new.items (asked_in v s asking.now (step_view v w step.now ∷ step_views v w rest.now) trail))) }
    {
        match step {
            Step::SplitAt { ty, place } => {
                Ok(self.split(asking, *ty, *place, rest, trail, trails, out)?)
            }
            Step::Shown(said) => Ok(self.shown(asking, *said, rest, trail, trails, out)?),
            Step::ToldAs { .. }
            | Step::ToldSame { .. }
            | Step::Assumed(_)
            | Step::AssumedUnder { .. } => {
                Ok(self.told_step(asking, step, rest, trail, trails, out)?)
            }
        }
    }

    // Adds the questions of a step whose fact is told and of those after it.
    #[cycle(asking)]
    fn told_step(
        &mut self,
        asking: &Asking<'_>,
        step: &Step,
        rest: &[Step],
        trail: Trail,
        trails: &mut Trails,
        out: &mut Vec<Trail>,
    ) -> Result<(), AskingFault>
        requires { is_told step.now ≡ true }
        ensures { OnOk result (Asks self.old self.new trails.old trails.new asking.now.exprs.now (λ v w s. Adds s out.old.items out.new.items (asked_in v s asking.now (step_view v w step.now ∷ step_views v w rest.now) trail))) }
    {
        let fact = self.fact_of(asking, step)?;
        Ok(self.unless_false(asking, fact, rest, trail, trails, out)?)
    }

    // Adds the questions of steps after a place is split, by its type.
    #[cycle(asking)]
    fn split(
        &mut self,
        asking: &Asking<'_>,
        ty: TypeId,
        place: PlaceId,
        rest: &[Step],
        trail: Trail,
        trails: &mut Trails,
        out: &mut Vec<Trail>,
    ) -> Result<(), AskingFault>
        ensures { OnOk result (Asks self.old self.new trails.old trails.new asking.now.exprs.now (λ v w s. Adds s out.old.items out.new.items (asked_in v s asking.now (S.split_at ty.0 (v.place place.0) ∷ step_views v w rest.now) trail))) }
    {
        match split_widths(self.alloc(), asking.tables, ty)? {
            None => Ok(self.paths(asking, rest, trail, trails, out)?),
            Some(widths) => {
                Ok(self.each_width(asking, &widths, place, rest, trail, trails, out)?)
            }
        }
    }

    // Adds the questions of steps at each width of a place.
    #[cycle(asking)]
    fn each_width(
        &mut self,
        asking: &Asking<'_>,
        widths: &[u32],
        place: PlaceId,
        rest: &[Step],
        trail: Trail,
        trails: &mut Trails,
        out: &mut Vec<Trail>,
    ) -> Result<(), AskingFault>
        ensures { OnOk result (Asks self.old self.new trails.old trails.new asking.now.exprs.now (λ v w s. Adds s out.old.items out.new.items (Q.each_of (λ x. asked_after v w s asking.now (M.as_wide (v.place place.0) x) rest.now trail) widths.now))) }
    {
        match widths {
            [] => Ok(()),
            [width, more @ ..] => {
                trails.count_branch()?;
                self.told(
                    asking,
                    Fact::AsWide(place, *width),
                    rest,
                    trail,
                    trails,
                    out,
                )?;
                Ok(self.each_width(asking, more, place, rest, trail, trails, out)?)
            }
        }
    }

    // Adds the questions of steps after one fact more, unless it is known to be false.
    #[cycle(asking)]
    #[tactic(auto, using(crate::proofs::AskingSteps::unless_steps))]
    fn unless_false(
        &mut self,
        asking: &Asking<'_>,
        fact: Fact,
        rest: &[Step],
        trail: Trail,
        trails: &mut Trails,
        out: &mut Vec<Trail>,
    ) -> Result<(), AskingFault>
        ensures { OnOk result (Asks self.old self.new trails.old trails.new asking.now.exprs.now (λ v w s. Adds s out.old.items out.new.items (Q.unless_false (fact_of v fact) (asked_after v w s asking.now (fact_of v fact) rest.now trail)))) }
    {
        if fact.is_false() {
            Ok(())
        } else {
            Ok(self.told(asking, fact, rest, trail, trails, out)?)
        }
    }

    // Adds a question, that what is to be shown isn't so, and those of the steps after it, where it is so.
    #[cycle(asking)]
    fn shown(
        &mut self,
        asking: &Asking<'_>,
        said: Said,
        rest: &[Step],
        trail: Trail,
        trails: &mut Trails,
        out: &mut Vec<Trail>,
    ) -> Result<(), AskingFault>
        ensures { OnOk result (Asks self.old self.new trails.old trails.new asking.now.exprs.now (λ v w s. Adds s out.old.items out.new.items (asked_in v s asking.now (S.shown (said_view v w said) ∷ step_views v w rest.now) trail))) }
    {
        let facts = self.shown_facts(asking, said)?;
        let end = trails.after(facts.1, trail)?;
        add_question(out, end)?;
        Ok(self.told(asking, facts.0, rest, trail, trails, out)?)
    }

    // Adds the questions of steps after one fact more.
    #[cycle(asking)]
    fn told(
        &mut self,
        asking: &Asking<'_>,
        fact: Fact,
        rest: &[Step],
        trail: Trail,
        trails: &mut Trails,
        out: &mut Vec<Trail>,
    ) -> Result<(), AskingFault>
        ensures { OnOk result (Asks self.old self.new trails.old trails.new asking.now.exprs.now (λ v w s. Adds s out.old.items out.new.items (asked_after v w s asking.now (fact_of v fact) rest.now trail))) }
    {
        let known = self.learned(fact, asking.tables.known)?;
        let tables = Tables {
            types: asking.tables.types,
            sorts: asking.tables.sorts,
            functions: asking.tables.functions,
            known: &known,
        };
        let inner = Asking {
            tables: &tables,
            constants: asking.constants,
            exprs: asking.exprs,
        };
        let next = trails.after(fact, trail)?;
        Ok(self.paths(&inner, rest, next, trails, out)?)
    }

    /// The questions of steps, which add their facts to the tree; what is known of places before is that of the tables.
    ///
    /// # Errors
    ///
    /// `Foreign` where a step has a number that isn't there, else as `paths`.
    pub fn questions(
        &mut self,
        asking: &Asking<'_>,
        steps: &[Step],
        trails: &mut Trails,
    ) -> Result<Vec<Trail>, AskingFault>
        ensures { IfOk result (λ qs. Asks self.old self.new trails.old trails.new asking.now.exprs.now (λ v w s. trails_in s qs.items ≡ asked_in v s asking.now (step_views v w steps.now) Trail.Start)) }
    {
        if !are_steps_within(steps, self.count(), asking.exprs.len()) {
            return Err(AskingFault::Formula(Fault::Foreign));
        }
        let mut out = Vec::new(self.alloc());
        self.paths(asking, steps, Trail::Start, trails, &mut out)?;
        Ok(out)
    }
}
