//! The closing of a rule's demands: where sites that must be equal have a constraint, each of them gets it, and their
//! fields must be equal in their place.
ghost use Rattle.std.specs.Prelude.{◌≡◌, ◌<◌, ℕ, IsTrue, Some, false, length, map, All, IfErr, OnOk, MatchOption};
ghost use Rattle.model.specs.sites.Sites.{SiteTerm, unfold_site};
ghost use Rattle.model.specs.sites.Closure.{Closed, ascending, class_at, closing, most_closing_steps, taken};
ghost use Rattle.core_rule_sets.specs.Closings.{AreDemandsOf, AreFieldsOf, EndsFull, GoOn, IsNextDue, KeepsDue, SpeakOf, asked_each, is_due, is_due_with, with_field_terms, with_member};
ghost use Rattle.core_rule_sets.specs.SiteDemands.{constraint_held};
ghost use Rattle.core_rule_sets.specs.SiteTables.{ForWantOfRoom, IsTable, table_sites};
ghost use Rattle.core_rule_sets.specs.SiteViews.{constraint_view};

use crate::demanded::Demanded;
use crate::site_table::SiteTable;
use crate::trie_again::{BindingId, Constraint};
use core_syntax::visit_fault::VisitFault;
use std::alloc::{AllocError, Global};

// More than a rule that passes no limit can take: a site is taken for itself or for one whose field it is, and never
// twice for the same, and there are no more than 65,536 sites.
const MOST_CLOSING_STEPS: u64 = 4_295_098_369;

impl Demanded {
    /// Closes the demands: while some class has a site with a constraint, the class of the least such site is taken.
    /// Sites of fields are made where they aren't there.
    ///
    /// # Errors
    ///
    /// `Limit` where a new site would be one past 65,536: the table then has the first 65,536 of the sites that would
    /// be made. `Memory` where memory is refused.
    pub fn close(&mut self, alloc: Global, table: &mut SiteTable) -> Result<(), VisitFault>
        requires table { IsTable table.old }
        requires due { KeepsDue self.old }
        requires demands { SpeakOf (table_sites table.old) self.old }
        ensures table { OnOk result (IsTable table.new) }
        ensures closed { (k : Closed) → AreDemandsOf (table_sites table.old) self.old k
            → OnOk result (GoOn (table_sites table.old) (table_sites table.new) self.new (closing most_closing_steps k)) }
        ensures kept { IfErr result (ForWantOfRoom (IsTable table.new)) }
        ensures full { (k : Closed) → AreDemandsOf (table_sites table.old) self.old k
            → IfErr result (EndsFull (table_sites table.new) (closing most_closing_steps k)) }
    {
        for _ in 0..MOST_CLOSING_STEPS {
            let Some(next) = self.next_due() else {
                return Ok(());
            };
            self.take_class(alloc, table, next.0, next.1)?;
        }
        Ok(())
    }

    // The least site that has a constraint and must equal another one, with its constraint.
    fn next_due(&mut self) -> Option<(BindingId, Constraint)>
        requires due { KeepsDue self.old }
        ensures due { KeepsDue self.new }
        ensures asked { self.new.constraints ≡ self.old.constraints }
        ensures equated { self.new.equals ≡ self.old.equals }
        ensures next { MatchOption result ((s : ℕ) → is_due self.old s ≡ false) (λ x. IsNextDue self.old x.0 x.1) }
    {
        while let Some(site) = self.open.first().copied() {
            if let Some(constraint) = self.due_constraint(site) {
                return Some((site, constraint));
            }
            self.open.pop_first();
        }
        None
    }

    // The constraint of a site that must equal another one, if it has one.
    fn due_constraint(&self, site: BindingId) -> Option<Constraint>
        ensures { MatchOption result ((r : ℕ) → is_due_with self.now r site ≡ false)
            (λ c. (constraint_held self.now site ≡ Some (constraint_view c)) × IsTrue (is_due self.now site)) }
    {
        if self.equals.contains(site) {
            self.constraints.get(site)
        } else {
            None
        }
    }

    // Takes the class of a site: its members, ascending, each get the constraint and its field sites, and the fields of
    // each must equal those of the least.
    fn take_class(
        &mut self,
        alloc: Global,
        table: &mut SiteTable,
        site: BindingId,
        constraint: Constraint,
    ) -> Result<(), VisitFault>
        requires table { IsTable table.old }
        requires due { KeepsDue self.old }
        requires demands { SpeakOf (table_sites table.old) self.old }
        requires next { IsTrue (is_due self.old site) }
        ensures table { OnOk result (IsTable table.new) }
        ensures due { OnOk result (KeepsDue self.new) }
        ensures taken { (k : Closed) → AreDemandsOf (table_sites table.old) self.old k
            → OnOk result (GoOn (table_sites table.old) (table_sites table.new) self.new
            (taken k (unfold_site (table_sites table.old) site, constraint_view constraint)
            (ascending k.made (class_at k.classes (unfold_site (table_sites table.old) site))))) }
        ensures kept { IfErr result (ForWantOfRoom (IsTable table.new)) }
        ensures full { (k : Closed) → AreDemandsOf (table_sites table.old) self.old k
            → IfErr result (EndsFull (table_sites table.new)
            (taken k (unfold_site (table_sites table.old) site, constraint_view constraint)
            (ascending k.made (class_at k.classes (unfold_site (table_sites table.old) site))))) }
    {
        let members = self.equals.remove_set_of(site)?;
        self.ask_each(&members, &constraint)?;
        self.join_fields(alloc, table, &members, &constraint)
    }

    fn ask_each(&mut self, sites: &[BindingId], constraint: &Constraint) -> Result<(), AllocError>
        requires due { KeepsDue self.old }
        ensures due { OnOk result (KeepsDue self.new) }
        ensures asked { OnOk result ((s : ℕ) → constraint_held self.new s
            ≡ asked_each (constraint_held self.old) sites.now (constraint_view constraint.now) s) }
        ensures equated { self.new.equals ≡ self.old.equals }
    {
        for site in sites {
            self.ask(*site, *constraint)?;
        }
        Ok(())
    }

    // The members of a class get the sites of the fields that a constraint gives them, those of each equal to those of
    // the first.
    fn join_fields(
        &mut self,
        alloc: Global,
        table: &mut SiteTable,
        members: &[BindingId],
        constraint: &Constraint,
    ) -> Result<(), VisitFault>
        requires table { IsTable table.old }
        requires due { KeepsDue self.old }
        requires demands { SpeakOf (table_sites table.old) self.old }
        requires within { All (λ m. m < length (table_sites table.old)) members.now }
        ensures table { OnOk result (IsTable table.new) }
        ensures due { OnOk result (KeepsDue self.new) }
        ensures joined { (k : Closed) → AreDemandsOf (table_sites table.old) self.old k
            → OnOk result (GoOn (table_sites table.old) (table_sites table.new) self.new
            (with_field_terms (constraint_view constraint.now) k (map (unfold_site (table_sites table.old)) members.now))) }
        ensures kept { IfErr result (ForWantOfRoom (IsTable table.new)) }
        ensures full { (k : Closed) → AreDemandsOf (table_sites table.old) self.old k
            → IfErr result (EndsFull (table_sites table.new)
            (with_field_terms (constraint_view constraint.now) k (map (unfold_site (table_sites table.old)) members.now))) }
    {
        let Some((least, rest)) = members.split_first() else {
            return Ok(());
        };
        let fields = table.add_fields(alloc, *constraint, *least)?;
        for member in rest {
            self.join_member(alloc, table, &fields, *member, constraint)?;
        }
        Ok(())
    }

    // A member gets the sites of its fields, each equal to one of these.
    fn join_member(
        &mut self,
        alloc: Global,
        table: &mut SiteTable,
        fields: &[BindingId],
        member: BindingId,
        constraint: &Constraint,
    ) -> Result<(), VisitFault>
        requires table { IsTable table.old }
        requires due { KeepsDue self.old }
        requires demands { SpeakOf (table_sites table.old) self.old }
        requires within { member < length (table_sites table.old) }
        requires fields { (u : SiteTerm) × AreFieldsOf (table_sites table.old) (constraint_view constraint.now) fields.now u }
        ensures table { OnOk result (IsTable table.new) }
        ensures due { OnOk result (KeepsDue self.new) }
        ensures joined { (k : Closed) (least : SiteTerm) → AreDemandsOf (table_sites table.old) self.old k
            → AreFieldsOf (table_sites table.old) (constraint_view constraint.now) fields.now least
            → OnOk result (GoOn (table_sites table.old) (table_sites table.new) self.new
            (with_member (constraint_view constraint.now) least k (unfold_site (table_sites table.old) member))) }
        ensures kept { IfErr result (ForWantOfRoom (IsTable table.new)) }
        ensures full { (k : Closed) (least : SiteTerm) → AreDemandsOf (table_sites table.old) self.old k
            → AreFieldsOf (table_sites table.old) (constraint_view constraint.now) fields.now least
            → IfErr result (EndsFull (table_sites table.new)
            (with_member (constraint_view constraint.now) least k (unfold_site (table_sites table.old) member))) }
    {
        let others = table.add_fields(alloc, *constraint, member)?;
        self.equate_each(fields, &others)?;
        Ok(())
    }
}
