//! How recursion among the templates of internal extractors is found: a search from each term along the terms
//! that templates name, the greatest one first. A term from which nothing comes back is walked once, whatever
//! root it is met from. The path is kept in a list, so that a long chain of templates takes no stack.

ghost use Rattle.std.specs.Prelude.{◌≡◌, [], ◌∷◌, ◌+◌, ◌-◌, ◌<◌, ◌^◌, All, IfOk, IfSome, OnOk, MatchOption, Some, get_or, is_some, length, option_map, slice_get};
ghost use Rattle.core_syntax.specs.Positions.{NotesAt};
ghost use Rattle.core_syntax.specs.SyntaxViews.{position};
ghost use Rattle.core_syntax.specs.NotedErrors.{NotesMore};
ghost use Rattle.core_terms.specs.Signing.{NotesIfWrong};
ghost use Rattle.core_terms.specs.TermViews.{term_view};
ghost use Rattle.core_terms.specs.Templating.{AreCallees, callees_of};
ghost use Rattle.core_terms.specs.Recursion.{AreFindings, AreWithin, EndsBelow, Enters, GoesOn, HasEnd, HaveTemplates, IsAtStart, IsSearched, IsOnWay, IsWayBack, NotesReturn, has_template, is_end, is_on};
ghost use Rattle.core_terms.specs.TermPositions.{table_positions, template_place};

use crate::term::{ExtractorKind, Term, TermKind};
use crate::term_table::TermTable;
use core_syntax::syntax::{Error, Pos};
use core_types::{TermId, TypeEnv, report};
use core_why::Why;
use std::alloc::{AllocError, Global};

// How far a term is walked.
#[derive(Clone, Copy)]
pub(crate) enum Mark {
    // It wasn't met.
    Unmet,
    // It was met from this root: in the search from it, it stands on the path.
    Met(TermId),
    // Nothing comes back from it.
    Ends,
}

// The search for recursion among templates, from one root after the other.
#[derive(Drop)]
pub(crate) struct Search {
    // How far each term is walked.
    pub(crate) marks: Vec<Mark>,
    // How many of the terms that each one names, from the first one on, are known to end: no search looks at them
    // again.
    pub(crate) ended: Vec<usize>,
    // The terms from the root to the one that is walked, each of which names the next.
    pub(crate) path: Vec<TermId>,
}

impl TermTable {
    // Notes each term from which recursion is met.
    #[tactic(auto, using(core_syntax::proofs::Positioned::notes_nothing))]
    pub(crate) fn check_recursion(
        &self,
        tyenv: &TypeEnv,
        errors: &mut Vec<Error>,
        callees: &[Vec<TermId>],
    ) -> Result<(), AllocError>
        requires { AreCallees self.now callees.now }
        ensures notes { OnOk result (NotesIfWrong errors.old.items errors.new.items
            (EndsBelow self.now callees.now (length callees.now)) (NotesReturn self.now callees.now errors.old.items errors.new.items)) }
        ensures places { OnOk result (NotesAt (table_positions self.now) errors.old.items errors.new.items) }
    {
        let mut search = Search::new(*errors.allocator(), callees.len())?;
        for id in 0..callees.len() {
            self.check_root(tyenv, errors, callees, &mut search, TermId(id))?;
        }
        Ok(())
    }

    // Notes recursion that is met from a root.
    #[tactic(auto, using(core_syntax::proofs::Positioned::notes_nothing))]
    fn check_root(
        &self,
        tyenv: &TypeEnv,
        errors: &mut Vec<Error>,
        callees: &[Vec<TermId>],
        search: &mut Search,
        root: TermId,
    ) -> Result<(), AllocError>
        requires callees { AreCallees self.now callees.now }
        requires root { root.0 < length callees.now }
        requires findings { AreFindings callees.now root.0 search.old }
        ensures findings { OnOk result (AreFindings callees.now (root.0 + 1) search.new) }
        ensures notes { OnOk result (NotesIfWrong errors.old.items errors.new.items
            (HaveTemplates self.now callees.now → HasEnd callees.now root.0) (NotesReturn self.now callees.now errors.old.items errors.new.items)) }
        ensures places { OnOk result (NotesAt (table_positions self.now) errors.old.items errors.new.items) }
    {
        let Some(repeated) = search.walk(callees, root)? else {
            return Ok(());
        };
        let Some(pos) = template_pos(&self.terms[repeated.index()]) else {
            return Ok(());
        };
        self.report_recursion(tyenv, errors, pos, &search.path)
    }

    // Notes recursion that is met along a path.
    fn report_recursion(
        &self,
        tyenv: &TypeEnv,
        errors: &mut Vec<Error>,
        pos: Pos,
        path: &[TermId],
    ) -> Result<(), AllocError>
        requires { All (λ t. t.0 < length self.now.terms.items) path.now }
        ensures noted { OnOk result (NotesMore errors.old.items errors.new.items) }
        ensures places { OnOk result (NotesAt (position pos ∷ []) errors.old.items errors.new.items) }
    {
        let mut way = String::new(*errors.allocator());
        for term in path {
            if !way.is_empty() {
                way.push(' ')?;
            }
            way.push_str(tyenv.text_of(self.terms[term.index()].name))?;
        }
        report(errors, pos, Why::Recursion(way))
    }
}

impl Search {
    // The search in so many terms of which none was met.
    fn new(alloc: Global, count: usize) -> Result<Search, AllocError>
        ensures { IfOk result (IsAtStart count) }
    {
        let marks = vec![in alloc; Mark::Unmet; count]?;
        let ended = vec![in alloc; 0; count]?;
        Ok(Search {
            marks,
            ended,
            path: Vec::new(alloc),
        })
    }

    // Searches from a root. The answer is the first term that comes back to itself, if there is one: the path
    // leads to it then.
    fn walk(&mut self, callees: &[Vec<TermId>], root: TermId) -> Result<Option<TermId>, AllocError>
        requires within { AreWithin callees.now }
        requires there { root.0 < length callees.now }
        requires findings { AreFindings callees.now root.0 self.old }
        ensures { IfOk result (λ o. MatchOption o (IsSearched callees.now root self.new) (IsWayBack callees.now root self.new)) }
    {
        if ends(self.marks[root.index()]) {
            return Ok(None);
        }
        self.path.clear();
        self.enter(root, root)?;
        while let Some(last) = self.path.last().copied() {
            let found = self.step(callees, root, last)?;
            if found.is_some() {
                return Ok(found);
            }
        }
        Ok(None)
    }

    // One step of the search from a root: on from the last term of the path, or back from it. The answer is a
    // term that comes back to itself, if one is met.
    fn step(
        &mut self,
        callees: &[Vec<TermId>],
        root: TermId,
        last: TermId,
    ) -> Result<Option<TermId>, AllocError>
        requires within { AreWithin callees.now }
        requires way { IsOnWay callees.now root self.old }
        requires last { slice_get self.old.path.items (length self.old.path.items - 1) ≡ Some last }
        ensures { IfOk result (λ o. MatchOption o (GoesOn callees.now root self.old self.new) (IsWayBack callees.now root self.new)) }
    {
        let Some(callee) = self.next_callee(callees, last) else {
            self.marks[last.index()] = Mark::Ends;
            self.path.pop();
            return Ok(None);
        };
        let mark = self.marks[callee.index()];
        if ends(mark) {
            self.ended[last.index()] += 1;
            return Ok(None);
        }
        if stands_on_path(mark, root) {
            self.path.push(callee)?;
            return Ok(Some(callee));
        }
        self.enter(root, callee)?;
        Ok(None)
    }

    // The first of the terms that a term names of which it isn't known that it ends.
    fn next_callee(&self, callees: &[Vec<TermId>], term: TermId) -> Option<TermId>
        requires there { term.0 < length callees.now }
        requires ended { length self.now.ended.items ≡ length callees.now }
        ensures next { option_map (λ u. u.0) result ≡ slice_get (callees_of callees.now term.0) (get_or self.now.ended.items term.0 0) }
        ensures countable { IfSome result (λ _. get_or self.now.ended.items term.0 0 + 1 < 2 ^ 64) }
    {
        let ended = self.ended[term.index()];
        callees[term.index()].get(ended).copied()
    }

    // Puts a term on the path of the search from a root.
    fn enter(&mut self, root: TermId, term: TermId) -> Result<(), AllocError>
        requires { term.0 < length self.old.marks.items }
        ensures { OnOk result (Enters root term self.old self.new) }
    {
        self.marks[term.index()] = Mark::Met(root);
        self.path.push(term)?;
        Ok(())
    }
}

fn template_pos(term: &Term) -> Option<Pos>
    ensures has { is_some result ≡ has_template (term_view term.now).kind }
    ensures place { option_map position result ≡ template_place (term_view term.now).kind }
{
    match &term.kind {
        TermKind::Decl {
            extractor_kind: Some(ExtractorKind::InternalExtractor { template }),
            ..
        } => Some(template.pos()),
        _ => None,
    }
}

// Whether nothing comes back from a term of this mark.
fn ends(mark: Mark) -> bool
    ensures { result ≡ is_end mark }
{
    match mark {
        Mark::Ends => true,
        Mark::Unmet | Mark::Met(_) => false,
    }
}

// Whether a term of this mark stands on the path of the search from a root.
fn stands_on_path(mark: Mark, root: TermId) -> bool
    ensures { result ≡ is_on root.0 mark }
{
    match mark {
        Mark::Met(by) => by.index() == root.index(),
        Mark::Unmet | Mark::Ends => false,
    }
}
