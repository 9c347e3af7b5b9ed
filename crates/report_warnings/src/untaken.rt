//! Calls that no rule takes, as rules write them.

use crate::coverage::left_over;
use crate::passing::{Fact, constraint_by, denied_by};
use cranelift_isle::lower::{Lowered, LoweredTerm};
use cranelift_isle::sema::{Term, TypeEnv};
use cranelift_isle::trie_again::{Binding, BindingId, Constraint, RuleSet, TupleIndex};
use report_names::names::NameTables;
use report_names::site_words::{push_head, site_texts, text_at};
use std::alloc::{AllocError, Global};

// How many pieces a call may have.
const MOST_PIECES: usize = 1 << 16;

// How many conditions are said.
const MOST_CONDITIONS: usize = 3;

// A piece of a call.
#[derive(Clone, Copy)]
enum Piece {
    // A blank before a part.
    Blank,
    // The end of a pattern.
    Close,
    // Any value.
    Any,
    // The site of this number.
    Site(usize),
}

// A call that is written by what a run found.
struct Writing<'a> {
    alloc: Global,
    names: NameTables<'a>,
    tyenv: &'a TypeEnv,
    set: &'a RuleSet,
    facts: &'a [Fact],
    // What each site stands for, in words.
    texts: Vec<String>,
    // The sites of which the call tells all that was found.
    told: Vec<BindingId>,
}

impl<'a> Drop for Writing<'a> {
    fn drop(self) {
        let Writing {
            alloc: _,
            names: _,
            tyenv: _,
            set: _,
            facts: _,
            texts: _,
            told: _,
        } = self;
    }
}

/// A call that no rule takes.
pub(crate) struct Untaken {
    /// The call, as the left side of a rule.
    pub call: String,
    /// What it can't tell, in words behind it.
    pub conditions: String,
}

impl Drop for Untaken {
    fn drop(self) {
        let Untaken {
            call: _,
            conditions: _,
        } = self;
    }
}

/// A call of a term that a run of the term's tree is for, by what the run found.
pub(crate) fn untaken_call(
    alloc: Global,
    lowered: &Lowered,
    lowered_term: &LoweredTerm,
    term: &Term,
    facts: &[Fact],
) -> Result<Untaken, AllocError> {
    let terms = &lowered.termenv.terms;
    let tyenv = &lowered.tyenv;
    let names = NameTables { tyenv, terms };
    let mut writing = Writing {
        alloc,
        names,
        tyenv,
        set: &lowered_term.rules,
        facts,
        texts: site_texts(alloc, names, &lowered_term.rules.bindings)?,
        told: Vec::new(alloc),
    };
    let mut call = String::new(alloc);
    writing.push_call(term, &mut call)?;
    let mut conditions = String::new(alloc);
    writing.push_conditions(&mut conditions)?;
    Ok(Untaken { call, conditions })
}

// Whether a constraint has fields: that of a variant or a struct.
fn has_fields(constraint: &Constraint) -> bool {
    matches!(
        constraint,
        Constraint::Variant { .. } | Constraint::Struct { .. }
    )
}

// The place of a site's field, if a binding is one.
fn place_in(binding: &Binding, of: BindingId) -> Option<usize> {
    match binding {
        Binding::MatchVariant { source, field, .. } | Binding::ExtractStruct { source, field }
            if *source == of => { Some(field.index()) }
        _ => None,
    }
}

impl<'a> Writing<'a> {
    fn push_call(&mut self, term: &Term, out: &mut String) -> Result<(), AllocError> {
        out.push('(')?;
        out.push_str(self.names.sym(term.name))?;
        for place in 0..term.arg_tys.len() {
            out.push(' ')?;
            let piece = self.argument(place);
            self.push(piece, out)?;
        }
        out.push(')')
    }

    fn argument(&self, place: usize) -> Piece {
        match TupleIndex::try_from(place) {
            Ok(index) => self.piece_of(&Binding::Argument { index }),
            Err(_) => Piece::Any,
        }
    }

    // The piece of what a site stands for. No rule asks anything of it if there is no such site.
    fn piece_of(&self, binding: &Binding) -> Piece {
        match self.set.find_binding(binding) {
            Some(site) => Piece::Site(site.index()),
            None => Piece::Any,
        }
    }

    // Adds a piece with all that it is made of.
    fn push(&mut self, piece: Piece, out: &mut String) -> Result<(), AllocError> {
        let mut waiting = Vec::new(self.alloc);
        waiting.push(piece)?;
        for _ in 0..MOST_PIECES {
            match waiting.pop() {
                Some(Piece::Blank) => out.push(' ')?,
                Some(Piece::Close) => out.push(')')?,
                Some(Piece::Any) => out.push('_')?,
                Some(Piece::Site(number)) => {
                    if let Ok(site) = BindingId::try_from(number) {
                        self.push_site(site, &mut waiting, out)?;
                    }
                }
                None => return Ok(()),
            }
        }
        Ok(())
    }

    // Adds what was found of a site. What it is made of waits then.
    fn push_site(
        &mut self,
        site: BindingId,
        waiting: &mut Vec<Piece>,
        out: &mut String,
    ) -> Result<(), AllocError> {
        let Some(constraint) = self.constraint(site)? else {
            return out.push('_');
        };
        self.told.push(site)?;
        if !has_fields(&constraint) {
            return push_head(out, self.names, constraint);
        }
        self.wait_for_fields(site, &constraint, waiting)?;
        out.push('(')?;
        push_head(out, self.names, constraint)
    }

    // The fields of a variant or a struct wait, and the end of its pattern.
    fn wait_for_fields(
        &self,
        site: BindingId,
        constraint: &Constraint,
        waiting: &mut Vec<Piece>,
    ) -> Result<(), AllocError> {
        waiting.push(Piece::Close)?;
        let fields = constraint.bindings_for(self.alloc, site)?;
        let pieces = self.pieces_of(site, &fields)?;
        for piece in pieces.iter().rev() {
            waiting.push(*piece)?;
            waiting.push(Piece::Blank)?;
        }
        Ok(())
    }

    // The pieces of a site's fields. All are found in one walk.
    fn pieces_of(&self, source: BindingId, fields: &[Binding]) -> Result<Vec<Piece>, AllocError> {
        let mut pieces = vec![in self.alloc; Piece::Any; fields.len()]?;
        for (number, binding) in self.set.bindings.iter().enumerate() {
            let Some(place) = place_in(binding, source) else {
                continue;
            };
            if let Some(piece) = pieces.get_mut(place) {
                if fields.get(place) == Some(binding) {
                    *piece = Piece::Site(number);
                }
            }
        }
        Ok(pieces)
    }

    // A constraint that a site meets in this call: as it was found, or one that none of the rules asks for.
    fn constraint(&self, site: BindingId) -> Result<Option<Constraint>, AllocError> {
        if let Some(constraint) = constraint_by(self.facts, site) {
            return Ok(Some(constraint));
        }
        let denied = denied_by(self.alloc, self.facts, site)?;
        left_over(self.alloc, self.tyenv, &denied)
    }

    // Adds what was found and the call doesn't tell: each thing once, and only the first ones.
    fn push_conditions(&self, out: &mut String) -> Result<(), AllocError> {
        let mut conditions: Vec<String> = Vec::new(self.alloc);
        for fact in self.facts.iter().rev() {
            if conditions.len() > MOST_CONDITIONS {
                break;
            }
            let condition = self.condition(fact)?;
            let text = condition.as_str();
            if !text.is_empty() && !conditions.iter().any(|other| other.as_str() == text) {
                conditions.push(condition)?;
            }
        }
        for (i, condition) in conditions.iter().take(MOST_CONDITIONS).enumerate() {
            out.push_str(if i == 0 { " if " } else { " and " })?;
            out.push_str(condition)?;
        }
        if conditions.len() > MOST_CONDITIONS {
            out.push_str(" and so on")?;
        }
        Ok(())
    }

    // What a fact says that the call doesn't tell, or the empty text.
    fn condition(&self, fact: &Fact) -> Result<String, AllocError> {
        match fact {
            Fact::Is(site, constraint) => self.met(*site, *constraint, true),
            Fact::Isnt(site, constraint) => self.met(*site, *constraint, false),
            Fact::Differ(left, right) => {
                let left = text_at(&self.texts, *left);
                let right = text_at(&self.texts, *right);
                format!(in self.alloc; "{left} and {right} differ")
            }
        }
    }

    fn met(
        &self,
        site: BindingId,
        constraint: Constraint,
        meets: bool,
    ) -> Result<String, AllocError> {
        match constraint {
            Constraint::Some => self.answer(site, meets),
            Constraint::Struct { .. } => Ok(String::new(self.alloc)),
            Constraint::Variant { .. }
            | Constraint::ConstBool { .. }
            | Constraint::ConstInt { .. }
            | Constraint::ConstPrim { .. } => {
                let mut text = String::new(self.alloc);
                if !self.told.iter().any(|other| *other == site) {
                    text.push_str(text_at(&self.texts, site))?;
                    text.push_str(if meets { " is `" } else { " isn't `" })?;
                    push_head(&mut text, self.names, constraint)?;
                    text.push('`')?;
                }
                Ok(text)
            }
        }
    }

    // That a call has an answer, or none.
    fn answer(&self, site: BindingId, has: bool) -> Result<String, AllocError> {
        match self.set.bindings.get(site.index()) {
            Some(Binding::Extractor { term, parameter }) => {
                let term = self.names.term(*term);
                let verb = if has { "matches" } else { "doesn't match" };
                let source = text_at(&self.texts, *parameter);
                format!(in self.alloc; "`{term}` {verb} {source}")
            }
            Some(Binding::Constructor { .. }) => {
                let call = text_at(&self.texts, site);
                let verb = if has { "gives a value" } else { "gives none" };
                format!(in self.alloc; "{call} {verb}")
            }
            _ => Ok(String::new(self.alloc)),
        }
    }
}
