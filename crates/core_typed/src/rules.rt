//! Typed rules and their parts.

ghost use Rattle.std.specs.Prelude.{◌≡◌, IfOk, length, map, string_bytes};
ghost use Rattle.core_syntax.specs.Places.{printed_line};
ghost use Rattle.model.specs.claims.Questions.{identifier, HasIdentifier};
ghost use Rattle.core_types.specs.Envs.{names_of};
ghost use Rattle.core_typed.specs.RuleViews.{rule_view};

use crate::exprs::Expr;
use crate::patterns::Pattern;
use core_syntax::syntax::{Files, Pos};
use core_types::{RuleId, Sym, TermId, TypeEnv, TypeId, VarId};
use std::alloc::{AllocError, Global};

/// A condition of a rule beyond its arguments: the pattern must match the value of the expression, and binds
/// variables that what comes later may use.
#[derive(Debug)]
pub struct IfLet {
    /// What the value must be.
    pub lhs: Pattern,
    /// What is evaluated before a rule is chosen, so it has to be pure. It may give no value.
    pub rhs: Expr,
}

impl Clone for IfLet {
    ghost use Rattle.std.specs.Prelude.{◌≡◌};
    ghost use Rattle.core_typed.specs.RuleViews.{iflet_view};

    ghost is_clone = { λ i j. iflet_view j ≡ iflet_view i };

    fn clone(&self) -> Result<IfLet, AllocError> {
        Ok(IfLet {
            lhs: self.lhs.clone()?,
            rhs: self.rhs.clone()?,
        })
    }
}

/// A variable of a rule, bound by a pattern or by a let. Patterns and expressions name it by its id, since a
/// name may be bound twice.
#[derive(Clone, Copy, Debug)]
pub struct BoundVar {
    /// Its id: its place in `Rule::vars`.
    pub id: VarId,
    /// Its name.
    pub name: Sym,
    /// The type of the value that it is bound to.
    pub ty: TypeId,
}

/// A typed rule: all names are ids, and each part has its type.
#[derive(Debug)]
pub struct Rule {
    /// Its id: its place in `TermEnv::rules`.
    pub id: RuleId,
    /// The term that it is a rule of.
    pub root_term: TermId,
    /// What the term's arguments must be, in order.
    pub args: Vec<Pattern>,
    /// Further conditions, in order.
    pub iflets: Vec<IfLet>,
    /// What the term then is.
    pub rhs: Expr,
    /// The variables, by their ids: what each was called, and its type.
    pub vars: Vec<BoundVar>,
    /// Of the rules that match, one of greatest priority is taken; 0 where none was given.
    pub prio: i64,
    /// Where it was defined: what errors name, and what a tree's `Return` says it came from.
    pub pos: Pos,
    /// Its name, where it has one.
    pub name: Option<Sym>,
}

impl Rule {
    /// What the rule is referred to by: its name, or the text of its place where it has none. Condition: the name is
    /// one of `tyenv`, or where there is none the rule's file is one of these. Upstream's `Rule::identifier`.
    ///
    /// # Errors
    ///
    /// Where memory is refused.
    pub fn identifier(
        &self,
        alloc: Global,
        tyenv: &TypeEnv,
        files: &Files,
    ) -> Result<String, AllocError>
        requires name { HasIdentifier (names_of tyenv.now) (length files.now.names.items) (rule_view self.now) }
        requires text { HasIdentifier (names_of tyenv.now) (length files.now.texts.items) (rule_view self.now) }
        ensures { IfOk result (λ s. string_bytes s
            ≡ identifier (names_of tyenv.now)
            (printed_line (map string_bytes files.now.names.items) (map string_bytes files.now.texts.items)) (rule_view self.now)) }
    {
        match self.name {
            Some(name) => String::from_str(alloc, tyenv.text_of(name)),
            None => self.pos.pretty_print_line(alloc, files),
        }
    }
}

impl Clone for Rule {
    ghost is_clone = { λ r s. rule_view s ≡ rule_view r };

    fn clone(&self) -> Result<Rule, AllocError> {
        Ok(Rule {
            id: self.id,
            root_term: self.root_term,
            args: self.args.clone()?,
            iflets: self.iflets.clone()?,
            rhs: self.rhs.clone()?,
            vars: self.vars.clone()?,
            prio: self.prio,
            pos: self.pos,
            name: self.name,
        })
    }
}

// Written out, and so proved here once: a derived `Drop` is proved again in each crate that drops the
// type.
impl Drop for IfLet {
    fn drop(self) {
        let IfLet { lhs: _, rhs: _ } = self;
    }
}

impl Drop for Rule {
    fn drop(self) {
        let Rule {
            id: _,
            root_term: _,
            args: _,
            iflets: _,
            rhs: _,
            vars: _,
            prio: _,
            pos: _,
            name: _,
        } = self;
    }
}
