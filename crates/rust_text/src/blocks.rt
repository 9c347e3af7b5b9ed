//! Blocks, and statements with bodies.

ghost use Rattle.std.specs.Prelude.{◌≡◌, ◌∷◌, not, OnOk};
ghost use Rattle.model_code.specs.Code.{labelled, match_on, no_code_arm, no_statement, statement};
ghost use Rattle.model_code.specs.Tokens.{opening_brace};
ghost use Rattle.model_code.specs.Notation.{Notation};
ghost use Rattle.model_code.specs.Pieces as Pieces;
ghost use Rattle.model_code.specs.Pieces.{block_before, is_left, label_before, line_end, put, result_ends, set_in, statement_before};
ghost use Rattle.model_code.specs.Written.{is_bare, unwrapped, written, written_arms, written_at};
ghost use Rattle.rust_code.specs.CodeViews.{arms_before, before, block_view, statement_view, use_view};
ghost use Rattle.core_rule_sets.specs.SiteViews.{constraint_view};
ghost use Rattle.rust_text.specs.Adding.{Adds, AddsBy};
ghost use Rattle.rust_text.specs.Margins.{margin_view};
ghost use Rattle.rust_text.specs.WrittenBodies.{body_before, labelled_before};

use crate::added::{add, add_word};
use crate::labels::{is_end, leaves_label};
use crate::layout::{Margin, add_label, add_margin, close_body};
use crate::notation::Writer;
use crate::statements::{
    add_no_way, add_unless_equal, begin_equal, begin_loop, begin_match, end_match,
};
use crate::tokens::{Piece, Word};
use rust_code::code::{CodeArm, CodeBlock, Statement, Use};
use std::alloc::AllocError;

impl Writer<'_> {
    /// Adds the statements of a block, up to one that nothing follows.
    #[cycle(code)]
    pub(crate) fn add_statements(
        &self,
        out: &mut Vec<Piece>,
        at: Margin,
        statements: &[Statement],
    ) -> Result<(), AllocError>
        ensures { OnOk result (AddsBy self.now out.old.items out.new.items (λ p rest.
            block_before p (margin_view at) (written p (before statements.now no_statement)) rest)) }
    {
        for statement in statements {
            self.add_statement(out, at, statement)?;
            if is_end(self.ends(), statement) {
                return Ok(());
            }
        }
        Ok(())
    }

    #[tactic(auto, using(rust_code::proofs::CodeBridges::code_steps))]
    #[cycle(code)]
    fn add_statement(
        &self,
        out: &mut Vec<Piece>,
        at: Margin,
        statement: &Statement,
    ) -> Result<(), AllocError>
        ensures { OnOk result (AddsBy self.now out.old.items out.new.items (λ p rest.
            statement_before p (margin_view at) (written_at p (statement_view statement.now)) rest)) }
    {
        match statement {
            Statement::Bind { site, expr } => Ok(self.add_bind(out, at, *site, expr)?),
            Statement::BindSome { site, value } => Ok(self.add_bind_some(out, at, *site, *value)?),
            Statement::NoWay => Ok(add_no_way(out, at)?),
            Statement::MatchOn { value, arms } => Ok(self.add_match(out, at, value, arms)?),
            Statement::IfEqual { a, b, body } => {
                begin_equal(out, at, *a, *b)?;
                Ok(self.add_body(out, at, body)?)
            }
            Statement::ForEachOf { site, from, body } => {
                begin_loop(out, at, *site, *from)?;
                Ok(self.add_body(out, at, body)?)
            }
            Statement::Give { pos, value } => Ok(self.add_give(out, at, *pos, *value)?),
            Statement::Labelled { body } => Ok(self.add_labelled(out, at, body)?),
            Statement::UnlessLet {
                value,
                pattern,
                fields,
            } => Ok(self.add_unless(out, at, *value, pattern, fields)?),
            Statement::UnlessEqual { a, b } => Ok(add_unless_equal(out, at, *a, *b)?),
        }
    }

    // Adds what follows a test or stands in a loop, and the brace that ends it.
    #[cycle(code)]
    fn add_body(&self, out: &mut Vec<Piece>, at: Margin, body: &CodeBlock) -> Result<(), AllocError>
        ensures { OnOk result (AddsBy self.now out.old.items out.new.items (λ p rest. body_before p (margin_view at) (block_view body.now) rest)) }
    {
        let inside = at.inside()?;
        self.add_inside(out, inside, &body.statements)?;
        Ok(close_body(out, at)?)
    }

    // Adds the statements within the braces of a body. If all of it is within a label that no test leaves, these are the label's
    // braces too: more of them would take more of rustc's stack.
    #[cycle(code)]
    fn add_inside(
        &self,
        out: &mut Vec<Piece>,
        at: Margin,
        statements: &[Statement],
    ) -> Result<(), AllocError>
        ensures { OnOk result (AddsBy self.now out.old.items out.new.items (λ p rest. block_before p (margin_view at)
            (unwrapped (is_bare p (before statements.now no_statement)) (written p (before statements.now no_statement))) rest)) }
    {
        match statements {
            [only] => Ok(self.add_only(out, at, only)?),
            [] => Ok(self.add_statements(out, at, statements)?),
            [_, _, ..] => Ok(self.add_statements(out, at, statements)?),
        }
    }

    #[tactic(auto, using(rust_code::proofs::CodeBridges::code_steps))]
    #[cycle(code)]
    fn add_only(&self, out: &mut Vec<Piece>, at: Margin, only: &Statement) -> Result<(), AllocError>
        ensures { OnOk result (AddsBy self.now out.old.items out.new.items (λ p rest. block_before p (margin_view at)
            (unwrapped (is_bare p (statement (statement_view only.now) no_statement)) (written p (statement (statement_view only.now) no_statement))) rest)) }
    {
        match only {
            Statement::Labelled { body } => Ok(self.add_only_label(out, at, body)?),
            Statement::Bind { .. } => Ok(self.add_statement(out, at, only)?),
            Statement::BindSome { .. } => Ok(self.add_statement(out, at, only)?),
            Statement::NoWay => Ok(self.add_statement(out, at, only)?),
            Statement::MatchOn { .. } => Ok(self.add_statement(out, at, only)?),
            Statement::IfEqual { .. } => Ok(self.add_statement(out, at, only)?),
            Statement::ForEachOf { .. } => Ok(self.add_statement(out, at, only)?),
            Statement::Give { .. } => Ok(self.add_statement(out, at, only)?),
            Statement::UnlessLet { .. } => Ok(self.add_statement(out, at, only)?),
            Statement::UnlessEqual { .. } => Ok(self.add_statement(out, at, only)?),
        }
    }

    // Adds a block with a label that is all of a body.
    #[cycle(code)]
    fn add_only_label(
        &self,
        out: &mut Vec<Piece>,
        at: Margin,
        body: &CodeBlock,
    ) -> Result<(), AllocError>
        ensures { OnOk result (AddsBy self.now out.old.items out.new.items (λ p rest. block_before p (margin_view at)
            (unwrapped (not (is_left (result_ends p) (block_view body.now))) (statement (labelled (written p (block_view body.now))) no_statement)) rest)) }
    {
        if leaves_label(self.ends(), &body.statements) {
            Ok(self.add_labelled(out, at, body)?)
        } else {
            Ok(self.add_statements(out, at, &body.statements)?)
        }
    }

    // Adds a block with a label, or with braces alone where no test leaves it.
    #[cycle(code)]
    fn add_labelled(
        &self,
        out: &mut Vec<Piece>,
        at: Margin,
        body: &CodeBlock,
    ) -> Result<(), AllocError>
        ensures { OnOk result (AddsBy self.now out.old.items out.new.items (λ p rest. labelled_before p (margin_view at) (block_view body.now) rest)) }
    {
        let is_left = leaves_label(self.ends(), &body.statements);
        let inside = at.in_braces(is_left)?;
        begin_labelled(out, at, is_left)?;
        self.add_statements(out, inside, &body.statements)?;
        Ok(close_body(out, at)?)
    }

    // Adds a match: one arm as a test, several within a match.
    #[cycle(code)]
    fn add_match(
        &self,
        out: &mut Vec<Piece>,
        at: Margin,
        value: &Use,
        arms: &[CodeArm],
    ) -> Result<(), AllocError>
        ensures { OnOk result (AddsBy self.now out.old.items out.new.items (λ p rest. statement_before p (margin_view at)
            (match_on (use_view value.now) (written_arms p (arms_before arms.now no_code_arm))) rest)) }
    {
        let is_alone = stands_alone(arms);
        let inside = at.of_arms(is_alone)?;
        begin_match(out, at, is_alone, *value)?;
        self.add_arms(out, inside, is_alone, value, arms)?;
        Ok(end_match(out, at, is_alone)?)
    }

    #[cycle(code)]
    fn add_arms(
        &self,
        out: &mut Vec<Piece>,
        at: Margin,
        is_alone: bool,
        value: &Use,
        arms: &[CodeArm],
    ) -> Result<(), AllocError>
        ensures { OnOk result (AddsBy self.now out.old.items out.new.items (λ p rest. Pieces.arms_before is_alone p (margin_view at) (use_view value.now)
            (written_arms p (arms_before arms.now no_code_arm)) rest)) }
    {
        for arm in arms {
            self.add_arm(out, at, is_alone, value, arm)?;
        }
        Ok(())
    }

    #[cycle(code)]
    fn add_arm(
        &self,
        out: &mut Vec<Piece>,
        at: Margin,
        is_alone: bool,
        value: &Use,
        arm: &CodeArm,
    ) -> Result<(), AllocError>
        ensures { OnOk result (AddsBy self.now out.old.items out.new.items (λ p rest. Pieces.arm_head is_alone p (margin_view at) (use_view value.now)
            (constraint_view arm.now.pattern) arm.now.fields.items (body_before p (margin_view at) (block_view arm.now.body) rest))) }
    {
        self.begin_arm(out, at, is_alone, *value, &arm.pattern, &arm.fields)?;
        Ok(self.add_body(out, at, &arm.body)?)
    }
}

fn stands_alone(arms: &[CodeArm]) -> bool
    ensures { (p : Notation) → result ≡ Pieces.is_alone (written_arms p (arms_before arms.now no_code_arm)) }
{
    arms.len() == 1
}

// Adds the line that a block with a label begins with.
fn begin_labelled(out: &mut Vec<Piece>, at: Margin, is_left: bool) -> Result<(), AllocError>
    ensures { OnOk result (Adds out.old.items out.new.items (λ p rest.
        set_in at.depth ∷ label_before is_left (margin_view at) (put opening_brace (line_end ∷ rest)))) }
{
    add_margin(out, at)?;
    add_label(out, at, is_left)?;
    add_word(out, Word::OpeningBrace)?;
    add(out, Piece::LineEnd)
}
