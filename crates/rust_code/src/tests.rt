//! The statements that test or give, each from what follows it.

ghost use Rattle.std.specs.Prelude.{◌≡◌, ◌==◌, ◌&&◌, IfOk, OnOk, Some, slice_get};
ghost use Rattle.model_code.specs.Code as Code;
ghost use Rattle.model_code.specs.Code.{give, if_equal, match_on, no_code_arm, no_statement, statement, unless_equal, unless_let};
ghost use Rattle.model_code.specs.Flat.{within};
ghost use Rattle.model_code.specs.TreeCode.{loop_code, to_compare, to_match, to_result, use_at};
ghost use Rattle.core_syntax.specs.SyntaxViews.{position};
ghost use Rattle.core_rule_sets.specs.SiteViews.{constraint_view, site_view, site_views};
ghost use Rattle.rust_code.specs.CodeViews.{arms_before, before, block_view, statement_view};
ghost use Rattle.rust_code.specs.HeldViews.{passes_in};

use crate::code::{CodeArm, CodeBlock, Statement};
use crate::stage::Stage;
use crate::uses::{compared_use, lent_use, result_use};
use core_rule_sets::trie_again::{Binding, BindingId, Constraint};
use core_syntax::syntax::Pos;
use std::alloc::AllocError;

/// A match of a site.
#[tactic(auto, using(crate::proofs::CodeBridges::code_steps))]
pub(crate) fn matched(stage: &Stage<'_>, source: BindingId, arms: Vec<CodeArm>) -> Statement
    ensures { statement_view result
        ≡ match_on (use_at (site_views stage.now.sites.now) (passes_in stage.now) to_match source) (arms_before arms.items no_code_arm) }
{
    Statement::MatchOn {
        value: lent_use(stage, source),
        arms,
    }
}

/// A comparison of two sites.
#[tactic(auto, using(crate::proofs::CodeBridges::code_steps))]
pub(crate) fn compared(stage: &Stage<'_>, a: BindingId, b: BindingId, body: CodeBlock) -> Statement
    ensures { statement_view result
        ≡ if_equal (use_at (site_views stage.now.sites.now) (passes_in stage.now) (to_compare b) a)
        (use_at (site_views stage.now.sites.now) (passes_in stage.now) (to_compare a) b) (block_view body) }
{
    Statement::IfEqual {
        a: compared_use(stage, a, b),
        b: compared_use(stage, b, a),
        body,
    }
}

// A loop over the answers of a call, where its site stands for this. No run comes to one of another site.
#[tactic(auto, using(crate::proofs::CodeBridges::code_steps))]
fn loop_of(binding: &Binding, site: BindingId, body: CodeBlock) -> Statement
    ensures { statement_view result ≡ loop_code (Some (site_view binding.now)) site (block_view body) }
{
    match binding {
        Binding::Iterator { source } => Statement::ForEachOf {
            site,
            from: *source,
            body,
        },
        Binding::ConstBool { .. } => Statement::NoWay,
        Binding::ConstInt { .. } => Statement::NoWay,
        Binding::ConstPrim { .. } => Statement::NoWay,
        Binding::Argument { .. } => Statement::NoWay,
        Binding::Extractor { .. } => Statement::NoWay,
        Binding::Constructor { .. } => Statement::NoWay,
        Binding::MakeVariant { .. } => Statement::NoWay,
        Binding::MatchVariant { .. } => Statement::NoWay,
        Binding::MakeStruct { .. } => Statement::NoWay,
        Binding::ExtractStruct { .. } => Statement::NoWay,
        Binding::MakeSome { .. } => Statement::NoWay,
        Binding::MatchSome { .. } => Statement::NoWay,
        Binding::MatchTuple { .. } => Statement::NoWay,
    }
}

/// A loop over the answers of the call that a site goes over.
pub(crate) fn loop_over(stage: &Stage<'_>, site: BindingId, body: CodeBlock) -> Statement
    ensures { statement_view result ≡ loop_code (slice_get (site_views stage.now.sites.now) site) site (block_view body) }
{
    match stage.sites.get(site.index()) {
        Some(binding) => loop_of(binding, site, body),
        None => Statement::NoWay,
    }
}

/// A result.
#[tactic(auto, using(crate::proofs::CodeBridges::code_steps))]
pub(crate) fn given(stage: &Stage<'_>, pos: Pos, value: BindingId) -> Statement
    ensures { statement_view result ≡ give (position pos) (use_at (site_views stage.now.sites.now) (passes_in stage.now) to_result value) }
{
    Statement::Give {
        pos,
        value: result_use(stage, value),
    }
}

/// Adds a comparison that leaves the label.
pub(crate) fn add_unless_equal(
    stage: &Stage<'_>,
    out: &mut Vec<Statement>,
    a: BindingId,
    b: BindingId,
) -> Result<(), AllocError>
    ensures { OnOk result ((rest : Code.Block) → before out.new.items rest
        ≡ before out.old.items (statement (unless_equal (use_at (site_views stage.now.sites.now) (passes_in stage.now) (to_compare b) a)
        (use_at (site_views stage.now.sites.now) (passes_in stage.now) (to_compare a) b)) rest)) }
{
    let tested = test_equal(stage, a, b);
    out.push(tested)?;
    Ok(())
}

// A comparison that leaves the label.
#[tactic(auto, using(crate::proofs::CodeBridges::code_steps))]
fn test_equal(stage: &Stage<'_>, a: BindingId, b: BindingId) -> Statement
    ensures { statement_view result
        ≡ unless_equal (use_at (site_views stage.now.sites.now) (passes_in stage.now) (to_compare b) a)
        (use_at (site_views stage.now.sites.now) (passes_in stage.now) (to_compare a) b) }
{
    Statement::UnlessEqual {
        a: compared_use(stage, a, b),
        b: compared_use(stage, b, a),
    }
}

/// Adds a match of one arm that leaves the label.
pub(crate) fn add_unless_let(
    stage: &Stage<'_>,
    out: &mut Vec<Statement>,
    source: BindingId,
    pattern: Constraint,
    fields: &[Option<BindingId>],
) -> Result<(), AllocError>
    ensures { OnOk result ((rest : Code.Block) → before out.new.items rest
        ≡ before out.old.items (statement (unless_let (use_at (site_views stage.now.sites.now) (passes_in stage.now) to_match source)
        (constraint_view pattern) fields.now) rest)) }
{
    let tested = test_pattern(stage, source, pattern, fields)?;
    out.push(tested)?;
    Ok(())
}

// A match of one arm that leaves the label.
#[tactic(auto, using(crate::proofs::CodeBridges::code_steps))]
fn test_pattern(
    stage: &Stage<'_>,
    source: BindingId,
    pattern: Constraint,
    fields: &[Option<BindingId>],
) -> Result<Statement, AllocError>
    ensures { IfOk result (λ s. statement_view s
        ≡ unless_let (use_at (site_views stage.now.sites.now) (passes_in stage.now) to_match source) (constraint_view pattern) fields.now) }
{
    let fields = Vec::from_slice(stage.alloc, fields)?;
    Ok(Statement::UnlessLet {
        value: lent_use(stage, source),
        pattern,
        fields,
    })
}

/// Whether a step of this number, of so many, ends the block of a label.
pub(crate) fn is_end(leaves: bool, number: usize, count: usize) -> bool
    ensures { result ≡ (leaves && (number == count)) }
{
    leaves && number == count
}

/// A block of statements, within a label where it is deep.
pub(crate) fn in_label(
    stage: &Stage<'_>,
    statements: Vec<Statement>,
    is_deep: bool,
) -> Result<CodeBlock, AllocError>
    ensures { IfOk result (λ b. block_view b ≡ within is_deep (before statements.items no_statement) (before statements.items no_statement)) }
{
    if is_deep {
        Ok(labelled(stage, statements)?)
    } else {
        Ok(CodeBlock { statements })
    }
}

#[tactic(auto, using(crate::proofs::CodeBridges::code_steps))]
fn labelled(stage: &Stage<'_>, statements: Vec<Statement>) -> Result<CodeBlock, AllocError>
    ensures { IfOk result (λ b. block_view b ≡ statement (Code.labelled (before statements.items no_statement)) no_statement) }
{
    let mut out = Vec::new(stage.alloc);
    out.push(Statement::Labelled {
        body: CodeBlock { statements },
    })?;
    Ok(CodeBlock { statements: out })
}
