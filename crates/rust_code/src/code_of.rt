//! The code of a term's tree.

ghost use Rattle.std.specs.Prelude.{◌≡◌, IfOk};
ghost use Rattle.model.specs.rules.Program.{Program};
ghost use Rattle.model_code.specs.Flat.{flat};
ghost use Rattle.core_rule_sets.specs.SiteViews.{site_views};
ghost use Rattle.core_serialize.specs.TreeViews.{tree_view};
ghost use Rattle.rust_code.specs.CodeOf.{code_in_program};
ghost use Rattle.rust_code.specs.CodeViews.{block_view};
ghost use Rattle.rust_code.specs.Labels.{code_in, is_deep};
ghost use Rattle.rust_code.specs.SeenTypes.{AreTablesOf};

use crate::blocks::add_steps;
use crate::code::CodeBlock;
use crate::held::{held_by, is_multi};
use crate::moves::with_moves;
use crate::stage::Stage;
use crate::types::Tables;
use core_serialize::serialize::Block;
use std::alloc::{AllocError, Global};

/// Bodies nest so often before they get labels.
const DEEPEST: usize = 12;

/// The code of the tree of a term: one statement for each site that is bound, in the order of its bind orders, and one for each test
/// and each result. Values are handed on as the types of their sites ask; what is kept and isn't `Copy` is moved where nothing reads
/// it later, and cloned elsewhere. From the thirteenth test within another on, the body of a test stands within a label, and the test
/// that ends it leaves the label where it isn't met.
///
/// # Errors
///
/// Where memory is refused.
pub fn code_of(alloc: Global, tables: &Tables<'_>, block: &Block) -> Result<CodeBlock, AllocError>
    // it is the code of the tree in each program that these are the tables of
    ensures { IfOk result (λ c. (p : Program) → AreTablesOf tables.now.tyenv.now tables.now.terms.now p
        → block_view c ≡ code_in_program p tables.now.term.0 (site_views tables.now.sites.now) (tree_view block.now)) }
{
    let held = held_by(alloc, tables)?;
    let stage = Stage {
        alloc,
        sites: tables.sites,
        held: &held,
        multi: is_multi(tables.terms, tables.term),
    };
    let code = code_with(&stage, block)?;
    Ok(with_moves(alloc, &held, &code)?)
}

// The code of a tree, by how its sites hold their values.
fn code_with(stage: &Stage<'_>, block: &Block) -> Result<CodeBlock, AllocError>
    ensures { IfOk result (λ c. block_view c ≡ flat (code_in stage.now (tree_view block.now)) is_deep 0) }
{
    let mut statements = Vec::new(stage.alloc);
    add_steps(&block.steps, stage, &mut statements, DEEPEST, false)?;
    Ok(CodeBlock { statements })
}
