//! How large terms are.

use cranelift_isle::lower::Lowered;
use report_names::names::NameTables;
use report_ways::term_sizes::{TermSize, sizes};
use std::alloc::{AllocError, Global};
use text_json::Json;

/// Adds the sizes of terms with rules, the one with most rules first.
pub(crate) fn push_sizes(
    alloc: Global,
    json: &mut Json,
    lowered: &Lowered,
) -> Result<(), AllocError> {
    let names = NameTables {
        tyenv: &lowered.tyenv,
        terms: &lowered.termenv.terms,
    };
    json.begin_list_at("terms")?;
    for size in &sizes(alloc, lowered)? {
        push_size(json, names, size)?;
    }
    json.end()
}

fn push_size(json: &mut Json, names: NameTables<'_>, size: &TermSize) -> Result<(), AllocError> {
    json.begin_object()?;
    json.key_string("name", names.term(size.term))?;
    json.key_number("rules", size.rules)?;
    json.key_number("sites", size.sites)?;
    json.key_number("tests", size.tree.tests as usize)?;
    json.key_number("arms", size.tree.arms as usize)?;
    json.key_number("returns", size.tree.returns as usize)?;
    json.key_number("depth", size.tree.depth as usize)?;
    json.end()
}
