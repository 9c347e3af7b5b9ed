//! Trees.

use crate::sites::{push_constraint, push_ids};
use cranelift_isle::serialize::{Block, ControlFlow, EvalStep, MatchArm};
use cranelift_isle::syntax::Pos;
use cranelift_isle::trie_again::{BindingId, RuleSet};
use report_names::names::NameTables;
use report_queries::rules::rule_behind;
use std::alloc::AllocError;
use text_json::Json;

/// What a tree speaks of.
#[derive(Clone, Copy)]
pub(crate) struct Sources<'a> {
    /// What names are looked up in.
    pub(crate) names: NameTables<'a>,
    /// The sites and the rules.
    pub(crate) set: &'a RuleSet,
}

impl<'a> Sources<'a> {
    /// Adds the steps of a block at a key, in order.
    #[cycle(json)]
    pub(crate) fn push_block(
        &self,
        json: &mut Json,
        key: &str,
        block: &Block,
    ) -> Result<(), AllocError> {
        json.begin_list_at(key)?;
        for step in &block.steps {
            self.push_step(json, step)?;
        }
        json.end()
    }

    #[cycle(json)]
    fn push_step(&self, json: &mut Json, step: &EvalStep) -> Result<(), AllocError> {
        json.begin_object()?;
        push_ids(json, "bind", &step.bind_order)?;
        self.push_check(json, &step.check)?;
        json.end()
    }

    // Adds a test with what follows it, or an end.
    #[cycle(json)]
    fn push_check(&self, json: &mut Json, check: &ControlFlow) -> Result<(), AllocError> {
        match check {
            ControlFlow::Match { source, arms } => {
                begin_test(json, "match", &[*source])?;
                self.push_arms(json, arms)
            }
            ControlFlow::Equal { a, b, body } => {
                begin_test(json, "equal", &[*a, *b])?;
                self.push_block(json, "body", body)
            }
            ControlFlow::Loop { result, body } => {
                begin_test(json, "loop", &[*result])?;
                self.push_block(json, "body", body)
            }
            ControlFlow::Return { pos, result } => self.push_return(json, *pos, *result),
        }
    }

    #[cycle(json)]
    fn push_arms(&self, json: &mut Json, arms: &[MatchArm]) -> Result<(), AllocError> {
        json.begin_list_at("arms")?;
        for arm in arms {
            self.begin_arm(json, arm)?;
            self.push_block(json, "body", &arm.body)?;
            json.end()?;
        }
        json.end()
    }

    // Adds an arm up to its body.
    fn begin_arm(&self, json: &mut Json, arm: &MatchArm) -> Result<(), AllocError> {
        json.begin_object()?;
        push_constraint(json, self.names, arm.constraint)?;
        json.begin_list_at("fields")?;
        for field in &arm.bindings {
            push_field(json, *field)?;
        }
        json.end()
    }

    // Adds a return, with the id of its rule.
    fn push_return(&self, json: &mut Json, pos: Pos, site: BindingId) -> Result<(), AllocError> {
        begin_test(json, "return", &[site])?;
        match rule_behind(self.set, pos, site) {
            Some(rule) => json.key_number("rule", rule.id.index()),
            None => Ok(()),
        }
    }
}

// Adds a test up to what follows it.
fn begin_test(json: &mut Json, test: &str, sites: &[BindingId]) -> Result<(), AllocError> {
    json.key_string("test", test)?;
    push_ids(json, "sites", sites)
}

// Adds the site of a field, or `null` where it has none.
fn push_field(json: &mut Json, field: Option<BindingId>) -> Result<(), AllocError> {
    match field {
        Some(site) => json.number(site.index()),
        None => json.null(),
    }
}
