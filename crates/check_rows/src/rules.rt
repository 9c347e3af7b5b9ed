//! Rules as they are read, without trees.

use cranelift_isle::sema::{Rule, TermEnv, TypeEnv};
use cranelift_isle::syntax::{Def, Fault};
use report_print::errors::error_lines;
use report_print::places::Places;
use report_queries::answers::TreesOrErrors;
use report_queries::answers_texts::syntax_error_line;
use std::alloc::{AllocError, Global};
use text_reader::errors::ReadFault;
use text_reader::read;

/// A line with the number of the terms of a text's definitions and a line for each rule, with its name and its variables, and
/// its parts below it where `parts` says so; or one line for each error of reading them.
pub fn rules_of_text(
    alloc: Global,
    text: &str,
    expand: bool,
    parts: bool,
) -> Result<TreesOrErrors, AllocError> {
    match read(alloc, 0, text) {
        Ok(defs) => rules_of_defs(alloc, &defs, expand, parts),
        Err(ReadFault::Text(error)) => Ok(TreesOrErrors::Errors(syntax_error_line(
            alloc, text, &error,
        )?)),
        Err(ReadFault::Memory(error)) => Err(error),
    }
}

// The same of definitions. An error's place is the number of the definition that it lies in.
fn rules_of_defs(
    alloc: Global,
    defs: &[Def],
    expand: bool,
    parts: bool,
) -> Result<TreesOrErrors, AllocError> {
    match text_of_rules(alloc, defs, expand, parts) {
        Ok(text) => Ok(TreesOrErrors::Trees(text)),
        Err(Fault::Errors(errors)) => {
            let lines = error_lines(alloc, &errors, Places::Definitions(defs))?;
            Ok(TreesOrErrors::Errors(lines))
        }
        Err(Fault::Memory(error)) => Err(error),
    }
}

fn text_of_rules(alloc: Global, defs: &[Def], expand: bool, parts: bool) -> Result<String, Fault> {
    let mut tyenv = TypeEnv::from_ast(alloc, defs)?;
    let env = TermEnv::from_ast(alloc, &mut tyenv, defs, expand)?;
    let mut out = number_of_terms(alloc, env.terms.len())?;
    for rule in &env.rules {
        push_rule(&mut out, &tyenv, rule)?;
        if parts {
            push_parts(&mut out, rule)?;
        }
    }
    Ok(out)
}

// How many terms the definitions declare and their types make.
fn number_of_terms(alloc: Global, count: usize) -> Result<String, AllocError> {
    format!(in alloc; "{count} terms\n")
}

// Adds the line of a rule: its name, where it has one, and the names of its variables.
fn push_rule(out: &mut String, tyenv: &TypeEnv, rule: &Rule) -> Result<(), AllocError> {
    out.push_str("rule")?;
    if let Some(name) = rule.name {
        let name = tyenv.text_of(name);
        write!(out, " {name}")?;
    }
    for (i, var) in rule.vars.iter().enumerate() {
        let before = if i == 0 { ": " } else { ", " };
        let name = tyenv.text_of(var.name);
        write!(out, "{before}{name}")?;
    }
    out.push('\n')
}

// Adds a line for the patterns, the if-lets and the right side of a rule.
fn push_parts(out: &mut String, rule: &Rule) -> Result<(), AllocError> {
    write!(out, "  args {:?}\n", rule.args)?;
    write!(out, "  iflets {:?}\n", rule.iflets)?;
    write!(out, "  rhs {:?}\n", rule.rhs)
}
