//! Typed rules, before and after internal extractors are expanded.

use crate::expressions::push_expr;
use crate::patterns::{push_pattern, push_patterns};
use cranelift_isle::environments::Environments;
use cranelift_isle::lower::Lowered;
use cranelift_isle::sema::{BoundVar, IfLet, Rule, RuleId};
use cranelift_isle::trie_again::BindingId;
use report_names::names::NameTables;
use report_queries::variable_sites::KnownSites;
use std::alloc::AllocError;
use text_json::Json;

// The rules of definitions, typed.
#[derive(Clone, Copy)]
struct TypedForm<'a> {
    // What names are looked up in.
    names: NameTables<'a>,
    // The rules, by their ids.
    rules: &'a [Rule],
}

/// The typed rules of definitions in both forms.
pub(crate) struct TypedForms<'a> {
    // Those in which internal extractors stand as they are written, where there are such.
    written: Option<TypedForm<'a>>,
    // Those in which they are expanded, where they were.
    expanded: Option<TypedForm<'a>>,
}

impl<'a> Drop for TypedForms<'a> {
    fn drop(self) {
        let TypedForms {
            written: _,
            expanded: _,
        } = self;
    }
}

impl<'a> TypedForms<'a> {
    /// Those of lowered definitions, of which these names are, and those before expansion, where there are such.
    pub(crate) fn new(
        names: NameTables<'a>,
        lowered: &'a Lowered,
        unexpanded: &'a Option<Environments>,
    ) -> TypedForms<'a> {
        let own = TypedForm {
            names,
            rules: &lowered.termenv.rules,
        };
        if !lowered.termenv.expand_internal_extractors {
            return TypedForms {
                written: Some(own),
                expanded: None,
            };
        }
        TypedForms {
            written: form_of(unexpanded),
            expanded: Some(own),
        }
    }

    /// Adds both forms of a rule, each at its key, with `null` where there is none. The sites are those of the form that they
    /// come from: the expanded one, where there is such.
    pub(crate) fn push_forms(
        &self,
        json: &mut Json,
        sites: &KnownSites<'_>,
        id: RuleId,
    ) -> Result<(), AllocError> {
        if self.expanded.is_none() {
            push_form(json, "written", &self.written, Some(sites), id)?;
            return json.key_null("expanded");
        }
        push_form(json, "written", &self.written, None, id)?;
        push_form(json, "expanded", &self.expanded, Some(sites), id)
    }
}

// The typed rules of environments.
fn form_of<'a>(environments: &'a Option<Environments>) -> Option<TypedForm<'a>> {
    match environments {
        Some(environments) => Some(TypedForm {
            names: NameTables {
                tyenv: &environments.tyenv,
                terms: &environments.termenv.terms,
            },
            rules: &environments.termenv.rules,
        }),
        None => None,
    }
}

// Adds a form of a rule at a key, with the sites of its variables, where it has some.
fn push_form(
    json: &mut Json,
    key: &str,
    form: &Option<TypedForm<'_>>,
    sites: Option<&KnownSites<'_>>,
    id: RuleId,
) -> Result<(), AllocError> {
    let Some(form) = form else {
        return json.key_null(key);
    };
    let Some(rule) = form.rules.get(id.index()) else {
        return json.key_null(key);
    };
    json.begin_object_at(key)?;
    match sites {
        Some(sites) => push_placed_variables(json, form.names, rule, &sites.of_rule(rule)?)?,
        None => push_variables(json, form.names, rule)?,
    }
    push_sides(json, form.names, rule)?;
    json.end()
}

// Adds what a typed rule has besides its variables.
fn push_sides(json: &mut Json, names: NameTables<'_>, rule: &Rule) -> Result<(), AllocError> {
    push_patterns(json, names, "arguments", &rule.args)?;
    push_iflets(json, names, &rule.iflets)?;
    json.key("right_side")?;
    push_expr(json, names, &rule.rhs)
}

// Adds the variables of a rule, by their ids.
fn push_variables(json: &mut Json, names: NameTables<'_>, rule: &Rule) -> Result<(), AllocError> {
    json.begin_list_at("variables")?;
    for variable in &rule.vars {
        push_variable(json, names, variable)?;
        json.end()?;
    }
    json.end()
}

// Adds the variables of a rule, by their ids, with their sites.
fn push_placed_variables(
    json: &mut Json,
    names: NameTables<'_>,
    rule: &Rule,
    sites: &[Option<BindingId>],
) -> Result<(), AllocError> {
    json.begin_list_at("variables")?;
    for (variable, site) in rule.vars.iter().zip(sites) {
        push_variable(json, names, variable)?;
        match site {
            Some(site) => json.key_number("site", site.index())?,
            None => json.key_null("site")?,
        }
        json.end()?;
    }
    json.end()
}

// Adds a variable up to its site.
fn push_variable(
    json: &mut Json,
    names: NameTables<'_>,
    variable: &BoundVar,
) -> Result<(), AllocError> {
    json.begin_object()?;
    json.key_number("id", variable.id.index())?;
    json.key_string("name", names.sym(variable.name))?;
    json.key_string("type", names.ty(variable.ty))
}

fn push_iflets(json: &mut Json, names: NameTables<'_>, iflets: &[IfLet]) -> Result<(), AllocError> {
    json.begin_list_at("iflets")?;
    for iflet in iflets {
        json.begin_object()?;
        json.key("pattern")?;
        push_pattern(json, names, &iflet.lhs)?;
        json.key("value")?;
        push_expr(json, names, &iflet.rhs)?;
        json.end()?;
    }
    json.end()
}
