//! Stubs of what the module above the code must have.

use crate::context::push_context;
use crate::names::{push_constant, push_name};
use crate::options::CodeError;
use crate::program::{ALLOWED, Program};
use crate::types::{
    has_any_field, have_fields, push_attributes, push_head, push_struct, push_variants,
};
use cranelift_isle::sema::{BuiltinType, Sym, Type, TypeId};
use std::alloc::{AllocError, Global};
use std::collections::BTreeMap;

// What stands before the first item: the code's module, and what all code asks for.
const HEAD: &str = "
// The code of the rules is in the file rules.rs.
pub mod rules;
#[allow(unused_imports)]
use rules::*;

/// The most results that are collected at once.
pub const MAX_ISLE_RETURNS: usize = 64;
/// A list of results.
pub type ConstructorVec<T> = ::std::vec::Vec<T>;
";

// What a module begins with.
const FROM_ABOVE: &str = "#[allow(unused_imports)]\nuse super::*;\n";

/// Adds what the module above the code of a program must have: primitive types as integers, constants as numbers, the enums and
/// structs that are declared outside, and a `Context` whose functions are `todo!()`.
///
/// # Errors
///
/// Those of `push_context`.
pub fn push_stubs(out: &mut String, program: Program<'_>) -> Result<(), CodeError> {
    program.lines.push_files(out)?;
    out.push_str(HEAD)?;
    push_modules(out, &outers_of(program)?)?;
    for ty in &program.tyenv.types {
        push_composed(out, program, ty)?;
    }
    push_functions(out, program)
}

// The primitive types and the constants, by the path of the module that has them, with `::` behind each name.
fn outers_of(program: Program<'_>) -> Result<BTreeMap<String, String>, AllocError> {
    let mut modules = BTreeMap::new(program.alloc);
    for (number, ty) in program.tyenv.types.iter().enumerate() {
        add_type(&mut modules, program, TypeId(number), ty)?;
    }
    add_constants(&mut modules, program)?;
    Ok(modules)
}

// Adds a type whose values have no form here, as integers: rules may have integers of it.
fn add_type(
    modules: &mut BTreeMap<String, String>,
    program: Program<'_>,
    id: TypeId,
    ty: &Type,
) -> Result<(), AllocError> {
    if !is_integer(ty) {
        return Ok(());
    }
    let mut path = String::new(program.alloc);
    program.push_type(&mut path, id)?;
    add_item(program.alloc, modules, &path, ("type", " = i128"))
}

// Whether nothing is known of a type's values: it is primitive, or an enum that is declared outside and has no variant.
fn is_integer(ty: &Type) -> bool {
    match ty {
        Type::Primitive(..) => true,
        Type::Enum {
            is_extern,
            variants,
            ..
        } => *is_extern && variants.is_empty(),
        Type::Builtin(_) | Type::Struct { .. } => false,
    }
}

// Adds the constants, in the order of their names' numbers.
fn add_constants(
    modules: &mut BTreeMap<String, String>,
    program: Program<'_>,
) -> Result<(), AllocError> {
    let mut count = 0usize;
    for number in 0..program.tyenv.syms.len() {
        if let Some(ty) = program.tyenv.const_types.get(&Sym(number)) {
            count = count.saturating_add(1);
            add_constant(modules, program, Sym(number), *ty, count)?;
        }
    }
    Ok(())
}

// Adds the constant of a count, unless Rust has it.
fn add_constant(
    modules: &mut BTreeMap<String, String>,
    program: Program<'_>,
    name: Sym,
    id: TypeId,
    count: usize,
) -> Result<(), AllocError> {
    let mut path = String::new(program.alloc);
    push_constant(&mut path, program.tyenv.text_of(name))?;
    if matches!(path.as_str(), "true" | "false") {
        return Ok(());
    }
    let mut text = String::from_str(program.alloc, ": ")?;
    program.push_type(&mut text, id)?;
    text.push_str(" = ")?;
    push_value(&mut text, program, id, count)?;
    add_item(program.alloc, modules, &path, ("const", &text))
}

// Adds the value of the constant of a count: the count, as far as the type has it, or what zeros make.
fn push_value(
    out: &mut String,
    program: Program<'_>,
    id: TypeId,
    count: usize,
) -> Result<(), AllocError> {
    match program.tyenv.types.get(id.index()) {
        Some(Type::Builtin(BuiltinType::Bool)) => out.push_str("true"),
        // each type of integers has it
        Some(Type::Builtin(BuiltinType::Int(_))) => {
            let small = count % 100;
            write!(out, "{small}")
        }
        Some(known) if is_integer(known) => write!(out, "{count}"),
        _ => out.push_str("unsafe { ::std::mem::zeroed() }"),
    }
}

// Adds an item at a path: the word before its name and the text behind it. What a library of Rust has isn't declared.
fn add_item(
    alloc: Global,
    modules: &mut BTreeMap<String, String>,
    path: &str,
    (word, text): (&str, &str),
) -> Result<(), AllocError> {
    let Some(path) = own_path(path) else {
        return Ok(());
    };
    let (module, name) = match path.rsplit_once("::") {
        Some((module, name)) => (format!(in alloc; "{module}::")?, name),
        None => (String::new(alloc), path),
    };
    let item = format!(in alloc; "pub {word} {name}{text};\n")?;
    if let Some(items) = modules.get_mut(module.as_str()) {
        return items.push_str(&item);
    }
    modules.insert(module, item)?;
    Ok(())
}

// A path from this module, or None where it leads into a library of Rust.
fn own_path(path: &str) -> Option<&str> {
    match path.split_once("::") {
        Some(("std" | "core" | "alloc", _)) => None,
        Some(("crate" | "self" | "super", rest)) => Some(rest),
        _ => Some(path),
    }
}

// Adds modules, each with its items. In the order of their paths a module comes before those in it.
fn push_modules(out: &mut String, modules: &BTreeMap<String, String>) -> Result<(), AllocError> {
    let mut open = "";
    for (path, items) in modules {
        push_turn(out, open, path.as_str())?;
        out.push_str(items)?;
        open = path.as_str();
    }
    push_turn(out, open, "")
}

// Ends the modules of one path and begins those of the next, but for those that both begin with.
fn push_turn(out: &mut String, open: &str, next: &str) -> Result<(), AllocError> {
    let shared = shared_names(open, next);
    push_ends(out, open, shared)?;
    push_begins(out, next, shared)
}

// How many names two paths begin with.
fn shared_names(one: &str, other: &str) -> usize {
    let mut count = 0usize;
    for (name, beside) in one.split("::").zip(other.split("::")) {
        if name != beside {
            return count;
        }
        count = count.saturating_add(1);
    }
    count
}

// Ends a module for each name of a path but so many.
fn push_ends(out: &mut String, path: &str, shared: usize) -> Result<(), AllocError> {
    for name in path.split("::").skip(shared) {
        out.push_str(if name.is_empty() { "" } else { "}\n" })?;
    }
    Ok(())
}

// Begins a module for each name of a path but so many.
fn push_begins(out: &mut String, path: &str, shared: usize) -> Result<(), AllocError> {
    for name in path.split("::").skip(shared) {
        if !name.is_empty() {
            write!(out, "pub mod {name} {{\n{FROM_ABOVE}")?;
        }
    }
    Ok(())
}

// Adds an enum or a struct where it is declared outside, and what the code may ask of it and doesn't derive.
fn push_composed(out: &mut String, program: Program<'_>, ty: &Type) -> Result<(), AllocError> {
    match ty {
        Type::Enum {
            name,
            is_extern,
            is_nodebug,
            variants,
            pos,
            ..
        } if !is_integer(ty) => {
            let has_fields = have_fields(variants);
            let lacks_debug = *is_nodebug || (*is_extern && has_fields);
            if *is_extern {
                push_attributes(out, program, has_fields, has_fields, *pos)?;
                push_head(out, program, "enum ", *name)?;
                push_variants(out, program, variants)?;
            }
            push_impls(out, program, *name, (has_fields, lacks_debug))
        }
        Type::Struct {
            name,
            is_extern,
            is_nodebug,
            fields,
            pos,
            ..
        } => {
            let has_fields = has_any_field(fields);
            let lacks_debug = *is_nodebug || (*is_extern && has_fields);
            if *is_extern {
                push_attributes(out, program, has_fields, has_fields, *pos)?;
                push_head(out, program, "struct ", *name)?;
                push_struct(out, program, fields)?;
            }
            push_impls(out, program, *name, (has_fields, lacks_debug))
        }
        Type::Builtin(_) | Type::Primitive(..) | Type::Enum { .. } => Ok(()),
    }
}

// Adds equality of a type's values and `Debug`, where the code may ask for it.
fn push_impls(
    out: &mut String,
    program: Program<'_>,
    name: Sym,
    (equality, debug): (bool, bool),
) -> Result<(), AllocError> {
    let mut written = String::new(program.alloc);
    push_name(&mut written, program.tyenv.text_of(name))?;
    if equality {
        write!(
            out,
            "\nimpl ::std::cmp::PartialEq for {written} {{\n    fn eq(&self, _: &Self) -> bool {{\n        todo!()\n    }}\n}}\n"
        )?;
    }
    if debug {
        write!(
            out,
            "\nimpl ::std::fmt::Debug for {written} {{\n    fn fmt(&self, _: &mut ::std::fmt::Formatter<'_>) -> ::std::fmt::Result {{\n        todo!()\n    }}\n}}\n"
        )?;
    }
    Ok(())
}

// Adds a `Context`: the trait's functions, with bodies that are yet to be written.
fn push_functions(out: &mut String, program: Program<'_>) -> Result<(), CodeError> {
    let mut context = String::new(program.alloc);
    push_context(&mut context, program)?;
    out.push_str("\n/// What the rules work on.\npub struct Stubs;\n\n")?;
    out.push_str(ALLOWED)?;
    out.push_str("impl Context for Stubs {\n")?;
    for line in context.lines() {
        if let Some(item) = line.strip_suffix(';') {
            push_member(out, item)?;
        }
    }
    out.push_str("}\n")?;
    Ok(())
}

// Adds a member of the trait: a function whose body is yet to be written, or the type of a list of results.
fn push_member(out: &mut String, item: &str) -> Result<(), AllocError> {
    match item.split_once(": Default + IntoContextIter<Context = Self, Output = ") {
        Some((name, outputs)) => {
            write!(
                out,
                "{name} = ContextIterWrapper<::std::vec::Vec<{outputs}, Self>;\n"
            )
        }
        None => write!(out, "{item} {{\n        todo!()\n    }}\n"),
    }
}
