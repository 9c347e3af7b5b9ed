//! What may be written at a place.

use crate::analysis::Analysis;
use crate::outline::signature_of;
use crate::ranges::Ranges;
use crate::references::position_in;
use crate::signatures::text_of_type;
use app_messages::refusals::Refusal;
use app_names::contexts::{Context, context_at};
use cranelift_isle::sema::BuiltinType;
use cranelift_isle::syntax::{Def, Extern, Pos, Type, TypeValue};
use report_names::definitions::result_of;
use report_names::mentions::argument_type;
use report_print::lines::{FileLines, file_name};
use serde_json::{Value, json};
use std::alloc::{AllocError, Global};
use text_reader::heads::DEFINITIONS;

// What is wanted at a place.
#[derive(Clone, Copy)]
enum Wanted<'a> {
    // A word that a definition begins with.
    Definition,
    // One of these words.
    Words(&'a [&'a str]),
    // A type, or one of these words.
    Type(&'a [&'a str]),
    // A term, best one whose result has this type, or one of these words.
    Term(&'a str, &'a [&'a str]),
    // A variable or a constant, best one of this type.
    Value(&'a str),
}

// The items of an answer.
struct Items<'a> {
    alloc: Global,
    analysis: &'a Analysis,
    lines: FileLines<'a>,
    // The range that an item replaces.
    range: Value,
    found: Vec<Value>,
}

impl<'a> Drop for Items<'a> {
    fn drop(self) {
        let Items {
            alloc: _,
            analysis: _,
            lines: _,
            range: _,
            found: _,
        } = self;
    }
}

/// What may be written at a place: null in a comment.
pub fn completions_at(
    alloc: Global,
    analysis: &Analysis,
    file: usize,
    params: &Value,
) -> Result<Value, Refusal> {
    let pos = position_in(analysis, file, params)?;
    let Some(context) = context_at(alloc, analysis.text(file), pos.offset)? else {
        return Ok(Value::Null);
    };
    let range = Ranges::new(alloc, analysis)?.between(file, context.begin, pos.offset)?;
    let mut items = Items {
        alloc,
        analysis,
        lines: FileLines::new(alloc, &analysis.sources.files)?,
        range,
        found: Vec::new(alloc),
    };
    items.add_wanted(&context)?;
    Ok(Value::Array(items.into_found()))
}

// What is wanted at a place.
fn wanted_at<'a>(defs: &'a [Def], context: &'a Context) -> Wanted<'a> {
    let (depth, count) = (context.depth(), context.count(0));
    match (context.head(depth.saturating_sub(1)), depth, count) {
        (_, 0, _) => Wanted::Words(&[]),
        (_, 1, 0) => Wanted::Definition,
        ("rule" | "extractor", 1, _) => Wanted::Value(result_wanted(defs, context)),
        ("rule" | "extractor", 2, 0) if context.is_behind_root() => {
            Wanted::Term(result_wanted(defs, context), &["if-let", "if", "let"])
        }
        ("rule" | "extractor", _, 0) => Wanted::Term(
            type_wanted(defs, context, 1),
            &["let", "and"],
        ),
        ("rule" | "extractor", _, _) => Wanted::Value(type_wanted(defs, context, 0)),
        ("extern", 1, 1) => Wanted::Words(&["constructor", "extractor", "const"]),
        ("extern", 1, 2) | ("convert", 1, 3) => Wanted::Term("", &[]),
        ("decl", 1, _) => Wanted::Type(&["pure", "multi", "partial", "rec"]),
        ("type", 1, 2) => Wanted::Words(&["extern", "nodebug"]),
        ("type", 2, 0) => Wanted::Words(&["primitive", "enum", "struct"]),
        ("type" | "decl" | "extern" | "convert", _, _) => Wanted::Type(&[]),
        (_, _, 0 | 1) => Wanted::Term("", &[]),
        _ => Wanted::Type(&[]),
    }
}

// The type of the term that the rule or extractor at a place is of, or the empty text.
fn result_wanted<'a>(defs: &'a [Def], context: &Context) -> &'a str {
    text_of_type(result_of(defs, context.root()))
}

// The type that is wanted of the form at a place, or of the list that is open there where it is 1 level up; or the empty text.
fn type_wanted<'a>(defs: &'a [Def], context: &Context, up: usize) -> &'a str {
    match context.count(up).checked_sub(up.saturating_add(1)) {
        Some(number) => text_of_type(argument_type(defs, context.head(up), number)),
        None => "",
    }
}

impl<'a> Items<'a> {
    fn into_found(self) -> Vec<Value> {
        let Items {
            alloc: _,
            analysis: _,
            lines: _,
            range: _,
            found,
        } = self;
        found
    }

    fn add_wanted(&mut self, context: &Context) -> Result<(), AllocError> {
        let defs: &'a [Def] = &self.analysis.defs;
        match wanted_at(defs, context) {
            Wanted::Definition => self.add_words(&DEFINITIONS),
            Wanted::Words(words) => self.add_words(words),
            Wanted::Type(words) => {
                self.add_words(words)?;
                self.add_types(defs)
            }
            Wanted::Term(ty, words) => {
                self.add_words(words)?;
                for def in defs {
                    self.add_terms(def, ty)?;
                }
                Ok(())
            }
            Wanted::Value(ty) => {
                for name in &context.variables(self.alloc, defs)? {
                    self.add(name, 6, "variable", None, true)?;
                }
                self.add_words(&["true", "false", "_"])?;
                self.add_constants(defs, ty)
            }
        }
    }

    // Adds an item: a name, its kind in the protocol's numbers, what it is, and where it is defined.
    fn add(
        &mut self,
        name: &str,
        kind: u8,
        detail: &str,
        pos: Option<Pos>,
        is_best: bool,
    ) -> Result<(), AllocError> {
        let alloc = self.alloc;
        let first = if is_best { "0" } else { "1" };
        let order = format!(in alloc; "{first}{name}")?;
        let place = self.place_text(pos)?;
        let range = self.range.clone()?;
        let item = json!(in alloc; {
            "label": name,
            "kind": kind,
            "detail": detail,
            "documentation": place,
            "sortText": order,
            "textEdit": {"range": range, "newText": name}
        })?;
        self.found.push(item)?;
        Ok(())
    }

    // The file and the line of a position.
    fn place_text(&self, pos: Option<Pos>) -> Result<String, AllocError> {
        let Some(pos) = pos else {
            return Ok(String::new(self.alloc));
        };
        let name = file_name(self.lines.files(), pos.file);
        let line = self.lines.place(pos).line;
        format!(in self.alloc; "{name}:{line}")
    }

    fn add_words(&mut self, words: &[&str]) -> Result<(), AllocError> {
        for word in words {
            self.add(word, 14, "", None, true)?;
        }
        Ok(())
    }

    fn add_types(&mut self, defs: &[Def]) -> Result<(), AllocError> {
        for builtin in &BuiltinType::ALL {
            self.add(builtin.name(), 7, "built-in type", None, true)?;
        }
        for def in defs {
            if let Def::TypeDef(ty) = def {
                self.add(&ty.name.0, 22, kind_of(ty), Some(ty.pos), true)?;
            }
        }
        Ok(())
    }

    // Adds the terms that a definition defines.
    fn add_terms(&mut self, def: &Def, wanted: &str) -> Result<(), AllocError> {
        match def {
            Def::Decl(decl) => {
                let signature = signature_of(self.alloc, decl)?;
                let is_best = decl.ret_ty.0.as_str() == wanted;
                self.add(&decl.term.0, 3, &signature, Some(decl.pos), is_best)
            }
            Def::TypeDef(ty) => self.add_made(ty, ty.name.0.as_str() == wanted),
            _ => Ok(()),
        }
    }

    // Adds the terms that make values of a type.
    fn add_made(&mut self, ty: &Type, is_best: bool) -> Result<(), AllocError> {
        let name = ty.name.0.as_str();
        match &ty.ty {
            TypeValue::Primitive(..) => Ok(()),
            TypeValue::Struct(..) => self.add(name, 22, "struct", Some(ty.pos), is_best),
            TypeValue::Enum(variants, _) => {
                for variant in variants {
                    let short = &variant.name.0;
                    let full = format!(in self.alloc; "{name}.{short}")?;
                    self.add(&full, 20, name, Some(variant.pos), is_best)?;
                }
                Ok(())
            }
        }
    }

    fn add_constants(&mut self, defs: &[Def], wanted: &str) -> Result<(), AllocError> {
        for def in defs {
            if let Def::Extern(Extern::Const { name, ty, pos }) = def {
                let text = &name.0;
                let full = format!(in self.alloc; "${text}")?;
                self.add(&full, 21, &ty.0, Some(*pos), ty.0.as_str() == wanted)?;
            }
        }
        Ok(())
    }
}

// What a type is.
fn kind_of(ty: &Type) -> &'static str {
    match &ty.ty {
        TypeValue::Primitive(..) => "primitive",
        TypeValue::Enum(..) => "enum",
        TypeValue::Struct(..) => "struct",
    }
}
