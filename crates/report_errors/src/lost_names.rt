//! The names that only parts of texts may define that can't be read, and the forms that have such a name.

use core_syntax::syntax::{Def, Extern, Pos, Type, TypeValue, Variant};
use report_names::definitions::{definition_around, root_of};
use report_names::extents::{end_of_form, ends_word};
use report_names::lost_part::LostPart;
use std::alloc::{AllocError, Global};
use std::collections::BTreeSet;

/// What lost parts of the texts of files may define, beside the definitions that could be read.
pub struct LostNames<'a> {
    texts: &'a [String],
    defs: &'a [Def],
    // Where the parts begin, in ascending order, each with the last end of the parts of its file up to it.
    ends: Vec<(Pos, usize)>,
    // The names that only lost parts may define, and those of terms that lost parts may say more of.
    names: BTreeSet<String>,
}

impl<'a> Drop for LostNames<'a> {
    fn drop(self) {
        let LostNames {
            texts: _,
            defs: _,
            ends: _,
            names: _,
        } = self;
    }
}

/// The form that was looked at last, by where it begins, and whether it has a name that only a lost part may define.
#[derive(Clone, Copy)]
pub struct FormSeen {
    seen: Option<(Pos, bool)>,
}

impl FormSeen {
    /// No form was looked at.
    pub fn none() -> FormSeen {
        FormSeen { seen: None }
    }
}

impl<'a> LostNames<'a> {
    /// What these parts may define.
    ///
    /// # Errors
    ///
    /// Where memory is refused.
    pub fn of(
        alloc: Global,
        texts: &'a [String],
        defs: &'a [Def],
        lost: &[LostPart],
    ) -> Result<LostNames<'a>, AllocError> {
        let names = names_of(alloc, texts, defs, lost)?;
        let ends = ends_of(alloc, lost)?;
        Ok(LostNames {
            texts,
            defs,
            ends,
            names,
        })
    }

    /// Whether what is wrong at a place comes of the lost parts: it stands in one, or the definition that it stands in has a word
    /// that only such a part may define, or declares a term that such a part may say more of. The form that was looked at last is
    /// read once.
    pub fn comes_of(&self, pos: Pos, seen: &mut FormSeen) -> bool {
        self.is_in_part(pos) || !self.names.is_empty() && self.is_in_form(pos, seen)
    }

    // Whether a place is in a lost part.
    fn is_in_part(&self, pos: Pos) -> bool {
        let count = self.ends.partition_point(|end| end.0 <= pos);
        match self.ends.get(..count).and_then(|before| before.last()) {
            Some((begin, end)) => begin.file == pos.file && pos.offset < *end,
            None => false,
        }
    }

    // Whether the form that a place is in has a name that only a lost part may define.
    fn is_in_form(&self, pos: Pos, seen: &mut FormSeen) -> bool {
        let begin = match definition_around(self.defs, pos) {
            Some(def) => def.place().unwrap_or(pos),
            None => pos,
        };
        if let Some((last, has)) = seen.seen {
            if last == begin {
                return has;
            }
        }
        let has = self.has_name(form_at(self.texts, begin));
        seen.seen = Some((begin, has));
        has
    }

    // Whether a form has one of the names, or a variant of a type of such a name.
    fn has_name(&self, form: &str) -> bool {
        form.split(ends_word)
            .any(|word| self.is_name(word) || self.is_of_type(word))
    }

    fn is_name(&self, word: &str) -> bool {
        self.names.contains(word)
    }

    // Whether a word begins with one of the names, and goes on with a dot.
    fn is_of_type(&self, word: &str) -> bool {
        word.char_indices().any(|(at, c)| c == '.' && self.is_name(word.get(..at).unwrap_or("")))
    }
}

// The names that only parts of texts may define, beside definitions, and those of terms that they may say more of.
fn names_of(
    alloc: Global,
    texts: &[String],
    defs: &[Def],
    lost: &[LostPart],
) -> Result<BTreeSet<String>, AllocError> {
    let mut names = BTreeSet::new(alloc);
    if lost.is_empty() {
        return Ok(names);
    }
    let defined = DefinedNames::of(alloc, defs)?;
    for part in lost {
        add_names(alloc, &mut names, text_of(texts, part), &defined)?;
    }
    Ok(names)
}

// Where parts begin, in ascending order, each with the last end of the parts of its file up to it.
fn ends_of(alloc: Global, lost: &[LostPart]) -> Result<Vec<(Pos, usize)>, AllocError> {
    let mut ends = Vec::new(alloc);
    for part in lost {
        let begin = Pos {
            file: part.file,
            offset: part.begin,
        };
        ends.push((begin, part.end))?;
    }
    ends.sort()?;
    let mut file = 0usize;
    let mut last = 0usize;
    for (begin, end) in &mut ends {
        if begin.file != file {
            file = begin.file;
            last = 0;
        }
        last = last.max(*end);
        *end = last;
    }
    Ok(ends)
}

// The form that begins at a place.
fn form_at(texts: &[String], begin: Pos) -> &str {
    match texts.get(begin.file) {
        Some(text) => text
            .get(begin.offset..end_of_form(text, begin.offset))
            .unwrap_or(""),
        None => "",
    }
}

// The text of a part, from its first form on.
fn text_of<'t>(texts: &'t [String], part: &LostPart) -> &'t str {
    match texts.get(part.file) {
        Some(text) => text.get(part.begin..part.end).unwrap_or("").trim_start(),
        None => "",
    }
}

// Adds the names that only the text of a lost part may define, or that it may say more of.
fn add_names(
    alloc: Global,
    names: &mut BTreeSet<String>,
    text: &str,
    defined: &DefinedNames,
) -> Result<(), AllocError> {
    if text.starts_with("(rule") {
        let term = first_of_second_list(text);
        return add_name(alloc, names, term, !defined.has_rule(term));
    }
    if text.starts_with("(extractor") {
        return add_name(alloc, names, first_of_second_list(text), true);
    }
    let says_more = text.starts_with("(extern");
    for name in words_before_second_list(text).split(ends_word).skip(1) {
        let is_new = !WORDS.contains(&name) && (says_more || !defined.has(name));
        add_name(alloc, names, name, is_new)?;
    }
    Ok(())
}

// Adds a name if it is one, and is new.
fn add_name(
    alloc: Global,
    names: &mut BTreeSet<String>,
    name: &str,
    is_new: bool,
) -> Result<(), AllocError> {
    if is_new && !name.is_empty() {
        names.insert(String::from_str(alloc, name)?)?;
    }
    Ok(())
}

// Words of definitions, before their second list, that are no names.
const WORDS: [&str; 10] = [
    "extern",
    "constructor",
    "extractor",
    "infallible",
    "const",
    "pure",
    "multi",
    "partial",
    "rec",
    "nodebug",
];

// The words of a list before its first inner list.
fn words_before_second_list(list: &str) -> &str {
    list.split('(').nth(1).unwrap_or("")
}

// The first word of the first inner list of a list: in a rule and an extractor the term that it is of.
fn first_of_second_list(list: &str) -> &str {
    let inner = list.split('(').nth(2).unwrap_or("");
    inner.split(ends_word).next().unwrap_or("")
}

// The names that definitions define.
struct DefinedNames {
    // Those of terms, also of the terms that make variants, and of types.
    names: BTreeSet<String>,
    constants: BTreeSet<String>,
    // The terms that have rules.
    roots: BTreeSet<String>,
}

impl Drop for DefinedNames {
    fn drop(self) {
        let DefinedNames {
            names: _,
            constants: _,
            roots: _,
        } = self;
    }
}

impl DefinedNames {
    fn of(alloc: Global, defs: &[Def]) -> Result<DefinedNames, AllocError> {
        let mut defined = DefinedNames {
            names: BTreeSet::new(alloc),
            constants: BTreeSet::new(alloc),
            roots: BTreeSet::new(alloc),
        };
        for def in defs {
            defined.add(alloc, def)?;
        }
        Ok(defined)
    }

    fn add(&mut self, alloc: Global, def: &Def) -> Result<(), AllocError> {
        match def {
            Def::TypeDef(ty) => {
                self.names.insert(ty.name.0.clone()?)?;
                self.add_variants(ty)
            }
            Def::Decl(decl) => {
                self.names.insert(decl.term.0.clone()?)?;
                Ok(())
            }
            Def::Extern(Extern::Const { name, .. }) => {
                self.constants.insert(name.0.clone()?)?;
                Ok(())
            }
            Def::Rule(rule) => {
                self.roots.insert(String::from_str(alloc, root_of(rule))?)?;
                Ok(())
            }
            _ => Ok(()),
        }
    }

    // Adds the variants of a type, each with the name of the type before its own.
    fn add_variants(&mut self, ty: &Type) -> Result<(), AllocError> {
        if let TypeValue::Enum(variants, _) = &ty.ty {
            for variant in variants {
                let name = Variant::full_name(&ty.name, &variant.name)?;
                self.names.insert(name.0.clone()?)?;
            }
        }
        Ok(())
    }

    // Whether a term has rules.
    fn has_rule(&self, term: &str) -> bool {
        self.roots.contains(term)
    }

    // Whether a name is that of a term, a type or a constant, whose name may have its sign.
    fn has(&self, name: &str) -> bool {
        let constant = name.strip_prefix('$').unwrap_or(name);
        self.names.contains(name) || self.constants.contains(constant)
    }
}
