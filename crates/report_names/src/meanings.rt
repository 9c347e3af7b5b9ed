//! What is meant by variables that look like something else.

use crate::definitions::variant_of;
use crate::mentions::{Mention, MentionKind, Need, type_needed};
use core_syntax::syntax::{Def, Fields, Ident};
use core_types::BuiltinType;
use report_print::report::{Place, Report};
use std::alloc::{AllocError, Global};

// The literals that may stand where a variable does.
#[derive(Clone, Copy, PartialEq, Eq)]
enum Possible {
    // It isn't known which.
    Unknown,
    Integers,
    // `true` and `false`.
    Truths,
    // There are none. Integers of other types than the built-in ones aren't suggested: a primitive type seldom has them.
    Nothing,
}

// What to write where nothing else can be meant.
const ANY_VALUE: &str = "choose another name, or write _ if the value isn't needed";

/// What is meant by a variable's name that looks like something else.
pub struct Meant {
    /// What to do, in words.
    pub help: String,
    /// What to write in place of the name; the empty text where that isn't known.
    pub written: String,
}

impl Drop for Meant {
    fn drop(self) {
        let Meant {
            help: _,
            written: _,
        } = self;
    }
}

impl Meant {
    fn new(alloc: Global, words: &str, written: &str) -> Result<Option<Meant>, AllocError> {
        Ok(Some(Meant {
            help: format!(in alloc; "{words}{written}")?,
            written: String::from_str(alloc, written)?,
        }))
    }

    /// Adds to a report what is meant by a variable.
    ///
    /// # Errors
    ///
    /// Where memory is refused.
    pub fn add_to(&self, report: &mut Report, mention: &Mention<'_>) -> Result<(), AllocError> {
        report.add_note("help", self.help.clone()?)?;
        if self.written.is_empty() {
            return Ok(());
        }
        let alloc = *self.written.allocator();
        let written = &self.written;
        let title = format!(in alloc; "Write `{written}`")?;
        let place = Place::Name(mention.name.1, mention.text().len());
        report.add_fix(title, place, self.written.clone()?)
    }
}

/// What is meant by a variable that a pattern binds, or that nothing binds, where its name looks like a variant, one of these
/// constants, an integer, a truth value or a comparison. None for any other name.
///
/// # Errors
///
/// Where memory is refused.
pub fn meant_by(
    alloc: Global,
    defs: &[Def],
    constants: &[(&Ident, &Ident)],
    mention: &Mention<'_>,
) -> Result<Option<Meant>, AllocError> {
    let is_bound_elsewhere = mention.home.1 != mention.name.1;
    if mention.kind != MentionKind::Variable
        || is_bound_elsewhere
        || mention.defines != mention.in_pattern
    {
        return Ok(None);
    }
    if mention.text().contains('.') {
        return meant_as_variant(alloc, defs, mention);
    }
    if is_constant(defs, constants, mention) {
        let written = format!(in alloc; "${}", mention.text())?;
        return Meant::new(alloc, "the constant is written ", &written);
    }
    meant_as_literal(alloc, defs, mention)
}

// What is meant by a name with a point: a variant, also where the type that is needed has none of this name.
fn meant_as_variant(
    alloc: Global,
    defs: &[Def],
    mention: &Mention<'_>,
) -> Result<Option<Meant>, AllocError> {
    let name = mention.text();
    let written = format!(in alloc; "({name})")?;
    match variant_of(defs, name) {
        Some(variant) if !matches!(&variant.fields, Fields::Unit) => Ok(Some(Meant {
            help: format!(in alloc; "a variant with fields is written ({name} ..)")?,
            written: String::new(alloc),
        })),
        None if !mention.in_pattern || !begins_with_type(defs, mention) => Ok(None),
        _ => Meant::new(alloc, "a variant without fields is written ", &written),
    }
}

// Whether a name begins with that of the type that is needed.
fn begins_with_type(defs: &[Def], mention: &Mention<'_>) -> bool {
    match type_needed(defs, mention.need) {
        Some(ty) => mention.text().starts_with(ty.0.as_str()),
        None => false,
    }
}

// Whether a variable has the name of one of these constants, which has its type. Most names are no constant's, so the type is looked
// for last.
fn is_constant(defs: &[Def], constants: &[(&Ident, &Ident)], mention: &Mention<'_>) -> bool {
    let name = mention.text();
    let Some((_, ty)) = constants
        .iter()
        .find(|(constant, _)| constant.0.as_str() == name)
    else {
        return false;
    };
    match type_needed(defs, mention.need) {
        Some(needed) => ty.0.as_str() == needed.0.as_str(),
        None => false,
    }
}

// What is meant by a name that looks like an integer, a truth value or a comparison, where these may stand.
fn meant_as_literal(
    alloc: Global,
    defs: &[Def],
    mention: &Mention<'_>,
) -> Result<Option<Meant>, AllocError> {
    let name = mention.text();
    let (words, written, possible) = match (number_in(name), truth_in(name)) {
        (Some(number), _) => ("the integer is written ", number, Possible::Integers),
        (None, Some(truth)) => ("the truth value is written ", truth, Possible::Truths),
        (None, None) => {
            return match compared_in(name) {
                Some(variable) if mention.in_pattern => Meant::new(
                    alloc,
                    "an equal value is asked for by the name alone, as ",
                    variable,
                ),
                _ => Ok(None),
            };
        }
    };
    let found = possible_at(defs, mention.need);
    if found == possible || found == Possible::Unknown {
        return Meant::new(alloc, words, written);
    }
    if mention.in_pattern {
        return Meant::new(alloc, ANY_VALUE, "");
    }
    Ok(None)
}

// The literals that stand for values of the type that is needed.
fn possible_at(defs: &[Def], need: Need<'_>) -> Possible {
    let Some(ty) = type_needed(defs, need) else {
        return Possible::Unknown;
    };
    for builtin in BuiltinType::ALL {
        if builtin.name() == ty.0.as_str() {
            return match builtin {
                BuiltinType::Bool => Possible::Truths,
                BuiltinType::Int(_) => Possible::Integers,
            };
        }
    }
    Possible::Nothing
}

// The number behind a plus sign.
fn number_in(name: &str) -> Option<&str> {
    let number = name.strip_prefix('+')?;
    let first = number.chars().next()?;
    if first.is_ascii_digit() {
        Some(number)
    } else {
        None
    }
}

// The truth value that other languages write so.
fn truth_in(name: &str) -> Option<&'static str> {
    match name {
        "#t" | "#true" => Some("true"),
        "#f" | "#false" => Some("false"),
        _ => None,
    }
}

// The variable behind an equals sign.
fn compared_in(name: &str) -> Option<&str> {
    let variable = name.strip_prefix('=')?;
    if variable.is_empty() {
        None
    } else {
        Some(variable)
    }
}
