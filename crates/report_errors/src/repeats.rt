//! The other places of what is defined more than once.

use crate::reports::Told;
use core_syntax::syntax::{Def, Extern, Pos, Rule};
use core_why::{Why, Wrong};
use report_names::definitions::{definition_around, is_struct, root_of, variant_in};
use report_names::mentions::MentionKind;
use std::alloc::AllocError;

// How many other places are shown.
const MOST_PLACES: usize = 2;

// What is defined more than once.
#[derive(Clone, Copy)]
enum Repeat<'a> {
    Type(&'a str),
    Term(&'a str),
    // A rule of this name.
    Rule(&'a str),
    // A converter of these types.
    Converter(&'a str, &'a str),
    // An external constructor, an extractor or the rules of this term.
    Constructor(&'a str),
    Extractor(&'a str),
    Rules(&'a str),
    // A variant or a field, of the type at the place.
    Variant(&'a str),
    Field(&'a str),
}

/// The other places of what an error says is defined more than once: a few of them.
pub(crate) fn other_places(told: &Told<'_>) -> Result<Vec<Pos>, AllocError> {
    let (defs, pos) = (told.defs, told.pos);
    let mut places = Vec::new(told.alloc);
    let Some(repeat) = repeat_in(told.why) else {
        return Ok(places);
    };
    add_inside(told, &mut places, repeat)?;
    let own = match definition_around(defs, pos) {
        Some(def) => def.place().unwrap_or(pos),
        None => pos,
    };
    for def in defs {
        if places.len() >= MOST_PLACES {
            break;
        }
        if let Some(place) = place_in(defs, def, repeat) {
            if place != pos && place != own {
                places.push(place)?;
            }
        }
    }
    Ok(places)
}

// What an error says is defined more than once.
fn repeat_in(why: &Why) -> Option<Repeat<'_>> {
    match why {
        Why::Named(name, wrong) => repeat_of(name, *wrong),
        Why::FieldTwice { name, .. } => Some(Repeat::Field(name.as_str())),
        Why::ConverterTwice { inner, outer } => {
            Some(Repeat::Converter(inner.as_str(), outer.as_str()))
        }
        _ => None,
    }
}

// What of this name is defined more than once.
fn repeat_of(name: &str, wrong: Wrong) -> Option<Repeat<'_>> {
    match wrong {
        Wrong::TypeTwice | Wrong::TypeBuiltin => Some(Repeat::Type(name)),
        Wrong::VariantTwice => Some(Repeat::Variant(name)),
        Wrong::TermTwice | Wrong::VariantTermTwice | Wrong::StructTermTwice => {
            Some(Repeat::Term(name))
        }
        Wrong::ConstructorOfRules => Some(Repeat::Rules(name)),
        Wrong::ConstructorTwice => Some(Repeat::Constructor(name)),
        Wrong::ExtractorTwice | Wrong::ExtractorOfTemplate | Wrong::TemplateTwice => {
            Some(Repeat::Extractor(name))
        }
        Wrong::RuleTwice => Some(Repeat::Rule(name)),
        _ => None,
    }
}

// Where a definition defines it.
fn place_in(defs: &[Def], def: &Def, repeat: Repeat<'_>) -> Option<Pos> {
    let (pos, is_it) = match (def, repeat) {
        (Def::TypeDef(ty), Repeat::Type(name)) => (ty.pos, ty.name.0.as_str() == name),
        (Def::TypeDef(ty), Repeat::Term(name)) => match variant_in(ty, name) {
            Some(variant) => (variant.pos, true),
            None => (ty.pos, is_struct(ty, name)),
        },
        (Def::Decl(decl), Repeat::Term(name)) => (decl.pos, decl.term.0.as_str() == name),
        (Def::Rule(rule), Repeat::Rule(name)) => (rule.pos, is_called(defs, rule, name)),
        (Def::Rule(rule), Repeat::Rules(term)) => (rule.pos, root_of(rule) == term),
        (Def::Converter(converter), Repeat::Converter(inner, outer)) => {
            let (own, other) = (&converter.inner_ty.0, &converter.outer_ty.0);
            (
                converter.pos,
                own.as_str() == inner && other.as_str() == outer,
            )
        }
        (Def::Extractor(extractor), Repeat::Extractor(term)) => {
            (extractor.pos, extractor.term.0.as_str() == term)
        }
        (Def::Extern(Extern::Constructor { term: own, pos, .. }), Repeat::Constructor(term))
        | (Def::Extern(Extern::Extractor { term: own, pos, .. }), Repeat::Extractor(term)) => {
            (*pos, own.0.as_str() == term)
        }
        _ => return None,
    };
    if is_it { Some(pos) } else { None }
}

// Whether a rule has a name. One without a name that is the only one of its term has the term's.
fn is_called(defs: &[Def], rule: &Rule, name: &str) -> bool {
    match &rule.name {
        Some(own) => own.0.as_str() == name,
        None => {
            root_of(rule) == name && defs.iter().filter(|def| is_rule_of(def, name)).count() == 1
        }
    }
}

fn is_rule_of(def: &Def, term: &str) -> bool {
    match def {
        Def::Rule(rule) => root_of(rule) == term,
        _ => false,
    }
}

// Adds the other places of a variant or a field in the type that the error stands in: a field beside the one there.
fn add_inside(
    told: &Told<'_>,
    places: &mut Vec<Pos>,
    repeat: Repeat<'_>,
) -> Result<(), AllocError> {
    let (name, kind) = match repeat {
        Repeat::Variant(name) => (name, MentionKind::Variant),
        Repeat::Field(name) => (name, MentionKind::Field),
        _ => return Ok(()),
    };
    let own = told.names.names.iter().find(|mention| {
        mention.kind == kind && mention.form == told.pos
    });
    let Some(own) = own else {
        return Ok(());
    };
    for mention in &told.names.names {
        let is_beside = mention.kind == kind && mention.home.1 == own.home.1;
        if is_beside && mention.text() == name && mention.form != told.pos {
            places.push(mention.form)?;
        }
    }
    Ok(())
}
