//! Sites read back from the tokens of their lines, as `model_print` reads them.

ghost use Rattle.std.specs.Prelude.{◌≡◌, IfOk, Some, option_map};
ghost use Rattle.core_rule_sets.specs.SiteViews.{site_view, site_views};
ghost use Rattle.model_print.specs.ReadTrees.{read_arg, read_bool, read_call, read_extract, read_field, read_int, read_make, read_part, read_prim, read_site_by, read_sites, site_of_tokens};
ghost use Rattle.check_trees.specs.TokenViews.{line_views, token_views, word_view};

use crate::faults::ReadFault;
use crate::reader::{place, sites_among};
use crate::tokens::{Line, Token, Word};
use core_rule_sets::trie_again::Binding;
use core_types::{TypeId, VariantId};
use std::alloc::Global;

/// The sites of lines, up to the first line that is none. Each has the number of its line.
pub fn sites_of(alloc: Global, lines: &[Line]) -> Result<Vec<Binding>, ReadFault>
    ensures { IfOk result (λ sites. site_views sites.items ≡ read_sites (line_views lines.now)) }
{
    let mut sites = Vec::new(alloc);
    for line in lines {
        match site_in(alloc, &line.tokens, sites.len())? {
            Some(site) => sites.push(site)?,
            None => return Ok(sites),
        }
    }
    Ok(sites)
}

// The site of a line, where it is one. A site of another number than is wanted is unreadable.
fn site_in(alloc: Global, tokens: &[Token], wanted: usize) -> Result<Option<Binding>, ReadFault>
    ensures { IfOk result (λ site. option_map site_view site ≡ site_of_tokens (token_views tokens.now)) }
{
    let [
        Token::Site(number),
        Token::Word(Word::Equals),
        Token::Word(word),
        rest @ ..,
    ] = tokens
    else {
        return Ok(None);
    };
    if number.index() != wanted {
        return Err(ReadFault::Unreadable);
    }
    Ok(Some(site_by(alloc, *word, rest)?))
}

// A site, by the word that says what it is and the tokens behind that.
fn site_by(alloc: Global, word: Word, tokens: &[Token]) -> Result<Binding, ReadFault>
    ensures { IfOk result (λ site. read_site_by (word_view word) (token_views tokens.now) ≡ Some (site_view site)) }
{
    match word {
        Word::Bool => bool_site(tokens),
        Word::Int => int_site(tokens),
        Word::Prim => prim_site(tokens),
        Word::Arg => argument_site(tokens),
        Word::Extract => extractor_site(tokens),
        Word::Call => call_site(alloc, tokens),
        Word::Make => made_site(alloc, tokens),
        Word::Pick | Word::Some | Word::Unwrap => site_of_one(word, tokens),
        Word::Field => field_site(tokens),
        Word::Part => part_site(tokens),
        _ => Err(ReadFault::Unreadable),
    }
}

fn bool_site(tokens: &[Token]) -> Result<Binding, ReadFault>
    ensures { IfOk result (λ site. read_bool (token_views tokens.now) ≡ Some (site_view site)) }
{
    match tokens {
        [Token::Truth(val)] => Ok(Binding::ConstBool {
            val: *val,
            ty: TypeId::BOOL,
        }),
        _ => Err(ReadFault::Unreadable),
    }
}

fn int_site(tokens: &[Token]) -> Result<Binding, ReadFault>
    ensures { IfOk result (λ site. read_int (token_views tokens.now) ≡ Some (site_view site)) }
{
    match tokens {
        [Token::Integer(val), Token::TypeName(ty)] => Ok(Binding::ConstInt { val: *val, ty: *ty }),
        _ => Err(ReadFault::Unreadable),
    }
}

fn prim_site(tokens: &[Token]) -> Result<Binding, ReadFault>
    ensures { IfOk result (λ site. read_prim (token_views tokens.now) ≡ Some (site_view site)) }
{
    match tokens {
        [Token::ConstantName(val)] => Ok(Binding::ConstPrim { val: *val }),
        _ => Err(ReadFault::Unreadable),
    }
}

fn argument_site(tokens: &[Token]) -> Result<Binding, ReadFault>
    ensures { IfOk result (λ site. read_arg (token_views tokens.now) ≡ Some (site_view site)) }
{
    match tokens {
        [Token::Count(index)] => Ok(Binding::Argument {
            index: place(*index)?,
        }),
        _ => Err(ReadFault::Unreadable),
    }
}

fn extractor_site(tokens: &[Token]) -> Result<Binding, ReadFault>
    ensures { IfOk result (λ site. read_extract (token_views tokens.now) ≡ Some (site_view site)) }
{
    match tokens {
        [Token::TermName(term), Token::Site(parameter)] => Ok(Binding::Extractor {
            term: *term,
            parameter: *parameter,
        }),
        _ => Err(ReadFault::Unreadable),
    }
}

// A call, with its number where it is impure.
fn call_site(alloc: Global, tokens: &[Token]) -> Result<Binding, ReadFault>
    ensures { IfOk result (λ site. read_call (token_views tokens.now) ≡ Some (site_view site)) }
{
    match tokens {
        [Token::TermName(term), Token::Instance(instance), rest @ ..] => Ok(Binding::Constructor {
            term: *term,
            parameters: sites_among(alloc, rest)?,
            instance: *instance,
        }),
        [Token::TermName(term), rest @ ..] => Ok(Binding::Constructor {
            term: *term,
            parameters: sites_among(alloc, rest)?,
            instance: 0,
        }),
        _ => Err(ReadFault::Unreadable),
    }
}

fn made_site(alloc: Global, tokens: &[Token]) -> Result<Binding, ReadFault>
    ensures { IfOk result (λ site. read_make (token_views tokens.now) ≡ Some (site_view site)) }
{
    match tokens {
        [Token::VariantName(ty, variant), rest @ ..] => Ok(Binding::MakeVariant {
            ty: *ty,
            variant: *variant,
            fields: sites_among(alloc, rest)?,
        }),
        [Token::TypeName(ty), rest @ ..] => Ok(Binding::MakeStruct {
            ty: *ty,
            fields: sites_among(alloc, rest)?,
        }),
        _ => Err(ReadFault::Unreadable),
    }
}

// A site that is made of one other.
fn site_of_one(word: Word, tokens: &[Token]) -> Result<Binding, ReadFault>
    ensures { IfOk result (λ site. read_site_by (word_view word) (token_views tokens.now) ≡ Some (site_view site)) }
{
    let [Token::Site(source)] = tokens else {
        return Err(ReadFault::Unreadable);
    };
    match word {
        Word::Pick => Ok(Binding::Iterator { source: *source }),
        Word::Some => Ok(Binding::MakeSome { inner: *source }),
        Word::Unwrap => Ok(Binding::MatchSome { source: *source }),
        _ => Err(ReadFault::Unreadable),
    }
}

// A field of a struct, or of a variant where there is one.
fn field_site(tokens: &[Token]) -> Result<Binding, ReadFault>
    ensures { IfOk result (λ site. read_field (token_views tokens.now) ≡ Some (site_view site)) }
{
    match tokens {
        [
            Token::Count(field),
            Token::Word(Word::Of),
            Token::Site(source),
        ] => Ok(Binding::ExtractStruct {
            source: *source,
            field: place(*field)?,
        }),
        [
            Token::Count(field),
            Token::Word(Word::Of),
            Token::Site(source),
            Token::Word(Word::Variant),
            Token::Count(variant),
        ] => Ok(Binding::MatchVariant {
            source: *source,
            variant: VariantId(*variant),
            field: place(*field)?,
        }),
        _ => Err(ReadFault::Unreadable),
    }
}

fn part_site(tokens: &[Token]) -> Result<Binding, ReadFault>
    ensures { IfOk result (λ site. read_part (token_views tokens.now) ≡ Some (site_view site)) }
{
    match tokens {
        [
            Token::Count(field),
            Token::Word(Word::Of),
            Token::Site(source),
        ] => Ok(Binding::MatchTuple {
            source: *source,
            field: place(*field)?,
        }),
        _ => Err(ReadFault::Unreadable),
    }
}
