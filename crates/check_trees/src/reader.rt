//! A tree read back from the tokens of its lines, as `model_print` reads it.

ghost use Rattle.std.specs.Prelude.{◌≡◌, ◌+◌, IfOk};
ghost use Rattle.core_serialize.specs.TreeViews.{arm_view, check_view, tree_view};
ghost use Rattle.model_print.specs.ReadTrees.{binds, field_of, fields_in, levels, no_level, placed, read_bool_arm, read_equal, read_int_arm, read_line, read_loop, read_match, read_prim_arm, read_return, read_struct, read_tree, read_variant, read_words, sites_in};
ghost use Rattle.check_trees.specs.TokenViews.{before_arms, before_steps, ending_view, level_view, line_views, said_view, token_view, token_views, word_view};

use crate::faults::ReadFault;
use crate::tokens::{Ending, Line, Token, Word};
use core_rule_sets::trie_again::{BindingId, Constraint, TupleIndex};
use core_serialize::serialize::{Block, ControlFlow, EvalStep, MatchArm};
use core_syntax::syntax::Pos;
use core_types::TypeId;
use std::alloc::{AllocError, Global};

/// What a line of a tree says.
#[derive(Drop)]
pub enum Said {
    NoPart,
    Binds(Vec<BindingId>),
    Match(BindingId),
    Equal(BindingId, BindingId),
    Loop(BindingId),
    Return(Pos, BindingId),
    Arm(Constraint, Vec<Option<BindingId>>),
}

/// What stands at a depth, from a line on: steps, and arms.
#[derive(Drop)]
pub struct Level {
    pub steps: Vec<EvalStep>,
    pub arms: Vec<MatchArm>,
}

/// The tree of a term's lines.
#[tactic(auto, using(core_serialize::proofs::TreeLaws::block_seen))]
pub fn tree_of(alloc: Global, lines: &[Line]) -> Result<Block, ReadFault>
    ensures { IfOk result (λ block. tree_view block ≡ read_tree (line_views lines.now)) }
{
    let Level { steps, .. } = level_at(alloc, lines, 2)?;
    Ok(Block { steps })
}

// What stands at a depth. A line ends what is further in.
#[tactic(auto, unfolding(model_print::specs::ReadTrees::levels))]
fn level_at(alloc: Global, lines: &[Line], depth: usize) -> Result<Level, ReadFault>
    ensures { IfOk result (λ l. level_view l ≡ levels (line_views lines.now) depth) }
{
    match lines {
        [line, rest @ ..] if depth < line.depth => level_at(alloc, rest, depth),
        [line, rest @ ..] if depth == line.depth => {
            let here = level_at(alloc, rest, depth)?;
            let inside = level_at(alloc, rest, deeper(depth)?)?;
            placed_at(
                alloc,
                said_by(alloc, &line.tokens, line.ending)?,
                here,
                inside,
            )
        }
        _ => Ok(empty(alloc)),
    }
}

// Two spaces further in. No line is set in so far that there is none.
fn deeper(depth: usize) -> Result<usize, ReadFault>
    ensures { IfOk result (λ n. n ≡ depth + 2) }
{
    match depth.checked_add(2) {
        Some(depth) => Ok(depth),
        None => Err(ReadFault::Unreadable),
    }
}

fn empty(alloc: Global) -> Level
    ensures { level_view result ≡ no_level }
{
    Level {
        steps: Vec::new(alloc),
        arms: Vec::new(alloc),
    }
}

// What stands where a line is: of what stands behind it, at its depth and two spaces further in.
#[tactic(auto, using(core_serialize::proofs::TreeLaws::tree_steps))]
fn placed_at(alloc: Global, said: Said, here: Level, inside: Level) -> Result<Level, ReadFault>
    ensures { IfOk result (λ l. level_view l ≡ placed (said_view said) (level_view here) (level_view inside)) }
{
    match said {
        Said::NoPart => Ok(here),
        Said::Binds(sites) => Ok(with_first_bound(here, sites)),
        Said::Match(source) => with_check(
            alloc,
            here,
            ControlFlow::Match {
                source,
                arms: inside.arms,
            },
        ),
        Said::Equal(a, b) => with_check(
            alloc,
            here,
            ControlFlow::Equal {
                a,
                b,
                body: Block {
                    steps: inside.steps,
                },
            },
        ),
        Said::Loop(result) => with_check(
            alloc,
            here,
            ControlFlow::Loop {
                result,
                body: Block {
                    steps: inside.steps,
                },
            },
        ),
        Said::Return(pos, result) => with_check(alloc, here, ControlFlow::Return { pos, result }),
        Said::Arm(constraint, bindings) => with_arm(
            here,
            MatchArm {
                constraint,
                bindings,
                body: Block {
                    steps: inside.steps,
                },
            },
        ),
    }
}

// A step that binds nothing before the steps of a level.
fn with_check(alloc: Global, here: Level, check: ControlFlow) -> Result<Level, ReadFault>
    ensures { IfOk result (λ l. level_view l ≡ before_steps (check_view check) (level_view here)) }
{
    let Level { mut steps, arms } = here;
    steps.insert(
        0,
        EvalStep {
            bind_order: Vec::new(alloc),
            check,
        },
    )?;
    Ok(Level { steps, arms })
}

// An arm before the arms of a level.
fn with_arm(here: Level, arm: MatchArm) -> Result<Level, ReadFault>
    ensures { IfOk result (λ l. level_view l ≡ before_arms (arm_view arm) (level_view here)) }
{
    let Level { steps, mut arms } = here;
    arms.insert(0, arm)?;
    Ok(Level { steps, arms })
}

// The steps of a level, of which the first binds these sites.
fn with_first_bound(here: Level, sites: Vec<BindingId>) -> Level
    ensures { level_view result ≡ placed (binds sites.items) (level_view here) no_level }
{
    let Level { mut steps, arms } = here;
    if let Some(first) = steps.get_mut(0) {
        first.bind_order = sites;
    }
    Level { steps, arms }
}

// What a line of a tree says.
fn said_by(alloc: Global, tokens: &[Token], ending: Ending) -> Result<Said, ReadFault>
    ensures { IfOk result (λ said. said_view said ≡ read_line (token_views tokens.now) (ending_view ending)) }
{
    match tokens {
        [Token::Word(word), rest @ ..] => said_behind(alloc, *word, rest, ending),
        _ => Ok(Said::NoPart),
    }
}

fn said_behind(
    alloc: Global,
    word: Word,
    tokens: &[Token],
    ending: Ending,
) -> Result<Said, ReadFault>
    ensures { IfOk result (λ said. said_view said ≡ read_words (word_view word) (token_views tokens.now) (ending_view ending)) }
{
    match word {
        Word::Bind => Ok(Said::Binds(sites_among(alloc, tokens)?)),
        Word::Match => Ok(match_of(&sites_among(alloc, tokens)?)),
        Word::Equal => Ok(equal_of(&sites_among(alloc, tokens)?)),
        Word::Loop => Ok(loop_of(&sites_among(alloc, tokens)?)),
        Word::Return => Ok(return_of(&sites_among(alloc, tokens)?, ending)),
        Word::Variant => variant_arm(alloc, tokens),
        Word::Struct => struct_arm(alloc, tokens),
        Word::Bool => bool_arm(alloc, tokens),
        Word::Int => int_arm(alloc, tokens),
        Word::Prim => prim_arm(alloc, tokens),
        Word::Some => Ok(Said::Arm(Constraint::Some, fields_among(alloc, tokens)?)),
        _ => Ok(Said::NoPart),
    }
}

fn match_of(sites: &[BindingId]) -> Said
    ensures { said_view result ≡ read_match sites.now }
{
    match sites {
        [source] => Said::Match(*source),
        _ => Said::NoPart,
    }
}

fn equal_of(sites: &[BindingId]) -> Said
    ensures { said_view result ≡ read_equal sites.now }
{
    match sites {
        [a, b] => Said::Equal(*a, *b),
        _ => Said::NoPart,
    }
}

fn loop_of(sites: &[BindingId]) -> Said
    ensures { said_view result ≡ read_loop sites.now }
{
    match sites {
        [result] => Said::Loop(*result),
        _ => Said::NoPart,
    }
}

fn return_of(sites: &[BindingId], ending: Ending) -> Said
    ensures { said_view result ≡ read_return (ending_view ending) sites.now }
{
    match (ending, sites) {
        (Ending::Comment(pos), [result]) => Said::Return(pos, *result),
        _ => Said::NoPart,
    }
}

fn variant_arm(alloc: Global, tokens: &[Token]) -> Result<Said, ReadFault>
    ensures { IfOk result (λ said. said_view said ≡ read_variant (token_views tokens.now)) }
{
    let [Token::VariantName(ty, variant), rest @ ..] = tokens else {
        return Ok(Said::NoPart);
    };
    let bindings = fields_among(alloc, rest)?;
    let constraint = Constraint::Variant {
        ty: *ty,
        variant: *variant,
        fields: place(bindings.len())?,
    };
    Ok(Said::Arm(constraint, bindings))
}

fn struct_arm(alloc: Global, tokens: &[Token]) -> Result<Said, ReadFault>
    ensures { IfOk result (λ said. said_view said ≡ read_struct (token_views tokens.now)) }
{
    let [Token::TypeName(ty), rest @ ..] = tokens else {
        return Ok(Said::NoPart);
    };
    let bindings = fields_among(alloc, rest)?;
    let constraint = Constraint::Struct {
        ty: *ty,
        fields: place(bindings.len())?,
    };
    Ok(Said::Arm(constraint, bindings))
}

fn bool_arm(alloc: Global, tokens: &[Token]) -> Result<Said, ReadFault>
    ensures { IfOk result (λ said. said_view said ≡ read_bool_arm (token_views tokens.now)) }
{
    let [Token::Truth(val), rest @ ..] = tokens else {
        return Ok(Said::NoPart);
    };
    let constraint = Constraint::ConstBool {
        val: *val,
        ty: TypeId::BOOL,
    };
    Ok(Said::Arm(constraint, fields_among(alloc, rest)?))
}

fn int_arm(alloc: Global, tokens: &[Token]) -> Result<Said, ReadFault>
    ensures { IfOk result (λ said. said_view said ≡ read_int_arm (token_views tokens.now)) }
{
    let [Token::Integer(val), Token::TypeName(ty), rest @ ..] = tokens else {
        return Ok(Said::NoPart);
    };
    let constraint = Constraint::ConstInt { val: *val, ty: *ty };
    Ok(Said::Arm(constraint, fields_among(alloc, rest)?))
}

fn prim_arm(alloc: Global, tokens: &[Token]) -> Result<Said, ReadFault>
    ensures { IfOk result (λ said. said_view said ≡ read_prim_arm (token_views tokens.now)) }
{
    let [Token::ConstantName(val), rest @ ..] = tokens else {
        return Ok(Said::NoPart);
    };
    let constraint = Constraint::ConstPrim { val: *val };
    Ok(Said::Arm(constraint, fields_among(alloc, rest)?))
}

/// A place in a tuple, a variant or a struct, or how many there are.
pub fn place(number: usize) -> Result<TupleIndex, ReadFault>
    ensures { IfOk result (λ n. n ≡ number) }
{
    match TupleIndex::try_from(number) {
        Ok(place) => Ok(place),
        Err(_) => Err(ReadFault::Unreadable),
    }
}

/// The sites among tokens.
pub fn sites_among(alloc: Global, tokens: &[Token]) -> Result<Vec<BindingId>, AllocError>
    ensures { IfOk result (λ sites. sites.items ≡ sites_in (token_views tokens.now)) }
{
    let mut sites = Vec::new(alloc);
    for token in tokens {
        if let Token::Site(site) = token {
            sites.push(*site)?;
        }
    }
    Ok(sites)
}

// What each token is as a field: a site, or none.
fn fields_among(alloc: Global, tokens: &[Token]) -> Result<Vec<Option<BindingId>>, AllocError>
    ensures { IfOk result (λ fields. fields.items ≡ fields_in (token_views tokens.now)) }
{
    let mut fields = Vec::new(alloc);
    for token in tokens {
        fields.push(as_field(*token))?;
    }
    Ok(fields)
}

fn as_field(token: Token) -> Option<BindingId>
    ensures { result ≡ field_of (token_view token) }
{
    match token {
        Token::Site(site) => Some(site),
        _ => None,
    }
}
