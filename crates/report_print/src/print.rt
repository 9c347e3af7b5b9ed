//! The printed form of trees: each term with its sites and its steps, one a line.

ghost use Rattle.std.specs.Prelude.{◌≡◌, ◌+◌, ◌*◌, ◌++◌, ◌∷◌, [], ℕ, List, IfOk, OnOk, codes, decimal, map, replicate, slice_get, string_bytes};
ghost use Rattle.std.specs.BTreeMap.{get};
ghost use Rattle.std.specs.Fmt.{signed_decimal};
ghost use Rattle.core_rule_sets.specs.SiteViews.{constraint_view, site_view, site_views};
ghost use Rattle.core_serialize.specs.TreeViews.{arm_view, check_view, tree_view};
ghost use Rattle.core_syntax.specs.SyntaxViews.{position};
ghost use Rattle.core_syntax.specs.contracts.syntax.PosOrd.TheImpl.{ghosts};
ghost use Rattle.model.specs.lists.Syntax.{Position};
ghost use Rattle.model.specs.sites.Sites.{constructor_site};
ghost use Rattle.model.specs.trees.Trees.{no_arm, return_at};
ghost use Rattle.model_print.specs.LineTexts.{Names, further_text, line_text, lines_text, tokens_text};
ghost use Rattle.model_print.specs.PrintedTrees.{arm_line, arms_lines, bind_lines, check_lines, constraint_tokens, field_token, site_line, site_lines, site_tokens, sites_tokens, tree_lines};
ghost use Rattle.report_print.specs.PlaceTexts.{known_name};
ghost use Rattle.report_print.specs.TreeTexts.{behind, comment_text, known_term, known_type, known_variant, named_rule, rule_text, shown_lines, syms_of, tree_names, tree_text};

use crate::layout::push_place;
use crate::lines::FileLines;
use core_rule_sets::trie_again::{Binding, BindingId, Constraint};
use core_serialize::serialize::{Block, ControlFlow, EvalStep, MatchArm};
use core_syntax::syntax::Pos;
use core_terms::Term;
use core_types::{Sym, TermId, Type, TypeId, VariantId};
use std::alloc::AllocError;
use std::collections::BTreeMap;

/// The names of what trees speak of. A number that has no name prints as `?`; no tree of definitions
/// holds one.
#[derive(Clone, Copy)]
pub struct TreeNames<'a> {
    /// The names, by their numbers.
    pub syms: &'a [String],
    /// The types.
    pub types: &'a [Type],
    /// The terms.
    pub terms: &'a [Term],
}

/// What is said behind returns.
#[derive(Clone, Copy)]
pub enum Comments<'a> {
    /// Nothing.
    Nothing,
    /// The rule that is taken: its name, where it is among these by its position, and its place.
    Rules(&'a FileLines<'a>, &'a BTreeMap<Pos, Sym>),
}

impl<'a> TreeNames<'a> {
    // A name by its number.
    fn sym(&self, sym: Sym) -> &'a str
        ensures { result.now ≡ known_name (syms_of self.now) sym.0 }
    {
        match self.syms.get(sym.index()) {
            Some(name) => name.as_str(),
            None => "?",
        }
    }

    fn ty(&self, ty: TypeId) -> &'a str
        ensures { result.now ≡ known_type (syms_of self.now) (slice_get self.now.types.now ty.0) }
    {
        match self.types.get(ty.index()) {
            Some(Type::Builtin(builtin)) => builtin.name(),
            Some(
                Type::Primitive(_, name, _) | Type::Enum { name, .. } | Type::Struct { name, .. },
            ) => self.sym(*name),
            None => "?",
        }
    }

    // The name of a variant, without that of its enum.
    fn variant(&self, ty: TypeId, variant: VariantId) -> &'a str
        ensures { result.now ≡ known_variant (syms_of self.now) (slice_get self.now.types.now ty.0) variant.0 }
    {
        match self.types.get(ty.index()) {
            Some(Type::Enum { variants, .. }) => match variants.get(variant.index()) {
                Some(variant) => self.sym(variant.name),
                None => "?",
            },
            _ => "?",
        }
    }

    fn term(&self, term: TermId) -> &'a str
        ensures { result.now ≡ known_term (syms_of self.now) (slice_get self.now.terms.now term.0) }
    {
        match self.terms.get(term.index()) {
            Some(term) => self.sym(term.name),
            None => "?",
        }
    }
}

/// A term: its name, its sites and its steps.
pub fn print_term(
    out: &mut String,
    names: TreeNames<'_>,
    comments: Comments<'_>,
    id: TermId,
    bindings: &[Binding],
    block: &Block,
) -> Result<(), AllocError>
    ensures { OnOk result (string_bytes out.new ≡ string_bytes out.old
        ++ (codes "term " ++ (known_term (syms_of names.entry) (slice_get names.entry.terms.now id.0) ++ (10 ∷ tree_text names.entry comments.entry bindings.now block.now)))) }
{
    print_title(out, names.term(id))?;
    print_tree(out, names, comments, bindings, block)
}

fn print_title(out: &mut String, name: &str) -> Result<(), AllocError>
    ensures { OnOk result (string_bytes out.new ≡ string_bytes out.old ++ (codes "term " ++ (name.now ++ 10 ∷ []))) }
{
    write!(out, "term {name}\n")
}

// The sites of a term and its steps.
fn print_tree(
    out: &mut String,
    names: TreeNames<'_>,
    comments: Comments<'_>,
    bindings: &[Binding],
    block: &Block,
) -> Result<(), AllocError>
    ensures { OnOk result (string_bytes out.new ≡ string_bytes out.old ++ tree_text names.entry comments.entry bindings.now block.now) }
{
    print_bindings(out, names, bindings)?;
    print_block(out, names, comments, 2, block)
}

/// Each site by its number, with what it stands for.
pub fn print_bindings(
    out: &mut String,
    names: TreeNames<'_>,
    bindings: &[Binding],
) -> Result<(), AllocError>
    ensures { (said : Position → List ℕ) → OnOk result (string_bytes out.new
        ≡ string_bytes out.old ++ lines_text (tree_names names.entry) said (site_lines 0 (site_views bindings.now))) }
{
    for (number, binding) in bindings.iter().enumerate() {
        print_site_line(out, names, number, binding)?;
    }
    Ok(())
}

// The line of a site.
fn print_site_line(
    out: &mut String,
    names: TreeNames<'_>,
    number: usize,
    binding: &Binding,
) -> Result<(), AllocError>
    ensures { (said : Position → List ℕ) → OnOk result (string_bytes out.new
        ≡ string_bytes out.old ++ line_text (tree_names names.entry) said (site_line number (site_view binding.now))) }
{
    write!(out, "  b{number} =")?;
    print_binding(out, names, binding)?;
    out.push('\n')
}

/// The steps of a block, `depth` spaces in.
#[cycle(print)]
pub fn print_block(
    out: &mut String,
    names: TreeNames<'_>,
    comments: Comments<'_>,
    depth: usize,
    block: &Block,
) -> Result<(), AllocError>
    ensures { OnOk result (string_bytes out.new ≡ string_bytes out.old ++ shown_lines names.entry comments.entry (tree_lines depth (tree_view block.now))) }
{
    for step in &block.steps {
        print_bind_order(out, names, depth, &step.bind_order)?;
        print_check(out, names, comments, depth, &step.check)?;
    }
    Ok(())
}

// A test with what follows it, or an end.
#[cycle(print)]
fn print_check(
    out: &mut String,
    names: TreeNames<'_>,
    comments: Comments<'_>,
    depth: usize,
    check: &ControlFlow,
) -> Result<(), AllocError>
    ensures { OnOk result (string_bytes out.new ≡ string_bytes out.old ++ shown_lines names.entry comments.entry (check_lines depth (check_view check.now))) }
{
    match check {
        ControlFlow::Match { source, arms } => {
            print_line(out, names, depth, "match", &[*source])?;
            let inner = deeper(depth)?;
            for arm in arms {
                print_arm(out, names, comments, inner, arm)?;
            }
            Ok(())
        }
        ControlFlow::Equal { a, b, body } => {
            print_line(out, names, depth, "equal", &[*a, *b])?;
            let inner = deeper(depth)?;
            print_block(out, names, comments, inner, body)
        }
        ControlFlow::Loop { result, body } => {
            print_line(out, names, depth, "loop", &[*result])?;
            let inner = deeper(depth)?;
            print_block(out, names, comments, inner, body)
        }
        ControlFlow::Return { pos, result } => {
            print_return(out, names, comments, depth, *pos, *result)
        }
    }
}

// An arm with its body.
#[cycle(print)]
fn print_arm(
    out: &mut String,
    names: TreeNames<'_>,
    comments: Comments<'_>,
    depth: usize,
    arm: &MatchArm,
) -> Result<(), AllocError>
    ensures { OnOk result (string_bytes out.new ≡ string_bytes out.old ++ shown_lines names.entry comments.entry (arms_lines depth (arm_view arm.now no_arm))) }
{
    print_arm_line(out, names, depth, arm.constraint, &arm.bindings)?;
    let inner = deeper(depth)?;
    print_block(out, names, comments, inner, &arm.body)
}

// Two spaces further in. No memory holds a tree that is deeper than numbers go.
fn deeper(depth: usize) -> Result<usize, AllocError>
    ensures { IfOk result (λ n. n ≡ depth + 2) }
{
    match depth.checked_add(2) {
        Some(depth) => Ok(depth),
        None => Err(AllocError),
    }
}

// The line of an end, with what is said of its rule.
fn print_return(
    out: &mut String,
    names: TreeNames<'_>,
    comments: Comments<'_>,
    depth: usize,
    pos: Pos,
    outcome: BindingId,
) -> Result<(), AllocError>
    ensures { OnOk result (string_bytes out.new ≡ string_bytes out.old ++ shown_lines names.entry comments.entry (check_lines depth (return_at (position pos) outcome))) }
{
    print_head(out, names, depth, "return", &[outcome])?;
    print_comment(out, names, comments, pos)?;
    out.push('\n')
}

fn print_comment(
    out: &mut String,
    names: TreeNames<'_>,
    comments: Comments<'_>,
    pos: Pos,
) -> Result<(), AllocError>
    ensures { OnOk result (string_bytes out.new ≡ string_bytes out.old ++ comment_text (syms_of names.entry) comments.entry (position pos)) }
{
    match comments {
        Comments::Nothing => Ok(()),
        Comments::Rules(lines, rules) => print_rule(out, names, lines, rules, pos),
    }
}

// The rule at a position: its name, where it is among these, and its place.
fn print_rule(
    out: &mut String,
    names: TreeNames<'_>,
    lines: &FileLines<'_>,
    rules: &BTreeMap<Pos, Sym>,
    pos: Pos,
) -> Result<(), AllocError>
    ensures { OnOk result (string_bytes out.new ≡ string_bytes out.old
        ++ rule_text (syms_of names.entry) (get ghosts.cmp rules.now pos) lines.now.files.now (position pos)) }
{
    out.push_str("  ; ")?;
    print_rule_name(out, names, rules, pos)?;
    push_place(out, lines, pos)
}

// The name of the rule at a position, where it is among these.
fn print_rule_name(
    out: &mut String,
    names: TreeNames<'_>,
    rules: &BTreeMap<Pos, Sym>,
    pos: Pos,
) -> Result<(), AllocError>
    ensures { OnOk result (string_bytes out.new ≡ string_bytes out.old ++ named_rule (syms_of names.entry) (get ghosts.cmp rules.now pos)) }
{
    match rules.get(&pos) {
        Some(rule) => print_name(out, names.sym(*rule), " at "),
        None => Ok(()),
    }
}

// The line of an arm: its constraint, and the sites of its fields, with `_` for none.
fn print_arm_line(
    out: &mut String,
    names: TreeNames<'_>,
    depth: usize,
    constraint: Constraint,
    fields: &[Option<BindingId>],
) -> Result<(), AllocError>
    ensures { (said : Position → List ℕ) → OnOk result (string_bytes out.new
        ≡ string_bytes out.old ++ line_text (tree_names names.entry) said (arm_line depth (constraint_view constraint) fields.now)) }
{
    print_spaces(out, depth)?;
    print_constraint(out, names, constraint)?;
    print_fields(out, names, fields)?;
    out.push_str(":\n")
}

fn print_fields(
    out: &mut String,
    names: TreeNames<'_>,
    fields: &[Option<BindingId>],
) -> Result<(), AllocError>
    ensures { OnOk result (string_bytes out.new ≡ string_bytes out.old ++ behind names.entry (map field_token fields.now)) }
{
    for field in fields {
        print_field(out, *field)?;
    }
    Ok(())
}

fn print_field(out: &mut String, field: Option<BindingId>) -> Result<(), AllocError>
    ensures { (names : Names) → OnOk result (string_bytes out.new ≡ string_bytes out.old ++ further_text names (field_token field ∷ [])) }
{
    match field {
        Some(site) => print_site(out, site),
        None => out.push_str(" _"),
    }
}

// The line of sites that a step binds, where it binds any.
fn print_bind_order(
    out: &mut String,
    names: TreeNames<'_>,
    depth: usize,
    sites: &[BindingId],
) -> Result<(), AllocError>
    ensures { (said : Position → List ℕ) → OnOk result (string_bytes out.new
        ≡ string_bytes out.old ++ lines_text (tree_names names.entry) said (bind_lines depth sites.now)) }
{
    if sites.is_empty() {
        return Ok(());
    }
    print_line(out, names, depth, "bind", sites)
}

fn print_line(
    out: &mut String,
    names: TreeNames<'_>,
    depth: usize,
    word: &str,
    sites: &[BindingId],
) -> Result<(), AllocError>
    ensures { OnOk result (string_bytes out.new ≡ string_bytes out.old ++ (replicate depth 32 ++ (word.now ++ (behind names.entry (sites_tokens sites.now) ++ 10 ∷ [])))) }
{
    print_head(out, names, depth, word, sites)?;
    out.push('\n')
}

// A word with sites behind it.
fn print_head(
    out: &mut String,
    names: TreeNames<'_>,
    depth: usize,
    word: &str,
    sites: &[BindingId],
) -> Result<(), AllocError>
    ensures { OnOk result (string_bytes out.new ≡ string_bytes out.old ++ (replicate depth 32 ++ (word.now ++ behind names.entry (sites_tokens sites.now)))) }
{
    print_spaces(out, depth)?;
    out.push_str(word)?;
    print_sites(out, names, sites)
}

// Spaces before a line. The lines of a deep tree have many, so most are added by 32.
fn print_spaces(out: &mut String, depth: usize) -> Result<(), AllocError>
    ensures { OnOk result (string_bytes out.new ≡ string_bytes out.old ++ replicate depth 32) }
{
    print_pieces(out, "                                ", depth / 32)?;
    print_pieces(out, "    ", depth % 32 / 4)?;
    print_pieces(out, " ", depth % 32 % 4)
}

// A piece of spaces, so many times.
fn print_pieces(out: &mut String, piece: &str, times: usize) -> Result<(), AllocError>
    ensures { (width : ℕ) → piece.now ≡ replicate width 32 → OnOk result (string_bytes out.new ≡ string_bytes out.old ++ replicate (times * width) 32) }
{
    for step in 0..times {
        out.push_str(piece)?;
    }
    Ok(())
}

// Sites, each after a space.
fn print_sites(
    out: &mut String,
    names: TreeNames<'_>,
    sites: &[BindingId],
) -> Result<(), AllocError>
    ensures { OnOk result (string_bytes out.new ≡ string_bytes out.old ++ behind names.entry (sites_tokens sites.now)) }
{
    for site in sites {
        print_site(out, *site)?;
    }
    Ok(())
}

// A site after a space.
fn print_site(out: &mut String, site: BindingId) -> Result<(), AllocError>
    ensures { OnOk result (string_bytes out.new ≡ string_bytes out.old ++ (codes " b" ++ decimal site)) }
{
    let number = site.index();
    write!(out, " b{number}")
}

/// What a site stands for, after a space.
pub fn print_binding(
    out: &mut String,
    names: TreeNames<'_>,
    binding: &Binding,
) -> Result<(), AllocError>
    ensures { OnOk result (string_bytes out.new ≡ string_bytes out.old ++ behind names.entry (site_tokens (site_view binding.now))) }
{
    match binding {
        Binding::ConstBool { val, .. } => {
            out.push_str(if *val { " bool true" } else { " bool false" })
        }
        Binding::ConstInt { val, ty } => print_int(out, names, " int ", *val, *ty),
        Binding::ConstPrim { val } => print_name(out, " prim ", names.sym(*val)),
        Binding::Argument { index } => print_number(out, " arg ", index.index()),
        Binding::Extractor { term, parameter } => {
            print_name(out, " extract ", names.term(*term))?;
            print_site(out, *parameter)
        }
        Binding::Constructor {
            term,
            parameters,
            instance,
        } => print_call(out, names, *term, *instance, parameters),
        Binding::Iterator { source } => print_of(out, " pick", *source),
        Binding::MakeVariant {
            ty,
            variant,
            fields,
        } => {
            print_variant(out, names, " make ", *ty, *variant)?;
            print_sites(out, names, fields)
        }
        Binding::MatchVariant {
            source,
            variant,
            field,
        } => {
            print_part(out, " field ", field.index(), *source)?;
            print_number(out, " variant ", variant.index())
        }
        Binding::MakeStruct { ty, fields } => {
            print_name(out, " make ", names.ty(*ty))?;
            print_sites(out, names, fields)
        }
        Binding::ExtractStruct { source, field } => {
            print_part(out, " field ", field.index(), *source)
        }
        Binding::MakeSome { inner } => print_of(out, " some", *inner),
        Binding::MatchSome { source } => print_of(out, " unwrap", *source),
        Binding::MatchTuple { source, field } => print_part(out, " part ", field.index(), *source),
    }
}

/// What an arm asks.
pub fn print_constraint(
    out: &mut String,
    names: TreeNames<'_>,
    constraint: Constraint,
) -> Result<(), AllocError>
    ensures { OnOk result (string_bytes out.new ≡ string_bytes out.old ++ tokens_text (tree_names names.entry) (constraint_tokens (constraint_view constraint))) }
{
    match constraint {
        Constraint::Variant { ty, variant, .. } => {
            print_variant(out, names, "variant ", ty, variant)
        }
        Constraint::Struct { ty, .. } => print_name(out, "struct ", names.ty(ty)),
        Constraint::ConstBool { val, .. } => {
            out.push_str(if val { "bool true" } else { "bool false" })
        }
        Constraint::ConstInt { val, ty } => print_int(out, names, "int ", val, ty),
        Constraint::ConstPrim { val } => print_name(out, "prim ", names.sym(val)),
        Constraint::Some => out.push_str("some"),
    }
}

// An integer and its type.
fn print_int(
    out: &mut String,
    names: TreeNames<'_>,
    word: &str,
    val: i128,
    ty: TypeId,
) -> Result<(), AllocError>
    ensures { OnOk result (string_bytes out.new ≡ string_bytes out.old ++ (word.now ++ (signed_decimal val ++ (codes " " ++ (tree_names names.entry).ty ty.0)))) }
{
    write!(out, "{word}{val} ")?;
    out.push_str(names.ty(ty))
}

// Two texts.
fn print_name(out: &mut String, word: &str, name: &str) -> Result<(), AllocError>
    ensures { OnOk result (string_bytes out.new ≡ string_bytes out.old ++ (word.now ++ name.now)) }
{
    out.push_str(word)?;
    out.push_str(name)
}

fn print_number(out: &mut String, word: &str, number: usize) -> Result<(), AllocError>
    ensures { OnOk result (string_bytes out.new ≡ string_bytes out.old ++ (word.now ++ decimal number)) }
{
    write!(out, "{word}{number}")
}

// A call, with its number where it is impure, and the sites that are handed to it.
fn print_call(
    out: &mut String,
    names: TreeNames<'_>,
    term: TermId,
    instance: u32,
    parameters: &[BindingId],
) -> Result<(), AllocError>
    ensures { OnOk result (string_bytes out.new ≡ string_bytes out.old ++ behind names.entry (site_tokens (constructor_site term.0 parameters.now instance))) }
{
    print_name(out, " call ", names.term(term))?;
    if instance != 0 {
        print_number(out, " #", instance as usize)?;
    }
    print_sites(out, names, parameters)
}

fn print_of(out: &mut String, word: &str, site: BindingId) -> Result<(), AllocError>
    ensures { OnOk result (string_bytes out.new ≡ string_bytes out.old ++ (word.now ++ (codes " b" ++ decimal site))) }
{
    out.push_str(word)?;
    print_site(out, site)
}

// A place in a value, and the value's site.
fn print_part(
    out: &mut String,
    word: &str,
    place: usize,
    source: BindingId,
) -> Result<(), AllocError>
    ensures { OnOk result (string_bytes out.new ≡ string_bytes out.old ++ (word.now ++ (decimal place ++ (codes " of b" ++ decimal source)))) }
{
    print_number(out, word, place)?;
    print_of(out, " of", source)
}

// A variant after its enum and a point.
fn print_variant(
    out: &mut String,
    names: TreeNames<'_>,
    word: &str,
    ty: TypeId,
    variant: VariantId,
) -> Result<(), AllocError>
    ensures { OnOk result (string_bytes out.new ≡ string_bytes out.old
        ++ (word.now ++ ((tree_names names.entry).ty ty.0 ++ (codes "." ++ (tree_names names.entry).variant ty.0 variant.0)))) }
{
    print_name(out, word, names.ty(ty))?;
    print_name(out, ".", names.variant(ty, variant))
}
