//! Which names a text can spell.

ghost use Rattle.std.specs.Prelude.{◌≡◌, map};
ghost use Rattle.std.specs.List.{list_all};
ghost use Rattle.std.specs.Str.{chars};
ghost use Rattle.core_syntax.specs.SyntaxViews.{name_view};
ghost use Rattle.text_reader.specs.Pieces.{is_in_word};
ghost use Rattle.text_writer.specs.Spellable.{are_words, begins_word, has_word_characters, is_constant_name, is_expr_head, is_expr_variable, is_pattern_head, is_pattern_variable, is_signed_128, is_some_text, is_truth, is_word};

use core_syntax::syntax::Ident;
use text_reader::tokens::is_in_word;

/// Whether a name is written as a word.
#[tactic(auto, unfolding(crate::specs::Spellable::is_word))]
pub fn is_word(name: &Ident) -> bool
    ensures { result ≡ is_word (name_view name.now) }
{
    begins_word(name.0.as_bytes()) && has_word_characters(name)
}

/// Whether the name of a constant can be written behind `$`.
#[tactic(auto, unfolding(crate::specs::Spellable::is_constant_name))]
pub fn is_constant_name(name: &Ident) -> bool
    ensures { result ≡ is_constant_name (name_view name.now) }
{
    is_some_text(name.0.as_bytes()) && has_word_characters(name)
}

/// Whether a name is written as a variable in a pattern.
#[tactic(auto, unfolding(crate::specs::Spellable::is_pattern_variable))]
pub fn is_pattern_variable(name: &Ident) -> bool
    ensures { result ≡ is_pattern_variable (name_view name.now) }
{
    is_word(name) && name.0.as_str() != "_" && !is_truth(name)
}

/// Whether a name is written as a term's in a pattern.
#[tactic(auto, unfolding(crate::specs::Spellable::is_pattern_head))]
pub fn is_pattern_head(name: &Ident) -> bool
    ensures { result ≡ is_pattern_head (name_view name.now) }
{
    is_word(name) && name.0.as_str() != "and" && name.0.as_str() != "macro-arg"
}

/// Whether a name is written as a variable in an expression.
#[tactic(auto, unfolding(crate::specs::Spellable::is_expr_variable))]
pub fn is_expr_variable(name: &Ident) -> bool
    ensures { result ≡ is_expr_variable (name_view name.now) }
{
    is_word(name) && !is_truth(name)
}

/// Whether a name is written as a term's in an expression.
#[tactic(auto, unfolding(crate::specs::Spellable::is_expr_head))]
pub fn is_expr_head(name: &Ident) -> bool
    ensures { result ≡ is_expr_head (name_view name.now) }
{
    is_word(name) && name.0.as_str() != "let"
}

/// Whether all names are written as words.
pub fn are_words(names: &[Ident]) -> bool
    ensures { result ≡ are_words (map name_view names.now) }
{
    for name in names {
        if !is_word(name) {
            return false;
        }
    }
    true
}

/// Whether a number can be written: each of 128 bits can, of which one is its sign.
#[tactic(auto, unfolding(crate::specs::Spellable::is_signed_128))]
pub fn is_signed_128(_val: i128) -> bool
    ensures { result ≡ is_signed_128 _val }
{
    true
}

/// Whether a name is a truth value's.
#[tactic(auto, unfolding(crate::specs::Spellable::is_truth))]
pub fn is_truth(name: &Ident) -> bool
    ensures { result ≡ is_truth (name_view name.now) }
{
    name.0.as_str() == "true" || name.0.as_str() == "false"
}

// Whether a text begins no constant, no number, and no word that begins with `-`.
#[tactic(auto, unfolding(crate::specs::Spellable::begins_word))]
fn begins_word(text: &[u8]) -> bool
    ensures { result ≡ begins_word text.now }
{
    match text {
        [] => false,
        [first, ..] => *first != b'$' && *first != b'-' && !first.is_ascii_digit(),
    }
}

fn is_some_text(text: &[u8]) -> bool
    ensures { result ≡ is_some_text text.now }
{
    match text {
        [] => false,
        [_, ..] => true,
    }
}

/// Whether all characters of a name may stand in a word.
#[tactic(auto, using(crate::proofs::Names::name_steps), unfolding(crate::specs::Spellable::has_word_characters))]
pub fn has_word_characters(name: &Ident) -> bool
    ensures { result ≡ has_word_characters (name_view name.now).text }
{
    are_in_word(&name.0)
}

// Whether all characters of a text may stand in a word.
fn are_in_word(text: &str) -> bool
    ensures { result ≡ list_all is_in_word (chars text.now) }
{
    text.chars().all(|c| is_in_word(c))
}
