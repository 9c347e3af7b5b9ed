//! Words, numbers and constants as text.

ghost use Rattle.std.specs.Prelude.{◌≡◌, [], ◌∷◌, ◌++◌, if◌then◌else◌, map, OnOk, string_bytes};
ghost use Rattle.core_syntax.specs.SyntaxViews.{name_view};
ghost use Rattle.text_reader.specs.FormTrees.{form_and, no_form};
ghost use Rattle.text_writer.specs.Forms.{constant_form, flag_before, list_form, names_before, number_form, truth_form, word_form};
ghost use Rattle.text_writer.specs.Texts.{parted, spaced, written};

use core_syntax::syntax::Ident;
use std::alloc::AllocError;

/// Adds a truth value.
pub fn push_truth(out: &mut String, val: bool) -> Result<(), AllocError>
    ensures { OnOk result (string_bytes out.new ≡ string_bytes out.old ++ written (truth_form val)) }
{
    out.push_str(if val { "true" } else { "false" })
}

/// Adds a number.
pub fn push_number(out: &mut String, val: i128) -> Result<(), AllocError>
    ensures { OnOk result (string_bytes out.new ≡ string_bytes out.old ++ written (number_form val)) }
{
    write!(out, "{val}")
}

/// Adds a constant.
pub fn push_constant(out: &mut String, name: &Ident) -> Result<(), AllocError>
    ensures { OnOk result (string_bytes out.new ≡ string_bytes out.old ++ written (constant_form (name_view name.now))) }
{
    out.push_str("$")?;
    out.push_str(&name.0)
}

/// Adds a space, where there is to be one.
pub fn push_gap(out: &mut String, is: bool) -> Result<(), AllocError>
    ensures { OnOk result (string_bytes out.new ≡ string_bytes out.old ++ (if is then 32 ∷ [] else [])) }
{
    out.push_str(if is { " " } else { "" })
}

/// Adds a text behind a space.
pub fn push_word(out: &mut String, word: &str) -> Result<(), AllocError>
    ensures { OnOk result (string_bytes out.new ≡ string_bytes out.old ++ 32 ∷ word.now) }
{
    out.push_str(" ")?;
    out.push_str(word)
}

/// Adds a text behind a space, where it is to be there.
#[tactic(auto, unfolding(crate::specs::Forms::flag_before))]
pub fn push_flag(out: &mut String, word: &str, is: bool) -> Result<(), AllocError>
    ensures { OnOk result (string_bytes out.new ≡ string_bytes out.old ++ spaced (flag_before word.now is no_form)) }
{
    if is {
        return push_word(out, word);
    }
    Ok(())
}

/// Adds names, each behind a space.
pub fn push_words(out: &mut String, names: &[Ident]) -> Result<(), AllocError>
    ensures { OnOk result (string_bytes out.new ≡ string_bytes out.old ++ spaced (names_before (map name_view names.now) no_form)) }
{
    for name in names {
        push_word(out, &name.0)?;
    }
    Ok(())
}

/// Adds names with a space between them.
pub fn push_names(out: &mut String, names: &[Ident]) -> Result<(), AllocError>
    ensures { OnOk result (string_bytes out.new ≡ string_bytes out.old ++ parted (names_before (map name_view names.now) no_form)) }
{
    match names {
        [] => Ok(()),
        [first, rest @ ..] => {
            out.push_str(&first.0)?;
            push_words(out, rest)
        }
    }
}

/// Adds a list of a name and other names.
pub fn push_use(out: &mut String, name: &Ident, args: &[Ident]) -> Result<(), AllocError>
    ensures { OnOk result (string_bytes out.new
        ≡ string_bytes out.old ++ written (list_form (form_and (word_form (name_view name.now)) (names_before (map name_view args.now) no_form)))) }
{
    out.push_str("(")?;
    out.push_str(&name.0)?;
    push_words(out, args)?;
    out.push_str(")")
}
