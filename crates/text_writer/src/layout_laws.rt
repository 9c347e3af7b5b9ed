//! What holds of the layout, by each indentation.
#![tactic(auto, using(crate::proofs::Texts::texts))]

ghost use Rattle.std.specs.Prelude.{◌≡◌, ℕ, List, [], Ok, map};
ghost use Rattle.text_reader.specs.Lexing.{Tokens, tokens_after};
ghost use Rattle.text_reader.specs.Pieces.{AreIn, Piece};
ghost use Rattle.text_reader.specs.Solid.{solid, stripped};
ghost use Rattle.text_writer.specs.Pages.{laid, text_of};
ghost use Rattle.text_writer.specs.declared.lists.Indentation.{Indentation};
ghost use Rattle.text_writer.specs.Placing.{kept};

use text_reader::laws::white_space_says_nothing;

/// A text with tokens is laid out as a text of just the pieces that its layout writes.
pub fn layout_writes_pieces()
    ensures { (i : Indentation) (file : ℕ) (text : List ℕ) (ps : List Piece) (ts : Tokens) → AreIn 0 text ps → tokens_after file 0 ps [] ≡ Ok ts
        → AreIn 0 (text_of (laid i ps)) (laid i ps) }
{}

/// The layout changes white space alone: the other pieces of the text are those that they were, but that comments lose the
/// carriage returns at their end.
pub fn layout_changes_white_space()
    ensures { (i : Indentation) (file : ℕ) (text : List ℕ) (ps qs : List Piece) (ts : Tokens) → AreIn 0 text ps → tokens_after file 0 ps [] ≡ Ok ts
        → AreIn 0 (text_of (laid i ps)) qs → solid qs ≡ map kept (solid ps) }
{}

/// A text that is laid out has the same tokens, but for their places.
pub fn layout_keeps_tokens()
    ensures { (i : Indentation) (file : ℕ) (text : List ℕ) (ps qs : List Piece) (ts : Tokens) → AreIn 0 text ps → tokens_after file 0 ps [] ≡ Ok ts
        → AreIn 0 (text_of (laid i ps)) qs → stripped (tokens_after file 0 qs []) ≡ stripped (tokens_after file 0 ps []) }
{
    white_space_says_nothing();
}

/// A text that is laid out stays as it is when it is laid out again.
pub fn layout_is_made_once()
    ensures { (i : Indentation) (file : ℕ) (text : List ℕ) (ps qs : List Piece) (ts : Tokens) → AreIn 0 text ps → tokens_after file 0 ps [] ≡ Ok ts
        → AreIn 0 (text_of (laid i ps)) qs → text_of (laid i qs) ≡ text_of (laid i ps) }
{}
