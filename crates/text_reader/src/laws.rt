//! What holds of the notation, whatever reads it.

ghost use Rattle.std.specs.Prelude.{◌≡◌, ◌+◌, ◌++◌, ℕ, List, [], ◌∷◌, Err, Ok, true, ◌⊎◌};
ghost use Rattle.std.specs.Str.{IsUtf8};
ghost use Rattle.model.specs.lists.Syntax.{Definition, Position};
ghost use Rattle.text_reader.specs.declared.errors.Mistake.TheVariants.{CommentEnd};
ghost use Rattle.text_reader.specs.Chunks.{EndsLine, EndsList, begins, chunks_at};
ghost use Rattle.text_reader.specs.Definitions.{IsOfDefinitions, IsOfLists, IsOfTokens, Spells, forms_in, reading, tokens_in};
ghost use Rattle.text_reader.specs.Examples.{SkippedAreRead, IntegersAreRead, NamesAreRead, ConstantsAreRead, PrimitivesAreRead, EnumerationsAreRead, StructuresAreRead, DeclarationsAreRead, RulesAreRead, ExtractorsAreRead, ExternalConstructorsAreRead, ExternalExtractorsAreRead, ExternalConstantsAreRead, ConversionsAreRead, OthersAreRead, VariantTextsAreRead, FieldTextsAreRead, PatternsAreRead, StatementsAreRead, ExpressionsAreRead};
ghost use Rattle.text_reader.specs.FormTrees.{FormTrees, all_spelled};
ghost use Rattle.text_reader.specs.Lexemes.{Wrong, expected, unclosed};
ghost use Rattle.text_reader.specs.Lexing.{Tokens, between, reached, run, tokens_after};
ghost use Rattle.text_reader.specs.Pieces.{AreIn, Piece, pieces_of, size};
ghost use Rattle.text_reader.specs.Recovering.{beside, of_parts, recovering};
ghost use Rattle.text_reader.specs.Solid.{solid, stripped};

/// A text has one list of pieces.
pub fn texts_have_one_division()
    ensures are { (text : List ℕ) → AreIn 0 text (pieces_of text) }
    ensures one { (text : List ℕ) (ps : List Piece) → AreIn 0 text ps → ps ≡ pieces_of text }
{}

/// Tokens spell one list of forms.
pub fn tokens_have_one_reading()
    ensures { (fs gs : FormTrees) → all_spelled fs [] ≡ all_spelled gs [] → fs ≡ gs }
{}

/// A text spells one list of definitions.
pub fn texts_have_one_reading()
    ensures { (file : ℕ) (text : List ℕ) (ds es : List Definition) → Spells file text ds → Spells file text es → ds ≡ es }
{}

/// A mistake that shows at a character is that of every text with this front.
pub fn fronts_keep_their_mistake()
    ensures { (file a b : ℕ) (front rest : List ℕ) (w : Wrong) → reached file a between 0 front [] ≡ Err w
        → run file b between 0 (front ++ rest) [] ≡ Err w }
{}

/// Texts that differ in white space alone have the same tokens, but for their places, or the same first mistake.
pub fn white_space_says_nothing()
    ensures { (file : ℕ) (ps qs : List Piece) → solid ps ≡ solid qs → stripped (tokens_after file 0 ps []) ≡ stripped (tokens_after file 0 qs []) }
{}

/// A text spells definitions exactly where reading it gives these.
pub fn spelled_texts_are_read()
    ensures read { (file : ℕ) (text : List ℕ) (ds : List Definition) → Spells file text ds → reading file text ≡ Ok ds }
    ensures spelled { (file : ℕ) (text : List ℕ) (ds : List Definition) → reading file text ≡ Ok ds → Spells file text ds }
{}

/// The mistake of a text is one of its tokens; or its tokens are there, and it is one of its lists; or its lists are there too,
/// and it is one of its definitions. Each such mistake is that of the text.
pub fn mistakes_are_told_in_turn()
    ensures told { (file : ℕ) (text : List ℕ) (w : Wrong) → reading file text ≡ Err w → IsOfTokens file text w ⊎ IsOfLists file text w ⊎ IsOfDefinitions file text w }
    ensures first { (file : ℕ) (text : List ℕ) (w : Wrong) → IsOfTokens file text w ⊎ IsOfLists file text w ⊎ IsOfDefinitions file text w → reading file text ≡ Err w }
{}

/// A list that isn't ended can be: some continuation of the text has tokens and lists without a mistake.
pub fn unended_lists_can_be_ended()
    ensures { (file : ℕ) (text : List ℕ) (begin place : Position) → IsUtf8 text → reading file text ≡ Err (unclosed begin, place)
        → (more : List ℕ) × (fs : FormTrees) × IsUtf8 (text ++ more) × (forms_in file (text ++ more) ≡ Ok fs) }
{}

/// A comment that isn't ended can be: some continuation of the text has tokens without a mistake.
pub fn unended_comments_can_be_ended()
    ensures { (file : ℕ) (text : List ℕ) (place : Position) → IsUtf8 text → reading file text ≡ Err (expected CommentEnd, place)
        → (more : List ℕ) × (ts : Tokens) × IsUtf8 (text ++ more) × (tokens_in file (text ++ more) ≡ Ok ts) }
{}

/// Of a text that is read nothing else is recovered; and a text where nothing is wrong is read.
pub fn read_texts_are_recovered()
    ensures read { (file : ℕ) (text : List ℕ) (ds : List Definition) → reading file text ≡ Ok ds → recovering file text ≡ record { definitions = ds; mistakes = [] } }
    ensures fine { (file : ℕ) (text : List ℕ) → IsUtf8 text → (recovering file text).mistakes ≡ [] → reading file text ≡ Ok (recovering file text).definitions }
{}

/// What begins in the first column is read apart, and so is what follows the end of an outermost list: what stands before it
/// gives what it gives alone, and it gives what it gives alone at that offset.
pub fn chunks_are_read_apart()
    ensures lines { (file offset : ℕ) (front rest : List ℕ) → EndsLine front → begins rest ≡ true
        → of_parts file (chunks_at offset (front ++ rest)) ≡ beside (of_parts file (chunks_at offset front)) (of_parts file (chunks_at (offset + size front) rest)) }
    ensures lists { (file offset c : ℕ) (front rest : List ℕ) → EndsList front
        → of_parts file (chunks_at offset (front ++ c ∷ rest)) ≡ beside (of_parts file (chunks_at offset front)) (of_parts file (chunks_at (offset + size front) (c ∷ rest))) }
{}

/// Each row of the grammar of docs/NOTATION.md has a text that is read as it says.
#[tactic(auto, using(crate::proofs::Examples::rows_read))]
pub fn rows_of_the_grammar()
    ensures skipped { SkippedAreRead }
    ensures integers { IntegersAreRead }
    ensures names { NamesAreRead }
    ensures constants { ConstantsAreRead }
    ensures primitives { PrimitivesAreRead }
    ensures enumerations { EnumerationsAreRead }
    ensures structures { StructuresAreRead }
    ensures declarations { DeclarationsAreRead }
    ensures rules { RulesAreRead }
    ensures extractors { ExtractorsAreRead }
    ensures external_constructors { ExternalConstructorsAreRead }
    ensures external_extractors { ExternalExtractorsAreRead }
    ensures external_constants { ExternalConstantsAreRead }
    ensures conversions { ConversionsAreRead }
    ensures others { OthersAreRead }
    ensures variants { VariantTextsAreRead }
    ensures fields { FieldTextsAreRead }
    ensures patterns { PatternsAreRead }
    ensures statements { StatementsAreRead }
    ensures expressions { ExpressionsAreRead }
{}
