//! What holds of printing, whatever prints.

ghost use Rattle.std.specs.Prelude.{◌≡◌, ◌≢◌, ℕ, Err, List, Ok, map, true};
ghost use Rattle.std.specs.List.{list_all};
ghost use Rattle.model.specs.lists.Syntax.{Definition};
ghost use Rattle.text_reader.specs.Definitions.{reading};
ghost use Rattle.text_reader.specs.SpecTrees.{VerificationTree};
ghost use Rattle.text_reader.specs.Verifying.{verification_in, verification_of};
ghost use Rattle.text_writer.specs.Items.{Item, definition_in, item_can_be_spelled, printed_items, trees_from};
ghost use Rattle.text_writer.specs.PlacelessTrees.{placeless_tree};
ghost use Rattle.text_writer.specs.Sample.{sample, sample_text};
ghost use Rattle.text_writer.specs.Saying.{ReadsBackVerification, numbered_from};
ghost use Rattle.text_writer.specs.SpecForms.{printed, verification_form};
ghost use Rattle.text_writer.specs.SpellableTrees.{can_be_spelled};
ghost use Rattle.text_writer.specs.ReadsBack.{ReadsBackAs};
ghost use Rattle.text_writer.specs.Woven.{AreMatched, Trees, unmatched, woven};

/// The form of a tree that can be spelled is read as this tree, but for places.
pub fn trees_are_read_back()
    ensures { (v : VerificationTree) → can_be_spelled v ≡ true → verification_of (verification_form v) ≡ Ok (placeless_tree v) }
{}

/// The text of trees that can be spelled says these trees, but for places, and numbers them from 0.
pub fn texts_read_back()
    ensures { (vs : List VerificationTree) → list_all can_be_spelled vs ≡ true → ReadsBackVerification (printed vs) (numbered_from 0 vs) }
{}

/// The text of definitions and trees that can be spelled is read as these, but for places: by a reader of definitions, which passes
/// over the trees, and by a reader for a verifier, which passes over the definitions.
pub fn items_read_back()
    ensures { (is : List Item) → list_all item_can_be_spelled is ≡ true
        → ReadsBackAs (printed_items is) (map definition_in is) × ReadsBackVerification (printed_items is) (trees_from 0 is) }
{}

/// What is read of a text goes together: each tree has the number of a definition for other tools, and each of these a tree.
pub fn texts_are_matched()
    ensures { (file : ℕ) (text : List ℕ) (ds : List Definition) (vs : Trees) → reading file text ≡ Ok ds → verification_in file text ≡ Ok vs → AreMatched 0 ds vs }
{}

/// Definitions and trees that go together have a text, or one of them can't be spelled.
pub fn matched_are_woven()
    ensures { (n : ℕ) (ds : List Definition) (vs : Trees) (number : ℕ) → AreMatched n ds vs → woven n ds vs ≢ Err (unmatched number) }
{}

/// A spec and a model are printed as a text has them.
pub fn a_sample_is_printed()
    ensures { printed sample ≡ sample_text }
{}
