//! What holds of printing, whatever prints.

ghost use Rattle.std.specs.Prelude.{◌≡◌, List, Ok, true};
ghost use Rattle.std.specs.List.{list_all};
ghost use Rattle.model.specs.lists.Syntax.{Definition};
ghost use Rattle.text_reader.specs.Definitions.{definition_of};
ghost use Rattle.text_writer.specs.Forms.{form_of};
ghost use Rattle.text_writer.specs.Placeless.{placeless_definition};
ghost use Rattle.text_writer.specs.ReadsBack.{ReadsBackAs};
ghost use Rattle.text_writer.specs.Spellable.{can_be_spelled};
ghost use Rattle.text_writer.specs.Texts.{printed};

/// The form of a definition that can be spelled is read as this definition, but for places.
pub fn forms_are_read_back()
    ensures { (d : Definition) → can_be_spelled d ≡ true → definition_of (form_of d) ≡ Ok (placeless_definition d) }
{}

/// The text of definitions that can be spelled is read as these definitions, but for places.
pub fn texts_read_back()
    ensures { (ds : List Definition) → list_all can_be_spelled ds ≡ true → ReadsBackAs (printed ds) ds }
{}
