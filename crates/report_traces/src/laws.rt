//! Laws of echoes. A function here has no code: its clause is a law, and its proof stands in `proofs/`.

ghost use Rattle.report_traces.specs.EchoLaws.{EchoesAreWellTyped, EchoesChooseAsSource, EchoesKeepConstantsApart};

/// Where what rules call can be echoed, echoes are well typed.
pub fn echoes_are_well_typed()
    ensures { EchoesAreWellTyped }
{}

/// Where no literal is a constant's number, and no pattern names a constant of a type with parts, echoes tell constants apart.
pub fn echoes_keep_constants_apart()
    ensures { EchoesKeepConstantsApart }
{}

/// In a term that isn't multi, a tree that runs as chosen comes by such echoes to the outcome of the matching source rule of
/// greatest priority.
pub fn echoes_choose_as_source()
    ensures { EchoesChooseAsSource }
{}
