//! The environments of definitions, also where `lower` answers errors of their rules.

ghost use Rattle.core_syntax.specs.Answers.{Answers, OnErrors};
ghost use Rattle.core_syntax.specs.SyntaxViews.{definition_views};
ghost use Rattle.core_rules.specs.ShownEnvs.{environment_shown_by};
ghost use Rattle.core_types.specs.EnvViews.{environment_view};
ghost use Rattle.cranelift_isle.specs.Environments.{AreEnvironments, AreTyped};
ghost use Rattle.cranelift_isle.specs.LoweringErrors.{AreErrorsOfLowering};

use core_rules::TermEnv;
use core_syntax::syntax::{Def, Fault};
use core_types::TypeEnv;
use std::alloc::Global;

/// What definitions become before their rules are compared.
#[derive(Drop)]
pub struct Environments {
    /// The names and types.
    pub tyenv: TypeEnv,
    /// The terms and the typed rules.
    pub termenv: TermEnv,
}

/// The environments of definitions: those of `lower`'s answer where it has one, and there too where `lower` answers that
/// rules can't match, pass a limit on what they make, overlap or are shadowed. `expand` is `lower`'s.
///
/// # Errors
///
/// `Fault::Errors` has those of `TypeEnv::from_ast`, or those of `TermEnv::from_ast`. `Fault::Memory` where memory is refused.
pub fn environments_of(alloc: Global, defs: &[Def], expand: bool) -> Result<Environments, Fault>
    // Ok exactly where types and rules can be read, and then these are their environments
    ensures answers { Answers result (AreTyped (definition_views defs.now) expand)
        (λ e. AreEnvironments (definition_views defs.now) expand (environment_view e.tyenv) (environment_shown_by e.termenv)) }

    // the errors are as those of `lower`
    ensures refused { OnErrors result (AreErrorsOfLowering (definition_views defs.now) expand) }
{
    let mut tyenv = TypeEnv::from_ast(alloc, defs)?;
    let termenv = TermEnv::from_ast(alloc, &mut tyenv, defs, expand)?;
    Ok(Environments { tyenv, termenv })
}
