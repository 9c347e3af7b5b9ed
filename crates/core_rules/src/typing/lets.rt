//! The scopes of lets: the name and the type of a definition, what names stood for before, and the end of a scope.

ghost use Rattle.std.specs.Prelude.{◌≡◌, [], ◌∷◌, ◌++◌, is_some, IfOk, OnOk};
ghost use Rattle.std.specs.Option.{option_to_list};
ghost use Rattle.core_syntax.specs.SyntaxViews.{name_view, position};
ghost use Rattle.model.specs.lists.Elaborated.{typed_let};
ghost use Rattle.core_types.specs.Envs.{IsInterned};
ghost use Rattle.core_syntax.specs.NotedErrors.{NotesMore};
ghost use Rattle.core_typed.specs.Elaborating.{place_unless, NotesEachAt};
ghost use Rattle.core_typed.specs.ExprViews.{expr_view, let_views, let_parts};
ghost use Rattle.core_rules.specs.Lets.{Begins, Binds, Closes};
ghost use Rattle.core_rules.specs.ShownSettings.{Keeps};
ghost use Rattle.core_syntax.specs.Positions.{NotesAt};

use crate::typing::progress::Progress;
use core_syntax::syntax::{Error, LetDef, Pos};
use core_typed::{BoundVar, Expr};
use core_types::{Sym, TypeEnv, TypeId, VarId, report};
use core_why::Why;
use std::alloc::AllocError;

/// The name and the type of a let's definition. A type that isn't known is noted.
#[tactic(auto, using(core_syntax::proofs::Positioned::notes_nothing))]
pub(crate) fn begin_def(
    tyenv: &mut TypeEnv,
    errors: &mut Vec<Error>,
    def: &LetDef,
    pos: Pos,
) -> Result<Option<(Sym, TypeId)>, AllocError>
    requires { IsInterned tyenv.old }
    ensures keeps { Keeps tyenv.old tyenv.new }
    ensures begins { OnOk result (Begins tyenv.old tyenv.new errors.old.items errors.new.items (name_view def.now.var) (name_view def.now.ty) result) }
    ensures places { OnOk result (NotesAt (position pos ∷ []) errors.old.items errors.new.items) }
    ensures exact { IfOk result (λ o. NotesEachAt (place_unless (is_some o) (position pos)) errors.old.items errors.new.items) }
{
    let ty = tyenv.get_type_by_name(&def.ty);
    let name = tyenv.intern_mut(&def.var)?;
    let Some(ty) = ty else {
        report_type(errors, pos, def)?;
        return Ok(None);
    };
    Ok(Some((name, ty)))
}

// Notes that the type of a definition isn't known.
fn report_type(errors: &mut Vec<Error>, pos: Pos, def: &LetDef) -> Result<(), AllocError>
    ensures noted { OnOk result (NotesMore errors.old.items errors.new.items) }
    ensures places { OnOk result (NotesAt (position pos ∷ []) errors.old.items errors.new.items) }
    ensures exact { OnOk result (NotesEachAt (position pos ∷ []) errors.old.items errors.new.items) }
{
    let ty = def.ty.0.clone()?;
    let variable = def.var.0.clone()?;
    report(errors, pos, Why::LetType { ty, variable })
}

/// Binds the name of a definition to its value, and keeps what the name stood for before.
pub(crate) fn bind_def(
    work: &mut Progress,
    hidden: &mut Vec<(Sym, Option<BoundVar>)>,
    name: Sym,
    ty: TypeId,
    val: Expr,
) -> Result<(VarId, TypeId, Box<Expr>), AllocError>
    ensures { OnOk result (Binds work.old work.new hidden.old.items hidden.new.items name.0 ty.0 (expr_view val) result) }
{
    let val = Box::new(*hidden.allocator(), val)?;
    hidden.push((name, work.lookup(name)))?;
    let id = work.add_var(name, ty)?;
    Ok((id, ty, val))
}

/// One more definition, where there is one.
pub(crate) fn push_def(
    out: &mut Vec<(VarId, TypeId, Box<Expr>)>,
    made: Option<(VarId, TypeId, Box<Expr>)>,
) -> Result<(), AllocError>
    ensures { OnOk result (out.new.items ≡ out.old.items ++ option_to_list made) }
{
    if let Some(def) = made {
        out.push(def)?;
        return Ok(());
    }
    Ok(())
}

/// The names of a let stand for what they stood for before it, put back newest first.
pub(crate) fn close_let(
    work: &mut Progress,
    hidden: &[(Sym, Option<BoundVar>)],
) -> Result<(), AllocError>
    ensures { OnOk result (Closes hidden.now work.old work.new) }
{
    for i in 0..hidden.len() {
        let (name, var) = hidden[hidden.len() - 1 - i];
        work.put_back(name, var)?;
    }
    Ok(())
}

/// A let with these definitions and this body, whose scope ends.
pub(crate) fn end_let(
    work: &mut Progress,
    hidden: &Vec<(Sym, Option<BoundVar>)>,
    bindings: Vec<(VarId, TypeId, Box<Expr>)>,
    body: Expr,
) -> Result<Expr, AllocError>
    ensures view { IfOk result (λ x. expr_view x ≡ typed_let (let_parts (let_views bindings.items)) (expr_view body)) }
    ensures closes { OnOk result (Closes hidden.now.items work.old work.new) }
{
    let ty = body.ty();
    let body = Box::new(*hidden.allocator(), body)?;
    close_let(work, hidden)?;
    Ok(Expr::Let { ty, bindings, body })
}
