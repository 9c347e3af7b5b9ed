//! How the types of constants are read, after all types are.

ghost use Rattle.std.specs.Prelude.{[], OnOk};
ghost use Rattle.core_syntax.specs.SyntaxViews.{position, definition_view, definition_views, name_view};
ghost use Rattle.core_types.specs.ConstantReading.{ReadsConstant, ReadsDefinition};
ghost use Rattle.core_types.specs.Envs.{IsInterned};
ghost use Rattle.core_types.specs.Stages.{FillsTypes, ReadsConstants};
ghost use Rattle.core_types.specs.ToldErrors.{NotesEach};
ghost use Rattle.core_types.specs.TypeErrors.{TellsOfConstant};

use crate::reading::report_name;
use crate::type_env::TypeEnv;
use core_syntax::syntax::{Def, Error, Extern, Ident, Pos};
use core_why::Wrong;
use std::alloc::AllocError;

impl TypeEnv {
    pub(crate) fn read_constants(
        &mut self,
        errors: &mut Vec<Error>,
        defs: &[Def],
    ) -> Result<(), AllocError>
        requires { FillsTypes (definition_views defs.now) [] self.old errors.old.items }
        ensures reads { OnOk result (ReadsConstants (definition_views defs.now) [] self.new errors.new.items) }
        ensures told { OnOk result (NotesEach (TellsOfConstant (definition_views defs.now)) (definition_views defs.now) errors.old.items errors.new.items) }
    {
        for def in defs {
            self.read_definition(errors, def)?;
        }
        Ok(())
    }

    // Reads the constant that a definition makes, if it makes one.
    fn read_definition(&mut self, errors: &mut Vec<Error>, def: &Def) -> Result<(), AllocError>
        requires { IsInterned self.old }
        ensures inverse { IsInterned self.new }
        ensures reads { OnOk result (ReadsDefinition (definition_view def.now) self.old errors.old.items self.new errors.new.items) }
    {
        let Def::Extern(Extern::Const { name, ty, pos }) = def else {
            return Ok(());
        };
        self.read_constant(errors, name, ty, *pos)
    }

    // Reads a constant: a later one of the same name takes the place of an earlier one.
    fn read_constant(
        &mut self,
        errors: &mut Vec<Error>,
        name: &Ident,
        ty: &Ident,
        pos: Pos,
    ) -> Result<(), AllocError>
        requires { IsInterned self.old }
        ensures inverse { IsInterned self.new }
        ensures reads { OnOk result (ReadsConstant (name_view name.now) (name_view ty.now) (position pos)
            self.old errors.old.items self.new errors.new.items) }
    {
        let Some(id) = self.get_type_by_name(ty) else {
            return report_name(errors, pos, Wrong::UnknownConstantType, &ty.0);
        };
        let sym = self.intern_mut(name)?;
        self.const_types.insert(sym, id)?;
        Ok(())
    }
}
