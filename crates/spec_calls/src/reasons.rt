//! Why not all that a rule calls is followed: terms without specs, and types without models.

use crate::faults::CallFault;
use crate::makers::Maker;
use core_rule_sets::trie_again::Binding;
use core_types::{Fields, Sym, TermId, Type, TypeId, VariantId};
use spec_asked::marks::is_marked;
use spec_cases::steps::Constraint;
use spec_steps::demands::Tested;
use spec_tables::models::{ValueModel, without_model};
use std::alloc::AllocError;

// How deep fields of structs are looked at.
const DEEPEST_VALUE: usize = 16;

impl<'c, 's> Maker<'c, 's> {
    /// Notes that the type of an argument of the rule's term has no model.
    pub(crate) fn check_arguments(&mut self, term: TermId) -> Result<(), CallFault> {
        let lowered = self.lowered;
        match lowered.termenv.terms.get(term.index()) {
            Some(known) => self.check_types(&known.arg_tys, DEEPEST_VALUE),
            None => Err(CallFault::Foreign),
        }
    }

    /// Notes what isn't followed among the sites that are made: that a type has no model, or that a call's term has no spec. Where the specs
    /// of internal extractors say something of a call, these count.
    pub(crate) fn check_sites(&mut self, made: &[bool]) -> Result<(), CallFault> {
        let mut within = Vec::new(self.alloc);
        for site in 0..made.len() {
            if is_marked(made, site) {
                self.check_site(site, &mut within)?;
            }
        }
        Ok(())
    }

    fn check_site(&mut self, site: usize, within: &mut Vec<usize>) -> Result<(), CallFault> {
        let binding = match self.bindings.get(site) {
            Some(binding) => binding.clone()?,
            None => return Ok(()),
        };
        match &binding {
            Binding::Extractor { term, .. } => self.check_extractor(*term, site, within),
            Binding::Constructor { term, .. } => self.check_constructor(*term),
            Binding::ConstInt { ty, .. } => self.check_integer(*ty),
            Binding::ConstPrim { val } => self.check_constant(*val),
            Binding::MakeVariant { ty, .. } | Binding::MakeStruct { ty, .. } => {
                self.check_made(*ty)
            }
            Binding::ConstBool { .. }
            | Binding::Argument { .. }
            | Binding::Iterator { .. }
            | Binding::MatchVariant { .. }
            | Binding::ExtractStruct { .. }
            | Binding::MakeSome { .. }
            | Binding::MatchSome { .. }
            | Binding::MatchTuple { .. } => Ok(()),
        }
    }

    // An extractor is followed by its spec, or by those of internal extractors.
    fn check_extractor(
        &mut self,
        id: TermId,
        site: usize,
        within: &mut Vec<usize>,
    ) -> Result<(), CallFault> {
        let lowered = self.lowered;
        match lowered.termenv.terms.get(id.index()) {
            Some(term) => self.check_types(&term.arg_tys, DEEPEST_VALUE)?,
            None => return Err(CallFault::Foreign),
        }
        if self.is_said(id) || self.count_templates(site, within)? {
            return Ok(());
        }
        self.note_no_spec(id)
    }

    fn check_constructor(&mut self, id: TermId) -> Result<(), CallFault> {
        let lowered = self.lowered;
        match lowered.termenv.terms.get(id.index()) {
            Some(term) => self.check_type(term.ret_ty, DEEPEST_VALUE)?,
            None => return Err(CallFault::Foreign),
        }
        if self.is_said(id) || self.is_function(id) {
            return Ok(());
        }
        self.note_no_spec(id)
    }

    // An integer stands for one, or for a word, by the model of its type.
    fn check_integer(&mut self, ty: TypeId) -> Result<(), CallFault> {
        match self.specs.model(ty) {
            ValueModel::Integer | ValueModel::Word(_) => Ok(()),
            ValueModel::Truth
            | ValueModel::AnyWord
            | ValueModel::Unit
            | ValueModel::Own
            | ValueModel::Unknown => self.check_type(ty, DEEPEST_VALUE),
        }
    }

    // A constant stands for what a spec says, or for anything of its type.
    fn check_constant(&mut self, name: Sym) -> Result<(), CallFault> {
        if self.specs.constant(name).is_some() {
            return Ok(());
        }
        let lowered = self.lowered;
        match lowered.tyenv.const_types.get(&name) {
            Some(ty) => self.check_type(*ty, DEEPEST_VALUE),
            None => self.note_text("a constant has no type"),
        }
    }

    fn check_made(&mut self, ty: TypeId) -> Result<(), CallFault> {
        if self.specs.model(ty) == ValueModel::Own {
            return Ok(());
        }
        self.note_text("a value is made of fields whose type has a model")
    }

    /// Notes what isn't followed of the values that are tested.
    pub(crate) fn check_tests(&mut self) -> Result<(), CallFault> {
        let tests: Vec<Tested> = Vec::from_slice(self.alloc, &self.constraints)?;
        for test in &tests {
            self.check_test(test.constraint)?;
        }
        Ok(())
    }

    fn check_test(&mut self, constraint: Constraint) -> Result<(), CallFault> {
        match constraint {
            Constraint::Variant { ty, variant, .. } => {
                self.check_taken(ty)?;
                self.check_variant(ty, variant)
            }
            Constraint::Struct { ty, .. } => self.check_taken(ty),
            Constraint::ConstBool { .. }
            | Constraint::ConstInt { .. }
            | Constraint::ConstPrim { .. }
            | Constraint::Some => Ok(()),
        }
    }

    fn check_taken(&mut self, ty: TypeId) -> Result<(), CallFault> {
        if self.specs.model(ty) == ValueModel::Own {
            return Ok(());
        }
        self.note_text("a value is taken apart whose type has a model")
    }

    // Notes that the type of a field of a variant has no model.
    fn check_variant(&mut self, ty: TypeId, variant: VariantId) -> Result<(), CallFault> {
        let lowered = self.lowered;
        match lowered.tyenv.types.get(ty.index()) {
            Some(Type::Enum { variants, .. }) => match variants.get(variant.index()) {
                Some(known) => self.check_fields(&known.fields, DEEPEST_VALUE),
                None => Ok(()),
            },
            _ => Ok(()),
        }
    }

    // Notes that a type has no model, or one of a struct's fields. An enum's are looked at where a value is known to be of a variant.
    #[cycle(typing)]
    fn check_type(&mut self, ty: TypeId, fuel: usize) -> Result<(), CallFault> {
        match self.specs.model(ty) {
            ValueModel::Own => self.check_own(ty, fuel),
            ValueModel::Unknown => self.note_modelless(ty),
            ValueModel::Truth
            | ValueModel::Integer
            | ValueModel::Word(_)
            | ValueModel::AnyWord
            | ValueModel::Unit => Ok(()),
        }
    }

    #[cycle(typing)]
    fn check_own(&mut self, ty: TypeId, fuel: usize) -> Result<(), CallFault> {
        let lowered = self.lowered;
        match lowered.tyenv.types.get(ty.index()) {
            Some(Type::Enum { .. }) => Ok(()),
            Some(Type::Struct { fields, .. }) => self.check_fields(fields, fuel),
            _ => self.note_modelless(ty),
        }
    }

    #[cycle(typing)]
    fn check_fields(&mut self, fields: &Fields, fuel: usize) -> Result<(), CallFault> {
        if fuel == 0 {
            return self.note_text("types nest too deep");
        }
        let types = fields.types(self.alloc)?;
        self.check_types(&types, fuel - 1)
    }

    #[cycle(typing)]
    fn check_types(&mut self, types: &[TypeId], fuel: usize) -> Result<(), CallFault> {
        for ty in types {
            self.check_type(*ty, fuel)?;
        }
        Ok(())
    }

    fn note_modelless(&mut self, ty: TypeId) -> Result<(), CallFault> {
        let reason = without_model(self.alloc, &self.lowered.tyenv, ty);
        Ok(self.note(reason)?)
    }

    fn note_no_spec(&mut self, term: TermId) -> Result<(), CallFault> {
        let alloc = self.alloc;
        let name = self.name_of(term);
        let reason = format!(in alloc; "the term `{name}` has no spec");
        Ok(self.note(reason)?)
    }

    fn note_text(&mut self, text: &str) -> Result<(), CallFault> {
        let reason: Result<String, AllocError> = String::from_str(self.alloc, text);
        Ok(self.note(reason)?)
    }
}
