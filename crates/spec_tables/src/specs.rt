//! Specs, looked up: which term, type or constant each of them is of.

use crate::faults::{SpecError, SpecFault};
use crate::models::{ValueModel, fits_model, model_at, own_model, own_models, said_model};
use core_syntax::syntax::{Ident, Pos};
use cranelift_isle::lower::Lowered;
use cranelift_isle::sema::{Fields, Sym, TermId, TermKind, Type, TypeId, Variant};
use std::alloc::{AllocError, Global};
use text_reader::syntax::{
    Attr, AttrKind, Form, Instantiation, Macro, Model as SaidModel, ModelType, ModelValue,
    Signature, Spec, SpecExpr, VariantValue, VerificationForm,
};

/// What is said of one term.
#[derive(Clone, Copy)]
pub struct TermSpec<'a> {
    /// What a call requires and provides, if that is said.
    pub spec: Option<&'a Spec>,
    /// The sorts at which rules are asked; of any where there are none.
    pub signatures: &'a [Signature],
    // Where the signatures were said.
    instantiated: Option<Pos>,
}

/// What a constant stands for.
#[derive(Clone, Copy)]
pub struct ConstantModel<'a> {
    /// Its name.
    pub name: Sym,
    /// Its value.
    pub value: &'a SpecExpr,
}

/// All that is said for a verifier, by the terms, types and constants that it is said of.
pub struct Specs<'a> {
    /// What is said of each term, by the terms' ids.
    pub terms: Vec<TermSpec<'a>>,
    /// The models of types, by the types' ids.
    pub models: Vec<ValueModel>,
    /// The constants with models.
    pub constants: Vec<ConstantModel<'a>>,
    /// Expressions with names.
    pub macros: Vec<&'a Macro>,
    // What variants of enums stand for, by the types' ids.
    variants: Vec<&'a [VariantValue]>,
    // Where models of types were said, by the types' ids.
    modelled: Vec<Option<Pos>>,
    forms: Vec<&'a Form>,
    /// The widths that words of any width are asked at: 8, 16, 32 and 64, and those that signatures name.
    pub widths: Vec<usize>,
}

// Written out, and so proved here once.
impl<'a> Drop for Specs<'a> {
    fn drop(self) {
        let Specs {
            terms: _,
            models: _,
            constants: _,
            macros: _,
            variants: _,
            modelled: _,
            forms: _,
            widths: _,
        } = self;
    }
}

impl<'a> Specs<'a> {
    /// Looks up what these forms are of.
    ///
    /// # Errors
    ///
    /// All that is wrong with names, each at its place; or that memory was refused.
    pub fn of(
        alloc: Global,
        lowered: &Lowered,
        forms: &'a [VerificationForm],
    ) -> Result<(Specs<'a>, Vec<SpecError>), AllocError> {
        let mut specs = Specs::none(alloc, lowered)?;
        let mut errors = Vec::new(alloc);
        let reader = Reader { alloc, lowered };
        reader.add_forms(&mut specs, forms, &mut errors)?;
        let mut widths = Vec::from_slice(alloc, &LISTED)?;
        for said in &specs.terms {
            add_widths(said.signatures, &mut widths)?;
        }
        specs.widths = widths;
        Ok((specs, errors))
    }

    // Nothing is said.
    fn none(alloc: Global, lowered: &Lowered) -> Result<Specs<'a>, AllocError> {
        let types = lowered.tyenv.types.as_slice();
        Ok(Specs {
            terms: no_specs(alloc, lowered.termenv.terms.len())?,
            models: own_models(alloc, types)?,
            constants: Vec::new(alloc),
            macros: Vec::new(alloc),
            variants: no_values(alloc, types.len())?,
            modelled: no_places(alloc, types.len())?,
            forms: Vec::new(alloc),
            widths: Vec::new(alloc),
        })
    }

    /// The model of a type.
    pub fn model(&self, ty: TypeId) -> ValueModel {
        model_at(&self.models, ty)
    }

    /// What the variants of an enum are said to stand for.
    pub fn variant_values(&self, ty: TypeId) -> &'a [VariantValue] {
        match self.variants.get(ty.index()) {
            Some(values) => values,
            None => &[],
        }
    }

    /// What is said of a term.
    pub fn spec(&self, term: TermId) -> Option<&'a Spec> {
        self.terms.get(term.index())?.spec
    }

    /// The sorts at which rules with a term are asked.
    pub fn signatures(&self, term: TermId) -> &'a [Signature] {
        match self.terms.get(term.index()) {
            Some(said) => said.signatures,
            None => &[],
        }
    }

    /// What a constant stands for.
    pub fn constant(&self, name: Sym) -> Option<&'a SpecExpr> {
        for constant in &self.constants {
            if constant.name == name {
                return Some(constant.value);
            }
        }
        None
    }

    /// The macro of a name, which may have `!` behind it where it is used.
    pub fn macro_of(&self, name: &str) -> Option<&'a Macro> {
        let plain = name.strip_suffix("!").unwrap_or(name);
        macro_called(&self.macros, plain)
    }
}

// The widths that words of any width are asked at, where signatures name no others.
const LISTED: [usize; 4] = [8, 16, 32, 64];

// Adds the widths that signatures name.
fn add_widths(signatures: &[Signature], widths: &mut Vec<usize>) -> Result<(), AllocError> {
    for signature in signatures {
        for ty in &signature.args {
            add_width(ty, widths)?;
        }
        add_width(&signature.ret, widths)?;
    }
    Ok(())
}

// Adds the width that a model names, if it names one that isn't there yet.
fn add_width(ty: &ModelType, widths: &mut Vec<usize>) -> Result<(), AllocError> {
    match ty {
        ModelType::BitVec(Some(width), _) if !widths.iter().any(|known| *known == *width) => {
            widths.push(*width)?;
            Ok(())
        }
        _ => Ok(()),
    }
}

// Nothing is said of so many terms.
fn no_specs<'a>(alloc: Global, count: usize) -> Result<Vec<TermSpec<'a>>, AllocError> {
    let mut terms = Vec::new(alloc);
    for _ in 0..count {
        terms.push(TermSpec {
            spec: None,
            signatures: &[],
            instantiated: None,
        })?;
    }
    Ok(terms)
}

// Nothing is said of the variants of so many types.
fn no_values<'a>(alloc: Global, count: usize) -> Result<Vec<&'a [VariantValue]>, AllocError> {
    let mut variants: Vec<&'a [VariantValue]> = Vec::new(alloc);
    for _ in 0..count {
        variants.push(&[])?;
    }
    Ok(variants)
}

// So many places that there aren't.
fn no_places(alloc: Global, count: usize) -> Result<Vec<Option<Pos>>, AllocError> {
    let mut places = Vec::new(alloc);
    for _ in 0..count {
        places.push(None)?;
    }
    Ok(places)
}

// Reads forms. What is wrong with them is noted.
#[derive(Clone, Copy)]
struct Reader<'r> {
    alloc: Global,
    lowered: &'r Lowered,
}

impl<'r> Reader<'r> {
    // Adds forms: first those that others name.
    fn add_forms<'a>(
        &self,
        specs: &mut Specs<'a>,
        forms: &'a [VerificationForm],
        errors: &mut Vec<SpecError>,
    ) -> Result<(), AllocError> {
        for form in forms {
            self.add_first(specs, form, errors)?;
        }
        for form in forms {
            self.add_second(specs, form, errors)?;
        }
        Ok(())
    }

    // Adds what other forms name: macros, forms of signatures, and models.
    fn add_first<'a>(
        &self,
        specs: &mut Specs<'a>,
        form: &'a VerificationForm,
        errors: &mut Vec<SpecError>,
    ) -> Result<(), AllocError> {
        match form {
            VerificationForm::Macro(said) => self.add_macro(specs, said, errors),
            VerificationForm::Form(said) => self.add_form(specs, said, errors),
            VerificationForm::Model(said) => self.add_model(specs, said, errors),
            _ => Ok(()),
        }
    }

    // Adds specs and signatures of terms.
    fn add_second<'a>(
        &self,
        specs: &mut Specs<'a>,
        form: &'a VerificationForm,
        errors: &mut Vec<SpecError>,
    ) -> Result<(), AllocError> {
        match form {
            VerificationForm::Spec(said) => self.add_spec(specs, said, errors),
            VerificationForm::Instantiation(said) => self.add_signatures(specs, said, errors),
            VerificationForm::State(said) => {
                self.report(
                    "spec-unsupported",
                    said.pos,
                    "states aren't supported",
                    errors,
                )
            }
            VerificationForm::Attr(said) if changes_questions(said) => self.report(
                "spec-unsupported",
                said.pos,
                "`veri` isn't supported",
                errors,
            ),
            _ => Ok(()),
        }
    }

    // Notes what is wrong at a place.
    fn report(
        &self,
        code: &'static str,
        pos: Pos,
        why: &str,
        errors: &mut Vec<SpecError>,
    ) -> Result<(), AllocError> {
        let message = String::from_str(self.alloc, why)?;
        note(errors, code, pos, message, None)
    }

    // Notes that there is nothing of a name.
    fn report_unknown(
        &self,
        what: &str,
        name: &Ident,
        errors: &mut Vec<SpecError>,
    ) -> Result<(), AllocError> {
        let alloc = self.alloc;
        let message = format!(in alloc; "no {what} is called `{}`", name.0)?;
        note(errors, "spec", name.1, message, None)
    }

    // Notes that something is said for the second time.
    fn report_second(
        &self,
        what: &str,
        name: &Ident,
        first: Option<Pos>,
        errors: &mut Vec<SpecError>,
    ) -> Result<(), AllocError> {
        let alloc = self.alloc;
        let message = format!(in alloc; "`{}` has two {what}", name.0)?;
        note(errors, "spec", name.1, message, first)
    }

    fn add_macro<'a>(
        &self,
        specs: &mut Specs<'a>,
        said: &'a Macro,
        errors: &mut Vec<SpecError>,
    ) -> Result<(), AllocError> {
        match macro_called(&specs.macros, said.name.0.as_str()) {
            Some(known) => self.report_second("macros", &said.name, Some(known.name.1), errors),
            None => {
                specs.macros.push(said)?;
                Ok(())
            }
        }
    }

    fn add_form<'a>(
        &self,
        specs: &mut Specs<'a>,
        said: &'a Form,
        errors: &mut Vec<SpecError>,
    ) -> Result<(), AllocError> {
        match form_of(&specs.forms, &said.name) {
            Some(known) => self.report_second("forms", &said.name, Some(known.name.1), errors),
            None => {
                specs.forms.push(said)?;
                Ok(())
            }
        }
    }

    // Adds a model of a type or a constant.
    fn add_model<'a>(
        &self,
        specs: &mut Specs<'a>,
        said: &'a SaidModel,
        errors: &mut Vec<SpecError>,
    ) -> Result<(), AllocError> {
        match &said.value {
            ModelValue::Const(value) => self.add_constant(specs, &said.name, value, errors),
            ModelValue::Type(_) | ModelValue::Enum(_) => self.add_type_model(specs, said, errors),
        }
    }

    fn add_constant<'a>(
        &self,
        specs: &mut Specs<'a>,
        ident: &Ident,
        value: &'a SpecExpr,
        errors: &mut Vec<SpecError>,
    ) -> Result<(), AllocError> {
        let Some(name) = self.constant_called(ident) else {
            return self.report_unknown("constant", ident, errors);
        };
        if specs.constant(name).is_some() {
            return self.report_second("models", ident, None, errors);
        }
        specs.constants.push(ConstantModel { name, value })?;
        Ok(())
    }

    fn constant_called(&self, ident: &Ident) -> Option<Sym> {
        let sym = self.lowered.tyenv.intern(ident)?;
        if self.lowered.tyenv.const_types.contains_key(&sym) {
            Some(sym)
        } else {
            None
        }
    }

    fn add_type_model<'a>(
        &self,
        specs: &mut Specs<'a>,
        said: &'a SaidModel,
        errors: &mut Vec<SpecError>,
    ) -> Result<(), AllocError> {
        let Some(ty) = self.lowered.tyenv.get_type_by_name(&said.name) else {
            return self.report_unknown("type", &said.name, errors);
        };
        let first = specs.modelled_at(ty);
        if first.is_some() {
            return self.report_second("models", &said.name, first, errors);
        }
        specs.note_modelled(ty, said.name.1);
        let name = &said.name;
        match &said.value {
            ModelValue::Type(said) => {
                let model = said_model(self.alloc, &self.lowered.tyenv, &specs.models, said);
                note_model(specs, ty, model, errors)?;
                if self.is_other_builtin(ty, specs.model(ty)) {
                    let why =
                        "a built-in type has a model of its own: two of its values would stand for one";
                    return self.report("spec-model", name.1, why, errors);
                }
                Ok(())
            }
            ModelValue::Enum(values) => {
                specs.note_variants(ty, values);
                self.check_enum(ty, name, values, errors)
            }
            ModelValue::Const(_) => Ok(()),
        }
    }

    fn term_called(&self, name: &Ident) -> Option<TermId> {
        let sym = self.lowered.tyenv.intern(name)?;
        self.lowered.termenv.term_map.get(&sym).copied()
    }

    // How many arguments a term has.
    fn count_of(&self, term: TermId) -> usize {
        match self.lowered.termenv.terms.get(term.index()) {
            Some(term) => term.arg_tys.len(),
            None => 0,
        }
    }

    // Where a term is declared.
    fn place_of(&self, term: TermId) -> Option<Pos> {
        match self.lowered.termenv.terms.get(term.index()) {
            Some(term) => Some(term.decl_pos),
            None => None,
        }
    }

    fn add_spec<'a>(
        &self,
        specs: &mut Specs<'a>,
        said: &'a Spec,
        errors: &mut Vec<SpecError>,
    ) -> Result<(), AllocError> {
        let Some(term) = self.term_called(&said.term) else {
            return self.report_unknown("term", &said.term, errors);
        };
        if self.count_of(term) != said.args.len() {
            return self.report_arguments(&said.term, term, said.args.len(), errors);
        }
        self.check_spec(term, said, errors)?;
        match specs.spec(term) {
            Some(first) => { self.report_second("specs", &said.term, Some(first.term.1), errors) }
            None => {
                specs.note_spec(term, said);
                Ok(())
            }
        }
    }

    // Notes what is wrong with a spec, whatever its expressions say.
    fn check_spec(
        &self,
        term: TermId,
        said: &Spec,
        errors: &mut Vec<SpecError>,
    ) -> Result<(), AllocError> {
        let place = said.term.1;
        if self.is_own(term) {
            let why = "a variant or a struct stands for itself: a spec of it would be passed over";
            self.report("spec-own", place, why, errors)?;
        }
        if said.provides.is_none() && said.matches.is_none() {
            let why =
                "a spec without `provide` makes each rule right: write `(provide true)` if it is meant";
            self.report("spec-provide", place, why, errors)?;
        }
        if !said.modifies.is_empty() {
            self.report(
                "spec-unsupported",
                said.pos,
                "`modifies` isn't supported",
                errors,
            )?;
        }
        for (count, name) in said.args.iter().enumerate() {
            let earlier = said.args.get(..count).unwrap_or(&[]);
            if let Some(why) = fault_of_argument(earlier, name) {
                self.report("spec-argument", name.1, why, errors)?;
            }
        }
        Ok(())
    }

    // Whether a term makes a variant or a struct.
    fn is_own(&self, term: TermId) -> bool {
        match self.lowered.termenv.terms.get(term.index()) {
            Some(term) => matches!(&term.kind, TermKind::EnumVariant { .. } | TermKind::Struct),
            None => false,
        }
    }

    // Notes what is wrong with a model of an enum: each variant has to have a number of its own.
    fn check_enum(
        &self,
        ty: TypeId,
        name: &Ident,
        values: &[VariantValue],
        errors: &mut Vec<SpecError>,
    ) -> Result<(), AllocError> {
        let variants = match self.lowered.tyenv.types.get(ty.index()) {
            Some(Type::Enum { variants, .. }) => variants.as_slice(),
            _ => &[],
        };
        if variants.len() != values.len() {
            let why = "a model of an enum has to give each variant a number";
            self.report("spec-enum", name.1, why, errors)?;
        }
        for (count, value) in values.iter().enumerate() {
            let earlier = values.get(..count).unwrap_or(&[]);
            let why = if self.is_variant_among(variants, &value.name) {
                fault_of_value(earlier, value)
            } else {
                Some("the enum has no such variant without fields")
            };
            if let Some(why) = why {
                self.report("spec-enum", value.pos, why, errors)?;
            }
        }
        Ok(())
    }

    // Whether a variant without fields is so called, with the enum's name or without.
    fn is_variant_among(&self, variants: &[Variant], name: &Ident) -> bool {
        let tyenv = &self.lowered.tyenv;
        for variant in variants {
            if tyenv.text_of(variant.name) == name.0.as_str()
                || tyenv.text_of(variant.fullname) == name.0.as_str()
            {
                return match &variant.fields {
                    Fields::Unit => true,
                    Fields::Tuple(_) | Fields::Struct(_) => false,
                };
            }
        }
        false
    }

    // Whether a type is a built-in one, and its own model is another one than this.
    fn is_other_builtin(&self, ty: TypeId, model: ValueModel) -> bool {
        match self.lowered.tyenv.types.get(ty.index()) {
            Some(known) => matches!(known, Type::Builtin(_)) && own_model(known) != model,
            None => false,
        }
    }

    // Notes the signatures that can't be of a term: of widths that no word has, or of sorts that its types haven't.
    fn check_signatures(
        &self,
        specs: &Specs<'_>,
        term: TermId,
        signatures: &[Signature],
        errors: &mut Vec<SpecError>,
    ) -> Result<(), AllocError> {
        let Some(term) = self.lowered.termenv.terms.get(term.index()) else {
            return Ok(());
        };
        for signature in signatures {
            let fits = signature
                .args
                .iter()
                .zip(&term.arg_tys)
                .all(|(said, ty)| fits_model(said, specs.model(*ty)));
            if !fits || !fits_model(&signature.ret, specs.model(term.ret_ty)) {
                let why = "this signature isn't one that the term's types have";
                self.report("spec-signature", signature.pos, why, errors)?;
            }
        }
        Ok(())
    }

    // Notes that there are more or fewer arguments than a term has.
    fn report_arguments(
        &self,
        name: &Ident,
        term: TermId,
        count: usize,
        errors: &mut Vec<SpecError>,
    ) -> Result<(), AllocError> {
        let alloc = self.alloc;
        let wanted = self.count_of(term);
        let declared = self.place_of(term);
        let message = format!(in alloc;
            "`{}` has {wanted} arguments, and here are {count}",
            name.0
        )?;
        note(errors, "spec", name.1, message, declared)
    }

    // Adds the signatures of a term: its own, or those of a form.
    fn add_signatures<'a>(
        &self,
        specs: &mut Specs<'a>,
        said: &'a Instantiation,
        errors: &mut Vec<SpecError>,
    ) -> Result<(), AllocError> {
        let Some(term) = self.term_called(&said.term) else {
            return self.report_unknown("term", &said.term, errors);
        };
        match &said.form {
            None => self.add_signatures_of(specs, term, said, &said.signatures, errors),
            Some(name) => match form_of(&specs.forms, name) {
                Some(form) => self.add_signatures_of(specs, term, said, &form.signatures, errors),
                None => self.report_unknown("form", name, errors),
            },
        }
    }

    fn add_signatures_of<'a>(
        &self,
        specs: &mut Specs<'a>,
        term: TermId,
        said: &'a Instantiation,
        signatures: &'a [Signature],
        errors: &mut Vec<SpecError>,
    ) -> Result<(), AllocError> {
        if let Some(count) = other_count(signatures, self.count_of(term)) {
            return self.report_arguments(&said.term, term, count, errors);
        }
        let first = specs.instantiated_at(term);
        if first.is_some() {
            return self.report_second("instantiations", &said.term, first, errors);
        }
        self.check_signatures(specs, term, signatures, errors)?;
        specs.note_signatures(term, said.term.1, signatures);
        Ok(())
    }
}

impl<'a> Specs<'a> {
    fn modelled_at(&self, ty: TypeId) -> Option<Pos> {
        *self.modelled.get(ty.index())?
    }

    fn note_modelled(&mut self, ty: TypeId, pos: Pos) {
        if let Some(entry) = self.modelled.get_mut(ty.index()) {
            *entry = Some(pos);
        }
    }

    fn note_variants(&mut self, ty: TypeId, values: &'a [VariantValue]) {
        if let Some(entry) = self.variants.get_mut(ty.index()) {
            *entry = values;
        }
    }

    fn note_spec(&mut self, term: TermId, said: &'a Spec) {
        if let Some(entry) = self.terms.get_mut(term.index()) {
            entry.spec = Some(said);
        }
    }

    // Where the signatures of a term were said.
    fn instantiated_at(&self, term: TermId) -> Option<Pos> {
        self.terms.get(term.index())?.instantiated
    }

    fn note_signatures(&mut self, term: TermId, pos: Pos, signatures: &'a [Signature]) {
        if let Some(entry) = self.terms.get_mut(term.index()) {
            entry.instantiated = Some(pos);
            entry.signatures = signatures;
        }
    }
}

// What is wrong with the name of an argument behind others, if something is.
fn fault_of_argument(earlier: &[Ident], name: &Ident) -> Option<&'static str> {
    if name.0.as_str() == "result" {
        return Some("an argument called `result` hides the result");
    }
    if name.0.as_str() != "_"
        && earlier
            .iter()
            .any(|known| known.0.as_str() == name.0.as_str())
    {
        return Some("two arguments have one name, so only the second is seen");
    }
    None
}

// What is wrong with the number of a variant behind others, if something is.
fn fault_of_value(earlier: &[VariantValue], value: &VariantValue) -> Option<&'static str> {
    if earlier
        .iter()
        .any(|known| known.name.0.as_str() == value.name.0.as_str())
    {
        return Some("the variant has two numbers");
    }
    let Some(number) = number_of(value) else {
        return Some("the variant has no number");
    };
    for known in earlier {
        match number_of(known) {
            Some(other) if other.0 != number.0 => return Some("the numbers are of two sorts"),
            Some(other) if other.1 == number.1 => return Some("two variants have one number"),
            _ => {}
        }
    }
    None
}

// The number of a variant: how wide it is, where it is a word, and the number itself.
fn number_of(value: &VariantValue) -> Option<(Option<usize>, i128)> {
    match &value.value {
        Some(SpecExpr::ConstInt { val, .. }) => Some((None, *val)),
        Some(SpecExpr::ConstBitVec { val, width, .. }) => Some((Some(*width), val.cast_signed())),
        _ => None,
    }
}

// Whether an attribute says something of questions.
fn changes_questions(said: &Attr) -> bool {
    for kind in &said.kinds {
        match kind {
            AttrKind::Chain(_) | AttrKind::Priority(_) => return true,
            AttrKind::Tag(..) => {}
        }
    }
    false
}

// Notes what is wrong at a place, and another place that has to do with it.
fn note(
    errors: &mut Vec<SpecError>,
    code: &'static str,
    pos: Pos,
    message: String,
    other: Option<Pos>,
) -> Result<(), AllocError> {
    errors.push(SpecError {
        code,
        pos,
        message,
        other,
    })?;
    Ok(())
}

fn note_model(
    specs: &mut Specs<'_>,
    ty: TypeId,
    model: Result<ValueModel, SpecFault>,
    errors: &mut Vec<SpecError>,
) -> Result<(), AllocError> {
    match model {
        Ok(model) => {
            if let Some(entry) = specs.models.get_mut(ty.index()) {
                *entry = model;
            }
            Ok(())
        }
        Err(SpecFault::Wrong(error)) => {
            errors.push(error)?;
            Ok(())
        }
        Err(SpecFault::Memory(refused)) => Err(refused),
    }
}

// The number of arguments of the first signature that hasn't so many.
fn other_count(signatures: &[Signature], count: usize) -> Option<usize> {
    for signature in signatures {
        if signature.args.len() != count {
            return Some(signature.args.len());
        }
    }
    None
}

// The macro of exactly this name.
fn macro_called<'a>(macros: &[&'a Macro], name: &str) -> Option<&'a Macro> {
    for known in macros {
        if known.name.0.as_str() == name {
            return Some(*known);
        }
    }
    None
}

fn form_of<'a>(forms: &[&'a Form], name: &Ident) -> Option<&'a Form> {
    for form in forms {
        if form.name.0.as_str() == name.0.as_str() {
            return Some(*form);
        }
    }
    None
}
