//! The names that stand in what is said for a verifier, each with what it stands for.

use cranelift_isle::syntax::Ident;
use report_names::mentions::{Mention, MentionKind, plain_mention};
use std::alloc::{AllocError, Global};
use text_reader::syntax::{
    Model, ModelType, ModelValue, Signature, Spec, SpecExpr, VerificationForm,
};

// The names of a form, as far as they are listed.
struct SpecMentions<'a> {
    found: Vec<Mention<'a>>,
}

impl<'a> Drop for SpecMentions<'a> {
    fn drop(self) {
        let SpecMentions { found: _ } = self;
    }
}

/// The names in what is said for a verifier.
pub fn mentions_in_spec(
    alloc: Global,
    form: &VerificationForm,
) -> Result<Vec<Mention<'_>>, AllocError> {
    let mut mentions = SpecMentions {
        found: Vec::new(alloc),
    };
    mentions.add_verification(form)?;
    Ok(mentions.into_found())
}

impl<'a> SpecMentions<'a> {
    fn into_found(self) -> Vec<Mention<'a>> {
        let SpecMentions { found } = self;
        found
    }

    fn add(&mut self, name: &'a Ident, kind: MentionKind) -> Result<(), AllocError> {
        self.found.push(plain_mention(name, kind))?;
        Ok(())
    }

    // Adds a variant of a type.
    fn add_variant(&mut self, name: &'a Ident, ty: &'a Ident) -> Result<(), AllocError> {
        let mut mention = plain_mention(name, MentionKind::Variant);
        mention.home = ty;
        self.found.push(mention)?;
        Ok(())
    }

    fn add_verification(&mut self, form: &'a VerificationForm) -> Result<(), AllocError> {
        match form {
            VerificationForm::Spec(spec) => self.add_spec(spec),
            VerificationForm::Model(model) => self.add_model(model),
            VerificationForm::Form(form) => self.add_signatures(&form.signatures),
            VerificationForm::Instantiation(one) => {
                self.add(&one.term, MentionKind::Term)?;
                self.add_signatures(&one.signatures)
            }
            VerificationForm::Attr(attr) if attr.is_rule => {
                self.add(&attr.name, MentionKind::Rule)
            }
            VerificationForm::Attr(attr) => self.add(&attr.name, MentionKind::Term),
            VerificationForm::State(state) => {
                self.add_model_type(&state.ty)?;
                self.add_spec_expr(&state.default)
            }
            VerificationForm::Macro(one) => self.add_spec_expr(&one.body),
            VerificationForm::Pragma(_) => Ok(()),
        }
    }

    fn add_spec(&mut self, spec: &'a Spec) -> Result<(), AllocError> {
        self.add(&spec.term, MentionKind::Term)?;
        for part in [&spec.provides, &spec.required, &spec.matches] {
            if let Some(exprs) = part {
                self.add_spec_exprs(exprs)?;
            }
        }
        Ok(())
    }

    fn add_model(&mut self, model: &'a Model) -> Result<(), AllocError> {
        match &model.value {
            ModelValue::Type(ty) => {
                self.add(&model.name, MentionKind::Type)?;
                self.add_model_type(ty)
            }
            ModelValue::Enum(values) => {
                self.add(&model.name, MentionKind::Type)?;
                for value in values {
                    self.add_variant(&value.name, &model.name)?;
                }
                Ok(())
            }
            ModelValue::Const(expr) => {
                self.add(&model.name, MentionKind::Constant)?;
                self.add_spec_expr(expr)
            }
        }
    }

    fn add_model_type(&mut self, ty: &'a ModelType) -> Result<(), AllocError> {
        match ty {
            ModelType::Named(name, _) => self.add(name, MentionKind::Type),
            ModelType::Int(_) | ModelType::Bool(_) | ModelType::Unit(_) | ModelType::BitVec(..) =>
                Ok(()),
        }
    }

    fn add_signatures(&mut self, signatures: &'a [Signature]) -> Result<(), AllocError> {
        for signature in signatures {
            for ty in &signature.args {
                self.add_model_type(ty)?;
            }
            self.add_model_type(&signature.ret)?;
            self.add_model_type(&signature.canonical)?;
        }
        Ok(())
    }

    #[cycle(specs)]
    fn add_spec_exprs(&mut self, exprs: &'a [SpecExpr]) -> Result<(), AllocError> {
        for expr in exprs {
            self.add_spec_expr(expr)?;
        }
        Ok(())
    }

    #[cycle(specs)]
    fn add_spec_expr(&mut self, expr: &'a SpecExpr) -> Result<(), AllocError> {
        match expr {
            SpecExpr::Op { op, args, .. } => {
                let kind = if op.0.starts_with(':') {
                    MentionKind::Access
                } else {
                    MentionKind::Made
                };
                self.add(op, kind)?;
                self.add_spec_exprs(args)
            }
            SpecExpr::Cases { value, cases, .. } => {
                self.add_spec_expr(value)?;
                self.add_cases(cases)
            }
            SpecExpr::Let { defs, body, .. } => {
                self.add_spec_exprs(defs)?;
                self.add_spec_expr(body)
            }
            SpecExpr::With { body, .. } => self.add_spec_expr(body),
            SpecExpr::As { value, ty, .. } => {
                self.add_model_type(ty)?;
                self.add_spec_expr(value)
            }
            SpecExpr::Pair { left, right, .. } => {
                self.add_spec_expr(left)?;
                self.add_spec_expr(right)
            }
            SpecExpr::ConstInt { .. }
            | SpecExpr::ConstBitVec { .. }
            | SpecExpr::ConstBool { .. }
            | SpecExpr::ConstUnit { .. }
            | SpecExpr::Var { .. } => Ok(()),
        }
    }

    // Adds the names of the cases of a match or a switch. What begins the left side of a match is a variant.
    #[cycle(specs)]
    fn add_cases(&mut self, cases: &'a [SpecExpr]) -> Result<(), AllocError> {
        for case in cases {
            match case {
                SpecExpr::Pair { left, right, .. } => {
                    self.add_side(left)?;
                    self.add_spec_expr(right)?;
                }
                other => self.add_spec_expr(other)?,
            }
        }
        Ok(())
    }

    // Adds the name of the left side of a case.
    fn add_side(&mut self, side: &'a SpecExpr) -> Result<(), AllocError> {
        match side {
            SpecExpr::Op { op, .. } => self.add(op, MentionKind::Arm),
            _ => Ok(()),
        }
    }
}
