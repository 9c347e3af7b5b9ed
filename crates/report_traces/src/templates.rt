//! Values that patterns take apart: what a form brings, and what the template of an internal extractor brings.

use crate::asked::{AskedCall, Side, asked_text};
use crate::echo::named_value;
use crate::known::{Answered, known_in};
use crate::outcomes::push_value;
use crate::values::{Unanswered, integer, term_of};
use cranelift_isle::lower::Lowered;
use cranelift_isle::sema::{ExtractorKind, Term, TermKind, TypeId};
use cranelift_isle::syntax::{Ident, Pattern, Pos};
use report_witness::forms::{ValueForm, push_form};
use run_terms::answers::answered_outputs;
use run_terms::values::{Content, Value, same_value, value_clones};
use std::alloc::{AllocError, Global};

// How many patterns are looked at in templates for one value. Rules within the limits on expansions have fewer.
const MOST_PATTERNS: usize = 1 << 20;

/// What is said of a multi call. Its answers aren't tried one by one.
pub const SEVERAL: &str = "gives several answers, and none meets all demands";

/// What values are looked at with.
#[derive(Clone, Copy)]
pub struct Sight<'a> {
    /// Where memory is asked of.
    pub alloc: Global,
    /// The terms and types.
    pub lowered: &'a Lowered,
    /// The answers that are known.
    pub answered: &'a Answered<'a>,
    /// Whether internal extractors are replaced by their templates.
    pub expand: bool,
}

/// What a form brings of a value.
#[derive(Drop)]
pub enum Fit<'a> {
    /// The value has the form, which is made of these.
    Parts(Vec<Value>),
    /// The value hasn't the form.
    Differs,
    /// The form is replaced by this template.
    Template(&'a Pattern),
    /// A call gives nothing.
    Nothing(String),
    /// A call gives several answers.
    Several(String),
    /// A call has no answer yet.
    Asks(AskedCall),
}

/// What a template brings of a value.
#[derive(Drop)]
pub enum Taken {
    /// It holds. The values of the extractor's arguments, by their places.
    Outputs(Vec<(usize, Value)>),
    /// It doesn't hold, for this reason.
    Refused(String),
    /// A call has no answer yet.
    Asks(AskedCall),
}

/// The term of a name.
pub fn term_named<'a>(
    alloc: Global,
    lowered: &'a Lowered,
    name: &str,
) -> Result<Option<&'a Term>, AllocError> {
    let ident = ident_of(alloc, name)?;
    Ok(term_of(lowered, &ident))
}

// A name, at no place.
fn ident_of(alloc: Global, name: &str) -> Result<Ident, AllocError> {
    let pos = Pos { file: 0, offset: 0 };
    Ok(Ident(String::from_str(alloc, name)?, pos))
}

/// The text of a value.
pub fn value_text(alloc: Global, lowered: &Lowered, value: &Value) -> Result<String, AllocError> {
    let mut text = String::new(alloc);
    push_value(&mut text, lowered, value)?;
    Ok(text)
}

impl<'a> Sight<'a> {
    /// What a form brings of a value.
    pub fn fit(self, form: ValueForm<'_>, value: &Value) -> Result<Fit<'a>, AllocError> {
        match form {
            ValueForm::Term(name) => match term_named(self.alloc, self.lowered, name)? {
                Some(term) => self.fit_term(term, value),
                None => Ok(Fit::Differs),
            },
            ValueForm::Bool(_) | ValueForm::Int(_) | ValueForm::Const(_) => {
                if self.is_constant(form, value)? {
                    Ok(Fit::Parts(Vec::new(self.alloc)))
                } else {
                    Ok(Fit::Differs)
                }
            }
        }
    }

    /// Whether a value is a constant.
    pub fn is_constant(self, form: ValueForm<'_>, value: &Value) -> Result<bool, AllocError> {
        let ty = match value {
            Value::Truth(_) => TypeId::BOOL,
            Value::Atom(ty, _) => *ty,
            Value::Variant(..) | Value::Struct(..) => return Ok(false),
        };
        match self.constant(form, ty)? {
            Some(constant) => Ok(same_value(&constant, value)),
            None => Ok(false),
        }
    }

    /// A constant as a value of a type.
    pub fn constant(self, form: ValueForm<'_>, ty: TypeId) -> Result<Option<Value>, AllocError> {
        match form {
            ValueForm::Bool(val) => Ok(Some(Value::Truth(val))),
            ValueForm::Int(val) => match integer(self.alloc, self.lowered, val, ty) {
                Ok(value) => Ok(Some(value)),
                Err(Unanswered::Call(_)) => Ok(None),
                Err(Unanswered::Memory) => Err(AllocError),
            },
            ValueForm::Const(name) => {
                let ident = ident_of(self.alloc, name)?;
                match self.lowered.tyenv.intern(&ident) {
                    Some(sym) => Ok(Some(named_value(&self.lowered.tyenv, sym))),
                    None => Ok(None),
                }
            }
            ValueForm::Term(_) => Ok(None),
        }
    }

    // What a term's pattern brings of a value.
    fn fit_term(self, term: &'a Term, value: &Value) -> Result<Fit<'a>, AllocError> {
        match &term.kind {
            TermKind::EnumVariant { variant } => match value {
                Value::Variant(ty, other, fields) if *ty == term.ret_ty && *other == *variant => {
                    Ok(Fit::Parts(value_clones(self.alloc, fields)?))
                }
                _ => Ok(Fit::Differs),
            },
            TermKind::Struct => match value {
                Value::Struct(ty, fields) if *ty == term.ret_ty => {
                    Ok(Fit::Parts(value_clones(self.alloc, fields)?))
                }
                _ => Ok(Fit::Differs),
            },
            TermKind::Decl { extractor_kind, .. } => match extractor_kind {
                Some(ExtractorKind::InternalExtractor { template }) if self.expand => {
                    Ok(Fit::Template(template))
                }
                _ => self.extracted(term, value),
            },
        }
    }

    // What an extractor that is called brings of a value.
    fn extracted(self, term: &Term, value: &Value) -> Result<Fit<'a>, AllocError> {
        let argument = value.clone()?;
        let args = vec![in self.alloc; argument]?;
        let asked = AskedCall {
            side: Side::Extractor,
            term: term.id,
            args,
            impure: false,
        };
        let Some(content) = known_in(self.answered.extracted, term.id, value) else {
            return Ok(Fit::Asks(asked));
        };
        match answered_outputs(self.alloc, content)? {
            Some(values) => Ok(Fit::Parts(values)),
            None => {
                let text = asked_text(self.alloc, self.lowered, &asked)?;
                Ok(if has_answers(content) {
                    Fit::Several(text)
                } else {
                    Fit::Nothing(text)
                })
            }
        }
    }

    /// What a template brings of a value.
    pub fn take(self, template: &'a Pattern, value: Value) -> Result<Taken, AllocError> {
        let mut taking = Taking {
            sight: self,
            tasks: Vec::new(self.alloc),
            scopes: Vec::new(self.alloc),
            bound: Vec::new(self.alloc),
            outputs: Vec::new(self.alloc),
        };
        taking.tasks.push(Task {
            pattern: template,
            value,
            scope: None,
        })?;
        for _ in 0..MOST_PATTERNS {
            let Some(task) = taking.tasks.pop() else {
                return Ok(Taken::Outputs(taking.into_outputs()));
            };
            match taking.one(task)? {
                Step::Holds => {}
                Step::Refused(why) => return Ok(Taken::Refused(why)),
                Step::Asks(asked) => return Ok(Taken::Asks(asked)),
            }
        }
        Ok(Taken::Refused(String::from_str(self.alloc, "its template is too large")?))
    }
}

/// Whether a content has answers of a multi call.
pub fn has_answers(content: &Content) -> bool {
    match content {
        Content::Many(contents) => !contents.is_empty(),
        Content::One(_) | Content::Parts(_) | Content::Nothing | Content::Just(_) => false,
    }
}

// A pattern of a template that is to hold of a value.
struct Task<'a> {
    pattern: &'a Pattern,
    value: Value,
    // The use that the template is of, None for the first one.
    scope: Option<usize>,
}

impl<'a> Drop for Task<'a> {
    fn drop(self) {
        let Self {
            pattern: _,
            value: _,
            scope: _,
        } = self;
    }
}

// A use of an internal extractor in a template: its patterns, and the use that these are in.
#[derive(Clone, Copy)]
struct Scope<'a> {
    uses: &'a [Pattern],
    outer: Option<usize>,
}

// What a pattern of a template comes to.
#[derive(Drop)]
enum Step {
    Holds,
    Refused(String),
    Asks(AskedCall),
}

// A template that is looked at.
struct Taking<'a> {
    sight: Sight<'a>,
    tasks: Vec<Task<'a>>,
    scopes: Vec<Scope<'a>>,
    // The variables of templates, by the uses that these are of.
    bound: Vec<(Option<usize>, &'a str, Value)>,
    outputs: Vec<(usize, Value)>,
}

impl<'a> Drop for Taking<'a> {
    fn drop(self) {
        let Self {
            sight: _,
            tasks: _,
            scopes: _,
            bound: _,
            outputs: _,
        } = self;
    }
}

impl<'a> Taking<'a> {
    fn into_outputs(self) -> Vec<(usize, Value)> {
        let Self {
            sight: _,
            tasks: _,
            scopes: _,
            bound: _,
            outputs,
        } = self;
        outputs
    }

    // Looks at one pattern. Its subpatterns wait then.
    fn one(&mut self, task: Task<'a>) -> Result<Step, AllocError> {
        match task.pattern {
            Pattern::Var { var, pos: _ } => self.bind(&var.0, &task),
            Pattern::BindPattern { var, subpat, .. } => {
                self.wait(subpat, &task.value, task.scope)?;
                self.bind(&var.0, &task)
            }
            Pattern::ConstBool { val, .. } => self.fit(ValueForm::Bool(*val), &[], &task),
            Pattern::ConstInt { val, .. } => self.fit(ValueForm::Int(*val), &[], &task),
            Pattern::ConstPrim { val, .. } => self.fit(ValueForm::Const(&val.0), &[], &task),
            Pattern::Term { sym, args, .. } => self.fit(ValueForm::Term(&sym.0), args, &task),
            Pattern::Wildcard { .. } => Ok(Step::Holds),
            Pattern::And { subpats, .. } => {
                for pattern in subpats.iter().rev() {
                    self.wait(pattern, &task.value, task.scope)?;
                }
                Ok(Step::Holds)
            }
            Pattern::MacroArg { index, .. } => self.give(*index, task),
        }
    }

    fn wait(
        &mut self,
        pattern: &'a Pattern,
        value: &Value,
        scope: Option<usize>,
    ) -> Result<(), AllocError> {
        let value = value.clone()?;
        self.tasks.push(Task {
            pattern,
            value,
            scope,
        })?;
        Ok(())
    }

    // An argument of a template has a value: the use's pattern waits for it.
    fn give(&mut self, index: usize, task: Task<'a>) -> Result<Step, AllocError> {
        let Some(scope) = task.scope else {
            self.outputs.push((index, task.value.clone()?))?;
            return Ok(Step::Holds);
        };
        if let Some(scope) = self.scopes.get(scope) {
            let outer = scope.outer;
            if let Some(pattern) = scope.uses.get(index) {
                self.wait(pattern, &task.value, outer)?;
            }
        }
        Ok(Step::Holds)
    }

    // Binds a variable of a template, or compares its value.
    fn bind(&mut self, name: &'a str, task: &Task<'a>) -> Result<Step, AllocError> {
        let alloc = self.sight.alloc;
        for (scope, other, value) in &self.bound {
            if *scope == task.scope && *other == name {
                return if same_value(value, &task.value) {
                    Ok(Step::Holds)
                } else {
                    Ok(Step::Refused(format!(in alloc; "its template has two values for {name}")?))
                };
            }
        }
        let value = task.value.clone()?;
        self.bound.push((task.scope, name, value))?;
        Ok(Step::Holds)
    }

    // A form, whose parts wait.
    fn fit(
        &mut self,
        form: ValueForm<'a>,
        patterns: &'a [Pattern],
        task: &Task<'a>,
    ) -> Result<Step, AllocError> {
        match self.sight.fit(form, &task.value)? {
            Fit::Parts(values) => {
                for (pattern, value) in patterns.iter().zip(&values).rev() {
                    self.wait(pattern, value, task.scope)?;
                }
                Ok(Step::Holds)
            }
            Fit::Template(template) => {
                let scope = self.scopes.len();
                self.scopes.push(Scope {
                    uses: patterns,
                    outer: task.scope,
                })?;
                self.wait(template, &task.value, Some(scope))?;
                Ok(Step::Holds)
            }
            Fit::Differs => self.refused(form, &task.value),
            Fit::Nothing(call) => self.refused_by(&call, "gives nothing"),
            Fit::Several(call) => self.refused_by(&call, SEVERAL),
            Fit::Asks(asked) => Ok(Step::Asks(asked)),
        }
    }

    fn refused(&self, form: ValueForm<'_>, value: &Value) -> Result<Step, AllocError> {
        let mut why = String::from_str(self.sight.alloc, "its template asks for ")?;
        push_form(&mut why, form)?;
        why.push_str(", but there is ")?;
        push_value(&mut why, self.sight.lowered, value)?;
        Ok(Step::Refused(why))
    }

    // What a call gives.
    fn refused_by(&self, call: &str, what: &str) -> Result<Step, AllocError> {
        let why = format!(in self.sight.alloc; "{call} {what}")?;
        Ok(Step::Refused(why))
    }
}
