//! Whether values meet the demands of a rule.

use crate::asked::{AskedCall, Side, asked_text};
use crate::known::{key_of, known_in};
use crate::templates::{Fit, SEVERAL, Sight, Taken, has_answers, term_named, value_text};
use cranelift_isle::sema::{Term, TermKind};
use report_witness::conditions::{Conditions, DemandKind, Spoken};
use report_witness::forms::ValueForm;
use run_terms::answers::single;
use run_terms::values::{Value, same_value};
use std::alloc::AllocError;

/// Whether values meet demands.
#[derive(Drop)]
pub enum Verdict {
    /// They meet all.
    Met,
    /// They meet so many, and don't meet the next one, for this reason.
    Unmet(usize, String),
    /// The answer to this call has to be known.
    Asks(AskedCall),
}

// Whether values meet one demand.
#[derive(Drop)]
enum Step {
    Met,
    Unmet(String),
    Asks(AskedCall),
}

/// Whether the values of arguments meet the demands of a rule, in order.
pub fn verdict_of(
    sight: Sight<'_>,
    conditions: &Conditions<'_>,
    args: &[Value],
) -> Result<Verdict, AllocError> {
    let mut judged = Judged {
        sight,
        values: Vec::new(sight.alloc),
        others: Vec::new(sight.alloc),
    };
    for (number, arg) in conditions.values.iter().zip(args) {
        judged.assign(*number, arg.clone()?)?;
    }
    for (met, demand) in conditions.demands.iter().enumerate() {
        match judged.meet(&demand.what)? {
            Step::Met => {}
            Step::Unmet(why) => return Ok(Verdict::Unmet(met, why)),
            Step::Asks(asked) => return Ok(Verdict::Asks(asked)),
        }
    }
    Ok(Verdict::Met)
}

// Values that were judged.
struct Judged<'a> {
    sight: Sight<'a>,
    // The value of each number that is known.
    values: Vec<(usize, Value)>,
    // Values of numbers that have another one.
    others: Vec<(usize, Value)>,
}

impl<'a> Drop for Judged<'a> {
    fn drop(self) {
        let Self {
            sight: _,
            values: _,
            others: _,
        } = self;
    }
}

fn value_in(values: &[(usize, Value)], number: usize) -> Option<&Value> {
    for (other, value) in values {
        if *other == number {
            return Some(value);
        }
    }
    None
}

impl<'a> Judged<'a> {
    // A number has a value. If it has another one, both are kept.
    fn assign(&mut self, number: usize, value: Value) -> Result<(), AllocError> {
        if let Some(other) = value_in(&self.values, number) {
            if !same_value(other, &value) {
                self.others.push((number, value))?;
            }
            return Ok(());
        }
        self.values.push((number, value))?;
        Ok(())
    }

    fn meet(&mut self, what: &DemandKind<'_>) -> Result<Step, AllocError> {
        match what {
            DemandKind::Form(number, form, parts) => self.meet_form(*number, *form, parts),
            DemandKind::Call(form, parts, number) => self.meet_call(*form, parts, *number),
            DemandKind::Equal(number) => self.meet_equal(*number),
        }
    }

    // Whether the value of a number has a form.
    fn meet_form(
        &mut self,
        number: usize,
        form: ValueForm<'_>,
        parts: &[Spoken<'_>],
    ) -> Result<Step, AllocError> {
        let Some(value) = value_in(&self.values, number) else {
            return self.unmet("no value is known");
        };
        let value = value.clone()?;
        match self.sight.fit(form, &value)? {
            Fit::Parts(values) => self.take_all(parts, &values, &value),
            Fit::Template(template) => match self.sight.take(template, value.clone()?)? {
                Taken::Outputs(outputs) => self.take_each(parts, &outputs, &value),
                Taken::Refused(why) => Ok(Step::Unmet(why)),
                Taken::Asks(asked) => Ok(Step::Asks(asked)),
            },
            Fit::Differs => self.it_is(&value),
            Fit::Nothing(call) => self.unmet_by(&call, "gives nothing"),
            Fit::Several(call) => self.unmet_by(&call, SEVERAL),
            Fit::Asks(asked) => Ok(Step::Asks(asked)),
        }
    }

    // The parts of a value get their values, in order. A part that is a constant must be it.
    fn take_all(
        &mut self,
        parts: &[Spoken<'_>],
        values: &[Value],
        whole: &Value,
    ) -> Result<Step, AllocError> {
        for (part, value) in parts.iter().zip(values) {
            if !self.take(*part, value)? {
                return self.it_is(whole);
            }
        }
        Ok(Step::Met)
    }

    // The parts of a value get their values, by their places.
    fn take_each(
        &mut self,
        parts: &[Spoken<'_>],
        values: &[(usize, Value)],
        whole: &Value,
    ) -> Result<Step, AllocError> {
        for (place, value) in values {
            if let Some(part) = parts.get(*place) {
                if !self.take(*part, value)? {
                    return self.its_part_is(whole, value);
                }
            }
        }
        Ok(Step::Met)
    }

    // A part gets its value. Whether it may have that.
    fn take(&mut self, part: Spoken<'_>, value: &Value) -> Result<bool, AllocError> {
        match part {
            Spoken::Value(number) => {
                self.assign(number, value.clone()?)?;
                Ok(true)
            }
            Spoken::Constant(form) => self.sight.is_constant(form, value),
        }
    }

    // Whether all that is the value of a number is equal.
    fn meet_equal(&self, number: usize) -> Result<Step, AllocError> {
        let Some(other) = value_in(&self.others, number) else {
            return Ok(Step::Met);
        };
        let Some(value) = value_in(&self.values, number) else {
            return Ok(Step::Met);
        };
        let value = value_text(self.sight.alloc, self.sight.lowered, value)?;
        let other = value_text(self.sight.alloc, self.sight.lowered, other)?;
        Ok(Step::Unmet(format!(in self.sight.alloc; "it is {value} and {other}")?))
    }

    // Whether a call gives a value.
    fn meet_call(
        &mut self,
        form: ValueForm<'_>,
        parts: &[Spoken<'_>],
        number: usize,
    ) -> Result<Step, AllocError> {
        let ValueForm::Term(name) = form else {
            return Ok(Step::Met);
        };
        let Some(term) = term_named(self.sight.alloc, self.sight.lowered, name)? else {
            return self.unmet("no such term");
        };
        let Some(args) = self.args_of(term, parts)? else {
            return self.unmet("an argument has no value");
        };
        match &term.kind {
            TermKind::EnumVariant { variant } => {
                self.assign(number, Value::Variant(term.ret_ty, *variant, args))?;
                Ok(Step::Met)
            }
            TermKind::Struct => {
                self.assign(number, Value::Struct(term.ret_ty, args))?;
                Ok(Step::Met)
            }
            TermKind::Decl { .. } => self.meet_answer(term, args, number),
        }
    }

    // The values of the arguments of a call.
    fn args_of(&self, term: &Term, parts: &[Spoken<'_>]) -> Result<Option<Vec<Value>>, AllocError> {
        let mut args = Vec::new(self.sight.alloc);
        for (part, ty) in parts.iter().zip(&term.arg_tys) {
            let value = match *part {
                Spoken::Constant(form) => self.sight.constant(form, *ty)?,
                Spoken::Value(number) => match value_in(&self.values, number) {
                    Some(value) => Some(value.clone()?),
                    None => None,
                },
            };
            match value {
                Some(value) => args.push(value)?,
                None => return Ok(None),
            }
        }
        Ok(Some(args))
    }

    // Whether a constructor that is called gives a value.
    fn meet_answer(
        &mut self,
        term: &Term,
        args: Vec<Value>,
        number: usize,
    ) -> Result<Step, AllocError> {
        let alloc = self.sight.alloc;
        let key = key_of(alloc, &args)?;
        let asked = AskedCall {
            side: Side::Constructor,
            term: term.id,
            args,
            impure: false,
        };
        let Some(content) = known_in(self.sight.answered.called, term.id, &key) else {
            return Ok(Step::Asks(asked));
        };
        match single(content)? {
            Some(value) => {
                self.assign(number, value)?;
                Ok(Step::Met)
            }
            None => {
                let text = asked_text(alloc, self.sight.lowered, &asked)?;
                self.unmet_by(
                    &text,
                    if has_answers(content) {
                        SEVERAL
                    } else {
                        "gives nothing"
                    },
                )
            }
        }
    }

    fn unmet(&self, why: &str) -> Result<Step, AllocError> {
        Ok(Step::Unmet(String::from_str(self.sight.alloc, why)?))
    }

    fn unmet_by(&self, what: &str, why: &str) -> Result<Step, AllocError> {
        Ok(Step::Unmet(format!(in self.sight.alloc; "{what} {why}")?))
    }

    fn it_is(&self, value: &Value) -> Result<Step, AllocError> {
        let text = value_text(self.sight.alloc, self.sight.lowered, value)?;
        self.unmet_by("it is", &text)
    }

    fn its_part_is(&self, value: &Value, part: &Value) -> Result<Step, AllocError> {
        let value = value_text(self.sight.alloc, self.sight.lowered, value)?;
        let part = value_text(self.sight.alloc, self.sight.lowered, part)?;
        Ok(Step::Unmet(format!(in self.sight.alloc; "it is {value}, which has {part} there")?))
    }
}
