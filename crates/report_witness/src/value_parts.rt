//! The values that rules look at: arguments of a term, what patterns take them apart into, and results of calls. Values that
//! must be equal are one part.

use crate::forms::{ValueForm, is_constant, is_same};
use core_syntax::syntax::Pos;
use std::alloc::{AllocError, Global};
use std::collections::BTreeMap;
use std::mem;

// How many pairs of parts one equality may make equal. Rules within the limits on expansions make fewer.
const MOST_PAIRS: usize = 1 << 20;

/// A form that a part must have.
pub(crate) struct Head<'a> {
    /// The form.
    pub form: ValueForm<'a>,
    /// The place in a rule that asks for it.
    pub pos: Pos,
    /// The parts that the form is made of.
    pub parts: Vec<usize>,
}

impl<'a> Drop for Head<'a> {
    fn drop(self) {
        let Head {
            form: _,
            pos: _,
            parts: _,
        } = self;
    }
}

// A value that rules look at.
struct Part<'a> {
    // The rule's name for it, or the empty text.
    name: &'a str,
    heads: Vec<Head<'a>>,
    // Whether a variable is used here that is bound elsewhere.
    again: bool,
}

impl<'a> Drop for Part<'a> {
    fn drop(self) {
        let Part {
            name: _,
            heads: _,
            again: _,
        } = self;
    }
}

/// A call in a further condition. Equal calls are one.
pub(crate) struct Call<'a> {
    /// What is called, or a constant.
    pub form: ValueForm<'a>,
    /// The arguments.
    pub parts: Vec<usize>,
    /// The result.
    pub part: usize,
    /// Whether a condition has this result as its value. Else only another call takes it.
    pub asked: bool,
}

impl<'a> Drop for Call<'a> {
    fn drop(self) {
        let Call {
            form: _,
            parts: _,
            part: _,
            asked: _,
        } = self;
    }
}

/// A variable.
#[derive(Clone, Copy)]
pub(crate) struct Var<'a> {
    /// Its name.
    pub name: &'a str,
    /// What it is bound to.
    pub part: usize,
}

// Where calls stand among the calls.
struct CallNumbers<'a> {
    alloc: Global,
    // By the result of each.
    by_results: BTreeMap<usize, usize>,
    // By the form of those without arguments.
    plain: BTreeMap<ValueForm<'a>, usize>,
    // By the class of the first argument.
    by_classes: BTreeMap<usize, Vec<usize>>,
    // By the constant that the first argument is or was.
    by_constants: BTreeMap<ValueForm<'a>, Vec<usize>>,
}

impl<'a> Drop for CallNumbers<'a> {
    fn drop(self) {
        let CallNumbers {
            alloc: _,
            by_results: _,
            plain: _,
            by_classes: _,
            by_constants: _,
        } = self;
    }
}

impl<'a> CallNumbers<'a> {
    fn new(alloc: Global) -> CallNumbers<'a> {
        CallNumbers {
            alloc,
            by_results: BTreeMap::new(alloc),
            plain: BTreeMap::new(alloc),
            by_classes: BTreeMap::new(alloc),
            by_constants: BTreeMap::new(alloc),
        }
    }

    // Adds the number of a call whose first argument is of this class, and may be a constant.
    fn add(
        &mut self,
        class: usize,
        constant: Option<ValueForm<'a>>,
        number: usize,
    ) -> Result<(), AllocError> {
        self.by_classes.entry(class)?.or_default().push(number)?;
        if let Some(constant) = constant {
            self.by_constants
                .entry(constant)?
                .or_default()
                .push(number)?;
        }
        Ok(())
    }

    // Notes that a class of which nothing was asked is a constant.
    fn make_constant(&mut self, class: usize, form: ValueForm<'a>) -> Result<(), AllocError> {
        let numbers = copied(self.alloc, self.of_class(class))?;
        if !numbers.is_empty() {
            self.by_constants
                .entry(form)?
                .or_default()
                .extend_from_slice(&numbers)?;
        }
        Ok(())
    }

    // Notes that a class is now part of another one, and a constant, if it becomes one thereby.
    fn merge(
        &mut self,
        gone: usize,
        kept: usize,
        constant: Option<ValueForm<'a>>,
    ) -> Result<(), AllocError> {
        if let Some(numbers) = self.by_classes.remove(&gone) {
            for number in &numbers {
                self.add(kept, constant, *number)?;
            }
        }
        Ok(())
    }

    fn of_class(&self, class: usize) -> &[usize] {
        listed(self.by_classes.get(&class))
    }

    fn of_constant(&self, constant: ValueForm<'a>) -> &[usize] {
        listed(self.by_constants.get(&constant))
    }
}

/// The values that rules of one term look at. A part is a number.
pub(crate) struct Parts<'a> {
    alloc: Global,
    parts: Vec<Part<'a>>,
    // By a class, a form and how many parts this is made of: its place among the class's forms.
    places: BTreeMap<(usize, ValueForm<'a>, usize), usize>,
    // The class of each part. Equal parts have one class, which is the number of its first part.
    classes: Vec<usize>,
    vars: Vec<Var<'a>>,
    // By a name and the number of the rule, or of the use of a template, that has a variable of it: what that is bound to.
    bound: BTreeMap<(usize, &'a str), usize>,
    calls: Vec<Call<'a>>,
    // Where calls stand in the list of calls.
    call_numbers: CallNumbers<'a>,
    // The parts that the arguments are.
    arguments: Vec<usize>,
    // Whether something was left out.
    cut: bool,
}

impl<'a> Drop for Parts<'a> {
    fn drop(self) {
        let Parts {
            alloc: _,
            parts: _,
            places: _,
            classes: _,
            vars: _,
            bound: _,
            calls: _,
            call_numbers: _,
            arguments: _,
            cut: _,
        } = self;
    }
}

impl<'a> Parts<'a> {
    /// No parts.
    pub fn new(alloc: Global) -> Parts<'a> {
        Parts {
            alloc,
            parts: Vec::new(alloc),
            places: BTreeMap::new(alloc),
            classes: Vec::new(alloc),
            vars: Vec::new(alloc),
            bound: BTreeMap::new(alloc),
            calls: Vec::new(alloc),
            call_numbers: CallNumbers::new(alloc),
            arguments: Vec::new(alloc),
            cut: false,
        }
    }

    /// A new part. Nothing is asked of it.
    pub fn new_part(&mut self) -> Result<usize, AllocError> {
        let number = self.parts.len();
        let heads = Vec::new(self.alloc);
        self.parts.push(Part {
            name: "",
            heads,
            again: false,
        })?;
        self.classes.push(number)?;
        Ok(number)
    }

    fn new_parts(&mut self, count: usize) -> Result<Vec<usize>, AllocError> {
        let mut parts = Vec::new(self.alloc);
        for _ in 0..count {
            let part = self.new_part()?;
            parts.push(part)?;
        }
        Ok(parts)
    }

    /// The part that an argument is.
    pub fn argument(&mut self, place: usize) -> Result<usize, AllocError> {
        if let Some(part) = self.arguments.get(place) {
            return Ok(*part);
        }
        let part = self.new_part()?;
        self.arguments.push(part)?;
        Ok(part)
    }

    /// The result of a call. An equal call has the same result.
    pub fn call(&mut self, form: ValueForm<'a>, parts: Vec<usize>) -> Result<usize, AllocError> {
        if let Some(part) = self.called(form, &parts) {
            return Ok(part);
        }
        let part = self.new_part()?;
        self.number_call(form, parts.first().copied(), part)?;
        self.calls.push(Call {
            form,
            parts,
            part,
            asked: false,
        })?;
        Ok(part)
    }

    // Notes where the next call is found: by its result, and by its first argument, or by its form if it has none.
    fn number_call(
        &mut self,
        form: ValueForm<'a>,
        first: Option<usize>,
        part: usize,
    ) -> Result<(), AllocError> {
        let number = self.calls.len();
        self.call_numbers.by_results.insert(part, number)?;
        let Some(first) = first else {
            self.call_numbers.plain.insert(form, number)?;
            return Ok(());
        };
        let class = self.class_of(first);
        let constant = self.constant(first);
        self.call_numbers.add(class, constant, number)
    }

    // The result of a call that was made before.
    fn called(&self, form: ValueForm<'a>, parts: &[usize]) -> Option<usize> {
        let number = match parts.first() {
            Some(first) => self.number_of(form, parts, *first)?,
            None => self.call_numbers.plain.get(&form).copied()?,
        };
        Some(self.calls.get(number)?.part)
    }

    // The number of the first call that has this form and equal arguments, of which the first one is given. The first argument of
    // such a call is of its class, or the same constant.
    fn number_of(&self, form: ValueForm<'a>, parts: &[usize], first: usize) -> Option<usize> {
        let by_class = self.first_equal(
            form,
            parts,
            self.call_numbers.of_class(self.class_of(first)),
        );
        let by_constant = match self.constant(first) {
            Some(constant) => self.first_equal(
                form,
                parts,
                self.call_numbers.of_constant(constant),
            ),
            None => None,
        };
        match (by_class, by_constant) {
            (Some(left), Some(right)) => Some(left.min(right)),
            (Some(number), None) | (None, Some(number)) => Some(number),
            (None, None) => None,
        }
    }

    // The least of these numbers whose call has this form and equal arguments.
    fn first_equal(
        &self,
        form: ValueForm<'a>,
        parts: &[usize],
        numbers: &[usize],
    ) -> Option<usize> {
        let mut found = None;
        for number in numbers {
            if found.is_none_or(|other| *number < other) && self.is_call(*number, form, parts) {
                found = Some(*number);
            }
        }
        found
    }

    // Whether the call of a number has this form and equal arguments.
    fn is_call(&self, number: usize, form: ValueForm<'a>, parts: &[usize]) -> bool {
        match self.calls.get(number) {
            Some(call) => is_same(call.form, form) && self.are_same(&call.parts, parts),
            None => false,
        }
    }

    // The constant that a part is, where that is all that is asked of it.
    fn constant(&self, part: usize) -> Option<ValueForm<'a>> {
        match self.heads(part) {
            [head] if is_constant(head.form) => Some(head.form),
            _ => None,
        }
    }

    // Whether parts are equal one by one.
    fn are_same(&self, left: &[usize], right: &[usize]) -> bool {
        if left.len() != right.len() {
            return false;
        }
        for (one, other) in left.iter().zip(right) {
            if !self.is_equal(*one, *other) {
                return false;
            }
        }
        true
    }

    // Whether two parts are one, or one constant.
    fn is_equal(&self, left: usize, right: usize) -> bool {
        if self.class_of(left) == self.class_of(right) {
            return true;
        }
        match (self.constant(left), self.constant(right)) {
            (Some(left), Some(right)) => is_same(left, right),
            _ => false,
        }
    }

    /// Notes that a condition has a call's result as its value.
    pub fn ask(&mut self, part: usize) {
        if let Some(number) = self.call_numbers.by_results.get(&part).copied() {
            if let Some(call) = self.calls.get_mut(number) {
                call.asked = true;
            }
        }
    }

    /// The part that a variable of a scope is bound to. A later binding hides an earlier one.
    pub fn bound(&self, name: &'a str, scope: usize) -> Option<usize> {
        self.bound.get(&(scope, name)).copied()
    }

    /// Binds a variable of a scope.
    pub fn bind(&mut self, name: &'a str, scope: usize, part: usize) -> Result<(), AllocError> {
        self.vars.push(Var { name, part })?;
        self.bound.insert((scope, name), part)?;
        Ok(())
    }

    /// Names a part as the rule does, if it has no name.
    pub fn set_name(&mut self, part: usize, name: &'a str) {
        let class = self.class_of(part);
        self.move_name(class, name, false);
    }

    /// Makes two parts one because a variable is used at both.
    pub fn use_again(&mut self, first: usize, part: usize) -> Result<(), AllocError> {
        self.merge(first, part)?;
        let class = self.class_of(first);
        self.move_name(class, "", true);
        Ok(())
    }

    /// Adds that a part is a constant.
    pub fn add_constant(
        &mut self,
        part: usize,
        form: ValueForm<'a>,
        pos: Pos,
    ) -> Result<(), AllocError> {
        let class = self.class_of(part);
        if self.head_of(class, form, 0).is_some() {
            return Ok(());
        }
        let parts = Vec::new(self.alloc);
        self.push_head(class, Head { form, pos, parts })
    }

    /// Adds that a part has a form. The so many parts that the form is made of.
    pub fn add_term(
        &mut self,
        part: usize,
        form: ValueForm<'a>,
        count: usize,
        pos: Pos,
    ) -> Result<Vec<usize>, AllocError> {
        let class = self.class_of(part);
        if let Some(parts) = self.head_of(class, form, count) {
            return copied(self.alloc, parts);
        }
        let parts = self.new_parts(count)?;
        let own = copied(self.alloc, &parts)?;
        self.push_head(class, Head { form, pos, parts })?;
        Ok(own)
    }

    // The so many parts that a form of a class is made of.
    fn head_of(&self, class: usize, form: ValueForm<'a>, count: usize) -> Option<&[usize]> {
        let place = self.places.get(&(class, form, count)).copied()?;
        let head = self.parts.get(class)?.heads.get(place)?;
        Some(&head.parts)
    }

    fn push_head(&mut self, class: usize, head: Head<'a>) -> Result<(), AllocError> {
        if is_constant(head.form) && self.heads(class).is_empty() {
            self.call_numbers.make_constant(class, head.form)?;
        }
        if let Some(part) = self.parts.get_mut(class) {
            let place = part.heads.len();
            self.places
                .insert((class, head.form, head.parts.len()), place)?;
            part.heads.push(head)?;
        }
        Ok(())
    }

    // Makes two parts one, and also what they are made of by forms that both have.
    fn merge(&mut self, left: usize, right: usize) -> Result<(), AllocError> {
        let mut waiting = Vec::new(self.alloc);
        waiting.push((left, right))?;
        for _ in 0..MOST_PAIRS {
            let Some((left, right)) = waiting.pop() else {
                return Ok(());
            };
            self.merge_two(left, right, &mut waiting)?;
        }
        self.cut = true;
        Ok(())
    }

    // Makes two parts one. The parts of their forms wait then.
    fn merge_two(
        &mut self,
        left: usize,
        right: usize,
        waiting: &mut Vec<(usize, usize)>,
    ) -> Result<(), AllocError> {
        let left = self.class_of(left);
        let right = self.class_of(right);
        if left == right {
            return Ok(());
        }
        let kept = left.min(right);
        let gone = left.max(right);
        let constant = self.constant_for(gone, kept);
        for class in &mut self.classes {
            if *class == gone {
                *class = kept;
            }
        }
        self.move_part(gone, kept, waiting)?;
        self.call_numbers.merge(gone, kept, constant)
    }

    // The constant that a class becomes since another one is, which it is made part of. Nothing was asked of it.
    fn constant_for(&self, gone: usize, kept: usize) -> Option<ValueForm<'a>> {
        if self.heads(gone).is_empty() {
            self.constant(kept)
        } else {
            None
        }
    }

    // Moves what is known of a class to the class that it is now in.
    fn move_part(
        &mut self,
        gone: usize,
        kept: usize,
        waiting: &mut Vec<(usize, usize)>,
    ) -> Result<(), AllocError> {
        let Some(part) = self.parts.get_mut(gone) else {
            return Ok(());
        };
        let heads = mem::replace(&mut part.heads, Vec::new(self.alloc));
        let name = part.name;
        let again = part.again;
        self.move_name(kept, name, again);
        for head in heads {
            self.move_head(kept, head, waiting)?;
        }
        Ok(())
    }

    // Gives a class a name if it has none, and notes that a variable is used there again.
    fn move_name(&mut self, class: usize, name: &'a str, again: bool) {
        if let Some(part) = self.parts.get_mut(class) {
            part.again = part.again || again;
            if part.name.is_empty() {
                part.name = name;
            }
        }
    }

    // Gives a class a form. Where it has that form, the parts of both wait to be made one.
    fn move_head(
        &mut self,
        class: usize,
        head: Head<'a>,
        waiting: &mut Vec<(usize, usize)>,
    ) -> Result<(), AllocError> {
        let Some(parts) = self.head_of(class, head.form, head.parts.len()) else {
            return self.push_head(class, head);
        };
        for (one, other) in parts.iter().zip(&head.parts) {
            waiting.push((*one, *other))?;
        }
        Ok(())
    }

    /// Notes that something was left out because there was too much of it.
    pub fn set_cut(&mut self) {
        self.cut = true;
    }

    /// Whether something was left out because there was too much of it.
    pub fn is_cut(&self) -> bool {
        self.cut
    }

    /// The number of a part's class.
    pub fn class_of(&self, part: usize) -> usize {
        match self.classes.get(part) {
            Some(class) => *class,
            None => part,
        }
    }

    /// How many parts there are.
    pub fn count(&self) -> usize {
        self.parts.len()
    }

    /// The parts that the arguments are.
    pub fn arguments(&self) -> &[usize] {
        &self.arguments
    }

    /// The calls of further conditions.
    pub fn calls(&self) -> &[Call<'a>] {
        &self.calls
    }

    /// The forms that a part must have.
    pub fn heads(&self, part: usize) -> &[Head<'a>] {
        let part = self.parts.get(self.class_of(part));
        listed(part.map(|part| &part.heads))
    }

    /// The rule's name for a part, or the empty text.
    pub fn name(&self, part: usize) -> &'a str {
        match self.parts.get(self.class_of(part)) {
            Some(part) => part.name,
            None => "",
        }
    }

    /// Whether a variable of the rule is used at several places that are this part.
    pub fn is_again(&self, part: usize) -> bool {
        match self.parts.get(self.class_of(part)) {
            Some(part) => part.again,
            None => false,
        }
    }

    /// Whether a name is that of a variable.
    pub fn is_var(&self, name: &str) -> bool {
        self.vars.iter().any(|var| var.name == name)
    }

    /// The variables in the order in which they are bound.
    pub fn vars(&self) -> &[Var<'a>] {
        &self.vars
    }
}

fn copied(alloc: Global, numbers: &[usize]) -> Result<Vec<usize>, AllocError> {
    let mut copy = Vec::new(alloc);
    for number in numbers {
        copy.push(*number)?;
    }
    Ok(copy)
}

// A list, or else an empty one.
fn listed<T>(list: Option<&Vec<T>>) -> &[T] {
    match list {
        Some(list) => list,
        None => &[],
    }
}
