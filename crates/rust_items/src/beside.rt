//! The traits that `Context` speaks of.

/// What all code has after `Context`: the trait of iterators that may look at the context, the trait of lists that have a length,
/// and a wrapper that makes such an iterator of a collection.
// Each name is a whole path, so that a name of the program can't be taken for it. `Vec` is that of `alloc`, for crates without
// std.
pub const BESIDE: &str = r##"
/// What a call with many answers gives: each `next` may look at the context.
#[allow(warnings)]
pub trait ContextIter {
    /// The context.
    type Context;
    /// One answer.
    type Output;
    /// The next answer, or None behind the last.
    fn next(&mut self, ctx: &mut Self::Context) -> ::core::option::Option<Self::Output>;
    /// At least and at most so many answers are left.
    fn size_hint(&self) -> (usize, ::core::option::Option<usize>) {
        (0, ::core::option::Option::None)
    }
}

/// What becomes a `ContextIter`.
#[allow(warnings)]
pub trait IntoContextIter {
    /// The context.
    type Context;
    /// One answer.
    type Output;
    /// What it becomes.
    type IntoIter: ContextIter<Context = Self::Context, Output = Self::Output>;
    /// Makes it that.
    fn into_context_iter(self) -> Self::IntoIter;
}

/// A list of results whose length is looked at.
#[allow(warnings)]
pub trait Length {
    /// How many results there are.
    fn len(&self) -> usize;
}

extern crate alloc as isle_alloc;

impl<T> Length for isle_alloc::vec::Vec<T> {
    fn len(&self) -> usize {
        isle_alloc::vec::Vec::len(self)
    }
}

/// An iterator that doesn't look at the context, or what becomes one.
#[allow(warnings)]
pub struct ContextIterWrapper<I, C> {
    iter: I,
    _ctx: ::core::marker::PhantomData<C>,
}

impl<I: ::core::default::Default, C> ::core::default::Default for ContextIterWrapper<I, C> {
    fn default() -> Self {
        ContextIterWrapper { iter: ::core::default::Default::default(), _ctx: ::core::marker::PhantomData }
    }
}

impl<I, C> ::core::ops::Deref for ContextIterWrapper<I, C> {
    type Target = I;
    fn deref(&self) -> &I {
        &self.iter
    }
}

impl<I, C> ::core::ops::DerefMut for ContextIterWrapper<I, C> {
    fn deref_mut(&mut self) -> &mut I {
        &mut self.iter
    }
}

impl<I: ::core::iter::Iterator, C: Context> ::core::convert::From<I> for ContextIterWrapper<I, C> {
    fn from(arg0: I) -> Self {
        ContextIterWrapper { iter: arg0, _ctx: ::core::marker::PhantomData }
    }
}

impl<I: ::core::iter::Iterator, C: Context> ContextIter for ContextIterWrapper<I, C> {
    type Context = C;
    type Output = I::Item;
    fn next(&mut self, _: &mut C) -> ::core::option::Option<I::Item> {
        self.iter.next()
    }
    fn size_hint(&self) -> (usize, ::core::option::Option<usize>) {
        self.iter.size_hint()
    }
}

impl<I: ::core::iter::IntoIterator, C: Context> IntoContextIter for ContextIterWrapper<I, C> {
    type Context = C;
    type Output = I::Item;
    type IntoIter = ContextIterWrapper<I::IntoIter, C>;
    fn into_context_iter(self) -> Self::IntoIter {
        ContextIterWrapper { iter: self.iter.into_iter(), _ctx: ::core::marker::PhantomData }
    }
}

impl<T, I: ::core::iter::Extend<T>, C> ::core::iter::Extend<T> for ContextIterWrapper<I, C> {
    fn extend<A: ::core::iter::IntoIterator<Item = T>>(&mut self, arg0: A) {
        self.iter.extend(arg0);
    }
}

impl<I: Length, C> Length for ContextIterWrapper<I, C> {
    fn len(&self) -> usize {
        self.iter.len()
    }
}
"##;
