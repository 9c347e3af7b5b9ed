//! What typing a rule has come to.

ghost use Rattle.std.specs.Prelude.{◌≡◌, ◌≤◌, IfOk, OnOk, option_map, length, alloc_error};
ghost use Rattle.model.specs.lists.Elaborated.{most_expansions};
ghost use Rattle.core_typed.specs.RuleViews.{var_view};
ghost use Rattle.core_rules.specs.declared.typing.progress.Stop.TheVariants.{Memory};

use core_syntax::stablemapset::StableMap;
use core_syntax::syntax::Error;
use core_typed::BoundVar;
use core_types::{Sym, TypeId, VarId};
use std::alloc::{AllocError, AllocFailed, Global};

// How many expansions one rule may take, so that templates that double what they are given end.
pub(crate) const MOST_EXPANSIONS: usize = 65_536;

/// Why the work on a rule ended before its end.
pub enum Stop {
    /// The allocator refused.
    Memory(AllocError),
    /// More expansions are nested in one another than may be.
    Nesting,
    /// The rule takes more expansions than it may.
    Expansions,
}

impl From<AllocError> for Stop {
    ghost from_gives = { λ a e. e ≡ Memory a };

    fn from(e: AllocError) -> Stop {
        Stop::Memory(e)
    }
}

impl<T: Drop> From<AllocFailed<T>> for Stop {
    ghost from_gives = { λ _ e. e ≡ Memory alloc_error };

    fn from(e: AllocFailed<T>) -> Stop {
        Stop::Memory(AllocError::from(e))
    }
}

// Written out, and so proved here once.
impl Drop for Stop {
    fn drop(self) {
        match self {
            Stop::Memory(_) => {}
            Stop::Nesting => {}
            Stop::Expansions => {}
        }
    }
}

/// What typing a rule has come to. Stands for upstream's `Bindings`.
pub struct Progress {
    /// All variables bound so far, those of lets too: the place of each is its id.
    pub seen: Vec<BoundVar>,
    /// What each name stands for now, where it was ever bound: looked up, so that a rule of many variables takes
    /// no time that grows with their square.
    pub in_scope: StableMap<Sym, Option<BoundVar>>,
    /// How many expansions were made: no more than a rule may take.
    pub expansions: usize,
    /// What was found wrong, in earlier rules too.
    pub errors: Vec<Error>,
    pub ghost few: { expansions ≤ most_expansions },
}

impl Progress {
    ghost use Rattle.core_rules.specs.Progress.{newest, BindsNext, PutsBack, Counts, IsFresh};

    /// Nothing of a rule is typed yet, and these errors were found before it.
    pub(crate) fn new(alloc: Global, errors: Vec<Error>) -> Progress
        ensures { IsFresh result errors.items }
    {
        Progress {
            seen: Vec::new(alloc),
            in_scope: StableMap::new(alloc),
            expansions: 0,
            errors,
        }
    }

    /// Starts on the next rule, of which nothing is typed yet. The errors found before it stay.
    pub(crate) fn begin(&mut self)
        ensures { IsFresh self.new self.old.errors.items }
    {
        let alloc = *self.errors.allocator();
        self.seen = Vec::new(alloc);
        self.in_scope = StableMap::new(alloc);
        self.expansions = 0;
    }

    /// The newest variable of a name that can be used.
    pub(crate) fn lookup(&self, name: Sym) -> Option<BoundVar>
        ensures { option_map var_view result ≡ newest self.now name.0 }
    {
        match self.in_scope.get(&name) {
            Some(var) => *var,
            None => None,
        }
    }

    /// Binds a name, over an older variable of that name.
    pub(crate) fn add_var(&mut self, name: Sym, ty: TypeId) -> Result<VarId, AllocError>
        ensures id { IfOk result (λ id. id.0 ≡ length self.old.seen.items) }
        ensures binds { OnOk result (BindsNext name.0 ty.0 self.old self.new) }
    {
        let id = VarId(self.seen.len());
        let var = BoundVar { id, name, ty };
        self.in_scope.insert(name, Some(var))?;
        self.seen.push(var)?;
        Ok(id)
    }

    /// A name stands for what it stood for before, if for anything.
    pub(crate) fn put_back(&mut self, name: Sym, var: Option<BoundVar>) -> Result<(), AllocError>
        ensures { OnOk result (PutsBack name.0 (option_map var_view var) self.old self.new) }
    {
        self.in_scope.insert(name, var)?;
        Ok(())
    }

    /// Counts one more expansion, in which so many may still nest, itself among them: how many may in what it makes.
    ///
    /// # Errors
    ///
    /// Where none may, and then where the rule took as many as it may.
    pub fn expand(&mut self, nesting: usize) -> Result<usize, Stop>
        ensures { Counts nesting self.old self.new result }
    {
        if nesting == 0 {
            return Err(Stop::Nesting);
        }
        if self.expansions >= MOST_EXPANSIONS {
            return Err(Stop::Expansions);
        }
        self.expansions += 1;
        Ok(nesting - 1)
    }
}

// Written out, and so proved here once.
impl Drop for Progress {
    fn drop(self) {
        let Progress {
            seen: _,
            in_scope: _,
            expansions: _,
            errors: _,
        } = self;
    }
}
