//! Facts as a tree, so that what many questions begin with stands once: each link is a fact after others, and a question is what a link
//! ends.
ghost use Rattle.std.specs.Prelude.{◌≡◌, ◌∷◌, ◌++◌, [], map, IfOk, OnOk};
ghost use Rattle.spec_cases.specs.Namings.{fact_of};
ghost use Rattle.spec_cases.specs.Trails.{trail_of, trail_within, trails_of, AreTrails, Extends};

use crate::faults::Fault;
use crate::formulas::Fact;
use crate::limits::{AskingFault, MOST_BRANCHES};
use std::alloc::Global;
use std::marker::Model;

/// The number of a link. It means nothing outside its tree.
#[derive(Clone, Copy)]
pub struct LinkId(pub(crate) u32);

/// Facts, the last one first.
#[derive(Clone, Copy)]
pub enum Trail {
    /// None.
    Start,
    /// That of this link, and those before it.
    To(LinkId),
}

/// A fact after others.
#[derive(Clone, Copy)]
pub struct Link {
    /// The fact.
    pub fact: Fact,
    /// The others.
    pub before: Trail,
}

/// A tree of facts. A contract sees it as the list of its links, by their numbers; each is after earlier ones. What is called here adds to
/// it: what has a number keeps what it stands for.
pub struct Trails {
    alloc: Global,
    links: Vec<Link>,
    branches: usize,
}

impl Model for Trails {
    ghost use Rattle.std.specs.Prelude.{List};
    ghost use Rattle.spec_cases.specs.declared.trails.Link.{Link};
    ghost use Rattle.spec_cases.specs.Trails.{AreEarlier};

    ghost Value = { List Link };

    ghost view = { λ s. s.links.items };

    ghost invariant = { λ s. AreEarlier s.links.items };
}

impl Drop for Trails {
    fn drop(self) {
        let Self {
            alloc: _,
            links: _,
            branches: _,
        } = self;
    }
}

/// The links of any tree end something, whatever its facts stand for.
pub fn trails_stand(trails: &Trails)
    ensures { (v : _) → AreTrails v (trails_of v trails.now) trails.now }
{
    let _links = &trails.links;
}

impl Trail {
    // Whether it is one of so many links, or none.
    fn is_within(self, count: usize) -> bool
        ensures { result ≡ trail_within count self }
    {
        match self {
            Trail::Start => true,
            Trail::To(link) => (link.0 as usize) < count,
        }
    }
}

impl Trails {
    /// No facts. Takes no memory.
    pub fn new(alloc: Global) -> Trails
        ensures { result ≡ [] }
    {
        Trails {
            alloc,
            links: Vec::new(alloc),
            branches: 0,
        }
    }

    /// A fact after others.
    ///
    /// # Errors
    ///
    /// `Foreign` where the others aren't there, `Full` where no number is left, `Memory` where memory is refused.
    pub fn after(&mut self, fact: Fact, before: Trail) -> Result<Trail, Fault>
        ensures { IfOk result (λ t. Extends self.old self.new (λ v s. trail_of s t ≡ fact_of v fact ∷ trail_of s before)) }
    {
        let count = self.links.len();
        if !before.is_within(count) {
            return Err(Fault::Foreign);
        }
        let Ok(number) = u32::try_from(count) else {
            return Err(Fault::Full);
        };
        self.links.push(Link { fact, before })?;
        Ok(Trail::To(LinkId(number)))
    }

    /// Counts one more branch.
    ///
    /// # Errors
    ///
    /// `TooMany` where as many as are followed have begun.
    pub fn count_branch(&mut self) -> Result<(), AskingFault>
        ensures { OnOk result (self.new ≡ self.old) }
    {
        if self.branches >= MOST_BRANCHES {
            return Err(AskingFault::TooMany);
        }
        self.branches += 1;
        Ok(())
    }

    // A link.
    #[tactic(auto, using(crate::proofs::TrailSteps::link_read))]
    fn link_at(&self, link: LinkId) -> Result<Link, Fault>
        ensures { IfOk result (λ l. (v : _) (s : _) → AreTrails v s self.now → s link.0 ≡ fact_of v l.fact ∷ trail_of s l.before) }
    {
        match self.links.get(link.0 as usize) {
            None => Err(Fault::Foreign),
            Some(found) => Ok(*found),
        }
    }

    // Adds the facts of links below the limit, by their numbers.
    #[tactic(auto, using(crate::proofs::TrailSteps::fact_steps))]
    fn add_facts(&self, limit: usize, trail: Trail, out: &mut Vec<Fact>) -> Result<(), Fault>
        ensures { OnOk result ((v : _) (s : _) → AreTrails v s self.now → map (fact_of v) out.new.items ≡ map (fact_of v) out.old.items ++ trail_of s trail) }
    {
        match trail {
            Trail::Start => Ok(()),
            Trail::To(link) => {
                if (link.0 as usize) < limit {
                    let last = self.link_at(link)?;
                    out.push(last.fact)?;
                    Ok(self.add_facts(link.0 as usize, last.before, out)?)
                } else {
                    Err(Fault::Foreign)
                }
            }
        }
    }

    /// Facts by their numbers in the arena, the last one first.
    ///
    /// # Errors
    ///
    /// `Foreign` where they aren't there, `Memory` where memory is refused.
    pub fn facts(&self, trail: Trail) -> Result<Vec<Fact>, Fault>
        ensures { IfOk result (λ fs. (v : _) (s : _) → AreTrails v s self.now → map (fact_of v) fs.items ≡ trail_of s trail) }
    {
        let mut out = Vec::new(self.alloc);
        self.add_facts(self.links.len(), trail, &mut out)?;
        Ok(out)
    }
}
