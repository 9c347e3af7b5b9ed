//! What a text declares: the constants of places, and unknown functions. Once it is closed, nothing more is declared.

use crate::faults::Fault;
use crate::sorts::{Sort, sorts_of};
use spec_cases::formulas::{Operand, PlaceId};
use std::alloc::{AllocError, Global};

/// A constant of the place of a number.
#[derive(Clone, Copy, PartialEq, Eq)]
pub enum Constant {
    /// The word there, of a width.
    Word(u32, u32),
    /// The integer there.
    Integer(u32),
    /// The truth there.
    Truth(u32),
    /// How wide the word there is, a word of 16 bits.
    Width(u32),
    /// Which variant stands there, counted from 1, a word of 16 bits.
    Variant(u32),
}

impl Constant {
    /// Its sort.
    pub fn sort(self) -> Sort {
        match self {
            Constant::Word(_, width) => Sort::Words(width),
            Constant::Integer(_) => Sort::Integers,
            Constant::Truth(_) => Sort::Truths,
            Constant::Width(_) | Constant::Variant(_) => Sort::Words(16),
        }
    }

    /// The place.
    pub fn place(self) -> PlaceId {
        match self {
            Constant::Word(place, _)
            | Constant::Integer(place)
            | Constant::Truth(place)
            | Constant::Width(place)
            | Constant::Variant(place) => PlaceId(place),
        }
    }

    /// Adds its name.
    pub fn push_to(self, out: &mut String) -> Result<(), AllocError> {
        match self {
            Constant::Word(place, width) => write!(out, "w{place}_{width}"),
            Constant::Integer(place) => write!(out, "i{place}"),
            Constant::Truth(place) => write!(out, "b{place}"),
            Constant::Width(place) => write!(out, "d{place}"),
            Constant::Variant(place) => write!(out, "k{place}"),
        }
    }
}

/// An unknown function, from sorts to a sort.
#[derive(PartialEq, Eq, Drop)]
pub struct Function {
    /// Its number.
    pub number: u32,
    /// The sorts of its operands.
    pub takes: Vec<Sort>,
    /// That of its answer.
    pub gives: Sort,
}

impl Function {
    // Adds its declaration, under a name.
    fn push_to(&self, out: &mut String, place: usize) -> Result<(), AllocError> {
        let number = self.number;
        write!(out, "(declare-fun f{number}_{place} (")?;
        for (k, sort) in self.takes.iter().enumerate() {
            if k > 0 {
                out.push_str(" ")?;
            }
            sort.push_to(out)?;
        }
        out.push_str(") ")?;
        self.gives.push_to(out)?;
        out.push_str(")\n")
    }
}

/// What is declared so far, each once.
#[derive(Drop)]
pub struct Declared {
    alloc: Global,
    constants: Vec<Constant>,
    functions: Vec<Function>,
    has_integers: bool,
    is_closed: bool,
}

impl Declared {
    /// Nothing. Takes no memory.
    pub fn new(alloc: Global) -> Declared {
        Declared {
            alloc,
            constants: Vec::new(alloc),
            functions: Vec::new(alloc),
            has_integers: false,
            is_closed: false,
        }
    }

    /// Nothing more is declared from now on.
    pub fn close(&mut self) {
        self.is_closed = true;
    }

    // What isn't declared yet may be.
    fn more(&self) -> Result<(), Fault> {
        if self.is_closed {
            Err(Fault::Undeclared)
        } else {
            Ok(())
        }
    }

    /// Declares that there are integers, where it isn't yet.
    ///
    /// # Errors
    ///
    /// `Undeclared` where nothing more is declared.
    pub fn add_integers(&mut self) -> Result<(), Fault> {
        if !self.has_integers {
            self.more()?;
            self.has_integers = true;
        }
        Ok(())
    }

    /// Declares a constant, where it isn't yet.
    ///
    /// # Errors
    ///
    /// `Undeclared` where nothing more is declared, `Memory` where memory is refused.
    pub fn add_constant(&mut self, constant: Constant) -> Result<(), Fault> {
        for own in &self.constants {
            if *own == constant {
                return Ok(());
            }
        }
        self.more()?;
        self.constants.push(constant)?;
        Ok(())
    }

    /// Declares an unknown function on such operands, where it isn't yet, and answers its place among the functions.
    ///
    /// # Errors
    ///
    /// As `add_constant`; `Unfit` where an operand is a word of no bits.
    pub fn add_function(
        &mut self,
        number: u32,
        operands: &[Operand],
        gives: Sort,
    ) -> Result<usize, Fault> {
        let function = Function {
            number,
            takes: sorts_of(self.alloc, operands)?,
            gives,
        };
        for (place, own) in self.functions.iter().enumerate() {
            if *own == function {
                return Ok(place);
            }
        }
        self.more()?;
        let place = self.functions.len();
        self.functions.push(function)?;
        Ok(place)
    }

    /// The constants, in order.
    pub fn constants(&self) -> &[Constant] {
        &self.constants
    }

    /// The logic in which a solver reads what names no more than this.
    pub fn logic(&self) -> &'static str {
        if self.has_integers {
            "ALL"
        } else if self.functions.is_empty() {
            "QF_BV"
        } else {
            "QF_UFBV"
        }
    }

    /// Adds the declarations: of the functions, and then of the constants.
    pub fn push_to(&self, out: &mut String) -> Result<(), AllocError> {
        for (place, function) in self.functions.iter().enumerate() {
            function.push_to(out, place)?;
        }
        for constant in &self.constants {
            out.push_str("(declare-const ")?;
            constant.push_to(out)?;
            out.push_str(" ")?;
            constant.sort().push_to(out)?;
            out.push_str(")\n")?;
        }
        Ok(())
    }
}
