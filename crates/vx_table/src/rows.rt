//! The parts of a syntax table: plain data, written by `table!`.

ghost use Rattle.std.specs.Prelude.{◌≡◌, ⊤};

use std::alloc::AllocError;

/// A number that a row uses: a written one, or the latest number of a field or a name.
#[derive(Clone, Copy)]
pub enum Term {
    Number(u32),
    Latest(u16),
}

/// A number computed from at most two terms. A test gives 1 if it holds, and otherwise 0.
#[derive(Clone, Copy)]
pub enum Formula {
    Plain(Term),
    Plus(Term, Term),
    /// The difference, or 0 if the second is larger.
    Minus(Term, Term),
    Times(Term, Term),
    /// The quotient, rounded up, or 0 if the divisor is 0.
    Quotient(Term, Term),
    Least(Term, Term),
    PowerOfTwo(Term),
    CeilLog2(Term),
    Equal(Term, Term),
    Differs(Term, Term),
    Below(Term, Term),
    AtMost(Term, Term),
    Both(Term, Term),
    Either(Term, Term),
}

/// The coding of a field. `N` is a formula in a table's row, and its number when the row is coded.
pub enum Coding<N> {
    /// `u(n)`.
    Fixed(N),
    /// `ue(v)`.
    Golomb,
    /// `se(v)`.
    SignedGolomb,
    /// Zero bits up to the byte boundary.
    Zeros,
    /// A one, and zeros up to the byte boundary.
    OneAndZeros,
    /// A one, and zeros up to the byte boundary, at which the bits end.
    Trailing,
    /// No bits: a field that is absent but counts, with value 0, among the kept ones.
    Absent,
    /// No bits: the structure is refused here.
    Refused,
}

impl<N: Copy> Copy for Coding<N> {}

impl<N: Copy> Clone for Coding<N> {
    ghost is_clone = { λ x y. y ≡ x };

    ghost is_infallible = { λ _. ⊤ };

    fn clone(&self) -> Result<Self, AllocError> {
        Ok(*self)
    }
}

/// The fault of a value outside its range.
#[derive(Clone, Copy, Debug)]
pub enum Fault {
    OutOfRange,
    Profile(u8),
    Limit(u8),
    Structure(u8),
}

/// The range of a field.
pub enum Limits<N> {
    /// Every value that has a code.
    Any,
    /// From `low` to `high`; any other value has this fault.
    Within { low: i32, high: N, fault: Fault },
    /// From 0 to below `bound`: no value if it is 0.
    Below { bound: N, fault: Fault },
    /// A positive multiple of `unit`; a value above `high` has this fault.
    Multiple { unit: u32, high: u32, fault: Fault },
}

impl<N: Copy> Copy for Limits<N> {}

impl<N: Copy> Clone for Limits<N> {
    ghost is_clone = { λ x y. y ≡ x };

    ghost is_infallible = { λ _. ⊤ };

    fn clone(&self) -> Result<Self, AllocError> {
        Ok(*self)
    }
}

/// A field of a structure, or a gap that is reported under a field's number.
pub struct Cell<N> {
    pub field: u16,
    /// Whether the field is kept when a structure is rewritten: it has no star.
    pub kept: bool,
    pub coding: Coding<N>,
    pub limits: Limits<N>,
}

impl<N: Copy> Copy for Cell<N> {}

impl<N: Copy> Clone for Cell<N> {
    ghost is_clone = { λ x y. y ≡ x };

    ghost is_infallible = { λ _. ⊤ };

    fn clone(&self) -> Result<Self, AllocError> {
        Ok(*self)
    }
}

/// How often a block of rows is present.
#[derive(Clone, Copy)]
pub enum Presence {
    /// Once if the formula isn't 0.
    When(Formula),
    /// `times` times, with a counter from 0.
    Repeat { counter: u16, times: Formula },
}

/// A row of a table.
#[derive(Clone, Copy)]
pub enum Row {
    /// A field or a gap.
    Field(Cell<Formula>),
    /// A block of the next `rows` rows, present as often as `presence` says.
    Block { presence: Presence, rows: usize },
    /// A name for a number.
    Name { name: u16, formula: Formula },
}
