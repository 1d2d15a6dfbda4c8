//! Types for the components of a row: formulas, ranges, and fields with their codings, each known when a walk is compiled.
//! A value of such a type holds nothing. Most are named like the variants that they represent. A term is two numbers in the
//! type: the field or name whose latest number it is, and the number to use if that is [`NO_FIELD`]. So a table's type
//! stays small enough for the toolchain, which doesn't accept types nested some hundred levels deep.

ghost use Rattle.std.specs.Prelude.{◌≡◌, ⊤};
ghost use Rattle.vx_table.specs.declared.rows.Term.{Term};
ghost use Rattle.vx_table.specs.declared.rows.Formula.{Formula};
ghost use Rattle.vx_table.specs.declared.rows.Formula.TheVariants as formulas;
ghost use Rattle.vx_table.specs.declared.rows.Coding.TheVariants as codings;
ghost use Rattle.vx_table.specs.declared.rows.Limits.TheVariants as ranges;
ghost use Rattle.vx_table.specs.declared.rows.Fault.TheVariants as faults;
ghost use Rattle.vx_table.specs.inner.ByType.{term_of};

use crate::rows;
use std::alloc::AllocError;

/// A type that represents a value.
pub trait Constant<T> {
    /// The value.
    ghost value: { T };

    /// Returns the value.
    fn get() -> T
        ensures { result ≡ value };
}

// ---- terms

/// Stands in place of a field if a term is a written number.
pub const NO_FIELD: u16 = 65535;

/// Returns the term that two numbers of a type represent.
#[inline(always)]
fn term(of: u16, number: u32) -> rows::Term
    ensures { result ≡ term_of of number }
{
    if of == NO_FIELD {
        return rows::Term::Number(number);
    }
    rows::Term::Latest(of)
}

// ---- formulas

/// A single term.
#[derive(Clone, Copy)]
pub struct Plain<const A_OF: u16, const A: u32>;

impl<const A_OF: u16, const A: u32> Constant<rows::Formula> for Plain<A_OF, A> {
    ghost value = { formulas.Plain (term_of A_OF A) };

    #[inline(always)]
    fn get() -> rows::Formula {
        rows::Formula::Plain(term(A_OF, A))
    }
}

/// A sum.
#[derive(Clone, Copy)]
pub struct Plus<const A_OF: u16, const A: u32, const B_OF: u16, const B: u32>;

impl<const A_OF: u16, const A: u32, const B_OF: u16, const B: u32> Constant<rows::Formula>
    for Plus<A_OF, A, B_OF, B> {
    ghost value = { formulas.Plus (term_of A_OF A) (term_of B_OF B) };

    #[inline(always)]
    fn get() -> rows::Formula {
        rows::Formula::Plus(term(A_OF, A), term(B_OF, B))
    }
}

/// A difference.
#[derive(Clone, Copy)]
pub struct Minus<const A_OF: u16, const A: u32, const B_OF: u16, const B: u32>;

impl<const A_OF: u16, const A: u32, const B_OF: u16, const B: u32> Constant<rows::Formula>
    for Minus<A_OF, A, B_OF, B> {
    ghost value = { formulas.Minus (term_of A_OF A) (term_of B_OF B) };

    #[inline(always)]
    fn get() -> rows::Formula {
        rows::Formula::Minus(term(A_OF, A), term(B_OF, B))
    }
}

/// A product.
#[derive(Clone, Copy)]
pub struct Times<const A_OF: u16, const A: u32, const B_OF: u16, const B: u32>;

impl<const A_OF: u16, const A: u32, const B_OF: u16, const B: u32> Constant<rows::Formula>
    for Times<A_OF, A, B_OF, B> {
    ghost value = { formulas.Times (term_of A_OF A) (term_of B_OF B) };

    #[inline(always)]
    fn get() -> rows::Formula {
        rows::Formula::Times(term(A_OF, A), term(B_OF, B))
    }
}

/// A quotient, rounded up.
#[derive(Clone, Copy)]
pub struct Quotient<const A_OF: u16, const A: u32, const B_OF: u16, const B: u32>;

impl<const A_OF: u16, const A: u32, const B_OF: u16, const B: u32> Constant<rows::Formula>
    for Quotient<A_OF, A, B_OF, B> {
    ghost value = { formulas.Quotient (term_of A_OF A) (term_of B_OF B) };

    #[inline(always)]
    fn get() -> rows::Formula {
        rows::Formula::Quotient(term(A_OF, A), term(B_OF, B))
    }
}

/// The lesser of two.
#[derive(Clone, Copy)]
pub struct Least<const A_OF: u16, const A: u32, const B_OF: u16, const B: u32>;

impl<const A_OF: u16, const A: u32, const B_OF: u16, const B: u32> Constant<rows::Formula>
    for Least<A_OF, A, B_OF, B> {
    ghost value = { formulas.Least (term_of A_OF A) (term_of B_OF B) };

    #[inline(always)]
    fn get() -> rows::Formula {
        rows::Formula::Least(term(A_OF, A), term(B_OF, B))
    }
}

/// A power of two.
#[derive(Clone, Copy)]
pub struct PowerOfTwo<const A_OF: u16, const A: u32>;

impl<const A_OF: u16, const A: u32> Constant<rows::Formula> for PowerOfTwo<A_OF, A> {
    ghost value = { formulas.PowerOfTwo (term_of A_OF A) };

    #[inline(always)]
    fn get() -> rows::Formula {
        rows::Formula::PowerOfTwo(term(A_OF, A))
    }
}

/// A logarithm, rounded up.
#[derive(Clone, Copy)]
pub struct CeilLog2<const A_OF: u16, const A: u32>;

impl<const A_OF: u16, const A: u32> Constant<rows::Formula> for CeilLog2<A_OF, A> {
    ghost value = { formulas.CeilLog2 (term_of A_OF A) };

    #[inline(always)]
    fn get() -> rows::Formula {
        rows::Formula::CeilLog2(term(A_OF, A))
    }
}

/// A test whether two terms are equal.
#[derive(Clone, Copy)]
pub struct Equal<const A_OF: u16, const A: u32, const B_OF: u16, const B: u32>;

impl<const A_OF: u16, const A: u32, const B_OF: u16, const B: u32> Constant<rows::Formula>
    for Equal<A_OF, A, B_OF, B> {
    ghost value = { formulas.Equal (term_of A_OF A) (term_of B_OF B) };

    #[inline(always)]
    fn get() -> rows::Formula {
        rows::Formula::Equal(term(A_OF, A), term(B_OF, B))
    }
}

/// A test whether two terms differ.
#[derive(Clone, Copy)]
pub struct Differs<const A_OF: u16, const A: u32, const B_OF: u16, const B: u32>;

impl<const A_OF: u16, const A: u32, const B_OF: u16, const B: u32> Constant<rows::Formula>
    for Differs<A_OF, A, B_OF, B> {
    ghost value = { formulas.Differs (term_of A_OF A) (term_of B_OF B) };

    #[inline(always)]
    fn get() -> rows::Formula {
        rows::Formula::Differs(term(A_OF, A), term(B_OF, B))
    }
}

/// A test whether the first term is below the second.
#[derive(Clone, Copy)]
pub struct Below<const A_OF: u16, const A: u32, const B_OF: u16, const B: u32>;

impl<const A_OF: u16, const A: u32, const B_OF: u16, const B: u32> Constant<rows::Formula>
    for Below<A_OF, A, B_OF, B> {
    ghost value = { formulas.Below (term_of A_OF A) (term_of B_OF B) };

    #[inline(always)]
    fn get() -> rows::Formula {
        rows::Formula::Below(term(A_OF, A), term(B_OF, B))
    }
}

/// A test whether the first term is at most the second.
#[derive(Clone, Copy)]
pub struct AtMost<const A_OF: u16, const A: u32, const B_OF: u16, const B: u32>;

impl<const A_OF: u16, const A: u32, const B_OF: u16, const B: u32> Constant<rows::Formula>
    for AtMost<A_OF, A, B_OF, B> {
    ghost value = { formulas.AtMost (term_of A_OF A) (term_of B_OF B) };

    #[inline(always)]
    fn get() -> rows::Formula {
        rows::Formula::AtMost(term(A_OF, A), term(B_OF, B))
    }
}

/// A test whether neither term is 0.
#[derive(Clone, Copy)]
pub struct Both<const A_OF: u16, const A: u32, const B_OF: u16, const B: u32>;

impl<const A_OF: u16, const A: u32, const B_OF: u16, const B: u32> Constant<rows::Formula>
    for Both<A_OF, A, B_OF, B> {
    ghost value = { formulas.Both (term_of A_OF A) (term_of B_OF B) };

    #[inline(always)]
    fn get() -> rows::Formula {
        rows::Formula::Both(term(A_OF, A), term(B_OF, B))
    }
}

/// A test whether at least one term isn't 0.
#[derive(Clone, Copy)]
pub struct Either<const A_OF: u16, const A: u32, const B_OF: u16, const B: u32>;

impl<const A_OF: u16, const A: u32, const B_OF: u16, const B: u32> Constant<rows::Formula>
    for Either<A_OF, A, B_OF, B> {
    ghost value = { formulas.Either (term_of A_OF A) (term_of B_OF B) };

    #[inline(always)]
    fn get() -> rows::Formula {
        rows::Formula::Either(term(A_OF, A), term(B_OF, B))
    }
}

// ---- ranges

/// The fault of a broken range without a name.
#[derive(Clone, Copy)]
pub struct OutOfRange;

impl Constant<rows::Fault> for OutOfRange {
    ghost value = { faults.OutOfRange };

    #[inline(always)]
    fn get() -> rows::Fault {
        rows::Fault::OutOfRange
    }
}

/// A rule on profiles, for a value outside a range.
#[derive(Clone, Copy)]
pub struct Profile<const CODE: u8>;

impl<const CODE: u8> Constant<rows::Fault> for Profile<CODE> {
    ghost value = { faults.Profile CODE };

    #[inline(always)]
    fn get() -> rows::Fault {
        rows::Fault::Profile(CODE)
    }
}

/// A limit, for a value outside a range.
#[derive(Clone, Copy)]
pub struct Limit<const CODE: u8>;

impl<const CODE: u8> Constant<rows::Fault> for Limit<CODE> {
    ghost value = { faults.Limit CODE };

    #[inline(always)]
    fn get() -> rows::Fault {
        rows::Fault::Limit(CODE)
    }
}

/// A rule on structures, for a value outside a range.
#[derive(Clone, Copy)]
pub struct Structure<const CODE: u8>;

impl<const CODE: u8> Constant<rows::Fault> for Structure<CODE> {
    ghost value = { faults.Structure CODE };

    #[inline(always)]
    fn get() -> rows::Fault {
        rows::Fault::Structure(CODE)
    }
}

/// The range from `LOW` to the first argument; the second is the fault of any other value.
pub struct InRange<const LOW: i32, H, F>(pub H, pub F);

impl<const LOW: i32, H: Copy, F: Copy> Copy for InRange<LOW, H, F> {}

impl<const LOW: i32, H: Copy, F: Copy> Clone for InRange<LOW, H, F> {
    ghost is_clone = { λ x y. y ≡ x };

    ghost is_infallible = { λ _. ⊤ };

    fn clone(&self) -> Result<Self, AllocError> {
        Ok(*self)
    }
}

impl<const LOW: i32, H: Constant<rows::Formula>, F: Constant<rows::Fault>> Constant<
    rows::Limits<rows::Formula>,
> for InRange<LOW, H, F> {
    ghost value = { ranges.Within LOW H.value F.value };

    #[inline(always)]
    fn get() -> rows::Limits<rows::Formula> {
        rows::Limits::Within {
            low: LOW,
            high: H::get(),
            fault: F::get(),
        }
    }
}

/// The range from 0 to below the first argument; the second is the fault of any other value.
pub struct BelowBound<B, F>(pub B, pub F);

impl<B: Copy, F: Copy> Copy for BelowBound<B, F> {}

impl<B: Copy, F: Copy> Clone for BelowBound<B, F> {
    ghost is_clone = { λ x y. y ≡ x };

    ghost is_infallible = { λ _. ⊤ };

    fn clone(&self) -> Result<Self, AllocError> {
        Ok(*self)
    }
}

impl<B: Constant<rows::Formula>, F: Constant<rows::Fault>> Constant<rows::Limits<rows::Formula>>
    for BelowBound<B, F> {
    ghost value = { ranges.Below B.value F.value };

    #[inline(always)]
    fn get() -> rows::Limits<rows::Formula> {
        rows::Limits::Below {
            bound: B::get(),
            fault: F::get(),
        }
    }
}

// ---- fields and gaps

/// Returns a field without a range, with its coding.
#[inline(always)]
fn any(field: u16, kept: bool, coding: rows::Coding<rows::Formula>) -> rows::Cell<rows::Formula>
    ensures { result ≡ record { field = field; kept = kept; coding = coding; limits = ranges.Any } }
{
    rows::Cell {
        field,
        kept,
        coding,
        limits: rows::Limits::Any,
    }
}

/// `u(n)`.
pub struct Fixed<const FIELD: u16, const KEPT: bool, N>(pub N);

impl<const FIELD: u16, const KEPT: bool, N: Copy> Copy for Fixed<FIELD, KEPT, N> {}

impl<const FIELD: u16, const KEPT: bool, N: Copy> Clone for Fixed<FIELD, KEPT, N> {
    ghost is_clone = { λ x y. y ≡ x };

    ghost is_infallible = { λ _. ⊤ };

    fn clone(&self) -> Result<Self, AllocError> {
        Ok(*self)
    }
}

impl<const FIELD: u16, const KEPT: bool, N: Constant<rows::Formula>> Constant<
    rows::Cell<rows::Formula>,
> for Fixed<FIELD, KEPT, N> {
    ghost value = { record { field = FIELD; kept = KEPT; coding = codings.Fixed N.value; limits = ranges.Any } };

    #[inline(always)]
    fn get() -> rows::Cell<rows::Formula> {
        any(FIELD, KEPT, rows::Coding::Fixed(N::get()))
    }
}

/// `ue(v)`.
#[derive(Clone, Copy)]
pub struct Golomb<const FIELD: u16, const KEPT: bool>;

impl<const FIELD: u16, const KEPT: bool> Constant<rows::Cell<rows::Formula>>
    for Golomb<FIELD, KEPT> {
    ghost value = { record { field = FIELD; kept = KEPT; coding = codings.Golomb; limits = ranges.Any } };

    #[inline(always)]
    fn get() -> rows::Cell<rows::Formula> {
        any(FIELD, KEPT, rows::Coding::Golomb)
    }
}

/// `se(v)`.
#[derive(Clone, Copy)]
pub struct SignedGolomb<const FIELD: u16, const KEPT: bool>;

impl<const FIELD: u16, const KEPT: bool> Constant<rows::Cell<rows::Formula>>
    for SignedGolomb<FIELD, KEPT> {
    ghost value = { record { field = FIELD; kept = KEPT; coding = codings.SignedGolomb; limits = ranges.Any } };

    #[inline(always)]
    fn get() -> rows::Cell<rows::Formula> {
        any(FIELD, KEPT, rows::Coding::SignedGolomb)
    }
}

/// Zero bits up to the byte boundary.
#[derive(Clone, Copy)]
pub struct Zeros<const FIELD: u16, const KEPT: bool>;

impl<const FIELD: u16, const KEPT: bool> Constant<rows::Cell<rows::Formula>>
    for Zeros<FIELD, KEPT> {
    ghost value = { record { field = FIELD; kept = KEPT; coding = codings.Zeros; limits = ranges.Any } };

    #[inline(always)]
    fn get() -> rows::Cell<rows::Formula> {
        any(FIELD, KEPT, rows::Coding::Zeros)
    }
}

/// A one, and zeros up to the byte boundary.
#[derive(Clone, Copy)]
pub struct OneAndZeros<const FIELD: u16, const KEPT: bool>;

impl<const FIELD: u16, const KEPT: bool> Constant<rows::Cell<rows::Formula>>
    for OneAndZeros<FIELD, KEPT> {
    ghost value = { record { field = FIELD; kept = KEPT; coding = codings.OneAndZeros; limits = ranges.Any } };

    #[inline(always)]
    fn get() -> rows::Cell<rows::Formula> {
        any(FIELD, KEPT, rows::Coding::OneAndZeros)
    }
}

/// A one, and zeros up to the byte boundary, at which the bits end.
#[derive(Clone, Copy)]
pub struct Trailing<const FIELD: u16, const KEPT: bool>;

impl<const FIELD: u16, const KEPT: bool> Constant<rows::Cell<rows::Formula>>
    for Trailing<FIELD, KEPT> {
    ghost value = { record { field = FIELD; kept = KEPT; coding = codings.Trailing; limits = ranges.Any } };

    #[inline(always)]
    fn get() -> rows::Cell<rows::Formula> {
        any(FIELD, KEPT, rows::Coding::Trailing)
    }
}

/// No bits: a field that is absent but counts, with value 0, among the kept ones.
#[derive(Clone, Copy)]
pub struct Absent<const FIELD: u16, const KEPT: bool>;

impl<const FIELD: u16, const KEPT: bool> Constant<rows::Cell<rows::Formula>>
    for Absent<FIELD, KEPT> {
    ghost value = { record { field = FIELD; kept = KEPT; coding = codings.Absent; limits = ranges.Any } };

    #[inline(always)]
    fn get() -> rows::Cell<rows::Formula> {
        any(FIELD, KEPT, rows::Coding::Absent)
    }
}

/// No bits: the structure is refused here.
#[derive(Clone, Copy)]
pub struct Refused<const FIELD: u16, const KEPT: bool>;

impl<const FIELD: u16, const KEPT: bool> Constant<rows::Cell<rows::Formula>>
    for Refused<FIELD, KEPT> {
    ghost value = { record { field = FIELD; kept = KEPT; coding = codings.Refused; limits = ranges.Any } };

    #[inline(always)]
    fn get() -> rows::Cell<rows::Formula> {
        any(FIELD, KEPT, rows::Coding::Refused)
    }
}

/// A field with a range: the first argument with the second as its range.
pub struct Limited<C, L>(pub C, pub L);

impl<C: Copy, L: Copy> Copy for Limited<C, L> {}

impl<C: Copy, L: Copy> Clone for Limited<C, L> {
    ghost is_clone = { λ x y. y ≡ x };

    ghost is_infallible = { λ _. ⊤ };

    fn clone(&self) -> Result<Self, AllocError> {
        Ok(*self)
    }
}

impl<C: Constant<rows::Cell<rows::Formula>>, L: Constant<rows::Limits<rows::Formula>>> Constant<
    rows::Cell<rows::Formula>,
> for Limited<C, L> {
    ghost value = { record { field = C.value.field; kept = C.value.kept; coding = C.value.coding; limits = L.value } };

    #[inline(always)]
    fn get() -> rows::Cell<rows::Formula> {
        rows::Cell {
            limits: L::get(),
            ..C::get()
        }
    }
}
