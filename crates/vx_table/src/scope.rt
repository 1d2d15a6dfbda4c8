//! The latest numbers of fields and names, which formulas read.

ghost use Rattle.std.specs.Prelude.{◌≡◌, ℕ, ◌+◌, ◌<◌, ◌≤◌, min, List, slice_index, slice_set, replicate, length};

use crate::arithmetic::{ceil_log2, natural, power_of_two, quotient};
use crate::rows::{Formula, Term};
use std::marker::Model;
use vx_bits::{Fields, Item};

/// The latest number of each field and name, 0 for those that have none. Fields and names are numbers below 1024.
///
/// Copying takes the same time whatever it contains. *Model:* the list of these numbers.
#[derive(Clone, Copy)]
pub struct Scope {
    numbers: [u32; 1024],
}

impl Model for Scope {
    ghost Value = { List ℕ };

    ghost view = { λ s. s.numbers };

    ghost inverse = { λ n. record { numbers = n } };
}

impl Scope {
    ghost use Rattle.std.specs.Prelude.{◌≡◌, ℕ, ◌+◌, ◌<◌, ◌≤◌, min, List, slice_index, slice_set, replicate, length};
    ghost use Rattle.vx_table.specs.Scope.{fresh, latest, value, natural, loaded, joined};
    ghost use Rattle.vx_table.specs.inner.Loading.{loaded_at};

    /// Returns a scope in which every number is 0.
    #[tactic(auto, unfolding(crate::specs::Scope::fresh))]
    pub fn new() -> Scope
        ensures { result ≡ fresh }
    {
        Scope { numbers: [0; 1024] }
    }

    /// Returns the latest number of a field or a name.
    #[inline(always)]
    pub fn latest(&self, of: u16) -> u32
        ensures { result ≡ slice_index self.now of }
    {
        self.numbers.get(usize::from(of)).copied().unwrap_or(0)
    }

    /// Sets the number of a field or a name. A field of 1024 or more is ignored.
    #[tactic(auto, using(std::proofs::lemmas::List::set_past))]
    #[inline(always)]
    pub fn set(&mut self, of: u16, number: u32)
        ensures { self.new ≡ slice_set self.old of number }
    {
        let place = usize::from(of);
        if place < self.numbers.len() {
            self.numbers[place] = number;
        }
    }

    /// Sets the number of each field in `items` to that of its last item.
    pub fn load(&mut self, items: &Fields)
        ensures { self.new ≡ loaded self.old items.now }
    {
        for i in 0..items.len() {
            let item = items.item(i);
            self.set(item.field, natural(item.value));
        }
    }

    /// Copies the numbers of all fields and names from `from` on from another scope.
    pub fn take_over(&mut self, other: &Scope, from: u16)
        ensures { self.new ≡ joined from self.old other.now }
    {
        let from = usize::from(from).min(self.numbers.len());
        self.numbers[from..].copy_from_slice(&other.numbers[from..]);
    }

    /// Sets the numbers of all fields and names from `from` on to 0.
    fn clear_from(&mut self, from: u16)
        requires { from ≤ 1024 }
        ensures numbers { self.new ≡ joined from self.old fresh }
        ensures within { from ≤ length self.old }
    {
        let fresh = Scope::new();
        let from = usize::from(from);
        self.numbers[from..].copy_from_slice(&fresh.numbers[from..]);
    }

    /// Sets the number of an item's field, unless the field is below `from`.
    #[inline(always)]
    fn load_at(&mut self, item: Item, from: u16)
        ensures { self.new ≡ loaded_at from self.old item }
    {
        if item.field < from {
            return;
        }
        self.set(item.field, natural(item.value));
    }

    /// Sets the numbers of all fields from `from` on to those that `items` give, or to 0.
    #[tactic(auto, using(crate::proofs::LoadedFrom::from_first, crate::proofs::LoadedFrom::from_turn, crate::proofs::LoadedFrom::from_all))]
    pub fn load_from(&mut self, items: &Fields, from: u16)
        requires { from ≤ 1024 }
        ensures { self.new ≡ joined from self.old (loaded fresh items.now) }
    {
        self.clear_from(from);
        for i in 0..items.len() {
            self.load_at(items.item(i), from);
        }
    }

    /// Returns the number of a term.
    #[inline(always)]
    fn term(&self, term: Term) -> u32
        ensures { result ≡ latest self.now term }
    {
        match term {
            Term::Number(number) => number,
            Term::Latest(of) => self.latest(of),
        }
    }

    /// Returns the number of a formula; most are terms.
    #[tactic(auto, unfolding(crate::specs::Scope::value))]
    #[inline(always)]
    pub(crate) fn number(&self, formula: &Formula) -> u32
        ensures { result ≡ value self.now formula.now }
    {
        if let Formula::Plain(a) = *formula {
            return self.term(a);
        }
        self.computed(*formula)
    }

    /// Returns the number of any formula, computed out of line. It takes a copy, so that a formula that is known when a
    /// walk is compiled needs no memory.
    #[inline(never)]
    fn computed(&self, formula: Formula) -> u32
        ensures { result ≡ value self.now formula }
    {
        self.number_inlined(&formula)
    }

    /// Returns the number of any formula, computed inline.
    #[tactic(auto, unfolding(crate::specs::Scope::value))]
    #[inline(always)]
    pub(crate) fn number_inlined(&self, formula: &Formula) -> u32
        ensures { result ≡ value self.now formula.now }
    {
        match *formula {
            Formula::Plain(a) => self.term(a),
            Formula::Plus(a, b) => self.term(a).saturating_add(self.term(b)),
            Formula::Minus(a, b) => self.term(a).saturating_sub(self.term(b)),
            Formula::Times(a, b) => self.term(a).saturating_mul(self.term(b)),
            Formula::Quotient(a, b) => quotient(self.term(a), self.term(b)),
            Formula::Least(a, b) => self.term(a).min(self.term(b)),
            Formula::PowerOfTwo(a) => power_of_two(self.term(a)),
            Formula::CeilLog2(a) => ceil_log2(self.term(a)),
            Formula::Equal(a, b) => u32::from(self.term(a) == self.term(b)),
            Formula::Differs(a, b) => u32::from(self.term(a) != self.term(b)),
            Formula::Below(a, b) => u32::from(self.term(a) < self.term(b)),
            Formula::AtMost(a, b) => u32::from(self.term(a) <= self.term(b)),
            Formula::Both(a, b) => u32::from(self.term(a) != 0 && self.term(b) != 0),
            Formula::Either(a, b) => u32::from(self.term(a) != 0 || self.term(b) != 0),
        }
    }
}
