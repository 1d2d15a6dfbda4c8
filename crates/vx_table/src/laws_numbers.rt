//! Laws of the numbers of formulas. A law is a function that does nothing; its contract states it.
ghost use Rattle.vx_table.specs.Scope.{CeilLog2IsLeast};

/// Ceil(Log2(n)) is the least k for which 2^k is not below n.
pub fn ceil_log2_is_least()
    ensures { CeilLog2IsLeast }
{}
