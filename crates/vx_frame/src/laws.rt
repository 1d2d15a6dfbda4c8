//! The law of the rules. The function does nothing and has its law as its contract.
ghost use Rattle.vx_frame.specs.Rules.{VerdictIsOne};

/// If there are two verdicts on the same round and number of sources, then they are equal.
pub fn verdict_is_one()
    ensures { VerdictIsOne }
{}
