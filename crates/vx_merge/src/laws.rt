//! The law of what is written. The function does nothing and has its law as its contract.
ghost use Rattle.vx_merge.specs.Written.{MergedIsOne};

/// If two plans are the merged picture of a round after the same pictures, then they are equal.
pub fn merged_is_one()
    ensures { MergedIsOne }
{}
