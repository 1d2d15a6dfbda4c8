//! Laws of how a command ends. Each function does nothing and has its law as its contract.

ghost use Rattle.vx_run.specs.Merge.{EndsOnce};
ghost use Rattle.vx_run.specs.Play.{PlayEndsOnce};
ghost use Rattle.vx_run.specs.Verify.{VerifyEndsOnce};
ghost use Rattle.vx_run.specs.laws.Status.{Status2IsExact, StatusIsExact, TooManyAreRefused};

/// If a run ends, then its status is 2 if and only if its arguments are not understood.
pub fn status_2_is_exact<A, K, E>()
    ensures { Status2IsExact A K E }
{}

/// Without faults and lack of memory, the status is 0 if the command can be done, and 1 otherwise.
///
/// More exactly: if no read and no write failed and the status isn't 4, then it is 0 if and only if the command can be done. The law is
/// about arguments that are understood and place no more files or regions than there may be, and about sources whose bytes the contracts
/// know. "Can be done" is what `HasStatus` says for each command.
pub fn status_is_exact<A, K, E>()
    ensures { StatusIsExact A K E }
{}

/// If more files or regions are placed than there may be, then the status is 1, or 4 for lack of memory.
pub fn too_many_are_refused<A, K, E>()
    ensures { TooManyAreRefused A K E }
{}

/// If a merge of streams ends in two ways, then both have the same rounds and the same outcome.
pub fn merge_ends_once()
    ensures { EndsOnce }
{}

/// If playing files ends in two ways, then both have the same rounds and the same outcome.
pub fn play_ends_once()
    ensures { PlayEndsOnce }
{}

/// If verifying streams ends in two ways, then both have equally many rounds and the same outcome.
pub fn verify_ends_once()
    ensures { VerifyEndsOnce }
{}
