//! Results for streams and pictures that break no rule: only memory can be lacking.
ghost use Rattle.std.specs.Prelude.{◌≡◌, Ok, OnOk};
ghost use Rattle.vx_assemble.specs.declared.feed.Step.TheVariants as steps;
ghost use Rattle.vx_trial.specs.inner.Feeds.{IsToPicture, IsUnbarred};

use std::alloc::AllocError;
use vx_assemble::{AssembleFault, Step};
use vx_write::WriteError;

/// Returns the result of a feed that has another picture.
pub(crate) fn to_picture(step: Result<Step, AssembleFault>) -> Result<(), AllocError>
    requires { IsToPicture step }
    ensures { OnOk result (step ≡ Ok steps.Picture) }
{
    match step {
        Ok(Step::Picture) => Ok(()),
        Err(AssembleFault::Memory) => Err(AllocError),
        Ok(Step::End) | Err(AssembleFault::Refused(_) | AssembleFault::Stopped(_)) =>
            unreachable!(),
    }
}

/// Returns the result of writing a picture that breaks no rule to memory.
pub(crate) fn to_memory(written: Result<(), WriteError>) -> Result<(), AllocError>
    requires { IsUnbarred written }
    ensures { OnOk result (written ≡ Ok tt) }
{
    match written {
        Ok(()) => Ok(()),
        Err(WriteError::Memory | WriteError::SinkFailed) => Err(AllocError),
        Err(WriteError::Refused(_) | WriteError::Stopped(_)) => unreachable!(),
    }
}
