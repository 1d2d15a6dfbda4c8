//! Laws of generated streams and of their merge. Each function does nothing and has its law as its contract.
ghost use Rattle.vx_trial.specs.inner.Laws.{GeneratedCanBeTried, TriedAreReadAgain};

use vx_gen::{generated_are_merged, generated_are_not_barred, generated_are_read};

/// If streams are generated, then they can be merged side by side.
pub(crate) fn generated_can_be_tried()
    ensures { GeneratedCanBeTried }
{
    generated_are_read();
    generated_are_not_barred();
}

/// If generated streams are merged, then the merge is read again, and its regions can be extracted.
pub(crate) fn tried_are_read_again()
    ensures { TriedAreReadAgain }
{
    generated_are_merged();
}
