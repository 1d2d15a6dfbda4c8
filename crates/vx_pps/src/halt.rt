//! The reasons why a walk over a picture parameter set ends before its form does.
ghost use Rattle.std.specs.Prelude.{◌≡◌};

use std::alloc::AllocError;
use vx_table::{SpellError, only_memory};

/// The reason why a walk ends before its form does.
pub enum Halt<E> {
    /// Memory ran out.
    Memory,
    /// The coder refuses a field, with this error.
    Refused(E),
}

/// Returns the only error of a walk over items that are a set: memory ran out.
pub(crate) fn memory_of(halt: Halt<SpellError>) -> AllocError
    requires { halt ≡ Halt.Refused SpellError.NoValue → ⊥ }
{
    match halt {
        Halt::Memory => AllocError,
        Halt::Refused(error) => only_memory(error),
    }
}
