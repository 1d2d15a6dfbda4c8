//! The version of the C interface.
ghost use Rattle.std.specs.Prelude.{◌≡◌};

/// The version of the interface. It rises with each change that a caller can see.
const VERSION: u32 = 1;

/// Returns the version of the interface that the library has.
#[unsafe(no_mangle)]
pub extern "C" fn gq_version() -> u32
    ensures { result ≡ VERSION }
{
    VERSION
}
