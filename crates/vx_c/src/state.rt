//! What a handle holds.

use vx_push::{Cutter, Mixer};

/// What an open handle holds.
#[derive(Drop)]
pub(crate) enum State {
    /// A merger.
    Merger(Mixer),
    /// An extractor.
    Extractor(Cutter),
}
