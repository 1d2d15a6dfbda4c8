//! The C library `libgoosequince`: mergers, extractors and `gq_run` for C, and for languages that call C.
//!
//! Its interface is the header `include/goosequince.h`. The exports are in `merger`, `extractor`, `whole` and `version`. They require
//! nothing of their arguments: misuse returns a status. A [`Handle`](handle::Handle) holds a merger, an extractor, or nothing.
//!
//! Definitions in `specs`: `Handles` and `Call` for handles, `Merger` and `Extractor` for their calls, `InMemory` for `gq_run`.
#![tactic(auto)]

mod corners;
mod extractor;
mod handle;
mod line;
mod loose;
mod memory;
mod merger;
mod picture;
mod state;
mod status;
mod version;
mod whole;
