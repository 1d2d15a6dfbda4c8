//! Feeds over streams in memory.
ghost use Rattle.std.specs.Prelude.{ℕ, suc, List, IfOk, OnOk};
ghost use Rattle.std.specs.List.{AllZip};
ghost use Rattle.vx_pic.specs.H266.{AreOfH266};
ghost use Rattle.vx_pic.specs.Readings.{Picture};
ghost use Rattle.vx_pic.specs.Rules.{Readers};
ghost use Rattle.vx_trial.specs.inner.Feeds.{AllWait, IsUnfed, Lends, Waits};

use crate::outcome::to_picture;
use std::alloc::{AllocError, Global};
use vx_assemble::MemoryFeed;
use vx_bits::Bytes;

/// Makes a feed over each stream.
pub(crate) fn feeds_over(alloc: Global, streams: &[Bytes]) -> Result<Vec<MemoryFeed>, AllocError>
    ensures { IfOk result (λ feeds. AllZip IsUnfed feeds.items streams.now) }
{
    let mut feeds = Vec::new(alloc);
    for stream in streams {
        let feed = MemoryFeed::new(alloc, stream.as_slice())?;
        feeds.push(feed)?;
    }
    Ok(feeds)
}

/// Advances each stream to its next picture. There is one more.
pub(crate) fn next_pictures(feeds: &mut Vec<MemoryFeed>) -> Result<(), AllocError>
    requires { (R : Readers) → AreOfH266 R → AllWait R feeds.old.items }
    ensures { (R : Readers) → AreOfH266 R → (m : ℕ) (sources : List (List Picture))
        → AllZip (Waits R (suc m)) feeds.old.items sources → OnOk result (AllZip (Lends R m) feeds.new.items sources) }
{
    for k in 0..feeds.len() {
        next_picture(&mut feeds[k])?;
    }
    Ok(())
}

/// Advances a stream to its next picture. There is one more.
pub(crate) fn next_picture(feed: &mut MemoryFeed) -> Result<(), AllocError>
    requires { (R : Readers) → AreOfH266 R → (m : ℕ) × (ps : List Picture) × Waits R (suc m) feed.old ps }
    ensures { (R : Readers) → AreOfH266 R → (m : ℕ) (ps : List Picture) → Waits R (suc m) feed.old ps
        → OnOk result (Lends R m feed.new ps) }
{
    to_picture(feed.advance())
}
