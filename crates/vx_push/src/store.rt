//! A picture of output, until it is taken.
ghost use Rattle.std.specs.Prelude.{◌≡◌, ◌⊎◌, ◌<◌, ◌++◌, [], length, drop, Some, None, IfSome, OnSome, IfNone};

use std::alloc::Global;
use vx_io::GrowSink;
use vx_pic::Kind;

/// A picture of output: its number, its length and its kind.
#[derive(Clone, Copy, PartialEq, Eq)]
pub struct WrittenPicture {
    /// Its number, from 0, among the rounds of a merge or the pictures of a cutter's source, kept or not.
    pub number: u64,
    /// How many bytes it has.
    pub bytes: usize,
    /// Its kind in its stream.
    pub kind: Kind,
}

/// Holds a picture of output and its kind until the picture is taken.
pub(crate) struct Store {
    pub(crate) alloc: Global,
    pub(crate) written: GrowSink,
    pub(crate) held: Option<Kind>,
}

impl Drop for Store {
    fn drop(self) {
        let Store {
            alloc: _,
            written: _,
            held: _,
        } = self;
    }
}

impl Store {
    /// Makes a store that holds no picture.
    pub(crate) fn new(alloc: Global) -> Store
        ensures written { result.written.taken ≡ [] }
        ensures held { result.held ≡ None }
    {
        Store {
            alloc,
            written: GrowSink::new(alloc),
            held: None,
        }
    }

    /// Returns the picture that it holds, under this number.
    pub(crate) fn picture(&self, number: u64) -> Option<WrittenPicture>
        ensures some { IfSome result (λ p. (self.now.held ≡ Some p.kind) × (p.number ≡ number) × (p.bytes ≡ length self.now.written.taken)) }
        ensures none { IfNone result (self.now.held ≡ None) }
    {
        let kind = self.held?;
        Some(WrittenPicture {
            number,
            bytes: self.written.bytes().len(),
            kind,
        })
    }

    /// Copies the picture's bytes to the beginning of `into`, returns how many they are, and gives the picture up.
    ///
    /// Returns `None` and changes nothing if it holds no picture, or if `into` is too short.
    pub(crate) fn take(&mut self, into: &mut [u8]) -> Option<usize>
        ensures taken { IfSome result (λ n. (n ≡ length self.old.written.taken) × (into.new ≡ self.old.written.taken ++ drop n into.old)) }
        ensures went { OnSome result ((self.new.held ≡ None) × (self.new.written.taken ≡ [])) }
        ensures none { IfNone result ((self.old.held ≡ None) ⊎ (length into.old < length self.old.written.taken)) }
        ensures kept { IfNone result ((self.new ≡ self.old) × (into.new ≡ into.old)) }
        ensures store { (self.new ≡ self.old) ⊎ ((self.new.held ≡ None) × (self.new.written.taken ≡ [])) }
    {
        let count = self.written.bytes().len();
        if self.held.is_none() || into.len() < count {
            return None;
        }
        into[..count].copy_from_slice(self.written.bytes());
        self.written = GrowSink::new(self.alloc);
        self.held = None;
        Some(count)
    }
}
