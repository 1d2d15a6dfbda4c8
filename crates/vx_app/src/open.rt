//! Opening the files that the arguments name.

ghost use Rattle.std.specs.Prelude.{ℕ, List, Option as OptionOf, IfOk, vec_len};
ghost use Rattle.vx_app.specs.Opened.{AreOpened};
ghost use Rattle.vx_run.specs.Grammar.{NamesFiles, texts};

use crate::opened::Opened;
use std::alloc::{AllocError, Global};
use std::fs::File;
use std::io::{ErrorKind, Read};
use vx_run::{file_count, file_word};

/// Opens files by their names.
pub(crate) trait Opener {
    /// A file that was opened.
    type File: Read + Drop;

    // Which results opening the file of a name may have: a file that can be read, or none.
    ghost opens: { Self → List ℕ → OptionOf Self.File → Type 0 };

    /// Opens the file `name`; `None` if it can't be opened.
    ///
    /// *Errors:* [`AllocError`] if there is no memory for it.
    fn open(&self, name: &str) -> Result<Option<Self::File>, AllocError>
        ensures { IfOk result (λ file. opens self.now name.now file) };
}

/// The operating system. Contracts know nothing of its files.
#[derive(Drop)]
pub(crate) struct System<'a> {
    pub rt: &'a HostRuntime,
}

impl Opener for System<'_> {
    type File = File;

    ghost opens = { λ _ _ _. Unit {0} };

    fn open(&self, name: &str) -> Result<Option<File>, AllocError> {
        match File::open(self.rt, name) {
            Ok(file) => Ok(Some(file)),
            Err(error) if error.kind() == ErrorKind::OutOfMemory => Err(AllocError),
            Err(_) => Ok(None),
        }
    }
}

/// Opens the files that the arguments name: one entry for each, in their order.
///
/// There is none if the arguments aren't understood. A file that can't be opened gives a closed source. *Errors:* [`AllocError`] if
/// memory runs out.
pub(crate) fn open_all<O: Opener>(
    alloc: Global,
    opener: &O,
    words: &[String],
) -> Result<Vec<Opened<O::File>>, AllocError>
    ensures opened { IfOk result (λ files. AreOpened (O.opens opener.now) (texts words.now) files.items) }
    ensures count { IfOk result (λ files. NamesFiles (texts words.now) (vec_len files)) }
{
    let mut files = Vec::new(alloc);
    for k in 0..file_count(words) {
        let Some(name) = file_word(words, k) else {
            unreachable!()
        };
        files.push(Opened::new(opener.open(name)?))?;
    }
    Ok(files)
}
