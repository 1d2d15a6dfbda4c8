//! The handle that C holds of a merger or an extractor.
ghost use Rattle.std.specs.Prelude.{◌≡◌, Option, Some, None};
ghost use Rattle.std.specs.Option.{MatchOption};
ghost use Rattle.vx_c.specs.declared.state.State.{State as Stated};

use crate::loose::Loose;
use crate::state::State;
use std::alloc::Global;
use std::marker::Model;
use std::mem;
use std::ptr::null_mut;

/// What C holds: a merger, an extractor, or nothing. All zeros is a closed handle, which holds nothing.
///
/// It may move from one thread to another (`Send`).
#[repr(C)]
pub struct Handle {
    at: *mut u8,
    live: bool,
    ghost state: { Option Stated },
}

impl Model for Handle {
    ghost use Rattle.vx_c.specs.Handles.{owned};

    ghost also_owns = { λ h. owned h.at h.live h.state };
}

impl Handle {
    /// Returns a closed handle.
    pub(crate) fn none() -> Handle
        ensures { result.state ≡ None }
    {
        Handle {
            at: null_mut(),
            live: false,
        }
    }

    /// Returns a handle that holds what is in the box.
    fn of(state: Loose<State, Global>) -> Handle
        ensures { result.state ≡ Some state.value }
    {
        let Loose { at, alloc: _ } = state;
        Handle {
            at: at.cast(),
            live: true,
        }
    }

    /// Returns the box of what it holds, if it holds something.
    fn into_loose(self, alloc: Global) -> Option<Loose<State, Global>>
        ensures { MatchOption result (self.state ≡ None) (λ loose. self.state ≡ Some loose.value) }
    {
        let Handle { at, live } = self;
        if live {
            Some(Loose {
                at: at.cast(),
                alloc,
            })
        } else {
            None
        }
    }

    /// Returns the box of what it holds, put together again.
    pub(crate) fn into_box(self, alloc: Global) -> Option<Box<State>>
        ensures { MatchOption result (self.state ≡ None) (λ state. self.state ≡ Some state.value) }
    {
        match self.into_loose(alloc) {
            Some(loose) => Some(loose.into_box()),
            None => None,
        }
    }

    /// Takes what it holds, and leaves it closed.
    pub(crate) fn take(&mut self, alloc: Global) -> Option<Box<State>>
        ensures closed { self.new.state ≡ None }
        ensures taken { MatchOption result (self.old.state ≡ None) (λ state. self.old.state ≡ Some state.value) }
    {
        mem::replace(self, Handle::none()).into_box(alloc)
    }

    /// Makes it hold what is in the box, and drops what it held before.
    pub(crate) fn put(&mut self, state: Box<State>, alloc: Global)
        ensures { self.new.state ≡ Some state.value }
    {
        let before = mem::replace(self, Handle::of(Loose::of(state)));
        drop(before.into_box(alloc));
    }
}

/// A handle may move from one thread to another because what it holds may: `both_go`.
unsafe impl Send for Handle {}

/// Accepts only values that may move from one thread to another.
fn goes<T: Send>(_value: &T) {}

/// Shows that a handle, and what it holds, may move from one thread to another.
fn both_go(handle: &Handle, state: &State) {
    goes(handle);
    goes(state);
}

/// Makes a closed handle hold the box that `$made` gives. `MISUSED` if it gives none, or if the handle is open.
macro_rules! open_with {
    ($handle:ident, $alloc:ident, $made:expr) => {{
        if let Some(state) = $handle.take($alloc) {
            $handle.put(state, $alloc);
            return MISUSED;
        }
        match $made {
            Ok(Some(state)) => {
                $handle.put(state, $alloc);
                DONE
            }
            Ok(None) => MISUSED,
            Err(_) => NO_MEMORY,
        }
    }};
}

/// Calls `$call` on what the handle holds if that is of this kind; otherwise returns `$other`.
macro_rules! call_on {
    ($handle:ident, $alloc:ident, $kind:ident, $other:expr, |$of:ident| $call:expr) => {{
        let Some(mut state) = $handle.take($alloc) else {
            return $other;
        };
        let answer = match &mut *state {
            State::$kind($of) => $call,
            _ => $other,
        };
        $handle.put(state, $alloc);
        answer
    }};
}

pub(crate) use call_on;
pub(crate) use open_with;
