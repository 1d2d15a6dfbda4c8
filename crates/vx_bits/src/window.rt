//! A window of bits over bytes, filled with whole bytes.
ghost use Rattle.std.specs.Prelude.{◌≡◌, ◌+◌, ◌*◌, ◌<◌, ◌≤◌, length, take, drop};
ghost use Rattle.vx_bits.specs.Codes.{number, bits_of};
ghost use Rattle.vx_bits.specs.inner.Window.{bits_ahead, IsWindow};
ghost use Rattle.vx_bits.specs.Limits.{unit_limit};

/// The next `held` bits as a number, and the index of the first byte after them.
#[derive(Clone, Copy)]
pub(crate) struct Window {
    pub(crate) word: u64,
    pub(crate) held: u32,
    pub(crate) next: u32,
}

/// Returns the window filled with further bytes if it holds fewer than `count` bits.
#[inline(always)]
pub(crate) fn filled(bytes: &[u8], window: Window, count: u32) -> Window
    requires count { count ≤ 32 }
    requires length { length bytes.now ≤ unit_limit }
    requires sound { IsWindow bytes.now window }
    requires within { count ≤ length (bits_ahead bytes.now window) }
    ensures same { bits_ahead bytes.now result ≡ bits_ahead bytes.now window }
    ensures sound { IsWindow bytes.now result }
    ensures enough { count ≤ result.held }
{
    if count <= window.held {
        return window;
    }
    match bytes[window.next as usize..].first_chunk::<8>() {
        Some(eight) => with_some_of(bytes, window, u64::from_be_bytes(*eight)),
        None => with_bytes(bytes, window, count),
    }
}

/// Returns the window with as many of the next eight bytes as it has room for.
#[inline(always)]
fn with_some_of(bytes: &[u8], window: Window, eight: u64) -> Window
    requires sound { IsWindow bytes.now window }
    requires room { window.held < 32 }
    requires within { window.next + 8 ≤ length bytes.now }
    requires length { length bytes.now ≤ unit_limit }
    requires eight { eight ≡ number (bits_of (take 8 (drop window.next bytes.now))) }
    ensures same { bits_ahead bytes.now result ≡ bits_ahead bytes.now window }
    ensures sound { IsWindow bytes.now result }
    ensures enough { 32 ≤ result.held }
{
    let count = (63 - window.held) / 8;
    Window {
        word: (window.word << (8 * count)) + (eight >> (64 - 8 * count)),
        held: window.held + 8 * count,
        next: window.next + count,
    }
}

/// Returns the window with as many further bytes as it needs to hold `count` bits.
fn with_bytes(bytes: &[u8], window: Window, count: u32) -> Window
    requires count { count ≤ 32 }
    requires length { length bytes.now ≤ unit_limit }
    requires sound { IsWindow bytes.now window }
    requires within { count ≤ length (bits_ahead bytes.now window) }
    ensures same { bits_ahead bytes.now result ≡ bits_ahead bytes.now window }
    ensures sound { IsWindow bytes.now result }
    ensures enough { count ≤ result.held }
{
    let Window {
        mut word,
        mut held,
        mut next,
    } = window;
    while held < count {
        word = word * 256 + u64::from(bytes[next as usize]);
        held += 8;
        next += 1;
    }
    Window { word, held, next }
}
