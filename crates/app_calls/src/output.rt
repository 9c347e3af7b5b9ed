//! What a call leaves behind: a text in the caller's buffer, and its size.

ghost use Rattle.std.specs.Prelude.{◌≡◌, ◌≤◌, ◌<◌, length, take};
ghost use Rattle.app_calls.specs.Calls.{HasText, LeavesBehind};

use crate::statuses::NO_ROOM;

/// How large a text is.
#[repr(C)]
#[derive(Clone, Copy)]
pub struct Sizes {
    /// How many bytes of the buffer were written, from its beginning: all of the text, or none.
    pub written: usize,
    /// How many bytes the text has.
    pub needed: usize,
}

impl Sizes {
    /// Those of no text.
    pub fn none() -> Sizes
        ensures written { result.written ≡ 0 }
        ensures needed { result.needed ≡ 0 }
    {
        Sizes {
            written: 0,
            needed: 0,
        }
    }
}

/// Writes a text to the beginning of a buffer and answers its status, or writes nothing and answers `NO_ROOM` where the buffer
/// is too small.
pub fn hand_over(status: u32, text: &str, out: &mut [u8], sizes: &mut Sizes) -> u32
    requires { HasText status }
    ensures room { length text.now ≤ length out.old → result ≡ status }
    ensures written { length text.now ≤ length out.old → take (length text.now) out.new ≡ text.now }
    ensures short { length out.old < length text.now → result ≡ NO_ROOM }
    ensures needed { sizes.new.needed ≡ length text.now }
    ensures left { LeavesBehind out.old out.new sizes.new result }
{
    let needed = text.len();
    if out.len() < needed {
        *sizes = Sizes { written: 0, needed };
        return NO_ROOM;
    }
    *sizes = Sizes {
        written: needed,
        needed,
    };
    let (begin, _) = out.split_at_mut(needed);
    begin.copy_from_slice(text.as_bytes());
    status
}
