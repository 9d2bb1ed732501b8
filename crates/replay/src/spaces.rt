// Arrays to lend. Each contract says the array's length, so that no caller's proof has to count it.
ghost use Rattle.std.specs.Prelude.{◌≡◌, length};

// The most bytes of a list.
pub(crate) const LIST: usize = 2097152;
// The most bytes of an argument, of a lent buffer and of an answer.
const MOST: usize = 131072;
// What a lent buffer holds before a call.
pub(crate) const PATTERN: u8 = 0xA5;

pub(crate) fn list() -> [u8; LIST]
    ensures { 2097152 ≡ length result }
{
    [0; LIST]
}

pub(crate) fn zeros() -> [u8; MOST]
    ensures { 131072 ≡ length result }
{
    [0; MOST]
}

pub(crate) fn patterned() -> [u8; MOST]
    ensures { 131072 ≡ length result }
{
    [PATTERN; MOST]
}
