//! The classes of bytes.
ghost use Rattle.std.specs.Prelude.{◌≡◌};
ghost use Rattle.lin_bytes.specs.Bytes as bytes;
ghost use Rattle.lin_bytes.specs.Bytes.{is_inside};

// The classes of the bytes: PLAIN begins a run, 1 is `#`, from WHITE on a byte stops a run.
const PLAIN: u8 = 0;

const WHITE: u8 = 2;

static CLASSES: [u8; 256] = [
    0, 0, 0, 0, 0, 0, 0, 0, 0, 2, 2, 2, 2, 2, 0, 0, 0, 0, 0, 0, 0, 0, 0, 0, 0, 0, 0, 0, 0, 0, 0, 0,
    2, 0, 3, 1, 0, 0, 0, 0, 3, 3, 0, 0, 2, 0, 0, 0, 0, 0, 0, 0, 0, 0, 0, 0, 0, 0, 0, 3, 0, 0, 0, 0,
    0, 0, 0, 0, 0, 0, 0, 0, 0, 0, 0, 0, 0, 0, 0, 0, 0, 0, 0, 0, 0, 0, 0, 0, 0, 0, 0, 3, 3, 3, 0, 0,
    0, 0, 0, 0, 0, 0, 0, 0, 0, 0, 0, 0, 0, 0, 0, 0, 0, 0, 0, 0, 0, 0, 0, 0, 0, 0, 0, 3, 0, 3, 0, 0,
    0, 0, 0, 0, 0, 0, 0, 0, 0, 0, 0, 0, 0, 0, 0, 0, 0, 0, 0, 0, 0, 0, 0, 0, 0, 0, 0, 0, 0, 0, 0, 0,
    0, 0, 0, 0, 0, 0, 0, 0, 0, 0, 0, 0, 0, 0, 0, 0, 0, 0, 0, 0, 0, 0, 0, 0, 0, 0, 0, 0, 0, 0, 0, 0,
    0, 0, 0, 0, 0, 0, 0, 0, 0, 0, 0, 0, 0, 0, 0, 0, 0, 0, 0, 0, 0, 0, 0, 0, 0, 0, 0, 0, 0, 0, 0, 0,
    0, 0, 0, 0, 0, 0, 0, 0, 0, 0, 0, 0, 0, 0, 0, 0, 0, 0, 0, 0, 0, 0, 0, 0, 0, 0, 0, 0, 0, 0, 0, 0,
];

/// Whether a byte is white.
#[inline(always)]
pub fn is_white(c: u8) -> bool
    ensures { result ≡ bytes.is_white c }
{
    CLASSES[c as usize] == WHITE
}

/// Whether a byte ends a run.
#[inline(always)]
pub fn is_stop(c: u8) -> bool
    ensures { result ≡ bytes.is_stop c }
{
    CLASSES[c as usize] >= WHITE
}

/// Whether a byte begins a run.
#[inline(always)]
pub fn is_plain(c: u8) -> bool
    ensures { result ≡ is_inside (bytes.class c) }
{
    CLASSES[c as usize] == PLAIN
}
