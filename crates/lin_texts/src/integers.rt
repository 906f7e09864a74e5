//! Numbers in texts.
ghost use Rattle.std.specs.Prelude.{◌≡◌, ◌^◌, ◌<◌};
ghost use Rattle.lin_texts.specs.Integers.{integer_of, number_of};

/// The number of at most `most` that one or more digits write; leading zeros are read.
pub fn number(text: &[u8], most: u64) -> Option<u64>
    ensures { result ≡ number_of most text.now }
{
    if text.is_empty() {
        return None;
    }
    let mut value = 0u64;
    for byte in text {
        if !byte.is_ascii_digit() {
            return None;
        }
        let digit = u64::from(*byte - b'0');
        value = value.checked_mul(10)?.checked_add(digit)?;
    }
    if value <= most { Some(value) } else { None }
}

/// The number that digits write, with or without a `-` before them, where it has at most 64 bits with its sign.
pub fn integer(text: &[u8]) -> Option<i64>
    ensures { result ≡ integer_of text.now }
{
    match text {
        [b'-', digits @ ..] => {
            let size = number(digits, 1 << 63)?;
            Some(0i64.wrapping_sub_unsigned(size))
        }
        _ => {
            let size = number(text, i64::MAX as u64)?;
            Some(size as i64)
        }
    }
}
