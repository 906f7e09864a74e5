//! Strings.
ghost use Rattle.std.specs.Prelude.{◌≡◌, ◌++◌, ◌<◌, false, OnOk};
ghost use Rattle.std.specs.Fmt.{digit_glyph};
ghost use Rattle.lin_json.specs.Strings.{control_json, byte_json, string_json};

use std::alloc::AllocError;

/// The hexadecimal digit for a number.
fn digit(number: u8) -> u8
    requires { number < 16 }
    ensures { result ≡ digit_glyph false number }
{
    if number < 10 {
        return b'0' + number;
    }
    b'a' + (number - 10)
}

/// Puts the escape of a control character last.
fn put_control(text: &mut Vec<u8>, byte: u8) -> Result<(), AllocError>
    requires { byte < 32 }
    ensures { OnOk result (text.new.items ≡ text.old.items ++ control_json byte) }
{
    text.extend_from_slice(b"\\u00")?;
    text.push(digit(byte / 16))?;
    text.push(digit(byte % 16))?;
    Ok(())
}

/// Puts a byte of a string last, escaped where it has to be.
fn put_byte(text: &mut Vec<u8>, byte: u8) -> Result<(), AllocError>
    ensures { OnOk result (text.new.items ≡ text.old.items ++ byte_json byte) }
{
    match byte {
        b'"' => text.extend_from_slice(b"\\\""),
        b'\\' => text.extend_from_slice(b"\\\\"),
        b'\n' => text.extend_from_slice(b"\\n"),
        0..32 => put_control(text, byte),
        _ => Ok(text.push(byte)?),
    }
}

/// Puts a string last, between quotes. Where its bytes are UTF-8, so is what is put.
pub(crate) fn put_string(text: &mut Vec<u8>, string: &[u8]) -> Result<(), AllocError>
    ensures { OnOk result (text.new.items ≡ text.old.items ++ string_json string.now) }
{
    text.push(b'"')?;
    for byte in string {
        put_byte(text, *byte)?;
    }
    text.push(b'"')?;
    Ok(())
}
