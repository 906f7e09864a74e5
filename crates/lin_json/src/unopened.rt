//! Files that can't be opened.
ghost use Rattle.std.specs.Prelude.{◌≡◌, ◌++◌, OnOk};
ghost use Rattle.lin_json.specs.Unopened.{unopened_json};

use crate::answers::put_file_front;
use crate::strings::put_string;
use std::alloc::{AllocError, Global};

/// Puts the map last that tells of a file of this name that it can't be opened, with the exit status of a run that ends so.
pub fn put_unopened(alloc: Global, text: &mut Vec<u8>, name: &[u8]) -> Result<(), AllocError>
    ensures { OnOk result (text.new.items ≡ text.old.items ++ unopened_json name.now) }
{
    let mut answer = Vec::from_slice(alloc, b"cannot open ")?;
    answer.extend_from_slice(name)?;
    put_file_front(text, name)?;
    text.extend_from_slice(b"\"valid?\":\"unknown\",\"status\":6,\"answer\":")?;
    put_string(text, answer.as_slice())?;
    text.push(b'}')?;
    Ok(())
}
