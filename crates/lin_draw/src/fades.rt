//! What the bars of open operations are filled with, which fade out.
ghost use Rattle.std.specs.Prelude.{◌≡◌, ◌++◌, OnOk};
ghost use Rattle.lin_draw.specs.Fades.{NamesTellFades, fade_fill, fade_name, fade_text};

use lin_texts::put_number;
use std::alloc::AllocError;

/// Over such a width they fade out.
pub(crate) const FADE: usize = 56;

/// Puts the name of the fade last that ends at `right`.
fn put_name(text: &mut Vec<u8>, right: usize) -> Result<(), AllocError>
    ensures { OnOk result (text.new.items ≡ text.old.items ++ fade_name right) }
{
    text.extend_from_slice(b"lincheck-fade-")?;
    put_number(text, right as u64)
}

/// Puts what a bar is filled with last that fades out up to `right`.
pub(crate) fn put_fade_fill(text: &mut Vec<u8>, right: usize) -> Result<(), AllocError>
    ensures { OnOk result (text.new.items ≡ text.old.items ++ fade_fill right) }
{
    text.extend_from_slice(b"url(#")?;
    put_name(text, right)?;
    text.extend_from_slice(b")")
}

/// Puts the fade last that ends at `right`.
pub(crate) fn put_fade(text: &mut Vec<u8>, right: usize) -> Result<(), AllocError>
    ensures { OnOk result (text.new.items ≡ text.old.items ++ fade_text right) }
{
    text.extend_from_slice(b"<linearGradient id=\"")?;
    put_name(text, right)?;
    text.extend_from_slice(b"\" gradientUnits=\"userSpaceOnUse\" y1=\"0\" y2=\"0\" x1=\"")?;
    put_number(text, right.saturating_sub(FADE) as u64)?;
    text.extend_from_slice(b"\" x2=\"")?;
    put_number(text, right as u64)?;
    text.extend_from_slice(
        b"\"><stop class=\"full\" offset=\"0\" stop-color=\"#8fb4ea\"/><stop class=\"gone\" offset=\"1\" stop-color=\"#8fb4ea\" stop-opacity=\"0\"/></linearGradient>\n",
    )?;
    Ok(())
}

/// Fades of one name are the same, so pictures in one page that have such don't disturb each other. The function does nothing.
pub fn names_tell_fades()
    ensures { NamesTellFades }
{}
