//! Words that several answers begin with, and what they need of an event.
ghost use Rattle.std.specs.Prelude.{◌≡◌, ◌++◌, OnOk, codes};
ghost use Rattle.lin_answers.specs.Answers.{kinds_in};
ghost use Rattle.lin_texts.specs.Items.{item_text};
ghost use Rattle.lin_explain.specs.Heads.{object_text};

use lin_answers::Present;
use lin_events::Event;
use lin_names::Names;
use lin_objects::Kind;
use lin_texts::{kind_word, put_item};
use std::alloc::AllocError;

/// Puts the key of an event last.
pub(crate) fn put_key(text: &mut Vec<u8>, names: &Names, event: &Event) -> Result<(), AllocError>
    ensures { OnOk result (text.new.items ≡ text.old.items ++ item_text names.now event.now.key) }
{
    put_item(text, names, event.key)
}

/// The kind of an event's object.
pub(crate) fn kind_for(present: &Present<'_>, event: &Event) -> Kind
    ensures { result ≡ kinds_in present.now event.now.key }
{
    present.kind_of(event.key)
}

/// Puts the word object, the key of an event's object, its kind and a colon last.
pub(crate) fn put_object(
    text: &mut Vec<u8>,
    names: &Names,
    event: &Event,
    kind: Kind,
) -> Result<(), AllocError>
    ensures { OnOk result (text.new.items ≡ text.old.items ++ object_text names.now event.now.key kind) }
{
    text.extend_from_slice(b"object ")?;
    put_key(text, names, event)?;
    text.extend_from_slice(b" ")?;
    text.extend_from_slice(kind_word(kind).as_bytes())?;
    text.extend_from_slice(b": ")
}
