//! Items as texts say them.
ghost use Rattle.std.specs.Prelude.{◌≡◌, ℕ, List, IfOk, OnErr};
ghost use Rattle.lin_names.specs.Names.{AgreesWith, Begins, IsSpelling, Numbering};
ghost use Rattle.lin_names.specs.Spelled.{numbered, seen, spelled, word};

use crate::names::{Names, names_grow};
use lin_events::{Item, OutOfMemory};

/// An item as a text says it: a word by its spelling.
#[derive(Clone, Copy)]
pub enum Said<'a> {
    Int(i64),
    Bool(bool),
    Word(&'a [u8]),
}

impl Said<'_> {
    /// The item. A word's spelling gets a number if it has none, which takes memory.
    pub fn item(self, names: &mut Names) -> Result<Item, OutOfMemory>
        ensures begun { Begins names.old names.new }
        ensures item { IfOk result (λ item. (number : Numbering) → AgreesWith names.new number → item ≡ numbered number (seen self.entry)) }
        ensures spelled { IfOk result (λ item. spelled names.new item ≡ seen self.entry) }
        // Only a word takes memory, and none whose spelling is there.
        ensures word { OnErr result ((w : List ℕ) × (seen self.entry ≡ word w) × ((n : ℕ) → IsSpelling names.old w n → ⊥)) }
    {
        names_grow();
        match self {
            Said::Int(number) => Ok(Item::Int(number)),
            Said::Bool(truth) => Ok(Item::Bool(truth)),
            Said::Word(spelling) => Ok(Item::Word(names.intern(spelling)?)),
        }
    }
}

/// What is seen of an item in print: of a word its spelling, nothing where it has none.
pub fn shown(names: &Names, item: Item) -> Said<'_>
    ensures { seen result ≡ spelled names.now item }
{
    match item {
        Item::Int(number) => Said::Int(number),
        Item::Bool(truth) => Said::Bool(truth),
        Item::Word(number) => match names.spelling(number) {
            Some(spelling) => Said::Word(spelling),
            None => Said::Word(&[]),
        },
    }
}
