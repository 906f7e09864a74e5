//! Spellings by number.
ghost use Rattle.std.specs.Prelude.{◌≡◌, ℕ, [], length, slice_get, option_map, IfOk, IfSome, IfNone, OnOk, OnErr, IsOk};
ghost use Rattle.lin_names.specs.Names.{interned, AreEachOnce, Begins, IsSpelling, NumberingsAgree, NumberingsNarrow, NumbersStay, StaysEachOnce};

use indexmap::IndexSet;
use lin_events::OutOfMemory;
use std::alloc::Global;
use std::marker::Model;

/// The spellings of words, each once. A word is the number of its spelling: how many others were seen first.
///
/// A keyword is spelled with its colon, a string with its quotes, and with its `#` where it has one; escapes aren't decoded. Words are
/// the same exactly where their spellings are.
#[derive(Drop)]
pub struct Names {
    alloc: Global,
    spellings: IndexSet<Vec<u8>>,
}

impl Model for Names {
    ghost use Rattle.std.specs.Prelude.{ℕ, List};
    ghost use Rattle.lin_names.specs.Names.{items_of, AreEachOnce};

    ghost Value = { List (List ℕ) };

    ghost view = { λ n. items_of n.spellings.keys };

    ghost invariant = { λ n. AreEachOnce (items_of n.spellings.keys) };
}

impl Names {
    /// No spellings.
    pub fn new(alloc: Global) -> Names
        ensures { result ≡ [] }
    {
        Names {
            alloc,
            spellings: IndexSet::new(alloc),
        }
    }

    /// How many spellings there are.
    pub fn len(&self) -> usize
        ensures len { result ≡ length self.now }
        ensures once { AreEachOnce self.now }
    {
        self.spellings.len()
    }

    /// The number of a spelling, if it is there.
    pub fn find(&self, spelling: &[u8]) -> Option<usize>
        ensures some { IfSome result (IsSpelling self.now spelling.now) }
        ensures none { IfNone result ((n : ℕ) → IsSpelling self.now spelling.now n → ⊥) }
        ensures once { AreEachOnce self.now }
    {
        self.spellings.get_index_of(spelling)
    }

    /// The spelling with a number.
    pub fn spelling(&self, number: usize) -> Option<&[u8]>
        ensures { option_map (λ s. s.now) result ≡ slice_get self.now number }
    {
        match self.spellings.get_index(number) {
            Some(spelling) => Some(spelling.as_slice()),
            None => None,
        }
    }

    /// The number of a spelling, which is put last if it isn't there. Refused, nothing changed; a spelling that is there takes no memory.
    pub fn intern(&mut self, spelling: &[u8]) -> Result<usize, OutOfMemory>
        ensures number { IfOk result (IsSpelling self.new spelling.now) }
        ensures kept { OnOk result (self.new ≡ interned spelling.now self.old) }
        ensures refused { OnErr result (self.new ≡ self.old) }
        ensures known { (n : ℕ) → IsSpelling self.old spelling.now n → IsOk result }
        ensures once { AreEachOnce self.new }
        ensures begun { Begins self.old self.new }
    {
        if let Some(number) = self.find(spelling) {
            return Ok(number);
        }
        let own = Vec::from_slice(self.alloc, spelling)?;
        let (number, _) = self.spellings.insert_full(own)?;
        Ok(number)
    }

    /// Where memory for lists of words comes from.
    pub(crate) fn alloc(&self) -> Global {
        self.alloc
    }
}

/// What interning leaves: each spelling keeps its number, and stands once. A numbering of spellings that agrees with all names agrees with
/// the first of them, and there is one.
pub fn names_grow()
    ensures numbers { NumbersStay }
    ensures once { StaysEachOnce }
    ensures agree { NumberingsAgree }
    ensures narrow { NumberingsNarrow }
{}
