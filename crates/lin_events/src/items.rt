//! Keys, and what values are made of.
ghost use Rattle.std.specs.Prelude.{◌≡◌, Some, refl};
ghost use Rattle.std.specs.Cmp.{partial_equiv_from_equiv, partial_order_from_agreeing_total};
ghost use Rattle.std.specs.Hash as fed;
ghost use Rattle.std.specs.Hash.{same_Alike};
ghost use Rattle.lin_events.specs.Items.{code_of as code, item_cmp, item_eq, hashed_item, ItemsAreOrdered, ItemsCompareAlike};
ghost use Rattle.lin_events.specs.Sameness.{item_eq_equiv, items_total, ties, Decides-item_eq};

use std::cmp::Ordering;
use std::hash::{Hash, Hasher};

/// A key, or a value that isn't nil: an integer, a truth value, or a word by the number of its spelling.
#[derive(Clone, Copy, Debug)]
pub enum Item {
    Int(i64),
    Bool(bool),
    Word(usize),
}

impl PartialEq for Item {
    ghost eq = { item_eq };

    ghost laws = { partial_equiv_from_equiv item_eq_equiv };

    fn eq(&self, other: &Self) -> bool {
        match (self, other) {
            (Item::Int(a), Item::Int(b)) => a.eq(b),
            (Item::Bool(a), Item::Bool(b)) => a == b,
            (Item::Word(a), Item::Word(b)) => a == b,
            (Item::Int(_), Item::Bool(_)) => false,
            (Item::Int(_), Item::Word(_)) => false,
            (Item::Bool(_), Item::Int(_)) => false,
            (Item::Bool(_), Item::Word(_)) => false,
            (Item::Word(_), Item::Int(_)) => false,
            (Item::Word(_), Item::Bool(_)) => false,
        }
    }
}

impl Eq for Item {
    ghost laws = { item_eq_equiv };
}

impl PartialOrd for Item {
    ghost partial_cmp = { λ x y. Some (item_cmp x y) };

    ghost laws = { partial_order_from_agreeing_total item_cmp items_total (λ x y. refl) ties };

    fn partial_cmp(&self, other: &Self) -> Option<Ordering> {
        Some(self.cmp(other))
    }
}

/// Items are ordered so that lists of them are canonical: `false`, `true`, integers rising, and words by their numbers. In print words
/// are ordered by their spellings.
impl Ord for Item {
    ghost cmp = { item_cmp };

    ghost total = { items_total };

    ghost matches_partial_cmp = { λ x y. refl };

    ghost matches_eq = { ties };

    fn cmp(&self, other: &Self) -> Ordering {
        match (self, other) {
            (Item::Int(a), Item::Int(b)) => a.cmp(b),
            (Item::Bool(a), Item::Bool(b)) => a.cmp(b),
            (Item::Word(a), Item::Word(b)) => a.cmp(b),
            (Item::Bool(_), Item::Int(_) | Item::Word(_)) => Ordering::Less,
            (Item::Int(_), Item::Word(_)) => Ordering::Less,
            (Item::Int(_), Item::Bool(_)) => Ordering::Greater,
            (Item::Word(_), Item::Int(_) | Item::Bool(_)) => Ordering::Greater,
        }
    }
}

impl Hash for Item {
    ghost hash_input = { hashed_item };

    ghost respects_eq = { (same_Alike hashed_item Decides-item_eq).fed };

    fn hash<H: Hasher>(&self, state: &mut H) {
        self.code().hash(state);
    }
}

impl Item {
    /// A number for the item, which other items may have too.
    pub fn code(self) -> u64
        ensures { result ≡ code self }
    {
        match self {
            Item::Int(number) => number.cast_unsigned(),
            Item::Bool(false) => (1 << 62) + 1,
            Item::Bool(true) => (1 << 63) + 2,
            Item::Word(number) => number as u64 ^ (5 << 60),
        }
    }
}

/// What the order of items and `==` of items are.
pub fn items_are_ordered()
    ensures order { ItemsAreOrdered }
    ensures same { ItemsCompareAlike }
{}
