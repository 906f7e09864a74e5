//! What the search ahead knows of operations and of orders: values as numbers, and bits for open operations.
use lin_events::{Item, Val};

/// Where updates can still be put in an order: right before a write.
#[derive(Clone, Copy)]
pub struct WriteGap {
    /// What the register holds there.
    pub held: u64,
    /// Only operations that were invoked before this place. There is no gap where it is 0.
    pub until: u32,
    /// The write, as it was placed.
    pub next: u32,
}

pub const NO_GAP: WriteGap = WriteGap {
    held: 0,
    until: 0,
    next: 0,
};

/// A place in an order.
#[derive(Clone, Copy, PartialEq, Eq)]
pub enum WhichGap {
    /// Behind all others.
    Last,
    /// In the widest gap.
    Wide,
    /// In the other one.
    Narrow,
}

#[derive(Clone, Copy)]
pub struct Configuration {
    /// What the register holds behind all others.
    pub held: u64,
    /// The open operations that are placed, by their slots.
    pub placed: u64,
    /// Where any update can be put.
    pub wide: WriteGap,
    /// One more, for compare-and-sets that find there what they need.
    pub narrow: WriteGap,
    /// The last update, as it was placed; `END` where it has none.
    pub last: u32,
    /// What was placed in it last; `END` where nothing was.
    pub step: u32,
    /// How many updates it has that never return.
    pub crashed: u32,
}

impl Configuration {
    /// The place in it: its end is a gap where all can be put.
    #[inline(always)]
    pub fn gap(&self, spot: WhichGap) -> WriteGap {
        match spot {
            WhichGap::Last => WriteGap {
                held: self.held,
                until: u32::MAX,
                next: 0,
            },
            WhichGap::Wide => self.wide,
            WhichGap::Narrow => self.narrow,
        }
    }
}

/// What an operation does.
#[derive(Clone, Copy)]
pub enum Deed {
    Read(u64),
    Write(u64),
    Cas(u64, u64),
}

/// An operation that is open.
#[derive(Clone, Copy)]
pub struct OpenDeed {
    /// What it needs to find, if it isn't a write, and what it leaves, if it isn't a read.
    pub found: u64,
    pub left: u64,
    /// Where it was invoked.
    pub at: u32,
    /// Where it returns; the last place where it never does.
    pub end: u32,
}

/// A number for the value. Where two have one, what is found may not be legal.
#[inline(always)]
pub fn code_of(value: Val) -> u64 {
    match value {
        Val::Nil => 0x9e37_79b9_7f4a_7c15,
        Val::Item(Item::Int(number)) => {
            let twice = number.unsigned_abs().wrapping_mul(2);
            if number < 0 {
                twice.wrapping_add(1)
            } else {
                twice
            }
        }
        Val::Item(Item::Bool(is)) => {
            if is {
                0xc2b2_ae3d_27d4_eb4f
            } else {
                0x1656_67b1_9e37_79f9
            }
        }
        Val::Item(Item::Word(number)) => (number as u64)
            .wrapping_mul(2)
            .wrapping_add(0x85eb_ca77_c2b2_ae63),
    }
}
