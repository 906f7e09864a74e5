//! Items by number, and numbers that tell configurations apart.
use lin_events::{Item, OutOfMemory, Val};
use std::alloc::Global;
use std::collections::HashMap;

/// A number for each item, the least first.
#[derive(Drop)]
pub struct Numbers {
    places: HashMap<Item, usize>,
    items: Vec<Item>,
}

impl Numbers {
    pub fn new(alloc: Global) -> Numbers {
        Numbers {
            places: HashMap::new(alloc),
            items: Vec::new(alloc),
        }
    }

    /// That of the item.
    pub fn of(&mut self, item: Item) -> Result<usize, OutOfMemory> {
        if let Some(number) = self.places.get(&item) {
            return Ok(*number);
        }
        let number = self.items.len();
        self.places.insert(item, number)?;
        self.items.push(item)?;
        Ok(number)
    }

    /// That of the value: none is the least.
    pub fn of_value(&mut self, value: Val) -> Result<usize, OutOfMemory> {
        match value {
            Val::Nil => Ok(0),
            Val::Item(item) => Ok(self.of(item)?.saturating_add(1)),
        }
    }

    /// The item with the number.
    pub fn value(&self, number: usize) -> Val {
        match self.items.get(number) {
            Some(item) => Val::Item(*item),
            None => Val::Nil,
        }
    }

    pub fn count(&self) -> usize {
        self.items.len()
    }
}

/// A number that looks drawn (the generator of Steele, Lea and Flood 2014).
pub fn mix(number: u64) -> u64 {
    let one = number.wrapping_add(0x9E37_79B9_7F4A_7C15);
    let two = (one ^ (one >> 30)).wrapping_mul(0xBF58_476D_1CE4_E5B9);
    let three = (two ^ (two >> 27)).wrapping_mul(0x94D0_49BB_1331_11EB);
    three ^ (three >> 31)
}

/// The list, so long, of this alone.
pub fn list_of<T: Copy + Drop>(
    alloc: Global,
    count: usize,
    with: T,
) -> Result<Vec<T>, OutOfMemory> {
    let mut list = Vec::with_capacity(alloc, count)?;
    for _ in 0..count {
        list.push(with)?;
    }
    Ok(list)
}
