//! Where members of each key stand. It only tells where to look first: whatever it says, what is answered is tested.
use indexmap::IndexMap;
use lin_events::OutOfMemory;
use std::alloc::Global;

/// The places of the first members of a list, by their keys.
#[derive(Drop)]
pub struct MemberPlaces {
    /// None where no member was noted: most searches note none, and move this.
    by_key: Option<Box<IndexMap<u64, Vec<usize>>>>,
    count: usize,
}

/// Puts the place last of those that have the key.
fn put_place(
    by_key: &mut IndexMap<u64, Vec<usize>>,
    alloc: Global,
    key: u64,
    at: usize,
) -> Result<(), OutOfMemory> {
    if let Some(places) = by_key.get_mut(&key) {
        return match places.push(at) {
            Ok(()) => Ok(()),
            Err(_) => Err(OutOfMemory),
        };
    }
    let mut places = Vec::new(alloc);
    places.push(at)?;
    match by_key.insert(key, places) {
        Ok(_) => Ok(()),
        Err(_) => Err(OutOfMemory),
    }
}

impl MemberPlaces {
    /// Of no member.
    pub fn new() -> Self {
        MemberPlaces {
            by_key: None,
            count: 0,
        }
    }

    /// How many members were noted.
    pub fn len(&self) -> usize {
        self.count
    }

    /// Where members with the key stand, if there are any.
    pub fn of(&self, key: u64) -> Option<&[usize]> {
        match self.by_key.as_ref()?.get(&key) {
            Some(places) => Some(places.as_slice()),
            None => None,
        }
    }

    /// Notes the key of the member that comes next.
    pub fn note(&mut self, alloc: Global, key: u64) -> Result<(), OutOfMemory> {
        let at = self.count;
        let Some(count) = at.checked_add(1) else {
            return Err(OutOfMemory);
        };
        self.count = count;
        if self.by_key.is_none() {
            self.by_key = Some(Box::new(alloc, IndexMap::new(alloc))?);
        }
        match &mut self.by_key {
            Some(by_key) => put_place(by_key, alloc, key, at),
            None => Err(OutOfMemory),
        }
    }
}
