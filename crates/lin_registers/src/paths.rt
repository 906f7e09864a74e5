//! Ways from one value to another by updates of a register.
use crate::acts::Act;
use crate::pool::{Offer, has_operation};
use lin_events::{OutOfMemory, Val};
use std::alloc::Global;

/// Longer ways aren't looked for where there are so many.
const ENOUGH: usize = 4;

/// So many beginnings of longer ways are looked at.
const MANY: usize = 64;

/// Updates that lead to a value, the last one first, and what the register has to hold before them.
#[derive(Drop)]
struct Trail {
    updates: Vec<Offer>,
    needed: Val,
}

impl Trail {
    /// They and the update before them.
    fn updates_with(&self, alloc: Global, update: &Offer) -> Result<Vec<Offer>, OutOfMemory> {
        let mut updates = Vec::new(alloc);
        updates.extend_from_slice(&self.updates)?;
        updates.push(*update)?;
        Ok(updates)
    }

    /// Puts them and the update with the ways from the value that are found, or with what comes next.
    fn lengthen(
        &self,
        alloc: Global,
        update: &Offer,
        from: Val,
        found: &mut Vec<Vec<Offer>>,
        next: &mut Vec<Trail>,
    ) -> Result<(), OutOfMemory> {
        if update.act.value_left() != Some(self.needed)
            || has_operation(&self.updates, update.operation)
        {
            return Ok(());
        }
        let mut updates = self.updates_with(alloc, update)?;
        match update.act {
            Act::Cas(needed, _) if needed != from => next.push(Trail { updates, needed })?,
            _ => {
                updates.reverse();
                found.push(updates)?;
            }
        }
        Ok(())
    }
}

/// Ways that are longer by one update: those from the value are put with what is found.
fn longer_trails(
    alloc: Global,
    offers: &[Offer],
    trails: &[Trail],
    from: Val,
    found: &mut Vec<Vec<Offer>>,
) -> Result<Vec<Trail>, OutOfMemory> {
    let mut next = Vec::new(alloc);
    for trail in trails {
        for offer in offers {
            trail.lengthen(alloc, offer, from, found, &mut next)?;
        }
    }
    next.truncate(MANY);
    Ok(next)
}

/// Ways of at most so many of the updates that lead from one value to another. All but the first update compare and set.
pub fn paths(
    alloc: Global,
    offers: &[Offer],
    from: Val,
    to: Val,
    most: usize,
) -> Result<Vec<Vec<Offer>>, OutOfMemory> {
    let mut found = Vec::new(alloc);
    let mut trails = Vec::new(alloc);
    trails.push(Trail {
        updates: Vec::new(alloc),
        needed: to,
    })?;
    for _ in 0..most {
        if found.len() >= ENOUGH || trails.is_empty() {
            break;
        }
        trails = longer_trails(alloc, offers, &trails, from, &mut found)?;
    }
    Ok(found)
}
