//! A witness as an engine: a legal order that goes on with each event, or gives up.
ghost use Rattle.std.specs.Prelude.{◌≡◌, ◌≤◌, ◌<◌, ◌+◌, ◌-◌, ◌*◌, ℕ, Bool, List, All, IfOk, OnOk, Ok, length, take, false};
ghost use Rattle.lin_events.specs.declared.items.Item.{Item as ItemOf};
ghost use Rattle.lin_events.specs.declared.calls.Name.{Name as NameOf};
ghost use Rattle.lin_events.specs.declared.events.Event.{Event as EventOf};
ghost use Rattle.lin_events.specs.WellFormed.{IsWellFormed};
ghost use Rattle.lin_order.specs.Parts.{events_at};
ghost use Rattle.lin_engines.specs.Witnesses.{IsWitness, quarters};
ghost use Rattle.lin_engines.specs.Witnessing.{IsWitnessLane, kind_of_witness};

use crate::engine::Engine;
use crate::lane::Lane;
use crate::says::Says;
use crate::witness::{Back, Witness};
use lin_compressed_frontier::Scratch;
use lin_events::{Event, Meter, OutOfMemory, beginnings_are_well_formed};
use lin_objects::Any;
use lin_order::Placed;
use std::alloc::Global;

impl Engine for Witness {
    ghost use Rattle.lin_engines.specs.Witnesses.{IsWitness};
    ghost use Rattle.lin_engines.specs.Lanes.{IsOfWitness};
    ghost use Rattle.lin_engines.specs.Witnessing.{kind_of_witness, reach_of_witness, witness_within};

    ghost sees = { IsWitness };

    ghost kind = { kind_of_witness };

    ghost reach = { reach_of_witness };

    ghost says = { IsOfWitness };

    fn reached(&self) -> usize {
        self.of()
    }

    fn take_in(
        &mut self,
        event: &Event,
        _budget: u32,
        meter: &mut Meter,
        _scratch: &mut Scratch<Any>,
    ) -> Result<Says, OutOfMemory> {
        let goes_on = Witness::take_in(self, event, meter)?;
        Ok(if goes_on { Says::On } else { Says::Gone })
    }

    fn cut(&mut self, place: usize) {
        Witness::cut(self, place);
    }

    fn order(&self, alloc: Global) -> Result<Vec<Placed>, OutOfMemory> {
        copied(alloc, Witness::order(self))
    }

    fn affirm(&self) {
        let _of = self.of();
    }

    ghost within = { witness_within };

    ghost begins = { tt };
}

/// How a witness may go on is suggested to it: as its order stood before it was cut, and else, if that may be asked, as a search says.
pub fn suggest(
    lane: &mut Lane<Witness>,
    events: &[Event],
    picks: &[usize],
    ask: bool,
    meter: &mut Meter,
) -> Result<(), OutOfMemory>
    requires right { IsWitnessLane lane.old (events_at events.now picks.now) }
    requires inside { All (λ at. at < length events.now) picks.now }
    requires well_formed { (functions : ItemOf → NameOf → Bool) × IsWellFormed functions (events_at events.now picks.now) }
    ensures kind { kind_of_witness lane.new.engine ≡ kind_of_witness lane.old.engine }
    ensures right { IsWitnessLane lane.new (events_at events.now picks.now) }
    ensures others { lane.new ≡ record lane.old { engine = lane.new.engine } }
    ensures steps { meter.new.steps ≤ meter.old.steps + (length picks.now - lane.old.engine.of) }
    ensures none { ask ≡ false → meter.new.steps ≡ meter.old.steps }
    ensures scans { meter.new.scans ≡ meter.old.scans }
{
    lane.engine.suggest(events, picks, ask, meter)
}

/// A witness that couldn't go on is mended up to the place, if a search says how it goes on from shortly before. Each event that is looked at is a
/// step. It goes on where that is the place of all events; else it stays given up, as a legal order of the events before the place perhaps.
pub fn mend(
    lane: &mut Lane<Witness>,
    back: Back,
    place: usize,
    events: &[Event],
    picks: &[usize],
    meter: &mut Meter,
) -> Result<(), OutOfMemory>
    requires gone { lane.old.said ≡ Says.Gone }
    requires all { lane.old.mark ≡ length picks.now }
    requires place { place ≤ length picks.now }
    requires right { IsWitnessLane lane.old (events_at events.now picks.now) }
    requires inside { All (λ at. at < length events.now) picks.now }
    requires well_formed { (functions : ItemOf → NameOf → Bool) × IsWellFormed functions (events_at events.now picks.now) }
    ensures kind { kind_of_witness lane.new.engine ≡ kind_of_witness lane.old.engine }
    ensures right { IsWitnessLane lane.new (events_at events.now picks.now) }
    ensures mark { lane.new.mark ≡ lane.old.mark }
    ensures gone { place < length picks.now → lane.new.said ≡ Says.Gone }
    ensures steps { 4 * meter.new.steps ≤ 4 * meter.old.steps + quarters back * place }
    ensures scans { meter.new.scans ≡ meter.old.scans }
{
    reach(&mut lane.engine, back, place, events, picks, meter)?;
    if lane.engine.of() == picks.len() {
        lane.said = Says::On;
    }
    Ok(())
}

/// The same, of the witness alone.
fn reach(
    witness: &mut Witness,
    back: Back,
    place: usize,
    events: &[Event],
    picks: &[usize],
    meter: &mut Meter,
) -> Result<(), OutOfMemory>
    requires place { place ≤ length picks.now }
    requires right { IsWitness witness.old (events_at events.now picks.now) }
    requires inside { All (λ at. at < length events.now) picks.now }
    requires well_formed { (functions : ItemOf → NameOf → Bool) × IsWellFormed functions (events_at events.now picks.now) }
    ensures kind { kind_of_witness witness.new ≡ kind_of_witness witness.old }
    ensures right { IsWitness witness.new (events_at events.now picks.now) }
    ensures within { witness.new.of ≤ place }
    ensures steps { 4 * meter.new.steps ≤ 4 * meter.old.steps + quarters back * place }
    ensures scans { meter.new.scans ≡ meter.old.scans }
{
    beginnings_are_well_formed();
    witness.cut(place);
    let mended = witness.mend(back, events, &picks[..place], meter);
    witness.cut(place);
    mended
}

/// An equal order on its own memory.
pub fn copied(alloc: Global, order: &[Placed]) -> Result<Vec<Placed>, OutOfMemory>
    ensures { IfOk result (λ copy. copy.items ≡ order.now) }
{
    let mut copy = Vec::with_capacity(alloc, order.len())?;
    for placed in order {
        copy.push(Placed {
            at: placed.at,
            reply: placed.reply.copy(alloc)?,
        })?;
    }
    Ok(copy)
}
