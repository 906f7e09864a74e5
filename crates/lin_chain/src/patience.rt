//! How much work of frontiers comes before a search, or behind it.
use lin_engines::Replay;
use lin_events::Meter;
use lin_objects::Kind;

/// So many items of an unordered queue are soon copied.
const FEW: u64 = 16;

/// A frontier of a queue that holds more items isn't worth its checkpoints, each of which has a copy of them.
const LONG: u64 = 1_024;

/// How much work the next events are worth.
#[derive(Clone, Copy)]
pub(crate) struct Patience {
    /// So many tries are counted at most, when an event is begun.
    tries: u64,
    /// An event may be tried in so many ways at most.
    ways: u64,
}

impl Patience {
    /// Few tries, for what comes before a search of so many events: configurations that would fill the budget aren't made. Registers are
    /// worth more, since their frontiers have few members mostly.
    pub(crate) fn little(meter: &Meter, kind: Kind, events: usize) -> Patience {
        let count = events as u64;
        let (more, ways) = match kind {
            Kind::Register => (count.saturating_mul(16), 128),
            Kind::CasRegister => (count.saturating_mul(8), 1_024),
            _ => (count / 8, 1_024),
        };
        Patience {
            tries: meter.tries().saturating_add(more.saturating_add(1_024)),
            ways,
        }
    }

    /// Whether an event that may be tried in so many ways is worth it.
    fn allows(self, meter: &Meter, ways: u64) -> bool {
        ways <= self.ways && ways < self.tries.saturating_sub(meter.tries())
    }
}

/// In how many orders some of so many operations may stand.
fn arrangements(count: usize) -> u64 {
    let mut found: u64 = 1;
    for chosen in 1..=count {
        found = found.saturating_mul(chosen as u64).saturating_add(1);
    }
    found
}

/// In how many ways one more event may be tried: of a register without compare-and-set nothing is searched, and each member goes on. Else some of
/// the open operations may have been placed, in any order where that makes different states, and each other one may come next; but there are
/// no more members than the budget. A dequeue of an unordered queue may take any item, and leaves a copy of the others.
fn ways(replay: &Replay, budget: u32) -> u64 {
    let open = replay.open();
    let inside = replay.inside() as u64;
    let (placed, each) = match replay.kind() {
        Kind::Register => return replay.members() as u64,
        Kind::Fifo if inside > LONG => return u64::MAX,
        Kind::Fifo => (arrangements(open), 1),
        Kind::Bag if inside > FEW => (1 << open.min(32), inside.saturating_mul(inside) / FEW),
        _ => (1 << open.min(32), 1),
    };
    placed
        .min(budget as u64)
        .saturating_mul(open as u64)
        .saturating_mul(each)
}

/// Whether one more event is worth it.
pub(crate) fn is_worth(meter: &Meter, patience: Patience, replay: &Replay, budget: u32) -> bool {
    patience.allows(meter, ways(replay, budget))
}
