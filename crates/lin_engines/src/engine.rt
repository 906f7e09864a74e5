//! What is seen of an engine.
ghost use Rattle.std.specs.Prelude.{◌≡◌, ◌≤◌, ◌<◌, ◌+◌, ℕ, List, IfOk, OnOk, OnErr, length, take};
ghost use Rattle.lin_events.specs.declared.events.Event.{Event as EventOf};
ghost use Rattle.lin_events.specs.Meters.{ticked};
ghost use Rattle.lin_objects.specs.declared.kinds.Kind.{Kind as KindOf};
ghost use Rattle.lin_order.specs.Linearizable.{IsLegalOrderAs, IsLinearizableAs};
ghost use Rattle.lin_engines.specs.declared.says.Says.{Says as SaysOf};
ghost use Rattle.lin_engines.specs.Engines.{IsCut, IsNext, IsTrueOf, place_after};

use crate::says::Says;
use lin_compressed_frontier::Scratch;
use lin_events::{Event, Meter, OutOfMemory};
use lin_objects::Any;
use lin_order::Placed;
use std::alloc::Global;

/// It sees the events of one object, one after the other, and is right for those that it took in, whatever comes behind them. These have a
/// legal order, wherever it stands.
pub trait Engine: Drop {
    /// It is right for the first events of this history, as many as it has reached.
    ghost sees: { Self → List EventOf → Type 0 };

    /// Of which kind the object is.
    ghost kind: { Self → KindOf };

    /// How many events it has taken in.
    ghost reach: { Self → ℕ };

    /// What it may say.
    ghost says: { SaysOf → Type 0 };

    /// How many events it has taken in.
    fn reached(&self) -> usize
        ensures { result ≡ reach self.now };

    /// Takes the next event in, or says why not: one step. Where memory is refused, it stays where it was.
    fn take_in(
        &mut self,
        event: &Event,
        budget: u32,
        meter: &mut Meter,
        scratch: &mut Scratch<Any>,
    ) -> Result<Says, OutOfMemory>
        requires right { (h : List EventOf) × sees self.old h }
        requires fits { reach self.old < usize.MAX }
        ensures kind { kind self.new ≡ kind self.old }
        ensures right { (h : List EventOf) → IsNext h (reach self.old) event.now → sees self.old h → sees self.new h }
        ensures said { IfOk result (λ said. (h : List EventOf) → IsNext h (reach self.old) event.now → sees self.old h → IsTrueOf (kind self.old) budget h (reach self.old) said) }
        ensures may { IfOk result says }
        ensures place { IfOk result (λ said. (h : List EventOf) → IsNext h (reach self.old) event.now → sees self.old h → reach self.new ≡ place_after (reach self.old) said) }
        ensures refused { OnErr result (reach self.new ≡ reach self.old) }
        ensures counted { OnOk result (meter.new.steps ≡ ticked meter.old.steps 1) }
        ensures most { meter.new.steps ≤ meter.old.steps + 1 }
        ensures scans { meter.new.scans ≡ meter.old.scans };

    /// Forgets the events from the place on, and at most 63 before it: they are about to change. It needs no memory.
    fn cut(&mut self, place: usize)
        ensures kind { kind self.new ≡ kind self.old }
        ensures right { (h edited : List EventOf) → sees self.old h → take place h ≡ take place edited → sees self.new edited }
        ensures place { (h : List EventOf) → sees self.old h → IsCut (reach self.old) place (reach self.new) };

    /// A legal order of the events that it took in.
    fn order(&self, alloc: Global) -> Result<Vec<Placed>, OutOfMemory>
        requires right { (h : List EventOf) × sees self.now h }
        ensures { IfOk result (λ order. (h : List EventOf) → sees self.now h → IsLegalOrderAs (kind self.now) (take (reach self.now) h) order.items) };

    /// They have one.
    fn affirm(&self)
        ensures { (h : List EventOf) → sees self.now h → IsLinearizableAs (kind self.now) (take (reach self.now) h) };

    /// It has taken in no more than there are.
    ghost within: { (engine : Self) (h : List EventOf) → sees engine h → reach engine ≤ length h };

    /// It may go on.
    ghost begins: { says SaysOf.On };
}
