//! What all sequential objects have in common.
ghost use Rattle.std.specs.Prelude.{◌≡◌, ◌≢◌, ℕ, Bool, true, IfOk, OnOk, Contains, AllPairs};
ghost use Rattle.lin_events.specs.declared.calls.Name.{Name as NameOf};
ghost use Rattle.lin_events.specs.declared.calls.Call.{Call as CallOf};
ghost use Rattle.lin_events.specs.declared.calls.Reply.{Reply as ReplyOf};
ghost use Rattle.lin_objects.specs.Ahead.{AreAhead};
ghost use Rattle.lin_objects.specs.Observing.{IsObserving};
ghost use Rattle.lin_objects.specs.Overwriting.{IsOverwriting};
ghost use Rattle.lin_objects.specs.Total.{AreTotal, IsShown};

use lin_events::{Call, Name, OutOfMemory, Reply};
use std::alloc::Global;
use std::hash::Hash;

/// An object that serves one call at a time (the sequential specification of Herlihy and Wing 1990, section 2).
///
/// In each state a call may have no outcome, one, or several.
pub trait SeqObject {
    /// Where the object stands between two calls.
    type State: Eq + Hash + Drop;

    /// Where the object begins.
    ghost starts: { Self → Self.State };

    /// Whether the object has the function.
    ghost allowed: { Self → NameOf → Bool };

    /// In the state the object may take the call, go to the next state and give the reply.
    ghost step: { Self → Self.State → CallOf → Self.State → ReplyOf → Type 0 };

    /// Whether the call is treated as one that observes: none of its steps changes the state.
    ghost observing: { Self → CallOf → Bool };

    /// A call that observes leaves the state as it is.
    ghost unchanged: { (object : Self) → IsObserving (step object) (observing object) };

    /// Whether the object is overwritten: whether each call that isn't treated as an observer does the same in all states that the object
    /// comes to.
    ghost overwriting: { Self → Bool };

    /// Where it is, they do.
    ghost overwritten: { (object : Self) → overwriting object ≡ true → IsOverwriting (starts object) (step object) (observing object) };

    /// Whether the call, with the reply, is hindered by the other call.
    ghost hindered: { Self → CallOf → ReplyOf → CallOf → Bool };

    /// Whether it goes first in the state, where so many hinder it.
    ghost first: { Self → Self.State → CallOf → ReplyOf → ℕ → Bool };

    /// Calls that go first can be taken at once wherever others can be taken and then they: the others can be taken behind them.
    ghost ahead: { (object : Self) → AreAhead (step object) (hindered object) (first object) };

    /// Whether the call is known to be total.
    ghost total: { Self → CallOf → Bool };

    /// In each state that the object comes to, it takes a total call.
    ghost taken: { (object : Self) → AreTotal (starts object) (step object) (total object) };

    /// Whether replies to the second call are known to show the first.
    ghost shown: { Self → CallOf → CallOf → Bool };

    /// Whether the reply shows that the call was taken.
    ghost showing: { Self → CallOf → ReplyOf → Bool };

    /// Whether the state tells that it was.
    ghost having: { Self → Self.State → CallOf → Bool };

    /// Where replies are known to show a call, they show just whether it was taken.
    ghost told: { (object : Self) (call reads : CallOf) → shown object call reads ≡ true → IsShown (step object) (showing object call) (λ state. having object state call) reads call };

    /// The state in which the object begins; takes no memory.
    fn start(&self, alloc: Global) -> Self::State
        ensures { result ≡ starts self.now };

    /// Whether the object has the function. A call of another function has no outcome.
    fn allows(&self, name: Name) -> bool
        ensures { result ≡ allowed self.now name };

    /// Whether the call is treated as one that observes. Calls that change no state and aren't treated so are placed like
    /// any other.
    fn observes(&self, call: &Call) -> bool
        ensures { result ≡ observing self.now call.now };

    /// Whether the object is overwritten: each call that isn't treated as an observer and has an outcome in some state has the
    /// same one in each state that the object comes to, and no other in any.
    fn overwrites(&self) -> bool
        ensures { result ≡ overwriting self.now };

    /// Whether the call, where it gets the reply, is hindered by the other one: whether that may have to be taken ahead of it.
    fn is_hindered(&self, call: &Call, reply: &Reply, other: &Call) -> bool
        ensures { result ≡ hindered self.now call.now reply.now other.now };

    /// Whether the call goes first with the reply: wherever other calls can be taken from the state on, at most so many of which hinder
    /// it, and then the call, it can be taken at once, and then the others in some order, with the same replies and to the same state.
    fn goes_first(&self, state: &Self::State, call: &Call, reply: &Reply, hindering: usize) -> bool
        ensures { result ≡ first self.now state.now call.now reply.now hindering };

    /// Whether the call is known to be total: the object takes it in each state that it comes to (Herlihy and Wing 1990, section 2).
    fn is_total(&self, call: &Call) -> bool
        ensures { result ≡ total self.now call.now };

    /// Whether replies to `reads` are known to show the call: each that comes once the call was taken does so, and one that doesn't is
    /// followed by others that don't until the call is taken.
    fn is_shown_by(&self, call: &Call, reads: &Call) -> bool
        ensures { result ≡ shown self.now call.now reads.now };

    /// Whether the state tells that the call was taken; where it doesn't, no reply that is known to show the call does.
    fn has_taken(&self, state: &Self::State, call: &Call) -> bool
        ensures { result ≡ having self.now state.now call.now };

    /// An equal state.
    fn copy_state(&self, alloc: Global, state: &Self::State) -> Result<Self::State, OutOfMemory>
        ensures { IfOk result (λ copy. copy ≡ state.now) };

    /// Leaves in `out` exactly the steps that the object may take on the call, each once: the state after it, and the
    /// reply. What `out` held before is dropped. On `OutOfMemory` what `out` holds is open.
    fn outcomes(
        &self,
        alloc: Global,
        state: &Self::State,
        call: &Call,
        out: &mut Vec<(Self::State, Reply)>,
    ) -> Result<(), OutOfMemory>
        ensures sound { OnOk result ((next : Self.State) (reply : ReplyOf) → Contains out.new.items (next, reply) → step self.now state.now call.now next reply) }
        ensures complete { OnOk result ((next : Self.State) (reply : ReplyOf) → step self.now state.now call.now next reply → Contains out.new.items (next, reply)) }
        ensures once { OnOk result (AllPairs (λ p q. p ≢ q) out.new.items) };

    /// States that compare alike are the same state.
    ghost same: { (x y : Self.State) → Self.State.eq x y ≡ true → x ≡ y };
}
