//! The operations of one of a lock's calls.
ghost use Rattle.std.specs.Prelude.{◌≡◌, ◌<◌, ◌≤◌, ◌+◌, ◌⊎◌, ◌++◌, ◌∷◌, [], ℕ, List, Ok, Option, None, Some, IfNone, IfSome, OnOk, true, false, length, set, slice_get, vec_capacity, vec_len};
ghost use Rattle.lin_locks.specs.declared.sides.Closed.{Closed as ClosedOf};
ghost use Rattle.lin_locks.specs.declared.sides.Debt.{Debt as DebtOf};
ghost use Rattle.lin_locks.specs.declared.sides.Withdrawal.TheVariants.{Fails, Passes};
ghost use Rattle.lin_locks.specs.inner.Changes.{before_end, before_owing, order_before, reopened, shorter, unpaid};
ghost use Rattle.lin_locks.specs.inner.Debts.{AreRising, IsPaid};
ghost use Rattle.lin_locks.specs.inner.Fillings.{PayInTurn, settled};
ghost use Rattle.lin_locks.specs.inner.Known.{Part, part_of};
ghost use Rattle.lin_locks.specs.inner.Room.{HasKept, Holds};
ghost use Rattle.lin_locks.specs.inner.Sides.{AreEarly, IsClosed, IsGone, IsUnpayable};

use crate::changes::EndChange;
use lin_events::OutOfMemory;
use std::alloc::Global;

/// An operation that is owed.
#[derive(Clone, Copy)]
pub(crate) struct Debt {
    /// The event at which it came up: what pays it was invoked before.
    pub(crate) until: usize,
    /// Where it stands in the order.
    pub(crate) slot: usize,
}

/// An operation that is open no longer.
#[derive(Clone, Copy)]
pub(crate) struct Closed {
    /// Where it stood among those that were open.
    pub(crate) place: usize,
    /// Where it was invoked.
    pub(crate) begin: usize,
}

/// A debt that is owed no longer.
#[derive(Clone, Copy)]
pub(crate) struct Paid {
    /// Where it stood among the debts.
    pub(crate) rank: usize,
    pub(crate) debt: Debt,
}

/// What comes of the failure of an operation.
#[derive(Clone, Copy)]
pub(crate) enum Withdrawal {
    /// What is owed can still be paid.
    Passes(Option<Closed>),
    /// It can't.
    Fails,
}

/// The operations of one of the calls.
#[derive(Drop)]
pub(crate) struct Side {
    /// Where those that are open were invoked, rising.
    pub(crate) open: Vec<usize>,
    /// Those that are owed, in the order of their events.
    pub(crate) debts: Vec<Debt>,
}

/// Puts the operation that was invoked there at a place of the order that was owed.
pub(crate) fn fill(order: &mut Vec<Option<usize>>, place: usize, begin: usize)
    ensures { order.new.items ≡ set order.old.items place (Some begin) }
{
    if place < order.len() {
        order[place] = Some(begin);
    }
}

/// The order is what it was before the end of an operation.
pub(crate) fn reorder(order: &mut Vec<Option<usize>>, end: &EndChange)
    ensures { order.new.items ≡ order_before end.now order.old.items }
{
    order.truncate(end.length);
    if let Some(paid) = end.paid {
        empty(order, paid.debt.slot);
    }
}

/// The operation at the place of the order is owed again.
fn empty(order: &mut Vec<Option<usize>>, place: usize)
    ensures { order.new.items ≡ set order.old.items place None }
{
    if place < order.len() {
        order[place] = None;
    }
}

impl Side {
    /// Before any event.
    pub(crate) fn new(alloc: Global) -> Side
        ensures open { result.open.items ≡ [] }
        ensures debts { result.debts.items ≡ [] }
    {
        Side {
            open: Vec::new(alloc),
            debts: Vec::new(alloc),
        }
    }

    /// There is room for one more that is open.
    pub(crate) fn make_room(&mut self) -> Result<(), OutOfMemory>
        ensures same { part_of self.new ≡ part_of self.old }
        ensures room { OnOk result (vec_len self.new.open < vec_capacity self.new.open) }
        ensures kept { HasKept self.old self.new }
    {
        self.open.reserve(1)?;
        Ok(())
    }

    /// One is invoked there, for which there is room.
    pub(crate) fn begin(&mut self, at: usize)
        requires { vec_len self.old.open < vec_capacity self.old.open }
        ensures open { self.new.open.items ≡ self.old.open.items ++ at ∷ [] }
        ensures debts { self.new.debts ≡ self.old.debts }
        ensures kept { HasKept self.old self.new }
    {
        self.open.push_reserved(at);
    }

    /// The last one that is open was not invoked.
    pub(crate) fn uninvoke(&mut self)
        ensures open { self.new.open.items ≡ shorter self.old.open.items }
        ensures debts { self.new.debts ≡ self.old.debts }
        ensures kept { HasKept self.old self.new }
    {
        self.open.pop();
    }

    /// The operation that was invoked there is open no longer.
    pub(crate) fn close(&mut self, begin: usize) -> Option<Closed>
        ensures debts { self.new.debts ≡ self.old.debts }
        ensures closed { IsClosed begin self.old.open.items self.new.open.items }
        ensures gone { IsGone begin self.old.open.items self.new.open.items }
        ensures back { reopened result self.new.open.items ≡ self.old.open.items }
        ensures kept { HasKept self.old self.new }
    {
        match self.open.binary_search(&begin) {
            Ok(place) => {
                let begin = self.open.remove(place);
                Some(Closed { place, begin })
            }
            Err(_) => None,
        }
    }

    /// It is open again, for which there is room.
    pub(crate) fn reopen(&mut self, closed: Option<Closed>)
        ensures debts { self.new.debts ≡ self.old.debts }
        ensures open { length (reopened closed self.old.open.items) ≤ vec_capacity self.old.open → self.new.open.items ≡ reopened closed self.old.open.items }
        ensures kept { HasKept self.old self.new }
    {
        if let Some(closed) = closed {
            let place = closed.place.min(self.open.len());
            let _ = self.open.insert(place, closed.begin);
        }
    }

    /// The place of the first debt that came up behind the invocation, or the number of debts.
    fn first_behind(&self, begin: usize) -> usize
        ensures within { result ≤ length self.now.debts.items }
        ensures ahead { AreRising self.now.debts.items → (k : ℕ) (debt : DebtOf) → k < result → slice_get self.now.debts.items k ≡ Some debt → debt.until ≤ begin }
        ensures behind { (debt : DebtOf) → slice_get self.now.debts.items result ≡ Some debt → begin < debt.until }
    {
        let mut at = self.debts.len();
        while at > 0 && begin < self.debts[at - 1].until {
            at -= 1;
        }
        at
    }

    /// The operation that was invoked there returns, and pays the earliest debt that it can, if there is one: what was closed, and the debt.
    pub(crate) fn pay(&mut self, begin: usize) -> Option<(Option<Closed>, Paid)>
        ensures closed { IfSome result (λ payment. IsClosed begin self.old.open.items self.new.open.items) }
        ensures gone { IfSome result (λ payment. IsGone begin self.old.open.items self.new.open.items) }
        ensures paid { IfSome result (λ payment. IsPaid begin self.old.debts.items payment.1.debt self.new.debts.items) }
        ensures open { IfSome result (λ payment. reopened payment.0 self.new.open.items ≡ self.old.open.items) }
        ensures debts { IfSome result (λ payment. unpaid (Some payment.1) self.new.debts.items ≡ self.old.debts.items) }
        ensures none { IfNone result ((self.new ≡ self.old) × AreEarly begin self.old.debts.items) }
        ensures kept { HasKept self.old self.new }
    {
        let rank = self.first_behind(begin);
        if rank == self.debts.len() {
            return None;
        }
        let closed = self.close(begin);
        let debt = self.debts.remove(rank);
        Some((closed, Paid { rank, debt }))
    }

    /// The debt is owed again, for which there is room.
    pub(crate) fn unpay(&mut self, paid: Option<Paid>)
        ensures open { self.new.open ≡ self.old.open }
        ensures debts { length (unpaid paid self.old.debts.items) ≤ vec_capacity self.old.debts → self.new.debts.items ≡ unpaid paid self.old.debts.items }
        ensures kept { HasKept self.old self.new }
    {
        if let Some(paid) = paid {
            let rank = paid.rank.min(self.debts.len());
            let _ = self.debts.insert(rank, paid.debt);
        }
    }

    /// Whether there are enough that may pay one more, once there is room for it.
    pub(crate) fn may_owe(&mut self) -> Result<bool, OutOfMemory>
        ensures same { part_of self.new ≡ part_of self.old }
        ensures enough { result ≡ Ok true → length self.old.debts.items < length self.old.open.items }
        ensures few { result ≡ Ok false → length self.old.open.items ≤ length self.old.debts.items }
        ensures room { OnOk result (vec_len self.new.debts < vec_capacity self.new.debts) }
        ensures kept { HasKept self.old self.new }
    {
        self.debts.reserve(1)?;
        Ok(self.debts.len() < self.open.len())
    }

    /// One is owed from now on, for which there is room.
    pub(crate) fn owe(&mut self, debt: Debt)
        requires { vec_len self.old.debts < vec_capacity self.old.debts }
        ensures open { self.new.open ≡ self.old.open }
        ensures debts { self.new.debts.items ≡ self.old.debts.items ++ debt ∷ [] }
        ensures kept { HasKept self.old self.new }
    {
        self.debts.push_reserved(debt);
    }

    /// The last one that is owed isn't, if one is.
    pub(crate) fn disown(&mut self, owes: bool)
        ensures back { part_of self.new ≡ before_owing owes (part_of self.old) }
        ensures kept { HasKept self.old self.new }
    {
        if owes {
            self.debts.pop();
        }
    }

    /// Whether the open one at the place may pay the debt there.
    fn pays(&self, at: usize) -> bool
        requires { at < length self.now.debts.items }
        ensures pays { result ≡ true → (debt : DebtOf) → slice_get self.now.debts.items at ≡ Some debt → (begin : ℕ) × (slice_get self.now.open.items at ≡ Some begin) × (begin < debt.until) }
        ensures late { result ≡ false → (debt : DebtOf) (begin : ℕ) → slice_get self.now.debts.items at ≡ Some debt → slice_get self.now.open.items at ≡ Some begin → debt.until ≤ begin }
    {
        at < self.open.len() && self.open[at] < self.debts[at].until
    }

    /// Whether each debt can be paid, one by one.
    fn is_payable(&self) -> bool
        ensures payable { result ≡ true → PayInTurn self.now.open.items self.now.debts.items }
        ensures unpaid { result ≡ false → IsUnpayable (part_of self.now) }
    {
        for at in 0..self.debts.len() {
            if !self.pays(at) {
                return false;
            }
        }
        true
    }

    /// The operation that was invoked there failed: what was closed, if what is owed can still be paid; else it stays open.
    pub(crate) fn withdraw(&mut self, begin: usize) -> Withdrawal
        ensures debts { self.new.debts ≡ self.old.debts }
        ensures closed { (closed : Option ClosedOf) → result ≡ Passes closed → IsClosed begin self.old.open.items self.new.open.items }
        ensures gone { (closed : Option ClosedOf) → result ≡ Passes closed → IsGone begin self.old.open.items self.new.open.items }
        ensures back { (closed : Option ClosedOf) → result ≡ Passes closed → reopened closed self.new.open.items ≡ self.old.open.items }
        ensures payable { (closed : Option ClosedOf) → result ≡ Passes closed → AreEarly begin self.new.debts.items ⊎ PayInTurn self.new.open.items self.new.debts.items }
        ensures stays { result ≡ Fails → self.new.open.items ≡ self.old.open.items }
        ensures unpaid { result ≡ Fails → (left : List ℕ) × IsClosed begin self.old.open.items left × IsUnpayable (record (part_of self.old) { opens = left }) }
        ensures kept { HasKept self.old self.new }
    {
        let closed = self.close(begin);
        // Debts that came up before it was invoked were never to be paid by it.
        if self.first_behind(begin) == self.debts.len() || self.is_payable() {
            return Withdrawal::Passes(closed);
        }
        self.reopen(closed);
        Withdrawal::Fails
    }

    /// It is what it was before the end of one of its operations, for which there is room.
    pub(crate) fn resume(&mut self, end: &EndChange)
        ensures back { Holds self.old (before_end end.now (part_of self.old)) → part_of self.new ≡ before_end end.now (part_of self.old) }
        ensures kept { HasKept self.old self.new }
    {
        self.reopen(end.closed);
        self.unpay(end.paid);
    }

    /// Those that are owed are paid by open ones, in turn.
    pub(crate) fn settle(&self, order: &mut Vec<Option<usize>>)
        ensures { order.new.items ≡ settled self.now.debts.items self.now.open.items order.old.items }
    {
        for at in 0..self.debts.len() {
            if at < self.open.len() {
                fill(order, self.debts[at].slot, self.open[at]);
            }
        }
    }
}
