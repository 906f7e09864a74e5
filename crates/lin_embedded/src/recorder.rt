//! A history that comes as the bytes of a file, in pieces.
ghost use Rattle.std.specs.Prelude.{◌≡◌, ◌<◌, ◌++◌, ◌∷◌, [], ℕ, List, IfOk, MatchOption, OnErr, OnOk, length};
ghost use Rattle.lin_events.specs.declared.events.Event.{Event as EventOf};
ghost use Rattle.lin_names.specs.Names.{AreEachOnce, Begins};
ghost use Rattle.lin_history.specs.Sees.{IsAsBefore, IsTakenIn, is_fault};
ghost use Rattle.lin_answers.specs.Answers.{verdict_of};
ghost use Rattle.lin_answers.specs.Edits.{IsBudget};
ghost use Rattle.lin_formats.specs.Inputs.{limit};
ghost use Rattle.lin_texts.specs.declared.settings.Settings.{Settings as SettingsOf};
ghost use Rattle.lin_embedded.specs.Recorders.{Asks, Feeds, HasRead, IsIntake, Orders, held, opened, order_in};
ghost use Rattle.lin_embedded.specs.inner.Waiting.{IsBroughtIn, StillReads, TakesNext};

use lin_answers::{Answer, Edit, Scope, Verdict};
use lin_events::{Event, OutOfMemory};
use lin_history::{Follow, FollowFault};
use lin_names::Names;
use lin_session::Session;
use lin_texts::{Settings, write_order};
use std::alloc::Global;

/// How many events of a text count.
const LIMIT: usize = 1_000_000;

/// A history of which the bytes come in pieces, cut anywhere, and whether it is linearizable so far (Herlihy and Wing 1990).
#[derive(Drop)]
pub struct Recorder {
    session: Session,
    // The spellings of the words that were read.
    names: Names,
    follow: Follow,
    // An event that was taken from the follower, and for which the history was refused memory.
    in_hand: Option<Event>,
}

/// What is known of all bytes that were fed.
#[derive(Clone, Copy, Debug, PartialEq, Eq)]
pub struct Intake {
    /// How many of their events count: the first 1,000,000.
    pub events: usize,
    /// Whether nothing counts that comes behind them: there is a fault of form, or there are more events.
    pub is_refused: bool,
}

/// A verdict, and for a yes the text of a legal order.
#[derive(Drop)]
pub struct Ordered {
    pub verdict: Verdict,
    /// As `verify` reads it; empty where there is none.
    pub order: Vec<u8>,
}

/// A session with no event.
fn open(alloc: Global, settings: Settings) -> Session
    requires { IsBudget settings.budget }
    ensures { result.present ≡ opened settings [] }
{
    let Ok(session) = Session::new(alloc, settings.kind, settings.budget) else {
        unreachable!()
    };
    session
}

/// The oldest event that waits, if one does.
fn take_next(in_hand: &mut Option<Event>, follow: &mut Follow) -> Option<Event>
    ensures { TakesNext in_hand.old in_hand.new follow.old follow.new result }
{
    match in_hand.take() {
        Some(event) => Some(event),
        None => follow.take(),
    }
}

/// Puts an event last, where there is room, or hands it back where memory is refused.
fn append(session: &mut Session, event: Event) -> Option<Event>
    requires { length session.old.present.history < limit }
    ensures { MatchOption result (session.new.present ≡ record session.old.present { history = session.old.present.history ++ event ∷ [] })
        (λ back. (back ≡ event) × (session.new.present ≡ session.old.present)) }
{
    match session.apply(Edit::Append(event)) {
        Ok(()) => None,
        Err((Edit::Append(event), _)) => Some(event),
        Err(_) => unreachable!(),
    }
}

/// Takes in a piece; a fault of form is kept.
fn take_in(follow: &mut Follow, piece: &[u8], names: &mut Names) -> Result<(), OutOfMemory>
    ensures begun { Begins names.old names.new }
    ensures once { AreEachOnce names.new }
    ensures taken { OnOk result ((more : List EventOf) × IsTakenIn names.new follow.old piece.now follow.new more) }
    ensures kept { OnErr result (IsAsBefore follow.old follow.new) }
{
    let fed = follow.feed(piece, names);
    names.len();
    match fed {
        Ok(_) | Err(FollowFault::Edn { .. } | FollowFault::Event { .. }) => Ok(()),
        Err(FollowFault::TooMuch | FollowFault::OutOfMemory) => Err(OutOfMemory),
        Err(FollowFault::Truncated { .. }) => unreachable!(),
    }
}

/// How many events are in hand.
fn held_count(in_hand: &Option<Event>) -> usize
    ensures { result ≡ length (held in_hand.now) }
{
    match in_hand {
        Some(_) => 1,
        None => 0,
    }
}

/// Whether a fault of form stands, behind which nothing is read.
fn is_faulty(follow: &Follow) -> bool
    ensures { result ≡ is_fault follow.now.outcome }
{
    matches!(
        follow.finish(),
        Err(FollowFault::Edn { .. } | FollowFault::Event { .. })
    )
}

/// An answer, with the text of its order.
fn with_order(alloc: Global, names: &Names, answer: &Answer) -> Result<Ordered, OutOfMemory>
    ensures { IfOk result (λ ordered. (ordered.verdict ≡ verdict_of answer.now) × (ordered.order.items ≡ order_in names.now answer.now)) }
{
    let mut order = Vec::new(alloc);
    let verdict = match answer {
        Answer::Yes(pairs) => {
            write_order(names, pairs.as_slice(), &mut order)?;
            Verdict::Yes
        }
        Answer::No { prefix } => Verdict::No { prefix: *prefix },
        Answer::Undecided { at } => Verdict::Undecided { at: *at },
        Answer::IllFormed { at, cause } => Verdict::IllFormed {
            at: *at,
            cause: *cause,
        },
    };
    Ok(Ordered { verdict, order })
}

impl Recorder {
    /// No bytes were fed. The budget is 1 to 1,000,000.
    pub fn new(alloc: Global, settings: Settings) -> Recorder
        requires { IsBudget settings.budget }
        ensures { HasRead settings result [] }
    {
        Recorder {
            session: open(alloc, settings),
            names: Names::new(alloc),
            follow: Follow::new(alloc, settings.keyed),
            in_hand: None,
        }
    }

    /// Puts what waits into the history, as far as there is room.
    fn bring_in(&mut self) -> Result<(), OutOfMemory>
        ensures brought { OnOk result (IsBroughtIn self.new) }
        ensures reads { StillReads self.old self.new }
        ensures names { self.new.names ≡ self.old.names }
    {
        'events: while self.session.len() < LIMIT {
            let Some(event) = take_next(&mut self.in_hand, &mut self.follow) else {
                return Ok(());
            };
            if let Some(event) = append(&mut self.session, event) {
                self.in_hand = Some(event);
                return Err(OutOfMemory);
            }
        }
        Ok(())
    }

    /// What is known of all bytes.
    fn intake(&self) -> Intake
        ensures { (settings : SettingsOf) (bytes : List ℕ) → HasRead settings self.now bytes → IsIntake settings.keyed self.now.names bytes result }
    {
        let taken = self.session.len();
        let in_hand = held_count(&self.in_hand);
        let events = taken
            .saturating_add(in_hand)
            .saturating_add(self.follow.ready());
        Intake {
            events: events.min(LIMIT),
            is_refused: is_faulty(&self.follow) || events > LIMIT,
        }
    }

    /// Takes in the next piece of the bytes, and tells what is known of all. Refused memory, also where they would pass 1,099,511,627,776,
    /// nothing of the piece is taken in.
    pub fn feed(&mut self, piece: &[u8]) -> Result<Intake, OutOfMemory>
        ensures { Feeds piece.now self.old self.new result }
    {
        self.bring_in()?;
        take_in(&mut self.follow, piece, &mut self.names)?;
        Ok(self.intake())
    }

    /// Whether the history is linearizable that the bytes say so far.
    pub fn ask(&mut self, alloc: Global) -> Result<Verdict, OutOfMemory>
        ensures { Asks self.old self.new result }
    {
        self.bring_in()?;
        self.session.ask(alloc, Scope::Whole)
    }

    /// The same, with a legal order for a yes.
    pub fn order(&mut self, alloc: Global) -> Result<Ordered, OutOfMemory>
        ensures { Orders self.old self.new result }
    {
        self.bring_in()?;
        let answer = self.session.order(alloc, Scope::Whole)?;
        with_order(alloc, &self.names, &answer)
    }
}
