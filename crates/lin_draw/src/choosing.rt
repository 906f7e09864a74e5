//! Which operations are drawn.
ghost use Rattle.std.specs.Prelude.{◌≡◌, ◌<◌, ◌≤◌, ◌+◌, IfOk, length};
ghost use Rattle.lin_draw.specs.Pictures.{drawn_at_most};
ghost use Rattle.lin_order.specs.Tables.{IsNextTable};

use crate::operations::{is_call, is_open_behind};
use crate::own::Own;
use lin_events::OutOfMemory;
use lin_tables::ran_beside;
use lin_texts::number;
use std::alloc::Global;

/// At most so many operations are drawn where nothing is said of that.
const MOST: usize = 20;

/// How many operations are drawn at most where so many are said, or none.
pub(crate) fn most_drawn(last: Option<u32>) -> usize
    ensures { result ≡ drawn_at_most last }
{
    match last {
        Some(count) => count as usize,
        None => MOST,
    }
}

/// What an operation is to a picture.
#[derive(Clone, Copy)]
pub(crate) enum Mark {
    Failing,
    /// The explanation names it, or it is open where there are too many configurations.
    Named,
    /// It ran beside the failing one.
    Beside,
    Other,
}

/// An operation that may be drawn: the place where it was invoked, and its mark.
#[derive(Clone, Copy)]
pub(crate) struct Chosen {
    pub(crate) at: usize,
    pub(crate) mark: Mark,
}

/// What a picture is about.
#[derive(Clone, Copy)]
pub(crate) struct Focus<'a> {
    /// Where the failing operation was invoked, if one fails.
    pub(crate) failing: Option<usize>,
    /// The positions in the history at which operations begin that the explanation names.
    pub(crate) named: &'a [usize],
    /// How many of the object's events are followed by too many configurations, if some are: what is open behind them is drawn first.
    pub(crate) stops: Option<usize>,
    /// At most so many operations are drawn.
    pub(crate) most: usize,
}

/// The operations that may be drawn, in the order of their invocations, and how many there are in all.
#[derive(Drop)]
pub(crate) struct Choice {
    pub(crate) chosen: Vec<Chosen>,
    pub(crate) all: usize,
}

impl Mark {
    /// By which operations are chosen first that have a lower one.
    fn order(self) -> u8 {
        match self {
            Mark::Failing => 0,
            Mark::Named => 1,
            Mark::Beside => 2,
            Mark::Other => 3,
        }
    }
}

/// The mark of an operation where none fails: whether it is open behind the first events, with which there are too many configurations.
fn mark_behind(own: &Own, ends: &[Option<usize>], stops: usize, at: usize) -> Mark
    requires table { IsNextTable own.now.events.items ends.now }
    requires within { at < length own.now.events.items }
{
    if at < stops && is_open_behind(own.events.as_slice(), ends, at, stops) {
        return Mark::Named;
    }
    Mark::Other
}

/// The mark of an operation.
fn mark_of(own: &Own, ends: &[Option<usize>], focus: &Focus, at: usize) -> Mark
    requires table { IsNextTable own.now.events.items ends.now }
    requires within { at < length own.now.events.items }
{
    let Some(failing) = focus.failing else {
        return mark_behind(own, ends, focus.stops.unwrap_or(0), at);
    };
    if at == failing {
        return Mark::Failing;
    }
    if focus.named.contains(&own.position(at)) {
        return Mark::Named;
    }
    if ran_beside(own.events.as_slice(), ends, failing, at) {
        return Mark::Beside;
    }
    Mark::Other
}

/// Whether the one operation is chosen before the other: it has the earlier mark, or the same one and was invoked later.
fn is_ahead(one: Chosen, other: Chosen) -> bool {
    let order = one.mark.order();
    let behind = other.mark.order();
    order < behind || order == behind && other.at < one.at
}

/// Leaves out the operation that is chosen last of all.
pub(crate) fn leave_last(chosen: &mut Vec<Chosen>)
    ensures { 0 < length chosen.old.items → length chosen.new.items + 1 ≡ length chosen.old.items }
{
    let mut last = 0;
    for at in 1..chosen.len() {
        if is_ahead(chosen[last], chosen[at]) {
            last = at;
        }
    }
    if last < chosen.len() {
        let _ = chosen.remove(last);
    }
}

/// The operations that may be drawn.
pub(crate) fn choose(
    alloc: Global,
    own: &Own,
    ends: &[Option<usize>],
    focus: &Focus,
) -> Result<Choice, OutOfMemory>
    requires { IsNextTable own.now.events.items ends.now }
    ensures { IfOk result (λ choice. length choice.chosen.items ≤ focus.now.most) }
{
    let mut chosen = Vec::new(alloc);
    let mut all = 0usize;
    for at in 0..own.events.len() {
        if !is_call(own.events.as_slice(), at) {
            continue;
        }
        all = all.saturating_add(1);
        let mark = mark_of(own, ends, focus, at);
        chosen.push(Chosen { at, mark })?;
        if chosen.len() > focus.most {
            leave_last(&mut chosen);
        }
    }
    Ok(Choice { chosen, all })
}

/// The position in a line of a table of operations, if the line has the mark of those that are named above it.
fn named_in(line: &[u8]) -> Option<usize> {
    let rest = line.strip_prefix(b"* ")?;
    let digits = rest.split(|byte| *byte == b'.').next()?;
    Some(number(digits, u64::MAX)? as usize)
}

/// The positions at which operations begin that the table of an explanation marks as named above it.
pub(crate) fn named_of(alloc: Global, lines: &[u8]) -> Result<Vec<usize>, OutOfMemory> {
    let mut named = Vec::new(alloc);
    for line in lines.split(|byte| *byte == b'\n') {
        if let Some(position) = named_in(line) {
            named.push(position)?;
        }
    }
    Ok(named)
}
