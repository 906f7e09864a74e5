//! Of objects of which it is known how they end, the one that fails first.
ghost use Rattle.std.specs.Prelude.{◌≡◌};
ghost use Rattle.lin_report.specs.Failing as said;

use crate::findings::Finding;
use lin_answers::Verdict;
use lin_events::Item;

/// An object that is a no.
#[derive(Clone, Copy)]
pub struct Failing {
    pub key: Item,
    /// How many events the shortest prefix of the history has that fails it.
    pub prefix: usize,
}

/// Of two that fail the one with the shorter failing prefix.
fn sooner(one: Option<Failing>, other: Failing) -> Option<Failing>
    ensures { result ≡ said.sooner one other }
{
    let Some(one) = one else {
        return Some(other);
    };
    if other.prefix < one.prefix {
        return Some(other);
    }
    Some(one)
}

/// The same with one more object.
fn with_one(first: Option<Failing>, found: Finding) -> Option<Failing>
    ensures { result ≡ said.with_one first found.key found.verdict }
{
    match found.verdict {
        Verdict::No { prefix } => sooner(
            first,
            Failing {
                key: found.key,
                prefix,
            },
        ),
        _ => first,
    }
}

/// Of these objects the no with the shortest failing prefix, if one is a no.
pub fn first_failing(found: &[Finding]) -> Option<Failing>
    ensures { result ≡ said.first_failing found.now }
{
    let mut first = None;
    for one in found {
        first = with_one(first, *one);
    }
    first
}

/// The key of that object, where the whole is undecided.
pub fn failing_key(whole: Verdict, found: &[Finding]) -> Option<Item>
    ensures { result ≡ said.failing_key whole found.now }
{
    let Verdict::Undecided { .. } = whole else {
        return None;
    };
    match first_failing(found) {
        Some(failing) => Some(failing.key),
        None => None,
    }
}
