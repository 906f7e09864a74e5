//! The law of verdicts: what is right to answer of an order is one. The function does nothing.
ghost use Rattle.lin_formats.specs.VerdictLaws.{VerdictsAreUnique};

use lin_events::shapes_are_unique;
use lin_history::streams_are_unique;
use lin_names::names_grow;

/// For the bytes of a file and the text of an order one verdict of `verify` is right by the same names.
pub fn verdicts_are_unique()
    ensures { VerdictsAreUnique }
{
    names_grow();
    streams_are_unique();
    shapes_are_unique();
}
