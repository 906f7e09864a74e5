//! What is asked of a history, and what is answered.
ghost use Rattle.lin_answers.specs.Answers.{AnswersAreVerdicts};

use lin_events::{Cause, Item};
use lin_order::Placed;

/// What a question is about.
#[derive(Clone, Copy, Debug, PartialEq, Eq)]
pub enum Scope {
    /// The object of this key.
    Object(Item),
    /// All objects together.
    Whole,
}

/// Whether a history is linearizable (Herlihy and Wing 1990), for the whole or for one object.
#[derive(Drop)]
pub enum Answer {
    /// The history is not well-formed: its first bad position, and the first cause that makes it bad.
    IllFormed { at: usize, cause: Cause },
    /// It is: a legal order, in positions of the history.
    Yes(Vec<Placed>),
    /// It is not: how many events the shortest prefix has that is not.
    No { prefix: usize },
    /// With the events up to and with this position there are more configurations than the budget.
    Undecided { at: usize },
}

/// An answer without its order.
#[derive(Clone, Copy, Debug, PartialEq, Eq)]
pub enum Verdict {
    /// The history is not well-formed: its first bad position, and the first cause that makes it bad.
    IllFormed { at: usize, cause: Cause },
    /// It is linearizable.
    Yes,
    /// It is not: how many events the shortest prefix has that is not.
    No { prefix: usize },
    /// With the events up to and with this position there are more configurations than the budget.
    Undecided { at: usize },
}

/// Whoever has an answer has the verdict.
pub fn answers_are_verdicts()
    ensures { AnswersAreVerdicts }
{}
