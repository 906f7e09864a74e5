//! What comes of refuting an object.
use lin_answers::Answer;
use lin_order::Refutation;

/// What comes of refuting an object.
#[derive(Drop)]
pub enum Refuted {
    /// It is not linearizable: how many events the shortest prefix has that is not, and sets that show it of the object's
    /// events in this prefix.
    No {
        prefix: usize,
        refutation: Refutation,
    },
    /// Its answer, which is not a no.
    Not(Answer),
}
