//! What is found of a history and of its objects.
ghost use Rattle.std.specs.Prelude.{◌≡◌, ℕ, List, [], if◌then◌else◌, IfOk};
ghost use Rattle.lin_answers.specs.Answers.{IsVerdict};
ghost use Rattle.lin_answers.specs.Keys.{AreKeys};
ghost use Rattle.lin_answers.specs.declared.answers.Scope.TheVariants as scope;
ghost use Rattle.lin_report.specs.Reports as said;
ghost use Rattle.lin_report.specs.Reports.{AreFindings, HasFound};
ghost use Rattle.lin_report.specs.inner.Still.{IsAllKnown, IsStill};

use crate::answers::is_ill_formed;
use lin_answers::{Scope, Verdict};
use lin_events::{Item, OutOfMemory};
use lin_names::Names;
use lin_order::{absent_keys_are_legal, linearizability_is_local};
use lin_session::Session;
use std::alloc::Global;

/// What is found of the object of a key.
#[derive(Clone, Copy)]
pub struct Finding {
    pub key: Item,
    pub verdict: Verdict,
}

/// What is found of a history.
#[derive(Drop)]
pub struct Findings {
    /// How many keys it has.
    pub keys: usize,
    /// Of its objects, in the order in which their keys are printed; of none where it isn't well-formed.
    pub objects: Vec<Finding>,
    pub whole: Verdict,
}

/// What is found of the objects of these keys. Where all is known of them, nothing is counted.
pub fn find_objects(
    alloc: Global,
    session: &mut Session,
    keys: &[Item],
) -> Result<Vec<Finding>, OutOfMemory>
    ensures found { IfOk result (λ found. AreFindings session.old.present keys.now found.items) }
    ensures present { session.new.present ≡ session.old.present }
    ensures still { IsAllKnown session.old → IsStill 0 session.old session.new }
{
    let mut found = Vec::new(alloc);
    for key in keys {
        let verdict = session.ask(alloc, Scope::Object(*key))?;
        found.push(Finding { key: *key, verdict })?;
    }
    Ok(found)
}

/// What is found of the objects of these keys, where the history is well-formed. What is found of the whole is found of an only object.
fn find_each(
    alloc: Global,
    session: &mut Session,
    keys: &[Item],
    whole: Verdict,
) -> Result<Vec<Finding>, OutOfMemory>
    requires keys { (names : List (List ℕ)) × AreKeys names session.old.present.history keys.now }
    requires whole { IsVerdict session.old.present scope.Whole whole }
    ensures found { IfOk result (λ found. AreFindings session.old.present (if said.is_ill_formed whole then [] else keys.now) found.items) }
    ensures present { session.new.present ≡ session.old.present }
{
    if is_ill_formed(whole) {
        return Ok(Vec::new(alloc));
    }
    if let [key] = keys {
        linearizability_is_local();
        absent_keys_are_legal();
        let only = Finding {
            key: *key,
            verdict: whole,
        };
        return Ok(Vec::from_slice(alloc, &[only])?);
    }
    find_objects(alloc, session, keys)
}

/// What is found of the present history.
pub fn find(alloc: Global, session: &mut Session, names: &Names) -> Result<Findings, OutOfMemory>
    ensures found { IfOk result (HasFound names.now session.old.present) }
    ensures present { session.new.present ≡ session.old.present }
{
    let keys = session.objects(alloc, names)?;
    let whole = session.ask(alloc, Scope::Whole)?;
    let objects = find_each(alloc, session, keys.as_slice(), whole)?;
    Ok(Findings {
        keys: keys.len(),
        objects,
        whole,
    })
}
