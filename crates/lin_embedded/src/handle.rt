//! A recorder behind a pointer, as C holds it.
ghost use Rattle.std.specs.Prelude.{◌≡◌, [], None, OnErr, OnOk, Option, Some, option_map};
ghost use Rattle.lin_answers.specs.Edits.{IsBudget};
ghost use Rattle.lin_embedded.specs.Handles.{Does, HasFed};
ghost use Rattle.lin_embedded.specs.Held.{handle_owns};
ghost use Rattle.lin_embedded.specs.Recorders.{Asks, Feeds, Orders};
ghost use Rattle.lin_embedded.specs.declared.recorder.Recorder.{Recorder as RecorderOf};

use crate::boxes::BoxParts;
use crate::recorder::{Intake, Ordered, Recorder};
use lin_answers::Verdict;
use lin_events::OutOfMemory;
use lin_texts::Settings;
use std::alloc::Global;
use std::marker::Model;
use std::mem;

/// A recorder as C holds it: a pointer to its block, or null.
#[repr(C)]
pub struct Handle {
    at: *mut u8,
    alloc: Global,
    ghost value: { Option RecorderOf },
}

impl Model for Handle {
    ghost also_owns = { λ h. handle_owns h.alloc h.at h.value };
}

impl Handle {
    fn null(alloc: Global) -> Handle
        ensures { result.value ≡ None }
    {
        Handle {
            at: std::ptr::null_mut(),
            alloc,
        }
    }

    fn of_parts(parts: BoxParts<Recorder, Global>) -> Handle
        ensures { result.value ≡ Some parts.value }
    {
        let BoxParts { ptr, alloc } = parts;
        Handle {
            at: ptr as *mut u8,
            alloc,
        }
    }

    fn into_parts(self) -> Option<BoxParts<Recorder, Global>>
        ensures { option_map (λ b. b.value) result ≡ self.value }
    {
        let Handle { at, alloc } = self;
        if at.is_null() {
            None
        } else {
            Some(BoxParts {
                ptr: at as *mut Recorder,
                alloc,
            })
        }
    }

    fn of(value: Box<Recorder, Global>) -> Handle
        ensures { result.value ≡ Some value.value }
    {
        Handle::of_parts(BoxParts::of(value))
    }

    fn into_box(self) -> Option<Box<Recorder, Global>>
        ensures { option_map (λ b. b.value) result ≡ self.value }
    {
        match self.into_parts() {
            None => None,
            Some(parts) => Some(parts.into_box()),
        }
    }

    /// What it holds; it is null until that is put back.
    fn take(&mut self, alloc: Global) -> Option<Box<Recorder, Global>>
        ensures taken { option_map (λ b. b.value) result ≡ self.old.value }
        ensures null { self.new.value ≡ None }
    {
        mem::replace(self, Handle::null(alloc)).into_box()
    }

    /// Begins anew, with no bytes; what it held is freed first. Refused memory, it is null. The budget is 1 to 1,000,000.
    pub fn open(&mut self, alloc: Global, settings: Settings) -> Result<(), OutOfMemory>
        requires { IsBudget settings.budget }
        ensures opened { OnOk result (HasFed settings self.new.value []) }
        ensures null { OnErr result (self.new.value ≡ None) }
    {
        *self = Handle::null(alloc);
        let recorder = Box::new(alloc, Recorder::new(alloc, settings))?;
        *self = Handle::of(recorder);
        Ok(())
    }

    /// `Recorder::feed` of what it holds; none where it is null.
    pub fn feed(&mut self, alloc: Global, piece: &[u8]) -> Option<Result<Intake, OutOfMemory>>
        ensures { Does (Feeds piece.now) self.old.value self.new.value result }
    {
        let mut recorder = self.take(alloc)?;
        let fed = recorder.feed(piece);
        *self = Handle::of(recorder);
        Some(fed)
    }

    /// `Recorder::ask` of what it holds; none where it is null.
    pub fn ask(&mut self, alloc: Global) -> Option<Result<Verdict, OutOfMemory>>
        ensures { Does Asks self.old.value self.new.value result }
    {
        let mut recorder = self.take(alloc)?;
        let found = recorder.ask(alloc);
        *self = Handle::of(recorder);
        Some(found)
    }

    /// `Recorder::order` of what it holds; none where it is null.
    pub fn order(&mut self, alloc: Global) -> Option<Result<Ordered, OutOfMemory>>
        ensures { Does Orders self.old.value self.new.value result }
    {
        let mut recorder = self.take(alloc)?;
        let found = recorder.order(alloc);
        *self = Handle::of(recorder);
        Some(found)
    }

    /// Frees what it holds; it is null.
    pub fn free(&mut self, alloc: Global)
        ensures { self.new.value ≡ None }
    {
        let _recorder = self.take(alloc);
    }
}

impl Drop for Handle {
    fn drop(self) {
        let _recorder = self.into_box();
    }
}
