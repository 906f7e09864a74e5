//! The words for why an event is bad.
ghost use Rattle.std.specs.Prelude.{◌≡◌};
ghost use Rattle.lin_texts.specs.Causes.{cause_text};

use lin_events::Cause;

/// The number and the name of why an event is bad.
pub fn cause_words(cause: Cause) -> &'static str
    ensures { result.now ≡ cause_text cause }
{
    match cause {
        Cause::RetiredProcess => "1 RetiredProcess",
        Cause::BusyProcess => "2 BusyProcess",
        Cause::NotOfKind => "3 NotOfKind",
        Cause::NoInvocation => "4 NoInvocation",
        Cause::OtherCall => "5 OtherCall",
        Cause::OtherKey => "6 OtherKey",
    }
}
