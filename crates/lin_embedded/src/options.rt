//! The options of a call.
ghost use Rattle.std.specs.Prelude.{◌≡◌, ◌↔◌, true, MatchOption};
ghost use Rattle.lin_embedded.specs.Options.{AreOptions, IsQuestion, NamesNone, kind_numbered};
ghost use Rattle.lin_embedded.specs.Options as said;

use lin_objects::Kind;
use lin_report::{Question, ReportFormat, Settings};
use lin_texts::item_in;

/// The greatest budget.
const BUDGET: u32 = 1_000_000;

/// What a caller asks for, by numbers: yes or no by 1 or 0.
#[repr(C)]
#[derive(Clone, Copy)]
pub struct Options {
    /// What each object is: 0 a register, 1 one with compare-and-set, 2 a queue, 3 a set, 4 a lock, 5 a queue without an order.
    pub kind: u32,
    /// Whether values are pairs of a key and a value, one object for each key.
    pub keyed: u32,
    /// How many configurations are kept for one object, 1 to 1,000,000.
    pub budget: u32,
    /// Whether an explanation of a yes ends with its order.
    pub order: u32,
    /// Whether one line of JSON is wanted, and not a text.
    pub json: u32,
}

/// Whether options say something.
pub fn are_options(options: Options) -> bool
    ensures { (result ≡ true) ↔ AreOptions options }
{
    options.kind < 6
        && options.keyed < 2
        && options.order < 2
        && options.json < 2
        && 1 <= options.budget
        && options.budget <= BUDGET
}

/// The kind of the number.
fn kind_of(number: u32) -> Kind
    ensures { result ≡ kind_numbered number }
{
    match number {
        0 => Kind::Register,
        1 => Kind::CasRegister,
        2 => Kind::Fifo,
        3 => Kind::Set,
        4 => Kind::Mutex,
        _ => Kind::Bag,
    }
}

/// What a run is told.
pub fn settings_of(options: Options) -> Settings
    ensures { result ≡ said.settings_of options }
{
    Settings {
        kind: kind_of(options.kind),
        keyed: options.keyed == 1,
        budget: options.budget,
        at_least: 0,
    }
}

/// How an answer is printed.
pub fn format_of(options: Options) -> ReportFormat
    ensures { result ≡ said.format_of options }
{
    if options.json == 1 {
        ReportFormat::Json
    } else {
        ReportFormat::Text
    }
}

/// What is asked, about the object of the key that a text names, or the whole where the text is empty; none where it names no key.
pub fn question_of(options: Options, key: &[u8]) -> Option<Question<'_>>
    ensures { MatchOption result (NamesNone key.now) (IsQuestion options key.now) }
{
    let question = Question {
        key: None,
        all_keys: false,
        with_order: options.order == 1,
        format: format_of(options),
    };
    if key.is_empty() {
        return Some(question);
    }
    let key = item_in(key)?;
    Some(Question {
        key: Some(key),
        ..question
    })
}
