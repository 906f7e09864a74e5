//! What a command line says.

use lin_names::Said;
use lin_texts::Settings;

/// How an answer is printed.
#[derive(Clone, Copy, Debug, PartialEq, Eq)]
pub enum Format {
    /// As lines for a reader.
    Text,
    /// As one line of JSON.
    Json,
}

/// Where an order is found.
#[derive(Clone, Copy, Debug, PartialEq, Eq)]
pub enum OrderSource<'a> {
    /// In the command line: its text.
    Given(&'a str),
    /// In the file of this name.
    InFile(&'a str),
}

/// A command line that is understood. The name `-` of a file is that of standard input, but for `Edit`.
#[derive(Drop)]
pub enum Line<'a> {
    /// Decide whether histories are linearizable.
    Check {
        /// The kind of the objects, how files are read, and the budget.
        settings: Settings,
        /// How the reports are printed.
        format: Format,
        /// The files' names, one at least.
        files: Vec<&'a str>,
    },
    /// Tell why the answer about a history is what it is.
    Explain {
        /// The kind of the objects, how the file is read, and the budget.
        settings: Settings,
        /// The object that is asked about, if not the whole.
        key: Option<Said<'a>>,
        /// Whether each object that isn't a yes is asked about, where no key is.
        all_keys: bool,
        /// Whether a yes ends with a legal order.
        with_order: bool,
        /// How the explanation is printed.
        format: Format,
        /// The file's name.
        file: &'a str,
    },
    /// Draw a history.
    Draw {
        /// The kind of the objects, how the file is read, and the budget.
        settings: Settings,
        /// The object that is drawn, if not the whole.
        key: Option<Said<'a>>,
        /// How many operations are drawn at most, however wide they are, if that is said.
        last: Option<u32>,
        /// The file's name.
        file: &'a str,
    },
    /// Decide whether an order is a legal order of histories.
    Verify {
        /// The kind of the objects, how files are read, and the budget.
        settings: Settings,
        /// The order.
        order: OrderSource<'a>,
        /// The files' names, one at least.
        files: Vec<&'a str>,
    },
    /// Carry out commands on a history.
    Edit {
        /// The kind of the objects, how the file is read, and the budget.
        settings: Settings,
        /// The name of the file that is pulled from, if there is one.
        file: Option<&'a str>,
    },
}
