//! What is handed back to a caller.
ghost use Rattle.std.specs.Prelude.{◌≡◌, ◌≢◌};
ghost use Rattle.lin_embedded.specs.Calls as said;
ghost use Rattle.lin_embedded.specs.Calls.{HandsBack, IsJust};

use lin_report::Status;

/// A text, and the status of a run that prints it.
#[derive(Drop)]
pub struct Found {
    pub text: Vec<u8>,
    pub status: Status,
}

/// How a call ends.
#[derive(Clone, Copy, Debug, PartialEq, Eq)]
pub enum CallEnd {
    /// The text was put into the room, and this is its status.
    Told(Status),
    /// The options say nothing, or the key's text names no key.
    BadOptions,
    /// No event of the history has the key.
    NoKey,
    /// Memory was refused, or the history has more than 1,099,511,627,776 bytes.
    OutOfMemory,
    /// The text is longer than the room.
    TooLittleRoom,
    /// What was asked for was done.
    Done,
    /// The handle holds no session.
    NoSession,
}

/// The number of a status, as the command exits with it.
fn status_number(status: Status) -> u32
    ensures { result ≡ said.status_number status }
{
    match status {
        Status::Yes => 0,
        Status::No => 1,
        Status::Undecided => 2,
        Status::IllFormed => 3,
        Status::Refused => 4,
    }
}

impl CallEnd {
    /// The number that stands for it.
    pub fn number(self) -> u32
        ensures { result ≡ said.number_of self }
    {
        match self {
            CallEnd::Told(status) => status_number(status),
            CallEnd::BadOptions | CallEnd::NoKey => 5,
            CallEnd::OutOfMemory => 6,
            CallEnd::NoSession => 7,
            CallEnd::TooLittleRoom => 8,
            CallEnd::Done => 0,
        }
    }
}

/// Puts the text into the beginning of the room, where it fits, and tells its length.
pub fn hand_back(found: &Found, room: &mut [u8], needed: &mut usize) -> CallEnd
    ensures hands { HandsBack (IsJust found.now.text.items found.now.status) room.old room.new needed.old needed.new result }
    ensures good { result ≢ CallEnd.BadOptions }
{
    let text = found.text.as_slice();
    *needed = text.len();
    if room.len() < text.len() {
        return CallEnd::TooLittleRoom;
    }
    room[..text.len()].copy_from_slice(text);
    CallEnd::Told(found.status)
}
