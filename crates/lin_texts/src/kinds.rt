//! The words for the kinds of objects.
ghost use Rattle.std.specs.Prelude.{◌≡◌, map};
ghost use Rattle.lin_texts.specs.Kinds as said;
ghost use Rattle.lin_texts.specs.Kinds.{KindWordsAreRead};

use lin_objects::Kind;

/// All kinds.
const KINDS: [Kind; 6] = [
    Kind::Register,
    Kind::CasRegister,
    Kind::Fifo,
    Kind::Set,
    Kind::Mutex,
    Kind::Bag,
];

/// The words for all kinds, in the same order.
const WORDS: [&str; 6] = [
    "register",
    "cas-register",
    "fifo",
    "set",
    "mutex",
    "unordered-queue",
];

/// The words for all kinds.
pub fn kind_words<'a>() -> &'a [&'a str]
    ensures { map (λ word. word.now) result.now ≡ said.kind_words }
{
    WORDS.as_slice()
}

/// The word for a kind.
pub fn kind_word(kind: Kind) -> &'static str
    ensures { result.now ≡ said.kind_text kind }
{
    WORDS[kind as usize]
}

/// The kind that a word names, if it names one.
pub fn kind_named(word: &[u8]) -> Option<Kind>
    ensures { result ≡ said.kind_named word.now }
{
    KINDS
        .iter()
        .copied()
        .find(|kind| kind_word(*kind).as_bytes() == word)
}

/// The word for a kind names it. The function does nothing.
pub fn kind_words_are_read()
    ensures { KindWordsAreRead }
{}
