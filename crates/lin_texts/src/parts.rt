//! The parts into which a byte divides a text, and its words.
ghost use Rattle.std.specs.Prelude.{◌≡◌, ◌<◌, ◌≤◌, ◌∷◌, [], ℕ, length, drop, slice_index, slice_range, ◌≢◌, MatchOption};
ghost use Rattle.lin_texts.specs.Parts as said;
ghost use Rattle.lin_texts.specs.Parts.{filled_from, parts_behind, parts_from, words_from, IsFirstFilled, IsFirstWord, Part};

/// What a text is divided into.
#[derive(Clone, Copy)]
pub(crate) enum Division {
    /// The words of a command line, between spaces.
    Words,
    /// The pairs of an order, between spaces.
    Pairs,
    /// The members between braces, between commas.
    Members,
}

/// How a byte stands to the strings of a part.
#[derive(Clone, Copy)]
pub(crate) enum Standing {
    /// A string may begin here.
    Fresh,
    /// Behind a `#` that stands where a string may begin.
    Hashed,
    /// In a string.
    Quoted,
    /// In a string, behind a backslash.
    Escaped,
    /// Anywhere else.
    Plain,
}

/// A word of a text, and the place of its first byte.
#[derive(Clone, Copy)]
pub struct Word<'a> {
    pub at: usize,
    pub text: &'a [u8],
}

impl Division {
    fn separator(self) -> u8
        ensures { result ≡ said.separator self }
    {
        match self {
            Division::Words | Division::Pairs => b' ',
            Division::Members => b',',
        }
    }

    /// How a byte stands behind one that belongs to no string.
    fn behind(self, byte: u8) -> Standing
        ensures { result ≡ said.behind self byte }
    {
        match (self, byte) {
            (Division::Pairs, b'=' | b'{' | b',') => Standing::Fresh,
            _ => Standing::Plain,
        }
    }
}

impl Standing {
    /// How the byte stands that comes next.
    fn next(self, division: Division, byte: u8) -> Standing
        ensures { result ≡ said.next division self byte }
    {
        match (self, byte) {
            (Standing::Fresh | Standing::Hashed, b'"') => Standing::Quoted,
            (Standing::Fresh, b'#') => Standing::Hashed,
            (Standing::Fresh | Standing::Hashed | Standing::Plain, _) => division.behind(byte),
            (Standing::Quoted, b'"') => Standing::Plain,
            (Standing::Quoted, b'\\') => Standing::Escaped,
            (Standing::Quoted | Standing::Escaped, _) => Standing::Quoted,
        }
    }

    fn is_inside(self) -> bool
        ensures { result ≡ said.is_inside self }
    {
        matches!(self, Standing::Quoted | Standing::Escaped)
    }

    /// Whether the byte that stands so divides.
    fn divides(self, division: Division, byte: u8) -> bool
        ensures { result ≡ said.divides division self byte }
    {
        !self.is_inside() && byte == division.separator()
    }
}

/// The place where bytes up to the next separator end, or the text's end.
pub fn end_of_part(text: &[u8], from: usize, separator: u8) -> usize
    requires { from ≤ length text.now }
    ensures later { from ≤ result }
    ensures within { result ≤ length text.now }
    ensures stops { result < length text.now → slice_index text.now result ≡ separator }
    ensures inner { (k : ℕ) → from ≤ k → k < result → slice_index text.now k ≢ separator }
{
    for at in from..text.len() {
        if text[at] == separator {
            return at;
        }
    }
    text.len()
}

/// The place where the part that begins at `from` ends: that of the next separator that stands in no string, or the text's end.
pub(crate) fn part_end(text: &[u8], from: usize, division: Division) -> usize
    requires { from ≤ length text.now }
    ensures later { from ≤ result }
    ensures within { result ≤ length text.now }
    ensures stops { result < length text.now → slice_index text.now result ≡ said.separator division }
    ensures part { parts_from division from (drop from text.now)
        ≡ (record { at = from; text = slice_range text.now from result }) ∷ parts_behind division result (drop result text.now) }
{
    let mut standing = Standing::Fresh;
    for at in from..text.len() {
        let byte = text[at];
        if standing.divides(division, byte) {
            return at;
        }
        standing = standing.next(division, byte);
    }
    text.len()
}

/// The first place from `from` on where no separator stands, or the text's end.
fn end_of_separators(text: &[u8], from: usize, division: Division) -> usize
    requires { from ≤ length text.now }
    ensures later { from ≤ result }
    ensures within { result ≤ length text.now }
    ensures parts { filled_from division from (drop from text.now) ≡ filled_from division result (drop result text.now) }
    ensures part { result < length text.now → slice_index text.now result ≢ said.separator division }
{
    for at in from..text.len() {
        if text[at] != division.separator() {
            return at;
        }
    }
    text.len()
}

/// The first part from `from` on that isn't empty.
pub(crate) fn next_filled(text: &[u8], from: usize, division: Division) -> Option<Word<'_>>
    requires { from ≤ length text.now }
    ensures { MatchOption result (filled_from division from (drop from text.now) ≡ [])
        (λ word. IsFirstFilled division text.now from (record { at = word.at; text = word.text.now })) }
{
    let at = end_of_separators(text, from, division);
    if at == text.len() {
        return None;
    }
    let end = part_end(text, at, division);
    Some(Word {
        at,
        text: &text[at..end],
    })
}

/// The first word of a command line from `from` on. One that begins with `"` or `#"` runs through its closing quote to the next space, or to
/// the line's end where no quote closes; any other ends at the next space.
pub fn next_word(text: &[u8], from: usize) -> Option<Word<'_>>
    requires { from ≤ length text.now }
    ensures { MatchOption result (words_from from (drop from text.now) ≡ [])
        (λ word. IsFirstWord text.now from (record { at = word.at; text = word.text.now })) }
{
    next_filled(text, from, Division::Words)
}
