//! What a command and its arguments say.
ghost use Rattle.std.specs.Prelude.{◌≡◌, ◌<◌, ◌≤◌, ◌^◌, ◌⊎◌, ◌++◌, ◌∷◌, [], ℕ, false, codes, is_ok, length, map, option_and_then, option_map, IfErr, IfNone, IfOk, IfSome, MatchBool};
ghost use Rattle.clap.specs.Words.{first_of, found_of, rows_of};
ghost use Rattle.lin_texts.specs.Orders.{order_written};
ghost use Rattle.lin_program.specs.declared.words.Line.TheVariants as LineOf;
ghost use Rattle.lin_program.specs.declared.words.OrderSource.TheVariants as OrderOf;
ghost use Rattle.lin_program.specs.CommandLine.{is_given as given, EndInOrder, GivesKey, GivesLast, HasSettings, IsLeast, IsUnsaid, LacksKey, LacksSettings, SpellsCount, Says, texts_of};
ghost use Rattle.lin_program.specs.CommandLine as said;

use crate::misuse::NoLine;
use crate::words::{Format, Line, OrderSource};
use clap::ArgMatches;
use lin_names::{Names, Said, names_grow};
use lin_texts::{OrderFault, Settings, item_in, kind_named, read_order};
use std::alloc::{AllocError, Global};

/// The greatest budget, and the greatest number of events of a file.
const MOST: u32 = 1_000_000;

/// The text that `clap` found for the name.
fn text_of<'a>(matches: &ArgMatches<'a>, name: &str) -> Option<&'a str>
    ensures { option_map (λ text. text.now) result ≡ first_of name.now (rows_of (found_of matches.now)) }
{
    matches.get_str(name)
}

/// The words that `clap` found for files.
fn words_of<'a>(alloc: Global, matches: &ArgMatches<'a>) -> Result<Vec<&'a str>, AllocError>
    ensures { IfOk result (λ words. map (λ word. word.now) words.items ≡ texts_of (codes "file") (rows_of (found_of matches.now))) }
{
    match matches.get_raw("file") {
        Some(words) => Vec::from_slice(alloc, words),
        None => Ok(Vec::new(alloc)),
    }
}

/// Whether the text of a flag says that it was given.
fn is_given(text: Option<&str>) -> bool
    ensures { result ≡ given (option_map (λ word. word.now) text.entry) }
{
    match text {
        Some(word) => word == "true",
        None => false,
    }
}

/// The number that a text spells, where it is 1 to 1,000,000.
fn count_of(text: &str) -> Option<u32>
    ensures some { IfSome result (SpellsCount text.now) }
    ensures none { IfNone result ((n : ℕ) → SpellsCount text.now n → ⊥) }
{
    match text.parse::<u32>() {
        Ok(count) if 1 <= count && count <= MOST => Some(count),
        _ => None,
    }
}

/// The way of printing that a word names, if it names one.
fn format_named(word: &str) -> Option<Format>
    ensures { result ≡ said.format_named word.now }
{
    match word {
        "text" => Some(Format::Text),
        "json" => Some(Format::Json),
        _ => None,
    }
}

/// How many events of clients a file has to have at least, 0 where nothing is said of that; none where `clap` found no number.
fn least_of<'a>(matches: &ArgMatches<'a>) -> Option<u32>
    ensures some { IfSome result (IsLeast (first_of (codes "at-least") (rows_of (found_of matches.now)))) }
    ensures none { IfNone result ((n : ℕ) → IsLeast (first_of (codes "at-least") (rows_of (found_of matches.now))) n → ⊥) }
{
    match text_of(matches, "at-least") {
        Some(text) => count_of(text),
        None => Some(0),
    }
}

/// How many operations are drawn at most, if that is said; none where `clap` found no number.
fn last_of<'a>(matches: &ArgMatches<'a>) -> Option<Option<u32>>
    ensures { IfSome result (GivesLast (rows_of (found_of matches.now))) }
{
    match text_of(matches, "last") {
        Some(text) => match count_of(text) {
            Some(count) => Some(Some(count)),
            None => None,
        },
        None => Some(None),
    }
}

/// What the options say; none where `clap` found no word for a kind, or no budget: both have defaults.
fn settings_of<'a>(matches: &ArgMatches<'a>) -> Option<Settings>
    ensures some { IfSome result (HasSettings (rows_of (found_of matches.now))) }
    ensures none { IfNone result (LacksSettings (rows_of (found_of matches.now))) }
{
    let Some(word) = text_of(matches, "kind") else {
        return None;
    };
    let Some(kind) = kind_named(word.as_bytes()) else {
        return None;
    };
    let Some(budget) = text_of(matches, "budget") else {
        return None;
    };
    let Some(budget) = count_of(budget) else {
        return None;
    };
    let Some(at_least) = least_of(matches) else {
        return None;
    };
    Some(Settings {
        kind,
        keyed: is_given(text_of(matches, "keyed")),
        budget,
        at_least,
    })
}

/// The key that is asked about, if one is.
fn key_of<'a>(matches: &ArgMatches<'a>) -> Result<Option<Said<'a>>, NoLine>
    ensures given { IfOk result (GivesKey (rows_of (found_of matches.now))) }
    ensures none { IfErr result (λ why. (why ≡ NoLine.NoKey) × LacksKey (rows_of (found_of matches.now))) }
{
    match text_of(matches, "key") {
        Some(text) => match item_in(text.as_bytes()) {
            Some(key) => Ok(Some(key)),
            None => Err(NoLine::NoKey),
        },
        None => Ok(None),
    }
}

/// How the answer is printed; none where `clap` found no such word, which has a default.
fn format_of<'a>(matches: &ArgMatches<'a>) -> Option<Format>
    ensures { result ≡ option_and_then said.format_named (first_of (codes "format") (rows_of (found_of matches.now))) }
{
    match text_of(matches, "format") {
        Some(word) => format_named(word),
        None => None,
    }
}

/// How many of the names are that of standard input.
fn input_count(names: &[&str]) -> usize
    ensures count { result ≡ said.input_count (map (λ name. name.now) names.now) }
    ensures fits { result ≤ length names.now }
{
    let mut count = 0;
    for name in names {
        if *name == "-" {
            count += 1;
        }
    }
    count
}

/// How often a word that `clap` found for the name is that of standard input.
fn inputs_at<'a>(matches: &ArgMatches<'a>, name: &str) -> usize
    ensures count { result ≡ said.input_count (texts_of name.now (rows_of (found_of matches.now))) }
    ensures fits { result < 2 ^ 62 }
{
    match matches.get_raw(name) {
        Some(names) => input_count(names),
        None => 0,
    }
}

/// Whether standard input, which can be read once, is named more often.
fn names_input_twice<'a>(matches: &ArgMatches<'a>) -> bool
    ensures { result ≡ said.names_input_twice (rows_of (found_of matches.now)) }
{
    1 < inputs_at(matches, "file") + inputs_at(matches, "order-file")
}

/// Whether a word is the text of an order.
fn is_order(alloc: Global, word: &str) -> Result<bool, NoLine>
    ensures is { IfOk result (λ is. is ≡ is_ok (order_written word.now)) }
    ensures memory { IfErr result (λ why. why ≡ NoLine.Unsaid) }
{
    names_grow();
    let mut names = Names::new(alloc);
    match read_order(alloc, word.as_bytes(), &mut names) {
        Ok(_) => Ok(true),
        Err(OrderFault::BadPair { .. }) => Ok(false),
        Err(OrderFault::OutOfMemory) => Err(NoLine::Unsaid),
    }
}

/// Whether the last of two words or more is the text of an order.
fn end_in_order(alloc: Global, words: &[&str]) -> Result<bool, NoLine>
    ensures ends { IfOk result (λ ends. MatchBool ends (EndInOrder (map (λ w. w.now) words.now)) (EndInOrder (map (λ w. w.now) words.now) → ⊥)) }
    ensures memory { IfErr result (λ why. why ≡ NoLine.Unsaid) }
{
    let Some((last, others)) = words.split_last() else {
        return Ok(false);
    };
    if others.is_empty() {
        return Ok(false);
    }
    is_order(alloc, last)
}

/// What `check` and its arguments say.
fn check_line<'a>(
    alloc: Global,
    settings: Settings,
    matches: &ArgMatches<'a>,
) -> Result<Line<'a>, NoLine>
    requires settings { HasSettings (rows_of (found_of matches.now)) settings }
    requires once { said.names_input_twice (rows_of (found_of matches.now)) ≡ false }
    ensures said { IfOk result (Says (codes "check", rows_of (found_of matches.now))) }
    ensures unsaid { IfErr result (λ why. why ≡ NoLine.Unsaid) }
{
    let files = words_of(alloc, matches)?;
    match format_of(matches) {
        Some(format) if !files.is_empty() => Ok(Line::Check {
            settings,
            format,
            files,
        }),
        _ => Err(NoLine::Unsaid),
    }
}

/// What `explain` and its arguments say.
fn explain_line<'a>(settings: Settings, matches: &ArgMatches<'a>) -> Result<Line<'a>, NoLine>
    requires { HasSettings (rows_of (found_of matches.now)) settings }
    ensures said { IfOk result (Says (codes "explain", rows_of (found_of matches.now))) }
    ensures unsaid { IfErr result (IsUnsaid (codes "explain", rows_of (found_of matches.now))) }
{
    let key = key_of(matches)?;
    let (Some(format), Some(file)) = (format_of(matches), text_of(matches, "file")) else {
        return Err(NoLine::Unsaid);
    };
    Ok(Line::Explain {
        settings,
        key,
        all_keys: is_given(text_of(matches, "all-keys")),
        with_order: is_given(text_of(matches, "order")),
        format,
        file,
    })
}

/// What `draw` and its arguments say.
fn draw_line<'a>(settings: Settings, matches: &ArgMatches<'a>) -> Result<Line<'a>, NoLine>
    requires { HasSettings (rows_of (found_of matches.now)) settings }
    ensures said { IfOk result (Says (codes "draw", rows_of (found_of matches.now))) }
    ensures unsaid { IfErr result (IsUnsaid (codes "draw", rows_of (found_of matches.now))) }
{
    let key = key_of(matches)?;
    let (Some(last), Some(file)) = (last_of(matches), text_of(matches, "file")) else {
        return Err(NoLine::Unsaid);
    };
    Ok(Line::Draw {
        settings,
        key,
        last,
        file,
    })
}

/// What `verify` says with these words and no file of an order: the last one is the order.
fn verify_given<'a>(settings: Settings, words: Vec<&'a str>) -> Result<Line<'a>, NoLine>
    ensures said { IfOk result (λ line. (order : _) × (files : _) × (line ≡ LineOf.Verify settings (OrderOf.Given order) files) × (0 < length files.items) × (words.entry.items ≡ files.items ++ order ∷ [])) }
    ensures unsaid { IfErr result (λ why. (why ≡ NoLine.NoOrder) × (length words.entry.items < 2)) }
{
    let mut files = words;
    match files.pop() {
        Some(order) if !files.is_empty() => Ok(Line::Verify {
            settings,
            order: OrderSource::Given(order),
            files,
        }),
        _ => Err(NoLine::NoOrder),
    }
}

/// What `verify` says with these words and the name of a file with an order: each word names a file.
fn verify_in_file<'a>(
    alloc: Global,
    settings: Settings,
    name: &'a str,
    words: Vec<&'a str>,
) -> Result<Line<'a>, NoLine>
    ensures said { IfOk result (λ line. (line ≡ LineOf.Verify settings (OrderOf.InFile name.entry) words.entry) × (0 < length words.entry.items) × (EndInOrder (map (λ w. w.now) words.entry.items) → ⊥)) }
    ensures unsaid { IfErr result (λ why. (why ≡ NoLine.Unsaid) ⊎ ((why ≡ NoLine.TwoOrders) × EndInOrder (map (λ w. w.now) words.entry.items))) }
{
    if words.is_empty() {
        return Err(NoLine::Unsaid);
    }
    if end_in_order(alloc, words.as_slice())? {
        return Err(NoLine::TwoOrders);
    }
    Ok(Line::Verify {
        settings,
        order: OrderSource::InFile(name),
        files: words,
    })
}

/// What `verify` and its arguments say.
fn verify_line<'a>(
    alloc: Global,
    settings: Settings,
    matches: &ArgMatches<'a>,
) -> Result<Line<'a>, NoLine>
    requires settings { HasSettings (rows_of (found_of matches.now)) settings }
    requires once { said.names_input_twice (rows_of (found_of matches.now)) ≡ false }
    ensures said { IfOk result (Says (codes "verify", rows_of (found_of matches.now))) }
    ensures unsaid { IfErr result (IsUnsaid (codes "verify", rows_of (found_of matches.now))) }
{
    let words = words_of(alloc, matches)?;
    match text_of(matches, "order-file") {
        Some(name) => verify_in_file(alloc, settings, name, words),
        None => verify_given(settings, words),
    }
}

/// What a command and its arguments say, or why they say no line.
pub fn line_of<'a>(
    alloc: Global,
    command: &str,
    matches: &ArgMatches<'a>,
) -> Result<Line<'a>, NoLine>
    ensures said { IfOk result (Says (command.now, rows_of (found_of matches.now))) }
    ensures unsaid { IfErr result (IsUnsaid (command.now, rows_of (found_of matches.now))) }
{
    let Some(settings) = settings_of(matches) else {
        return Err(NoLine::Unsaid);
    };
    if names_input_twice(matches) {
        return Err(NoLine::InputTwice);
    }
    match command {
        "check" => check_line(alloc, settings, matches),
        "explain" => explain_line(settings, matches),
        "draw" => draw_line(settings, matches),
        "verify" => verify_line(alloc, settings, matches),
        "edit" => Ok(Line::Edit {
            settings,
            file: text_of(matches, "file"),
        }),
        _ => Err(NoLine::Unsaid),
    }
}
