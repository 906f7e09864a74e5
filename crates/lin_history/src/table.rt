//! Events from the maps that recorders write.
ghost use Rattle.std.specs.Prelude.{◌≡◌, false, ℕ, Bool, ◌||◌, ◌++◌, [], ◌∷◌, true, Some, None, map, option_map, Err, MatchOption, IsTrue, IsSome, is_some, IfOk, OnErr};
ghost use Rattle.std.specs.List.{list_any};
ghost use Rattle.std.specs.Str.{bytes_eq};
ghost use Rattle.lin_bytes.specs.Bytes.{is_newline};
ghost use Rattle.lin_edn.specs.Run.{run_value};
ghost use Rattle.lin_edn.specs.Value.{Value, int, keyword, map as map_value, nil as nil_value, values_of, entries_of};
ghost use Rattle.lin_edn.specs.View.{view, entry_view};
ghost use Rattle.lin_names.specs.Names.{AgreesWith, Begins, Numbering};
ghost use Rattle.lin_names.specs.Spelled.{numbered as item_numbered, seen as seen_as};
ghost use Rattle.lin_history.specs.Reading.{Reading, IsReading};
ghost use Rattle.lin_history.specs.Table as table;
ghost use Rattle.lin_history.specs.Table.{bare as bare_value, is_word as says, under, is_several, event, IsAnswer};
ghost use Rattle.lin_events.specs.declared.calls.Name.TheVariants.{Cas};
ghost use Rattle.lin_events.specs.declared.calls.Call.TheVariants as call;
ghost use Rattle.lin_events.specs.declared.calls.Reply.TheVariants.{Members, Value as Saw};
ghost use Rattle.lin_history.specs.declared.table.EventFault.TheVariants.{NotAMap};
ghost use Rattle.lin_history.specs.inner.Fields.{found, given_view, plain_of as plain_said, plain_view, both_plain, is_word_plain, is_word_said, val_in, IsPut, IsKept, IsFields, IsMade};

use lin_edn::{Edn, Entry};
use lin_events::{Body, Call, Event, IntSet, Item, Name, OutOfMemory, Reply, Val};
use lin_names::{Names, Said};
use std::alloc::Global;

/// Why an element says no event: the first of these that holds.
#[derive(Clone, Copy, Debug, PartialEq, Eq)]
pub enum EventFault {
    /// It isn't a map.
    NotAMap,
    /// `:process`, `:type`, `:f` or `:value` stands twice.
    DuplicateKey,
    /// `:process`, `:type` or `:f` isn't there.
    Missing,
    /// `:process` isn't an integer of at least 0.
    BadProcess,
    /// `:type` isn't `:invoke`, `:ok`, `:fail` or `:info`.
    BadType,
    /// `:f` is no function of the objects.
    BadFunction,
    /// With keys, `:value` isn't a pair that begins with an item.
    BadKey,
    /// The value isn't of the form that its type and function ask for.
    BadValue,
    /// Memory was refused.
    OutOfMemory,
}

#[derive(Clone, Copy)]
pub(crate) enum EventType {
    Invoke,
    Ok,
    Fail,
    Info,
}

/// Nil or an item, as a text says it.
#[derive(Clone, Copy)]
pub(crate) enum Plain<'a> {
    Nil,
    Item(Said<'a>),
}

/// The value of an operation, without tags.
#[derive(Clone, Copy)]
pub(crate) enum Given<'e, 'a> {
    /// One for which no element has to be built.
    Plain(Plain<'a>),
    Element(&'e Edn<'a>),
}

/// The values of the keys that count, without tags.
#[derive(Clone, Copy)]
struct Fields<'e, 'a> {
    process: Option<&'e Edn<'a>>,
    event_type: Option<&'e Edn<'a>>,
    function: Option<&'e Edn<'a>>,
    value: Option<&'e Edn<'a>>,
}

/// An element without the tags in front of it.
pub(crate) fn bare<'e, 'a>(element: &'e Edn<'a>) -> &'e Edn<'a>
    ensures { view result.now ≡ bare_value (view element.entry.now) }
{
    match element {
        Edn::Tagged(_, inner) => bare(inner.as_ref()),
        _ => element,
    }
}

/// Whether a word is another. Unlike `==` this calls nothing where the other one is known, which tells in the time of reading.
#[inline(always)]
pub(crate) fn is_same(word: &[u8], other: &[u8]) -> bool
    ensures { result ≡ bytes_eq word.now other.now }
{
    if word.len() != other.len() {
        return false;
    }
    other.starts_with(word)
}

/// Whether an element is a keyword.
pub(crate) fn is_word(element: &Edn, word: &[u8]) -> bool
    ensures { result ≡ says word.now (view element.now) }
{
    match element {
        Edn::Keyword(span) => is_same(span.text, word),
        _ => false,
    }
}

/// Keeps the value of a key that stands once.
fn put<'e, 'a>(slot: &mut Option<&'e Edn<'a>>, value: &'e Edn<'a>) -> Result<(), EventFault>
    ensures { IsPut slot.old (view value.entry.now) slot.new result }
{
    if slot.is_some() {
        return Err(EventFault::DuplicateKey);
    }
    *slot = Some(value);
    Ok(())
}

/// Keeps an entry whose key counts.
fn keep<'e, 'a>(fields: &mut Fields<'e, 'a>, entry: &'e Entry<'a>) -> Result<(), EventFault>
    ensures { IsKept fields.old (entry_view entry.entry.now) fields.new result }
{
    if is_word(&entry.key, b":process") {
        return put(&mut fields.process, bare(&entry.value));
    }
    if is_word(&entry.key, b":type") {
        return put(&mut fields.event_type, bare(&entry.value));
    }
    if is_word(&entry.key, b":f") {
        return put(&mut fields.function, bare(&entry.value));
    }
    if is_word(&entry.key, b":value") {
        return put(&mut fields.value, bare(&entry.value));
    }
    Ok(())
}

/// The values of a map's keys that count.
fn fields_of<'e, 'a>(entries: &'e [Entry<'a>]) -> Result<Fields<'e, 'a>, EventFault>
    ensures { IsFields (entries_of (map entry_view entries.entry.now)) result }
{
    let mut fields = Fields {
        process: None,
        event_type: None,
        function: None,
        value: None,
    };
    for entry in entries {
        keep(&mut fields, entry)?;
    }
    Ok(fields)
}

/// The type that a word says.
pub(crate) fn type_named(word: &[u8]) -> Option<EventType>
    ensures keyword { result ≡ table.type_of (keyword 0 word.now) }
    ensures run { (p : ℕ) → result ≡ table.type_of (run_value p word.now) }
{
    if is_same(word, b":invoke") {
        return Some(EventType::Invoke);
    }
    if is_same(word, b":ok") {
        return Some(EventType::Ok);
    }
    if is_same(word, b":fail") {
        return Some(EventType::Fail);
    }
    if is_same(word, b":info") {
        return Some(EventType::Info);
    }
    None
}

/// The function that a word says.
pub(crate) fn function_named(word: &[u8]) -> Option<Name>
    ensures keyword { result ≡ table.function_of (keyword 0 word.now) }
    ensures run { (p : ℕ) → result ≡ table.function_of (run_value p word.now) }
{
    if is_same(word, b":read") {
        return Some(Name::Read);
    }
    if is_same(word, b":write") {
        return Some(Name::Write);
    }
    if is_same(word, b":cas") {
        return Some(Name::Cas);
    }
    if is_same(word, b":enqueue") {
        return Some(Name::Enqueue);
    }
    if is_same(word, b":dequeue") {
        return Some(Name::Dequeue);
    }
    if is_same(word, b":add") {
        return Some(Name::Add);
    }
    if is_same(word, b":acquire") {
        return Some(Name::Acquire);
    }
    if is_same(word, b":release") {
        return Some(Name::Release);
    }
    None
}

fn type_of(element: &Edn) -> Option<EventType>
    ensures { result ≡ table.type_of (view element.now) }
{
    match element {
        Edn::Keyword(span) => type_named(span.text),
        _ => None,
    }
}

fn function_of(element: &Edn) -> Option<Name>
    ensures { result ≡ table.function_of (view element.now) }
{
    match element {
        Edn::Keyword(span) => function_named(span.text),
        _ => None,
    }
}

/// The process that an integer says.
pub(crate) fn process_number(number: i64) -> Option<u64>
    ensures { result ≡ table.process_of (int number) }
{
    u64::try_from(number).ok()
}

fn process_of(element: &Edn) -> Option<u64>
    ensures { result ≡ table.process_of (view element.now) }
{
    match element {
        Edn::Int(number) => process_number(*number),
        _ => None,
    }
}

/// Whether a string holds the end of a line.
fn has_newline(word: &[u8]) -> bool
    ensures { result ≡ list_any is_newline word.now }
{
    word.contains(&b'\n')
}

/// The word that a string is, if it holds no end of a line.
pub(crate) fn word_in(string: &[u8]) -> Option<Said<'_>>
    ensures { option_map seen_as result ≡ table.word_of string.entry.now }
{
    if has_newline(string) {
        return None;
    }
    Some(Said::Word(string))
}

/// The item that an element says.
fn said_in<'a>(element: &Edn<'a>) -> Option<Said<'a>>
    ensures { option_map seen_as result ≡ table.said_of (view element.entry.now) }
{
    match element {
        Edn::Int(number) => Some(Said::Int(*number)),
        Edn::Bool(truth) => Some(Said::Bool(*truth)),
        Edn::Keyword(span) => Some(Said::Word(span.text)),
        Edn::Text(span) => word_in(span.text),
        _ => None,
    }
}

/// Nil or the item that an element says.
fn plain_in<'a>(element: &Edn<'a>) -> Option<Plain<'a>>
    ensures { option_map plain_view result ≡ plain_said (view element.entry.now) }
{
    match element {
        Edn::Nil => Some(Plain::Nil),
        _ => Some(Plain::Item(said_in(element)?)),
    }
}

/// The two of exactly two elements, without tags.
fn both_of<'e, 'a>(elements: &'e [Edn<'a>]) -> Option<(&'e Edn<'a>, &'e Edn<'a>)>
    ensures { option_map (λ p. (view p.0.now, view p.1.now)) result ≡ table.both_of (values_of (map view elements.entry.now)) }
{
    if elements.len() != 2 {
        return None;
    }
    Some((bare(&elements[0]), bare(&elements[1])))
}

/// The two elements of a vector or list of exactly two, without tags.
fn pair_of<'e, 'a>(element: &'e Edn<'a>) -> Option<(&'e Edn<'a>, &'e Edn<'a>)>
    ensures { option_map (λ p. (view p.0.now, view p.1.now)) result ≡ table.pair_of (view element.entry.now) }
{
    match element {
        Edn::Vector(elements) => both_of(elements.as_slice()),
        Edn::List(elements) => both_of(elements.as_slice()),
        _ => None,
    }
}

/// The item that is said, a word by its number, which alone may take memory.
#[inline(always)]
fn numbered(said: Said, names: &mut Names) -> Result<Item, OutOfMemory>
    ensures begun { Begins names.old names.new }
    ensures word { OnErr result (is_word_said (seen_as said.entry) ≡ true) }
    ensures item { IfOk result (λ item. (number : Numbering) → AgreesWith names.new number → item ≡ item_numbered number (seen_as said.entry)) }
{
    match said {
        Said::Int(number) => Ok(Item::Int(number)),
        Said::Bool(truth) => Ok(Item::Bool(truth)),
        Said::Word(_) => said.item(names),
    }
}

impl Plain<'_> {
    /// The value, with words by their numbers.
    #[inline(always)]
    fn val(self, names: &mut Names) -> Result<Val, OutOfMemory>
        ensures begun { Begins names.old names.new }
        ensures word { OnErr result (is_word_plain (plain_view self.entry) ≡ true) }
        ensures val { IfOk result (λ val. (number : Numbering) → AgreesWith names.new number → val ≡ val_in number (plain_view self.entry)) }
    {
        match self {
            Plain::Nil => Ok(Val::Nil),
            Plain::Item(item) => Ok(Val::Item(numbered(item, names)?)),
        }
    }
}

impl<'a> Given<'_, 'a> {
    /// Nil or an item.
    fn plain(self) -> Option<Plain<'a>>
        ensures { option_map plain_view result ≡ plain_said (given_view self.entry) }
    {
        match self {
            Given::Plain(plain) => Some(plain),
            Given::Element(element) => plain_in(element),
        }
    }

    fn item(self) -> Option<Said<'a>>
        ensures { option_map seen_as result ≡ table.said_of (given_view self.entry) }
    {
        match self {
            Given::Plain(Plain::Item(item)) => Some(item),
            Given::Plain(Plain::Nil) => None,
            Given::Element(element) => said_in(element),
        }
    }

    /// The value of a call or reply that is nil or an item.
    #[inline(always)]
    fn val(self, names: &mut Names) -> Result<Val, EventFault>
        ensures begun { Begins names.old names.new }
        ensures val { (m : Reading) → AgreesWith names.new m.number → IsMade table.val_takes (table.val_of m (given_view self.entry)) result }
    {
        let Some(plain) = self.plain() else {
            return Err(EventFault::BadValue);
        };
        match plain.val(names) {
            Ok(val) => Ok(val),
            Err(_) => Err(EventFault::OutOfMemory),
        }
    }

    /// The item that a call puts in.
    #[inline(always)]
    fn put_in(self, names: &mut Names) -> Result<Item, EventFault>
        ensures begun { Begins names.old names.new }
        ensures item { (m : Reading) → AgreesWith names.new m.number → IsMade table.is_named (table.item_of m (given_view self.entry)) result }
    {
        let Some(said) = self.item() else {
            return Err(EventFault::BadValue);
        };
        match numbered(said, names) {
            Ok(item) => Ok(item),
            Err(_) => Err(EventFault::OutOfMemory),
        }
    }
}

/// The compare-and-set of two values.
fn cas_with(old: Plain, new: Plain, names: &mut Names) -> Result<Call, OutOfMemory>
    ensures begun { Begins names.old names.new }
    ensures word { OnErr result ((is_word_plain (plain_view old.entry) || is_word_plain (plain_view new.entry)) ≡ true) }
    ensures call { IfOk result (λ made. (number : Numbering) → AgreesWith names.new number → made ≡ call.Cas (val_in number (plain_view old.entry)) (val_in number (plain_view new.entry))) }
{
    let old = old.val(names)?;
    let new = new.val(names)?;
    Ok(Call::Cas(old, new))
}

/// The old and the new value of a compare-and-set.
fn both_in<'a>(value: Given<'_, 'a>) -> Option<(Plain<'a>, Plain<'a>)>
    ensures { option_map (λ p. (plain_view p.0, plain_view p.1)) result ≡ both_plain (given_view value.entry) }
{
    let Given::Element(element) = value else {
        return None;
    };
    let (old, new) = pair_of(element)?;
    Some((plain_in(old)?, plain_in(new)?))
}

/// The compare-and-set of an old and a new value.
fn cas_of(value: Given, names: &mut Names) -> Result<Call, EventFault>
    ensures begun { Begins names.old names.new }
    ensures call { (m : Reading) → AgreesWith names.new m.number → IsMade table.call_takes (table.call_of m Cas (given_view value.entry)) result }
{
    let Some((old, new)) = both_in(value) else {
        return Err(EventFault::BadValue);
    };
    match cas_with(old, new, names) {
        Ok(call) => Ok(call),
        Err(_) => Err(EventFault::OutOfMemory),
    }
}

#[inline(always)]
fn call_of(name: Name, value: Given, names: &mut Names) -> Result<Call, EventFault>
    ensures begun { Begins names.old names.new }
    ensures call { (m : Reading) → AgreesWith names.new m.number → IsMade table.call_takes (table.call_of m name (given_view value.entry)) result }
{
    match name {
        Name::Read => Ok(Call::Read),
        Name::Dequeue => Ok(Call::Dequeue),
        Name::Acquire => Ok(Call::Acquire),
        Name::Release => Ok(Call::Release),
        Name::Write => Ok(Call::Write(value.val(names)?)),
        Name::Enqueue => Ok(Call::Enqueue(value.put_in(names)?)),
        Name::Add => Ok(Call::Add(value.put_in(names)?)),
        Name::Cas => cas_of(value, names),
    }
}

/// Whether all are items, tags aside.
fn are_items(elements: &[Edn]) -> bool
    ensures { (m : Reading) → result ≡ is_some (table.items_of m (values_of (map view elements.now))) }
{
    for element in elements {
        if said_in(bare(element)).is_none() {
            return false;
        }
    }
    true
}

/// The items that a collection of items says.
fn items_of(alloc: Global, elements: &[Edn], names: &mut Names) -> Result<Vec<Item>, OutOfMemory>
    requires { (m : Reading) → IsSome (table.items_of m (values_of (map view elements.now))) }
    ensures begun { Begins names.old names.new }
    ensures items { IfOk result (λ found. (m : Reading) → AgreesWith names.new m.number → table.items_of m (values_of (map view elements.now)) ≡ Some found.items) }
{
    let mut found = Vec::with_capacity(alloc, elements.len())?;
    for element in elements {
        if let Some(said) = said_in(bare(element)) {
            found.push(numbered(said, names)?)?;
        }
    }
    Ok(found)
}

/// The set of the items of a collection of items.
fn set_of(alloc: Global, elements: &[Edn], names: &mut Names) -> Result<IntSet, OutOfMemory>
    requires { (m : Reading) → IsSome (table.items_of m (values_of (map view elements.now))) }
    ensures begun { Begins names.old names.new }
    ensures members { IfOk result (λ members. (m : Reading) → AgreesWith names.new m.number → table.members_in m (values_of (map view elements.now)) ≡ Some (Members members)) }
{
    let found = items_of(alloc, elements, names)?;
    IntSet::from_members(alloc, found)
}

/// The items of a collection as the members of a set.
fn members_in(alloc: Global, elements: &[Edn], names: &mut Names) -> Result<Reply, EventFault>
    ensures begun { Begins names.old names.new }
    ensures reply { (m : Reading) → AgreesWith names.new m.number → IsMade table.reply_takes (table.members_in m (values_of (map view elements.now))) result }
{
    if !are_items(elements) {
        return Err(EventFault::BadValue);
    }
    match set_of(alloc, elements, names) {
        Ok(members) => Ok(Reply::Members(members)),
        Err(_) => Err(EventFault::OutOfMemory),
    }
}

/// What a read saw.
#[inline(always)]
fn seen(alloc: Global, value: Given, names: &mut Names) -> Result<Reply, EventFault>
    ensures begun { Begins names.old names.new }
    ensures reply { (m : Reading) → AgreesWith names.new m.number → IsMade table.reply_takes (table.seen m (given_view value.entry)) result }
{
    match value {
        Given::Plain(_) => value_in(value, names),
        Given::Element(element) => seen_in(alloc, element, names),
    }
}

/// The reply that is nil or an item.
#[inline(always)]
fn value_in(value: Given, names: &mut Names) -> Result<Reply, EventFault>
    ensures begun { Begins names.old names.new }
    ensures reply { (m : Reading) → AgreesWith names.new m.number → IsMade table.reply_takes (option_map Saw (table.val_of m (given_view value.entry))) result }
{
    Ok(Reply::Value(value.val(names)?))
}

/// What a read saw that tells it by an element.
fn seen_in(alloc: Global, element: &Edn, names: &mut Names) -> Result<Reply, EventFault>
    ensures begun { Begins names.old names.new }
    ensures reply { (m : Reading) → AgreesWith names.new m.number → IsMade table.reply_takes (table.seen m (view element.now)) result }
{
    let elements = match element {
        Edn::Set(elements) => elements.as_slice(),
        Edn::Vector(elements) => elements.as_slice(),
        Edn::List(elements) => elements.as_slice(),
        _ => return value_in(Given::Element(element), names),
    };
    members_in(alloc, elements, names)
}

#[inline(always)]
fn reply_of(alloc: Global, name: Name, value: Given, names: &mut Names) -> Result<Reply, EventFault>
    ensures begun { Begins names.old names.new }
    ensures reply { (m : Reading) → AgreesWith names.new m.number → IsMade table.reply_takes (table.reply_of m name (given_view value.entry)) result }
{
    match name {
        Name::Read => seen(alloc, value, names),
        Name::Dequeue => value_in(value, names),
        _ => Ok(Reply::Done),
    }
}

#[inline(always)]
fn body_of(
    alloc: Global,
    event_type: EventType,
    name: Name,
    value: Given,
    names: &mut Names,
) -> Result<Body, EventFault>
    ensures begun { Begins names.old names.new }
    ensures body { (m : Reading) → AgreesWith names.new m.number → IsMade table.body_takes (table.body_of m event_type name (given_view value.entry)) result }
{
    match event_type {
        EventType::Invoke => Ok(Body::Invoke(call_of(name, value, names)?)),
        EventType::Ok => Ok(Body::Ok(name, reply_of(alloc, name, value, names)?)),
        EventType::Fail => Ok(Body::Fail(name)),
        EventType::Info => Ok(Body::Info(name)),
    }
}

/// Whether an event of this type and function hangs on the value.
pub(crate) fn is_value_told(event_type: EventType, name: Name) -> bool
    ensures { result ≡ false → (m : Reading) (v : Value) (w : Value) → table.body_of m event_type name v ≡ table.body_of m event_type name w }
{
    match event_type {
        EventType::Invoke => match name {
            Name::Read | Name::Dequeue | Name::Acquire | Name::Release => false,
            Name::Write | Name::Cas | Name::Enqueue | Name::Add => true,
        },
        EventType::Ok => match name {
            Name::Read | Name::Dequeue => true,
            _ => false,
        },
        EventType::Fail => false,
        EventType::Info => false,
    }
}

/// The object's key and the value: with keys those of a pair, without them 0 and the whole.
fn parts_of<'e, 'a>(value: &'e Edn<'a>, keyed: bool) -> Option<(Said<'a>, &'e Edn<'a>)>
    ensures { option_map (λ p. (seen_as p.0, view p.1.now)) result ≡ table.parts_said keyed (view value.entry.now) }
{
    if !keyed {
        return Some((Said::Int(0), value));
    }
    let (key, value) = pair_of(value)?;
    Some((said_in(key)?, value))
}

/// The event of a map with these values under its keys.
fn event_with(
    alloc: Global,
    keyed: bool,
    process: &Edn,
    event_type: &Edn,
    function: &Edn,
    value: &Edn,
    names: &mut Names,
) -> Result<Option<Event>, EventFault>
    ensures begun { Begins names.old names.new }
    ensures event { (m : Reading) → IsReading keyed names.new m →
        IsAnswer (table.event_with m (view process.now) (view event_type.now) (view function.now) (view value.now)) result }
{
    let Some(process) = process_of(process) else {
        return Err(EventFault::BadProcess);
    };
    let Some(event_type) = type_of(event_type) else {
        return Err(EventFault::BadType);
    };
    let Some(name) = function_of(function) else {
        return Err(EventFault::BadFunction);
    };
    let Some((key, value)) = parts_of(value, keyed) else {
        return Err(EventFault::BadKey);
    };
    event_said(
        alloc,
        process,
        event_type,
        name,
        key,
        Given::Element(value),
        names,
    )
}

/// The event of a map whose values say so, the last of them the object's key and the value.
#[inline(always)]
pub(crate) fn event_said(
    alloc: Global,
    process: u64,
    event_type: EventType,
    name: Name,
    key: Said,
    value: Given,
    names: &mut Names,
) -> Result<Option<Event>, EventFault>
    ensures begun { Begins names.old names.new }
    ensures event { (m : Reading) → AgreesWith names.new m.number → (p : Value) (t : Value) (f : Value) (v : Value) (w : Value) →
        table.process_of p ≡ Some process → table.type_of t ≡ Some event_type → table.function_of f ≡ Some name →
        table.parts_said m.keyed v ≡ Some (seen_as key.entry, w) → table.body_of m event_type name w ≡ table.body_of m event_type name (given_view value.entry) →
        IsAnswer (table.event_with m p t f v) result }
{
    let body = body_of(alloc, event_type, name, value, names)?;
    match numbered(key, names) {
        Ok(key) => Ok(Some(Event { process, key, body })),
        Err(_) => Err(EventFault::OutOfMemory),
    }
}

/// The entries of an element that is a map, tags aside.
fn entries_in<'e, 'a>(element: &'e Edn<'a>) -> Option<&'e [Entry<'a>]>
    ensures { MatchOption result ((m : Reading) → event m (view element.entry.now) ≡ Err NotAMap)
        (λ entries. bare_value (view element.entry.now) ≡ map_value (entries_of (map entry_view entries.now))) }
{
    match bare(element) {
        Edn::Map(entries) => Some(entries.as_slice()),
        _ => None,
    }
}

/// The value that stands for a missing one.
fn nil<'a>() -> Edn<'a>
    ensures { view result ≡ nil_value }
{
    Edn::Nil
}

pub(crate) fn is_keyword(element: &Edn) -> bool
    ensures { result ≡ table.is_by_keyword (view element.now ∷ []) }
{
    match element {
        Edn::Keyword(_) => true,
        _ => false,
    }
}

/// The event that an operation map says, and none for an operation whose `:process` is a keyword, as that of the nemesis.
///
/// With `keyed`, `:value` is a pair of the object's key and the value; without, the key is 0. A word of the event that has no number
/// gets one. Want of memory comes only in place of an event that holds a word or a set of members.
pub fn event_of(
    alloc: Global,
    element: &Edn,
    keyed: bool,
    names: &mut Names,
) -> Result<Option<Event>, EventFault>
    ensures begun { Begins names.old names.new }
    ensures event { (m : Reading) → IsReading keyed names.new m → IsAnswer (event m (view element.now)) result }
{
    let Some(entries) = entries_in(element) else {
        return Err(EventFault::NotAMap);
    };
    let fields = fields_of(entries)?;
    if let Some(process) = fields.process {
        if is_keyword(process) {
            return Ok(None);
        }
    }
    let (Some(process), Some(event_type), Some(function)) = (
        fields.process,
        fields.event_type,
        fields.function,
    ) else {
        return Err(EventFault::Missing);
    };
    match fields.value {
        Some(value) => event_with(alloc, keyed, process, event_type, function, value, names),
        None => event_with(alloc, keyed, process, event_type, function, &nil(), names),
    }
}
