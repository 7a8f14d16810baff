// The records of a table in another order (pwck(8), grpck(8), `-s`).
ghost use Rattle.std.specs.Prelude.{◌≡◌, ◌+◌, ◌^◌, ◌<◌, ◌≤◌, drop, length, ◌++◌, ◌∷◌, [], List, ℕ, map, true, option_map, option_to_list, IfOk, OnOk};
ghost use Rattle.acct_text.specs.Lines.{Line, file_bytes, line_bytes, lines_of};
ghost use Rattle.account_model.specs.Edits.{Arrange, edited, in_places, keyed_text, keyed_texts, sorted_by_key};
ghost use Rattle.account_model.specs.Tables.{table_after, table_records};
ghost use Rattle.acct_tables.specs.NameIndex.{TellsAtMost, are_several, begins_before, told};
ghost use Rattle.acct_tables.specs.SeenLines.{seen_line};
ghost use Rattle.check_reports.specs.Sorted.{IsOrderOf, IsPlaced, kept_place, place_in, seen_keyed};
ghost use Rattle.std.specs.Option.{option_copied};

use account_model::{GroupRecord, PasswdRecord};
use acct_lines::{GroupLine, PasswdLine, TableRecord};
use acct_tables::{FileLine, Lines, NameIndex, is_record, name_of, text_of};
use acct_text::Bytes;
use std::alloc::{AllocError, Global};

/// What the records of a table are sorted by.
pub(crate) trait SortKey<R: TableRecord> {
    // the key of a record
    ghost key_of: { Self → R → ℕ };

    /// The key of the record that the line is; none where it is other text.
    fn key_in(&self, line: &[u8]) -> Option<usize>
        ensures { result ≡ option_map (key_of self.now) (R.format.read line.now) };
}

/// The UID or the GID.
pub(crate) struct ById;

impl SortKey<PasswdRecord> for ById {
    ghost key_of = { λ _ user. user.uid };

    fn key_in(&self, line: &[u8]) -> Option<usize> {
        match PasswdLine::read(line) {
            Ok(user) => Some(user.uid as usize),
            Err(_) => None,
        }
    }
}

impl SortKey<GroupRecord> for ById {
    ghost key_of = { λ _ group. group.gid };

    fn key_in(&self, line: &[u8]) -> Option<usize> {
        match GroupLine::read(line) {
            Ok(group) => Some(group.gid as usize),
            Err(_) => None,
        }
    }
}

/// The place of the first record of the name in another table, counted from 0 over its records.
/// Names that it lacks come last.
#[derive(Drop)]
pub(crate) struct ByPlace<'a> {
    // the names, with the places of their records among the records
    names: NameIndex<'a>,
    // how many records the other table has
    count: usize,
    // whether no two records have one name
    differ: bool,
}

impl<'a> ByPlace<'a> {
    /// The order of no records.
    pub(crate) fn new<M: TableRecord>(alloc: Global) -> Self
        ensures { IsOrderOf M.format [] result }
    {
        ByPlace {
            names: NameIndex::new(alloc),
            count: 0,
            differ: true,
        }
    }

    /// The order of the records of a file; an absent one has none.
    pub(crate) fn of<M: TableRecord + Drop>(
        alloc: Global,
        main: &'a Option<Bytes>,
    ) -> Result<Self, AllocError>
        ensures { IfOk result (IsOrderOf M.format (table_records M.format main.now)) }
    {
        let mut order = ByPlace::new::<M>(alloc);
        let mut left = Lines::of(text_of(main));
        'lines: while let Some(line) = left.take() {
            if let Some(name) = name_of::<M>(line.text) {
                order.add(name)?;
            }
        }
        Ok(order)
    }

    /// Adds a record of the name behind the others.
    pub(crate) fn add(&mut self, name: &'a [u8]) -> Result<(), AllocError>
        requires behind { TellsAtMost self.old.count (told self.old.names) }
        requires room { self.old.count + 1 < 2 ^ 64 }
        ensures { OnOk result (IsPlaced name.now self.old self.new) }
    {
        self.names.add(name, self.count)?;
        self.differ = self.differ && !self.has_several_near(name, self.count);
        self.count += 1;
        Ok(())
    }

    /// How many records there are.
    pub(crate) fn count(&self) -> usize
        ensures { result ≡ self.now.count }
    {
        self.count
    }

    /// Whether no two records have one name.
    pub(crate) fn differ(&self) -> bool
        ensures { result ≡ self.now.differ }
    {
        self.differ
    }

    /// Whether several records have the name.
    pub(crate) fn has_several(&self, name: &[u8]) -> bool
        ensures { result ≡ are_several (told self.now.names name.now) }
    {
        self.names.has_several(name)
    }

    /// Whether a record in front of this place, counted from 0 over the records, has the name.
    pub(crate) fn has_before(&self, name: &[u8], place: usize) -> bool
        ensures { result ≡ begins_before place (told self.now.names name.now) }
    {
        self.names.has_before(name, place)
    }

    // Whether several have it, where it was mostly noted at this turn.
    fn has_several_near(&self, name: &[u8], turn: usize) -> bool
        ensures { result ≡ are_several (told self.now.names name.now) }
    {
        match self.names.get_near(name, turn) {
            Some(found) => found.count >= 2,
            None => false,
        }
    }

    /// The place of the first record of the name; where none has it, how many records there are.
    pub(crate) fn place(&self, name: &[u8]) -> usize
        ensures { result ≡ kept_place self.now name.now }
    {
        self.place_near(name, self.count)
    }

    /// The same. Where it is the name of the record at this place, counted from 0 over records with
    /// different names, it isn't hashed.
    pub(crate) fn place_near(&self, name: &[u8], place: usize) -> usize
        ensures { result ≡ kept_place self.now name.now }
    {
        match self.names.get_near(name, place) {
            Some(found) => found.first,
            None => self.count,
        }
    }
}

impl<'a, R: TableRecord> SortKey<R> for ByPlace<'a> {
    ghost use Rattle.check_reports.specs.Sorted.{kept_place};

    ghost key_of = { λ by r. kept_place by (R.format.name r) };

    fn key_in(&self, line: &[u8]) -> Option<usize> {
        Some(self.place(name_of::<R>(line)?))
    }
}

// The text of a record's line, by its key.
#[derive(Clone, Copy)]
struct Keyed<'a> {
    key: usize,
    text: &'a [u8],
}

/// The bytes of a table with its records sorted by the key, stably and in the places of records; an
/// absent table stays absent.
pub(crate) fn sorted_file<R: TableRecord, K: SortKey<R>>(
    alloc: Global,
    file: Option<&Bytes>,
    key: &K,
) -> Result<Option<Bytes>, AllocError>
    ensures { IfOk result (λ sorted. sorted
        ≡ table_after R.format (Arrange (K.key_of key.now) ∷ []) (option_copied file.entry)) }
{
    match file {
        Some(text) => Ok(Some(sorted_text::<R, K>(alloc, text.as_slice(), key)?)),
        None => Ok(None),
    }
}

/// The bytes of a table with its records sorted by the place that their names have in the main
/// table; names that it lacks come last. An absent table stays absent.
pub(crate) fn sorted_like<M: TableRecord + Drop, R: TableRecord>(
    alloc: Global,
    main: &Option<Bytes>,
    file: Option<&Bytes>,
) -> Result<Option<Bytes>, AllocError>
    ensures { IfOk result (λ sorted. sorted ≡ table_after R.format
        (Arrange (place_in M.format (table_records M.format main.now) R.format) ∷ [])
        (option_copied file.entry)) }
{
    let order = ByPlace::of::<M>(alloc, main)?;
    sorted_file::<R, ByPlace>(alloc, file, &order)
}

// The text with its records sorted by the key.
fn sorted_text<R: TableRecord, K: SortKey<R>>(
    alloc: Global,
    text: &[u8],
    key: &K,
) -> Result<Bytes, AllocError>
    ensures { IfOk result (λ sorted. sorted ≡ file_bytes
        (edited R.format (lines_of text.now) (Arrange (K.key_of key.now)))) }
{
    let mut keyed = keyed_texts::<R, K>(alloc, text, key)?;
    sort_keyed(&mut keyed)?;
    in_places::<R>(alloc, text, keyed.as_slice())
}

// The texts of all records with their keys, in the order of lines.
fn keyed_texts<'t, R: TableRecord, K: SortKey<R>>(
    alloc: Global,
    text: &'t [u8],
    key: &K,
) -> Result<Vec<Keyed<'t>>, AllocError>
    ensures { IfOk result (λ keyed. map seen_keyed keyed.items
        ≡ keyed_texts R.format (K.key_of key.now) (lines_of text.now)) }
{
    let mut keyed = Vec::new(alloc);
    let mut left = Lines::of(text);
    'lines: while let Some(line) = left.take() {
        push_keyed::<R, K>(&mut keyed, line.text, key)?;
    }
    Ok(keyed)
}

// Adds the text of a line with the key of its record; other text has none.
fn push_keyed<'t, R: TableRecord, K: SortKey<R>>(
    keyed: &mut Vec<Keyed<'t>>,
    text: &'t [u8],
    key: &K,
) -> Result<(), AllocError>
    ensures { OnOk result (map seen_keyed keyed.new.items
        ≡ map seen_keyed keyed.old.items ++ option_to_list (keyed_text R.format (K.key_of key.now)
        (record { text = text.now; ended = true }))) }
{
    let Some(key) = key.key_in(text) else {
        return Ok(());
    };
    keyed.push(Keyed { key, text })?;
    Ok(())
}

// Sorts the texts by their keys; of equal keys the earlier stays the earlier.
fn sort_keyed(keyed: &mut Vec<Keyed<'_>>) -> Result<(), AllocError>
    ensures { OnOk result (map seen_keyed keyed.new.items
        ≡ sorted_by_key (map seen_keyed keyed.old.items)) }
{
    keyed.sort_by_key(|record| record.key)
}

// The file's bytes with these texts, one after another, in the places of records.
fn in_places<R: TableRecord>(
    alloc: Global,
    text: &[u8],
    keyed: &[Keyed<'_>],
) -> Result<Bytes, AllocError>
    ensures { IfOk result (λ bytes. bytes ≡ file_bytes
        (in_places R.format (map seen_keyed keyed.now) (lines_of text.now))) }
{
    let mut made = Bytes::new(alloc);
    let mut next = 0;
    let mut left = Lines::of(text);
    'lines: while let Some(line) = left.take() {
        next = push_next::<R>(&mut made, &line, keyed, next)?;
    }
    Ok(made)
}

// Adds a line; a record's gets the text that is next. Gives the place of the text that is next
// then, counted from 0.
fn push_next<R: TableRecord>(
    made: &mut Bytes,
    line: &FileLine<'_>,
    keyed: &[Keyed<'_>],
    next: usize,
) -> Result<usize, AllocError>
    requires { next ≤ length keyed.now }
    ensures inside { IfOk result (λ then. then ≤ length keyed.now) }
    ensures placed { IfOk result (λ then. (rest : List Line)
        → made.new ++ file_bytes (in_places R.format (map seen_keyed (drop then keyed.now)) rest)
        ≡ made.old ++ file_bytes (in_places R.format (map seen_keyed (drop next keyed.now))
        (seen_line line.now ∷ rest))) }
{
    let Some(first) = keyed[next..].first() else {
        line.push_to(made)?;
        return Ok(next);
    };
    if !is_record::<R>(line.text) {
        line.push_to(made)?;
        return Ok(next);
    }
    push_in_place(made, first, line)?;
    Ok(next + 1)
}

// Adds the text in the place of a line, which keeps its end.
fn push_in_place(made: &mut Bytes, keyed: &Keyed<'_>, line: &FileLine<'_>) -> Result<(), AllocError>
    ensures { OnOk result (made.new ≡ made.old
        ++ line_bytes (record { text = keyed.now.text.now; ended = line.now.ended })) }
{
    let placed = FileLine {
        text: keyed.text,
        ended: line.ended,
    };
    placed.push_to(made)
}
