//! Where the rows of ids stand: a hash table of short lines, and an ordered table for what finds its line full.
ghost use Rattle.std.specs.Prelude.{◌≡◌, ◌≢◌, ◌+◌, ◌*◌, ◌/◌, ◌<◌, ◌≤◌, false, List, All, length, slice_get, set, take, Some, None, [], ◌∷◌, ◌++◌, cond, is_some, IfOk, OnOk, OnErr};
ghost use Rattle.std.specs.BTreeMap.{get};
ghost use Rattle.std.specs.Option.{option_or};
ghost use Rattle.spread_rules_ids.specs.declared.id_key.IdKey.{IdKey};
ghost use Rattle.spread_rules_ids.specs.IdKeys.{id_key_cmp};
ghost use Rattle.spread_books_ids.specs.Ids.{is_key, first_row};
ghost use Rattle.spread_books_ids.specs.Tables.{line_of, line_for, tag_of, is_row_of, names_key, named_row, HasEnd, IsTableOf};
ghost use Rattle.spread_books_ids.specs.declared.id_table.Line.{Line};
ghost use Rattle.spread_books_ids.specs.Notes.{is_known, lines_before, rest_before, CanTakeBack};
ghost use Rattle.spread_books_ids.specs.code.Seeks.{EndsAt, IsSeek, with_number};

use crate::rows::IdRows;
use crate::spot::{Spot, spot_of};
use spread_rules_ends::NoMemory;
use spread_rules_ids::IdKey;
use std::alloc::Allocator;
use std::collections::BTreeMap;

/// How many rows can be named in lines. Where there are more, the others stand in the ordered table, and each look-up
/// that finds nothing in its line asks that too.
pub const ROWS: usize = 1_048_576;

/// How many numbers a line has.
const WIDTH: usize = 16;

/// How many numbers stand in a line, on an average over all, before there are more lines.
const CROWD: usize = 8;

/// How many times as many lines there are then at least.
const GROWTH: usize = 4;

/// A number for each row that is named in it, and 0 behind the last one. A number is a tag of twelve bits, never 0,
/// and a row of twenty.
#[derive(Clone, Copy)]
pub struct Line {
    numbers: [u32; WIDTH],
}

/// What a look at the line of a key finds.
#[derive(Clone, Copy)]
pub enum Seek {
    /// This row has the key.
    Found(usize),
    /// No row that is named has it, and the line ends there.
    Open(usize),
    /// No row that is named has it, and the line is full.
    Full,
}

/// How a key was noted.
#[derive(Clone, Copy)]
pub enum Noted {
    /// A row before it has the key, and nothing was noted.
    Known,
    /// As a number of that line.
    InLine { line: usize, at: usize },
    /// In the ordered table.
    Behind,
}

impl Noted {
    /// Whether a row before it has the key.
    pub fn is_known(&self) -> bool
        ensures { result ≡ is_known self.now }
    {
        match self {
            Noted::Known => true,
            _ => false,
        }
    }
}

/// Of each session and id the first row that has them. The rows themselves are somebody else's, and are shown at each
/// call: a number of a line says no more than that its row may have the key. A look-up costs a line of 64 bytes and
/// mostly one row; where the line is full, at most the logarithm of what the ordered table holds.
#[derive(Drop)]
pub struct IdTable<A: Allocator + Copy> {
    lines: Vec<Line, A>,
    /// How many numbers stand in the lines.
    standing: usize,
    /// The keys that found their line full.
    behind: BTreeMap<IdKey, usize, A>,
}

/// Whether the row has that key.
#[inline(always)]
fn has_key<R: IdRows>(rows: &R, row: usize, key: &IdKey) -> bool
    ensures { result ≡ is_row_of (slice_get (R.keys rows.now) row) key.now }
{
    match rows.key_at(row) {
        None => false,
        Some(own) => *key == own,
    }
}

/// Whether a number names a row of that key: its tag is that of the key, and its row has it.
#[inline(always)]
fn names_key<R: IdRows>(number: u32, tag: u32, rows: &R, key: &IdKey) -> bool
    requires { tag ≡ tag_of key.now }
    ensures { result ≡ names_key (R.keys rows.now) key.now number }
{
    number as usize / ROWS == tag as usize && has_key(rows, number as usize % ROWS, key)
}

/// Looks for the key among the rows that a line names, one after the other.
#[inline(never)]
fn seek_each<R: IdRows>(line: &Line, tag: u32, rows: &R, key: &IdKey) -> Seek
    requires tag { tag ≡ tag_of key.now }
    requires ended { HasEnd line.now.numbers }
    ensures { IsSeek (named_row (R.keys rows.now) key.now line.now.numbers)
        line.now.numbers result }
{
    for at in 0..WIDTH {
        let number = line.numbers[at];
        if number == 0 {
            return Seek::Open(at);
        }
        if names_key(number, tag, rows, key) {
            return Seek::Found(number as usize % ROWS);
        }
    }
    Seek::Full
}

/// Whether a number of a line has that tag. All numbers are looked at: where a walk ends with them, a processor predicts
/// the end wrong at most new keys.
#[inline(always)]
fn has_tag(line: &Line, tag: u32) -> bool
    ensures { result ≡ false → All (λ e. e / ROWS ≢ tag) line.now.numbers }
{
    let mut any = false;
    for at in 0..WIDTH {
        if line.numbers[at] / 1_048_576 == tag {
            any = true;
        }
    }
    any
}

/// How many numbers stand in a line.
#[inline(always)]
fn count_of(line: &Line) -> usize
    requires { HasEnd line.now.numbers }
    ensures end { result < WIDTH → EndsAt line.now.numbers result }
    ensures full { WIDTH ≤ result → All (λ e. e ≢ 0) line.now.numbers }
{
    let mut count = 0;
    for at in 0..WIDTH {
        if line.numbers[at] != 0 {
            count += 1;
        }
    }
    count
}

/// Looks for the key among the rows that a line names. Most keys are new: then no number of the line has their tag.
#[inline(always)]
fn seek_in<R: IdRows>(line: &Line, tag: u32, rows: &R, key: &IdKey) -> Seek
    requires tag { tag ≡ tag_of key.now }
    requires ended { HasEnd line.now.numbers }
    ensures { IsSeek (named_row (R.keys rows.now) key.now line.now.numbers)
        line.now.numbers result }
{
    if has_tag(line, tag) {
        return seek_each(line, tag, rows, key);
    }
    let at = count_of(line);
    if at < WIDTH {
        Seek::Open(at)
    } else {
        Seek::Full
    }
}

/// The number of a row that can be named.
fn number_of(tag: u32, row: usize) -> u32
    requires some { 1 ≤ tag }
    requires most { tag ≤ 4095 }
    requires row { row < ROWS }
    ensures { result ≡ tag * ROWS + row }
{
    tag * 1_048_576 + row as u32
}

/// In how many lines so many keys are no crowd: a power of two.
fn lines_for(keys: usize) -> usize {
    (keys.min(ROWS) / CROWD + 1).next_power_of_two().max(WIDTH)
}

/// Notes a row of a key, where the key has none yet.
fn note_first<A: Allocator + Copy>(
    behind: &mut BTreeMap<IdKey, usize, A>,
    key: &IdKey,
    row: usize,
) -> Result<Noted, NoMemory>
    ensures used { IfOk result (λ noted.
        is_known noted ≡ is_some (get id_key_cmp behind.old key.now)) }
    ensures back { IfOk result (λ noted. (q : IdKey)
        → rest_before noted key.now (get id_key_cmp behind.new) q ≡ get id_key_cmp behind.old q) }
    ensures lines { IfOk result (λ noted. (lines : List Line) → lines_before noted lines ≡ lines) }
    ensures ok { OnOk result ((q : IdKey)
        → get id_key_cmp behind.new q
        ≡ option_or (get id_key_cmp behind.old q) (cond (is_key key.now q) (Some row) None)) }
    ensures unchanged_on_err { OnErr result ((q : IdKey)
        → get id_key_cmp behind.new q ≡ get id_key_cmp behind.old q) }
{
    if let Some(earlier) = behind.insert(*key, row)? {
        // A key that the table has takes no memory.
        behind.insert(*key, earlier)?;
        return Ok(Noted::Known);
    }
    Ok(Noted::Behind)
}

/// Clears a number of the line, where it has so many.
fn clear_at(line: &mut Line, at: usize)
    ensures { line.new.numbers ≡ set line.old.numbers at 0 }
{
    if at < WIDTH {
        line.numbers[at] = 0;
    }
}

impl<A: Allocator + Copy> IdTable<A> {
    /// A table of no rows. Takes no memory yet.
    pub fn new(alloc: A) -> Self
        ensures { IsTableOf result [] }
    {
        IdTable {
            lines: Vec::new(alloc),
            standing: 0,
            behind: BTreeMap::new(alloc),
        }
    }

    /// Looks for the key among the rows that its line names.
    #[inline(always)]
    fn seek<R: IdRows>(&self, spot: Spot, rows: &R, key: &IdKey) -> Seek
        requires line { spot.line ≡ line_of (length self.now.lines.items) key.now }
        requires tag { spot.tag ≡ tag_of key.now }
        requires ended { All (λ l. HasEnd l.numbers) self.now.lines.items }
        ensures { IsSeek
            (named_row (R.keys rows.now) key.now (line_for self.now.lines.items key.now))
            (line_for self.now.lines.items key.now) result }
    {
        match self.lines.get(spot.line) {
            None => Seek::Full,
            Some(line) => seek_in(line, spot.tag, rows, key),
        }
    }

    /// The first row of that key, of those that the table was told of.
    #[inline(always)]
    pub fn find<R: IdRows>(&self, rows: &R, key: &IdKey) -> Option<usize>
        requires { IsTableOf self.now (R.keys rows.now) }
        ensures { result ≡ first_row key.now (R.keys rows.now) }
    {
        match self.seek(spot_of(self.lines.len(), key), rows, key) {
            Seek::Found(row) => Some(row),
            Seek::Open(_) if rows.len() <= ROWS => None,
            _ => self.behind_lines(key),
        }
    }

    /// The row of a key that stands behind the lines.
    #[inline(never)]
    fn behind_lines(&self, key: &IdKey) -> Option<usize>
        ensures { result ≡ get id_key_cmp self.now.behind key.now }
    {
        let row = self.behind.get(key)?;
        Some(*row)
    }

    /// Puts a number into a line, where the line ends.
    fn put_number(&mut self, line: usize, at: usize, number: u32)
        requires line { line < length self.old.lines.items }
        requires at { at < WIDTH }
        ensures lines { self.new.lines.items ≡ with_number self.old.lines.items line at number }
        ensures behind { self.new.behind ≡ self.old.behind }
    {
        self.lines[line].numbers[at] = number;
        self.standing = self.standing.saturating_add(1);
    }

    /// Notes that the row has that key, where none of the rows before it has.
    fn note_row<R: IdRows>(&mut self, rows: &R, row: usize, key: &IdKey) -> Result<Noted, NoMemory>
        requires row { row ≤ length (R.keys rows.now) }
        requires table { IsTableOf self.old (take row (R.keys rows.now)) }
        ensures used { IfOk result (λ noted.
            is_known noted ≡ is_some (first_row key.now (take row (R.keys rows.now)))) }
        ensures back { IfOk result (λ noted.
            CanTakeBack self.new noted key.now (take row (R.keys rows.now))) }
        ensures ok { OnOk result (IsTableOf self.new (take row (R.keys rows.now) ++ key.now ∷ [])) }
        ensures table_on_err { OnErr result (IsTableOf self.new (take row (R.keys rows.now))) }
    {
        let spot = spot_of(self.lines.len(), key);
        match self.seek(spot, rows, key) {
            Seek::Found(_) => Ok(Noted::Known),
            Seek::Open(at) if row < ROWS => {
                self.put_number(spot.line, at, number_of(spot.tag, row));
                Ok(Noted::InLine {
                    line: spot.line,
                    at,
                })
            }
            _ => note_first(&mut self.behind, key, row),
        }
    }

    /// A table of those rows, in so many lines.
    fn of_rows<R: IdRows>(alloc: A, rows: &R, lines: usize) -> Result<Self, NoMemory>
        ensures { IfOk result (λ table. IsTableOf table (R.keys rows.now)) }
    {
        let mut table = IdTable::with_lines(alloc, lines)?;
        for row in 0..rows.len() {
            if let Some(key) = rows.key_at(row) {
                table.note_row(rows, row, &key)?;
            }
        }
        Ok(table)
    }

    /// A table of no rows, in so many lines.
    fn with_lines(alloc: A, lines: usize) -> Result<Self, NoMemory>
        ensures { IfOk result (λ table. IsTableOf table []) }
    {
        let mut empty = Vec::new(alloc);
        empty.resize(
            lines,
            Line {
                numbers: [0; WIDTH],
            },
        )?;
        Ok(IdTable {
            lines: empty,
            standing: 0,
            behind: BTreeMap::new(alloc),
        })
    }

    /// More lines, where they would be crowded with so many keys more. After NoMemory look-ups answer as before.
    #[inline(always)]
    pub fn reserve<R: IdRows>(&mut self, rows: &R, keys: usize) -> Result<(), NoMemory>
        requires { IsTableOf self.old (R.keys rows.now) }
        ensures { IsTableOf self.new (R.keys rows.now) }
    {
        if self.standing.saturating_add(keys) > self.lines.len().saturating_mul(CROWD) {
            return self.grow(rows, keys);
        }
        Ok(())
    }

    /// More lines, in which so many keys more are no crowd. A call of its own: it seldom comes.
    #[inline(never)]
    fn grow<R: IdRows>(&mut self, rows: &R, keys: usize) -> Result<(), NoMemory>
        requires { IsTableOf self.old (R.keys rows.now) }
        ensures { IsTableOf self.new (R.keys rows.now) }
    {
        let wanted = self.standing.saturating_add(keys);
        let lines = self
            .lines
            .len()
            .saturating_mul(GROWTH)
            .max(lines_for(wanted));
        let alloc = *self.lines.allocator();
        *self = IdTable::of_rows(alloc, rows, lines)?;
        Ok(())
    }

    /// Notes that the row behind all others, which is about to come, has that key. Answers how, and so whether one of
    /// the others has it already. All growth comes before the change, so after NoMemory look-ups answer as before.
    pub fn note<R: IdRows>(&mut self, rows: &R, key: &IdKey) -> Result<Noted, NoMemory>
        requires { IsTableOf self.old (R.keys rows.now) }
        ensures used { IfOk result (λ noted.
            is_known noted ≡ is_some (first_row key.now (R.keys rows.now))) }
        ensures back { IfOk result (λ noted. CanTakeBack self.new noted key.now (R.keys rows.now)) }
        ensures ok { OnOk result (IsTableOf self.new (R.keys rows.now ++ key.now ∷ [])) }
        ensures table_on_err { OnErr result (IsTableOf self.new (R.keys rows.now)) }
    {
        self.reserve(rows, 1)?;
        self.note_row(rows, rows.len(), key)
    }

    /// Takes back what was noted last: the row with that key does not come.
    pub fn take_back(&mut self, key: &IdKey, noted: Noted)
        ensures { (keys : List IdKey)
            → CanTakeBack self.old noted key.now keys → IsTableOf self.new keys }
    {
        match noted {
            Noted::Known => {}
            Noted::InLine { line, at } => self.clear_number(line, at),
            Noted::Behind => {
                self.behind.remove(key);
            }
        }
    }

    /// Clears a number of a line.
    fn clear_number(&mut self, line: usize, at: usize)
        ensures lines { self.new.lines.items ≡ with_number self.old.lines.items line at 0 }
        ensures behind { self.new.behind ≡ self.old.behind }
    {
        self.standing = self.standing.saturating_sub(1);
        if let Some(line) = self.lines.get_mut(line) {
            clear_at(line, at);
        }
    }
}
