//! The table of ids: each that was noted is found at its first row, and no other one.
ghost use Rattle.std.specs.Prelude.{[]};
ghost use Rattle.spread_books_ids.specs.Tables.{IsTableOf};

use crate::expect::holds;
use spread_books_ids::{IdRows, IdTable, Noted};
use spread_books_rows::Hints;
use spread_rules::NoMemory;
use spread_rules_ids::IdKey;
use std::alloc::Allocator;
use std::process::Abort;
use tests_shared::{Refusing, id};

/// Rows that are no more than their session and id.
#[derive(Clone, Copy)]
struct Keys<'a> {
    keys: &'a [IdKey],
}

impl<'a> IdRows for Keys<'a> {
    ghost keys = { λ r. r.keys.now };

    fn key_at(&self, row: usize) -> Option<IdKey> {
        self.keys.get(row).copied()
    }

    fn len(&self) -> usize {
        self.keys.len()
    }
}

/// Another session or another id of four letters for each number below 262,144.
fn numbered(n: usize) -> IdKey {
    let letters = [
        b'A' + (n / 4096 % 16) as u8,
        b'A' + (n / 256 % 16) as u8,
        b'A' + (n / 16 % 16) as u8,
        b'A' + (n % 16) as u8,
    ];
    IdKey::new((n / 65_536 % 4) as u8, &id(&letters))
}

/// One row more. Answers whether one before it has its session and id.
fn note_next<A: Allocator + Copy, B: Allocator>(
    table: &mut IdTable<A>,
    keys: &mut Vec<IdKey, B>,
    key: IdKey,
) -> Result<bool, NoMemory>
    requires { IsTableOf table.old keys.old.items }
    ensures { IsTableOf table.new keys.new.items }
{
    keys.reserve(1)?;
    let used = table.note(&Keys { keys }, &key)?.is_known();
    keys.push_reserved(key);
    Ok(used)
}

/// One row of that number more. Answers whether one before it has its session and id.
fn note_number<A: Allocator + Copy, B: Allocator>(
    rt: &impl Abort,
    table: &mut IdTable<A>,
    keys: &mut Vec<IdKey, B>,
    n: usize,
) -> bool
    requires { IsTableOf table.old keys.old.items }
    ensures { IsTableOf table.new keys.new.items }
{
    note_next(table, keys, numbered(n)).expect(rt, "memory")
}

/// Notes a key, whose row then doesn't come. Answers how it was noted.
fn note_and_take_back<A: Allocator + Copy>(
    table: &mut IdTable<A>,
    keys: &[IdKey],
    key: IdKey,
) -> Result<Noted, NoMemory>
    requires { IsTableOf table.old keys.now }
    ensures { IsTableOf table.new keys.now }
{
    let noted = table.note(&Keys { keys }, &key)?;
    table.take_back(&key, noted);
    Ok(noted)
}

/// Where the first row of that number stands.
fn row_of<A: Allocator + Copy>(table: &IdTable<A>, keys: &[IdKey], n: usize) -> Option<usize>
    requires { IsTableOf table.now keys.now }
{
    table.find(&Keys { keys }, &numbered(n))
}

/// Each of so many numbers stands at its row.
fn rows_stand<A: Allocator + Copy>(
    rt: &impl Abort,
    table: &IdTable<A>,
    keys: &[IdKey],
    count: usize,
)
    requires { IsTableOf table.now keys.now }
{
    for n in 0..count {
        holds(rt, row_of(table, keys, n) == Some(n));
    }
}

/// Rows of the numbers up to there, which stand at those rows then. A request for memory that is refused leaves all as
/// it was.
fn note_numbers<A: Allocator + Copy, B: Allocator>(
    rt: &impl Abort,
    table: &mut IdTable<A>,
    keys: &mut Vec<IdKey, B>,
    count: usize,
)
    requires { IsTableOf table.old keys.old.items }
    ensures { IsTableOf table.new keys.new.items }
{
    for n in 0..count {
        let used = match note_next(table, keys, numbered(n)) {
            Ok(used) => used,
            Err(NoMemory) => {
                holds(rt, row_of(table, keys, n).is_none());
                note_number(rt, table, keys, n)
            }
        };
        holds(rt, !used);
    }
    rows_stand(rt, table, keys, count);
}

/// Behind 8,190 rows a number of one of them is known and keeps its first row, and another session's is new.
fn rows_behind<A: Allocator + Copy>(
    rt: &impl Abort,
    table: &mut IdTable<A>,
    keys: &mut Vec<IdKey, A>,
)
    requires { IsTableOf table.old keys.old.items }
{
    holds(rt, row_of(table, keys, 8_190).is_none());
    holds(rt, row_of(table, keys, 65_536).is_none());
    holds(rt, note_number(rt, table, keys, 17));
    holds(rt, row_of(table, keys, 17) == Some(17));
    holds(rt, !note_number(rt, table, keys, 65_553));
    holds(rt, row_of(table, keys, 65_553) == Some(8_191));
}

#[test]
fn ids_are_found(rt: HostRuntime) {
    let mut table = IdTable::new(rt.alloc());
    let mut keys = Vec::new(rt.alloc());
    note_numbers(&rt, &mut table, &mut keys, 8_190);
    rows_behind(&rt, &mut table, &mut keys);
}

/// Lines for a thousand keys more change no answer, whether keys stand in the table or none does.
#[test]
fn room_for_ids(rt: HostRuntime) {
    let mut table = IdTable::new(rt.alloc());
    let mut keys = Vec::new(rt.alloc());
    table
        .reserve(&Keys { keys: &keys }, 1_000)
        .expect(&rt, "memory");
    note_numbers(&rt, &mut table, &mut keys, 1_100);
    table
        .reserve(&Keys { keys: &keys }, 1_000)
        .expect(&rt, "memory");
    rows_stand(&rt, &table, &keys, 1_100);
    holds(&rt, row_of(&table, &keys, 1_100).is_none());
}

/// Where lines for a thousand keys were made, three hundred take no memory: the second request would be refused.
#[test]
fn room_is_made_beforehand(rt: HostRuntime) {
    let heap = Refusing::new(rt.alloc(), 2);
    let mut table = IdTable::new(&heap);
    let mut keys = Vec::new(rt.alloc());
    table
        .reserve(&Keys { keys: &keys }, 1_000)
        .expect(&rt, "memory");
    note_numbers(&rt, &mut table, &mut keys, 300);
    holds(&rt, !heap.has_refused());
}

/// A key that is taken back leaves its room to the next: however many come and go, no second request is made.
#[test]
fn room_is_left(rt: HostRuntime) {
    let heap = Refusing::new(rt.alloc(), 2);
    let mut table = IdTable::new(&heap);
    for n in 0..2_000 {
        note_and_take_back(&mut table, &[], numbered(n)).expect(&rt, "memory");
    }
    holds(&rt, !heap.has_refused());
}

/// A key that was noted and taken back is not found, until it is noted again. Most keys stand in lines.
#[test]
fn ids_are_taken_back(rt: HostRuntime) {
    let mut table = IdTable::new(rt.alloc());
    let mut keys = Vec::new(rt.alloc());
    let mut in_lines = 0usize;
    for n in 0..8_190 {
        let noted = note_and_take_back(&mut table, &keys, numbered(n)).expect(&rt, "memory");
        if matches!(noted, Noted::InLine { line: _, at: _ }) {
            in_lines = in_lines.wrapping_add(1);
        }
        holds(&rt, row_of(&table, &keys, n).is_none());
        holds(&rt, !note_number(&rt, &mut table, &mut keys, n));
    }
    holds(&rt, in_lines > 7_500);
    let known = note_and_take_back(&mut table, &keys, numbered(17)).expect(&rt, "memory");
    holds(&rt, known.is_known());
    rows_stand(&rt, &table, &keys, 8_190);
}

#[test]
fn words_of_a_key(rt: HostRuntime) {
    let words = IdKey::new(3, &id(b"ABCDEFGH\x02")).words();
    holds(
        &rt,
        words == [3, 0x4142_4344_4546_4748, 0x0200_0000_0000_0000, 0, 0],
    );
}

/// Each request for memory is refused in turn. The first of the numbers names a request, and one behind it none.
#[test]
fn memory_is_refused(rt: HostRuntime) {
    for number in 1..100 {
        let heap = Refusing::new(rt.alloc(), number);
        let mut table = IdTable::new(&heap);
        let mut keys = Vec::new(&heap);
        note_numbers(&rt, &mut table, &mut keys, 200);
        if !heap.has_refused() {
            holds(&rt, number > 1);
            return;
        }
    }
    holds(&rt, false);
}

#[test]
fn hints_are_guesses(rt: HostRuntime) {
    let mut hints = Hints::new(rt.alloc());
    holds(&rt, hints.guess(5).is_none());
    hints.note(5, 0);
    hints.note(9, 1);
    holds(&rt, hints.guess(5) == Some(0));
    holds(&rt, hints.guess(9) == Some(1));
    holds(&rt, hints.guess(4).is_none());
    holds(&rt, hints.guess(1_000).is_none());
    hints.note(1_000_000_000_000, 2);
    holds(&rt, hints.guess(1_000_000_000_000) == Some(2));
    holds(&rt, hints.guess(9).is_none());
}
