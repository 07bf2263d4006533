//! A day's text: another thread makes and writes the journal, while this one makes what stands behind it; then that one
//! writes it.
ghost use Rattle.std.specs.Prelude.{◌≡◌, ◌≢◌, ◌≤◌, ◌+◌, ◌++◌, [], Some, IfOk, IfErr, OnOk, OnErr, IsErrOf, IsOk, is_ok, length, vec_capacity, true, false};
ghost use Rattle.std.specs.Io.KnownBytes.{Appends};
ghost use Rattle.spread_rules_ends.specs.Ends.{AppendsPrefix};
ghost use Rattle.spread_journal_lines.specs.JournalText.{journal_text};
ghost use Rattle.text_ring.specs.Ends.{text_given, text_taken, AreEnds, IsRead, IsUnread, SameSink, SameSource};
ghost use Rattle.text_messages.specs.Messages.{texts_of};
ghost use Rattle.text_messages.specs.code.Blocks.{Writes};
ghost use Rattle.text_messages.specs.declared.blocks.TheConstants.{BLOCK_BYTES};
ghost use Rattle.text_day.specs.code.DayText.{day_text};
ghost use Rattle.exchange_print.specs.Printing.{behind_text, ArePrintable, HasWritten, IsPrintable};

use spread_host::{Day, HostFault, write_day};
use spread_rules::{Entry, Failed, Fill, Rulebook, Sink};
use std::alloc::{AllocError, Global};
use std::marker::Brand;
use std::snapshot::Snapshot;
use std::sync::Wait;
use std::thread;
use std::thread::{Promise, PromisedHandle, Scope, Threads};
use text_day::{write_behind_journal, write_journal_lines};
use text_messages::BLOCK_BYTES;
use text_ring::{BlockSink, BlockSource, GivingEnd, RingEnd, block_ring, same_text};

/// What came of a day's text: the sink again, and whether it was written.
#[derive(Drop)]
pub struct Printed<K> {
    pub sink: K,
    pub result: Result<(), HostFault>,
}

/// What stands behind the journal in a day's text: the fills, and what each session is sent.
#[derive(Drop)]
struct BehindJournal {
    fills: Vec<Fill, Global>,
    out: Vec<Vec<u8, Global>, Global>,
}

/// What there is no memory to print in two threads.
#[derive(Drop)]
struct Unprinted<K> {
    behind: BehindJournal,
    sink: K,
}

/// What the thread that writes works with: where the text goes, a block for the journal's lines, and the end of the ring
/// by which the rest comes.
#[derive(Drop)]
struct TextWriter<K> {
    sink: K,
    block: Vec<u8, Global>,
    source: BlockSource<Global>,
}

/// What it hands back: the two ends again, and whether all that came to it was written.
#[derive(Drop)]
struct WrittenText<K> {
    sink: K,
    source: BlockSource<Global>,
    result: Result<(), Failed>,
}

/// What it promises: the journal's text is written, and behind it what came through the ring.
#[derive(Drop)]
struct TextPromise<K> {
    writer: Snapshot<TextWriter<K>>,
    journal: Snapshot<Vec<Entry, Global>>,
}

impl<K: Sink> Promise<WrittenText<K>> for TextPromise<K> {
    ghost kept_by = { λ p w. HasWritten (K.written p.writer.value.sink) (K.written w.sink)
        (K.has_failed w.sink) p.journal.value.items p.writer.value.source w };
}

/// A block in which nothing stands yet.
fn empty_block(alloc: Global) -> Result<Vec<u8, Global>, AllocError>
    ensures { IfOk result (λ p. (p.items ≡ []) × (BLOCK_BYTES ≤ vec_capacity p)) }
{
    Vec::with_capacity(alloc, BLOCK_BYTES)
}

/// Makes and writes the lines of the journal, and then writes the blocks of the text behind it as they come.
fn write_text<R: Wait, K: Sink>(rt: &R, writer: TextWriter<K>, journal: &[Entry]) -> WrittenText<K>
    requires not_failed { K.has_failed writer.sink ≡ false }
    requires empty { writer.block.items ≡ [] }
    requires room { BLOCK_BYTES ≤ vec_capacity writer.block }
    requires unread { IsUnread writer.source }
    ensures { HasWritten (K.written writer.sink) (K.written result.sink) (K.has_failed result.sink)
        journal.now writer.source result }
{
    let TextWriter {
        mut sink,
        mut block,
        mut source,
    } = writer;
    let so_far = write_journal_lines(&mut block, &mut sink, journal);
    let result = source.write_to(rt, &mut sink, so_far);
    WrittenText {
        sink,
        source,
        result,
    }
}

/// Starts the thread that writes the text. Where it cannot be started the ring is marked, and the journal written here.
fn start_writing<'s, E, R: Threads + Wait + Sync, K: Sink + Send + Drop + 's>(
    scope: &Scope<'s, E>,
    rt: &'s R,
    writer: TextWriter<K>,
    journal: &'s Vec<Entry, Global>,
    ring: &mut BlockSink<'_, R, Global>,
) -> Result<PromisedHandle<WrittenText<K>, TextPromise<K>>, WrittenText<K>>
    requires not_failed { K.has_failed writer.sink ≡ false }
    requires empty { writer.block.items ≡ [] }
    requires room { BLOCK_BYTES ≤ vec_capacity writer.block }
    requires unread { IsUnread writer.source }
    ensures promised { IfOk result (λ h. (h.promise.writer.value ≡ writer)
        × (h.promise.journal.value ≡ journal.now)) }
    ensures kept { OnOk result (ring.new ≡ ring.old) }
    ensures here { IfErr result (λ w. HasWritten (K.written writer.sink) (K.written w.sink)
        (K.has_failed w.sink) journal.now.items writer.source w) }
    ensures ring { SameSink ring.old ring.new }
    ensures text { text_given ring.new ≡ text_given ring.old }
{
    let promise = TextPromise {
        writer: Snapshot::of(&writer),
        journal: Snapshot::of(journal),
    };
    let started = scope.spawn_with(
        promise,
        move || -> WrittenText<K>
            requires { (K.has_failed writer.sink ≡ false) × (writer.block.items ≡ [])
                × (BLOCK_BYTES ≤ vec_capacity writer.block) × IsUnread writer.source }
            ensures { HasWritten (K.written writer.sink) (K.written result.sink)
                (K.has_failed result.sink) journal.entry.now.items writer.source result }
        { write_text(rt, writer, journal) },
    );
    match started {
        Ok(writing) => Ok(writing),
        Err(refused) => {
            ring.end();
            Err((refused.value)())
        }
    }
}

/// Makes what stands behind the journal and gives it to the thread that writes, block by block, and marks its end. The
/// fills go as soon as their lines are made, and the messages while that thread still writes.
fn give_behind<'r, R: Wait, B: RingEnd>(
    ring: BlockSink<'r, R, Global>,
    block: Vec<u8, Global>,
    rulebook: &Rulebook,
    behind: BehindJournal,
) -> BlockSink<'r, R, Global>
    requires end { B.end ≡ Some ring.filled }
    requires open { ring.ended ≡ false }
    requires empty { block.items ≡ [] }
    requires room { BLOCK_BYTES ≤ vec_capacity block }
    requires printable { ArePrintable rulebook.now behind.fills.items behind.out.items }
    ensures ring { SameSink ring.entry result }
    ensures text { text_given result
        ≡ text_given ring.entry ++ behind_text rulebook.now behind.fills.items behind.out.items }
{
    let mut block = block;
    let mut giving = GivingEnd::<R, B>::new(ring);
    let BehindJournal { fills, out } = behind;
    match write_behind_journal(&mut block, &mut giving, rulebook, fills, &out) {
        Ok(()) => {}
        // No write fails here.
        Err(Failed) => unreachable!(),
    }
    let mut ring = giving.into_sink();
    ring.end();
    drop(out);
    ring
}

/// Writes what stands behind a journal that was written in this thread, and whose writing ended so.
fn print_here<K: Sink>(
    written: WrittenText<K>,
    block: Vec<u8, Global>,
    rulebook: &Rulebook,
    behind: BehindJournal,
) -> Printed<K>
    requires not_failed { OnOk written.result (K.has_failed written.sink ≡ false) }
    requires failed { OnErr written.result (K.has_failed written.sink ≡ true) }
    requires empty { block.items ≡ [] }
    requires room { BLOCK_BYTES ≤ vec_capacity block }
    requires printable { ArePrintable rulebook.now behind.fills.items behind.out.items }
    ensures writes { Writes result.result (K.written written.sink) (K.written result.sink)
        (K.has_failed result.sink) (behind_text rulebook.now behind.fills.items behind.out.items) }
    ensures kept { OnErr written.result
        ((is_ok result.result ≡ false) × (result.sink ≡ written.sink)) }
    ensures fault { IfErr result.result (λ f. f ≡ HostFault.Write) }
{
    let WrittenText {
        mut sink,
        result: so_far,
        ..
    } = written;
    let BehindJournal { fills, out } = behind;
    let mut block = block;
    let result = match so_far {
        Ok(()) => write_behind_journal(&mut block, &mut sink, rulebook, fills, &out),
        Err(Failed) => Err(Failed),
    };
    Printed {
        sink,
        result: host_result(result),
    }
}

/// A failed write, as the host answers it.
fn host_result(written: Result<(), Failed>) -> Result<(), HostFault>
    ensures ok { OnOk written (IsOk result) }
    ensures err { OnErr written (IsErrOf result HostFault.Write) }
{
    match written {
        Ok(()) => Ok(()),
        Err(Failed) => Err(HostFault::Write),
    }
}

/// Makes what stands behind the journal while another thread makes and writes the journal, and lets it go while that
/// thread still writes. It comes back where there is no memory for the blocks.
fn print_beside<'s, E, R: AllocGlobal + Threads + Wait + Sync, K: Sink + Send + Drop + 's>(
    scope: &Scope<'s, E>,
    rt: &'s R,
    rulebook: &Rulebook,
    journal: &'s Vec<Entry, Global>,
    behind: BehindJournal,
    sink: K,
) -> Result<Printed<K>, Unprinted<K>>
    requires not_failed { K.has_failed sink ≡ false }
    requires printable { ArePrintable rulebook.now behind.fills.items behind.out.items }
    ensures writes { IfOk result (λ p. Writes p.result (K.written sink) (K.written p.sink)
        (K.has_failed p.sink) (journal_text journal.now.items
        ++ behind_text rulebook.now behind.fills.items behind.out.items)) }
    ensures fault { IfOk result (λ p. IfErr p.result (λ f. f ≡ HostFault.Write)) }
    ensures back { IfErr result (λ u. (u.behind ≡ behind) × (u.sink ≡ sink)) }
{
    let alloc = rt.alloc();
    let (Ok(first), Ok(second)) = (empty_block(alloc), empty_block(alloc)) else {
        return Err(Unprinted { behind, sink });
    };
    let Ok((ring, source)) = block_ring(rt, alloc) else {
        return Err(Unprinted { behind, sink });
    };
    let mut ring = ring;
    let writer = TextWriter {
        sink,
        block: first,
        source,
    };
    match start_writing(scope, rt, writer, journal, &mut ring) {
        Ok(writing) => {
            let mut ring = give_behind::<R, Brand>(ring, second, rulebook, behind);
            let mut written = writing.join(rt);
            same_text(&mut ring, &mut written.source);
            let WrittenText { sink, result, .. } = written;
            Ok(Printed {
                sink,
                result: host_result(result),
            })
        }
        Err(written) => {
            let mut written = written;
            same_text(&mut ring, &mut written.source);
            Ok(print_here(written, second, rulebook, behind))
        }
    }
}

/// Writes the text of a day, and nothing else, and lets the day go. Answers NoMemory, its place one more than the
/// journal's length, with nothing written, or Write, with a prefix of the text written.
pub fn print_day<R: AllocGlobal + Threads + Wait + Sync, K: Sink + Send + Drop>(
    rt: &R,
    rulebook: &Rulebook,
    day: Day<Global>,
    sink: K,
) -> Printed<K>
    requires not_failed { K.has_failed sink ≡ false }
    requires printable { IsPrintable rulebook.now day }
    ensures ok { OnOk result.result (Appends (K.written sink) (K.written result.sink)
        (day_text false rulebook.now day.journal.items day.fills.items (texts_of day.out.items))) }
    ensures not_failed { OnOk result.result (K.has_failed result.sink ≡ false) }
    ensures memory { IfErr result.result (λ f. f ≢ HostFault.Write
        → (f ≡ HostFault.NoMemory (length day.journal.items + 1)) × (result.sink ≡ sink)) }
    ensures write { IsErrOf result.result HostFault.Write → (K.has_failed result.sink ≡ true)
        × AppendsPrefix (K.written sink) (K.written result.sink)
        (day_text false rulebook.now day.journal.items day.fills.items (texts_of day.out.items)) }
{
    let Day {
        journal,
        fills,
        out,
    } = day;
    let behind = BehindJournal { fills, out };
    let printed = thread::scope(
        thread::scope_env(),
        rt,
        |scope| -> Result<Printed<K>, Unprinted<K>>
            requires { (K.has_failed sink ≡ false)
                × ArePrintable rulebook.now behind.fills.items behind.out.items }
            ensures writes { IfOk result (λ p. Writes p.result (K.written sink) (K.written p.sink)
                (K.has_failed p.sink) (journal_text journal.items
                ++ behind_text rulebook.entry.now behind.fills.items behind.out.items)) }
            ensures fault { IfOk result (λ p. IfErr p.result (λ f. f ≡ HostFault.Write)) }
            ensures back { IfErr result (λ u. (u.behind ≡ behind) × (u.sink ≡ sink)) }
        { print_beside(scope, rt, rulebook, &journal, behind, sink) },
    );
    match printed {
        Ok(printed) => printed,
        Err(unprinted) => {
            let Unprinted {
                behind: BehindJournal { fills, out },
                mut sink,
            } = unprinted;
            let day = Day {
                journal,
                fills,
                out,
            };
            let result = write_day(rt.alloc(), rulebook, &day, false, &mut sink);
            Printed { sink, result }
        }
    }
}
