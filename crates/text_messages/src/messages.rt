//! The lines of outgoing messages, written in blocks. What stands in a block is shown when the block is written.
ghost use Rattle.std.specs.Prelude.{◌≡◌, ◌<◌, ◌≤◌, ◌+◌, ◌++◌, ◌∷◌, [], All, map, length, min, OnOk, vec_len, vec_capacity, false};
ghost use Rattle.fix_wire_frames.specs.Frames.{IsFrameRow};
ghost use Rattle.text_messages.specs.Messages.{texts_of, outgoing_line};
ghost use Rattle.text_messages.specs.code.Messages.{shown_byte, session_lines, outgoing_lines_from};
ghost use Rattle.text_messages.specs.code.LineStart.{start_of_line};
ghost use Rattle.text_messages.specs.code.Blocks.{Puts, Writes};

use crate::blocks::{BLOCK_BYTES, TakesBlocks, append};
use fix_wire_framer::first_of_row;
use spread_rules_ends::Failed;
use spread_rules_ids::limits::SESSIONS;
use std::alloc::Allocator;

/// Shows each byte 1 as `|`.
fn show_field_ends(text: &mut [u8])
    ensures { text.new ≡ map shown_byte text.old }
{
    for byte in text.iter_mut() {
        *byte = shown_byte(*byte);
    }
}

fn shown_byte(byte: u8) -> u8
    ensures { result ≡ shown_byte byte }
{
    if byte == 1 { b'|' } else { byte }
}

/// Shows what stands in the block, which is then taken. The whole block at once: a loop over each message alone would
/// spend most of its time on its last few bytes.
fn give_shown<K: TakesBlocks<A>, A: Allocator>(
    block: &mut Vec<u8, A>,
    sink: &mut K,
) -> Result<(), Failed>
    requires not_failed { K.has_failed sink.old ≡ false }
    ensures writes { Writes result (K.written sink.old) (K.written sink.new) (K.has_failed sink.new)
        (map shown_byte block.old.items) }
    ensures items { OnOk result (block.new.items ≡ []) }
    ensures len { OnOk result (vec_len block.new ≡ 0) }
    ensures room { min BLOCK_BYTES (vec_capacity block.old) ≤ vec_capacity block.new }
{
    show_field_ends(&mut block[..]);
    sink.take(block)
}

/// Writes what stands in the block, as it is shown, if it has no room for so many bytes more.
fn make_room_shown<K: TakesBlocks<A>, A: Allocator>(
    block: &mut Vec<u8, A>,
    sink: &mut K,
    bytes: usize,
) -> Result<(), Failed>
    requires not_failed { K.has_failed sink.old ≡ false }
    requires most { bytes ≤ min BLOCK_BYTES (vec_capacity block.old) }
    ensures puts { Puts result (K.written sink.old) (K.written sink.new) (K.has_failed sink.new)
        (map shown_byte block.new.items) (map shown_byte block.old.items) }
    ensures room { OnOk result (vec_len block.new + bytes ≤ vec_capacity block.new) }
    ensures capacity { min BLOCK_BYTES (vec_capacity block.old) ≤ vec_capacity block.new }
{
    if block.capacity() - block.len() < bytes {
        return give_shown(block, sink);
    }
    Ok(())
}

/// Puts bytes behind those of the block, which are shown and written each time that it is full.
fn put_part<K: TakesBlocks<A>, A: Allocator>(
    block: &mut Vec<u8, A>,
    sink: &mut K,
    bytes: &[u8],
) -> Result<(), Failed>
    requires not_failed { K.has_failed sink.old ≡ false }
    requires some { 0 < vec_capacity block.old }
    ensures puts { Puts result (K.written sink.old) (K.written sink.new) (K.has_failed sink.new)
        (map shown_byte block.new.items)
        (map shown_byte block.old.items ++ map shown_byte bytes.now) }
    ensures room { OnOk result
        (min BLOCK_BYTES (vec_capacity block.old) ≤ vec_capacity block.new) }
{
    let mut rest = bytes;
    while !rest.is_empty() {
        make_room_shown(block, sink, 1)?;
        let (now, later) = rest.split_at(rest.len().min(block.capacity() - block.len()));
        append(block, now);
        rest = later;
    }
    Ok(())
}

/// What each line of a session begins with, `O S:`.
fn line_start(session: u8) -> &'static [u8]
    requires { session < SESSIONS }
    ensures text { result.now ≡ start_of_line session }
    ensures shown { map shown_byte result.now ≡ result.now }
{
    match session {
        0 => b"O 0:",
        1 => b"O 1:",
        2 => b"O 2:",
        3 => b"O 3:",
        4 => b"O 4:",
        5 => b"O 5:",
        6 => b"O 6:",
        7 => b"O 7:",
        8 => b"O 8:",
        9 => b"O 9:",
        10 => b"O 10:",
        11 => b"O 11:",
        12 => b"O 12:",
        13 => b"O 13:",
        14 => b"O 14:",
        _ => b"O 15:",
    }
}

/// The line of a message that a whole block has no room for. It is cut.
#[inline(never)]
fn put_long_message<K: TakesBlocks<A>, A: Allocator>(
    block: &mut Vec<u8, A>,
    sink: &mut K,
    session: u8,
    message: &[u8],
) -> Result<(), Failed>
    requires not_failed { K.has_failed sink.old ≡ false }
    requires some { 0 < vec_capacity block.old }
    requires session { session < SESSIONS }
    ensures puts { Puts result (K.written sink.old) (K.written sink.new) (K.has_failed sink.new)
        (map shown_byte block.new.items)
        (map shown_byte block.old.items ++ outgoing_line session message.now) }
    ensures room { OnOk result
        (min BLOCK_BYTES (vec_capacity block.old) ≤ vec_capacity block.new) }
{
    put_part(block, sink, line_start(session))?;
    put_part(block, sink, message)?;
    put_part(block, sink, b"\n")
}

/// Appends one message's line, for which there is room.
fn append_line<A: Allocator>(block: &mut Vec<u8, A>, line_start: &[u8], message: &[u8])
    requires { vec_len block.old + length line_start.now + length message.now + 1 ≤ vec_capacity block.old }
    ensures items { block.new.items ≡ block.old.items ++ (line_start.now ++ message.now ++ 10 ∷ []) }
    ensures room { vec_capacity block.old ≤ vec_capacity block.new }
{
    append(block, line_start);
    append(block, message);
    block.push_reserved(b'\n');
}

/// One message's line. The block is written first where it has no room for the line.
fn put_message<K: TakesBlocks<A>, A: Allocator>(
    block: &mut Vec<u8, A>,
    sink: &mut K,
    session: u8,
    message: &[u8],
) -> Result<(), Failed>
    requires not_failed { K.has_failed sink.old ≡ false }
    requires some { 0 < vec_capacity block.old }
    requires session { session < SESSIONS }
    ensures puts { Puts result (K.written sink.old) (K.written sink.new) (K.has_failed sink.new)
        (map shown_byte block.new.items)
        (map shown_byte block.old.items ++ outgoing_line session message.now) }
    ensures room { OnOk result
        (min BLOCK_BYTES (vec_capacity block.old) ≤ vec_capacity block.new) }
{
    let line_start = line_start(session);
    let line = line_start
        .len()
        .saturating_add(message.len())
        .saturating_add(1);
    if line > block.capacity().min(BLOCK_BYTES) {
        return put_long_message(block, sink, session, message);
    }
    make_room_shown(block, sink, line)?;
    append_line(block, line_start, message);
    Ok(())
}

/// A line for each message of these bytes, which this session is sent. They are whole frames.
fn put_outgoing<K: TakesBlocks<A>, A: Allocator>(
    block: &mut Vec<u8, A>,
    sink: &mut K,
    session: u8,
    bytes: &[u8],
) -> Result<(), Failed>
    requires not_failed { K.has_failed sink.old ≡ false }
    requires some { 0 < vec_capacity block.old }
    requires session { session < SESSIONS }
    requires row { IsFrameRow bytes.now }
    ensures puts { Puts result (K.written sink.old) (K.written sink.new) (K.has_failed sink.new)
        (map shown_byte block.new.items)
        (map shown_byte block.old.items ++ session_lines session bytes.now) }
    ensures room { OnOk result
        (min BLOCK_BYTES (vec_capacity block.old) ≤ vec_capacity block.new) }
{
    let mut rest = bytes;
    while let Some((message, later)) = first_of_row(rest) {
        put_message(block, sink, session, message)?;
        rest = later;
    }
    Ok(())
}

/// A line for each message of these lists, session 0 first.
fn put_sessions<K: TakesBlocks<A>, A: Allocator, B: Allocator>(
    block: &mut Vec<u8, A>,
    sink: &mut K,
    lists: &[Vec<u8, B>],
) -> Result<(), Failed>
    requires not_failed { K.has_failed sink.old ≡ false }
    requires some { 0 < vec_capacity block.old }
    requires count { length lists.now ≤ SESSIONS }
    requires rows { All IsFrameRow (texts_of lists.now) }
    ensures puts { Puts result (K.written sink.old) (K.written sink.new) (K.has_failed sink.new)
        (map shown_byte block.new.items)
        (map shown_byte block.old.items ++ outgoing_lines_from 0 (texts_of lists.now)) }
    ensures room { OnOk result
        (min BLOCK_BYTES (vec_capacity block.old) ≤ vec_capacity block.new) }
{
    for (session, bytes) in lists.iter().enumerate() {
        put_outgoing(block, sink, session as u8, bytes)?;
    }
    Ok(())
}

/// Writes a line for each message of these lists, session 0 first, by way of a block in which nothing stands yet, and
/// takes no memory. The lists are sixteen at most, each of whole frames, or empty. Then the block is empty again. Where a
/// write fails, a front of the lines is out, and nothing is known of what stands in the block.
pub fn write_sessions<K: TakesBlocks<A>, A: Allocator, B: Allocator>(
    block: &mut Vec<u8, A>,
    sink: &mut K,
    lists: &[Vec<u8, B>],
) -> Result<(), Failed>
    requires not_failed { K.has_failed sink.old ≡ false }
    requires empty { block.old.items ≡ [] }
    requires some { 0 < vec_capacity block.old }
    requires count { length lists.now ≤ SESSIONS }
    requires rows { All IsFrameRow (texts_of lists.now) }
    ensures writes { Writes result (K.written sink.old) (K.written sink.new) (K.has_failed sink.new)
        (outgoing_lines_from 0 (texts_of lists.now)) }
    ensures emptied { OnOk result (block.new.items ≡ []) }
    ensures room { OnOk result
        (min BLOCK_BYTES (vec_capacity block.old) ≤ vec_capacity block.new) }
{
    put_sessions(block, sink, lists)?;
    give_shown(block, sink)
}
