//! A session's ring to the thread that writes its bytes: its items are pieces of bytes, and one mark that ends them.
ghost use Rattle.std.specs.Prelude.{◌≡◌, ℕ, [], true, false, length, ◌≤◌, ◌*◌, take};
ghost use Rattle.rtrb.specs.Ring.{sent, received};
ghost use Rattle.gate_link_stages.specs.Marks.{ends};
ghost use Rattle.gate_link_stages.specs.Pieces.{bytes_in, bytes_of_piece, is_mark};
ghost use Rattle.gate_link_stages.specs.declared.post.TheConstants.{POSTED_BYTES};

use rtrb::{Consumer, Producer};
use spread_rules::NoMemory;
use std::alloc::Allocator;

/// How many bytes a piece has at most: with its length it fills 256 bytes.
pub const POSTED_BYTES: usize = 254;

/// The length of the end mark, which no piece has.
const END_MARK_LENGTH: u16 = 255;

/// How many bytes `Poster::post` gives at most.
pub const POST_BYTES: usize = 63;

/// How many pieces are given at once at most. Few entries send a session more than these take.
pub const MAX_POSTED_PIECES: usize = 16;

/// An item of the ring: so many of its first bytes, or the end mark. The bytes come first, so that they are written and
/// read again in the same parts of 16.
#[derive(Clone, Copy)]
pub(crate) struct PostedBytes {
    bytes: [u8; POSTED_BYTES],
    length: u16,
}

/// A piece of no bytes.
const NOTHING_POSTED: PostedBytes = PostedBytes {
    bytes: [0; POSTED_BYTES],
    length: 0,
};

/// The end that gives bytes. It may move to another thread.
#[derive(Drop)]
pub struct Poster<A: Allocator> {
    pub(crate) producer: Producer<PostedBytes, A>,
    pub(crate) ended: bool,
    /// Where pieces are laid out before they are pushed. What is left in them of earlier bytes is not read.
    pieces: [PostedBytes; MAX_POSTED_PIECES],
    // The mark comes last, and only where it is ended.
    ghost shape: { ends is_mark (sent producer) ended ≡ true },
}

/// The end that takes bytes, and the list of those that it took. It may move to another thread.
#[derive(Drop)]
pub struct Writer<A: Allocator> {
    pub(crate) consumer: Consumer<PostedBytes, A>,
    bytes: Vec<u8, A>,
    pub(crate) ended: bool,
    ghost shape: { ends is_mark (received consumer) ended ≡ true },
    ghost whole: { bytes.items ≡ bytes_in (received consumer) },
}

/// What posting did.
#[derive(Clone, Copy, PartialEq, Eq)]
pub enum Post {
    /// How many bytes from the first were pushed.
    Posted(usize),
    /// The ring had no room for them.
    Full,
    /// The end mark was pushed before.
    Ended,
}

/// What taking did.
#[derive(Clone, Copy, PartialEq, Eq)]
pub enum Wrote {
    /// How many bytes were taken into the list.
    Bytes(usize),
    /// No item is there yet.
    Empty,
    /// The end mark was taken.
    Ended,
}

/// Lays these bytes out in a piece.
fn put_piece(piece: &mut PostedBytes, bytes: &[u8])
    requires { length bytes.now ≤ POSTED_BYTES }
    ensures bytes { bytes_of_piece piece.new ≡ bytes.now }
    ensures plain { is_mark piece.new ≡ false }
{
    piece.length = bytes.len() as u16;
    let (whole, _) = bytes.as_chunks();
    match whole.first() {
        // All that a piece takes, as most are: a copy of a length that is known.
        Some(whole) => piece.bytes = *whole,
        None => piece.bytes[..bytes.len()].copy_from_slice(bytes),
    }
}

/// Lays these bytes out in the first of these pieces, and says in how many.
fn put_pieces(pieces: &mut [PostedBytes; MAX_POSTED_PIECES], bytes: &[u8]) -> usize
    requires { length bytes.now ≤ MAX_POSTED_PIECES * POSTED_BYTES }
    ensures count { result ≤ MAX_POSTED_PIECES }
    ensures room { (k : ℕ) → length bytes.now ≤ k * POSTED_BYTES → result ≤ k }
    ensures bytes { bytes_in (take result pieces.new) ≡ bytes.now }
    ensures plain { ends is_mark (take result pieces.new) false ≡ true }
{
    let mut count = 0;
    let mut done = 0;
    while done < bytes.len() {
        let n = (bytes.len() - done).min(POSTED_BYTES);
        put_piece(&mut pieces[count], &bytes[done..done + n]);
        count += 1;
        done += n;
    }
    count
}

impl<A: Allocator> Poster<A> {
    ghost use Rattle.gate_link_stages.specs.Posting.{SamePoster, Posts, PostsMany, EndPosts};

    pub(crate) fn new(producer: Producer<PostedBytes, A>) -> Poster<A>
        requires { sent producer ≡ [] }
        ensures { (result.producer ≡ producer) × (result.ended ≡ false) }
    {
        Poster {
            producer,
            ended: false,
            pieces: [NOTHING_POSTED; MAX_POSTED_PIECES],
        }
    }

    /// Gives the first bytes, 63 at most, and says how many. For who gives one piece; the host asks `post_many`.
    pub fn post(&mut self, bytes: &[u8]) -> Post
        ensures ring { SamePoster self.old self.new }
        ensures post { Posts result bytes.now self.old self.new }
    {
        if self.ended {
            return Post::Ended;
        }
        if bytes.is_empty() {
            return Post::Posted(0);
        }
        let n = bytes.len().min(POST_BYTES);
        let mut piece = NOTHING_POSTED;
        put_piece(&mut piece, &bytes[..n]);
        let Ok(()) = self.producer.push(piece) else {
            return Post::Full;
        };
        Post::Posted(n)
    }

    /// Gives the first bytes at once, as many as 16 pieces take and the ring can hold, and says how many. Full, and
    /// none given, where the ring has no room for all of these.
    pub fn post_many(&mut self, bytes: &[u8]) -> Post
        ensures ring { SamePoster self.old self.new }
        ensures post { PostsMany result bytes.now self.old self.new }
    {
        if self.ended {
            return Post::Ended;
        }
        let pieces = MAX_POSTED_PIECES.min(self.producer.capacity());
        let n = bytes.len().min(pieces * POSTED_BYTES);
        let count = put_pieces(&mut self.pieces, &bytes[..n]);
        let Ok(()) = self.producer.push_entire_slice(&self.pieces[..count]) else {
            return Post::Full;
        };
        Post::Posted(n)
    }

    /// Pushes the end mark, once: Posted(0), Full or Ended.
    pub fn end(&mut self) -> Post
        ensures ring { SamePoster self.old self.new }
        ensures end { EndPosts result self.old self.new }
    {
        if self.ended {
            return Post::Ended;
        }
        let mark = PostedBytes {
            bytes: [0; POSTED_BYTES],
            length: END_MARK_LENGTH,
        };
        let Ok(()) = self.producer.push(mark) else {
            return Post::Full;
        };
        self.ended = true;
        Post::Posted(0)
    }
}

impl<A: Allocator> Writer<A> {
    ghost use Rattle.std.specs.Prelude.{IfOk, OnErr};
    ghost use Rattle.gate_link_stages.specs.Posting.{written, write_ended, SameWriter, Writes};

    pub(crate) fn new(consumer: Consumer<PostedBytes, A>, bytes: Vec<u8, A>) -> Writer<A>
        requires { (received consumer ≡ []) × (bytes.items ≡ []) }
        ensures { (result.consumer ≡ consumer) × (result.ended ≡ false) }
    {
        Writer {
            consumer,
            bytes,
            ended: false,
        }
    }

    /// Takes the next piece, if one is there. Its list grows first, so after NoMemory list and ring are as before.
    pub fn take(&mut self) -> Result<Wrote, NoMemory>
        ensures ring { SameWriter self.old self.new }
        ensures take { IfOk result (λ w. Writes w self.old self.new) }
        ensures refused { OnErr result ((written self.new ≡ written self.old)
            × (write_ended self.new ≡ write_ended self.old)) }
    {
        if self.ended {
            return Ok(Wrote::Ended);
        }
        if self.consumer.is_empty() {
            return Ok(Wrote::Empty);
        }
        let piece = self.consumer.peek_known();
        let n = usize::from(piece.length);
        if n > POSTED_BYTES {
            self.consumer.pop_known();
            self.ended = true;
            return Ok(Wrote::Ended);
        }
        self.bytes.extend_from_slice(&piece.bytes[..n])?;
        self.consumer.pop_known();
        Ok(Wrote::Bytes(n))
    }

    /// The bytes so far.
    pub fn bytes(&self) -> &[u8]
        ensures { result.now ≡ written self.now }
    {
        self.bytes.as_slice()
    }

    /// The bytes alone.
    pub fn into_bytes(self) -> Vec<u8, A>
        ensures { result.items ≡ written self }
    {
        let Writer { bytes, .. } = self;
        bytes
    }
}
