//! The end of a ring while a text is given to it.
ghost use Rattle.std.specs.Prelude.{◌≡◌, ℕ, Option, Some, None, true, false};
ghost use Rattle.std.specs.declared.alloc.Global.{Global};
ghost use Rattle.std.specs.declared.vec.Vec.{Vec};
ghost use Rattle.rtrb.specs.declared.producer.Producer.{Producer};
ghost use Rattle.rtrb.specs.Ring.{SameProducer};
ghost use Rattle.text_ring.specs.declared.block.Filled.{Filled};

use crate::block::{Block, Filled};
use crate::sink::BlockSink;
use rtrb::Producer;
use spread_rules_ends::Failed;
use std::alloc::Global;
use std::marker::{Brand, PhantomData};
use std::sync::Wait;
use text_messages::TakesBlocks;

/// Names the end of a ring, so that whoever is lent it as one that takes blocks hands back the same.
pub trait RingEnd {
    ghost end: { Option (Producer (Vec ℕ Global) Global Filled) };
}

impl RingEnd for Brand {
    ghost end = { None };
}

/// The end of that ring while a text is given to it. No write fails here, and the mark is still to come.
#[derive(Drop)]
pub struct GivingEnd<'r, R, B: RingEnd> {
    sink: BlockSink<'r, R, Global>,
    end: PhantomData<B>,
    ghost same: { (end : Producer _ _ _) → B.end ≡ Some end → SameProducer end sink.filled },
    ghost open: { sink.ended ≡ false },
}

impl<'r, R: Wait, B: RingEnd> GivingEnd<'r, R, B> {
    ghost use Rattle.text_ring.specs.Ends.{text_given};

    pub fn new(sink: BlockSink<'r, R, Global>) -> GivingEnd<'r, R, B>
        requires end { B.end ≡ Some sink.filled }
        requires open { sink.ended ≡ false }
        ensures { ⟦<GivingEnd<'r, R, B> as TakesBlocks<Global>>⟧.written result ≡ Some (text_given sink.entry) }
    {
        GivingEnd {
            sink,
            end: PhantomData,
        }
    }

    /// The end of the ring again.
    pub fn into_sink(self) -> BlockSink<'r, R, Global>
        ensures ring { (end : Producer _ _ _) → B.end ≡ Some end → SameProducer end result.filled }
        ensures open { result.ended ≡ false }
        ensures text { ⟦<GivingEnd<'r, R, B> as TakesBlocks<Global>>⟧.written self.entry ≡ Some (text_given result) }
    {
        let GivingEnd { sink, .. } = self;
        sink
    }
}

impl<'r, R: Wait, B: RingEnd> TakesBlocks<Global> for GivingEnd<'r, R, B> {
    ghost use Rattle.text_ring.specs.Ends.{text_given};

    // The text of the blocks that were given on.
    ghost written = { λ g. Some (text_given g.sink) };

    ghost has_failed = { λ g. false };

    fn take(&mut self, block: &mut Vec<u8, Global>) -> Result<(), Failed> {
        self.sink.take(block);
        Ok(())
    }
}
