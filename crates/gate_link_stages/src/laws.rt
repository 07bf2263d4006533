//! Law: how much goes into the rings behind the sequencer at once.
ghost use Rattle.std.specs.Prelude.{◌≡◌};
ghost use Rattle.gate_link_stages.specs.declared.feed.TheConstants.{MAX_SLICE_ITEMS};
ghost use Rattle.gate_link_stages.specs.declared.post.TheConstants.{POSTED_BYTES, POST_BYTES};

/// How many entries are given to the matching thread at once, how many bytes `post` gives, and how many a piece has.
pub fn sizes()
    ensures slice { MAX_SLICE_ITEMS ≡ 64 }
    ensures post { POST_BYTES ≡ 63 }
    ensures piece { POSTED_BYTES ≡ 254 }
{}
