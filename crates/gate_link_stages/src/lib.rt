//! The rings between the stages behind the sequencer: the journal's entries to the thread that matches, and each session's
//! outgoing bytes to the thread that writes them. Each ring's last item is an end mark. No stage waits in here.
#![tactic(auto)]

mod fault;
mod feed;
mod feed_pair;
pub mod laws;
mod post;
mod post_pair;
mod range;

pub use fault::LinkFault;
pub use feed::{Feeder, Give, Lent, Matcher, Taken};
pub use feed_pair::{agree, feed_ring};
pub use post::{Post, Poster, Writer, Wrote};
pub use post_pair::{finished, post_ring};
pub use range::fits_entry;
