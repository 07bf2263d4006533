//! A text written whole.

ghost use Rattle.std.specs.Prelude.{◌≡◌, true, false, OnOk, OnErr};
ghost use Rattle.std.specs.Io.KnownBytes.{Appends};
ghost use Rattle.spread_rules_ends.specs.Ends.{AppendsPrefix};

use crate::sink::Sink;
use crate::source::Failed;

/// Writes all of these bytes. Where a write fails, a front of them is out.
pub fn write_all<K: Sink>(sink: &mut K, bytes: &[u8]) -> Result<(), Failed>
    requires { K.has_failed sink.old ≡ false }
    ensures ok { OnOk result (Appends (K.written sink.old) (K.written sink.new) bytes.now) }
    ensures not_failed { OnOk result (K.has_failed sink.new ≡ false) }
    ensures failed_on_err { OnErr result (K.has_failed sink.new ≡ true) }
    ensures front { OnErr result
        (AppendsPrefix (K.written sink.old) (K.written sink.new) bytes.now) }
{
    let mut at = 0;
    while at < bytes.len() {
        let count = sink.write(&bytes[at..])?;
        at += count;
    }
    Ok(())
}
