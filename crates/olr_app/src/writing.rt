//! The loops that hand bytes over to a sink.

ghost use Rattle.std.specs.Prelude.{◌≡◌, [], OnOk, OnErr};
ghost use Rattle.std.specs.Io.KnownBytes.{Appends};
ghost use Rattle.olr_app.specs.Writing.{Hands, HasStopped, IsWritten};

use crate::sink::Sink;
use olr_base::Failed;

/// Hands over all the bytes, and doesn't have them passed on.
///
/// # Errors
///
/// [`Failed`] where the sink failed in a call, or took no byte of a rest. It took a front of the
/// bytes then.
pub fn put_whole<O: Sink>(out: &mut O, bytes: &[u8]) -> Result<(), Failed>
    ensures whole { OnOk result (Appends (O.taken out.old) (O.taken out.new) bytes.now) }
    ensures none_failed { OnOk result (O.failed out.new ≡ O.failed out.old) }
    ensures handed { OnOk result (Hands O.put_gives out.old bytes.now out.new []) }
    ensures stopped { OnErr result
        (HasStopped O.taken O.failed O.put_gives O.flush_gives bytes.now out.old out.new) }
{
    let mut rest = bytes;
    while !rest.is_empty() {
        let count = out.put(rest)?;
        if count == 0 {
            return Err(Failed);
        }
        (_, rest) = rest.split_at(count);
    }
    Ok(())
}

/// Hands over all the bytes, and then has them passed on, by one call.
///
/// # Errors
///
/// [`Failed`] where the sink failed in a call, or took no byte of a rest. It took a front of the
/// bytes then.
pub fn write_whole<O: Sink>(out: &mut O, bytes: &[u8]) -> Result<(), Failed>
    ensures whole { OnOk result (Appends (O.taken out.old) (O.taken out.new) bytes.now) }
    ensures none_failed { OnOk result (O.failed out.new ≡ O.failed out.old) }
    ensures written { OnOk result
        (IsWritten O.put_gives O.flush_gives bytes.now out.old out.new) }
    ensures stopped { OnErr result
        (HasStopped O.taken O.failed O.put_gives O.flush_gives bytes.now out.old out.new) }
{
    put_whole(out, bytes)?;
    out.flush_out()?;
    Ok(())
}
