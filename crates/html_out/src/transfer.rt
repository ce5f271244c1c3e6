//! Writing all of some bytes.
ghost use Rattle.std.specs.Prelude.{◌≡◌, ◌<◌, ◌≤◌, ◌++◌, length};
ghost use Rattle.outside.specs.Puts.{Puts};

use outside::{Failed, Sink};

/// Writes all of the bytes to a sink, in as many calls as it wants. It takes no memory. After `Failed`
/// a front of the bytes was written, and the sink has counted the fault.
pub fn put<K: Sink>(sink: &mut K, bytes: &[u8]) -> Result<(), Failed>
    ensures { Puts (K.taken sink.old) (K.taken sink.new) (K.faults sink.old) (K.faults sink.new) bytes.now result }
{
    let mut written = 0;
    while written < bytes.len() {
        written += sink.write(&bytes[written..])?;
    }
    Ok(())
}

/// Writes the one and then the other.
pub(crate) fn put_two<K: Sink>(sink: &mut K, first: &[u8], second: &[u8]) -> Result<(), Failed>
    ensures { Puts (K.taken sink.old) (K.taken sink.new) (K.faults sink.old) (K.faults sink.new) (first.now ++ second.now) result }
{
    put(sink, first)?;
    put(sink, second)
}
