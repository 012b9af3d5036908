//! Writing all of some bytes.
ghost use Rattle.std.specs.Prelude.{OnOk, OnErr};
ghost use Rattle.surf_io.specs.Calls.{OnlyWrites, WroteAll, WrotePart};

use crate::faults::Failed;
use crate::sink::Sink;

/// Writes all of `bytes`. After a failure a first part of them was written.
#[tactic(auto, using(crate::proofs::Appending::appends_more, crate::proofs::Appending::within_rest))]
pub fn write_whole<K: Sink>(sink: &mut K, bytes: &[u8]) -> Result<(), Failed>
    ensures ok { OnOk result (WroteAll K.written sink.old sink.new bytes.now) }
    ensures failed { OnErr result (WrotePart K.written K.faults sink.old sink.new bytes.now) }
    ensures only_writes { OnlyWrites K.settled K.faults sink.old sink.new }
{
    let mut at = 0;
    while at < bytes.len() {
        at += sink.write(&bytes[at..])?;
    }
    Ok(())
}
