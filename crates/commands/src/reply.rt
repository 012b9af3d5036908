//! What the program writes as its answer.
ghost use Rattle.std.specs.Prelude.{◌≡◌, ◌⊎◌, ◌≤◌, length, IfSome};
ghost use Rattle.surf_io.specs.Calls.{WroteAll, WrotePart};
ghost use Rattle.commands.specs.Replies.{reply_text, reply_status};
ghost use Rattle.commands.specs.Statuses.{IsAnswered};
ghost use Rattle.commands.specs.Writes.{Writes};

use crate::status::Status;
use crate::text::{Text, put_text};
use surf_io::{Failed, Sink};

/// What is written, and how the program ends then.
#[derive(Debug, Drop)]
pub enum Reply {
    /// Yes, or the thing that was asked for.
    Yes(Text),
    /// No.
    No(Text),
    /// Why the input is refused.
    Refused(Text),
}

/// Writes the reply, and settles it.
pub fn give<K: Sink>(out: &mut K, reply: Reply) -> Status
    ensures either { (result ≡ reply_status reply) ⊎ (result ≡ Status.WriteFault) }
    ensures written { IsAnswered result → WroteAll K.written out.old out.new (reply_text reply) }
    ensures settled { IsAnswered result → IfSome (K.written out.new) (λ bytes. K.settled out.new ≡ length bytes) }
    ensures write_fault { result ≡ Status.WriteFault → WrotePart K.written K.faults out.old out.new (reply_text reply) }
    ensures never_falls { K.faults out.old ≤ K.faults out.new }
{
    let status = settle(out, &reply);
    // By a call, which is proved once, and not here again.
    drop(reply);
    status
}

/// Writes a reply, and settles it.
fn settle<K: Sink>(out: &mut K, reply: &Reply) -> Status
    ensures either { (result ≡ reply_status reply.now) ⊎ (result ≡ Status.WriteFault) }
    ensures written { IsAnswered result → WroteAll K.written out.old out.new (reply_text reply.now) }
    ensures settled { IsAnswered result → IfSome (K.written out.new) (λ bytes. K.settled out.new ≡ length bytes) }
    ensures write_fault { result ≡ Status.WriteFault → WrotePart K.written K.faults out.old out.new (reply_text reply.now) }
    ensures never_falls { K.faults out.old ≤ K.faults out.new }
{
    let Ok(()) = put_reply(out, reply) else {
        return Status::WriteFault;
    };
    let Ok(()) = out.flush() else {
        return Status::WriteFault;
    };
    status_of(reply)
}

fn put_reply<K: Sink>(out: &mut K, reply: &Reply) -> Result<(), Failed>
    ensures { Writes K.written K.settled K.faults out.old out.new (reply_text reply.now) result }
{
    match reply {
        Reply::Yes(text) => put_text(out, text),
        Reply::No(text) => put_text(out, text),
        Reply::Refused(text) => put_text(out, text),
    }
}

fn status_of(reply: &Reply) -> Status
    ensures { result ≡ reply_status reply.now }
{
    match reply {
        Reply::Yes(_) => Status::Yes,
        Reply::No(_) => Status::No,
        Reply::Refused(_) => Status::Refused,
    }
}
