//! Refusals of the pair as replies.
ghost use Rattle.std.specs.Prelude.{◌≡◌, ◌≢◌, MatchResult};
ghost use Rattle.command_desk.specs.declared.refusal.Refusal.{Refusal as AnyRefusal};
ghost use Rattle.command_desk.specs.declared.reply.Reply.{Reply as AnyReply};
ghost use Rattle.pair_core.specs.declared.faults.PairFault.{PairFault as AnyFault};

use crate::refusal::Refusal;
use crate::reply::Reply;
use ali_base::NoMemory;
use pair_core::PairFault;

/// The reply where an event is refused, or its disk failed.
pub(crate) fn refused(fault: PairFault) -> Result<Reply, NoMemory>
    ensures { MatchResult result
        (λ told. (told ≡ AnyReply.Refused (AnyRefusal.Pair fault)) × (fault ≢ AnyFault.NoMemory))
        (λ e. fault ≡ AnyFault.NoMemory) }
{
    match fault {
        PairFault::NoMemory => Err(NoMemory),
        fault => Ok(Reply::Refused(Refusal::Pair(fault))),
    }
}
