//! The holder passes its frames on, until the other node has the end.
ghost use Rattle.std.specs.Prelude.{◌≡◌, ◌+◌, min, true, is_some, Some};
ghost use Rattle.pair_core.specs.Pair.{IsCall, len_of};
ghost use Rattle.pair_core.specs.PairAnswers.{KeepsCourse, PassKeeps};
ghost use Rattle.pair_core.specs.PairRefusals.{holder};
ghost use Rattle.pair_world.specs.World as worlds;
ghost use Rattle.catch_up.specs.CatchUpAnswers.{CatchesUpDoes, CatchUpMoments, CatchUpCauses, answer_of, first_of_pair};

use crate::plan::{CatchAnswer, CatchUp};
use crash_disk::Disk;
use pair_core::{Delivered, Pair, PairFault, other};

/// The other node gets the holder's journal, frame after frame, by the plan: each message is passed
/// on, and its answer leads to the next. It answers the holder's length. The end is then
/// acknowledged.
pub fn catch_up<D: Disk + Drop>(pair: &mut Pair<D>) -> Result<u32, PairFault>
    ensures does { CatchesUpDoes D.state pair.old pair.new result }
    ensures moments { CatchUpMoments D.state pair.old pair.new }
    ensures causes { CatchUpCauses D.state pair.old pair.new result }
    ensures call { IsCall D.state pair.old pair.new }
    ensures keeps { KeepsCourse D.state pair.old pair.new }
    ensures beside { PassKeeps pair.old pair.new result }
{
    if let Some(refusal) = pair.catch_up_refusal() {
        return Err(refusal);
    }
    let mut plan = CatchUp::new(first_number(pair));
    while let Some(k) = plan.next() {
        let delivered = pair.pass_on(k)?;
        plan.heard(heard(delivered));
    }
    Ok(pair.len(pair.duty().holder))
}

// The number that is passed on first: the one after the frames that both journals have room for.
fn first_number<D: Disk + Drop>(pair: &Pair<D>) -> u32
    ensures { result ≡ first_of_pair pair.now }
{
    let holder = pair.duty().holder;
    pair.len(holder).min(pair.len(other(holder))) + 1
}

// What the plan hears of an answer. No node answers a message of the present epoch otherwise.
fn heard(delivered: Delivered) -> CatchAnswer
    requires { is_some (answer_of delivered) ≡ true }
    ensures { answer_of delivered ≡ Some result }
{
    match delivered {
        Delivered::Stored(ack) => CatchAnswer::Stored(ack.number),
        Delivered::Have(ack) => CatchAnswer::Have(ack.number),
        Delivered::Cut(j) => CatchAnswer::Cut(j),
        Delivered::Behind { len, .. } => CatchAnswer::Behind(len),
        Delivered::HaveEnd(ack) => CatchAnswer::HaveEnd(ack.number),
        Delivered::Stale { .. } | Delivered::Acked(_) => unreachable!(),
    }
}
