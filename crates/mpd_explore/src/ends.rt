//! What the steps of a run lead to, as a witness tells it.

ghost use Rattle.std.specs.Prelude.{◌≡◌, IfOk, OnErr, IsSome, map};
ghost use Rattle.mpd_explore.specs.Witness.{rank_trap, end_of};

use crate::report::{Ending, RankTrap, RankTrapList, WitnessEnd};
use mpd_model::{Outcome, TrappedRank};
use std::alloc::{AllocError, Global};

/// What a witness tells of trapped ranks. `Err` means that memory was refused.
pub(crate) fn rank_traps(alloc: Global, ranks: &[TrappedRank]) -> Result<RankTrapList, AllocError>
    ensures { IfOk result (λ l. l ≡ map rank_trap ranks.now) }
{
    let mut items = Vec::new(alloc);
    for trapped in ranks {
        items.push(RankTrap {
            rank: trapped.rank,
            trap: trapped.trap,
        })?;
    }
    Ok(RankTrapList { items })
}

/// What a run leads to that ends so, if that is a deadlock or a trap. `Err` means that memory was
/// refused, which happens only there.
pub(crate) fn end_of(alloc: Global, ending: &Ending) -> Result<Option<WitnessEnd>, AllocError>
    ensures end { IfOk result (λ o. o ≡ end_of ending.now) }
    ensures memory { OnErr result (IsSome (end_of ending.now)) }
{
    match ending {
        Ending::Ended(Outcome::Deadlock(calls)) => {
            let calls = calls.ids(alloc)?;
            Ok(Some(WitnessEnd::Deadlock(calls)))
        }
        Ending::Ended(Outcome::Trap(ranks)) => {
            let ranks = rank_traps(alloc, &ranks.items)?;
            Ok(Some(WitnessEnd::Trap(ranks)))
        }
        Ending::Ended(Outcome::Done | Outcome::Leftovers(_)) => Ok(None),
        Ending::Cut => Ok(None),
    }
}
