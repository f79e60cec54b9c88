//! One piece of a script's runs, and how many pieces there are (docs/FORMATS.md, "Reports").

ghost use Rattle.std.specs.Prelude.{◌≡◌, ◌≤◌, ◌<◌, IfOk, OnOk, IsErrOf, length, string_bytes};
ghost use Rattle.mpd_model.specs.runs.Trail.{first_standing};
ghost use Rattle.mpd_trail.specs.DebuggerViews.{standing_of};
ghost use Rattle.mpd_explore.specs.Sleeping.{decides_by};
ghost use Rattle.mpd_explore.specs.Pieces.{numbered, Reaches};
ghost use Rattle.mpd_check.specs.Checked.{pieces_of, leaves_at, more_at, count_text, AreFew, Counted};
ghost use Rattle.mpd_check.specs.Listing.{IsListing, IsPartListed, PartWritten};
ghost use Rattle.mpd_check.specs.Refused.{split_refused};

use crate::counts::Tally;
use crate::fault::CheckFault;
use crate::listing::{Listing, Wanted, limits_for, listing_by};
use crate::modes::put_text;
use crate::print::put_listing;
use mpd_code::Subject;
use mpd_explore::{PIECES_MAX, Piece, SplitFault, Watch, explore_at_watched, split_by};
use mpd_lines::EngineFault;
use mpd_model::{STEPS_MAX, Sink};
use mpd_pool::SearchPlan;
use mpd_trail::Debugger;
use std::alloc::{AllocError, Global};

/// A debugger at the start of a script, and the pieces of its runs.
#[derive(Drop)]
struct Begun<'c> {
    debugger: Debugger<'c>,
    pieces: Vec<Piece>,
}

/// Starts a script, and cuts its runs into pieces.
fn begin<'c>(alloc: Global, subject: Subject<'c>, plan: SearchPlan) -> Result<Begun<'c>, SplitFault>
    requires { plan.limits.fuel ≤ STEPS_MAX }
    ensures standing { IfOk result (λ b. standing_of b.debugger ≡ first_standing subject.entry.code.now.program subject.entry.mode) }
    ensures pieces { IfOk result (λ b. b.pieces.items ≡ numbered 0 (pieces_of subject.entry.code.now.program subject.entry.mode plan)) }
    ensures few { OnOk result (AreFew subject.entry.code.now.program subject.entry.mode plan) }
    ensures many { IsErrOf result SplitFault.TooManyPieces → PIECES_MAX < length (pieces_of subject.entry.code.now.program subject.entry.mode plan) }
{
    let Ok(mut debugger) = Debugger::start(alloc, subject.code, subject.mode) else {
        return Err(SplitFault::Memory);
    };
    match split_by(alloc, &mut debugger, plan.split, plan.limits) {
        Ok(pieces) => Ok(Begun { debugger, pieces }),
        Err(fault) => {
            drop(debugger);
            Err(fault)
        }
    }
}

/// Why pieces are refused.
fn refused(fault: SplitFault) -> CheckFault
    ensures { result ≡ split_refused fault }
{
    match fault {
        SplitFault::TooManyPieces => CheckFault::TooManyPieces,
        SplitFault::Memory => CheckFault::Engine(EngineFault::Memory),
    }
}

/// The text of how many pieces there are.
fn count_text(alloc: Global, count: usize) -> Result<String, AllocError>
    ensures { IfOk result (λ t. string_bytes t ≡ count_text count) }
{
    let mut out = String::new(alloc);
    write!(out, "pieces {count}\n")?;
    Ok(out)
}

/// Writes into how many pieces the runs of a script from its start are cut, as `pieces 225`.
/// Refused if there are more than 1,024 (31); `WriteFailed` (46) comes only if a write failed, and
/// `Memory` only before anything is written. Requires a fuel of at most 1,000,000 steps.
pub fn count_pieces<W: Sink>(
    alloc: Global,
    subject: Subject<'_>,
    plan: SearchPlan,
    sink: &mut W,
) -> Result<(), CheckFault>
    requires { plan.limits.fuel ≤ STEPS_MAX }
    ensures { Counted subject.entry.code.now.program subject.entry.mode plan (W.seen sink.old) (W.seen sink.new) result }
{
    let begun = match begin(alloc, subject, plan) {
        Ok(begun) => begun,
        Err(fault) => return Err(refused(fault)),
    };
    let count = begun.pieces.len();
    drop(begun);
    match count_text(alloc, count) {
        Ok(text) => put_text(text, sink),
        Err(_) => Err(CheckFault::Engine(EngineFault::Memory)),
    }
}

/// The part of a report that a piece has. The debugger is at the start of the script.
fn list_at<P: Watch>(
    alloc: Global,
    debugger: &mut Debugger<'_>,
    wanted: Wanted<'_>,
    piece: &Piece,
    watch: &mut P,
) -> Result<Listing, AllocError>
    requires fuel { wanted.plan.limits.fuel ≤ STEPS_MAX }
    requires standing { standing_of debugger.old ≡ first_standing debugger.old.trail.program debugger.old.trail.mode }
    requires reaches { Reaches (decides_by wanted.plan.limits.ends) wanted.plan.limits.fuel piece.now.choices debugger.old.world }
    ensures { IfOk result (IsListing (decides_by wanted.entry.plan.limits.ends) wanted.entry.telling wanted.entry.plan.limits (standing_of debugger.old) (leaves_at debugger.old.trail.program debugger.old.trail.mode wanted.entry.plan piece.now.choices) (more_at debugger.old.trail.program debugger.old.trail.mode wanted.entry.plan piece.now.choices)) }
{
    let limits = wanted.plan.limits;
    let asked = limits_for(limits, wanted.telling);
    let report = explore_at_watched(alloc, debugger, &piece.choices.items, asked, watch)?;
    listing_by(alloc, debugger, report, limits, wanted.telling)
}

/// The same of the piece of a number, if there is one. The debugger is at the start of the script.
fn list_number<P: Watch>(
    alloc: Global,
    debugger: &mut Debugger<'_>,
    wanted: Wanted<'_>,
    pieces: &[Piece],
    number: usize,
    watch: &mut P,
) -> Result<Listing, CheckFault>
    requires fuel { wanted.plan.limits.fuel ≤ STEPS_MAX }
    requires standing { standing_of debugger.old ≡ first_standing debugger.old.trail.program debugger.old.trail.mode }
    requires pieces { pieces.now ≡ numbered 0 (pieces_of debugger.old.trail.program debugger.old.trail.mode wanted.plan) }
    requires few { AreFew debugger.old.trail.program debugger.old.trail.mode wanted.plan }
    ensures { IsPartListed wanted.entry.telling debugger.old.trail.program debugger.old.trail.mode wanted.entry.plan number result }
{
    let count = pieces.len();
    if number >= count {
        return Err(CheckFault::NoSuchPiece { number, count });
    }
    match list_at(alloc, debugger, wanted, &pieces[number], watch) {
        Ok(listing) => Ok(listing),
        Err(_) => Err(CheckFault::Engine(EngineFault::Memory)),
    }
}

/// The same from the start of a script on.
fn list_from_start<P: Watch>(
    alloc: Global,
    subject: Subject<'_>,
    wanted: Wanted<'_>,
    number: usize,
    watch: &mut P,
) -> Result<Listing, CheckFault>
    requires { wanted.plan.limits.fuel ≤ STEPS_MAX }
    ensures { IsPartListed wanted.entry.telling subject.entry.code.now.program subject.entry.mode wanted.entry.plan number result }
{
    let begun = match begin(alloc, subject, wanted.plan) {
        Ok(begun) => begun,
        Err(fault) => return Err(refused(fault)),
    };
    let Begun {
        mut debugger,
        pieces,
    } = begun;
    list_number(alloc, &mut debugger, wanted, &pieces, number, watch)
}

/// Explores the runs of a script that the piece of a number has, and lists its part of the report:
/// its leaves, with what is asked for beside them, and whether it has more. Refused if there are
/// more than 1,024 pieces (31), or if no piece has the number; `Memory` means that memory was
/// refused. Requires a fuel of at most 1,000,000 steps. `watch` is told of each leaf as it is
/// found, and of the end; nothing else depends on it.
fn list_piece<P: Watch>(
    alloc: Global,
    subject: Subject<'_>,
    wanted: Wanted<'_>,
    number: usize,
    watch: &mut P,
) -> Result<Listing, CheckFault>
    requires { wanted.plan.limits.fuel ≤ STEPS_MAX }
    ensures { IsPartListed wanted.entry.telling subject.entry.code.now.program subject.entry.mode wanted.entry.plan number result }
{
    let listed = list_from_start(alloc, subject, wanted, number, watch);
    watch.end();
    listed
}

/// The same, and the part is written, its leaves numbered from 0. If nothing is asked for beside
/// them, the parts of all pieces joined in their order, with their leaves numbered through, are the
/// report of `check`. `WriteFailed` (46) comes only if a write failed, and `Memory` only before
/// anything is written.
pub fn check_piece<W: Sink, P: Watch>(
    alloc: Global,
    subject: Subject<'_>,
    wanted: Wanted<'_>,
    number: usize,
    sink: &mut W,
    watch: &mut P,
) -> Result<Tally, CheckFault>
    requires { wanted.plan.limits.fuel ≤ STEPS_MAX }
    ensures { PartWritten wanted.entry.telling subject.entry.code.now.program subject.entry.mode wanted.entry.plan number (W.seen sink.old) (W.seen sink.new) result }
{
    match list_piece(alloc, subject, wanted, number, watch) {
        Ok(listing) => put_listing(alloc, subject.code, wanted.telling, &listing, sink),
        Err(fault) => Err(fault),
    }
}
