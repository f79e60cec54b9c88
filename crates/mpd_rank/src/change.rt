//! What a step did, so that it can be taken back.

ghost use Rattle.std.specs.Prelude.{◌≡◌, ◌<◌, ◌≤◌, ◌+◌, [], ◌∷◌, ◌++◌, length, Some, None, IfSome, pos};
ghost use Rattle.mpd_rank.specs.Packed.{before};
ghost use Rattle.mpd_rank.specs.Entries.{IsSmall, some_number};
ghost use Rattle.mpd_rank.specs.Locals.{IsLocal, local_change, issued_handle};
ghost use Rattle.mpd_rank.specs.declared.change.LocalChange.TheVariants as LocalChange;

use std::marker::Model;

/// In place of a number: none.
const NO_NUMBER: u32 = u32::MAX;

/// In place of a cell: none. A script has fewer cells.
const NO_CELL: u16 = u16::MAX;

/// Cells that a wake writes, in order, each with its new value. Contracts see a list. There are four at most.
#[derive(Clone, Copy)]
pub struct Cells {
    pub(crate) first: Option<(usize, i64)>,
    pub(crate) second: Option<(usize, i64)>,
    pub(crate) third: Option<(usize, i64)>,
    pub(crate) fourth: Option<(usize, i64)>,
}

impl Model for Cells {
    ghost use Rattle.std.specs.Prelude.{ℕ, ℤ, List};
    ghost use Rattle.mpd_rank.specs.Views.{cells_code};
    ghost use Rattle.mpd_rank.specs.Packed.{all_listed, IsPacked, first_of, second_of, third_of, fourth_of, listed_back};

    ghost Value = { List (ℕ × ℤ) };

    ghost coded = { cells_code };

    ghost view = { λ c. all_listed c.first c.second c.third c.fourth };

    ghost invariant = { λ c. IsPacked c.first c.second c.third c.fourth };

    ghost inverse = { λ l. record { first = first_of l; second = second_of l; third = third_of l; fourth = fourth_of l } };

    ghost inverse_ok = { λ c h. let back = listed_back c.first c.second c.third c.fourth h in (λ i. record { first = back.0 i; second = back.1 i; third = back.2 i; fourth = back.3 i }) };
}

impl Cells {
    /// No cell.
    pub fn none() -> Cells
        ensures { result ≡ [] }
    {
        Cells {
            first: None,
            second: None,
            third: None,
            fourth: None,
        }
    }

    /// One cell.
    pub fn one(cell: usize, value: i64) -> Cells
        ensures { result ≡ (cell, value) ∷ [] }
    {
        Cells {
            first: Some((cell, value)),
            second: None,
            third: None,
            fourth: None,
        }
    }

    /// Three cells, each with its value.
    pub fn three(first: (usize, i64), second: (usize, i64), third: (usize, i64)) -> Cells
        ensures { result ≡ first ∷ second ∷ third ∷ [] }
    {
        Cells {
            first: Some(first),
            second: Some(second),
            third: Some(third),
            fourth: None,
        }
    }

    /// The same cells and one more, which is written last. Requires that there are at most three.
    #[tactic(auto, using(crate::proofs::RankLemmas::joining))]
    pub fn and(self, cell: usize, value: i64) -> Cells
        requires { length self ≤ 3 }
        ensures { result ≡ self ++ (cell, value) ∷ [] }
    {
        let last = Some((cell, value));
        let Some(one) = self.first else {
            return Cells::one(cell, value);
        };
        let Some(two) = self.second else {
            return Cells {
                first: Some(one),
                second: last,
                third: None,
                fourth: None,
            };
        };
        let Some(three) = self.third else {
            return Cells {
                first: Some(one),
                second: Some(two),
                third: last,
                fourth: None,
            };
        };
        Cells {
            first: Some(one),
            second: Some(two),
            third: Some(three),
            fourth: last,
        }
    }
}

/// What a cell held that was written, if one was. It takes 16 bytes. Contracts see an `Option`.
#[derive(Clone, Copy)]
pub struct OldCell {
    cell: u16,
    was: i64,
}

impl Model for OldCell {
    ghost use Rattle.std.specs.Prelude.{ℕ, ℤ, Option};
    ghost use Rattle.mpd_rank.specs.Entries.{old_cell, cell_of, was_of, IsOldCell, cell_back};

    ghost Value = { Option (ℕ × ℤ) };

    ghost view = { λ h. old_cell h.cell h.was };

    ghost invariant = { λ h. IsOldCell h.cell h.was };

    ghost inverse = { λ o. record { cell = cell_of o; was = was_of o } };

    ghost inverse_ok = { λ a h. (λ i. record { cell = (cell_back a.cell a.was h).0 i; was = (cell_back a.cell a.was h).1 i }) };
}

impl OldCell {
    /// No cell was written.
    pub(crate) fn none() -> OldCell
        ensures { result ≡ None }
    {
        OldCell {
            cell: NO_CELL,
            was: 0,
        }
    }

    /// A cell that was written, and what it held.
    pub(crate) fn of(cell: usize, was: i64) -> OldCell
        requires { cell < 65535 }
        ensures { result ≡ Some (cell, was) }
    {
        OldCell {
            cell: cell as u16,
            was,
        }
    }

    /// The cell and what it held.
    pub fn get(self) -> Option<(usize, i64)>
        ensures { result ≡ self }
    {
        if self.cell == NO_CELL {
            return None;
        }
        Some((self.cell as usize, self.was))
    }
}

/// What cells held that were written, the last first. It takes 40 bytes. Contracts see a list. There are four at most.
#[derive(Clone, Copy)]
pub struct OldCells {
    first: u16,
    second: u16,
    third: u16,
    fourth: u16,
    first_was: i64,
    second_was: i64,
    third_was: i64,
    fourth_was: i64,
}

impl Model for OldCells {
    ghost use Rattle.std.specs.Prelude.{ℕ, ℤ, List};
    ghost use Rattle.mpd_rank.specs.Views.{cells_code};
    ghost use Rattle.mpd_rank.specs.Entries.{old_cell, cell_of, was_of};
    ghost use Rattle.mpd_rank.specs.Packed.{all_listed, first_of, second_of, third_of, fourth_of, HoldsFour, four_back};

    ghost Value = { List (ℕ × ℤ) };

    ghost coded = { cells_code };

    ghost view = { λ c. all_listed (old_cell c.first c.first_was) (old_cell c.second c.second_was) (old_cell c.third c.third_was) (old_cell c.fourth c.fourth_was) };

    ghost invariant = { λ c. HoldsFour c.first c.second c.third c.fourth c.first_was c.second_was c.third_was c.fourth_was };

    ghost inverse = { λ l. record {
      first = cell_of (first_of l);
      second = cell_of (second_of l);
      third = cell_of (third_of l);
      fourth = cell_of (fourth_of l);
      first_was = was_of (first_of l);
      second_was = was_of (second_of l);
      third_was = was_of (third_of l);
      fourth_was = was_of (fourth_of l);
    } };

    ghost inverse_ok = { λ c h. four_back c h };
}

impl OldCells {
    /// No cell was written.
    pub(crate) fn none() -> OldCells
        ensures { result ≡ [] }
    {
        OldCells {
            first: NO_CELL,
            second: NO_CELL,
            third: NO_CELL,
            fourth: NO_CELL,
            first_was: 0,
            second_was: 0,
            third_was: 0,
            fourth_was: 0,
        }
    }

    /// The same with a cell that was written after the others, if there was one.
    #[tactic(auto, using(crate::proofs::RankLemmas::packing))]
    pub(crate) fn with(self, old: OldCell) -> OldCells
        requires { length self ≤ 3 }
        ensures value { result ≡ before old self }
        ensures few { length result ≤ length self + 1 }
    {
        if old.get().is_none() {
            return self;
        }
        OldCells {
            first: old.cell,
            second: self.first,
            third: self.second,
            fourth: self.third,
            first_was: old.was,
            second_was: self.first_was,
            third_was: self.second_was,
            fourth_was: self.third_was,
        }
    }

    /// The cells, each to be written with what it held.
    pub(crate) fn cells(self) -> Cells
        ensures { result ≡ self }
    {
        let first = OldCell {
            cell: self.first,
            was: self.first_was,
        };
        let second = OldCell {
            cell: self.second,
            was: self.second_was,
        };
        let third = OldCell {
            cell: self.third,
            was: self.third_was,
        };
        let fourth = OldCell {
            cell: self.fourth,
            was: self.fourth_was,
        };
        Cells {
            first: first.get(),
            second: second.get(),
            third: third.get(),
            fourth: fourth.get(),
        }
    }
}

/// What a handle held that was written, if one was. It takes eight bytes. Contracts see an `Option`.
#[derive(Clone, Copy)]
pub struct OldHandle {
    handle: u32,
    call: u32,
}

impl Model for OldHandle {
    ghost use Rattle.std.specs.Prelude.{◌≡◌, ℕ, Option};
    ghost use Rattle.mpd_rank.specs.Entries.{old_handle, handle_of, call_of, handle_back};

    ghost Value = { Option (ℕ × Option ℕ) };

    ghost view = { λ h. old_handle h.handle h.call };

    ghost invariant = { λ h. h.handle ≡ 4294967295 → h.call ≡ 4294967295 };

    ghost inverse = { λ o. record { handle = handle_of o; call = call_of o } };

    ghost inverse_ok = { λ a h. handle_back a h };
}

/// A number or none, in four bytes.
fn packed(number: Option<usize>) -> u32
    requires { IsSmall number }
    ensures { some_number result ≡ number }
{
    match number {
        None => NO_NUMBER,
        Some(number) => number as u32,
    }
}

/// What those four bytes tell.
fn unpacked(number: u32) -> Option<usize>
    ensures value { result ≡ some_number number }
    ensures small { IsSmall result }
{
    if number == NO_NUMBER {
        return None;
    }
    Some(number as usize)
}

impl OldHandle {
    /// No handle was written.
    pub(crate) fn none() -> OldHandle
        ensures { result ≡ None }
    {
        OldHandle {
            handle: NO_NUMBER,
            call: NO_NUMBER,
        }
    }

    /// A handle that was written, and what it held.
    pub(crate) fn of(handle: usize, call: Option<usize>) -> OldHandle
        requires handle { handle < 4294967295 }
        requires call { IsSmall call }
        ensures { result ≡ Some (handle, call) }
    {
        OldHandle {
            handle: handle as u32,
            call: packed(call),
        }
    }

    /// The handle and what it held.
    pub fn get(self) -> Option<(usize, Option<usize>)>
        ensures value { result ≡ self }
        ensures small { IfSome result (λ w. IsSmall w.1) }
    {
        if self.handle == NO_NUMBER {
            return None;
        }
        Some((self.handle as usize, unpacked(self.call)))
    }
}

/// What a wake overwrote.
#[derive(Clone, Copy)]
pub struct WakeRecord {
    /// What the cells held that were written, the last first.
    pub cells: OldCells,
    /// What the handle held that was cleared, if one was.
    pub handle: OldHandle,
}

const _: () = prove!(size_of::<WakeRecord>() == 48);

/// What takes back what a rank did: a local step, a wake, or that a release let it go on.
#[derive(Clone, Copy)]
pub enum RankRecord {
    Local(LocalRecord),
    Woke(WakeRecord),
    Released,
}

/// What a local step did beside moving its rank.
#[derive(Clone, Copy)]
pub enum LocalChange {
    Moved,
    /// The cell that was written, and what it held.
    Assigned { cell: u32, was: i64 },
    Printed,
    /// What the handle held that got the call's number, if one did.
    Issued { handle: OldHandle },
    Trapped,
}

/// Which kind of change a local step made.
#[derive(Clone, Copy)]
pub enum LocalKind {
    Moved,
    Assigned,
    Printed,
    Issued,
    Trapped,
}

/// What takes a local step back, in 24 bytes. Contracts see a `LocalDone`: where its rank stood, and what it did beside moving it.
///
/// It has its numbers side by side, and no enum that holds them: what is pushed on a trail is then stored field by field, and not
/// copied as a whole from where its parts were stored just before, for which a processor waits (docs/SPEED.md).
#[derive(Clone, Copy)]
pub struct LocalRecord {
    pub(crate) from: u32,
    pub(crate) kind: LocalKind,
    /// The cell that an assignment wrote, and what it held.
    pub(crate) cell_index: u16,
    pub(crate) was: i64,
    /// The handle that got the number of a call, and what it held.
    handle_index: u32,
    call_before: u32,
}

impl Model for LocalRecord {
    ghost use Rattle.mpd_rank.specs.Locals.{local_change, IsLocal, numbers_of, numbers_back};
    ghost use Rattle.mpd_rank.specs.Undone.{LocalDone, local_done_code};

    ghost Value = { LocalDone };

    ghost coded = { local_done_code };

    ghost view = { λ r. record { from = r.from; change = local_change r.kind r.cell_index r.handle_index r.call_before r.was } };

    ghost invariant = { λ r. IsLocal r.kind r.cell_index r.handle_index r.call_before r.was };

    ghost inverse = { λ r. numbers_of r };

    ghost inverse_ok = { λ a h. numbers_back a h };
}

const _: () = prove!(size_of::<LocalRecord>() == 24);

impl LocalRecord {
    /// Of a step that wrote no cell and issued no call.
    pub(crate) fn plain(from: u32, kind: LocalKind) -> LocalRecord
        requires { IsLocal kind 0 4294967295 4294967295 (pos 0) }
        ensures { result ≡ record { from = from; change = local_change kind 0 4294967295 4294967295 (pos 0) } }
    {
        LocalRecord {
            from,
            kind,
            cell_index: 0,
            was: 0,
            handle_index: NO_NUMBER,
            call_before: NO_NUMBER,
        }
    }

    /// Of an assignment, by the cell and what it held.
    pub(crate) fn assigned(from: u32, cell: usize, was: i64) -> LocalRecord
        requires { cell < 65536 }
        ensures { result ≡ record { from = from; change = LocalChange.Assigned cell was } }
    {
        LocalRecord {
            from,
            kind: LocalKind::Assigned,
            cell_index: cell as u16,
            was,
            handle_index: NO_NUMBER,
            call_before: NO_NUMBER,
        }
    }

    /// Of a call, by what the handle held that got its number, if one did.
    pub(crate) fn issued(from: u32, handle: OldHandle) -> LocalRecord
        ensures { result ≡ record { from = from; change = LocalChange.Issued handle } }
    {
        LocalRecord {
            from,
            kind: LocalKind::Issued,
            cell_index: 0,
            was: 0,
            handle_index: handle.handle,
            call_before: handle.call,
        }
    }

    /// The handle that got the number of a call, and what it held.
    pub(crate) fn old_handle(&self) -> OldHandle
        ensures { result ≡ issued_handle self.now.change }
    {
        OldHandle {
            handle: self.handle_index,
            call: self.call_before,
        }
    }

    /// The same, made anew field by field.
    #[inline(always)]
    pub fn anew(self) -> LocalRecord
        ensures { result ≡ self }
    {
        LocalRecord {
            from: self.from,
            kind: self.kind,
            cell_index: self.cell_index,
            was: self.was,
            handle_index: self.handle_index,
            call_before: self.call_before,
        }
    }

    /// What the step did beside moving its rank.
    #[inline(always)]
    pub fn change(&self) -> LocalChange
        ensures { result ≡ self.now.change }
    {
        match self.kind {
            LocalKind::Moved => LocalChange::Moved,
            LocalKind::Assigned => LocalChange::Assigned {
                cell: self.cell_index as u32,
                was: self.was,
            },
            LocalKind::Printed => LocalChange::Printed,
            LocalKind::Issued => LocalChange::Issued {
                handle: self.old_handle(),
            },
            LocalKind::Trapped => LocalChange::Trapped,
        }
    }
}
