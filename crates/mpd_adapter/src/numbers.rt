//! The numbers by which an editor names ranks and what they hold (docs/ADAPTER.md, "Numbers").

ghost use Rattle.std.specs.Prelude.{◌≡◌, ◌<◌, IfSome};
ghost use Rattle.mpd_adapter.specs.Numbers as spec;

/// What a rank holds, as an editor shows it.
#[derive(Clone, Copy)]
pub enum Scope {
    /// The cells of its variables.
    Variables,
    /// Its handles.
    Requests,
    /// Its calls.
    Calls,
    /// What it has printed.
    Printed,
}

/// The scope of a rank.
#[derive(Clone, Copy)]
pub struct Shelf {
    /// The rank, from 0.
    pub rank: usize,
    /// Which of its scopes.
    pub scope: Scope,
}

/// The rank, from 0, of a thread or a frame; `None` if there is no such rank.
pub fn rank_of_thread(thread: usize, ranks: usize) -> Option<usize>
    ensures rank { result ≡ spec.rank_of_thread thread ranks }
    ensures there { IfSome result (λ rank. rank < ranks) }
{
    if thread == 0 || thread > ranks {
        return None;
    }
    Some(thread - 1)
}

/// The scope of this number, from 0.
fn scope_at(number: usize) -> Scope
    ensures { result ≡ spec.scope_at number }
{
    match number {
        0 => Scope::Variables,
        1 => Scope::Requests,
        2 => Scope::Calls,
        _ => Scope::Printed,
    }
}

/// The scope of a reference; `None` if there is none.
pub fn shelf_of(reference: usize, ranks: usize) -> Option<Shelf>
    ensures shelf { result ≡ spec.shelf_of reference ranks }
    ensures there { IfSome result (λ shelf. shelf.rank < ranks) }
{
    if reference == 0 {
        return None;
    }
    let rank = (reference - 1) / 4;
    if rank >= ranks {
        return None;
    }
    Some(Shelf {
        rank,
        scope: scope_at((reference - 1) % 4),
    })
}

/// One more, as far as there is a number for it: so many frames as have no number are never written.
pub(crate) fn one_more(number: u64) -> u64
    ensures { result ≡ spec.one_more number }
{
    if number == u64::MAX {
        return number;
    }
    number + 1
}

/// A number counted from 1, in place of 0; as far as there is a number for it.
pub(crate) fn from_one(number: usize) -> usize
    ensures { result ≡ spec.one_more number }
{
    if number == usize::MAX {
        return number;
    }
    number + 1
}

/// The thread, which is also the frame, of a rank, from 0; as far as there is a number for it, and no script has so many ranks.
pub fn thread_of(rank: usize) -> usize
    ensures { result ≡ spec.one_more rank }
{
    from_one(rank)
}
