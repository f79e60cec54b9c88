//! The shapes of a picture, by ranks and rows (docs/PICTURES.md, "Shapes").

use crate::ends::Finish;
use crate::glyph::Note;
use mpd_model::CallId;
use mpd_names::PlacedCall;

/// A shape. Ranks are lanes from left to right, and rows count from 0 downwards.
#[derive(Clone, Copy)]
pub enum Shape {
    /// The lane of a rank, down to a row.
    Lane {
        rank: usize,
        row: usize,
    },
    /// A rank waits in a call, from one row to another.
    Waiting {
        rank: usize,
        from: usize,
        to: usize,
    },
    /// A receive is posted, from one row to another.
    Posted {
        call: CallId,
        from: usize,
        to: usize,
    },
    /// A call at the row in which it is issued, and whether it stays free; what is told of it has a
    /// place in the list, as of an arrow and a bar.
    Call {
        call: PlacedCall,
        row: usize,
        place: usize,
        is_free: bool,
    },
    /// A send or a receive that stays free, at that row.
    Stub {
        call: PlacedCall,
        row: usize,
    },
    /// A message, from the row of its send to that in which it is matched with the receive.
    Arrow {
        send: PlacedCall,
        from: usize,
        receive: CallId,
        to: usize,
        place: usize,
    },
    /// All ranks leave their barriers.
    Bar {
        row: usize,
        place: usize,
    },
    /// What a rank printed, or by what it was trapped, at that row.
    Note {
        note: Note,
        row: usize,
        place: usize,
    },
    /// A candidate of the choice at the end, from the row of its send to that of its receive;
    /// candidates are counted from 1.
    Candidate {
        send: PlacedCall,
        from: usize,
        receive: CallId,
        to: usize,
        number: usize,
    },
    /// A request that a waitany can go on by at the end, from its row to that of the waitany;
    /// counted with the candidates.
    Request {
        call: PlacedCall,
        from: usize,
        to: usize,
        number: usize,
    },
    /// How a rank is at the end.
    End {
        rank: usize,
        row: usize,
        finish: Finish,
    },
}
