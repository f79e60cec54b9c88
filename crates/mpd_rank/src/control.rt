//! What a rank is at.

use mpd_model::Activity;

/// The node at which a rank goes on, and what it is doing.
#[derive(Clone, Copy)]
pub struct Control {
    pub node: u32,
    pub activity: Activity,
}
