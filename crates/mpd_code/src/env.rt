//! What statements are evaluated in.

use std::marker::Model;

/// The variables of a rank, the call that each of its handles has, its number, and how many ranks there are. Contracts see it as
/// an `Env` of the definitions.
#[derive(Drop)]
pub struct Env<'v> {
    pub vars: &'v [i64],
    pub handles: &'v [Option<usize>],
    pub rank: u32,
    pub size: u32,
}

impl<'v> Model for Env<'v> {
    ghost use Rattle.mpd_model.specs.script.Term.{Env};
    ghost use Rattle.mpd_code.specs.Views.{env_code};

    ghost Value = { Env };

    ghost coded = { env_code };

    ghost view = { λ e. record { vars = e.vars.now; handles = e.handles.now; rank = e.rank; size = e.size } };
}
