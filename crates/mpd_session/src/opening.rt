//! What a shared session began with.

ghost use Rattle.mpd_model.specs.script.Program.{Program};
ghost use Rattle.mpd_model.specs.declared.call.Mode.{Mode};

use std::marker::Brand;
use std::sync::ledger::Ledger;

/// What a session began with, beside the ledger of its calls. Whoever opens one picks it (`Brand`).
pub trait Opening: Ledger {
    /// The script.
    ghost program: { Program };

    /// How its standard sends behave.
    ghost mode: { Mode };
}

impl Opening for Brand {
    ghost use Rattle.std.specs.Prelude.{[]};
    ghost use Rattle.mpd_model.specs.declared.call.Mode.TheVariants.{Rendezvous};

    ghost program = { record { version = 1; ranks = 1; decls = []; body = []; lines = [] } };

    ghost mode = { Rendezvous };
}
