//! Laws of what is told.
ghost use Rattle.std.specs.Prelude.{◌≡◌, ℕ, List, Some, codes};
ghost use Rattle.serde_json.specs.Data.{Data, string};
ghost use Rattle.serde_json.specs.Find.{get};
ghost use Rattle.mpd_dap.specs.Bodies.{natural};
ghost use Rattle.mpd_dap.specs.Told.{response_data};

/// A law: a response has the number and the command of its message.
#[tactic(auto, unfolding(crate::specs::Told::response_data))]
pub fn a_response_has_its_request()
    ensures number { (seq : ℕ) (request : ℕ) (command : List ℕ) (body : Data) → get (codes "request_seq") (response_data seq request command body) ≡ Some (natural request) }
    ensures command { (seq : ℕ) (request : ℕ) (command : List ℕ) (body : Data) → get (codes "command") (response_data seq request command body) ≡ Some (string command) }
{}
