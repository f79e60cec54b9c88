//! The worked rows, as lemmas by computing: `specs/` states what the definitions of `mpd_model` and `mpd_code` make of scripts, texts and worlds that were worked out by hand.
#![tactic(auto)]
