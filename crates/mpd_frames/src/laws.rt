//! Laws of frames.
ghost use Rattle.std.specs.Prelude.{◌≡◌, ◌≤◌, ◌++◌, ◌∷◌, [], ℕ, List, length};
ghost use Rattle.mpd_frames.specs.Frame.{frame_text};
ghost use Rattle.mpd_frames.specs.Frames.{Frames, IsStopped};

use crate::limits::BODY_MAX;

/// A law: a frame that is written is read again as its body, whatever follows.
pub fn frames_are_read_again()
    ensures { (body : List ℕ) (rest : List ℕ) → length body ≤ BODY_MAX → Frames (frame_text body ++ rest) (body ∷ []) rest }
{}

/// A law: wherever an input is cut, the frames of its first part, and those of what is left of that with the second, are its frames.
pub fn frames_are_the_same_in_all_pieces()
    ensures { (one : List ℕ) (two : List ℕ) (first : List (List ℕ)) (second : List (List ℕ)) (between : List ℕ) (rest : List ℕ)
        → Frames one first between → Frames (between ++ two) second rest → Frames (one ++ two) (first ++ second) rest }
{}

/// A law: an input can be read in one way only, up to what is less than a frame, or no frame.
pub fn frames_can_be_read_in_one_way()
    ensures { (input : List ℕ) (bodies : List (List ℕ)) (others : List (List ℕ)) (rest : List ℕ) (left : List ℕ)
        → Frames input bodies rest → IsStopped rest → Frames input others left → IsStopped left → (bodies ≡ others) × (rest ≡ left) }
{}
