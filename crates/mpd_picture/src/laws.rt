//! What a drawing shows of a run.

ghost use Rattle.mpd_picture.specs.PictureLaws.{ArrowsArePairs, CallsAreDrawnOnce, LanesGoDown, MessagesGoDown};

/// A law: the arrows of a drawing are exactly the pairs of the state where its run leads, and the
/// bars its releases, in order.
pub fn arrows_are_pairs()
    ensures { ArrowsArePairs }
{}

/// A law: the calls of a drawing are exactly those of the state where its run leads, each once; of
/// each rank in the order in which they were issued.
pub fn calls_are_drawn_once()
    ensures { CallsAreDrawnOnce }
{}

/// A law: in each lane what takes a row stands below all that took one before it.
pub fn lanes_go_down()
    ensures { LanesGoDown }
{}

/// A law: a match stands below its send.
pub fn messages_go_down()
    ensures { MessagesGoDown }
{}
