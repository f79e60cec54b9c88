//! Where ranks and rows stand in a drawing, in pixels.

ghost use Rattle.std.specs.Prelude.{◌≤◌};

/// The lane of a rank.
pub(crate) fn lane_x(rank: usize) -> usize
    ensures small { result ≤ 2700 }
    ensures large { 132 ≤ result }
{
    132 + 160 * rank.min(16)
}

/// The middle of a row.
pub(crate) fn row_y(row: usize) -> usize
    ensures small { result ≤ 40000000 }
    ensures large { 80 ≤ result }
{
    80 + 36 * row.min(1_000_000)
}

/// Where the texts of rows begin, beside the lanes of so many ranks and the legend.
pub(crate) fn column_x(ranks: usize) -> usize
    ensures { result ≤ 2700 }
{
    lane_x(ranks).max(620)
}

/// How much lower a drawing of so many ranks ends than one of a few.
pub(crate) fn tracks_height(ranks: usize) -> usize
    ensures { result ≤ 80 }
{
    8 * ranks.min(16).saturating_sub(6)
}

/// Where the text of a place in the list of what is told stands.
pub(crate) fn told_y(place: usize) -> usize
    ensures { result ≤ 40000000 }
{
    52 + 16 * place.min(1_000_000)
}
