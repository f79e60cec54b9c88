//! How many rows and columns the parts of a screen have.

ghost use Rattle.std.specs.Prelude.{◌≡◌, ◌+◌, ◌≤◌};
ghost use Rattle.mpd_view.specs.Layout as spec;

/// What stands between the panes.
pub(crate) const BETWEEN: &[u8] = b" | ";

/// How many columns the left pane has, of so many.
pub(crate) fn left_columns(columns: usize) -> usize {
    (columns / 2).saturating_sub(1)
}

/// How many columns the right pane has, of so many.
pub(crate) fn right_columns(columns: usize) -> usize {
    columns
        .saturating_sub(left_columns(columns))
        .saturating_sub(BETWEEN.len())
}

/// How many rows the panes have, of so many, with so many ranks.
pub(crate) fn pane_rows(rows: usize, ranks: usize) -> usize
    ensures { result ≡ spec.pane_rows rows ranks }
{
    let half = rows.saturating_sub(2) / 2;
    rows.saturating_sub(6).min(ranks.max(half))
}

/// How many lines stand above the panes, of a script of so many, about a line, in so many rows.
pub(crate) fn above(count: usize, at: usize, rows: usize) -> usize
    ensures value { result ≡ spec.above count at rows }
    ensures fits { result + rows ≤ 18446744073709551615 }
{
    let middle = at.saturating_sub(1).saturating_sub(rows / 2);
    middle.min(count.saturating_sub(rows))
}
