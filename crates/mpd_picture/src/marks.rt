//! The rows of a drawing, by logical time (docs/PICTURES.md, "Rows").

ghost use Rattle.std.specs.Prelude.{◌≡◌, ◌++◌, ◌∷◌, List, [], if◌then◌else◌, max, IfOk, OnOk};
ghost use Rattle.mpd_picture.specs.declared.glyph.Mark.{Mark};
ghost use Rattle.mpd_picture.specs.MarkTable as table;
ghost use Rattle.mpd_picture.specs.Marks as spec;

use crate::glyph::{Event, Glyph, Mark};
use mpd_model::CallId;
use std::alloc::{AllocError, Global};
use std::collections::HashMap;
use std::marker::Model;

/// Whether what a step shows takes a row.
pub(crate) fn is_row(event: Event) -> bool
    ensures { result ≡ spec.is_row event }
{
    match event {
        Event::WentOn(_) => false,
        Event::Issued(_) | Event::Paired(_, _) | Event::Released | Event::Noted(_) => true,
    }
}

/// The row below one.
fn under(row: usize) -> usize
    ensures { result ≡ spec.under row }
{
    row.min(1_000_000) + 1
}

/// The row below a mark.
fn below(mark: Mark) -> usize
    ensures { result ≡ spec.below mark }
{
    under(mark.row)
}

/// The row below a mark that takes one, else 0.
fn below_row(mark: Mark) -> usize
    ensures { result ≡ (if spec.is_row mark.event then spec.below mark else 0) }
{
    if is_row(mark.event) { below(mark) } else { 0 }
}

/// The larger of two numbers.
fn larger(first: usize, second: usize) -> usize
    ensures { result ≡ max first second }
{
    first.max(second)
}

/// What the marks so far leave to the next ones: so none is looked for among them.
#[derive(Drop)]
struct Rows {
    /// The row in which each call is issued, by its rank and its number there.
    issued: HashMap<(usize, usize), usize>,
    /// The first row below the marks of a rank, but for the releases.
    nexts: HashMap<usize, usize>,
    /// The last row in which a send of a rank is matched.
    sents: HashMap<usize, usize>,
    /// The first row below the releases.
    released: usize,
    /// The first row below all marks.
    all: usize,
}

/// What stands at a rank, else 0.
fn row_at(rows: &HashMap<usize, usize>, rank: usize) -> usize
    ensures { result ≡ table.row_at rows.now.entries rank }
{
    match rows.get(&rank) {
        Some(row) => *row,
        None => 0,
    }
}

/// Raises what stands at a rank to a row, if it is less. `Err` means that memory was refused.
fn raise(rows: &mut HashMap<usize, usize>, rank: usize, row: usize) -> Result<(), AllocError>
    ensures { OnOk result (table.Raised rows.old.entries rank row rows.new.entries) }
{
    let higher = larger(row_at(rows, rank), row);
    match rows.insert(rank, higher) {
        Ok(_old) => Ok(()),
        Err(refused) => {
            drop(refused);
            Err(AllocError)
        }
    }
}

/// The row in which a call is issued, if it is.
fn issued_at(issued: &HashMap<(usize, usize), usize>, call: CallId) -> Option<usize>
    ensures { result ≡ table.issued_at issued.now.entries call }
{
    issued.get(&(call.rank, call.index)).copied()
}

/// Puts the row in which a call is issued there, if it has none. `Err` means that memory was
/// refused.
fn put_issued(
    issued: &mut HashMap<(usize, usize), usize>,
    call: CallId,
    row: usize,
) -> Result<(), AllocError>
    ensures { OnOk result (table.Issues issued.old.entries call row issued.new.entries) }
{
    if issued_at(issued, call).is_some() {
        return Ok(());
    }
    match issued.insert((call.rank, call.index), row) {
        Ok(_old) => Ok(()),
        Err(refused) => {
            drop(refused);
            Err(AllocError)
        }
    }
}

impl Rows {
    /// Those of no mark.
    fn new(alloc: Global) -> Rows
        ensures { table.IsTable result [] }
    {
        Rows {
            issued: HashMap::new(alloc),
            nexts: HashMap::new(alloc),
            sents: HashMap::new(alloc),
            released: 0,
            all: 0,
        }
    }

    /// The row in which a call is issued, 0 if it isn't.
    fn row_of(&self, call: CallId) -> usize
        ensures { (marks : List Mark) → table.IsTable self.now marks → result ≡ spec.row_of marks call }
    {
        match issued_at(&self.issued, call) {
            Some(row) => row,
            None => 0,
        }
    }

    /// The first row below the marks of a rank.
    fn next_row(&self, rank: usize) -> usize
        ensures { (marks : List Mark) → table.IsTable self.now marks → result ≡ spec.next_row marks rank }
    {
        larger(row_at(&self.nexts, rank), self.released)
    }

    /// The last row in which a send of a rank is matched.
    fn sent_row(&self, rank: usize) -> usize
        ensures { (marks : List Mark) → table.IsTable self.now marks → result ≡ spec.sent_row marks rank }
    {
        row_at(&self.sents, rank)
    }

    /// The row of what a step shows, after these marks.
    fn event_row(&self, event: Event) -> usize
        ensures { (marks : List Mark) → table.IsTable self.now marks → result ≡ spec.event_row marks event }
    {
        match event {
            Event::Issued(call) => self.next_row(call.rank),
            Event::Paired(send, receive) => {
                larger(under(self.row_of(send)), self.next_row(receive.rank))
            }
            Event::WentOn(call) => larger(
                self.next_row(call.rank).saturating_sub(1),
                self.sent_row(call.rank),
            ),
            Event::Released => self.all,
            Event::Noted(note) => self.next_row(note.rank),
        }
    }

    /// Takes a mark more. `Err` means that memory was refused; then nothing is said of them.
    fn add(&mut self, mark: Mark) -> Result<(), AllocError>
        ensures { OnOk result (table.IsAdvanced self.old self.new mark) }
    {
        self.all = larger(self.all, below_row(mark));
        match mark.event {
            Event::Issued(call) => {
                put_issued(&mut self.issued, call, mark.row)?;
                raise(&mut self.nexts, call.rank, below(mark))
            }
            Event::Paired(send, receive) => {
                raise(&mut self.sents, send.rank, mark.row)?;
                raise(&mut self.nexts, receive.rank, below(mark))
            }
            Event::WentOn(call) => raise(&mut self.nexts, call.rank, below(mark)),
            Event::Released => {
                self.released = larger(self.released, below(mark));
                Ok(())
            }
            Event::Noted(note) => raise(&mut self.nexts, note.rank, below(mark)),
        }
    }
}

/// The marks of what the steps of a run show.
#[derive(Drop)]
pub(crate) struct Marks {
    list: Vec<Mark>,
    rows: Rows,
}

impl Model for Marks {
    ghost use Rattle.std.specs.Prelude.{List};
    ghost use Rattle.mpd_picture.specs.declared.glyph.Mark.{Mark};
    ghost use Rattle.mpd_picture.specs.MarkTable.{IsTable};

    ghost Value = { List Mark };

    ghost view = { λ m. m.list.items };

    ghost invariant = { λ m. IsTable m.rows m.list.items };
}

impl Marks {
    /// They, in their order.
    pub(crate) fn items(&self) -> &[Mark]
        ensures { result.now ≡ self.now }
    {
        &self.list
    }

    /// The row in which a call is issued, 0 if it isn't.
    pub(crate) fn row_of(&self, call: CallId) -> usize
        ensures { result ≡ spec.row_of self.now call }
    {
        self.rows.row_of(call)
    }

    /// The first row below all.
    pub(crate) fn rows(&self) -> usize
        ensures { result ≡ spec.rows_of self.now }
    {
        self.rows.all
    }
}

/// Adds the mark of what a step shows. `Err` means that memory was refused.
fn add_mark(marks: &mut Vec<Mark>, rows: &mut Rows, glyph: Glyph) -> Result<(), AllocError>
    requires { table.IsTable rows.old marks.old.items }
    ensures marks { OnOk result (marks.new.items ≡ marks.old.items ++ spec.mark_after marks.old.items glyph ∷ []) }
    ensures rows { OnOk result (table.IsTable rows.new marks.new.items) }
{
    let event = glyph.event;
    let row = rows.event_row(event);
    let place = glyph.row;
    let mark = Mark { row, place, event };
    rows.add(mark)?;
    marks.push(mark)?;
    Ok(())
}

/// The marks of what the steps of a run show. `Err` means that memory was refused.
pub(crate) fn marks_of(alloc: Global, glyphs: &[Glyph]) -> Result<Marks, AllocError>
    ensures { IfOk result (λ marks. marks ≡ spec.marks_of glyphs.now) }
{
    let mut list = Vec::new(alloc);
    let mut rows = Rows::new(alloc);
    for glyph in glyphs {
        add_mark(&mut list, &mut rows, *glyph)?;
    }
    Ok(Marks { list, rows })
}
