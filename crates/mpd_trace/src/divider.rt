//! Divides an input into a script and what stands after the line `---`.
ghost use Rattle.std.specs.Prelude.{◌≡◌, ◌+◌, ◌<◌, ◌≤◌, [], ◌∷◌, ◌++◌, true, false, length, IfOk};
ghost use Rattle.mpd_model.specs.texts.Lines.{same_bytes, is_divider};
ghost use Rattle.mpd_trace.specs.Divided.{may_divide, ends_script, splits, begun, added, IsHeld, PieceBrings, ByteBrings, Measures};

use mpd_lines::push_all;
use mpd_model::{SCRIPT_MAX, without_return};
use std::alloc::{AllocError, Global};
use std::marker::Model;

// bytes of a line that may be the one that divides, and of the one byte more that shows that it isn't
const LINE_ROOM: usize = 8;

/// What a piece of the input has brought.
#[derive(Clone, Copy)]
pub enum Division {
    /// The line that divides may still come.
    Open,
    /// It has come, and ends with this many bytes of the piece.
    Here(usize),
    /// More bytes stand before it than a script may have.
    TooLong,
}

/// What a byte of the input has brought.
#[derive(Clone, Copy)]
enum Taken {
    Open,
    Here,
    TooLong,
}

/// The bytes of a script, as they come.
#[derive(Drop)]
pub struct Divider {
    // what is known to stand before the line that divides
    script: Vec<u8>,
    // the beginning of a line that may still be that one, at most `---` and a carriage return
    line: Vec<u8>,
    // another line has begun in `script`
    is_settled: bool,
}

impl Model for Divider {
    ghost use Rattle.std.specs.Prelude.{◌≡◌, ◌≤◌, [], true, vec_capacity};
    ghost use Rattle.mpd_trace.specs.Divided.{Begun, may_divide};

    ghost Value = { Begun };

    ghost view = { λ d. record { known = d.script.items; line = d.line.items; settled = d.is_settled } };

    ghost invariant = { λ d. (may_divide d.line.items ≡ true) × (d.is_settled ≡ true → d.line.items ≡ []) × (65544 ≤ vec_capacity d.script) × (8 ≤ vec_capacity d.line) };
}

/// The line is three hyphens.
#[tactic(auto, using(crate::proofs::ByteLaws::same_pointwise))]
fn is_hyphens(line: &[u8]) -> bool
    ensures { result ≡ same_bytes line.now (45 ∷ 45 ∷ 45 ∷ []) }
{
    line == b"---".as_slice()
}

/// The line is the one that divides, where a line feed ends it here.
fn divides(line: &[u8]) -> bool
    ensures { result ≡ is_divider (line.now ++ 10 ∷ []) }
{
    is_hyphens(without_return(line))
}

/// The line may still be the one that divides.
#[tactic(auto, using(crate::proofs::ByteLaws::prefix_pointwise))]
fn may_still_divide(line: &[u8]) -> bool
    ensures { result ≡ may_divide line.now }
{
    b"---\r".as_slice().starts_with(line)
}

impl Divider {
    /// No byte yet. What it may have to hold is kept at once: an `Err` is want of memory.
    pub fn new(alloc: Global) -> Result<Divider, AllocError>
        ensures { IfOk result (λ d. d ≡ begun [] [] false) }
    {
        Ok(Divider {
            script: Vec::with_capacity(alloc, SCRIPT_MAX + LINE_ROOM)?,
            line: Vec::with_capacity(alloc, LINE_ROOM)?,
            is_settled: false,
        })
    }

    /// Takes the next piece of the input, up to the line that divides or to the byte that makes the script too long.
    pub fn feed(&mut self, piece: &[u8]) -> Division
        requires { length self.old.known ≤ SCRIPT_MAX }
        ensures brings { PieceBrings self.old piece.now result self.new }
        ensures held { IsHeld self.new }
    {
        let _ = &self.line;
        for (index, byte) in piece.iter().enumerate() {
            match self.take(*byte) {
                Taken::Open => {}
                Taken::Here => return Division::Here(index + 1),
                Taken::TooLong => return Division::TooLong,
            }
        }
        Division::Open
    }

    /// The script, where the input ends here.
    #[tactic(auto, using(crate::proofs::DividedLaws::dividing, crate::proofs::DividedLaws::shortness))]
    pub fn finish(self) -> Vec<u8>
        requires { length self.known ≤ SCRIPT_MAX }
        ensures { splits self [] ≡ (result.items, []) }
    {
        if is_hyphens(&self.line) {
            return self.script;
        }
        let mut script = self.script;
        push_all(&mut script, &self.line);
        script
    }

    /// The bytes that are known to stand before the line that divides.
    pub fn into_script(self) -> Vec<u8>
        ensures { result.items ≡ self.known }
    {
        let Divider { script, .. } = self;
        script
    }

    // one byte more
    #[tactic(auto, using(crate::proofs::DividedLaws::dividing))]
    fn take(&mut self, byte: u8) -> Taken
        requires { length self.old.known ≤ SCRIPT_MAX }
        ensures brings { ByteBrings self.old byte result self.new }
        ensures held { IsHeld self.new }
    {
        let _ = &self.line;
        if byte != b'\n' {
            self.add(byte);
            return self.measured();
        }
        if self.ends_script() {
            return Taken::Here;
        }
        self.end_line();
        self.measured()
    }

    // a line feed here ends the line that divides
    fn ends_script(&self) -> bool
        ensures { result ≡ ends_script self.now }
    {
        if self.is_settled {
            return false;
        }
        divides(&self.line)
    }

    // a line feed, which ends another line
    #[tactic(auto, using(crate::proofs::DividedLaws::shortness))]
    fn end_line(&mut self)
        requires { length self.old.known ≤ SCRIPT_MAX }
        ensures line { self.new ≡ begun (self.old.known ++ self.old.line ++ 10 ∷ []) [] false }
        ensures held { IsHeld self.new }
    {
        push_all(&mut self.script, &self.line);
        self.script.push_reserved(b'\n');
        self.line.clear();
        self.is_settled = false;
    }

    // one byte more of the line
    #[tactic(auto, using(crate::proofs::DividedLaws::shortness))]
    fn add(&mut self, byte: u8)
        requires { length self.old.known ≤ SCRIPT_MAX }
        ensures byte { self.new ≡ added self.old byte }
        ensures held { IsHeld self.new }
    {
        if self.is_settled {
            self.script.push_reserved(byte);
            return;
        }
        self.line.push_reserved(byte);
        if may_still_divide(&self.line) {
            return;
        }
        push_all(&mut self.script, &self.line);
        self.line.clear();
        self.is_settled = true;
    }

    // whether what is known is a script that is too long
    fn measured(&self) -> Taken
        ensures { Measures (length self.now.known) result }
    {
        if self.script.len() > SCRIPT_MAX {
            return Taken::TooLong;
        }
        Taken::Open
    }
}
