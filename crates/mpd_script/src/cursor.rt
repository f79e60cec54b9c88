//! A cursor over the tokens of a text, which cuts each as it is reached.

ghost use Rattle.std.specs.Prelude.{◌≡◌, ◌≢◌, ◌+◌, ◌<◌, ◌≤◌, ◌^◌, ◌∷◌, ◌++◌, IfSome, IsAscii, None, Ok, OnErr, OnOk, [], length, vec_capacity, vec_len};
ghost use Rattle.mpd_model.specs.declared.limits.TheConstants.{CELLS_MAX, HANDLES_MAX, STATEMENTS_MAX};
ghost use Rattle.mpd_model.specs.declared.read_fault.FaultCode.TheVariants.{Memory};
ghost use Rattle.mpd_model.specs.script.Declaration.{handle_cells, handles_in, variable_cells, variables_in};
ghost use Rattle.mpd_model.specs.grammar.Faults.{fault};
ghost use Rattle.mpd_model.specs.grammar.Grammar.{written_in};
ghost use Rattle.mpd_model.specs.grammar.Input as spec;
ghost use Rattle.mpd_model.specs.grammar.Input.{Reads, first_line};
ghost use Rattle.mpd_script.specs.Cursor.{DeclaredBy, IsPutNew, first};

use crate::lex;
use mpd_model::{
    CELLS_MAX, Decl, DeclKind, FaultCode, HANDLES_MAX, NESTING_MAX, ReadFault, STATEMENTS_MAX,
    Slot, Symbol, Token,
};
use std::alloc::{AllocError, Global};
use std::collections::BTreeMap;
use std::marker::Model;
use std::str;

/// A place in a text, which contracts see as an `Input`: the tokens from there on, and what was read before.
#[derive(Drop)]
pub struct Tokens<'a> {
    /// The text from the next token on, and its place.
    ahead: &'a [u8],
    place: usize,
    /// The line of that place.
    line: usize,
    /// That token, and its length.
    token: Token,
    len: usize,
    /// The version that the text is in: 1, until it says so.
    version: usize,
    decls: Vec<Decl>,
    /// What the name of each stands for.
    slots: BTreeMap<&'a [u8], Slot>,
    /// How many cells of each kind these have.
    variables: usize,
    handles: usize,
    /// The line of each statement so far.
    lines: Vec<usize>,
    /// How many brackets and operators the expression may still have.
    budget: usize,
}

impl<'a> Model for Tokens<'a> {
    ghost use Rattle.mpd_model.specs.grammar.Input.{Input, input_code};

    ghost Value = { Input };

    ghost coded = { input_code };

    ghost use Rattle.mpd_script.specs.Cursor.{input_of, IsReady};

    ghost view = { input_of };

    ghost invariant = { IsReady };
}

/// The token at the front of the text, or the end.
fn first(ahead: &[u8]) -> (Token, usize)
    ensures value { result ≡ first ahead.now }
    ensures within { result.1 ≤ length ahead.now }
    ensures moves { 0 < length ahead.now → 0 < result.1 }
{
    if ahead.is_empty() {
        (Token::End, 0)
    } else {
        lex::front(ahead)
    }
}

#[tactic(auto, unfolding(mpd_model::specs::grammar::Input::refusal, mpd_model::specs::grammar::Input::sees, mpd_model::specs::grammar::Input::after, mpd_model::specs::grammar::Input::expect, mpd_model::specs::grammar::Input::spend, mpd_model::specs::grammar::Input::count, mpd_model::specs::grammar::Input::seek))]
impl<'a> Tokens<'a> {
    /// The first token of a text.
    #[tactic(auto, using(crate::proofs::Slots::none_found))]
    pub(crate) fn new(alloc: Global, text: &'a [u8]) -> Tokens<'a>
        requires small { length text.now < 2 ^ 32 }
        requires ascii { IsAscii text.now }
        ensures { result ≡ spec.start_of text.now }
    {
        let (place, fed) = lex::blank_len(text);
        let (_, ahead) = text.split_at(place);
        let (token, len) = first(ahead);
        Tokens {
            ahead,
            place,
            line: 1 + fed,
            token,
            len,
            version: 1,
            decls: Vec::new(alloc),
            slots: BTreeMap::new(alloc),
            variables: 0,
            handles: 0,
            lines: Vec::new(alloc),
            budget: 0,
        }
    }

    pub(crate) fn peek(&self) -> Token
        ensures { result ≡ spec.token self.now }
    {
        self.token
    }

    /// The bytes of the next token.
    pub(crate) fn spelling(&self) -> &'a [u8]
        ensures value { result.now ≡ spec.spelling self.now }
        ensures ascii { IsAscii result.now }
    {
        let (bytes, _) = self.ahead.split_at(self.len);
        bytes
    }

    pub(crate) fn place(&self) -> usize
        ensures { result ≡ spec.place self.now }
    {
        self.place
    }

    pub(crate) fn advance(&mut self)
        ensures value { self.new ≡ spec.advanced self.old }
        ensures decls { self.new.decls ≡ self.old.decls }
    {
        let (_, after) = self.ahead.split_at(self.len);
        let (gap, fed) = lex::blank_len(after);
        let (_, ahead) = after.split_at(gap);
        let (token, len) = first(ahead);
        self.place += self.len + gap;
        self.line += fed;
        self.ahead = ahead;
        self.token = token;
        self.len = len;
    }

    /// More than the tokens that are left.
    pub(crate) fn turns(&self) -> usize
        ensures enough { length self.now.tokens < result }
        ensures small { result ≤ 2 ^ 32 }
    {
        self.ahead.len() + 1
    }

    /// The grammar doesn't allow the next token.
    pub(crate) fn refuse(&self) -> ReadFault
        ensures value { result ≡ spec.refusal self.now }
        ensures no_memory { result.code ≢ Memory }
    {
        self.fail(match self.peek() {
            Token::Bad => FaultCode::BadToken,
            _ => FaultCode::Expected,
        })
    }

    /// A fault at the next token.
    pub(crate) fn fail(&self, code: FaultCode) -> ReadFault
        ensures { result ≡ fault code (spec.place self.now) }
    {
        ReadFault {
            code,
            place: self.place(),
        }
    }

    pub(crate) fn sees(&self, symbol: Symbol) -> bool
        ensures { result ≡ spec.sees symbol self.now }
    {
        is_symbol(symbol, self.peek())
    }

    /// Takes the symbol, if it comes next.
    pub(crate) fn eat(&mut self, symbol: Symbol) -> bool
        ensures found { result ≡ spec.sees symbol self.old }
        ensures after { self.new ≡ spec.after symbol self.old }
        ensures decls { self.new.decls ≡ self.old.decls }
    {
        let found = self.sees(symbol);
        if found {
            self.advance();
        }
        found
    }

    pub(crate) fn expect(&mut self, symbol: Symbol) -> Result<(), ReadFault>
        ensures { Reads (spec.expect symbol self.old) result self.new }
    {
        if self.sees(symbol) {
            self.advance();
            Ok(())
        } else {
            Err(self.refuse())
        }
    }

    /// The version that the text is in: 1, until it says so.
    pub(crate) fn version(&self) -> usize
        ensures { result ≡ self.now.version }
    {
        self.version
    }

    /// What follows is in this version.
    pub(crate) fn set_version(&mut self, version: usize)
        ensures { written_in version self.old ≡ Ok (tt, self.new) }
    {
        self.version = version;
    }

    /// Begins an expression that stands in no other.
    pub(crate) fn begin(&mut self)
        ensures { spec.begin self.old ≡ Ok (tt, self.new) }
    {
        self.budget = NESTING_MAX;
    }

    pub(crate) fn budget(&self) -> usize
        ensures value { result ≡ self.now.budget }
        ensures small { result ≤ spec.max_budget }
    {
        self.budget
    }

    /// Takes a bracket or an operator.
    #[tactic(auto, unfolding(mpd_model::specs::grammar::Input::spend, mpd_model::specs::grammar::Input::advanced))]
    pub(crate) fn spend(&mut self) -> Result<(), ReadFault>
        ensures { Reads (spec.spend self.old) result self.new }
    {
        if self.budget == 0 {
            return Err(self.fail(FaultCode::TooDeep));
        }
        let left = self.budget - 1;
        self.advance();
        self.budget = left;
        Ok(())
    }

    /// The line of the next token, 0 where there is none.
    fn line(&self) -> usize
        ensures { result ≡ first_line self.now.tokens }
    {
        if self.ahead.is_empty() { 0 } else { self.line }
    }

    /// A statement begins at the next token.
    pub(crate) fn count(&mut self) -> Result<(), ReadFault>
        ensures { Reads (spec.count self.old) result self.new }
    {
        if self.lines.len() < STATEMENTS_MAX {
            let line = self.line();
            self.lines.push(line)?;
            Ok(())
        } else {
            Err(self.fail(FaultCode::TooMany))
        }
    }

    /// What a name stands for, if it is declared.
    fn find(&self, name: &[u8]) -> Option<Slot>
        ensures { result ≡ spec.slot_in self.now.decls name.now }
    {
        self.slots.get(name).copied()
    }

    /// What the name that comes next was declared as.
    #[tactic(auto, unfolding(mpd_model::specs::grammar::Input::seek))]
    pub(crate) fn seek(&self, kind: DeclKind) -> Result<Slot, ReadFault>
        ensures { Reads (spec.seek kind self.now) result self.now }
    {
        match self.find(self.spelling()) {
            Some(slot) if same_kind(kind, slot.kind) => Ok(slot),
            _ => Err(self.fail(FaultCode::UnknownName)),
        }
    }

    /// The name that comes next is new.
    #[tactic(auto, unfolding(mpd_model::specs::grammar::Input::fresh))]
    pub(crate) fn fresh(&self) -> Result<(), ReadFault>
        ensures value { Reads (spec.fresh self.now) result self.now }
        ensures new { OnOk result (spec.slot_in self.now.decls (spec.spelling self.now) ≡ None) }
    {
        match self.find(self.spelling()) {
            Some(_) => Err(self.fail(FaultCode::Twice)),
            None => Ok(()),
        }
    }

    /// Declares a name, or a fault at a place.
    #[tactic(auto, unfolding(mpd_model::specs::grammar::Input::add))]
    pub(crate) fn add(
        &mut self,
        kind: DeclKind,
        name: &'a [u8],
        size: Option<usize>,
        place: usize,
    ) -> Result<(), ReadFault>
        requires ascii { IsAscii name.now }
        requires new { spec.slot_in self.old.decls name.now ≡ None }
        ensures { Reads (spec.add kind name.now size place self.old) result self.new }
    {
        let (variables, handles) = cells(kind, size);
        if variables > CELLS_MAX - self.variables || handles > HANDLES_MAX - self.handles {
            return Err(ReadFault {
                code: FaultCode::TooMany,
                place,
            });
        }
        let text = String::from_str(*self.decls.allocator(), str::from_utf8(name).unwrap())?;
        self.put(
            name,
            Decl {
                kind,
                name: text,
                size,
            },
        )
    }

    /// Declares what is declared before the text. Of two declarations of a name the first counts.
    pub(crate) fn declare(&mut self, decl: &'a Decl) -> Result<(), ReadFault>
        requires variables { variables_in self.old.decls + variable_cells decl.now.kind decl.now.size ≤ CELLS_MAX }
        requires handles { handles_in self.old.decls + handle_cells decl.now.kind decl.now.size ≤ HANDLES_MAX }
        ensures { DeclaredBy self.old decl.now result self.new }
    {
        let text = String::from_str(*self.decls.allocator(), &decl.name)?;
        self.put(
            decl.name.as_bytes(),
            Decl {
                kind: decl.kind,
                name: text,
                size: decl.size,
            },
        )
    }

    /// Adds a declaration, and what its name stands for.
    fn put(&mut self, name: &'a [u8], decl: Decl) -> Result<(), ReadFault>
        requires named { decl.name ≡ name.now }
        requires variables { variables_in self.old.decls + variable_cells decl.kind decl.size ≤ CELLS_MAX }
        requires handles { handles_in self.old.decls + handle_cells decl.kind decl.size ≤ HANDLES_MAX }
        ensures { DeclaredBy self.old decl result self.new }
    {
        let (variables, handles) = cells(decl.kind, decl.size);
        let slot = Slot {
            kind: decl.kind,
            declaration: self.decls.len(),
            first: first_of(decl.kind, self.variables, self.handles) as u32,
            size: narrow(decl.size),
        };
        self.decls.reserve(1)?;
        put_new(&mut self.slots, name, slot)?;
        push_kept(&mut self.decls, decl);
        self.variables += variables;
        self.handles += handles;
        Ok(())
    }

    /// What was read: the declarations, and the line of each statement.
    pub(crate) fn finish(self) -> (Vec<Decl>, Vec<usize>)
        ensures decls { result.0.items ≡ self.entry.decls }
        ensures lines { result.1.items ≡ self.entry.lines }
        ensures variables { variables_in result.0.items ≤ CELLS_MAX }
        ensures handles { handles_in result.0.items ≤ HANDLES_MAX }
        ensures few_lines { length result.1.items ≤ STATEMENTS_MAX }
    {
        (self.decls, self.lines)
    }
}

/// Says what a name stands for, if nothing says it yet.
#[tactic(auto, using(crate::proofs::Slots::putting))]
fn put_new<'a>(
    slots: &mut BTreeMap<&'a [u8], Slot>,
    name: &'a [u8],
    slot: Slot,
) -> Result<(), AllocError>
    ensures put { OnOk result (IsPutNew name.now slot slots.old slots.new) }
    ensures same { OnErr result (slots.new.entries ≡ slots.old.entries) }
{
    if slots.get(name).is_some() {
        return Ok(());
    }
    slots.insert(name, slot)?;
    Ok(())
}

/// Pushes where room was kept.
fn push_kept(decls: &mut Vec<Decl>, decl: Decl)
    requires { vec_len decls.old < vec_capacity decls.old }
    ensures { decls.new.items ≡ decls.old.items ++ decl ∷ [] }
{
    decls.push(decl).unwrap();
}

/// The one that is of the kind.
fn first_of(kind: DeclKind, variables: usize, handles: usize) -> usize
    ensures { result ≡ spec.first_of kind variables handles }
{
    match kind {
        DeclKind::Variable => variables,
        DeclKind::Handle => handles,
    }
}

/// A size within the limits, in fewer bits.
fn narrow(size: Option<usize>) -> Option<u32>
    requires { IfSome size (λ n. n ≤ CELLS_MAX) }
    ensures { result ≡ size }
{
    match size {
        Some(count) => Some(count as u32),
        None => None,
    }
}

/// How many cells of variables and of handles a declaration has.
fn cells(kind: DeclKind, size: Option<usize>) -> (usize, usize)
    ensures { result ≡ (variable_cells kind size, handle_cells kind size) }
{
    let count = size.unwrap_or(1);
    match kind {
        DeclKind::Variable => (count, 0),
        DeclKind::Handle => (0, count),
    }
}

fn same_kind(a: DeclKind, b: DeclKind) -> bool
    ensures { result ≡ spec.same_kind a b }
{
    matches!(
        (a, b),
        (DeclKind::Variable, DeclKind::Variable) | (DeclKind::Handle, DeclKind::Handle)
    )
}

fn is_symbol(symbol: Symbol, token: Token) -> bool
    ensures { result ≡ spec.is_symbol symbol token }
{
    match token {
        Token::Is(found) => same_symbol(found, symbol),
        _ => false,
    }
}

#[tactic(auto, unfolding(mpd_model::specs::grammar::Input::same_symbol))]
fn same_symbol(a: Symbol, b: Symbol) -> bool
    ensures { result ≡ spec.same_symbol a b }
{
    a == b
}
