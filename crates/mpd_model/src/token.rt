//! What a text is cut into (docs/LANGUAGE.md, "Tokens").

/// A sign or a reserved word.
#[derive(Clone, Copy)]
pub enum Symbol {
    Semicolon,
    BraceOpen,
    BraceClose,
    RoundOpen,
    RoundClose,
    SquareOpen,
    SquareClose,
    Assign,
    Equal,
    NotEqual,
    Less,
    AtMost,
    Greater,
    AtLeast,
    Plus,
    Minus,
    Times,
    Divide,
    Remainder,
    Not,
    And,
    Or,
    Mpd,
    Ranks,
    Var,
    Req,
    If,
    Else,
    While,
    Print,
    Assert,
    Send,
    Ssend,
    Isend,
    Issend,
    Recv,
    Irecv,
    Wait,
    Waitany,
    Barrier,
    To,
    From,
    Tag,
    Any,
    Status,
    Rank,
    Size,
}

/// What stands at a place of a text.
#[derive(Clone, Copy)]
pub enum Token {
    /// Digits, by their value.
    Number(i64),
    /// A name that is no reserved word.
    Name,
    Is(Symbol),
    /// No token begins here, or the number or name is too large.
    Bad,
    /// The end of the text.
    End,
}

/// A kind of bytes, of which tokens and comments are runs.
#[derive(Clone, Copy)]
pub enum Class {
    Digit,
    /// What may stand in a name after its first byte.
    Name,
    Comment,
}

/// The reserved words.
pub const RESERVED: [(&[u8], Symbol); 25] = [
    (b"mpd", Symbol::Mpd),
    (b"ranks", Symbol::Ranks),
    (b"var", Symbol::Var),
    (b"req", Symbol::Req),
    (b"if", Symbol::If),
    (b"else", Symbol::Else),
    (b"while", Symbol::While),
    (b"print", Symbol::Print),
    (b"assert", Symbol::Assert),
    (b"send", Symbol::Send),
    (b"ssend", Symbol::Ssend),
    (b"isend", Symbol::Isend),
    (b"issend", Symbol::Issend),
    (b"recv", Symbol::Recv),
    (b"irecv", Symbol::Irecv),
    (b"wait", Symbol::Wait),
    (b"waitany", Symbol::Waitany),
    (b"barrier", Symbol::Barrier),
    (b"to", Symbol::To),
    (b"from", Symbol::From),
    (b"tag", Symbol::Tag),
    (b"any", Symbol::Any),
    (b"status", Symbol::Status),
    (b"rank", Symbol::Rank),
    (b"size", Symbol::Size),
];
