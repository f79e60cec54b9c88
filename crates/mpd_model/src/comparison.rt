//! Comparisons of a value with a number.

ghost use Rattle.std.specs.Prelude.{◌≡◌};
ghost use Rattle.mpd_model.specs.runs.Comparisons as spec;

/// How a value is compared with a number (docs/LANGUAGE.md, "Expressions").
#[derive(Clone, Copy, Debug, PartialEq, Eq)]
pub enum Comparison {
    Equal,
    NotEqual,
    Less,
    AtMost,
    Greater,
    AtLeast,
}

impl Comparison {
    /// The operator as scripts write it, without spaces.
    pub fn text(self) -> &'static str
        ensures { result.now ≡ spec.text_of self }
    {
        match self {
            Comparison::Equal => "==",
            Comparison::NotEqual => "!=",
            Comparison::Less => "<",
            Comparison::AtMost => "<=",
            Comparison::Greater => ">",
            Comparison::AtLeast => ">=",
        }
    }

    /// Whether it holds of a value and a number, which stands to the right.
    pub fn holds(self, value: i64, number: i64) -> bool
        ensures { result ≡ spec.holds self value number }
    {
        match self {
            Comparison::Equal => value == number,
            Comparison::NotEqual => value != number,
            Comparison::Less => value < number,
            Comparison::AtMost => value <= number,
            Comparison::Greater => value > number,
            Comparison::AtLeast => value >= number,
        }
    }
}

/// Reads an operator: `==`, `!=`, `<`, `<=`, `>` or `>=`. `None` where the text is none of these.
pub fn comparison_of(text: &[u8]) -> Option<Comparison>
    ensures { result ≡ spec.comparison_of text.now }
{
    if text == b"==".as_slice() {
        return Some(Comparison::Equal);
    }
    if text == b"!=".as_slice() {
        return Some(Comparison::NotEqual);
    }
    if text == b"<".as_slice() {
        return Some(Comparison::Less);
    }
    if text == b"<=".as_slice() {
        return Some(Comparison::AtMost);
    }
    if text == b">".as_slice() {
        return Some(Comparison::Greater);
    }
    if text == b">=".as_slice() {
        return Some(Comparison::AtLeast);
    }
    None
}
