//! The symbols of the language, of one character or of two.

ghost use Rattle.std.specs.Prelude.{◌≡◌};
ghost use Rattle.ssq_lex.specs.Spelling.{symbol_spelling, short_symbol, long_symbol};

/// A symbol of the language.
#[derive(Clone, Copy, Debug, PartialEq, Eq)]
pub enum Symbol {
    /// `(`
    LeftParen,
    /// `)`
    RightParen,
    /// `,`
    Comma,
    /// `;`
    Semicolon,
    /// `.`
    Dot,
    /// `+`
    Plus,
    /// `-`
    Minus,
    /// `*`
    Star,
    /// `%`
    Percent,
    /// `||`
    Concat,
    /// `=`
    Equal,
    /// `<>`, also written `!=`
    NotEqual,
    /// `<`
    Less,
    /// `<=`
    AtMost,
    /// `>`
    Greater,
    /// `>=`
    AtLeast,
}

impl Symbol {
    /// The symbol as it is printed.
    #[tactic(auto, unfolding(crate::specs::Spelling::symbol_spelling))]
    pub fn text(self) -> &'static str
        ensures { result.now ≡ symbol_spelling self }
    {
        match self {
            Symbol::LeftParen => "(",
            Symbol::RightParen => ")",
            Symbol::Comma => ",",
            Symbol::Semicolon => ";",
            Symbol::Dot => ".",
            Symbol::Plus => "+",
            Symbol::Minus => "-",
            Symbol::Star => "*",
            Symbol::Percent => "%",
            Symbol::Concat => "||",
            Symbol::Equal => "=",
            Symbol::NotEqual => "<>",
            Symbol::Less => "<",
            Symbol::AtMost => "<=",
            Symbol::Greater => ">",
            Symbol::AtLeast => ">=",
        }
    }
}

/// The symbol that one character is.
pub(crate) fn short_symbol(b: u8) -> Option<Symbol>
    ensures { result ≡ short_symbol b }
{
    match b {
        b'(' => Some(Symbol::LeftParen),
        b')' => Some(Symbol::RightParen),
        b',' => Some(Symbol::Comma),
        b';' => Some(Symbol::Semicolon),
        b'.' => Some(Symbol::Dot),
        b'+' => Some(Symbol::Plus),
        b'-' => Some(Symbol::Minus),
        b'*' => Some(Symbol::Star),
        b'%' => Some(Symbol::Percent),
        b'=' => Some(Symbol::Equal),
        b'<' => Some(Symbol::Less),
        b'>' => Some(Symbol::Greater),
        _ => None,
    }
}

/// The symbol that two characters are together.
pub(crate) fn long_symbol(b: u8, c: u8) -> Option<Symbol>
    ensures { result ≡ long_symbol b c }
{
    match (b, c) {
        (b'|', b'|') => Some(Symbol::Concat),
        (b'<', b'>') | (b'!', b'=') => Some(Symbol::NotEqual),
        (b'<', b'=') => Some(Symbol::AtMost),
        (b'>', b'=') => Some(Symbol::AtLeast),
        _ => None,
    }
}
