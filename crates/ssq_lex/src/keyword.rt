//! The words of the language.

ghost use Rattle.std.specs.Prelude.{◌≡◌};
ghost use Rattle.ssq_lex.specs.Spelling.{EachIsRead};
ghost use Rattle.ssq_lex.specs.Spelling.{keyword_spelling, keyword_of};

/// A word of the language. It is read in any case of letters, and is never a name.
#[derive(Clone, Copy, Debug, PartialEq, Eq)]
pub enum Keyword {
    Create,
    Stream,
    From,
    Watermark,
    For,
    Delay,
    Select,
    Distinct,
    As,
    Where,
    Deduplicate,
    Group,
    By,
    Having,
    Order,
    Asc,
    Desc,
    Limit,
    Output,
    Append,
    Update,
    Complete,
    Inner,
    Left,
    Right,
    Outer,
    Join,
    On,
    And,
    Or,
    Not,
    Is,
    Null,
    Between,
    Interval,
    Timestamp,
    Bigint,
    String,
    Boolean,
    True,
    False,
    Div,
    Window,
    Count,
    Sum,
    Min,
    Max,
}

/// Every keyword.
pub const KEYWORDS: [Keyword; 47] = [
    Keyword::Create,
    Keyword::Stream,
    Keyword::From,
    Keyword::Watermark,
    Keyword::For,
    Keyword::Delay,
    Keyword::Select,
    Keyword::Distinct,
    Keyword::As,
    Keyword::Where,
    Keyword::Deduplicate,
    Keyword::Group,
    Keyword::By,
    Keyword::Having,
    Keyword::Order,
    Keyword::Asc,
    Keyword::Desc,
    Keyword::Limit,
    Keyword::Output,
    Keyword::Append,
    Keyword::Update,
    Keyword::Complete,
    Keyword::Inner,
    Keyword::Left,
    Keyword::Right,
    Keyword::Outer,
    Keyword::Join,
    Keyword::On,
    Keyword::And,
    Keyword::Or,
    Keyword::Not,
    Keyword::Is,
    Keyword::Null,
    Keyword::Between,
    Keyword::Interval,
    Keyword::Timestamp,
    Keyword::Bigint,
    Keyword::String,
    Keyword::Boolean,
    Keyword::True,
    Keyword::False,
    Keyword::Div,
    Keyword::Window,
    Keyword::Count,
    Keyword::Sum,
    Keyword::Min,
    Keyword::Max,
];

impl Keyword {
    /// The keyword in capitals.
    #[tactic(auto, unfolding(crate::specs::Spelling::keyword_spelling))]
    pub fn text(self) -> &'static str
        ensures { result.now ≡ keyword_spelling self }
    {
        match self {
            Keyword::Create => "CREATE",
            Keyword::Stream => "STREAM",
            Keyword::From => "FROM",
            Keyword::Watermark => "WATERMARK",
            Keyword::For => "FOR",
            Keyword::Delay => "DELAY",
            Keyword::Select => "SELECT",
            Keyword::Distinct => "DISTINCT",
            Keyword::As => "AS",
            Keyword::Where => "WHERE",
            Keyword::Deduplicate => "DEDUPLICATE",
            Keyword::Group => "GROUP",
            Keyword::By => "BY",
            Keyword::Having => "HAVING",
            Keyword::Order => "ORDER",
            Keyword::Asc => "ASC",
            Keyword::Desc => "DESC",
            Keyword::Limit => "LIMIT",
            Keyword::Output => "OUTPUT",
            Keyword::Append => "APPEND",
            Keyword::Update => "UPDATE",
            Keyword::Complete => "COMPLETE",
            Keyword::Inner => "INNER",
            Keyword::Left => "LEFT",
            Keyword::Right => "RIGHT",
            Keyword::Outer => "OUTER",
            Keyword::Join => "JOIN",
            Keyword::On => "ON",
            Keyword::And => "AND",
            Keyword::Or => "OR",
            Keyword::Not => "NOT",
            Keyword::Is => "IS",
            Keyword::Null => "NULL",
            Keyword::Between => "BETWEEN",
            Keyword::Interval => "INTERVAL",
            Keyword::Timestamp => "TIMESTAMP",
            Keyword::Bigint => "BIGINT",
            Keyword::String => "STRING",
            Keyword::Boolean => "BOOLEAN",
            Keyword::True => "TRUE",
            Keyword::False => "FALSE",
            Keyword::Div => "DIV",
            Keyword::Window => "WINDOW",
            Keyword::Count => "COUNT",
            Keyword::Sum => "SUM",
            Keyword::Min => "MIN",
            Keyword::Max => "MAX",
        }
    }
}

/// The keyword that a word is, in any case of its letters.
#[tactic(auto, unfolding(crate::specs::Spelling::keyword_of))]
pub fn keyword_of(word: &str) -> Option<Keyword>
    ensures { result ≡ keyword_of word.now }
{
    KEYWORDS
        .iter()
        .copied()
        .find(|keyword| word.eq_ignore_ascii_case(keyword.text()))
}

/// Each keyword is read where its own spelling stands, whatever the case of its letters.
pub fn keywords_are_read()
    ensures { EachIsRead }
{}
