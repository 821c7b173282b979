ghost use Rattle.std.specs.Prelude.{◌≡◌, IsTrue};
ghost use Rattle.std.specs.List.{find};
ghost use Rattle.std.specs.Str.{bytes_eq};
ghost use Rattle.pg_lexer.specs.Bytes.{is_name};
ghost use Rattle.pg_lexer.specs.Keywords.{spelling, keyword_of, may_be_name, words_with};

/// A reserved word of the statements.
#[derive(Clone, Copy, Debug, PartialEq, Eq, Hash)]
pub enum Keyword {
    Abort,
    And,
    As,
    Asc,
    Begin,
    Bigint,
    Bool,
    Boolean,
    By,
    Check,
    Commit,
    Committed,
    Conflict,
    Constraint,
    Create,
    Default,
    Delete,
    Desc,
    Distinct,
    Do,
    End,
    False,
    First,
    For,
    From,
    Index,
    Inner,
    Insert,
    Int,
    Integer,
    Into,
    Is,
    Isolation,
    Join,
    Key,
    Last,
    Level,
    Limit,
    Locked,
    Matched,
    Merge,
    No,
    Not,
    Nothing,
    Nowait,
    Null,
    Nulls,
    Of,
    On,
    Or,
    Order,
    Primary,
    Read,
    Returning,
    Rollback,
    Select,
    Set,
    Share,
    Skip,
    Source,
    Table,
    Target,
    Text,
    Then,
    Transaction,
    True,
    Unique,
    Update,
    Using,
    Values,
    When,
    Where,
    Work,
}

impl Keyword {
    /// The word in lower case, as it reads where it is a name.
    #[tactic(auto, unfolding(crate::specs::Keywords::spelling, crate::specs::Bytes::is_name))]
    pub fn spelling(self) -> &'static [u8]
        ensures value { result.now ≡ spelling self }
        ensures name { IsTrue (is_name (spelling self)) }
    {
        match self {
            Keyword::Abort => b"abort",
            Keyword::And => b"and",
            Keyword::As => b"as",
            Keyword::Asc => b"asc",
            Keyword::Begin => b"begin",
            Keyword::Bigint => b"bigint",
            Keyword::Bool => b"bool",
            Keyword::Boolean => b"boolean",
            Keyword::By => b"by",
            Keyword::Check => b"check",
            Keyword::Commit => b"commit",
            Keyword::Committed => b"committed",
            Keyword::Conflict => b"conflict",
            Keyword::Constraint => b"constraint",
            Keyword::Create => b"create",
            Keyword::Default => b"default",
            Keyword::Delete => b"delete",
            Keyword::Desc => b"desc",
            Keyword::Distinct => b"distinct",
            Keyword::Do => b"do",
            Keyword::End => b"end",
            Keyword::False => b"false",
            Keyword::First => b"first",
            Keyword::For => b"for",
            Keyword::From => b"from",
            Keyword::Index => b"index",
            Keyword::Inner => b"inner",
            Keyword::Insert => b"insert",
            Keyword::Int => b"int",
            Keyword::Integer => b"integer",
            Keyword::Into => b"into",
            Keyword::Is => b"is",
            Keyword::Isolation => b"isolation",
            Keyword::Join => b"join",
            Keyword::Key => b"key",
            Keyword::Last => b"last",
            Keyword::Level => b"level",
            Keyword::Limit => b"limit",
            Keyword::Locked => b"locked",
            Keyword::Matched => b"matched",
            Keyword::Merge => b"merge",
            Keyword::No => b"no",
            Keyword::Not => b"not",
            Keyword::Nothing => b"nothing",
            Keyword::Nowait => b"nowait",
            Keyword::Null => b"null",
            Keyword::Nulls => b"nulls",
            Keyword::Of => b"of",
            Keyword::On => b"on",
            Keyword::Or => b"or",
            Keyword::Order => b"order",
            Keyword::Primary => b"primary",
            Keyword::Read => b"read",
            Keyword::Returning => b"returning",
            Keyword::Rollback => b"rollback",
            Keyword::Select => b"select",
            Keyword::Set => b"set",
            Keyword::Share => b"share",
            Keyword::Skip => b"skip",
            Keyword::Source => b"source",
            Keyword::Table => b"table",
            Keyword::Target => b"target",
            Keyword::Text => b"text",
            Keyword::Then => b"then",
            Keyword::Transaction => b"transaction",
            Keyword::True => b"true",
            Keyword::Unique => b"unique",
            Keyword::Update => b"update",
            Keyword::Using => b"using",
            Keyword::Values => b"values",
            Keyword::When => b"when",
            Keyword::Where => b"where",
            Keyword::Work => b"work",
        }
    }

    /// Whether the word is spelled so in lower case.
    fn is_spelled(self, word: &[u8]) -> bool
        ensures { result ≡ bytes_eq (spelling self) word.now }
    {
        let spelling = self.spelling();
        spelling.len() == word.len() && spelling == word
    }

    /// Whether the word may also be a name, except as an alias without AS.
    #[tactic(auto, unfolding(crate::specs::Keywords::may_be_name))]
    pub fn may_be_name(self) -> bool
        ensures { result ≡ may_be_name self }
    {
        matches!(
            self,
            Keyword::First
                | Keyword::Key
                | Keyword::Last
                | Keyword::Level
                | Keyword::Locked
                | Keyword::No
                | Keyword::Nothing
                | Keyword::Read
                | Keyword::Share
                | Keyword::Source
                | Keyword::Target
                | Keyword::Work
        )
    }
}

/// The reserved words that begin with a letter.
#[tactic(auto, unfolding(crate::specs::Keywords::words_with, crate::specs::Keywords::keywords, crate::specs::Keywords::spelling))]
fn words_with(first: u8) -> &'static [Keyword]
    ensures { result.now ≡ words_with first }
{
    match first {
        b'a' => &[Keyword::Abort, Keyword::And, Keyword::As, Keyword::Asc],
        b'b' => &[
            Keyword::Begin,
            Keyword::Bigint,
            Keyword::Bool,
            Keyword::Boolean,
            Keyword::By,
        ],
        b'c' => &[
            Keyword::Check,
            Keyword::Commit,
            Keyword::Committed,
            Keyword::Conflict,
            Keyword::Constraint,
            Keyword::Create,
        ],
        b'd' => &[
            Keyword::Default,
            Keyword::Delete,
            Keyword::Desc,
            Keyword::Distinct,
            Keyword::Do,
        ],
        b'e' => &[Keyword::End],
        b'f' => &[Keyword::False, Keyword::First, Keyword::For, Keyword::From],
        b'i' => &[
            Keyword::Index,
            Keyword::Inner,
            Keyword::Insert,
            Keyword::Int,
            Keyword::Integer,
            Keyword::Into,
            Keyword::Is,
            Keyword::Isolation,
        ],
        b'j' => &[Keyword::Join],
        b'k' => &[Keyword::Key],
        b'l' => &[
            Keyword::Last,
            Keyword::Level,
            Keyword::Limit,
            Keyword::Locked,
        ],
        b'm' => &[Keyword::Matched, Keyword::Merge],
        b'n' => &[
            Keyword::No,
            Keyword::Not,
            Keyword::Nothing,
            Keyword::Nowait,
            Keyword::Null,
            Keyword::Nulls,
        ],
        b'o' => &[Keyword::Of, Keyword::On, Keyword::Or, Keyword::Order],
        b'p' => &[Keyword::Primary],
        b'r' => &[Keyword::Read, Keyword::Returning, Keyword::Rollback],
        b's' => &[
            Keyword::Select,
            Keyword::Set,
            Keyword::Share,
            Keyword::Skip,
            Keyword::Source,
        ],
        b't' => &[
            Keyword::Table,
            Keyword::Target,
            Keyword::Text,
            Keyword::Then,
            Keyword::Transaction,
            Keyword::True,
        ],
        b'u' => &[Keyword::Unique, Keyword::Update, Keyword::Using],
        b'v' => &[Keyword::Values],
        b'w' => &[Keyword::When, Keyword::Where, Keyword::Work],
        _ => &[],
    }
}

/// The word among these that is spelled so.
fn find_word(words: &[Keyword], word: &[u8]) -> Option<Keyword>
    ensures { result ≡ find (λ k. bytes_eq (spelling k) word.now) words.now }
{
    words
        .iter()
        .copied()
        .find(|keyword| keyword.is_spelled(word))
}

/// The reserved word that is spelled so in lower case, if one is.
pub fn keyword_of(word: &[u8]) -> Option<Keyword>
    ensures { result ≡ keyword_of word.now }
{
    let (first, _) = word.split_first()?;
    find_word(words_with(*first), word)
}
