//! The reserved words.

ghost use Rattle.std.specs.Prelude.{◌≡◌, ◌<◌, ◌≤◌, ◌+◌, ◌∷◌, IfSome, length, map, slice_range};
ghost use Rattle.std.specs.Char.{to_ascii_lowercase};
ghost use Rattle.std.specs.Str.{str_eq_ignore_ascii_case};
ghost use Rattle.sql_lexer.specs.declared.keyword.TheConstants.{KEYWORDS};
ghost use Rattle.sql_lexer.specs.Lex as spec;
ghost use Rattle.sql_lexer.specs.Lex.{Text};
ghost use Rattle.sql_lexer.specs.Words.{words};

/// A reserved word.
#[derive(Clone, Copy, PartialEq, Eq)]
pub enum Keyword {
    Abort,
    After,
    Alter,
    Analyze,
    And,
    As,
    Asc,
    Attach,
    Before,
    Begin,
    Between,
    By,
    Check,
    Collate,
    Commit,
    Create,
    Default,
    Deferred,
    Delete,
    Desc,
    Detach,
    Distinct,
    Drop,
    Each,
    End,
    Explain,
    For,
    From,
    Group,
    Immediate,
    In,
    Index,
    Inner,
    Insert,
    Instead,
    Into,
    Is,
    Join,
    Key,
    Left,
    Limit,
    Not,
    Null,
    Of,
    Offset,
    On,
    Or,
    Order,
    Outer,
    Pragma,
    Primary,
    Raise,
    Reindex,
    Release,
    Replace,
    Rollback,
    Row,
    Savepoint,
    Select,
    Set,
    Table,
    To,
    Transaction,
    Trigger,
    Unique,
    Update,
    Vacuum,
    Values,
    View,
    When,
    Where,
    With,
}

const KEYWORDS: [(&[u8], Keyword); 72] = [
    (b"ABORT", Keyword::Abort),
    (b"AFTER", Keyword::After),
    (b"ALTER", Keyword::Alter),
    (b"ANALYZE", Keyword::Analyze),
    (b"AND", Keyword::And),
    (b"AS", Keyword::As),
    (b"ASC", Keyword::Asc),
    (b"ATTACH", Keyword::Attach),
    (b"BEFORE", Keyword::Before),
    (b"BEGIN", Keyword::Begin),
    (b"BETWEEN", Keyword::Between),
    (b"BY", Keyword::By),
    (b"CHECK", Keyword::Check),
    (b"COLLATE", Keyword::Collate),
    (b"COMMIT", Keyword::Commit),
    (b"CREATE", Keyword::Create),
    (b"DEFAULT", Keyword::Default),
    (b"DEFERRED", Keyword::Deferred),
    (b"DELETE", Keyword::Delete),
    (b"DESC", Keyword::Desc),
    (b"DETACH", Keyword::Detach),
    (b"DISTINCT", Keyword::Distinct),
    (b"DROP", Keyword::Drop),
    (b"EACH", Keyword::Each),
    (b"END", Keyword::End),
    (b"EXPLAIN", Keyword::Explain),
    (b"FOR", Keyword::For),
    (b"FROM", Keyword::From),
    (b"GROUP", Keyword::Group),
    (b"IMMEDIATE", Keyword::Immediate),
    (b"IN", Keyword::In),
    (b"INDEX", Keyword::Index),
    (b"INNER", Keyword::Inner),
    (b"INSERT", Keyword::Insert),
    (b"INSTEAD", Keyword::Instead),
    (b"INTO", Keyword::Into),
    (b"IS", Keyword::Is),
    (b"JOIN", Keyword::Join),
    (b"KEY", Keyword::Key),
    (b"LEFT", Keyword::Left),
    (b"LIMIT", Keyword::Limit),
    (b"NOT", Keyword::Not),
    (b"NULL", Keyword::Null),
    (b"OF", Keyword::Of),
    (b"OFFSET", Keyword::Offset),
    (b"ON", Keyword::On),
    (b"OR", Keyword::Or),
    (b"ORDER", Keyword::Order),
    (b"OUTER", Keyword::Outer),
    (b"PRAGMA", Keyword::Pragma),
    (b"PRIMARY", Keyword::Primary),
    (b"RAISE", Keyword::Raise),
    (b"REINDEX", Keyword::Reindex),
    (b"RELEASE", Keyword::Release),
    (b"REPLACE", Keyword::Replace),
    (b"ROLLBACK", Keyword::Rollback),
    (b"ROW", Keyword::Row),
    (b"SAVEPOINT", Keyword::Savepoint),
    (b"SELECT", Keyword::Select),
    (b"SET", Keyword::Set),
    (b"TABLE", Keyword::Table),
    (b"TO", Keyword::To),
    (b"TRANSACTION", Keyword::Transaction),
    (b"TRIGGER", Keyword::Trigger),
    (b"UNIQUE", Keyword::Unique),
    (b"UPDATE", Keyword::Update),
    (b"VACUUM", Keyword::Vacuum),
    (b"VALUES", Keyword::Values),
    (b"VIEW", Keyword::View),
    (b"WHEN", Keyword::When),
    (b"WHERE", Keyword::Where),
    (b"WITH", Keyword::With),
];

/// Where the words of each letter of the alphabet begin in the table, and the table's end.
const STARTS: [usize; 27] = [
    0, 8, 12, 16, 23, 26, 28, 29, 29, 37, 38, 39, 41, 41, 43, 49, 51, 51, 57, 60, 64, 66, 69, 72,
    72, 72, 72,
];

/// The table has the reserved words, each as it is spelled.
fn words_are_spelled()
    ensures { map (λ k. (k.0.now, k.1)) KEYWORDS ≡ words }
{}

/// The number of a letter in the alphabet, from 0, whatever its case.
fn letter_number(letter: u8) -> Option<usize>
    ensures { IfSome result (λ n. (n < 26) × (to_ascii_lowercase letter ≡ 97 + n)) }
{
    match letter {
        b'a'..=b'z' => Some((letter - b'a') as usize),
        b'A'..=b'Z' => Some((letter - b'A') as usize),
        _ => None,
    }
}

/// Where a word that begins so is looked for in the table: its first place, and the place after its last.
fn span(first: u8) -> (usize, usize)
    ensures within { (result.0 ≤ result.1) × (result.1 ≤ length KEYWORDS) }
    ensures same { (rest : Text)
        → spec.lookup (slice_range (map (λ k. (k.0.now, k.1)) KEYWORDS) result.0 result.1) (first ∷ rest)
        ≡ spec.lookup (map (λ k. (k.0.now, k.1)) KEYWORDS) (first ∷ rest) }
{
    match letter_number(first) {
        Some(n) => (STARTS[n], STARTS[n + 1]),
        None => (0, 72),
    }
}

/// The word of a table that is spelled so, in letters of any case.
fn lookup(mut table: &[(&[u8], Keyword)], word: &[u8]) -> Option<Keyword>
    ensures { result ≡ spec.lookup (map (λ k. (k.0.now, k.1)) table.entry.now) word.now }
{
    'entries: while let [entry, rest @ ..] = table {
        if is_same(entry.0, word) {
            return Some(entry.1);
        }
        table = rest;
    }
    None
}

/// The word in a part of a table that is spelled so, in letters of any case.
fn lookup_in(table: &[(&[u8], Keyword)], from: usize, to: usize, word: &[u8]) -> Option<Keyword>
    requires { (from ≤ to) × (to ≤ length table.now) }
    ensures { result ≡ spec.lookup (slice_range (map (λ k. (k.0.now, k.1)) table.now) from to) word.now }
{
    lookup(&table[from..to], word)
}

/// Whether both are the same except for the case of the ASCII letters.
fn is_same(a: &[u8], b: &[u8]) -> bool
    ensures { result ≡ str_eq_ignore_ascii_case a.now b.now }
{
    a.eq_ignore_ascii_case(b)
}

/// The reserved word that is spelled so, in letters of any case.
#[tactic(auto, unfolding(crate::specs::Lex::reserved))]
pub fn reserved(word: &[u8]) -> Option<Keyword>
    ensures { result ≡ spec.reserved word.now }
{
    words_are_spelled();
    match word {
        [first, ..] => {
            let (from, to) = span(*first);
            lookup_in(&KEYWORDS, from, to, word)
        }
        [] => None,
    }
}
