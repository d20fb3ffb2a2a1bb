//! Patterns of tokens.

/// A token that is a reserved word.
#[macro_export]
macro_rules! keyword {
    ($keyword:ident) => {
        $crate::TokenAt {
            kind: sql_lexer::Kind::Word(sql_lexer::Keyword::$keyword),
            ..
        }
    };
}

/// A token of another kind.
#[macro_export]
macro_rules! kind {
    ($kind:ident) => {
        $crate::TokenAt {
            kind: sql_lexer::Kind::$kind,
            ..
        }
    };
}
