//! Tokens as the rules take them.

ghost use Rattle.std.specs.Prelude.{◌≡◌, IfOk};
ghost use Rattle.sql_expr.specs.Symbols.{symbols, seen, spelling_at};

use sql_lexer::{Kind, Token};
use std::alloc::{AllocError, Global};

/// The tokens of the whole statement, with their texts.
pub type SourceTokens<'a> = &'a [Token<'a>];

/// What is left of the statement.
pub type Rest<'a> = &'a [TokenAt];

/// A token without its text, which stands at this place of the whole statement's tokens.
#[derive(Clone, Copy)]
pub struct TokenAt {
    pub kind: Kind,
    pub place: usize,
}

/// All tokens of a statement.
pub fn all(alloc: Global, spelled: SourceTokens<'_>) -> Result<Vec<TokenAt>, AllocError>
    ensures { IfOk result (λ tokens. seen spelled.now tokens.items ≡ symbols spelled.now) }
{
    let mut tokens = Vec::with_capacity(alloc, spelled.len())?;
    for (place, token) in spelled.iter().enumerate() {
        let kind = token.kind;
        tokens.push(TokenAt { kind, place })?;
    }
    Ok(tokens)
}

/// The text of a token.
pub fn spelling<'a>(spelled: SourceTokens<'a>, token: TokenAt) -> &'a str
    ensures { result.now ≡ spelling_at spelled.now token.place }
{
    match spelled.get(token.place) {
        Some(found) => found.text,
        None => "",
    }
}
