//! The names of a query's columns: those that the engine knows, and else an expression as it is written.

use sql_lexer::{Keyword, Kind, Token, tokens};
use sqlval::{Name, R};
use std::alloc::Global;

/// A result of a query as it is written.
#[derive(Drop)]
struct Written<'a> {
    text: &'a str,
    /// The name after AS, in the letters of the text.
    alias: Option<&'a str>,
    /// Whether it stands for all columns of a source.
    is_star: bool,
}

/// Whether a word ends the list of a query's results.
fn ends_results(kind: Kind) -> bool {
    matches!(
        kind,
        Kind::Semicolon
            | Kind::Word(
                Keyword::From | Keyword::Where | Keyword::Group | Keyword::Order | Keyword::Limit
            )
    )
}

/// How deep in parentheses the text is after a token.
fn depth_after(depth: usize, kind: Kind) -> usize {
    match kind {
        Kind::LeftParen => depth.saturating_add(1),
        Kind::RightParen => depth.saturating_sub(1),
        _ => depth,
    }
}

/// The tokens up to the comma or the word that ends a result, and those from that on.
fn cut_result<'b, 'a>(tokens: &'b [Token<'a>]) -> (&'b [Token<'a>], &'b [Token<'a>]) {
    let mut depth = 0usize;
    for (i, token) in tokens.iter().enumerate() {
        if depth == 0 && (token.kind == Kind::Comma || ends_results(token.kind)) {
            return (&tokens[..i], &tokens[i..]);
        }
        depth = depth_after(depth, token.kind);
    }
    (tokens, &[])
}

/// A name without the quotes around it.
fn unquoted(name: &str) -> &str {
    match name.strip_prefix('"') {
        Some(rest) => rest.strip_suffix('"').unwrap_or(rest),
        None => name,
    }
}

/// The name that stands after AS at the end of a result.
fn alias_of<'a>(tokens: &[Token<'a>]) -> Option<&'a str> {
    match tokens {
        [_, .., word, name] if word.kind == Kind::Word(Keyword::As) => Some(unquoted(name.text)),
        _ => None,
    }
}

/// The result that these tokens of a text are.
fn result_of<'a>(text: &'a str, tokens: &[Token<'a>]) -> Written<'a> {
    let (Some(first), Some(last)) = (tokens.first(), tokens.last()) else {
        return Written {
            text: "",
            alias: None,
            is_star: false,
        };
    };
    let end = last.start.saturating_add(last.text.len());
    Written {
        text: text.get(first.start..end).unwrap_or(""),
        alias: alias_of(tokens),
        is_star: last.kind == Kind::Star,
    }
}

/// The tokens after SELECT, and DISTINCT or ALL.
fn after_select<'b, 'a>(tokens: &'b [Token<'a>]) -> &'b [Token<'a>] {
    match tokens {
        [select, distinct, rest @ ..]
            if select.kind == Kind::Word(Keyword::Select)
                && distinct.kind == Kind::Word(Keyword::Distinct) => { rest }
        [select, rest @ ..] if select.kind == Kind::Word(Keyword::Select) => rest,
        _ => &[],
    }
}

/// The tokens after a comma at the front.
fn after_comma<'b, 'a>(tokens: &'b [Token<'a>]) -> Option<&'b [Token<'a>]> {
    match tokens {
        [comma, rest @ ..] if comma.kind == Kind::Comma => Some(rest),
        _ => None,
    }
}

/// The results of a query as they are written.
fn results<'a>(alloc: Global, text: &'a str) -> R<Vec<Written<'a>>> {
    let found = tokens(alloc, text)?;
    let mut results = Vec::new(alloc);
    let mut rest = Some(after_select(&found));
    for _ in 0..found.len() {
        let Some(now) = rest else {
            break;
        };
        let (tokens, after) = cut_result(now);
        results.push(result_of(text, tokens))?;
        rest = after_comma(after);
    }
    Ok(results)
}

/// The result that the column of an index is, of so many columns. A star stands for as many as are left.
fn result_at<'b, 'a>(
    results: &'b [Written<'a>],
    index: usize,
    count: usize,
) -> Option<&'b Written<'a>> {
    let first_star = results
        .iter()
        .position(|it| it.is_star)
        .unwrap_or(results.len());
    if index < first_star {
        return results.get(index);
    }
    let from_end = count.checked_sub(index)?;
    let at = results.len().checked_sub(from_end)?;
    let result = results.get(at)?;
    if results.get(at..)?.iter().any(|it| it.is_star) {
        return None;
    }
    Some(result)
}

/// The name of a column: that after AS as it is written, else that which the engine knows, else the text of the expression.
fn heading(alloc: Global, known: Option<Name>, written: Option<&Written<'_>>) -> R<Name> {
    let (alias, text) = match written {
        Some(written) => (written.alias, written.text),
        None => (None, ""),
    };
    let name = match (known, alias) {
        // (the same name, in the letters of the text)
        (Some(name), Some(alias)) if name.is_same(alias) => Name::from_str(alloc, alias)?,
        (Some(name), _) => name,
        (None, _) => Name::from_str(alloc, text)?,
    };
    Ok(name)
}

/// The names of a query's columns, from those that the engine knows and the query's text.
pub fn headings(alloc: Global, text: &str, known: Vec<Option<Name>>) -> R<Vec<Name>> {
    let results = results(alloc, text)?;
    let count = known.len();
    let mut names = Vec::with_capacity(alloc, count)?;
    for (index, name) in known.into_iter().enumerate() {
        names.push(heading(alloc, name, result_at(&results, index, count))?)?;
    }
    Ok(names)
}

/// So many names, of a statement that isn't a query: those of a checkpoint, or empty ones.
pub fn other_headings(alloc: Global, count: usize) -> R<Vec<Name>> {
    let mut names = Vec::new(alloc);
    if count == 3 {
        names.push(Name::from_str(alloc, "busy")?)?;
        names.push(Name::from_str(alloc, "log")?)?;
        names.push(Name::from_str(alloc, "checkpointed")?)?;
        return Ok(names);
    }
    for _ in 0..count {
        names.push(Name::from_str(alloc, "")?)?;
    }
    Ok(names)
}
