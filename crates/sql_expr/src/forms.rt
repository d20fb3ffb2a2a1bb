//! Forms of expressions over their parts, or why a part was refused; what isn't used is let go of here.

ghost use Rattle.std.specs.Prelude.{◌≡◌, ◌-◌, ℕ, List, max, Ok};
ghost use Rattle.sql_lexer.specs.declared.token.Token.{Token as Spelling};
ghost use Rattle.sql_syntax.specs.Tree as tree;
ghost use Rattle.sql_syntax.specs.View.{tree_of};
ghost use Rattle.sql_expr.specs.Forms.{all_closed, and_then, closing, of_all, of_source};
ghost use Rattle.sql_expr.specs.Seen.{deep_of, seen_all};
ghost use Rattle.sql_expr.specs.Symbols.{meant, seen, spelling_at};
ghost use Rattle.sql_expr.specs.Reading as spec;
ghost use Rattle.sql_expr.specs.Reading.{Gives, ReadsBy, level_at};

use crate::levels::{Deep, Deeps};
use crate::literals::{blob_of, text_of};
use crate::naming::name;
use crate::refusal::{Read, Refusal, beside, unexpected};
use crate::token::{Rest, SourceTokens, TokenAt, spelling};
use crate::words::mark;
use crate::{keyword, kind};
use sql_lexer::{Keyword, Kind};
use sql_syntax::{Expr, Node, Operator, RaiseAction};
use sqlval::{Name, Text};
use std::alloc::Global;

/// An expression with its depth, in memory of its own: nothing lies beside it that is let go of in place.
#[derive(Drop)]
pub struct Boxed {
    pub tree: Box<Expr>,
    pub depth: usize,
}

/// An expression in memory of its own.
pub fn in_box(alloc: Global, found: Deep) -> Result<Boxed, Refusal>
    ensures { Gives deep_of result (Ok found) }
{
    let depth = found.depth;
    let tree = Box::new(alloc, found.tree)?;
    Ok(Boxed { tree, depth })
}

/// A tree of depth 1.
pub fn leaf(node: Node) -> Deep
    ensures { result ≡ spec.leaf (tree_of node) }
{
    Deep {
        tree: Expr { node },
        depth: 1,
    }
}

/// A tree over others, of which the deepest has this depth.
#[tactic(auto, unfolding(crate::specs::Reading::over))]
pub fn over<'a>(room: usize, node: Node, depth: usize, rest: Rest<'a>) -> Read<'a, Deep>
    ensures { (whole : List Spelling) → ReadsBy whole rest.now result (spec.over room (tree_of node) depth) }
{
    if depth < room {
        let tree = Expr { node };
        Ok((
            Deep {
                tree,
                depth: depth + 1,
            },
            rest,
        ))
    } else {
        drop(node);
        Err(Refusal::TooLong)
    }
}

/// An expression in memory of its own, with the tokens after it.
pub fn all_in_box<'a>(alloc: Global, found: Read<'a, Deep>) -> Read<'a, Boxed>
    ensures { (whole : List Spelling) (read : spec.Read spec.Deep)
        → Gives (λ x. (x.0, seen whole x.1.now)) found.entry read
        → Gives (λ x. (deep_of x.0, seen whole x.1.now)) result read }
{
    let (found, rest) = found?;
    Ok((in_box(alloc, found)?, rest))
}

/// A minus, or else NOT, over its operand.
#[tactic(auto, unfolding(crate::specs::Reading::over))]
pub fn wrapped<'a>(room: usize, kind: Kind, inner: Boxed, rest: Rest<'a>) -> Read<'a, Deep>
    ensures { (whole : List Spelling) (text : List ℕ)
        → ReadsBy whole rest.now result (spec.over room
        (spec.wrap (meant kind text) inner.tree.value) inner.depth) }
{
    match kind {
        Kind::Minus => over(room, Node::Negated(inner.tree), inner.depth, rest),
        _ => over(room, Node::Not(inner.tree), inner.depth, rest),
    }
}

/// An operator between two operands.
pub fn binary<'a>(room: usize, op: Operator, left: Boxed, right: Read<'a, Boxed>) -> Read<'a, Deep>
    ensures { (whole : List Spelling) (read : spec.Read spec.Deep)
        → Gives (λ x. (deep_of x.0, seen whole x.1.now)) right.entry read
        → Gives (λ x. (x.0, seen whole x.1.now)) result
        (and_then read (λ e ts. spec.over room (tree.Binary op left.tree.value e.tree)
        (max left.depth e.depth) ts)) }
{
    let (right, rest) = right?;
    let depth = left.depth.max(right.depth);
    over(room, Node::Binary(op, left.tree, right.tree), depth, rest)
}

/// BETWEEN, or NOT BETWEEN, over the operand, the least and the greatest.
pub fn range<'a>(
    room: usize,
    is_negated: bool,
    left: Boxed,
    low: Boxed,
    high: Read<'a, Boxed>,
) -> Read<'a, Deep>
    ensures { (whole : List Spelling) (read : spec.Read spec.Deep)
        → Gives (λ x. (deep_of x.0, seen whole x.1.now)) high.entry read
        → Gives (λ x. (x.0, seen whole x.1.now)) result
        (and_then read (λ e ts. spec.over room
        (tree.Between is_negated left.tree.value low.tree.value e.tree)
        (max left.depth (max low.depth e.depth)) ts)) }
{
    let (high, rest) = high?;
    let depth = left.depth.max(low.depth.max(high.depth));
    let node = Node::Between(is_negated, left.tree, low.tree, high.tree);
    over(room, node, depth, rest)
}

/// An expression in parentheses, up to the closing one.
pub fn parenthesized<'a>(room: usize, inner: Read<'a, Boxed>) -> Read<'a, Deep>
    ensures { (whole : List Spelling) (read : spec.Read spec.Deep)
        → Gives (λ x. (deep_of x.0, seen whole x.1.now)) inner.entry read
        → Gives (λ x. (x.0, seen whole x.1.now)) result (and_then read (closing room)) }
{
    let (inner, rest) = inner?;
    let rest = mark(Kind::RightParen, rest)?;
    over(room, Node::Paren(inner.tree), inner.depth, rest)
}

/// Expressions up to a closing parenthesis.
pub fn closed<'a>(found: Read<'a, Deeps>) -> Read<'a, Deeps>
    ensures { (whole : List Spelling) (read : spec.Read spec.Deeps)
        → Gives (λ x. (seen_all x.0, seen whole x.1.now)) found.entry read
        → Gives (λ x. (seen_all x.0, seen whole x.1.now)) result (and_then read all_closed) }
{
    let (found, rest) = found?;
    let depth = found.depth;
    let (trees, rest) = beside(found.trees, mark(Kind::RightParen, rest))?;
    Ok((Deeps { trees, depth }, rest))
}

/// IN, or NOT IN, over the operand and the list.
pub fn membership<'a>(
    room: usize,
    is_negated: bool,
    left: Boxed,
    list: Read<'a, Deeps>,
) -> Read<'a, Deep>
    ensures { (whole : List Spelling) (read : spec.Read spec.Deeps)
        → Gives (λ x. (seen_all x.0, seen whole x.1.now)) list.entry read
        → Gives (λ x. (x.0, seen whole x.1.now)) result
        (and_then read (λ es ts. spec.over room
        (tree.In is_negated left.tree.value (tree.trees es.trees)) (max left.depth es.depth) ts)) }
{
    let (list, rest) = list?;
    let depth = left.depth.max(list.depth);
    over(
        room,
        Node::In(is_negated, left.tree, list.trees),
        depth,
        rest,
    )
}

/// The function of `*`, up to the closing parenthesis.
pub fn called_of_all<'a>(function: Name, tokens: Rest<'a>) -> Read<'a, Deep>
    ensures { (whole : List Spelling) → ReadsBy whole tokens.now result (of_all function) }
{
    let rest = mark(Kind::RightParen, tokens)?;
    Ok((leaf(Node::CallAll(function)), rest))
}

/// A column of a source, after the dot.
pub fn column<'a>(
    alloc: Global,
    spelled: SourceTokens<'_>,
    source: Name,
    tokens: Rest<'a>,
) -> Read<'a, Deep>
    ensures { ReadsBy spelled.now tokens.now result (of_source source) }
{
    let (column, rest) = name(alloc, spelled, tokens)?;
    Ok((leaf(Node::Column(Some(source), column)), rest))
}

/// Lets go of an operand that nothing goes on with so.
pub fn stuck<'a>(left: Boxed, tokens: Rest<'a>) -> Read<'a, Deep>
    ensures { (whole : List Spelling) → ReadsBy whole tokens.now result spec.fail }
{
    drop(left);
    Err(unexpected(tokens))
}

/// What stands after COLLATE.
#[tactic(auto, unfolding(crate::specs::Reading::collate))]
pub fn collate<'a>(
    alloc: Global,
    spelled: SourceTokens<'_>,
    room: usize,
    left: Boxed,
    tokens: Rest<'a>,
) -> Read<'a, Deep>
    ensures { ReadsBy spelled.now tokens.now result (spec.collate (level_at (room - 1)) room (deep_of left)) }
{
    let (collation, rest) = name(alloc, spelled, tokens)?;
    over(room, Node::Collate(left.tree, collation), left.depth, rest)
}

/// An integer, a text, a blob or NULL, with the tokens after it; of the last tokens it is the first.
pub fn literal<'a>(
    alloc: Global,
    spelled: SourceTokens<'_>,
    token: TokenAt,
    rest: Rest<'a>,
    tokens: Rest<'a>,
) -> Read<'a, Deep>
    ensures { Gives (λ x. (x.0, seen spelled.now x.1.now)) result
        (spec.by_literal (spec.literal (meant token.kind (spelling_at spelled.now token.place)))
        (seen spelled.now rest.now) (seen spelled.now tokens.now)) }
{
    let node = match token.kind {
        Kind::Word(Keyword::Null) => Node::Null,
        Kind::Integer(n) => Node::Integer(n),
        Kind::Text => Node::Text(text_of(alloc, spelling(spelled, token))?),
        Kind::Blob => Node::Blob(blob_of(alloc, spelling(spelled, token))?),
        _ => return Err(unexpected(tokens)),
    };
    Ok((leaf(node), rest))
}

/// What RAISE undoes.
#[tactic(auto, unfolding(crate::specs::Reading::action_from))]
fn action<'a>(tokens: Rest<'a>) -> Read<'a, RaiseAction>
    ensures { (whole : List Spelling) → ReadsBy whole tokens.now result spec.action_from }
{
    match tokens {
        [keyword!(Abort), rest @ ..] => Ok((RaiseAction::Abort, rest)),
        [keyword!(Rollback), rest @ ..] => Ok((RaiseAction::Rollback, rest)),
        _ => Err(unexpected(tokens)),
    }
}

/// A text.
#[tactic(auto, unfolding(crate::specs::Reading::text_from))]
fn text<'a>(alloc: Global, spelled: SourceTokens<'_>, tokens: Rest<'a>) -> Read<'a, Text>
    ensures { ReadsBy spelled.now tokens.now result spec.text_from }
{
    match tokens {
        [token @ kind!(Text), rest @ ..] => {
            Ok((text_of(alloc, spelling(spelled, *token))?, rest))
        }
        _ => Err(unexpected(tokens)),
    }
}

/// What stands after RAISE.
#[tactic(auto, unfolding(crate::specs::Reading::raise_from))]
pub fn raise<'a>(alloc: Global, spelled: SourceTokens<'_>, tokens: Rest<'a>) -> Read<'a, Deep>
    ensures { ReadsBy spelled.now tokens.now result spec.raise_from }
{
    let rest = mark(Kind::LeftParen, tokens)?;
    let (action, rest) = action(rest)?;
    let rest = mark(Kind::Comma, rest)?;
    let (message, rest) = text(alloc, spelled, rest)?;
    let rest = mark(Kind::RightParen, rest)?;
    Ok((leaf(Node::Raise(action, message)), rest))
}
