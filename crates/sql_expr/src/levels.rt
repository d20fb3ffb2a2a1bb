//! Expressions, a function for each kind of rule.

ghost use Rattle.std.specs.Prelude.{◌≡◌, ◌<◌, ◌≤◌, ◌-◌, ◌++◌, ℕ, List, Ok, Err, IfOk, false};
ghost use Rattle.sql_syntax.specs.Tree.{Tree};
ghost use Rattle.sql_expr.specs.declared.refusal.Refusal.TheVariants.{TooLong};
ghost use Rattle.sql_expr.specs.Depth.{deep};
ghost use Rattle.sql_expr.specs.Exact.{Used};
ghost use Rattle.sql_expr.specs.Follows.{EndsExpression};
ghost use Rattle.sql_expr.specs.Grammar.{IsExpression};
ghost use Rattle.sql_expr.specs.Limits.{is_shallow};
ghost use Rattle.sql_expr.specs.Symbols.{Symbol, seen};
ghost use Rattle.sql_expr.specs.Reading as spec;
ghost use Rattle.sql_expr.specs.Reading.{Gives, ReadsBy, level_at};
ghost use Rattle.sql_expr.specs.Seen.{deep_of, seen_all};

use crate::following::{Turn, chain_level, goes_on, prefix_level, turn_of};
use crate::forms::{
    Boxed, all_in_box, binary, called_of_all, closed, collate, column, in_box, leaf, literal,
    membership, over, parenthesized, raise, range, stuck, wrapped,
};
use crate::literals::name_of;
use crate::refusal::{Read, Refusal, beside, unexpected};
use crate::token::{Rest, SourceTokens, spelling};
use crate::words::{after_word, mark, word};
use crate::{keyword, kind};
use sql_lexer::{Keyword, Kind};
use sql_syntax::{Expr, Node, Operator};
use sqlval::{Many, Name};
use std::alloc::Global;

/// The greatest depth of an expression.
const DEEPEST: usize = 100;

/// The loosest level. The levels, from the tightest: 0 atom, 1 unary, 2 coll, 3 cat, 4 prod, 5 sum, 6 rel, 7 eq, 8 not,
/// 9 and, 10 or.
const OR: u8 = 10;

/// An expression with its depth.
#[derive(Drop)]
pub struct Deep {
    pub tree: Expr,
    pub depth: usize,
}

/// Expressions with the greatest of their depths.
#[derive(Drop)]
pub struct Deeps {
    pub trees: Vec<Expr>,
    pub depth: usize,
}

/// An expression, which ends where nothing goes on with it. One deeper than 100 is `TooLong`.
pub fn expression<'a>(alloc: Global, spelled: SourceTokens<'_>, tokens: Rest<'a>) -> Read<'a, Expr>
    // What is read is an expression within the limit, and what is left follows it.
    ensures found { IfOk result (λ x. Used IsExpression is_shallow (seen spelled.now tokens.now)
        (x.0, seen spelled.now x.1.now)) }
    // An expression within the limit is read, unless memory runs out.
    ensures only { (us : List Symbol) (e : Tree) (rest : List Symbol) → IsExpression us e
        → deep e ≤ 100 → EndsExpression rest
        → seen spelled.now tokens.now ≡ us ++ rest
        → Gives {Y = Tree × List Symbol} (λ x. (x.0, seen spelled.now x.1.now)) result (Ok (e, rest)) }
    // An expression past the limit is refused for that.
    ensures late { (us : List Symbol) (e : Tree) (rest : List Symbol) → IsExpression us e
        → 100 < deep e → EndsExpression rest
        → seen spelled.now tokens.now ≡ us ++ rest
        → Gives {Y = Tree × List Symbol} (λ x. (x.0, seen spelled.now x.1.now)) result (Err TooLong) }
    // Which refusal it is, and what else is read.
    ensures exact { ReadsBy spelled.now tokens.now result spec.expression_from }
{
    shallow(alloc, spelled, tokens)
}

/// An expression no deeper than 100.
#[tactic(auto, unfolding(crate::specs::Reading::expression_from))]
fn shallow<'a>(alloc: Global, spelled: SourceTokens<'_>, tokens: Rest<'a>) -> Read<'a, Expr>
    ensures { ReadsBy spelled.now tokens.now result spec.expression_from }
{
    let (found, rest) = level(alloc, spelled, DEEPEST, OR, tokens)?;
    Ok((found.tree, rest))
}

/// One or more expressions with commas between.
#[tactic(auto, unfolding(crate::specs::Reading::expressions_from))]
pub fn expressions<'a>(
    alloc: Global,
    spelled: SourceTokens<'_>,
    tokens: Rest<'a>,
) -> Read<'a, Many<Expr>>
    ensures { ReadsBy spelled.now tokens.now result spec.expressions_from }
{
    let (found, rest) = items_from(alloc, spelled, DEEPEST + 1, tokens)?;
    Ok((Many::from_vec(found.trees), rest))
}

/// Expressions in parentheses.
#[tactic(auto, unfolding(crate::specs::Reading::enclosed_by))]
pub fn row<'a>(alloc: Global, spelled: SourceTokens<'_>, tokens: Rest<'a>) -> Read<'a, Many<Expr>>
    ensures { ReadsBy spelled.now tokens.now result spec.row_from }
{
    let rest = mark(Kind::LeftParen, tokens)?;
    let (found, rest) = expressions(alloc, spelled, rest)?;
    Ok((found, mark(Kind::RightParen, rest)?))
}

/// An expression in parentheses that are none of its own.
#[tactic(auto, unfolding(crate::specs::Reading::enclosed_by))]
pub fn enclosed<'a>(alloc: Global, spelled: SourceTokens<'_>, tokens: Rest<'a>) -> Read<'a, Expr>
    ensures { ReadsBy spelled.now tokens.now result spec.enclosed_from }
{
    let rest = mark(Kind::LeftParen, tokens)?;
    let (found, rest) = shallow(alloc, spelled, rest)?;
    beside(found, mark(Kind::RightParen, rest))
}

/// An expression after a word, where the word comes next.
#[tactic(auto, unfolding(crate::specs::Reading::maybe_after_from))]
pub fn maybe_after<'a>(
    alloc: Global,
    spelled: SourceTokens<'_>,
    keyword: Keyword,
    tokens: Rest<'a>,
) -> Read<'a, Option<Expr>>
    ensures { ReadsBy spelled.now tokens.now result (spec.maybe_after_from keyword) }
{
    match after_word(keyword, tokens) {
        Some(rest) => {
            let (found, rest) = shallow(alloc, spelled, rest)?;
            Ok((Some(found), rest))
        }
        None => Ok((None, tokens)),
    }
}

/// An expression of the level, with at most this depth.
#[tactic(auto, unfolding(crate::specs::Reading::level_at))]
#[cycle(expression)]
fn level<'a>(
    alloc: Global,
    spelled: SourceTokens<'_>,
    room: usize,
    rank: u8,
    tokens: Rest<'a>,
) -> Read<'a, Deep>
    requires { rank ≤ 10 }
    ensures { ReadsBy spelled.now tokens.now result (level_at room rank) }
{
    if room == 0 {
        return Err(Refusal::TooLong);
    }
    ladder(alloc, spelled, room, rank, tokens)
}

/// An expression of the level inside a form of this room, in memory of its own.
#[cycle(expression)]
fn nested<'a>(
    alloc: Global,
    spelled: SourceTokens<'_>,
    room: usize,
    rank: u8,
    tokens: Rest<'a>,
) -> Read<'a, Boxed>
    requires some { 0 < room }
    requires rank { rank ≤ 10 }
    ensures { Gives (λ x. (deep_of x.0, seen spelled.now x.1.now)) result
        (level_at (room - 1) rank (seen spelled.now tokens.now)) }
{
    all_in_box(alloc, level(alloc, spelled, room - 1, rank, tokens))
}

/// An expression of the level, where the room is for its outermost form.
#[cycle(expression)]
fn ladder<'a>(
    alloc: Global,
    spelled: SourceTokens<'_>,
    room: usize,
    rank: u8,
    tokens: Rest<'a>,
) -> Read<'a, Deep>
    requires some { 0 < room }
    requires rank { rank ≤ 10 }
    ensures { ReadsBy spelled.now tokens.now result (spec.ladder (level_at (room - 1)) room rank) }
{
    let level = prefix_level(tokens);
    if level == 0 || rank < level {
        let found = atom(alloc, spelled, room, tokens);
        return climb(alloc, spelled, room, 0, rank, found);
    }
    let found = prefix(alloc, spelled, room, level, tokens);
    climb(alloc, spelled, room, level, rank, found)
}

/// What was found at the level `from`, with what goes on after it up to the level `to`. Levels between whose chains don't
/// go on are passed over.
#[cycle(expression)]
fn climb<'a>(
    alloc: Global,
    spelled: SourceTokens<'_>,
    room: usize,
    from: u8,
    to: u8,
    found: Read<'a, Deep>,
) -> Read<'a, Deep>
    requires some { 0 < room }
    requires rank { (from ≤ to) × (to ≤ 10) }
    ensures { (ts : List Symbol)
        → Gives (λ x. (x.0, seen spelled.now x.1.now)) found.entry (spec.ladder (level_at (room - 1)) room from ts)
        → ((k : ℕ) → from < k → k ≤ to → spec.is_prefixed k ts ≡ false)
        → Gives (λ x. (x.0, seen spelled.now x.1.now)) result (spec.ladder (level_at (room - 1)) room to ts) }
{
    let (left, rest) = found?;
    let level = chain_level(rest);
    if level <= from || to < level {
        return Ok((left, rest));
    }
    let longer = tails(alloc, spelled, room, level - 1, left, rest);
    climb(alloc, spelled, room, level, to, longer)
}

/// A minus or NOT and its operand.
#[tactic(auto, unfolding(crate::specs::Reading::prefix))]
#[cycle(expression)]
fn prefix<'a>(
    alloc: Global,
    spelled: SourceTokens<'_>,
    room: usize,
    rank: u8,
    tokens: Rest<'a>,
) -> Read<'a, Deep>
    requires some { 0 < room }
    requires rank { rank ≤ 10 }
    ensures { ReadsBy spelled.now tokens.now result (spec.prefix (level_at (room - 1)) room rank) }
{
    match tokens {
        [] => Err(Refusal::Syntax(0)),
        [token, rest @ ..] => {
            let (inner, rest) = nested(alloc, spelled, room, rank, rest)?;
            wrapped(room, token.kind, inner, rest)
        }
    }
}

/// What goes on after a left operand, as long as anything does.
#[tactic(auto, unfolding(crate::specs::Reading::tails))]
#[cycle(expression)]
fn tails<'a>(
    alloc: Global,
    spelled: SourceTokens<'_>,
    room: usize,
    rank: u8,
    first: Deep,
    tokens: Rest<'a>,
) -> Read<'a, Deep>
    requires some { 0 < room }
    requires rank { rank < 10 }
    ensures { ReadsBy spelled.now tokens.now result (spec.tails (level_at (room - 1)) room room rank first) }
{
    let mut left = first;
    let mut rest = tokens;
    'tails: for _ in 0..room {
        if !goes_on(rank + 1, rest) {
            return Ok((left, rest));
        }
        let (longer, after) = tail(alloc, spelled, room, rank, in_box(alloc, left)?, rest)?;
        left = longer;
        rest = after;
    }
    if goes_on(rank + 1, rest) {
        drop(left);
        return Err(Refusal::TooLong);
    }
    Ok((left, rest))
}

/// What goes on after a left operand of the level above the rank, once.
#[cycle(expression)]
fn tail<'a>(
    alloc: Global,
    spelled: SourceTokens<'_>,
    room: usize,
    rank: u8,
    left: Boxed,
    tokens: Rest<'a>,
) -> Read<'a, Deep>
    requires some { 0 < room }
    requires rank { rank < 10 }
    ensures { ReadsBy spelled.now tokens.now result (spec.tail (level_at (room - 1)) room rank (deep_of left)) }
{
    let (turn, rest) = turn_of(tokens);
    match turn {
        Turn::Collate => collate(alloc, spelled, room, left, rest),
        Turn::Binary(op) => operand(alloc, spelled, room, rank, op, left, rest),
        Turn::Between(is_negated) => between(alloc, spelled, room, rank, is_negated, left, rest),
        Turn::In(is_negated) => among(alloc, spelled, room, is_negated, left, rest),
        Turn::Nothing => stuck(left, rest),
    }
}

#[tactic(auto, unfolding(crate::specs::Reading::operand))]
#[cycle(expression)]
fn operand<'a>(
    alloc: Global,
    spelled: SourceTokens<'_>,
    room: usize,
    rank: u8,
    op: Operator,
    left: Boxed,
    tokens: Rest<'a>,
) -> Read<'a, Deep>
    requires some { 0 < room }
    requires rank { rank < 10 }
    ensures { ReadsBy spelled.now tokens.now result
        (spec.operand (level_at (room - 1)) room rank op (deep_of left)) }
{
    binary(room, op, left, nested(alloc, spelled, room, rank, tokens))
}

#[tactic(auto, unfolding(crate::specs::Reading::between))]
#[cycle(expression)]
fn between<'a>(
    alloc: Global,
    spelled: SourceTokens<'_>,
    room: usize,
    rank: u8,
    is_negated: bool,
    left: Boxed,
    tokens: Rest<'a>,
) -> Read<'a, Deep>
    requires some { 0 < room }
    requires rank { rank < 10 }
    ensures { ReadsBy spelled.now tokens.now result
        (spec.between (level_at (room - 1)) room rank is_negated (deep_of left)) }
{
    let (low, rest) = nested(alloc, spelled, room, rank, tokens)?;
    let rest = word(Keyword::And, rest)?;
    range(
        room,
        is_negated,
        left,
        low,
        nested(alloc, spelled, room, rank, rest),
    )
}

#[tactic(auto, unfolding(crate::specs::Reading::among))]
#[cycle(expression)]
fn among<'a>(
    alloc: Global,
    spelled: SourceTokens<'_>,
    room: usize,
    is_negated: bool,
    left: Boxed,
    tokens: Rest<'a>,
) -> Read<'a, Deep>
    requires some { 0 < room }
    ensures { ReadsBy spelled.now tokens.now result
        (spec.among (level_at (room - 1)) room is_negated (deep_of left)) }
{
    let rest = mark(Kind::LeftParen, tokens)?;
    membership(room, is_negated, left, items(alloc, spelled, room, rest))
}

/// Expressions up to a closing parenthesis.
#[tactic(auto, unfolding(crate::specs::Reading::items))]
#[cycle(expression)]
fn items<'a>(
    alloc: Global,
    spelled: SourceTokens<'_>,
    room: usize,
    tokens: Rest<'a>,
) -> Read<'a, Deeps>
    requires some { 0 < room }
    ensures { Gives (λ x. (seen_all x.0, seen spelled.now x.1.now)) result
        (spec.items (level_at (room - 1)) room (seen spelled.now tokens.now)) }
{
    closed(items_from(alloc, spelled, room, tokens))
}

/// One or more expressions with commas between, each with less depth than the room.
#[tactic(auto, unfolding(crate::specs::Reading::items_upto))]
#[cycle(expression)]
fn items_from<'a>(
    alloc: Global,
    spelled: SourceTokens<'_>,
    room: usize,
    tokens: Rest<'a>,
) -> Read<'a, Deeps>
    requires some { 0 < room }
    ensures { Gives (λ x. (seen_all x.0, seen spelled.now x.1.now)) result
        (spec.items_from (level_at (room - 1)) room (seen spelled.now tokens.now)) }
{
    let mut trees = Vec::new(alloc);
    let mut depth = 0;
    let mut rest = tokens;
    'items: for _ in 0..tokens.len() {
        let (item, after) = level(alloc, spelled, room - 1, OR, rest)?;
        trees.push(item.tree)?;
        depth = depth.max(item.depth);
        match after {
            [kind!(Comma), next @ ..] => rest = next,
            _ => return Ok((Deeps { trees, depth }, after)),
        }
    }
    Err(unexpected(rest))
}

#[tactic(auto, unfolding(crate::specs::Reading::atom))]
#[cycle(expression)]
fn atom<'a>(
    alloc: Global,
    spelled: SourceTokens<'_>,
    room: usize,
    tokens: Rest<'a>,
) -> Read<'a, Deep>
    requires some { 0 < room }
    ensures { ReadsBy spelled.now tokens.now result (spec.atom (level_at (room - 1)) room) }
{
    match tokens {
        [kind!(LeftParen), rest @ ..] => paren(alloc, spelled, room, rest),
        [keyword!(Raise), rest @ ..] => raise(alloc, spelled, rest),
        [token @ (kind!(Name) | kind!(QuotedName)), rest @ ..] => {
            named(
                alloc,
                spelled,
                room,
                name_of(alloc, spelling(spelled, *token))?,
                rest,
            )
        }
        [token, rest @ ..] => literal(alloc, spelled, *token, rest, tokens),
        [] => Err(Refusal::Syntax(0)),
    }
}

#[tactic(auto, unfolding(crate::specs::Reading::paren))]
#[cycle(expression)]
fn paren<'a>(
    alloc: Global,
    spelled: SourceTokens<'_>,
    room: usize,
    tokens: Rest<'a>,
) -> Read<'a, Deep>
    requires some { 0 < room }
    ensures { ReadsBy spelled.now tokens.now result (spec.paren (level_at (room - 1)) room) }
{
    parenthesized(room, nested(alloc, spelled, room, OR, tokens))
}

/// What goes on after a name: a column of a source, a function's arguments, or nothing.
#[tactic(auto, unfolding(crate::specs::Reading::named))]
#[cycle(expression)]
fn named<'a>(
    alloc: Global,
    spelled: SourceTokens<'_>,
    room: usize,
    first: Name,
    tokens: Rest<'a>,
) -> Read<'a, Deep>
    requires some { 0 < room }
    ensures { ReadsBy spelled.now tokens.now result (spec.named (level_at (room - 1)) room first) }
{
    match tokens {
        [kind!(Dot), rest @ ..] => column(alloc, spelled, first, rest),
        [kind!(LeftParen), rest @ ..] => call(alloc, spelled, room, first, rest),
        _ => Ok((leaf(Node::Column(None, first)), tokens)),
    }
}

/// What a function is called with, after the parenthesis.
#[tactic(auto, unfolding(crate::specs::Reading::call))]
#[cycle(expression)]
fn call<'a>(
    alloc: Global,
    spelled: SourceTokens<'_>,
    room: usize,
    function: Name,
    tokens: Rest<'a>,
) -> Read<'a, Deep>
    requires some { 0 < room }
    ensures { ReadsBy spelled.now tokens.now result (spec.call (level_at (room - 1)) room function) }
{
    match tokens {
        [kind!(RightParen), rest @ ..] => {
            over(room, Node::Call(function, Vec::new(alloc)), 0, rest)
        }
        [kind!(Star), rest @ ..] => called_of_all(function, rest),
        _ => {
            let (found, rest) = items(alloc, spelled, room, tokens)?;
            over(room, Node::Call(function, found.trees), found.depth, rest)
        }
    }
}
