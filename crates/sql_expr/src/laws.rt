//! What follows of the grammar of expressions, for all tokens.

ghost use Rattle.std.specs.Prelude.{◌≡◌, ℕ, List, Bool, true};
ghost use Rattle.sql_lexer.specs.Cut.{Spells};
ghost use Rattle.sql_lexer.specs.declared.keyword.Keyword.{Keyword as Reserved};
ghost use Rattle.sql_lexer.specs.declared.token.Kind.{Kind};
ghost use Rattle.sql_syntax.specs.Tree.{Tree};
ghost use Rattle.sql_expr.specs.Exact.{Exact, Single};
ghost use Rattle.sql_expr.specs.Follows.{EndsExpression, EndsList, EndsAfter, Anything, ends_list, lacks_name, lacks_paren};
ghost use Rattle.sql_expr.specs.Grammar as grammar;
ghost use Rattle.sql_expr.specs.Limits.{unlimited, is_shallow, are_shallow, if_given};
ghost use Rattle.sql_expr.specs.Meaning.{Means};
ghost use Rattle.sql_expr.specs.Symbols.{Symbol, meant, word};
ghost use Rattle.sql_expr.specs.Reading as spec;

/// Tokens are one expression at most, also where others follow.
pub fn one_tree()
    ensures whole { (ts : List Symbol) (a b : Tree) → grammar.IsExpression ts a
        → grammar.IsExpression ts b → a ≡ b }
    ensures first { Single grammar.IsExpression EndsExpression }
    ensures list { Single grammar.AreExpressions EndsList }
{}

/// Only expressions within the limit are read, each is, and those past it are refused for that; so are lists of them and
/// names.
pub fn exact_reading()
    ensures expression { Exact spec.expression_from grammar.IsExpression is_shallow EndsExpression }
    ensures list { Exact spec.expressions_from grammar.AreExpressions are_shallow EndsList }
    ensures row { Exact spec.row_from (grammar.Enclosed grammar.AreExpressions) are_shallow Anything }
    ensures enclosed { Exact spec.enclosed_from (grammar.Enclosed grammar.IsExpression) is_shallow Anything }
    ensures name { Exact spec.name_from grammar.IsName unlimited Anything }
    ensures name_row { Exact spec.name_row_from (grammar.Enclosed grammar.IsNames) unlimited Anything }
{}

/// A token of the lexer means one piece, the one that the rules take it for.
pub fn one_meaning()
    ensures some { (m : Bool) (kind : Kind) (z : List ℕ) (next : ℕ) → Spells m kind z next
        → Means kind z (meant kind z) }
    ensures one { (kind : Kind) (z : List ℕ) (p : Symbol) → Means kind z p → p ≡ meant kind z }
{}

/// The parts that may be left out, and lists of names, are read exactly too.
pub fn exact_parts()
    ensures names { Exact spec.names_from grammar.IsNames unlimited (λ rest. ends_list rest ≡ true) }
    ensures maybe_name { Exact spec.maybe_name_from (grammar.Optional grammar.IsName) unlimited
        (λ rest. lacks_name rest ≡ true) }
    ensures maybe_name_row { Exact spec.maybe_name_row_from
        (grammar.Optional (grammar.Enclosed grammar.IsNames)) unlimited
        (λ rest. lacks_paren rest ≡ true) }
    ensures maybe_after { (keyword : Reserved)
        → Exact (spec.maybe_after_from keyword)
        (grammar.Optional (grammar.Preceded (word keyword) grammar.IsExpression))
        (if_given is_shallow) (EndsAfter keyword) }
{}
