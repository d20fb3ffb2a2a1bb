//! What the reading of statements is worth: which texts are read, and as what.

ghost use Rattle.std.specs.Prelude.{◌≡◌, ℕ, List};
ghost use Rattle.sql_expr.specs.Exact.{Exact};
ghost use Rattle.sql_grammar.specs.Changes.{EndsStatement};
ghost use Rattle.sql_grammar.specs.NewObjects.{IsObject, is_object_within};
ghost use Rattle.sql_grammar.specs.Objects.{IsView, is_view_within};
ghost use Rattle.sql_grammar.specs.Texts.{IsStatementText, IsUnsupportedText};
ghost use Rattle.sql_parser.specs.ObjectReading.{object_from, view_from};
ghost use Rattle.sql_syntax.specs.declared.create.Create.{Create as NewCreate};
ghost use Rattle.sql_syntax.specs.declared.statement.Statement.{Statement as Parsed};
ghost use Rattle.sql_syntax.specs.declared.statement.Statement.TheVariants as statement;

/// A text is one statement at most, also past the limits, and none that is supported where it is one that isn't.
pub fn one_tree()
    ensures one { (text : List ℕ) (a b : Parsed) → IsStatementText text a → IsStatementText text b
        → a ≡ b }
    ensures served { (text : List ℕ) (a : Parsed) → IsStatementText text a → IsUnsupportedText text
        → ⊥ }
{}

/// The text that a CREATE keeps is that CREATE.
pub fn kept_text_is_the_same()
    ensures { (text : List ℕ) (c : NewCreate) → IsStatementText text (statement.Create c)
        → IsStatementText c.sql (statement.Create c) }
{}

/// The views that are read, and all else that CREATE makes, are those of the grammar within the limits, each as its one
/// tree; past the limits they are `TooLong`.
pub fn objects_are_exact()
    ensures views { Exact view_from IsView is_view_within EndsStatement }
    ensures all { Exact object_from IsObject is_object_within EndsStatement }
{}
