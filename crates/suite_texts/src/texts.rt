//! Texts: their tokens, and the statements that they are. The replies to others stand in tests/trial.

use sql_lexer::{Keyword, Kind, tokens};
use sql_parser::parse;
use sql_syntax::{ColumnDefinition, ColumnRule, NewObject, Statement};
use sqlval::{Fault, R, Value};
use std::alloc::Global;
use std::test::*;

#[test]
fn a_text_is_cut_into_words_marks_and_literals(rt: HostRuntime) -> Result<(), Fail> {
    let found = tokens(
        rt.alloc(),
        " seLect/* a */a1$||\"b\"\"\",'it''s'--\n!=X'0aF9' - 9223372036854775808",
    )?;
    let kinds = [
        Kind::Word(Keyword::Select),
        Kind::Name,
        Kind::Bars,
        Kind::QuotedName,
        Kind::Comma,
        Kind::Text,
        Kind::NotEqual,
        Kind::Blob,
        Kind::Minus,
        Kind::Integer(1 << 63),
    ];
    assert_eq!(rt; found.len(), kinds.len());
    for (token, kind) in found.iter().zip(&kinds) {
        assert!(rt; token.kind == *kind);
    }
    assert_eq!(rt; found[1].start, 14);
    assert_eq!(rt; found[5].text, "'it''s'");
    Ok(())
}

#[test]
fn a_long_text_is_refused_for_its_length_first(rt: HostRuntime) -> Result<(), Fail> {
    let text = "'".repeat(rt.alloc(), 65_537)?;
    assert!(rt; matches!(tokens(rt.alloc(), text.as_str()), Err(Fault::TooLong)));
    Ok(())
}

/// Why a text is refused, or nothing where it is read.
fn refusal(alloc: Global, text: &str) -> Option<Fault> {
    parse(alloc, text).err()
}

fn all_are_read(alloc: Global, forms: &[&str]) -> bool {
    for form in forms {
        if refusal(alloc, form).is_some() {
            return false;
        }
    }
    true
}

#[test]
fn definitions_and_triggers_are_read(rt: HostRuntime) {
    let forms = [
        "CREATE TABLE t (a INTEGER PRIMARY KEY, b varchar (10, 2) NOT NULL UNIQUE DEFAULT -5 COLLATE nocase CHECK (b > 0), c, PRIMARY KEY (a, b), UNIQUE (c), CHECK (a <> b))",
        "CREATE UNIQUE INDEX i ON t (a COLLATE NOCASE, b)",
        "CREATE VIEW v (x, y) AS SELECT a, b FROM t",
        "CREATE TRIGGER g AFTER UPDATE OF a, b ON t FOR EACH ROW WHEN NEW.a > 1 BEGIN DELETE FROM t; SELECT RAISE(ABORT, 'no'); END;",
        "CREATE TRIGGER g INSTEAD OF INSERT ON v BEGIN UPDATE t SET a = 1, b = 2 WHERE c; END",
    ];
    assert!(rt; all_are_read(rt.alloc(), &forms));
}

const SPACED: &str =
    " create table \"a\"\"b\" (c DEFAULT - 9223372036854775808, d DEFAULT 'it''s''') ; -- end";

const KEPT: &str = "create table \"a\"\"b\" (c DEFAULT - 9223372036854775808, d DEFAULT 'it''s''')";

#[test]
fn names_and_literals_are_decoded(rt: HostRuntime) {
    assert!(rt; decodes(rt.alloc(), SPACED));
}

fn decodes(alloc: Global, text: &str) -> bool {
    let read = parse(alloc, text);
    let decodes = is_read_decoded(&read);
    drop(read);
    decodes
}

fn is_read_decoded(read: &R<Statement>) -> bool {
    match read {
        Ok(statement) => is_decoded(statement),
        Err(_) => false,
    }
}

fn is_decoded(statement: &Statement) -> bool {
    match statement {
        Statement::Create(create) => create.sql.as_str() == KEPT && is_table(&create.object),
        _ => false,
    }
}

fn is_table(object: &NewObject) -> bool {
    match object {
        NewObject::Table(table) => {
            table.name.as_str() == "a\"b" && are_columns(table.columns.as_slice())
        }
        _ => false,
    }
}

fn are_columns(columns: &[ColumnDefinition]) -> bool {
    match columns {
        [first, second] => is_least(first) && is_text(second),
        _ => false,
    }
}

fn is_least(column: &ColumnDefinition) -> bool {
    match column.rules.as_slice() {
        [ColumnRule::Default(Value::Int(n))] => *n == i64::MIN,
        _ => false,
    }
}

fn is_text(column: &ColumnDefinition) -> bool {
    match column.rules.as_slice() {
        [ColumnRule::Default(Value::Text(text))] => text.as_str() == "it's'",
        _ => false,
    }
}
