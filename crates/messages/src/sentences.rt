//! The sentences. Each begins in small letters and has no stop at its end, as the messages of SQLite do.

use sqlval::{Damage, Fault, Feature, Misuse, Object};

/// What of a file or a statement isn't supported.
fn unsupported(feature: Feature) -> &'static str {
    match feature {
        Feature::Float => "a real number in the file isn't supported",
        Feature::RealColumn => "a column of type REAL, FLOAT or DOUBLE isn't supported",
        Feature::PageSize => "the page size isn't a power of two from 512 to 65536",
        Feature::FileVersion => {
            "the database file isn't in WAL mode: convert it first, as walsql --convert does"
        }
        Feature::ReservedBytes => "reserved bytes at the end of pages aren't supported",
        Feature::SchemaFormat => "a schema format other than 4 isn't supported",
        Feature::Encoding => "a text encoding other than UTF-8 isn't supported",
        Feature::AutoVacuum => "a file with auto-vacuum isn't supported",
        Feature::LogFormat => "the log has another format number than 3007000",
        Feature::PageKind => "a page of the file is of a kind that isn't supported",
        Feature::ColumnCount => "a row of the file has more or fewer values than columns",
        Feature::SchemaObject => "an object of the schema has a form that isn't supported",
        Feature::Limit => "a value or a number in the file is past a limit",
        Feature::Statement => "this statement isn't supported",
        Feature::StatementForm => "this form of the statement isn't supported",
        Feature::Connection => "this connection isn't supported",
    }
}

/// What of a file is damaged. The page follows.
fn damaged(damage: Damage) -> &'static str {
    match damage {
        Damage::Header => "the file is damaged: its header",
        Damage::Size => "the file is damaged: the number of its pages",
        Damage::Page => "the file is damaged: a page of a tree",
        Damage::Cell => "the file is damaged: a cell of a page",
        Damage::FreeSpace => "the file is damaged: the free space of a page",
        Damage::Record => "the file is damaged: a record",
        Damage::Order => "the file is damaged: the order of rows or entries",
        Damage::Depth => "the file is damaged: the depth of a tree",
        Damage::UsedTwice => "the file is damaged: a page is used twice",
        Damage::Unused => "the file is damaged: a page is used by nothing",
        Damage::Freelist => "the file is damaged: the list of free pages",
        Damage::Schema => "the file is damaged: a row of the schema table",
        Damage::Index => "the file is damaged: the entries of an index aren't those of its table",
    }
}

/// What is missing. Its name follows.
fn missing(object: Object) -> &'static str {
    match object {
        Object::Table => "no such table: ",
        Object::Column => "no such column: ",
        Object::Index => "no such index: ",
        Object::View => "no such view: ",
        Object::Trigger => "no such trigger: ",
        Object::Function => "no such function: ",
        Object::Collation => "no such collation: ",
    }
}

/// What isn't allowed.
fn misused(misuse: Misuse) -> &'static str {
    match misuse {
        Misuse::Connection => "the connection's number isn't from 1 to 16",
        Misuse::InputLine => "the input isn't a connection's number and a statement in UTF-8",
        Misuse::NotBlank => "the database file isn't blank",
        Misuse::DoubledColumn => "a column stands twice in a list of columns",
        Misuse::DoubledKey => "a table has two primary keys, or two keys of the same columns",
        Misuse::ReservedName => "a name may not begin with sqlite_",
        Misuse::Autoindex => "an index that belongs to a key can't be dropped",
        Misuse::Count => "the number of values, columns or arguments is wrong",
        Misuse::Star => "* may not stand here",
        Misuse::Aggregate => "an aggregate may not stand here",
        Misuse::Ungrouped => "a column stands outside the aggregates and the grouped expressions",
        Misuse::OrderBy => "an ORDER BY term names no result",
        Misuse::Raise => "RAISE stands outside a trigger",
        Misuse::TriggerTime => "BEFORE and AFTER are for tables, INSTEAD OF is for views",
        Misuse::ViewInItself => "a view uses itself",
        Misuse::LogNotEmpty => "the log isn't empty, and the database file isn't in WAL mode",
    }
}

/// The sentence of a refusal, which ends where what it speaks of follows.
pub fn sentence(fault: &Fault) -> &'static str {
    match fault {
        Fault::Memory => "out of memory",
        Fault::Io => "a call of the file failed",
        Fault::NotADatabase => "the file isn't a database",
        Fault::Unsupported(feature) => unsupported(*feature),
        Fault::Damaged(damage, _) => damaged(*damage),
        Fault::Full => "the database or its log is full",
        Fault::Syntax(_) => "syntax error at byte ",
        Fault::NoSuch(object, _) => missing(*object),
        Fault::Exists(_) => "there is a table, an index, a view or a trigger of this name: ",
        Fault::Ambiguous(_) => "ambiguous column name: ",
        Fault::Misuse(misuse) => misused(*misuse),
        Fault::Busy => "another connection is writing",
        Fault::StaleSnapshot => "another connection has committed since this transaction began",
        Fault::NoTransaction => "no transaction is active",
        Fault::InTransaction => "a transaction is active",
        Fault::NoSavepoint => "no such savepoint",
        Fault::NotNull => "NOT NULL constraint failed",
        Fault::Unique => "UNIQUE constraint failed",
        Fault::Check => "CHECK constraint failed",
        Fault::Raised(_) => "raised by a trigger: ",
        Fault::RealRefused => "a real number, or a whole number outside 64 bits, isn't supported",
        Fault::TypeRefused => "a text or a blob stands where another type is wanted",
        Fault::RowidFull => "the greatest rowid is taken",
        Fault::RowidMismatch => "an INTEGER PRIMARY KEY has to be an integer",
        Fault::TooLong => "the statement, an expression or a value is past a limit",
        Fault::RowChangedBefore => "a BEFORE trigger changed or removed the row",
        Fault::ViewReadOnly => "a view can't be changed without an INSTEAD OF trigger",
        Fault::Failed => "an earlier commit or checkpoint failed: open the database again",
        Fault::Blank => "the database file is blank",
        Fault::Journal => "a rollback journal lies beside the database file",
    }
}
