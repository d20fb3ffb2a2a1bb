//! The calls that begin and end a connection's transaction, and those of its savepoints.

ghost use Rattle.std.specs.Prelude.{◌≡◌, Err, IfErr, Ok, OnOk};
ghost use Rattle.sqlval.specs.declared.fault.Fault.TheVariants as fault;
ghost use Rattle.sql_syntax.specs.declared.statement.BeginMode.TheVariants.{Deferred, Immediate};
ghost use Rattle.sql_syntax.specs.declared.statement.Statement.TheVariants as statement;
ghost use Rattle.session.specs.ConnectionState.{first_refusal, has_failed_in};

use crate::transactions::Connections;
use disk::Disk;
use sql_syntax::BeginMode;
use sqlval::{Name, R};

impl<D: Disk + Drop> Connections<D> {
    ghost use Rattle.session.specs.Calls.{IsCallOf, IsRefusedOnly};
    ghost use Rattle.session.specs.Representation.{Switches};

    /// Makes a connection the present one. (What `check` refuses; an `Err` changes nothing.)
    fn turn_to(&mut self, connection: u32) -> R<()>
        ensures turned { OnOk result (Switches connection self.old self.new) }
        ensures free { OnOk result (first_refusal (has_failed_in self.old) connection ≡ Ok tt) }
        ensures refused { IfErr result (λ fault.
            (first_refusal (has_failed_in self.old) connection ≡ Err fault) × (self.new ≡ self.old)) }
    {
        self.check(connection)?;
        self.switch(connection);
        Ok(())
    }

    /// Begins a transaction. Its first query or write takes the newest snapshot. (What `check` refuses; `InTransaction`.)
    pub fn begin(&mut self, connection: u32) -> R<()>
        ensures call { IsCallOf (statement.Begin Deferred) self.old connection result self.new }
    {
        self.turn_to(connection)?;
        self.begin_here(BeginMode::Deferred)
    }

    /// Begins a transaction that has the newest snapshot and the write right. (What `check` refuses; `InTransaction`, `Busy`, `Memory`,
    /// `Io`.)
    pub fn begin_immediate(&mut self, connection: u32) -> R<()>
        ensures call { IsCallOf (statement.Begin Immediate) self.old connection result self.new }
    {
        self.turn_to(connection)?;
        self.begin_here(BeginMode::Immediate)
    }

    /// Commits a connection's transaction. After `Io` every call is refused. (What `check` refuses; `NoTransaction`, `Memory`, `Full`,
    /// `Io`.)
    pub fn commit(&mut self, connection: u32) -> R<()>
        ensures call { IsCallOf statement.Commit self.old connection result self.new }
    {
        self.turn_to(connection)?;
        self.commit_here()
    }

    /// Gives a connection's transaction up: takes no memory, and succeeds wherever there is one. (What `check` refuses; `NoTransaction`.)
    pub fn rollback(&mut self, connection: u32) -> R<()>
        ensures call { IsCallOf statement.Rollback self.old connection result self.new }
        ensures only { IsRefusedOnly fault.NoTransaction self.old connection result }
    {
        self.turn_to(connection)?;
        self.rollback_here()
    }

    /// Makes a savepoint. Outside a transaction it begins one. (What `check` refuses; `TooLong` for a 65th; `Memory`.)
    pub fn savepoint(&mut self, connection: u32, name: &Name) -> R<()>
        ensures call { IsCallOf (statement.Savepoint name.now) self.old connection result self.new }
    {
        self.turn_to(connection)?;
        self.savepoint_here(name)
    }

    /// Lets go of the newest savepoint of a name and of those made after it; the changes stay. The oldest one, where it began the
    /// transaction, commits it. (What `check` refuses; `NoSavepoint`; what `commit` refuses where it commits.)
    pub fn release(&mut self, connection: u32, name: &Name) -> R<()>
        ensures call { IsCallOf (statement.Release name.now) self.old connection result self.new }
    {
        self.turn_to(connection)?;
        self.release_here(name)
    }

    /// Goes back to the newest savepoint of a name, which stays: takes no memory, and succeeds wherever there is one. (What `check`
    /// refuses; `NoSavepoint`.)
    pub fn rollback_to(&mut self, connection: u32, name: &Name) -> R<()>
        ensures call { IsCallOf (statement.RollbackTo name.now) self.old connection result self.new }
        ensures only { IsRefusedOnly fault.NoSavepoint self.old connection result }
    {
        self.turn_to(connection)?;
        self.rollback_to_here(name)
    }
}
