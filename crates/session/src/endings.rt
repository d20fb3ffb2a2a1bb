//! The end of a transaction by RAISE(ROLLBACK).

ghost use Rattle.std.specs.Prelude.{◌≡◌};
ghost use Rattle.session.specs.Endings.{ends_transaction, without_end};

use crate::transactions::Connections;
use disk::Disk;
use sqlval::{Fault, RaisedText};

/// Whether a fault ends the transaction of its connection.
fn ends_transaction(fault: &Fault) -> bool
    ensures { result ≡ ends_transaction fault.now }
{
    match fault {
        Fault::Raised(raised) => raised.ends,
        _ => false,
    }
}

/// The fault as it is answered once its transaction has ended.
fn without_end(fault: Fault) -> Fault
    ensures { result ≡ without_end fault }
{
    match fault {
        Fault::Raised(raised) => Fault::Raised(RaisedText {
            text: raised.text,
            ends: false,
        }),
        other => other,
    }
}

impl<D: Disk + Drop> Connections<D> {
    ghost use Rattle.session.specs.Representation.{SettlesWhere};

    /// Gives the present connection's transaction up where the fault of its statement ends it. Answers the fault as the connection does.
    pub(crate) fn settle(&mut self, fault: Fault) -> Fault
        ensures { SettlesWhere (ends_transaction fault) fault self.old result self.new }
    {
        if ends_transaction(&fault) {
            self.give_up();
            return without_end(fault);
        }
        fault
    }
}
