//! The tables that a transaction sees, and its savepoints, each with the tables to which it goes back.

ghost use Rattle.std.specs.Prelude.{◌≡◌, ◌<◌, ◌≤◌, ◌-◌, ◌==◌, ◌&&◌, length, map, nat_lt, IfErr, IfNone, IfSome, None, OnOk, true, false};
ghost use Rattle.std.specs.List.{list_any};
ghost use Rattle.catalog.specs.Listed.{Listed, listed_in};
ghost use Rattle.sqlval.specs.Names.{is_same_name};
ghost use Rattle.sqlval.specs.declared.fault.Fault.TheVariants.{Memory};
ghost use Rattle.session.specs.SavedTables.{changed_to, tables_after, unchanged};

use catalog::Catalog;
use sqlval::{Name, R};
use std::alloc::Global;
use std::mem;
use std::rc::Rc;

/// The most savepoints of a transaction.
const MAX_SAVEPOINTS: usize = 64;

/// A savepoint.
#[derive(Drop)]
pub struct Savepoint {
    name: Name,
    /// The tables as they were changed after this savepoint and before the next; `None` where they weren't.
    changed: Option<Rc<Catalog>>,
}

impl Savepoint {
    ghost use Rattle.session.specs.SavedTables.{is_called};

    /// Whether this is its name, except for the case of letters.
    fn is_called(&self, name: &str) -> bool
        ensures { result ≡ is_called name.now self.now }
    {
        self.name.is_same(name)
    }
}

/// The tables that a connection's transaction found committed, those that it sees, and its savepoints.
#[derive(Drop)]
pub struct SavedCatalogs {
    /// Those of its snapshot. Before it has one they say nothing.
    committed: Rc<Catalog>,
    /// The tables as they were changed before the first savepoint; `None` where they weren't.
    changed: Option<Rc<Catalog>>,
    /// The newest last.
    savepoints: Vec<Savepoint>,
    /// Whether a SAVEPOINT began the transaction.
    began: bool,
}

impl SavedCatalogs {
    ghost use Rattle.session.specs.SavedTables.{AddsSavepoint, GoesBackTo, HasNoSavepoints, IsNewestNamed, IsUnchanged, KeepsTables, Rebases, ReleasesFrom, committed_in, current_in, first_in, names_in, savepoints_in};

    /// No transaction has changed the tables, and there is no savepoint.
    pub fn new(alloc: Global, committed: Rc<Catalog>) -> SavedCatalogs
        ensures current { current_in result ≡ listed_in committed.value }
        ensures committed { committed_in result ≡ listed_in committed.value }
        ensures none { HasNoSavepoints result }
    {
        SavedCatalogs {
            committed,
            changed: None,
            savepoints: Vec::new(alloc),
            began: false,
        }
    }

    /// The tables that the transaction sees.
    pub fn current(&self) -> &Catalog
        ensures { listed_in result.now ≡ current_in self.now }
    {
        match &self.changed {
            Some(changed) => latest(changed, &self.savepoints),
            None => latest(&self.committed, &self.savepoints),
        }
    }

    /// A transaction that has changed no table goes on from these, and so do its savepoints.
    pub fn rebase(&mut self, newest: Rc<Catalog>)
        ensures { Rebases (listed_in newest.value) self.old self.new }
    {
        self.committed = newest;
        self.changed = None;
        self.forget_changes();
    }

    /// The tables are those at the first savepoint again; the savepoints stay.
    fn forget_changes(&mut self)
        ensures items { self.new.savepoints.items ≡ map unchanged self.old.savepoints.items }
        ensures rest { (self.new.committed ≡ self.old.committed)
            × (self.new.changed ≡ self.old.changed) × (self.new.began ≡ self.old.began) }
    {
        'savepoints: for savepoint in self.savepoints.iter_mut() {
            savepoint.changed = None;
        }
    }

    /// The transaction sees these tables from now on. An `Err` changes nothing. (`Memory` alone.)
    pub fn change_to(&mut self, alloc: Global, tables: Catalog) -> R<()>
        ensures current { OnOk result (current_in self.new ≡ listed_in tables) }
        ensures committed { committed_in self.new ≡ committed_in self.old }
        ensures savepoints { savepoints_in self.new ≡ savepoints_in self.old }
        ensures refused { IfErr result (λ fault. (fault ≡ Memory) × (self.new ≡ self.old)) }
    {
        let shared = Rc::new(alloc, tables)?;
        self.change(shared);
        Ok(())
    }

    /// The transaction sees these tables from now on.
    fn change(&mut self, catalog: Rc<Catalog>)
        ensures current { current_in self.new ≡ listed_in catalog.value }
        ensures committed { committed_in self.new ≡ committed_in self.old }
        ensures savepoints { savepoints_in self.new ≡ savepoints_in self.old }
    {
        let count = self.savepoints.len();
        if count == 0 {
            self.changed = Some(catalog);
            return;
        }
        self.savepoints[count - 1].changed = Some(catalog);
    }

    /// Whether the transaction has as many savepoints as it may have.
    pub fn is_full(&self) -> bool
        ensures { result ≡ nat_lt 63 (length (savepoints_in self.now).points) }
    {
        self.count() >= MAX_SAVEPOINTS
    }

    /// Whether the savepoint at a place began the transaction.
    pub fn begins_at(&self, place: usize) -> bool
        ensures { result ≡ (place == 0 && (savepoints_in self.now).began) }
    {
        place == 0 && self.began
    }

    /// How many savepoints there are.
    pub fn count(&self) -> usize
        ensures { result ≡ length (savepoints_in self.now).points }
    {
        self.savepoints.len()
    }

    /// The place of the newest savepoint of a name.
    pub fn place_of(&self, name: &str) -> Option<usize>
        ensures found { IfSome result (λ place. IsNewestNamed name.now (names_in self.now) place) }
        ensures none { IfNone result (list_any (λ other. is_same_name other name.now)
            (names_in self.now) ≡ false) }
    {
        let mut place = self.savepoints.len();
        'places: while place > 0 {
            place -= 1;
            if self.savepoints[place].is_called(name) {
                return Some(place);
            }
        }
        None
    }

    /// Adds a savepoint to the transaction. An `Err` changes nothing. (`Memory` alone.)
    pub fn save(&mut self, name: Name) -> R<()>
        ensures saved { OnOk result (AddsSavepoint name (savepoints_in self.old).began self.old self.new) }
        ensures refused { IfErr result (λ fault. (fault ≡ Memory) × KeepsTables self.old self.new) }
    {
        self.savepoints.push(Savepoint {
            name,
            changed: None,
        })?;
        Ok(())
    }

    /// Adds the first savepoint, which begins the transaction. An `Err` changes nothing. (`Memory` alone.)
    pub fn begin(&mut self, name: Name) -> R<()>
        ensures saved { OnOk result (AddsSavepoint name true self.old self.new) }
        ensures refused { IfErr result (λ fault. (fault ≡ Memory) × KeepsTables self.old self.new) }
    {
        self.save(name)?;
        self.began = true;
        Ok(())
    }

    /// Goes back to a savepoint, which stays; those made after it are gone.
    pub fn back_to(&mut self, place: usize)
        ensures { place < length (savepoints_in self.old).points
            → GoesBackTo place self.old self.new }
    {
        if place >= self.savepoints.len() {
            return;
        }
        self.savepoints.truncate(place + 1);
        self.savepoints[place].changed = None;
    }

    /// Lets go of a savepoint and of those made after it; what the transaction sees stays.
    pub fn release(&mut self, place: usize)
        requires { place ≤ length (savepoints_in self.old).points }
        ensures { ReleasesFrom place self.old self.new }
    {
        'newest: while self.savepoints.len() > place {
            self.release_newest();
        }
    }

    /// Lets go of the newest savepoint.
    fn release_newest(&mut self)
        requires { 0 < length (savepoints_in self.old).points }
        ensures { ReleasesFrom (length (savepoints_in self.old).points - 1) self.old self.new }
    {
        if let Some(newest) = self.savepoints.pop() {
            let Savepoint { name: _, changed } = newest;
            self.join(changed);
        }
    }

    /// The transaction sees these tables from now on, where there are some.
    fn join(&mut self, changed: Option<Rc<Catalog>>)
        ensures current { current_in self.new ≡ changed_to (current_in self.old) changed }
        ensures committed { committed_in self.new ≡ committed_in self.old }
        ensures savepoints { savepoints_in self.new ≡ savepoints_in self.old }
    {
        if let Some(catalog) = changed {
            self.change(catalog);
        }
    }

    /// What the transaction sees are the newest tables, and its savepoints are gone. It keeps those that were the newest.
    pub fn commit(&mut self, newest: &mut Rc<Catalog>)
        ensures newest { listed_in newest.new.value ≡ current_in self.old }
        ensures unchanged { IsUnchanged self.new }
        ensures none { HasNoSavepoints self.new }
    {
        self.release(0);
        self.settle_changes();
        mem::swap(&mut self.committed, newest);
        self.began = false;
    }

    /// The tables that were changed before the first savepoint are those that the transaction goes on from.
    fn settle_changes(&mut self)
        ensures committed { committed_in self.new ≡ first_in self.old }
        ensures unchanged { self.new.changed ≡ None }
        ensures savepoints { self.new.savepoints ≡ self.old.savepoints }
    {
        if let Some(changed) = self.changed.take() {
            self.committed = changed;
        }
    }

    /// What the transaction has made and dropped is given up, with its savepoints.
    pub fn rollback(&mut self)
        ensures current { current_in self.new ≡ committed_in self.old }
        ensures committed { committed_in self.new ≡ committed_in self.old }
        ensures none { HasNoSavepoints self.new }
    {
        self.savepoints.clear();
        self.changed = None;
        self.began = false;
    }
}

/// The tables after the changes of these savepoints.
fn latest<'a>(before: &'a Catalog, savepoints: &'a [Savepoint]) -> &'a Catalog
    ensures { listed_in result.now ≡ tables_after (listed_in before.now) savepoints.now }
{
    let mut latest = before;
    'parts: for savepoint in savepoints {
        if let Some(changed) = &savepoint.changed {
            latest = changed;
        }
    }
    latest
}
