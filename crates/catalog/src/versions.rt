//! Catalogs with an object more, or less, which share the others.

ghost use Rattle.std.specs.Prelude.{◌≡◌, IfOk, IfErr};
ghost use Rattle.std.specs.List.{insert};
ghost use Rattle.catalog.specs.Listed as listed;
ghost use Rattle.catalog.specs.Named as named;
ghost use Rattle.catalog.specs.NewIndexes as indexes;
ghost use Rattle.catalog.specs.NewViews as views;

use crate::by_name::Tables;
use crate::handles::{handles_copy, triggers_elsewhere};
use crate::tables::{Catalog, Table, Trigger, View};
use sqlval::{Fault, Name, R};
use std::alloc::Global;
use std::rc::Rc;

impl Catalog {
    /// A catalog with one view more, after the others. (`Memory` alone.)
    pub fn with_view(&self, alloc: Global, view: View) -> R<Catalog>
        ensures added { IfOk result (λ catalog. listed.listed_in catalog ≡ views.with_view view (listed.listed_in self.now)) }
        ensures refused { IfErr result (λ fault. fault ≡ Fault.Memory) }
    {
        let mut views = handles_copy(alloc, self.views.as_slice())?;
        views.push(Rc::new(alloc, view)?)?;
        let triggers = handles_copy(alloc, self.triggers.as_slice())?;
        self.of_treeless(alloc, views, triggers)
    }

    /// A catalog without the views of this name and their triggers. (`Memory` alone.)
    pub fn without_view(&self, alloc: Global, name: &Name) -> R<Catalog>
        ensures left { IfOk result (λ catalog. listed.listed_in catalog ≡ views.less_view name.now (listed.listed_in self.now)) }
        ensures refused { IfErr result (λ fault. fault ≡ Fault.Memory) }
    {
        let mut views = Vec::new(alloc);
        'views: for view in self.views.as_slice() {
            if !view.definition.name.is_same(name.as_str()) {
                views.push(view.clone()?)?;
            }
        }
        let triggers = triggers_elsewhere(alloc, self.triggers.as_slice(), name)?;
        self.of_treeless(alloc, views, triggers)
    }

    /// A catalog with one trigger more, after the others. (`Memory` alone.)
    pub fn with_trigger(&self, alloc: Global, trigger: Trigger) -> R<Catalog>
        ensures added { IfOk result (λ catalog. listed.listed_in catalog ≡ views.with_trigger trigger (listed.listed_in self.now)) }
        ensures refused { IfErr result (λ fault. fault ≡ Fault.Memory) }
    {
        let mut triggers = handles_copy(alloc, self.triggers.as_slice())?;
        triggers.push(Rc::new(alloc, trigger)?)?;
        let views = handles_copy(alloc, self.views.as_slice())?;
        self.of_treeless(alloc, views, triggers)
    }

    /// A catalog without the triggers of this name. (`Memory` alone.)
    pub fn without_trigger(&self, alloc: Global, name: &str) -> R<Catalog>
        ensures left { IfOk result (λ catalog. listed.listed_in catalog ≡ views.less_trigger name.now (listed.listed_in self.now)) }
        ensures refused { IfErr result (λ fault. fault ≡ Fault.Memory) }
    {
        let mut triggers = Vec::new(alloc);
        'triggers: for trigger in self.triggers.as_slice() {
            if !trigger.definition.name.is_same(name) {
                triggers.push(trigger.clone()?)?;
            }
        }
        let views = handles_copy(alloc, self.views.as_slice())?;
        self.of_treeless(alloc, views, triggers)
    }

    /// A catalog of the same tables and one more, before which stand as many as `place` says. (`Memory` alone.)
    pub fn with(&self, alloc: Global, place: usize, table: Table) -> R<Catalog>
        ensures added { IfOk result (λ catalog. listed.listed_in catalog
            ≡ record (listed.listed_in self.now) { tables = insert (listed.tables_of self.now) place table }) }
        ensures refused { IfErr result (λ fault. fault ≡ Fault.Memory) }
    {
        let mut tables = self.tables.copy(alloc)?;
        tables.put(alloc, place, Rc::new(alloc, table)?)?;
        self.of_tables(alloc, tables)
    }

    /// A catalog with this table in place of those of its name. (`Memory` alone.)
    pub fn replacing(&self, alloc: Global, table: Table) -> R<Catalog>
        ensures replaced { IfOk result (λ catalog. listed.listed_in catalog
            ≡ indexes.replacing table (listed.listed_in self.now)) }
        ensures refused { IfErr result (λ fault. fault ≡ Fault.Memory) }
    {
        let new = Rc::new(alloc, table)?;
        let tables = self.tables.replacing(alloc, &new)?;
        self.of_tables(alloc, tables)
    }

    /// A catalog without the tables of this name and their triggers. (`Memory` alone.)
    pub fn without(&self, alloc: Global, name: &Name) -> R<Catalog>
        ensures left { IfOk result (λ catalog. listed.listed_in catalog ≡ named.less_table name.now (listed.listed_in self.now)) }
        ensures refused { IfErr result (λ fault. fault ≡ Fault.Memory) }
    {
        let tables = self.tables.without(alloc, name.as_str())?;
        let views = handles_copy(alloc, self.views.as_slice())?;
        let triggers = triggers_elsewhere(alloc, self.triggers.as_slice(), name)?;
        Ok(Catalog {
            tables,
            views,
            triggers,
        })
    }

    /// A catalog of these views and triggers, with the tables of this one. (`Memory` alone.)
    fn of_treeless(
        &self,
        alloc: Global,
        views: Vec<Rc<View>>,
        triggers: Vec<Rc<Trigger>>,
    ) -> R<Catalog>
        ensures of { IfOk result (λ catalog. listed.listed_in catalog
            ≡ record (listed.listed_in self.now) { views = listed.shared views.items; triggers = listed.shared triggers.items }) }
        ensures refused { IfErr result (λ fault. fault ≡ Fault.Memory) }
    {
        let tables = self.tables.copy(alloc)?;
        Ok(Catalog {
            tables,
            views,
            triggers,
        })
    }

    /// A catalog of these tables, with the views and triggers of this one. (`Memory` alone.)
    fn of_tables(&self, alloc: Global, tables: Tables) -> R<Catalog>
        ensures of { IfOk result (λ catalog. listed.listed_in catalog
            ≡ record (listed.listed_in self.now) { tables = tables }) }
        ensures refused { IfErr result (λ fault. fault ≡ Fault.Memory) }
    {
        let views = handles_copy(alloc, self.views.as_slice())?;
        let triggers = handles_copy(alloc, self.triggers.as_slice())?;
        Ok(Catalog {
            tables,
            views,
            triggers,
        })
    }
}
