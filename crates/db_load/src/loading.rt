//! Loading the tables, indexes, views and triggers of a database.

ghost use Rattle.std.specs.Prelude.{◌≡◌, ◌⊎◌, ℕ, IsTrue, Ok, IfOk, IfErr, OnOk, length};
ghost use Rattle.sqlval.specs.Faults.{IsNotDiskFault, IsOutside};
ghost use Rattle.sqlval.specs.PageSizes.{IsPageSize};
ghost use Rattle.pages.specs.Calls.{Stays};
ghost use Rattle.pages.specs.Map.{PageMap, AreWhole};
ghost use Rattle.catalog.specs.Database.{Database};
ghost use Rattle.catalog.specs.Listed.{Listed};
ghost use Rattle.tree_check.specs.Checks.{CanMark};
ghost use Rattle.tree_check.specs.Exact.{AreTold};
ghost use Rattle.db_pages.specs.Stored.{IsCounted, Stores};
ghost use Rattle.db_load.specs.Loading.{FindsDatabase, IsLoadFault};
ghost use Rattle.db_load.specs.Uses.{AreAllMarked, LoadsAll, LoadsUses};

use crate::first::read_header;
use crate::tables::check_tables;
use crate::tree::load_schema;
use crate::whole::check_whole;
use catalog::{Catalog, listed_tables_are_a_database};
use db_header::Header;
use pages::Pages;
use sqlval::{Damage, Fault, R};
use std::alloc::Global;
use tree_check::{are_all_marked, check_freelist, check_tree};

/// The refusal of the first page that isn't marked.
fn unused(marks: &[bool]) -> Fault
    ensures { IsNotDiskFault result }
{
    'pages: for place in 1..marks.len() {
        if !marks[place] {
            return Fault::Damaged(Damage::Unused, u32::try_from(place).unwrap_or(0));
        }
    }
    Fault::Damaged(Damage::Unused, 0)
}

/// Checks that each page is marked, from page 1 on. (`Damaged(Unused, page)` with the first that isn't.)
fn check_marks(marks: &[bool]) -> R<()>
    ensures found { OnOk result (AreAllMarked marks.now) }
    ensures only { AreAllMarked marks.now → result ≡ Ok tt }
    ensures not_disk { IfErr result IsNotDiskFault }
{
    if !are_all_marked(marks) {
        return Err(unused(marks));
    }
    Ok(())
}

/// Loads what a database of `size` pages lists, checks all trees and the freelist that the header tells, and marks their pages.
/// (What `check_tree`, `load_schema`, `check_tables` and `check_freelist` refuse.)
fn load_uses<P: Pages>(
    alloc: Global,
    pages: &mut P,
    size: u32,
    header: Header,
    marks: &mut Vec<bool>,
) -> R<Catalog>
    ensures loaded { (map : PageMap) (page : ℕ)
        → AreTold P.Pages.below P.Pages.tells P.Pages.limits P.Pages.map pages.old map page
        → CanMark map page marks.old.items
        → size ≡ length map → LoadsUses map page header marks.old.items marks.new.items result }
    ensures long { length marks.new.items ≡ length marks.old.items }
    ensures stays { Stays P.Pages.below P.Pages.map P.Pages.count P.Pages.failures result pages.old pages.new }
{
    check_tree(alloc, pages, 1, marks)?;
    let catalog = load_schema(alloc, pages, size)?;
    check_tables(alloc, pages, catalog.tables(), marks)?;
    check_freelist(pages, header.freelist_trunk, header.freelist_count, marks)?;
    Ok(catalog)
}

/// Loads what a database of `size` pages with this header lists, and checks that each page is used once. (What `load_uses` and
/// `check_marks` refuse.)
fn load_marked<P: Pages>(alloc: Global, pages: &mut P, size: u32, header: Header) -> R<Catalog>
    ensures loaded { (map : PageMap) (page : ℕ)
        → AreTold P.Pages.below P.Pages.tells P.Pages.limits P.Pages.map pages.old map page
        → AreWhole page map
        → IsPageSize page → size ≡ length map → LoadsAll map page header result }
    ensures stays { Stays P.Pages.below P.Pages.map P.Pages.count P.Pages.failures result pages.old pages.new }
{
    let mut marks = vec![in alloc; false; size as usize + 1]?;
    let catalog = load_uses(alloc, pages, size, header, &mut marks)?;
    check_marks(&marks)?;
    Ok(catalog)
}

/// What the database that the pages hold lists. (What `check_whole`, `read_header` and `load_marked` refuse.)
fn load_checked<P: Pages>(alloc: Global, pages: &mut P, size: u32) -> R<Catalog>
    ensures listed { (l : Listed) (database : Database)
        → IsTrue (P.Pages.tells (P.Pages.below pages.old))
        → size ≡ length (P.Pages.map pages.old)
        → Stores (P.Pages.map pages.old) (P.Pages.limits (P.Pages.below pages.old)).page l database
        → IsCounted (P.Pages.map pages.old) → IfErr result IsOutside }
    ensures found { IsTrue (P.Pages.tells (P.Pages.below pages.old))
        → size ≡ length (P.Pages.map pages.old)
        → IfOk result (FindsDatabase (P.Pages.map pages.old) (P.Pages.limits (P.Pages.below pages.old)).page) }
    ensures stays { Stays P.Pages.below P.Pages.map P.Pages.count P.Pages.failures result pages.old pages.new }
{
    listed_tables_are_a_database();
    check_whole(pages, size)?;
    let header = read_header(pages, size)?;
    load_marked(alloc, pages, size, header)
}

/// The fault, with `Damaged(Header, 1)` in the place of one that says nothing of files.
fn load_fault(fault: Fault) -> Fault
    ensures outside { IsOutside fault → result ≡ fault }
    ensures same { (result ≡ fault) ⊎ IsNotDiskFault result }
    ensures listed { IsLoadFault result }
{
    match fault {
        Fault::Memory | Fault::Io | Fault::NotADatabase => fault,
        Fault::Unsupported(_) | Fault::Damaged(_, _) => fault,
        _ => Fault::Damaged(Damage::Header, 1),
    }
}

/// The tables, indexes, views and triggers of the database that the pages hold. (`Damaged` or `Unsupported` for pages that hold none; `Memory`;
/// `NotADatabase`, `Io`.)
pub fn load<P: Pages>(alloc: Global, pages: &mut P, size: u32) -> R<Catalog>
    // What pages that hold a database list is loaded, unless memory runs out or a disk's call fails.
    ensures listed { (l : Listed) (database : Database)
        → IsTrue (P.Pages.tells (P.Pages.below pages.old))
        → size ≡ length (P.Pages.map pages.old)
        → Stores (P.Pages.map pages.old) (P.Pages.limits (P.Pages.below pages.old)).page l database
        → IsCounted (P.Pages.map pages.old) → IfErr result IsOutside }
    // A catalog is loaded only of a database that the pages hold.
    ensures found { IsTrue (P.Pages.tells (P.Pages.below pages.old))
        → size ≡ length (P.Pages.map pages.old)
        → IfOk result (FindsDatabase (P.Pages.map pages.old) (P.Pages.limits (P.Pages.below pages.old)).page) }
    ensures stays { Stays P.Pages.below P.Pages.map P.Pages.count P.Pages.failures result pages.old pages.new }
    ensures refused { IfErr result IsLoadFault }
{
    match load_checked(alloc, pages, size) {
        Ok(catalog) => Ok(catalog),
        Err(fault) => Err(load_fault(fault)),
    }
}
