//! The header at the front of page 1.

ghost use Rattle.std.specs.Prelude.{◌≡◌, ℕ, Ok, IfOk, IfErr, MatchResult};
ghost use Rattle.sqlval.specs.Faults.{IsNotDiskFault, IsOutside};
ghost use Rattle.db_header.specs.Header.{IsHeader};
ghost use Rattle.db_header.specs.declared.fields.Header.{Header as Told};
ghost use Rattle.pages.specs.Calls.{Stays};
ghost use Rattle.pages.specs.Map.{PageMap, IsThere, page_at};
ghost use Rattle.tree_check.specs.Exact.{AreTold};
ghost use Rattle.db_load.specs.Uses.{IsFirstHeader};

use db_header::{Header, read};
use pages::Pages;
use sqlval::{Damage, Fault, R};

/// The header at the front of a page 1. (As `read` of `db_header`.)
fn header_of(page: &[u8]) -> R<Header>
    ensures found { IfOk result (λ header. IsHeader page.now header) }
    ensures only { (header : Told) → IsHeader page.now header → result ≡ Ok header }
    ensures not_disk { IfErr result IsNotDiskFault }
{
    read(page)
}

/// The header at the front of page 1 of a database of `size` pages of `page_size` bytes. (As `header_of`; `Damaged(Header, 1)` for
/// another page size, `Damaged(Size, 1)` for another number of pages.)
fn header_in(page: &[u8], page_size: usize, size: u32) -> R<Header>
    ensures found { IfOk result (IsFirstHeader page.now page_size size) }
    ensures only { (header : Told) → IsFirstHeader page.now page_size size header
        → result ≡ Ok header }
    ensures not_disk { IfErr result IsNotDiskFault }
{
    let header = header_of(page)?;
    if header.page_size as usize != page_size {
        return Err(Fault::Damaged(Damage::Header, 1));
    }
    match header.counted_size() {
        Some(counted) if counted != size => Err(Fault::Damaged(Damage::Size, 1)),
        _ => Ok(header),
    }
}

/// The header at the front of page 1 of a database of `size` pages. (As `header_in`; what `load` refuses.)
pub(crate) fn read_header<P: Pages>(pages: &mut P, size: u32) -> R<Header>
    ensures found { (map : PageMap) (page : ℕ)
        → AreTold P.Pages.below P.Pages.tells P.Pages.limits P.Pages.map pages.old map page
        → IfOk result (IsFirstHeader (page_at map 1) page size) }
    ensures only { (map : PageMap) (page : ℕ) (header : Told)
        → AreTold P.Pages.below P.Pages.tells P.Pages.limits P.Pages.map pages.old map page
        → IsThere map page 1 → IsFirstHeader (page_at map 1) page size header
        → MatchResult result (λ read. read ≡ header) IsOutside }
    ensures stays { Stays P.Pages.below P.Pages.map P.Pages.count P.Pages.failures result pages.old pages.new }
{
    pages.load(1)?;
    header_in(pages.loaded(), pages.page_size(), size)
}
