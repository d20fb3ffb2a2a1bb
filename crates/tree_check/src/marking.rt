//! The marks of pages.

ghost use Rattle.std.specs.Prelude.{◌≡◌, suc, length, IfErr};
ghost use Rattle.sqlval.specs.Faults.{IsNotDiskFault};
ghost use Rattle.pages.specs.Map.{PageMap};
ghost use Rattle.tree_check.specs.Exact.{Checks, IsThisPage, alone};

use sqlval::{Damage, Fault, R};

/// Marks a page that wasn't marked. (`Damaged(UsedTwice, page)` for one that was; `Damaged(Size, page)` for a number that is none of
/// a page.)
pub(crate) fn mark(marks: &mut Vec<bool>, page: u32) -> R<()>
    ensures checked { (map : PageMap) → length marks.old.items ≡ suc (length map)
        → Checks (IsThisPage map page) alone marks.old.items marks.new.items result }
    ensures long { length marks.new.items ≡ length marks.old.items }
    ensures not_disk { IfErr result IsNotDiskFault }
{
    let at = page as usize;
    if at == 0 || at >= marks.len() {
        return Err(Fault::Damaged(Damage::Size, page));
    }
    if marks[at] {
        return Err(Fault::Damaged(Damage::UsedTwice, page));
    }
    marks[at] = true;
    Ok(())
}
