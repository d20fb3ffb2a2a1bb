//! Which triggers a change of rows sets off, and whether its names are known, and those of all programs that it can set off.
#![tactic(auto)]

mod choosing;
mod knowing;
mod needs;
mod programs;

ghost use Rattle.trigger_bind.specs.Knowing.{BindsAtSomeTime, IsInherited};

pub use choosing::set_off;
pub use knowing::know_change;
use trigger_names::programs_see_rows;

/// Where a change's names are known, and those of all programs that it can set off, the same holds of each statement of such a program,
/// beside NEW and OLD at each row.
pub fn programs_are_known()
    ensures inherited { IsInherited }
    ensures times { BindsAtSomeTime }
{
    programs_see_rows();
}
