// Who visits each zone, and at which step, as tables.
#![tactic(auto)]

ghost use Rattle.sheet_table.specs.inner.Parts.{steps, zone};
ghost use Rattle.planner_visiting.specs.inner.Visiting.{RoutesOnce, Places};

use sheet_table::Table;

// For each zone and cart where the cart's step in the zone stands.
// Never inlined: its own table would stay on the stack below every trial.
#[inline(never)]
pub fn visit_places(sheet: &Table) -> [u8; 384]
    requires { RoutesOnce (steps sheet.now) (zone sheet.now) }
    ensures { Places (steps sheet.now) (zone sheet.now) result }
{
    let mut visit = [0u8; 384];
    for c in 0..16 {
        for j in 0..sheet.steps(c) {
            let x = 8 * c + j;
            let z = sheet.zone(x);
            visit[16 * z + c] = x as u8;
        }
    }
    visit
}
