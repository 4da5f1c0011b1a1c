//! A script, a table and their report, and depots with a script and a table.

use pay_edge::{MemoryDepot, NoMemory};
use std::alloc::Global;

/// A script of one event.
pub const SCRIPT: &str = "@2024-06-28 x = 100 opt pays spot() - x";

/// A table of two scenarios.
pub const TABLE: &str = "scenario,2024-06-28\nup,112.5\ndown,90\n";

/// The report of `SCRIPT` over `TABLE`.
pub const REPORT: &str =
    "scenario,date,leg,amount\nup,2024-06-28,opt,12.5\ndown,2024-06-28,opt,-10\n#nodes,12,,\n";

/// A depot with a script `s.pay` and a table `t.csv`.
pub fn depot_with(alloc: Global, script: &[u8], table: &[u8]) -> Result<MemoryDepot, NoMemory> {
    let mut depot = MemoryDepot::new(alloc);
    depot.add("s.pay", script)?;
    depot.add("t.csv", table)?;
    Ok(depot)
}
