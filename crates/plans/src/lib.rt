// Which calls the tests make, how they damage a sound table, which files they load, and at which lengths they lend
// memory.
#![tactic(auto)]

pub mod bytes;
pub mod changes;
mod charges;
mod charging;
pub mod edges;
pub mod files;
pub mod groups;
mod hexes;
pub mod lengths;
pub mod planned;
mod rosters;
pub mod written;
