ghost use Rattle.std.specs.Prelude.{◌≡◌, true};
ghost use Rattle.lines.specs.Closes.{closes};

use crate::filled::Tables;

mod declare;

// Tables that keep the mark rule, the ladder rule and the ranges of every reference, with room for all that a domain may hold.
// A ghost field and no Model: whoever holds a domain has to see the law of its tables.
#[derive(Drop)]
pub struct LawfulTables {
    pub tables: Tables,
    ghost ok: { closes tables ≡ true },
}
