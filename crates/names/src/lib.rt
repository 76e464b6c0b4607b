// The names of what a session holds.
#![tactic(auto)]

ghost use Rattle.std.specs.Prelude.{◌≡◌};
ghost use Rattle.text.specs.Tables.{no_names};
ghost use Rattle.names.specs.Stored.{tables};

mod filled;
mod table;

pub use filled::Filled;
pub use table::Table;

// The four tables: 32 components, 64 versions, 64 facilities, 256 implementations.
#[derive(Clone, Copy)]
pub struct Names {
    pub comps: Table<32>,
    pub vers: Table<64>,
    pub facs: Table<64>,
    pub impls: Table<256>,
}

impl Names {
    // The tables of a fresh session.
    pub fn empty() -> Names
        ensures { tables result ≡ no_names }
    {
        Names {
            comps: Table::empty(),
            vers: Table::empty(),
            facs: Table::empty(),
            impls: Table::empty(),
        }
    }
}
