// The lowest name of a set: "by rising bytes of the name (a name before its extensions)".
#![tactic(auto)]

ghost use Rattle.std.specs.Prelude.{◌≡◌};
ghost use Rattle.sets.specs.Answered.{answered};
ghost use Rattle.sets.specs.Sets.{bit};
ghost use Rattle.names.specs.Stored.{table_in};
ghost use Rattle.write_bytes.specs.ByName.{first_with, first_by_name};

use names::Table;

// Of `best`, the first by name of the numbers above k, and k, if it is in the set, the first by name:
// "by rising bytes of the name (a name before its extensions)", which is the library's order of slices.
fn first_with<const P: usize>(
    table: &Table<P>,
    set: u64,
    k: usize,
    best: Option<usize>,
) -> Option<usize>
    ensures { answered result ≡ first_with (table_in table.now) (bit set) k (answered best) }
{
    if !sets::member(set, k) {
        return best;
    }
    let Some(b) = best else {
        return Some(k);
    };
    if table.name(k) < table.name(b) {
        return Some(k);
    }
    best
}

// The number of a set whose name is first.
pub fn first_by_name<const P: usize>(table: &Table<P>, set: u64) -> Option<usize>
    ensures { answered result ≡ first_by_name (table_in table.now) P (bit set) }
{
    let mut best = None;
    for k in (0..P).rev() {
        best = first_with(table, set, k, best);
    }
    best
}
