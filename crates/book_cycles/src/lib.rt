// B4: no system reaches itself through usable components.
#![tactic(auto)]

ghost use Rattle.std.specs.Prelude.{◌≡◌, ◌<◌, ◌+◌};
ghost use Rattle.sets.specs.Sets.{bit};
ghost use Rattle.model.specs.Rules.{B4};
ghost use Rattle.book.specs.Plain.{plain};
ghost use Rattle.book_cycles.specs.Closure.{Rows, join_of};

use book::Book;
use book_rules::each_component;

// The set a, with those of row where a has k.
#[tactic(auto, using(crate::specs::Closure::join_yes, crate::specs::Closure::join_no))]
fn join(a: u64, k: usize, row: u64) -> u64
    ensures { bit result ≡ join_of (bit a) k (bit row) }
{
    if sets::member(a, k) {
        return sets::union(a, row);
    }
    a
}

// Each row with what it reaches by way of k. A row has an index: a bound on a number is plainer than a type for it.
fn pass(book: &Book, reach: [u64; 32], k: usize) -> [u64; 32]
    requires k_bound { k < 32 }
    requires rows { Rows (plain book.now).systems k reach }
    ensures { Rows (plain book.now).systems (k + 1) result }
{
    each_component(|c| join(reach[c], k, reach[k]))
}

// What each component reaches through usable components.
pub fn closure(book: &Book) -> [u64; 32]
    ensures { Rows (plain book.now).systems 32 result }
{
    let mut reach = each_component(|c| book.usable(c));
    for k in 0..32 {
        let next = pass(book, reach, k);
        reach = next;
    }
    reach
}

// B4
pub fn b4(book: &Book) -> bool
    ensures { result ≡ B4 (plain book.now).systems }
{
    let reach = closure(book);
    sets::all(32, |s| !book.is_system(s) || !sets::member(reach[s], s))
}
