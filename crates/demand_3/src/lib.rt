// The ten calls and the parts list as demand 3 speaks of them: each promises here what its own contract gives, and no more.
#![tactic(auto)]

ghost use Rattle.std.specs.Prelude.{◌≡◌, true};
ghost use Rattle.book.specs.Plain.{plain};
ghost use Rattle.model.specs.Book as model;
ghost use Rattle.book_rules.specs.Test as test;
ghost use Rattle.command_outcome.specs.Calls.{call_of, command_of};
ghost use Rattle.command_outcome.specs.Outcome.{Called};
ghost use Rattle.demand_3.specs.Demand.{PartsGiven};
ghost use Rattle.parts.specs.Listed.{depth_found, rows_found};
ghost use Rattle.refusal.specs.Numbers.{code};

use book::Book;
use parts::PartsList;
use refusal::Refusal;

// The call of a number. ADD-SPEC's standard version is v. The numbers and the slices are what a host in C hands in (bench_host).
pub fn call(
    book: &mut Book,
    kind: usize,
    c: usize,
    v: usize,
    i: usize,
    set: u64,
    usable: &[usize],
    versions: &[usize],
    implementations: &[usize],
    lengths: &[usize],
    members: &[usize],
    chosen: &[usize],
    required: &[u64],
) -> Result<(), Refusal>
    ensures { Called book.old.sets book.old.numbers
        (command_of (call_of kind c v i set usable.now versions.now implementations.now lengths.now
        members.now chosen.now required.now)) (code result) book.new.sets book.new.numbers }
{
    // the numbers are what a host in C hands in
    // The kind is a number, as a host in C hands it in.
    if kind == 0 {
        return commands::add_spec(book, c, set, versions, required, v);
    }
    if kind == 1 {
        return commands::add_mod(book, c, versions, implementations);
    }
    if kind == 2 {
        return commands::add_sys(book, c, usable, versions, lengths, members, chosen);
    }
    if kind == 3 {
        return commands::add_modvar(book, c, v, set, i);
    }
    if kind == 4 {
        return commands::add_sysvar(book, c, v, members, chosen);
    }
    if kind == 5 {
        return commands::del_spec(book, c);
    }
    if kind == 6 {
        return commands::del_mod(book, c);
    }
    if kind == 7 {
        return commands::del_sys(book, c);
    }
    if kind == 8 {
        return commands::del_modvar(book, c, v);
    }
    commands::del_sysvar(book, c, v)
}

// The parts list of a version, into a slice: what demand 3 says of a version that is stored in a Book that passes the test for 25. The slice
// is the caller's, as no call uses the heap, and the answer says how much of it is used.
pub fn listed(book: &Book, c: usize, v: usize, out: &mut [u16]) -> Result<PartsList, Refusal>
    ensures { test.passes book.now.sets book.now.numbers ≡ true → model.has_version (plain book.now).specs c v ≡ true
        → PartsGiven book.now.sets book.now.numbers c v out.old (code result) (rows_found result) (depth_found result) out.new }
{
    parts::parts(book, c, v, out)
}
