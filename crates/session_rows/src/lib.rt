// The rows of a query put into the rest of a lent slice: numbers of a set, pairs (specs/Rows.antt). Which query is asked of the Book:
// specs/Asked.antt.
#![tactic(auto)]

ghost use Rattle.std.specs.Prelude.{◌≡◌, []};
ghost use Rattle.std.specs.Result.{result_ok};
ghost use Rattle.sets.specs.Sets.{bit};
ghost use Rattle.sets.specs.Tests.{if?◌then◌else◌};
ghost use Rattle.text.specs.Session.{decimal, lines, row};
ghost use Rattle.refusal.specs.Numbers.{code, number};
ghost use Rattle.text.specs.Tables.{name_at};
ghost use Rattle.names.specs.Stored.{table_in};
ghost use Rattle.write_bytes.specs.Writes.{Writes};
ghost use Rattle.session_rows.specs.Rows.{comes_of, listed_in, names_in, one_of, pair_in, pair_tables, pairs_in, rows_of};

use names::Table;
use refusal::Refusal;
use write_bytes::Writer;

// The row of a refusal.
pub fn put_refusal(writer: &mut Writer<'_>, i: usize, refusal: Refusal)
    ensures { Writes (row i (decimal (number refusal))) writer.old writer.new }
{
    write_rows::put_answer_row(writer, i, usize::from(refusal.number()));
}

// The row of an answer. It gives what was replied, where it is not refused.
pub fn put_answer<T: Copy>(
    writer: &mut Writer<'_>,
    i: usize,
    reply: Result<T, Refusal>,
) -> Option<T>
    ensures value { result ≡ result_ok reply }
    ensures puts { Writes (row i (decimal (code reply))) writer.old writer.new }
{
    write_rows::put_answer_row(writer, i, usize::from(refusal::code(reply.map(|_| ()))));
    reply.ok()
}

// ---- numbers

// The row of number k, if it is in the set.
fn put_if_member<const P: usize>(
    writer: &mut Writer<'_>,
    i: usize,
    names: &Table<P>,
    set: u64,
    k: usize,
)
    ensures { Writes (if? bit set k then row i (name_at (table_in names.now) k) else []) writer.old writer.new }
{
    if sets::member(set, k) {
        write_rows::put_name_row(writer, i, names, k);
    }
}

// The rows of the numbers of a set, rising.
fn put_set<const P: usize>(writer: &mut Writer<'_>, i: usize, names: &Table<P>, set: u64)
    ensures { Writes (rows_of i (names_in (table_in names.now) set)) writer.old writer.new }
{
    for k in 0..64 {
        put_if_member(writer, i, names, set, k);
    }
}

// The answer of a query for facilities or components. The three functions for a reply differ in the rows that they put: one of them with a
// closure for these would be no shorter.
pub fn put_numbers<const P: usize>(
    writer: &mut Writer<'_>,
    i: usize,
    names: &Table<P>,
    reply: Result<u64, Refusal>,
)
    ensures { Writes (lines i (comes_of (names_in (table_in names.now)) reply)) writer.old writer.new }
{
    if let Some(set) = put_answer(writer, i, reply) {
        put_set(writer, i, names, set);
    }
}

// The answer of a query for a version: as put_numbers, with a row of its own.
pub fn put_version(
    writer: &mut Writer<'_>,
    i: usize,
    vers: &Table<64>,
    reply: Result<usize, Refusal>,
)
    ensures { Writes (lines i (comes_of (one_of (table_in vers.now)) reply)) writer.old writer.new }
{
    if let Some(v) = put_answer(writer, i, reply) {
        write_rows::put_name_row(writer, i, vers, v);
    }
}

// ---- pairs

// The row of a pair, which is component × 64 + version, as the calls for "choice" and "parts" write it into a slice.
fn put_pair(writer: &mut Writer<'_>, i: usize, comps: &Table<32>, vers: &Table<64>, pair: u16)
    ensures { Writes (row i (pair_in (pair_tables comps.now vers.now) pair)) writer.old writer.new }
{
    let k = usize::from(pair);
    write_rows::put_pair_row(writer, i, comps, vers, k / 64, k % 64);
}

// The rows of pairs.
fn put_pairs(writer: &mut Writer<'_>, i: usize, comps: &Table<32>, vers: &Table<64>, pairs: &[u16])
    ensures { Writes (rows_of i (pairs_in (pair_tables comps.now vers.now) pairs.now)) writer.old writer.new }
{
    for &pair in pairs {
        put_pair(writer, i, comps, vers, pair);
    }
}

// The answer of a query for pairs: as put_numbers, with rows of its own.
pub fn put_listed(
    writer: &mut Writer<'_>,
    i: usize,
    comps: &Table<32>,
    vers: &Table<64>,
    reply: Result<&[u16], Refusal>,
)
    ensures { Writes (lines i (comes_of (listed_in (pair_tables comps.now vers.now)) reply.entry)) writer.old writer.new }
{
    if let Some(pairs) = put_answer(writer, i, reply) {
        put_pairs(writer, i, comps, vers, pairs);
    }
}
