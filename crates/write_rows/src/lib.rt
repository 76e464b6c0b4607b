// "Each row goes into the unwritten rest of the lent slice": the rest of the slice is lent on to the row writer, which fills its start.
#![tactic(auto)]

ghost use Rattle.std.specs.Prelude.{◌++◌, ◌≡◌, ◌≤◌, IfSome, length};
ghost use Rattle.text.specs.Session.{decimal, row};
ghost use Rattle.text.specs.Tables.{name_at};
ghost use Rattle.names.specs.Stored.{table_in};
ghost use Rattle.text.specs.Bytes.{Text, bytes};
ghost use Rattle.write_bytes.specs.Writes.{PutsText, Writes};
ghost use Rattle.write_rows.specs.RestLaws.{after, start_of};

use names::Table;
use write_bytes::Writer;

// Where the bytes that are left start in a slice of n bytes: none where it is shorter, or something did not fit.
fn start(left: Option<usize>, n: usize) -> Option<usize>
    ensures value { result ≡ start_of left n }
    ensures bound { IfSome result (λ at. at ≤ n) }
{
    n.checked_sub(left?)
}

// What is left behind a row.
fn behind(left: Option<usize>, row: Option<usize>) -> Option<usize>
    ensures { result ≡ after left row }
{
    let len = row?;
    left?.checked_sub(len)
}

// What `put` puts, in the rest of the slice. A slice that is shorter than the room is not written: the text is only measured.
// That a closure can be called has to be said in each contract that takes one: no form is plainer.
fn put_rest<F: Fn(&mut Writer<'_>)>(writer: &mut Writer<'_>, put: F)
    requires callable { F.IsAlwaysCallable put }
    requires puts { (w : Text) × PutsText (F.post put) w }
    ensures { (w : Text) → PutsText (F.post put) w → Writes w writer.old writer.new }
{
    let Some(at) = start(writer.left, writer.out.len()) else {
        put(writer);
        return;
    };
    let len = write_bytes::write_whole(&mut writer.out[at..], put);
    writer.left = behind(writer.left, len);
}

// The row of an answer.
pub fn put_answer_row(writer: &mut Writer<'_>, i: usize, answer: usize)
    ensures { Writes (row i (decimal answer)) writer.old writer.new }
{
    put_rest(writer, |writer| writer.put_answer(i, answer));
}

// The row of a name, number k of a table.
pub fn put_name_row<const P: usize>(writer: &mut Writer<'_>, i: usize, table: &Table<P>, k: usize)
    ensures { Writes (row i (name_at (table_in table.now) k)) writer.old writer.new }
{
    let word = table.name(k);
    put_rest(writer, |writer| writer.put_name(i, word));
}

// The row of a component and a version.
pub fn put_pair_row(
    writer: &mut Writer<'_>,
    i: usize,
    comps: &Table<32>,
    vers: &Table<64>,
    c: usize,
    v: usize,
)
    ensures { Writes (row i (name_at (table_in comps.now) c ++ (bytes "," ++ name_at (table_in vers.now) v))) writer.old writer.new }
{
    let component = comps.name(c);
    let version = vers.name(v);
    put_rest(writer, |writer| writer.put_pair(i, component, version));
}
