// A list by name.
ghost use Rattle.std.specs.Prelude.{◌≡◌, true, ℕ, map};
ghost use Rattle.std.specs.Borrow.{MutBor};
ghost use Rattle.sets.specs.Sets.{bit};
ghost use Rattle.text.specs.Bytes.{Text};
ghost use Rattle.text.specs.Written.{by_name};
ghost use Rattle.names.specs.Stored.{table_in};
ghost use Rattle.write_bytes.specs.Writes.{PutsEach, Writes};
ghost use Rattle.write_bytes.specs.declared.writer.Writer.{Writer};
ghost use Rattle.write_version.specs.Pieces.{led_by};

use names::Table;
use write_bytes::Writer;

// What `put` puts of each number of a set, by name: `first` before the first of them, `between` between each two.
pub fn put_listed<const P: usize, F: Fn(&mut Writer<'_>, usize)>(
    writer: &mut Writer<'_>,
    first: &[u8],
    between: &[u8],
    table: &Table<P>,
    set: u64,
    put: F,
)
    requires { (w : MutBor Writer) (k : ℕ) → bit set k ≡ true → F.pre put w k }
    ensures { (f : ℕ → Text) → PutsEach (F.post put) (bit set) f
        → Writes (led_by first.now between.now (map f (by_name (table_in table.now) P (bit set)))) writer.old writer.new }
{
    let mut before = first;
    let mut rest = set;
    while let Some(k) = write_order::first_by_name(table, rest) {
        writer.put(before);
        put(writer, k);
        before = between;
        rest = sets::without(rest, k);
    }
}
