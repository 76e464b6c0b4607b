// The parts of a line of a book's text: names that commas part, a version of a spec, of a module and of a system.
#![tactic(auto)]

ghost use Rattle.std.specs.Prelude.{◌≡◌, true, []};
ghost use Rattle.sets.specs.Sets.{bit};
ghost use Rattle.sets.specs.Tests.{if?◌then◌else◌};
ghost use Rattle.text.specs.Tables.{name_at};
ghost use Rattle.names.specs.Stored.{table_in, tables};
ghost use Rattle.write_bytes.specs.Writes.{Writes};
ghost use Rattle.write_version.specs.Pieces.{names_led, names_of, required_text, spec_version, mod_version, member_text, sys_version};
ghost use Rattle.model.specs.Book.{is_member};
ghost use Rattle.book.specs.Plain.{plain};

mod listed;

use book::Book;
pub use listed::put_listed;
use names::{Names, Table};
use write_bytes::Writer;

pub fn put_if(writer: &mut Writer<'_>, asked: bool, word: &[u8])
    ensures { Writes (if? asked then word.now else []) writer.old writer.new }
{
    if asked {
        writer.put(word);
    }
}

// The names of a set, with `first` before the first of them.
fn put_led<const P: usize>(writer: &mut Writer<'_>, first: &[u8], table: &Table<P>, set: u64)
    ensures { Writes (names_led first.now (table_in table.now) P (bit set)) writer.old writer.new }
{
    let put_name = |writer: &mut Writer<'_>, k: usize|
        ensures { Writes (name_at (table_in table.entry.now) k) writer.old writer.new }
    {
        writer.put(table.name(k));
    };
    put_listed(writer, first, b", ", table, set, put_name);
}

// The names of a set.
pub fn put_names<const P: usize>(writer: &mut Writer<'_>, table: &Table<P>, set: u64)
    ensures { Writes (names_of (table_in table.now) P (bit set)) writer.old writer.new }
{
    put_led(writer, b"", table, set);
}

// What a version requires, by the set of it.
fn put_required(writer: &mut Writer<'_>, facs: &Table<64>, set: u64)
    ensures { Writes (required_text (table_in facs.now) (bit set)) writer.old writer.new }
{
    put_led(writer, b" requires ", facs, set);
}

// A version of a spec.
pub fn put_spec_version(writer: &mut Writer<'_>, book: &Book, names: &Names, c: usize, v: usize)
    ensures { Writes (spec_version (plain book.now) (tables names.now) c v) writer.old writer.new }
{
    let word = names.vers.name(v);
    let standard = names.vers.name(book.standard(c));
    put_if(writer, word == standard, b"std ");
    writer.put(word);
    put_required(writer, &names.facs, book.required(c, v));
}

// A version of a module.
pub fn put_mod_version(writer: &mut Writer<'_>, book: &Book, names: &Names, c: usize, v: usize)
    ensures { Writes (mod_version (plain book.now) (tables names.now) c v) writer.old writer.new }
{
    let i = book.implementation(c, v).unwrap_or(0);
    writer.put(names.vers.name(v));
    writer.put(b" impl \"");
    writer.put(names.impls.name(usize::from(i)));
    writer.put(b"\"");
}

// "Members show their version."
fn put_member(writer: &mut Writer<'_>, book: &Book, names: &Names, s: usize, v: usize, c: usize)
    requires { is_member (plain book.now).systems s v c ≡ true }
    ensures { Writes (member_text (plain book.now) (tables names.now) s v c) writer.old writer.new }
{
    let w = book.member_version(s, v, c);
    writer.put(names.comps.name(c));
    writer.put(b".");
    writer.put(names.vers.name(w));
}

// A version of a system.
pub fn put_sys_version(writer: &mut Writer<'_>, book: &Book, names: &Names, c: usize, v: usize)
    ensures { Writes (sys_version (plain book.now) (tables names.now) c v) writer.old writer.new }
{
    writer.put(names.vers.name(v));
    writer.put(b" = ");
    let put_one = |writer: &mut Writer<'_>, m: usize| put_member(writer, book, names, c, v, m);
    put_listed(
        writer,
        b"",
        b", ",
        &names.comps,
        book.members(c, v),
        put_one,
    );
}
