// A line of a book's text: a spec, a module or a system with its versions.
#![tactic(auto)]

ghost use Rattle.std.specs.Prelude.{◌≡◌, ℕ};
ghost use Rattle.sets.specs.Sets.{bit};
ghost use Rattle.text.specs.Bytes.{Text};
ghost use Rattle.text.specs.Written.{line, spec_of, mod_of, sys_of};
ghost use Rattle.names.specs.Stored.{table_in, tables};
ghost use Rattle.write_bytes.specs.Writes.{PutsEach, Writes};
ghost use Rattle.write_line.specs.Lines.{ending, if_asked};
ghost use Rattle.model.specs.Book.{has_version};
ghost use Rattle.book.specs.Plain.{plain};

use book::Book;
use names::Names;
use write_bytes::Writer;

// The versions of component c, if it is what is asked for.
#[tactic(auto, using(crate::specs::LineLaws::asked, crate::specs::LineLaws::not_asked))]
fn versions_if(book: &Book, asked: bool, c: usize) -> u64
    ensures { bit result ≡ if_asked asked (has_version (plain book.now).specs c) }
{
    if asked { book.versions(c) } else { 0 }
}

// The versions of a line: "Several versions are parted by "; "." "Every line ends with a line feed."
// That a closure can be called has to be said in each contract that takes one: no form is plainer.
fn put_ending<F: Fn(&mut Writer<'_>, usize)>(
    writer: &mut Writer<'_>,
    names: &Names,
    versions: u64,
    put_version: F,
)
    requires { F.IsAlwaysCallable put_version }
    ensures { (f : ℕ → Text) → PutsEach (F.post put_version) (bit versions) f
        → Writes (ending f (table_in names.now.vers) (bit versions)) writer.old writer.new }
{
    writer.put(b"; ");
    write_version::put_listed(writer, b"", b"; ", &names.vers, versions, put_version);
    writer.put(b" end\n");
}

// Piece by piece, as each line is: no heap holds a text that would be put whole.
pub fn put_spec_line(writer: &mut Writer<'_>, book: &Book, names: &Names, c: usize)
    ensures { Writes (line (spec_of (plain book.now) (tables names.now) c)) writer.old writer.new }
{
    writer.put(b"spec ");
    writer.put(names.comps.name(c));
    writer.put(b" provides ");
    write_version::put_names(writer, &names.facs, book.provides(c));
    put_ending(writer, names, book.versions(c), |writer, v| {
        write_version::put_spec_version(writer, book, names, c, v)
    });
}

pub fn put_mod_line(writer: &mut Writer<'_>, book: &Book, names: &Names, c: usize)
    ensures { Writes (line (mod_of (plain book.now) (tables names.now) c)) writer.old writer.new }
{
    writer.put(b"mod ");
    writer.put(names.comps.name(c));
    let versions = versions_if(book, book.is_module(c), c);
    put_ending(writer, names, versions, |writer, v| {
        write_version::put_mod_version(writer, book, names, c, v)
    });
}

pub fn put_sys_line(writer: &mut Writer<'_>, book: &Book, names: &Names, c: usize)
    ensures { Writes (line (sys_of (plain book.now) (tables names.now) c)) writer.old writer.new }
{
    writer.put(b"sys ");
    writer.put(names.comps.name(c));
    writer.put(b" use ");
    write_version::put_names(writer, &names.comps, book.usable(c));
    let versions = versions_if(book, book.is_system(c), c);
    put_ending(writer, names, versions, |writer, v| {
        write_version::put_sys_version(writer, book, names, c, v)
    });
}
