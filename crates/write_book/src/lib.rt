// The text of a Book with its tables: specs, modules, systems in document 01's order.
#![tactic(auto)]

ghost use Rattle.std.specs.Prelude.{◌≡◌};
ghost use Rattle.sets.specs.Answered.{answered};
ghost use Rattle.sets.specs.Sets.{bit, below};
ghost use Rattle.text.specs.Written.{written};
ghost use Rattle.names.specs.Stored.{table_in, tables};
ghost use Rattle.write_bytes.specs.Writes.{Writes};
ghost use Rattle.write_line.specs.Lines.{is_next, next_system, system_lines};
ghost use Rattle.model.specs.Book.{is_system};
ghost use Rattle.book.specs.Plain.{plain};
ghost use Rattle.write_bytes.specs.Written.{wrote, starting_with};

use book::Book;
use names::{Names, Table};
use write_bytes::Writer;

// ---- the order of systems

// Whether s is not out, and its usable systems are all out.
fn is_next(book: &Book, systems: u64, done: u64, s: usize) -> bool
    requires { bit systems ≡ below 32 (is_system (plain book.now).systems) }
    ensures { result ≡ is_next (plain book.now).systems (bit done) s }
{
    let left = sets::minus(book.usable(s), done);
    !sets::member(done, s) & sets::disjoint(left, systems)
}

// "The next system is always the lowest name whose usable systems are all out."
fn next_system(book: &Book, comps: &Table<32>, systems: u64, done: u64) -> Option<usize>
    requires { bit systems ≡ below 32 (is_system (plain book.now).systems) }
    ensures { answered result ≡ next_system (plain book.now).systems (table_in comps.now) (bit systems) (bit done) }
{
    let mut rest = systems;
    while let Some(s) = write_order::first_by_name(comps, rest) {
        if is_next(book, systems, done, s) {
            return Some(s);
        }
        rest = sets::without(rest, s);
    }
    None
}

// The lines of the systems.
fn put_systems(writer: &mut Writer<'_>, book: &Book, names: &Names)
    ensures { Writes (system_lines (plain book.now) (tables names.now)) writer.old writer.new }
{
    let systems = sets::those(32, |c| book.is_system(c));
    let mut done: u64 = 0;
    for i in 0usize..32 {
        let Some(s) = next_system(book, &names.comps, systems, done) else {
            return;
        };
        write_line::put_sys_line(writer, book, names, s);
        done = sets::with(done, s);
    }
}

// ---- the text of a book

// "specs, modules, systems, each by rising bytes of the name"
pub fn put_text(writer: &mut Writer<'_>, book: &Book, names: &Names)
    ensures { Writes (written (plain book.now) (tables names.now)) writer.old writer.new }
{
    let specs = sets::those(32, |c| book.is_specified(c));
    let modules = sets::those(32, |c| book.is_module(c));
    write_version::put_listed(writer, b"", b"", &names.comps, specs, |writer, c| {
        write_line::put_spec_line(writer, book, names, c)
    });
    write_version::put_listed(writer, b"", b"", &names.comps, modules, |writer, c| {
        write_line::put_mod_line(writer, book, names, c)
    });
    put_systems(writer, book, names);
}

// The text of a book with its tables at the start of a lent slice; nothing of it where it does not fit.
pub fn text(out: &mut [u8], book: &Book, names: &Names) -> Option<usize>
    ensures value { answered result ≡ wrote (written (plain book.now) (tables names.now)) out.old }
    ensures out_after { out.new ≡ starting_with (written (plain book.now) (tables names.now)) out.old }
{
    write_bytes::write_whole(out, |writer| put_text(writer, book, names))
}
