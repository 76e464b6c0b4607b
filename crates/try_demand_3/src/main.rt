// A run of real calls: the teaching book, built from a fresh Book and tried with each of the ten calls. Prints the answers.
#![tactic(auto)]

ghost use Rattle.std.specs.Prelude.{◌++◌, map};
ghost use Rattle.command_outcome.specs.Calls.{Call};
ghost use Rattle.demand_3.specs.Demand.{Arrays, Demand3, Step};
ghost use Rattle.model_laws.specs.Notions.{Run};
ghost use Rattle.refusal.specs.Numbers.{code};
ghost use Rattle.try_demand_3.specs.Lesson.{building, lesson, trying};

use book::Book;
use command_lists::LEFT_OUT;
use refusal::Refusal;
use std::io;

// The numbers of components and versions, and sets of facilities: those of specs/Lesson.antt.
const PROBE: usize = 0;

const VALVE: usize = 1;

const LOOP: usize = 2;

const TANK: usize = 3;

const TEMP: u64 = 1;

const COOL: u64 = 2;

const HOLD: u64 = 4;

// The members of a composition of tank.
const MEMBERS: [usize; 3] = [LOOP, PROBE, VALVE];

// The teaching book: the answer of each call. (LEFT_OUT is a number of the calls' interface.)
fn build(book: &mut Book) -> [Result<(), Refusal>; 5]
    ensures { Run Arrays Call Step (book.old.sets, book.old.numbers) building (map code result) (book.new.sets, book.new.numbers) }
{
    let probe = commands::add_spec(book, PROBE, TEMP, &[0], &[0], 0);
    let valve = commands::add_spec(book, VALVE, COOL, &[1], &[TEMP], 1);
    let loops = commands::add_spec(book, LOOP, HOLD, &[2], &[TEMP | COOL], 2);
    let tank = commands::add_spec(book, TANK, HOLD, &[3], &[0], 3);
    let made = commands::add_sys(book, TANK, &MEMBERS, &[3], &[3], &MEMBERS, &[LEFT_OUT; 3]);
    [probe, valve, loops, tank, made]
}

// K4, K5 and K6, which are refused; then each of the others. (LEFT_OUT is a number of the calls' interface.)
fn try_each(book: &mut Book) -> [Result<(), Refusal>; 11]
    ensures { Run Arrays Call Step (book.old.sets, book.old.numbers) trying (map code result) (book.new.sets, book.new.numbers) }
{
    let k4 = commands::del_spec(book, PROBE);
    let k5 = commands::del_modvar(book, VALVE, 1);
    let k6 = commands::add_sysvar(book, TANK, 4, &[LOOP], &[LEFT_OUT]);
    let defined = commands::add_mod(book, PROBE, &[0], &[7]);
    let added = commands::add_modvar(book, PROBE, 1, 0, 8);
    let taken = commands::del_modvar(book, PROBE, 1);
    let undefined = commands::del_mod(book, PROBE);
    let composed = commands::add_sysvar(book, TANK, 4, &MEMBERS, &[LEFT_OUT; 3]);
    let version_out = commands::del_sysvar(book, TANK, 4);
    let system_out = commands::del_sys(book, TANK);
    let spec_out = commands::del_spec(book, TANK);
    [
        k4,
        k5,
        k6,
        defined,
        added,
        taken,
        undefined,
        composed,
        version_out,
        system_out,
        spec_out,
    ]
}

// The answers of the whole run, and the Book at its end.
#[derive(Drop)]
struct Taught {
    built: [Result<(), Refusal>; 5],
    tried: [Result<(), Refusal>; 11],
    book: Book,
}

// The run from a fresh Book: demand 3 holds of it.
fn teach() -> Taught
    ensures { Demand3 lesson (map code result.built ++ map code result.tried) result.book.sets result.book.numbers }
{
    let mut book = Book::fresh();
    let built = build(&mut book);
    let tried = try_each(&mut book);
    Taught { built, tried, book }
}

fn say_all(rt: &HostRuntime, answers: &[Result<(), Refusal>]) -> io::Result<()> {
    for answer in answers {
        println!(rt; "{}", refusal::code(*answer))?;
    }
    Ok(())
}

fn main(rt: HostRuntime) {
    let taught = teach();
    // A write that fails is passed over.
    let _ = say_all(&rt, &taught.built);
    let _ = say_all(&rt, &taught.tried);
}
