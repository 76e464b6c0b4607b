// Names of an adding command, put into their tables as they are read; sets of facilities. What is given is an answer in an answer: the
// outer says whether it was read, the inner whether there was a place for each name. Reading goes on past a name without a place: "Text
// questions come before all others."
#![tactic(auto)]

ghost use Rattle.std.specs.Prelude.{◌≡◌, ◌<◌, IfSome, option_map};
ghost use Rattle.names.specs.Stored.{table_of};
ghost use Rattle.model.specs.Book.{facilities};
ghost use Rattle.sets.specs.Sets.{bit, with};
ghost use Rattle.read_tokens.specs.Steps.{Each, FacilityStep, facility_start, facility_state};
ghost use Rattle.read_tokens.specs.Entering.{Enters, both};
ghost use Rattle.text.specs.Language.{Name, comma, imp, list_of, name, names_up_to, requirements, semicolon};
ghost use Rattle.text_laws.specs.Takes.{name_takes};
ghost use Rattle.read_tokens.specs.Ahead.{Gives};

use names::Filled;
use read_tokens::{Entries, Keyword, Reader, take_list};

// A name, put into the table if it is new.
#[tactic(auto, using(read_tokens::specs::TakeLaws::name_short))]
pub fn take_name<const P: usize>(
    table: &mut Filled<P>,
    reader: &mut Reader<'_>,
) -> Option<Option<usize>>
    ensures { Gives name (Enters P (table_of P table.old.table.rows) (table_of P table.new.table.rows)) reader.old reader.new result }
{
    let word = reader.name()?;
    Some(table.enter(word))
}

// An implementation, put into the table if it is new.
#[tactic(auto, using(read_tokens::specs::TakeLaws::imp_short))]
pub fn take_imp<const P: usize>(
    table: &mut Filled<P>,
    reader: &mut Reader<'_>,
) -> Option<Option<usize>>
    ensures { Gives imp (Enters P (table_of P table.old.table.rows) (table_of P table.new.table.rows)) reader.old reader.new result }
{
    let word = reader.imp()?;
    Some(table.enter(word))
}

#[tactic(auto, unfolding(read_tokens::specs::Entering::both))]
fn with_facility(set: Option<u64>, f: Option<usize>) -> Option<u64>
    requires { IfSome f (λ k. k < 64) }
    ensures { option_map bit result ≡ both with (option_map bit set) f }
{
    Some(sets::with(set?, f?))
}

// The set of facilities gathered from a list, if there was a place for each. (A number alone, where usable components are a list with flags.)
#[derive(Clone, Copy)]
struct Facilities(Option<u64>);

impl Entries for Facilities {
    type Table = Filled<64>;

    type Other = ();

    ghost Said = { Name };

    ghost entry = { name };

    ghost step = { λ s s' w. FacilityStep (facility_state s.0.table.rows s.2.0) (facility_state s'.0.table.rows s'.2.0) w };

    // A name as with usable components (read_sys), put into other tables.
    #[tactic(auto, using(read_tokens::specs::TakeLaws::taken_small))]
    fn take(
        self,
        facs: &mut Filled<64>,
        _other: &mut (),
        reader: &mut Reader<'_>,
    ) -> Option<Facilities> {
        let f = take_name(facs, reader)?;
        Some(Facilities(with_facility(self.0, f)))
    }

    ghost takes = { name_takes };
}

// facs = fac {"," fac}: the set with their numbers.
fn take_facilities(facs: &mut Filled<64>, reader: &mut Reader<'_>) -> Option<Option<u64>>
    ensures { Gives (list_of comma name)
        (λ r. Each FacilityStep (facility_start (table_of facilities facs.old.table.rows)) (facility_state facs.new.table.rows r))
        reader.old reader.new result }
{
    let got = take_list(Facilities(Some(0)), facs, &mut (), b',', reader)?;
    Some(got.0)
}

// ["requires" facs]: the set of their numbers.
pub fn take_requirements(facs: &mut Filled<64>, reader: &mut Reader<'_>) -> Option<Option<u64>>
    ensures { Gives requirements
        (λ r. Each FacilityStep (facility_start (table_of facilities facs.old.table.rows)) (facility_state facs.new.table.rows r))
        reader.old reader.new result }
{
    let mut ahead = *reader;
    if !ahead.passes_key(Keyword::Requires) {
        *reader = ahead;
        return Some(Some(0));
    }
    let required = take_facilities(facs, &mut ahead)?;
    *reader = ahead;
    Some(required)
}

// [facs] ";": the set of their numbers.
pub fn take_provided(facs: &mut Filled<64>, reader: &mut Reader<'_>) -> Option<Option<u64>>
    ensures { Gives (names_up_to semicolon)
        (λ r. Each FacilityStep (facility_start (table_of facilities facs.old.table.rows)) (facility_state facs.new.table.rows r))
        reader.old reader.new result }
{
    let mut ahead = *reader;
    if ahead.passes_mark(b';') {
        *reader = ahead;
        return Some(Some(0));
    }
    let provided = take_facilities(facs, &mut ahead)?;
    ahead.mark(b';')?;
    *reader = ahead;
    Some(provided)
}
