// The command `spec` read from behind its first word, and what it asks for collected on the way.
#![tactic(auto)]

ghost use Rattle.std.specs.Prelude.{Bool, List, ◌≡◌};
ghost use Rattle.names.specs.Stored.{Rows, table_of};
ghost use Rattle.read_tokens.specs.Requested.{SpecAsked};
ghost use Rattle.model.specs.Book.{facilities, versions};
ghost use Rattle.text_laws.specs.Takes.{spec_version_takes};
ghost use Rattle.read_spec.specs.Asked.{BodyRead, SetsWith, SpecStep, carried, made, spec_body, spec_start, spec_state};
ghost use Rattle.read_tokens.specs.Entering.{four};
ghost use Rattle.text.specs.Language.{Name, add_spec, spec_version};
ghost use Rattle.read_tokens.specs.Ahead.{Gives};

use command_lists::{Gathered, Sets};
use names::Filled;
use read_tokens::{Entries, Keyword, PairTables, Reader, SpecRequest, take_list};

// Which of the versions that were read carries "std": none, one with its number (if there was a place for its name), or more than one.
// An Option would not tell one from two.
#[derive(Clone, Copy)]
enum Standard {
    Missing,
    Once(Option<usize>),
    Twice,
}

impl Standard {
    // One version more, at the place v, with "std" or without.
    #[tactic(auto, unfolding(crate::specs::Asked::carried))]
    fn with(self, std: bool, v: Option<usize>) -> Standard
        ensures { result ≡ carried std self v }
    {
        if !std {
            return self;
        }
        match self {
            Standard::Missing => Standard::Once(v),
            Standard::Once(_) => Standard::Twice,
            Standard::Twice => Standard::Twice,
        }
    }
}

// Versions with the facilities that each requires, if there was a place for each name.
#[derive(Clone, Copy)]
struct SpecVersions {
    sets: Option<Sets>,
    standard: Standard,
}

// One version more, at the place v, that requires q.
#[tactic(auto, using(crate::specs::SetLaws::not_there))]
fn with_set(g: Option<Sets>, v: Option<usize>, q: Option<u64>) -> Option<Sets>
    ensures { SetsWith g v q result }
{
    Some(command_lists::with_set(g?, v?, q?))
}

// A version more: ["std"] vn ["requires" facs].
impl Entries for SpecVersions {
    type Table = Filled<64>;

    type Other = Filled<64>;

    ghost Said = { Bool × (Name × List Name) };

    ghost entry = { spec_version };

    ghost step = { λ s s' x. SpecStep (spec_state s.0.table.rows s.1.table.rows s.2) (spec_state s'.0.table.rows s'.1.table.rows s'.2) x };

    fn take(
        self,
        vers: &mut Filled<64>,
        facs: &mut Filled<64>,
        reader: &mut Reader<'_>,
    ) -> Option<SpecVersions> {
        let mut ahead = *reader;
        let std = ahead.passes_key(Keyword::Std);
        let v = read_names::take_name(vers, &mut ahead)?;
        let q = read_names::take_requirements(facs, &mut ahead)?;
        *reader = ahead;
        Some(SpecVersions {
            sets: with_set(self.sets, v, q),
            standard: self.standard.with(std, v),
        })
    }

    ghost takes = { spec_version_takes };
}

#[tactic(auto, using(crate::specs::SetLaws::started))]
fn no_spec_versions() -> SpecVersions
    ensures { (v f : Rows) → spec_state v f result ≡ spec_start (table_of versions v) (table_of facilities f) }
{
    SpecVersions {
        sets: Some(Gathered::none(0)),
        standard: Standard::Missing,
    }
}

// The versions of a specification, up to "end", and the number of the standard one: exactly one carries "std".
#[tactic(auto, using(read_tokens::specs::SequenceLaws::lacking), unfolding(crate::specs::Asked::spec_body))]
fn take_spec_body(
    vers: &mut Filled<64>,
    facs: &mut Filled<64>,
    reader: &mut Reader<'_>,
) -> Option<Option<(Sets, usize)>>
    ensures { Gives spec_body
        (BodyRead (spec_start (table_of versions vers.old.table.rows) (table_of facilities facs.old.table.rows))
        vers.new.table.rows facs.new.table.rows)
        reader.old reader.new result }
{
    let mut ahead = *reader;
    let v = take_list(no_spec_versions(), vers, facs, b';', &mut ahead)?;
    ahead.key(Keyword::End)?;
    // `?` takes no variant of an enum of three.
    let Standard::Once(standard) = v.standard else {
        return None;
    };
    *reader = ahead;
    Some(v.sets.zip(standard))
}

#[tactic(auto, unfolding(crate::specs::Asked::made, read_tokens::specs::Entering::both))]
fn spec_request(c: Option<usize>, p: Option<u64>, b: Option<(Sets, usize)>) -> Option<SpecRequest>
    ensures { result ≡ made c p b }
{
    let (versions, standard) = b?;
    Some(SpecRequest {
        component: c?,
        provided: p?,
        versions,
        standard,
    })
}

// add_spec = "spec" cn "provides" [facs] ";" ["std"] vn ["requires" facs] {";" ["std"] vn ["requires" facs]} "end", from behind "spec".
// The names are put into the tables that are lent: the caller throws these away where a name found no place, or the command is refused.
#[tactic(auto, using(crate::specs::SpecRequestLaws::lacking_provides), unfolding(text::specs::Language::add_spec))]
pub fn read_spec(
    tables: &mut PairTables,
    facs: &mut Filled<64>,
    reader: &mut Reader<'_>,
) -> Option<Option<SpecRequest>>
    ensures { (i : Rows) → Gives add_spec
        (SpecAsked (four tables.old facs.old.table.rows i) (four tables.new facs.new.table.rows i)) reader.old reader.new result }
{
    let mut ahead = *reader;
    let c = read_names::take_name(&mut tables.comps, &mut ahead)?;
    ahead.key(Keyword::Provides)?;
    let p = read_names::take_provided(facs, &mut ahead)?;
    let b = take_spec_body(&mut tables.vers, facs, &mut ahead)?;
    *reader = ahead;
    Some(spec_request(c, p, b))
}
