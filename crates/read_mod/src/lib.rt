// The commands `mod` and `modvar` read from behind their first word, and what they ask for collected on the way. An answer in an answer:
// the outer says whether it was read, the inner whether there was a place for each name.
#![tactic(auto)]

ghost use Rattle.std.specs.Prelude.{◌≡◌, option_map};
ghost use Rattle.names.specs.Stored.{Rows, table_of};
ghost use Rattle.command_lists.specs.Views.{numbers_view};
ghost use Rattle.model.specs.Book.{components, versions};
ghost use Rattle.text.specs.Language.{Name, add_mod, add_modvar, mod_version, pair};
ghost use Rattle.text_laws.specs.Takes.{mod_version_takes};
ghost use Rattle.read_tokens.specs.Requested.{BothEnter, ModAsked, ModvarAsked};
ghost use Rattle.read_tokens.specs.Entering.{four};
ghost use Rattle.read_tokens.specs.Ahead.{Gives};
ghost use Rattle.read_mod.specs.ModSteps.{ModStep, add_number, mod_made, mod_state, modvar_made, pair_made};

use command_lists::{Gathered, Numbers};
use names::Filled;
use read_tokens::{
    Entries, Keyword, ModRequest, ModvarRequest, Pair, PairTables, Reader, take_list,
};

// The version v with its implementation i.
#[tactic(auto, unfolding(crate::specs::ModSteps::add_number, read_tokens::specs::Entering::both))]
fn with_mod_version(g: Option<Numbers>, v: Option<usize>, i: Option<usize>) -> Option<Numbers>
    ensures { option_map numbers_view result ≡ add_number (option_map numbers_view g) v i }
{
    Some(command_lists::with_number(g?, v?, i?))
}

// Versions with their implementations, if there was a place for each name.
#[derive(Clone, Copy)]
struct ModVersions(Option<Numbers>);

impl Entries for ModVersions {
    type Table = Filled<64>;

    type Other = Filled<256>;

    ghost Said = { Name × Name };

    ghost entry = { mod_version };

    ghost step = { λ s s' x. ModStep (mod_state s.0.table.rows s.1.table.rows s.2.0) (mod_state s'.0.table.rows s'.1.table.rows s'.2.0) x };

    // vn "impl" imp; the same form as an entry of "sys", and another production.
    #[tactic(auto, using(crate::specs::ModLaws::lacking_impl), unfolding(text::specs::Language::mod_version))]
    fn take(
        self,
        vers: &mut Filled<64>,
        impls: &mut Filled<256>,
        reader: &mut Reader<'_>,
    ) -> Option<ModVersions> {
        let mut ahead = *reader;
        let v = read_names::take_name(vers, &mut ahead)?;
        ahead.key(Keyword::Impl)?;
        let i = read_names::take_imp(impls, &mut ahead)?;
        *reader = ahead;
        Some(ModVersions(with_mod_version(self.0, v, i)))
    }

    ghost takes = { mod_version_takes };
}

// It has the form of pair_of, and fills in another struct.
#[tactic(auto, unfolding(crate::specs::ModSteps::mod_made, read_tokens::specs::Entering::both))]
fn mod_request(c: Option<usize>, v: Option<Numbers>) -> Option<ModRequest>
    ensures { result ≡ mod_made c v }
{
    Some(ModRequest {
        component: c?,
        versions: v?,
    })
}

// add-mod = "mod" cn ";" vn "impl" imp {";" vn "impl" imp} "end", from behind "mod".
#[tactic(auto, using(read_tokens::specs::SequenceLaws::lacking), unfolding(text::specs::Language::add_mod))]
pub fn read_mod(
    tables: &mut PairTables,
    impls: &mut Filled<256>,
    reader: &mut Reader<'_>,
) -> Option<Option<ModRequest>>
    ensures by_index { (f : Rows) → Gives add_mod
        (ModAsked (four tables.old f impls.old.table.rows) (four tables.new f impls.new.table.rows))
        reader.old reader.new result }
{
    let mut ahead = *reader;
    let c = read_names::take_name(&mut tables.comps, &mut ahead)?;
    ahead.mark(b';')?;
    let none = ModVersions(Some(Gathered::none(0)));
    let v = take_list(none, &mut tables.vers, impls, b';', &mut ahead)?;
    ahead.key(Keyword::End)?;
    *reader = ahead;
    Some(mod_request(c, v.0))
}

// A component with a version, if there was a place for each name. It has mod_request's form, and fills in another struct.
#[tactic(auto, unfolding(crate::specs::ModSteps::pair_made, read_tokens::specs::Entering::both))]
pub fn pair_of(c: Option<usize>, v: Option<usize>) -> Option<Pair>
    ensures { result ≡ pair_made c v }
{
    Some(Pair {
        component: c?,
        version: v?,
    })
}

// cn "." vn: the place of each name, whether or not the other found one.
#[tactic(auto, using(read_tokens::specs::SequenceLaws::lacking), unfolding(text::specs::Language::pair))]
pub fn take_pair(
    tables: &mut PairTables,
    reader: &mut Reader<'_>,
) -> Option<(Option<usize>, Option<usize>)>
    ensures { Gives pair
        (BothEnter (table_of components tables.old.comps.table.rows) (table_of components tables.new.comps.table.rows)
        (table_of versions tables.old.vers.table.rows) (table_of versions tables.new.vers.table.rows))
        reader.old reader.new result }
{
    let mut ahead = *reader;
    let c = read_names::take_name(&mut tables.comps, &mut ahead)?;
    ahead.mark(b'.')?;
    let v = read_names::take_name(&mut tables.vers, &mut ahead)?;
    *reader = ahead;
    Some((c, v))
}

#[tactic(auto, unfolding(crate::specs::ModSteps::modvar_made, read_tokens::specs::Entering::both))]
fn modvar_request(p: Option<Pair>, q: Option<u64>, i: Option<usize>) -> Option<ModvarRequest>
    ensures { result ≡ modvar_made p q i }
{
    let p = p?;
    Some(ModvarRequest {
        component: p.component,
        version: p.version,
        required: q?,
        implementation: i?,
    })
}

// add-modvar = "modvar" cn "." vn ["requires" facs] "impl" imp, from behind "modvar".
#[tactic(auto, using(crate::specs::ModLaws::lacking_impl), unfolding(text::specs::Language::add_modvar))]
pub fn read_modvar(
    tables: &mut PairTables,
    facs: &mut Filled<64>,
    impls: &mut Filled<256>,
    reader: &mut Reader<'_>,
) -> Option<Option<ModvarRequest>>
    ensures { Gives add_modvar
        (ModvarAsked (four tables.old facs.old.table.rows impls.old.table.rows) (four tables.new facs.new.table.rows impls.new.table.rows))
        reader.old reader.new result }
{
    let mut ahead = *reader;
    let p = take_pair(tables, &mut ahead)?;
    let q = read_names::take_requirements(facs, &mut ahead)?;
    ahead.key(Keyword::Impl)?;
    let i = read_names::take_imp(impls, &mut ahead)?;
    *reader = ahead;
    Some(modvar_request(pair_of(p.0, p.1), q, i))
}
