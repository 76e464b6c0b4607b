// The commands `sys` and `sysvar` read from behind their first word, and what they ask for collected on the way. An answer in an answer:
// the outer says whether it was read, the inner whether there was a place for each name.
#![tactic(auto)]

ghost use Rattle.std.specs.Prelude.{◌≡◌, option_map};
ghost use Rattle.names.specs.Stored.{Rows, table_of};
ghost use Rattle.command_lists.specs.Views.{composition_view, compositions_view, usable_view};
ghost use Rattle.model.specs.Book.{components, versions};
ghost use Rattle.sets.specs.Answered.{answered};
ghost use Rattle.text.specs.Language.{Name, NamedMembers, add_sys, add_sysvar, comma, compo, list_of, name, sys_version};
ghost use Rattle.text_laws.specs.Takes.{compo_takes, name_takes, sys_version_takes};
ghost use Rattle.read_tokens.specs.Requested.{SysAsked, SysvarAsked};
ghost use Rattle.read_tokens.specs.Steps.{Each};
ghost use Rattle.read_tokens.specs.Entering.{both, four};
ghost use Rattle.read_tokens.specs.Ahead.{Gives};
ghost use Rattle.read_sys.specs.MemberSteps.{Member, MemberStep, add_member, member_start, member_state, sysvar_made};
ghost use Rattle.read_sys.specs.SysSteps.{SysStep, SysWith, UsableStep, add_usable, sys_made, sys_state, usable_state};

use command_lists::{Composition, Compositions, Gathered, Usable};
use names::Filled;
use read_tokens::{
    Entries, Keyword, Pair, PairTables, Reader, SysRequest, SysvarRequest, take_list,
};

// ---- a composition

// The member c, with its version where this is not left out.
#[tactic(auto, unfolding(crate::specs::MemberSteps::add_member, read_tokens::specs::Entering::both))]
fn with_named_member(
    g: Option<Composition>,
    c: Option<usize>,
    version: Option<Option<usize>>,
) -> Option<Composition>
    ensures { option_map composition_view result ≡ add_member (option_map composition_view g) c (option_map answered version) }
{
    Some(command_lists::with_member(g?, c?, version?))
}

// The members of a composition, if there was a place for each name.
#[derive(Clone, Copy)]
struct Members(Option<Composition>);

impl Entries for Members {
    type Table = PairTables;

    type Other = ();

    ghost Said = { Member };

    ghost entry = { compo };

    ghost step = { λ s s' x. MemberStep (member_state s.0 s.2.0) (member_state s'.0 s'.2.0) x };

    // cn ["." vn]
    #[tactic(auto, using(read_tokens::specs::SequenceLaws::lacking), unfolding(text::specs::Language::compo))]
    fn take(
        self,
        tables: &mut PairTables,
        _other: &mut (),
        reader: &mut Reader<'_>,
    ) -> Option<Members> {
        let mut ahead = *reader;
        let c = read_names::take_name(&mut tables.comps, &mut ahead)?;
        if !ahead.passes_mark(b'.') {
            *reader = ahead;
            return Some(Members(with_named_member(self.0, c, Some(None))));
        }
        let v = read_names::take_name(&mut tables.vers, &mut ahead)?;
        *reader = ahead;
        Some(Members(with_named_member(self.0, c, v.map(Some))))
    }

    ghost takes = { compo_takes };
}

// compos = cn ["." vn] {"," cn ["." vn]}
fn take_members(tables: &mut PairTables, reader: &mut Reader<'_>) -> Option<Option<Composition>>
    ensures { Gives (list_of comma compo)
        (λ r. Each MemberStep (member_start (table_of components tables.old.comps.table.rows) (table_of versions tables.old.vers.table.rows))
        (member_state tables.new r))
        reader.old reader.new result }
{
    let none = Members(Some(Gathered::none(None)));
    let members = take_list(none, tables, &mut (), b',', reader)?;
    Some(members.0)
}

#[tactic(auto, unfolding(crate::specs::MemberSteps::sysvar_made, read_tokens::specs::Entering::both))]
fn sysvar_request(p: Option<Pair>, m: Option<Composition>) -> Option<SysvarRequest>
    ensures { result ≡ sysvar_made p m }
{
    let p = p?;
    Some(SysvarRequest {
        component: p.component,
        version: p.version,
        composition: m?,
    })
}

// add-sysvar = "sysvar" cn "." vn "=" compos "end", from behind "sysvar".
#[tactic(auto, using(read_tokens::specs::SequenceLaws::lacking), unfolding(text::specs::Language::add_sysvar, text::specs::Language::compos))]
pub fn read_sysvar(
    tables: &mut PairTables,
    reader: &mut Reader<'_>,
) -> Option<Option<SysvarRequest>>
    ensures by_index { (f i : Rows) → Gives add_sysvar (SysvarAsked (four tables.old f i) (four tables.new f i)) reader.old reader.new result }
{
    let mut ahead = *reader;
    let p = read_mod::take_pair(tables, &mut ahead)?;
    ahead.mark(b'=')?;
    let m = take_members(tables, &mut ahead)?;
    ahead.key(Keyword::End)?;
    *reader = ahead;
    Some(sysvar_request(read_mod::pair_of(p.0, p.1), m))
}

// ---- a system

// The usable component c.
#[tactic(auto, unfolding(crate::specs::SysSteps::add_usable, read_tokens::specs::Entering::both))]
fn with_usable_name(g: Option<Usable>, c: Option<usize>) -> Option<Usable>
    ensures { option_map usable_view result ≡ both add_usable (option_map usable_view g) c }
{
    Some(command_lists::with_usable(g?, c?))
}

// Usable components, if there was a place for each name.
#[derive(Clone, Copy)]
struct UsableNames(Option<Usable>);

impl Entries for UsableNames {
    type Table = Filled<32>;

    type Other = ();

    ghost Said = { Name };

    ghost entry = { name };

    ghost step = { λ s s' w. UsableStep (usable_state s.0.table.rows s.2.0) (usable_state s'.0.table.rows s'.2.0) w };

    // A name as with facilities (read_names), put into other tables.
    fn take(
        self,
        comps: &mut Filled<32>,
        _other: &mut (),
        reader: &mut Reader<'_>,
    ) -> Option<UsableNames> {
        let c = read_names::take_name(comps, reader)?;
        Some(UsableNames(with_usable_name(self.0, c)))
    }

    ghost takes = { name_takes };
}

// The version v with its composition m.
#[tactic(auto, using(crate::specs::SysLaws::with_all))]
fn with_sys_version(
    g: Option<Compositions>,
    v: Option<usize>,
    m: Option<Composition>,
) -> Option<Compositions>
    ensures { SysWith (option_map compositions_view g) v (option_map composition_view m) (option_map compositions_view result) }
{
    let mut g = g?;
    command_lists::add_composition(&mut g, v?, &m?);
    Some(g)
}

// Versions with their compositions, if there was a place for each name.
#[derive(Clone, Copy)]
struct SysVersions(Option<Compositions>);

impl Entries for SysVersions {
    type Table = PairTables;

    type Other = ();

    ghost Said = { Name × NamedMembers };

    ghost entry = { sys_version };

    ghost step = { λ s s' x. SysStep (sys_state s.0 s.2.0) (sys_state s'.0 s'.2.0) x };

    // vn "=" compos; the same form as an entry of "mod", put into other tables.
    #[tactic(auto, using(read_tokens::specs::SequenceLaws::lacking), unfolding(text::specs::Language::sys_version, text::specs::Language::compos))]
    fn take(
        self,
        tables: &mut PairTables,
        _other: &mut (),
        reader: &mut Reader<'_>,
    ) -> Option<SysVersions> {
        let mut ahead = *reader;
        let v = read_names::take_name(&mut tables.vers, &mut ahead)?;
        ahead.mark(b'=')?;
        let m = take_members(tables, &mut ahead)?;
        *reader = ahead;
        Some(SysVersions(with_sys_version(self.0, v, m)))
    }

    ghost takes = { sys_version_takes };
}

#[tactic(auto, unfolding(crate::specs::SysSteps::sys_made, read_tokens::specs::Entering::both))]
fn sys_request(c: Option<usize>, u: Option<Usable>, v: Option<Compositions>) -> Option<SysRequest>
    ensures { result ≡ sys_made c u v }
{
    Some(SysRequest {
        component: c?,
        usable: u?,
        versions: v?,
    })
}

// add-sys = "sys" cn "use" cns ";" vn "=" compos {";" vn "=" compos} "end", from behind "sys".
#[tactic(auto, using(crate::specs::SysLaws::lacking_use), unfolding(text::specs::Language::add_sys, text::specs::Language::names))]
pub fn read_sys(tables: &mut PairTables, reader: &mut Reader<'_>) -> Option<Option<SysRequest>>
    ensures by_index { (f i : Rows) → Gives add_sys (SysAsked (four tables.old f i) (four tables.new f i)) reader.old reader.new result }
{
    let mut ahead = *reader;
    let c = read_names::take_name(&mut tables.comps, &mut ahead)?;
    ahead.key(Keyword::Use)?;
    let unusable = UsableNames(Some(Gathered::none(())));
    let u = take_list(unusable, &mut tables.comps, &mut (), b',', &mut ahead)?;
    ahead.mark(b';')?;
    let none = SysVersions(Some(Gathered::none(Gathered::none(None))));
    let v = take_list(none, tables, &mut (), b';', &mut ahead)?;
    ahead.key(Keyword::End)?;
    *reader = ahead;
    Some(sys_request(c, u.0, v.0))
}
