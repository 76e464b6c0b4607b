// The lists of a call gathered from its slices (command_lists/specs/Said.antt says what slices say). Slices that belong together are the
// calls' interface, "by numbers" (document 01).
#![tactic(auto)]

ghost use Rattle.std.specs.Prelude.{◌≡◌, [], ◌≤◌, ◌-◌, length, take, drop};
ghost use Rattle.model.specs.Book.{versions};
ghost use Rattle.command_lists.specs.Said.{sets_of, numbers_of, members_of, compositions_step, compositions_of, usable_of};
ghost use Rattle.sets.specs.Answered.{answered};
ghost use Rattle.command_lists.specs.Said.{version_said, requirements_said, implementations_said, members_said, compositions_said};
ghost use Rattle.command_lists.specs.Views.{sets_view, numbers_view, composition_view, compositions_view, usable_view};

use command_lists::{Composition, Compositions, LEFT_OUT, Numbers, Sets, Usable};

// Versions, each with the set of facilities that it requires: two slices, the calls' interface. Three loops of one shape stay three: what an
// entry means is each list's own, and a contract of one loop for all could only hand on what each call of a closure promises.
pub fn sets_of(versions: &[usize], required: &[u64]) -> Sets
    ensures { sets_view result ≡ sets_of (requirements_said versions.now required.now) }
{
    let mut g = Sets::none(0);
    for (&v, &set) in versions.iter().zip(required) {
        g = command_lists::with_set(g, v, set);
    }
    if versions.len() != required.len() {
        return g.with_large();
    }
    g
}

// Versions, each with its implementation: two slices, the calls' interface. What an entry means is each list's own.
pub fn numbers_of(versions: &[usize], implementations: &[usize]) -> Numbers
    ensures { numbers_view result ≡ numbers_of (implementations_said versions.now implementations.now) }
{
    let mut g = Numbers::none(0);
    for (&v, &i) in versions.iter().zip(implementations) {
        g = command_lists::with_number(g, v, i);
    }
    if versions.len() != implementations.len() {
        return g.with_large();
    }
    g
}

// A member's version, where the mark that it is left out, a number of the calls' interface, doesn't stand in its place.
#[tactic(auto, using(crate::specs::SliceLaws::version_none, crate::specs::SliceLaws::version_some))]
fn version_said(v: usize) -> Option<usize>
    ensures { answered result ≡ version_said v }
{
    if v == LEFT_OUT { None } else { Some(v) }
}

// Members, each with its version or LEFT_OUT: two slices, the calls' interface. What an entry means is each list's own.
pub fn composition_of(members: &[usize], versions: &[usize]) -> Composition
    ensures { composition_view result ≡ members_of (members_said members.now versions.now) }
{
    let mut g = Composition::none(None);
    for (&m, &v) in members.iter().zip(versions) {
        g = command_lists::with_member(g, m, version_said(v));
    }
    if members.len() != versions.len() {
        return g.with_large();
    }
    g
}

// Usable components.
pub fn usable_of(components: &[usize]) -> Usable
    ensures { usable_view result ≡ usable_of components.now }
{
    let mut g = Usable::none(());
    for &c in components {
        g = command_lists::with_usable(g, c);
    }
    g
}

// The composition that stands from a up to e, in the slices of the calls' interface.
fn composition_at(members: &[usize], versions: &[usize], a: usize, e: usize) -> Composition
    requires { (a ≤ e) × (e ≤ length members.now) × (e ≤ length versions.now) }
    ensures { composition_view result ≡ members_of (members_said (take (e - a) (drop a members.now)) (take (e - a) (drop a versions.now))) }
{
    composition_of(&members[a..e], &versions[a..e])
}

// For each version the length of its composition; the members and their versions of all compositions, one after the other: the calls'
// interface.
pub fn compositions_of(
    versions: &[usize],
    lengths: &[usize],
    members: &[usize],
    chosen: &[usize],
) -> Compositions
    ensures { compositions_view result ≡ compositions_of (compositions_said versions.now lengths.now members.now chosen.now) }
{
    let mut g = Compositions::none(Composition::none(None));
    let mut a = 0;
    for (&v, &l) in versions.iter().zip(lengths) {
        if members.len() - a < l {
            return g.with_large();
        }
        if chosen.len() - a < l {
            return g.with_large();
        }
        let k = composition_at(members, chosen, a, a + l);
        command_lists::add_composition(&mut g, v, &k);
        a += l;
    }
    if versions.len() != lengths.len() {
        return g.with_large();
    }
    if a < members.len() {
        return g.with_large();
    }
    if a < chosen.len() {
        return g.with_large();
    }
    g
}
