// Reads entries whose reader may have moved where there is none: one by take_entry, and lists by take_list. For each text it prints whether they
// are there, and where the list's reader stands then. `stdout` was written by hand.
#![tactic(auto)]

ghost use Rattle.std.specs.Prelude.{◌≡◌, true};
ghost use Rattle.text.specs.Language.{Name, mod_version};
ghost use Rattle.text_laws.specs.Takes.{mod_version_takes};

use read_tokens::{Entries, Keyword, Reader, take_entry, take_list};
use std::io;
use std::io::Write;

// Whether there is an entry.
#[derive(Clone, Copy)]
struct AnyVersion(bool);

impl Entries for AnyVersion {
    type Table = ();

    type Other = ();

    ghost Said = { Name × Name };

    ghost entry = { mod_version };

    ghost step = { λ s s' x. s'.2.0 ≡ true };

    // vn "impl" imp, read by the reader itself: it stands where the entry goes wrong.
    #[tactic(auto, using(read_mod::specs::ModLaws::lacking_impl), unfolding(text::specs::Language::mod_version))]
    fn take(self, _table: &mut (), _other: &mut (), reader: &mut Reader<'_>) -> Option<AnyVersion> {
        reader.name()?;
        reader.key(Keyword::Impl)?;
        reader.imp()?;
        Some(AnyVersion(true))
    }

    ghost takes = { mod_version_takes };
}

fn word_of(is_there: bool) -> &'static str {
    if is_there { "there" } else { "not there" }
}

fn show(rt: &HostRuntime, text: &[u8]) -> io::Result<()> {
    let mut one = Reader::new(text);
    let entry = take_entry(AnyVersion(false), &mut (), &mut (), &mut one);
    let mut all = Reader::new(text);
    let list = take_list(AnyVersion(false), &mut (), &mut (), b';', &mut all);
    rt.stdout().write_all(text)?;
    println!(rt;
        ": entry {} {}, list {} {}",
        word_of(entry.is_some()),
        one.at,
        word_of(list.is_some()),
        all.at
    )
}

fn show_all(rt: &HostRuntime) -> io::Result<()> {
    show(rt, b"a impl \"x\"")?;
    show(rt, b"a impl \"x\"; b impl \"y\"")?;
    show(rt, b"a impl \"x\"; b \"y\"")?;
    show(rt, b"a impl")?;
    show(rt, b"a")?;
    show(rt, b"")
}

fn main(rt: HostRuntime) {
    // A write that fails is passed over.
    let _ = show_all(&rt);
}
