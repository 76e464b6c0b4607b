// Bytes, numbers and rows written into the rest of a lent slice.
#![tactic(auto)]

ghost use Rattle.std.specs.Prelude.{◌≡◌};
ghost use Rattle.sets.specs.Answered.{answered};
ghost use Rattle.text.specs.Bytes.{Text};
ghost use Rattle.write_bytes.specs.Writes.{PutsText};
ghost use Rattle.write_bytes.specs.Written.{wrote, starting_with};

mod writer;

pub use writer::Writer;

// What `put` puts, whole at the start of a lent slice: how many bytes are written, none where it does not fit. It is called twice:
// for a writer that only measures, and, if all fits, for the slice.
// That a closure can be called has to be said in each contract that takes one: no form is plainer.
pub fn write_whole<F: Fn(&mut Writer<'_>)>(out: &mut [u8], put: F) -> Option<usize>
    requires callable { F.IsAlwaysCallable put }
    requires puts { (w : Text) × PutsText (F.post put) w }
    ensures value { (w : Text) → PutsText (F.post put) w → answered result ≡ wrote w out.old }
    ensures out_after { (w : Text) → PutsText (F.post put) w → out.new ≡ starting_with w out.old }
{
    let room = out.len();
    let mut measure = Writer::measuring(room);
    put(&mut measure);
    let left = measure.left?;
    put(&mut Writer::new(out));
    Some(room - left)
}
