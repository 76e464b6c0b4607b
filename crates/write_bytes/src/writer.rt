// Bytes, numbers and rows written into the rest of a lent slice.

ghost use Rattle.std.specs.Prelude.{◌≡◌, ◌∷◌, [], ◌++◌, Some, length};
ghost use Rattle.text.specs.Bytes.{bytes};
ghost use Rattle.text.specs.Session.{decimal, row};
ghost use Rattle.write_bytes.specs.Writes.{Writes};

// A lent slice, and how many bytes of room are left in it: none once something did not fit. The bytes that are left are the last of
// the slice; a slice that is shorter is not written, so that a writer on an empty slice only measures.
#[derive(Drop)]
pub struct Writer<'a> {
    pub out: &'a mut [u8],
    pub left: Option<usize>,
}

impl<'a> Writer<'a> {
    // The whole slice is left.
    pub fn new(out: &'a mut [u8]) -> Writer<'a>
        ensures left { result.left ≡ Some (length out.old) }
        ensures same_slice { result.out.ghost_name ≡ out.entry.ghost_name }
        ensures same_bytes { result.out.now ≡ out.old }
    {
        let left = Some(out.len());
        Writer { out, left }
    }

    // No slice, and room for a number of bytes: such a writer only measures.
    pub fn measuring(room: usize) -> Writer<'a>
        ensures left { result.left ≡ Some room }
        ensures no_bytes { length result.out.now ≡ 0 }
    {
        Writer {
            out: &mut [],
            left: Some(room),
        }
    }

    // A word.
    pub fn put(&mut self, word: &[u8])
        ensures { Writes word.now self.old self.new }
    {
        let Some(left) = self.left else {
            return;
        };
        let Some(then) = left.checked_sub(word.len()) else {
            self.left = None;
            return;
        };
        self.left = Some(then);
        if left <= self.out.len() {
            let at = self.out.len() - left;
            self.out[at..at + word.len()].copy_from_slice(word);
        }
    }

    fn put_byte(&mut self, byte: u8)
        ensures { Writes (byte ∷ []) self.old self.new }
    {
        self.put(&[byte]);
    }

    // "Numbers are written in base ten." Digit by digit: `write!` asks for a `fmt::Write` whose errors mean nothing here, and `n % 10 as u8`
    // says that a digit is a byte.
    pub fn put_number(&mut self, n: usize)
        ensures { Writes (decimal n) self.old self.new }
    {
        if 10 <= n {
            self.put_number(n / 10);
        }
        self.put_byte(b'0' + (n % 10) as u8);
    }

    fn start_row(&mut self, i: usize)
        ensures { Writes (decimal i ++ bytes ",") self.old self.new }
    {
        self.put_number(i);
        self.put(b",");
    }

    fn end_row(&mut self)
        ensures { Writes (bytes "\n") self.old self.new }
    {
        self.put(b"\n");
    }

    // "Rows: command number from 1, a comma, 0 or the refusal number."
    pub fn put_answer(&mut self, i: usize, answer: usize)
        ensures { Writes (row i (decimal answer)) self.old self.new }
    {
        self.start_row(i);
        self.put_number(answer);
        self.end_row();
    }

    // "After a 0 come the query's rows: command number, then one name .."
    pub fn put_name(&mut self, i: usize, word: &[u8])
        ensures { Writes (row i word.now) self.old self.new }
    {
        self.start_row(i);
        self.put(word);
        self.end_row();
    }

    // ".. or component and version."
    pub fn put_pair(&mut self, i: usize, component: &[u8], version: &[u8])
        ensures { Writes (row i (component.now ++ (bytes "," ++ version.now))) self.old self.new }
    {
        self.start_row(i);
        self.put(component);
        self.put(b",");
        self.put(version);
        self.end_row();
    }
}
