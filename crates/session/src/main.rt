// The program `session`: the session of standard input, up to 65,536 bytes, its listing on standard output.
#![tactic(auto)]

ghost use Rattle.std.specs.Prelude.{◌≡◌, ◌≤◌, length, take};
ghost use Rattle.text.specs.Bytes.{bytes};
ghost use Rattle.text.specs.LentSlice.{prints, program_bytes};

use std::io;
use std::io::Write;

// "up to 65,536 bytes, with a slice of that size"
const PROGRAM_BYTES: usize = 65536;

// "where either is too small it prints `0,22`": how many bytes that are.
#[tactic(auto, unfolding(text::specs::Bytes::bytes))]
fn put_22(out: &mut [u8]) -> usize
    requires { length out.old ≡ program_bytes }
    ensures upper_bound { result ≤ length out.new }
    ensures out_after { take result out.new ≡ bytes "0,22\n" }
{
    out[..5].copy_from_slice(b"0,22\n");
    5
}

// What the program prints for a text, at the start of the slice: how many bytes that are.
fn print(text: &[u8], out: &mut [u8]) -> usize
    requires { length out.old ≡ program_bytes }
    ensures upper_bound { result ≤ length out.new }
    ensures out_after { take result out.new ≡ prints text.now }
{
    if PROGRAM_BYTES < text.len() {
        return put_22(out);
    }
    match svcd::session(text, out).answer {
        Ok(len) => len,
        Err(_) => put_22(out),
    }
}

// A byte more than the program takes tells a text that is too long. Arrays and no `Vec`, as the program needs no heap: what stands behind
// the bytes that were read or written is not looked at.
fn main(rt: HostRuntime) -> io::Result<()> {
    let mut text = [0u8; 65537];
    let n = input::fill(&mut rt.stdin(), &mut text)?;
    let mut out = [0u8; 65536];
    let len = print(&text[..n], &mut out);
    rt.stdout().write_all(&out[..len])
}
