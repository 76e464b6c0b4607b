// The session for a host in C: what include/svcd.h declares.
#![tactic(auto)]

ghost use Rattle.std.specs.Prelude.{◌≡◌};
ghost use Rattle.text.specs.LentSlice.{host_result, host_slice};

#[unsafe(no_mangle)]
pub extern "C" fn svcd_session(text: &[u8], out: &mut [u8]) -> i32
    ensures value { result ≡ host_result out.old text.now }
    ensures out_after { out.new ≡ host_slice out.old text.now }
{
    svcd::svcd_session(text, out)
}
