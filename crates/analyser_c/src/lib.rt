// The analyser's call for C.
#![tactic(auto)]

ghost use Rattle.std.specs.Prelude.{◌≡◌, length};
ghost use Rattle.analyser.specs.Analysed.{returned, left};

use analyser::analyse;
use framing::returned::Returned;

// Each slice is passed as a pointer and a length.
#[unsafe(no_mangle)]
pub extern "C" fn lingfallow_analyse(bytes: &[u8], reply: &mut [u8]) -> Returned
    ensures { (result ≡ returned bytes.now (length reply.old)) × (reply.new ≡ left bytes.now reply.old) }
{
    Returned::from(analyse(bytes, reply))
}
