//! Input up to a limit.
ghost use Rattle.std.specs.Prelude.{◌≡◌, IfOk, IfSome};
ghost use Rattle.program.specs.Input.{first_bytes};

use std::alloc::Global;
use std::io;
use std::io::Read;

/// The first bytes of what an input has left, up to this many.
#[tactic(auto, unfolding(crate::specs::Input::first_bytes))]
pub fn read_up_to<R: Read + Drop>(heap: Global, input: R, limit: u64) -> io::Result<Vec<u8>>
    ensures { IfOk result (λ bytes. IfSome (R.remaining input)
        (λ all. bytes.items ≡ first_bytes limit all)) }
{
    let mut bytes = Vec::new(heap);
    input.take(limit).read_to_end(&mut bytes)?;
    Ok(bytes)
}
