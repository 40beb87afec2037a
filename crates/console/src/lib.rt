//! A job as a program reads it from its standard input.
#![tactic(auto)]

ghost use Rattle.std.specs.Prelude.{◌≡◌, take, IfOk, IfSome};

use std::alloc::Global;
use std::io::{self, Read};

/// A byte more than the longest job: enough to see that a job is too long.
const ENOUGH: u64 = 65537;

/// All bytes of a job, or its first 65,537 if it is longer.
pub fn read_job<R: Read + Drop>(alloc: Global, from: R) -> io::Result<Vec<u8>>
    ensures { IfOk result (λ text. IfSome (R.remaining from) (λ bytes. text.items ≡ take 65537 bytes)) }
{
    let mut text = Vec::new(alloc);
    from.take(ENOUGH).read_to_end(&mut text)?;
    Ok(text)
}
