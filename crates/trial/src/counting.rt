ghost use Rattle.std.specs.Prelude.{ℕ, Some, All, IfOk};

use std::alloc::{AllocError, Global};

/// What is counted from 0 on until there is none, as the lanes out of a place are, or those of a spot.
pub fn counted<F: Fn(u16) -> Option<u16>>(alloc: Global, nth: F) -> Result<Vec<u16>, AllocError>
    requires { F.IsAlwaysCallable nth }
    ensures { IfOk result (λ found. All (λ x. (k : ℕ) × F.post nth k (Some x)) found.items) }
{
    let mut found = Vec::new(alloc);
    // A loop, since the clause stays open at a chain with `map_while`.
    for k in 0..u16::MAX {
        let Some(x) = nth(k) else {
            break;
        };
        found.push(x)?;
    }
    Ok(found)
}
