// The whole path of a key as a list.
ghost use Rattle.std.specs.Prelude.{IfOk};
ghost use Rattle.trees.specs.Laws.{PathPromise};

use crate::path::PathRule;
use std::alloc::{AllocError, Global};

// Every cell in which the key's entry may ever stand, in the order in which they are tried.
pub fn path_cells<P: PathRule>(
    heap: Global,
    rule: &P,
    key: &[u8; 12],
) -> Result<Vec<u32>, AllocError>
    ensures { IfOk result (λ v. PathPromise P.settings P.extent P.depth P.width P.path rule.now key.now v.items) }
{
    let mut cells = Vec::new(heap);
    let mut at = rule.start(key);
    while let Some(tries) = rule.descend(&mut at) {
        for j in 0..rule.tries() {
            cells.push(tries.cell(j))?;
        }
    }
    Ok(cells)
}
