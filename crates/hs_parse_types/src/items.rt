//! Lists of what is read one by one.

ghost use Rattle.std.specs.Prelude.{◌≡◌, ◌∷◌, [], IfOk};

use sqlite_items::Items;
use std::alloc::{AllocError, Global};

/// The list of this item alone.
pub fn alone<A: Drop>(alloc: Global, first: A) -> Result<Items<A>, AllocError>
    ensures { IfOk result (λ items. items ≡ first ∷ []) }
{
    let mut items = Items::new(alloc);
    items.push(first)?;
    Ok(items)
}
