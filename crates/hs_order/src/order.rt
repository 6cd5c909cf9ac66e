//! The order of items.

ghost use Rattle.std.specs.Prelude.{◌≡◌, List, [], ℕ, length, IfOk};
ghost use Rattle.hs_order.specs.Order.{IsOrder, IsLeftOut, StandBehindNeeds, OthersLackNeeds};

use crate::waits::{first_open, need_counts, settle, users, without_needs};
use hs_base::memory::NoMemory;
use sqlite_items::Items;
use std::alloc::Global;

/// Items in the order of their needs, and the first that has no place in it.
#[derive(Debug, Drop)]
pub struct Order {
    /// The numbers of the items that are listed, in order.
    pub listed: Items<usize>,
    /// The first item in source order that is never listed.
    pub left_out: Option<usize>,
}

impl Order {
    /// The order of items by their needs: again and again, of the items that are not listed yet and whose needs are all
    /// listed the first in source order comes next, until there is none.
    ///
    /// Items are numbered from 0, and `needs` has for each the numbers that it needs. A number may stand there twice, and what
    /// is no item is never listed. So what is left out needs what is left out or is no item: itself, say, by way of others or
    /// not. It takes time in proportion to n log n for n items and needs.
    ///
    /// # Errors
    ///
    /// Want of memory.
    pub fn of(alloc: Global, needs: &[Items<usize>]) -> Result<Order, NoMemory>
        ensures order { IfOk result (λ made. IsOrder needs.now [] made.listed) }
        ensures only { (listed : List ℕ) → IsOrder needs.now [] listed → IfOk result (λ made. made.listed ≡ listed) }
        ensures left_out { IfOk result (λ made. IsLeftOut made.listed (length needs.now) made.left_out) }

        // What follows of each order.
        ensures behind { IfOk result (λ made. StandBehindNeeds needs.now made.listed) }
        ensures others { IfOk result (λ made. OthersLackNeeds needs.now made.listed) }
    {
        let users = users(alloc, needs)?;
        let mut counts = need_counts(alloc, needs)?;
        let mut ready = without_needs(alloc, &counts)?;
        let mut listed = Items::new(alloc);
        while let Some(item) = ready.pop_first() {
            listed.push(item)?;
            settle(users[item].as_slice(), &mut counts, &mut ready)?;
        }
        let left_out = first_open(&counts);
        Ok(Order { listed, left_out })
    }
}
