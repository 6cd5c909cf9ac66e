//! Who waits for whom: for each item how many of its needs are not listed yet, and the items that need it.

ghost use Rattle.std.specs.Prelude.{◌≡◌, ◌≤◌, ◌<◌, ◌+◌, ◌||◌, ◌&&◌, ℕ, [], map, length, cond, nat_eq, nat_lt, slice_index_or, replicate, IfOk, OnOk};
ghost use Rattle.std.specs.Ordering.{nat_cmp};
ghost use Rattle.std.specs.BTreeSet.{contains};
ghost use Rattle.hs_order.specs.Order.{has};
ghost use Rattle.hs_order.specs.Counts.{times, list_at, AreUsers, IsFirstOpen};

use hs_base::memory::NoMemory;
use sqlite_items::Items;
use std::alloc::Global;
use std::collections::BTreeSet;

/// How many needs each item has.
pub fn need_counts(alloc: Global, needs: &[Items<usize>]) -> Result<Vec<usize>, NoMemory>
    ensures { IfOk result (λ counts. counts.items ≡ map length needs.now) }
{
    needs.iter().map(|list| list.len()).collect(alloc)
}

/// The items with a count of 0.
pub fn without_needs(alloc: Global, counts: &[usize]) -> Result<BTreeSet<usize>, NoMemory>
    ensures { IfOk result (λ ready. (item : ℕ) → contains nat_cmp ready item
        ≡ (nat_lt item (length counts.now) && nat_eq (slice_index_or counts.now item 0) 0)) }
{
    let mut ready = BTreeSet::new(alloc);
    for (item, count) in counts.iter().enumerate() {
        if *count == 0 {
            ready.insert(item)?;
        }
    }
    Ok(ready)
}

/// An empty list for each item.
fn no_users(alloc: Global, count: usize) -> Result<Vec<Items<usize>>, NoMemory>
    ensures { IfOk result (λ users. users.items ≡ replicate count []) }
{
    let mut users = Vec::new(alloc);
    for _item in 0..count {
        users.push(Items::new(alloc))?;
    }
    Ok(users)
}

/// Adds an item to the list of each of its needs that is an item.
fn add_user(user: usize, needs: &[usize], users: &mut [Items<usize>]) -> Result<(), NoMemory>
    ensures { OnOk result ((item other : ℕ) → item < length users.old → times other (list_at users.new item)
        ≡ times other (list_at users.old item) + cond (nat_eq other user) (times item needs.now) 0) }
{
    for need in needs {
        if *need < users.len() {
            users[*need].push(user)?;
        }
    }
    Ok(())
}

/// For each item those that need it, each as often as it does.
pub fn users(alloc: Global, needs: &[Items<usize>]) -> Result<Vec<Items<usize>>, NoMemory>
    ensures length { IfOk result (λ users. length users.items ≡ length needs.now) }
    ensures users { IfOk result (λ users. AreUsers needs.now users.items) }
{
    let mut users = no_users(alloc, needs.len())?;
    for (item, list) in needs.iter().enumerate() {
        add_user(item, list.as_slice(), &mut users)?;
    }
    Ok(users)
}

/// Takes one from the count of an item, which is ready where that comes to 0.
fn settle_one(
    user: usize,
    counts: &mut [usize],
    ready: &mut BTreeSet<usize>,
) -> Result<(), NoMemory>
    requires { 0 < slice_index_or counts.old user 0 }
    ensures taken { OnOk result ((item : ℕ) → slice_index_or counts.new item 0 + cond (nat_eq item user) 1 0
        ≡ slice_index_or counts.old item 0) }
    ensures ready { OnOk result ((item : ℕ) → contains nat_cmp ready.new item ≡ (contains nat_cmp ready.old item
        || (nat_eq item user && nat_eq (slice_index_or counts.new item 0) 0))) }
{
    counts[user] -= 1;
    if counts[user] == 0 {
        ready.insert(user)?;
    }
    Ok(())
}

/// Takes one from the count of each of these items, as often as it is named. Those that come to 0 are ready.
pub fn settle(
    users: &[usize],
    counts: &mut [usize],
    ready: &mut BTreeSet<usize>,
) -> Result<(), NoMemory>
    requires { (item : ℕ) → times item users.now ≤ slice_index_or counts.old item 0 }
    ensures taken { OnOk result ((item : ℕ) → slice_index_or counts.new item 0 + times item users.now
        ≡ slice_index_or counts.old item 0) }
    ensures ready { OnOk result ((item : ℕ) → contains nat_cmp ready.new item ≡ (contains nat_cmp ready.old item
        || (has users.now item && nat_eq (slice_index_or counts.new item 0) 0))) }
{
    for user in users {
        settle_one(*user, counts, ready)?;
    }
    Ok(())
}

/// The first item with a count above 0.
pub fn first_open(counts: &[usize]) -> Option<usize>
    ensures { IsFirstOpen counts.now result }
{
    counts.iter().position(|count| *count > 0)
}
