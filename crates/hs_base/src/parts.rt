//! The parts of a list that places in it make.

ghost use Rattle.std.specs.Prelude.{◌≡◌, ◌-◌, take, drop};

/// So many of the first of these, or all where there are no more. Takes no memory.
#[tactic(auto, using(std::proofs::Common::take_all))]
pub fn front<T>(all: &[T], length: usize) -> &[T]
    ensures { result.now ≡ take length all.now }
{
    if length < all.len() {
        &all[..length]
    } else {
        all
    }
}

/// What stands behind so many of the first of these. Takes no memory.
#[tactic(auto, using(std::proofs::lemmas::List::drop_all))]
pub fn behind<T>(all: &[T], length: usize) -> &[T]
    ensures { result.now ≡ drop length all.now }
{
    if length < all.len() {
        &all[length..]
    } else {
        &[]
    }
}

/// What stands from one place up to another, as far as there is any. Takes no memory.
pub fn between<T>(all: &[T], start: u32, end: u32) -> &[T]
    ensures { result.now ≡ take (end - start) (drop start all.now) }
{
    front(
        behind(all, start as usize),
        end.saturating_sub(start) as usize,
    )
}
