//! What the names of an item stand for, by their bytes.

ghost use Rattle.std.specs.Prelude.{◌≡◌, ◌≤◌, ◌<◌, ◌&&◌, ℕ, length, slice_get, Some};
ghost use Rattle.hs_resolver.specs.InOrder.{InOrder, spans_of};
ghost use Rattle.hs_resolver.specs.declared.known.Use.{Use};
ghost use Rattle.hs_typing.specs.Locals as l;

use hs_resolver::Use;
use hs_symbols::Referent;
use hs_syntax::Span;
use sqlite_items::at;

/// Whether the first bytes are inside the second.
fn is_inside(span: Span, whole: Span) -> bool
    ensures { result ≡ l.inside span whole }
{
    whole.start <= span.start && span.end <= whole.end
}

/// Whether a name stands for the local of this number.
fn stands_for(number: usize, referent: Referent) -> bool
    ensures { result ≡ l.stands_for number referent }
{
    match referent {
        Referent::Local(own) => own == number,
        _ => false,
    }
}

/// Whether a name is inside these bytes, and stands for the local of this number.
fn is_here(one: &Use, number: usize, whole: Span) -> bool
    ensures { result ≡ (l.inside one.now.name whole && l.stands_for number one.now.referent) }
{
    is_inside(one.name, whole) && stands_for(number, one.referent)
}

/// The place of the first name that does not begin before this byte.
fn place_from(uses: &[Use], start: u32) -> usize
    requires in_order { InOrder (spans_of uses.now) }
    ensures bound { result ≤ length uses.now }
    ensures before { (k : ℕ) (u : Use) → k < result → slice_get uses.now k ≡ Some u → u.name.start < start }
    ensures behind { (k : ℕ) (u : Use) → result ≤ k → slice_get uses.now k ≡ Some u → start ≤ u.name.start }
{
    let mut low = 0;
    let mut high = uses.len();
    while low < high {
        let middle = low + (high - low) / 2;
        if uses[middle].name.start < start {
            low = middle + 1;
        } else {
            high = middle;
        }
    }
    low
}

/// What the names of an item stand for, in the order of the text.
#[derive(Clone, Copy)]
pub struct Uses<'a> {
    pub uses: &'a [Use],
    pub ghost in_order: { InOrder (spans_of uses.now) },
}

impl<'a> Uses<'a> {
    /// What the name with these bytes stands for.
    pub fn referent(&self, name: Span) -> Option<Referent>
        ensures { result ≡ l.referent_at self.now.uses.now name }
    {
        let place = place_from(self.uses, name.start);
        match at(self.uses, place) {
            Some(one) => {
                if one.name == name {
                    Some(one.referent)
                } else {
                    None
                }
            }
            None => None,
        }
    }

    /// The number of the local that a name stands for.
    pub fn number(&self, name: Span) -> Option<usize>
        ensures { result ≡ l.number_at self.now.uses.now name }
    {
        match self.referent(name)? {
            Referent::Local(number) => Some(number),
            _ => None,
        }
    }

    /// Whether a name inside these bytes stands for the local of this number.
    pub fn occurs(&self, number: usize, whole: Span) -> bool
        ensures { result ≡ l.occurs self.now.uses.now number whole }
    {
        let first = place_from(self.uses, whole.start);
        for place in first..self.uses.len() {
            let one = &self.uses[place];
            if one.name.start >= whole.end {
                return false;
            }
            if is_here(one, number, whole) {
                return true;
            }
        }
        false
    }
}
