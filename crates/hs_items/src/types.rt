//! Written types: what is asked of them, and whether one is too great.

ghost use Rattle.std.specs.Prelude.{◌≡◌};
ghost use Rattle.hs_syntax.specs.Texts.{bytes_at};
ghost use Rattle.hs_marks.specs.First.{first};
ghost use Rattle.hs_marks.specs.Says.{Says, SaysNone};
ghost use Rattle.hs_resolver.specs.Rules.{type_of};
ghost use Rattle.hs_items.specs.Nodes as n;
ghost use Rattle.hs_items.specs.Walk as w;

use crate::facts::Facts;
use crate::shape::Shape;
use hs_base::rule::Rule;
use hs_marks::{Breach, refuse_if};
use hs_symbols::{BuiltIn, Referent, Symbols, maker_word};
use hs_syntax::{Span, Ty};
use sqlite_items::Items;

/// What the name of a type stands for that has so many types behind it.
#[tactic(auto, using(crate::proofs::BuiltIn::type_alone, crate::proofs::BuiltIn::type_behind))]
pub fn referent_of<'a>(symbols: &Symbols<'a>, name: Span, types: usize) -> Option<Referent>
    ensures { result ≡ type_of symbols.now (bytes_at symbols.now.text name) types }
{
    let bytes = symbols.spelled(name);
    if types == 0 {
        symbols.type_named(bytes)
    } else {
        maker_word(bytes, types).map(Referent::BuiltIn)
    }
}

/// What is asked of a built-in name with so many types behind it, of which this is asked.
#[tactic(auto, using(crate::proofs::BuiltIn::seq_one, crate::proofs::BuiltIn::seq_else, crate::proofs::BuiltIn::option_one, crate::proofs::BuiltIn::option_else, crate::proofs::BuiltIn::result_two, crate::proofs::BuiltIn::result_else))]
fn built_in(word: BuiltIn, types: usize, parts: Facts) -> Facts
    ensures { result ≡ w.built_facts word types parts }
{
    match word {
        BuiltIn::Seq => {
            if types == 1 {
                parts.over(Shape::Sequence)
            } else {
                Facts::single()
            }
        }
        BuiltIn::Option => {
            if types == 1 {
                parts.over(Shape::Choice)
            } else {
                Facts::single()
            }
        }
        BuiltIn::Result => {
            if types == 2 {
                parts.over(Shape::Choice)
            } else {
                Facts::single()
            }
        }
        BuiltIn::Int(_)
        | BuiltIn::Bool
        | BuiltIn::Some
        | BuiltIn::None
        | BuiltIn::Ok
        | BuiltIn::Err
        | BuiltIn::Convert(_, _) => Facts::single(),
    }
}

/// What names stand for, and what is asked of the name of each item, by the item's place in the file.
#[derive(Clone, Copy)]
pub struct World<'a> {
    pub symbols: &'a Symbols<'a>,
    pub facts: &'a [Facts],
}

impl<'a> World<'a> {
    /// What is asked of the name of an item.
    fn of_item(&self, item: usize) -> Facts
        ensures { result ≡ w.at self.now.facts.now item }
    {
        self.facts.get(item).copied().unwrap_or(Facts::single())
    }

    /// What is asked of a name with so many types behind it, of which this is asked.
    fn named(&self, name: Span, types: usize, parts: Facts) -> Facts
        ensures { result ≡ w.named_facts (w.at self.now.facts.now) (type_of self.now.symbols.now (bytes_at self.now.symbols.now.text name) types) types parts }
    {
        match referent_of(self.symbols, name, types) {
            Some(Referent::Item(item)) => self.of_item(item),
            Some(Referent::BuiltIn(word)) => built_in(word, types, parts),
            Some(Referent::Local(_) | Referent::Ctor(_, _)) | None => Facts::single(),
        }
    }

    /// What is asked of a written type.
    #[cycle(facts)]
    #[tactic(auto, using(crate::proofs::Layers::facts_name, crate::proofs::Layers::facts_unit, crate::proofs::Layers::facts_tuple, crate::proofs::Layers::facts_applied))]
    pub fn facts_of(&self, ty: &Ty) -> Facts
        ensures { result ≡ w.facts_of_ty self.now.symbols.now (w.at self.now.facts.now) ty.now }
    {
        match ty {
            Ty::Name(name) => self.named(*name, 0, Facts::nothing()),
            Ty::Unit(_) => Facts::single(),
            Ty::Tuple(_, parts) => self.facts_of_all(parts).over(Shape::Tuple),
            Ty::Applied(_, name, parts) => {
                self.named(*name, parts.len(), self.facts_of_all(parts))
            }
        }
    }

    /// What is asked of written types in a row.
    #[cycle(facts)]
    pub fn facts_of_all(&self, types: &Items<Ty>) -> Facts
        ensures { result ≡ w.facts_of_tys self.now.symbols.now (w.at self.now.facts.now) types.now }
    {
        let mut row = Facts::nothing();
        for ty in types.as_slice() {
            row = row.joined(self.facts_of(ty));
        }
        row
    }

    /// What is asked of a written type, whose parts are looked over.
    ///
    /// # Errors
    ///
    /// The first of its parts, from the inside out, that is too high or has too many nodes.
    #[cycle(check)]
    #[tactic(auto, using(crate::proofs::Layers::facts_name, crate::proofs::Layers::facts_unit, crate::proofs::Layers::facts_tuple, crate::proofs::Layers::facts_applied, crate::proofs::Layers::inside_name, crate::proofs::Layers::inside_unit, crate::proofs::Layers::inside_tuple, crate::proofs::Layers::inside_applied))]
    fn check_inside(&self, ty: &Ty) -> Result<Facts, Breach>
        ensures { Says (first (w.inside_ty self.now.symbols.now (w.at self.now.facts.now) ty.now)) (λ f. f ≡ w.facts_of_ty self.now.symbols.now (w.at self.now.facts.now) ty.now) result }
    {
        match ty {
            Ty::Name(name) => Ok(self.named(*name, 0, Facts::nothing())),
            Ty::Unit(_) => Ok(Facts::single()),
            Ty::Tuple(_, parts) => Ok(self.check_all(parts)?.over(Shape::Tuple)),
            Ty::Applied(_, name, parts) => {
                let row = self.check_all(parts)?;
                Ok(self.named(*name, parts.len(), row))
            }
        }
    }

    /// What is asked of a written type.
    ///
    /// # Errors
    ///
    /// The first type in it, from the inside out, that is too high or has too many nodes.
    #[cycle(check)]
    #[tactic(auto, using(crate::proofs::Layers::ty_stops, crate::proofs::Layers::ty_goes))]
    pub fn check(&self, ty: &Ty) -> Result<Facts, Breach>
        ensures { Says (first (w.nodes_of_ty self.now.symbols.now (w.at self.now.facts.now) ty.now)) (λ f. f ≡ w.facts_of_ty self.now.symbols.now (w.at self.now.facts.now) ty.now) result }
    {
        let facts = self.check_inside(ty)?;
        refuse_if(facts.is_too_great(), Rule::S2, ty.span())?;
        Ok(facts)
    }

    /// What is asked of written types in a row.
    ///
    /// # Errors
    ///
    /// As for one.
    #[cycle(check)]
    pub fn check_all(&self, types: &Items<Ty>) -> Result<Facts, Breach>
        ensures { Says (first (n.in_types (w.nodes_of_ty self.now.symbols.now (w.at self.now.facts.now)) types.now)) (λ f. f ≡ w.facts_of_tys self.now.symbols.now (w.at self.now.facts.now) types.now) result }
    {
        let mut row = Facts::nothing();
        for ty in types.as_slice() {
            row = row.joined(self.check(ty)?);
        }
        Ok(row)
    }

    /// Looks over a written type that may be missing.
    ///
    /// # Errors
    ///
    /// As for one.
    pub fn check_optional(&self, ty: &Option<Ty>) -> Result<(), Breach>
        ensures { SaysNone (first (n.in_optional (w.nodes_of_ty self.now.symbols.now (w.at self.now.facts.now)) ty.now)) result }
    {
        if let Some(ty) = ty {
            self.check(ty)?;
        }
        Ok(())
    }
}
