//! What is told of declarations excludes that they break no rule; what facts are of types with all names expanded.

ghost use Rattle.std.specs.Prelude.{◌≡◌};
ghost use Rattle.hs_base.specs.declared.place.Broken.{Broken};
ghost use Rattle.hs_syntax.specs.declared.file.File.{File};
ghost use Rattle.hs_items.specs.declared.shape.Shape.{Shape};
ghost use Rattle.hs_items.specs.Declares as e;
ghost use Rattle.hs_items.specs.Rules.{too_great};
ghost use Rattle.hs_items.specs.Walk.{limited};
ghost use Rattle.hs_items.specs.Walk as w;
ghost use Rattle.hs_items.specs.Whole.{Whole, facts_of};
ghost use Rattle.hs_items.specs.Whole as whole;

/// Nothing is told of the declarations of a file that break no rule. Nothing runs: the clause is what is proved.
pub fn declarations_exclude()
    ensures { (file : File) (told : Broken) → e.KeepsDecls file → e.TellsDecls file told → ⊥ }
{}

/// What the calls of `Facts` give for facts of types with all names expanded: those of the type that is made, as far as 32 bits
/// hold them; and whether it is too great. Nothing runs: the clauses are what is proved.
pub fn facts_are_of_whole_types()
    ensures nothing { w.nothing ≡ limited (facts_of whole.none) }
    ensures single { w.single ≡ limited (facts_of whole.single) }
    ensures joined { (a b : Whole) → w.joined (limited (facts_of a)) (limited (facts_of b)) ≡ limited (facts_of (whole.join a b)) }
    ensures over { (shape : Shape) (parts : Whole) → w.over shape (limited (facts_of parts)) ≡ limited (facts_of (whole.node shape parts)) }
    ensures great { (type : Whole) → too_great (limited (facts_of type)) ≡ too_great (facts_of type) }
{}
