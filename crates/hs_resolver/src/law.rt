//! What is sure of the names of a file.

ghost use Rattle.hs_base.specs.declared.place.Broken.{Broken};
ghost use Rattle.hs_syntax.specs.declared.file.File.{File};
ghost use Rattle.hs_resolver.specs.declared.names.Names.{Names};
ghost use Rattle.hs_resolver.specs.Order as o;
ghost use Rattle.hs_resolver.specs.Spelled.{EachSpelled};

/// Nothing is told of the names of a file that break no rule. Nothing runs: the clause is what is proved.
pub fn names_exclude()
    ensures { (file : File) (told : Broken) → o.KeepsNames file → o.TellsNames file told → ⊥ }
{}

/// A name that stands for a local is spelled as the local's binding place is, in each item. Nothing runs: the clause is what is proved.
pub fn locals_are_spelled()
    ensures { (file : File) (names : Names) → o.AreNames file names → EachSpelled file.text names.items }
{}
