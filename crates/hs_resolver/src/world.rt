//! What single names break, and what they stand for.

ghost use Rattle.std.specs.Prelude.{◌≡◌, [], ◌∷◌, ◌++◌, map, length, option_map, is_none, IfOk, OnOk};
ghost use Rattle.hs_syntax.specs.Texts.{bytes_at};
ghost use Rattle.hs_symbols.specs.Symbols as y;
ghost use Rattle.hs_resolver.specs.Rules as u;
ghost use Rattle.hs_resolver.specs.Names as n;
ghost use Rattle.hs_resolver.specs.Parts as p;
ghost use Rattle.hs_resolver.specs.Walks.{Walks, Saw, Began};

use crate::known::Known;
use hs_base::memory::NoMemory;
use hs_base::rule::Rule;
use hs_marks::{Breach, Halt};
use hs_scope::{Names, Scope};
use hs_symbols::{Paths, Referent, maker_word, sequence};
use hs_syntax::Span;
use std::alloc::Global;

/// The most binding places of a function, parameters included.
const PLACES: usize = 4096;

/// The most exits of a function.
const EXITS: usize = 256;

/// A broken rule.
pub fn broken(rule: Rule, span: Span) -> Halt
    ensures { result ≡ Halt.Breach (record { rule = rule; span = span }) }
{
    Halt::Breach(Breach { rule, span })
}

/// What does not change on a walk: what names stand for outside functions, and whether the walk is in a function.
#[derive(Clone, Copy)]
pub struct World<'a> {
    pub alloc: Global,
    pub paths: &'a Paths<'a>,
    pub in_function: bool,
}

impl<'a> World<'a> {
    /// The bytes of a name.
    pub fn spelled(&self, name: Span) -> &'a [u8]
        ensures { result.now ≡ bytes_at self.now.paths.now.text name }
    {
        self.paths.symbols().spelled(name)
    }

    /// A name that breaks a rule where it stands for nothing.
    pub fn known(
        &self,
        rule: Rule,
        name: Span,
        referent: Option<Referent>,
        known: &mut Known,
    ) -> Result<(), Halt>
        ensures { Walks (p.known rule name (is_none referent) referent) known.old known.new result }
    {
        match referent {
            None => Err(broken(rule, name)),
            Some(referent) => {
                known.used(name, referent)?;
                Ok(())
            }
        }
    }

    /// One more binding place.
    pub fn place(&self, span: Span, known: &mut Known) -> Result<(), Halt>
        ensures { Walks (p.place self.now.in_function span []) known.old known.new result }
    {
        if self.in_function && known.places.len() == PLACES {
            return Err(broken(Rule::S5, span));
        }
        known.places.push(span)?;
        Ok(())
    }

    /// One more exit, behind what is in it.
    pub fn exit(&self, span: Span, known: &mut Known) -> Result<(), Halt>
        ensures { Saw (p.exit_around self.now.in_function span (p.nothing known.old)) known.new result }
    {
        if self.in_function && known.exits.len() == EXITS {
            return Err(broken(Rule::S7, span));
        }
        known.exits.push(span)?;
        Ok(())
    }

    /// What the name of a type stands for that has so many types behind it.
    pub fn type_of(&self, name: Span, types: usize) -> Option<Referent>
        ensures { result ≡ u.type_of self.now.paths.now (bytes_at self.now.paths.now.text name) types }
    {
        let bytes = self.spelled(name);
        if types == 0 {
            self.paths.symbols().type_named(bytes)
        } else {
            maker_word(bytes, types).map(Referent::BuiltIn)
        }
    }

    /// The name of a type that has so many types behind it.
    pub fn type_name(&self, name: Span, types: usize, known: &mut Known) -> Result<(), Halt>
        ensures { Walks (n.type_name self.now.paths.now name types) known.old known.new result }
    {
        let referent = self.type_of(name, types);
        self.known(Rule::N1, name, referent, known)
    }

    /// The constructor that a path of two names stands for.
    pub fn member_of(&self, type_name: Span, name: Span) -> Option<Referent>
        ensures { result ≡ n.member_of self.now.paths.now type_name name }
    {
        let data = self.paths.data_of(self.spelled(type_name));
        self.paths.ctor_in(data, self.spelled(name))
    }

    /// What the first name of a path stands for that has a type behind it.
    pub fn path_maker(&self, name: Span) -> Option<Referent>
        ensures { result ≡ u.path_maker (bytes_at self.now.paths.now.text name) }
    {
        sequence(self.spelled(name)).map(Referent::BuiltIn)
    }

    /// What a name before `(` stands for.
    pub fn callee_of(&self, name: Span) -> Option<Referent>
        ensures { result ≡ y.callee_named self.now.paths.now.text self.now.paths.now.items (bytes_at self.now.paths.now.text name) }
    {
        self.paths.symbols().callee_named(self.spelled(name))
    }

    /// What the name of a constructor in a pattern stands for.
    fn ctor_of(&self, name: Span) -> Option<Referent>
        ensures { result ≡ y.ctor_named self.now.paths.now.text self.now.paths.now.items (bytes_at self.now.paths.now.text name) }
    {
        self.paths.symbols().ctor_named(self.spelled(name))
    }

    /// What a name that stands alone stands for.
    pub fn value_of(&self, scope: &Scope<'a>, name: Span) -> Option<Referent>
        ensures { result ≡ y.value_named self.now.paths.now.text self.now.paths.now.items scope.now (bytes_at self.now.paths.now.text name) }
    {
        self.paths.symbols().value_named(scope, self.spelled(name))
    }

    /// The name of a constructor in a pattern.
    pub fn ctor_name(&self, name: Span, known: &mut Known) -> Result<(), Halt>
        ensures { Walks (n.ctor_name self.now.paths.now name) known.old known.new result }
    {
        let referent = self.ctor_of(name);
        self.known(Rule::N4, name, referent, known)
    }

    /// A name that is assigned or lent.
    pub fn assigned(&self, name: Span, scope: &Scope<'a>, known: &mut Known) -> Result<(), Halt>
        ensures { Walks (n.assigned self.now.paths.now name scope.now) known.old known.new result }
    {
        let local = scope.find(self.spelled(name));
        self.known(Rule::N10, name, local.map(Referent::Local), known)
    }

    /// Whether a name stands in its list a second time, or is a constant's. It is added to those before it.
    pub fn repeated(&self, name: Span, before: &mut Names<'a>) -> Result<bool, NoMemory>
        ensures repeated { IfOk result (λ repeated. repeated ≡ u.repeated self.now.paths.now (bytes_at self.now.paths.now.text name) before.old) }
        ensures before { OnOk result (before.new ≡ before.old ++ bytes_at self.now.paths.now.text name ∷ []) }
    {
        let bytes = self.spelled(name);
        if before.add(bytes)? {
            Ok(self.paths.symbols().is_constant(bytes))
        } else {
            Ok(true)
        }
    }

    /// A name that is bound in a pattern or a list of parameters that begins behind so many binding places and has bound these
    /// names.
    #[tactic(auto, using(crate::proofs::Places::names_more))]
    pub fn binder(
        &self,
        name: Span,
        start: usize,
        before: &mut Names<'a>,
        known: &mut Known,
    ) -> Result<(), Halt>
        requires { Began self.now.paths.now.text before.old start known.old }
        ensures walks { Walks (p.binder self.now.paths.now self.now.in_function start name) known.old known.new result }
        ensures began { OnOk result (Began self.now.paths.now.text before.new start known.new) }
    {
        if self.repeated(name, before)? {
            return Err(broken(Rule::N6, name));
        }
        let number = known.places.len();
        known.used(name, Referent::Local(number))?;
        self.place(name, known)
    }
}
