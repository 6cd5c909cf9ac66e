//! Types, paths and patterns.

ghost use Rattle.std.specs.Prelude.{◌≡◌, ◌+◌, ◌<◌, ◌^◌, map, length, IfOk, OnOk};
ghost use Rattle.hs_syntax.specs.Texts.{bytes_at};
ghost use Rattle.hs_resolver.specs.Rules as u;
ghost use Rattle.hs_resolver.specs.Names as n;
ghost use Rattle.hs_resolver.specs.Parts as p;
ghost use Rattle.hs_resolver.specs.Walks.{Walks, Began};

use crate::known::Known;
use crate::world::{World, broken};
use hs_base::memory::NoMemory;
use hs_base::rule::Rule;
use hs_marks::Halt;
use hs_scope::{Names, Scope};
use hs_symbols::Referent;
use hs_syntax::{ArmPat, Pat, Path, Span, Ty};
use sqlite_items::Items;

/// The names in a type.
#[cycle(ty)]
pub fn ty<'a>(ty: &Ty, world: &World<'a>, known: &mut Known) -> Result<(), Halt>
    ensures { Walks (n.names_of_ty world.now.paths.now ty.now) known.old known.new result }
{
    match ty {
        Ty::Name(name) => world.type_name(*name, 0, known),
        Ty::Unit(_) => Ok(()),
        Ty::Tuple(_, parts) => tys(parts, world, known),
        Ty::Applied(_, name, parts) => {
            world.type_name(*name, parts.len(), known)?;
            tys(parts, world, known)
        }
    }
}

/// The names in types.
#[cycle(ty)]
pub fn tys<'a>(tys: &Items<Ty>, world: &World<'a>, known: &mut Known) -> Result<(), Halt>
    ensures { Walks (n.names_of_tys world.now.paths.now tys.now) known.old known.new result }
{
    for part in tys.as_slice() {
        ty(part, world, known)?;
    }
    Ok(())
}

/// The names in a type that may be missing.
pub fn optional_ty<'a>(type_: &Option<Ty>, world: &World<'a>, known: &mut Known) -> Result<(), Halt>
    ensures { Walks (n.optional_ty world.now.paths.now type_.now) known.old known.new result }
{
    match type_ {
        None => Ok(()),
        Some(type_) => ty(type_, world, known),
    }
}

/// A path of two names with what both stand for, where the first or the last stands for nothing that may stand there.
fn two<'a>(
    span: Span,
    names: (Span, Span),
    is_broken: bool,
    referents: (Option<Referent>, Option<Referent>),
    known: &mut Known,
) -> Result<(), Halt>
    ensures { Walks (p.known_path span names.0 names.1 is_broken referents.0 referents.1) known.old known.new result }
{
    if is_broken {
        return Err(broken(Rule::N4, span));
    }
    known.means(names.0, referents.0)?;
    known.means(names.1, referents.1)?;
    Ok(())
}

/// A path of two names that is not called.
fn constructor<'a>(
    span: Span,
    type_name: Span,
    name: Span,
    world: &World<'a>,
    known: &mut Known,
) -> Result<(), Halt>
    ensures { Walks (n.ctor_path world.now.paths.now span type_name name) known.old known.new result }
{
    let first = world.type_of(type_name, 0);
    let second = world.member_of(type_name, name);
    two(
        span,
        (type_name, name),
        second.is_none(),
        (first, second),
        known,
    )
}

/// A path of two names that is called.
fn called<'a>(
    span: Span,
    type_name: Span,
    name: Span,
    world: &World<'a>,
    known: &mut Known,
) -> Result<(), Halt>
    ensures { Walks (p.known_path span type_name name (u.unknown_called world.now.paths.now (bytes_at world.now.paths.now.text type_name) (bytes_at world.now.paths.now.text name)) (u.type_of world.now.paths.now (bytes_at world.now.paths.now.text type_name) 0) (n.member_of world.now.paths.now type_name name)) known.old known.new result }
{
    let first = world.type_of(type_name, 0);
    let second = world.member_of(type_name, name);
    let has_ctors = world.paths.data_of(world.spelled(type_name)).is_some();
    let is_broken = first.is_none() || has_ctors && second.is_none();
    two(span, (type_name, name), is_broken, (first, second), known)
}

/// `X::<T>::x`, with what X stands for, where nothing of that name may stand there or something may.
fn of_type<'a>(
    type_: &Ty,
    span: Span,
    name: Span,
    is_broken: bool,
    world: &World<'a>,
    known: &mut Known,
) -> Result<(), Halt>
    ensures { Walks (p.known_of span name is_broken (u.path_maker (bytes_at world.now.paths.now.text name)) (n.names_of_ty world.now.paths.now type_.now)) known.old known.new result }
{
    known.means(name, world.path_maker(name))?;
    ty(type_, world, known)?;
    if is_broken {
        return Err(broken(Rule::N4, span));
    }
    Ok(())
}

/// The names of a path that stands alone.
pub fn value_path<'a>(
    path: &Path,
    scope: &Scope<'a>,
    world: &World<'a>,
    known: &mut Known,
) -> Result<(), Halt>
    ensures { Walks (n.value_path world.now.paths.now path.now scope.now) known.old known.new result }
{
    match path {
        Path::Name(name) => {
            let referent = world.value_of(scope, *name);
            world.known(Rule::N3, *name, referent, known)
        }
        Path::Member(span, first, second) => constructor(*span, *first, *second, world, known),
        Path::Of(span, name, type_, _) => of_type(type_, *span, *name, true, world, known),
    }
}

/// The names of a path before `(`.
pub fn called_path<'a>(path: &Path, world: &World<'a>, known: &mut Known) -> Result<(), Halt>
    ensures { Walks (n.called_path world.now.paths.now path.now) known.old known.new result }
{
    match path {
        Path::Name(name) => {
            let referent = world.callee_of(*name);
            world.known(Rule::N2, *name, referent, known)
        }
        Path::Member(span, first, second) => called(*span, *first, *second, world, known),
        Path::Of(span, name, type_, _) => {
            let is_broken = world.path_maker(*name).is_none();
            of_type(type_, *span, *name, is_broken, world, known)
        }
    }
}

/// The names in a pattern that is in one which begins behind so many binding places and has bound these names.
#[cycle(pat)]
pub fn pat<'a>(
    pat: &Pat,
    start: usize,
    world: &World<'a>,
    before: &mut Names<'a>,
    known: &mut Known,
) -> Result<(), Halt>
    requires { Began world.now.paths.now.text before.old start known.old }
    ensures walks { Walks (n.names_of_pat world.now.paths.now world.now.in_function pat.now start) known.old known.new result }
    ensures began { OnOk result (Began world.now.paths.now.text before.new start known.new) }
{
    match pat {
        Pat::Name(_, _, name) => world.binder(*name, start, before, known),
        Pat::Any(_) => Ok(()),
        Pat::Tuple(_, parts) => pats(parts, start, world, before, known),
        Pat::Struct(_, name, parts) => {
            world.ctor_name(*name, known)?;
            pats(parts, start, world, before, known)
        }
    }
}

/// The names in patterns that are in one which begins behind so many binding places and has bound these names.
#[cycle(pat)]
fn pats<'a>(
    pats: &Items<Pat>,
    start: usize,
    world: &World<'a>,
    before: &mut Names<'a>,
    known: &mut Known,
) -> Result<(), Halt>
    requires { Began world.now.paths.now.text before.old start known.old }
    ensures walks { Walks (n.names_of_pats world.now.paths.now world.now.in_function pats.now start) known.old known.new result }
    ensures began { OnOk result (Began world.now.paths.now.text before.new start known.new) }
{
    for part in pats.as_slice() {
        pat(part, start, world, before, known)?;
    }
    Ok(())
}

/// The names in the pattern of a `let`, and the number behind those of its locals.
pub fn let_pat<'a>(pattern: &Pat, world: &World<'a>, known: &mut Known) -> Result<usize, Halt>
    ensures walks { Walks (λ k. n.names_of_pat world.now.paths.now world.now.in_function pattern.now (length k.places) k) known.old known.new result }
    ensures behind { IfOk result (λ behind. behind ≡ length known.old.places + length (n.binds pattern.now)) }
{
    let start = known.places.len();
    let mut before = Names::new(world.alloc);
    pat(pattern, start, world, &mut before, known)?;
    Ok(known.places.len())
}

/// The names in the pattern of an arm, which begins behind so many binding places.
fn arm_names<'a>(
    pattern: &ArmPat,
    start: usize,
    world: &World<'a>,
    before: &mut Names<'a>,
    known: &mut Known,
) -> Result<(), Halt>
    requires { Began world.now.paths.now.text before.old start known.old }
    ensures { Walks (n.names_of_arm_pat world.now.paths.now world.now.in_function pattern.now start) known.old known.new result }
{
    match pattern {
        ArmPat::Any(_) => Ok(()),
        ArmPat::Ctor(_, name, parts) => {
            world.ctor_name(*name, known)?;
            pats(parts, start, world, before, known)
        }
        ArmPat::Member(_, first, second, parts) => {
            let span = Span {
                start: first.start,
                end: second.end,
            };
            constructor(span, *first, *second, world, known)?;
            pats(parts, start, world, before, known)
        }
    }
}

/// The names in the pattern of an arm, and the number behind those of its locals.
pub fn arm_pat<'a>(pattern: &ArmPat, world: &World<'a>, known: &mut Known) -> Result<usize, Halt>
    ensures walks { Walks (λ k. n.names_of_arm_pat world.now.paths.now world.now.in_function pattern.now (length k.places) k) known.old known.new result }
    ensures behind { IfOk result (λ behind. behind ≡ length known.old.places + length (n.binds_of_arm pattern.now)) }
{
    let start = known.places.len();
    let mut before = Names::new(world.alloc);
    arm_names(pattern, start, world, &mut before, known)?;
    Ok(known.places.len())
}

/// Binds the names of a pattern, whose numbers go on from one, and gives the number behind them.
#[cycle(bind)]
pub fn bind<'a>(
    pat: &Pat,
    number: usize,
    world: &World<'a>,
    scope: &mut Scope<'a>,
) -> Result<usize, NoMemory>
    requires { number + length (n.binds pat.now) < 2 ^ 64 }
    ensures bound { OnOk result (scope.new ≡ p.bound world.now.paths.now.text (n.binds pat.now) number scope.old) }
    ensures behind { IfOk result (λ behind. behind ≡ number + length (n.binds pat.now)) }
{
    match pat {
        Pat::Name(_, _, name) => {
            scope.bind(world.spelled(*name), number)?;
            Ok(number + 1)
        }
        Pat::Any(_) => Ok(number),
        Pat::Tuple(_, parts) | Pat::Struct(_, _, parts) => bind_all(parts, number, world, scope),
    }
}

/// Binds the names of patterns, whose numbers go on from one, and gives the number behind them.
#[cycle(bind)]
fn bind_all<'a>(
    pats: &Items<Pat>,
    number: usize,
    world: &World<'a>,
    scope: &mut Scope<'a>,
) -> Result<usize, NoMemory>
    requires { number + length (n.binds_all (map n.binds pats.now)) < 2 ^ 64 }
    ensures bound { OnOk result (scope.new ≡ p.bound world.now.paths.now.text (n.binds_all (map n.binds pats.now)) number scope.old) }
    ensures behind { IfOk result (λ behind. behind ≡ number + length (n.binds_all (map n.binds pats.now))) }
{
    let mut next = number;
    for part in pats.as_slice() {
        next = bind(part, next, world, scope)?;
    }
    Ok(next)
}

/// Binds the names of an arm's pattern, whose numbers go on from one, and gives the number behind them.
pub fn bind_arm<'a>(
    pattern: &ArmPat,
    number: usize,
    world: &World<'a>,
    scope: &mut Scope<'a>,
) -> Result<usize, NoMemory>
    requires { number + length (n.binds_of_arm pattern.now) < 2 ^ 64 }
    ensures bound { OnOk result (scope.new ≡ p.bound world.now.paths.now.text (n.binds_of_arm pattern.now) number scope.old) }
    ensures behind { IfOk result (λ behind. behind ≡ number + length (n.binds_of_arm pattern.now)) }
{
    match pattern {
        ArmPat::Any(_) => Ok(number),
        ArmPat::Ctor(_, _, parts) | ArmPat::Member(_, _, _, parts) => {
            bind_all(parts, number, world, scope)
        }
    }
}
