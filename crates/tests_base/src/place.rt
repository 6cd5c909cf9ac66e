ghost use Rattle.std.specs.Prelude.{OnErr, IsErrOf};

use hs_base::memory::NoMemory;
use hs_base::name::Name;
use hs_base::place::{Broken, Pos, Stop};
use hs_base::rule::Rule;
use std::alloc::Global;
use std::test::Fail;

// Want of memory is told as such, whichever call lacked it.
fn list_of_one(alloc: Global, text: &str) -> Result<Vec<Name>, Stop>
    ensures { OnErr result (IsErrOf result Stop.NoMemory) }
{
    let name = Name::of(alloc, text)?;
    let mut list = Vec::new(alloc);
    list.push(name)?;
    Ok(list)
}

fn broken_at(at: Pos) -> Result<(), Stop>
    ensures { OnErr result (IsErrOf result (Stop.Broken (record { rule = Rule.G8; at = at }))) }
{
    Err(Broken { rule: Rule::G8, at })?;
    Ok(())
}

#[test]
fn each_cause_becomes_a_stop(rt: HostRuntime) -> Result<(), Fail> {
    let Ok(list) = list_of_one(rt.alloc(), "add") else {
        return Err(Fail::from("no memory"));
    };
    assert_eq!(rt; list.len(), 1);
    for name in &list {
        assert_eq!(rt; name.bytes(), b"add".as_slice());
    }
    let at = Pos {
        byte: 28,
        line: 1,
        col: 29,
    };
    assert_eq!(rt;
        broken_at(at),
        Err(Stop::Broken(Broken { rule: Rule::G8, at }))
    );
    assert_eq!(rt; Stop::from(NoMemory), Stop::NoMemory);
    Ok(())
}
