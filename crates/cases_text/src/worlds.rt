//! Worlds that are printed again.
ghost use Rattle.std.specs.Prelude.{◌≡◌, ◌≤◌, IfOk, IfSome, length};
ghost use Rattle.world_text.specs.Printed.{IsNamed, IsPrintable};
ghost use Rattle.world_text.specs.Values.{world_value};

use feast_base::{Name, NoMemory};
use std::alloc::Global;
use std::test::Fail;
use world_text::{World, laws, name, print, read, reads_again};

/// The elements' names.
pub fn names(alloc: Global) -> Result<Vec<Name>, NoMemory>
    ensures { IfOk result (λ v. length v.items ≡ 2) }
{
    let mut names = Vec::new(alloc);
    names.push(Name::new(alloc, b"Walker")?)?;
    names.push(Name::new(alloc, b"Stone")?)?;
    Ok(names)
}

/// The world of a text, with these elements. None if the text is not a world.
pub fn world(alloc: Global, text: &[u8], names: &[Name]) -> Option<World>
    requires { length names.now ≤ 65535 }
    ensures named { IfSome result (λ w. IsNamed names.now (world_value w)) }
    ensures valid { IfSome result (λ w. IsPrintable names.now (world_value w)) }
{
    let Ok(raw) = read(alloc, text) else {
        return None;
    };
    match name(alloc, raw, names) {
        Ok(world) => Some(world),
        Err(_) => None,
    }
}

/// The text of a world as it is printed. None if the text is not a world.
fn printed(alloc: Global, text: &str, names: &[Name]) -> Result<Option<Vec<u8>>, NoMemory>
    requires { length names.now ≤ 65535 }
{
    let Some(world) = world(alloc, text.as_bytes(), names) else {
        return Ok(None);
    };
    laws(&world);
    reads_again(&world, names);
    let mut out = Vec::new(alloc);
    print(alloc, &world, names, &mut out)?;
    Ok(Some(out))
}

/// Worlds, and how they are printed.
const PRINTED: [(&str, &str); 3] = [
    (
        "feast 2\ntiles 2 1\n\nsize 16 16\r\noff 1\ntry 0 15 4 00000000000000ff\n# atoms\natom 15 4 Stone\norder 0\norder 0 0",
        "feast 2\ntiles 2 1\nsize 16 16\noff 1\ntry 0 15 4 00000000000000ff\natom 15 4 Stone 000000000000000000\norder 0 0 0\n",
    ),
    (
        "feast 2\ntiles 1 1\nsize 8 8\nseed 7\nattempts 3\norder seed 8\n",
        "feast 1\ntiles 1 1\nsize 8 8\nseed 7\nattempts 3\norder seed 8\n",
    ),
    (
        "feast 1\ntiles 1 1\nsize 8 64\natom 7 63 Walker 7fffffffffffffffff",
        "feast 1\ntiles 1 1\nsize 8 64\natom 7 63 Walker 7fffffffffffffffff\n",
    ),
];

/// Whether a text is a world that is printed as `wanted`.
fn is_printed_as(alloc: Global, text: &str, wanted: &str, names: &[Name]) -> Result<bool, NoMemory>
    requires { length names.now ≤ 65535 }
{
    Ok(match printed(alloc, text, names)? {
        Some(out) => out.as_slice() == wanted.as_bytes(),
        None => false,
    })
}

#[test]
fn a_world_is_printed_as_it_was_read(rt: HostRuntime) -> Result<(), Fail> {
    let names = names(rt.alloc())?;
    for (text, wanted) in PRINTED {
        assert!(rt;
            is_printed_as(rt.alloc(), text, wanted, names.as_slice())?,
            "{text}"
        );
        assert!(rt;
            is_printed_as(rt.alloc(), wanted, wanted, names.as_slice())?,
            "{wanted}"
        );
    }
    Ok(())
}
