//! Chains that are printed again.
ghost use Rattle.std.specs.Prelude.{◌≤◌, length};

use crate::said::{chain, names};
use chain_text::{print, reads_again};
use feast_base::{Name, NoMemory};
use std::alloc::Global;
use std::test::Fail;

/// Chains, and how they are printed.
const PRINTED: [(&str, &str); 3] = [
    (
        "# in other words\nchain 1\r\ntiles 2 2\n\nsize 8 8\noff 3\nseed 18446744073709551615\nattempts 20\nlegs 40\nfirst 5\njournal none\nprint 7\nevery 1 flip 0.5 0 0 16 16\nevery 3 erase 0.000000005 2 3 4 5\nact 2 attempts 3\nact 2 put 3 4 2 1 Wall\nact 3 put 3 4 1 1 Mouse 00000000000000abcd\nact 3 clear 0 0 1 1\nact 9 erase 1 0 0 1 1\nact 9 flip 0 1 1 1 1\natom 0 7 Mouse\natom 1 0 Wall 7fffffffffffffffff",
        "chain 1\ntiles 2 2\nsize 8 8\noff 3\nseed 18446744073709551615\nattempts 20\nlegs 40\nfirst 5\njournal none\nprint 7\nevery 1 flip 0.500000000 0 0 16 16\nevery 3 erase 0.000000005 2 3 4 5\nact 2 attempts 3\nact 2 put 3 4 2 1 Wall 000000000000000000\nact 3 put 3 4 1 1 Mouse 00000000000000abcd\nact 3 clear 0 0 1 1\nact 9 erase 1 0 0 1 1\nact 9 flip 0 1 1 1 1\natom 0 7 Mouse 000000000000000000\natom 1 0 Wall 7fffffffffffffffff\n",
    ),
    (
        "chain 1\ntiles 1 1\nsize 8 64\nseed 0\nattempts 0\nlegs 1\nfirst 1\njournal whole\n",
        "chain 1\ntiles 1 1\nsize 8 64\nseed 0\nattempts 0\nlegs 1\n",
    ),
    (
        "chain 1\ntiles 1 1\nsize 8 8\nseed 7\nattempts 3\nlegs 2\nfirst 2\njournal none\nprint 1\n",
        "chain 1\ntiles 1 1\nsize 8 8\nseed 7\nattempts 3\nlegs 2\nfirst 2\njournal none\n",
    ),
];

/// Whether a text is a chain that is printed as `wanted`.
fn is_printed_as(alloc: Global, text: &str, wanted: &str, names: &[Name]) -> Result<bool, NoMemory>
    requires { length names.now ≤ 65535 }
{
    let Ok(chain) = chain(alloc, text.as_bytes(), names) else {
        return Ok(false);
    };
    reads_again(&chain, names);
    let mut out = Vec::new(alloc);
    print(&chain, names, &mut out)?;
    Ok(out.as_slice() == wanted.as_bytes())
}

#[test]
fn a_chain_is_printed_as_it_was_read(rt: HostRuntime) -> Result<(), Fail> {
    let names = names(rt.alloc())?;
    for (text, wanted) in PRINTED {
        assert!(rt; is_printed_as(rt.alloc(), text, wanted, names.as_slice())?);
    }
    Ok(())
}
