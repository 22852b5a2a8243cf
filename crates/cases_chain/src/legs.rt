//! Which texts are chains, and the numbers of legs.

use crate::said::{chain, names};
use chain_text::{Chain, Journal, is_chain};
use std::test::Fail;

/// A chain of 40 legs from the fifth on, the seed of whose second leg wraps.
const LEGS: &str =
    "# wraps\nchain 1\r\ntiles 2 2\nsize 8 8\noff 3\nseed 18446744073709551612\nattempts 20\nlegs 40\nfirst 5\njournal none\nprint 7\nevery 1 flip 0.5 0 0 16 16\nact 2 attempts 3\nact 2 put 3 4 1 1 Wall\nact 2 attempts 4\nact 3 clear 0 0 1 1\natom 0 0 Mouse";

#[test]
fn a_chain_begins_with_its_header(rt: HostRuntime) {
    assert!(rt; is_chain(b"# first\n\nchain 1\r\ntiles"));
    assert!(rt; is_chain(b"chain 1"));
    assert!(rt; !is_chain(b"chain  1\n"));
    assert!(rt; !is_chain(b"feast 2\nchain 1\n"));
    assert!(rt; !is_chain(b""));
}

/// Whether the legs have the seeds and attempts that the text asks for: those of a leg are 6 apart.
fn has_its_numbers(chain: &Chain) -> bool {
    chain.leg_seed(1) == 18_446_744_073_709_551_612
        && chain.order_seed(1) == 0
        && chain.act_seed(1) == 1
        && chain.leg_seed(2) == 2
        && chain.order_seed(2) == 6
        && chain.act_seed(2) == 7
        && chain.leg_attempts(1) == 20
        && chain.leg_attempts(2) == 4
        && chain.leg_attempts(3) == 20
}

/// Whether a chain has what the text says beside its seeds.
fn is_as_said(chain: &Chain) -> bool {
    chain.legs == 40
        && chain.first == 5
        && matches!(chain.journal, Journal::Counts { print: 7 })
        && chain.schedule.every().len() == 1
        && chain.schedule.once().len() == 4
        && !chain.map.is_on(3)
        && chain.atoms.len() == 1
}

#[test]
fn legs_have_their_numbers(rt: HostRuntime) -> Result<(), Fail> {
    let names = names(rt.alloc())?;
    let good = match chain(rt.alloc(), LEGS.as_bytes(), names.as_slice()) {
        Ok(chain) => has_its_numbers(&chain) && is_as_said(&chain),
        Err(_) => false,
    };
    assert!(rt; good);
    Ok(())
}
