//! How long workers pause after attempts that were abandoned, without any thread.

use std::process::Abort;
use std::test::Fail;
use tile_threads::Backoff;

/// Below how many rounds the pauses stay after one, two, three abandoned attempts in a row, and so on:
/// 400, doubled eight times and no more.
const BOUNDS: [u64; 12] = [
    400, 800, 1600, 3200, 6400, 12_800, 25_600, 51_200, 102_400, 102_400, 102_400, 102_400,
];

/// How many workers there are at most.
const WORKERS: u32 = 64;

/// The sum of the pauses after as many abandoned attempts in a row as there are bounds. Each is below
/// its bound.
fn pauses(rt: &impl Abort, backoff: &mut Backoff) -> u64 {
    let mut sum = 0u64;
    for bound in BOUNDS {
        let rounds = backoff.rounds(true).unwrap_or(u64::MAX);
        assert!(rt; rounds < bound);
        sum = sum.saturating_add(rounds);
    }
    sum
}

/// Of each of 64 workers the twelve pauses are between a twentieth and nineteen twentieths of all that
/// they may be. A bound that isn't doubled fails here, or one that is doubled once too often.
#[test]
fn pauses_grow_up_to_a_limit(rt: HostRuntime) {
    for tile in 0..WORKERS {
        let sum = pauses(&rt, &mut Backoff::new(tile));
        assert!(rt; 25_580 < sum && sum < 486_020, "{tile}: {sum}");
    }
}

/// No two of 64 workers draw the same pauses.
#[test]
fn workers_pause_differently(rt: HostRuntime) -> Result<(), Fail> {
    let mut seen = Vec::new(rt.alloc());
    for tile in 0..WORKERS {
        let sum = pauses(&rt, &mut Backoff::new(tile));
        assert!(rt; !seen.contains(&sum), "{tile}");
        seen.push(sum)?;
    }
    Ok(())
}

/// After an event there is no pause, and the bound is the least again, whatever was lost before.
#[test]
fn an_event_forgets_what_was_lost(rt: HostRuntime) {
    for tile in 0..WORKERS {
        let mut backoff = Backoff::new(tile);
        pauses(&rt, &mut backoff);
        assert!(rt; backoff.rounds(false).is_none(), "{tile}");
        assert!(rt; pauses(&rt, &mut backoff) < 486_020, "{tile}");
    }
}
