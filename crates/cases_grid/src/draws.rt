//! Worked values. They were computed apart from this crate, from the published description of the
//! generators.

ghost use Rattle.std.specs.Prelude.{◌≡◌, ◌<◌, IfOk, length};

use draw_stream::{Attempt, AttemptPlan, Attempts, EventDraws, Script, TileStream};
use feast_base::NoMemory;
use std::alloc::Global;
use std::test::Fail;

/// Whether an attempt has this centre and this seed.
fn is_at(attempt: Attempt, centre: u32, seed: u64) -> bool {
    attempt.centre == centre && attempt.seed == seed
}

#[test]
fn a_tile_draws_pairs_of_words_of_its_seed(rt: HostRuntime) {
    let mut stream = TileStream::new(0, 0);
    assert!(rt; is_at(stream.attempt(4096), 0x3df, 0x61da_6f3d_c380_d507));
    assert!(rt; is_at(stream.attempt(64), 0x3c, 0x02ee_bf8c_3bbe_5e1a));
}

#[test]
fn the_seed_of_a_tile_is_taken_modulo_2_to_the_64(rt: HostRuntime) {
    let mut stream = TileStream::new(u64::MAX, 3);
    assert!(rt; is_at(stream.attempt(64), 42, 0x8983_7ec3_9e40_f2c8));
}

/// What an event draws first: two words, and a number below 10.
fn drawn(seed: u64) -> [u64; 3] {
    let mut draws = EventDraws::new(seed);
    [
        draws.below(u64::MAX),
        draws.below(u64::MAX),
        draws.below(10),
    ]
}

#[test]
fn an_event_draws_words_of_its_seed(rt: HostRuntime) {
    assert!(rt; drawn(0) == [0xe220_a839_7b1d_cdaf, 0x6e78_9e6a_a1b9_65f4, 9]);
    assert!(rt; drawn(7) == [0x63cb_e1e4_5932_0dd7, 0x044c_3cd7_f43c_661c, 6]);
}

/// The attempts, one after another.
fn is_followed(attempts: &mut Attempts, expected: &[Attempt]) -> bool {
    for attempt in expected {
        if attempts.next() != Some(*attempt) {
            return false;
        }
    }
    attempts.next().is_none()
}

/// The first attempts of tile 0, with seed 7 and 256 sites a tile.
const OF_TILE_0: [Attempt; 4] = [
    Attempt {
        centre: 61,
        seed: 0x2c0f_c8dd_fa4e_9e14,
    },
    Attempt {
        centre: 114,
        seed: 0x6d5d_9f6a_6318_013c,
    },
    Attempt {
        centre: 118,
        seed: 0x7738_5b62_7c22_c489,
    },
    Attempt {
        centre: 128,
        seed: 0x5470_5b5a_dc01_e528,
    },
];

/// Those of tile 3.
const OF_TILE_3: [Attempt; 4] = [
    Attempt {
        centre: 156,
        seed: 0xcefc_a9b1_6c1d_4aea,
    },
    Attempt {
        centre: 104,
        seed: 0xc804_054b_f768_e31a,
    },
    Attempt {
        centre: 192,
        seed: 0x5231_e557_e54f_6c3d,
    },
    Attempt {
        centre: 100,
        seed: 0x10ec_667b_e540_2645,
    },
];

/// Whether a plan has these attempts for a tile, one after another.
fn is_planned(alloc: Global, plan: &AttemptPlan, tile: u32, expected: &[Attempt]) -> bool
    requires { tile < length plan.now.lists }
{
    match plan.of_tile(alloc, tile) {
        Ok(mut attempts) => {
            attempts.left() == expected.len() as u64 && is_followed(&mut attempts, expected)
        }
        Err(_) => false,
    }
}

/// The plan of seed 7 for four tiles, of which tile 1 is off.
fn of_seed_7(alloc: Global) -> Result<AttemptPlan, NoMemory>
    ensures { IfOk result (λ p. length p.lists ≡ 4) }
{
    AttemptPlan::seeded(alloc, 7, 4, &[false, true, false, false], 256)
}

#[test]
fn a_seeded_plan_of_seed_7_has_4_attempts_a_tile(rt: HostRuntime) -> Result<(), Fail> {
    let plan = of_seed_7(rt.alloc())?;
    assert!(rt; plan.origin() == Some((7, 4)));
    assert!(rt; plan.count(3) == 4 && plan.count(1) == 0);
    Ok(())
}

#[test]
fn a_seeded_plan_of_seed_7_on_tiles_of_16_by_16(rt: HostRuntime) -> Result<(), Fail> {
    let plan = of_seed_7(rt.alloc())?;
    assert!(rt; is_planned(rt.alloc(), &plan, 0, &OF_TILE_0));
    assert!(rt; is_planned(rt.alloc(), &plan, 1, &[]));
    assert!(rt; is_planned(rt.alloc(), &plan, 3, &OF_TILE_3));
    Ok(())
}

#[test]
fn the_bound_on_attempts_is_over_the_tiles_that_are_on(rt: HostRuntime) -> Result<(), Fail> {
    let plan = AttemptPlan::seeded(rt.alloc(), 7, 1_000_000, &[true, false, true], 64)?;
    assert!(rt; plan.count(0) == 0 && plan.count(1) == 1_000_000 && plan.count(2) == 0);
    Ok(())
}

/// The attempts of a script.
const LINES: [Attempt; 2] = [
    Attempt { centre: 9, seed: 1 },
    Attempt {
        centre: 4,
        seed: u64::MAX,
    },
];

/// A plan of which tile 0 has no attempt, and tile 1 has those of the script.
fn written_out(alloc: Global) -> Result<AttemptPlan, NoMemory>
    ensures { IfOk result (λ p. length p.lists ≡ 2) }
{
    let mut scripts = Vec::new(alloc);
    scripts.push(Script::new(Vec::new(alloc)))?;
    scripts.push(Script::new(Vec::from_slice(alloc, &LINES)?))?;
    Ok(AttemptPlan::scripted(scripts))
}

#[test]
fn a_plan_that_is_written_out_has_its_scripts(rt: HostRuntime) -> Result<(), Fail> {
    let plan = written_out(rt.alloc())?;
    assert!(rt; plan.origin().is_none());
    assert!(rt; plan.count(0) == 0 && plan.count(1) == 2);
    assert!(rt; is_planned(rt.alloc(), &plan, 0, &[]));
    Ok(())
}

#[test]
fn a_script_is_followed(rt: HostRuntime) -> Result<(), Fail> {
    let mut attempts = written_out(rt.alloc())?.of_tile(rt.alloc(), 1)?;
    assert!(rt; attempts.left() == 2);
    assert!(rt; is_followed(&mut attempts, &LINES));
    assert!(rt; attempts.left() == 0);
    Ok(())
}

#[test]
fn a_script_gives_its_attempts_back(rt: HostRuntime) -> Result<(), Fail> {
    let lines = [Attempt { centre: 9, seed: 1 }];
    let script = Script::new(Vec::from_slice(rt.alloc(), &lines)?);
    assert!(rt; script.into_attempts().as_slice() == lines.as_slice());
    Ok(())
}
