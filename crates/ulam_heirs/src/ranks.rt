//! Ranks of classes, by which most are seen not to be their own bases.
ghost use Rattle.std.specs.Prelude.{◌≡◌, IsTrue};
ghost use Rattle.ulam_heirs.specs.Ranks as spec;
ghost use Rattle.ulam_heirs.specs.Ranks.{AreRanked, IsRanked};

use crate::line::base_in;
use feast_base::NoMemory;
use std::alloc::Global;

/// The number of the heirs of each class.
fn heir_counts(alloc: Global, bases: &[Option<usize>]) -> Result<Vec<usize>, NoMemory> {
    let mut counts = Vec::from_elem(alloc, 0usize, bases.len())?;
    for base in bases {
        if let Some(base) = base {
            if let Some(count) = counts.get_mut(*base) {
                *count = count.saturating_add(1);
            }
        }
    }
    Ok(counts)
}

/// The classes without heirs.
fn without_heirs(alloc: Global, counts: &[usize]) -> Result<Vec<usize>, NoMemory> {
    let mut found = Vec::new(alloc);
    let mut class = 0usize;
    for count in counts {
        if *count == 0 {
            found.push(class)?;
        }
        class += 1;
    }
    Ok(found)
}

/// Takes away an heir of a class: whether it was the last.
fn lose_heir(counts: &mut Vec<usize>, class: usize) -> bool {
    match counts.get_mut(class) {
        Some(count) => {
            *count = count.saturating_sub(1);
            *count == 0
        }
        None => false,
    }
}

/// Ranks the classes that are in order, and each base after its last heir.
fn rank_all(
    bases: &[Option<usize>],
    ranks: &mut Vec<usize>,
    counts: &mut Vec<usize>,
    order: &mut Vec<usize>,
) -> Result<(), NoMemory> {
    'turns: for turn in 0..bases.len() {
        let Some(class) = order.get(turn) else {
            return Ok(());
        };
        let class = *class;
        if let Some(rank) = ranks.get_mut(class) {
            *rank = turn;
        }
        if let Some(base) = base_in(bases, class) {
            if lose_heir(counts, base) {
                order.push(base)?;
            }
        }
    }
    Ok(())
}

/// Ranks by which a base is above its heirs. A class on a ring has the number of classes as its
/// rank, and all others have lower ones.
pub fn ranks(alloc: Global, bases: &[Option<usize>]) -> Result<Vec<usize>, NoMemory> {
    let mut counts = heir_counts(alloc, bases)?;
    let mut order = without_heirs(alloc, counts.as_slice())?;
    let mut ranks = Vec::from_elem(alloc, bases.len(), bases.len())?;
    rank_all(bases, &mut ranks, &mut counts, &mut order)?;
    Ok(ranks)
}

/// The rank of a class.
pub fn rank(ranks: &[usize], class: usize) -> usize
    ensures { result ≡ spec.rank ranks.now class }
{
    match ranks.get(class) {
        Some(rank) => *rank,
        None => 0,
    }
}

/// Whether the base of a class has a higher rank than the class, or at least this one.
fn is_ranked(ranks: &[usize], top: usize, class: usize, base: Option<usize>) -> bool
    ensures { IsTrue result → IsRanked ranks.now top class base }
{
    match base {
        Some(base) => {
            let above = rank(ranks, base);
            rank(ranks, class) < above || top <= above
        }
        None => true,
    }
}

/// Whether each base has a higher rank than its heirs, or at least this one.
pub fn are_ranked(bases: &[Option<usize>], ranks: &[usize], top: usize) -> bool
    ensures { IsTrue result → AreRanked bases.now ranks.now top }
{
    let mut class = 0;
    for base in bases {
        if !is_ranked(ranks, top, class, *base) {
            return false;
        }
        class += 1;
    }
    true
}
