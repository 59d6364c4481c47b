//! The greatest weight of jobs that a fleet can serve together.
ghost use Rattle.std.specs.Prelude.{◌≡◌, ℕ, ◌+◌, ◌<◌, ◌≤◌, length, All, IfOk, slice_index, sum_by};
ghost use Rattle.hw_price_laws.specs.Tolls as tolls;
ghost use Rattle.hw_price_tests.specs.Weighing.{heaviest_with};

use hw_model::{Job, MOST_FLEET, MOST_SHIPS, MOST_TUGS, NoMemory};
use std::alloc::Global;

/// The greatest weight of jobs that together hold no more than this many tugs.
///
/// It takes a step for each job and each number of tugs, and memory for two numbers of each number
/// of tugs: numbers up to `tugs`, but to no more than all jobs hold together. An error says that
/// memory ran out.
pub fn heaviest(alloc: Global, weights: &[u32], jobs: &[Job], tugs: u32) -> Result<u32, NoMemory>
    requires few { length jobs.now ≤ MOST_SHIPS }
    requires each_job { length weights.now ≡ length jobs.now }
    requires small { All (λ weight. weight ≤ MOST_TUGS) weights.now }
    requires small_fleet { tugs ≤ MOST_FLEET }
    ensures value { IfOk result (λ most. most ≡ tolls.heaviest weights.now jobs.now tugs) }
{
    let useful = u64::from(tugs).min(all_tugs(jobs)) as u32;
    let most = heaviest_each(alloc, weights, jobs, useful)?;
    Ok(most[useful as usize])
}

/// The tugs of all jobs together.
fn all_tugs(jobs: &[Job]) -> u64
    requires few { length jobs.now ≤ MOST_SHIPS }
    ensures value { result ≡ sum_by (λ job. job.tugs) jobs.now }
{
    let mut sum: u64 = 0;
    for job in jobs {
        sum += u64::from(job.tugs);
    }
    sum
}

/// The same for each number of tugs up to this one.
fn heaviest_each(
    alloc: Global,
    weights: &[u32],
    jobs: &[Job],
    tugs: u32,
) -> Result<Vec<u32>, NoMemory>
    requires few { length jobs.now ≤ MOST_SHIPS }
    requires each_job { length weights.now ≡ length jobs.now }
    requires small { All (λ weight. weight ≤ MOST_TUGS) weights.now }
    requires small_fleet { tugs ≤ MOST_FLEET }
    ensures long { IfOk result (λ most. length most.items ≡ tugs + 1) }
    ensures value { IfOk result (λ most. (k : ℕ) → k < tugs + 1 → slice_index most.items k ≡ tolls.heaviest weights.now jobs.now k) }
{
    let mut most = vec![in alloc; 0; tugs as usize + 1]?;
    let mut left = jobs.len();
    while left > 0 {
        left -= 1;
        most = with_job(alloc, weights[left], jobs[left].tugs, &most)?;
    }
    Ok(most)
}

/// The greatest weights for each number of tugs with one more job.
fn with_job(alloc: Global, weight: u32, tugs: u32, most: &[u32]) -> Result<Vec<u32>, NoMemory>
    requires small_weight { weight ≤ MOST_TUGS }
    requires small { All (λ m. m ≤ 2_496) most.now }
    ensures long { IfOk result (λ next. length next.items ≡ length most.now) }
    ensures value { IfOk result (λ next. (k : ℕ) → k < length most.now → slice_index next.items k ≡ heaviest_with weight tugs most.now k) }
{
    let mut next = Vec::with_capacity(alloc, most.len())?;
    for k in 0..most.len() {
        next.push(heavier(weight, tugs as usize, most, k))?;
    }
    Ok(next)
}

/// The greater weight with one more job, or without it.
fn heavier(weight: u32, tugs: usize, most: &[u32], k: usize) -> u32
    requires small_weight { weight ≤ MOST_TUGS }
    requires small { All (λ m. m ≤ 2_496) most.now }
    requires inside { k < length most.now }
    ensures value { result ≡ heaviest_with weight tugs most.now k }
{
    if tugs <= k {
        most[k].max(weight + most[k - tugs])
    } else {
        most[k]
    }
}
