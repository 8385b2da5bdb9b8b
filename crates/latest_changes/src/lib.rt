// The plan that changes each part at the last stop that still serves.
// Kept as numbers with their ranges where a gap is asked for, as in `clock::keeps`: two of three change from opening to opening.
#![tactic(auto)]

ghost use Rattle.std.specs.Prelude.{◌≡◌, not, ◌&&◌, take, pos, ◌≤◌};
ghost use Rattle.model.specs.Model.{within, last_change_lem};
ghost use Rattle.model.specs.Limits.{longest_life};
ghost use Rattle.jobs.specs.Views.{job_of, part_of_lem, plan_for};
ghost use Rattle.jobs.specs.Valid.{ValidPart};
ghost use Rattle.clock.specs.Placed.{Position, Begins};
ghost use Rattle.latest.specs.Latest.{latest_from, latest_plan_of};
ghost use Rattle.latest_changes.specs.Stops.{Ranged, NextStops};

use clock::{Positions, keeps, positions_of};
use jobs::{Accepted, Changes, Part, Plan};
use model::{OPENINGS, PARTS};
use part_records::part_at;
use reach::last_change;

// The position of the stop after each of n openings, or the end after the last.
// Kept as a loop over the openings' places: three arrays meet at one place, from the last to the first, and zipped they would be a pair in a pair, turned round.
fn next_stops(n: usize, positions: &Positions, stops: &[bool; OPENINGS]) -> [i32; OPENINGS]
    requires { Ranged n positions.now }
    ensures { NextStops n positions.now stops.now result }
{
    let mut nexts = [0i32; OPENINGS];
    let mut next = positions.end;
    for i in (0..n).rev() {
        nexts[i] = next;
        if stops[i] {
            next = positions.at[i];
        }
    }
    nexts
}

// Whether a part is changed at an opening: it is a stop, and the next one, or the end, is too late after the change before.
fn is_forced(stop: bool, life: u32, prev: i32, next: i32) -> bool
    requires { (life ≤ longest_life) × Begins life prev × Position next }
    ensures { result ≡ (stop && not (within (pos life) prev next)) }
{
    stop && !keeps(life, prev, next)
}

// A part's changes at the last stop that still serves, over n openings. The change before begins at or below zero.
// Kept as a loop over the openings' places: four arrays meet at one place, and zipped they would be pairs in pairs, three deep.
// Kept apart from `late_to`: that one reads which openings are changes, and this one chooses them.
fn latest_of(
    n: usize,
    positions: &Positions,
    nexts: &[i32; OPENINGS],
    part: &Part,
    stops: &[bool; OPENINGS],
) -> Changes
    requires { Ranged n positions.now × NextStops n positions.now stops.now nexts.now × ValidPart n (part_of_lem n part.now) }
    ensures { take n result.at ≡ latest_from (pos part.now.life) positions.now.end (last_change_lem (part_of_lem n part.now)) (take n positions.now.at) (take n stops.now) }
{
    let life = part.life;
    let mut prev = last_change(life, part.left);
    let mut at = [false; OPENINGS];
    for i in 0..n {
        let change = is_forced(stops[i], life, prev, nexts[i]);
        at[i] = change;
        if change {
            prev = positions.at[i];
        }
    }
    Changes { at }
}

// The plan with these stops, at which each part is changed at the last that still serves.
// Kept as a loop over places: a rule of the project, that a record is taken out by a thin function over the slice that is lent.
pub fn latest_plan(job: &Accepted, stops: [bool; OPENINGS]) -> Plan
    ensures { plan_for job.now.job result ≡ latest_plan_of (job_of job.now.job) (take job.now.job.opening_count stops) }
{
    let positions = positions_of(job);
    let job = &job.job;
    let n = job.opening_count;
    let nexts = next_stops(n, &positions, &stops);
    let mut changes = [Changes {
        at: [false; OPENINGS],
    }; PARTS];
    let parts = &job.parts[..job.part_count];
    for k in 0..parts.len() {
        let part = part_at(parts, k);
        changes[k] = latest_of(n, &positions, &nexts, &part, &stops);
    }
    Plan { stops, changes }
}
