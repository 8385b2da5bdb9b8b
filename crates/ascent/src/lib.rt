// Shares of a job by an integer ascent: rounds that raise the sum of what the parts bear at least. Nothing is said of how good they are; whoever uses them checks that they are fair.
#![tactic(auto)]

mod row;
pub mod task;

ghost use Rattle.std.specs.Prelude.{◌+◌, ◌*◌, ◌<◌, ◌≤◌};
ghost use Rattle.lane_rows.specs.Layout.{lane_count_lem, inf};
ghost use Rattle.model.specs.Limits.{most_openings, most_parts};

use ascent_lanes::job::Scaled;
use ascent_lanes::{BORNE, PLACES, first_marks, narrow, product, scaled_prices};
use lane_rows::{COUNT, FEES, LANES, TABLES};
use model::{OPENINGS, PARTS};
use row::{Row, WHOLE, WHOLE_STEP, go, level_row, round_row};
use share_rows::{HOLDS, REMOVALS, SHARES, TAKES};
use task::{THINGS, Task};

// The finest scale: so many parts of one.
const FINEST: u32 = 256;

// How often the scale may be halved, from the finest on.
const HALVINGS: usize = 8;

// The most rounds of an ascent.
const ROUNDS: usize = 400;

// What the ascent holds beside its tables: the highest value so far, how far a step goes, in parts of a whole one, and for how many rounds no higher value came.
#[derive(Clone, Copy)]
struct Climb {
    bound: u64,
    reach: u32,
    since: u32,
}

// The shares as whole numbers.
fn round_all(things: usize, scale: u32, u: &mut [u32; PLACES])
    requires { things ≤ most_parts + 1 }
{
    let (rows, _) = u.as_chunks_mut::<LANES>();
    for shares in rows[..things * OPENINGS].iter_mut() {
        round_row(shares, scale);
    }
}

// The scale of the ascent: the finest at which a sum of so much stays below the number for Missing.
fn scale_of(most: u64) -> u32 {
    let mut scale = FINEST;
    for _ in 0..HALVINGS {
        if 1000000000 < product(narrow(most), scale) {
            scale /= 2;
        }
    }
    scale
}

// How far to go along the direction, in parts of a whole step.
fn step_size(reach: u32, gap: u64, norm: u64) -> u32 {
    if norm == 0 {
        return 0;
    }
    let p = product(reach, narrow(gap));
    if p < 1125899906842624 {
        return narrow(p * u64::from(WHOLE) / norm);
    }
    narrow(p / norm)
}

impl Climb {
    // How the climb stands after a round whose table has the value z: a step goes less far where no higher value came for 15 rounds.
    fn after(self, z: u64) -> Climb {
        if self.bound < z {
            return Climb {
                bound: z,
                since: 0,
                ..self
            };
        }
        if self.since < 14 {
            return Climb {
                since: self.since + 1,
                ..self
            };
        }
        Climb {
            reach: self.reach.min(WHOLE_STEP) * 5 / 8,
            since: 0,
            ..self
        }
    }
}

// ---- all rows: row r is that of thing r / OPENINGS at opening r % OPENINGS

impl<'a, 'b> Task<'a, 'b> {
    // What the thing of row r costs at its opening: the fee, or a removal; 0 past the last opening.
    // Kept beside the cost of a row that `fair_shares` has: there a removal costs past the last opening too.
    fn worth(&self, r: usize) -> u32
        requires { r < (most_parts + 1) * most_openings }
    {
        let k = r % OPENINGS;
        if self.job.openings <= k {
            return 0;
        }
        if r < OPENINGS {
            return self.job.t[FEES + k];
        }
        self.x[REMOVALS + (r / OPENINGS - 1)]
    }

    // Row r: which parts take its thing, and what that costs.
    fn row(&self, r: usize) -> Row<'b>
        requires { r < (most_parts + 1) * most_openings }
    {
        let x = self.x;
        let at = TAKES + r / OPENINGS * LANES;
        Row {
            takes: &x[at..at + LANES],
            users: self.users[r / OPENINGS],
            worth: self.worth(r),
        }
    }

    // All that things cost at the openings.
    fn worth_all(&self) -> u64 {
        (0..self.job.things * OPENINGS)
            .map(|r| u64::from(self.worth(r)))
            .fold(0, u64::wrapping_add)
    }

    // The shares to begin with: each thing evenly among its users.
    fn split(&self, u: &mut [u32; PLACES]) {
        let (rows, _) = u.as_chunks_mut::<LANES>();
        for (r, shares) in rows[..self.job.things * OPENINGS].iter_mut().enumerate() {
            let row = self.row(r);
            row.split(narrow(row.cap(self.job.scale)), self.job.parts, shares);
        }
    }

    // The direction of all shares, and how long it is: of each row whose thing costs something and is shared.
    fn turn<const FOURS: usize>(&self, changed: &[u32; BORNE], d: &mut [u32; PLACES]) -> u64
        requires { FOURS ≤ 4 }
    {
        let mut norm: u64 = 0;
        let (rows, _) = d.as_chunks_mut::<LANES>();
        for (r, d) in rows[..self.job.things * OPENINGS].iter_mut().enumerate() {
            let row = self.row(r);
            if row.worth != 0 && 2 <= row.users {
                let at = r % OPENINGS * LANES;
                norm = norm.wrapping_add(row.turn::<FOURS>(&changed[at..at + LANES], d));
            }
        }
        norm / u64::from(WHOLE)
    }

    // A step along the direction, of all shares.
    fn go<const FOURS: usize>(&self, size: u32, d: &[u32; PLACES], u: &mut [u32; PLACES])
        requires { FOURS ≤ 4 }
    {
        let (turned, _) = d.as_chunks::<LANES>();
        let (rows, _) = u.as_chunks_mut::<LANES>();
        let all = rows[..self.job.things * OPENINGS].iter_mut();
        for (r, (shares, d)) in all.zip(turned).enumerate() {
            let row = self.row(r);
            if row.worth != 0 && 2 <= row.users {
                let sum = go::<FOURS>(size, d, shares);
                level_row::<FOURS>(shares, sum.saturating_sub(row.cap(self.job.scale)));
            }
        }
    }

    // One round: the value of the table u, and a step from it; a table of a higher value than before is kept.
    fn round<const FOURS: usize>(
        &self,
        c: Climb,
        d: &mut [u32; PLACES],
        u: &mut [u32; PLACES],
        best: &mut [u32; PLACES],
    ) -> Climb
        requires { FOURS ≤ 4 }
    {
        let mut changed = [0; BORNE];
        let z = self.job.least_sum::<FOURS>(u, &mut changed);
        if c.bound < z {
            let all = self.job.things * OPENINGS * LANES;
            best[..all].copy_from_slice(&u[..all]);
        }
        let next = c.after(z);
        let norm = self.turn::<FOURS>(&changed, d);
        let aim = next.bound.wrapping_add(next.bound / 24);
        let gap = aim.saturating_sub(z).wrapping_add(1);
        self.go::<FOURS>(step_size(next.reach, gap, norm), d, u);
        next
    }

    // The rounds, until steps are too small, from shares that each thing's users bear evenly.
    fn rounds<const FOURS: usize>(&self, best: &mut [u32; PLACES])
        requires { FOURS ≤ 4 }
    {
        let mut u = [0; PLACES];
        let mut d = [0; PLACES];
        self.split(&mut u);
        best.copy_from_slice(&u);
        let mut c = Climb {
            bound: 0,
            reach: WHOLE_STEP,
            since: 0,
        };
        for _ in 0..ROUNDS {
            if c.reach <= 2 {
                break;
            }
            c = self.round::<FOURS>(c, &mut d, &mut u, best);
        }
    }

    // The rounds, with as many fours of lanes as the parts fill: each number of them is compiled for itself.
    fn climb(&self, best: &mut [u32; PLACES]) {
        let parts = self.job.parts;
        if parts <= 4 {
            return self.rounds::<1>(best);
        }
        if parts <= 8 {
            return self.rounds::<2>(best);
        }
        if parts <= 12 {
            return self.rounds::<3>(best);
        }
        self.rounds::<4>(best)
    }
}

// How many parts take each thing.
// Kept as a cast: the library has no `From` of a `usize` for a `u32`.
fn users_of(x: &[u32; SHARES], parts: usize) -> [u32; THINGS]
    requires { parts ≤ most_parts }
{
    let mut users = [0; THINGS];
    let (takes, _) = x[TAKES..].as_chunks::<LANES>();
    for (users, takes) in users.iter_mut().zip(takes) {
        *users = takes[..parts].iter().filter(|taken| **taken != 0).count() as u32;
    }
    users
}

// The scale of the ascent of a job.
fn scale_for(job: Scaled, x: &[u32; SHARES], users: [u32; THINGS]) -> u32 {
    let task = Task { job, x, users };
    scale_of(task.worth_all())
}

// Shares of the job in the tables, and the value of their table.
// Kept with the limit of parts in the clause: nothing is known of the numbers in the tables.
pub fn ascend(t: &[u32; TABLES], x: &[u32; SHARES], parts: usize, best: &mut [u32; PLACES]) -> u64
    requires { parts ≤ most_parts }
    ensures { result ≤ lane_count_lem * inf }
{
    // Kept as casts: the library has no `From` of a `u32` for a `usize`.
    let openings = (t[COUNT] as usize).min(OPENINGS);
    let things = (x[HOLDS] as usize).min(PARTS) + 1;
    let firsts = first_marks(t, openings, parts);
    let users = users_of(x, parts);
    let whole = scaled_prices(t, 1);
    let coarse = Scaled {
        t,
        prices: &whole,
        firsts: &firsts,
        openings,
        things,
        parts,
        scale: 1,
    };
    let scale = scale_for(coarse, x, users);
    let fine = scaled_prices(t, scale);
    // Kept as a second literal: a field that is a reference can't be given one of another lifetime, and `..coarse` is refused for a struct with ghost fields.
    let job = Scaled {
        t,
        prices: &fine,
        firsts: &firsts,
        openings,
        things,
        parts,
        scale,
    };
    let task = Task { job, x, users };
    task.climb(best);
    round_all(things, scale, best);
    let mut changed = [0; BORNE];
    coarse.least_sum::<4>(best, &mut changed)
}
