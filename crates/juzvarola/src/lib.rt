// The library for hosts in C, Rust and other languages: include/juzvarola.h declares these functions.
#![tactic(auto)]

ghost use Rattle.std.specs.Prelude.{◌≡◌, length};
ghost use Rattle.answers.specs.Said.{lent, Replied};
ghost use Rattle.form.specs.Form.{filled};
ghost use Rattle.form.specs.Write.{write_said, write_room};
ghost use Rattle.form.specs.Promise.{WritePromise};
ghost use Rattle.counting.specs.Count.{count_said};
ghost use Rattle.counting.specs.Promise.{CountPromise};
ghost use Rattle.judging.specs.Judge.{judge_said, judge_room};
ghost use Rattle.judging.specs.Promise.{JudgePromise};
ghost use Rattle.serving.specs.Serve.{latest_said, latest_room};
ghost use Rattle.serving.specs.Promise.{ServePromise};
ghost use Rattle.carrying.specs.Carry.{carry_said, carry_room};
ghost use Rattle.carrying.specs.Promise.{CarryPromise};
ghost use Rattle.planning.specs.Plan.{plan_said, plan_room};
ghost use Rattle.planning.specs.Promise.{PlanPromise};
ghost use Rattle.optimizing.specs.Promise.{Answered};
ghost use Rattle.hall_planning.specs.Hall.{hall_said, hall_room};
ghost use Rattle.hall_planning.specs.Promise.{HallPromise};
ghost use Rattle.juzvarola.specs.Version.{version_number};

use answers::Answer;
use counting::Counted;

// The version's three numbers, as the header's macros have them.
const MAJOR: u32 = 0;

const MINOR: u32 = 13;

const PATCH: u32 = 0;

// The library's version as one number: the major a million fold, the minor a thousand fold, the patch.
#[unsafe(no_mangle)]
pub extern "C" fn juzvarola_version() -> u32
    ensures { result ≡ version_number }
{
    MAJOR * 1000000 + MINOR * 1000 + PATCH
}

// Plans a job text, walked up to a walk number.
#[unsafe(no_mangle)]
pub extern "C" fn juzvarola_plan(job: &[u8], walk: u64, out: &mut [u8]) -> Answer
    ensures replied { Replied plan_room (plan_said job.now walk) out.old out.new result }
    ensures plan_promise { PlanPromise job.now walk (length out.old) (lent plan_room (length out.old) (plan_said job.now walk)) }
{
    planning::plan(job, walk, out)
}

// Plans a job text by fair shares, each walk of the job up to a walk number: the planner's plan, also where its own walk is hopeless.
#[unsafe(no_mangle)]
pub extern "C" fn juzvarola_optimum(job: &[u8], walk: u64, out: &mut [u8]) -> Answer
    ensures { Answered job.now walk out.old out.new result }
{
    optimizing::optimum(job, walk, out)
}

// Plans a hall text, walked up to a walk number: the lines' plans, with the crew's calls.
#[unsafe(no_mangle)]
pub extern "C" fn juzvarola_hall(text: &[u8], walk: u64, out: &mut [u8]) -> Answer
    ensures replied { Replied hall_room (hall_said text.now walk) out.old out.new result }
    ensures hall_promise { HallPromise text.now walk (length out.old) (lent hall_room (length out.old) (hall_said text.now walk)) }
{
    hall_planning::hall(text, walk, out)
}

// Weighs a plan text against a job text.
#[unsafe(no_mangle)]
pub extern "C" fn juzvarola_judge(job: &[u8], plan: &[u8], out: &mut [u8]) -> Answer
    ensures replied { Replied judge_room (judge_said job.now plan.now) out.old out.new result }
    ensures judge_promise { JudgePromise job.now plan.now (length out.old)
        (lent judge_room (length out.old) (judge_said job.now plan.now)) }
{
    judging::judge(job, plan, out)
}

// Changes each part of a job text at the last stop of a plan text that still serves.
#[unsafe(no_mangle)]
pub extern "C" fn juzvarola_latest(job: &[u8], plan: &[u8], out: &mut [u8]) -> Answer
    ensures replied { Replied latest_room (latest_said job.now plan.now) out.old out.new result }
    ensures serve_promise { ServePromise job.now plan.now (length out.old)
        (lent latest_room (length out.old) (latest_said job.now plan.now)) }
{
    serving::latest(job, plan, out)
}

// Carries on from a job text by a log of what was done: writes the job that is left.
#[unsafe(no_mangle)]
pub extern "C" fn juzvarola_carry(job: &[u8], log: &[u8], out: &mut [u8]) -> Answer
    ensures replied { Replied carry_room (carry_said job.now log.now) out.old out.new result }
    ensures carry_promise { CarryPromise job.now log.now (length out.old)
        (lent carry_room (length out.old) (carry_said job.now log.now)) }
{
    carrying::carry(job, log, out)
}

// Writes the job text of a form.
// Kept as a row of lists: C hands over a list as a pointer and a length, and has no struct of them.
#[unsafe(no_mangle)]
pub extern "C" fn juzvarola_write(
    horizon: u32,
    idles: &[u32],
    openings: &[u32],
    fees: &[u32],
    lives: &[u32],
    lefts: &[u32],
    covered: &[u32],
    removals: &[u32],
    insides: &[u32],
    holders: &[u32],
    ruled: &[u32],
    bases: &[u32],
    drops: &[u32],
    leasts: &[u32],
    banded: &[u32],
    lows: &[u32],
    prices: &[u32],
    out: &mut [u8],
) -> Answer
    ensures replied { Replied write_room (write_said (filled horizon idles.now openings.now fees.now lives.now lefts.now covered.now removals.now insides.now holders.now ruled.now bases.now drops.now leasts.now banded.now lows.now prices.now)) out.old out.new result }
    ensures write_promise { WritePromise (filled horizon idles.now openings.now fees.now lives.now lefts.now covered.now removals.now insides.now holders.now ruled.now bases.now drops.now leasts.now banded.now lows.now prices.now) (length out.old)
        (lent write_room (length out.old) (write_said (filled horizon idles.now openings.now fees.now lives.now lefts.now covered.now removals.now insides.now holders.now ruled.now bases.now drops.now leasts.now banded.now lows.now prices.now))) }
{
    form::write(
        horizon, idles, openings, fees, lives, lefts, covered, removals, insides, holders, ruled,
        bases, drops, leasts, banded, lows, prices, out,
    )
}

// How long the walk of a job text may become.
#[unsafe(no_mangle)]
pub extern "C" fn juzvarola_count(job: &[u8]) -> Counted
    ensures { (result ≡ count_said job.now) × CountPromise job.now result }
{
    counting::count(job)
}
