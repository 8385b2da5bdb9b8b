// The free sources of a level: rows that count for each last change what the estimate by shares lacks there of its highest. A walk from them finds what any completion costs above the estimate.
#![tactic(auto)]

ghost use Rattle.std.specs.Prelude.{◌≡◌, List, ℕ, ◌+◌, ◌*◌, ◌<◌, ◌≤◌, length, get_or};
ghost use Rattle.model.specs.Limits.{most_openings};
ghost use Rattle.lane_rows.specs.Layout.{lane_count_lem, inf, lanes_in, suffix_base, place};
ghost use Rattle.lane_rows.specs.Rows.{Turned, Put, Memo, sum_lanes};
ghost use Rattle.free_sources.specs.Free.{higher, highest_in, lacks, FreeRows};

use lane_rows::{INF, LANES, STACK, TABLES, base_row, row_of, total, turn};
use share_rows::put_top;

// Each lane's highest number so far, and its number at mark m of a level, if that is one.
fn raise(t: &[u32; TABLES], level: usize, m: usize, acc: &mut [u32])
    requires { (m ≤ level) × (level ≤ most_openings) × (lane_count_lem ≤ length acc.old) }
    ensures { Turned lane_count_lem (λ (q : ℕ). higher (get_or acc.old q 0) (get_or t.now (place suffix_base level m q) 0)) acc.old acc.new }
{
    let at = (row_of(level) + m) * LANES;
    turn(
        4,
        acc,
        |q, v| if t[at + q] < INF { v.max(t[at + q]) } else { v },
    );
}

// Each lane's highest number at a level, over the marks up to it.
fn highest_lanes(t: &[u32; TABLES], level: usize) -> [u32; LANES]
    requires { level ≤ most_openings }
    ensures { (q : ℕ) → q < lane_count_lem → get_or result q 0 ≡ highest_in t.now level q (level + 1) }
{
    let mut tops = [0; LANES];
    for m in 0..level + 1 {
        raise(t, level, m, &mut tops);
    }
    tops
}

// The row of mark m: what each lane's number there lacks of its highest; a lane without a number has no source.
fn put_source(t: &[u32; TABLES], tops: &[u32; LANES], w: &mut [u32; STACK], level: usize, m: usize)
    requires { (m ≤ level) × (level ≤ most_openings) }
    ensures put { Put lane_count_lem (λ (q : ℕ). lacks (get_or tops.now q 0) (get_or t.now (place suffix_base level m q) 0)) w.old w.new m m }
    ensures memo { (t : List ℕ) → lanes_in t ≡ lane_count_lem → Memo t w.old m → Memo t w.new (m + 1) }
{
    let at = (row_of(level) + m) * LANES;
    let mut lanes = *tops;
    turn(
        4,
        &mut lanes,
        |q, v| if t[at + q] < INF {
            v.saturating_sub(t[at + q])
        } else {
            INF
        },
    );
    put_top(w, m, m, &lanes);
}

// The rows of a level's free sources, one for each mark up to it; the sum of the lanes' highest numbers.
pub fn put_sources(t: &[u32; TABLES], w: &mut [u32; STACK], level: usize) -> u64
    requires { level ≤ most_openings }
    ensures rows { FreeRows t.now level w.new (level + 1) }
    ensures sum { result ≡ sum_lanes lane_count_lem (λ (q : ℕ). highest_in t.now level q (level + 1)) }
    ensures few { result ≤ lane_count_lem * inf }
{
    let tops = highest_lanes(t, level);
    base_row(w);
    for m in 0..level + 1 {
        put_source(t, &tops, w, level, m);
    }
    total(4, &tops)
}
