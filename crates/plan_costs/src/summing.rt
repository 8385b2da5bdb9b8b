// The sum of what is paid at each place: of fees, prices or removals.
ghost use Rattle.std.specs.Prelude.{◌≡◌, ℕ, ◌≤◌, ◌<◌, length, take};
ghost use Rattle.model.specs.Model.{sum, sum_at};
ghost use Rattle.model.specs.Limits.{most_openings};
ghost use Rattle.plan_costs.specs.Dearest.{dearest_sum, Cheap};

// The sum of what `value` says of each of the first n places.
// Kept with the limit of n in the clauses, here and below: it counts openings or parts, and no job stands beside it.
// Kept as a loop over the places: with `(0..n).map(value).sum()` two questions of `sum` stayed open, whether `value` may be asked at each turn and whether each run's total fits: the clauses tell of `value` at a place, and not of a run.
pub fn sum_of<F: Fn(usize) -> u64>(n: usize, value: F) -> u64
    requires few { n ≤ most_openings }
    requires asked { (k : ℕ) → k < n → F.pre value k }
    requires small { (k x : ℕ) → k < n → F.post value k x → x ≤ dearest_sum }
    ensures { (f : ℕ → ℕ) → ((k x : ℕ) → k < n → F.post value k x → x ≡ f k) → result ≡ sum 0 n f }
{
    let mut paid: u64 = 0;
    for k in 0..n {
        paid += value(k);
    }
    paid
}

// The numbers at a set of the first n places.
pub fn sum_at(n: usize, numbers: &[u32], marks: &[bool]) -> u64
    requires { (n ≤ most_openings) × (n ≤ length numbers.now) × (n ≤ length marks.now) × Cheap (take n numbers.now) }
    ensures { result ≡ sum_at (take n numbers.now) (take n marks.now) }
{
    sum_of(n, |k| if marks[k] { u64::from(numbers[k]) } else { 0 })
}
