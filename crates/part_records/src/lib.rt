// "A part has a life L and a first life R": the parts as a lent slice of records, from which one is taken out by value; and the numbers of one.
// Place i holds part number i + 1.
#![tactic(auto)]

ghost use Rattle.std.specs.Prelude.{◌≡◌, ◌<◌, length};
ghost use Rattle.part_records.specs.Records.{record_at};

use jobs::Part;

// The record at place i of the parts lent.
// Kept with the place in the clause, here and below: a slice may be lent with any number of parts, and a place that is not there has no record.
pub fn part_at(parts: &[Part], i: usize) -> Part
    requires { i < length parts.now }
    ensures { result ≡ record_at parts.now i }
{
    parts[i]
}

// The life of the part at place i of the parts lent.
pub fn life_of(parts: &[Part], i: usize) -> u32
    requires { i < length parts.now }
    ensures { result ≡ (record_at parts.now i).life }
{
    part_at(parts, i).life
}

// What is left of the first life of the part at place i of the parts lent.
pub fn left_of(parts: &[Part], i: usize) -> u32
    requires { i < length parts.now }
    ensures { result ≡ (record_at parts.now i).left }
{
    part_at(parts, i).left
}

// What removing the part at place i of the parts lent costs.
pub fn removal_of(parts: &[Part], i: usize) -> u32
    requires { i < length parts.now }
    ensures { result ≡ (record_at parts.now i).removal }
{
    part_at(parts, i).removal
}
