// Classes of parts, as the tables hold them.
ghost use Rattle.part_classes.specs.Led.{Led};

use model::PARTS;

// The class of each lane, the first part of each class, and how many classes there are.
// Kept as an array with a count: no heap, fixed memory.
#[derive(Clone, Copy)]
pub struct Classes {
    pub lanes: [usize; PARTS],
    pub leads: [usize; PARTS],
    pub count: usize,
    pub ghost led: { Led lanes leads count },
}
