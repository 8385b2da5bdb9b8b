// What a line's node below is tested by.
ghost use Rattle.hall_lines.specs.Room.{roomy};

use search_state::Search;

// How a node below of one line is tested: the most nodes, the hall's estimate without the line's part sums and term, and the search so far.
#[derive(Clone, Copy)]
pub struct LineTest {
    pub limit: u64,
    pub rest: u64,
    pub s: Search,
    pub ghost room: { roomy rest },
}
