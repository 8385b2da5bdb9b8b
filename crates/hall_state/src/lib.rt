// Where the hall's walk stands: what it reads, and the question that is next, of the crew, of a line, or of a part at a line's stop.
#![tactic(auto)]

ghost use Rattle.std.specs.Prelude.{◌≡◌, ℕ, ◌+◌, ◌<◌};
ghost use Rattle.model.specs.Limits.{most_openings};
ghost use Rattle.hall_state.specs.Spots.{line_spot, stop_spot, call_spot};

use hall_lines::{LineTables, Stop};
use hall_steps::CrewSteps;
use search_state::Search;

// What the walk only reads: each line's tables, and the crew's steps.
// Kept as four lines, of which the hall has as many as the crew's steps say: no heap, fixed memory.
// Kept apart from the lines' rows in each function of the walk: a struct of both, lent to be written, would have to say of each call that the tables and steps stay as they are.
#[derive(Drop)]
pub struct Ground {
    pub lines: [LineTables; 4],
    pub ats: CrewSteps,
}

// What is asked next: the crew's call at the step, a stop of the line at hand, or a removal at this stop of it.
// Kept as an enum of its own: three kinds of question, of which none is an absence or a refusal.
#[derive(Clone, Copy)]
pub enum Question {
    CrewCall,
    LineStop,
    PartRemoval(Stop),
}

// A node that is walked on: what is asked there; so many steps asked; the line at hand; and the hall's estimate.
#[derive(Clone, Copy)]
pub struct Spot {
    pub asks: Question,
    pub step: usize,
    pub line: usize,
    pub total: u64,
}

// A branch below a question: the spot where it is asked, the answer, the most nodes, and the search so far.
// Kept with the answer as a value: it is a decision of the search tree, as the contracts say it too, and each question has one function for both answers.
#[derive(Clone, Copy)]
pub struct Branch {
    pub p: Spot,
    pub yes: bool,
    pub limit: u64,
    pub s: Search,
}

impl Spot {
    // On with the lines from this place on, at the step.
    pub fn lines_from(self, line: usize, total: u64) -> Spot
        ensures { result ≡ line_spot self line total }
    {
        Spot {
            asks: Question::LineStop,
            line,
            total,
            ..self
        }
    }

    // A stop of the line at hand, with its removals decided so far.
    pub fn stopping(self, stop: Stop, total: u64) -> Spot
        ensures { result ≡ stop_spot self stop total }
    {
        Spot {
            asks: Question::PartRemoval(stop),
            total,
            ..self
        }
    }

    // On with the next step.
    pub fn next_step(self, total: u64) -> Spot
        requires { self.step < most_openings }
        ensures { result ≡ call_spot self total }
    {
        Spot {
            asks: Question::CrewCall,
            step: self.step + 1,
            line: 0,
            total,
        }
    }
}
