// What a job text says.
ghost use Rattle.std.specs.Prelude.{◌≡◌};
ghost use Rattle.job_grammar.specs.Grammar.{meant};
ghost use Rattle.job_text.specs.Said.{said_text, said_given};

use jobs::Job;
use model::PARTS;
use part_lines::said::PartSaid;

// What a job text says: the number of its walk line, where that stands, what its parts' lines say, and the job that it means.
// Kept with what is said beside the job's parts: the job is what the calls work on, and holds no lines.
#[derive(Clone, Copy)]
pub struct JobText {
    pub walk: Option<u32>,
    pub said: [PartSaid; PARTS],
    pub job: Job,
    ghost means: { meant (said_text walk said job) ≡ said_given walk said job },
}
