// What an accepted job text says.
ghost use Rattle.std.specs.Prelude.{◌≡◌};
ghost use Rattle.job_grammar.specs.Grammar.{meant};
ghost use Rattle.job_grammar.specs.Valid.{Valid};
ghost use Rattle.job_text.specs.Said.{said_text, said_given};
ghost use Rattle.job_text.specs.Facts.{valid_fact};

use jobs::Accepted;
use model::PARTS;
use part_lines::said::PartSaid;

// What an accepted job text says: the number of its walk line, where that stands, what its parts' lines say, and the job that it means, which is valid at the low ends of its prices too.
// Kept with what is said beside the job's parts: the job is what the calls work on, and holds no lines.
#[derive(Clone, Copy)]
pub struct AcceptedText {
    pub walk: Option<u32>,
    pub said: [PartSaid; PARTS],
    pub job: Accepted,
    pub ghost means: { meant (said_text walk said job.job) ≡ said_given walk said job.job },
    pub ghost valid: { Valid (said_given walk said job.job) } by { valid_fact (said_given walk said job.job) },
}
