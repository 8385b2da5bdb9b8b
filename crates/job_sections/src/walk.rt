// The walk line of a job text, which may stand and is set aside.
ghost use Rattle.lines.specs.Parser.{optional};
ghost use Rattle.lines.specs.Reads.{Reads};
ghost use Rattle.model.specs.Limits.{most_walk};

use jobs::Job;
use lines::fault::Fault;
use lines::rows::Lines;

// The walk line's number: none where the text does not go on with its key.
pub fn read_walk(lines: &mut Lines) -> Result<Option<u32>, Fault>
    ensures { Reads (optional "walk=" 0 most_walk) lines.old lines.new result }
{
    lines.optional(b"walk=", 0, Job::MAX_WALK)
}
