//! From words and a source to an output, all of it in memory.
ghost use Rattle.std.specs.Prelude.{◌≡◌, ◌≤◌, map, string_bytes, IfOk, IsErrOf};
ghost use Rattle.clf_base.specs.Causes.{Rose};
ghost use Rattle.clafer_run.specs.Words.{ReadsSource};
ghost use Rattle.clafer_run.specs.Run.{IsAnswer, ReadsWithinLimit};

use crate::answer::{answer_to, answer_to_generated, told_too_long};
use crate::ending::Ending;
use crate::input::{Stop, Text, read_text};
use crate::reply::Reply;
use clf_base::{List, Source, Status};
use command_words::words_of;
use search_guide::Guide;
use std::alloc::Global;

/// The output and the ending for the words and the source's text.
pub(crate) fn respond<S: Source>(
    alloc: Global,
    words: &[String],
    source: &mut S,
    guide: &Guide,
) -> Result<Reply, Stop>
    ensures answer { IfOk result (λ reply. IsAnswer (map string_bytes words.now)
        (S.rest source.old) (S.rest source.new) reply.output reply.ending) }
    ensures read_fault { IsErrOf result Stop.ReadFault → Rose (S.faults source.old) (S.faults source.new) }
    ensures before_limit { IsErrOf result Stop.ReadFault → ReadsWithinLimit (S.rest source.old) (S.rest source.new) }
    ensures readable { IsErrOf result Stop.ReadFault → ReadsSource (map string_bytes words.now) }
    ensures unread { (ReadsSource (map string_bytes words.now) → ⊥) → source.new ≡ source.old }
    ensures later { S.faults source.old ≤ S.faults source.new }
{
    let Some(request) = words_of(alloc, words)? else {
        return Ok(Reply {
            ending: Ending::bare(Status::BadWords),
            output: List::from_slice(alloc, b"error words\n")?,
        });
    };
    if let Some(number) = request.generate {
        return Ok(answer_to_generated(alloc, &request, number, guide)?);
    }
    match read_text(alloc, source)? {
        Text::TooLong => Ok(told_too_long(alloc)?),
        Text::Whole(text) => Ok(answer_to(alloc, &request, text.as_slice(), guide)?),
    }
}
