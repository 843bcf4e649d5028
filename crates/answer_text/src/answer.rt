ghost use Rattle.poet_io.specs.Writes.{Writes};
ghost use Rattle.answer_text.specs.Texts.{text_of_answer};

use crate::id::put_id_after;
use causal_base::Answer;
use poet_io::{Failed, Sink, put};

/// Writes the answer to whether one event happened before another.
pub fn put_answer<K: Sink>(out: &mut K, answer: Answer<bool>) -> Result<(), Failed>
    ensures { Writes (K.state out.old) (K.state out.new) (text_of_answer answer) result }
{
    match answer {
        Answer::Known(true) => put(out, b"yes"),
        Answer::Known(false) => put(out, b"no"),
        Answer::NotYet(id) => put_id_after(out, b"notyet ", id),
    }
}
