ghost use Rattle.std.specs.Prelude.{◌≡◌};

use causal_base::Answer;
use poet_io::{Failed, Sink, put};
use text_buffer::Printed;

/// The line of an answer.
#[derive(Debug, Drop)]
pub struct AnswerLine {
    pub answer: Answer<bool>,
}

impl Printed for AnswerLine {
    ghost use Rattle.std.specs.Prelude.{◌++◌, codes};
    ghost use Rattle.answer_text.specs.Texts.{text_of_answer};

    ghost text = { λ line. text_of_answer line.answer ++ codes "\n" };

    ghost printable = { λ line. Unit {0} };

    fn put<K: Sink>(&self, out: &mut K) -> Result<(), Failed> {
        answer_text::put_answer(out, copy_of(&self.answer))?;
        put(out, b"\n")
    }
}

fn copy_of(answer: &Answer<bool>) -> Answer<bool>
    ensures { result ≡ answer.now }
{
    match answer {
        Answer::Known(before) => Answer::Known(*before),
        Answer::NotYet(id) => Answer::NotYet(*id),
    }
}
