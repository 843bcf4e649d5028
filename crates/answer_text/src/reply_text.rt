ghost use Rattle.poet_io.specs.Writes.{Writes};
ghost use Rattle.answer_text.specs.Texts.{text_of_reply, IsPrintable};

use crate::answer::put_answer;
use crate::counted::put_counted;
use crate::cut::put_cut;
use crate::event::put_event;
use crate::found::put_found;
use crate::id::put_id;
use crate::reply::Reply;
use crate::stamp::put_stamp;
use causal_base::{Answer, Types};
use poet_io::{Failed, Sink, put};

/// Writes a reply. It isn't `Later`, and an event that it shows is fit for the types.
pub fn put_reply<K: Sink>(out: &mut K, types: &Types, reply: &Reply) -> Result<(), Failed>
    requires { IsPrintable types.now reply.now }
    ensures { Writes (K.state out.old) (K.state out.new)
        (text_of_reply types.now reply.now) result }
{
    match reply {
        Reply::Yes => put_answer(out, Answer::Known(true)),
        Reply::No => put_answer(out, Answer::Known(false)),
        Reply::NotYet(id) => put_answer(out, Answer::NotYet(*id)),
        Reply::Before => put(out, b"before"),
        Reply::After => put(out, b"after"),
        Reply::Concurrent => put(out, b"concurrent"),
        Reply::Same => put(out, b"same"),
        Reply::Partners => put(out, b"partners"),
        Reply::Shown(event) => put_event(out, types, event),
        Reply::Stamped { level, parts } => put_stamp(out, *level, parts.as_slice()),
        Reply::Found { tuples, more } => put_found(out, tuples.as_slice(), *more),
        Reply::Id(id) => put_id(out, *id),
        Reply::Nothing => put(out, b"none"),
        Reply::Cut(counts) => put_cut(out, counts.as_slice()),
        Reply::Counted {
            accepted,
            delivered,
            held,
        } => put_counted(out, *accepted, *delivered, *held),
        Reply::Here => put(out, b"here"),
        Reply::Closed => put(out, b"closed"),
        Reply::Later => unreachable!(),
    }
}
