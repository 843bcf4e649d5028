ghost use Rattle.std.specs.Prelude.{◌≡◌, ◌≢◌, ◌⊎◌, ◌+◌, ◌<◌, ◌≤◌, ◌++◌, ◌∷◌, [], codes, length, take, ℕ, List, None, Some, IfSome, IfNone, IfOk, IfErr, OnOk, OnErr};
ghost use Rattle.std.specs.List.{AllByRecursion};
ghost use Rattle.causal_base.specs.declared.event.Event.{Event};
ghost use Rattle.causal_base.specs.Event.{IsFit};
ghost use Rattle.raw_reader.specs.Causes.{IsCause};
ghost use Rattle.raw_reader.specs.EventParts.{IsOneLine};
ghost use Rattle.raw_reader.specs.declared.cause.LineError.{LineError};
ghost use Rattle.raw_reader.specs.ReaderState.{HasRead, HasReadToEnd, KeepsWaiting};
ghost use Rattle.raw_reader.specs.Texts.{IsFitLine, piece_of, batches_with, line_bytes, line_of};

use crate::batch::Batch;
use crate::cause::{LineCause, LineError};
use crate::event::event_from_parts;
use crate::event_parts::parts_of;
use crate::limits::{MOST_IN_BATCH, MOST_INPUT, MOST_LINE};
use crate::split::first_line;
use causal_base::{Event, Types};
use std::alloc::{AllocError, Global};
use std::collections::VecDeque;
use std::marker::Model;
use std::mem;

/// Reads events from text that comes in any pieces, and hands them out in batches. It keeps the
/// line and the batch that are open, and the batches that wait.
#[derive(Debug, Drop)]
pub struct Reader<'a> {
    alloc: Global,
    types: &'a Types,
    size: u64,
    lines: u64,
    line: Vec<u8>,
    begun: Vec<Event>,
    waiting: VecDeque<Batch>,
    refusal: Option<LineError>,
}

impl<'a> Model for Reader<'a> {
    ghost use Rattle.std.specs.Prelude.{◌≤◌, ◌<◌, length};
    ghost use Rattle.raw_reader.specs.EventParts.{IsOneLine};
    ghost use Rattle.raw_reader.specs.ReaderState.{ReaderState};
    ghost use Rattle.raw_reader.specs.declared.limits.TheConstants.{MOST_INPUT, MOST_LINE, MOST_IN_BATCH};

    ghost Value = { ReaderState };

    ghost view = { λ r. record {
      types = r.types.now;
      size = r.size;
      lines = r.lines;
      tail = r.line.items;
      begun = r.begun.items;
      waiting = r.waiting.items;
      refusal = r.refusal;
    } };

    ghost invariant = { λ r. (r.lines ≤ r.size) × (r.size ≤ MOST_INPUT)
        × (length r.line.items ≤ MOST_LINE) × IsOneLine r.line.items
        × (length r.begun.items < MOST_IN_BATCH) };
}

impl<'a> Reader<'a> {
    /// A reader that was fed nothing.
    pub fn new(alloc: Global, types: &'a Types) -> Reader<'a>
        ensures empty { HasRead result [] [] }
        ensures going { result.refusal ≡ None }
        ensures types { result.types ≡ types.now }
        ensures none_waits { result.waiting ≡ [] }
    {
        Reader {
            alloc,
            types,
            size: 0,
            lines: 0,
            line: Vec::new(alloc),
            begun: Vec::new(alloc),
            waiting: VecDeque::new(alloc),
            refusal: None,
        }
    }

    /// Takes the next piece of the text. It is refused from the first fault on, and once memory ran
    /// out: then a piece changes nothing, and the refusal comes again.
    #[tactic(auto, using(crate::proofs::Waiting::keeps_same))]
    pub fn feed(&mut self, piece: &[u8]) -> Result<(), LineError>
        ensures types { self.new.types ≡ self.old.types }
        ensures stands { (fed : List ℕ) (taken : List (List Event)) → HasRead self.old fed taken
            → HasRead self.new (fed ++ piece.now) taken }
        ensures kept { KeepsWaiting self.old self.new }
        ensures again { (error : LineError) → self.old.refusal ≡ Some error → self.new ≡ self.old }
        ensures ok { OnOk result (self.new.refusal ≡ None) }
        ensures err { IfErr result (λ error. self.new.refusal ≡ Some error) }
    {
        let mut start = 0;
        while start < piece.len() {
            start += self.take_some(&piece[start..]);
        }
        self.answer()
    }

    /// Takes the end of the text: it closes the batch that is begun, and is refused within a line.
    /// A refusal from before comes again.
    #[tactic(auto, using(crate::proofs::Waiting::keeps_same))]
    pub fn end(&mut self) -> Result<(), LineError>
        ensures types { self.new.types ≡ self.old.types }
        ensures stands { (fed : List ℕ) (taken : List (List Event)) → HasRead self.old fed taken
            → HasReadToEnd self.new fed taken }
        ensures kept { KeepsWaiting self.old self.new }
        ensures again { (error : LineError) → self.old.refusal ≡ Some error → self.new ≡ self.old }
        ensures ok { OnOk result (self.new.refusal ≡ None) }
        ensures err { IfErr result (λ error. self.new.refusal ≡ Some error) }
    {
        if self.refusal.is_none() {
            self.end_text();
        }
        self.answer()
    }

    /// The refusal, if there was one.
    fn answer(&self) -> Result<(), LineError>
        ensures ok { OnOk result (self.now.refusal ≡ None) }
        ensures err { IfErr result (λ error. self.now.refusal ≡ Some error) }
    {
        match self.refusal {
            None => Ok(()),
            Some(error) => Err(error),
        }
    }

    /// Takes the end of the text where nothing was refused.
    #[tactic(auto, using(crate::proofs::Waiting::keeps_same))]
    fn end_text(&mut self)
        requires { self.old.refusal ≡ None }
        ensures types { self.new.types ≡ self.old.types }
        ensures stands { (fed : List ℕ) (taken : List (List Event)) → HasRead self.old fed taken
            → HasReadToEnd self.new fed taken }
        ensures kept { KeepsWaiting self.old self.new }
    {
        if !self.line.is_empty() {
            self.refuse(LineCause::Unended);
        } else if self.add(None).is_err() {
            self.refuse(LineCause::Oom);
        }
    }

    /// The oldest batch that waits, if one does.
    pub fn take_batch(&mut self) -> Option<Batch>
        ensures some { IfSome result (λ batch. self.old.waiting ≡ batch ∷ self.new.waiting) }
        ensures none { IfNone result (self.old.waiting ≡ []) }
        ensures same { IfNone result (self.new ≡ self.old) }
        ensures rest { self.new ≡ record self.old { waiting = self.new.waiting } }
        ensures fit { IfSome result (λ batch. (fed : List ℕ) (taken : List (List Event))
            → HasRead self.old fed taken ⊎ HasReadToEnd self.old fed taken
            → AllByRecursion (IsFit self.old.types) batch) }
        ensures stands { IfSome result (λ batch. (fed : List ℕ) (taken : List (List Event))
            → HasRead self.old fed taken → HasRead self.new fed (taken ++ batch ∷ [])) }
        ensures at_end { IfSome result (λ batch. (fed : List ℕ) (taken : List (List Event))
            → HasReadToEnd self.old fed taken → HasReadToEnd self.new fed (taken ++ batch ∷ [])) }
    {
        self.waiting.pop_front()
    }

    /// Takes the line that the bytes begin with where it may be taken whole, and else their first
    /// byte. Says how many bytes it took.
    #[tactic(auto, using(crate::proofs::Waiting::keeps_same))]
    fn take_some(&mut self, bytes: &[u8]) -> usize
        requires { 0 < length bytes.now }
        ensures some { 0 < result }
        ensures within { result ≤ length bytes.now }
        ensures types { self.new.types ≡ self.old.types }
        ensures stands { (fed : List ℕ) (taken : List (List Event)) → HasRead self.old fed taken
            → HasRead self.new (fed ++ take result bytes.now) taken }
        ensures kept { KeepsWaiting self.old self.new }
        ensures again { (error : LineError) → self.old.refusal ≡ Some error → self.new ≡ self.old }
    {
        match self.whole_line(bytes) {
            Some(line) => {
                self.take_line(line);
                line.len() + 1
            }
            None => {
                self.take(bytes[0]);
                1
            }
        }
    }

    /// The line that the bytes begin with, without its line feed. None where it can't be taken
    /// whole: a line is open or something was refused, it doesn't end within the bytes, or it goes
    /// past a limit.
    fn whole_line<'b>(&self, bytes: &'b [u8]) -> Option<&'b [u8]>
        ensures going { IfSome result (λ _. self.now.refusal ≡ None) }
        ensures at_start { IfSome result (λ _. self.now.tail ≡ []) }
        ensures ended { IfSome result (λ line. (rest : List ℕ)
            × (bytes.now ≡ line.now ++ 10 ∷ rest)) }
        ensures one_line { IfSome result (λ line. IsOneLine line.now) }
        ensures short { IfSome result (λ line. length line.now ≤ MOST_LINE) }
        ensures room { IfSome result (λ line. self.now.size + length line.now < MOST_INPUT) }
    {
        // Nothing is sought within an open line, so bytes without a line feed are looked through
        // once.
        if self.refusal.is_some() || !self.line.is_empty() {
            return None;
        }
        let line = first_line(bytes)?;
        if self.size + line.len() as u64 >= MOST_INPUT {
            return None;
        }
        Some(line)
    }

    /// Takes a whole line, and the line feed behind it.
    fn take_line(&mut self, line: &[u8])
        requires going { self.old.refusal ≡ None }
        requires at_start { self.old.tail ≡ [] }
        requires one_line { IsOneLine line.now }
        requires short { length line.now ≤ MOST_LINE }
        requires room { self.old.size + length line.now < MOST_INPUT }
        ensures types { self.new.types ≡ self.old.types }
        ensures stands { (fed : List ℕ) (taken : List (List Event)) → HasRead self.old fed taken
            → HasRead self.new (fed ++ (line.now ++ 10 ∷ [])) taken }
        ensures kept { KeepsWaiting self.old self.new }
    {
        let read = self.line_read(line);
        self.end_line(read, line.len() as u64 + 1);
    }

    /// Takes one byte, unless there was a refusal.
    #[tactic(auto, using(crate::proofs::Waiting::keeps_same))]
    fn take(&mut self, byte: u8)
        ensures types { self.new.types ≡ self.old.types }
        ensures stands { (fed : List ℕ) (taken : List (List Event)) → HasRead self.old fed taken
            → HasRead self.new (fed ++ byte ∷ []) taken }
        ensures kept { KeepsWaiting self.old self.new }
        ensures again { (error : LineError) → self.old.refusal ≡ Some error → self.new ≡ self.old }
    {
        if self.refusal.is_some() {
            return;
        }
        if self.size == MOST_INPUT {
            self.refuse(LineCause::TooLarge);
        } else if byte == b'\n' {
            let read = self.line_read(self.line.as_slice());
            self.end_line(read, 1);
        } else if self.line.len() == MOST_LINE {
            self.refuse(LineCause::LongLine);
        } else if self.line.push(byte).is_err() {
            self.refuse(LineCause::Oom);
        } else {
            self.size += 1;
        }
    }

    /// What a line says: an event, or none where it closes the batch.
    fn line_read(&self, line: &[u8]) -> Result<Option<Event>, LineCause>
        requires { IsOneLine line.now }
        ensures ok { IfOk result (λ said. IsFitLine self.now.types (line_of said)
            × (line.now ≡ line_bytes self.now.types (line_of said))) }
        ensures err { IfErr result (λ cause. (cause ≡ LineCause.Oom)
            ⊎ ((line.now ≢ codes ".") × IsCause self.now.types line.now cause)) }
    {
        if line == b".".as_slice() {
            return Ok(None);
        }
        let parts = match parts_of(line, self.types) {
            Ok(parts) => parts,
            Err(cause) => return Err(cause),
        };
        match event_from_parts(self.alloc, &parts) {
            Ok(event) => Ok(Some(event)),
            Err(_) => Err(LineCause::Oom),
        }
    }

    /// Takes what was read in a line that has ended. So many bytes of it are new: those that
    /// aren't kept, and its line feed.
    #[tactic(auto, using(crate::proofs::Waiting::keeps_same))]
    fn end_line(&mut self, read: Result<Option<Event>, LineCause>, bytes: u64)
        requires going { self.old.refusal ≡ None }
        requires some { 1 ≤ bytes }
        requires room { self.old.size + bytes ≤ MOST_INPUT }
        ensures types { self.new.types ≡ self.old.types }

        // Where `more` and a line feed are the new bytes, and `read` is what the line says.
        ensures stands { (line more fed : List ℕ) (taken : List (List Event))
            → self.old.tail ++ more ≡ line → IsOneLine line → length line ≤ MOST_LINE
            → length more + 1 ≡ bytes
            → IfOk read (λ said. IsFitLine self.old.types (line_of said)
            × (line ≡ line_bytes self.old.types (line_of said)))
            → IfErr read (λ cause. (cause ≡ LineCause.Oom)
            ⊎ ((line ≢ codes ".") × IsCause self.old.types line cause))
            → HasRead self.old fed taken → HasRead self.new (fed ++ (more ++ 10 ∷ [])) taken }
        ensures kept { KeepsWaiting self.old self.new }
    {
        match read {
            Ok(said) => {
                if self.add(said).is_err() {
                    self.refuse(LineCause::Oom);
                } else {
                    self.size += bytes;
                    self.lines += 1;
                    self.line.clear();
                }
            }
            Err(cause) => self.refuse(cause),
        }
    }

    /// Adds an event to the batch that is begun, and closes it once it is full, or where there is
    /// no event.
    fn add(&mut self, said: Option<Event>) -> Result<(), AllocError>
        ensures ok { OnOk result (record { closed = self.new.waiting; begun = self.new.begun }
            ≡ batches_with (record { closed = self.old.waiting; begun = self.old.begun })
            (line_of said)) }
        ensures err { OnErr result (self.new.waiting ≡ self.old.waiting) }
        ensures rest { self.new ≡ record self.old {
          waiting = self.new.waiting;
          begun
              = self.new.begun;
        } }
    {
        if let Some(event) = said {
            self.begun.push(event)?;
            if self.begun.len() < MOST_IN_BATCH {
                return Ok(());
            }
        }
        let events = mem::replace(&mut self.begun, Vec::new(self.alloc));
        self.close(events)
    }

    /// Hands out these events as a batch, if there are any.
    fn close(&mut self, events: Vec<Event>) -> Result<(), AllocError>
        requires { length events.items ≤ MOST_IN_BATCH }
        ensures ok { OnOk result (self.new ≡ record self.old
            { waiting = self.old.waiting ++ piece_of events.items }) }
        ensures err { OnErr result (self.new ≡ self.old) }
    {
        if events.is_empty() {
            return Ok(());
        }
        self.waiting.push_back(Batch::new(events))?;
        Ok(())
    }

    /// Refuses the line from now on. The batch that is begun is lost.
    fn refuse(&mut self, cause: LineCause)
        ensures { self.new ≡ record self.old {
          begun = [];
          refusal = Some
              (record { line = self.old.lines + 1; cause = cause });
        } }
    {
        self.begun.clear();
        self.refusal = Some(LineError {
            line: self.lines + 1,
            cause,
        });
    }
}
