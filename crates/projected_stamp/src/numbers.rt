//! The numbers of all stamps, one stamp's after another's, in blocks.

ghost use Rattle.std.specs.Prelude.{◌≡◌, ◌+◌, ◌<◌, ◌≤◌, [], ◌∷◌, ◌++◌, All, length, vec_len, vec_capacity, IfOk, OnOk, OnErr};
ghost use Rattle.causal_base.specs.declared.limits.TheConstants.{MOST_TRACES};
ghost use Rattle.shared_list.specs.Traces.{list_of};
ghost use Rattle.projected_stamp.specs.Parts.{numbers_for};
ghost use Rattle.projected_stamp.specs.Runs.{HasRun, IsRun, Stay, run_of};

use causal_base::MOST_TRACES;
use shared_list::{Piece, SharedList};
use std::alloc::{AllocError, Global};
use std::marker::Model;
use std::mem;
use std::sync::Arc;

/// How many numbers a block has room for.
const BLOCK_NUMBERS: usize = 8_192;

/// How many numbers two runs have at most.
const TWO_RUNS: usize = 2 * MOST_TRACES as usize;

/// How many blocks there may be, so that the number of each has 32 bits.
const MOST_BLOCKS: u64 = u32::MAX as u64;

/// Where the numbers of a stamp lie: in which block, and from which place on.
#[derive(Debug, Clone, Copy)]
pub(crate) struct Run {
    pub(crate) block: u32,
    pub(crate) from: u32,
}

/// A block that is closed, which all shares hold in common.
#[derive(Debug, Drop)]
struct Block {
    numbers: Arc<Vec<u32>>,
}

impl Model for Block {
    ghost use Rattle.std.specs.Prelude.{ℕ, List};

    ghost Value = { List ℕ };

    ghost view = { λ b. b.numbers.value.items };
}

impl Piece for Block {
    fn copy(&self, _alloc: Global) -> Result<Block, AllocError> {
        Ok(Block {
            numbers: self.numbers.clone()?,
        })
    }
}

/// Runs of numbers. Each lies in one block, so that it is read as it lies. Contracts see the blocks,
/// of which the last one is open, and for how many more runs there is room.
#[derive(Debug, Drop)]
pub(crate) struct Numbers {
    closed: SharedList<Block>,
    last: Vec<u32>,
    room: u32,
}

impl Model for Numbers {
    ghost use Rattle.std.specs.Prelude.{◌+◌, ◌*◌, ◌≤◌, [], ◌∷◌, ◌++◌, length, vec_len, vec_capacity};
    ghost use Rattle.causal_base.specs.declared.limits.TheConstants.{MOST_TRACES};
    ghost use Rattle.projected_stamp.specs.Runs.{NumberBlocks};

    ghost Value = { NumberBlocks };

    ghost view = { λ n. record {
      blocks = n.closed.items ++ n.last.items ∷ [];
      room = n.room;
    } };

    ghost invariant = { λ n. (vec_len n.last + n.room * MOST_TRACES ≤ vec_capacity n.last)
        × (vec_len n.last + n.room * MOST_TRACES ≤ 8192) × (n.room ≤ 2)
        × (length n.closed.items ≤ 4294967295) };
}

impl Numbers {
    /// No numbers, and no room. It takes no memory.
    pub(crate) fn new(alloc: Global) -> Numbers
        ensures room { result.room ≡ 0 }
    {
        Numbers {
            closed: SharedList::new(alloc),
            last: Vec::new(alloc),
            room: 0,
        }
    }

    /// Makes room for two more runs. It fails where there is no memory.
    pub(crate) fn reserve(&mut self) -> Result<(), AllocError>
        ensures stay { Stay self.old.blocks self.new.blocks }
        ensures room { OnOk result (2 ≤ self.new.room) }
        ensures kept { self.old.room ≤ self.new.room }
    {
        let most = self.last.capacity().min(BLOCK_NUMBERS);
        if self.last.len() + TWO_RUNS > most {
            close(&mut self.closed, &mut self.last)?;
        }
        self.room = 2;
        Ok(())
    }

    /// Adds what a clock has for these traces, and tells where it lies. It takes no memory.
    pub(crate) fn add(&mut self, traces: &[u32], clock: &[u32]) -> Run
        requires within { All (λ trace. trace < length clock.now) traces.now }
        requires few { length traces.now ≤ MOST_TRACES }
        requires room { 1 ≤ self.old.room }
        ensures run { IsRun self.new.blocks result (numbers_for clock.now traces.now) }
        ensures stay { Stay self.old.blocks self.new.blocks }
        ensures room { self.new.room + 1 ≡ self.old.room }
    {
        let run = Run {
            block: self.closed.len() as u32,
            from: self.last.len() as u32,
        };
        push_each(&mut self.last, traces, clock);
        self.room -= 1;
        run
    }

    /// The numbers of a run, so many.
    pub(crate) fn get(&self, run: Run, count: usize) -> &[u32]
        requires { HasRun self.now.blocks run count }
        ensures { result.now ≡ run_of self.now.blocks run count }
    {
        let from = run.from as usize;
        &self.block(run.block)[from..from + count]
    }

    /// The same numbers, with no room. It holds the closed blocks in common and copies the open one,
    /// and fails where there is no memory.
    pub(crate) fn share(&self, alloc: Global) -> Result<Numbers, AllocError>
        ensures blocks { IfOk result (λ shared. shared.blocks ≡ self.now.blocks) }
        ensures room { IfOk result (λ shared. shared.room ≡ 0) }
    {
        Ok(Numbers {
            closed: self.closed.share(alloc)?,
            last: Vec::from_slice(alloc, &self.last)?,
            room: 0,
        })
    }

    /// The numbers of a block.
    fn block(&self, block: u32) -> &[u32]
        requires { block < length self.now.blocks }
        ensures { result.now ≡ list_of self.now.blocks block }
    {
        match self.closed.get(u64::from(block)) {
            Some(closed) => &closed.numbers,
            None => &self.last,
        }
    }
}

/// Closes the open block, and opens an empty one. Where there is no memory, nothing changes.
fn close(closed: &mut SharedList<Block>, last: &mut Vec<u32>) -> Result<(), AllocError>
    requires { length closed.old.items ≤ 4294967295 }
    ensures closed { OnOk result (closed.new.items ≡ closed.old.items ++ last.old.items ∷ []) }
    ensures few { length closed.new.items ≤ 4294967295 }
    ensures empty { OnOk result (last.new.items ≡ []) }
    ensures room { OnOk result (vec_capacity last.new ≡ 8192) }
    ensures err { OnErr result (closed.new.items ≡ closed.old.items) }
    ensures err_last { OnErr result (last.new ≡ last.old) }
{
    if closed.len() >= MOST_BLOCKS {
        return Err(AllocError);
    }
    closed.reserve()?;
    let alloc = *last.allocator();
    let next = Vec::with_capacity(alloc, BLOCK_NUMBERS)?;
    match Arc::new(alloc, mem::replace(last, next)) {
        Ok(numbers) => {
            closed.push(Block { numbers });
            Ok(())
        }
        Err(failed) => {
            *last = failed.value;
            Err(AllocError)
        }
    }
}

/// Adds what a clock has for these traces.
fn push_each(numbers: &mut Vec<u32>, traces: &[u32], clock: &[u32])
    requires within { All (λ trace. trace < length clock.now) traces.now }
    requires room { vec_len numbers.old + length traces.now ≤ vec_capacity numbers.old }
    ensures items { numbers.new.items ≡ numbers.old.items ++ numbers_for clock.now traces.now }
    ensures room { vec_capacity numbers.new ≡ vec_capacity numbers.old }
{
    for trace in traces {
        numbers.push_reserved(clock[*trace as usize]);
    }
}
