ghost use Rattle.std.specs.Prelude.{◌≡◌, ◌+◌, ◌<◌, ◌^◌, [], ◌++◌, length, IfOk, OnOk, OnErr, IfErr, slice_get, All, vec_len, vec_capacity};
ghost use Rattle.std.specs.Option.{option_copied};
ghost use Rattle.std.specs.List.{flat_map};
ghost use Rattle.shared_list.specs.Blocks.{block_items, branch_items, limb_items, IsFullBlock, IsFullBranch, IsFullLimb, spine_items, IsSpine, Closes};

use std::alloc::{AllocError, AllocFailed, Global};
use std::marker::Model;
use std::mem;
use std::sync::Arc;

/// How many items a full block has.
pub(crate) const BLOCK_ITEMS: usize = 64;

/// How many blocks a full branch has.
const BRANCH_BLOCKS: usize = 8;

/// How many branches a full limb has.
const LIMB_BRANCHES: usize = 32;

/// How many items a full branch has.
const BRANCH_ITEMS: usize = BRANCH_BLOCKS * BLOCK_ITEMS;

/// How many items a full limb has.
const LIMB_ITEMS: usize = LIMB_BRANCHES * BRANCH_ITEMS;

/// How many limbs there are at most.
const MOST_LIMBS: usize = 1 << 40;

/// A full block of items, which lists share.
type Block<T> = Arc<Vec<T>>;

/// A full branch of blocks, which lists share.
type Branch<T> = Arc<Vec<Block<T>>>;

/// A full limb of branches, which lists share.
type Limb<T> = Arc<Vec<Branch<T>>>;

/// The full blocks of a list: full limbs, the full branches past them, and the blocks past those.
/// Contracts see it as the list of the items in them.
#[derive(Debug, Drop)]
pub(crate) struct Spine<T> {
    limbs: Vec<Limb<T>>,
    branches: Vec<Branch<T>>,
    blocks: Vec<Block<T>>,
}

impl<T> Model for Spine<T> {
    ghost use Rattle.std.specs.Prelude.{List};
    ghost use Rattle.shared_list.specs.Blocks.{spine_items, IsSpine};

    ghost Value = { List T };

    ghost view = { λ s. spine_items s.limbs.items s.branches.items s.blocks.items };

    ghost invariant = { λ s. IsSpine s.limbs.items s.branches.items s.blocks.items };
}

impl<T> Spine<T> {
    /// No blocks. It takes no memory.
    pub(crate) fn new(alloc: Global) -> Spine<T>
        ensures { result ≡ [] }
    {
        Spine {
            limbs: Vec::new(alloc),
            branches: Vec::new(alloc),
            blocks: Vec::new(alloc),
        }
    }

    /// How many items there are.
    pub(crate) fn len(&self) -> usize
        ensures exact { result ≡ length self.now }
        ensures few { result < 2 ^ 55 }
    {
        self.limbs.len() * LIMB_ITEMS
            + self.branches.len() * BRANCH_ITEMS
            + self.blocks.len() * BLOCK_ITEMS
    }

    /// The item at a place, if there is one.
    pub(crate) fn get(&self, at: usize) -> Option<&T>
        ensures { option_copied result ≡ slice_get self.now at }
    {
        let in_limbs = self.limbs.len() * LIMB_ITEMS;
        if at < in_limbs {
            return item_of_limbs(&self.limbs, at);
        }
        let past_limbs = at - in_limbs;
        let in_branches = self.branches.len() * BRANCH_ITEMS;
        if past_limbs < in_branches {
            item_of_branches(&self.branches, past_limbs)
        } else {
            item_of_blocks(&self.blocks, past_limbs - in_branches)
        }
    }
}

impl<T: Drop> Spine<T> {
    /// Adds a full block. Where there is no memory, it is handed back.
    pub(crate) fn push(&mut self, block: Vec<T>) -> Result<(), AllocFailed<Vec<T>>>
        requires { length block.items ≡ 64 }
        ensures ok { OnOk result (self.new ≡ self.old ++ block.items) }
        ensures err { OnErr result (self.new ≡ self.old) }
        ensures back { IfErr result (λ failed. failed.value ≡ block) }
    {
        if make_room(&mut self.limbs, &mut self.branches, &mut self.blocks).is_err() {
            return Err(AllocFailed { value: block });
        }
        let block = Arc::new(*self.blocks.allocator(), block)?;
        self.blocks.push_reserved(block);

        // A share copies one handle where all open blocks have just become a branch. Where there is
        // no memory for that now, it is done before the next block.
        let _ = close_full(&mut self.limbs, &mut self.branches, &mut self.blocks);
        Ok(())
    }

    /// The same blocks, which are not copied.
    pub(crate) fn share(&self, alloc: Global) -> Result<Spine<T>, AllocError>
        ensures { IfOk result (λ shared. shared ≡ self.now) }
    {
        Ok(Spine {
            limbs: Vec::from_clones(alloc, &self.limbs)?,
            branches: Vec::from_clones(alloc, &self.branches)?,
            blocks: Vec::from_clones(alloc, &self.blocks)?,
        })
    }
}

/// The item at a place of full limbs, if there is one.
fn item_of_limbs<T>(limbs: &[Limb<T>], at: usize) -> Option<&T>
    requires { All IsFullLimb limbs.now }
    ensures { option_copied result ≡ slice_get (flat_map limb_items limbs.now) at }
{
    item_of_branches(nth(limbs, at / LIMB_ITEMS)?, at % LIMB_ITEMS)
}

/// The item at a place of full branches, if there is one.
fn item_of_branches<T>(branches: &[Branch<T>], at: usize) -> Option<&T>
    requires { All IsFullBranch branches.now }
    ensures { option_copied result ≡ slice_get (flat_map branch_items branches.now) at }
{
    item_of_blocks(nth(branches, at / BRANCH_ITEMS)?, at % BRANCH_ITEMS)
}

/// The item at a place of full blocks, if there is one.
fn item_of_blocks<T>(blocks: &[Block<T>], at: usize) -> Option<&T>
    requires { All IsFullBlock blocks.now }
    ensures { option_copied result ≡ slice_get (flat_map block_items blocks.now) at }
{
    nth(nth(blocks, at / BLOCK_ITEMS)?, at % BLOCK_ITEMS)
}

/// The item at a place of a slice, if there is one.
pub(crate) fn nth<T>(items: &[T], at: usize) -> Option<&T>
    ensures { option_copied result ≡ slice_get items.now at }
{
    items.get(at)
}

/// Makes room for one more block: what is full is closed first. The items stay.
fn make_room<T: Drop>(
    limbs: &mut Vec<Limb<T>>,
    branches: &mut Vec<Branch<T>>,
    blocks: &mut Vec<Block<T>>,
) -> Result<(), AllocError>
    requires { IsSpine limbs.old.items branches.old.items blocks.old.items }
    ensures spine { IsSpine limbs.new.items branches.new.items blocks.new.items }
    ensures items { spine_items limbs.new.items branches.new.items blocks.new.items
        ≡ spine_items limbs.old.items branches.old.items blocks.old.items }
    ensures few { OnOk result (vec_len blocks.new < 8) }
    ensures room { OnOk result (vec_len blocks.new < vec_capacity blocks.new) }
{
    close_full(limbs, branches, blocks)?;
    blocks.reserve(1)
}

/// Closes the open blocks where they make a full branch, and before that the open branches where
/// they make a full limb. The items stay.
fn close_full<T: Drop>(
    limbs: &mut Vec<Limb<T>>,
    branches: &mut Vec<Branch<T>>,
    blocks: &mut Vec<Block<T>>,
) -> Result<(), AllocError>
    requires { IsSpine limbs.old.items branches.old.items blocks.old.items }
    ensures spine { IsSpine limbs.new.items branches.new.items blocks.new.items }
    ensures items { spine_items limbs.new.items branches.new.items blocks.new.items
        ≡ spine_items limbs.old.items branches.old.items blocks.old.items }
    ensures few { OnOk result (vec_len blocks.new < 8) }
{
    if blocks.len() == BRANCH_BLOCKS {
        if branches.len() == LIMB_BRANCHES {
            if limbs.len() >= MOST_LIMBS {
                return Err(AllocError);
            }
            close(limbs, branches)?;
        }
        close(branches, blocks)?;
    }
    Ok(())
}

/// Makes one shared part of all open ones. Where it is refused, nothing changes.
fn close<P: Drop>(closed: &mut Vec<Arc<Vec<P>>>, parts: &mut Vec<P>) -> Result<(), AllocError>
    ensures ok { OnOk result (Closes closed.old.items closed.new.items parts.old.items) }
    ensures empty { OnOk result (parts.new.items ≡ []) }
    ensures err { OnErr result (closed.new.items ≡ closed.old.items) }
    ensures err_parts { OnErr result (parts.new.items ≡ parts.old.items) }
{
    closed.reserve(1)?;
    let full = mem::replace(parts, Vec::new(*closed.allocator()));
    match Arc::new(*closed.allocator(), full) {
        Ok(part) => {
            closed.push_reserved(part);
            Ok(())
        }
        Err(failed) => {
            *parts = failed.value;
            Err(AllocError)
        }
    }
}
