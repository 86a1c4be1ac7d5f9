//! Where a running script stands.

ghost use Rattle.std.specs.Prelude.{◌≡◌, ◌⊎◌, ◌∷◌, ◌<◌, [], ℕ, IfSome, None, Some, false, length, reverse, suc, true};
ghost use Rattle.arrayvec.specs.ArrayVec.{array_vec_len};
ghost use Rattle.bm_exec.specs.Lists.{block_list};
ghost use Rattle.bm_exec.specs.Stack.{lock_of, under_lock};
ghost use Rattle.bm_exec.specs.Steps.{BeginsAgain, Pushed, Stepped};

use arrayvec::ArrayVec;
use bm_check::HeldLock;
use bm_lang::{Block, Script, Statement};

/// A block that is open: what it has still to run this time, how many more times it runs whole, whether a plain section that a
/// statement began ends with it, and the lock that is held in it.
#[derive(Clone, Copy, Default)]
pub struct Open<'s> {
    pub rest: &'s [Statement],
    pub repeats: u32,
    pub body: Option<&'s Block>,
    pub leaves: bool,
    pub lock: HeldLock,
}

/// What comes next in a script: a statement, the end of the section that one began, or nothing more.
#[derive(Clone, Copy)]
pub enum Next<'s> {
    Statement(&'s Statement),
    Leave,
    End,
}

/// Where a running script stands: its open blocks, the innermost last, of which there are at most sixteen. It keeps no copy of
/// the script, and takes no memory: the blocks stand in place.
#[derive(Drop)]
pub struct Frame<'s> {
    pub blocks: ArrayVec<Open<'s>, 16>,
}

impl<'s> Frame<'s> {
    /// A frame that stands before the first statement of a script.
    pub fn start(script: &'s Script) -> Frame<'s>
        ensures pushed { Pushed [] (reverse result.blocks.items) (block_list script.now.body) 0
            false script.now.body }
    {
        let mut blocks = ArrayVec::new();
        open_block(&mut blocks, &script.body, false);
        Frame { blocks }
    }
}

// The statements of a block.
fn statements_of<'s>(block: &'s Block) -> &'s [Statement]
    ensures { result.now ≡ block_list block.now }
{
    block.statements.as_slice()
}

// A block whose statements have ended, as it begins again. None where it runs no more.
fn again<'s>(ended: &Open<'s>) -> Option<Open<'s>>
    ensures again { IfSome result (BeginsAgain ended.now) }
    ensures over { result ≡ None → (ended.now.repeats ≡ 0) ⊎ (ended.now.body ≡ None) }
{
    if ended.repeats == 0 {
        return None;
    }
    let body = ended.body?;
    Some(Open {
        rest: statements_of(body),
        repeats: ended.repeats - 1,
        body: ended.body,
        leaves: ended.leaves,
        lock: ended.lock,
    })
}

/// Takes what comes next off the open blocks: a statement, or the end of a block with which a section ends. All have ended where
/// nothing more comes.
pub fn next_statement<'s>(blocks: &mut ArrayVec<Open<'s>, 16>) -> Next<'s>
    ensures stepped { Stepped (reverse blocks.old.items) (reverse blocks.new.items) result }
{
    // No more than sixteen are open: the length says so.
    let _open = blocks.len();
    while let Some(top) = blocks.pop() {
        if let [first, rest @ ..] = top.rest {
            blocks.push(Open {
                rest,
                repeats: top.repeats,
                body: top.body,
                leaves: top.leaves,
                lock: top.lock,
            });
            return Next::Statement(first);
        }
        match again(&top) {
            Some(block) => blocks.push(block),
            None => {
                if top.leaves {
                    return Next::Leave;
                }
            }
        }
    }
    Next::End
}

/// The lock that is held in the innermost of some open blocks.
pub fn held_lock<'s>(blocks: &ArrayVec<Open<'s>, 16>) -> HeldLock
    ensures { result ≡ lock_of (reverse blocks.now.items) }
{
    match blocks.as_slice().last() {
        Some(top) => top.lock,
        None => HeldLock::Nothing,
    }
}

/// The innermost of some open blocks is under another lock, or under none.
pub fn set_lock<'s>(blocks: &mut ArrayVec<Open<'s>, 16>, lock: HeldLock)
    ensures { reverse blocks.new.items ≡ under_lock lock (reverse blocks.old.items) }
{
    // No more than sixteen are open: the length says so.
    let _open = blocks.len();
    if let Some(top) = blocks.pop() {
        blocks.push(Open {
            rest: top.rest,
            repeats: top.repeats,
            body: top.body,
            leaves: top.leaves,
            lock,
        });
    }
}

/// Opens a block, which runs once; a section ends with it, or none.
pub fn open_block<'s>(blocks: &mut ArrayVec<Open<'s>, 16>, block: &'s Block, leaves: bool)
    requires room { array_vec_len blocks.old < 16 }
    ensures pushed { Pushed (reverse blocks.old.items) (reverse blocks.new.items)
        (block_list block.now) 0 leaves block.now }
{
    let rest = statements_of(block);
    let lock = held_lock(blocks).from_inside();
    blocks.push(Open {
        rest,
        repeats: 0,
        body: Some(block),
        leaves,
        lock,
    });
}

/// Opens a block, which runs so many times.
pub fn repeat_block<'s>(blocks: &mut ArrayVec<Open<'s>, 16>, repeats: u32, block: &'s Block)
    requires room { array_vec_len blocks.old < 16 }
    ensures pushed { Pushed (reverse blocks.old.items) (reverse blocks.new.items) [] repeats false
        block.now }
{
    let lock = held_lock(blocks).from_inside();
    blocks.push(Open {
        rest: &[],
        repeats,
        body: Some(block),
        leaves: false,
        lock,
    });
}
