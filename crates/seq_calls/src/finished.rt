//! Runs that have ended.

ghost use Rattle.std.specs.Prelude.{◌≡◌, ◌≤◌, ◌-◌, ◌++◌, ◌∷◌, [], false, IsTrue, OnOk};
ghost use Rattle.seq_calls.specs.Under.{ended_run, named_run};

use crate::outcomes::NodeRun;
use crate::unfinished::Frame;
use checked_numbers::Num;
use loda_semantics::Pair;
use std::alloc::{AllocError, Global};
use std::marker::Model;
use std::mem::replace;

/// Finished runs of names.
#[derive(Debug, Drop)]
pub struct Frames {
    list: Vec<NodeRun>,
}

impl Model for Frames {
    ghost use Rattle.std.specs.Prelude.{List};
    ghost use Rattle.seq_calls.specs.declared.outcomes.NodeRun.{NodeRun};

    ghost Value = { List NodeRun };

    ghost view = { λ frames. frames.list.items };
}

impl Frames {
    /// The runs of a list.
    pub fn of(list: Vec<NodeRun>) -> Frames
        ensures { result ≡ list.items }
    {
        Frames { list }
    }

    /// The runs, in order.
    pub fn list(&self) -> &[NodeRun]
        ensures { result.now ≡ self.now }
    {
        &self.list
    }

    /// The list of the runs, in order.
    pub fn into_list(self) -> Vec<NodeRun>
        ensures { result.items ≡ self }
    {
        self.list
    }
}

/// What runs that ended leave: those of names that have finished, in the order in which they did, and their frames, which are
/// free again.
#[derive(Drop)]
pub struct Finished {
    pub alloc: Global,
    pub nodes: Vec<NodeRun>,
    pub free: Vec<Box<Frame>>,
}

impl Finished {
    /// Where no run has ended.
    pub fn none(alloc: Global) -> Finished {
        Finished {
            alloc,
            nodes: Vec::new(alloc),
            free: Vec::new(alloc),
        }
    }

    /// Takes the run of a call that ended with a value after so many steps. Its finished run is kept where runs are.
    #[inline(always)]
    pub fn take(
        &mut self,
        kept: bool,
        mut callee: Box<Frame>,
        call: Pair,
        value: Num,
        used: u64,
    ) -> Result<(), AllocError>
        requires { callee.value.below ≤ used }
        ensures kept { OnOk result (IsTrue kept → self.new.nodes.items ≡ self.old.nodes.items ++ ended_run call value (used - callee.value.below) callee.value.calls.items ∷ []) }
        ensures alone { OnOk result (kept ≡ false → self.new.nodes.items ≡ self.old.nodes.items) }
    {
        if kept {
            let node = callee.end(self.alloc, call, value, used);
            self.nodes.push(node)?;
        }
        self.free.push(callee)?;
        Ok(())
    }

    /// Takes the outermost run, which ended with a value after so many steps. Where its program has a name, its own run is the
    /// last of the finished ones.
    pub fn take_outermost(
        &mut self,
        name: Option<u32>,
        arg: Num,
        frame: Box<Frame>,
        value: Num,
        used: u64,
    ) -> Result<(), AllocError>
        requires { frame.value.below ≤ used }
        ensures { OnOk result (self.new.nodes.items ≡ self.old.nodes.items ++ named_run name arg value (used - frame.value.below) frame.value.calls.items) }
    {
        match name {
            Some(name) => self.take(true, frame, Pair { name, arg }, value, used),
            None => {
                self.free.push(frame)?;
                Ok(())
            }
        }
    }

    /// The finished runs, which are kept no longer.
    pub fn hand_over(&mut self) -> Frames
        ensures { result ≡ self.old.nodes.items }
    {
        Frames::of(replace(&mut self.nodes, Vec::new(self.alloc)))
    }
}
