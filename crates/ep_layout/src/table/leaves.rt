//! The leaves of a type.

ghost use Rattle.std.specs.Prelude.{◌≡◌, ◌<◌, [], ◌∷◌, ◌++◌, IfOk, OnOk, length};
ghost use Rattle.std.specs.List.{All};
ghost use Rattle.ep_layout.specs.declared.table.leaves.Task.{Task};
ghost use Rattle.ep_layout.specs.declared.table.leaves.Task.TheVariants.{Object, Elements, Members};
ghost use Rattle.ep_layout.specs.Pending.{Steps, TaskFits};
ghost use Rattle.ep_layout.specs.Table as table;
ghost use Rattle.ep_layout.specs.Table.{IsBuilt};

use super::Types;
use crate::types::{Leaf, Ty};
use ep_int::{Memory, Scalar};
use std::alloc::AllocError;

/// Something whose leaves are still to come, and where it begins.
#[derive(Clone, Copy)]
enum Task {
    Object {
        ty: u32,
        offset: u32,
    },
    /// So many objects of a type, one after another.
    Elements {
        ty: u32,
        offset: u32,
        count: u32,
    },
    /// The members of an aggregate from this one on; the aggregate begins there.
    Members {
        aggregate: u32,
        offset: u32,
        next: usize,
    },
}

fn push_scalar(leaves: &mut Vec<Leaf>, offset: u32, what: Scalar) -> Result<(), AllocError>
    ensures { OnOk result (leaves.new.items ≡ leaves.old.items ++ (record { offset = offset; what = what }) ∷ []) }
{
    leaves.push(Leaf { offset, what })?;
    Ok(())
}

fn push_task(tasks: &mut Vec<Task>, task: Task) -> Result<(), AllocError>
    ensures { OnOk result (tasks.new.items ≡ tasks.old.items ++ task ∷ []) }
{
    tasks.push(task)?;
    Ok(())
}

impl Types {
    /// The scalars of a type in order of offset; of a union those of its first member. A type without a size has none.
    pub fn leaves(&self, ty: u32) -> Result<Vec<Leaf>, Memory>
        requires { ty < length self.now.types }
        ensures value { IfOk result (λ v. v.items ≡ table.leaves self.now ty) }
        ensures ordered { IfOk result (λ v. table.AreLeavesOf self.now ty v.items) }
    {
        match self.leaf_list(ty) {
            Ok(leaves) => Ok(leaves),
            Err(_) => Err(Memory),
        }
    }

    fn leaf_list(&self, ty: u32) -> Result<Vec<Leaf>, AllocError>
        requires { ty < length self.now.types }
        ensures { IfOk result (λ v. v.items ≡ table.leaves self.now ty) }
    {
        let mut leaves = Vec::new(self.alloc);
        let mut tasks = Vec::new(self.alloc);
        tasks.push(Task::Object { ty, offset: 0 })?;
        'tasks: while let Some(task) = tasks.pop() {
            self.step(task, &mut leaves, &mut tasks)?;
        }
        Ok(leaves)
    }

    fn step(
        &self,
        task: Task,
        leaves: &mut Vec<Leaf>,
        tasks: &mut Vec<Task>,
    ) -> Result<(), AllocError>
        requires built { IsBuilt self.now }
        requires task { TaskFits self.now task }
        requires tasks { All (TaskFits self.now) tasks.old.items }
        ensures { OnOk result (Steps self.now task leaves.old tasks.old leaves.new tasks.new) }
    {
        match task {
            Task::Object { ty, offset } => self.open(ty, offset, leaves, tasks),
            Task::Elements { ty, offset, count } => {
                self.next_element(ty, offset, count, leaves, tasks)
            }
            Task::Members {
                aggregate,
                offset,
                next,
            } => self.next_member(aggregate, offset, next, leaves, tasks),
        }
    }

    fn open(
        &self,
        ty: u32,
        offset: u32,
        leaves: &mut Vec<Leaf>,
        tasks: &mut Vec<Task>,
    ) -> Result<(), AllocError>
        requires built { IsBuilt self.now }
        requires task { TaskFits self.now (Object ty offset) }
        requires tasks { All (TaskFits self.now) tasks.old.items }
        ensures { OnOk result (Steps self.now (Object ty offset) leaves.old tasks.old leaves.new tasks.new) }
    {
        match *self.ty(ty) {
            Ty::Void => Ok(()),
            Ty::Int(t) => push_scalar(leaves, offset, Scalar::Int(t)),
            Ty::Ptr(_) => push_scalar(leaves, offset, Scalar::Pointer),
            Ty::Array(element, count) => {
                let elements = Task::Elements {
                    ty: element,
                    offset,
                    count,
                };
                push_task(tasks, elements)
            }
            Ty::Aggregate(aggregate) => {
                let members = Task::Members {
                    aggregate,
                    offset,
                    next: 0,
                };
                push_task(tasks, members)
            }
        }
    }

    fn next_element(
        &self,
        ty: u32,
        offset: u32,
        count: u32,
        leaves: &mut Vec<Leaf>,
        tasks: &mut Vec<Task>,
    ) -> Result<(), AllocError>
        requires task { TaskFits self.now (Elements ty offset count) }
        requires tasks { All (TaskFits self.now) tasks.old.items }
        ensures { OnOk result (Steps self.now (Elements ty offset count) leaves.old tasks.old leaves.new tasks.new) }
    {
        let size = self.size(ty).unwrap_or(0);
        // Objects of no bytes have no leaves, however many there are.
        if count == 0 || size == 0 {
            return Ok(());
        }
        let others = Task::Elements {
            ty,
            offset: offset + size,
            count: count - 1,
        };
        push_task(tasks, others)?;
        push_task(tasks, Task::Object { ty, offset })
    }

    fn next_member(
        &self,
        aggregate: u32,
        offset: u32,
        next: usize,
        leaves: &mut Vec<Leaf>,
        tasks: &mut Vec<Task>,
    ) -> Result<(), AllocError>
        requires task { TaskFits self.now (Members aggregate offset next) }
        requires tasks { All (TaskFits self.now) tasks.old.items }
        ensures { OnOk result
            (Steps self.now (Members aggregate offset next) leaves.old tasks.old leaves.new tasks.new) }
    {
        match self.members(aggregate).get(next) {
            None => Ok(()),
            Some(member) => {
                let first = Task::Object {
                    ty: member.ty,
                    offset: offset + member.offset,
                };
                if self.is_union(aggregate) {
                    return push_task(tasks, first);
                }
                let others = Task::Members {
                    aggregate,
                    offset,
                    next: next + 1,
                };
                push_task(tasks, others)?;
                push_task(tasks, first)
            }
        }
    }
}
