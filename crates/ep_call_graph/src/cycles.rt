//! Which functions lead to one another.

ghost use Rattle.std.specs.Prelude.{◌≡◌, ℕ, ◌+◌, ◌<◌, ◌≤◌, ◌++◌, [], ◌∷◌, Some, None, true, false, OnOk, IfOk};
ghost use Rattle.std.specs.Prelude.{vec_len, slice_get, slice_index, length, map, take};
ghost use Rattle.ep_elaboration.specs.Leads as rule;
ghost use Rattle.ep_call_graph.specs.View as view;
ghost use Rattle.ep_call_graph.specs.Search as search_in;
ghost use Rattle.ep_call_graph.specs.declared.cycles.Mark.TheVariants.{New, Open, Done};

use std::alloc::{AllocError, Global};

/// A function that the search has not come to, one on its path, at this place, or one that is done, with its label.
#[derive(Clone, Copy, Debug)]
pub(crate) enum Mark {
    New,
    Open(usize),
    Done(u32),
}

/// Functions of the path that lead to one another: where they begin on it, and where their calls begin that wait.
#[derive(Clone, Copy, Debug)]
pub(crate) struct Group {
    pub first: usize,
    pub pending: usize,
}

/// A search of the cycles of calls.
#[derive(Drop)]
pub(crate) struct Search {
    pub marks: Vec<Mark>,
    pub path: Vec<u32>,
    pub groups: Vec<Group>,
    /// The callees of calls that wait.
    pub pending: Vec<u32>,
    /// So many groups are done.
    pub done: u32,
}

fn marks(alloc: Global, count: usize) -> Result<Vec<Mark>, AllocError>
    ensures count { IfOk result (λ v. vec_len v ≡ count) }
    ensures fresh { IfOk result (λ v. (f : ℕ) → search_in.mark_of v.items f ≡ New) }
{
    let mut all = Vec::new(alloc);
    for i in 0..count {
        all.push(Mark::New)?;
    }
    Ok(all)
}

// The calls of a function wait.
fn wait(pending: &mut Vec<u32>, callees: &[Vec<u32>], f: u32) -> Result<(), AllocError>
    ensures { OnOk result (pending.new.items ≡ pending.old.items ++ view.listed callees.now f) }
{
    match callees.get(f as usize) {
        Some(list) => {
            pending.extend_from_slice(list)?;
            Ok(())
        }
        None => Ok(()),
    }
}

impl Search {
    fn new(alloc: Global, count: usize) -> Result<Search, AllocError>
        ensures count { IfOk result (λ s. vec_len s.marks ≡ count) }
        ensures groups { IfOk result (λ s. s.groups.items ≡ []) }
        ensures stands { IfOk result (λ s. (next : _) → search_in.IsSearch next s) }
    {
        let marks = marks(alloc, count)?;
        Ok(Search {
            marks,
            path: Vec::new(alloc),
            groups: Vec::new(alloc),
            pending: Vec::new(alloc),
            done: 0,
        })
    }

    fn mark(&self, f: u32) -> Mark
        ensures { result ≡ search_in.mark_of self.now.marks.items f }
    {
        match self.marks.get(f as usize).copied() {
            Some(mark) => mark,
            None => Mark::New,
        }
    }

    fn top(&self) -> Option<Group>
        ensures { result ≡ search_in.top_of (search_in.tops self.now.groups.items) }
    {
        self.groups.last().copied()
    }

    // A function comes onto the path, in a group of its own, and its calls wait.
    fn open(&mut self, callees: &[Vec<u32>], f: u32) -> Result<(), AllocError>
        requires stands { search_in.IsSearchBut (Some f) (view.listed callees.now) self.old }
        requires is_new { search_in.mark_of self.old.marks.items f ≡ New }
        requires inside { f < length self.old.marks.items }
        requires led { (i g : ℕ) → slice_get self.old.path.items i ≡ Some g → rule.Leads (view.listed callees.now) f g }
        ensures stands { OnOk result (search_in.IsSearch (view.listed callees.now) self.new) }
        ensures goes_on { OnOk result (search_in.GoesOn self.old self.new) }
        ensures no_more_new { OnOk result (search_in.mark_of self.new.marks.items f ≡ New → ⊥) }
    {
        let first = self.path.len();
        self.groups.push(Group {
            first,
            pending: self.pending.len(),
        })?;
        self.path.push(f)?;
        wait(&mut self.pending, callees, f)?;
        self.marks[f as usize] = Mark::Open(first);
        Ok(())
    }

    // The groups behind this place of the path become one with the group that has it.
    fn join(&mut self, callees: &[Vec<u32>], callee: u32, place: usize)
        requires stands { search_in.IsSearchBut (Some callee) (view.listed callees.now) self.old }
        requires at { slice_get self.old.path.items place ≡ Some callee }
        requires called { search_in.IsCalled (view.listed callees.now) self.old.path.items
            (search_in.tops self.old.groups.items) callee }
        ensures stands { search_in.IsSearch (view.listed callees.now) self.new }
        ensures goes_on { self.new.marks ≡ self.old.marks }
    {
        while let Some(group) = self.top() {
            if group.first <= place {
                break;
            }
            self.groups.pop();
        }
    }

    // The last call that waits is followed.
    fn follow(&mut self, callees: &[Vec<u32>]) -> Result<(), AllocError>
        requires stands { search_in.IsSearch (view.listed callees.now) self.old }
        requires all { search_in.AreAll (length self.old.marks.items) (view.listed callees.now) }
        requires waits { search_in.IsWaiting (search_in.tops self.old.groups.items) (length self.old.pending.items) }
        ensures stands { OnOk result (search_in.IsSearch (view.listed callees.now) self.new) }
        ensures goes_on { OnOk result (search_in.GoesOn self.old self.new) }
    {
        match self.pending.pop() {
            None => Ok(()),
            Some(callee) => match self.mark(callee) {
                Mark::New => self.open(callees, callee),
                Mark::Open(place) => {
                    self.join(callees, callee, place);
                    Ok(())
                }
                Mark::Done(_) => Ok(()),
            },
        }
    }

    // The functions from this place on are done, and leave the path.
    fn finish(&mut self, first: usize)
        requires { search_in.ArePlaced self.old.marks.items self.old.path.items }
        ensures marks { (f : ℕ) → search_in.mark_of self.new.marks.items f
            ≡ search_in.closed_from first self.old.done (search_in.mark_of self.old.marks.items f) }
        ensures count { length self.new.marks.items ≡ length self.old.marks.items }
        ensures path { self.new.path.items ≡ take first self.old.path.items }
        ensures groups { self.new.groups ≡ self.old.groups }
        ensures pending { self.new.pending ≡ self.old.pending }
        ensures done { self.new.done ≡ self.old.done }
    {
        for place in first..self.path.len() {
            let f = self.path[place];
            self.marks[f as usize] = Mark::Done(self.done);
        }
        self.path.truncate(first);
    }

    // The functions of the last group are done.
    fn close(&mut self, callees: &[Vec<u32>]) -> Result<(), AllocError>
        requires stands { search_in.IsSearch (view.listed callees.now) self.old }
        requires none_waits { search_in.IsWaiting (search_in.tops self.old.groups.items)
            (length self.old.pending.items) → ⊥ }
        ensures stands { OnOk result (search_in.IsSearch (view.listed callees.now) self.new) }
        ensures goes_on { OnOk result (search_in.GoesOn self.old self.new) }
    {
        let Some(group) = self.groups.pop() else {
            return Ok(());
        };
        let Some(done) = self.done.checked_add(1) else {
            return Err(AllocError);
        };
        self.finish(group.first);
        self.done = done;
        Ok(())
    }

    fn is_waiting(&self) -> bool
        ensures waits { result ≡ true → search_in.IsWaiting (search_in.tops self.now.groups.items)
            (length self.now.pending.items) }
        ensures none { result ≡ false → search_in.IsWaiting (search_in.tops self.now.groups.items)
            (length self.now.pending.items) → ⊥ }
    {
        match self.top() {
            Some(group) => group.pending < self.pending.len(),
            None => false,
        }
    }

    fn turn(&mut self, callees: &[Vec<u32>]) -> Result<(), AllocError>
        requires stands { search_in.IsSearch (view.listed callees.now) self.old }
        requires all { search_in.AreAll (length self.old.marks.items) (view.listed callees.now) }
        ensures stands { OnOk result (search_in.IsSearch (view.listed callees.now) self.new) }
        ensures goes_on { OnOk result (search_in.GoesOn self.old self.new) }
    {
        if self.is_waiting() {
            return self.follow(callees);
        }
        self.close(callees)
    }

    // Each function that this one leads to is done with it.
    fn search(&mut self, callees: &[Vec<u32>], f: u32) -> Result<(), AllocError>
        requires stands { search_in.IsSearch (view.listed callees.now) self.old }
        requires all { search_in.AreAll (length self.old.marks.items) (view.listed callees.now) }
        requires is_new { search_in.mark_of self.old.marks.items f ≡ New }
        requires inside { f < length self.old.marks.items }
        requires none { self.old.groups.items ≡ [] }
        ensures stands { OnOk result (search_in.IsSearch (view.listed callees.now) self.new) }
        ensures goes_on { OnOk result (search_in.GoesOn self.old self.new) }
        ensures no_more_new { OnOk result (search_in.mark_of self.new.marks.items f ≡ New → ⊥) }
        ensures none { OnOk result (self.new.groups.items ≡ []) }
    {
        self.open(callees, f)?;
        for turn in 0..u64::MAX {
            if self.groups.is_empty() {
                return Ok(());
            }
            self.turn(callees)?;
        }
        Err(AllocError)
    }
}

impl Search {
    fn visit(&mut self, callees: &[Vec<u32>], f: u32) -> Result<(), AllocError>
        requires stands { search_in.IsSearch (view.listed callees.now) self.old }
        requires all { search_in.AreAll (length self.old.marks.items) (view.listed callees.now) }
        requires inside { f < length self.old.marks.items }
        requires none { self.old.groups.items ≡ [] }
        ensures stands { OnOk result (search_in.IsSearch (view.listed callees.now) self.new) }
        ensures goes_on { OnOk result (search_in.GoesOn self.old self.new) }
        ensures no_more_new { OnOk result (search_in.mark_of self.new.marks.items f ≡ New → ⊥) }
        ensures none { OnOk result (self.new.groups.items ≡ []) }
    {
        match self.mark(f) {
            Mark::New => self.search(callees, f),
            Mark::Open(_) => Ok(()),
            Mark::Done(_) => Ok(()),
        }
    }
}

fn label(mark: Mark) -> u32
    ensures { result ≡ search_in.label_of mark }
{
    match mark {
        Mark::Done(label) => label,
        Mark::Open(_) => 0,
        Mark::New => 0,
    }
}

fn labels_of(alloc: Global, marks: &[Mark]) -> Result<Vec<u32>, AllocError>
    ensures { IfOk result (λ v. v.items ≡ map search_in.label_of marks.now) }
{
    let mut all = Vec::new(alloc);
    for mark in marks {
        all.push(label(*mark))?;
    }
    Ok(all)
}

/// A label for each function, no smaller than those of the functions that it calls, and the same only where these lead
/// back.
pub fn labels(alloc: Global, callees: &[Vec<u32>]) -> Result<Vec<u32>, AllocError>
    requires { search_in.AreAll (length callees.now) (view.listed callees.now) }
    ensures count { IfOk result (λ v. vec_len v ≡ length callees.now) }
    ensures labels { IfOk result (λ v. rule.IsLabelled (view.listed callees.now) (λ f. slice_index v.items f)) }
{
    let mut search = Search::new(alloc, callees.len())?;
    for f in 0..callees.len() {
        let Ok(number) = u32::try_from(f) else {
            return Err(AllocError);
        };
        search.visit(callees, number)?;
    }
    let all = labels_of(alloc, &search.marks)?;
    Ok(all)
}
