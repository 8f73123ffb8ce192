//! Which functions have a body.

ghost use Rattle.std.specs.Prelude.{◌≡◌, ℕ, ◌==◌, ◌||◌, false, IfOk, OnOk};
ghost use Rattle.ep_typer_functions.specs.View.{has_body};

use ep_int::Memory;
use std::alloc::Global;

/// Which functions have a body, by their numbers.
#[derive(Drop)]
pub struct Done {
    pub marks: Vec<bool>,
}

impl Done {
    /// No function.
    pub fn new(alloc: Global) -> Done
        ensures { (n : ℕ) → has_body result n ≡ false }
    {
        Done {
            marks: Vec::new(alloc),
        }
    }

    /// The same functions.
    pub fn copy(&self, alloc: Global) -> Result<Done, Memory>
        ensures { IfOk result (λ d. (n : ℕ) → has_body d n ≡ has_body self.now n) }
    {
        match Vec::from_slice(alloc, &self.marks) {
            Ok(marks) => Ok(Done { marks }),
            Err(_) => Err(Memory),
        }
    }

    /// Whether the function of this number has its body.
    pub fn has(&self, number: u32) -> bool
        ensures { result ≡ has_body self.now number }
    {
        match self.marks.get(number as usize) {
            Some(mark) => *mark,
            None => false,
        }
    }

    /// One function more.
    pub fn add(&mut self, number: u32) -> Result<(), Memory>
        ensures { OnOk result ((n : ℕ) → has_body self.new n ≡ (n == number || has_body self.old n)) }
    {
        while self.marks.len() <= number as usize {
            match self.marks.push(false) {
                Ok(()) => {}
                Err(_) => return Err(Memory),
            }
        }
        self.marks[number as usize] = true;
        Ok(())
    }
}
