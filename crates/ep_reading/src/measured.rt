//! Trees in which nothing is too deep.

ghost use Rattle.std.specs.Prelude.{◌≡◌, ◌++◌, ◌∷◌, [], IfOk};
ghost use Rattle.ep_reading.specs.Measured.{joined, IsLonger};

use std::alloc::AllocError;

/// A tree that was read, or of one with too much inside one another the line of the first that holds too much.
#[derive(Debug, Drop)]
pub enum Measured<T: Drop> {
    Fits(T),
    TooDeep(u32),
}

/// The same list, with room for one more. A full list grows by half, so that little of the room stays unused.
fn with_room<T: Drop>(list: Vec<T>) -> Result<Vec<T>, AllocError>
    ensures { IfOk result (λ v. v.items ≡ list.items) }
{
    let mut items = list;
    let count = items.len();
    if count == items.capacity() {
        items.reserve_exact(count / 2 + 1)?;
    }
    Ok(items)
}

/// With one more behind the others.
pub fn pushed<T: Drop>(list: Vec<T>, one: T) -> Result<Vec<T>, AllocError>
    ensures { IfOk result (λ v. v.items ≡ list.items ++ one ∷ []) }
{
    let mut items = with_room(list)?;
    items.push(one)?;
    Ok(items)
}

impl<T: Drop> Measured<T> {
    /// Both, or the line of what is first.
    pub fn and<U: Drop>(self, next: Measured<U>) -> Measured<(T, U)>
        ensures { result ≡ joined self next }
    {
        match self {
            Measured::Fits(first) => match next {
                Measured::Fits(second) => Measured::Fits((first, second)),
                Measured::TooDeep(line) => Measured::TooDeep(line),
            },
            Measured::TooDeep(line) => Measured::TooDeep(line),
        }
    }
}

impl<T: Drop> Measured<Vec<T>> {
    /// With one more behind the others, or the line of what is first too deep.
    pub fn longer(self, one: Measured<T>) -> Result<Measured<Vec<T>>, AllocError>
        ensures { IfOk result (IsLonger self one) }
    {
        match self {
            Measured::TooDeep(line) => Ok(Measured::TooDeep(line)),
            Measured::Fits(list) => match one {
                Measured::TooDeep(line) => Ok(Measured::TooDeep(line)),
                Measured::Fits(tree) => Ok(Measured::Fits(pushed(list, tree)?)),
            },
        }
    }
}
