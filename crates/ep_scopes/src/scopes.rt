//! The names and tags in scope.

ghost use Rattle.std.specs.Prelude.{◌≡◌, List, [], ◌∷◌, ◌++◌, IfOk, OnOk, None, drop, is_some, length, ◌+◌};
ghost use Rattle.std.specs.Option.{option_map, option_to_list};
ghost use Rattle.ep_typing.specs.Env as rule;
ghost use Rattle.ep_scopes.specs.Comes.{ScopesCome};
ghost use Rattle.ep_scopes.specs.View as view;

use ep_typing::CType;
use indexmap::IndexMap;
use std::alloc::{AllocError, Global};

/// What a name means: a variable by its block, a function by its number, or a type.
#[derive(Clone, Copy, Debug)]
pub enum Meaning {
    Variable(u32, CType),
    Function(u32),
    TypeName(CType),
}

/// The names of a scope, and its tags with the numbers of their aggregates.
#[derive(Drop)]
pub struct Scope {
    pub(crate) names: IndexMap<Vec<u8>, Meaning>,
    pub(crate) tags: IndexMap<Vec<u8>, u32>,
}

/// How many names and tags a scope has.
#[derive(Clone, Copy, Debug)]
pub struct Mark {
    pub names: usize,
    pub tags: usize,
}

/// The scopes that are open; the innermost is the last.
#[derive(Drop)]
pub struct Scopes {
    pub(crate) all: Vec<Scope>,
    pub(crate) alloc: Global,
}

impl Scope {
    fn new(alloc: Global) -> Scope
        ensures { view.scope result ≡ rule.no_names }
    {
        Scope {
            names: IndexMap::new(alloc),
            tags: IndexMap::new(alloc),
        }
    }

    fn name(&self, name: &[u8]) -> Option<Meaning>
        ensures { option_map view.meaning result ≡ rule.entry name.now (view.scope self.now).names }
    {
        if self.names.is_empty() {
            return None;
        }
        self.names.get(name).copied()
    }

    fn tag(&self, tag: &[u8]) -> Option<u32>
        ensures { result ≡ rule.entry tag.now (view.scope self.now).tags }
    {
        if self.tags.is_empty() {
            return None;
        }
        self.tags.get(tag).copied()
    }

    fn add_name(&mut self, alloc: Global, name: &[u8], meaning: Meaning) -> Result<(), AllocError>
        requires { rule.entry name.now (view.scope self.old).names ≡ None }
        ensures names { OnOk result ((view.scope self.new).names
            ≡ (view.scope self.old).names ++ (name.now, view.meaning meaning) ∷ []) }
        ensures tags { OnOk result ((view.scope self.new).tags ≡ (view.scope self.old).tags) }
    {
        let text = Vec::from_slice(alloc, name)?;
        self.names.insert(text, meaning)?;
        Ok(())
    }

    fn add_tag(&mut self, alloc: Global, tag: &[u8], number: u32) -> Result<(), AllocError>
        requires { rule.entry tag.now (view.scope self.old).tags ≡ None }
        ensures tags { OnOk result ((view.scope self.new).tags ≡ (view.scope self.old).tags ++ (tag.now, number) ∷ []) }
        ensures names { OnOk result ((view.scope self.new).names ≡ (view.scope self.old).names) }
    {
        let text = Vec::from_slice(alloc, tag)?;
        self.tags.insert(text, number)?;
        Ok(())
    }

    fn mark(&self) -> Mark
        ensures names { result.names ≡ length (view.scope self.now).names }
        ensures tags { result.tags ≡ length (view.scope self.now).tags }
    {
        Mark {
            names: self.names.len(),
            tags: self.tags.len(),
        }
    }

    fn cut(&mut self, mark: Mark)
        ensures { view.scope self.new ≡ view.cut mark.names mark.tags (view.scope self.old) }
    {
        self.names.truncate(mark.names);
        self.tags.truncate(mark.tags);
    }

    fn block_at(&self, place: usize) -> Option<u32>
        ensures { view.blocks_of (drop place (view.scope self.now).names)
            ≡ option_to_list result ++ view.blocks_of (drop (place + 1) (view.scope self.now).names) }
    {
        match self.names.get_index(place) {
            Some((_, meaning)) => block_of(*meaning),
            None => None,
        }
    }

    fn blocks_behind(&self, alloc: Global, names: usize) -> Result<Vec<u32>, AllocError>
        ensures { IfOk result (λ v. v.items ≡ view.blocks_of (drop names (view.scope self.now).names)) }
    {
        let mut blocks = Vec::new(alloc);
        for place in names..self.names.len() {
            if let Some(block) = self.block_at(place) {
                blocks.push(block)?;
            }
        }
        Ok(blocks)
    }
}

fn block_of(meaning: Meaning) -> Option<u32>
    ensures { option_to_list result ≡ view.block_of (view.meaning meaning) }
{
    match meaning {
        Meaning::Variable(block, _) => Some(block),
        Meaning::Function(_) => None,
        Meaning::TypeName(_) => None,
    }
}

fn look_up(scopes: &[Scope], name: &[u8]) -> Option<Meaning>
    ensures { option_map view.meaning result ≡ rule.look_up name.now (view.stacked [] scopes.now) }
{
    let mut left = scopes.len();
    'outward: while left > 0 {
        left -= 1;
        if let Some(meaning) = scopes[left].name(name) {
            return Some(meaning);
        }
    }
    None
}

fn look_up_tag(scopes: &[Scope], tag: &[u8]) -> Option<u32>
    ensures { result ≡ rule.look_up_tag tag.now (view.stacked [] scopes.now) }
{
    let mut left = scopes.len();
    'outward: while left > 0 {
        left -= 1;
        if let Some(number) = scopes[left].tag(tag) {
            return Some(number);
        }
    }
    None
}

impl Scopes {
    /// No scope at all.
    pub fn new(alloc: Global) -> Scopes
        ensures { view.scopes result ≡ [] }
    {
        Scopes {
            all: Vec::new(alloc),
            alloc,
        }
    }

    /// What a name means; an inner scope hides an outer one.
    pub fn get(&self, name: &[u8]) -> Option<Meaning>
        ensures { option_map view.meaning result ≡ rule.look_up name.now (view.scopes self.now) }
    {
        look_up(&self.all, name)
    }

    /// The aggregate of a tag.
    pub fn tag(&self, tag: &[u8]) -> Option<u32>
        ensures { result ≡ rule.look_up_tag tag.now (view.scopes self.now) }
    {
        look_up_tag(&self.all, tag)
    }

    /// Opens a scope inside the others.
    pub fn enter(&mut self) -> Result<(), AllocError>
        ensures { OnOk result (view.scopes self.new ≡ rule.no_names ∷ view.scopes self.old) }
    {
        self.all.push(Scope::new(self.alloc))?;
        Ok(())
    }

    /// Leaves the innermost scope.
    pub fn leave(&mut self)
        ensures { view.scopes self.new ≡ view.outer (view.scopes self.old) }
    {
        self.all.pop();
    }

    /// Takes the innermost scope away, to be put back.
    pub fn take(&mut self) -> Scope
        ensures taken { view.scope result ≡ view.innermost (view.scopes self.old) }
        ensures left { view.scopes self.new ≡ view.outer (view.scopes self.old) }
    {
        match self.all.pop() {
            Some(scope) => scope,
            None => Scope::new(self.alloc),
        }
    }

    /// Puts a scope inside the others.
    pub fn put(&mut self, scope: Scope) -> Result<(), AllocError>
        ensures { OnOk result (view.scopes self.new ≡ view.scope scope ∷ view.scopes self.old) }
    {
        self.all.push(scope)?;
        Ok(())
    }

    /// Whether the innermost scope has the name.
    pub fn has(&self, name: &[u8]) -> bool
        ensures { result ≡ is_some (rule.entry name.now (view.innermost (view.scopes self.now)).names) }
    {
        match self.all.last() {
            Some(scope) => scope.name(name).is_some(),
            None => false,
        }
    }

    /// What a name of the innermost scope means.
    pub fn name_here(&self, name: &[u8]) -> Option<Meaning>
        ensures { option_map view.meaning result ≡ rule.entry name.now (view.innermost (view.scopes self.now)).names }
    {
        match self.all.last() {
            Some(scope) => scope.name(name),
            None => None,
        }
    }

    /// The aggregate of a tag of the innermost scope.
    pub fn tag_here(&self, tag: &[u8]) -> Option<u32>
        ensures { result ≡ rule.entry tag.now (view.innermost (view.scopes self.now)).tags }
    {
        match self.all.last() {
            Some(scope) => scope.tag(tag),
            None => None,
        }
    }

    /// Adds a name to the innermost scope.
    pub fn declare(&mut self, name: &[u8], meaning: Meaning) -> Result<(), AllocError>
        requires { rule.entry name.now (view.innermost (view.scopes self.old)).names ≡ None }
        ensures { OnOk result (view.scopes self.new
            ≡ view.name_in (view.scopes self.old) name.now (view.meaning meaning)) }
    {
        match self.all.pop() {
            Some(mut scope) => {
                scope.add_name(self.alloc, name, meaning)?;
                self.all.push(scope)?;
                Ok(())
            }
            None => Ok(()),
        }
    }

    /// Adds a tag to the innermost scope.
    pub fn declare_tag(&mut self, tag: &[u8], number: u32) -> Result<(), AllocError>
        requires { rule.entry tag.now (view.innermost (view.scopes self.old)).tags ≡ None }
        ensures { OnOk result (view.scopes self.new ≡ rule.tag_in (view.scopes self.old) tag.now number) }
    {
        match self.all.pop() {
            Some(mut scope) => {
                scope.add_tag(self.alloc, tag, number)?;
                self.all.push(scope)?;
                Ok(())
            }
            None => Ok(()),
        }
    }

    /// How many names and tags the innermost scope has.
    pub fn mark(&self) -> Mark
        ensures names { result.names ≡ length (view.innermost (view.scopes self.now)).names }
        ensures tags { result.tags ≡ length (view.innermost (view.scopes self.now)).tags }
    {
        match self.all.last() {
            Some(scope) => scope.mark(),
            None => Mark { names: 0, tags: 0 },
        }
    }

    /// The innermost scope goes back to its first names and tags, as many as it had at a mark.
    pub fn rewind(&mut self, mark: Mark) -> Result<(), AllocError>
        ensures { OnOk result (view.scopes self.new ≡ view.rewound mark.names mark.tags (view.scopes self.old)) }
    {
        match self.all.pop() {
            Some(mut scope) => {
                scope.cut(mark);
                self.all.push(scope)?;
                Ok(())
            }
            None => Ok(()),
        }
    }

    /// How many scopes are open.
    pub fn count(&self) -> usize
        ensures { result ≡ length (view.scopes self.now) }
    {
        self.all.len()
    }

    /// The scopes go back to what they were when so many were open, of which the innermost had a mark.
    pub fn go_back(&mut self, count: usize, mark: Mark) -> Result<(), AllocError>
        ensures { (ss : List rule.Scope) → ScopesCome ss (view.scopes self.old) → count ≡ length ss
            → mark.names ≡ length (view.innermost ss).names → mark.tags ≡ length (view.innermost ss).tags
            → OnOk result (view.scopes self.new ≡ ss) }
    {
        for _ in count..self.count() {
            self.leave();
        }
        self.rewind(mark)
    }

    /// The blocks of the innermost scope's names behind so many first ones.
    pub fn blocks_behind(&self, names: usize) -> Result<Vec<u32>, AllocError>
        ensures { IfOk result (λ v. v.items
            ≡ view.blocks_of (drop names (view.innermost (view.scopes self.now)).names)) }
    {
        match self.all.last() {
            Some(scope) => scope.blocks_behind(self.alloc, names),
            None => Ok(Vec::new(self.alloc)),
        }
    }
}
