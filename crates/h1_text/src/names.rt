// Names, and which of them the members of values are.
ghost use Rattle.std.specs.Prelude.{◌≡◌, ◌<◌, ◌+◌, ◌++◌, ◌∷◌, [], ◌||◌, ◌⊎◌, ℕ, List, length, IfOk, IfSome, IfNone, None, false, slice_index_or, slice_get};
ghost use Rattle.std.specs.List.{list_any};
ghost use Rattle.http_header.specs.Token.{lowercase};
ghost use Rattle.h1_model.specs.Fields.{lists};
ghost use Rattle.h1_text.specs.Names.{byte_at, next_in, number_of, is_name, name_in_tree, is_number, AreMarked};
ghost use Rattle.h1_text.specs.Wanted.{AreWanted, HasBlanks};

use crate::wanted::Wanted;
use gate_base::{Members, Octets, OutOfMemory};
use header_maps::is_same_word;
use std::alloc::Global;

/// How many names a tree takes.
const NAME_LIMIT: usize = 128;

/// How many steps are taken at most where a name is looked for.
const STEP_LIMIT: usize = 128;

/// How many members are looked for before it is noted anew what those names look like that are not marked.
const LOOK_LIMIT: usize = 16;

/// What is left of the names after a byte.
#[derive(Clone, Copy)]
pub enum NamesLeft {
    /// None of them.
    Nothing,
    /// The one of this number.
    Name(u8),
    /// Those of the node of this number.
    Node(u8),
}

/// Names that are alike in front of a place and differ there, in lower case.
#[derive(Clone, Copy)]
pub struct Node {
    /// That place.
    pub place: usize,
    /// The number of one of the names.
    pub one: u8,
    /// What is left of the names, by the byte that they have there; the byte 0 stands for their end.
    pub next: [NamesLeft; 128],
}

/// Different names, of which each is looked for by as many bytes as tell it from the others: a tree of those places at which names differ (a Patricia
/// trie). That only the one right name is found rests on a comparison at the end, and not on the tree.
#[derive(Drop)]
pub struct NameTree {
    pub names: Members<Octets>,
    pub nodes: Vec<Node>,
    pub root: NamesLeft,
}

/// The byte at a place of a name, in lower case, and 0 after its end.
pub fn byte_at(name: &[u8], place: usize) -> usize
    ensures value { result ≡ byte_at (lowercase name.now) place }
    ensures within { result < 128 }
{
    if place < name.len() {
        (name[place].to_ascii_lowercase() % 128) as usize
    } else {
        0
    }
}

/// The first place at which two names differ, if there is one.
fn difference(a: &[u8], b: &[u8]) -> Option<usize> {
    (0..a.len().max(b.len())).find(|place| byte_at(a, *place) != byte_at(b, *place))
}

impl NameTree {
    /// No names. It takes no memory.
    pub fn new(alloc: Global) -> Self {
        NameTree {
            names: Members::new(alloc),
            nodes: Vec::new(alloc),
            root: NamesLeft::Nothing,
        }
    }

    /// What is left of the names of a node, by the byte that a name has there.
    fn next_of(&self, at: u8, name: &[u8]) -> NamesLeft
        ensures { result ≡ next_in (lowercase name.now) (slice_get self.now.nodes.items at) }
    {
        match self.nodes.as_slice().get(at as usize) {
            Some(node) => node.next[byte_at(name, node.place)],
            None => NamesLeft::Nothing,
        }
    }

    /// The number of the one name that this may be.
    fn number_of(&self, name: &[u8]) -> Option<u8>
        ensures { result ≡ number_of self.now (lowercase name.now) }
    {
        let mut next = self.root;
        let mut left = STEP_LIMIT;
        while left > 0 {
            match next {
                NamesLeft::Nothing => return None,
                NamesLeft::Name(number) => return Some(number),
                NamesLeft::Node(at) => next = self.next_of(at, name),
            }
            left -= 1;
        }
        None
    }

    /// Whether the name of a number is this one, in any case of letters.
    fn is_name(&self, number: usize, name: &[u8]) -> bool
        ensures { result ≡ is_name self.now.names (lowercase name.now) number }
    {
        number < self.names.len() && is_same_word(self.names.get(number).as_slice(), name)
    }

    /// The name of a number.
    fn name(&self, number: usize) -> &[u8]
        requires { number < length self.now.names }
        ensures { result.now ≡ slice_index_or self.now.names number [] }
    {
        self.names.get(number).as_slice()
    }

    /// The number under which a name is found, in any case of letters.
    fn found(&self, name: &[u8]) -> Option<usize>
        ensures { result ≡ name_in_tree self.now (lowercase name.now) }
    {
        match self.number_of(name) {
            Some(number) if self.is_name(number as usize, name) => Some(number as usize),
            _ => None,
        }
    }

    /// The number of a name that is like this one at all places at which the tree looks at it.
    fn near(&self, name: &[u8]) -> usize {
        let mut next = self.root;
        let mut near = 0;
        for _ in 0..NAME_LIMIT {
            match next {
                NamesLeft::Nothing => break,
                NamesLeft::Name(number) => return number as usize,
                NamesLeft::Node(at) => {
                    near = self.one_of(at);
                    next = self.next_of(at, name);
                }
            }
        }
        near as usize
    }

    /// The number of a name of a node.
    fn one_of(&self, at: u8) -> u8 {
        match self.nodes.as_slice().get(at as usize) {
            Some(node) => node.one,
            None => 0,
        }
    }

    /// Puts a name in, where it is not there and there is room for it.
    pub fn put(&mut self, alloc: Global, name: &[u8]) -> Result<(), OutOfMemory>
        ensures { IfOk result (λ _. (self.new.names ≡ self.old.names) ⊎ (self.new.names ≡ self.old.names ++ name.now ∷ [])) }
    {
        let count = self.names.len();
        if count >= NAME_LIMIT {
            return Ok(());
        }
        if count == 0 {
            // Nodes are large, and are not moved so.
            self.nodes = Vec::with_capacity(alloc, NAME_LIMIT)?;
        }
        let near = self.near(name);
        if near >= count {
            self.names.push(Octets::from_slice(alloc, name)?)?;
            return self.hang(name, 0, 0, count as u8);
        }
        let other = self.names.get(near).as_slice();
        let Some(place) = difference(name, other) else {
            return Ok(());
        };
        let byte = byte_at(other, place);
        self.names.push(Octets::from_slice(alloc, name)?)?;
        self.hang(name, place, byte, count as u8)
    }

    /// What the tree has at the first node that looks at a place or after it, on the way of a name, and the node above with its byte.
    fn way(&self, name: &[u8], place: usize) -> Way {
        let mut way = Way {
            above: None,
            next: self.root,
        };
        for _ in 0..NAME_LIMIT {
            let NamesLeft::Node(at) = way.next else {
                break;
            };
            if self.place_of(at) >= place {
                break;
            }
            way = Way {
                above: Some(at),
                next: self.next_of(at, name),
            };
        }
        way
    }

    /// The place at which a node looks.
    fn place_of(&self, at: u8) -> usize {
        match self.nodes.as_slice().get(at as usize) {
            Some(node) => node.place,
            None => 0,
        }
    }

    /// Puts the name of this number where it differs at a place from those that have this byte there.
    fn hang(
        &mut self,
        name: &[u8],
        place: usize,
        byte: usize,
        number: u8,
    ) -> Result<(), OutOfMemory>
        requires { byte < 128 }
        ensures { self.new.names ≡ self.old.names }
    {
        let way = self.way(name, place);
        if let NamesLeft::Node(at) = way.next
            && self.place_of(at) == place
        {
            self.set(at, name, NamesLeft::Name(number));
            return Ok(());
        }
        if self.nodes.len() >= NAME_LIMIT {
            return Ok(());
        }
        let at = self.nodes.len() as u8;
        let mut node = Node {
            place,
            one: number,
            next: [NamesLeft::Nothing; 128],
        };
        node.next[byte] = way.next;
        node.next[byte_at(name, place)] = NamesLeft::Name(number);
        self.nodes.push(node)?;
        match way.above {
            Some(above) => self.set(above, name, NamesLeft::Node(at)),
            None => self.root = NamesLeft::Node(at),
        }
        Ok(())
    }

    /// Says what is left of the names of a node, after the byte that a name has there.
    fn set(&mut self, at: u8, name: &[u8], next: NamesLeft)
        ensures { self.new.names ≡ self.old.names }
    {
        if let Some(node) = self.nodes.get_mut(at as usize) {
            node.next[byte_at(name, node.place)] = next;
        }
    }
}

/// A node, and what stands after a byte of it.
#[derive(Clone, Copy)]
struct Way {
    above: Option<u8>,
    next: NamesLeft,
}

/// Names, and for each whether it is marked: a member of the values that were gone through is this name, in any case of letters.
#[derive(Drop)]
pub struct ListedNames {
    pub tree: NameTree,
    pub marks: Vec<bool>,
}

impl ListedNames {
    /// The names of a tree, none of which is marked.
    pub fn of(alloc: Global, tree: NameTree) -> Result<Self, OutOfMemory>
        ensures tree { IfOk result (λ listed. listed.tree ≡ tree) }
        ensures marks { IfOk result (AreMarked []) }
    {
        let count = tree.names.len();
        Ok(ListedNames {
            tree,
            marks: vec![in alloc; false; count]?,
        })
    }

    /// Marks the name that a member is, if it is one of them. Whether one is marked that was not.
    fn mark(&mut self, member: &[u8]) -> bool
        ensures tree { self.new.tree ≡ self.old.tree }
        ensures count { length self.new.marks.items ≡ length self.old.marks.items }
        ensures marks { (k : ℕ) → k < length self.old.marks.items → slice_index_or self.new.marks.items k false
            ≡ (slice_index_or self.old.marks.items k false || is_number k (name_in_tree self.old.tree (lowercase member.now))) }
    {
        let Some(number) = self.tree.number_of(member) else {
            return false;
        };
        let number = number as usize;
        // A name that is marked needs no second look.
        let is_new = number < self.marks.len()
            && !self.marks[number]
            && self.tree.is_name(number, member);
        if is_new {
            self.marks[number] = true;
        }
        is_new
    }

    /// What the names look like that are not marked.
    fn wanted(&self) -> Wanted
        ensures blanks { HasBlanks result }
        ensures unmarked { AreWanted self.now result }
    {
        let mut wanted = Wanted::none();
        for number in 0..self.tree.names.len() {
            if !self.mark_of(number) {
                wanted.add(self.tree.name(number));
            }
        }
        wanted
    }

    /// Marks those names that are members of one value more (RFC 9110 section 5.6.1).
    pub fn note(&mut self, value: &[u8])
        ensures tree { self.new.tree ≡ self.old.tree }
        ensures marks { (values : List (List ℕ)) → AreMarked values self.old → AreMarked (values ++ value.now ∷ []) self.new }
    {
        let mut wanted = Wanted::all();
        let mut is_stale = true;
        let mut looks: usize = 0;
        let mut rest = Some(value);
        while let Some((member, after)) = wanted.next(rest) {
            is_stale = self.mark(member) || is_stale;
            looks = looks.saturating_add(1);
            if looks >= LOOK_LIMIT && is_stale {
                wanted = self.wanted();
                is_stale = false;
                looks = 0;
            }
            rest = after;
        }
    }

    /// Whether the name of a number is marked.
    fn mark_of(&self, number: usize) -> bool
        ensures { result ≡ slice_index_or self.now.marks.items number false }
    {
        number < self.marks.len() && self.marks[number]
    }

    /// Whether a member of the values is this name, in any case of letters; none where it is no name of the tree.
    pub fn is_listed(&self, name: &[u8]) -> Option<bool>
        ensures some { (values : List (List ℕ)) → AreMarked values self.now → IfSome result (λ b. b ≡ list_any (lists (lowercase name.now)) values) }
        ensures none { IfNone result (name_in_tree self.now.tree (lowercase name.now) ≡ None) }
    {
        match self.tree.found(name) {
            Some(number) => Some(self.mark_of(number)),
            None => None,
        }
    }
}
