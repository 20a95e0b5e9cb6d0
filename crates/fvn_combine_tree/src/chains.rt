//! Chains of nodes with one key, so that nodes that ask nothing of one another are not looked at together.
ghost use Rattle.std.specs.Prelude.{◌≡◌, ℕ, ◌<◌, ◌≤◌, List, length, slice_index, slice_set, IfOk, IfSome, All};
ghost use Rattle.fvn_terms.specs.declared.plain.OpId.{OpId};
ghost use Rattle.fvn_combine_nodes.specs.Table.{IsOver};
ghost use Rattle.fvn_combine_tree.specs.inner.Chains.{HasRoom, IsChained, IsEndFor, AreKeys, mixed, mixed_all, key_of};

use fvn_combine_nodes::{Node, Table};
use fvn_terms::{NoMemory, OpId};
use std::alloc::Global;

/// What the nodes with one key have alike.
#[derive(Clone, Copy)]
pub enum By {
    /// They are in one class.
    Class,
    /// They have one operator, and arguments in the same classes.
    Arguments,
}

/// A key for each node; one more than the last node with a key, under that key; and for each node one more than the
/// last node before it with its key.
#[derive(Drop)]
pub struct Chains {
    pub keys: Vec<usize>,
    pub last: Vec<usize>,
    pub before: Vec<usize>,
}

// A list of zeros.
fn zeros(alloc: Global, count: usize) -> Result<Vec<usize>, NoMemory>
    ensures { IfOk result (λ list. length list.items ≡ count) }
{
    let mut list = Vec::with_capacity(alloc, count)?;
    for _i in 0..count {
        list.push(0)?;
    }
    Ok(list)
}

// Writes a number into its place.
fn put(list: &mut Vec<usize>, place: usize, number: usize)
    requires { place < length list.old.items }
    ensures { list.new.items ≡ slice_set list.old.items place number }
{
    list[place] = number;
}

// One more number in a key.
fn mix(key: usize, number: usize) -> usize
    ensures { result ≡ mixed key number }
{
    key % 4_294_967_296 * 31 + number % 4_294_967_296
}

// The key of an operator over arguments of these classes, that begins with a number.
fn mix_all(names: &[usize], first: usize, ks: &[usize]) -> usize
    requires { All (λ k. k < length names.now) ks.now }
    ensures { result ≡ mixed_all (slice_index names.now) first ks.now }
{
    let mut key = first;
    for k in ks {
        key = mix(key, names[*k]);
    }
    key
}

// The key of node i, which is f over ks.
fn key_over(names: &[usize], by: By, i: usize, f: OpId, ks: &[usize]) -> usize
    requires within { i < length names.now }
    requires arguments { All (λ k. k < length names.now) ks.now }
    ensures { result ≡ key_of names.now by i f ks.now }
{
    match by {
        By::Class => names[i],
        By::Arguments => mix_all(names, usize::from(f.0), ks) % names.len(),
    }
}

// The key of node i; its own number where it is a variable.
fn key_at(table: &Table, names: &[usize], by: By, i: usize) -> usize
    requires whole { length names.now ≡ length table.now.nodes }
    requires within { i < length names.now }
    ensures { (f : OpId) (ks : List ℕ) → IsOver table.now.nodes i f ks
        → result ≡ key_of names.now by i f ks }
{
    table.recall_well_made();
    match table.node(i) {
        Node::Var(_) => i,
        Node::App(f, ks) => key_over(names, by, i, *f, ks.as_slice()),
    }
}

// Whether node i is no variable.
fn is_application(table: &Table, i: usize) -> bool
    requires { i < length table.now.nodes }
{
    match table.node(i) {
        Node::Var(_) => false,
        Node::App(_, _) => true,
    }
}

// The first places of two lists of nodes that are in two classes.
fn first_apart(names: &[usize], ks: &[usize], ls: &[usize]) -> Option<(usize, usize)>
    requires left { All (λ k. k < length names.now) ks.now }
    requires right { All (λ k. k < length names.now) ls.now }
    ensures { IfSome result (λ p. (p.0 < length names.now) × (p.1 < length names.now)) }
{
    if ks.len() != ls.len() {
        return None;
    }
    for i in 0..ks.len() {
        if names[ks[i]] != names[ls[i]] {
            return Some((ks[i], ls[i]));
        }
    }
    None
}

impl Chains {
    /// Room for so many nodes.
    pub fn new(alloc: Global, count: usize) -> Result<Chains, NoMemory>
        ensures { IfOk result (HasRoom count) }
    {
        let keys = zeros(alloc, count)?;
        let last = zeros(alloc, count)?;
        let before = zeros(alloc, count)?;
        Ok(Chains { keys, last, before })
    }

    // Gives each node its key.
    fn key_all(&mut self, table: &Table, names: &[usize], by: By)
        requires room { HasRoom (length names.now) self.old }
        requires whole { length names.now ≡ length table.now.nodes }
        ensures room { HasRoom (length names.now) self.new }
        ensures keys { AreKeys table.now.nodes names.now by self.new.keys.items }
    {
        for i in 0..names.len() {
            let key = key_at(table, names, by, i);
            put(&mut self.keys, i, key);
            put(&mut self.last, i, 0);
        }
    }

    // Chains each node to the last one before it with its key.
    fn link(&mut self, count: usize)
        requires room { HasRoom count self.old }
        ensures room { HasRoom count self.new }
        ensures keys { self.new.keys.items ≡ self.old.keys.items }
        ensures chained { IsChained count self.new.keys.items self.new.before.items }
    {
        for i in 0..count {
            let key = self.keys[i] % count;
            let last = self.last[key];
            put(&mut self.before, i, last);
            put(&mut self.last, key, i + 1);
        }
    }

    /// Chains the nodes that have alike what is said.
    pub fn chain(&mut self, table: &Table, names: &[usize], by: By)
        requires room { HasRoom (length names.now) self.old }
        requires whole { length names.now ≡ length table.now.nodes }
        ensures room { HasRoom (length names.now) self.new }
        ensures keys { AreKeys table.now.nodes names.now by self.new.keys.items }
        ensures chained { IsChained (length names.now) self.new.keys.items self.new.before.items }
    {
        self.key_all(table, names, by);
        self.link(names.len());
    }

    /// A number, at most j, below which all nodes before node j stand that have the key of node i, as node j has; j where
    /// it has another.
    pub fn end(&self, count: usize, i: usize, j: usize) -> usize
        requires room { HasRoom count self.now }
        requires chained { IsChained count self.now.keys.items self.now.before.items }
        requires left { i < count }
        requires right { j < count }
        ensures lower { result ≤ j }
        ensures end { IsEndFor self.now.keys.items i j result }
    {
        if self.keys[j] != self.keys[i] {
            return j;
        }
        self.before[j].min(j)
    }
}

impl Chains {
    // No class has a head.
    fn clear(&mut self, count: usize)
        requires room { HasRoom count self.old }
        ensures room { HasRoom count self.new }
    {
        for i in 0..count {
            put(&mut self.last, i, 0);
        }
    }

    // Makes node i the head of its class, if it is no variable.
    fn lead(&mut self, table: &Table, names: &[usize], i: usize)
        requires room { HasRoom (length names.now) self.old }
        requires whole { length names.now ≡ length table.now.nodes }
        requires within { i < length names.now }
        ensures room { HasRoom (length names.now) self.new }
    {
        let class = names[i];
        if !is_application(table, i) {
            return;
        }
        if class < names.len() {
            put(&mut self.last, class, i + 1);
        }
    }

    /// Makes the first node of each class that is no variable its head.
    pub fn lead_all(&mut self, table: &Table, names: &[usize])
        requires room { HasRoom (length names.now) self.old }
        requires whole { length names.now ≡ length table.now.nodes }
        ensures room { HasRoom (length names.now) self.new }
    {
        let count = names.len();
        self.clear(count);
        for k in 0..count {
            self.lead(table, names, count - 1 - k);
        }
    }

    /// The head of the class of node i; the node itself where it has none, and then it becomes that.
    pub fn head(&mut self, table: &Table, names: &[usize], i: usize) -> usize
        requires room { HasRoom (length names.now) self.old }
        requires whole { length names.now ≡ length table.now.nodes }
        requires within { i < length names.now }
        ensures room { HasRoom (length names.now) self.new }
        ensures within { result < length names.now }
    {
        let class = names[i];
        let head = match self.last.as_slice().get(class) {
            Some(head) => *head,
            None => return i,
        };
        if head == 0 {
            self.lead(table, names, i);
            return i;
        }
        if head > names.len() {
            return i;
        }
        head - 1
    }
    // The head of the class of node i; the node itself where it has none.
    fn head_of(&self, names: &[usize], i: usize) -> usize
        requires room { HasRoom (length names.now) self.now }
        requires within { i < length names.now }
        ensures { result < length names.now }
    {
        let head = match self.last.as_slice().get(names[i]) {
            Some(head) => *head,
            None => return i,
        };
        if head == 0 {
            return i;
        }
        if head > names.len() {
            return i;
        }
        head - 1
    }

    /// The heads of the classes of the first arguments of nodes i and j that are in two classes; these nodes themselves
    /// where there are no such arguments.
    pub fn beneath(&self, table: &Table, names: &[usize], i: usize, j: usize) -> (usize, usize)
        requires room { HasRoom (length names.now) self.now }
        requires whole { length names.now ≡ length table.now.nodes }
        requires left { i < length names.now }
        requires right { j < length names.now }
        ensures { (result.0 < length names.now) × (result.1 < length names.now) }
    {
        table.recall_well_made();
        match table.node(i) {
            Node::Var(_) => (i, j),
            Node::App(_, ks) => match table.node(j) {
                Node::Var(_) => (i, j),
                Node::App(_, ls) => match first_apart(names, ks.as_slice(), ls.as_slice()) {
                    None => (i, j),
                    Some((k, l)) => (self.head_of(names, k), self.head_of(names, l)),
                },
            },
        }
    }
}
