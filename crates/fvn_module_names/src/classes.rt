//! Disjoint classes of numbers.
ghost use Rattle.std.specs.Prelude.{◌≡◌, ◌≢◌, ◌<◌, length, All, IfOk};
ghost use Rattle.std.specs.List.{range_with_len};
ghost use Rattle.fvn_module_names.specs.inner.Classes.{IsRelabelled, IsMerged, IsJoin};

use fvn_base::Seq;
use fvn_terms::NoMemory;
use std::alloc::Global;
use std::marker::Model;
use std::mem;

/// Classes of the numbers below a number; contracts see the label of each.
#[derive(Drop)]
pub struct Classes {
    labels: Vec<usize>,
    members: Vec<Seq<usize>>,
}

impl Model for Classes {
    ghost use Rattle.std.specs.Prelude.{List, ℕ};
    ghost use Rattle.fvn_module_names.specs.inner.Classes.{IsClassed};

    ghost Value = { List ℕ };

    ghost view = { λ c. c.labels.items };

    ghost invariant = { λ c. IsClassed c.labels.items c.members.items };
}

// Gives these numbers a label.
fn relabel(labels: &mut [usize], listed: &[usize], label: usize)
    requires { All (λ i. i < length labels.old) listed.now }
    ensures { IsRelabelled labels.old labels.new listed.now label }
{
    for i in listed {
        labels[*i] = label;
    }
}

impl Classes {
    /// Each number below `n` in a class of its own.
    pub fn new(alloc: Global, n: usize) -> Result<Classes, NoMemory>
        ensures { IfOk result (λ c. c ≡ range_with_len 0 n) }
    {
        let mut labels = Vec::new(alloc);
        let mut members = Vec::new(alloc);
        for i in 0..n {
            let mut member = Vec::new(alloc);
            member.push(i)?;
            members.push(Seq::from_vec(member))?;
            labels.push(i)?;
        }
        Ok(Classes { labels, members })
    }

    /// The label of each number.
    pub fn labels(&self) -> &[usize]
        ensures exact { result.now ≡ self.now }
        ensures in_range { All (λ l. l < length self.now) result.now }
    {
        self.labels.as_slice()
    }

    // Puts one class into another.
    fn merge(self, alloc: Global, from: usize, into: usize) -> Result<Classes, NoMemory>
        requires from { from < length self }
        requires into { into < length self }
        requires other { from ≢ into }
        ensures { IfOk result (λ c. IsMerged self c from into) }
    {
        let Classes {
            mut labels,
            mut members,
        } = self;
        let moved = mem::replace(&mut members[from], Seq::new(alloc));
        let mut all = mem::replace(&mut members[into], Seq::new(alloc)).into_vec();
        all.extend_from_slice(moved.as_slice())?;
        members[into] = Seq::from_vec(all);
        relabel(labels.as_mut_slice(), moved.as_slice(), into);
        Ok(Classes { labels, members })
    }

    /// Puts the classes of two numbers together, the smaller one into the larger one.
    pub fn join(self, alloc: Global, a: usize, b: usize) -> Result<Classes, NoMemory>
        requires a { a < length self }
        requires b { b < length self }
        ensures { IfOk result (λ c. IsJoin self c a b) }
    {
        let one = self.labels[a];
        let other = self.labels[b];
        if one == other {
            return Ok(self);
        }
        if self.members[one].len() < self.members[other].len() {
            let classes = self.merge(alloc, one, other)?;
            Ok(classes)
        } else {
            let classes = self.merge(alloc, other, one)?;
            Ok(classes)
        }
    }
}
