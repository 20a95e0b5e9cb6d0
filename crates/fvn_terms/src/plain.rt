//! Plain terms: a variable, or an operator over a list of terms.
ghost use Rattle.std.specs.Prelude.{◌≡◌, ◌-◌, ◌^◌, min, IsTrue, ◌↔◌, IfOk};
ghost use Rattle.fvn_terms.specs.Term.{nodes, nodes_all};
ghost use Rattle.fvn_terms.specs.Plain.{term};

use fvn_base::NoMemory;
use std::alloc::Global;
use std::marker::Model;

/// The number of a sort: the declared sorts in order of declaration, and then the kinds.
#[derive(Debug, Clone, Copy, PartialEq, Eq, PartialOrd, Ord, Hash)]
pub struct SortId(pub u16);

/// The number of an operator, in order of declaration.
#[derive(Debug, Clone, Copy, PartialEq, Eq, PartialOrd, Ord, Hash)]
pub struct OpId(pub u16);

/// A variable: one with the text of this number, or the new variable of this number.
///
/// Two variables are the same where all three fields agree.
#[derive(Debug, Clone, Copy, PartialEq, Eq, PartialOrd, Ord, Hash)]
pub struct Var {
    pub name: u32,
    pub sort: SortId,
    pub fresh: bool,
}

/// A term as it is read: an operator holds its arguments as they were written.
#[cycle(plain)]
#[derive(Drop)]
pub enum Plain {
    Var(Var),
    App(OpId, Args),
}

/// The arguments of an operator, from left to right.
#[cycle(plain)]
#[derive(Drop)]
pub struct Args {
    pub items: Vec<Plain>,
}

impl Model for Args {
    ghost use Rattle.fvn_terms.specs.Term.{Terms};
    ghost use Rattle.fvn_terms.specs.inner.Code.{coded_terms};

    ghost Value = { Terms };

    ghost coded = { coded_terms };

    ghost use Rattle.fvn_terms.specs.Plain.{terms};
    ghost use Rattle.fvn_terms.specs.Term.{nodes_all};

    ghost view = { λ a. terms a.items.items };

    ghost size = { nodes_all };

    ghost use Rattle.fvn_terms.specs.Falls.{args_fall};

    ghost size_decreases = { λ a h. args_fall a.items.items };
}

impl Plain {
    /// The same term, in memory of its own.
    #[cycle(copy)]
    pub fn copy(&self, alloc: Global) -> Result<Plain, NoMemory>
        ensures { IfOk result (λ t. t ≡ self.now) }
    {
        match self {
            Plain::Var(x) => Ok(Plain::Var(*x)),
            Plain::App(f, us) => Ok(Plain::App(*f, us.copy(alloc)?)),
        }
    }

    /// The number of nodes, or the greatest number.
    #[cycle(size)]
    pub fn size(&self) -> u64
        ensures { result ≡ min (nodes (term self.now)) (2 ^ 64 - 1) }
    {
        match self {
            Plain::Var(_) => 1,
            Plain::App(_, us) => us.size().saturating_add(1),
        }
    }

    /// Whether the two are one term.
    #[cycle(same)]
    pub fn same(&self, other: &Plain) -> bool
        ensures { IsTrue result ↔ (self.now ≡ other.now) }
    {
        match (self, other) {
            (Plain::Var(x), Plain::Var(y)) => *x == *y,
            (Plain::App(f, us), Plain::App(g, vs)) => *f == *g && us.same(vs),
            _ => false,
        }
    }
}

impl Args {
    ghost use Rattle.fvn_terms.specs.Plain.{terms};

    /// These terms as arguments.
    pub fn from_vec(items: Vec<Plain>) -> Args
        ensures { result ≡ terms items.items }
    {
        Args { items }
    }

    /// The arguments as a vector.
    pub fn into_vec(self) -> Vec<Plain>
        ensures { terms result.items ≡ self }
    {
        self.items
    }

    /// The arguments as a slice.
    pub fn as_slice(&self) -> &[Plain]
        ensures { terms result.now ≡ self.now }
    {
        self.items.as_slice()
    }

    /// The same arguments, in memory of their own.
    #[cycle(copy)]
    pub fn copy(&self, alloc: Global) -> Result<Args, NoMemory>
        ensures { IfOk result (λ us. us ≡ self.now) }
    {
        let mut items = Vec::new(alloc);
        for t in &self.items {
            items.push(t.copy(alloc)?)?;
        }
        Ok(Args { items })
    }

    /// The number of nodes of all arguments, or the greatest number.
    #[cycle(size)]
    pub fn size(&self) -> u64
        ensures { result ≡ min (nodes_all self.now) (2 ^ 64 - 1) }
    {
        let mut count: u64 = 0;
        for t in &self.items {
            count = count.saturating_add(t.size());
        }
        count
    }

    /// Whether the two are one list of terms.
    #[cycle(same)]
    pub fn same(&self, other: &Args) -> bool
        ensures { IsTrue result ↔ (self.now ≡ other.now) }
    {
        if self.items.len() != other.items.len() {
            return false;
        }
        for (t, u) in self.items.iter().zip(other.items.iter()) {
            if !t.same(u) {
                return false;
            }
        }
        true
    }
}
