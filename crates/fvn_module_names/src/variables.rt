//! The variables that are declared so far.
ghost use Rattle.std.specs.Prelude.{◌≡◌, ◌≤◌, map, not, option_map, All, IfOk, OnOk};
ghost use Rattle.fvn_forms.specs.SortOrder.{sort_number};
ghost use Rattle.fvn_syntax.specs.Texts.{place};
ghost use Rattle.fvn_syntax.specs.Names.{declared_sort};
ghost use Rattle.fvn_module_names.specs.Variables.{no_variables, unless_declared, with_variables};
ghost use Rattle.fvn_module_names.specs.Faults.{is_missing};

use fvn_base::Seq;
use fvn_syntax::{Text, Texts, Variables};
use fvn_terms::{NoMemory, SortId};
use std::alloc::Global;
use std::marker::Model;

/// Declared variables and the number of the sort of each, which may be large.
#[derive(Drop)]
pub struct VariableTable {
    texts: Texts,
    sorts: Vec<usize>,
}

impl Model for VariableTable {
    ghost use Rattle.std.specs.Prelude.{map};
    ghost use Rattle.fvn_forms.specs.SortOrder.{sort_number};
    ghost use Rattle.fvn_syntax.specs.declared.names.Variables.{Variables};

    ghost Value = { Variables };

    ghost view = { λ t. record { texts = t.texts; sorts = map sort_number t.sorts.items } };
}

impl VariableTable {
    /// No variable.
    pub fn new(alloc: Global) -> VariableTable
        ensures { result ≡ no_variables }
    {
        VariableTable {
            texts: Texts::new(alloc),
            sorts: Vec::new(alloc),
        }
    }

    /// Whether a variable has this name.
    pub fn has(&self, name: &[u8]) -> bool
        ensures { result ≡ not (is_missing self.now.texts name.now) }
    {
        self.texts.place(name).is_some()
    }

    /// The number of the sort of the variable with this name.
    pub fn find_sort(&self, name: &[u8]) -> Option<usize>
        ensures { option_map sort_number result ≡
            declared_sort self.now.sorts (place self.now.texts name.now) }
    {
        let i = self.texts.place(name)?;
        self.sorts.as_slice().get(i).copied()
    }

    // Declares a variable, where there is none with this name.
    fn insert(&mut self, alloc: Global, name: &[u8], sort: usize) -> Result<(), NoMemory>
        ensures { OnOk result (self.new ≡ unless_declared self.old name.now (sort_number sort)
            (place self.old.texts name.now)) }
    {
        match self.texts.place(name) {
            Some(_) => Ok(()),
            None => {
                let _place = self.texts.insert(alloc, name)?;
                self.sorts.push(sort)?;
                Ok(())
            }
        }
    }

    /// Declares variables of one sort, but those with a name that there is already.
    pub fn insert_all(
        &mut self,
        alloc: Global,
        names: &[Text<'_>],
        sort: usize,
    ) -> Result<(), NoMemory>
        ensures { OnOk result (self.new ≡ with_variables self.old names.now (sort_number sort)) }
    {
        for name in names {
            self.insert(alloc, name.bytes(), sort)?;
        }
        Ok(())
    }

    /// The variables, where the numbers of their sorts are small.
    pub fn into_variables(self, alloc: Global) -> Result<Variables, NoMemory>
        requires { All (λ s. s.0 ≤ u16.MAX) self.sorts }
        ensures { IfOk result (λ x. x ≡ self) }
    {
        let VariableTable {
            texts,
            sorts: numbers,
        } = self;
        let mut sorts = Vec::new(alloc);
        for number in numbers.as_slice() {
            sorts.push(SortId(*number as u16))?;
        }
        Ok(Variables {
            texts,
            sorts: Seq::from_vec(sorts),
        })
    }
}
