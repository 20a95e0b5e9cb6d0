//! What all statements of a module declare.
ghost use Rattle.std.specs.Prelude.{◌≡◌, ◌<◌, ◌*◌, map, option_map, IfOk};
ghost use Rattle.fvn_forms.specs.SortOrder.{sort_number};
ghost use Rattle.fvn_syntax.specs.Names.{sort_named, kind_in, kind_of, if_of_kind, bracket, resolve_sort};
ghost use Rattle.fvn_module_names.specs.Vocabulary.{vocabulary_of};
ghost use Rattle.fvn_module_names.specs.Ranges.{IsInRange};

use crate::kinds::find_kinds;
use crate::names::{collect_operators, collect_sorts};
use fvn_base::Seq;
use fvn_module_syntax::Statement;
use fvn_syntax::{Names, RawSort, Text, Texts, Variables};
use fvn_terms::NoMemory;
use std::alloc::Global;
use std::marker::Model;

/// The sorts and operators of a module, and the kind of each sort and then of each kind.
#[derive(Drop)]
pub struct Vocabulary {
    sorts: Texts,
    ops: Texts,
    kinds: Vec<usize>,
}

impl Model for Vocabulary {
    ghost use Rattle.std.specs.Prelude.{map};
    ghost use Rattle.fvn_forms.specs.SortOrder.{sort_number};
    ghost use Rattle.fvn_module_names.specs.Vocabulary.{Vocabulary as Words};

    ghost Value = { Words };

    ghost view = { λ v. record {
      sorts = v.sorts;
      ops = v.ops;
      kinds = map sort_number v.kinds.items;
    } };
}

// The kind of a sort, in the list of all kinds.
fn kind_among(kinds: &[usize], s: usize) -> usize
    ensures { sort_number result ≡ kind_in (map sort_number kinds.now) (sort_number s) }
{
    match kinds.get(s) {
        Some(kind) => *kind,
        None => s,
    }
}

impl Vocabulary {
    /// What statements declare.
    pub fn collect(alloc: Global, statements: &[Statement<'_>]) -> Result<Vocabulary, NoMemory>
        ensures exact { IfOk result (λ v. v ≡ vocabulary_of statements.now) }
        ensures in_range { IfOk result IsInRange }
    {
        let sorts = collect_sorts(alloc, statements)?;
        let ops = collect_operators(alloc, statements)?;
        let kinds = find_kinds(alloc, &sorts, statements)?;
        Ok(Vocabulary { sorts, ops, kinds })
    }

    /// The sorts.
    pub fn sorts(&self) -> &Texts
        ensures { result.now ≡ self.now.sorts }
    {
        &self.sorts
    }

    /// The operators.
    pub fn ops(&self) -> &Texts
        ensures { result.now ≡ self.now.ops }
    {
        &self.ops
    }

    // The kind of the sort of a name.
    fn find_kind(&self, name: &[u8]) -> Option<usize>
        ensures { option_map sort_number result ≡
            kind_of self.now.kinds (sort_named self.now.sorts name.now) }
    {
        let s = self.sorts.place(name)?;
        Some(kind_among(self.kinds.as_slice(), s))
    }

    // The kind, where the name is that of a sort of it.
    fn keep_kind(&self, kind: usize, name: &[u8]) -> Option<usize>
        ensures { option_map sort_number result ≡
            if_of_kind self.now.kinds (sort_number kind) (sort_named self.now.sorts name.now) }
    {
        let s = self.sorts.place(name)?;
        if kind_among(self.kinds.as_slice(), s) == kind {
            Some(kind)
        } else {
            None
        }
    }

    // The kind of the sorts of a bracket, which are all of one kind.
    fn find_bracket(&self, first: &[u8], others: &[Text<'_>]) -> Option<usize>
        ensures { option_map sort_number result ≡
            bracket self.now.sorts self.now.kinds first.now others.now }
    {
        let mut kind = self.find_kind(first)?;
        for other in others {
            kind = self.keep_kind(kind, other.bytes())?;
        }
        Some(kind)
    }

    /// The number of the sort that is written.
    pub fn find_sort(&self, written: &RawSort<'_>) -> Option<usize>
        ensures { option_map sort_number result ≡
            resolve_sort self.now.sorts self.now.kinds written.now }
    {
        match written {
            RawSort::Name(name) => self.sorts.place(name.bytes()),
            RawSort::Kind(first, others) => self.find_bracket(first.bytes(), others.as_slice()),
        }
    }

    /// The names of the module with this name and these variables.
    pub fn into_names(self, module_name: Seq<u8>, variables: Variables) -> Names
        ensures { result ≡ record {
          module_name = module_name;
          sorts = self.sorts;
          ops = self.ops;
          variables = variables;
        } }
    {
        Names {
            module_name,
            sorts: self.sorts,
            ops: self.ops,
            variables,
        }
    }
}
