//! Reading weights of operators.
ghost use Rattle.std.specs.Prelude.{◌≡◌, ◌<◌, ◌≤◌, length, map, slice_set, IsTrue, IfOk, IfErr};
ghost use Rattle.std.specs.List.{AllByRecursion};
ghost use Rattle.fvn_problems.specs.Scopes.{AreNamesOf};
ghost use Rattle.fvn_weights.specs.Weighing.{AreWeightsOf};
ghost use Rattle.fvn_weights_reading.specs.Spelling.{number, is_number, IsEntry, AreOnce};
ghost use Rattle.fvn_weights_reading.specs.Reading.{
  plain_weight,
  IsWrittenWeight,
  IsFitting,
  IsEntryFault,
  IsWeights,
  IsOnlyWeights,
  RefusesWeights,
  HasNoWeights,
};
ghost use Rattle.fvn_weights_reading.specs.inner.Steps.{ArePlain, Weigh, WeighNothing};

use crate::entry::Entry;
use crate::numbers::number;
use crate::once::are_once;
use crate::split::{cut_text, split_entries};
use fvn_base::Seq;
use fvn_problems::ProblemFault;
use fvn_signature::Signature;
use fvn_syntax::{Names, Piece, find_operator};
use fvn_terms::{NoMemory, OpId};
use fvn_weights::{Weight, Weights};
use std::alloc::Global;

// The weight that counts each of so many arguments once, and adds nothing.
fn plain_weight(alloc: Global, arity: usize) -> Result<Weight, NoMemory>
    ensures { IfOk result (λ w. w ≡ plain_weight arity) }
{
    let ones = Vec::from_elem(alloc, 1u64, arity)?;
    Ok(Weight {
        coefficients: Seq::from_vec(ones),
        constant: 0,
    })
}

// The plain weight of each operator.
fn plain_weights(alloc: Global, signature: &Signature) -> Result<Vec<Weight>, NoMemory>
    ensures { IfOk result (λ ws. ArePlain signature.now ws.items) }
{
    signature.recall_good();
    let mut list = Vec::new(alloc);
    for n in 0..signature.op_count() {
        let arity = signature.arity(OpId(n as u16));
        let weight = plain_weight(alloc, arity)?;
        list.push(weight)?;
    }
    Ok(list)
}

// The numbers that pieces write.
fn numbers_of(alloc: Global, pieces: &[Piece<'_>]) -> Result<Vec<u64>, NoMemory>
    requires { AllByRecursion (λ p. IsTrue (is_number p)) pieces.now }
    ensures { IfOk result (λ list. list.items ≡ map (λ p. number p.text) pieces.now) }
{
    let mut list = Vec::new(alloc);
    for piece in pieces {
        let value = number(piece.text());
        list.push(value)?;
    }
    Ok(list)
}

// The weight that an entry writes.
fn written_weight(alloc: Global, entry: &Entry<'_>) -> Result<Weight, NoMemory>
    requires { IsEntry entry.now }
    ensures { IfOk result (IsWrittenWeight entry.now) }
{
    let mut numbers = numbers_of(alloc, entry.numbers.pieces())?;
    let constant = numbers.pop().unwrap_or(0);
    Ok(Weight {
        coefficients: Seq::from_vec(numbers),
        constant,
    })
}

// The operator that an entry fits.
fn operator_of(
    signature: &Signature,
    names: &Names,
    entry: &Entry<'_>,
) -> Result<OpId, ProblemFault>
    requires { AreNamesOf signature.now names.now }
    ensures ok { IfOk result (IsFitting signature.now names.now entry.now) }
    ensures within { IfOk result (λ f. f.0 < length signature.now.ops) }
    ensures err { IfErr result (IsEntryFault signature.now names.now entry.now) }
{
    let Some(f) = find_operator(names, entry.name.bytes()) else {
        return Err(ProblemFault::UnknownName);
    };
    let count = entry.numbers.pieces().len();
    let arity = signature.arity(f);
    let few = count <= arity;
    if few {
        return Err(ProblemFault::Arity);
    }
    let other = count - arity != 1;
    if other {
        return Err(ProblemFault::Arity);
    }
    Ok(f)
}

// Writes a weight into its place.
fn put(list: &mut Vec<Weight>, f: OpId, weight: Weight)
    requires { f.0 < length list.old.items }
    ensures { list.new.items ≡ slice_set list.old.items f.0 weight }
{
    list[usize::from(f.0)] = weight;
}

// The weights that entries give.
fn weights_of(
    alloc: Global,
    signature: &Signature,
    names: &Names,
    entries: &[Entry<'_>],
) -> Result<Weights, ProblemFault>
    requires names { AreNamesOf signature.now names.now }
    requires entries { AllByRecursion IsEntry entries.now }
    requires once { AreOnce entries.now }
    ensures ok { IfOk result (λ ws. Weigh signature.now names.now entries.now ws.list) }
    ensures err { IfErr result (WeighNothing signature.now names.now entries.now) }
{
    let mut list = plain_weights(alloc, signature)?;
    for entry in entries {
        let f = operator_of(signature, names, entry)?;
        let weight = written_weight(alloc, entry)?;
        put(&mut list, f, weight);
    }
    Ok(Weights {
        list: Seq::from_vec(list),
    })
}

// The weights that a text gives, or its first fault.
fn weights_in(
    alloc: Global,
    signature: &Signature,
    names: &Names,
    bytes: &[u8],
) -> Result<Weights, ProblemFault>
    requires { AreNamesOf signature.now names.now }
    ensures ok { IfOk result (IsWeights signature.now names.now bytes.now) }
    ensures err { IfErr result (RefusesWeights signature.now names.now bytes.now) }
{
    let row = cut_text(alloc, bytes)?;
    match split_entries(alloc, row.as_slice())? {
        None => Err(ProblemFault::Text),
        Some(list) => {
            let once = are_once(alloc, list.as_slice())?;
            if !once {
                return Err(ProblemFault::Text);
            }
            weights_of(alloc, signature, names, list.as_slice())
        }
    }
}

/// The weights that a text gives to the operators of a signature, or its first fault.
///
/// Tokens, form and that no name is written twice, and then from left to right whether a name is an operator's, and
/// whether it has one number more than that has arguments, are tested in this order. An operator of which nothing is
/// written counts each argument once, and adds nothing.
pub fn read_weights(
    alloc: Global,
    signature: &Signature,
    names: &Names,
    bytes: &[u8],
) -> Result<Weights, ProblemFault>
    requires { AreNamesOf signature.now names.now }
    ensures ok { IfOk result (IsWeights signature.now names.now bytes.now) }
    ensures only { IfOk result (IsOnlyWeights signature.now names.now bytes.now) }
    ensures all { IfOk result (λ ws. AreWeightsOf signature.now ws.list) }
    ensures err { IfErr result (RefusesWeights signature.now names.now bytes.now) }
    ensures none { IfErr result (HasNoWeights signature.now names.now bytes.now) }
{
    weights_in(alloc, signature, names, bytes)
}
