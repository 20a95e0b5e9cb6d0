//! How many choices there are among minimal solutions: which of these may be taken or not, whatever else is taken, and which
//! are in each choice.
ghost use Rattle.std.specs.Prelude.{Contains};
ghost use Rattle.fvn_terms.specs.Signature.{axioms};
ghost use Rattle.fvn_terms.specs.Equality.{IsAssociative};
ghost use Rattle.fvn_combine_nodes.specs.States.{IsClosed, class_of};
ghost use Rattle.fvn_combine_leaves.specs.Readings.{AreSums, IsReading};

use crate::neutral::is_neutral;
use crate::vanishing::other_columns;
use crate::whole::is_whole;
use fvn_acunify::ColumnBounds;
use fvn_base::limits::MINIMAL_SOLUTIONS;
use fvn_combine_bounds::bounds_of;
use fvn_combine_leaves::{Reading, Sums};
use fvn_combine_nodes::{State, Table};
use fvn_lindio::{Row, Solution};
use fvn_signature::Signature;
use fvn_terms::{NoMemory, OpId};
use std::alloc::Global;

/// The most solutions that may be taken or not, where the others stand in a column that each choice takes once: each of
/// them makes twice as many choices.
const FREE_SOLUTIONS: usize = 4;

/// The most solutions of which that is asked.
const SHARED_OUT: usize = 31;

/// Twelve bits number 4,096 choices, as many as unifiers are told: so many are gone through within a second or two.
const NUMBERED: usize = 12;

/// The most rows that may have a class of which no other head is known, where many solutions may come up on the way.
const FEW_USES: usize = 4;

/// What is read of a state, and what is known of its classes.
#[derive(Clone, Copy)]
pub(crate) struct HeadedSums<'a> {
    pub(crate) reading: &'a Reading,
    /// For each class an operator that heads its value, where one is known.
    pub(crate) heads: &'a [Option<OpId>],
}

/// What sorts ask of the columns, where they are heeded.
pub(crate) fn heeded_bounds(
    alloc: Global,
    sig: &Signature,
    table: &Table,
    state: &State,
    sums: &Sums,
    sorted: bool,
) -> Result<ColumnBounds, NoMemory>
    requires associative { IsAssociative (axioms sig.now sums.now.operator) }
    requires closed { IsClosed sig.now table.now state.now }
    requires sums { AreSums sig.now table.now (class_of state.now) sums.now }
{
    if !sorted {
        return Ok(ColumnBounds::none(alloc));
    }
    let neutral = is_neutral(sig, sums.operator);
    let bounds = bounds_of(alloc, sig, table, state, sums, neutral)?;
    Ok(bounds)
}

// Whether another operator is known to head the class of node k.
fn is_headed(heads: &[Option<OpId>], f: OpId, k: usize) -> bool {
    if k >= heads.len() {
        return false;
    }
    match heads[k] {
        None => false,
        Some(g) => g != f,
    }
}

// Whether the row has something in the column.
fn is_used(row: &Row, j: usize) -> bool {
    match row.coefficients.as_slice().get(j) {
        None => false,
        Some(coefficient) => *coefficient != 0,
    }
}

// How many rows have something in the column.
fn count_uses(sums: &Sums, j: usize) -> usize {
    let mut count: usize = 0;
    for row in sums.system.rows.as_slice() {
        if is_used(row, j) {
            count = count.saturating_add(1);
        }
    }
    count
}

/// Whether few rows of the system have any one class, but for those that other operators are known to head: where a variable
/// stands dozens of times in sums, numbers get large on the way.
pub(crate) fn are_uses_few(headed: HeadedSums, sums: &Sums) -> bool {
    let columns = sums.columns.as_slice();
    for j in 0..columns.len() {
        if count_uses(sums, j) <= FEW_USES {
            continue;
        }
        if !is_headed(headed.heads, sums.operator, columns[j]) {
            return false;
        }
    }
    true
}

// Whether the operator itself is known to head it: then the class is a sum, and no constant.
fn is_own(heads: &[Option<OpId>], f: OpId, k: usize) -> bool {
    if k >= heads.len() {
        return false;
    }
    match heads[k] {
        None => false,
        Some(g) => g == f,
    }
}

// Whether the number stands in the list.
fn has(list: &[usize], number: usize) -> bool {
    for x in list {
        if *x == number {
            return true;
        }
    }
    false
}

// Whether column j has 1 in all, as a constant, or by what sorts ask.
fn is_once(heads: &[Option<OpId>], sums: &Sums, bounds: &ColumnBounds, j: usize) -> bool {
    if j >= sums.columns.len() {
        return false;
    }
    let k = sums.columns.as_slice()[j];
    if is_headed(heads, sums.operator, k) {
        return true;
    }
    if !has(bounds.at_most_one.as_slice(), j) {
        return false;
    }
    has(bounds.at_least_one.as_slice(), j)
}

// The columns that each choice takes once: those of constants, and those for which sorts ask it.
fn once_columns(
    alloc: Global,
    heads: &[Option<OpId>],
    sums: &Sums,
    bounds: &ColumnBounds,
) -> Result<Vec<usize>, NoMemory> {
    let mut list = Vec::new(alloc);
    for j in 0..sums.columns.len() {
        if !is_once(heads, sums, bounds, j) {
            continue;
        }
        list.push(j)?;
    }
    Ok(list)
}

// Whether the solution is other than zero in the column.
fn has_part(parts: &[u32], j: usize) -> bool {
    if j >= parts.len() {
        return false;
    }
    parts[j] > 0
}

// Whether the solution is zero in all these columns.
fn is_free(columns: &[usize], parts: &[u32]) -> bool {
    for j in columns {
        if has_part(parts, *j) {
            return false;
        }
    }
    true
}

// Whether the solution has twice what other operators are known to head: it stands for one summand, and is never taken.
fn is_dead(heads: &[Option<OpId>], sums: &Sums, parts: &[u32]) -> bool {
    let columns = sums.columns.as_slice();
    let mut left: u32 = 1;
    for j in 0..columns.len() {
        if j >= parts.len() {
            return false;
        }
        if !is_headed(heads, sums.operator, columns[j]) {
            continue;
        }
        if parts[j] > left {
            return true;
        }
        left -= parts[j];
    }
    false
}

// Whether the solution is in each choice: it is zero in all these columns. Without a list no solution is told to be so.
fn is_in_each(open: &Option<Vec<usize>>, parts: &[u32]) -> bool {
    match open {
        None => false,
        Some(columns) => is_free(columns.as_slice(), parts),
    }
}

// Whether few solutions are zero in all these columns, but for those that are in each choice; of a neutral operator each of
// them is taken.
fn are_few_free(
    sig: &Signature,
    sums: &Sums,
    columns: &[usize],
    open: &Option<Vec<usize>>,
    solutions: &[Solution],
) -> bool {
    if is_neutral(sig, sums.operator) {
        return true;
    }
    let mut left = FREE_SOLUTIONS;
    for solution in solutions {
        let parts = solution.parts.as_slice();
        if !is_free(columns, parts) {
            continue;
        }
        if is_in_each(open, parts) {
            continue;
        }
        if left == 0 {
            return false;
        }
        left -= 1;
    }
    true
}

// How many solutions are other than zero in the column.
fn count_in(solutions: &[Solution], j: usize) -> usize {
    let mut count: usize = 0;
    for solution in solutions {
        if has_part(solution.parts.as_slice(), j) {
            count = count.saturating_add(1);
        }
    }
    count
}

// Whether each choice takes column j: once, or since the operator has no identity.
fn is_filled(sig: &Signature, sums: &Sums, once: &[usize], j: usize) -> bool {
    if sig.identity(sums.operator).is_none() {
        return true;
    }
    has(once, j)
}

// The columns that each choice takes, and that one solution alone can fill.
fn lone_columns(
    alloc: Global,
    sig: &Signature,
    sums: &Sums,
    once: &[usize],
    solutions: &[Solution],
) -> Result<Vec<usize>, NoMemory> {
    let mut list = Vec::new(alloc);
    for j in 0..sums.columns.len() {
        if !is_filled(sig, sums, once, j) {
            continue;
        }
        if count_in(solutions, j) != 1 {
            continue;
        }
        list.push(j)?;
    }
    Ok(list)
}

// Whether another sum operator has a column for the class of node k.
fn is_shared(operators: &[Sums], f: OpId, k: usize) -> bool {
    for other in operators {
        if other.operator == f {
            continue;
        }
        if has(other.columns.as_slice(), k) {
            return true;
        }
    }
    false
}

// Whether column j may be a constant's.
fn may_be_constant(headed: HeadedSums, sums: &Sums, j: usize) -> bool {
    if j >= sums.columns.len() {
        return false;
    }
    let k = sums.columns.as_slice()[j];
    if is_headed(headed.heads, sums.operator, k) {
        return true;
    }
    if is_own(headed.heads, sums.operator, k) {
        return false;
    }
    is_shared(headed.reading.sums.as_slice(), sums.operator, k)
}

// These columns, and those that may be those of constants.
fn with_constants(
    others: Vec<usize>,
    headed: HeadedSums,
    sums: &Sums,
) -> Result<Vec<usize>, NoMemory> {
    let mut list = others;
    for j in 0..sums.columns.len() {
        if !may_be_constant(headed, sums, j) {
            continue;
        }
        list.push(j)?;
    }
    Ok(list)
}

// Whether some coefficient of the row is greater than 1, or smaller than -1.
fn has_repeated(row: &Row) -> bool {
    for coefficient in row.coefficients.as_slice() {
        if *coefficient > 1 {
            return true;
        }
        if *coefficient < -1 {
            return true;
        }
    }
    false
}

// Whether no row has a class several times.
fn are_linear(sums: &Sums) -> bool {
    for row in sums.system.rows.as_slice() {
        if has_repeated(row) {
            return false;
        }
    }
    true
}

// Whether the class of column j has at most one summand: it is a constant; or sorts ask it, where no class is added several times.
fn is_single(
    heads: &[Option<OpId>],
    sums: &Sums,
    bounds: &ColumnBounds,
    linear: bool,
    j: usize,
) -> bool {
    if j >= sums.columns.len() {
        return true;
    }
    if is_headed(heads, sums.operator, sums.columns.as_slice()[j]) {
        return true;
    }
    if !linear {
        return false;
    }
    has(bounds.at_most_one.as_slice(), j)
}

// The columns that are so.
fn single_columns(
    alloc: Global,
    heads: &[Option<OpId>],
    sums: &Sums,
    bounds: &ColumnBounds,
) -> Result<Vec<usize>, NoMemory> {
    let linear = are_linear(sums);
    let mut list = Vec::new(alloc);
    for j in 0..sums.columns.len() {
        if !is_single(heads, sums, bounds, linear, j) {
            continue;
        }
        list.push(j)?;
    }
    Ok(list)
}

// Whether the class of each column that is neither single nor among these others has variables of whole sorts alone, and each
// of the others is single: else there are many choices, or summands have their sorts in many ways.
fn are_ways_few(
    sig: &Signature,
    table: &Table,
    state: &State,
    sums: &Sums,
    e: OpId,
    single: &[usize],
    others: &[usize],
) -> bool
    requires { IsClosed sig.now table.now state.now }
{
    let columns = sums.columns.as_slice();
    for j in 0..columns.len() {
        if has(single, j) {
            continue;
        }
        if has(others, j) {
            return false;
        }
        if !is_whole(sig, table, state, sums.operator, e, columns[j]) {
            return false;
        }
    }
    true
}

// Whether it is asked which solutions are in each choice: the operator is neutral, or the ways are few.
fn is_asked(
    sig: &Signature,
    table: &Table,
    state: &State,
    sums: &Sums,
    e: OpId,
    single: &[usize],
    others: &[usize],
) -> bool
    requires { IsClosed sig.now table.now state.now }
{
    if is_neutral(sig, sums.operator) {
        return true;
    }
    are_ways_few(sig, table, state, sums, e, single, others)
}

/// The columns in which a solution that is in each choice is zero: those whose classes do not take the operator's identity, and
/// those that may be constants'. Nothing where there is no identity, or where it is not asked.
pub(crate) fn open_columns(
    alloc: Global,
    sig: &Signature,
    table: &Table,
    state: &State,
    headed: HeadedSums,
    sums: &Sums,
    bounds: &ColumnBounds,
) -> Result<Option<Vec<usize>>, NoMemory>
    requires closed { IsClosed sig.now table.now state.now }
    requires reading { IsReading sig.now table.now (class_of state.now) headed.reading.now }
    requires listed { Contains headed.reading.now.sums sums.now }
{
    match sig.identity(sums.operator) {
        None => Ok(None),
        Some(e) => {
            let others = other_columns(alloc, sig, table, state, headed.reading, sums, e)?;
            let single = single_columns(alloc, headed.heads, sums, bounds)?;
            if !is_asked(
                sig,
                table,
                state,
                sums,
                e,
                single.as_slice(),
                others.as_slice(),
            ) {
                return Ok(None);
            }
            let list = with_constants(others, headed, sums)?;
            Ok(Some(list))
        }
    }
}

// Whether at most 24 solutions are zero in the lone columns, but for those that are in each choice.
fn are_few_open(lone: &[usize], open: &Option<Vec<usize>>, solutions: &[Solution]) -> bool {
    let mut left = MINIMAL_SOLUTIONS;
    for solution in solutions {
        let parts = solution.parts.as_slice();
        if !is_free(lone, parts) {
            continue;
        }
        if is_in_each(open, parts) {
            continue;
        }
        if left == 0 {
            return false;
        }
        left -= 1;
    }
    true
}

// How many bits number so many options; one more than are ever left where these are not enough.
fn bits_of(options: usize) -> usize {
    let mut most: usize = 1;
    for bits in 0..NUMBERED + 1 {
        if options <= most {
            return bits;
        }
        most = most.saturating_mul(2);
    }
    NUMBERED + 1
}

// Whether the solution is marked as passed.
fn is_passed(passed: &[bool], v: usize) -> bool {
    match passed.get(v) {
        None => true,
        Some(is) => *is,
    }
}

// Marks a solution as passed.
fn pass(passed: &mut Vec<bool>, v: usize) {
    if v < passed.len() {
        passed[v] = true;
    }
}

// A mark for each solution: whether it is known to be never taken.
fn dead_marks(
    alloc: Global,
    heads: &[Option<OpId>],
    sums: &Sums,
    solutions: &[Solution],
) -> Result<Vec<bool>, NoMemory> {
    let mut marks = Vec::with_capacity(alloc, solutions.len())?;
    for solution in solutions {
        let dead = is_dead(heads, sums, solution.parts.as_slice());
        marks.push(dead)?;
    }
    Ok(marks)
}

// How many solutions that are not passed are other than zero in the column.
fn count_options(passed: &[bool], solutions: &[Solution], j: usize) -> usize {
    let mut count: usize = 0;
    for v in 0..solutions.len() {
        if is_passed(passed, v) {
            continue;
        }
        if has_part(solutions[v].parts.as_slice(), j) {
            count = count.saturating_add(1);
        }
    }
    count
}

// Passes the solutions that are other than zero in the column.
fn pass_column(passed: &mut Vec<bool>, solutions: &[Solution], j: usize) {
    for v in 0..solutions.len() {
        if has_part(solutions[v].parts.as_slice(), j) {
            pass(passed, v);
        }
    }
}

// The column of these that most solutions are left for, and how many.
fn widest(passed: &[bool], solutions: &[Solution], columns: &[usize]) -> (usize, usize) {
    let mut best = (0, 0);
    for j in columns {
        let options = count_options(passed, solutions, *j);
        if options > best.1 {
            best = (*j, options);
        }
    }
    best
}

// How many of so many bits are left, where each of these columns takes one of the solutions that are left for it, the widest
// first; nothing where they are not enough.
fn bits_left(
    passed: &mut Vec<bool>,
    solutions: &[Solution],
    columns: &[usize],
    most: usize,
) -> Option<usize> {
    let mut left = most;
    for _column in columns {
        let (j, options) = widest(passed.as_slice(), solutions, columns);
        if options == 0 {
            return Some(left);
        }
        let bits = bits_of(options);
        if bits > left {
            return None;
        }
        left -= bits;
        pass_column(passed, solutions, j);
    }
    Some(left)
}

// Whether so many bits are enough for the solutions that are not passed; one that is in each choice needs none.
fn are_bits_enough(
    open: &Option<Vec<usize>>,
    passed: &[bool],
    solutions: &[Solution],
    most: usize,
) -> bool {
    let mut left = most;
    for v in 0..solutions.len() {
        if is_passed(passed, v) {
            continue;
        }
        if is_in_each(open, solutions[v].parts.as_slice()) {
            continue;
        }
        if left == 0 {
            return false;
        }
        left -= 1;
    }
    true
}

// Whether twelve bits number the choices: for each column that is taken once, the widest first, one of the solutions that are left
// for it, and of the others whether they are taken.
fn are_few_in_turn(
    alloc: Global,
    headed: HeadedSums,
    sums: &Sums,
    once: &[usize],
    open: &Option<Vec<usize>>,
    solutions: &[Solution],
) -> Result<bool, NoMemory> {
    let mut passed = dead_marks(alloc, headed.heads, sums, solutions)?;
    match bits_left(&mut passed, solutions, once, NUMBERED) {
        None => Ok(false),
        Some(left) => Ok(are_bits_enough(open, passed.as_slice(), solutions, left)),
    }
}

/// Whether choices among so many minimal solutions are not too many: at most 24 of these are not in each choice; or there
/// are at most 31, and few of them may be taken or not beside those that stand in a column that each choice takes once; or at
/// most 4,096 choices are left where those that have two constants are left out, and each such column takes one of the others.
/// A class that another operator is known to head is a constant, and one that the operator itself heads is none.
pub(crate) fn are_choices_few(
    alloc: Global,
    sig: &Signature,
    headed: HeadedSums,
    sums: &Sums,
    bounds: &ColumnBounds,
    open: &Option<Vec<usize>>,
    solutions: &[Solution],
) -> Result<bool, NoMemory> {
    let once = once_columns(alloc, headed.heads, sums, bounds)?;
    if solutions.len() <= SHARED_OUT {
        if are_few_free(sig, sums, once.as_slice(), open, solutions) {
            return Ok(true);
        }
    }
    let lone = lone_columns(alloc, sig, sums, once.as_slice(), solutions)?;
    if are_few_open(lone.as_slice(), open, solutions) {
        return Ok(true);
    }
    let few = are_few_in_turn(alloc, headed, sums, once.as_slice(), open, solutions)?;
    Ok(few)
}
