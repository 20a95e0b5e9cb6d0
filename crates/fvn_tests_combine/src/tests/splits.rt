//! Parts of problems, and all their splits.
ghost use Rattle.fvn_terms.specs.Unifiers.{Problem};
ghost use Rattle.fvn_flat.specs.Problems.{IsProblem};
ghost use Rattle.fvn_flat.specs.Solving.{problem_of};
ghost use Rattle.fvn_purify.specs.Parts.{AreClassesOf};

use super::parts::{push_classes, text_of};
use super::unifiers::OPERATORS;
use fvn_flat::Pairs;
use fvn_purify::{Classes, purify, splits};
use fvn_signature::Signature;
use fvn_terms::NoMemory;
use fvn_tests_samples::{are_sides, problem_of as read_problem, signature_of};
use std::alloc::Global;
use std::process::Abort;

// A problem; the nodes of its parts, of those with a head and of its pairs, and its operators with axioms; all
// its splits.
//
// A term is written with each operator after its arguments, sums nested to the right. A split has the number of
// each part's class, the head of each part that has one, and a cross or a dash for each pair.
// `oracle/splits.py` prints these lines from the problems, by the definitions alone.
const SPLITS: &str = "A0 = A0 => 0 | 0 |  |  => 0:F:
A0 = A1 => 01 | 01 |  |  => 00:FF:
f = f =>  |  |  |  => ::
f = g =>  |  |  |  =>
A0 h = f h =>  |  |  |  => ::
A0 h = f =>  |  |  |  =>
A0 h h = A1 h =>  |  |  |  => ::
A0 = A0 h =>  |  |  |  => ::
A0 = A1 h; A1 = A0 h =>  |  |  |  => ::
A0 h = A1; A1 h = A2 h =>  |  |  |  => ::
A0 A1 i = A1 f i =>  |  |  |  => ::
A0 A1 i = f f i; A0 h = A2 =>  |  |  |  => ::
A0 A1 i = A2 h =>  |  |  |  =>
A0 f i h = A1 h; A1 = A2 => 46 | 46 |  |  => 00:FF:
A0 A1 j = A2 A3 j =>  |  | 25 | j => ::- ::x
A0 A1 j = f g j => 34 |  | 25 | j => 01::- 01::x
A0 A1 j = A0 f j => 3 |  | 24 | j => 0::-
A1 A1 j = A0 f j => 3 |  | 14 | j => 0::-
f f j = g g j => 02 |  | 13 | j =>
A0 A1 j h = A1 f j h => 245 |  | 25 | j => 010::- 010::x
A0 h A1 h j = f h g h j => 1368 |  | 49 | j => 0101::- 0110::x
A0 A1 j h f i = A1 A2 j h A2 i => 276 | 6 | 27 | j => 002:F:- 002:F:x
A0 f k = A1 g k => 14 |  |  | k => 01::
A0 A1 k = f => 23 |  |  | k =>
A0 A1 l = f => 23 | 2 |  | l => 00:F:
A0 A1 l = A0 A1 k => 2301 | 201 |  | lk => 0000:SkSkSk: 0003:SkSkF: 0003:SkSkIg: 0003:SkSkSk: 0003:SkSkSl: 0020:SkFSk: 0020:SkIgSk: 0020:SkSkSk: 0020:SkSlSk: 0022:SkFF: 0022:SkIgIg: 0022:SkSkSk: 0022:SkSlSl: 0023:SkFF: 0023:SkFIg: 0023:SkFSk: 0023:SkFSl: 0023:SkIgF: 0023:SkIgSk: 0023:SkIgSl: 0023:SkSkF: 0023:SkSkIg: 0023:SkSkSk: 0023:SkSkSl: 0023:SkSlF: 0023:SkSlIg: 0023:SkSlSk: 0023:SkSlSl:
A0 f l = A0 f l; A1 h = f h => 1 |  |  | l => 0::
A0 A1 j = A1 f j; A0 = A2 => 305 | 05 | 24 | j => 000:FF:- 000:FF:x
A1 A0 h l = A0 => 21 | 1 |  | l => 00:F: 01:F: 01:Ig: 01:Sl:
A0 A1 l h = A2 => 2 | 2 |  | l => 0:F: 0:Ig: 0:Sl:
A0 f l h = A1 h; A1 = A2 => 1246 | 246 |  | l => 0000:FFF: 0111:FFF: 0111:IgIgIg: 0111:SlSlSl:
A0 A1 j h = A2 h => 2 |  |  | j => 0::
A0 A1 k h = A1 A2 k h => 25 |  |  | k => 00::
f A0 h j = f A1 h j => 025 |  | 36 | j => 011::-
A0 A1 l = A0 A1 j => 2301 | 201 |  | lj => 0000:PjPjPj: 0003:PjPjF: 0003:PjPjIg: 0003:PjPjPj: 0003:PjPjSl: 0020:PjFPj: 0020:PjIgPj: 0020:PjPjPj: 0020:PjSlPj: 0022:PjFF: 0022:PjIgIg: 0022:PjPjPj: 0022:PjSlSl: 0023:PjFF: 0023:PjFIg: 0023:PjFPj: 0023:PjFSl: 0023:PjIgF: 0023:PjIgPj: 0023:PjIgSl: 0023:PjPjF: 0023:PjPjIg: 0023:PjPjPj: 0023:PjPjSl: 0023:PjSlF: 0023:PjSlIg: 0023:PjSlPj: 0023:PjSlSl:
A0 A1 l = A2 h => 24 | 2 |  | l => 00:F:
A1 A0 h k = A2 f j => 2356 |  |  | kj =>
A0 f l = A1 f j => 124 | 2 |  | lj => 011:Pj:
f A0 h l = A1 h => 0235 | 3 |  | l => 0111:F: 0122:F:
A0 h = A1 h; A0 A2 k = f => 560 | 0 |  | k =>
A0 A0 k = A1 A2 k =>  |  |  | k => ::
A0 A1 h k = f A2 h k => 246 |  |  | k => 010:: 012::
A0 = A0 f k => 1 |  |  | k => 0::
A0 = A0 A1 l =>  |  |  | l => ::
A0 = A1 A2 l =>  |  |  | l => ::
A0 h A0 h j = f h f h j => 14 |  | 25 | j => 00::-";

// Deep terms: two variables under as many operators are one; two constants are not. A star stands for the operator h
// 198 times; the sign of a node is that of its number modulo 40.
const DEEP: &str = "A0* = A1*; A0 = A1 => 0W | 0W |  |  => 00:FF:
f* = g*; A0 = A1 => VW | VW |  |  =>";

/// The splits that are given, in the order of their texts.
fn push_splits(
    alloc: Global,
    sig: &Signature,
    classes: &Classes,
    out: &mut String,
) -> Result<(), NoMemory>
    requires classes { (problem : Problem) ×
        IsProblem sig.now problem × AreClassesOf sig.now problem classes.now }
{
    let mut texts = Vec::new(alloc);
    let mut cursor = splits(alloc, sig, classes)?;
    'given: loop {
        match cursor.advance()? {
            None => {
                texts.sort()?;
                out.push_str(texts.as_slice().join(alloc, "")?.as_str())?;
                return Ok(());
            }
            Some(split) => texts.push(text_of(alloc, &split)?)?,
        }
    }
}

/// The parts of a problem, and its splits.
fn push_parts(
    alloc: Global,
    sig: &Signature,
    problem: &Pairs,
    out: &mut String,
) -> Result<(), NoMemory>
    requires kinds { IsProblem sig.now (problem_of problem.now) }
{
    let classes = purify(alloc, sig, problem)?;
    push_classes(out, &classes)?;
    out.push_str(" =>")?;
    push_splits(alloc, sig, &classes, out)
}

/// The same of the pairs that are written, with the operator h 198 times in place of each star.
fn shown_splits(alloc: Global, sig: &Signature, text: &str) -> Result<String, NoMemory> {
    let mut out = String::new(alloc);
    let often = " h".repeat(alloc, 198)?;
    let whole = text.replace(alloc, "*", often.as_str())?;
    let Some(problem) = read_problem(alloc, sig, whole.as_str())? else {
        return Ok(out);
    };
    if !are_sides(alloc, sig, &problem)? {
        return Ok(out);
    }
    push_parts(alloc, sig, &problem, &mut out)?;
    Ok(out)
}

/// Each row has these parts and splits.
fn assert_splits(rt: &impl Abort, alloc: Global, lines: &str) -> Result<(), NoMemory> {
    let Some(sig) = signature_of(alloc, OPERATORS)? else {
        return Err(NoMemory);
    };
    for line in lines.lines() {
        let (text, want) = line.split_once(" => ").unwrap_or((line, "no row"));
        let found = shown_splits(alloc, &sig, text)?;
        assert_eq!(rt; found.as_str(), want, "at {text}");
    }
    Ok(())
}

#[test]
fn all_splits_are_given(rt: HostRuntime) -> Result<(), NoMemory> {
    assert_splits(&rt, rt.alloc(), SPLITS)
}

/// A term is not under itself, and no cycle is looked for.
#[test]
fn deep_terms_have_one_split_or_none(rt: HostRuntime) -> Result<(), NoMemory> {
    assert_splits(&rt, rt.alloc(), DEEP)
}
