//! Paths to the forms within a form.
ghost use Rattle.std.specs.Prelude.{◌≡◌, ◌++◌, ◌∷◌, [], map, MatchOption, IfOk};
ghost use Rattle.fvn_places.specs.Paths.{LeadsTo, LeadsNowhere, paths, paths_after};

use fvn_base::Seq;
use fvn_flat::Flat;
use fvn_terms::NoMemory;
use std::alloc::Global;

/// The form to which the path leads; nothing where it leads to none.
pub fn form_at<'a>(t: &'a Flat, path: &[usize]) -> Option<&'a Flat>
    ensures { MatchOption result (LeadsNowhere path.now t.now) (λ at.
        LeadsTo path.now t.now at.now) }
{
    let mut at = t;
    for i in path {
        let ts = at.args();
        if *i >= ts.len() {
            return None;
        }
        at = &ts[*i];
    }
    Some(at)
}

// The path, and then this argument.
fn and_then(alloc: Global, path: &[usize], argument: usize) -> Result<Vec<usize>, NoMemory>
    ensures { IfOk result (λ longer. longer.items ≡ path.now ++ argument ∷ []) }
{
    let mut longer = Seq::from_slice(alloc, path)?.into_vec();
    longer.push(argument)?;
    Ok(longer)
}

// The list with the paths that go on from this one at a form.
fn with_paths(
    alloc: Global,
    t: &Flat,
    path: &[usize],
    list: Vec<Seq<usize>>,
) -> Result<Vec<Seq<usize>>, NoMemory>
    ensures { IfOk result (λ all. all.items ≡ list.items ++ paths_after path.now t.now) }
{
    match t.head() {
        None => Ok(list),
        Some(_) => {
            let mut all = list;
            let own = Seq::from_slice(alloc, path)?;
            all.push(own)?;
            let ts = t.args();
            let count = ts.len();
            for i in 0..count {
                let longer = and_then(alloc, path, i)?;
                all = with_paths(alloc, &ts[i], longer.as_slice(), all)?;
            }
            Ok(all)
        }
    }
}

/// The paths to all forms within a form that are no variables.
pub fn paths(alloc: Global, t: &Flat) -> Result<Vec<Seq<usize>>, NoMemory>
    ensures { IfOk result (λ all. all.items ≡ paths t.now) }
{
    let all = with_paths(alloc, t, &[], Vec::new(alloc))?;
    Ok(all)
}
