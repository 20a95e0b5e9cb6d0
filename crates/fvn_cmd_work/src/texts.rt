//! The module and the problems of `work`.
ghost use Rattle.std.specs.Prelude.{◌≡◌, ◌≤◌};
ghost use Rattle.fvn_cmd_words.specs.declared.limits.TheConstants.{LEAST_WORK, MOST_WORK};
ghost use Rattle.fvn_cmd_work.specs.Made.{work_module, work_problem};

// The text of the module.
#[tactic(auto, unfolding(crate::specs::Made::work_module))]
pub(crate) fn module_text() -> &'static [u8]
    ensures { result.now ≡ work_module }
{
    b"fmod AC is sort S . ops a b : -> S . op g : S -> S . op c : S S -> S [comm] . op _+_ : S S -> S [assoc comm] . vars X Y Z U V : S . endfm"
}

// The sum of two variables against one of so many.
pub(crate) fn problem_text(n: u64) -> &'static [u8]
    requires least { LEAST_WORK ≤ n }
    requires most { n ≤ MOST_WORK }
    ensures { result.now ≡ work_problem n }
{
    if n == 2 {
        return b"_+_(X,Y) =? _+_(V1:S,V2:S)";
    }
    if n == 3 {
        return b"_+_(X,Y) =? _+_(V1:S,V2:S,V3:S)";
    }
    if n == 4 {
        return b"_+_(X,Y) =? _+_(V1:S,V2:S,V3:S,V4:S)";
    }
    if n == 5 {
        return b"_+_(X,Y) =? _+_(V1:S,V2:S,V3:S,V4:S,V5:S)";
    }
    b"_+_(X,Y) =? _+_(V1:S,V2:S,V3:S,V4:S,V5:S,V6:S)"
}
