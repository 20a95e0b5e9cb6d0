//! Words that are no command.
use super::table_told;
use fvn_terms::NoMemory;

/// Words, none among them, and numbers of steps that are none.
const WORDS: &str = "\
fmod FREE is
  sort S .
  ops a b : -> S .
  op p : S S -> S .
  vars X Y : S .
endfm
 <=
 ==> 2 | usage: fvn check|unify|variants|vunify|verify|work|terminates
unify ==> 2 | usage: fvn check|unify|variants|vunify|verify|work|terminates
unify | a | b ==> 2 | usage: fvn check|unify|variants|vunify|verify|work|terminates
unify | -x ==> 2 | usage: fvn check|unify|variants|vunify|verify|work|terminates
solve | X =? X ==> 2 | usage: fvn check|unify|variants|vunify|verify|work|terminates
check | X =? X ==> 2 | usage: fvn check|unify|variants|vunify|verify|work|terminates
terminates ==> 2 | usage: fvn check|unify|variants|vunify|verify|work|terminates
terminates | f : 1 | a : 1 ==> 2 | usage: fvn check|unify|variants|vunify|verify|work|terminates
terminates | -x ==> 2 | usage: fvn check|unify|variants|vunify|verify|work|terminates
work ==> 2 | usage: fvn check|unify|variants|vunify|verify|work|terminates
work | 7 ==> 2 | usage: fvn check|unify|variants|vunify|verify|work|terminates
-check ==> 2 | usage: fvn check|unify|variants|vunify|verify|work|terminates
checks ==> 2 | usage: fvn check|unify|variants|vunify|verify|work|terminates

fmod LOOP is sort S . op a : -> S . op f : S -> S . var X : S . eq f(X) = f(X) [variant] . endfm <=
verify | a =? a | {} | --steps | 0 ==> 2 | usage: fvn check|unify|variants|vunify|verify|work|terminates
verify | a =? a | {} | --steps | 1000001 ==> 2 | usage: fvn check|unify|variants|vunify|verify|work|terminates
verify | a =? a | {} | --steps | x ==> 2 | usage: fvn check|unify|variants|vunify|verify|work|terminates
verify | a =? a | {} | --steps | -1 ==> 2 | usage: fvn check|unify|variants|vunify|verify|work|terminates
verify | a =? a | {} | --steps |  ==> 2 | usage: fvn check|unify|variants|vunify|verify|work|terminates
verify | a =? a | {} | --steps | 0000000005 ==> 2 | usage: fvn check|unify|variants|vunify|verify|work|terminates
verify | a =? a | {} | --steps | 99999999999999999999 ==> 2 | usage: fvn check|unify|variants|vunify|verify|work|terminates
verify | a =? a | {} | --steps ==> 2 | usage: fvn check|unify|variants|vunify|verify|work|terminates
verify | a =? a | {} | --step | 5 ==> 2 | usage: fvn check|unify|variants|vunify|verify|work|terminates
verify | a =? a | {} | 5 ==> 2 | usage: fvn check|unify|variants|vunify|verify|work|terminates
verify | a =? a | {} | --steps | 5 | 5 ==> 2 | usage: fvn check|unify|variants|vunify|verify|work|terminates
verify | a =? a | {} | --steps | 5 | --steps=5 ==> 2 | usage: fvn check|unify|variants|vunify|verify|work|terminates
verify | a =? a | {} | --levels | 5 ==> 2 | usage: fvn check|unify|variants|vunify|verify|work|terminates
verify | a =? a | {} | --steps= ==> 2 | usage: fvn check|unify|variants|vunify|verify|work|terminates
verify | a =? a | -- | {} | --steps=5 ==> 2 | usage: fvn check|unify|variants|vunify|verify|work|terminates
verify | a =? a | --steps | 5 ==> 2 | usage: fvn check|unify|variants|vunify|verify|work|terminates
verify | a =? a ==> 2 | usage: fvn check|unify|variants|vunify|verify|work|terminates
verify | -x | {} ==> 2 | usage: fvn check|unify|variants|vunify|verify|work|terminates
verify | a =? a | -x ==> 2 | usage: fvn check|unify|variants|vunify|verify|work|terminates";

#[test]
fn other_words_are_told_the_usage(rt: HostRuntime) -> Result<(), NoMemory> {
    table_told(&rt, rt.alloc(), WORDS)
}
