// What is promised, whole: the three demands as document 01's mission words them, what document 02 promises, and the theorems below. The functions do nothing;
// their contracts ask for the promises, so that this crate is not proved where one of them is missing.
#![tactic(auto)]

ghost use Rattle.promises.specs.Promises.{Promises};
ghost use Rattle.promises.specs.Foundations.{foundations, Held};
ghost use Rattle.promises.specs.Examples.{FromDemands};

pub fn promised()
    ensures { Promises }
{}

pub fn founded()
    ensures { Held foundations }
{}

// Each field of a demand gives an example, so that none of them is weakened unseen.
pub fn exemplified()
    ensures { FromDemands }
{}
