ghost use Rattle.finder.specs.Ones.{Ones};

use steps::step::Step;

// What is told of a take is one thing only.
#[tactic(auto, using(crate::proofs::One::ones))]
pub fn one_answer<S: Step>()
    ensures { Ones S.Step.sound }
{}
