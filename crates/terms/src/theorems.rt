// Each theorem about the definitions stands on the contract of a function, so that the check asks for its proof.
ghost use Rattle.terms.specs.Closest.{AlwaysOneBest, AlwaysOneClosest, BestBySteps};
ghost use Rattle.terms.specs.Codes.{EveryStep};
ghost use Rattle.terms.specs.Examples.{ExamplesHold};
ghost use Rattle.terms.specs.Figures.{OverAllFigures};
ghost use Rattle.terms.specs.Marks.{RowFindsClosest};
ghost use Rattle.terms.specs.Near.{AlwaysNear};
ghost use Rattle.terms.specs.Reading.{EveryReader};

#[tactic(auto, using(crate::proofs::Checked::examples_hold_lem))]
pub fn examples_hold()
    ensures { ExamplesHold }
{}

#[tactic(auto, using(crate::proofs::Counts::over_all_figures))]
pub fn gap_is_over_all_figures()
    ensures { OverAllFigures }
{}

pub fn row_finds_closest()
    ensures { RowFindsClosest }
{}

pub fn every_step_follows_the_rule()
    ensures { EveryStep }
{}

#[tactic(auto, using(crate::proofs::Leasts::always_one_closest))]
pub fn one_closest()
    ensures { AlwaysOneClosest }
{}

#[tactic(auto, using(crate::proofs::Bests::best_by_steps_lem))]
pub fn best_by_steps()
    ensures { BestBySteps }
{}

pub fn every_reader()
    ensures { EveryReader }
{}

#[tactic(auto, using(crate::proofs::Near::always_near))]
pub fn neighbours_are_near()
    ensures { AlwaysNear }
{}

#[tactic(auto, using(crate::proofs::OneBest::always_one_best))]
pub fn one_best()
    ensures { AlwaysOneBest }
{}
