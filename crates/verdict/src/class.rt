// The figures of the flow sensor's accuracy classes (OIML R 75-1, 9.2).
ghost use Rattle.std.specs.Prelude.{◌≡◌};
ghost use Rattle.verdict.specs.Limit.{figures_of};
ghost use Rattle.verdict.specs.Inside.Fit.{FiguresFit};
ghost use Rattle.verdict.specs.Inside.Kinds.{class_number};

use crate::kinds::Class;

// The cap of every class: 5 percent, in hundredths of a percent. For class 1 OIML R 75-1 presumes 3.5 percent, and leaves it open.
const FIXED_CAP: u64 = 500;

// The three numbers of a flow sensor's limit, constant + factor × qp/q and at most cap, in hundredths of a percent.
#[derive(Clone, Copy)]
pub(crate) struct Figures {
    pub(crate) constant: u64,
    pub(crate) factor: u64,
    pub(crate) cap: u64,
}

impl Class {
    // The figures of the class. None passes 100 percent, so that the numbers of a limit fit 64 bits.
    #[tactic(auto, unfolding(crate::specs::Limit::figures_of))]
    pub(crate) fn figures(self) -> Figures
        ensures as_stated { result ≡ figures_of (class_number self) }
        ensures fit { FiguresFit result }
    {
        match self {
            Class::One => Figures {
                constant: 100,
                factor: 1,
                cap: FIXED_CAP,
            },
            Class::Two => Figures {
                constant: 200,
                factor: 2,
                cap: FIXED_CAP,
            },
            Class::Three => Figures {
                constant: 300,
                factor: 5,
                cap: FIXED_CAP,
            },
        }
    }
}
