//! The flows into the branches of a box are typed as two numbers, the left one first.
ghost use Rattle.plan_text.specs.Laws.Notations.{box_same, box_few};
ghost use Rattle.plan_text.specs.declared.form.At.TheVariants.{Two};

use crate::form::At;
use crate::notation::Notation;
use ordinate::branches::Branches;

impl Notation for Branches {
    ghost at = { λ p. Two p.left p.right };

    fn to_at(self) -> At {
        At::Two(self.left, self.right)
    }

    fn from_at(numbers: At) -> Option<Branches> {
        match numbers {
            At::One(_) => None,
            At::Two(left, right) => Some(Branches { left, right }),
        }
    }

    ghost same = { box_same };

    ghost few = { box_few };
}
