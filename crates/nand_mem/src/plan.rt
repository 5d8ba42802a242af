// Plans of a cut and of a fault, and what they make of the next operation.
ghost use Rattle.std.specs.Prelude.{◌≡◌};
ghost use Rattle.nand_mem.specs.Plans.{fate_of, cut_after, fail_after};

use kv_nand::{OpKind, Outcome};

/// The n-th program or erase from now is cut.
#[derive(Clone, Copy, Debug, PartialEq, Eq)]
pub struct CutPlan {
    pub n: u32,
    pub outcome: Outcome,
}

/// The n-th operation of a kind from now fails.
#[derive(Clone, Copy, Debug, PartialEq, Eq)]
pub struct FailPlan {
    pub kind: OpKind,
    pub n: u32,
}

/// What becomes of an operation.
#[derive(Clone, Copy, Debug, PartialEq, Eq)]
pub enum Fate {
    Done,
    Cut(Outcome),
    Fails,
}

/// The fate of the next program or erase.
pub fn next_fate(kind: OpKind, cut: Option<CutPlan>, fail: Option<FailPlan>) -> Fate
    ensures { result ≡ fate_of kind cut fail }
{
    if let Some(plan) = cut {
        if plan.n <= 1 {
            return Fate::Cut(plan.outcome);
        }
    }
    if let Some(plan) = fail {
        if plan.kind == kind && plan.n <= 1 {
            return Fate::Fails;
        }
    }
    Fate::Done
}

/// The plan of a cut after one more program or erase.
pub fn cut_passed(cut: Option<CutPlan>) -> Option<CutPlan>
    ensures { result ≡ cut_after cut }
{
    match cut {
        None => None,
        Some(plan) => {
            if plan.n <= 1 {
                None
            } else {
                Some(CutPlan {
                    n: plan.n - 1,
                    outcome: plan.outcome,
                })
            }
        }
    }
}

/// The plan of a fault after one more operation of this kind.
pub fn fail_passed(kind: OpKind, fail: Option<FailPlan>) -> Option<FailPlan>
    ensures { result ≡ fail_after kind fail }
{
    match fail {
        None => None,
        Some(plan) => {
            if plan.kind != kind {
                Some(plan)
            } else if plan.n <= 1 {
                None
            } else {
                Some(FailPlan {
                    kind: plan.kind,
                    n: plan.n - 1,
                })
            }
        }
    }
}
