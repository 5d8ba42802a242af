// When a device in memory is to fail.
ghost use Rattle.std.specs.Prelude.{◌≡◌};
ghost use Rattle.kv_device.specs.Plans.{cut_after, fault_after, fault_strike, passed, strike_by, strike_of};

/// A planned cut of power.
#[derive(Clone, Copy, Debug)]
pub struct CutPlan {
    /// How many calls of `end` that count are left until it comes, the cut one included.
    pub left: u32,
    /// How the cut leaves that call: with its changes kept where it is 3, else lost.
    pub how: u8,
}

/// A planned fault.
#[derive(Clone, Copy, Debug)]
pub struct FaultPlan {
    /// The kind of the operation that is to fail. Only one of kind 1 comes.
    pub kind: u8,
    /// How many calls of `end` that count are left until one fails, that one included.
    pub left: u32,
}

/// A planned failure that comes.
#[derive(Clone, Copy, Debug)]
pub enum Strike {
    Cut { keeps: bool },
    Fault,
}

/// What is planned. A call of `end` counts where it has changes and isn't refused.
#[derive(Clone, Copy, Debug)]
pub struct Plans {
    pub cut: Option<CutPlan>,
    pub fault: Option<FaultPlan>,
}

impl Plans {
    /// Counts one call of `end`, and tells what strikes it.
    pub(crate) fn pass(&mut self) -> Option<Strike>
        ensures strike { result ≡ strike_of self.old }
        ensures passed { self.new ≡ passed self.old }
    {
        let strike = strike_by(self.cut, self.fault);
        self.cut = cut_after(self.cut);
        self.fault = fault_after(self.fault);
        strike
    }
}

// A cut comes before a fault.
fn strike_by(cut: Option<CutPlan>, fault: Option<FaultPlan>) -> Option<Strike>
    ensures { result ≡ strike_by cut fault }
{
    match cut {
        Some(plan) => {
            if plan.left <= 1 {
                Some(Strike::Cut {
                    keeps: plan.how == 3,
                })
            } else {
                fault_strike(fault)
            }
        }
        None => fault_strike(fault),
    }
}

fn fault_strike(fault: Option<FaultPlan>) -> Option<Strike>
    ensures { result ≡ fault_strike fault }
{
    match fault {
        Some(plan) => {
            if plan.kind == 1 && plan.left <= 1 {
                Some(Strike::Fault)
            } else {
                None
            }
        }
        None => None,
    }
}

fn cut_after(plan: Option<CutPlan>) -> Option<CutPlan>
    ensures { result ≡ cut_after plan }
{
    match plan {
        Some(plan) => {
            if plan.left > 1 {
                Some(CutPlan {
                    left: plan.left - 1,
                    how: plan.how,
                })
            } else {
                None
            }
        }
        None => None,
    }
}

fn fault_after(plan: Option<FaultPlan>) -> Option<FaultPlan>
    ensures { result ≡ fault_after plan }
{
    match plan {
        Some(plan) => {
            if plan.kind != 1 {
                Some(plan)
            } else if plan.left > 1 {
                Some(FaultPlan {
                    kind: plan.kind,
                    left: plan.left - 1,
                })
            } else {
                None
            }
        }
        None => None,
    }
}
