//! Which calls of a device in memory fail: the fault injection of every fake.
ghost use Rattle.std.specs.Prelude.{◌≡◌, ◌↔◌, IsTrue};
ghost use Rattle.vol_numbers.specs.Plan.{Plan, no_plan, IsPlanned, advanced};

use crate::CallList;
use std::alloc::Global;
use std::marker::Model;

/// Calls are numbered from 0. Those in a list fail, and all from a number on.
#[derive(Drop)]
pub struct CallPlan {
    next: u64,
    fails: CallList,
    from: Option<u64>,
}

impl Model for CallPlan {
    ghost use Rattle.vol_numbers.specs.Plan.{Plan};

    ghost Value = { Plan };

    ghost view = { λ p. record { next = p.next; fails = p.fails; from = p.from } };
}

impl CallPlan {
    /// The next call has the number 0.
    pub fn new(fails: CallList, from: Option<u64>) -> CallPlan
        ensures { result ≡ record { next = 0; fails = fails; from = from } }
    {
        CallPlan {
            next: 0,
            fails,
            from,
        }
    }

    /// A plan by which no call fails.
    pub fn none(alloc: Global) -> CallPlan
        ensures { result ≡ no_plan }
    {
        CallPlan::new(CallList::new(alloc), None)
    }

    /// Whether this call fails. The call after it has the next number.
    pub fn fails_now(&mut self) -> bool
        ensures planned { IsTrue result ↔ IsPlanned self.old }
        ensures next { self.new ≡ advanced self.old }
    {
        let call = self.next;
        self.next = call.saturating_add(1);
        self.fails.as_slice().contains(&call) || self.from.is_some_and(|first| first <= call)
    }
}
