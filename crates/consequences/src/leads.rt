// Leads and the end: 'at most one alive (none, with play_to_last), or two alive with lengths apart by the lead or more'.
ghost use Rattle.std.specs.Prelude.{◌≤◌};
ghost use Rattle.consequences.specs.Leads.{Living, NextLiving, TwoLive, Longer, Leads, Leader, Ends};

use crate::after::After;
use crate::settled::Snakes;

// Whether a is longer than b by k or more; what lives has its head beside what it keeps.
fn is_longer(a: After, b: After, k: u64) -> bool
    ensures { Longer a b k result }
{
    b.keep < a.keep && k <= (a.keep - b.keep) as u64
}

impl Snakes {
    // The first snake from `from` on that lives.
    fn find_living(&self, from: usize) -> Option<usize>
        requires { from ≤ self.now.count }
        ensures { NextLiving self.now.all self.now.count from result }
    {
        for i in from..self.count {
            if self.all[i].lives {
                return Some(i);
            }
        }
        None
    }

    // Of two that live, the one that leads.
    fn leader_of(&self, i: usize, j: usize, k: u64) -> Option<usize>
        requires { TwoLive self.now.all self.now.count i j }
        ensures { Leads self.now.all self.now.count k result }
    {
        let a = self.all[i];
        let b = self.all[j];
        if is_longer(a, b, k) {
            return Some(i);
        }
        if is_longer(b, a, k) {
            return Some(j);
        }
        None
    }

    // The snake that leads by the lead or more. Without a lead nobody is compared.
    pub fn find_leader(&self, alive: usize, lead: Option<u64>) -> Option<usize>
        requires { Living self.now.all self.now.count alive }
        ensures { Leader self.now.all self.now.count alive lead result }
    {
        let k = lead?;
        if alive != 2 {
            return None;
        }
        let i = self.find_living(0)?;
        let j = self.find_living(i + 1)?;
        self.leader_of(i, j, k)
    }
}

pub fn is_terminal(alive: usize, last: bool, leader: Option<usize>) -> bool
    ensures { Ends alive last leader result }
{
    let most = if last { 0 } else { 1 };
    (alive <= most) | leader.is_some()
}
