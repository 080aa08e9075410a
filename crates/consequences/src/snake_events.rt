// The event of each snake.
ghost use Rattle.std.specs.Prelude.{◌≡◌, ◌<◌};
ghost use Rattle.lists.specs.Below.{filled};
ghost use Rattle.rules.specs.Events.{blank};
ghost use Rattle.consequences.specs.After.{event_at};

use crate::after::Tally;
use crate::killers::is_killer;
use crate::settled::Snakes;
use events::{is_death, no_events};
use rules::{DeathCause, Event};

impl Snakes {
    // Snake i's, settled so.
    fn event_of(
        &self,
        to: [Option<usize>; 8],
        counts: Tally,
        leader: Option<usize>,
        i: usize,
    ) -> Event
        requires { i < 8 }
        ensures { result ≡ event_at self.now.all to self.now.count counts.alive counts.deaths leader i }
    {
        let a = self.all[i];
        let Tally { alive, deaths, .. } = counts;
        let died = is_death(a.cause);
        let leads = leader == Some(i);
        // `&` and `|`: flags that are all known, with no branch; `&&` would be no plainer.
        Event {
            ate_food: a.ate,
            died,
            death_cause: DeathCause::new(a.cause),
            killed_opponent: is_killer(to, self.count, i),
            won: a.lives & (alive == 1) & (0 < deaths) | leads,
            lost: died & (0 < alive) | a.lives & !leads & leader.is_some(),
            drew: died & (alive == 0) & (1 < deaths),
            survived_to_max_ticks: false,
        }
    }

    pub fn all_events(
        &self,
        to: [Option<usize>; 8],
        counts: Tally,
        leader: Option<usize>,
    ) -> [Event; 8]
        ensures { result ≡ filled (event_at self.now.all to self.now.count counts.alive counts.deaths leader) self.now.count 8 blank }
    {
        let mut told = no_events();
        for i in 0..self.count {
            told[i] = self.event_of(to, counts, leader, i);
        }
        told
    }
}
