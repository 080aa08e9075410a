// Who was hit where: the refusals of a step but 29, then the moves judged on one world, and for each death by a body whom the head hit and at which position.
#![tactic(auto)]

ghost use Rattle.std.specs.Prelude.{◌≡◌, length};
ghost use Rattle.rules.specs.Image.{snakes_in, side_in, state_of};
ghost use Rattle.rules.specs.Facts.{Sound};
ghost use Rattle.rules.specs.Step.{cause_of};
ghost use Rattle.rules.specs.Struck.{hit_of, hits_in};
ghost use Rattle.rules.specs.Promises.{Strikes};
ghost use Rattle.judge.specs.World.{world};
ghost use Rattle.judge.specs.Judging.{Judging};
ghost use Rattle.struck.specs.Own.{OwnHit};

use judge::{Move, find_other, find_rest, hit_at, judge};
use rules::{Cause, Hit, Refusal, Setting};

// Whether snake i hit itself, and where: the first place of its head's cell in the rest of its body.
fn own_hit(image: &[u16], all: [Move; 8], n: usize, i: usize) -> Option<Hit>
    requires { Judging image.now all n i }
    ensures { OwnHit image.now all i result }
{
    let me = all[i];
    let k = find_rest(image, i, me, me.cell)?;
    Some(hit_at(i, k))
}

// Whom snake i hit: itself, the lowest-numbered other, or nobody, by its cause.
fn hit_of(image: &[u16], all: [Move; 8], n: usize, i: usize, cause: Option<Cause>) -> Option<Hit>
    requires judging { Judging image.now all n i }
    requires cause_value { cause ≡ cause_of (side_in image.now) n (world image.now all) i }
    ensures { result ≡ hit_of (side_in image.now) n (world image.now all) i }
{
    match cause? {
        Cause::SelfBody => own_hit(image, all, n, i),
        Cause::OppBody => find_other(image, all, n, i, all[i].cell),
        Cause::Wall | Cause::HeadOn => None,
    }
}

// Whom each snake hit, and nobody from n on.
fn find_hits(image: &[u16], actions: &[u64]) -> [Option<Hit>; 8]
    requires sound { Sound image.now }
    requires actions_len { length actions.now ≡ snakes_in image.now }
    ensures { result ≡ hits_in (state_of image.now) actions.now }
{
    let judged = judge(image, actions);
    let n = actions.len();
    let mut hits = [None; 8];
    for i in 0..n {
        hits[i] = hit_of(image, judged.moves, n, i, judged.causes[i]);
    }
    hits
}

pub fn struck(setting: Setting, image: &[u16], actions: &[u64]) -> Result<[Option<Hit>; 8], Refusal>
    ensures { Strikes setting image.now actions.now result }
{
    step::asked(setting, image, actions)?;
    Ok(find_hits(image, actions))
}
