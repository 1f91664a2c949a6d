// The lent list of matches. What decides is by value, in crate cd_ranking; here its matches are put into the list.
#![tactic(auto)]

ghost use Rattle.std.specs.Prelude.{◌≡◌, ◌<◌, ◌≤◌, length, IfOk};
ghost use Rattle.base.specs.Limits.{MOST_LANGUAGES};
ghost use Rattle.base.specs.Put as lent;
ghost use Rattle.cd_list.specs.Inner.Lent.{entry_of, matches_of, matches_in, answer_of};

use base::Refusal;
use base::refusals::ACCEPTED;
use cd_ranking::{CoherenceMatch, Ranking};

// What a call that fills a lent list answers: the number and place of a refusal, or ACCEPTED, 0 and how many matches there are.
#[repr(C)]
#[derive(Clone, Copy)]
pub struct HostRanking {
    pub number: u32,
    pub place: u32,
    pub count: u32,
}

fn entry_at(r: Ranking, i: usize) -> CoherenceMatch
    requires { i < MOST_LANGUAGES }
    ensures { result ≡ entry_of r i }
{
    CoherenceMatch {
        language: r.languages[i],
        score: r.scores[i],
    }
}

// Puts the matches of a ranking into the first entries of a lent list; the rest stays.
fn put_matches(out: &mut [CoherenceMatch], r: Ranking)
    requires { (r.count ≤ MOST_LANGUAGES) × (r.count ≤ length out.old) }
    ensures { out.new ≡ lent.put out.old 0 (matches_of r) }
{
    for i in 0..r.count as usize {
        out[i] = entry_at(r, i);
    }
}

fn answer_of(r: Result<Ranking, Refusal>) -> HostRanking
    ensures { result ≡ answer_of r }
{
    match r {
        Ok(ranking) => HostRanking {
            number: ACCEPTED,
            place: 0,
            count: ranking.count,
        },
        Err(why) => HostRanking {
            number: why.cause.number(),
            place: why.place,
            count: 0,
        },
    }
}

// Puts the matches of a ranking that is not refused into a lent list, and answers. A refusal leaves the list as it was.
pub fn put(out: &mut [CoherenceMatch], r: Result<Ranking, Refusal>) -> HostRanking
    requires { IfOk r (λ q. (q.count ≤ MOST_LANGUAGES) × (q.count ≤ length out.old)) }
    ensures { (result ≡ answer_of r) × (out.new ≡ lent.put out.old 0 (matches_in r)) }
{
    if let Ok(ranking) = r {
        put_matches(out, ranking);
    }
    answer_of(r)
}
