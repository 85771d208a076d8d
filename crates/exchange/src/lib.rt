// An exchange between the two halves, stepped turn by turn (M-100): the reader's turn hands over to the tag's turn and
// back.
#![tactic(auto)]

ghost use Rattle.turns.specs.Turns.{setting, table, Plays};
ghost use Rattle.exchange.specs.Runs.{reader_run, tag_run, played_of};

use plan::Plan;
use tag::Tag;
use turns::{Played, Standing, answers, asks, reader_next, tag_next};

// The reader's turn, which hands over to the tag's: so many turns, or fewer, where the exchange ends before.
#[cycle(reader_turn_tag_turn)]
fn reader_turn(
    turns: usize,
    plan: Plan,
    words: &[u8],
    keys: &[u8],
    draws: &[u8],
    standing: Standing,
    tag: Tag,
    identity: &mut [u8],
    user: &mut [u8],
) -> Played
    ensures { Plays (reader_run (setting plan words.now keys.now draws.now) turns
        (table standing tag identity.old user.old)) result identity.new
        user.new }
{
    if turns == 0 || !reader_next(standing) {
        return Played { standing, tag };
    }
    let after = asks::act(plan, words, standing);
    tag_turn(
        turns - 1,
        plan,
        words,
        keys,
        draws,
        after,
        tag,
        identity,
        user,
    )
}

// The tag's turn, which hands over to the reader's.
#[cycle(reader_turn_tag_turn)]
fn tag_turn(
    turns: usize,
    plan: Plan,
    words: &[u8],
    keys: &[u8],
    draws: &[u8],
    standing: Standing,
    tag: Tag,
    identity: &mut [u8],
    user: &mut [u8],
) -> Played
    ensures { Plays (tag_run (setting plan words.now keys.now draws.now) turns
        (table standing tag identity.old user.old)) result identity.new
        user.new }
{
    if turns == 0 || !tag_next(standing) {
        return Played { standing, tag };
    }
    let acted = answers::act(plan, keys, draws, standing, tag, identity, user);
    reader_turn(
        turns - 1,
        plan,
        words,
        keys,
        draws,
        acted.standing,
        acted.tag,
        identity,
        user,
    )
}

/// So many turns of an exchange, or fewer, where it ends before or the limit is used up. The words of an IAM3, the
/// tag's key table and its draws, ten for each of its answers, are lent, and both areas.
///
/// Ruled out: a fifth turn; a reply that is judged one turn later; an exchange that starts anew where it was stopped.
pub fn play(
    turns: usize,
    plan: Plan,
    words: &[u8],
    keys: &[u8],
    draws: &[u8],
    standing: Standing,
    tag: Tag,
    identity: &mut [u8],
    user: &mut [u8],
) -> Played
    ensures { Plays (played_of (setting plan words.now keys.now draws.now) turns
        (table standing tag identity.old user.old)) result identity.new
        user.new }
{
    if tag_next(standing) {
        return tag_turn(
            turns, plan, words, keys, draws, standing, tag, identity, user,
        );
    }
    reader_turn(
        turns, plan, words, keys, draws, standing, tag, identity, user,
    )
}
