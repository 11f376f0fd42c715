// The one run of a paper: the loop over a file's events, in place on one player, which leaves the line of each.
ghost use Rattle.std.specs.Prelude.{◌≡◌, ◌≤◌, length};
ghost use Rattle.rate.specs.bridges.Replies.{answer_of};
ghost use Rattle.question.specs.File.{event_count, air};
ghost use Rattle.question.specs.Start.{fresh_for};
ghost use Rattle.paper.specs.Sheet.{line_of};
ghost use Rattle.paper.specs.bridges.Said.{said};

use crate::types::{Line, Outcome};
use ladder::types::Rung;
use question::event::play;
use question::file::{air, event_count};
use question::reader::Reader;
use question::start::fresh_for;
use rate::player::Player;
use rate::types::{RateController, Reply};

// What an event's line says of what its call left and returned.
#[tactic(auto, unfolding(crate::specs::Sheet::line_of))]
fn line_of(k: &RateController, reply: Reply) -> Line
    ensures { result ≡ line_of (answer_of k.now reply) }
{
    let marks = reply?;
    Ok(Outcome {
        choice: k.choice(),
        tried: k.probing(),
        ofdm_refused: k.refuses_ofdm(),
        ended: marks.ended,
        begun: marks.begun,
    })
}

// What stands in a line's place before the run: all its bytes are 0, so that an array of it is sooner made.
const NO_LINE: Line = Ok(Outcome {
    choice: Rung(0),
    tried: None,
    ofdm_refused: false,
    ended: false,
    begun: false,
});

// The player that a file's events are played on. (Not inlined: the tables and controllers that are copied here, some 3 KB each, would stand in the frame
// of every caller.)
#[inline(never)]
fn player_for(file: &[u8]) -> Player
    ensures { result ≡ fresh_for (air file.now) }
{
    Player::new(fresh_for(air(file)))
}

// The lines of a file's events, one for each place of the slice. (Not by `zip` with the bodies: of what is written through an adapter of `iter_mut` a
// proof is told nothing. The `break` is never taken.)
#[tactic(auto, using(question::proofs::Events::bodies_next, crate::proofs::Running::filled_start, crate::proofs::Running::filled_next, crate::proofs::Running::filled_end))]
fn run(file: &[u8], player: &mut Player, lines: &mut [Line])
    requires fresh { player.old ≡ fresh_for (air file.now) }
    requires places { length lines.old ≡ event_count file.now }
    ensures { lines.new ≡ said file.now }
{
    let mut bodies = Reader::new(file);
    for line in lines.iter_mut() {
        let Some(body) = bodies.next() else {
            break;
        };
        let reply = play(player, body);
        *line = line_of(player.controller(), reply);
    }
}

// What a function makes of the lines of a file's events, which are run in an array of N. It is lent by `&mut`: an `FnOnce` would not tell what it left
// behind a slice that it captured. (Not inlined: else a refused file, and a paper of few events, would take the stack of 1,000 lines too.)
#[inline(never)]
fn read_in<const N: usize, R, F: FnMut(&[Line]) -> R>(
    file: &[u8],
    player: &mut Player,
    read: &mut F,
) -> R
    requires fresh { player.old ≡ fresh_for (air file.now) }
    requires room { event_count file.now ≤ N }
    requires small { N ≤ 1000 }
    requires callable { (p : _) → p.now ≡ said file.now → F.pre read.old p }
    ensures { (p : _) × (p.now ≡ said file.now) × F.step read.old p result read.new }
{
    let mut room = [NO_LINE; N];
    let lines = &mut room[..event_count(file) as usize];
    run(file, player, lines);
    read(lines)
}

// The same of an accepted file. Fewer events are run in a shorter array, which is sooner made.
pub(crate) fn with_lines<R, F: FnMut(&[Line]) -> R>(file: &[u8], read: &mut F) -> R
    requires few { event_count file.now ≤ 1000 }
    requires callable { (p : _) → p.now ≡ said file.now → F.pre read.old p }
    ensures { (p : _) × (p.now ≡ said file.now) × F.step read.old p result read.new }
{
    let mut player = player_for(file);
    let p = &mut player;
    match event_count(file) {
        0..=50 => read_in::<50, _, _>(file, p, read),
        51..=250 => read_in::<250, _, _>(file, p, read),
        _ => read_in::<1000, _, _>(file, p, read),
    }
}
