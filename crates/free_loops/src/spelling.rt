//! Turn words, spelled out as spokes.
ghost use Rattle.std.specs.Prelude.{◌≡◌, ◌<◌, ◌^◌, All, length, IfOk};
ghost use Rattle.turn_words.specs.Modulo.{add};
ghost use Rattle.turn_words.specs.SpokePaths.{turn_word_of};
ghost use Rattle.spoke_rings.specs.CyclicWords.{IsFullWheel};

use std::alloc::{AllocError, Global};
use turn_words::{TurnWord, Wheel};

/// The spokes of a turn word, from the vertex on.
pub(crate) fn spokes_of(
    alloc: Global,
    wheel: &Wheel,
    word: &TurnWord,
) -> Result<Vec<u32>, AllocError>
    requires full { IsFullWheel wheel.now }
    requires entries { All (λ entry. entry < length wheel.now) word.now }
    ensures below { IfOk result (λ spokes. All (λ spoke. spoke < length wheel.now) spokes.items) }
    ensures word { IfOk result (λ spokes. turn_word_of wheel.now spokes.items ≡ word.now) }
    ensures short { IfOk result (λ spokes. length spokes.items < 2 ^ 32) }
{
    let mut spokes = Vec::with_capacity(alloc, word.len() as usize)?;
    let mut from = 0;
    let mut at_vertex = true;
    for k in 0..word.len() {
        let place = round_sum(wheel.degree(), from, word.at(k));
        let spoke = wheel.spoke_round(at_vertex, place);
        spokes.push(spoke)?;
        // The next turn is counted round the point to which this spoke leads.
        at_vertex = !at_vertex;
        from = wheel.place_round(at_vertex, spoke);
    }
    Ok(spokes)
}

/// The number that comes so many behind another, counted round.
fn round_sum(degree: u32, from: u32, by: u32) -> u32
    requires from { from < degree }
    requires by { by < degree }
    ensures { result ≡ add degree from by }
{
    let room = degree - by;
    if from < room { from + by } else { from - room }
}
