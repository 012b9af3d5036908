//! Lists of moves noted again for longer walks.
ghost use Rattle.std.specs.Prelude.{◌≡◌, ◌+◌, ◌<◌, ◌≤◌, ◌^◌, ◌++◌, max, length, OnOk, All};
ghost use Rattle.surf_model.specs.Replacements.{place_of_move};
ghost use Rattle.surf_model.specs.Rewriting.{raised, all_raised};
ghost use Rattle.surf_model.specs.declared.moves.Move.{Move};

use std::alloc::AllocError;
use surf_model::{Move, MoveList};

/// Notes the moves of a list once more where `by` entries stand in front of the walk that they start from, and `around` entries in front of
/// it and behind it together. Where the list has a move, the peak becomes the greater of itself and that of the list with all these around.
pub fn raise_moves(
    moves: &mut MoveList,
    list: &MoveList,
    by: u32,
    around: u32,
) -> Result<(), AllocError>
    requires places { All (λ (mv : Move). place_of_move mv ≤ list.now.peak) list.now.moves }
    requires raised { by + list.now.peak < 2 ^ 32 }
    requires room { around + list.now.peak < 2 ^ 32 }
    ensures moves { OnOk result (moves.new.moves ≡ moves.old.moves ++ all_raised by list.now.moves) }
    ensures none { OnOk result (length list.now.moves ≡ 0 → moves.new.peak ≡ moves.old.peak) }
    ensures some { OnOk result (0 < length list.now.moves → moves.new.peak ≡ max moves.old.peak (around + list.now.peak)) }
{
    let most = around + list.peak();
    for place in 0..list.len() {
        moves.push(raise(list.at(place), by), most)?;
    }
    Ok(())
}

/// The same move where `by` entries stand in front.
fn raise(mv: Move, by: u32) -> Move
    requires { place_of_move mv + by < 2 ^ 32 }
    ensures { result ≡ raised by mv }
{
    match mv {
        Move::Insert { at, via } => Move::Insert { at: by + at, via },
        Move::Remove { at, via } => Move::Remove { at: by + at, via },
        Move::Across {
            at,
            face,
            corner,
            forward,
            taken,
        } => Move::Across {
            at: by + at,
            face,
            corner,
            forward,
            taken,
        },
    }
}
