//! A certificate: a list of moves, or a denial.
use labellings::Denial;
use surf_model::MoveList;

/// The most moves of a list that is shown between walks that lie on a sphere.
pub const MOST_SPHERE_MOVES: u32 = 8_389_120;

/// The greatest peak of a list that is shown between two walks.
pub const MOST_SHOWN_PEAK: u32 = 12_640_256;

/// What is to show whether one walk may take the place of another.
#[derive(Debug, Drop)]
pub enum Certificate {
    /// Moves that are to lead from the first walk to the second.
    Moves(MoveList),
    /// What is to show that no moves do.
    Denial(Denial),
}
