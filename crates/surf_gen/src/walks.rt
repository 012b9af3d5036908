//! Pairs of walks on a chain of tori.
ghost use Rattle.std.specs.Prelude.{◌≡◌, ◌+◌, ◌<◌, ◌≤◌, [], ◌++◌, length, map, OnOk, IfOk};
ghost use Rattle.surf_gen.specs.Chains.{point, number};
ghost use Rattle.surf_gen.specs.Sizes.{IsChainSize};
ghost use Rattle.surf_gen.specs.declared.limits.TheConstants.{MOST_GRID};
ghost use Rattle.surf_gen.specs.TrialWalks.{first_walk, second_walk, row_loop, column_loop, cell_loop, walk_through};

use crate::chain::Chain;
use crate::points::Point;
use std::alloc::{AllocError, Global};
use surf_model::{VertexName, Walk};

/// Which pair of walks. All of them begin and end in the last row and the last column of the first torus.
#[derive(Clone, Copy, Debug, PartialEq, Eq)]
pub enum TrialPair {
    /// Round the row and then round the column; and round the column and then round the row.
    Commuting,
    /// Round one cell; and the walk of one vertex.
    Cell,
    /// Round the row; and round the column.
    Loops,
}

/// Two walks with common ends.
#[derive(Debug, Drop)]
pub struct WalkPair {
    pub first: Walk,
    pub second: Walk,
}

/// Two walks on the chain of `genus` tori of `grid` times `grid` points each.
pub fn trial_pair(
    alloc: Global,
    genus: u32,
    grid: u32,
    which: TrialPair,
) -> Result<WalkPair, AllocError>
    requires { IsChainSize genus grid }
    ensures first { IfOk result (λ pair. pair.first ≡ first_walk grid which) }
    ensures second { IfOk result (λ pair. pair.second ≡ second_walk grid which) }
{
    let chain = Chain { genus, grid };
    let (mut first, mut second) = (chain.base_walk(alloc)?, chain.base_walk(alloc)?);
    match which {
        TrialPair::Commuting => {
            chain.go_round_row(&mut first)?;
            chain.go_round_column(&mut first)?;
            chain.go_round_column(&mut second)?;
            chain.go_round_row(&mut second)?;
        }
        TrialPair::Cell => chain.go_round_cell(&mut first)?,
        TrialPair::Loops => {
            chain.go_round_row(&mut first)?;
            chain.go_round_column(&mut second)?;
        }
    }
    Ok(WalkPair { first, second })
}

impl Chain {
    /// The walk of the base point alone.
    fn base_walk(self, alloc: Global) -> Result<Walk, AllocError>
        ensures { IfOk result (λ walk. walk ≡ walk_through self.grid []) }
    {
        let last = self.grid - 1;
        Walk::new(alloc, self.first_torus(last, last))
    }

    /// Goes on once round the last row, from the base point to the base point.
    fn go_round_row(self, walk: &mut Walk) -> Result<(), AllocError>
        requires { length walk.old ≤ MOST_GRID + 1 }
        ensures walk { OnOk result (walk.new ≡ walk.old ++ map (number self.grid) (row_loop self.grid)) }
        ensures long { OnOk result (length walk.new ≡ length walk.old + self.grid) }
    {
        for column in 0..self.grid {
            walk.push(self.first_torus(self.grid - 1, column))?;
        }
        Ok(())
    }

    /// Goes on once round the last column, from the base point to the base point.
    fn go_round_column(self, walk: &mut Walk) -> Result<(), AllocError>
        requires { length walk.old ≤ MOST_GRID + 1 }
        ensures walk { OnOk result (walk.new ≡ walk.old ++ map (number self.grid) (column_loop self.grid)) }
        ensures long { OnOk result (length walk.new ≡ length walk.old + self.grid) }
    {
        for row in 0..self.grid {
            walk.push(self.first_torus(row, self.grid - 1))?;
        }
        Ok(())
    }

    /// Goes on round the cell at the base point.
    fn go_round_cell(self, walk: &mut Walk) -> Result<(), AllocError>
        requires { length walk.old ≤ MOST_GRID + 1 }
        ensures { OnOk result (walk.new ≡ walk.old ++ map (number self.grid) (cell_loop self.grid)) }
    {
        let last = self.grid - 1;
        walk.push(self.first_torus(last, 0))?;
        walk.push(self.first_torus(0, 0))?;
        walk.push(self.first_torus(0, last))?;
        walk.push(self.first_torus(last, last))?;
        Ok(())
    }

    /// The vertex of the first torus in a row and a column.
    fn first_torus(self, row: u32, column: u32) -> VertexName
        requires row { row < self.grid }
        requires column { column < self.grid }
        ensures { result.0 ≡ number self.grid (point 0 row column) }
    {
        VertexName(self.number(Point {
            torus: 0,
            row,
            column,
        }))
    }
}
