//! The command `surface`: the numbers of a surface.
ghost use Rattle.std.specs.Prelude.{◌≡◌, [], ◌∷◌, ◌++◌, map, decimal, IfOk, OnOk};
ghost use Rattle.commands.specs.Lines.{in_lines, line};
ghost use Rattle.commands.specs.Replies.{Runs};
ghost use Rattle.surface_commands.specs.Surface.{genus_line, numbers_text};
ghost use Rattle.surface_commands.specs.Surface as of_surface;

use crate::surface_input::{few_components, read_surface};
use closed_surfaces::{genera_of, numbers_of};
use commands::{Line, Phrase, Reply, Stop, Text};
use std::alloc::{AllocError, Global};
use surf_io::Shelf;
use surf_model::SurfaceNumbers;

/// The most components of which `surface` tells the genus.
pub const MOST_COMPONENTS: u32 = 1024;

/// The numbers of the surface in the file `mesh`, and the genus of each of its components.
pub fn answer_surface<S: Shelf>(alloc: Global, shelf: &mut S, mesh: &str) -> Result<Reply, Stop>
    ensures { Runs S.held S.faults shelf.old shelf.new (λ files. of_surface.surface files mesh.now) result }
{
    let surface = read_surface(alloc, shelf, mesh)?;
    let parts = few_components(alloc, &surface, MOST_COMPONENTS)?;
    let numbers = numbers_of(&surface.faces, &surface.sides);
    let genera = genera_of(alloc, &surface, &parts)?;
    let lines = lines_of(alloc, numbers, &genera)?;
    Ok(Reply::Yes(Text::Lines(lines)))
}

/// The line of each number, and of each genus.
fn lines_of(alloc: Global, numbers: SurfaceNumbers, genera: &[u32]) -> Result<Vec<Line>, AllocError>
    ensures { IfOk result (λ lines. in_lines lines.items ≡ numbers_text numbers genera.now) }
{
    let mut lines = vec![in alloc;
        line_of_count("V", numbers.vertices),
        line_of_count("E", numbers.edges),
        line_of_count("F", numbers.faces),
        Line::of(Phrase::Text("chi"), &[Phrase::Signed(numbers.euler)]),
    ]?;
    put_genera(&mut lines, genera)?;
    Ok(lines)
}

/// Puts the line of each genus behind others.
pub fn put_genera(lines: &mut Vec<Line>, genera: &[u32]) -> Result<(), AllocError>
    ensures { OnOk result (lines.new.items ≡ lines.old.items ++ map genus_line genera.now) }
{
    for genus in genera {
        lines.push(line_of_count("genus", *genus))?;
    }
    Ok(())
}

/// The line of a count.
pub fn line_of_count(name: &'static str, count: u32) -> Line
    ensures { result ≡ line name.now (decimal count ∷ []) }
{
    Line::of(Phrase::Text(name), &[Phrase::Number(count as u64)])
}
