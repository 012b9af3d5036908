//! Reading walks in a text of version 2, in which a group may stand several times.
ghost use Rattle.std.specs.Prelude.{◌≡◌, ℕ, ◌+◌, ◌<◌, ◌≤◌, ◌⊎◌, List, [], ◌∷◌, ◌++◌, length, drop, Some, Ok, Err, IsTrue, IfOk, MatchResult, OnOk};
ghost use Rattle.surf_model.specs.Vertices.{numbers};
ghost use Rattle.surf_model.specs.Walks.{darts};
ghost use Rattle.text_scan.specs.Each.{each_some};
ghost use Rattle.text_scan.specs.Numbers.{number_of};
ghost use Rattle.walk_files.specs.LineReads.{walk_on, rest_of, IsShortGroup, IsWritten};
ghost use Rattle.walk_files.specs.WalkTexts.{times, walks_behind, in_version, within_limits};
ghost use Rattle.walk_files.specs.declared.fault.WalkFault.TheVariants.{OutOfMemory};
ghost use Rattle.walk_files.specs.declared.limits.TheConstants.{MOST_DARTS, MOST_WALK_VERTICES};

use crate::counting::{count_darts, read_power};
use crate::fault::WalkFault;
use crate::limits::{MOST_DARTS, MOST_LINES, MOST_WALK_DARTS, MOST_WALK_VERTICES};
use crate::tokens::{Token, Tokens};
use crate::walk_list::WalkList;
use std::alloc::{AllocError, Global};
use surf_model::{VertexName, Walk};
use text_scan::{Line, Lines};

/// The walks of the lines behind the header. A line of numbers alone is read once, and each other line is counted before it is
/// written out, so that no memory is taken for what will be refused.
pub(crate) fn read_groups(alloc: Global, lines: &mut Lines<'_>) -> Result<WalkList, WalkFault>
    ensures { (result ≡ in_version 2 (walks_behind [] lines.old.lines)) ⊎ (result ≡ Err OutOfMemory) }
{
    let mut walks = WalkList::new(alloc, 2);
    let mut vertices = Vec::new(alloc);
    let mut group = Vec::new(alloc);
    let mut total: u64 = 0;
    while let Some(line) = lines.next() {
        if walks.len() == MOST_LINES {
            return Err(WalkFault::TooMany {
                line: line.number(),
            });
        }
        let walk = read_line(alloc, &line, total, &mut vertices, &mut group)?;
        total += u64::from(walk.darts());
        walks.push(walk)?;
    }
    Ok(walks)
}

/// The walk of a line, where it and the walks before it, which have `total` darts, are not too long. The lists are room for its
/// vertices, and for the numbers of a group.
fn read_line(
    alloc: Global,
    line: &Line<'_>,
    total: u64,
    vertices: &mut Vec<VertexName>,
    group: &mut Vec<u32>,
) -> Result<Walk, WalkFault>
    requires { total ≤ MOST_DARTS }
    ensures { (result ≡ within_limits line.now.number total (walk_on line.now)) ⊎ (result ≡ Err OutOfMemory) }
{
    if read_vertices(line, vertices)? {
        return walk_of(alloc, line, total, vertices);
    }
    let darts = count_darts(line)?;
    if darts > MOST_WALK_DARTS || total + darts > MOST_DARTS {
        return Err(WalkFault::TooLong {
            line: line.number(),
        });
    }
    write_walk(alloc, line, group)
}

/// Whether each word of the line is a number, and there are not too many, and the numbers as vertices, in place of what was in the list.
fn read_vertices(line: &Line<'_>, vertices: &mut Vec<VertexName>) -> Result<bool, AllocError>
    ensures all { IfOk result (λ plain. IsTrue plain → each_some number_of line.now.words ≡ Some (numbers vertices.new.items)) }
    ensures some { IfOk result (λ plain. IsTrue plain → 0 < length vertices.new.items) }
    ensures few { length vertices.new.items ≤ MOST_WALK_VERTICES }
{
    vertices.clear();
    let mut words = line.words();
    while let Some(vertex) = words.number() {
        if vertices.len() as u64 == MOST_WALK_VERTICES {
            return Ok(false);
        }
        vertices.push(VertexName(vertex))?;
    }
    Ok(!vertices.is_empty() && words.next().is_none())
}

/// The walk of a line whose words are these vertices, where it and the walks before it are not too long.
fn walk_of(
    alloc: Global,
    line: &Line<'_>,
    total: u64,
    vertices: &[VertexName],
) -> Result<Walk, WalkFault>
    requires words { each_some number_of line.now.words ≡ Some (numbers vertices.now) }
    requires some { 0 < length vertices.now }
    requires few { length vertices.now ≤ MOST_WALK_VERTICES }
    requires total { total ≤ MOST_DARTS }
    ensures { (result ≡ within_limits line.now.number total (walk_on line.now)) ⊎ (result ≡ Err OutOfMemory) }
{
    let darts = vertices.len() as u64 - 1;
    if total + darts > MOST_DARTS {
        return Err(WalkFault::TooLong {
            line: line.number(),
        });
    }
    Ok(Walk::of(alloc, vertices)?)
}

/// The walk of a line, which has not too many darts. `group` is room for the numbers of a group.
fn write_walk(alloc: Global, line: &Line<'_>, group: &mut Vec<u32>) -> Result<Walk, WalkFault>
    requires { (walk : List ℕ) × (walk_on line.now ≡ Ok walk) × (length walk ≤ MOST_WALK_VERTICES) }
    ensures { (result ≡ walk_on line.now) ⊎ (result ≡ Err OutOfMemory) }
{
    let mut tokens = Tokens::of(line);
    let first = tokens.number()?;
    let mut walk = Walk::new(alloc, VertexName(first))?;
    while let Some(token) = tokens.next()? {
        match token {
            Token::Number(next) => {
                walk.push(VertexName(next))?;
            }
            Token::Open => {
                write_group(&mut tokens, &mut walk, group)?;
            }
            Token::Close => return Err(tokens.no_walk()),
        }
    }
    Ok(walk)
}

/// Writes a group whose opening was read behind the walk. `numbers` is room for its numbers.
fn write_group(
    tokens: &mut Tokens<'_>,
    walk: &mut Walk,
    numbers: &mut Vec<u32>,
) -> Result<(), WalkFault>
    requires { IsShortGroup tokens.old.line tokens.old.words walk.old }
    ensures written { (vertex : ℕ) (rest : List ℕ) → rest_of tokens.old.line vertex (Some []) tokens.old.words ≡ Ok rest
        → MatchResult result (λ _. IsWritten tokens.old.line vertex tokens.old.words tokens.new.words walk.old walk.new)
        (λ fault. fault ≡ OutOfMemory) }
    ensures line { OnOk result (tokens.new.line ≡ tokens.old.line) }
    ensures shorter { OnOk result (length tokens.new.words < length tokens.old.words) }
{
    numbers.clear();
    while let Some(token) = tokens.next()? {
        match token {
            Token::Number(number) => note(numbers, number)?,
            Token::Close => {
                let power = read_power(tokens)?;
                return Ok(put_times(walk, numbers, power)?);
            }
            Token::Open => return Err(tokens.no_walk()),
        }
    }
    Err(tokens.no_walk())
}

/// Puts a number last.
fn note(numbers: &mut Vec<u32>, number: u32) -> Result<(), AllocError>
    ensures { OnOk result (numbers.new.items ≡ numbers.old.items ++ number ∷ []) }
{
    numbers.push(number)?;
    Ok(())
}

/// Puts the numbers last in the walk, so often.
fn put_times(walk: &mut Walk, numbers: &[u32], power: u32) -> Result<(), AllocError>
    requires { length walk.old + length (times power numbers.now) ≤ MOST_WALK_VERTICES }
    ensures { OnOk result (walk.new ≡ walk.old ++ times power numbers.now) }
{
    for _ in 0..power {
        put_all(walk, numbers)?;
    }
    Ok(())
}

/// Puts the numbers last in the walk.
fn put_all(walk: &mut Walk, numbers: &[u32]) -> Result<(), AllocError>
    requires { length walk.old + length numbers.now ≤ MOST_WALK_VERTICES }
    ensures { OnOk result (walk.new ≡ walk.old ++ numbers.now) }
{
    for number in numbers {
        walk.push(VertexName(*number))?;
    }
    Ok(())
}
