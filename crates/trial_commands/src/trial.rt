//! The command `trial`: what `surface` and `decide` say of a chain of tori, and of its three pairs of walks.
ghost use Rattle.std.specs.Prelude.{◌≡◌, [], ◌∷◌, ◌++◌, MatchResult, IfOk, OnOk, Err};
ghost use Rattle.surf_gen.specs.ChainTexts.{chain_text};
ghost use Rattle.surf_gen.specs.Sizes.{IsChainSize};
ghost use Rattle.surf_model.specs.Components.{EachTwoAreJoined};
ghost use Rattle.commands.specs.Certificates.{decision_word};
ghost use Rattle.commands.specs.Checks.{Passes, pass_unless};
ghost use Rattle.closed_surfaces.specs.SignedSurfaces.{IsSigned};
ghost use Rattle.commands.specs.Lines.{in_lines, line};
ghost use Rattle.commands.specs.Refusals.{told};
ghost use Rattle.commands.specs.Replies.{Replies};
ghost use Rattle.commands.specs.Stops.{Ends, Stops};
ghost use Rattle.surf_model.specs.Genera.{AreNumbersOf};
ghost use Rattle.closed_surfaces.specs.ComponentGenera.{AreGeneraOf};
ghost use Rattle.surface_commands.specs.SurfaceInput.{of_few_components};
ghost use Rattle.trial_commands.specs.Trial as of_trial;
ghost use Rattle.trial_commands.specs.Trial.{is_within, size_fault, surface_spelled, pair_decided, pairs_decided, first_lines, last_lines, trial_text};
ghost use Rattle.commands.specs.declared.stop.Stop.{Stop};

use closed_surfaces::{SignedMesh, connected, genera_of, numbers_of};
use commands::decision::word_of;
use commands::{Line, Phrase, Reply, Stop, Text, refused};
use off_reader::read_off;
use std::alloc::{AllocError, Global};
use surf_gen::{LEAST_GRID, MOST_GENUS, MOST_GRID, TrialPair, WalkPair, chain_of_tori, trial_pair};
use surf_model::{Answer, SurfaceNumbers};
use surface_commands::surface::{line_of_count, put_genera};
use surface_commands::{few_components, surface_of};
use walk_files::{WalkList, check_pair};
use walk_translate::Decider;

/// The decisions on the three pairs of walks.
#[derive(Clone, Copy, Debug, PartialEq, Eq)]
pub struct Decisions {
    pub commuting: Answer,
    pub cell: Answer,
    pub loops: Answer,
}

/// The numbers of a chain, and the genus of each of its components.
#[derive(Drop)]
struct Measured {
    numbers: SurfaceNumbers,
    genera: Vec<u32>,
}

/// The numbers of a chain of `genus` tori of `grid` times `grid` points each, and the decisions on its pairs of walks. No
/// file is read.
pub fn trial(alloc: Global, genus: u32, grid: u32) -> Result<Reply, Stop>
    ensures end { MatchResult result (Replies (of_trial.trial genus grid)) (Stops (of_trial.trial genus grid)) }
    ensures no_fault { result ≡ Err Stop.ReadFault → ⊥ }
{
    check_sizes(genus, grid)?;
    let chain = chain_surface(alloc, genus, grid)?;
    let measured = measure_chain(alloc, &chain)?;
    let decisions = decide_on(alloc, chain, genus, grid)?;
    let lines = lines_of(alloc, genus, grid, &measured, decisions)?;
    Ok(Reply::Yes(Text::Lines(lines)))
}

/// Refuses a genus, and then a grid, that is out of bounds.
fn check_sizes(genus: u32, grid: u32) -> Result<(), Stop>
    ensures end { MatchResult result (λ _. Passes (pass_unless told (size_fault genus grid) genus) genus)
        (Stops (pass_unless told (size_fault genus grid) genus)) }
    ensures sizes { IfOk result (λ _. IsChainSize genus grid) }
    ensures no_fault { result ≡ Err Stop.ReadFault → ⊥ }
{
    if !is_within(1, MOST_GENUS, genus) {
        return Err(refused(&[Phrase::Text("trial genus"), Phrase::Number(genus as u64)]));
    }
    if !is_within(LEAST_GRID, MOST_GRID, grid) {
        return Err(refused(&[Phrase::Text("trial grid"), Phrase::Number(grid as u64)]));
    }
    Ok(())
}

/// Whether a number is within bounds.
fn is_within(least: u32, most: u32, n: u32) -> bool
    ensures { result ≡ is_within least most n }
{
    (least..=most).contains(&n)
}

/// The chain as a surface, read from its text.
fn chain_surface(alloc: Global, genus: u32, grid: u32) -> Result<SignedMesh, Stop>
    requires { IsChainSize genus grid }
    ensures end { MatchResult result (λ surface. Passes (surface_spelled (chain_text genus grid)) surface.faces)
        (Stops (surface_spelled (chain_text genus grid))) }
    ensures signed { IfOk result IsSigned }
    ensures no_fault { result ≡ Err Stop.ReadFault → ⊥ }
{
    let text = chain_of_tori(alloc, genus, grid)?;
    let faces = read_off(alloc, &text)?;
    surface_of(alloc, faces)
}

/// The numbers of a chain that is of one piece, and its genera.
fn measure_chain(alloc: Global, chain: &SignedMesh) -> Result<Measured, Stop>
    requires { IsSigned chain.now }
    ensures end { MatchResult result (λ _. Passes (of_few_components 1 chain.now.faces) chain.now.faces)
        (Stops (of_few_components 1 chain.now.faces)) }
    ensures joined { IfOk result (λ _. EachTwoAreJoined chain.now.faces) }
    ensures numbers { IfOk result (λ measured. AreNumbersOf chain.now.faces measured.numbers) }
    ensures genera { IfOk result (λ measured. AreGeneraOf chain.now.faces measured.genera.items) }
    ensures no_fault { result ≡ Err Stop.ReadFault → ⊥ }
{
    let parts = few_components(alloc, chain, 1)?;
    let numbers = numbers_of(&chain.faces, &chain.sides);
    let genera = genera_of(alloc, chain, &parts)?;
    Ok(Measured { numbers, genera })
}

/// The decisions on the three pairs of walks of a chain.
fn decide_on(alloc: Global, chain: SignedMesh, genus: u32, grid: u32) -> Result<Decisions, Stop>
    requires sizes { IsChainSize genus grid }
    requires signed { IsSigned chain }
    requires joined { EachTwoAreJoined chain.faces }
    ensures end { Ends (pairs_decided chain.faces grid) result }
    ensures no_fault { result ≡ Err Stop.ReadFault → ⊥ }
{
    let surface = connected(alloc, chain)?;
    let decider = Decider::start(alloc, surface)?;
    let decisions = decide_pairs(alloc, &decider, genus, grid);
    // By a call, which is proved once, and not here again.
    drop(decider);
    decisions
}

/// The decisions on the three pairs.
fn decide_pairs(alloc: Global, decider: &Decider, genus: u32, grid: u32) -> Result<Decisions, Stop>
    requires { IsChainSize genus grid }
    ensures end { Ends (pairs_decided decider.now grid) result }
    ensures no_fault { result ≡ Err Stop.ReadFault → ⊥ }
{
    let commuting = decide_pair(alloc, decider, genus, grid, TrialPair::Commuting)?;
    let cell = decide_pair(alloc, decider, genus, grid, TrialPair::Cell)?;
    let loops = decide_pair(alloc, decider, genus, grid, TrialPair::Loops)?;
    Ok(Decisions {
        commuting,
        cell,
        loops,
    })
}

/// The decision on a pair. That its walks are two walks of the surface with common ends is looked at, as of any two walks.
fn decide_pair(
    alloc: Global,
    decider: &Decider,
    genus: u32,
    grid: u32,
    which: TrialPair,
) -> Result<Answer, Stop>
    requires { IsChainSize genus grid }
    ensures end { Ends (pair_decided decider.now grid which) result }
    ensures no_fault { result ≡ Err Stop.ReadFault → ⊥ }
{
    let WalkPair { first, second } = trial_pair(alloc, genus, grid, which)?;
    let pair = WalkList::pair(alloc, first, second)?;
    check_pair(decider.sides(), &pair)?;
    Ok(decider.answer(pair.at(0), pair.at(1))?)
}

/// All lines.
fn lines_of(
    alloc: Global,
    genus: u32,
    grid: u32,
    measured: &Measured,
    decisions: Decisions,
) -> Result<Vec<Line>, AllocError>
    ensures { IfOk result (λ lines. in_lines lines.items
        ≡ trial_text genus grid measured.now.numbers measured.now.genera.items decisions) }
{
    let mut lines = first_lines(alloc, genus, grid, measured.numbers)?;
    put_genera(&mut lines, &measured.genera)?;
    put_decisions(&mut lines, decisions)?;
    Ok(lines)
}

/// The lines before the genus.
fn first_lines(
    alloc: Global,
    genus: u32,
    grid: u32,
    numbers: SurfaceNumbers,
) -> Result<Vec<Line>, AllocError>
    ensures { IfOk result (λ lines. lines.items ≡ first_lines genus grid numbers) }
{
    let sizes = [Phrase::Number(genus as u64), Phrase::Number(grid as u64)];
    Ok(vec![in alloc;
        Line::of(Phrase::Text("trial"), &sizes),
        line_of_count("V", numbers.vertices),
        line_of_count("E", numbers.edges),
        line_of_count("F", numbers.faces),
    ]?)
}

/// Puts the lines of the decisions behind others.
fn put_decisions(lines: &mut Vec<Line>, decisions: Decisions) -> Result<(), AllocError>
    ensures { OnOk result (lines.new.items ≡ lines.old.items ++ last_lines decisions) }
{
    lines.push(line_of_decision("commuting", decisions.commuting))?;
    lines.push(line_of_decision("cell", decisions.cell))?;
    lines.push(line_of_decision("loops", decisions.loops))?;
    Ok(())
}

/// The line of the decision on a pair.
fn line_of_decision(pair: &'static str, decision: Answer) -> Line
    ensures { result ≡ line pair.now (decision_word decision ∷ []) }
{
    Line::of(Phrase::Text(pair), &[Phrase::Text(word_of(decision))])
}
