//! The words of the command line.
ghost use Rattle.std.specs.Prelude.{◌≡◌, ℕ, [], ◌∷◌, Some, IfSome, IfNone};
ghost use Rattle.program.specs.Commands.{Row, IsRow, answer_to, row_of};
ghost use Rattle.commands.specs.Replies.{Runs};
ghost use Rattle.commands.specs.Words.{IsNatural, texts};

use certify_commands::certify::certify;
use commands::{Reply, Stop};
use homology_commands::show_homology::show_homology;
use loop_commands::loops::loops;
use open_commands::certify_open::certify_open;
use open_commands::decide_open::decide_open;
use pair_commands::decide::decide;
use reduce_commands::reduce::reduce;
use std::alloc::Global;
use surf_io::Shelf;
use surface_commands::surface::answer_surface;
use trial_commands::trial::trial;
use verify_commands::verify::verify;
use verify_homology_commands::verify_homology::verify_homology;

/// What the words ask for, with the names of the files.
#[derive(Clone, Copy, Debug, PartialEq, Eq)]
pub enum Command<'a> {
    /// `surface FILE`
    Surface {
        mesh: &'a str,
    },
    /// `decide FILE WALKS`
    Decide {
        mesh: &'a str,
        walks: &'a str,
    },
    /// `certify FILE WALKS`
    Certify {
        mesh: &'a str,
        walks: &'a str,
    },
    /// `loops FILE WALKS`
    Loops {
        mesh: &'a str,
        walks: &'a str,
    },
    /// `decide-open FILE WALKS`
    DecideOpen {
        mesh: &'a str,
        walks: &'a str,
    },
    /// `certify-open FILE WALKS`
    CertifyOpen {
        mesh: &'a str,
        walks: &'a str,
    },
    /// `homology FILE WALKS`
    Homology {
        mesh: &'a str,
        walks: &'a str,
    },
    /// `verify FILE WALKS CERT`
    Verify {
        mesh: &'a str,
        walks: &'a str,
        certificate: &'a str,
    },
    /// `verify-homology FILE WALKS CERT`
    VerifyHomology {
        mesh: &'a str,
        walks: &'a str,
        certificate: &'a str,
    },
    /// `reduce D FILE`
    Reduce {
        degree: u32,
        list: &'a str,
    },
    /// `trial G K`
    Trial {
        genus: u32,
        grid: u32,
    },
}

/// The command whose row the words are; none where they are no row. It takes no memory.
pub fn read_command(words: &Vec<String>) -> Option<Command<'_>>
    ensures row { IfSome result (λ command. IsRow (texts words.now.items) (row_of command)) }
    ensures none { IfNone result ((row : Row) → IsRow (texts words.now.items) row → ⊥) }
{
    match words.as_slice() {
        [name, one] => with_one(name.as_str(), one.as_str()),
        [name, one, two] => with_two(name.as_str(), one.as_str(), two.as_str()),
        [name, one, two, three] => {
            with_three(name.as_str(), one.as_str(), two.as_str(), three.as_str())
        }
        _ => None,
    }
}

/// The command with that name and one word behind it.
fn with_one<'a>(name: &str, mesh: &'a str) -> Option<Command<'a>>
    ensures row { IfSome result (λ command. IsRow (name.now ∷ mesh.now ∷ []) (row_of command)) }
    ensures none { IfNone result ((row : Row) → IsRow (name.now ∷ mesh.now ∷ []) row → ⊥) }
{
    match name {
        "surface" => Some(Command::Surface { mesh }),
        _ => None,
    }
}

/// The command with that name and two words behind it.
fn with_two<'a>(name: &str, one: &'a str, two: &'a str) -> Option<Command<'a>>
    ensures row { IfSome result (λ command. IsRow (name.now ∷ one.now ∷ two.now ∷ []) (row_of command)) }
    ensures none { IfNone result ((row : Row) → IsRow (name.now ∷ one.now ∷ two.now ∷ []) row → ⊥) }
{
    let (mesh, walks) = (one, two);
    match name {
        "decide" => Some(Command::Decide { mesh, walks }),
        "certify" => Some(Command::Certify { mesh, walks }),
        "loops" => Some(Command::Loops { mesh, walks }),
        "decide-open" => Some(Command::DecideOpen { mesh, walks }),
        "certify-open" => Some(Command::CertifyOpen { mesh, walks }),
        "homology" => Some(Command::Homology { mesh, walks }),
        "reduce" => Some(Command::Reduce {
            degree: natural(one)?,
            list: two,
        }),
        "trial" => Some(Command::Trial {
            genus: natural(one)?,
            grid: natural(two)?,
        }),
        _ => None,
    }
}

/// The command with that name and three words behind it.
fn with_three<'a>(
    name: &str,
    mesh: &'a str,
    walks: &'a str,
    certificate: &'a str,
) -> Option<Command<'a>>
    ensures row { IfSome result (λ command. IsRow (name.now ∷ mesh.now ∷ walks.now ∷ certificate.now ∷ []) (row_of command)) }
    ensures none { IfNone result ((row : Row) → IsRow (name.now ∷ mesh.now ∷ walks.now ∷ certificate.now ∷ []) row → ⊥) }
{
    match name {
        "verify" => Some(Command::Verify {
            mesh,
            walks,
            certificate,
        }),
        "verify-homology" => Some(Command::VerifyHomology {
            mesh,
            walks,
            certificate,
        }),
        _ => None,
    }
}

/// What is to be written as the answer to a command.
pub fn answer<S: Shelf>(alloc: Global, shelf: &mut S, command: Command<'_>) -> Result<Reply, Stop>
    ensures { Runs S.held S.faults shelf.old shelf.new (λ files. answer_to files (row_of command.entry)) result }
{
    match command {
        Command::Surface { mesh } => answer_surface(alloc, shelf, mesh),
        Command::Decide { mesh, walks } => decide(alloc, shelf, mesh, walks),
        Command::Certify { mesh, walks } => certify(alloc, shelf, mesh, walks),
        Command::Loops { mesh, walks } => loops(alloc, shelf, mesh, walks),
        Command::DecideOpen { mesh, walks } => decide_open(alloc, shelf, mesh, walks),
        Command::CertifyOpen { mesh, walks } => certify_open(alloc, shelf, mesh, walks),
        Command::Homology { mesh, walks } => show_homology(alloc, shelf, mesh, walks),
        Command::Verify {
            mesh,
            walks,
            certificate,
        } => verify(alloc, shelf, mesh, walks, certificate),
        Command::VerifyHomology {
            mesh,
            walks,
            certificate,
        } => verify_homology(alloc, shelf, mesh, walks, certificate),
        Command::Reduce { degree, list } => reduce(alloc, shelf, degree, list),
        Command::Trial { genus, grid } => trial(alloc, genus, grid),
    }
}

/// The number that decimal digits write, leading zeros allowed; none where it does not fit 32 bits.
fn natural(digits: &str) -> Option<u32>
    ensures read { IfSome result (IsNatural digits.now) }
    ensures every { (n : ℕ) → IsNatural digits.now n → result ≡ Some n }
{
    if digits.starts_with('+') {
        return None;
    }
    digits.parse::<u32>().ok()
}
