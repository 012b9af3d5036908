//! Counting the darts of a walk line with groups.
ghost use Rattle.std.specs.Prelude.{◌≡◌, ℕ, ◌<◌, ◌≤◌, List, [], ◌∷◌, length, Some, Err, MatchResult, OnOk};
ghost use Rattle.text_scan.specs.Each.{each_some, some_first};
ghost use Rattle.walk_files.specs.LineReads.{walk_on, rest_of, IsCount, IsGroupCount};
ghost use Rattle.walk_files.specs.WalkTexts.{token_of, behind_vertex, read_tokens};
ghost use Rattle.walk_files.specs.declared.limits.TheConstants.{MOST_POWER};
ghost use Rattle.walk_files.specs.declared.tokens.Token.TheVariants.{Close, Number};

use crate::fault::WalkFault;
use crate::limits::MOST_POWER;
use crate::tokens::{Token, Tokens};
use text_scan::Line;

/// How many darts the walk of a line has, or as many as 64 bits hold; or the fault of the line. Nothing is written out, so
/// it takes no memory, and no longer than the line is.
pub(crate) fn count_darts(line: &Line<'_>) -> Result<u64, WalkFault>
    ensures { MatchResult result (IsCount line.now) (λ fault. walk_on line.now ≡ Err fault) }
{
    let mut tokens = Tokens::of(line);
    let mut vertex = tokens.number()?;
    let mut darts: u64 = 0;
    while let Some(token) = tokens.next()? {
        match token {
            Token::Number(next) => {
                vertex = next;
                darts = darts.saturating_add(1);
            }
            Token::Open => {
                darts = darts.saturating_add(count_group(&mut tokens, vertex)?);
            }
            Token::Close => return Err(tokens.no_walk()),
        }
    }
    Ok(darts)
}

/// How many vertices a group stands for whose opening was read behind a vertex.
fn count_group(tokens: &mut Tokens<'_>, vertex: u32) -> Result<u64, WalkFault>
    ensures count { MatchResult result (IsGroupCount tokens.old.line vertex [] tokens.old.words tokens.new.words)
        (λ fault. rest_of tokens.old.line vertex (Some []) tokens.old.words ≡ Err fault) }
    ensures line { OnOk result (tokens.new.line ≡ tokens.old.line) }
    ensures shorter { OnOk result (length tokens.new.words < length tokens.old.words) }
{
    let mut size: u64 = 0;
    let mut closed = false;
    while let Some(token) = tokens.next()? {
        match token {
            Token::Number(number) => {
                size = size.saturating_add(1);
                closed = number == vertex;
            }
            Token::Close if closed => {
                let power = read_power(tokens)?;
                return Ok(size.saturating_mul(power as u64));
            }
            Token::Close => return Err(tokens.no_walk()),
            Token::Open => return Err(tokens.no_walk()),
        }
    }
    Err(tokens.no_walk())
}

/// The power of a group whose end was read.
pub(crate) fn read_power(tokens: &mut Tokens<'_>) -> Result<u32, WalkFault>
    ensures power { MatchResult result
        (λ power. (each_some token_of tokens.old.words ≡ some_first (Some (Number power)) (each_some token_of tokens.new.words))
        × (power ≤ MOST_POWER) × (length tokens.new.words < length tokens.old.words))
        (λ fault. (vertex : ℕ) (group : List ℕ)
        → read_tokens (λ others. behind_vertex vertex (Some group) (Close ∷ others)) tokens.old.line (each_some token_of tokens.old.words)
        ≡ Err fault) }
    ensures line { OnOk result (tokens.new.line ≡ tokens.old.line) }
{
    let power = tokens.number()?;
    if power > MOST_POWER {
        return Err(tokens.no_walk());
    }
    Ok(power)
}
