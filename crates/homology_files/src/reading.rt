//! Reading certificates.
ghost use Rattle.std.specs.Prelude.{◌≡◌, ◌⊎◌, [], ◌∷◌, drop, List, Err, MatchResult};
ghost use Rattle.text_scan.specs.Lines.{Line};
ghost use Rattle.text_scan.specs.Unread.{lines_left};
ghost use Rattle.homology_files.specs.HomologyTexts.{face_number_of, is_face_above, edge_number_of, is_edge_above, numbers_in, cert_in, cert_of_text};
ghost use Rattle.homology_files.specs.declared.fault.HomologyFault.TheVariants.{OutOfMemory};

use crate::fault::HomologyFault;
use crate::head::{Kind, read_head};
use crate::words::{edge_rises, face_rises, read_edge_number, read_face_number};
use homology::{ChainNumbers, CocycleNumbers, HomologyCert};
use std::alloc::Global;
use text_scan::Cursor;

/// The certificate that a text is, or its first fault in order of lines. Memory is taken for what was read alone, and none by
/// the number in the head.
pub fn read_homology(alloc: Global, bytes: &[u8]) -> Result<HomologyCert, HomologyFault>
    ensures { (result ≡ cert_of_text bytes.now) ⊎ (result ≡ Err OutOfMemory) }
{
    let mut cursor = Cursor::new(bytes);
    let head = read_head(&mut cursor)?;
    match head.kind {
        Kind::OfFaces => Ok(HomologyCert::Chain(read_chain(alloc, &mut cursor, head.count)?)),
        Kind::OfEdges => Ok(HomologyCert::Cocycle(read_cocycle(alloc, &mut cursor, head.count)?)),
    }
}

/// Reads the lines that are left, all of them, as the numbers of a chain behind a head with this count.
fn read_chain(
    alloc: Global,
    cursor: &mut Cursor<'_>,
    count: u32,
) -> Result<ChainNumbers, HomologyFault>
    ensures { (result ≡ numbers_in face_number_of is_face_above cursor.old.end_line count [] (lines_left cursor.old))
        ⊎ (result ≡ Err OutOfMemory) }
{
    let mut numbers = ChainNumbers::new(alloc);
    for _ in 0..count {
        let line = next_line(cursor)?;
        match read_face_number(cursor) {
            Some(number) if face_rises(&numbers, number) => numbers.push(number)?,
            _ => return Err(HomologyFault::Bad { line }),
        }
    }
    end_text(cursor)?;
    Ok(numbers)
}

/// Reads the lines that are left, all of them, as the numbers of a cocycle behind a head with this count.
fn read_cocycle(
    alloc: Global,
    cursor: &mut Cursor<'_>,
    count: u32,
) -> Result<CocycleNumbers, HomologyFault>
    ensures { (result ≡ numbers_in edge_number_of is_edge_above cursor.old.end_line count [] (lines_left cursor.old))
        ⊎ (result ≡ Err OutOfMemory) }
{
    let mut numbers = CocycleNumbers::new(alloc);
    for _ in 0..count {
        let line = next_line(cursor)?;
        match read_edge_number(cursor) {
            Some(number) if edge_rises(&numbers, number) => numbers.push(number)?,
            _ => return Err(HomologyFault::Bad { line }),
        }
    }
    end_text(cursor)?;
    Ok(numbers)
}

/// Goes to the next line that is not blank, and gives its number.
fn next_line(cursor: &mut Cursor<'_>) -> Result<u64, HomologyFault>
    ensures line { MatchResult result
        (λ line. lines_left cursor.old ≡ record { number = line; words = cursor.new.words } ∷ cursor.new.lines)
        (λ fault. (lines_left cursor.old ≡ []) × (fault ≡ HomologyFault.Ended cursor.old.end_line)) }
    ensures end { cursor.new.end_line ≡ cursor.old.end_line }
{
    if !cursor.find_line() {
        return Err(HomologyFault::Ended {
            line: cursor.end_line(),
        });
    }
    Ok(cursor.line())
}

/// Sees that no line is left that is not blank.
fn end_text(cursor: &mut Cursor<'_>) -> Result<(), HomologyFault>
    ensures { MatchResult result (λ _. lines_left cursor.old ≡ [])
        (λ fault. (line : Line) × (lines : List Line) × (lines_left cursor.old ≡ line ∷ lines)
        × (fault ≡ HomologyFault.Extra line.number)) }
{
    if cursor.find_line() {
        return Err(HomologyFault::Extra {
            line: cursor.line(),
        });
    }
    Ok(())
}
