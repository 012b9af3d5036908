//! A reader that gives the moves of a certificate one by one, or its denial.
ghost use Rattle.std.specs.Prelude.{◌≡◌, ◌⊎◌, ◌^◌, ◌<◌, length, IsTrue, IfOk, false, None, Err};
ghost use Rattle.walk_files.specs.Certificates.{head_of_text};
ghost use Rattle.walk_files.specs.declared.fault.CertFault.TheVariants.{OutOfMemory};

use crate::certificate::{CertHead, read_head};
use crate::denial::read_denial;
use crate::fault::CertFault;
use crate::moves::read_next;
use labellings::Denial;
use std::alloc::Global;
use std::marker::Model;
use surf_model::Move;
use text_scan::Cursor;

/// A certificate, of which the head and some lines behind it were read.
///
/// Once it has refused, it gives that refusal again. Only a denial takes memory.
#[derive(Debug, Drop)]
pub struct CertReader<'a> {
    text: &'a [u8],
    /// Behind the line that was read last.
    cursor: Cursor<'a>,
    head: CertHead,
    /// How many moves were given.
    given: u64,
    /// Whether the denial was given.
    denied: bool,
    refusal: Option<CertFault>,
}

impl<'a> Model for CertReader<'a> {
    ghost use Rattle.walk_files.specs.Readers.{Certificate, IsAt};

    ghost Value = { Certificate };

    ghost view = { λ a.
        record { text = a.text.now; head = a.head; given = a.given; denied = a.denied; refusal = a.refusal } };

    ghost invariant = { λ a.
        IsAt (record { text = a.text.now; head = a.head; given = a.given; denied = a.denied; refusal = a.refusal }) a.cursor };
}

impl<'a> CertReader<'a> {
    ghost use Rattle.walk_files.specs.Readers.{Certificate, started, is_list, next_answer, after_answer, moves_left, answer_first, is_denial, denial_left, after_denial};

    /// Reads the lines up to the head.
    pub fn start(bytes: &'a [u8]) -> Result<CertReader<'a>, CertFault>
        ensures started { result ≡ started bytes.now (head_of_text bytes.now) }
        // So no denial was given yet.
        ensures fresh { IfOk result (λ reader. (reader.text ≡ bytes.now) × (reader.denied ≡ false) × (reader.refusal ≡ None)) }
    {
        let mut cursor = Cursor::new(bytes);
        let head = read_head(&mut cursor)?;
        Ok(CertReader {
            text: bytes,
            cursor,
            head,
            given: 0,
            denied: false,
            refusal: None,
        })
    }

    /// The head.
    pub fn head(&self) -> CertHead
        ensures { result ≡ self.now.head }
    {
        self.head
    }

    /// The move on the next line with words, or `None` behind the last one, where the text was read
    /// to its end.
    pub fn next_move(&mut self) -> Result<Option<Move>, CertFault>
        requires { IsTrue (is_list self.old) }
        ensures answer { result ≡ next_answer self.old }
        ensures after { self.new ≡ after_answer self.old result }
        // So the moves are those of the text, up to its first fault.
        ensures left { moves_left self.old ≡ answer_first result (moves_left self.new) }
    {
        if let Some(fault) = self.refusal {
            return Err(fault);
        }
        let to_come = self.head.count().saturating_sub(self.given);
        match read_next(&mut self.cursor, to_come) {
            Ok(Some(mv)) => {
                self.given += 1;
                Ok(Some(mv))
            }
            Ok(None) => Ok(None),
            Err(fault) => {
                self.refusal = Some(fault);
                Err(fault)
            }
        }
    }

    /// The denial that all lines behind the head are, or the first fault among them. Memory is taken for what was read
    /// alone, and none by the degree in the head.
    pub fn denial(&mut self, alloc: Global) -> Result<Denial, CertFault>
        requires head { IsTrue (is_denial self.old) }
        requires once { self.old.denied ≡ false }
        requires short { length self.old.text < 2 ^ 32 }
        ensures answer { (result ≡ denial_left self.old) ⊎ ((self.old.refusal ≡ None) × (result ≡ Err OutOfMemory)) }
        ensures after { self.new ≡ after_denial self.old result }
    {
        if let Some(fault) = self.refusal {
            return Err(fault);
        }
        let answer = read_denial(alloc, &mut self.cursor, self.head.degree());
        match &answer {
            Ok(_) => self.denied = true,
            Err(fault) => self.refusal = Some(*fault),
        }
        answer
    }
}
